//! Changes that a link in memory makes to what it delivers.

ghost use Rattle.std.specs.Prelude.{◌≡◌, ℕ, List, Some, IfOk, false, length, slice_set};
ghost use Rattle.sspi_delegate.specs.Edits.{fails, gives_whole, is_fail, is_failing};
ghost use Rattle.sspi_delegate.specs.Link.{edited_once, edited, sent_texts, text_at};

use crate::carried::Carried;
use sspi_types::Bytes;
use std::alloc::{AllocError, Global};

/// What a `MemoryLink` does to one entry of its log, which is counted from 0.
#[derive(Drop)]
pub struct Edit {
    /// The number of the entry, from 0.
    pub entry: u32,
    /// What happens to it.
    pub kind: EditKind,
}

/// How an edit changes what is delivered.
#[derive(Drop)]
pub enum EditKind {
    /// Nothing is delivered.
    Drop,
    /// Only the first bytes are delivered, at most this many.
    Cut(usize),
    /// The byte at this place becomes this one; past the end, nothing changes.
    Set(usize, u8),
    /// These bytes are appended.
    Add(Bytes),
    /// These bytes are delivered instead.
    Give(Bytes),
    /// What this earlier entry sent is delivered instead; nothing if this entry is not an earlier
    /// one.
    Again(u32),
    /// The message is not carried: `carry` fails.
    Fail,
}

impl Edit {
    /// A copy in memory of its own, equal to this edit.
    pub fn clone(&self, alloc: Global) -> Result<Edit, AllocError>
        ensures { IfOk result (λ copy. copy ≡ self.now) }
    {
        Ok(Edit {
            entry: self.entry,
            kind: self.kind.clone(alloc)?,
        })
    }

    fn fails(&self, entry: usize) -> bool
        ensures { result ≡ is_failing entry self.now }
    {
        self.entry as usize == entry && matches!(self.kind, EditKind::Fail)
    }

    fn gives_whole(&self, entry: usize) -> bool
        ensures { result ≡ gives_whole entry self.now }
    {
        self.entry as usize == entry
            && matches!(
                self.kind,
                EditKind::Drop | EditKind::Give(_) | EditKind::Again(_)
            )
    }
}

impl EditKind {
    /// A copy in memory of its own, equal to this kind.
    pub fn clone(&self, alloc: Global) -> Result<EditKind, AllocError>
        ensures { IfOk result (λ copy. copy ≡ self.now) }
    {
        Ok(match self {
            EditKind::Drop => EditKind::Drop,
            EditKind::Cut(length) => EditKind::Cut(*length),
            EditKind::Set(at, byte) => EditKind::Set(*at, *byte),
            EditKind::Add(more) => EditKind::Add(more.clone(alloc)?),
            EditKind::Give(bytes) => EditKind::Give(bytes.clone(alloc)?),
            EditKind::Again(entry) => EditKind::Again(*entry),
            EditKind::Fail => EditKind::Fail,
        })
    }
}

/// What the edits of the next entry make of `sent`; `None` if one of them fails the carry.
pub fn deliver_edited(
    alloc: Global,
    edits: &[Edit],
    entries: &[Carried],
    sent: &[u8],
) -> Result<Option<Bytes>, AllocError>
    ensures { IfOk result (λ text. text ≡ edited edits.now (sent_texts entries.now) sent.now) }
{
    if fails(edits, entries.len()) {
        return Ok(None);
    }
    let text = apply_all(alloc, since_whole(edits, entries.len()), entries, sent)?;
    Ok(Some(text))
}

/// Whether one of them fails the carry of this entry.
fn fails(edits: &[Edit], entry: usize) -> bool
    ensures { result ≡ fails entry edits.now }
{
    edits.iter().any(|edit| edit.fails(entry))
}

/// The edits from the last one that gives this entry a text of its own, or all. Earlier edits
/// have no effect, so no text is made for an edit that a later one replaces.
fn since_whole(edits: &[Edit], entry: usize) -> &[Edit]
    ensures same { (earlier : List (List ℕ)) (sent : List ℕ) → length earlier ≡ entry →
        fails entry edits.now ≡ false →
        edited result.now earlier sent ≡ edited edits.now earlier sent }
    ensures none { fails entry edits.now ≡ false → fails entry result.now ≡ false }
{
    let mut start = 0;
    for (place, edit) in edits.iter().enumerate() {
        if edit.gives_whole(entry) {
            start = place;
        }
    }
    &edits[start..]
}

/// What the edits give, one after another, if none fails.
fn apply_all(
    alloc: Global,
    edits: &[Edit],
    entries: &[Carried],
    sent: &[u8],
) -> Result<Bytes, AllocError>
    ensures { IfOk result (λ text. fails (length entries.now) edits.now ≡ false →
        edited edits.now (sent_texts entries.now) sent.now ≡ Some text) }
{
    let mut text = first_text(alloc, edits, entries.len(), sent)?;
    for edit in edits {
        if edit.entry as usize == entries.len() {
            text = apply(alloc, &edit.kind, entries, text)?;
        }
    }
    Ok(text)
}

/// The text that the edits begin with: what was sent, of which no copy is made if the first edit
/// replaces it.
fn first_text(alloc: Global, edits: &[Edit], entry: usize, sent: &[u8]) -> Result<Bytes, AllocError>
    ensures { IfOk result (λ text. (earlier : List (List ℕ)) → length earlier ≡ entry →
        edited edits.now earlier text ≡ edited edits.now earlier sent.now) }
{
    match edits.first() {
        Some(first) if first.gives_whole(entry) => Ok(Bytes::new(alloc)),
        _ => Bytes::from_slice(alloc, sent),
    }
}

/// What one edit gives, if it does not fail.
fn apply(
    alloc: Global,
    kind: &EditKind,
    entries: &[Carried],
    text: Bytes,
) -> Result<Bytes, AllocError>
    ensures { IfOk result (λ changed. is_fail kind.now ≡ false →
        edited_once kind.now (sent_texts entries.now) text ≡ Some changed) }
{
    let mut text = text;
    match kind {
        EditKind::Drop => text.truncate(0),
        EditKind::Cut(length) => text.truncate(*length),
        EditKind::Set(at, byte) => set_byte(&mut text, *at, *byte),
        EditKind::Add(more) => text.push_slice(more.as_slice())?,
        EditKind::Give(bytes) => return bytes.clone(alloc),
        EditKind::Again(entry) => return sent_by(alloc, entries, *entry),
        EditKind::Fail => {}
    }
    Ok(text)
}

fn set_byte(text: &mut Bytes, at: usize, byte: u8)
    ensures { text.new ≡ slice_set text.old at byte }
{
    if at < text.len() {
        text.overwrite(at, &[byte]);
    }
}

fn sent_by(alloc: Global, entries: &[Carried], entry: u32) -> Result<Bytes, AllocError>
    ensures { IfOk result (λ text. text ≡ text_at (sent_texts entries.now) entry) }
{
    match entries.get(entry as usize) {
        Some(earlier) => earlier.sent.clone(alloc),
        None => Ok(Bytes::new(alloc)),
    }
}
