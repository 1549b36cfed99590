//! What the edits of a link give, row by row, and a link over a carrier.

ghost use Rattle.std.specs.Prelude.{◌≡◌, Err, OnErr};

use sspi_delegate::{Carried, Carrier, Edit, EditKind, End, KeptLink, Link, LinkError, MemoryLink};
use sspi_types::Bytes;
use std::alloc::{AllocError, Global};
use std::process::Abort;

/// What was made. Generic, since dropping a value of a type parameter is one step.
pub fn given<T, E: Drop>(rt: &impl Abort, made: Result<T, E>) -> T {
    match made {
        Ok(value) => value,
        Err(_) => rt.abort(),
    }
}

/// An edit whose bytes are borrowed.
#[derive(Clone, Copy)]
pub enum Kind {
    Drop,
    Cut(usize),
    Set(usize, u8),
    Add(&'static [u8]),
    Give(&'static [u8]),
    Again(u32),
    Fail,
}

pub fn edit(alloc: Global, entry: u32, kind: Kind) -> Result<Edit, AllocError> {
    let kind = match kind {
        Kind::Drop => EditKind::Drop,
        Kind::Cut(count) => EditKind::Cut(count),
        Kind::Set(place, byte) => EditKind::Set(place, byte),
        Kind::Add(more) => EditKind::Add(Bytes::from_slice(alloc, more)?),
        Kind::Give(bytes) => EditKind::Give(Bytes::from_slice(alloc, bytes)?),
        Kind::Again(earlier) => EditKind::Again(earlier),
        Kind::Fail => EditKind::Fail,
    };
    Edit { entry, kind }.clone(alloc)
}

/// Reads the newest delivery to its end, two bytes at a time.
fn read_to_end<L: Link>(alloc: Global, link: &mut L) -> Result<Bytes, LinkError> {
    let mut text = Bytes::new(alloc);
    let mut room = [0u8; 2];
    for _ in 0..16 {
        let count = link.piece(&mut room)?;
        if count == 0 {
            break;
        }
        text.push_slice(&room[..count])?;
    }
    Ok(text)
}

/// Three messages over a link with these edits: what each delivery gave.
fn deliveries(alloc: Global, edits: &[(u32, Kind)]) -> Result<Vec<Bytes>, LinkError> {
    let mut all = Vec::new(alloc);
    for (entry, kind) in edits {
        all.push(edit(alloc, *entry, *kind)?)?;
    }
    let mut link = MemoryLink::new(alloc, all);
    let mut delivered = Vec::new(alloc);
    let sent: [(End, &[u8]); 3] = [
        (End::Client, b"abc"),
        (End::Server, b"de"),
        (End::Client, b"f"),
    ];
    for (from, text) in sent {
        link.carry(from, text)?;
        delivered.push(read_to_end(alloc, &mut link)?)?;
    }
    Ok(delivered)
}

fn same_texts(found: &[Bytes], wanted: &[&[u8]]) -> bool {
    found.len() == wanted.len()
        && found
            .iter()
            .zip(wanted.iter())
            .all(|(text, bytes)| text.as_slice() == *bytes)
}

#[test]
fn edits_change_what_is_delivered(rt: HostRuntime) {
    let rows: [(&[(u32, Kind)], &[&[u8]]); 17] = [
        (&[], &[b"abc", b"de", b"f"]),
        (&[(7, Kind::Fail)], &[b"abc", b"de", b"f"]),
        (&[(0, Kind::Drop)], &[b"", b"de", b"f"]),
        (&[(1, Kind::Cut(1))], &[b"abc", b"d", b"f"]),
        (&[(1, Kind::Cut(3))], &[b"abc", b"de", b"f"]),
        (&[(0, Kind::Set(2, b'x'))], &[b"abx", b"de", b"f"]),
        (&[(0, Kind::Set(3, b'x'))], &[b"abc", b"de", b"f"]),
        (&[(2, Kind::Add(b"gh"))], &[b"abc", b"de", b"fgh"]),
        (&[(1, Kind::Give(b"xyz"))], &[b"abc", b"xyz", b"f"]),
        (&[(2, Kind::Again(0))], &[b"abc", b"de", b"abc"]),
        (&[(1, Kind::Again(1))], &[b"abc", b"", b"f"]),
        (&[(1, Kind::Again(2))], &[b"abc", b"", b"f"]),
        (
            &[(0, Kind::Give(b"xyz")), (1, Kind::Again(0))],
            &[b"xyz", b"abc", b"f"],
        ),
        (
            &[(0, Kind::Add(b"de")), (0, Kind::Cut(4))],
            &[b"abcd", b"de", b"f"],
        ),
        (
            &[(0, Kind::Cut(4)), (0, Kind::Add(b"de"))],
            &[b"abcde", b"de", b"f"],
        ),
        (
            &[(2, Kind::Drop), (1, Kind::Drop), (2, Kind::Add(b"i"))],
            &[b"abc", b"", b"i"],
        ),
        (
            &[
                (2, Kind::Cut(0)),
                (2, Kind::Again(0)),
                (2, Kind::Set(0, b'x')),
                (2, Kind::Again(1)),
                (2, Kind::Add(b"i")),
            ],
            &[b"abc", b"de", b"dei"],
        ),
    ];
    for (edits, expected) in rows {
        let delivered = given(&rt, deliveries(rt.alloc(), edits));
        assert!(rt; same_texts(&delivered, expected));
    }
}

/// The lengths of the pieces in which `abc` comes when four bytes are asked for at once.
fn piece_lengths(link: &mut MemoryLink) -> [usize; 4] {
    let mut lengths = [9; 4];
    if link.carry(End::Client, b"abc").is_ok() {
        for length in lengths.iter_mut() {
            *length = link.piece(&mut [0u8; 4]).unwrap_or(9);
        }
    }
    lengths
}

#[test]
fn pieces_are_limited(rt: HostRuntime) {
    let mut link = MemoryLink::new(rt.alloc(), Vec::new(rt.alloc()));
    assert_eq!(rt; piece_lengths(&mut link), [3, 0, 0, 0]);
    for (most, lengths) in [
        (0, [1, 1, 1, 0]),
        (1, [1, 1, 1, 0]),
        (2, [2, 1, 0, 0]),
        (4, [3, 0, 0, 0]),
    ] {
        link.set_piece(most);
        assert_eq!(rt; piece_lengths(&mut link), lengths);
    }
}

/// Carries a message. Out of memory leaves a link in memory as it was.
fn carry_or_keep(link: &mut MemoryLink, from: End, sent: &[u8]) -> Result<(), LinkError>
    ensures { result ≡ Err LinkError.InsufficientMemory → link.new ≡ link.old }
{
    link.carry(from, sent)
}

/// Reads the next bytes. Each refusal leaves a link in memory as it was.
fn piece_or_keep(link: &mut MemoryLink, into: &mut [u8]) -> Result<usize, LinkError>
    ensures { OnErr result (link.new ≡ link.old) }
{
    link.piece(into)
}

#[test]
fn a_link_in_memory_is_kept(rt: HostRuntime) {
    let mut link = MemoryLink::new(rt.alloc(), Vec::new(rt.alloc()));
    assert_eq!(rt; carry_or_keep(&mut link, End::Client, b"abc"), Ok(()));
    assert_eq!(rt; piece_or_keep(&mut link, &mut [0u8; 4]), Ok(3));
}

fn has_failed(rt: &impl Abort, answer: Result<Vec<Bytes>, LinkError>) {
    match answer {
        Ok(_) => assert!(rt; false),
        Err(error) => assert_eq!(rt; error, LinkError::Failed),
    }
}

#[test]
fn an_edit_fails_the_carry(rt: HostRuntime) {
    for edits in [
        [(0, Kind::Fail), (0, Kind::Drop)],
        [(2, Kind::Give(b"x")), (2, Kind::Fail)],
    ] {
        has_failed(&rt, deliveries(rt.alloc(), &edits));
    }
}

/// Returns what it was sent.
#[derive(Drop)]
pub struct Echo {
    text: Bytes,
    taken: usize,
    sends_left: Option<u32>,
    receives_left: Option<u32>,
    faults: u64,
}

/// A carrier whose `send` and `receive` each fail once, after the given number of calls.
pub fn echoing(alloc: Global, sends_left: Option<u32>, receives_left: Option<u32>) -> Echo {
    Echo {
        text: Bytes::new(alloc),
        taken: 0,
        sends_left,
        receives_left,
        faults: 0,
    }
}

/// One call more: whether it is the one that fails.
fn fails(calls_left: &mut Option<u32>) -> bool {
    let Some(left) = *calls_left else {
        return false;
    };
    *calls_left = left.checked_sub(1);
    left == 0
}

impl Carrier for Echo {
    ghost use Rattle.std.specs.Prelude.{◌≡◌};

    ghost faults = { λ carrier. carrier.faults };

    ghost sends = { λ _ _ sent carrier. (carrier.text ≡ sent) × (carrier.taken ≡ 0) };

    ghost receives = { λ before count _ carrier. carrier.text ≡ before.text };

    ghost refuses = { λ _ _ _. Unit {0} };

    fn send(&mut self, _from: End, sent: &[u8]) -> Result<(), LinkError> {
        if fails(&mut self.sends_left) {
            self.faults = self.faults.saturating_add(1);
            return Err(LinkError::Failed);
        }
        self.taken = 0;
        self.text.truncate(0);
        self.text.push_slice(sent)?;
        Ok(())
    }

    fn receive(&mut self, into: &mut [u8]) -> Result<usize, LinkError> {
        if fails(&mut self.receives_left) {
            self.faults = self.faults.saturating_add(1);
            return Err(LinkError::Failed);
        }
        let rest = self.text.as_slice().get(self.taken..).unwrap_or(&[]);
        let count = rest.len().min(into.len());
        into[..count].copy_from_slice(&rest[..count]);
        self.taken = self.taken.saturating_add(count);
        Ok(count)
    }
}

fn assert_entry(rt: &impl Abort, entry: &Carried, from: End, text: &[u8]) {
    assert_eq!(rt; entry.from, from);
    assert_eq!(rt; entry.sent.as_slice(), text);
    assert_eq!(rt; entry.delivered.as_slice(), text);
    assert!(rt; entry.ended);
}

#[test]
fn kept_link_keeps_the_log(rt: HostRuntime) {
    let mut link = KeptLink::new(rt.alloc(), echoing(rt.alloc(), Some(2), None));
    assert_eq!(rt; link.piece(&mut [0u8; 4]), Ok(0));
    for (from, text) in [(End::Client, b"abc"), (End::Server, b"def")] {
        assert_eq!(rt; link.carry(from, text), Ok(()));
        let delivered = given(&rt, read_to_end(rt.alloc(), &mut link));
        assert_eq!(rt; delivered.as_slice(), text.as_slice());
        assert_eq!(rt; link.piece(&mut [0u8; 4]), Ok(0));
    }
    assert_eq!(rt; link.carry(End::Client, b"g"), Err(LinkError::Failed));
    has_two_entries(&rt, link.log());
}

fn has_two_entries(rt: &impl Abort, log: &[Carried]) {
    match log {
        [first, second] => {
            assert_entry(rt, first, End::Client, b"abc");
            assert_entry(rt, second, End::Server, b"def");
        }
        _ => assert!(rt; false),
    }
}
