//! Reads a request from pieces, as a stream delivers them.

ghost use Rattle.std.specs.Prelude.{◌≡◌, ◌≤◌, ℕ, List, [], ◌∷◌, ◌++◌, length, take, drop, None};
ghost use Rattle.std.specs.Prelude.{Some, Ok, Err, IfOk, IfErr, IsOk};
ghost use Rattle.std.specs.Prelude.{OnOk, OnErr};
ghost use Rattle.sspi_ber.specs.Outside.{NeedsNoMemory};
ghost use Rattle.sspi_tsreq.specs.declared.request.TsRequest.{TsRequest};
ghost use Rattle.sspi_tsreq.specs.Answer.{IsAnswer};
ghost use Rattle.sspi_tsreq.specs.Feeding.{IsPastReading, Stands, StandsInside};
ghost use Rattle.sspi_tsreq.specs.Walks.{WentOn, lengthened, numbered, with_text, filled, slot};
ghost use Rattle.sspi_tsreq.specs.Walks.{IsHere, IsInText, IsQuiet};
ghost use Rattle.sspi_tsreq.specs.Grammar.{IsRequest};
ghost use Rattle.sspi_tsreq.specs.Quiet.{IsWithout, Opened};
ghost use Rattle.sspi_tsreq.specs.Places.{octets_of, rest_at, text_from, text_of};

use crate::ending::ended;
use crate::outer::read_outer;
use crate::place::{Element, Place, Stage, Text};
use crate::request::TsRequest;
use crate::walk::{Slot, Walk, after_text};
use sspi_ber::WireKind;
use sspi_types::Bytes;
use std::alloc::{AllocError, Global};

/// A reader of one request, which is fed pieces of any size and keeps the fields that it read, not
/// the bytes. It is not told how long the request is, and keeps no more than it was fed.
#[derive(Drop)]
pub struct TsReader {
    pub(crate) alloc: Global,
    pub(crate) stage: Stage,
    pub(crate) nonce: [u8; 32],
    pub(crate) request: TsRequest,
}

/// A copy of what is in the piece.
fn copied(alloc: Global, octets: Slot<'_>) -> Result<Option<Bytes>, AllocError>
    ensures ok { IfOk result (λ copy. copy ≡ slot octets.entry None) }
    ensures memory { IfErr result (λ _. IsHere octets.entry) }
{
    match octets {
        Slot::Kept => Ok(None),
        Slot::Absent => Ok(None),
        Slot::Here(octets) => Ok(Some(Bytes::from_slice(alloc, octets)?)),
    }
}

#[inline(always)]
fn settle(field: &mut Option<Bytes>, octets: Slot<'_>, copy: Option<Bytes>)
    requires { copy ≡ slot octets None }
    ensures { field.new ≡ slot octets.entry field.old }
{
    match octets {
        Slot::Kept => {}
        Slot::Absent => *field = None,
        Slot::Here(_) => *field = copy,
    }
}

/// Appends the bytes to the field; when out of memory, the field stays as it was.
fn lengthen(alloc: Global, field: &mut Option<Bytes>, octets: &[u8]) -> Result<(), AllocError>
    ensures ok { OnOk result (field.new ≡ Some (octets_of field.old ++ octets.now)) }
    ensures err { OnErr result (field.new ≡ field.old) }
{
    match field {
        Some(bytes) => bytes.push_slice(octets),
        None => {
            *field = Some(Bytes::from_slice(alloc, octets)?);
            Ok(())
        }
    }
}

/// The bytes of the piece that belong to the reader's current field, and the place after them.
fn first_octets<'a>(place: Place, body: &'a [u8]) -> (&'a [u8], Place)
    // Which bytes these are.
    ensures front { result.0.now ≡ take (length result.0.now) body.now }
    ensures within { length result.0.now ≤ length body.now }
    // Where reading goes on.
    ensures goes { (nonce more : List ℕ) (r : TsRequest) →
        rest_at nonce place r (result.0.now ++ more) ≡ rest_at nonce result.1
        (lengthened place r result.0.now) more }
    ensures text { IsInText result.1 → drop (length result.0.now) body.now ≡ [] }
    ensures quiet { (Opened place → ⊥) → Opened result.1 → ⊥ }
{
    let none = body.split_at(0).0;
    match place {
        Place::InText(text, more) => octets_of_field(text, more, body),
        Place::AtTag(_) => (none, place),
        Place::InLength(_, _) => (none, place),
        Place::InVersion(_, _) => (none, place),
        Place::InCode(_, _) => (none, place),
        Place::InNonce(_) => (none, place),
        Place::Whole => (none, place),
        Place::Faulty => (none, place),
    }
}

fn octets_of_field<'a>(text: Text, more: u32, body: &'a [u8]) -> (&'a [u8], Place)
    ensures front { result.0.now ≡ take (length result.0.now) body.now }
    ensures within { length result.0.now ≤ length body.now }
    ensures goes { (nonce rest : List ℕ) (r : TsRequest) →
        text_from text more r (result.0.now ++ rest) ≡ rest_at nonce result.1
        (with_text text r (text_of text r ++ result.0.now)) rest }
    ensures text { IsInText result.1 → drop (length result.0.now) body.now ≡ [] }
{
    if body.len() <= more as usize {
        let left = more - body.len() as u32;
        (body, Place::InText(text, left))
    } else {
        let octets = body.split_at(more as usize + 1).0;
        (octets, Place::AtTag(Element::Optional(after_text(text))))
    }
}

impl TsReader {
    /// An empty reader. Allocates nothing.
    pub fn new(alloc: Global) -> TsReader
        ensures { Stands result [] }
    {
        TsReader {
            alloc,
            stage: Stage::OuterTag,
            nonce: [0; 32],
            request: TsRequest::bare(0),
        }
    }

    /// Reads on, with `piece` after what was fed before. `InsufficientMemory` is the only refusal;
    /// it leaves the reader as it was, so the same piece may be fed again. Memory is allocated for
    /// the octets of fields alone: none until a byte is 0x04, the identifier octet of an OCTET
    /// STRING, and none once the message is whole or its header is bad. Bytes after the request
    /// are dropped. `finish` reports the faults.
    pub fn feed(&mut self, piece: &[u8]) -> Result<(), WireKind>
        // What `Ok` holds.
        ensures ok { (bytes : List ℕ) → Stands self.old bytes →
            OnOk result (Stands self.new (bytes ++ piece.now)) }
        // What a refusal says, and what it leaves.
        ensures err { OnErr result (self.new ≡ self.old) }
        ensures kind { IfErr result (λ kind. kind ≡ WireKind.InsufficientMemory) }
        // When there is no refusal.
        ensures free { (bytes : List ℕ) → Stands self.old bytes →
            IsWithout 0x04 (bytes ++ piece.now) → IsOk result }
        ensures past { (bytes : List ℕ) → Stands self.old bytes → IsPastReading bytes →
            IsOk result }
    {
        if let [byte] = piece {
            return self.feed_byte(*byte);
        }
        if let Stage::OuterTag = self.stage {
            return self.feed_first(piece);
        }
        self.feed_on(piece)
    }

    /// The first piece.
    #[inline(never)]
    fn feed_first(&mut self, piece: &[u8]) -> Result<(), WireKind>
        // What must hold before.
        requires { self.old.stage ≡ Stage.OuterTag }
        // What `Ok` holds.
        ensures ok { (bytes : List ℕ) → Stands self.old bytes →
            OnOk result (Stands self.new (bytes ++ piece.now)) }
        // What a refusal says, and what it leaves.
        ensures err { OnErr result (self.new ≡ self.old) }
        ensures kind { IfErr result (λ kind. kind ≡ WireKind.InsufficientMemory) }
        // When there is no refusal.
        ensures free { (bytes : List ℕ) → Stands self.old bytes →
            IsWithout 0x04 (bytes ++ piece.now) → IsOk result }
        ensures past { (bytes : List ℕ) → Stands self.old bytes → IsPastReading bytes →
            IsOk result }
    {
        match self.read_whole(piece) {
            Ok(()) => Ok(()),
            Err(WireKind::InsufficientMemory) => Err(WireKind::InsufficientMemory),
            Err(_) => self.feed_on(piece),
        }
    }

    /// Reads the request, if `piece` has all of it and nothing came before.
    #[inline(always)]
    fn read_whole(&mut self, piece: &[u8]) -> Result<(), WireKind>
        ensures ok { OnOk result (Stands self.new piece.now) }
        ensures err { OnErr result (self.new ≡ self.old) }
        ensures answer { IfErr result (λ kind. IsAnswer piece.now (Err kind)) }
    {
        self.request = TsRequest::from_buffer(self.alloc, piece)?;
        self.stage = Stage::Content(0, Place::Whole);
        Ok(())
    }

    /// One byte.
    #[inline(never)]
    fn feed_byte(&mut self, byte: u8) -> Result<(), WireKind>
        // What `Ok` holds.
        ensures ok { (bytes : List ℕ) → Stands self.old bytes →
            OnOk result (Stands self.new (bytes ++ byte ∷ [])) }
        // What a refusal says, and what it leaves.
        ensures err { OnErr result (self.new ≡ self.old) }
        ensures kind { IfErr result (λ kind. kind ≡ WireKind.InsufficientMemory) }
        // When there is no refusal.
        ensures free { (bytes : List ℕ) → Stands self.old bytes →
            IsWithout 0x04 (bytes ++ byte ∷ []) → IsOk result }
        ensures past { (bytes : List ℕ) → Stands self.old bytes → IsPastReading bytes →
            IsOk result }
    {
        if let Stage::Content(left, place) = self.stage
            && left > 0
        {
            self.read_byte(left - 1, place, byte)?;
            return Ok(());
        }
        self.feed_on(&[byte])
    }

    /// Reads field by field, from the reader's position.
    #[inline(never)]
    fn feed_on(&mut self, piece: &[u8]) -> Result<(), WireKind>
        // What `Ok` holds.
        ensures ok { (bytes : List ℕ) → Stands self.old bytes →
            OnOk result (Stands self.new (bytes ++ piece.now)) }
        // What a refusal says, and what it leaves.
        ensures err { OnErr result (self.new ≡ self.old) }
        ensures kind { IfErr result (λ kind. kind ≡ WireKind.InsufficientMemory) }
        // When there is no refusal.
        ensures free { (bytes : List ℕ) → Stands self.old bytes →
            IsWithout 0x04 (bytes ++ piece.now) → IsOk result }
        ensures past { (bytes : List ℕ) → Stands self.old bytes → IsPastReading bytes →
            IsOk result }
    {
        let (stage, taken) = read_outer(self.stage, piece);
        match stage {
            Stage::Content(left, place) => self.feed_content(left, place, &piece[taken..]),
            Stage::OuterTag => self.stay(stage),
            Stage::OuterLength(_) => self.stay(stage),
            Stage::Refused => self.stay(stage),
        }
    }

    /// What `from_buffer` returns for all that was fed: the request that it begins with, or its
    /// first fault. A fault of the content is reported only if the content is whole; otherwise the
    /// fault is `UnexpectedEof`. Allocates nothing.
    pub fn finish(self) -> Result<TsRequest, WireKind>
        ensures answer { (bytes : List ℕ) → Stands self bytes → IsAnswer bytes result }
        ensures only { (bytes : List ℕ) → Stands self bytes → (r : TsRequest) (count : ℕ) →
            IsRequest bytes r count → result ≡ Ok r }
        ensures memory { NeedsNoMemory result }
    {
        if let Stage::Content(0, Place::Whole) = self.stage {
            return Ok(self.request);
        }
        self.conclude()
    }

    /// The answer at any place.
    #[inline(never)]
    fn conclude(self) -> Result<TsRequest, WireKind>
        ensures answer { (bytes : List ℕ) → Stands self bytes → IsAnswer bytes result }
        ensures only { (bytes : List ℕ) → Stands self bytes → (r : TsRequest) (count : ℕ) →
            IsRequest bytes r count → result ≡ Ok r }
        ensures memory { NeedsNoMemory result }
    {
        match self.stage {
            Stage::Content(left, place) => {
                if left > 0 {
                    return Err(WireKind::UnexpectedEof);
                }
                ended(place, self.request)
            }
            Stage::OuterTag => Err(WireKind::UnexpectedEof),
            Stage::OuterLength(_) => Err(WireKind::UnexpectedEof),
            Stage::Refused => Err(WireKind::UnexpectedEof),
        }
    }

    /// The header is not whole, or is bad.
    fn stay(&mut self, stage: Stage) -> Result<(), WireKind>
        ensures stage { self.new ≡ record self.old { stage = stage } }
        ensures ok { IsOk result }
    {
        self.stage = stage;
        Ok(())
    }

    /// Reads at most as many bytes as are still to come of the content.
    fn feed_content(&mut self, left: u32, place: Place, behind: &[u8]) -> Result<(), WireKind>
        // What `Ok` holds.
        ensures ok { (bytes : List ℕ) → StandsInside self.old.nonce left place self.old.request
            bytes →
            OnOk result (Stands self.new (bytes ++ behind.now)) }
        // What a refusal says, and what it leaves.
        ensures err { OnErr result (self.new ≡ self.old) }
        ensures kind { IfErr result (λ kind. kind ≡ WireKind.InsufficientMemory) }
        // When there is no refusal.
        ensures free { (Opened place → ⊥) → IsWithout 0x04 behind.now → IsOk result }
        ensures past { left ≡ 0 → IsOk result }
    {
        let len = behind.len().min(left as usize);
        if len == 0 {
            self.stage = Stage::Content(left, place);
            return Ok(());
        }
        self.read_content(left - len as u32, place, &behind[..len])?;
        Ok(())
    }

    /// Reads these bytes of the content; `left` more are still to come.
    pub(crate) fn read_content(
        &mut self,
        left: u32,
        place: Place,
        body: &[u8],
    ) -> Result<(), AllocError>
        ensures ok { OnOk result (WentOn self.old.nonce place self.old.request body.now left
            self.new) }
        ensures err { OnErr result (self.new ≡ self.old) }
        ensures free { (Opened place → ⊥) → IsWithout 0x04 body.now → IsOk result }
    {
        if let Place::InText(text, more) = place
            && body.len() <= more as usize
        {
            self.lengthen_field(place, body)?;
            self.stage = Stage::Content(left, Place::InText(text, more - body.len() as u32));
            return Ok(());
        }
        self.read_fields(left, place, body)
    }

    /// The same when the bytes may be more than octets of one field.
    fn read_fields(&mut self, left: u32, place: Place, body: &[u8]) -> Result<(), AllocError>
        ensures ok { OnOk result (WentOn self.old.nonce place self.old.request body.now left
            self.new) }
        ensures err { OnErr result (self.new ≡ self.old) }
        ensures free { (Opened place → ⊥) → IsWithout 0x04 body.now → IsOk result }
    {
        let (octets, behind) = first_octets(place, body);
        let mut walk = self.walk(behind);
        walk.advance(&body[octets.len()..]);
        let nego_tokens = copied(self.alloc, walk.nego_tokens)?;
        let auth_info = copied(self.alloc, walk.auth_info)?;
        let pub_key_auth = copied(self.alloc, walk.pub_key_auth)?;
        self.lengthen_field(place, octets)?;
        settle(&mut self.request.nego_tokens, walk.nego_tokens, nego_tokens);
        settle(&mut self.request.auth_info, walk.auth_info, auth_info);
        settle(
            &mut self.request.pub_key_auth,
            walk.pub_key_auth,
            pub_key_auth,
        );
        self.settle_rest(left, &walk);
        Ok(())
    }

    /// A walk that begins here.
    fn walk<'a>(&self, place: Place) -> Walk<'a>
        ensures place { result.place ≡ place }
        ensures nonce { result.nonce ≡ self.now.nonce }
        ensures fields { (base : TsRequest) → filled base result ≡ numbered self.now.request base }
        ensures quiet { (Opened place → ⊥) → IsQuiet result }
    {
        Walk {
            place,
            nonce: self.nonce,
            version: self.request.version,
            nego_tokens: Slot::Kept,
            auth_info: Slot::Kept,
            pub_key_auth: Slot::Kept,
            error_code: self.request.error_code,
            client_nonce: self.request.client_nonce,
        }
    }

    fn lengthen_field(&mut self, place: Place, octets: &[u8]) -> Result<(), AllocError>
        ensures ok { OnOk result
            (self.new ≡ record self.old {
              request = lengthened place self.old.request octets.now;
            }) }
        ensures err { OnErr result (self.new ≡ self.old) }
        ensures memory { IfErr result (λ _. Opened place) }
    {
        match place {
            Place::InText(Text::NegoTokens, _) => {
                lengthen(self.alloc, &mut self.request.nego_tokens, octets)
            }
            Place::InText(Text::AuthInfo, _) => {
                lengthen(self.alloc, &mut self.request.auth_info, octets)
            }
            Place::InText(Text::PubKeyAuth, _) => {
                lengthen(self.alloc, &mut self.request.pub_key_auth, octets)
            }
            Place::AtTag(_) => Ok(()),
            Place::InLength(_, _) => Ok(()),
            Place::InVersion(_, _) => Ok(()),
            Place::InCode(_, _) => Ok(()),
            Place::InNonce(_) => Ok(()),
            Place::Whole => Ok(()),
            Place::Faulty => Ok(()),
        }
    }

    fn settle_rest(&mut self, left: u32, walk: &Walk<'_>)
        ensures { self.new ≡ record self.old {
          stage = Stage.Content left walk.now.place;
          nonce = walk.now.nonce;
          request = record self.old.request {
            version = walk.now.version;
            error_code = walk.now.error_code;
            client_nonce = walk.now.client_nonce;
          };
        } }
    {
        self.stage = Stage::Content(left, walk.place);
        self.nonce = walk.nonce;
        self.request.version = walk.version;
        self.request.error_code = walk.error_code;
        self.request.client_nonce = walk.client_nonce;
    }
}
