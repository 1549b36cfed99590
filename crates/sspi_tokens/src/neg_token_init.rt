//! A client's first token (NegTokenInit, RFC 4178 4.2.1; MS-SPNG 2.2.1).

ghost use Rattle.std.specs.Prelude.{◌≡◌, IfOk};
ghost use Rattle.sspi_tokens.specs.Answers.{ReadsAs, WritesAs};
ghost use Rattle.sspi_ber.specs.Short.{element};
ghost use Rattle.sspi_tokens.specs.Reading.{init_of};
ghost use Rattle.sspi_tokens.specs.Spelling.{init_content, spelled_init};
ghost use Rattle.sspi_tokens.specs.Writing.{IsInitLengths};

use crate::copying::copy_init;
use crate::mech_type_list::MechTypeList;
use crate::reading::read_init;
use crate::refusal::{malformed, too_long};
use crate::sizes::{InitLengths, init_lengths};
use crate::writing::put_init;
use sspi_ber::{SliceSource, VecSink, size_of_element};
use sspi_types::{Bytes, Error};
use std::alloc::{AllocError, Global};

/// The first token of a client (RFC 4178, section 4.2.1; MS-SPNG 2.2.1): the mechanisms that it
/// offers, and the first token of the one that it prefers.
#[derive(Drop, PartialEq, Eq)]
pub struct NegTokenInit {
    /// The mechanisms that are offered (`mechTypes`), in the order of the client's preference.
    pub mech_types: Option<MechTypeList>,
    /// The first token of the first mechanism (`mechToken`), as its octets.
    pub mech_token: Option<Bytes>,
}

impl NegTokenInit {
    /// Reads the token that `bytes` begin with; what follows it is ignored.
    ///
    /// A field that is absent, or has another field in its place, is `None`. The flags and the
    /// field with tag 3 (the MIC of RFC 4178, the hints of MS-SPNG) are skipped by their lengths.
    /// Anything left over in an element is ignored. Unknown mechanisms stay in the list.
    ///
    /// `InvalidToken` with the reason `TokenForm` exactly when the bytes do not begin with such a
    /// token: one is cut off, another tag is in its place, or its mechanism is not SPNEGO.
    /// Allocates only once the whole token is read, so out of memory never comes in place of that
    /// refusal.
    #[tactic(auto, using(crate::proofs::Decode::read_refused, crate::proofs::Decode::read_unkept, crate::proofs::Decode::read_kept))]
    pub fn decode(alloc: Global, bytes: &[u8]) -> Result<NegTokenInit, Error>
        ensures { ReadsAs (init_of bytes.now) result }
    {
        match read_init(&mut SliceSource::new(bytes)) {
            Ok(parts) => Ok(copy_init(alloc, &parts)?),
            Err(_) => Err(malformed()),
        }
    }

    /// The token in its shortest encoding.
    ///
    /// `InternalError` with the reason `TooLong` exactly when a length passes the limit; that
    /// allocates nothing.
    #[tactic(auto, using(crate::proofs::Encode::refused, crate::proofs::Encode::unwritten, crate::proofs::Encode::written))]
    pub fn encode(&self, alloc: Global) -> Result<Vec<u8>, Error>
        ensures { WritesAs (spelled_init self.now) result }
    {
        match init_lengths(self) {
            None => Err(too_long()),
            Some(lengths) => Ok(write_init(alloc, self, &lengths)?),
        }
    }

    /// A copy in memory of its own, equal to this token.
    pub fn clone(&self, alloc: Global) -> Result<NegTokenInit, AllocError>
        ensures { IfOk result (λ token. token ≡ self.now) }
    {
        let mech_types = clone_list(alloc, &self.mech_types)?;
        let mech_token = clone_bytes(alloc, &self.mech_token)?;
        Ok(NegTokenInit {
            mech_types,
            mech_token,
        })
    }
}

fn clone_list(
    alloc: Global,
    list: &Option<MechTypeList>,
) -> Result<Option<MechTypeList>, AllocError>
    ensures { IfOk result (λ copy. copy ≡ list.now) }
{
    match list {
        None => Ok(None),
        Some(list) => Ok(Some(list.clone(alloc)?)),
    }
}

pub(crate) fn clone_bytes(alloc: Global, bytes: &Option<Bytes>) -> Result<Option<Bytes>, AllocError>
    ensures { IfOk result (λ copy. copy ≡ bytes.now) }
{
    match bytes {
        None => Ok(None),
        Some(bytes) => Ok(Some(bytes.clone(alloc)?)),
    }
}

fn write_init(
    alloc: Global,
    token: &NegTokenInit,
    lengths: &InitLengths,
) -> Result<Vec<u8>, AllocError>
    requires { IsInitLengths token.now lengths.now }
    ensures { IfOk result (λ bytes. bytes.items ≡ element 0x60 (init_content token.now)) }
{
    let mut sink = VecSink::with_capacity(alloc, size_of_element(lengths.content))?;
    put_init(&mut sink, token, lengths)?;
    Ok(sink.into_inner())
}
