//! Every later token (NegTokenResp, RFC 4178 4.2.2).

ghost use Rattle.std.specs.Prelude.{◌≡◌, ◌≤◌, length, IfOk};
ghost use Rattle.sspi_tokens.specs.Answers.{ReadsAs, WritesAs};
ghost use Rattle.sspi_ber.specs.Forms.{max_content};
ghost use Rattle.sspi_ber.specs.Short.{element};
ghost use Rattle.sspi_tokens.specs.Reading.{targ_of};
ghost use Rattle.sspi_tokens.specs.Spelling.{targ_fields, targ_content, spelled_targ};

use crate::copying::copy_targ;
use crate::neg_result::NegResult;
use crate::neg_token_init::clone_bytes;
use crate::oid::Oid;
use crate::reading::read_targ;
use crate::refusal::{malformed, too_long};
use crate::sizes::targ_fields_len;
use crate::writing::put_targ;
use sspi_ber::{SliceSource, VecSink, size_of_element};
use sspi_types::{Bytes, Error};
use std::alloc::{AllocError, Global};

/// Every later token, of either side (NegTokenResp, RFC 4178, section 4.2.2).
#[derive(Drop, PartialEq, Eq)]
pub struct NegTokenTarg {
    /// What the sender says about the negotiation (`negState`).
    pub neg_result: Option<NegResult>,
    /// The mechanism that a server selected (`supportedMech`).
    pub supported_mech: Option<Oid>,
    /// The next token of the mechanism (`responseToken`), as its octets.
    pub response_token: Option<Bytes>,
    /// The MIC over the client's list, as `encode_mech_types` encodes it (`mechListMIC`), as its
    /// octets.
    pub mech_list_mic: Option<Bytes>,
}

impl NegTokenTarg {
    /// Reads the token that `bytes` begin with; what follows it is ignored.
    ///
    /// A field that is absent, or has another field in its place, is `None`. Anything left over in
    /// an element is ignored.
    ///
    /// `InvalidToken` with the reason `TokenForm` exactly when the bytes do not begin with such a
    /// token. Allocates only once the whole token is read, so out of memory never comes in place of
    /// that refusal.
    #[tactic(auto, using(crate::proofs::Decode::read_refused, crate::proofs::Decode::read_unkept, crate::proofs::Decode::read_kept))]
    pub fn decode(alloc: Global, bytes: &[u8]) -> Result<NegTokenTarg, Error>
        ensures { ReadsAs (targ_of bytes.now) result }
    {
        match read_targ(&mut SliceSource::new(bytes)) {
            Ok(parts) => Ok(copy_targ(alloc, &parts)?),
            Err(_) => Err(malformed()),
        }
    }

    /// The token in its shortest encoding.
    ///
    /// `InternalError` with the reason `TooLong` exactly when a length passes the limit; that
    /// allocates nothing.
    #[tactic(auto, using(crate::proofs::Encode::refused, crate::proofs::Encode::unwritten, crate::proofs::Encode::written))]
    pub fn encode(&self, alloc: Global) -> Result<Vec<u8>, Error>
        ensures { WritesAs (spelled_targ self.now) result }
    {
        match targ_fields_len(self) {
            None => Err(too_long()),
            Some(fields) => Ok(write_targ(alloc, self, fields)?),
        }
    }

    /// A copy in memory of its own, equal to this token.
    pub fn clone(&self, alloc: Global) -> Result<NegTokenTarg, AllocError>
        ensures { IfOk result (λ token. token ≡ self.now) }
    {
        let supported_mech = clone_oid(alloc, &self.supported_mech)?;
        let response_token = clone_bytes(alloc, &self.response_token)?;
        let mech_list_mic = clone_bytes(alloc, &self.mech_list_mic)?;
        Ok(NegTokenTarg {
            neg_result: self.neg_result,
            supported_mech,
            response_token,
            mech_list_mic,
        })
    }
}

fn clone_oid(alloc: Global, oid: &Option<Oid>) -> Result<Option<Oid>, AllocError>
    ensures { IfOk result (λ copy. copy ≡ oid.now) }
{
    match oid {
        None => Ok(None),
        Some(oid) => Ok(Some(oid.clone(alloc)?)),
    }
}

#[tactic(auto, using(crate::proofs::Lengths::sizing))]
fn write_targ(alloc: Global, token: &NegTokenTarg, fields: usize) -> Result<Vec<u8>, AllocError>
    requires size { fields ≡ length (targ_fields token.now) }
    requires fits { length (targ_content token.now) ≤ max_content }
    ensures { IfOk result (λ bytes. bytes.items ≡ element 0xA1 (targ_content token.now)) }
{
    let mut sink = VecSink::with_capacity(alloc, size_of_element(size_of_element(fields)))?;
    put_targ(&mut sink, token, fields)?;
    Ok(sink.into_inner())
}
