//! TSRequest, the message of CredSSP (MS-CSSP 2.2.1).

ghost use Rattle.std.specs.Prelude.{◌≡◌, ℕ, length, IfOk};
ghost use Rattle.sspi_ber.specs.Outside.{Reads, ReadCause, LeavesRest, WritesIf, WriteCause};
ghost use Rattle.sspi_ber.specs.Short.{IsSizeIf};
ghost use Rattle.sspi_tsreq.specs.Spelling.{fits, spelled};
ghost use Rattle.sspi_tsreq.specs.Answer.{Encodes, IsAnswer, IsUnlessMemory};
ghost use Rattle.sspi_tsreq.specs.Grammar.{IsRequest, bare, first_request};
ghost use Rattle.sspi_tsreq.specs.Header.{request_size_at};
ghost use Rattle.sspi_tsreq.specs.Status.{ChecksCode};
ghost use Rattle.sspi_tsreq.specs.declared.request.TsRequest.{TsRequest};

use crate::parts::copy_request;
use crate::reading::read_request;
use crate::sizes::fields_size;
use crate::writing::write_request;
use sspi_ber::{
    MAX_CONTENT, Sink, SliceSource, Source, VecSink, WireKind, read_sized_header, size_of_element,
};
use sspi_types::{Bytes, Error, ErrorKind, NStatusCode, Reason};
use std::alloc::{AllocError, Global};

/// The message that carries everything in CredSSP (TSRequest, MS-CSSP 2.2.1).
#[derive(Drop)]
pub struct TsRequest {
    /// The version of CredSSP that the sender offers; of a larger number the low 32 bits are read.
    pub version: u32,
    /// The first token of `negoTokens`; further tokens are not read.
    pub nego_tokens: Option<Bytes>,
    /// The sealed TSCredentials (`authInfo`), as the octets that are sent.
    pub auth_info: Option<Bytes>,
    /// The sealed proof of the server's public key (`pubKeyAuth`), as the octets that are sent.
    pub pub_key_auth: Option<Bytes>,
    /// The status of a failure (`errorCode`). It is read from version 3 on, and written from
    /// version 3 on except at 5.
    pub error_code: Option<NStatusCode>,
    /// The 32 bytes of `clientNonce`, which are read and written from version 5 on.
    pub client_nonce: Option<[u8; 32]>,
}

impl Default for TsRequest {
    /// Version 6 and nothing else.
    fn default() -> TsRequest
        ensures { result ≡ first_request }
    {
        TsRequest::bare(6)
    }
}

/// Two requests are equal exactly when their values are.
impl PartialEq for TsRequest {
    ghost use Rattle.std.specs.Prelude.{◌≡◌, ◌↔◌, IsTrue};
    ghost use Rattle.std.specs.Cmp.{partial_equiv_from_equiv};
    ghost use Rattle.sspi_tsreq.specs.Equality.{same_request};
    ghost use Rattle.sspi_tsreq.specs.SameRequest.{same_request_equiv};

    ghost eq = { same_request };

    ghost laws = { partial_equiv_from_equiv same_request_equiv };

    #[tactic(auto, using(crate::specs::SameRequest::request_decided))]
    fn eq(&self, other: &TsRequest) -> bool
        ensures value { result ≡ same_request self.now other.now }
        ensures same { IsTrue result ↔ (self.now ≡ other.now) }
    {
        self.version == other.version
            && self.nego_tokens == other.nego_tokens
            && self.auth_info == other.auth_info
            && self.pub_key_auth == other.pub_key_auth
            && self.error_code == other.error_code
            && self.client_nonce == other.client_nonce
    }
}

impl Eq for TsRequest {
    ghost use Rattle.sspi_tsreq.specs.SameRequest.{same_request_equiv};

    ghost laws = { same_request_equiv };
}

impl TsRequest {
    /// A request with this version and nothing else.
    pub(crate) fn bare(version: u32) -> TsRequest
        ensures { result ≡ bare version }
    {
        TsRequest {
            version,
            nego_tokens: None,
            auth_info: None,
            pub_key_auth: None,
            error_code: None,
            client_nonce: None,
        }
    }

    /// The request that `buffer` begins with; bytes after it are ignored, and so are bytes after
    /// its last field.
    ///
    /// `UnexpectedEof` if the outer header is bad, the buffer is shorter than header and content,
    /// or the content ends inside an element; `InvalidData` if the first malformed element is
    /// refused for another reason. Lengths of tags are judged by their form alone. Out of memory
    /// is reported only for the OCTET STRINGs of a request that was found whole. So it never
    /// replaces a fault, and never comes for a request without OCTET STRINGs.
    pub fn from_buffer(alloc: Global, buffer: &[u8]) -> Result<TsRequest, WireKind>
        ensures answer { IsAnswer buffer.now result }
        ensures only { (r : TsRequest) (count : ℕ) → IsRequest buffer.now r count →
            IsUnlessMemory result r }
    {
        let parts = read_request(&mut SliceSource::new(buffer))?;
        copy_request(alloc, &parts)
    }

    /// The size in bytes of the request that the source begins with: its header, which is read,
    /// and its content. Each fault of the header is `UnexpectedEof`. Allocates nothing.
    #[tactic(auto, unfolding(crate::specs::Header::request_size_at))]
    pub fn read_length<S: Source>(source: &mut S) -> Result<usize, WireKind>
        ensures read { Reads (λ size. size) (S.left source.old) (S.left source.new) result
            request_size_at }
        ensures cause { ReadCause (S.faults source.old) (S.faults source.new) result }
        ensures rest { LeavesRest (S.left source.old) (S.left source.new) }
    {
        match read_sized_header(source, 0x30) {
            Ok((len, size)) => Ok(size + len as usize),
            Err(WireKind::UnexpectedEof) => Err(WireKind::UnexpectedEof),
            Err(WireKind::InvalidData) => Err(WireKind::UnexpectedEof),
            Err(kind) => Err(kind),
        }
    }

    /// Writes the request. The code is left out below version 3 and at version 5, the nonce below
    /// version 5. `InvalidData` exactly when the content exceeds the limit, and then nothing is
    /// written. After `WriteFault` or out of memory, a proper prefix of the encoding was written,
    /// never all of it.
    #[tactic(auto, using(crate::proofs::Capped::capped_fits, crate::proofs::Capped::capped_past))]
    pub fn encode_ts_request<W: Sink>(&self, sink: &mut W) -> Result<(), WireKind>
        ensures wrote { WritesIf (fits self.now) W.written sink.old sink.new result
            (spelled self.now) }
        ensures cause { WriteCause (W.faults sink.old) (W.faults sink.new) result }
    {
        let size = fields_size(self);
        if size > MAX_CONTENT {
            return Err(WireKind::InvalidData);
        }
        write_request(sink, self, size)
    }

    /// The bytes that `encode_ts_request` writes, in a single allocation. `InvalidData` exactly
    /// when the content exceeds the limit, and then nothing is allocated; otherwise the only
    /// refusal is `InsufficientMemory`.
    #[tactic(auto, using(crate::proofs::Capped::capped_fits, crate::proofs::Capped::capped_past))]
    pub fn encode(&self, alloc: Global) -> Result<Vec<u8>, WireKind>
        ensures { Encodes self.now result }
    {
        let size = fields_size(self);
        if size > MAX_CONTENT {
            return Err(WireKind::InvalidData);
        }
        let mut sink = VecSink::with_capacity(alloc, size_of_element(size))?;
        write_request(&mut sink, self, size)?;
        Ok(sink.into_inner())
    }

    /// How many bytes encoding writes. `InvalidData` exactly when the content exceeds the limit.
    /// Allocates nothing.
    #[tactic(auto, using(crate::proofs::Capped::capped_fits, crate::proofs::Capped::capped_past, crate::proofs::Capped::spelled_size))]
    pub fn buffer_len(&self) -> Result<u32, WireKind>
        ensures { IsSizeIf (fits self.now) result (length (spelled self.now)) }
    {
        let size = fields_size(self);
        if size > MAX_CONTENT {
            return Err(WireKind::InvalidData);
        }
        Ok(size_of_element(size) as u32)
    }

    /// `InvalidToken`, with the code as its status, exactly when the request has a code other than
    /// `SUCCESS`. Allocates nothing.
    pub fn check_error(&self) -> Result<(), Error>
        ensures { ChecksCode self.now.error_code result }
    {
        match self.error_code {
            Some(code) if code != NStatusCode::SUCCESS => Err(Error::new_with_nstatus(
                ErrorKind::InvalidToken,
                Reason::ErrorStatus,
                code,
            )),
            _ => Ok(()),
        }
    }

    /// A copy in memory of its own, equal to this request.
    pub fn clone(&self, alloc: Global) -> Result<TsRequest, AllocError>
        ensures { IfOk result (λ request. request ≡ self.now) }
    {
        Ok(TsRequest {
            version: self.version,
            nego_tokens: clone_bytes(alloc, &self.nego_tokens)?,
            auth_info: clone_bytes(alloc, &self.auth_info)?,
            pub_key_auth: clone_bytes(alloc, &self.pub_key_auth)?,
            error_code: self.error_code,
            client_nonce: self.client_nonce,
        })
    }
}

fn clone_bytes(alloc: Global, bytes: &Option<Bytes>) -> Result<Option<Bytes>, AllocError>
    ensures { IfOk result (λ copy. copy ≡ bytes.now) }
{
    match bytes {
        Some(bytes) => Ok(Some(bytes.clone(alloc)?)),
        None => Ok(None),
    }
}
