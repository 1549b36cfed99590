//! A request in place, in its bytes, and the copy that is made of it.

ghost use Rattle.std.specs.Prelude.{◌≡◌, IfOk, IfErr};
ghost use Rattle.std.specs.Option.{IsSome, option_copied};
ghost use Rattle.sspi_tsreq.specs.Parts.{seen};
ghost use Rattle.sspi_tsreq.specs.Quiet.{HasOctets};

use crate::request::TsRequest;
use sspi_ber::WireKind;
use sspi_types::{Bytes, NStatusCode};
use std::alloc::{AllocError, Global};

/// The fields of a request, with the OCTET STRINGs and the nonce in place, in the bytes.
#[derive(Clone, Copy)]
pub(crate) struct Parts<'a> {
    pub version: u32,
    pub nego_tokens: Option<&'a [u8]>,
    pub auth_info: Option<&'a [u8]>,
    pub pub_key_auth: Option<&'a [u8]>,
    pub error_code: Option<NStatusCode>,
    pub client_nonce: Option<&'a [u8; 32]>,
}

/// A copy, which allocates only if there is something to copy.
fn copy_octets(alloc: Global, octets: Option<&[u8]>) -> Result<Option<Bytes>, AllocError>
    ensures ok { IfOk result (λ copy. copy ≡ option_copied octets.entry) }
    ensures memory { IfErr result (λ _. IsSome (option_copied octets.entry)) }
{
    match octets {
        None => Ok(None),
        Some(octets) => Ok(Some(Bytes::from_slice(alloc, octets)?)),
    }
}

/// The request with these parts. Allocates only if there is an OCTET STRING to copy.
pub(crate) fn copy_request(alloc: Global, parts: &Parts<'_>) -> Result<TsRequest, WireKind>
    ensures ok { IfOk result (λ request. request ≡ seen parts.now) }
    ensures memory { IfErr result (λ kind. (kind ≡ WireKind.InsufficientMemory) ×
        HasOctets (seen parts.now)) }
{
    let nego_tokens = copy_octets(alloc, parts.nego_tokens)?;
    let auth_info = copy_octets(alloc, parts.auth_info)?;
    let pub_key_auth = copy_octets(alloc, parts.pub_key_auth)?;
    Ok(TsRequest {
        version: parts.version,
        nego_tokens,
        auth_info,
        pub_key_auth,
        error_code: parts.error_code,
        client_nonce: parts.client_nonce.copied(),
    })
}
