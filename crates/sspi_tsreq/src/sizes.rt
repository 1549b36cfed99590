//! How many bytes the fields of TSRequest and TSCredentials take.

ghost use Rattle.std.specs.Prelude.{◌≡◌, ℕ, ◌+◌, ◌≤◌, length, Option};
ghost use Rattle.std.specs.Option.{option_copied};
ghost use Rattle.sspi_ber.specs.Forms.{max_content};
ghost use Rattle.sspi_ber.specs.Short.{element_size};
ghost use Rattle.sspi_tsreq.specs.Size.{IsCapped};
ghost use Rattle.sspi_tsreq.specs.Spelling.{carried, nego_field, octets_field, code_field, fields};

use crate::request::TsRequest;
use sspi_ber::{MAX_CONTENT, size_of_element, sizeof_integer};
use sspi_types::{Bytes, NStatusCode};

/// How many bytes an element takes, or a number past the limit.
#[tactic(auto, using(crate::proofs::Capped::bounds))]
pub(crate) fn capped_element(len: usize) -> usize
    ensures capped { IsCapped result (element_size len) }
    ensures small { result ≤ max_content + 5 }
{
    if len > MAX_CONTENT {
        MAX_CONTENT + 1
    } else {
        size_of_element(len)
    }
}

/// How many bytes a field of an OCTET STRING takes, or a number past the limit.
#[tactic(auto, unfolding(crate::specs::Spelling::octets_field))]
fn octets_field_size(field: &Option<Bytes>) -> usize
    ensures capped { (tag : ℕ) → IsCapped result (length (octets_field tag field.now)) }
    ensures small { result ≤ max_content + 5 }
{
    match field {
        None => 0,
        Some(octets) => capped_element(capped_element(octets.len())),
    }
}

/// The same for the field of the token.
#[tactic(auto, unfolding(crate::specs::Spelling::nego_field))]
fn nego_field_size(field: &Option<Bytes>) -> usize
    ensures capped { IsCapped result (length (nego_field field.now)) }
    ensures small { result ≤ max_content + 5 }
{
    match field {
        None => 0,
        Some(token) => {
            let item = capped_element(capped_element(token.len()));
            capped_element(capped_element(capped_element(item)))
        }
    }
}

#[tactic(auto, using(crate::proofs::Capped::wrapped_integer), unfolding(crate::specs::Spelling::code_field))]
fn code_field_size(field: Option<NStatusCode>) -> usize
    ensures size { result ≡ length (code_field field) }
    ensures small { result ≤ 8 }
{
    match field {
        None => 0,
        Some(code) => 2 + sizeof_integer(code.0),
    }
}

#[tactic(auto, using(crate::proofs::Capped::nonce_field), unfolding(crate::specs::Spelling::octets_field))]
fn nonce_field_size(field: Option<[u8; 32]>) -> usize
    ensures size { result ≡ length (octets_field 0xA5 field) }
    ensures small { result ≤ 36 }
{
    match field {
        None => 0,
        Some(_) => 36,
    }
}

/// The code that is written.
pub(crate) fn carried_code(request: &TsRequest) -> Option<NStatusCode>
    ensures { result ≡ (carried request.now).error_code }
{
    if request.version >= 3 && request.version != 5 {
        request.error_code
    } else {
        None
    }
}

/// The nonce that is written.
pub(crate) fn carried_nonce(request: &TsRequest) -> Option<&[u8; 32]>
    ensures value { option_copied result ≡ (carried request.now).client_nonce }
{
    if request.version >= 5 {
        request.client_nonce.as_ref()
    } else {
        None
    }
}

/// How many bytes the written fields take, or a number past the limit.
#[inline(always)]
pub(crate) fn fields_size(request: &TsRequest) -> usize
    ensures { IsCapped result (length (fields (carried request.now))) }
{
    let version = 2 + sizeof_integer(request.version);
    let nego = nego_field_size(&request.nego_tokens);
    let auth = octets_field_size(&request.auth_info);
    let key = octets_field_size(&request.pub_key_auth);
    let code = code_field_size(carried_code(request));
    let nonce = nonce_field_size(carried_nonce(request).copied());
    version + nego + auth + key + code + nonce
}
