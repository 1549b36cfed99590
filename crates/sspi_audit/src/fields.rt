//! Whether the fields of requests are equal, and what a single field holds.
ghost use Rattle.std.specs.Prelude.{◌≡◌, ◌↔◌, None, Some, IsTrue};
ghost use Rattle.sspi_credssp.specs.Requests.{IsLong, is_code};

use sspi_types::{Bytes, NStatusCode};

/// Both fields hold the same octets, or both are absent.
pub(crate) fn same_octets(left: &Option<Bytes>, right: &Option<Bytes>) -> bool
    ensures { IsTrue result ↔ (left.now ≡ right.now) }
{
    match (left, right) {
        (None, None) => true,
        (Some(left), Some(right)) => left == right,
        _ => false,
    }
}

pub(crate) fn same_code(left: &Option<NStatusCode>, right: &Option<NStatusCode>) -> bool
    ensures { IsTrue result ↔ (left.now ≡ right.now) }
{
    match (left, right) {
        (None, None) => true,
        (Some(left), Some(right)) => left == right,
        _ => false,
    }
}

pub(crate) fn same_nonce(left: &Option<[u8; 32]>, right: &Option<[u8; 32]>) -> bool
    ensures { IsTrue result ↔ (left.now ≡ right.now) }
{
    match (left, right) {
        (None, None) => true,
        (Some(left), Some(right)) => left == right,
        _ => false,
    }
}

/// The field holds these octets.
pub(crate) fn is_octets(field: &Option<Bytes>, octets: &Bytes) -> bool
    ensures { IsTrue result ↔ (field.now ≡ Some octets.now) }
{
    match field {
        None => false,
        Some(field) => field == octets,
    }
}

/// There is a blob long enough to hold a seal.
pub(crate) fn is_long(blob: &Option<Bytes>) -> bool
    ensures { IsTrue result ↔ IsLong blob.now }
{
    match blob {
        None => false,
        Some(blob) => blob.len() >= 16,
    }
}

/// There is a code other than SUCCESS.
pub(crate) fn has_code(code: &Option<NStatusCode>) -> bool
    ensures { result ≡ is_code code.now }
{
    match code {
        None => false,
        Some(code) => code.0 != 0,
    }
}
