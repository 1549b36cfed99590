//! Sums that use what was decoded or encoded, so that no compiler drops the work.

ghost use Rattle.std.specs.Prelude.{◌≡◌, None, IfSome, length};

use sspi_types::Bytes;

/// The length of a field, or 0 if it is absent.
pub(crate) fn len_of(field: &Option<Bytes>) -> u64
    ensures there { IfSome field.now (λ octets. result ≡ length octets) }
    ensures absent { field.now ≡ None → result ≡ 0 }
{
    match field {
        None => 0,
        Some(bytes) => bytes.len() as u64,
    }
}

/// The sum of the length and the last byte of what was written.
pub(crate) fn sum_of_text(text: &[u8]) -> u64 {
    let last = text.last().copied().unwrap_or(0);
    (text.len() as u64).wrapping_add(u64::from(last))
}

/// Gives up a value. Generic, since dropping a value of a type parameter is one step of a proof.
pub(crate) fn given_up<T: Drop, R, E>(_value: T, error: E) -> Result<R, E> {
    Err(error)
}
