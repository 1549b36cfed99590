//! The refusal of a token that is not acceptable.

ghost use Rattle.std.specs.Prelude.{◌≡◌};

use sspi_mech::Refusal;
use sspi_types::{ErrorKind, Reason};

/// Refuses a token that is not acceptable, for this reason.
pub(crate) fn invalid_token(reason: Reason) -> Refusal
    ensures { result.error_type ≡ ErrorKind.InvalidToken }
{
    Refusal::new(ErrorKind::InvalidToken, reason)
}
