//! Why a line or a value of a scenario is refused.

use hex::FromHexError;
use std::alloc::AllocError;

/// Why a line or a value of a scenario is refused.
#[derive(Clone, Copy, Debug, PartialEq, Eq)]
pub enum LineError {
    /// It violates the format.
    Fault,
    InsufficientMemory,
}

impl From<AllocError> for LineError {
    ghost use Rattle.std.specs.Prelude.{◌≡◌};
    ghost use Rattle.sspi_scenario.specs.declared.error.LineError.TheVariants.{InsufficientMemory};

    ghost from_gives = { λ _ error. error ≡ InsufficientMemory };

    fn from(_error: AllocError) -> LineError {
        LineError::InsufficientMemory
    }
}

impl From<FromHexError> for LineError {
    ghost use Rattle.std.specs.Prelude.{◌≡◌};
    ghost use Rattle.sspi_scenario.specs.Reads.{hex_refusal};

    ghost from_gives = { λ error refusal. refusal ≡ hex_refusal error };

    fn from(error: FromHexError) -> LineError {
        match error {
            FromHexError::OutOfMemory => LineError::InsufficientMemory,
            _ => LineError::Fault,
        }
    }
}
