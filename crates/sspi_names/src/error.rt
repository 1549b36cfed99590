//! Why a text is not a user name, or bytes are not UTF-16.

use sspi_types::{Error, ErrorKind, Reason};
use std::alloc::{AllocError, AllocFailed};

/// Why a text is not a user name.
#[derive(Clone, Copy, Debug, PartialEq, Eq)]
pub enum UsernameError {
    /// The text contains both `@` and `\`, or more than one `\`.
    MixedFormat,
    /// Memory ran out.
    InsufficientMemory,
}

/// Why bytes are not a UTF-16 text.
#[derive(Clone, Copy, Debug, PartialEq, Eq)]
pub enum Utf16Error {
    /// The last code unit has only one byte.
    OddLength,
    /// A surrogate lacks its partner.
    UnpairedSurrogate,
    /// Memory ran out.
    InsufficientMemory,
}

impl From<AllocError> for UsernameError {
    ghost use Rattle.std.specs.Prelude.{◌≡◌};
    ghost use Rattle.sspi_names.specs.declared.error.UsernameError.TheVariants.{InsufficientMemory};

    ghost from_gives = { λ _ error. error ≡ InsufficientMemory };

    fn from(_error: AllocError) -> UsernameError {
        UsernameError::InsufficientMemory
    }
}

impl From<AllocError> for Utf16Error {
    ghost use Rattle.std.specs.Prelude.{◌≡◌};
    ghost use Rattle.sspi_names.specs.declared.error.Utf16Error.TheVariants.{InsufficientMemory};

    ghost from_gives = { λ _ error. error ≡ InsufficientMemory };

    fn from(_error: AllocError) -> Utf16Error {
        Utf16Error::InsufficientMemory
    }
}

impl<T: Drop> From<AllocFailed<T>> for Utf16Error {
    ghost use Rattle.std.specs.Prelude.{◌≡◌};
    ghost use Rattle.sspi_names.specs.declared.error.Utf16Error.TheVariants.{InsufficientMemory};

    ghost from_gives = { λ _ error. error ≡ InsufficientMemory };

    fn from(_error: AllocFailed<T>) -> Utf16Error {
        Utf16Error::InsufficientMemory
    }
}

/// `MixedFormat` becomes UnknownCredentials.
impl From<UsernameError> for Error {
    ghost use Rattle.std.specs.Prelude.{◌≡◌};
    ghost use Rattle.sspi_names.specs.Name.{username_refusal};

    ghost from_gives = { λ error refusal. refusal ≡ username_refusal error };

    fn from(error: UsernameError) -> Error {
        match error {
            UsernameError::MixedFormat => Error::new(
                ErrorKind::UnknownCredentials,
                Reason::UserName,
            ),
            UsernameError::InsufficientMemory => Error::new(
                ErrorKind::InsufficientMemory,
                Reason::Memory,
            ),
        }
    }
}

/// An odd length and an unpaired surrogate become InvalidParameter.
impl From<Utf16Error> for Error {
    ghost use Rattle.std.specs.Prelude.{◌≡◌};
    ghost use Rattle.sspi_names.specs.Utf16.{utf16_refusal};

    ghost from_gives = { λ error refusal. refusal ≡ utf16_refusal error };

    fn from(error: Utf16Error) -> Error {
        match error {
            Utf16Error::OddLength | Utf16Error::UnpairedSurrogate => Error::new(
                ErrorKind::InvalidParameter,
                Reason::Utf,
            ),
            Utf16Error::InsufficientMemory => Error::new(
                ErrorKind::InsufficientMemory,
                Reason::Memory,
            ),
        }
    }
}
