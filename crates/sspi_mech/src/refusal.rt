//! A refusal without an NTSTATUS code: a kind and a reason.

ghost use Rattle.std.specs.Prelude.{◌≡◌};
ghost use Rattle.sspi_types.specs.Errors.{memory_error};
ghost use Rattle.sspi_names.specs.Utf16.{utf16_refusal};
ghost use Rattle.sspi_names.specs.Name.{username_refusal};
ghost use Rattle.sspi_mech.specs.Refusals.{error_of, refusal_of};

use sspi_names::{UsernameError, Utf16Error};
use sspi_types::{Error, ErrorKind, Reason};
use std::alloc::{AllocError, AllocFailed};

/// A refusal of this port's own: its kind and a fixed reason. An NTSTATUS code is for the peer to
/// give, so it has none.
#[derive(Clone, Copy)]
pub struct Refusal {
    /// What kind of refusal it is: the code of winerror.h.
    pub error_type: ErrorKind,
    /// Why, as a fixed text.
    pub description: Reason,
}

impl Refusal {
    /// A refusal of this kind, for this reason.
    pub fn new(error_type: ErrorKind, description: Reason) -> Refusal
        ensures { result ≡ record { error_type = error_type; description = description } }
    {
        Refusal {
            error_type,
            description,
        }
    }

    /// The refusal of a call out of sequence.
    pub fn out_of_sequence() -> Refusal
        ensures { result ≡ record {
          error_type = ErrorKind.OutOfSequence;
          description = Reason.Sequence;
        } }
    {
        Refusal::new(ErrorKind::OutOfSequence, Reason::Sequence)
    }

    /// The refusal of a message of another form.
    pub fn malformed() -> Refusal
        ensures { result ≡ record {
          error_type = ErrorKind.InvalidToken;
          description = Reason.TokenForm;
        } }
    {
        Refusal::new(ErrorKind::InvalidToken, Reason::TokenForm)
    }
}

impl From<Refusal> for Error {
    ghost from_gives = { λ refusal error. error ≡ error_of refusal };

    fn from(refusal: Refusal) -> Error {
        Error::new(refusal.error_type, refusal.description)
    }
}

/// Only the kind and the reason.
impl From<Error> for Refusal {
    ghost from_gives = { λ error refusal. refusal ≡ refusal_of error };

    fn from(error: Error) -> Refusal {
        Refusal::new(error.error_type, error.description)
    }
}

impl From<AllocError> for Refusal {
    ghost from_gives = { λ _ refusal. refusal ≡ refusal_of memory_error };

    fn from(error: AllocError) -> Refusal {
        Error::from(error).into()
    }
}

impl<T: Drop> From<AllocFailed<T>> for Refusal {
    ghost from_gives = { λ _ refusal. refusal ≡ refusal_of memory_error };

    fn from(error: AllocFailed<T>) -> Refusal {
        Error::from(error).into()
    }
}

impl From<UsernameError> for Refusal {
    ghost from_gives = { λ error refusal. refusal ≡ refusal_of (username_refusal error) };

    fn from(error: UsernameError) -> Refusal {
        Error::from(error).into()
    }
}

impl From<Utf16Error> for Refusal {
    ghost from_gives = { λ error refusal. refusal ≡ refusal_of (utf16_refusal error) };

    fn from(error: Utf16Error) -> Refusal {
        Error::from(error).into()
    }
}
