//! Refusals as public calls return them: kind, reason and NTSTATUS code.

ghost use Rattle.std.specs.Prelude.{◌≡◌, None, Some};
ghost use Rattle.sspi_types.specs.declared.reason.Reason.TheVariants as reason;
ghost use Rattle.sspi_types.specs.Errors.{error_text, internal_error};

use crate::error_kind::ErrorKind;
use crate::nstatus::NStatusCode;
use crate::reason::Reason;
use std::alloc::{AllocError, AllocFailed};
use std::fmt;
use std::num::TryFromIntError;
use std::str::Utf8Error;

/// A refusal: its kind, a fixed reason, and the NTSTATUS code that the peer gave, if any. It
/// allocates nothing.
#[derive(Clone, Copy, Debug, PartialEq, Eq)]
pub struct Error {
    /// What kind of refusal it is: the code of winerror.h.
    pub error_type: ErrorKind,
    /// Why, as a fixed text; callers decide by `error_type` alone.
    pub description: Reason,
    /// The code in the peer's request; `None` if the refusal is this end's own.
    pub nstatus: Option<NStatusCode>,
}

impl Error {
    /// A refusal without an NTSTATUS code.
    pub fn new(error_type: ErrorKind, description: Reason) -> Error
        ensures { result
            ≡ record { error_type = error_type; description = description; nstatus = None } }
    {
        Error {
            error_type,
            description,
            nstatus: None,
        }
    }

    /// A refusal with the NTSTATUS code that came with it.
    pub fn new_with_nstatus(
        error_type: ErrorKind,
        description: Reason,
        status_code: NStatusCode,
    ) -> Error
        ensures { result ≡ record
            { error_type = error_type; description = description; nstatus = Some status_code } }
    {
        Error {
            error_type,
            description,
            nstatus: Some(status_code),
        }
    }
}

/// Writes the name of the kind, `: ` and the text of the reason. If there is a status, it follows
/// after `; status is `.
impl fmt::Display for Error {
    ghost output = { λ error. Some (error_text error) };

    fn fmt<W: fmt::Write>(&self, f: &mut fmt::Formatter<W>) -> fmt::Result {
        let kind = self.error_type.name();
        let reason = self.description.text();
        match self.nstatus {
            Some(status) => write!(f, "{kind}: {reason}; status is {status}"),
            None => write!(f, "{kind}: {reason}"),
        }
    }
}

impl std::error::Error for Error {}

/// Out of memory is `InsufficientMemory`, wherever it happens.
impl From<AllocError> for Error {
    ghost use Rattle.sspi_types.specs.Errors.{memory_error};

    ghost from_gives = { λ _ error. error ≡ memory_error };

    fn from(_error: AllocError) -> Error {
        Error::new(ErrorKind::InsufficientMemory, Reason::Memory)
    }
}

impl<T: Drop> From<AllocFailed<T>> for Error {
    ghost use Rattle.sspi_types.specs.Errors.{memory_error};

    ghost from_gives = { λ _ error. error ≡ memory_error };

    fn from(_error: AllocFailed<T>) -> Error {
        Error::new(ErrorKind::InsufficientMemory, Reason::Memory)
    }
}

/// A number that does not fit is `InternalError`.
impl From<TryFromIntError> for Error {
    ghost from_gives = { λ _ error. error ≡ internal_error reason.Number };

    fn from(_error: TryFromIntError) -> Error {
        Error::new(ErrorKind::InternalError, Reason::Number)
    }
}

/// Bytes that are not UTF-8 are `InternalError`.
impl From<Utf8Error> for Error {
    ghost from_gives = { λ _ error. error ≡ internal_error reason.Utf };

    fn from(_error: Utf8Error) -> Error {
        Error::new(ErrorKind::InternalError, Reason::Utf)
    }
}
