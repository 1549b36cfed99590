//! Why bytes were not read or written.

ghost use Rattle.std.specs.Prelude.{◌≡◌};

use crate::sink::SinkError;
use crate::source::SourceError;
use sspi_types::{Error, ErrorKind, Reason};
use std::alloc::{AllocError, AllocFailed};

/// Why bytes were not read or written.
#[derive(Clone, Copy, Debug, PartialEq, Eq)]
pub enum WireKind {
    /// The bytes end before the element does.
    UnexpectedEof,
    /// A wrong tag or a refused length; for a writer, a content that is too long.
    InvalidData,
    /// The source failed.
    ReadFault,
    /// The sink failed.
    WriteFault,
    /// Memory ran out.
    InsufficientMemory,
}

impl From<SourceError> for WireKind {
    ghost use Rattle.sspi_ber.specs.declared.wire_kind.WireKind.TheVariants.{ReadFault};

    ghost from_gives = { λ _ kind. kind ≡ ReadFault };

    fn from(_error: SourceError) -> WireKind {
        WireKind::ReadFault
    }
}

impl From<SinkError> for WireKind {
    ghost use Rattle.sspi_ber.specs.Kinds.{kind_of};

    ghost from_gives = { λ error kind. kind ≡ kind_of error };

    fn from(error: SinkError) -> WireKind {
        match error {
            SinkError::Failed => WireKind::WriteFault,
            SinkError::InsufficientMemory => WireKind::InsufficientMemory,
        }
    }
}

impl From<AllocError> for WireKind {
    ghost use Rattle.sspi_ber.specs.declared.wire_kind.WireKind.TheVariants.{InsufficientMemory};

    ghost from_gives = { λ _ kind. kind ≡ InsufficientMemory };

    fn from(_error: AllocError) -> WireKind {
        WireKind::InsufficientMemory
    }
}

impl<T: Drop> From<AllocFailed<T>> for WireKind {
    ghost use Rattle.sspi_ber.specs.declared.wire_kind.WireKind.TheVariants.{InsufficientMemory};

    ghost from_gives = { λ _ kind. kind ≡ InsufficientMemory };

    fn from(_error: AllocFailed<T>) -> WireKind {
        WireKind::InsufficientMemory
    }
}

/// `InternalError` with the reason `Io`; out of memory stays `InsufficientMemory`.
impl From<WireKind> for Error {
    ghost use Rattle.sspi_ber.specs.Kinds.{error_of};

    ghost from_gives = { λ kind error. error ≡ error_of kind };

    fn from(kind: WireKind) -> Error {
        match kind {
            WireKind::InsufficientMemory => {
                Error::new(ErrorKind::InsufficientMemory, Reason::Memory)
            }
            WireKind::UnexpectedEof
            | WireKind::InvalidData
            | WireKind::ReadFault
            | WireKind::WriteFault => Error::new(ErrorKind::InternalError, Reason::Io),
        }
    }
}
