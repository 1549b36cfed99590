//! The numbers that calls return.
ghost use Rattle.std.specs.Prelude.{◌≡◌};
ghost use Rattle.newaksu_c.specs.Putting.{kind_status};
ghost use Rattle.newaksu_c.specs.Status.{wire_status};

use sspi_ber::WireKind;
use sspi_types::ErrorKind;

/// The call did what it was asked to do.
pub const OK: u32 = 0;

/// What was asked for is absent.
pub const ABSENT: u32 = 6;

/// The handle is empty, or holds another kind of object (SEC_E_INVALID_HANDLE).
pub const INVALID_HANDLE: u32 = 0x80090301;

/// The buffer is too small for what there is to give (SEC_E_BUFFER_TOO_SMALL).
pub const BUFFER_TOO_SMALL: u32 = 0x80090321;

/// An argument is not one that the call accepts (SEC_E_INVALID_PARAMETER).
pub const INVALID_PARAMETER: u32 = 0x8009035d;

/// There was no memory (SEC_E_INSUFFICIENT_MEMORY).
pub const INSUFFICIENT_MEMORY: u32 = 0x80090300;

/// A fault that no input causes (SEC_E_INTERNAL_ERROR).
pub const INTERNAL_ERROR: u32 = 0x80090304;

/// The code of a refusal; `Unknown` has that of `OK`, and is reported as `INTERNAL_ERROR`.
pub(crate) fn kind_status(kind: ErrorKind) -> u32
    ensures { result ≡ kind_status kind }
{
    match kind.to_u32() {
        OK => INTERNAL_ERROR,
        code => code,
    }
}

/// The number for a refusal by the codec of TSRequest.
pub(crate) fn wire_status(kind: WireKind) -> u32
    ensures { result ≡ wire_status kind }
{
    match kind {
        WireKind::UnexpectedEof => 1,
        WireKind::InvalidData => 2,
        WireKind::ReadFault => 3,
        WireKind::WriteFault => 4,
        WireKind::InsufficientMemory => INSUFFICIENT_MEMORY,
    }
}
