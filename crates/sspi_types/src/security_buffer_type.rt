//! The type and flags of a security buffer, as one number.

ghost use Rattle.std.specs.Prelude.{◌≡◌};
ghost use Rattle.sspi_types.specs.SecurityBufferTypes.{ReadsBufferType, packed_buffer_type};

use crate::buffer_flags::SecurityBufferFlags;
use crate::buffer_type::BufferType;
use crate::error::Error;
use crate::error_kind::ErrorKind;
use crate::reason::Reason;
use bitflags::Flags;

/// The bits of a buffer's type that are flags (`SECBUFFER_ATTRMASK` of sspi.h).
pub const SECBUFFER_ATTRMASK: u32 = 0xF0000000;

/// What a buffer holds, and what may be done with it (`BufferType` of SecBuffer).
#[derive(Clone, Copy, Default, PartialEq, Eq)]
pub struct SecurityBufferType {
    /// What the buffer holds.
    pub buffer_type: BufferType,
    /// What may be done with it.
    pub buffer_flags: SecurityBufferFlags,
}

/// Reads the type from the low 28 bits and the flags from the high 4. `InternalError` exactly when
/// the type is above 18, the last one, or a flag bit is set other than `SECBUFFER_READONLY` and
/// `SECBUFFER_READONLY_WITH_CHECKSUM`.
impl TryFrom<u32> for SecurityBufferType {
    type Error = Error;

    ghost try_from_gives = { ReadsBufferType };

    fn try_from(number: u32) -> Result<SecurityBufferType, Error> {
        let refusal = Error::new(ErrorKind::InternalError, Reason::Number);
        let Some(buffer_type) = BufferType::from_u32(number & !SECBUFFER_ATTRMASK) else {
            return Err(refusal);
        };
        let Some(buffer_flags) = SecurityBufferFlags::from_bits(number & SECBUFFER_ATTRMASK) else {
            return Err(refusal);
        };
        Ok(SecurityBufferType {
            buffer_type,
            buffer_flags,
        })
    }
}

/// The bitwise or of the type's number and the flags.
impl From<SecurityBufferType> for u32 {
    ghost from_gives = { λ buffer_type number. number ≡ packed_buffer_type buffer_type };

    fn from(buffer_type: SecurityBufferType) -> u32 {
        buffer_type.buffer_type.to_u32() | buffer_type.buffer_flags.bits()
    }
}
