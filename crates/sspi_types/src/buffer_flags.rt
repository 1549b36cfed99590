//! The flags of a security buffer.

ghost use Rattle.std.specs.Prelude.{⊤, ◌≡◌};
ghost use Rattle.std.specs.Int.RustNames.{bit_or};
ghost use Rattle.sspi_types.specs.BufferFlags.{security_buffer_flags};

use bitflags::{Flag, Flags};
use std::ops::BitOr;

/// What may be done with a buffer (the attributes in `BufferType` of SecBuffer).
#[derive(Clone, Copy, Debug, Default, PartialEq, Eq, PartialOrd, Ord, Hash)]
pub struct SecurityBufferFlags(u32);

impl SecurityBufferFlags {
    /// No flag.
    pub const NONE: SecurityBufferFlags = SecurityBufferFlags(0x00000000);

    /// The package reads the buffer but does not write it.
    pub const SECBUFFER_READONLY: SecurityBufferFlags = SecurityBufferFlags(0x80000000);

    /// The same, and the buffer is covered by the checksum of the message.
    pub const SECBUFFER_READONLY_WITH_CHECKSUM: SecurityBufferFlags = SecurityBufferFlags(
        0x10000000,
    );

    /// The flags that have a name, in the order of their table.
    pub const FLAGS: &'static [Flag<SecurityBufferFlags>] = &[
        Flag {
            name: "NONE",
            value: SecurityBufferFlags::NONE,
        },
        Flag {
            name: "SECBUFFER_READONLY",
            value: SecurityBufferFlags::SECBUFFER_READONLY,
        },
        Flag {
            name: "SECBUFFER_READONLY_WITH_CHECKSUM",
            value: SecurityBufferFlags::SECBUFFER_READONLY_WITH_CHECKSUM,
        },
    ];
}

impl Flags for SecurityBufferFlags {
    type Bits = u32;

    ghost exact = { ⊤ };

    ghost table = { security_buffer_flags };

    ghost set_of = { λ flags. flags.0 };

    fn flags<'a>() -> &'a [Flag<SecurityBufferFlags>] {
        SecurityBufferFlags::FLAGS
    }

    fn bits(&self) -> u32 {
        self.0
    }

    fn from_bits_retain(bits: u32) -> SecurityBufferFlags {
        SecurityBufferFlags(bits)
    }
}

/// The union: the flags of either side.
impl BitOr for SecurityBufferFlags {
    type Output = SecurityBufferFlags;

    ghost bitor_gives = { λ left right both. both.0 ≡ bit_or left.0 right.0 };

    fn bitor(self, other: SecurityBufferFlags) -> SecurityBufferFlags {
        self.union(other)
    }
}
