//! How a message is sealed or opened.

ghost use Rattle.std.specs.Prelude.{⊤, ◌≡◌};
ghost use Rattle.std.specs.Int.RustNames.{bit_or};
ghost use Rattle.sspi_types.specs.ProtectionFlags.{encryption_flags, decryption_flags};

use bitflags::{Flag, Flags};
use std::ops::BitOr;

/// How a message is to be sealed (`fQOP` of EncryptMessage).
#[derive(Clone, Copy, Debug, PartialEq, Eq, PartialOrd, Ord, Hash)]
pub struct EncryptionFlags(u32);

impl EncryptionFlags {
    /// Out-of-band data is sent (SECQOP_WRAP_OOB_DATA).
    pub const WRAP_OOB_DATA: EncryptionFlags = EncryptionFlags(0x40000000);

    /// The message is signed but not sealed (SECQOP_WRAP_NO_ENCRYPT).
    pub const WRAP_NO_ENCRYPT: EncryptionFlags = EncryptionFlags(0x80000001);

    /// The flags that have a name, in the order of their table.
    pub const FLAGS: &'static [Flag<EncryptionFlags>] = &[
        Flag {
            name: "WRAP_OOB_DATA",
            value: EncryptionFlags::WRAP_OOB_DATA,
        },
        Flag {
            name: "WRAP_NO_ENCRYPT",
            value: EncryptionFlags::WRAP_NO_ENCRYPT,
        },
    ];
}

impl Flags for EncryptionFlags {
    type Bits = u32;

    ghost exact = { ⊤ };

    ghost table = { encryption_flags };

    ghost set_of = { λ flags. flags.0 };

    fn flags<'a>() -> &'a [Flag<EncryptionFlags>] {
        EncryptionFlags::FLAGS
    }

    fn bits(&self) -> u32 {
        self.0
    }

    fn from_bits_retain(bits: u32) -> EncryptionFlags {
        EncryptionFlags(bits)
    }
}

/// The union: the flags of either side.
impl BitOr for EncryptionFlags {
    type Output = EncryptionFlags;

    ghost bitor_gives = { λ left right both. both.0 ≡ bit_or left.0 right.0 };

    fn bitor(self, other: EncryptionFlags) -> EncryptionFlags {
        self.union(other)
    }
}

/// How a message was sealed (`pfQOP` of DecryptMessage).
#[derive(Clone, Copy, Debug, PartialEq, Eq, PartialOrd, Ord, Hash)]
pub struct DecryptionFlags(u32);

impl DecryptionFlags {
    /// The message was signed but not sealed (SIGN_ONLY).
    pub const SIGN_ONLY: DecryptionFlags = DecryptionFlags(0x80000000);

    /// The same, as reported by a package that only signs (SECQOP_WRAP_NO_ENCRYPT).
    pub const WRAP_NO_ENCRYPT: DecryptionFlags = DecryptionFlags(0x80000001);

    /// The flags that have a name, in the order of their table.
    pub const FLAGS: &'static [Flag<DecryptionFlags>] = &[
        Flag {
            name: "SIGN_ONLY",
            value: DecryptionFlags::SIGN_ONLY,
        },
        Flag {
            name: "WRAP_NO_ENCRYPT",
            value: DecryptionFlags::WRAP_NO_ENCRYPT,
        },
    ];
}

impl Flags for DecryptionFlags {
    type Bits = u32;

    ghost exact = { ⊤ };

    ghost table = { decryption_flags };

    ghost set_of = { λ flags. flags.0 };

    fn flags<'a>() -> &'a [Flag<DecryptionFlags>] {
        DecryptionFlags::FLAGS
    }

    fn bits(&self) -> u32 {
        self.0
    }

    fn from_bits_retain(bits: u32) -> DecryptionFlags {
        DecryptionFlags(bits)
    }
}

/// The union: the flags of either side.
impl BitOr for DecryptionFlags {
    type Output = DecryptionFlags;

    ghost bitor_gives = { λ left right both. both.0 ≡ bit_or left.0 right.0 };

    fn bitor(self, other: DecryptionFlags) -> DecryptionFlags {
        self.union(other)
    }
}
