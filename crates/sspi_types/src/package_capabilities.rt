//! What a security package can do.

ghost use Rattle.std.specs.Prelude.{⊤, ◌≡◌};
ghost use Rattle.std.specs.Int.RustNames.{bit_or};
ghost use Rattle.sspi_types.specs.Capabilities.{package_capabilities};

use bitflags::{Flag, Flags};
use std::ops::BitOr;

/// What a security package can do (`fCapabilities` of SecPkgInfo).
#[derive(Clone, Copy, Debug, PartialEq, Eq, PartialOrd, Ord, Hash)]
pub struct PackageCapabilities(u32);

impl PackageCapabilities {
    /// Messages can be signed and verified (SECPKG_FLAG_INTEGRITY).
    pub const INTEGRITY: PackageCapabilities = PackageCapabilities(0x00000001);

    /// Messages can be sealed (SECPKG_FLAG_PRIVACY).
    pub const PRIVACY: PackageCapabilities = PackageCapabilities(0x00000002);

    /// Only the token buffer of a message is read (SECPKG_FLAG_TOKEN_ONLY).
    pub const TOKEN_ONLY: PackageCapabilities = PackageCapabilities(0x00000004);

    /// Messages can be sent as datagrams (SECPKG_FLAG_DATAGRAM).
    pub const DATAGRAM: PackageCapabilities = PackageCapabilities(0x00000008);

    /// Messages can be sent over a connection (SECPKG_FLAG_CONNECTION).
    pub const CONNECTION: PackageCapabilities = PackageCapabilities(0x00000010);

    /// The client sends more than one message (SECPKG_FLAG_MULTI_REQUIRED).
    pub const MULTI_REQUIRED: PackageCapabilities = PackageCapabilities(0x00000020);

    /// The package has no server (SECPKG_FLAG_CLIENT_ONLY).
    pub const CLIENT_ONLY: PackageCapabilities = PackageCapabilities(0x00000040);

    /// The peer can be told of failures (SECPKG_FLAG_EXTENDED_ERROR).
    pub const EXTENDED_ERROR: PackageCapabilities = PackageCapabilities(0x00000080);

    /// A server can act as its client (SECPKG_FLAG_IMPERSONATION).
    pub const IMPERSONATION: PackageCapabilities = PackageCapabilities(0x00000100);

    /// Win32 names are accepted for targets (SECPKG_FLAG_ACCEPT_WIN32_NAME).
    pub const ACCEPT_WIN32_NAME: PackageCapabilities = PackageCapabilities(0x00000200);

    /// Messages can be sent as a stream (SECPKG_FLAG_STREAM).
    pub const STREAM: PackageCapabilities = PackageCapabilities(0x00000400);

    /// Negotiate can choose the package (SECPKG_FLAG_NEGOTIABLE).
    pub const NEGOTIABLE: PackageCapabilities = PackageCapabilities(0x00000800);

    /// The package interoperates with GSS-API (SECPKG_FLAG_GSS_COMPATIBLE).
    pub const GSS_COMPATIBLE: PackageCapabilities = PackageCapabilities(0x00001000);

    /// The package can log a user on (SECPKG_FLAG_LOGON).
    pub const LOGON: PackageCapabilities = PackageCapabilities(0x00002000);

    /// Tokens are ASCII texts (SECPKG_FLAG_ASCII_BUFFERS).
    pub const ASCII_BUFFERS: PackageCapabilities = PackageCapabilities(0x00004000);

    /// Tokens can be split into fragments (SECPKG_FLAG_FRAGMENT).
    pub const FRAGMENT: PackageCapabilities = PackageCapabilities(0x00008000);

    /// The server can prove who it is (SECPKG_FLAG_MUTUAL_AUTH).
    pub const MUTUAL_AUTH: PackageCapabilities = PackageCapabilities(0x00010000);

    /// Credentials can be delegated (SECPKG_FLAG_DELEGATION).
    pub const DELEGATION: PackageCapabilities = PackageCapabilities(0x00020000);

    /// Read-only buffers can be covered by a checksum (SECPKG_FLAG_READONLY_WITH_CHECKSUM).
    pub const READONLY_WITH_CHECKSUM: PackageCapabilities = PackageCapabilities(0x00040000);

    /// A caller with a restricted token is accepted (SECPKG_FLAG_RESTRICTED_TOKENS).
    pub const RESTRICTED_TOKENS: PackageCapabilities = PackageCapabilities(0x00080000);

    /// The package extends Negotiate (SECPKG_FLAG_NEGO_EXTENDER).
    pub const NEGO_EXTENDER: PackageCapabilities = PackageCapabilities(0x00100000);

    /// A package that extends Negotiate can choose this one (SECPKG_FLAG_NEGOTIABLE2).
    pub const NEGOTIABLE2: PackageCapabilities = PackageCapabilities(0x00200000);

    /// A caller in an app container is accepted (SECPKG_FLAG_APPCONTAINER_PASSTHROUGH).
    pub const APP_CONTAINER_PASSTHROUGH: PackageCapabilities = PackageCapabilities(0x00400000);

    /// A caller in an app container is checked (SECPKG_FLAG_APPCONTAINER_CHECKS).
    pub const APP_CONTAINER_CHECKS: PackageCapabilities = PackageCapabilities(0x00800000);

    /// The flags that have a name, in the order of their table.
    pub const FLAGS: &'static [Flag<PackageCapabilities>] = &[
        Flag {
            name: "INTEGRITY",
            value: PackageCapabilities::INTEGRITY,
        },
        Flag {
            name: "PRIVACY",
            value: PackageCapabilities::PRIVACY,
        },
        Flag {
            name: "TOKEN_ONLY",
            value: PackageCapabilities::TOKEN_ONLY,
        },
        Flag {
            name: "DATAGRAM",
            value: PackageCapabilities::DATAGRAM,
        },
        Flag {
            name: "CONNECTION",
            value: PackageCapabilities::CONNECTION,
        },
        Flag {
            name: "MULTI_REQUIRED",
            value: PackageCapabilities::MULTI_REQUIRED,
        },
        Flag {
            name: "CLIENT_ONLY",
            value: PackageCapabilities::CLIENT_ONLY,
        },
        Flag {
            name: "EXTENDED_ERROR",
            value: PackageCapabilities::EXTENDED_ERROR,
        },
        Flag {
            name: "IMPERSONATION",
            value: PackageCapabilities::IMPERSONATION,
        },
        Flag {
            name: "ACCEPT_WIN32_NAME",
            value: PackageCapabilities::ACCEPT_WIN32_NAME,
        },
        Flag {
            name: "STREAM",
            value: PackageCapabilities::STREAM,
        },
        Flag {
            name: "NEGOTIABLE",
            value: PackageCapabilities::NEGOTIABLE,
        },
        Flag {
            name: "GSS_COMPATIBLE",
            value: PackageCapabilities::GSS_COMPATIBLE,
        },
        Flag {
            name: "LOGON",
            value: PackageCapabilities::LOGON,
        },
        Flag {
            name: "ASCII_BUFFERS",
            value: PackageCapabilities::ASCII_BUFFERS,
        },
        Flag {
            name: "FRAGMENT",
            value: PackageCapabilities::FRAGMENT,
        },
        Flag {
            name: "MUTUAL_AUTH",
            value: PackageCapabilities::MUTUAL_AUTH,
        },
        Flag {
            name: "DELEGATION",
            value: PackageCapabilities::DELEGATION,
        },
        Flag {
            name: "READONLY_WITH_CHECKSUM",
            value: PackageCapabilities::READONLY_WITH_CHECKSUM,
        },
        Flag {
            name: "RESTRICTED_TOKENS",
            value: PackageCapabilities::RESTRICTED_TOKENS,
        },
        Flag {
            name: "NEGO_EXTENDER",
            value: PackageCapabilities::NEGO_EXTENDER,
        },
        Flag {
            name: "NEGOTIABLE2",
            value: PackageCapabilities::NEGOTIABLE2,
        },
        Flag {
            name: "APP_CONTAINER_PASSTHROUGH",
            value: PackageCapabilities::APP_CONTAINER_PASSTHROUGH,
        },
        Flag {
            name: "APP_CONTAINER_CHECKS",
            value: PackageCapabilities::APP_CONTAINER_CHECKS,
        },
    ];
}

impl Flags for PackageCapabilities {
    type Bits = u32;

    ghost exact = { ⊤ };

    ghost table = { package_capabilities };

    ghost set_of = { λ flags. flags.0 };

    fn flags<'a>() -> &'a [Flag<PackageCapabilities>] {
        PackageCapabilities::FLAGS
    }

    fn bits(&self) -> u32 {
        self.0
    }

    fn from_bits_retain(bits: u32) -> PackageCapabilities {
        PackageCapabilities(bits)
    }
}

/// The union: the flags of either side.
impl BitOr for PackageCapabilities {
    type Output = PackageCapabilities;

    ghost bitor_gives = { λ left right both. both.0 ≡ bit_or left.0 right.0 };

    fn bitor(self, other: PackageCapabilities) -> PackageCapabilities {
        self.union(other)
    }
}
