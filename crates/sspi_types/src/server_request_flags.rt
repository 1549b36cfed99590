//! The context attributes that a server asks for.

ghost use Rattle.std.specs.Prelude.{⊤, ◌≡◌};
ghost use Rattle.std.specs.Int.RustNames.{bit_or};
ghost use Rattle.sspi_types.specs.RequestFlags.{server_request_flags};

use bitflags::{Flag, Flags};
use std::ops::BitOr;

/// The context attributes that a server asks for (`fContextReq` of AcceptSecurityContext).
#[derive(Clone, Copy, Debug, PartialEq, Eq, PartialOrd, Ord, Hash)]
pub struct ServerRequestFlags(u32);

impl ServerRequestFlags {
    /// The client's credentials may be used to log on elsewhere (ASC_REQ_DELEGATE).
    pub const DELEGATE: ServerRequestFlags = ServerRequestFlags(0x00000001);

    /// The server proves who it is, too (ASC_REQ_MUTUAL_AUTH).
    pub const MUTUAL_AUTH: ServerRequestFlags = ServerRequestFlags(0x00000002);

    /// Replayed messages are detected (ASC_REQ_REPLAY_DETECT).
    pub const REPLAY_DETECT: ServerRequestFlags = ServerRequestFlags(0x00000004);

    /// Messages out of order are detected (ASC_REQ_SEQUENCE_DETECT).
    pub const SEQUENCE_DETECT: ServerRequestFlags = ServerRequestFlags(0x00000008);

    /// Messages can be sealed (ASC_REQ_CONFIDENTIALITY).
    pub const CONFIDENTIALITY: ServerRequestFlags = ServerRequestFlags(0x00000010);

    /// A new session key is to be agreed on (ASC_REQ_USE_SESSION_KEY).
    pub const USE_SESSION_KEY: ServerRequestFlags = ServerRequestFlags(0x00000020);

    /// A session ticket may resume the session (ASC_REQ_SESSION_TICKET).
    pub const SESSION_TICKET: ServerRequestFlags = ServerRequestFlags(0x00000040);

    /// The package allocates the output buffers (ASC_REQ_ALLOCATE_MEMORY).
    pub const ALLOCATE_MEMORY: ServerRequestFlags = ServerRequestFlags(0x00000100);

    /// Three messages are exchanged, as DCE requires (ASC_REQ_USE_DCE_STYLE).
    pub const USE_DCE_STYLE: ServerRequestFlags = ServerRequestFlags(0x00000200);

    /// Messages are sent as datagrams (ASC_REQ_DATAGRAM).
    pub const DATAGRAM: ServerRequestFlags = ServerRequestFlags(0x00000400);

    /// Messages are sent over a connection (ASC_REQ_CONNECTION).
    pub const CONNECTION: ServerRequestFlags = ServerRequestFlags(0x00000800);

    /// Security applies to each call (ASC_REQ_CALL_LEVEL).
    pub const CALL_LEVEL: ServerRequestFlags = ServerRequestFlags(0x00001000);

    /// The input is one fragment of a message (ASC_REQ_FRAGMENT_SUPPLIED).
    pub const FRAGMENT_SUPPLIED: ServerRequestFlags = ServerRequestFlags(0x00002000);

    /// The peer is told of failures (ASC_REQ_EXTENDED_ERROR; a different bit than for a client).
    pub const EXTENDED_ERROR: ServerRequestFlags = ServerRequestFlags(0x00008000);

    /// Messages are sent as a stream (ASC_REQ_STREAM; a different bit than for a client).
    pub const STREAM: ServerRequestFlags = ServerRequestFlags(0x00010000);

    /// Messages can be signed and verified (ASC_REQ_INTEGRITY; a different bit than for a client).
    pub const INTEGRITY: ServerRequestFlags = ServerRequestFlags(0x00020000);

    /// The context is for licensing (ASC_REQ_LICENSING).
    pub const LICENSING: ServerRequestFlags = ServerRequestFlags(0x00040000);

    /// The server learns who the client is, but does not act as it (ASC_REQ_IDENTIFY).
    pub const IDENTIFY: ServerRequestFlags = ServerRequestFlags(0x00080000);

    /// An anonymous client is accepted (ASC_REQ_ALLOW_NULL_SESSION).
    pub const ALLOW_NULL_SESSION: ServerRequestFlags = ServerRequestFlags(0x00100000);

    /// A client that is not a user, such as a machine, is accepted (ASC_REQ_ALLOW_NON_USER_LOGONS).
    pub const ALLOW_NON_USER_LOGONS: ServerRequestFlags = ServerRequestFlags(0x00200000);

    /// A context that was seen before is accepted (ASC_REQ_ALLOW_CONTEXT_REPLAY).
    pub const ALLOW_CONTEXT_REPLAY: ServerRequestFlags = ServerRequestFlags(0x00400000);

    /// Output may be split into fragments that fit (ASC_REQ_FRAGMENT_TO_FIT).
    pub const FRAGMENT_TO_FIT: ServerRequestFlags = ServerRequestFlags(0x00800000);

    /// No access token is made for the client (ASC_REQ_NO_TOKEN).
    pub const NO_TOKEN: ServerRequestFlags = ServerRequestFlags(0x01000000);

    /// Channel bindings are those of a proxy (ASC_REQ_PROXY_BINDINGS).
    pub const PROXY_BINDINGS: ServerRequestFlags = ServerRequestFlags(0x04000000);

    /// A client without channel bindings is accepted (ASC_REQ_ALLOW_MISSING_BINDINGS).
    pub const ALLOW_MISSING_BINDINGS: ServerRequestFlags = ServerRequestFlags(0x10000000);

    /// The flags that have a name, in the order of their table.
    pub const FLAGS: &'static [Flag<ServerRequestFlags>] = &[
        Flag {
            name: "DELEGATE",
            value: ServerRequestFlags::DELEGATE,
        },
        Flag {
            name: "MUTUAL_AUTH",
            value: ServerRequestFlags::MUTUAL_AUTH,
        },
        Flag {
            name: "REPLAY_DETECT",
            value: ServerRequestFlags::REPLAY_DETECT,
        },
        Flag {
            name: "SEQUENCE_DETECT",
            value: ServerRequestFlags::SEQUENCE_DETECT,
        },
        Flag {
            name: "CONFIDENTIALITY",
            value: ServerRequestFlags::CONFIDENTIALITY,
        },
        Flag {
            name: "USE_SESSION_KEY",
            value: ServerRequestFlags::USE_SESSION_KEY,
        },
        Flag {
            name: "SESSION_TICKET",
            value: ServerRequestFlags::SESSION_TICKET,
        },
        Flag {
            name: "ALLOCATE_MEMORY",
            value: ServerRequestFlags::ALLOCATE_MEMORY,
        },
        Flag {
            name: "USE_DCE_STYLE",
            value: ServerRequestFlags::USE_DCE_STYLE,
        },
        Flag {
            name: "DATAGRAM",
            value: ServerRequestFlags::DATAGRAM,
        },
        Flag {
            name: "CONNECTION",
            value: ServerRequestFlags::CONNECTION,
        },
        Flag {
            name: "CALL_LEVEL",
            value: ServerRequestFlags::CALL_LEVEL,
        },
        Flag {
            name: "FRAGMENT_SUPPLIED",
            value: ServerRequestFlags::FRAGMENT_SUPPLIED,
        },
        Flag {
            name: "EXTENDED_ERROR",
            value: ServerRequestFlags::EXTENDED_ERROR,
        },
        Flag {
            name: "STREAM",
            value: ServerRequestFlags::STREAM,
        },
        Flag {
            name: "INTEGRITY",
            value: ServerRequestFlags::INTEGRITY,
        },
        Flag {
            name: "LICENSING",
            value: ServerRequestFlags::LICENSING,
        },
        Flag {
            name: "IDENTIFY",
            value: ServerRequestFlags::IDENTIFY,
        },
        Flag {
            name: "ALLOW_NULL_SESSION",
            value: ServerRequestFlags::ALLOW_NULL_SESSION,
        },
        Flag {
            name: "ALLOW_NON_USER_LOGONS",
            value: ServerRequestFlags::ALLOW_NON_USER_LOGONS,
        },
        Flag {
            name: "ALLOW_CONTEXT_REPLAY",
            value: ServerRequestFlags::ALLOW_CONTEXT_REPLAY,
        },
        Flag {
            name: "FRAGMENT_TO_FIT",
            value: ServerRequestFlags::FRAGMENT_TO_FIT,
        },
        Flag {
            name: "NO_TOKEN",
            value: ServerRequestFlags::NO_TOKEN,
        },
        Flag {
            name: "PROXY_BINDINGS",
            value: ServerRequestFlags::PROXY_BINDINGS,
        },
        Flag {
            name: "ALLOW_MISSING_BINDINGS",
            value: ServerRequestFlags::ALLOW_MISSING_BINDINGS,
        },
    ];
}

impl Flags for ServerRequestFlags {
    type Bits = u32;

    ghost exact = { ⊤ };

    ghost table = { server_request_flags };

    ghost set_of = { λ flags. flags.0 };

    fn flags<'a>() -> &'a [Flag<ServerRequestFlags>] {
        ServerRequestFlags::FLAGS
    }

    fn bits(&self) -> u32 {
        self.0
    }

    fn from_bits_retain(bits: u32) -> ServerRequestFlags {
        ServerRequestFlags(bits)
    }
}

/// The union: the flags of either side.
impl BitOr for ServerRequestFlags {
    type Output = ServerRequestFlags;

    ghost bitor_gives = { λ left right both. both.0 ≡ bit_or left.0 right.0 };

    fn bitor(self, other: ServerRequestFlags) -> ServerRequestFlags {
        self.union(other)
    }
}
