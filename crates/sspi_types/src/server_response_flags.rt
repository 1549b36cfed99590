//! The attributes of a server's context.

ghost use Rattle.std.specs.Prelude.{⊤, ◌≡◌};
ghost use Rattle.std.specs.Int.RustNames.{bit_or};
ghost use Rattle.sspi_types.specs.ResponseFlags.{server_response_flags};

use bitflags::{Flag, Flags};
use std::ops::BitOr;

/// The attributes of a server's context (`pfContextAttr` of AcceptSecurityContext).
#[derive(Clone, Copy, Debug, PartialEq, Eq, PartialOrd, Ord, Hash)]
pub struct ServerResponseFlags(u32);

impl ServerResponseFlags {
    /// The client's credentials may be used to log on elsewhere (ASC_RET_DELEGATE).
    pub const DELEGATE: ServerResponseFlags = ServerResponseFlags(0x00000001);

    /// The server proves who it is, too (ASC_RET_MUTUAL_AUTH).
    pub const MUTUAL_AUTH: ServerResponseFlags = ServerResponseFlags(0x00000002);

    /// Replayed messages are detected (ASC_RET_REPLAY_DETECT).
    pub const REPLAY_DETECT: ServerResponseFlags = ServerResponseFlags(0x00000004);

    /// Messages out of order are detected (ASC_RET_SEQUENCE_DETECT).
    pub const SEQUENCE_DETECT: ServerResponseFlags = ServerResponseFlags(0x00000008);

    /// Messages can be sealed (ASC_RET_CONFIDENTIALITY).
    pub const CONFIDENTIALITY: ServerResponseFlags = ServerResponseFlags(0x00000010);

    /// A new session key was agreed on (ASC_RET_USE_SESSION_KEY).
    pub const USE_SESSION_KEY: ServerResponseFlags = ServerResponseFlags(0x00000020);

    /// A session ticket may resume the session (ASC_RET_SESSION_TICKET).
    pub const SESSION_TICKET: ServerResponseFlags = ServerResponseFlags(0x00000040);

    /// The package allocated the output buffers (ASC_RET_ALLOCATED_MEMORY).
    pub const ALLOCATED_MEMORY: ServerResponseFlags = ServerResponseFlags(0x00000100);

    /// Three messages are exchanged, as DCE requires (ASC_RET_USED_DCE_STYLE).
    pub const USED_DCE_STYLE: ServerResponseFlags = ServerResponseFlags(0x00000200);

    /// Messages are sent as datagrams (ASC_RET_DATAGRAM).
    pub const DATAGRAM: ServerResponseFlags = ServerResponseFlags(0x00000400);

    /// Messages are sent over a connection (ASC_RET_CONNECTION).
    pub const CONNECTION: ServerResponseFlags = ServerResponseFlags(0x00000800);

    /// Security applies to each call (ASC_RET_CALL_LEVEL; a different bit than in the request).
    pub const CALL_LEVEL: ServerResponseFlags = ServerResponseFlags(0x00002000);

    /// The third message of the exchange was refused (ASC_RET_THIRD_LEG_FAILED).
    pub const THIRD_LEG_FAILED: ServerResponseFlags = ServerResponseFlags(0x00004000);

    /// The peer is told of failures (ASC_RET_EXTENDED_ERROR).
    pub const EXTENDED_ERROR: ServerResponseFlags = ServerResponseFlags(0x00008000);

    /// Messages are sent as a stream (ASC_RET_STREAM).
    pub const STREAM: ServerResponseFlags = ServerResponseFlags(0x00010000);

    /// Messages can be signed and verified (ASC_RET_INTEGRITY).
    pub const INTEGRITY: ServerResponseFlags = ServerResponseFlags(0x00020000);

    /// The context is for licensing (ASC_RET_LICENSING).
    pub const LICENSING: ServerResponseFlags = ServerResponseFlags(0x00040000);

    /// The server learns who the client is, but does not act as it (ASC_RET_IDENTIFY).
    pub const IDENTIFY: ServerResponseFlags = ServerResponseFlags(0x00080000);

    /// The client is anonymous (ASC_RET_NULL_SESSION).
    pub const NULL_SESSION: ServerResponseFlags = ServerResponseFlags(0x00100000);

    /// A client that is not a user, such as a machine, is accepted (ASC_RET_ALLOW_NON_USER_LOGONS).
    pub const ALLOW_NON_USER_LOGONS: ServerResponseFlags = ServerResponseFlags(0x00200000);

    /// A context that was seen before is accepted (ASC_RET_ALLOW_CONTEXT_REPLAY).
    pub const ALLOW_CONTEXT_REPLAY: ServerResponseFlags = ServerResponseFlags(0x00400000);

    /// The output is one fragment of a message (ASC_RET_FRAGMENT_ONLY).
    pub const FRAGMENT_ONLY: ServerResponseFlags = ServerResponseFlags(0x00800000);

    /// No access token was made for the client (ASC_RET_NO_TOKEN).
    pub const NO_TOKEN: ServerResponseFlags = ServerResponseFlags(0x01000000);

    /// No further token follows (ASC_RET_NO_ADDITIONAL_TOKEN).
    pub const NO_ADDITIONAL_TOKEN: ServerResponseFlags = ServerResponseFlags(0x02000000);

    /// The flags that have a name, in the order of their table.
    pub const FLAGS: &'static [Flag<ServerResponseFlags>] = &[
        Flag {
            name: "DELEGATE",
            value: ServerResponseFlags::DELEGATE,
        },
        Flag {
            name: "MUTUAL_AUTH",
            value: ServerResponseFlags::MUTUAL_AUTH,
        },
        Flag {
            name: "REPLAY_DETECT",
            value: ServerResponseFlags::REPLAY_DETECT,
        },
        Flag {
            name: "SEQUENCE_DETECT",
            value: ServerResponseFlags::SEQUENCE_DETECT,
        },
        Flag {
            name: "CONFIDENTIALITY",
            value: ServerResponseFlags::CONFIDENTIALITY,
        },
        Flag {
            name: "USE_SESSION_KEY",
            value: ServerResponseFlags::USE_SESSION_KEY,
        },
        Flag {
            name: "SESSION_TICKET",
            value: ServerResponseFlags::SESSION_TICKET,
        },
        Flag {
            name: "ALLOCATED_MEMORY",
            value: ServerResponseFlags::ALLOCATED_MEMORY,
        },
        Flag {
            name: "USED_DCE_STYLE",
            value: ServerResponseFlags::USED_DCE_STYLE,
        },
        Flag {
            name: "DATAGRAM",
            value: ServerResponseFlags::DATAGRAM,
        },
        Flag {
            name: "CONNECTION",
            value: ServerResponseFlags::CONNECTION,
        },
        Flag {
            name: "CALL_LEVEL",
            value: ServerResponseFlags::CALL_LEVEL,
        },
        Flag {
            name: "THIRD_LEG_FAILED",
            value: ServerResponseFlags::THIRD_LEG_FAILED,
        },
        Flag {
            name: "EXTENDED_ERROR",
            value: ServerResponseFlags::EXTENDED_ERROR,
        },
        Flag {
            name: "STREAM",
            value: ServerResponseFlags::STREAM,
        },
        Flag {
            name: "INTEGRITY",
            value: ServerResponseFlags::INTEGRITY,
        },
        Flag {
            name: "LICENSING",
            value: ServerResponseFlags::LICENSING,
        },
        Flag {
            name: "IDENTIFY",
            value: ServerResponseFlags::IDENTIFY,
        },
        Flag {
            name: "NULL_SESSION",
            value: ServerResponseFlags::NULL_SESSION,
        },
        Flag {
            name: "ALLOW_NON_USER_LOGONS",
            value: ServerResponseFlags::ALLOW_NON_USER_LOGONS,
        },
        Flag {
            name: "ALLOW_CONTEXT_REPLAY",
            value: ServerResponseFlags::ALLOW_CONTEXT_REPLAY,
        },
        Flag {
            name: "FRAGMENT_ONLY",
            value: ServerResponseFlags::FRAGMENT_ONLY,
        },
        Flag {
            name: "NO_TOKEN",
            value: ServerResponseFlags::NO_TOKEN,
        },
        Flag {
            name: "NO_ADDITIONAL_TOKEN",
            value: ServerResponseFlags::NO_ADDITIONAL_TOKEN,
        },
    ];
}

impl Flags for ServerResponseFlags {
    type Bits = u32;

    ghost exact = { ⊤ };

    ghost table = { server_response_flags };

    ghost set_of = { λ flags. flags.0 };

    fn flags<'a>() -> &'a [Flag<ServerResponseFlags>] {
        ServerResponseFlags::FLAGS
    }

    fn bits(&self) -> u32 {
        self.0
    }

    fn from_bits_retain(bits: u32) -> ServerResponseFlags {
        ServerResponseFlags(bits)
    }
}

/// The union: the flags of either side.
impl BitOr for ServerResponseFlags {
    type Output = ServerResponseFlags;

    ghost bitor_gives = { λ left right both. both.0 ≡ bit_or left.0 right.0 };

    fn bitor(self, other: ServerResponseFlags) -> ServerResponseFlags {
        self.union(other)
    }
}
