//! The attributes of a client's context.

ghost use Rattle.std.specs.Prelude.{⊤, ◌≡◌};
ghost use Rattle.std.specs.Int.RustNames.{bit_or};
ghost use Rattle.sspi_types.specs.ResponseFlags.{client_response_flags};

use bitflags::{Flag, Flags};
use std::ops::BitOr;

/// The attributes of a client's context (`pfContextAttr` of InitializeSecurityContext).
#[derive(Clone, Copy, Debug, PartialEq, Eq, PartialOrd, Ord, Hash)]
pub struct ClientResponseFlags(u32);

impl ClientResponseFlags {
    /// The server may use the client's credentials to log on elsewhere (ISC_RET_DELEGATE).
    pub const DELEGATE: ClientResponseFlags = ClientResponseFlags(0x00000001);

    /// The server proved who it is (ISC_RET_MUTUAL_AUTH).
    pub const MUTUAL_AUTH: ClientResponseFlags = ClientResponseFlags(0x00000002);

    /// Replayed messages are detected (ISC_RET_REPLAY_DETECT).
    pub const REPLAY_DETECT: ClientResponseFlags = ClientResponseFlags(0x00000004);

    /// Messages out of order are detected (ISC_RET_SEQUENCE_DETECT).
    pub const SEQUENCE_DETECT: ClientResponseFlags = ClientResponseFlags(0x00000008);

    /// Messages can be sealed (ISC_RET_CONFIDENTIALITY).
    pub const CONFIDENTIALITY: ClientResponseFlags = ClientResponseFlags(0x00000010);

    /// A new session key was agreed on (ISC_RET_USE_SESSION_KEY).
    pub const USE_SESSION_KEY: ClientResponseFlags = ClientResponseFlags(0x00000020);

    /// The user was asked for credentials (ISC_RET_USED_COLLECTED_CREDS).
    pub const USED_COLLECTED_CREDS: ClientResponseFlags = ClientResponseFlags(0x00000040);

    /// The credentials of the input buffer were used (ISC_RET_USED_SUPPLIED_CREDS).
    pub const USED_SUPPLIED_CREDS: ClientResponseFlags = ClientResponseFlags(0x00000080);

    /// The package allocated the output buffers (ISC_RET_ALLOCATED_MEMORY).
    pub const ALLOCATED_MEMORY: ClientResponseFlags = ClientResponseFlags(0x00000100);

    /// Three messages are exchanged, as DCE requires (ISC_RET_USED_DCE_STYLE).
    pub const USED_DCE_STYLE: ClientResponseFlags = ClientResponseFlags(0x00000200);

    /// Messages are sent as datagrams (ISC_RET_DATAGRAM).
    pub const DATAGRAM: ClientResponseFlags = ClientResponseFlags(0x00000400);

    /// Messages are sent over a connection (ISC_RET_CONNECTION).
    pub const CONNECTION: ClientResponseFlags = ClientResponseFlags(0x00000800);

    /// Not the last step of the exchange (ISC_RET_INTERMEDIATE_RETURN).
    pub const INTERMEDIATE_RETURN: ClientResponseFlags = ClientResponseFlags(0x00001000);

    /// Security applies to each call (ISC_RET_CALL_LEVEL).
    pub const CALL_LEVEL: ClientResponseFlags = ClientResponseFlags(0x00002000);

    /// The peer is told of failures (ISC_RET_EXTENDED_ERROR).
    pub const EXTENDED_ERROR: ClientResponseFlags = ClientResponseFlags(0x00004000);

    /// Messages are sent as a stream (ISC_RET_STREAM).
    pub const STREAM: ClientResponseFlags = ClientResponseFlags(0x00008000);

    /// Messages can be signed and verified (ISC_RET_INTEGRITY).
    pub const INTEGRITY: ClientResponseFlags = ClientResponseFlags(0x00010000);

    /// The server may learn who the client is, but not act as it (ISC_RET_IDENTIFY).
    pub const IDENTIFY: ClientResponseFlags = ClientResponseFlags(0x00020000);

    /// The client is anonymous (ISC_RET_NULL_SESSION).
    pub const NULL_SESSION: ClientResponseFlags = ClientResponseFlags(0x00040000);

    /// The caller has to validate the server's credentials itself (ISC_RET_MANUAL_CRED_VALIDATION).
    pub const MANUAL_CRED_VALIDATION: ClientResponseFlags = ClientResponseFlags(0x00080000);

    /// Reserved (ISC_RET_RESERVED1).
    pub const RESERVED1: ClientResponseFlags = ClientResponseFlags(0x00100000);

    /// The output is one fragment of a message (ISC_RET_FRAGMENT_ONLY).
    pub const FRAGMENT_ONLY: ClientResponseFlags = ClientResponseFlags(0x00200000);

    /// The credentials themselves are forwarded (ISC_RET_FORWARD_CREDENTIALS).
    pub const FORWARD_CREDENTIALS: ClientResponseFlags = ClientResponseFlags(0x00400000);

    /// Tokens are sent over HTTP (ISC_RET_USED_HTTP_STYLE).
    pub const USED_HTTP_STYLE: ClientResponseFlags = ClientResponseFlags(0x01000000);

    /// No further token follows (ISC_RET_NO_ADDITIONAL_TOKEN).
    pub const NO_ADDITIONAL_TOKEN: ClientResponseFlags = ClientResponseFlags(0x02000000);

    /// The context authenticates again (ISC_RET_REAUTHENTICATION).
    pub const REAUTHENTICATION: ClientResponseFlags = ClientResponseFlags(0x08000000);

    /// Messages can be sealed without a signature (ISC_RET_CONFIDENTIALITY_ONLY).
    pub const CONFIDENTIALITY_ONLY: ClientResponseFlags = ClientResponseFlags(0x40000000);

    /// The flags that have a name, in the order of their table.
    pub const FLAGS: &'static [Flag<ClientResponseFlags>] = &[
        Flag {
            name: "DELEGATE",
            value: ClientResponseFlags::DELEGATE,
        },
        Flag {
            name: "MUTUAL_AUTH",
            value: ClientResponseFlags::MUTUAL_AUTH,
        },
        Flag {
            name: "REPLAY_DETECT",
            value: ClientResponseFlags::REPLAY_DETECT,
        },
        Flag {
            name: "SEQUENCE_DETECT",
            value: ClientResponseFlags::SEQUENCE_DETECT,
        },
        Flag {
            name: "CONFIDENTIALITY",
            value: ClientResponseFlags::CONFIDENTIALITY,
        },
        Flag {
            name: "USE_SESSION_KEY",
            value: ClientResponseFlags::USE_SESSION_KEY,
        },
        Flag {
            name: "USED_COLLECTED_CREDS",
            value: ClientResponseFlags::USED_COLLECTED_CREDS,
        },
        Flag {
            name: "USED_SUPPLIED_CREDS",
            value: ClientResponseFlags::USED_SUPPLIED_CREDS,
        },
        Flag {
            name: "ALLOCATED_MEMORY",
            value: ClientResponseFlags::ALLOCATED_MEMORY,
        },
        Flag {
            name: "USED_DCE_STYLE",
            value: ClientResponseFlags::USED_DCE_STYLE,
        },
        Flag {
            name: "DATAGRAM",
            value: ClientResponseFlags::DATAGRAM,
        },
        Flag {
            name: "CONNECTION",
            value: ClientResponseFlags::CONNECTION,
        },
        Flag {
            name: "INTERMEDIATE_RETURN",
            value: ClientResponseFlags::INTERMEDIATE_RETURN,
        },
        Flag {
            name: "CALL_LEVEL",
            value: ClientResponseFlags::CALL_LEVEL,
        },
        Flag {
            name: "EXTENDED_ERROR",
            value: ClientResponseFlags::EXTENDED_ERROR,
        },
        Flag {
            name: "STREAM",
            value: ClientResponseFlags::STREAM,
        },
        Flag {
            name: "INTEGRITY",
            value: ClientResponseFlags::INTEGRITY,
        },
        Flag {
            name: "IDENTIFY",
            value: ClientResponseFlags::IDENTIFY,
        },
        Flag {
            name: "NULL_SESSION",
            value: ClientResponseFlags::NULL_SESSION,
        },
        Flag {
            name: "MANUAL_CRED_VALIDATION",
            value: ClientResponseFlags::MANUAL_CRED_VALIDATION,
        },
        Flag {
            name: "RESERVED1",
            value: ClientResponseFlags::RESERVED1,
        },
        Flag {
            name: "FRAGMENT_ONLY",
            value: ClientResponseFlags::FRAGMENT_ONLY,
        },
        Flag {
            name: "FORWARD_CREDENTIALS",
            value: ClientResponseFlags::FORWARD_CREDENTIALS,
        },
        Flag {
            name: "USED_HTTP_STYLE",
            value: ClientResponseFlags::USED_HTTP_STYLE,
        },
        Flag {
            name: "NO_ADDITIONAL_TOKEN",
            value: ClientResponseFlags::NO_ADDITIONAL_TOKEN,
        },
        Flag {
            name: "REAUTHENTICATION",
            value: ClientResponseFlags::REAUTHENTICATION,
        },
        Flag {
            name: "CONFIDENTIALITY_ONLY",
            value: ClientResponseFlags::CONFIDENTIALITY_ONLY,
        },
    ];
}

impl Flags for ClientResponseFlags {
    type Bits = u32;

    ghost exact = { ⊤ };

    ghost table = { client_response_flags };

    ghost set_of = { λ flags. flags.0 };

    fn flags<'a>() -> &'a [Flag<ClientResponseFlags>] {
        ClientResponseFlags::FLAGS
    }

    fn bits(&self) -> u32 {
        self.0
    }

    fn from_bits_retain(bits: u32) -> ClientResponseFlags {
        ClientResponseFlags(bits)
    }
}

/// The union: the flags of either side.
impl BitOr for ClientResponseFlags {
    type Output = ClientResponseFlags;

    ghost bitor_gives = { λ left right both. both.0 ≡ bit_or left.0 right.0 };

    fn bitor(self, other: ClientResponseFlags) -> ClientResponseFlags {
        self.union(other)
    }
}
