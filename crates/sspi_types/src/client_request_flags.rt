//! The context attributes that a client asks for.

ghost use Rattle.std.specs.Prelude.{⊤, ◌≡◌};
ghost use Rattle.std.specs.Int.RustNames.{bit_or};
ghost use Rattle.sspi_types.specs.RequestFlags.{client_request_flags};

use bitflags::{Flag, Flags};
use std::ops::BitOr;

/// The context attributes that a client asks for (`fContextReq` of InitializeSecurityContext).
#[derive(Clone, Copy, Debug, PartialEq, Eq, PartialOrd, Ord, Hash)]
pub struct ClientRequestFlags(u32);

impl ClientRequestFlags {
    /// The server may use the client's credentials to log on elsewhere (ISC_REQ_DELEGATE).
    pub const DELEGATE: ClientRequestFlags = ClientRequestFlags(0x00000001);

    /// The server has to prove who it is, too (ISC_REQ_MUTUAL_AUTH).
    pub const MUTUAL_AUTH: ClientRequestFlags = ClientRequestFlags(0x00000002);

    /// Replayed messages are detected (ISC_REQ_REPLAY_DETECT).
    pub const REPLAY_DETECT: ClientRequestFlags = ClientRequestFlags(0x00000004);

    /// Messages out of order are detected (ISC_REQ_SEQUENCE_DETECT).
    pub const SEQUENCE_DETECT: ClientRequestFlags = ClientRequestFlags(0x00000008);

    /// Messages can be sealed (ISC_REQ_CONFIDENTIALITY).
    pub const CONFIDENTIALITY: ClientRequestFlags = ClientRequestFlags(0x00000010);

    /// A new session key is to be agreed on (ISC_REQ_USE_SESSION_KEY).
    pub const USE_SESSION_KEY: ClientRequestFlags = ClientRequestFlags(0x00000020);

    /// The user may be asked for credentials (ISC_REQ_PROMPT_FOR_CREDS).
    pub const PROMPT_FOR_CREDS: ClientRequestFlags = ClientRequestFlags(0x00000040);

    /// Credentials are in the input buffer (ISC_REQ_USE_SUPPLIED_CREDS).
    pub const USE_SUPPLIED_CREDS: ClientRequestFlags = ClientRequestFlags(0x00000080);

    /// The package allocates the output buffers (ISC_REQ_ALLOCATE_MEMORY).
    pub const ALLOCATE_MEMORY: ClientRequestFlags = ClientRequestFlags(0x00000100);

    /// Three messages are exchanged, as DCE requires (ISC_REQ_USE_DCE_STYLE).
    pub const USE_DCE_STYLE: ClientRequestFlags = ClientRequestFlags(0x00000200);

    /// Messages are sent as datagrams (ISC_REQ_DATAGRAM).
    pub const DATAGRAM: ClientRequestFlags = ClientRequestFlags(0x00000400);

    /// Messages are sent over a connection (ISC_REQ_CONNECTION).
    pub const CONNECTION: ClientRequestFlags = ClientRequestFlags(0x00000800);

    /// Security applies to each call (ISC_REQ_CALL_LEVEL).
    pub const CALL_LEVEL: ClientRequestFlags = ClientRequestFlags(0x00001000);

    /// The input is one fragment of a message (ISC_REQ_FRAGMENT_SUPPLIED).
    pub const FRAGMENT_SUPPLIED: ClientRequestFlags = ClientRequestFlags(0x00002000);

    /// The peer is told of failures (ISC_REQ_EXTENDED_ERROR).
    pub const EXTENDED_ERROR: ClientRequestFlags = ClientRequestFlags(0x00004000);

    /// Messages are sent as a stream (ISC_REQ_STREAM).
    pub const STREAM: ClientRequestFlags = ClientRequestFlags(0x00008000);

    /// Messages can be signed and verified (ISC_REQ_INTEGRITY).
    pub const INTEGRITY: ClientRequestFlags = ClientRequestFlags(0x00010000);

    /// The server may learn who the client is, but not act as it (ISC_REQ_IDENTIFY).
    pub const IDENTIFY: ClientRequestFlags = ClientRequestFlags(0x00020000);

    /// The client is anonymous (ISC_REQ_NULL_SESSION).
    pub const NULL_SESSION: ClientRequestFlags = ClientRequestFlags(0x00040000);

    /// The caller validates the server's credentials itself (ISC_REQ_MANUAL_CRED_VALIDATION).
    pub const MANUAL_CRED_VALIDATION: ClientRequestFlags = ClientRequestFlags(0x00080000);

    /// Reserved (ISC_REQ_RESERVED1).
    pub const RESERVED1: ClientRequestFlags = ClientRequestFlags(0x00100000);

    /// Output may be split into fragments that fit (ISC_REQ_FRAGMENT_TO_FIT).
    pub const FRAGMENT_TO_FIT: ClientRequestFlags = ClientRequestFlags(0x00200000);

    /// The credentials themselves are forwarded (ISC_REQ_FORWARD_CREDENTIALS).
    pub const FORWARD_CREDENTIALS: ClientRequestFlags = ClientRequestFlags(0x00400000);

    /// No integrity, overriding INTEGRITY and the detections (ISC_REQ_NO_INTEGRITY).
    pub const NO_INTEGRITY: ClientRequestFlags = ClientRequestFlags(0x00800000);

    /// Tokens are sent over HTTP (ISC_REQ_USE_HTTP_STYLE).
    pub const USE_HTTP_STYLE: ClientRequestFlags = ClientRequestFlags(0x01000000);

    /// The target's name came from an untrusted source (ISC_REQ_UNVERIFIED_TARGET_NAME).
    pub const UNVERIFIED_TARGET_NAME: ClientRequestFlags = ClientRequestFlags(0x20000000);

    /// Messages can be sealed without a signature (ISC_REQ_CONFIDENTIALITY_ONLY).
    pub const CONFIDENTIALITY_ONLY: ClientRequestFlags = ClientRequestFlags(0x40000000);

    /// The flags that have a name, in the order of their table.
    pub const FLAGS: &'static [Flag<ClientRequestFlags>] = &[
        Flag {
            name: "DELEGATE",
            value: ClientRequestFlags::DELEGATE,
        },
        Flag {
            name: "MUTUAL_AUTH",
            value: ClientRequestFlags::MUTUAL_AUTH,
        },
        Flag {
            name: "REPLAY_DETECT",
            value: ClientRequestFlags::REPLAY_DETECT,
        },
        Flag {
            name: "SEQUENCE_DETECT",
            value: ClientRequestFlags::SEQUENCE_DETECT,
        },
        Flag {
            name: "CONFIDENTIALITY",
            value: ClientRequestFlags::CONFIDENTIALITY,
        },
        Flag {
            name: "USE_SESSION_KEY",
            value: ClientRequestFlags::USE_SESSION_KEY,
        },
        Flag {
            name: "PROMPT_FOR_CREDS",
            value: ClientRequestFlags::PROMPT_FOR_CREDS,
        },
        Flag {
            name: "USE_SUPPLIED_CREDS",
            value: ClientRequestFlags::USE_SUPPLIED_CREDS,
        },
        Flag {
            name: "ALLOCATE_MEMORY",
            value: ClientRequestFlags::ALLOCATE_MEMORY,
        },
        Flag {
            name: "USE_DCE_STYLE",
            value: ClientRequestFlags::USE_DCE_STYLE,
        },
        Flag {
            name: "DATAGRAM",
            value: ClientRequestFlags::DATAGRAM,
        },
        Flag {
            name: "CONNECTION",
            value: ClientRequestFlags::CONNECTION,
        },
        Flag {
            name: "CALL_LEVEL",
            value: ClientRequestFlags::CALL_LEVEL,
        },
        Flag {
            name: "FRAGMENT_SUPPLIED",
            value: ClientRequestFlags::FRAGMENT_SUPPLIED,
        },
        Flag {
            name: "EXTENDED_ERROR",
            value: ClientRequestFlags::EXTENDED_ERROR,
        },
        Flag {
            name: "STREAM",
            value: ClientRequestFlags::STREAM,
        },
        Flag {
            name: "INTEGRITY",
            value: ClientRequestFlags::INTEGRITY,
        },
        Flag {
            name: "IDENTIFY",
            value: ClientRequestFlags::IDENTIFY,
        },
        Flag {
            name: "NULL_SESSION",
            value: ClientRequestFlags::NULL_SESSION,
        },
        Flag {
            name: "MANUAL_CRED_VALIDATION",
            value: ClientRequestFlags::MANUAL_CRED_VALIDATION,
        },
        Flag {
            name: "RESERVED1",
            value: ClientRequestFlags::RESERVED1,
        },
        Flag {
            name: "FRAGMENT_TO_FIT",
            value: ClientRequestFlags::FRAGMENT_TO_FIT,
        },
        Flag {
            name: "FORWARD_CREDENTIALS",
            value: ClientRequestFlags::FORWARD_CREDENTIALS,
        },
        Flag {
            name: "NO_INTEGRITY",
            value: ClientRequestFlags::NO_INTEGRITY,
        },
        Flag {
            name: "USE_HTTP_STYLE",
            value: ClientRequestFlags::USE_HTTP_STYLE,
        },
        Flag {
            name: "UNVERIFIED_TARGET_NAME",
            value: ClientRequestFlags::UNVERIFIED_TARGET_NAME,
        },
        Flag {
            name: "CONFIDENTIALITY_ONLY",
            value: ClientRequestFlags::CONFIDENTIALITY_ONLY,
        },
    ];
}

impl Flags for ClientRequestFlags {
    type Bits = u32;

    ghost exact = { ⊤ };

    ghost table = { client_request_flags };

    ghost set_of = { λ flags. flags.0 };

    fn flags<'a>() -> &'a [Flag<ClientRequestFlags>] {
        ClientRequestFlags::FLAGS
    }

    fn bits(&self) -> u32 {
        self.0
    }

    fn from_bits_retain(bits: u32) -> ClientRequestFlags {
        ClientRequestFlags(bits)
    }
}

/// The union: the flags of either side.
impl BitOr for ClientRequestFlags {
    type Output = ClientRequestFlags;

    ghost bitor_gives = { λ left right both. both.0 ≡ bit_or left.0 right.0 };

    fn bitor(self, other: ClientRequestFlags) -> ClientRequestFlags {
        self.union(other)
    }
}
