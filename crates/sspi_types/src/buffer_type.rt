//! What a security buffer holds.

ghost use Rattle.std.specs.Prelude.{◌≡◌};
ghost use Rattle.sspi_types.specs.BufferTypes.{buffer_type_number};
ghost use Rattle.sspi_types.specs.Numbers.{ReadsNumber};

/// What a buffer holds (`BufferType` of SecBuffer in sspi.h, without its flags).
#[derive(Clone, Copy, Debug, PartialEq, Eq)]
pub enum BufferType {
    /// Nothing; the buffer is skipped (SECBUFFER_EMPTY).
    Empty = 0,
    /// Data that is signed or sealed (SECBUFFER_DATA).
    Data = 1,
    /// A token or a signature (SECBUFFER_TOKEN).
    Token = 2,
    /// Parameters of the transport for the package (SECBUFFER_PKG_PARAMS).
    TransportToPackageParameters = 3,
    /// How many bytes are missing (SECBUFFER_MISSING).
    Missing = 4,
    /// Bytes that were not used (SECBUFFER_EXTRA).
    Extra = 5,
    /// The trailer of a message in a stream (SECBUFFER_STREAM_TRAILER).
    StreamTrailer = 6,
    /// The header of a message in a stream (SECBUFFER_STREAM_HEADER).
    StreamHeader = 7,
    /// Hints of a negotiation (SECBUFFER_NEGOTIATION_INFO).
    NegotiationInfo = 8,
    /// Bytes that pad the data (SECBUFFER_PADDING).
    Padding = 9,
    /// A whole message of a stream (SECBUFFER_STREAM).
    Stream = 10,
    /// A list of object identifiers (SECBUFFER_MECHLIST).
    ObjectIdsList = 11,
    /// The signature of such a list (SECBUFFER_MECHLIST_SIGNATURE).
    ObjectIdsListSignature = 12,
    /// The name of a target (SECBUFFER_TARGET; no longer used).
    Target = 13,
    /// Channel bindings (SECBUFFER_CHANNEL_BINDINGS).
    ChannelBindings = 14,
    /// The answer to a password change (SECBUFFER_CHANGE_PASS_RESPONSE).
    ChangePasswordResponse = 15,
    /// The name of the target's host (SECBUFFER_TARGET_HOST).
    TargetHost = 16,
    /// A TLS alert (SECBUFFER_ALERT).
    Alert = 17,
    /// A list of application protocols (SECBUFFER_APPLICATION_PROTOCOLS).
    ApplicationProtocol = 18,
    /// The bits that are flags, as a number in the table (SECBUFFER_ATTRMASK).
    AttributeMark = 0xf0000000,
    /// A flag, as a number in the table (SECBUFFER_READONLY).
    ReadOnly = 0x80000000,
    /// A flag, as a number in the table (SECBUFFER_READONLY_WITH_CHECKSUM).
    ReadOnlyWithChecksum = 0x10000000,
}

impl BufferType {
    /// The value with this number, or `None` if the table has no such number.
    #[tactic(auto, using(crate::proofs::Numbers::same_buffer_type))]
    pub fn from_u32(number: u32) -> Option<Self>
        ensures { ReadsNumber buffer_type_number number result }
    {
        Some(match number {
            0 => BufferType::Empty,
            1 => BufferType::Data,
            2 => BufferType::Token,
            3 => BufferType::TransportToPackageParameters,
            4 => BufferType::Missing,
            5 => BufferType::Extra,
            6 => BufferType::StreamTrailer,
            7 => BufferType::StreamHeader,
            8 => BufferType::NegotiationInfo,
            9 => BufferType::Padding,
            10 => BufferType::Stream,
            11 => BufferType::ObjectIdsList,
            12 => BufferType::ObjectIdsListSignature,
            13 => BufferType::Target,
            14 => BufferType::ChannelBindings,
            15 => BufferType::ChangePasswordResponse,
            16 => BufferType::TargetHost,
            17 => BufferType::Alert,
            18 => BufferType::ApplicationProtocol,
            0xf0000000 => BufferType::AttributeMark,
            0x80000000 => BufferType::ReadOnly,
            0x10000000 => BufferType::ReadOnlyWithChecksum,
            _ => return None,
        })
    }

    /// The number of this value.
    pub fn to_u32(self) -> u32
        ensures { result ≡ buffer_type_number self }
    {
        self as u32
    }
}

impl Default for BufferType {
    ghost use Rattle.sspi_types.specs.declared.buffer_type.BufferType.TheVariants.{Empty};

    ghost is_default = { λ buffer_type. buffer_type ≡ Empty };

    fn default() -> BufferType {
        BufferType::Empty
    }
}
