//! Why a call refused, in fixed words.

ghost use Rattle.std.specs.Prelude.{◌≡◌};
ghost use Rattle.sspi_types.specs.Reasons.{reason_text};

/// Why a call refused, in fixed words, so that a refusal allocates nothing.
#[derive(Clone, Copy, Debug, PartialEq, Eq)]
pub enum Reason {
    /// The peer's request has an error code (MS-CSSP 2.2.1, `errorCode`), given in `nstatus`.
    ErrorStatus,
    /// The peer's version differs from the one in its earlier request.
    PeerVersion,
    /// The peer speaks a version that is too old for this end.
    OldPeer,
    /// A request lacks `pubKeyAuth` (MS-CSSP 2.2.1) where it is required.
    NoPubKey,
    /// A request lacks `authInfo` (MS-CSSP 2.2.1) where it is required.
    NoAuthInfo,
    /// A request lacks `clientNonce` (MS-CSSP 2.2.1), and the version is 5 or above.
    NoNonce,
    /// There are fewer sealed bytes than the 16 of a tag.
    ShortBlob,
    /// The package's token is empty where one must be sent.
    EmptyToken,
    /// Below version 5, the opened proof of the key is not the prescribed one (MS-CSSP 3.1.5).
    EchoDiffers,
    /// From version 5 on, the opened proof of the key is not the prescribed one (MS-CSSP 3.1.5).
    HashDiffers,
    /// The call is not allowed in the state that the object is in.
    Sequence,
    /// The authentication ended before any request came from the peer, so no version is known.
    NoVersion,
    /// A step answered a status that is not allowed there.
    Status,
    /// A content is longer than its limit.
    TooLong,
    /// The credentials are malformed or of an unknown type (MS-CSSP 2.2.1.2).
    CredType,
    /// The credentials are those of a smart card (MS-CSSP 2.2.1.2.2).
    SmartCard,
    /// The credentials are a keytab, which cannot be delegated.
    Keytab,
    /// The client was made without credentials.
    NoAuthData,
    /// No package that may be used is left.
    NoPackage,
    /// The package that was chosen is disabled in the package list.
    Disabled,
    /// A mechanism's OID is not one of those known here.
    MechUnknown,
    /// None of the offered mechanisms (RFC 4178 4.2.1) may be used.
    NoSharedMech,
    /// A token lacks `mechTypes` (RFC 4178 4.2.1).
    NoMechTypes,
    /// `negState` (RFC 4178 4.2.2) is one that is not allowed there.
    NegResult,
    /// A token lacks `mechListMIC` (RFC 4178 5) where it is required.
    NoMic,
    /// Neither the lookup of the peer nor the server's list has an identity with its name.
    NoIdentity,
    /// The given list of identities is empty.
    NoCandidate,
    /// The credentials are not a name and a password, or a list has only such credentials.
    NotPassword,
    /// The lookup of credentials failed.
    Proxy,
    /// A token is malformed.
    TokenForm,
    /// No buffer is of the type that is needed.
    NoBuffer,
    /// A number has no value in its table, or does not fit its type.
    Number,
    /// Bytes are not a text in their encoding.
    Utf,
    /// A user name mixes the forms of a name.
    UserName,
    /// The peer's proof matches no candidate.
    Proof,
    /// A tag or a MIC does not match its bytes.
    Tag,
    /// The KDC refused, or was not reached.
    Kdc,
    /// A count of calls or messages is used up.
    Spent,
    /// The function is not supported.
    Unsupported,
    /// The package is not one of this library's.
    Package,
    /// Reading or writing failed, for any cause.
    Io,
    /// Memory ran out.
    Memory,
    /// The mechanism refused.
    Mechanism,
}

impl Reason {
    /// The text of this reason.
    pub fn text(self) -> &'static str
        ensures { result.now ≡ reason_text self }
    {
        match self {
            Reason::ErrorStatus => "CredSSP server returned an error status",
            Reason::PeerVersion => "CredSSP peer changed protocol version",
            Reason::OldPeer => "the peer's version is below the least accepted",
            Reason::NoPubKey => "expected an encrypted public key",
            Reason::NoAuthInfo => "expected an encrypted ts credentials",
            Reason::NoNonce => "client nonce is empty, but a peer version is >= 5",
            Reason::ShortBlob => "sealed bytes are shorter than 16",
            Reason::EmptyToken => "the security package returned an empty token",
            Reason::EchoDiffers => "could not verify a public key echo",
            Reason::HashDiffers => "could not verify a public key hash",
            Reason::Sequence => "call out of sequence",
            Reason::NoVersion => "the context ended before any request came",
            Reason::Status => "unexpected status",
            Reason::TooLong => "a length passes the limit",
            Reason::CredType => "invalid TsCredentials",
            Reason::SmartCard => "smart card credentials are not supported",
            Reason::Keytab => "keytab credentials are not supported",
            Reason::NoAuthData => "the client must specify the auth data",
            Reason::NoPackage => "all security packages are disabled or invalid",
            Reason::Disabled => "the protocol is disabled in package_list",
            Reason::MechUnknown => "unsupported mech_type",
            Reason::NoSharedMech => "no supported authentication protocols found in mech list",
            Reason::NoMechTypes => "mech_types is missing",
            Reason::NegResult => "unexpected NegResult",
            Reason::NoMic => "mech_list_mic is not present in SPNEGO message",
            Reason::NoIdentity => "user credentials are not found on the server side",
            Reason::NoCandidate => "no credentials provided",
            Reason::NotPassword => "provided credentials are not password-based",
            Reason::Proxy => "the credentials look-up failed",
            Reason::TokenForm => "the token is malformed",
            Reason::NoBuffer => "no buffer was provided with that type",
            Reason::Number => "integer conversion error",
            Reason::Utf => "text conversion error",
            Reason::UserName => "user name has a mixed format",
            Reason::Proof => "no candidate matches the proof",
            Reason::Tag => "a tag does not match",
            Reason::Kdc => "the KDC refused or could not be asked",
            Reason::Spent => "a count is spent",
            Reason::Unsupported => "the function is not supported",
            Reason::Package => "queried info about unknown package",
            Reason::Io => "reading or writing failed",
            Reason::Memory => "want of memory",
            Reason::Mechanism => "the mechanism refused",
        }
    }
}
