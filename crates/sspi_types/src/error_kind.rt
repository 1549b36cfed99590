//! The kinds of refusals, with their codes from winerror.h.

ghost use Rattle.std.specs.Prelude.{◌≡◌};
ghost use Rattle.sspi_types.specs.Errors.{error_kind_name, error_kind_number};
ghost use Rattle.sspi_types.specs.Numbers.{ReadsNumber};

/// Why a call was refused: the SECURITY_STATUS codes of winerror.h that SSPI names as errors.
#[derive(Clone, Copy, Debug, PartialEq, Eq)]
pub enum ErrorKind {
    /// Not a code of winerror.h: what was asked for, such as a package, is not known here.
    Unknown = 0x00000000,
    /// Memory ran out (SEC_E_INSUFFICIENT_MEMORY).
    InsufficientMemory = 0x80090300,
    /// The handle of a context or of credentials is not valid (SEC_E_INVALID_HANDLE).
    InvalidHandle = 0x80090301,
    /// The package does not support the function (SEC_E_UNSUPPORTED_FUNCTION).
    UnsupportedFunction = 0x80090302,
    /// The target is unknown or cannot be reached (SEC_E_TARGET_UNKNOWN).
    TargetUnknown = 0x80090303,
    /// An internal fault, such as a length above a limit (SEC_E_INTERNAL_ERROR).
    InternalError = 0x80090304,
    /// There is no such package (SEC_E_SECPKG_NOT_FOUND).
    SecurityPackageNotFound = 0x80090305,
    /// The caller does not own the credentials (SEC_E_NOT_OWNER).
    NotOwned = 0x80090306,
    /// The package cannot be set up (SEC_E_CANNOT_INSTALL).
    CannotInstall = 0x80090307,
    /// A token is malformed, or not the expected one (SEC_E_INVALID_TOKEN).
    InvalidToken = 0x80090308,
    /// The package cannot marshal the logon buffer (SEC_E_CANNOT_PACK).
    CannotPack = 0x80090309,
    /// The package does not offer this protection (SEC_E_QOP_NOT_SUPPORTED).
    OperationNotSupported = 0x8009030a,
    /// The server may not act as this client (SEC_E_NO_IMPERSONATION).
    NoImpersonation = 0x8009030b,
    /// The logon failed (SEC_E_LOGON_DENIED).
    LogonDenied = 0x8009030c,
    /// The credentials are not recognized, such as a mixed-format name (SEC_E_UNKNOWN_CREDENTIALS).
    UnknownCredentials = 0x8009030d,
    /// There are no credentials (SEC_E_NO_CREDENTIALS).
    NoCredentials = 0x8009030e,
    /// A message does not verify: it was altered, or another key made it (SEC_E_MESSAGE_ALTERED).
    MessageAltered = 0x8009030f,
    /// A message or a call came out of order (SEC_E_OUT_OF_SEQUENCE).
    OutOfSequence = 0x80090310,
    /// No authority could be reached (SEC_E_NO_AUTHENTICATING_AUTHORITY).
    NoAuthenticatingAuthority = 0x80090311,
    /// The package's identifier is wrong (SEC_E_BAD_PKGID).
    BadPackageId = 0x80090316,
    /// The context has expired (SEC_E_CONTEXT_EXPIRED).
    ContextExpired = 0x80090317,
    /// The bytes end before the message does (SEC_E_INCOMPLETE_MESSAGE).
    IncompleteMessage = 0x80090318,
    /// The credentials are not complete (SEC_E_INCOMPLETE_CREDENTIALS).
    IncompleteCredentials = 0x80090320,
    /// A buffer is too small (SEC_E_BUFFER_TOO_SMALL).
    BufferTooSmall = 0x80090321,
    /// The target's name is not the one asked for (SEC_E_WRONG_PRINCIPAL).
    WrongPrincipalName = 0x80090322,
    /// The clocks of the two ends differ too much (SEC_E_TIME_SKEW).
    TimeSkew = 0x80090324,
    /// The root of a chain of certificates is not trusted (SEC_E_UNTRUSTED_ROOT).
    UntrustedRoot = 0x80090325,
    /// A message was malformed or not expected (SEC_E_ILLEGAL_MESSAGE).
    IllegalMessage = 0x80090326,
    /// A certificate could not be processed (SEC_E_CERT_UNKNOWN).
    CertificateUnknown = 0x80090327,
    /// A certificate has expired (SEC_E_CERT_EXPIRED).
    CertificateExpired = 0x80090328,
    /// A message could not be sealed (SEC_E_ENCRYPT_FAILURE).
    EncryptFailure = 0x80090329,
    /// A message could not be opened (SEC_E_DECRYPT_FAILURE).
    DecryptFailure = 0x80090330,
    /// The ends have no algorithm in common (SEC_E_ALGORITHM_MISMATCH).
    AlgorithmMismatch = 0x80090331,
    /// The requested protection could not be provided (SEC_E_SECURITY_QOS_FAILED).
    SecurityQosFailed = 0x80090332,
    /// A context was deleted before it was complete (SEC_E_UNFINISHED_CONTEXT_DELETED).
    UnfinishedContextDeleted = 0x80090333,
    /// The peer did not answer with the expected ticket (SEC_E_NO_TGT_REPLY).
    NoTgtReply = 0x80090334,
    /// The machine has no IP address (SEC_E_NO_IP_ADDRESSES).
    NoIpAddress = 0x80090335,
    /// The credentials are not those of the context (SEC_E_WRONG_CREDENTIAL_HANDLE).
    WrongCredentialHandle = 0x80090336,
    /// The cryptographic system or its checksum is not valid (SEC_E_CRYPTO_SYSTEM_INVALID).
    CryptoSystemInvalid = 0x80090337,
    /// A ticket was referred too many times (SEC_E_MAX_REFERRALS_EXCEEDED).
    MaxReferralsExceeded = 0x80090338,
    /// The machine has to be a KDC (SEC_E_MUST_BE_KDC).
    MustBeKdc = 0x80090339,
    /// Strong cryptography is not supported by the peer (SEC_E_STRONG_CRYPTO_NOT_SUPPORTED).
    StrongCryptoNotSupported = 0x8009033a,
    /// A reply names too many principals (SEC_E_TOO_MANY_PRINCIPALS).
    TooManyPrincipals = 0x8009033b,
    /// A reply lacks pre-authentication data (SEC_E_NO_PA_DATA).
    NoPaData = 0x8009033c,
    /// The certificate's name is not the account's (SEC_E_PKINIT_NAME_MISMATCH).
    PkInitNameMismatch = 0x8009033d,
    /// The account logs on with a smart card only (SEC_E_SMARTCARD_LOGON_REQUIRED).
    SmartCardLogonRequired = 0x8009033e,
    /// The machine is shutting down (SEC_E_SHUTDOWN_IN_PROGRESS).
    ShutdownInProgress = 0x8009033f,
    /// The KDC was sent an invalid request (SEC_E_KDC_INVALID_REQUEST).
    KdcInvalidRequest = 0x80090340,
    /// The KDC cannot make a referral for the service (SEC_E_KDC_UNABLE_TO_REFER).
    KdcUnknownEType = 0x80090341,
    /// The KDC does not know the type of encryption (SEC_E_KDC_UNKNOWN_ETYPE).
    KdcUnknownEType2 = 0x80090342,
    /// The form of pre-authentication is not supported (SEC_E_UNSUPPORTED_PREAUTH).
    UnsupportedPreAuth = 0x80090343,
    /// Delegation is required and was not asked for (SEC_E_DELEGATION_REQUIRED).
    DelegationRequired = 0x80090345,
    /// The channel bindings are not those of the channel (SEC_E_BAD_BINDINGS).
    BadBindings = 0x80090346,
    /// The certificate belongs to more than one account (SEC_E_MULTIPLE_ACCOUNTS).
    MultipleAccounts = 0x80090347,
    /// There is no key for Kerberos (SEC_E_NO_KERB_KEY).
    NoKerbKey = 0x80090348,
    /// A certificate is not for this use (SEC_E_CERT_WRONG_USAGE).
    CertWrongUsage = 0x80090349,
    /// The peer was made to choose something weaker than it offers (SEC_E_DOWNGRADE_DETECTED).
    DowngradeDetected = 0x80090350,
    /// The smart card's certificate was revoked (SEC_E_SMARTCARD_CERT_REVOKED).
    SmartCardCertificateRevoked = 0x80090351,
    /// The authority of the smart card's certificate is not trusted (SEC_E_ISSUING_CA_UNTRUSTED).
    IssuingCAUntrusted = 0x80090352,
    /// Revocation of that certificate could not be checked online (SEC_E_REVOCATION_OFFLINE_C).
    RevocationOffline = 0x80090353,
    /// The smart card's certificate is not trusted (SEC_E_PKINIT_CLIENT_FAILURE).
    PkInitClientFailure = 0x80090354,
    /// The smart card's certificate has expired (SEC_E_SMARTCARD_CERT_EXPIRED).
    SmartCardCertExpired = 0x80090355,
    /// The KDC cannot issue a ticket to a service for a user (SEC_E_NO_S4U_PROT_SUPPORT).
    NoS4uProtSupport = 0x80090356,
    /// Delegation across realms failed (SEC_E_CROSSREALM_DELEGATION_FAILURE).
    CrossRealmDelegationFailure = 0x80090357,
    /// Revocation of the KDC's certificate could not be checked (SEC_E_REVOCATION_OFFLINE_KDC).
    RevocationOfflineKdc = 0x80090358,
    /// The authority of the KDC's certificate is not trusted (SEC_E_ISSUING_CA_UNTRUSTED_KDC).
    IssuingCaUntrustedKdc = 0x80090359,
    /// The KDC's certificate has expired (SEC_E_KDC_CERT_EXPIRED).
    KdcCertExpired = 0x8009035a,
    /// The KDC's certificate was revoked (SEC_E_KDC_CERT_REVOKED).
    KdcCertRevoked = 0x8009035b,
    /// An argument is not one that the call accepts (SEC_E_INVALID_PARAMETER).
    InvalidParameter = 0x8009035d,
    /// A policy forbids the delegation (SEC_E_DELEGATION_POLICY).
    DelegationPolicy = 0x8009035e,
    /// A policy forbids delegation to a server that NTLM alone authenticated
    /// (SEC_E_POLICY_NLTM_ONLY).
    PolicyNtlmOnly = 0x8009035f,
    /// There is no context (SEC_E_NO_CONTEXT).
    NoContext = 0x80090361,
    /// A PKU2U certificate is at fault (SEC_E_PKU2U_CERT_FAILURE).
    Pku2uCertFailure = 0x80090362,
    /// The server did not prove who it is (SEC_E_MUTUAL_AUTH_FAILED).
    MutualAuthFailed = 0x80090363,
    /// Only HTTPS may be used (SEC_E_ONLY_HTTPS_ALLOWED).
    OnlyHttpsAllowed = 0x80090365,
    /// The ends have no application protocol in common (SEC_E_APPLICATION_PROTOCOL_MISMATCH).
    ApplicationProtocolMismatch = 0x80090367,
}

impl ErrorKind {
    /// The value with this number, or `None` if the table has no such number.
    #[tactic(auto, using(crate::proofs::Numbers::same_error_kind))]
    pub fn from_u32(number: u32) -> Option<Self>
        ensures { ReadsNumber error_kind_number number result }
    {
        Some(match number {
            0x00000000 => ErrorKind::Unknown,
            0x80090300 => ErrorKind::InsufficientMemory,
            0x80090301 => ErrorKind::InvalidHandle,
            0x80090302 => ErrorKind::UnsupportedFunction,
            0x80090303 => ErrorKind::TargetUnknown,
            0x80090304 => ErrorKind::InternalError,
            0x80090305 => ErrorKind::SecurityPackageNotFound,
            0x80090306 => ErrorKind::NotOwned,
            0x80090307 => ErrorKind::CannotInstall,
            0x80090308 => ErrorKind::InvalidToken,
            0x80090309 => ErrorKind::CannotPack,
            0x8009030a => ErrorKind::OperationNotSupported,
            0x8009030b => ErrorKind::NoImpersonation,
            0x8009030c => ErrorKind::LogonDenied,
            0x8009030d => ErrorKind::UnknownCredentials,
            0x8009030e => ErrorKind::NoCredentials,
            0x8009030f => ErrorKind::MessageAltered,
            0x80090310 => ErrorKind::OutOfSequence,
            0x80090311 => ErrorKind::NoAuthenticatingAuthority,
            0x80090316 => ErrorKind::BadPackageId,
            0x80090317 => ErrorKind::ContextExpired,
            0x80090318 => ErrorKind::IncompleteMessage,
            0x80090320 => ErrorKind::IncompleteCredentials,
            0x80090321 => ErrorKind::BufferTooSmall,
            0x80090322 => ErrorKind::WrongPrincipalName,
            0x80090324 => ErrorKind::TimeSkew,
            0x80090325 => ErrorKind::UntrustedRoot,
            0x80090326 => ErrorKind::IllegalMessage,
            0x80090327 => ErrorKind::CertificateUnknown,
            0x80090328 => ErrorKind::CertificateExpired,
            0x80090329 => ErrorKind::EncryptFailure,
            0x80090330 => ErrorKind::DecryptFailure,
            0x80090331 => ErrorKind::AlgorithmMismatch,
            0x80090332 => ErrorKind::SecurityQosFailed,
            0x80090333 => ErrorKind::UnfinishedContextDeleted,
            0x80090334 => ErrorKind::NoTgtReply,
            0x80090335 => ErrorKind::NoIpAddress,
            0x80090336 => ErrorKind::WrongCredentialHandle,
            0x80090337 => ErrorKind::CryptoSystemInvalid,
            0x80090338 => ErrorKind::MaxReferralsExceeded,
            0x80090339 => ErrorKind::MustBeKdc,
            0x8009033a => ErrorKind::StrongCryptoNotSupported,
            0x8009033b => ErrorKind::TooManyPrincipals,
            0x8009033c => ErrorKind::NoPaData,
            0x8009033d => ErrorKind::PkInitNameMismatch,
            0x8009033e => ErrorKind::SmartCardLogonRequired,
            0x8009033f => ErrorKind::ShutdownInProgress,
            0x80090340 => ErrorKind::KdcInvalidRequest,
            0x80090341 => ErrorKind::KdcUnknownEType,
            0x80090342 => ErrorKind::KdcUnknownEType2,
            0x80090343 => ErrorKind::UnsupportedPreAuth,
            0x80090345 => ErrorKind::DelegationRequired,
            0x80090346 => ErrorKind::BadBindings,
            0x80090347 => ErrorKind::MultipleAccounts,
            0x80090348 => ErrorKind::NoKerbKey,
            0x80090349 => ErrorKind::CertWrongUsage,
            0x80090350 => ErrorKind::DowngradeDetected,
            0x80090351 => ErrorKind::SmartCardCertificateRevoked,
            0x80090352 => ErrorKind::IssuingCAUntrusted,
            0x80090353 => ErrorKind::RevocationOffline,
            0x80090354 => ErrorKind::PkInitClientFailure,
            0x80090355 => ErrorKind::SmartCardCertExpired,
            0x80090356 => ErrorKind::NoS4uProtSupport,
            0x80090357 => ErrorKind::CrossRealmDelegationFailure,
            0x80090358 => ErrorKind::RevocationOfflineKdc,
            0x80090359 => ErrorKind::IssuingCaUntrustedKdc,
            0x8009035a => ErrorKind::KdcCertExpired,
            0x8009035b => ErrorKind::KdcCertRevoked,
            0x8009035d => ErrorKind::InvalidParameter,
            0x8009035e => ErrorKind::DelegationPolicy,
            0x8009035f => ErrorKind::PolicyNtlmOnly,
            0x80090361 => ErrorKind::NoContext,
            0x80090362 => ErrorKind::Pku2uCertFailure,
            0x80090363 => ErrorKind::MutualAuthFailed,
            0x80090365 => ErrorKind::OnlyHttpsAllowed,
            0x80090367 => ErrorKind::ApplicationProtocolMismatch,
            _ => return None,
        })
    }

    /// The number of this value.
    pub fn to_u32(self) -> u32
        ensures { result ≡ error_kind_number self }
    {
        self as u32
    }

    /// The variant's name.
    pub fn name(self) -> &'static str
        ensures { result.now ≡ error_kind_name self }
    {
        match self {
            ErrorKind::Unknown => "Unknown",
            ErrorKind::InsufficientMemory => "InsufficientMemory",
            ErrorKind::InvalidHandle => "InvalidHandle",
            ErrorKind::UnsupportedFunction => "UnsupportedFunction",
            ErrorKind::TargetUnknown => "TargetUnknown",
            ErrorKind::InternalError => "InternalError",
            ErrorKind::SecurityPackageNotFound => "SecurityPackageNotFound",
            ErrorKind::NotOwned => "NotOwned",
            ErrorKind::CannotInstall => "CannotInstall",
            ErrorKind::InvalidToken => "InvalidToken",
            ErrorKind::CannotPack => "CannotPack",
            ErrorKind::OperationNotSupported => "OperationNotSupported",
            ErrorKind::NoImpersonation => "NoImpersonation",
            ErrorKind::LogonDenied => "LogonDenied",
            ErrorKind::UnknownCredentials => "UnknownCredentials",
            ErrorKind::NoCredentials => "NoCredentials",
            ErrorKind::MessageAltered => "MessageAltered",
            ErrorKind::OutOfSequence => "OutOfSequence",
            ErrorKind::NoAuthenticatingAuthority => "NoAuthenticatingAuthority",
            ErrorKind::BadPackageId => "BadPackageId",
            ErrorKind::ContextExpired => "ContextExpired",
            ErrorKind::IncompleteMessage => "IncompleteMessage",
            ErrorKind::IncompleteCredentials => "IncompleteCredentials",
            ErrorKind::BufferTooSmall => "BufferTooSmall",
            ErrorKind::WrongPrincipalName => "WrongPrincipalName",
            ErrorKind::TimeSkew => "TimeSkew",
            ErrorKind::UntrustedRoot => "UntrustedRoot",
            ErrorKind::IllegalMessage => "IllegalMessage",
            ErrorKind::CertificateUnknown => "CertificateUnknown",
            ErrorKind::CertificateExpired => "CertificateExpired",
            ErrorKind::EncryptFailure => "EncryptFailure",
            ErrorKind::DecryptFailure => "DecryptFailure",
            ErrorKind::AlgorithmMismatch => "AlgorithmMismatch",
            ErrorKind::SecurityQosFailed => "SecurityQosFailed",
            ErrorKind::UnfinishedContextDeleted => "UnfinishedContextDeleted",
            ErrorKind::NoTgtReply => "NoTgtReply",
            ErrorKind::NoIpAddress => "NoIpAddress",
            ErrorKind::WrongCredentialHandle => "WrongCredentialHandle",
            ErrorKind::CryptoSystemInvalid => "CryptoSystemInvalid",
            ErrorKind::MaxReferralsExceeded => "MaxReferralsExceeded",
            ErrorKind::MustBeKdc => "MustBeKdc",
            ErrorKind::StrongCryptoNotSupported => "StrongCryptoNotSupported",
            ErrorKind::TooManyPrincipals => "TooManyPrincipals",
            ErrorKind::NoPaData => "NoPaData",
            ErrorKind::PkInitNameMismatch => "PkInitNameMismatch",
            ErrorKind::SmartCardLogonRequired => "SmartCardLogonRequired",
            ErrorKind::ShutdownInProgress => "ShutdownInProgress",
            ErrorKind::KdcInvalidRequest => "KdcInvalidRequest",
            ErrorKind::KdcUnknownEType => "KdcUnknownEType",
            ErrorKind::KdcUnknownEType2 => "KdcUnknownEType2",
            ErrorKind::UnsupportedPreAuth => "UnsupportedPreAuth",
            ErrorKind::DelegationRequired => "DelegationRequired",
            ErrorKind::BadBindings => "BadBindings",
            ErrorKind::MultipleAccounts => "MultipleAccounts",
            ErrorKind::NoKerbKey => "NoKerbKey",
            ErrorKind::CertWrongUsage => "CertWrongUsage",
            ErrorKind::DowngradeDetected => "DowngradeDetected",
            ErrorKind::SmartCardCertificateRevoked => "SmartCardCertificateRevoked",
            ErrorKind::IssuingCAUntrusted => "IssuingCAUntrusted",
            ErrorKind::RevocationOffline => "RevocationOffline",
            ErrorKind::PkInitClientFailure => "PkInitClientFailure",
            ErrorKind::SmartCardCertExpired => "SmartCardCertExpired",
            ErrorKind::NoS4uProtSupport => "NoS4uProtSupport",
            ErrorKind::CrossRealmDelegationFailure => "CrossRealmDelegationFailure",
            ErrorKind::RevocationOfflineKdc => "RevocationOfflineKdc",
            ErrorKind::IssuingCaUntrustedKdc => "IssuingCaUntrustedKdc",
            ErrorKind::KdcCertExpired => "KdcCertExpired",
            ErrorKind::KdcCertRevoked => "KdcCertRevoked",
            ErrorKind::InvalidParameter => "InvalidParameter",
            ErrorKind::DelegationPolicy => "DelegationPolicy",
            ErrorKind::PolicyNtlmOnly => "PolicyNtlmOnly",
            ErrorKind::NoContext => "NoContext",
            ErrorKind::Pku2uCertFailure => "Pku2uCertFailure",
            ErrorKind::MutualAuthFailed => "MutualAuthFailed",
            ErrorKind::OnlyHttpsAllowed => "OnlyHttpsAllowed",
            ErrorKind::ApplicationProtocolMismatch => "ApplicationProtocolMismatch",
        }
    }
}
