//! The names of the codes with which a server reports why it refused.
ghost use Rattle.std.specs.Prelude.{◌≡◌, string_bytes, option_map, IfOk};
ghost use Rattle.sspi_explain.specs.Codes;
ghost use Rattle.sspi_explain.specs.Codes.{code_digits, code_name, code_text, kind_code};
ghost use Rattle.sspi_explain.specs.Codes.{name_among};

use sspi_types::{ErrorKind, NStatusCode};
use std::alloc::{AllocError, Global};

/// All kinds, in the order of their numbers.
const KINDS: [ErrorKind; 76] = [
    ErrorKind::Unknown,
    ErrorKind::InsufficientMemory,
    ErrorKind::InvalidHandle,
    ErrorKind::UnsupportedFunction,
    ErrorKind::TargetUnknown,
    ErrorKind::InternalError,
    ErrorKind::SecurityPackageNotFound,
    ErrorKind::NotOwned,
    ErrorKind::CannotInstall,
    ErrorKind::InvalidToken,
    ErrorKind::CannotPack,
    ErrorKind::OperationNotSupported,
    ErrorKind::NoImpersonation,
    ErrorKind::LogonDenied,
    ErrorKind::UnknownCredentials,
    ErrorKind::NoCredentials,
    ErrorKind::MessageAltered,
    ErrorKind::OutOfSequence,
    ErrorKind::NoAuthenticatingAuthority,
    ErrorKind::BadPackageId,
    ErrorKind::ContextExpired,
    ErrorKind::IncompleteMessage,
    ErrorKind::IncompleteCredentials,
    ErrorKind::BufferTooSmall,
    ErrorKind::WrongPrincipalName,
    ErrorKind::TimeSkew,
    ErrorKind::UntrustedRoot,
    ErrorKind::IllegalMessage,
    ErrorKind::CertificateUnknown,
    ErrorKind::CertificateExpired,
    ErrorKind::EncryptFailure,
    ErrorKind::DecryptFailure,
    ErrorKind::AlgorithmMismatch,
    ErrorKind::SecurityQosFailed,
    ErrorKind::UnfinishedContextDeleted,
    ErrorKind::NoTgtReply,
    ErrorKind::NoIpAddress,
    ErrorKind::WrongCredentialHandle,
    ErrorKind::CryptoSystemInvalid,
    ErrorKind::MaxReferralsExceeded,
    ErrorKind::MustBeKdc,
    ErrorKind::StrongCryptoNotSupported,
    ErrorKind::TooManyPrincipals,
    ErrorKind::NoPaData,
    ErrorKind::PkInitNameMismatch,
    ErrorKind::SmartCardLogonRequired,
    ErrorKind::ShutdownInProgress,
    ErrorKind::KdcInvalidRequest,
    ErrorKind::KdcUnknownEType,
    ErrorKind::KdcUnknownEType2,
    ErrorKind::UnsupportedPreAuth,
    ErrorKind::DelegationRequired,
    ErrorKind::BadBindings,
    ErrorKind::MultipleAccounts,
    ErrorKind::NoKerbKey,
    ErrorKind::CertWrongUsage,
    ErrorKind::DowngradeDetected,
    ErrorKind::SmartCardCertificateRevoked,
    ErrorKind::IssuingCAUntrusted,
    ErrorKind::RevocationOffline,
    ErrorKind::PkInitClientFailure,
    ErrorKind::SmartCardCertExpired,
    ErrorKind::NoS4uProtSupport,
    ErrorKind::CrossRealmDelegationFailure,
    ErrorKind::RevocationOfflineKdc,
    ErrorKind::IssuingCaUntrustedKdc,
    ErrorKind::KdcCertExpired,
    ErrorKind::KdcCertRevoked,
    ErrorKind::InvalidParameter,
    ErrorKind::DelegationPolicy,
    ErrorKind::PolicyNtlmOnly,
    ErrorKind::NoContext,
    ErrorKind::Pku2uCertFailure,
    ErrorKind::MutualAuthFailed,
    ErrorKind::OnlyHttpsAllowed,
    ErrorKind::ApplicationProtocolMismatch,
];

/// A code, and its name if it has one.
#[tactic(auto, unfolding(crate::specs::Codes::code_text))]
pub(crate) fn code_text(alloc: Global, code: u32) -> Result<String, AllocError>
    ensures { IfOk result (λ text. string_bytes text ≡ code_text code) }
{
    let digits = code_digits(alloc, code)?;
    match code_name(code) {
        Some(name) => {
            let text = format!(in alloc; "0x{digits} {name}")?;
            Ok(text)
        }
        None => format!(in alloc; "0x{digits}"),
    }
}

#[tactic(auto, unfolding(crate::specs::Codes::code_digits))]
fn code_digits(alloc: Global, code: u32) -> Result<String, AllocError>
    ensures { IfOk result (λ text. string_bytes text ≡ code_digits code) }
{
    hex::encode(alloc, &code.to_be_bytes())
}

/// The name of an NTSTATUS code, or else of the kind for which a server that refuses sends this
/// code.
#[tactic(auto, unfolding(crate::specs::Codes::code_name))]
fn code_name(code: u32) -> Option<&'static str>
    ensures { option_map (λ name. name.now) result ≡ code_name code }
{
    match NStatusCode(code).name() {
        Some(name) => Some(name),
        None => kind_name(code),
    }
}

#[tactic(auto, unfolding(crate::specs::Codes::kind_name))]
fn kind_name(code: u32) -> Option<&'static str>
    ensures { option_map (λ name. name.now) result ≡ Codes.kind_name code }
{
    name_among(&KINDS, code)
}

/// The name of the first of these kinds for which a server that refuses sends this code.
fn name_among(kinds: &[ErrorKind], code: u32) -> Option<&'static str>
    ensures { option_map (λ name. name.now) result ≡ name_among kinds.now code }
{
    let mut left = kinds;
    'kinds: while let Some((kind, rest)) = left.split_first() {
        if kind_code(*kind) == code {
            return Some(kind.name());
        }
        left = rest;
    }
    None
}

/// The code that a server sends for a kind.
#[tactic(auto, unfolding(crate::specs::Codes::kind_code))]
fn kind_code(kind: ErrorKind) -> u32
    ensures { result ≡ kind_code kind }
{
    (kind.to_u32() & 0xFFFF) | 0x0007_0000 | 0xC000_0000
}
