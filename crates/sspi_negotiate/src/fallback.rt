//! The refusals of Kerberos after which a client goes on with NTLM.

ghost use Rattle.std.specs.Prelude.{◌≡◌};
ghost use Rattle.sspi_negotiate.specs.Fallback.{is_fallback};

use sspi_types::ErrorKind;

/// The kinds of a Kerberos refusal after which a client goes on with NTLM, if that is enabled.
pub const FALLBACK_ERROR_KINDS: [ErrorKind; 4] = [
    ErrorKind::TimeSkew,
    ErrorKind::NoAuthenticatingAuthority,
    ErrorKind::CertificateUnknown,
    ErrorKind::UnknownCredentials,
];

#[tactic(auto, unfolding(crate::specs::Fallback::is_fallback))]
pub(crate) fn is_fallback(kind: ErrorKind) -> bool
    ensures { result ≡ is_fallback kind }
{
    match kind {
        ErrorKind::TimeSkew => true,
        ErrorKind::NoAuthenticatingAuthority => true,
        ErrorKind::CertificateUnknown => true,
        ErrorKind::UnknownCredentials => true,
        _ => false,
    }
}
