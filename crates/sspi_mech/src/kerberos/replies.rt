//! What a client reads in a KDC's reply.

ghost use Rattle.std.specs.Prelude.{◌≡◌, codes};
ghost use Rattle.sspi_mech.specs.KerberosReplies.{kind_of_code, kind_in, granted, first_key_in};
ghost use Rattle.sspi_mech.specs.KerberosReplies.{session_key_in};
ghost use Rattle.sspi_mech.specs.Named.{after_letters};
ghost use Rattle.sspi_mech.specs.Answered.{GivesExactly};

use crate::kerberos::messages::{AS_REPLY_LETTERS, ERROR_LETTERS, TGS_REPLY_LETTERS};
use crate::named::{after_letters, read_block};
use crate::refusal::Refusal;
use crate::step::Reply;
use sspi_types::{ErrorKind, Reason};

/// The key that a KDC gave for a name.
pub fn first_key_in(reply: &Reply) -> Result<[u8; 32], Refusal>
    ensures { GivesExactly result (first_key_in reply.now) }
{
    granted(AS_REPLY_LETTERS, reply)
}

/// The session key that a KDC gave.
pub fn session_key_in(reply: &Reply) -> Result<[u8; 32], Refusal>
    ensures { GivesExactly result (session_key_in reply.now) }
{
    granted(TGS_REPLY_LETTERS, reply)
}

/// The key of a reply that begins with these letters.
fn granted(letters: &[u8; 2], reply: &Reply) -> Result<[u8; 32], Refusal>
    ensures { GivesExactly result (granted letters.now reply.now) }
{
    match reply {
        Reply::Answered(reply) => match read_block(letters, reply.as_slice()) {
            Some(key) => Ok(*key),
            None => Err(refusal_of(kind_in(reply.as_slice()))),
        },
        Reply::Failed => Err(Refusal::new(ErrorKind::NoAuthenticatingAuthority, Reason::Kdc)),
    }
}

fn refusal_of(kind: ErrorKind) -> Refusal
    ensures { result.error_type ≡ kind }
{
    let reason = match kind {
        ErrorKind::InvalidToken => Reason::TokenForm,
        _ => Reason::Kdc,
    };
    Refusal::new(kind, reason)
}

/// Why a KDC gave no key: by the code of its error, or else because its reply is malformed.
fn kind_in(reply: &[u8]) -> ErrorKind
    ensures { result ≡ kind_in (after_letters (codes "KE") reply.now) }
{
    match after_letters(ERROR_LETTERS, reply) {
        Some([code]) => kind_of_code(*code),
        Some(_) | None => ErrorKind::InvalidToken,
    }
}

fn kind_of_code(code: u8) -> ErrorKind
    ensures { result ≡ kind_of_code code }
{
    match code {
        1 => ErrorKind::TimeSkew,
        2 => ErrorKind::NoAuthenticatingAuthority,
        3 => ErrorKind::CertificateUnknown,
        4 => ErrorKind::UnknownCredentials,
        5 => ErrorKind::LogonDenied,
        _ => ErrorKind::InvalidToken,
    }
}
