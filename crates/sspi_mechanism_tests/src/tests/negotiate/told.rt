//! A mechanism that does what its token says.

use sspi_testing::{Script, Told};
use sspi_types::{ErrorKind, Reason, SecurityStatus};

/// The first byte of a token is the status or a refusal, and the rest is the mechanism's own token.
/// On `?` a client asks a KDC; the reply then says what follows.
#[derive(Drop)]
pub struct Tokens;

/// The token that makes a client ask.
const QUESTION: &[u8] = b"?";

fn status_of(word: u8) -> Option<SecurityStatus> {
    match word {
        b'0' => Some(SecurityStatus::Ok),
        b'1' => Some(SecurityStatus::ContinueNeeded),
        b'2' => Some(SecurityStatus::CompleteNeeded),
        b'3' => Some(SecurityStatus::CompleteAndContinue),
        b'4' => Some(SecurityStatus::LocalLogon),
        _ => None,
    }
}

fn refusal_of(word: u8) -> ErrorKind {
    match word {
        b'T' => ErrorKind::TimeSkew,
        b'A' => ErrorKind::NoAuthenticatingAuthority,
        b'C' => ErrorKind::CertificateUnknown,
        b'U' => ErrorKind::UnknownCredentials,
        _ => ErrorKind::LogonDenied,
    }
}

/// The step that a token describes; an empty one continues.
fn step_of<'a>(told: &'a [u8]) -> Told<'a> {
    let Some((word, output)) = told.split_first() else {
        return Told::Made(SecurityStatus::ContinueNeeded, b"");
    };
    match status_of(*word) {
        Some(status) => Told::Made(status, output),
        None => Told::Refused(refusal_of(*word), Reason::Mechanism),
    }
}

fn question_or_step<'a>(told: &'a [u8]) -> Option<Told<'a>> {
    if told == QUESTION {
        None
    } else {
        Some(step_of(told))
    }
}

impl Script for Tokens {
    fn initialize<'a>(_left: u32, _has_credentials: bool, token: &'a [u8]) -> Option<Told<'a>> {
        question_or_step(token)
    }

    fn resume<'a>(_left: u32, reply: &'a [u8]) -> Option<Told<'a>> {
        question_or_step(reply)
    }

    fn accept<'a>(token: &'a [u8]) -> Told<'a> {
        step_of(token)
    }
}
