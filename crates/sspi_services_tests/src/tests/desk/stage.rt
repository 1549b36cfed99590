//! Servers of plain NTLM, and what they answer, in words.
//!
//! An answer is `says MESSAGE`, `length BYTES`, `finished`, `none`, `eof`, `data` or `long`.
//! Otherwise it is a kind of refusal with the message that reports it, if that is short enough.

use crate::tests::desk::messages::octets;
use sspi_ber::WireKind;
use sspi_credssp::{CredSspServer, ServerMode, TableProxy};
use sspi_desk::{Desk, DeskError, Served};
use sspi_mech::{Ntlm, NtlmConfig};
use sspi_names::{AuthIdentity, Username};
use sspi_types::{Secret, Text};
use std::alloc::Global;
use std::process::Abort;

/// What a test runs on.
pub(crate) trait Test: Abort + Alloc<A = Global> {}

impl<R: Abort + Alloc<A = Global>> Test for R {}

pub(crate) type Server = CredSspServer<Ntlm, Ntlm, TableProxy>;

pub(crate) type NtlmDesk = Desk<Ntlm, Ntlm, TableProxy>;

pub(crate) type Answer = Result<Served, DeskError>;

pub(crate) fn given<T, E: Drop>(rt: &impl Abort, answer: Result<T, E>) -> T {
    match answer {
        Ok(value) => value,
        Err(_) => rt.abort(),
    }
}

/// Lends a value, and then drops it. Generic, since dropping a value of a type parameter is one
/// step of a proof, and dropping an end is many.
pub(crate) fn lend<A: Drop, R, F: FnOnce(&mut A) -> R>(value: A, act: F) -> R
    requires { F.IsAlwaysCallable act }
{
    let mut value = value;
    act(&mut value)
}

/// Whether there is a value, which is dropped.
pub(crate) fn was_there<A: Drop>(value: Option<A>) -> bool {
    value.is_some()
}

fn identity(rt: &impl Test) -> AuthIdentity {
    let password = given(rt, Text::from_text(rt.alloc(), "pw"));
    AuthIdentity {
        username: given(rt, Username::parse(rt.alloc(), "DOM\\ann")),
        password: Secret::from(password),
    }
}

/// A server of the key 010203, version 6 and a challenge of zeros that knows `DOM\ann` with the
/// password `pw`, or nobody.
pub(crate) fn server(rt: &impl Test, knows_ann: bool) -> Server {
    let config = NtlmConfig::new(given(rt, Text::from_text(rt.alloc(), "SERVER")));
    let mut known = Vec::new(rt.alloc());
    if knows_ann {
        given(rt, known.push(identity(rt)));
    }
    CredSspServer::new(
        rt.alloc(),
        given(rt, Vec::from_slice(rt.alloc(), &[1, 2, 3])),
        TableProxy::new(rt.alloc(), known, Vec::new(rt.alloc())),
        ServerMode::Ntlm(config),
    )
}

fn is_ann(identity: &AuthIdentity) -> bool {
    identity.username.inner() == "DOM\\ann" && identity.password.value.as_str() == "pw"
}

fn is_said(rt: &impl Test, text: &[u8], word: &str, message: &str) -> bool {
    match word {
        "says" => octets(rt, message).as_slice() == text,
        "length" => message.parse::<usize>() == Ok(text.len()),
        _ => false,
    }
}

fn is_error(rt: &impl Test, error: &DeskError, word: &str, message: &str) -> bool {
    match error {
        DeskError::NoSession => word == "none",
        DeskError::Unread(WireKind::UnexpectedEof) => word == "eof",
        DeskError::Unread(WireKind::InvalidData) => word == "data",
        DeskError::Unread(_) => false,
        DeskError::Refused(error, Some(text)) => {
            word == error.error_type.name() && octets(rt, message).as_slice() == text.as_slice()
        }
        DeskError::Refused(error, None) => word == error.error_type.name() && message.is_empty(),
        DeskError::TooLong => word == "long",
        DeskError::InsufficientMemory => false,
    }
}

/// Whether the answer is this one.
pub(crate) fn is_answer(rt: &impl Test, answer: &Answer, words: &str) -> bool {
    let (word, message) = words.split_once(' ').unwrap_or((words, ""));
    match answer {
        Ok(Served::Answer(text)) => is_said(rt, text.as_slice(), word, message),
        Ok(Served::Finished(identity)) => word == "finished" && is_ann(identity),
        Err(error) => is_error(rt, error, word, message),
    }
}
