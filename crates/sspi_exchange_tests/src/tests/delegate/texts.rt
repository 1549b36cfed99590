//! How the answers of an exchange and of a look-up are displayed.

use sspi_ber::WireKind;
use sspi_credssp::{End, ProxyError};
use sspi_delegate::DelegateError;
use sspi_types::{Error, ErrorKind, Reason};
use std::alloc::{AllocError, Global};
use std::process::Abort;

fn is(rt: &impl Abort, alloc: Global, error: DelegateError, expected: &str) {
    match format!(in alloc; "{error}") {
        Ok(text) => assert!(rt; text.as_str() == expected, "{expected}"),
        Err(_) => assert!(rt; false),
    }
}

fn look_up_is(rt: &impl Abort, alloc: Global, error: ProxyError, expected: &str) {
    match format!(in alloc; "{error}") {
        Ok(text) => assert!(rt; text.as_str() == expected, "{expected}"),
        Err(_) => assert!(rt; false),
    }
}

#[test]
fn exchanges(rt: HostRuntime) {
    let alloc = rt.alloc();
    let denied = Error::new(ErrorKind::LogonDenied, Reason::Proof);
    let refused = format!(in alloc; "{denied}");
    assert!(rt; refused.is_ok_and(|text| text.as_str().starts_with("LogonDenied: ")));
    let to_client = DelegateError::Read(End::Client, WireKind::UnexpectedEof);
    is(
        &rt,
        alloc,
        to_client,
        "what came to the client is no request: UnexpectedEof",
    );
    let to_server = DelegateError::Read(End::Server, WireKind::InvalidData);
    is(
        &rt,
        alloc,
        to_server,
        "what came to the server is no request: InvalidData",
    );
    is(
        &rt,
        alloc,
        DelegateError::Write(End::Client),
        "the client's reply is too long",
    );
    is(
        &rt,
        alloc,
        DelegateError::Write(End::Server),
        "the server's reply is too long",
    );
    is(&rt, alloc, DelegateError::LinkFault, "the link failed");
    is(
        &rt,
        alloc,
        DelegateError::TurnsSpent,
        "the client may make no more turns",
    );
    is(&rt, alloc, AllocError.into(), "out of memory");
}

#[test]
fn look_ups(rt: HostRuntime) {
    let alloc = rt.alloc();
    look_up_is(&rt, alloc, ProxyError::NotFound, "no such user");
    look_up_is(&rt, alloc, ProxyError::Failed, "the look-up failed");
    look_up_is(&rt, alloc, AllocError.into(), "out of memory");
}
