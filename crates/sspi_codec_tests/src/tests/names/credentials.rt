//! Which credentials have a password, and which a key table.

use crate::tests::checks::{answered, compares, equals, gives, holds, is_none, told};
use crate::tests::names::identities::{buffers, identity};
use sspi_names::{
    ContextNames, Credentials, CredentialsBuffers, KeytabIdentity, NetworkProtocol, NetworkRequest,
    Username, UsernameError, Utf16Error,
};
use sspi_types::{Bytes, Error, ErrorKind, Reason, Text};
use std::alloc::Global;
use std::process::Abort;

fn keytab(rt: &impl Abort, alloc: Global, name: &str) -> KeytabIdentity {
    let username = answered(rt, Username::parse(alloc, name), name);
    let keytab = answered(rt, Bytes::from_slice(alloc, &[5, 2]), name);
    KeytabIdentity { username, keytab }
}

#[test]
fn credentials_tell_what_they_have(rt: HostRuntime) {
    let identity = identity(&rt, rt.alloc(), "DOM\\ann", "pw");
    has_password(&rt, rt.alloc(), &Credentials::from(identity));
}

fn has_password(rt: &impl Abort, alloc: Global, credentials: &Credentials) {
    holds(rt, credentials.auth_identity().is_some(), "password");
    gives(rt, credentials.clone(alloc), credentials, "copy");
    let made = answered(rt, credentials.to_buffers(alloc), "buffers");
    gives(rt, made.clone(alloc), &made, "copy of the buffers");
    holds(rt, made.as_auth_identity().is_some(), "their password");
    let made = told(rt, made.into_auth_identity(), "identity");
    let ann = buffers(rt, alloc, ["ann", "DOM", "pw"]);
    compares(rt, made, ann, true, "ann");
}

#[test]
fn keytabs_have_no_password(rt: HostRuntime) {
    let keytab = keytab(&rt, rt.alloc(), "ann@example.com");
    has_keytab(&rt, rt.alloc(), Credentials::Keytab(keytab));
}

fn has_keytab(rt: &impl Abort, alloc: Global, credentials: Credentials) {
    holds(rt, credentials.auth_identity().is_none(), "no password");
    gives(rt, credentials.clone(alloc), &credentials, "copy");
    has_keytab_in_buffers(rt, alloc, &credentials);
    let ann = Credentials::from(identity(rt, alloc, "DOM\\ann", "pw"));
    compares(rt, credentials, ann, false, "another");
}

fn has_keytab_in_buffers(rt: &impl Abort, alloc: Global, credentials: &Credentials) {
    let made = answered(rt, credentials.to_buffers(alloc), "buffers");
    let wanted = CredentialsBuffers::Keytab(keytab(rt, alloc, "ann@example.com"));
    equals(rt, wanted, &made, "keytab");
    holds(rt, made.as_auth_identity().is_none(), "no password there");
    holds(rt, is_none(made.into_auth_identity()), "no identity");
}

#[test]
fn requests_are_copied(rt: HostRuntime) {
    let request = NetworkRequest {
        protocol: NetworkProtocol::Udp,
        url: answered(&rt, Text::from_text(rt.alloc(), "udp://kdc"), "url"),
        payload: answered(&rt, Bytes::from_slice(rt.alloc(), &[1, 2, 3]), "payload"),
    };
    gives(&rt, request.clone(rt.alloc()), &request, "request");
}

#[test]
fn context_names_are_copied(rt: HostRuntime) {
    let username = answered(&rt, Username::parse(rt.alloc(), "DOM\\ann"), "name");
    let names = ContextNames { username };
    gives(&rt, names.clone(rt.alloc()), &names, "names");
}

#[test]
fn refusals_have_their_kinds(rt: HostRuntime) {
    let mixed = Error::new(ErrorKind::UnknownCredentials, Reason::UserName);
    is_error(&rt, Error::from(UsernameError::MixedFormat), mixed);
    let broken = Error::new(ErrorKind::InvalidParameter, Reason::Utf);
    is_error(&rt, Error::from(Utf16Error::OddLength), broken);
    is_error(&rt, Error::from(Utf16Error::UnpairedSurrogate), broken);
    let memory = Error::new(ErrorKind::InsufficientMemory, Reason::Memory);
    is_error(&rt, Error::from(UsernameError::InsufficientMemory), memory);
    is_error(&rt, Error::from(Utf16Error::InsufficientMemory), memory);
}

fn is_error(rt: &impl Abort, refusal: Error, expected: Error) {
    assert!(rt; refusal == expected);
}
