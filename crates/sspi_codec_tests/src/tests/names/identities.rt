//! Identities as buffers and back.

use crate::tests::checks::{answered, compares, gives, holds, refusal};
use crate::tests::names::names::field;
use sspi_names::{AuthIdentity, AuthIdentityBuffers, Username, Utf16Text};
use sspi_types::{Error, ErrorKind, Reason, Secret, Text};
use std::alloc::{AllocError, Global};
use std::process::Abort;

/// The identity of this name and password.
pub fn identity(rt: &impl Abort, alloc: Global, name: &str, password: &str) -> AuthIdentity {
    let username = answered(rt, Username::parse(alloc, name), name);
    let value = answered(rt, Text::from_text(alloc, password), password);
    AuthIdentity {
        username,
        password: Secret { value },
    }
}

/// The buffers of the texts of a user, a domain and a password.
pub fn buffers(rt: &impl Abort, alloc: Global, texts: [&str; 3]) -> AuthIdentityBuffers {
    let [user, domain, password] = texts;
    let user = answered(rt, Utf16Text::from_str(alloc, user), user);
    let domain = answered(rt, Utf16Text::from_str(alloc, domain), domain);
    let value = answered(rt, Utf16Text::from_str(alloc, password), password);
    AuthIdentityBuffers {
        user,
        domain,
        password: Secret { value },
    }
}

/// Names with the user and the domain of their buffers.
const NAMES: &str = "\
DOM\\ann|ann|DOM
ann@example.com|ann@example.com|
\\ann|ann|
DOM\\||DOM";

#[test]
fn identities_become_buffers_and_back(rt: HostRuntime) {
    for line in NAMES.lines() {
        let (name, rest) = field(line);
        let (user, domain) = field(rest);
        becomes(&rt, rt.alloc(), name, user, domain);
    }
}

fn becomes(rt: &impl Abort, alloc: Global, name: &str, user: &str, domain: &str) {
    let identity = identity(rt, alloc, name, "p\u{1f600}");
    stands_for(rt, alloc, &identity, [user, domain, "p\u{1f600}"]);
    gives(rt, identity.clone(alloc), &identity, name);
}

fn stands_for(rt: &impl Abort, alloc: Global, identity: &AuthIdentity, texts: [&str; 3]) {
    let [user, _, _] = texts;
    let made = answered(rt, identity.to_buffers(alloc), user);
    gives(rt, made.clone(alloc), &made, user);
    gives(rt, AuthIdentity::from_buffers(alloc, &made), identity, user);
    compares(rt, buffers(rt, alloc, texts), made, true, user);
}

#[test]
fn buffers_that_mix_the_forms_are_refused(rt: HostRuntime) {
    let mixed = buffers(&rt, rt.alloc(), ["a@b", "D", ""]);
    let read = AuthIdentity::from_buffers(rt.alloc(), &mixed);
    let expected = Error::new(ErrorKind::InvalidParameter, Reason::UserName);
    holds(&rt, refusal(&rt, read, "a@b") == expected, "a@b");
}

// A value differs from one with another value in any of its fields.
#[test]
fn equal_identities(rt: HostRuntime) {
    compares_names(&rt, rt.alloc(), "DOM\\ann|pw", true);
    compares_names(&rt, rt.alloc(), "DOM\\ann|PW", false);
    compares_names(&rt, rt.alloc(), "DOM\\bob|pw", false);
    compares_buffers(&rt, rt.alloc(), "ann|DOM|pw", true);
    compares_buffers(&rt, rt.alloc(), "DOM|ann|pw", false);
    compares_buffers(&rt, rt.alloc(), "ann|DOM|", false);
}

fn compares_names(rt: &impl Abort, alloc: Global, line: &str, same: bool) {
    let (name, password) = field(line);
    let one = identity(rt, alloc, name, password);
    let other = identity(rt, alloc, "DOM\\ann", "pw");
    compares(rt, one, other, same, line);
}

fn compares_buffers(rt: &impl Abort, alloc: Global, line: &str, same: bool) {
    let (user, rest) = field(line);
    let (domain, password) = field(rest);
    let one = buffers(rt, alloc, [user, domain, password]);
    let other = buffers(rt, alloc, ["ann", "DOM", "pw"]);
    compares(rt, one, other, same, line);
}

/// Buffers whose user and domain mix the forms of a name. Finding this allocates nothing, so it is
/// reported even if the allocations after those of the buffers fail.
#[test]
fn mixed_buffers_take_no_memory(rt: HostRuntime) {
    are_mixed(
        &rt,
        rt.alloc(),
        made(rt.alloc(), "ann@example.com\\ann", ""),
    );
    are_mixed(&rt, rt.alloc(), made(rt.alloc(), "a\\b\\c", ""));
    are_mixed(&rt, rt.alloc(), made(rt.alloc(), "ann@example.com", "DOM"));
    are_mixed(&rt, rt.alloc(), made(rt.alloc(), "ann", "DOM\\"));
}

fn made(alloc: Global, user: &str, domain: &str) -> Result<AuthIdentityBuffers, AllocError> {
    Ok(AuthIdentityBuffers {
        user: Utf16Text::from_str(alloc, user)?,
        domain: Utf16Text::from_str(alloc, domain)?,
        password: Secret {
            value: Utf16Text::from_str(alloc, "p")?,
        },
    })
}

fn are_mixed(rt: &impl Abort, alloc: Global, made: Result<AuthIdentityBuffers, AllocError>) {
    if let Ok(buffers) = made {
        let error = refusal(rt, AuthIdentity::from_buffers(alloc, &buffers), "mixed");
        holds(rt, error.error_type == ErrorKind::InvalidParameter, "kind");
    }
}
