//! The proxy over a list of identities, and the one that fails.

use crate::tests::credssp::ends::{name, proxy};
use crate::tests::credssp::words::Test;
use sspi_credssp::{
    CredentialsProxy, FailingProxy, ProxyError, construct_error, integer_decrement_le,
    integer_increment_le,
};
use sspi_names::{AuthIdentity, Username};
use sspi_types::{Error, ErrorKind, NStatusCode, Reason};
use std::process::Abort;

const TABLE: &str = "account=DOM\\ann:old account=ann@dom:x account=dom\\ANN:new fails=3";

fn holds(rt: &impl Abort, fact: bool, what: &str) {
    assert!(rt; fact, "{what}");
}

fn is_found(found: Result<AuthIdentity, ProxyError>, name: &str, password: &str) -> bool {
    match found {
        Ok(found) => { found.username.inner() == name && found.password.value.as_str() == password }
        Err(_) => false,
    }
}

fn are_found(found: Result<Vec<AuthIdentity>, ProxyError>, passwords: &[&str]) -> bool {
    match found {
        Ok(found) => {
            found.len() == passwords.len()
                && found.iter().zip(passwords).all(|(entry, password)| entry.password.value.as_str()
                    == *password)
        }
        Err(_) => false,
    }
}

fn finds_ann<C: CredentialsProxy>(rt: &impl Abort, table: &mut C, ann: &Username) {
    let first = table.auth_data_by_user(ann);
    holds(rt, is_found(first, "DOM\\ann", "old"), "not the first");
    let both = table.auth_data_candidates_by_user(ann);
    holds(rt, are_found(both, &["old", "new"]), "other candidates");
    let all = table.auth_data();
    holds(rt, are_found(all, &["old", "x", "new"]), "other entries");
}

fn has_failed<T: Drop>(rt: &impl Abort, answer: Result<T, ProxyError>) {
    holds(rt, answer.err() == Some(ProxyError::Failed), "not failed");
}

fn finds_no_bob<C: CredentialsProxy>(rt: &impl Abort, table: &mut C, bob: &Username) {
    let absent = table.auth_data_by_user(bob).err() == Some(ProxyError::NotFound);
    holds(rt, absent, "found");
    let none = table.auth_data_candidates_by_user(bob);
    holds(rt, are_found(none, &[]), "candidates");
}

fn finds_by_name(rt: &impl Test) {
    let mut table = proxy(rt, TABLE);
    finds_ann(rt, &mut table, &name(rt, "Dom\\Ann"));
    has_failed(rt, table.auth_data());
    finds_no_bob(rt, &mut table, &name(rt, "DOM\\bob"));
}

/// Names are told apart by form, account and domain, ignoring ASCII case.
#[test]
fn looking_up(rt: HostRuntime) {
    finds_by_name(&rt);
}

fn fails<C: CredentialsProxy>(rt: &impl Abort, proxy: &mut C, ann: &Username) {
    has_failed(rt, proxy.auth_data_by_user(ann));
    has_failed(rt, proxy.auth_data_candidates_by_user(ann));
    has_failed(rt, proxy.auth_data());
}

fn always_fails(rt: &impl Test) {
    fails(rt, &mut FailingProxy::new(), &name(rt, "DOM\\ann"));
}

#[test]
fn failing(rt: HostRuntime) {
    always_fails(&rt);
}

fn is_next(rt: &impl Abort, number: [u8; 3], next: [u8; 3]) {
    let mut bytes = number;
    integer_increment_le(&mut bytes);
    holds(rt, bytes == next, "another number");
    integer_decrement_le(&mut bytes);
    holds(rt, bytes == number, "not undone")
}

#[test]
fn numbers_in_little_endian(rt: HostRuntime) {
    is_next(&rt, [0xff, 0xff, 0], [0, 0, 1]);
    is_next(&rt, [0xff, 0xff, 0xff], [0, 0, 0]);
    is_next(&rt, [1, 2, 3], [2, 2, 3]);
    let mut none: [u8; 0] = [];
    integer_increment_le(&mut none);
    integer_decrement_le(&mut none);
    holds(&rt, none.is_empty(), "bytes")
}

fn is_coded(rt: &impl Abort, kind: ErrorKind, code: u32) {
    let error = Error::new(kind, Reason::Mechanism);
    holds(
        rt,
        construct_error(&error) == NStatusCode(code),
        "another code",
    )
}

/// The low 16 bits of the kinds' numbers in winerror.h.
#[test]
fn codes_of_refusals(rt: HostRuntime) {
    is_coded(&rt, ErrorKind::MessageAltered, 0xC007030F);
    is_coded(&rt, ErrorKind::InvalidToken, 0xC0070308);
    is_coded(&rt, ErrorKind::Unknown, 0xC0070000)
}
