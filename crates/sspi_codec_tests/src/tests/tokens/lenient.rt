//! Tokens in forms that a reader accepts and no writer makes.

use crate::tests::checks::{given, holds, is};
use crate::tests::tokens::{NTLM, lists, same};
use sspi_tokens::{MechKind, NegResult, NegTokenInit, NegTokenTarg};
use sspi_types::Error;
use std::process::Abort;

/// Accept-incomplete and NTLM, and nothing else.
fn is_first_answer(rt: &impl Abort, decoded: Result<NegTokenTarg, Error>) {
    let token = given(rt, decoded);
    let result = token.neg_result;
    holds(
        rt,
        result == Some(NegResult::AcceptIncomplete),
        "another result",
    );
    picks_ntlm(rt, &token);
    holds(rt, token.response_token.is_none(), "a token");
    holds(rt, token.mech_list_mic.is_none(), "a MIC");
}

fn picks_ntlm(rt: &impl Abort, token: &NegTokenTarg) {
    match &token.supported_mech {
        Some(oid) => {
            holds(rt, oid.content() == NTLM.as_slice(), "another content");
            is(rt, oid.kind(), MechKind::Ntlm);
        }
        None => holds(rt, false, "no mechanism"),
    }
}

// The shortest forms; length forms that are not the shortest, and a byte after them; leftovers at
// each level.
#[test]
fn one_answer(rt: HostRuntime) {
    let alloc = rt.alloc();
    let short = &[
        0xa1, 0x15, 0x30, 0x13, 0xa0, 0x03, 0x0a, 0x01, 0x01, 0xa1, 0x0c, 0x06, 0x0a, 0x2b, 0x06,
        0x01, 0x04, 0x01, 0x82, 0x37, 0x02, 0x02, 0x0a,
    ];
    is_first_answer(&rt, NegTokenTarg::decode(alloc, short));
    let long = &[
        0xa1, 0x82, 0x00, 0x1b, 0x30, 0x81, 0x18, 0xa0, 0x82, 0x00, 0x04, 0x0a, 0x81, 0x01, 0x01,
        0xa1, 0x81, 0x0d, 0x06, 0x81, 0x0a, 0x2b, 0x06, 0x01, 0x04, 0x01, 0x82, 0x37, 0x02, 0x02,
        0x0a, 0xff,
    ];
    is_first_answer(&rt, NegTokenTarg::decode(alloc, long));
    let leftovers = &[
        0xa1, 0x1d, 0x30, 0x1a, 0xa0, 0x05, 0x0a, 0x01, 0x01, 0x05, 0x00, 0xa1, 0x0d, 0x06, 0x0a,
        0x2b, 0x06, 0x01, 0x04, 0x01, 0x82, 0x37, 0x02, 0x02, 0x0a, 0x30, 0x05, 0x00, 0xa2, 0xff,
        0xff,
    ];
    is_first_answer(&rt, NegTokenTarg::decode(alloc, leftovers));
}

fn has_token_alone(rt: &impl Abort, decoded: Result<NegTokenTarg, Error>, octets: &[u8]) {
    let token = given(rt, decoded);
    holds(rt, token.neg_result.is_none(), "a result");
    same(rt, &token.response_token, Some(octets));
}

// A field after a later one is left over.
#[test]
fn reversed_fields(rt: HostRuntime) {
    let reversed = &[
        0xa1, 0x0d, 0x30, 0x0b, 0xa2, 0x04, 0x04, 0x02, 0x4e, 0x32, 0xa0, 0x03, 0x0a, 0x01, 0x01,
    ];
    has_token_alone(&rt, NegTokenTarg::decode(rt.alloc(), reversed), b"N2");
}

fn has_list(rt: &impl Abort, decoded: Result<NegTokenInit, Error>, oids: &[&[u8]]) {
    let token = given(rt, decoded);
    lists(rt, &token, oids);
}

// A list ends before another tag, and the flags after it are skipped.
#[test]
fn list_and_flags(rt: HostRuntime) {
    let list = &[
        0x60, 0x1b, 0x06, 0x06, 0x2b, 0x06, 0x01, 0x05, 0x05, 0x02, 0xa0, 0x11, 0x30, 0x0f, 0xa0,
        0x07, 0x30, 0x05, 0x06, 0x01, 0x2a, 0x05, 0x00, 0xa1, 0x04, 0x03, 0x02, 0x00, 0x80,
    ];
    has_list(&rt, NegTokenInit::decode(rt.alloc(), list), &[&[0x2a]]);
}
