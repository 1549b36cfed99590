//! Bytes that are not tokens.

use crate::tests::checks::{given, is, refusal};
use crate::tests::tokens::{OFFER, is_codeless};
use sspi_tokens::{NegTokenInit, NegTokenTarg};
use sspi_types::{Error, ErrorKind, Reason};
use std::alloc::Global;
use std::process::Abort;

// The bytes in each line of these texts do not begin with a token of its kind.

/// A mechanism other than SPNEGO, nothing after SPNEGO, and a cut identifier, flags and hints.
const NO_INIT: &str = "
: 60 22 06 06 2b 06 01 05 05 03 a0 18 30 16 a0 0e 30 0c 06 0a 2b 06 01 04 01 82 37 02 02 0a a2 04 04 02 4e 31
: 60 08 06 06 2b 06 01 05 05 02
: 60 13 06 06 2b 06 01 05 05 02 a0 09 30 07 a0 05 30 03 06 02 2a
: 60 0f 06 06 2b 06 01 05 05 02 a0 05 30 03 a1 02 03
: 60 0f 06 06 2b 06 01 05 05 02 a0 05 30 03 a3 02 30
";

/// The other token, nothing, an empty one, bad lengths, other tags, and fields that are cut short
/// or hold something else.
const NO_TARG: &str = "
: 60 22 06 06 2b 06 01 05 05 02 a0 18 30 16 a0 0e 30 0c 06 0a 2b 06 01 04 01 82 37 02 02 0a a2 04 04 02 4e 31
:
: a1 00
: a1 80 30 00
: a1 82 ff fc 30 00
: a1 02 31 00
: a0 02 30 00
: a1 04 30 02 a0 00
: a1 06 30 04 a0 02 0b 00
: a1 06 30 04 a2 02 04 01 4e
: a1 06 30 04 a3 02 80 00
";

/// These bytes are refused, as they are not a token.
fn is_no_token<T: Drop>(rt: &impl Abort, bytes: &[u8], decoded: Result<T, Error>) {
    assert!(rt; decoded.is_err(), "{bytes:?}");
    let error = refusal(rt, decoded, "read");
    is_codeless(rt, &error, ErrorKind::InvalidToken, Reason::TokenForm);
}

fn is_no_init(rt: &impl Abort, alloc: Global, bytes: &[u8]) {
    is_no_token(rt, bytes, NegTokenInit::decode(alloc, bytes));
}

fn is_no_targ(rt: &impl Abort, alloc: Global, bytes: &[u8]) {
    is_no_token(rt, bytes, NegTokenTarg::decode(alloc, bytes));
}

/// The digits are in pairs.
fn case(rt: &impl Abort, alloc: Global, digits: &str, is_init: bool) {
    let digits = given(rt, digits.replace(alloc, " ", ""));
    let bytes = given(rt, hex::decode(alloc, &digits));
    if is_init {
        is_no_init(rt, alloc, &bytes);
    } else {
        is_no_targ(rt, alloc, &bytes);
    }
}

/// Each line of a text that has `count` cases.
fn cases(rt: &impl Abort, alloc: Global, text: &str, count: u32, is_init: bool) {
    let mut seen = 0u32;
    for line in text.lines() {
        if let Some((_, digits)) = line.split_once(":") {
            case(rt, alloc, digits, is_init);
            seen = seen.wrapping_add(1);
        }
    }
    is(rt, seen, count);
}

#[test]
fn no_first_tokens(rt: HostRuntime) {
    cases(&rt, rt.alloc(), NO_INIT, 5, true);
}

#[test]
fn no_later_tokens(rt: HostRuntime) {
    cases(&rt, rt.alloc(), NO_TARG, 11, false);
}

#[test]
fn cut_offers(rt: HostRuntime) {
    for len in 0..OFFER.len() {
        is_no_init(&rt, rt.alloc(), &OFFER[..len]);
    }
}
