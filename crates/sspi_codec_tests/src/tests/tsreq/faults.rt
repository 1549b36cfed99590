//! Bytes that are not requests, each with its kind of fault.

use crate::damages::{CODE_AND_NONCE, OCTETS, OUTER, TOKEN, VERSION};
use crate::tests::checks::{given, holds};
use crate::tests::tsreq::octets::{FIRST, SECOND, octets};
use crate::tests::tsreq::{framed, refuses};
use sspi_ber::WireKind;
use std::alloc::Global;
use std::process::Abort;

fn kind_named(rt: &impl Abort, fault: &str) -> WireKind {
    match fault {
        "end" => WireKind::UnexpectedEof,
        "bad" => WireKind::InvalidData,
        _ => rt.abort(),
    }
}

/// The digits are in pairs.
fn pairs(rt: &impl Abort, alloc: Global, digits: &str) -> Vec<u8> {
    let digits = given(rt, digits.replace(alloc, " ", ""));
    octets(rt, alloc, digits.as_str())
}

/// A content is put inside a SEQUENCE.
fn case(rt: &impl Abort, alloc: Global, fault: &str, digits: &str, is_content: bool) {
    let bytes = pairs(rt, alloc, digits);
    let kind = kind_named(rt, fault);
    if is_content {
        refuses(rt, alloc, &framed(rt, alloc, &bytes), kind, digits);
    } else {
        refuses(rt, alloc, &bytes, kind, digits);
    }
}

/// Each line of a text that has `count` cases.
fn cases(rt: &impl Abort, alloc: Global, text: &str, count: u32, is_content: bool) {
    let mut seen = 0u32;
    for line in text.lines() {
        if let Some((fault, digits)) = line.split_once(":") {
            case(rt, alloc, fault, digits, is_content);
            seen = seen.wrapping_add(1);
        }
    }
    holds(rt, seen == count, "the number of lines");
}

#[test]
fn outer_faults(rt: HostRuntime) {
    cases(&rt, rt.alloc(), OUTER, 9, false);
}

#[test]
fn version_faults(rt: HostRuntime) {
    cases(&rt, rt.alloc(), VERSION, 21, true);
}

#[test]
fn token_faults(rt: HostRuntime) {
    cases(&rt, rt.alloc(), TOKEN, 20, true);
}

#[test]
fn octets_faults(rt: HostRuntime) {
    cases(&rt, rt.alloc(), OCTETS, 16, true);
}

#[test]
fn code_and_nonce_faults(rt: HostRuntime) {
    cases(&rt, rt.alloc(), CODE_AND_NONCE, 15, true);
}

/// A request that is cut anywhere ends too early.
fn cut(rt: &impl Abort, alloc: Global, digits: &str) {
    let request = octets(rt, alloc, digits);
    for len in 0..request.len() {
        refuses(rt, alloc, &request[..len], WireKind::UnexpectedEof, digits);
    }
}

#[test]
fn cut_requests(rt: HostRuntime) {
    cut(&rt, rt.alloc(), FIRST);
    cut(&rt, rt.alloc(), SECOND);
}
