//! Texts with their UTF-16, and bytes that are not UTF-16.

use crate::tests::checks::{answered, gives, holds, refusal};
use crate::tests::names::names::field;
use sspi_names::{Utf16Error, Utf16Text};
use std::alloc::Global;
use std::process::Abort;

/// Texts with their UTF-16, each code unit with the low byte first, in hex: the lowest and the
/// highest character of each length in UTF-8, those next to the surrogates, and the corners of the
/// pairs. Then bytes that are not text: an odd number of them, which is reported first, and
/// unpaired surrogates.
const TEXTS: &str = "\
text|a\u{7f}\u{80}\u{7ff}\u{800}\u{d7ff}\u{e000}\u{ffff}\u{10000}\u{10ffff}|61007f008000ff070008ffd700e0ffff00d800dcffdbffdf
text||
text|\u{10000}|00d800dc
text|\u{103ff}|00d8ffdf
text|\u{10fc00}|ffdb00dc
text|\u{10ffff}|ffdbffdf
text|\u{1f600}|3dd800de
text|\u{d7ff}\u{e000}|ffd700e0
odd||61
odd||00d800
odd||610062
unpaired||00d8
unpaired||ffdf
unpaired||00d86100
unpaired||00dc00d8
unpaired||00d800d800dc
unpaired||ffdb
unpaired||00dc
unpaired||00d8ffdb
unpaired||00d800e0
unpaired||00d800dc00dc
unpaired||610000d800dcffdb";

#[test]
fn texts_are_encoded_and_read(rt: HostRuntime) {
    for line in TEXTS.lines() {
        try_line(&rt, rt.alloc(), line);
    }
}

fn try_line(rt: &impl Abort, alloc: Global, line: &str) {
    let (verb, rest) = field(line);
    let (text, digits) = field(rest);
    let bytes = answered(rt, hex::decode(alloc, digits), line);
    tries(rt, alloc, verb, text, &bytes, line);
}

fn tries(rt: &impl Abort, alloc: Global, verb: &str, text: &str, bytes: &[u8], line: &str) {
    match verb {
        "text" => {
            let encoded = answered(rt, Utf16Text::from_str(alloc, text), line);
            encodes(rt, alloc, encoded, bytes, text);
            let read = answered(rt, Utf16Text::from_bytes_le(alloc, bytes), line);
            encodes(rt, alloc, read, bytes, text);
        }
        "odd" => is_refused(rt, alloc, bytes, Utf16Error::OddLength, line),
        "unpaired" => is_refused(rt, alloc, bytes, Utf16Error::UnpairedSurrogate, line),
        _ => holds(rt, false, line),
    }
}

fn encodes(rt: &impl Abort, alloc: Global, units: Utf16Text, bytes: &[u8], text: &str) {
    let made = answered(rt, units.to_bytes_le(alloc), text);
    holds(rt, made.as_slice() == bytes, text);
    let read = answered(rt, units.to_string(alloc), text);
    holds(rt, read.as_str() == text, text);
    gives(rt, units.clone(alloc), &units, text);
}

fn is_refused(rt: &impl Abort, alloc: Global, bytes: &[u8], error: Utf16Error, line: &str) {
    let refused = refusal(rt, Utf16Text::from_bytes_le(alloc, bytes), line);
    holds(rt, refused == error, line);
}

/// Bytes that are not text. Nothing is allocated for them, so each is reported even if every
/// allocation fails.
#[test]
fn bad_texts_take_no_memory(rt: HostRuntime) {
    is_refused(&rt, rt.alloc(), b"a", Utf16Error::OddLength, "odd");
    is_refused(
        &rt,
        rt.alloc(),
        b"\x00\xd8",
        Utf16Error::UnpairedSurrogate,
        "high alone",
    );
    is_refused(
        &rt,
        rt.alloc(),
        b"a\x00\x00\xdc",
        Utf16Error::UnpairedSurrogate,
        "low alone",
    );
    is_refused(
        &rt,
        rt.alloc(),
        b"\x00\xdca",
        Utf16Error::OddLength,
        "odd behind a low one",
    );
}
