//! Octets in words: hex digits, `first` and `second` for two messages, `*` after digits for how
//! often they come, and `+` between pieces.

use crate::tests::checks::given;
use std::alloc::Global;
use std::process::Abort;

/// A request with its encrypted credentials and nonce, of 92 bytes.
pub const FIRST: &str = "\
305aa003020106a22f042d01000000e0bae3bac27254e8010000006e037c4c9d024e5eeba19fab603297cd95cffe8f4470796e6ccdea746aa5220420221012ad\
125c7a15feb64b1fcb94833ac56f664cf3bce7548a5d9e050a4691db";

/// A request with a public key proof, an error code and its nonce, of 103 bytes.
pub const SECOND: &str = "\
3065a003020106a332043001000000d8b30c7e37512184000000006c47c8e302599219d199dfbd0ff571613adf7403effca52316233755ff9120d8a4060204c007\
00eaa5220420f88dd4b7559a94e5e87f2b2f94c23858a984fc07697df85776c957a31512eb32";

fn digits(word: &str) -> &str {
    match word {
        "first" => FIRST,
        "second" => SECOND,
        _ => word,
    }
}

fn repeated(rt: &impl Abort, alloc: Global, digits: &str, times: usize) -> Vec<u8> {
    let octets = given(rt, hex::decode(alloc, digits));
    given(rt, octets.repeat(alloc, times))
}

fn piece(rt: &impl Abort, alloc: Global, word: &str) -> Vec<u8> {
    match word.split_once('*') {
        Some((digits, times)) => repeated(rt, alloc, digits, given(rt, times.parse())),
        None => given(rt, hex::decode(alloc, digits(word))),
    }
}

pub fn octets(rt: &impl Abort, alloc: Global, words: &str) -> Vec<u8> {
    let mut octets = Vec::new(alloc);
    for word in words.split('+') {
        let piece = piece(rt, alloc, word);
        given(rt, octets.extend_from_slice(&piece));
    }
    octets
}
