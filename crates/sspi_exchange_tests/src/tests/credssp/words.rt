//! The values that the words of a script stand for.

use crate::tests::credssp::named::NAMED;
use sspi_credssp::Acts;
use sspi_types::{Bytes, NStatusCode, SecurityStatus};
use std::alloc::Global;
use std::process::Abort;

/// What a test runs on.
pub trait Test: Abort + Alloc<A = Global> {}

impl<R: Abort + Alloc<A = Global>> Test for R {}

/// The value of a call that must not be refused.
pub fn given<T, E: Drop>(rt: &impl Abort, answer: Result<T, E>) -> T {
    match answer {
        Ok(value) => value,
        Err(_) => rt.abort(),
    }
}

/// Replaces a value by another. Generic, as `lend` is: dropping a value of a type parameter is one
/// step of a proof, and dropping an end is many.
pub fn put<A: Drop>(place: &mut A, value: A) {
    *place = value;
}

/// Lends a value, then drops it.
pub fn lend<A: Drop, R, F: FnOnce(&mut A) -> R>(value: A, act: F) -> R
    requires { F.IsAlwaysCallable act }
{
    let mut value = value;
    act(&mut value)
}

/// What comes before this mark, and what comes after it.
pub fn parted<'a>(rt: &impl Abort, text: &'a str, mark: &str) -> (&'a str, &'a str) {
    match text.split_once(mark) {
        Some(parts) => parts,
        None => rt.abort(),
    }
}

/// The hex digits that this name stands for; any other word is itself hex digits.
fn digits_of(word: &str) -> &str {
    for line in NAMED.lines() {
        if let Some((name, digits)) = line.split_once(' ')
            && name == word
        {
            return digits;
        }
    }
    word
}

fn decoded(rt: &impl Test, word: &str) -> Vec<u8> {
    given(rt, hex::decode(rt.alloc(), digits_of(word)))
}

/// The blob of a mechanism that protects nothing: sixteen zeros and the text.
fn bare(rt: &impl Test, word: &str) -> Vec<u8> {
    let mut blob = given(rt, Vec::from_slice(rt.alloc(), &[0; 16]));
    given(rt, blob.extend_from_slice(&decoded(rt, word)));
    blob
}

/// The bytes that a word stands for: a name or hex digits, `text:` and a text, or `bare:` and what
/// a mechanism that protects nothing has sealed.
pub fn octets(rt: &impl Test, word: &str) -> Vec<u8> {
    match word.split_once(':') {
        Some(("text", text)) => given(rt, Vec::from_slice(rt.alloc(), text.as_bytes())),
        Some(("bare", text)) => bare(rt, text),
        _ => decoded(rt, word),
    }
}

/// A field of these bytes, or none.
pub fn field(rt: &impl Test, word: &str) -> Option<Bytes> {
    match word {
        "none" => None,
        _ => Some(Bytes::from_vec(octets(rt, word))),
    }
}

pub fn number(rt: &impl Abort, word: &str) -> u32 {
    given(rt, word.parse())
}

pub fn byte(rt: &impl Abort, word: &str) -> u8 {
    given(rt, u8::from_str_radix(word, 16))
}

pub fn code(rt: &impl Abort, word: &str) -> Option<NStatusCode> {
    match word {
        "none" => None,
        _ => Some(NStatusCode(given(rt, u32::from_str_radix(word, 16)))),
    }
}

/// A nonce that repeats this byte, or none.
pub fn nonce(rt: &impl Abort, word: &str) -> Option<[u8; 32]> {
    match word {
        "none" => None,
        _ => Some([byte(rt, word); 32]),
    }
}

/// What a call did: `nothing`, or these words with `+` between them. A status appears next to the
/// `step` that returned it.
pub fn acts(rt: &impl Abort, words: &str) -> Acts {
    let mut acts = Acts {
        status: None,
        negotiated: false,
        proved: false,
        checked: false,
        sealed: false,
        opened: false,
    };
    for word in words.split('+') {
        match word {
            "nothing" => {}
            "step" => acts.negotiated = true,
            "proved" => acts.proved = true,
            "checked" => acts.checked = true,
            "sealed" => acts.sealed = true,
            "opened" => acts.opened = true,
            _ => acts.status = Some(status(rt, word)),
        }
    }
    acts
}

fn status(rt: &impl Abort, word: &str) -> SecurityStatus {
    match word {
        "Ok" => SecurityStatus::Ok,
        "ContinueNeeded" => SecurityStatus::ContinueNeeded,
        "CompleteNeeded" => SecurityStatus::CompleteNeeded,
        "CompleteAndContinue" => SecurityStatus::CompleteAndContinue,
        _ => rt.abort(),
    }
}
