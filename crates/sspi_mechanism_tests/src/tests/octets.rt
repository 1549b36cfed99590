//! Bytes in words. A word is hex digits; a byte in hex and how often it comes, as in `61*300`; a
//! text in quotes, as in `'KA'`; or the name of a token, which begins with a capital letter. A text
//! of tokens has a line `NAME = WORDS` for each, without names among the words, and lines after it
//! that only continue it.

use crate::tests::checks::{Test, given, holds};

fn push_digits(rt: &impl Test, digits: &str, octets: &mut Vec<u8>) {
    let decoded = given(rt, hex::decode(rt.alloc(), digits));
    given(rt, octets.extend_from_slice(&decoded));
}

fn push_many(rt: &impl Test, digits: &str, times: &str, octets: &mut Vec<u8>) {
    let times: usize = given(rt, times.parse());
    for _ in 0..times {
        push_digits(rt, digits, octets);
    }
}

/// Adds the text before the closing quote.
fn push_text(rt: &impl Test, text: &str, octets: &mut Vec<u8>) {
    let text = given(rt, text.strip_suffix("'").ok_or(()));
    given(rt, octets.extend_from_slice(text.as_bytes()));
}

fn push_word(rt: &impl Test, word: &str, octets: &mut Vec<u8>) {
    if let Some(text) = word.strip_prefix("'") {
        push_text(rt, text, octets);
    } else if let Some((digits, times)) = word.split_once('*') {
        push_many(rt, digits, times, octets);
    } else {
        push_digits(rt, word, octets);
    }
}

fn push_words(rt: &impl Test, words: &str, octets: &mut Vec<u8>) {
    for word in words.split_whitespace() {
        push_word(rt, word, octets);
    }
}

/// The words of this line for this token, if the line defines or continues it.
fn words_for<'a>(line: &'a str, name: &str, inside: bool) -> Option<&'a str> {
    let (belongs, words) = match line.split_once(" = ") {
        Some((defined, words)) => (defined == name, words),
        None => (inside, line),
    };
    if belongs { Some(words) } else { None }
}

/// Adds a token; one that has no definition ends the test.
fn push_token(rt: &impl Test, tokens: &str, name: &str, octets: &mut Vec<u8>) {
    let before = octets.len();
    let mut inside = false;
    for line in tokens.lines() {
        let words = words_for(line, name, inside);
        inside = words.is_some();
        push_words(rt, words.unwrap_or(""), octets);
    }
    holds(rt, octets.len() != before, name);
}

fn is_name(word: &str) -> bool {
    word.as_bytes()
        .first()
        .is_some_and(|byte| byte.is_ascii_uppercase())
}

/// The bytes of these words.
pub fn octets(rt: &impl Test, tokens: &str, words: &str) -> Vec<u8> {
    let mut octets = Vec::new(rt.alloc());
    for word in words.split_whitespace() {
        if is_name(word) {
            push_token(rt, tokens, word, &mut octets);
        } else {
            push_word(rt, word, &mut octets);
        }
    }
    octets
}
