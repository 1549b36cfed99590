//! What every test is written with.

use sspi_types::Text;
use std::alloc::Global;
use std::process::Abort;

/// What a test runs on.
pub trait Test: Abort + Alloc<A = Global> {}

impl<R: Abort + Alloc<A = Global>> Test for R {}

/// Ends the test unless this holds.
pub fn holds(rt: &impl Abort, fact: bool, what: &str) {
    assert!(rt; fact, "{what}");
}

/// Ends the test unless the result of this line is the expected one.
pub fn comes(rt: &impl Abort, line: &str, came: &str, wanted: &str) {
    assert!(rt; came == wanted, "{line}: {came}");
}

/// The value of a call that must not be refused.
pub fn given<T, E: Drop>(rt: &impl Abort, answer: Result<T, E>) -> T {
    match answer {
        Ok(value) => value,
        Err(_) => rt.abort(),
    }
}

/// Puts a value in place of another. Generic, as `lend` is: dropping a value of a type parameter is
/// one proof step, and dropping an end or a configuration is many.
pub fn put<T: Drop>(place: &mut T, value: T) {
    *place = value;
}

/// Lends a value, then drops it.
pub fn lend<T: Drop, R, F: FnOnce(&T) -> R>(value: T, act: F) -> R
    requires { F.IsAlwaysCallable act }
{
    act(&value)
}

pub fn text(rt: &impl Test, text: &str) -> Text {
    given(rt, Text::from_text(rt.alloc(), text))
}

/// Two texts joined.
pub fn joined(rt: &impl Test, first: &str, second: &str) -> String {
    let mut text = given(rt, String::from_str(rt.alloc(), first));
    given(rt, text.push_str(second));
    text
}

/// The first word, and what follows it.
pub fn halves(words: &str) -> (&str, &str) {
    match words.split_once(' ') {
        Some(halves) => halves,
        None => (words, ""),
    }
}
