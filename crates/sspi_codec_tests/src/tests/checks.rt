//! The helpers of every test. Many are generic: dropping a value of a type parameter is one step of
//! a proof, and dropping a struct or an enum is many.

use std::fmt::Debug;
use std::process::Abort;

/// Ends the test unless this holds.
pub fn holds(rt: &impl Abort, fact: bool, what: &str) {
    assert!(rt; fact, "{what}");
}

/// Ends the test unless the value that came is the wanted one.
pub fn is<T: Copy + PartialEq + Debug>(rt: &impl Abort, came: T, wanted: T) {
    assert_eq!(rt; came, wanted);
}

/// Ends the test unless the value that came from a line is the wanted one.
pub fn comes<T: Copy + PartialEq + Debug>(rt: &impl Abort, line: &str, came: T, wanted: T) {
    assert_eq!(rt; came, wanted, "{line}");
}

fn ends(rt: &impl Abort, what: &str) -> ! {
    panic!(rt; "{what}")
}

/// The value of a call that must not be refused.
pub fn given<T, E: Drop>(rt: &impl Abort, answer: Result<T, E>) -> T {
    answered(rt, answer, "refused")
}

/// The value of a call that must not be refused: `what` says which.
pub fn answered<T, E: Drop>(rt: &impl Abort, answer: Result<T, E>, what: &str) -> T {
    match answer {
        Ok(value) => value,
        Err(_) => ends(rt, what),
    }
}

/// The value that must not be missing.
pub fn told<T>(rt: &impl Abort, answer: Option<T>, what: &str) -> T {
    match answer {
        Some(value) => value,
        None => ends(rt, what),
    }
}

/// The error of a call that must be refused.
pub fn refusal<T: Drop, E>(rt: &impl Abort, answer: Result<T, E>, what: &str) -> E {
    match answer {
        Ok(_) => ends(rt, what),
        Err(error) => error,
    }
}

/// Whether there is no value.
pub fn is_none<T: Drop>(answer: Option<T>) -> bool {
    answer.is_none()
}

/// Ends the test unless this value is equal to that.
pub fn equals<T: PartialEq + Drop>(rt: &impl Abort, value: T, wanted: &T, what: &str) {
    holds(rt, value == *wanted, what);
}

/// Ends the test unless a call answers this.
pub fn gives<T: PartialEq + Drop, E: Drop>(
    rt: &impl Abort,
    answer: Result<T, E>,
    wanted: &T,
    what: &str,
) {
    equals(rt, answered(rt, answer, what), wanted, what);
}

/// Ends the test unless these two are equal, or differ, as `same` says.
pub fn compares<T: PartialEq + Drop>(rt: &impl Abort, one: T, other: T, same: bool, what: &str) {
    holds(rt, (one == other) == same, what);
}

/// Ends the test unless both were made, and differ.
pub fn differ<T: PartialEq + Drop, E: Drop>(
    rt: &impl Abort,
    one: Result<T, E>,
    other: Result<T, E>,
) {
    let one = given(rt, one);
    let other = given(rt, other);
    holds(rt, one != other, "two alike");
}

/// The first word, and what follows it.
pub fn halves<'a>(rt: &impl Abort, words: &'a str) -> (&'a str, &'a str) {
    let halves = words.split_once(' ');
    holds(rt, halves.is_some(), words);
    halves.unwrap_or((words, ""))
}

/// What precedes this mark, and what follows it.
pub fn parted<'a>(rt: &impl Abort, text: &'a str, mark: &str) -> (&'a str, &'a str) {
    match text.split_once(mark) {
        Some(parts) => parts,
        None => rt.abort(),
    }
}
