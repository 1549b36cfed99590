//! What every test uses.

use sspi_scenario::{Purpose, Scenario};
use std::alloc::Global;
use std::process::Abort;

/// Ends the test unless this holds.
pub fn holds(rt: &impl Abort, fact: bool, what: &str) {
    assert!(rt; fact, "{what}");
}

/// The value of a call that must not be refused.
pub fn given<T, E: Drop>(rt: &impl Abort, answer: Result<T, E>) -> T {
    match answer {
        Ok(value) => value,
        Err(_) => rt.abort(),
    }
}

/// Lends a value, then drops it. Generic, since dropping a value of a type parameter is one step of
/// a proof, and dropping a scenario is many.
pub fn lend<A: Drop, R, F: FnOnce(&A) -> R>(value: A, act: F) -> R
    requires { F.IsAlwaysCallable act }
{
    act(&value)
}

/// The scenario of this text.
pub fn parsed(rt: &impl Abort, alloc: Global, purpose: Purpose, text: &[u8]) -> Scenario {
    given(rt, Scenario::parse(alloc, purpose, text))
}
