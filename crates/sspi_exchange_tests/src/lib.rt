//! Tests of the two CredSSP ends, of exchanges between them over links, and of schedules by which an
//! attacker delivers messages to them. They use public calls only.
//!
//! The libraries have no tests of their own, since a crate with tests is proved both with and
//! without them. The tests are one crate, since each test crate has a startup cost.
#![tactic(auto)]

#[cfg(test)]
mod tests;
