//! Tests of what is built on an exchange: the auditor of records, the desk of many sessions, the
//! early user authorization result, and the relay. They use public calls only.
//!
//! The libraries have no tests of their own, since a crate with tests is proved both with and
//! without them. The tests are one crate, since each test crate has a startup cost.
#![tactic(auto)]

#[cfg(test)]
mod tests;
