//! Tests of the plain mechanisms with their KDC, of what every mechanism promises, and of both ends
//! of a negotiation over such mechanisms. They use public calls only.
//!
//! The libraries have no tests of their own, since a crate with tests is proved both with and
//! without them. The tests are one crate, since each test crate has a startup cost.
#![tactic(auto)]

#[cfg(test)]
mod tests;
