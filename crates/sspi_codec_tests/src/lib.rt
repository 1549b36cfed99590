//! Tests of everything below the mechanisms, by the calls that every caller has: the vocabulary of
//! SSPI, names and credentials, the pieces of BER, the messages of CredSSP and the tokens of
//! SPNEGO.
//!
//! - `damages.rt`: the damaged requests, which the tests of a relay also read.
//!
//! The libraries have no tests of their own: a crate with tests is proved both with and without
//! them. The tests are in one crate, since each test crate costs its own startup.
#![tactic(auto)]

pub mod damages;
#[cfg(test)]
mod tests;
