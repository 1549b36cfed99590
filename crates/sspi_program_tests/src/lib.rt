//! Tests of the program, by runs over sources and sinks in memory, and of the reports of
//! `sspi_report`.
//!
//! What they test is in `sspi_program`, which is then proved once: a crate with tests is proved
//! both with them and without.
#![tactic(auto)]

#[cfg(test)]
mod tests;
