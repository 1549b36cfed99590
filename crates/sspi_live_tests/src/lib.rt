//! Tests of one end over a channel by its public calls.
#![tactic(auto)]

#[cfg(test)]
mod tests;
