//! What several test crates share: a mechanism whose steps a script decides.
//!
//! Nothing here ends a test, since only tests may abort.
#![tactic(auto)]

mod scripted;

pub use scripted::{Script, Scripted, Told};
