//! What a message of CredSSP or SPNEGO says, or where and why its reader refuses it.
//!
//! - `explain` puts the messages of a text into words; every other line is left as it was.
//! - `laws`: a message is explained as its reader reads it.
#![tactic(auto)]

mod codes;
mod depth;
mod field;
mod found;
mod identifier;
pub mod laws;
mod lines;
mod message;
mod page;
mod pieces;
mod place;
mod request;
mod stop;
mod texts;
mod token;

pub use lines::explain;
