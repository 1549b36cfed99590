//! Many CredSSP server sessions (MS-CSSP 3.1.5) in one place, each served as if it were alone.
//!
//! - `Desk`: admits servers under numbers, serves their clients' messages in any order, and hands
//!   servers back.
//! - `serve_all`: many calls in order. Each session gets the answers of its server alone.
//! - `spell`: the bytes of a message.
//! - `laws`: that a session proves its key before it finishes.
//!
//! `specs/Call.antt` has one call on one server, and `specs/Alone.antt` a server's calls one after
//! another. `specs/Proving.antt` has what they show of one that finishes. `specs/Desk.antt` has
//! what a desk is and what its calls do, and `specs/All.antt` what many calls do to each session.
#![tactic(auto)]

pub mod all;
pub mod answer;
mod call;
pub mod desk;
mod keeping;
pub mod laws;
pub mod spelling;

pub use all::serve_all;
pub use answer::{Call, DeskError, Served, Turned, Why};
pub use desk::Desk;
pub use spelling::spell;
