//! Two ends of a CredSSP delegation (MS-CSSP 3.1.5) whose messages an attacker carries.
//!
//! `play` hands a schedule of deliveries to a client and a server: any octets, to either end, in
//! any order. So messages may be dropped, repeated, reordered, rewritten and invented.
//!
//! - `specs/Plays.antt`: which turns a schedule makes, what each was given, and each end's state
//!   after it.
//! - `specs/Played.antt`: what holds of every play, whatever is delivered.
//! - `specs/History.antt`: whose identity a play gives.
//! - `specs/Agreement.antt`, `specs/Negotiated.antt`: what both ends agree on, on the premises of
//!   `specs/Faithful.antt`.
//! - `specs/Clear.antt` and `laws`: with mechanisms that do not encrypt, recorded turns show what
//!   was opened.
#![tactic(auto)]

mod hand;
pub mod laws;
pub mod played;
pub mod schedule;

pub use played::{Delivery, Ending, Played};
pub use schedule::play;
