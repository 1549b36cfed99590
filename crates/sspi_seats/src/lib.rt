//! Clients that each have a session at one desk (MS-CSSP 3.1.5), and what each of them comes to.
//!
//! - `Table`: clients and their servers join; in each round, every client that still runs makes a
//!   turn and is served; in the end, the seats are returned.
//! - `Seat`: a client and its server as they were left, with the client's turns, the calls on the
//!   desk, and their answers.
//!
//! `specs/Messages.antt` has how turns, calls and answers belong together, `specs/Outcomes.antt`
//! what each outcome shows, `specs/Seat.antt` what holds of a seat, and `specs/Table.antt` of a
//! table and all its seats. `specs/Guest.antt` has what holds of a client between two rounds, and
//! `specs/Sessions.antt` of all clients of a table.
#![tactic(auto)]

mod guest;
mod hearing;
pub mod laws;
pub mod seat;
mod sessions;
pub mod table;

pub use seat::{Seat, SeatOutcome};
pub use table::{JoinError, Table};
