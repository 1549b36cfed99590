//! What the program does with its words and its source: it reads a scenario, has its two ends
//! delegate credentials by CredSSP, and writes what they sent and the outcome.
//!
//! `run` works over any source and sink; its contract says what each exit status means and what was
//! written. `ended` is all that `main` does: its contract says which status the process ends with.
//! `specs/Exchange.antt` says what holds for the reported exchange. The program itself, `sspi_run`,
//! passes in its own source and sink.
#![tactic(auto)]

pub mod command;
pub mod ended;
pub mod ends;
mod exchange;
pub mod keeping;
mod modes;
pub mod reason;
pub mod record;
pub mod run;
mod said;
pub mod status;
mod words;

pub use command::{Command, Task};
pub use ends::{Client, Server};
pub use record::{Conducted, PlainSeat, Record, RunOutcome, Seats};
