//! Scenarios: texts that say which two ends meet, over which link, and what a program does with
//! them.
//!
//! It is read line by line. LF separates lines, and may be omitted after the last one. Every line
//! is numbered, including empty lines and those that begin with `#`, which are otherwise ignored.
//! Any other line has a key, and its value follows the first space. `Scenario::parse` returns the
//! scenario of a text for a purpose, or the number of its first faulty line. `numbered` makes a
//! scenario from a number alone.
//!
//! `specs/Table.antt` has a row for each key, and `specs/Keys.antt` says which keys exclude each
//! other. `specs/Purposes.antt` says which keys a scenario may have, and `specs/Faults.antt` which
//! line is the first faulty one. `specs/Scenario.antt` has the defaults and the scenario of a text.
//! `reason` says in words why a text is not a scenario. `laws` has what follows from these. A key
//! is a named variant of `Key`, an arm of `Values::put`, and a field of `Scenario` with its
//! default. In the definitions it is a row, an entry in `all_keys`, and the same default.
#![tactic(auto)]

mod deliveries;
mod draft;
mod edits;
mod error;
mod hexadecimal;
mod key;
pub mod laws;
mod lines;
pub mod number;
pub mod numbered;
pub mod purpose;
pub mod reading;
mod reasons;
pub mod scenario;
mod script;
mod values;
mod words;

pub use purpose::Purpose;
pub use reading::{TEXT_LIMIT, TextError, read_text, text_of};
pub use reasons::reason;
pub use scenario::{Mode, Package, Scenario, ScenarioError};
