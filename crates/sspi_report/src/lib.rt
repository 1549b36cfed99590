//! Reports of what two ends did. That of a delegation has what each end sent, what was delivered
//! instead, and the outcome of the exchange; that of a play has what each end sent, and the state
//! of the ends. In addition, there are the lines of an audit and of a relay; the summary of many
//! exchanges; and what follows the report of a delegation that has an early result.
#![tactic(auto)]

pub mod audit;
pub mod delegation;
pub mod early;
mod entries;
pub mod gate;
pub mod laws;
mod names;
mod outcome;
pub mod play;
pub mod seats;
pub mod summary;

pub use audit::audit_line;
pub use delegation::report;
pub use early::early_report;
pub use gate::gate_line;
pub use play::play_report;
pub use seats::{seat_line, seats_report};
pub use summary::{Kind, Summary, summary_text};
