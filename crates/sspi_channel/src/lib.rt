//! One end of a scenario over a channel to its peer: what the program does at its words `serve
//! FILE` and `connect FILE`.
//!
//! - `serve_scenario`, `connect_scenario`: one end of the scenario of a text, over any source and
//!   any sink, and the early result after its delegation (MS-RDPBCGR 2.2.10.2).
//! - `Counted`: a source or a sink that counts its failed calls, so that a failed write can be told
//!   from a failed read.
//! - `end_of`: the end and the file that the words of the program ask for.
//! - `end_of_file`, `end_scenario`: all that the program does with the text of a file, or with a
//!   text: the end, the line of its outcome, and the exit status.
//!
//! `specs/Answers.antt` says when each answer comes; `specs/Delegating.antt` and `specs/Early.antt`
//! have the two parts of an exchange.
#![tactic(auto)]

pub mod answer;
pub mod asked;
mod by_fault;
pub mod connecting;
pub mod counted;
mod early;
pub mod ended;
pub mod line;
pub mod serving;

pub use answer::{ChannelError, Connected, Served};
pub use asked::end_of;
pub use connecting::connect_scenario;
pub use counted::Counted;
pub use ended::{end_of_file, end_scenario, end_without};
pub use line::{connect_line, serve_line};
pub use serving::serve_scenario;
