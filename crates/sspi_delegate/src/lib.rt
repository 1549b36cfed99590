//! The exchange of a CredSSP delegation over a link (MS-CSSP 3.1.5), and what is kept of it.
//!
//! - `delegate`: one exchange between a client and a server. `specs/Headline.antt` has what holds
//!   of each, whatever the link delivers; `specs/Turns.antt` the turns of either end;
//!   `specs/Log.antt` how the turns match the log, and when each answer comes;
//!   `specs/History.antt` the calls that made the turns, and why an end refused; `specs/Chain.antt`
//!   the steps of an end's context, turn by turn.
//! - `client_round`, `server_round`: one turn of an end, recorded, for callers who carry the
//!   messages themselves.
//! - `Transcript`: the turns of an exchange, each with what it was given, what the end did, and how
//!   it ended.
//! - `Link`: carries the messages and keeps a log of what was sent and what was delivered.
//!   `MemoryLink` delivers what was sent, except for the edits it was given; `KeptLink` keeps the
//!   log over any `Carrier`. `specs/Log.antt` has the log, and `specs/Link.antt` what an edit gives
//!   and what the calls of a link answer.
//! - `laws`: what an exchange leaves gives at most one identity.
#![tactic(auto)]

pub mod answer;
pub mod carried;
pub mod edit;
pub mod ends;
pub mod exchange;
pub mod kept_link;
pub mod laws;
pub mod link;
mod log;
pub mod memory_link;
mod messages;
mod room;
pub mod transcript;

pub use answer::{DelegateError, Delegation};
pub use carried::Carried;
pub use edit::{Edit, EditKind};
pub use ends::{Round, client_round, server_round};
pub use exchange::delegate;
pub use kept_link::{Carrier, KeptLink};
pub use link::{Link, LinkError};
pub use memory_link::MemoryLink;
pub use messages::DELIVERY_LIMIT;
pub use sspi_credssp::{End, Outcome, Turn};
pub use transcript::Transcript;
