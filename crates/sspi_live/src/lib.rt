//! One end of a CredSSP delegation (MS-CSSP 3.1.5) over a channel to its peer: any `Source` and any
//! `Sink`.
//!
//! - `serve`: the server's end, which takes the credentials of the client at the other end.
//! - `connect`: the client's end, which delegates its credentials to the server at the other end.
//!
//! `specs/Channel.antt` has what a channel carried, `specs/Sides.antt` which requests and messages
//! are those of an end's turns, `specs/Answers.antt` when each answer comes, and `specs/Fresh.antt`
//! what holds of an end that is fresh.
#![tactic(auto)]

mod answer;
pub mod connecting;
mod reading;
pub mod serving;
mod writing;

pub use connecting::connect;
pub use serving::serve;
