//! A relay between a CredSSP client and a server (MS-CSSP 3.1.5) that reads each request before
//! handing it on. It stops at the first one that is malformed, that changes its sender's version,
//! or with which the server refuses.
//!
//! - `relay`: the requests of two streams, handed on in turn, with their bytes unchanged.
//! - `laws.rt`: what the requests that a stream begins with are, and that the streams decide the
//!   answer.
//!
//! `specs/Front.antt` has the versions and codes of requests, `specs/Way.antt` one direction of a
//! relay, `specs/Next.antt` why a request is not handed on, and `specs/Relay.antt` what a relay did
//! and when each answer comes.
#![tactic(auto)]

pub mod answer;
pub mod laws;
mod passing;
pub mod relaying;

pub use answer::{Close, GateError, GateFault, Relayed};
pub use relaying::relay;
pub use sspi_credssp::End;
