//! A security mechanism that the host keeps: its steps are made, and its texts are sealed and
//! opened, outside of this library.
//!
//! - `Outside` represents the host's context in an end of CredSSP. What the host passes in, and
//!   where, is in `specs/Envelope.antt`; what the calls of `Outside` make of it, in
//!   `specs/Outside.antt`.
//! - `ClientEnd` and `ServerEnd` keep the result of their last call. `handed` makes the request
//!   that such an end is given, from what was received and what the host reports. `Last` says what
//!   the host has to seal and what is sent (`specs/Hosting.antt`).
//! - `laws`: only what was reported as opened counts as opened. So a client's credentials, a
//!   server's proof and the identity that it reports each follow from what the host reported in
//!   that very call (`specs/Reported.antt`).
//! - `handed_offer`, `handed_response`, `list_to_sign` and `signed`: the same for a SPNEGO token
//!   and its MIC (`specs/Negotiated.antt`).
//! - `Course`: which of the host's contexts steps before a call of an end that negotiates, with
//!   which token, and over which list it makes and verifies MICs (`specs/Course.antt`);
//!   `course_laws`: that each step of the negotiation asks for just that (`specs/Runs.antt`).
//! - `Peers`: the users of a list, or whoever the mechanism names.
#![tactic(auto)]

pub mod client_end;
pub mod configured;
pub mod course;
pub mod course_laws;
mod envelope;
pub mod last;
pub mod laws;
pub mod negotiated;
pub mod opened;
pub mod outside;
pub mod peers;
mod picking;
pub mod server_end;

pub use client_end::ClientEnd;
pub use configured::negotiation;
pub use course::{Course, Due};
pub use last::{Last, Owed};
pub use negotiated::{handed_offer, handed_response, list_to_sign, signed};
pub use opened::{Opened, handed};
pub use outside::Outside;
pub use peers::{AnyPeer, Peers};
pub use server_end::ServerEnd;
