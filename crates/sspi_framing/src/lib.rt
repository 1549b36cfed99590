//! The framing of CredSSP's messages (MS-CSSP 2.2.1): one request is taken from a stream, and no
//! byte after it.
//!
//! - `take_request`: the bytes of the next request, as its header bounds them.
//! - `next_request`: the next request itself.
//!
//! `specs/Front.antt` defines the requests at the beginning of a stream, and `specs/Taking.antt`
//! what each answer takes.
#![tactic(auto)]

mod header;
mod reading;
mod taking;

pub use reading::next_request;
pub use taking::take_request;
