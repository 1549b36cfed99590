//! The library for C: every call of `ffi/include/newaksu.h`, over the proved crates.
//!
//! What a call makes is kept behind a `Handle`, a word that C keeps. The status of each call says
//! whether it did what it was asked to do. A handle that is empty, or holds another kind of object,
//! is reported by a status. No call has a `requires`.
//!
//! - `handle` and `object`: what C keeps, and the object behind it; `putting`: how an object gets
//!   there.
//! - `giving`: how bytes are given to C; `status`: the numbers that calls return; `general` and
//!   `names`: calls on any handle, and the names of codes.
//! - `request`, `request_setting`, `reader`, `credentials`, `early`: the messages of CredSSP.
//! - `init`, `init_setting`, `targ`, `targ_setting`: the tokens of SPNEGO.
//! - `negotiating`: an end that negotiates over two mechanisms of the host; `course`: which of them
//!   steps before a call; `handing`: tokens in the form that such an end takes.
//! - `identities`, `settings`, `client`, `server`: what an end is made from; `processing`: a
//!   message passed to it; `telling`: its outcome; `sending`: what the host seals, and what goes to
//!   the peer.
#![tactic(auto)]

pub mod client;
pub mod course;
pub mod credentials;
pub mod early;
mod ends;
pub mod general;
pub mod giving;
pub mod handing;
pub mod handle;
pub mod identities;
pub mod identity_list;
pub mod init;
pub mod init_setting;
pub mod kept_request;
mod loose;
pub mod names;
pub mod negotiating;
pub mod object;
pub mod processing;
mod putting;
pub mod reader;
pub mod request;
pub mod request_setting;
pub mod sending;
pub mod server;
pub mod settings;
pub mod status;
pub mod targ;
pub mod targ_setting;
pub mod telling;
