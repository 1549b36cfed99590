//! CredSSP (MS-CSSP): the client and the server that delegate credentials inside a TLS channel.
//!
//! Both ends authenticate by a security context over any two mechanisms. They prove to each other
//! that they use the channel with the same public key, and only then does the client seal its
//! credentials. Each call makes one turn of one delivered request.
//!
//! - `CredSspClient` and `CredSspServer`: one `process` per message, and the client's `resume` once
//!   the outcome of a KDC request is known. What a call promises is one record, in
//!   `specs/ClientCall.antt` and `specs/ServerCall.antt`. What a turn may do and reply is in
//!   `Turn.antt`; how it changes its end, with the step of the context, in `ClientTurn.antt` and
//!   `ServerTurn.antt`; the order and causes of refusals in `ClientCause.antt` and
//!   `ServerCause.antt`; when a version is pinned, or refused as too old, in `Noted.antt`.
//! - `SspiContext`: the security context that both ends drive, one mechanism or a negotiation over
//!   both; `specs/Context.antt` defines its meaning.
//! - `CredentialsProxy`: where a server looks up its peers; `TableProxy` holds a list, and
//!   `FailingProxy` always fails.
//! - `laws`: what follows from a blob opening to a single text.
//! - `integer_increment_le` and `construct_error`: the proof below version 5, and the code that
//!   reports a refusal.
#![tactic(auto)]

pub mod acts;
mod answered;
mod both_ends;
pub mod client;
mod client_delegation;
mod client_negotiation;
pub mod client_state;
pub mod context;
mod credentials;
pub mod error_code;
pub mod failing_proxy;
pub mod laws;
mod messages;
pub mod mode;
mod peer_version;
mod peers;
mod proof;
pub mod proxy;
pub mod public_key;
mod queries;
mod request;
pub mod server;
mod server_delegation;
mod server_negotiation;
mod server_refusal;
pub mod server_state;
pub mod state;
pub mod table_proxy;
mod token;
pub mod turn;
mod versions;

pub use acts::Acts;
pub use client::CredSspClient;
pub use client_state::{ClientState, Progress};
pub use context::{SspiContext, context_keeps_laws};
pub use error_code::construct_error;
pub use failing_proxy::FailingProxy;
pub use mode::{ClientMode, ServerMode};
pub use proxy::{CredentialsProxy, ProxyError};
pub use public_key::{EndpointType, integer_decrement_le, integer_increment_le};
pub use server::CredSspServer;
pub use server_state::{ServerError, ServerState};
pub use sspi_tsreq::CredSspMode;
pub use state::CredSspState;
pub use table_proxy::TableProxy;
pub use turn::{End, Outcome, Turn};
