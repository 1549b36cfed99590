//! What a server's turn ends in: a message, the identity, or a refusal.

use sspi_names::AuthIdentity;
use sspi_tsreq::TsRequest;
use sspi_types::Error;

/// What a server's turn ends in.
#[derive(Drop)]
pub enum ServerState {
    /// A message for the client, whose reply the server waits for.
    ReplyNeeded(TsRequest),
    /// The credentials that the client delegated.
    Finished(AuthIdentity),
}

/// A server's refusal, with the message that reports it to the client.
#[derive(Drop)]
pub struct ServerError {
    /// The request with the error code; always there.
    pub ts_request: Option<TsRequest>,
    /// Why the server refused.
    pub error: Error,
}
