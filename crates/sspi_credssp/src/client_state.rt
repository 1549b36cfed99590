//! What a client's turn ends in: a message, the last message, or a question for a KDC.

use sspi_names::NetworkRequest;
use sspi_tsreq::TsRequest;

/// What a client's turn ends in.
#[derive(Drop)]
pub enum ClientState {
    /// A message for the server, whose reply the client waits for.
    ReplyNeeded(TsRequest),
    /// The client's last message: it carries the credentials.
    FinalMessage(TsRequest),
}

/// How far a client's turn came if it was not refused.
#[derive(Drop)]
pub enum Progress {
    /// The turn continues with `resume`, once the outcome of this request to a KDC is known.
    Suspended(NetworkRequest),
    /// The turn is over.
    Completed(ClientState),
}
