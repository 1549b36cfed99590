//! A client and its server, as their session left them.

use sspi_ber::WireKind;
use sspi_credssp::{CredSspClient, CredSspServer, End, Turn};
use sspi_desk::{DeskError, Served};
use sspi_names::AuthIdentity;
use sspi_types::{Bytes, Error, Rows};

/// A client that had a session at a desk, and its server, both as they were left.
#[derive(Drop)]
pub struct Seat<N, K, C, D> {
    pub client: CredSspClient<N, K>,
    /// The KDC that the client asked.
    pub kdc: D,
    /// The server, as the desk returned it.
    pub server: CredSspServer<N, K, C>,
    /// The turns of the client, oldest first.
    pub turns: Rows<Turn>,
    /// The calls on the session, oldest first, each the bytes of a message of the client.
    pub calls: Rows<Bytes>,
    /// What the desk answered to each call.
    pub answers: Rows<Result<Served, DeskError>>,
    pub outcome: SeatOutcome,
}

/// What a client and its session came to.
#[derive(Drop)]
pub enum SeatOutcome {
    /// The server has these credentials, after this many turns of the client.
    Ok(u32, AuthIdentity),
    /// The client refused its last turn.
    Client(Error),
    /// The server refused.
    Server(Error),
    /// What this end was sent is not a request. The kind is `UnexpectedEof` if it ends too early or
    /// its header is at fault, otherwise `InvalidData`.
    Read(End, WireKind),
    /// The message of this end has a content of more than `sspi_ber::MAX_CONTENT`, 1048576 octets.
    Write(End),
    /// The client made all the turns that it may, each was served, and the client could go on.
    TurnsSpent,
}
