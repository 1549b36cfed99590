//! What a session comes to in one call.

use sspi_ber::WireKind;
use sspi_credssp::CredSspServer;
use sspi_names::AuthIdentity;
use sspi_types::{Bytes, Error};

/// A message for a session: the number that `Desk::admit` returned, and the bytes that its client
/// sent.
#[derive(Drop)]
pub struct Call {
    pub session: u64,
    pub bytes: Bytes,
}

/// What a session came to in one call.
#[derive(Drop)]
pub enum Served {
    /// The bytes of the server's message for its client.
    Answer(Bytes),
    /// The credentials that the client delegated, which need not be those with which it
    /// authenticated. The session is kept until it is closed.
    Finished(AuthIdentity),
}

/// Why a session was not served, or its answer cannot be sent.
#[derive(Drop)]
pub enum DeskError {
    /// No session with this number is kept.
    NoSession,
    /// The bytes do not begin with a request. `UnexpectedEof` if they end too early or their header
    /// is at fault, otherwise `InvalidData`. The session is unchanged.
    Unread(WireKind),
    /// The server refused with this error, and these bytes report it to its client; `None` if their
    /// content would exceed `sspi_ber::MAX_CONTENT`, 1048576 octets.
    Refused(Error, Option<Bytes>),
    /// The content of the server's message would exceed `sspi_ber::MAX_CONTENT`, 1048576 octets.
    /// The server has made its turn.
    TooLong,
    /// Memory ran out. The session is unchanged if it ran out for the request, and is otherwise as
    /// the server's turn left it.
    InsufficientMemory,
}

/// A server that was not admitted.
#[derive(Drop)]
pub struct Turned<N, K, C> {
    /// The server, as it was passed in.
    pub server: CredSspServer<N, K, C>,
    pub why: Why,
}

/// Why a server was not admitted.
#[derive(Clone, Copy, Debug, PartialEq, Eq)]
pub enum Why {
    /// As many sessions are kept as the desk allows.
    Full,
    /// There was no memory for one more session.
    InsufficientMemory,
}
