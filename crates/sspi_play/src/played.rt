//! What a play is given and what it answers.

use sspi_ber::WireKind;
use sspi_delegate::End;
use sspi_names::AuthIdentity;
use sspi_types::{Bytes, ErrorKind};

/// What is delivered to an end.
#[derive(Drop)]
pub struct Delivery {
    /// The end that it is delivered to.
    pub to: End,
    /// The octets that are delivered.
    pub bytes: Bytes,
}

/// An end's state once everything has been delivered.
#[derive(Clone, Copy, Debug, PartialEq, Eq)]
pub enum Ending {
    /// It refused nothing, and read everything that was delivered to it. An end that has nothing
    /// more to say is `Running` too.
    Running,
    /// It refused its last turn. The kind is never out of memory.
    Refused(ErrorKind),
    /// What was delivered to it after its last turn is not a request: `UnexpectedEof` if the octets
    /// end too early or the header is at fault, otherwise `InvalidData`.
    Unread(WireKind),
}

/// The result of a play.
#[derive(Drop)]
pub struct Played {
    /// The client's state.
    pub client: Ending,
    /// The server's state.
    pub server: Ending,
    /// The identity that the server opened, if it did.
    pub identity: Option<AuthIdentity>,
}
