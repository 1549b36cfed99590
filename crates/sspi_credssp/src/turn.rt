//! One recorded turn of an end: what it was given, what it did, and how it ended.

ghost use Rattle.std.specs.Prelude.{◌≡◌};
ghost use Rattle.std.specs.Option.{option_copied};

use crate::acts::Acts;
use sspi_tsreq::TsRequest;
use sspi_types::{Bytes, ErrorKind};

/// One of the two ends of an exchange.
#[derive(Clone, Copy, Debug, PartialEq, Eq)]
pub enum End {
    /// The end whose credentials are delegated.
    Client,
    /// The end that receives them.
    Server,
}

/// One turn of an end: the request that it was given, and what it made of it.
#[derive(Drop)]
pub struct Turn {
    /// The end that made the turn.
    pub end: End,
    /// The request as it was read from the delivery; the client makes its first one itself.
    pub delivered: TsRequest,
    /// What the end did on its security context, even in a refused turn.
    pub acts: Acts,
    /// The token that the context's step returned; empty if no step answered.
    pub output: Bytes,
    /// How the turn ended.
    pub outcome: Outcome,
}

/// How a turn ended.
#[derive(Drop)]
pub enum Outcome {
    /// A message that the peer answers.
    Reply(TsRequest),
    /// The client's last message, which carries the credentials.
    Final(TsRequest),
    /// The server has the credentials.
    Finished,
    /// A refusal of this kind; a server's comes with the message that reports it to the client.
    Refused(ErrorKind, Option<TsRequest>),
}

impl Outcome {
    ghost use Rattle.sspi_credssp.specs.Turn.{message_of};

    /// The message for the peer. Allocates nothing.
    pub fn message(&self) -> Option<&TsRequest>
        ensures { option_copied result ≡ message_of self.now }
    {
        match self {
            Outcome::Reply(message) => Some(message),
            Outcome::Final(message) => Some(message),
            Outcome::Finished => None,
            Outcome::Refused(_, message) => message.as_ref(),
        }
    }
}
