//! What a step answers: a status and a token, or a request to a KDC.

ghost use Rattle.std.specs.Prelude.{◌≡◌};

use sspi_names::NetworkRequest;
use sspi_types::{Bytes, Error, SecurityStatus};

/// A step that was made: the status of the context, and the token for the peer, which may be empty.
#[derive(Drop)]
pub struct Step {
    /// Whether the authentication is over (`Ok`, `CompleteNeeded`) or goes on.
    pub status: SecurityStatus,
    /// The token for the peer; empty if there is none to send.
    pub output: Bytes,
}

/// What a client's step answers.
#[derive(Drop)]
pub enum Answer {
    /// The step is made.
    Done(Step),
    /// The step continues with `resume`, once the KDC has answered this request.
    Ask(NetworkRequest),
    /// The step is refused with this error.
    Refused(Error),
}

impl Answer {
    ghost use Rattle.sspi_mech.specs.Answers.{answer_of};

    /// The same, with the refusal as an error.
    pub fn into_result(self) -> Result<Progressing, Error>
        ensures { answer_of result ≡ self }
    {
        match self {
            Answer::Done(step) => Ok(Progressing::Done(step)),
            Answer::Ask(request) => Ok(Progressing::Suspended(request)),
            Answer::Refused(error) => Err(error),
        }
    }
}

/// The outcome of a request to a KDC.
#[derive(Drop)]
pub enum Reply {
    /// The bytes that the KDC sent back.
    Answered(Bytes),
    /// The KDC could not be asked.
    Failed,
}

/// How far a step that was not refused has come.
#[derive(Drop)]
pub enum Progressing {
    /// The step is made.
    Done(Step),
    /// The step waits for the answer to this request.
    Suspended(NetworkRequest),
}
