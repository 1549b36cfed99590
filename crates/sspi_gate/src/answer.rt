//! What a relay answers: how many requests it passed, and why no more.

use sspi_ber::WireKind;
use sspi_credssp::End;
use sspi_types::NStatusCode;

/// What a relay did that came to its end.
#[derive(Clone, Copy, Debug, PartialEq, Eq)]
pub struct Relayed {
    /// How many requests were handed on, those of both ends together.
    pub passed: u64,
    /// How it ended.
    pub how: Close,
}

/// How a relay ended.
#[derive(Clone, Copy, Debug, PartialEq, Eq)]
pub enum Close {
    /// This end's request was due, and its stream was at its end.
    Ended(End),
    /// The server's last request, which was handed on, carries this code, which is not `SUCCESS`.
    Refused(NStatusCode),
}

/// What a relay did that had to stop.
#[derive(Clone, Copy, Debug, PartialEq, Eq)]
pub struct GateError {
    /// How many requests were handed on, those of both ends together.
    pub passed: u64,
    /// Why the next one was not.
    pub why: GateFault,
}

/// Why a relay handed on no further request.
#[derive(Clone, Copy, Debug, PartialEq, Eq)]
pub enum GateFault {
    /// What this end's stream has next is not a request. `UnexpectedEof` if it ends too early or
    /// its header is at fault, otherwise `InvalidData`.
    Bad(End, WireKind),
    /// This end's next request has another version than its first one.
    Version(End),
    /// The stream from this end failed.
    ReadFault(End),
    /// The stream to this end failed.
    WriteFault(End),
    /// The client sent as many requests as were allowed, and each was answered.
    TurnsSpent,
    /// There was no memory for the next request.
    InsufficientMemory,
}
