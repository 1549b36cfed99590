//! What an answer of the desk means for its client.

ghost use Rattle.std.specs.Prelude.{◌≡◌, IfOk, OnErr, MatchResult};
ghost use Rattle.sspi_desk.specs.Call.{HasNoRoom};
ghost use Rattle.sspi_seats.specs.Hearing.{IsHeard, IsReadAs, IsRefusal, MayLack, Speaks};

use crate::seat::SeatOutcome;
use sspi_ber::WireKind;
use sspi_credssp::End;
use sspi_delegate::Transcript;
use sspi_desk::{DeskError, Served, spell};
use sspi_tsreq::TsRequest;
use sspi_types::{Bytes, Error, ErrorKind};
use std::alloc::{AllocError, Global};

/// What an answer of the desk means for its client.
#[derive(Drop)]
pub(crate) enum Heard {
    /// The client's next request.
    Next(TsRequest),
    /// The end.
    Ends(SeatOutcome),
}

/// The bytes of the last turn's message; `None` if they would be too long, or if there is no
/// message.
pub(crate) fn message(alloc: Global, transcript: &Transcript) -> Result<Option<Bytes>, AllocError>
    ensures { Speaks transcript.now.turns result }
{
    match transcript.newest() {
        Some(turn) => match turn.outcome.message() {
            Some(message) => spell(alloc, message),
            None => Ok(None),
        },
        None => Ok(None),
    }
}

/// What an answer means for a client that has made `rounds` turns. Fails if memory runs out for
/// what is copied, or ran out for the answer, and if there is no such session.
pub(crate) fn hear(
    alloc: Global,
    rounds: u32,
    answer: &Result<Served, DeskError>,
) -> Result<Heard, AllocError>
    ensures heard { IfOk result (λ heard. IsHeard rounds answer.now heard) }
    ensures lacking { OnErr result (MayLack answer.now) }
{
    let outcome = match answer {
        Ok(Served::Answer(text)) => return read(alloc, text.as_slice()),
        Ok(Served::Finished(identity)) => SeatOutcome::Ok(rounds, identity.clone(alloc)?),
        Err(DeskError::Refused(error, _)) => SeatOutcome::Server(*error),
        Err(DeskError::Unread(kind)) => SeatOutcome::Read(End::Server, *kind),
        Err(DeskError::TooLong) => SeatOutcome::Write(End::Server),
        Err(DeskError::NoSession | DeskError::InsufficientMemory) => return Err(AllocError),
    };
    Ok(Heard::Ends(outcome))
}

/// What the bytes of a server's message mean for its client. Fails only if they are a request, and
/// memory runs out for its OCTET STRINGs.
fn read(alloc: Global, text: &[u8]) -> Result<Heard, AllocError>
    ensures { MatchResult result (λ heard. IsReadAs text.now heard) (λ _. HasNoRoom text.now) }
{
    match TsRequest::from_buffer(alloc, text) {
        Ok(request) => Ok(Heard::Next(request)),
        Err(WireKind::InsufficientMemory) => Err(AllocError),
        Err(kind) => Ok(Heard::Ends(SeatOutcome::Read(End::Client, kind))),
    }
}

/// A client's refusal. Fails if the refusal is `InsufficientMemory`.
pub(crate) fn refusal(error: Error) -> Result<SeatOutcome, AllocError>
    ensures { MatchResult result (λ outcome. IsRefusal error outcome)
        (λ _. error.error_type ≡ ErrorKind.InsufficientMemory) }
{
    if error.error_type == ErrorKind::InsufficientMemory {
        Err(AllocError)
    } else {
        Ok(SeatOutcome::Client(error))
    }
}
