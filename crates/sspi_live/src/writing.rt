//! Writes a message to the channel, in one piece.

ghost use Rattle.sspi_ber.specs.Outside.{WriteCause, WritesIf};
ghost use Rattle.sspi_tsreq.specs.Spelling.{fits, spelled};
ghost use Rattle.sspi_delegate.specs.Link.{newest_message};
ghost use Rattle.sspi_live.specs.Steps.{WritesNewest};
ghost use Rattle.sspi_live.specs.Writing.{Writes};

use sspi_ber::{Sink, WireKind, write_all};
use sspi_credssp::End;
use sspi_delegate::{DelegateError, Transcript};
use sspi_tsreq::TsRequest;
use std::alloc::Global;

/// Writes the message in one piece, which is allocated before a byte is written.
fn write_encoded<W: Sink>(alloc: Global, sink: &mut W, message: &TsRequest) -> Result<(), WireKind>
    ensures wrote { WritesIf (fits message.now) W.written sink.old sink.new result
        (spelled message.now) }
    ensures cause { WriteCause (W.faults sink.old) (W.faults sink.new) result }
{
    let text = message.encode(alloc)?;
    write_all(sink, &text)
}

/// Writes a message of this end.
fn write_message<W: Sink>(
    alloc: Global,
    sink: &mut W,
    from: End,
    message: &TsRequest,
) -> Result<(), DelegateError>
    ensures { Writes from message.now (W.written sink.old) (W.written sink.new) (W.faults sink.old)
        (W.faults sink.new) result }
{
    match write_encoded(alloc, sink, message) {
        Ok(()) => Ok(()),
        Err(WireKind::InvalidData) => Err(DelegateError::Write(from)),
        Err(WireKind::InsufficientMemory) => Err(DelegateError::InsufficientMemory),
        Err(_) => Err(DelegateError::LinkFault),
    }
}

/// Writes the message of the newest turn, which is this end's, if that turn has one.
pub(crate) fn write_newest<W: Sink>(
    alloc: Global,
    sink: &mut W,
    from: End,
    transcript: &Transcript,
) -> Result<(), DelegateError>
    ensures { WritesNewest from (newest_message transcript.now.turns) (W.written sink.old)
        (W.written sink.new)
        (W.faults sink.old) (W.faults sink.new) result }
{
    match transcript.newest() {
        Some(turn) => match turn.outcome.message() {
            Some(message) => write_message(alloc, sink, from, message),
            None => Ok(()),
        },
        None => Ok(()),
    }
}
