//! Encodes a message for the link, and decodes what the link delivers.

ghost use Rattle.std.specs.Prelude.{◌+◌, ◌<◌, ◌≤◌};
ghost use Rattle.sspi_delegate.specs.Log.{IsUnread};
ghost use Rattle.sspi_delegate.specs.Readers.{TakesIn};
ghost use Rattle.sspi_delegate.specs.Link.{LinkCause, NeverFails, StaysTold};
ghost use Rattle.sspi_delegate.specs.Sending.{Sends, SendTold};

use crate::answer::DelegateError;
use crate::link::{Link, LinkError};
use sspi_ber::{MAX_CONTENT, WireKind};
use sspi_credssp::End;
use sspi_tsreq::{TsReader, TsRequest};
use std::alloc::Global;

/// The most bytes of one delivery that are read: the longest message, whose header has five bytes.
pub const DELIVERY_LIMIT: usize = 5 + MAX_CONTENT;

// A message of an exchange has some hundred bytes, and the buffer is cleared for each delivery.
const PIECE_LENGTH: usize = 1024;

/// A reader that was fed the newest delivery, piece by piece as the link gives it, to its end
/// or to the limit.
pub(crate) fn take_delivery<L: Link>(alloc: Global, link: &mut L) -> Result<TsReader, LinkError>
    ensures takes { IsUnread (L.log link.old) → TakesIn (L.log link.old) (L.log link.new) result }
    ensures cause { LinkCause (L.faults link.old) (L.faults link.new) result }
    ensures told { StaysTold (L.edits link.old) (L.edits link.new) (L.log link.old)
        (L.log link.new) }
    ensures failing { NeverFails (L.edits link.old) (L.faults link.old) (L.faults link.new) result }
{
    let mut reader = TsReader::new(alloc);
    let mut room = [0u8; PIECE_LENGTH];
    let mut taken = 0;
    while taken < DELIVERY_LIMIT {
        let most = most_at(taken);
        let count = link.piece(&mut room[..most])?;
        if count == 0 {
            return Ok(reader);
        }
        let Ok(()) = reader.feed(&room[..count]) else {
            return Err(LinkError::InsufficientMemory);
        };
        taken += count;
    }
    Ok(reader)
}

/// How many bytes to ask for, once `taken` bytes were taken.
fn most_at(taken: usize) -> usize
    requires { taken < DELIVERY_LIMIT }
    ensures some { 0 < result }
    ensures room { result ≤ PIECE_LENGTH }
    ensures limit { taken + result ≤ DELIVERY_LIMIT }
{
    PIECE_LENGTH.min(DELIVERY_LIMIT - taken)
}

/// Sends a message of this end.
pub(crate) fn send<L: Link>(
    alloc: Global,
    link: &mut L,
    from: End,
    message: &TsRequest,
) -> Result<(), DelegateError>
    ensures sends { Sends from message.now (L.log link.old) (L.log link.new) (L.faults link.old)
        (L.faults link.new) result }
    ensures told { StaysTold (L.edits link.old) (L.edits link.new) (L.log link.old)
        (L.log link.new) }
    ensures failing { SendTold (L.edits link.old) (L.log link.old) message.now (L.faults link.old)
        (L.faults link.new) result }
{
    let text = match message.encode(alloc) {
        Ok(text) => text,
        Err(WireKind::InsufficientMemory) => return Err(DelegateError::InsufficientMemory),
        Err(_) => return Err(DelegateError::Write(from)),
    };
    match link.carry(from, &text) {
        Ok(()) => Ok(()),
        Err(LinkError::Failed) => Err(DelegateError::LinkFault),
        Err(LinkError::InsufficientMemory) => Err(DelegateError::InsufficientMemory),
    }
}
