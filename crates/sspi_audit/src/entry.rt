//! Whether the entries of a log belong to the recorded turns.
ghost use Rattle.std.specs.Prelude.{◌≡◌, ◌≤◌, ◌↔◌, length, Some, true, IsTrue, IfErr, IfOk};
ghost use Rattle.sspi_delegate.specs.Log.{delivery_limit, is_taken, IsEntry, IsRead, IsSent};
ghost use Rattle.sspi_types.specs.Errors.{memory_error};

use sspi_ber::WireKind;
use sspi_credssp::Turn;
use sspi_delegate::{Carried, DELIVERY_LIMIT};
use sspi_tsreq::TsRequest;
use sspi_types::{Error, ErrorKind, Reason};
use std::alloc::Global;

/// The only refusal of an audit.
pub(crate) fn no_memory() -> Error
    ensures { result ≡ memory_error }
{
    Error::new(ErrorKind::InsufficientMemory, Reason::Memory)
}

/// The octets begin with this request.
fn is_read(alloc: Global, octets: &[u8], request: &TsRequest) -> Result<bool, Error>
    ensures read { IfOk result (λ read. IsTrue read ↔ IsRead octets.now request.now) }
    ensures only { IfErr result (λ error. error ≡ memory_error) }
{
    match TsRequest::from_buffer(alloc, octets) {
        Ok(read) => Ok(&read == request),
        Err(WireKind::InsufficientMemory) => Err(no_memory()),
        Err(WireKind::UnexpectedEof) => Ok(false),
        Err(WireKind::InvalidData) => Ok(false),
        Err(WireKind::ReadFault) => Ok(false),
        Err(WireKind::WriteFault) => Ok(false),
    }
}

/// The delivery was taken to its end or to the limit and no further, and begins with this request.
pub(crate) fn gives(alloc: Global, entry: &Carried, request: &TsRequest) -> Result<bool, Error>
    ensures gives { IfOk result (λ given. IsTrue given ↔ (is_taken entry.now ≡ true) ×
        IsRead entry.now.delivered request.now
        × (length entry.now.delivered ≤ delivery_limit)) }
    ensures only { IfErr result (λ error. error ≡ memory_error) }
{
    let taken = entry.delivered.len();
    if taken > DELIVERY_LIMIT || (taken < DELIVERY_LIMIT && !entry.ended) {
        return Ok(false);
    }
    is_read(alloc, entry.delivered.as_slice(), request)
}

/// The message fits, and these octets are its encoding.
fn is_sent(alloc: Global, message: &TsRequest, sent: &[u8]) -> Result<bool, Error>
    ensures sent { IfOk result (λ same. IsTrue same ↔ IsSent (Some message.now) sent.now) }
    ensures only { IfErr result (λ error. error ≡ memory_error) }
{
    match message.encode(alloc) {
        Ok(spelled) => Ok(spelled.as_slice() == sent),
        Err(WireKind::InsufficientMemory) => Err(no_memory()),
        Err(WireKind::InvalidData) => Ok(false),
        Err(WireKind::UnexpectedEof) => Ok(false),
        Err(WireKind::ReadFault) => Ok(false),
        Err(WireKind::WriteFault) => Ok(false),
    }
}

/// The entry records the turn's message.
pub(crate) fn is_entry(alloc: Global, turn: &Turn, entry: &Carried) -> Result<bool, Error>
    ensures entry { IfOk result (λ is. IsTrue is ↔ IsEntry turn.now entry.now) }
    ensures only { IfErr result (λ error. error ≡ memory_error) }
{
    if entry.from != turn.end {
        return Ok(false);
    }
    match turn.outcome.message() {
        None => Ok(false),
        Some(message) => is_sent(alloc, message, entry.sent.as_slice()),
    }
}
