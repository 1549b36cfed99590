//! Reads the next request of the channel.

ghost use Rattle.sspi_live.specs.Reading.{Reads};

use sspi_ber::{Source, WireKind};
use sspi_credssp::End;
use sspi_delegate::DelegateError;
use sspi_framing::next_request;
use sspi_tsreq::TsRequest;
use std::alloc::Global;

/// The next request that came to this end.
pub(crate) fn read_request<S: Source>(
    alloc: Global,
    source: &mut S,
    to: End,
) -> Result<TsRequest, DelegateError>
    ensures { Reads to (S.left source.old) (S.left source.new) (S.faults source.old)
        (S.faults source.new) result }
{
    match next_request(alloc, source) {
        Ok(Some(request)) => Ok(request),
        Ok(None) => Err(DelegateError::Read(to, WireKind::UnexpectedEof)),
        Err(WireKind::ReadFault) => Err(DelegateError::LinkFault),
        Err(WireKind::InsufficientMemory) => Err(DelegateError::InsufficientMemory),
        Err(kind) => Err(DelegateError::Read(to, kind)),
    }
}
