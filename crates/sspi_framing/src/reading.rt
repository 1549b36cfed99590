//! The next request of a stream, decoded.

ghost use Rattle.sspi_ber.specs.Outside.{CopyCause};
ghost use Rattle.sspi_framing.specs.Taking.{GivesNext, IsWhole};
ghost use Rattle.sspi_framing.specs.Parts.{IsReadAs};

use crate::taking::take_request;
use sspi_ber::{Source, WireKind};
use sspi_tsreq::TsRequest;
use std::alloc::Global;

/// The request that these bytes encode, as its header bounds them.
fn read_whole(alloc: Global, bytes: &[u8]) -> Result<TsRequest, WireKind>
    requires { IsWhole bytes.now }
    ensures { IsReadAs bytes.now result }
{
    TsRequest::from_buffer(alloc, bytes)
}

/// The next request of the stream, and no byte after it; `None` if the source is at its end. No
/// clause says this: memory is asked for at most 2048 bytes more than have arrived.
///
/// - `UnexpectedEof`: the next bytes do not begin with a request, as they end too early or the
///   header is invalid. Header and content were taken; or the header up to the faulty byte; or all
///   there was, if it ended sooner.
/// - `InvalidData`: they are not a request for another reason. Header and content were taken.
/// - `ReadFault`: the source failed. Bytes of one request may have been taken, none after it.
/// - `InsufficientMemory`: there was no memory for a request whose header is valid. Its content was
///   not all taken, unless it is empty; or all of it was, and it is a request with OCTET STRINGs. So
///   this never replaces `None`, nor the refusal of a header, nor that of content taken whole.
///
/// No other answer hides a failed call: the source's count of faults is unchanged except at
/// `ReadFault`. That the failed call was the last is in no clause, since a source promises only that
/// its count rises.
pub fn next_request<S: Source>(alloc: Global, source: &mut S) -> Result<Option<TsRequest>, WireKind>
    ensures takes { GivesNext (S.left source.old) (S.left source.new) result }
    ensures cause { CopyCause (S.faults source.old) (S.faults source.new) result }
{
    match take_request(alloc, source)? {
        Some(bytes) => Ok(Some(read_whole(alloc, &bytes)?)),
        None => Ok(None),
    }
}
