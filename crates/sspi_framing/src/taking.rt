//! The bytes of the next request of a stream, and no byte after them.

ghost use Rattle.sspi_ber.specs.Outside.{CopyCause};
ghost use Rattle.sspi_framing.specs.Parts.{TakesBody};
ghost use Rattle.sspi_framing.specs.Taking.{TakesRequest};

use crate::header::take_header;
use sspi_ber::{Source, WireKind};
use std::alloc::Global;

const PIECE_LENGTH: usize = 2048;

/// Takes `size` more bytes, in pieces. Each has its memory before it is read, so that content that
/// has arrived whole is always judged.
fn take_body<S: Source>(source: &mut S, bytes: &mut Vec<u8>, size: usize) -> Result<(), WireKind>
    ensures takes { TakesBody S.left size source.old source.new bytes.old.items bytes.new.items
        result }
    ensures cause { CopyCause (S.faults source.old) (S.faults source.new) result }
{
    let mut piece = [0u8; PIECE_LENGTH];
    let mut missing = size;
    while missing > 0 {
        let most = missing.min(PIECE_LENGTH);
        bytes.reserve(most)?;
        let count = source.read(&mut piece[..most])?;
        if count == 0 {
            return Err(WireKind::UnexpectedEof);
        }
        bytes.extend_from_slice(&piece[..count])?;
        missing -= count;
    }
    Ok(())
}

/// The bytes of the next request, as its header bounds them, and no byte after them; `None` if the
/// source is at its end. `UnexpectedEof` if the header is invalid or the source ends too early.
/// `InsufficientMemory` only after a valid header, and before its content was all taken, unless it
/// is empty. At `ReadFault` bytes of one request may have been taken.
pub fn take_request<S: Source>(alloc: Global, source: &mut S) -> Result<Option<Vec<u8>>, WireKind>
    ensures takes { TakesRequest (λ bytes. bytes.items) (S.left source.old) (S.left source.new)
        result }
    ensures cause { CopyCause (S.faults source.old) (S.faults source.new) result }
{
    let Some(header) = take_header(source)? else {
        return Ok(None);
    };
    let mut bytes = Vec::new(alloc);
    bytes.extend_from_slice(&header.octets[..header.count])?;
    take_body(source, &mut bytes, header.size as usize)?;
    Ok(Some(bytes))
}
