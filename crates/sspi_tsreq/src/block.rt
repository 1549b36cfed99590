//! Reads a content in blocks, so that memory is allocated only for bytes that arrived.

ghost use Rattle.std.specs.Prelude.{◌<◌, ◌≤◌, ◌+◌, length};
ghost use Rattle.sspi_ber.specs.Outside.{CopyCause, LeavesRest, ReadCause, Reads};
ghost use Rattle.sspi_ber.specs.Pieces.{bytes_at};
ghost use Rattle.sspi_tsreq.specs.Filled.{Fills, WantsForContent};

use sspi_ber::{Source, WireKind};
use std::alloc::Global;

/// At most this many bytes are read before memory is allocated for them.
const PIECE_LENGTH: usize = 1024;

/// Fills `into` with the next bytes of the source, in as many reads as needed. `UnexpectedEof` if
/// fewer are left.
pub(crate) fn read_block<S: Source>(source: &mut S, into: &mut [u8]) -> Result<(), WireKind>
    ensures read { Fills (S.left source.old) (S.left source.new) result into.new (length into.old) }
    ensures cause { ReadCause (S.faults source.old) (S.faults source.new) result }
    ensures rest { LeavesRest (S.left source.old) (S.left source.new) }
{
    let mut filled = 0;
    while filled < into.len() {
        let count = source.read(&mut into[filled..])?;
        if count == 0 {
            return Err(WireKind::UnexpectedEof);
        }
        filled += count;
    }
    Ok(())
}

/// The next `len` bytes of the source, in memory of their own. `UnexpectedEof` if fewer are left.
/// Memory is allocated piece by piece, for bytes that arrived: a source with fewer bytes than it
/// announces costs no more memory than the bytes it has.
pub(crate) fn read_content<S: Source>(
    alloc: Global,
    source: &mut S,
    len: usize,
) -> Result<Vec<u8>, WireKind>
    ensures read { Reads (λ content. content.items) (S.left source.old) (S.left source.new) result
        (bytes_at len) }
    ensures memory { WantsForContent (S.left source.old) result }
    ensures cause { CopyCause (S.faults source.old) (S.faults source.new) result }
    ensures rest { LeavesRest (S.left source.old) (S.left source.new) }
{
    let mut content = Vec::new(alloc);
    let mut room = [0; PIECE_LENGTH];
    while content.len() < len {
        let piece = &mut room[..piece_length(content.len(), len)];
        read_block(source, piece)?;
        content.extend_from_slice(piece)?;
    }
    Ok(content)
}

/// How many bytes the next piece has, when `read` bytes of the whole were read.
fn piece_length(read: usize, whole: usize) -> usize
    requires { read < whole }
    ensures some { 0 < result }
    ensures room { result ≤ PIECE_LENGTH }
    ensures within { read + result ≤ whole }
{
    PIECE_LENGTH.min(whole - read)
}
