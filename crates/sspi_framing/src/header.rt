//! The header that bounds a request: its tag and its length.

ghost use Rattle.std.specs.Prelude.{◌≡◌};
ghost use Rattle.sspi_ber.specs.Outside.{CopyCause};
ghost use Rattle.sspi_framing.specs.Parts.{Announces, TakesHeader};

use sspi_ber::{MAX_LENGTH_OCTETS, SliceSource, Source, WireKind, read_sequence_tag};

/// The most bytes that a header has: its identifier octet, the first octet of its length, and those
/// that follow it.
const MAX_HEADER: usize = 2 + MAX_LENGTH_OCTETS as usize;

/// A header, and the length that it announces.
#[derive(Clone, Copy)]
pub(crate) struct Header {
    pub(crate) octets: [u8; MAX_HEADER],
    /// How many of the octets it has.
    pub(crate) count: usize,
    pub(crate) size: u32,
}

/// The length that a header announces; `None` while bytes of it are missing. `UnexpectedEof` if it
/// is not a valid header.
fn announced(header: &[u8]) -> Result<Option<u32>, WireKind>
    ensures { Announces header.now result }
{
    match read_sequence_tag(&mut SliceSource::new(header)) {
        Ok(size) => Ok(Some(size)),
        Err(WireKind::UnexpectedEof) => Ok(None),
        Err(_) => Err(WireKind::UnexpectedEof),
    }
}

/// The header of the next request, byte by byte, so that no byte after it is taken. `None` if the
/// source is at its end. It allocates nothing, so each refusal has its own cause.
pub(crate) fn take_header<S: Source>(source: &mut S) -> Result<Option<Header>, WireKind>
    ensures takes { TakesHeader (S.left source.old) (S.left source.new) result }
    ensures cause { CopyCause (S.faults source.old) (S.faults source.new) result }
{
    let mut octets = [0u8; MAX_HEADER];
    for size in 0..MAX_HEADER {
        let byte = match source.next_byte()? {
            Some(byte) => byte,
            None => {
                return if size == 0 {
                    Ok(None)
                } else {
                    Err(WireKind::UnexpectedEof)
                };
            }
        };
        octets[size] = byte;
        let count = size + 1;
        if let Some(size) = announced(&octets[..count])? {
            return Ok(Some(Header {
                octets,
                count,
                size,
            }));
        }
    }
    Err(WireKind::UnexpectedEof)
}
