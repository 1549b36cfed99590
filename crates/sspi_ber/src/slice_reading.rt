//! Reads optional fields and elements from bytes in memory, without copying.

ghost use Rattle.sspi_ber.specs.Identifier.{contextual_identifier};
ghost use Rattle.sspi_ber.specs.Outside.{Gives, NeedsNoMemory};
ghost use Rattle.sspi_ber.specs.Pieces.{element_at, tag_or_absent_at};

use crate::identifier::{Pc, contextual_identifier};
use crate::reading::{read_header, read_length};
use crate::slice_source::SliceSource;
use crate::wire_kind::WireKind;

/// The length after this identifier octet. Returns `None`, and consumes nothing, at the end or if
/// another byte is next; once the octet is there, refused like `read_length`.
#[tactic(auto, using(crate::proofs::Absent::absent), unfolding(crate::specs::Pieces::tag_or_absent_at))]
pub fn read_tag_or_absent(source: &mut SliceSource<'_>, tag: u8) -> Result<Option<u32>, WireKind>
    ensures read { Gives (λ len. len) source.new result (tag_or_absent_at tag source.old) }
    ensures memory { NeedsNoMemory result }
{
    if !source.take_if(tag) {
        return Ok(None);
    }
    let len = read_length(source)?;
    Ok(Some(len))
}

/// The length after a context-specific identifier octet, like `read_tag_or_absent`. Only the low
/// five bits of `tagnum` count.
pub fn read_contextual_tag_or_absent(
    source: &mut SliceSource<'_>,
    tagnum: u8,
    pc: Pc,
) -> Result<Option<u32>, WireKind>
    ensures read { Gives (λ len. len) source.new result
        (tag_or_absent_at (contextual_identifier tagnum pc) source.old) }
    ensures memory { NeedsNoMemory result }
{
    read_tag_or_absent(source, contextual_identifier(tagnum, pc))
}

/// The content of the element with this identifier octet, which is next.
///
/// `InvalidData` if another byte comes first, `UnexpectedEof` if the content is not all there;
/// otherwise refused like `read_length`.
#[tactic(auto, unfolding(crate::specs::Pieces::element_at))]
pub fn read_element<'a>(source: &mut SliceSource<'a>, tag: u8) -> Result<&'a [u8], WireKind>
    ensures read { Gives (λ content. content.now) source.new result (element_at tag source.old) }
    ensures memory { NeedsNoMemory result }
{
    let len = read_header(source, tag)?;
    source.take(len as usize)
}
