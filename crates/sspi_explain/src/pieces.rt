//! The pieces from which every message is read, each with the reader's own call; a refused piece is
//! examined again.
ghost use Rattle.std.specs.Prelude.{◌≡◌, [], ◌∷◌};
ghost use Rattle.sspi_ber.specs.Pieces.{Ended, Invalid};
ghost use Rattle.sspi_explain.specs.Pieces.{bytes_told, element_told, header_told, inside_told};
ghost use Rattle.sspi_explain.specs.Pieces.{low_told, nonce_told};
ghost use Rattle.sspi_explain.specs.Pieces.{refused_as, there_told};
ghost use Rattle.sspi_explain.specs.Told.{fault_of, IsFaultOf, IsRefused, Tells};

use crate::field::Field;
use crate::found::{Found, found_in_header, found_in_integer};
use crate::page::Page;
use crate::place::Place;
use crate::stop::{Fault, Stop};
use sspi_ber::{WireKind, read_header, read_integer, read_tag_or_absent};

fn fault_of(kind: WireKind) -> Fault
    ensures { IsFaultOf kind result }
{
    match kind {
        WireKind::UnexpectedEof => Fault::Ended,
        _ => Fault::Invalid,
    }
}

/// Reports what was found, with the number of bytes left there of a content that ends at `end`.
fn refuse(page: &mut Page, end: usize, field: Field, found: (usize, Found), fault: Fault) -> Stop
    ensures { IsRefused fault result
        (page.new ≡ refused_as page.old end field (found.0, found.1) (fault_of fault)) }
{
    match found.1.text(page.alloc) {
        Ok(why) => page.refuse(end.saturating_sub(found.0), field, fault, &why),
        Err(_) => Stop::OutOfMemory,
    }
}

/// A tag and a length, which is the answer.
#[tactic(auto, unfolding(crate::specs::Pieces::header_told))]
pub(crate) fn header(
    page: &mut Page,
    place: &mut Place<'_>,
    tag: u8,
    field: Field,
) -> Result<u32, Stop>
    ensures { Tells (λ n. n) page.new place.new result (header_told tag field page.old place.old) }
{
    let rest = place.rest();
    match read_header(&mut place.source, tag) {
        Ok(len) => Ok(len),
        Err(kind) => {
            let found = found_in_header(tag, rest);
            Err(refuse(page, place.end, field, found, fault_of(kind)))
        }
    }
}

/// This many bytes.
#[tactic(auto, unfolding(crate::specs::Pieces::bytes_told))]
pub(crate) fn bytes<'a>(
    page: &mut Page,
    place: &mut Place<'a>,
    len: u32,
    field: Field,
) -> Result<&'a [u8], Stop>
    ensures { Tells (λ bytes. bytes.now) page.new place.new result
        (bytes_told len field page.old place.old) }
{
    let left = place.rest().len();
    match place.source.take(len as usize) {
        Ok(bytes) => Ok(bytes),
        Err(kind) => {
            let found = (left, Found::Short(len, left));
            Err(refuse(page, place.end, field, found, fault_of(kind)))
        }
    }
}

/// A tag, a length, and that many bytes, which are the answer.
#[tactic(auto, unfolding(crate::specs::Pieces::element_told))]
pub(crate) fn element<'a>(
    page: &mut Page,
    place: &mut Place<'a>,
    tag: u8,
    field: Field,
) -> Result<&'a [u8], Stop>
    ensures { Tells (λ bytes. bytes.now) page.new place.new result
        (element_told tag field page.old place.old) }
{
    let len = header(page, place, tag, field)?;
    bytes(page, place, len, field)
}

/// The content of the element that comes next, to be read in turn.
#[tactic(auto, unfolding(crate::specs::Pieces::inside_told))]
pub(crate) fn enter<'a>(
    page: &mut Page,
    place: &mut Place<'a>,
    tag: u8,
    field: Field,
) -> Result<Place<'a>, Stop>
    ensures { Tells (λ inside. inside) page.new place.new result
        (inside_told tag field page.old place.old) }
{
    let content = element(page, place, tag, field)?;
    Ok(Place::new(content, place.offset()))
}

/// The length after this tag, if the tag comes next.
#[tactic(auto, unfolding(crate::specs::Pieces::there_told))]
pub(crate) fn there(
    page: &mut Page,
    place: &mut Place<'_>,
    tag: u8,
    field: Field,
) -> Result<Option<u32>, Stop>
    ensures { Tells (λ n. n) page.new place.new result (there_told tag field page.old place.old) }
{
    let rest = place.rest();
    match read_tag_or_absent(&mut place.source, tag) {
        Ok(len) => Ok(len),
        Err(kind) => {
            let found = found_in_header(tag, rest);
            Err(refuse(page, place.end, field, found, fault_of(kind)))
        }
    }
}

/// The low 32 bits of an INTEGER.
#[tactic(auto, unfolding(crate::specs::Pieces::low_told, sspi_tsreq::specs::Reading::low_at))]
pub(crate) fn low(page: &mut Page, place: &mut Place<'_>, field: Field) -> Result<u32, Stop>
    ensures { Tells (λ n. n) page.new place.new result (low_told field page.old place.old) }
{
    let rest = place.rest();
    match read_integer(&mut place.source) {
        Ok(whole) => Ok((whole % 0x1_0000_0000) as u32),
        Err(kind) => {
            let found = found_in_integer(rest);
            Err(refuse(page, place.end, field, found, fault_of(kind)))
        }
    }
}

/// The 32 bytes of a nonce.
#[tactic(auto, unfolding(crate::specs::Pieces::nonce_told))]
pub(crate) fn nonce<'a>(
    page: &mut Page,
    place: &mut Place<'a>,
    field: Field,
) -> Result<&'a [u8], Stop>
    ensures { Tells (λ bytes. bytes.now) page.new place.new result
        (nonce_told field page.old place.old) }
{
    let left = place.rest().len().saturating_sub(1);
    let len = header(page, place, 0x04, field)?;
    if len != 32 {
        let found = (left, Found::Nonce(len));
        return Err(refuse(page, place.end, field, found, Fault::Invalid));
    }
    bytes(page, place, len, field)
}
