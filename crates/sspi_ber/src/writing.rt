//! Writes lengths, headers, integers and octet strings in their shortest form (X.690 8.1 to 8.7).

ghost use Rattle.std.specs.Prelude.{◌≡◌, ◌≤◌, nat_le, [], ◌∷◌, length, IfOk};
ghost use Rattle.sspi_ber.specs.Identifier.{universal_identifier, contextual_identifier};
ghost use Rattle.sspi_ber.specs.Forms.{max_content};
ghost use Rattle.sspi_ber.specs.Outside.{Writes, WritesIf, WriteCause};
ghost use Rattle.sspi_ber.specs.Short.{len_short, header, element, element_size, int_short};

use crate::identifier::{
    INTEGER, OCTET_STRING, Pc, SEQUENCE, Tag, contextual_identifier, universal_identifier,
};
use crate::limit::MAX_CONTENT;
use crate::sink::Sink;
use crate::sizes::{fits_in_element, length_size, size_of_element, sizeof_integer};
use crate::wire_kind::WireKind;

/// Writes all of `piece`, in as many writes as the sink needs. `WriteFault` and
/// `InsufficientMemory` come only if a proper prefix of it was written, never all of it. So an
/// empty piece is never refused.
pub fn write_all<W: Sink>(sink: &mut W, piece: &[u8]) -> Result<(), WireKind>
    ensures wrote { Writes (W.written sink.old) (W.written sink.new) result piece.now }
    ensures cause { WriteCause (W.faults sink.old) (W.faults sink.new) result }
{
    let mut rest = piece;
    while !rest.is_empty() {
        let count = sink.write(rest)?;
        rest = rest.split_at(count).1;
    }
    Ok(())
}

#[tactic(auto, unfolding(crate::specs::Short::len_short, crate::specs::Short::length_octets))]
fn write_short_length<W: Sink>(sink: &mut W, len: usize) -> Result<(), WireKind>
    requires { len ≤ max_content }
    ensures wrote { Writes (W.written sink.old) (W.written sink.new) result (len_short len) }
    ensures cause { WriteCause (W.faults sink.old) (W.faults sink.new) result }
{
    if len < 0x80 {
        write_all(sink, &[len as u8])
    } else if len < 0x100 {
        write_all(sink, &[0x81, len as u8])
    } else if len < 0x1_0000 {
        write_all(sink, &[0x82, (len / 0x100) as u8, (len % 0x100) as u8])
    } else {
        write_all(
            sink,
            &[
                0x83,
                (len / 0x1_0000) as u8,
                (len / 0x100 % 0x100) as u8,
                (len % 0x100) as u8,
            ],
        )
    }
}

/// Writes an identifier octet, and the shortest length of a content that fits.
#[inline(always)]
#[tactic(auto, unfolding(crate::specs::Short::header, crate::specs::Short::len_short, crate::specs::Short::length_octets))]
pub fn write_header<W: Sink>(sink: &mut W, tag: u8, len: usize) -> Result<(), WireKind>
    requires { len ≤ max_content }
    ensures wrote { Writes (W.written sink.old) (W.written sink.new) result (header tag len) }
    ensures cause { WriteCause (W.faults sink.old) (W.faults sink.new) result }
{
    if len < 0x80 {
        write_all(sink, &[tag, len as u8])
    } else if len < 0x100 {
        write_all(sink, &[tag, 0x81, len as u8])
    } else if len < 0x1_0000 {
        write_all(sink, &[tag, 0x82, (len / 0x100) as u8, (len % 0x100) as u8])
    } else {
        write_all(
            sink,
            &[
                tag,
                0x83,
                (len / 0x1_0000) as u8,
                (len / 0x100 % 0x100) as u8,
                (len % 0x100) as u8,
            ],
        )
    }
}

/// Writes an identifier octet, the shortest length, and a content that fits.
#[tactic(auto, using(crate::proofs::Written::writing), unfolding(crate::specs::Short::element))]
pub fn write_element<W: Sink>(sink: &mut W, tag: u8, content: &[u8]) -> Result<(), WireKind>
    requires { length content.now ≤ max_content }
    ensures wrote { Writes (W.written sink.old) (W.written sink.new) result
        (element tag content.now) }
    ensures cause { WriteCause (W.faults sink.old) (W.faults sink.new) result }
{
    write_header(sink, tag, content.len())?;
    write_all(sink, content)
}

/// Writes an OCTET STRING inside another element; both must fit.
#[tactic(auto, using(crate::proofs::Written::writing, crate::proofs::Written::lengths), unfolding(crate::specs::Short::element))]
pub fn write_wrapped_octets<W: Sink>(sink: &mut W, tag: u8, value: &[u8]) -> Result<(), WireKind>
    requires value { length value.now ≤ max_content }
    requires whole { element_size (length value.now) ≤ max_content }
    ensures wrote { Writes (W.written sink.old) (W.written sink.new) result
        (element tag (element 0x04 value.now)) }
    ensures cause { WriteCause (W.faults sink.old) (W.faults sink.new) result }
{
    let len = value.len();
    if len < 0x7E {
        write_all(sink, &[tag, len as u8 + 2, OCTET_STRING, len as u8])?;
        return write_all(sink, value);
    }
    write_header(sink, tag, size_of_element(len))?;
    write_element(sink, OCTET_STRING, value)
}

/// Writes the shortest length, and returns how many bytes it took. `InvalidData` exactly when `len`
/// exceeds the limit.
pub fn write_length<W: Sink>(sink: &mut W, len: usize) -> Result<usize, WireKind>
    ensures wrote { WritesIf (nat_le len max_content) W.written sink.old sink.new result
        (len_short len) }
    ensures count { IfOk result (λ count. count ≡ length (len_short len)) }
    ensures cause { WriteCause (W.faults sink.old) (W.faults sink.new) result }
{
    if len > MAX_CONTENT {
        return Err(WireKind::InvalidData);
    }
    write_short_length(sink, len)?;
    Ok(length_size(len))
}

#[tactic(auto, using(crate::proofs::Written::lengths))]
fn write_tag<W: Sink>(sink: &mut W, tag: u8, len: usize) -> Result<usize, WireKind>
    ensures wrote { WritesIf (nat_le len max_content) W.written sink.old sink.new result
        (header tag len) }
    ensures count { IfOk result (λ count. count ≡ length (header tag len)) }
    ensures cause { WriteCause (W.faults sink.old) (W.faults sink.new) result }
{
    if len > MAX_CONTENT {
        return Err(WireKind::InvalidData);
    }
    write_header(sink, tag, len)?;
    Ok(1 + length_size(len))
}

/// Writes the header of a SEQUENCE with `len` bytes of content, and returns how many bytes the
/// header took. `InvalidData` exactly when `len` exceeds the limit.
pub fn write_sequence_tag<W: Sink>(sink: &mut W, len: usize) -> Result<usize, WireKind>
    ensures wrote { WritesIf (nat_le len max_content) W.written sink.old sink.new result
        (header 0x30 len) }
    ensures count { IfOk result (λ count. count ≡ length (header 0x30 len)) }
    ensures cause { WriteCause (W.faults sink.old) (W.faults sink.new) result }
{
    write_tag(sink, SEQUENCE, len)
}

/// Writes the header of a context-specific element, and returns how many bytes it took. Only the
/// low five bits of `tagnum` count. `InvalidData` exactly when `len` exceeds the limit.
pub fn write_contextual_tag<W: Sink>(
    sink: &mut W,
    tagnum: u8,
    len: usize,
    pc: Pc,
) -> Result<usize, WireKind>
    ensures wrote { WritesIf (nat_le len max_content) W.written sink.old sink.new result
        (header (contextual_identifier tagnum pc) len) }
    ensures count { IfOk result (λ count. count ≡ length
        (header (contextual_identifier tagnum pc) len)) }
    ensures cause { WriteCause (W.faults sink.old) (W.faults sink.new) result }
{
    write_tag(sink, contextual_identifier(tagnum, pc), len)
}

/// Writes the header of an OCTET STRING of `len` bytes, and returns how many bytes it took.
/// `InvalidData` exactly when `len` exceeds the limit.
pub fn write_octet_string_tag<W: Sink>(sink: &mut W, len: usize) -> Result<usize, WireKind>
    ensures wrote { WritesIf (nat_le len max_content) W.written sink.old sink.new result
        (header 0x04 len) }
    ensures count { IfOk result (λ count. count ≡ length (header 0x04 len)) }
    ensures cause { WriteCause (W.faults sink.old) (W.faults sink.new) result }
{
    write_tag(sink, OCTET_STRING, len)
}

/// Writes an OCTET STRING, and returns how many bytes it took. `InvalidData` exactly when the value
/// exceeds the limit.
#[tactic(auto, using(crate::proofs::Written::lengths))]
pub fn write_octet_string<W: Sink>(sink: &mut W, value: &[u8]) -> Result<usize, WireKind>
    ensures wrote { WritesIf (nat_le (length value.now) max_content) W.written sink.old sink.new
        result (element 0x04 value.now) }
    ensures count { IfOk result (λ count. count ≡ length (element 0x04 value.now)) }
    ensures cause { WriteCause (W.faults sink.old) (W.faults sink.new) result }
{
    if value.len() > MAX_CONTENT {
        return Err(WireKind::InvalidData);
    }
    write_element(sink, OCTET_STRING, value)?;
    Ok(size_of_element(value.len()))
}

/// Writes an OCTET STRING inside a constructed context-specific tag, and returns how many bytes
/// both took. Only the low five bits of `tagnum` count. `InvalidData` exactly when the whole OCTET
/// STRING exceeds the limit.
#[tactic(auto, using(crate::proofs::Written::writing, crate::proofs::Written::lengths), unfolding(crate::specs::Short::element))]
pub fn write_sequence_octet_string<W: Sink>(
    sink: &mut W,
    tagnum: u8,
    value: &[u8],
) -> Result<usize, WireKind>
    ensures wrote { WritesIf (nat_le (element_size (length value.now)) max_content) W.written
        sink.old sink.new result
        (element (contextual_identifier tagnum Pc.Construct) (element 0x04 value.now)) }
    ensures count { IfOk result (λ count. count ≡ length
        (element (contextual_identifier tagnum Pc.Construct) (element 0x04 value.now))) }
    ensures cause { WriteCause (W.faults sink.old) (W.faults sink.new) result }
{
    if !fits_in_element(value.len()) {
        return Err(WireKind::InvalidData);
    }
    write_wrapped_octets(sink, contextual_identifier(tagnum, Pc::Construct), value)?;
    Ok(size_of_element(size_of_element(value.len())))
}

/// Writes one identifier octet of the universal class, and returns 1.
pub fn write_universal_tag<W: Sink>(sink: &mut W, tag: Tag, pc: Pc) -> Result<usize, WireKind>
    ensures wrote { Writes (W.written sink.old) (W.written sink.new) result
        (universal_identifier tag pc ∷ []) }
    ensures count { IfOk result (λ count. count ≡ 1) }
    ensures cause { WriteCause (W.faults sink.old) (W.faults sink.new) result }
{
    write_all(sink, &[universal_identifier(tag, pc)])?;
    Ok(1)
}

#[tactic(auto, using(crate::proofs::Short::short_integers))]
fn write_short_integer<W: Sink>(sink: &mut W, value: u32) -> Result<(), WireKind>
    ensures wrote { Writes (W.written sink.old) (W.written sink.new) result (int_short value) }
    ensures cause { WriteCause (W.faults sink.old) (W.faults sink.new) result }
{
    let low = (value % 0x100) as u8;
    let second = (value / 0x100 % 0x100) as u8;
    let third = (value / 0x1_0000 % 0x100) as u8;
    if value < 0x80 {
        write_all(sink, &[INTEGER, 1, low])
    } else if value < 0x8000 {
        write_all(sink, &[INTEGER, 2, second, low])
    } else if value < 0x80_0000 {
        write_all(sink, &[INTEGER, 3, third, second, low])
    } else {
        let high = (value / 0x100_0000) as u8;
        write_all(sink, &[INTEGER, 4, high, third, second, low])
    }
}

/// Writes an INTEGER in its shortest encoding of at most four content bytes, and returns how many
/// bytes it took: 3 to 6.
pub fn write_integer<W: Sink>(sink: &mut W, value: u32) -> Result<usize, WireKind>
    ensures wrote { Writes (W.written sink.old) (W.written sink.new) result (int_short value) }
    ensures count { IfOk result (λ count. count ≡ length (int_short value)) }
    ensures cause { WriteCause (W.faults sink.old) (W.faults sink.new) result }
{
    write_short_integer(sink, value)?;
    Ok(sizeof_integer(value))
}
