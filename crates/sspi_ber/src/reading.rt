//! Reads identifiers, lengths, integers and octet strings from any source (X.690 8.1 to 8.7).

ghost use Rattle.std.specs.Prelude.{◌≡◌, ◌≤◌, IfOk, IsTrue};
ghost use Rattle.sspi_ber.specs.Forms.{is_integer_size};
ghost use Rattle.sspi_ber.specs.Identifier.{contextual_identifier};
ghost use Rattle.sspi_ber.specs.Outside.{Reads, ReadCause, LeavesRest};
ghost use Rattle.sspi_ber.specs.Pieces.{byte_at, is_octet_count, limited_at, length_at, header_at};
ghost use Rattle.sspi_ber.specs.Pieces.{sized_header_at, number_at, integer_at};
ghost use Rattle.sspi_ber.specs.Sized.{sized_length_at};

use crate::identifier::{INTEGER, OCTET_STRING, Pc, SEQUENCE, contextual_identifier};
use crate::limit::{MAX_CONTENT, MAX_LENGTH_OCTETS};
use crate::source::Source;
use crate::wire_kind::WireKind;

#[tactic(auto, using(crate::proofs::Rest::rest_next))]
fn read_byte<S: Source>(source: &mut S) -> Result<u8, WireKind>
    ensures read { Reads (λ byte. byte) (S.left source.old) (S.left source.new) result byte_at }
    ensures cause { ReadCause (S.faults source.old) (S.faults source.new) result }
    ensures rest { LeavesRest (S.left source.old) (S.left source.new) }
{
    match source.next_byte()? {
        None => Err(WireKind::UnexpectedEof),
        Some(byte) => Ok(byte),
    }
}

/// Reads `size` bytes as a number, the most significant byte first.
fn read_number<S: Source>(source: &mut S, size: u32) -> Result<u64, WireKind>
    requires { size ≤ 8 }
    ensures read { Reads (λ n. n) (S.left source.old) (S.left source.new) result (number_at size) }
    ensures cause { ReadCause (S.faults source.old) (S.faults source.new) result }
    ensures rest { LeavesRest (S.left source.old) (S.left source.new) }
{
    let mut value = 0u64;
    for _ in 0..size {
        let byte = read_byte(source)?;
        value = value * 256 + u64::from(byte);
    }
    Ok(value)
}

/// Reads `count` octets as a length, which the limit bounds.
#[tactic(auto, unfolding(crate::specs::Pieces::limited_at))]
fn read_limited<S: Source>(source: &mut S, count: u32) -> Result<u32, WireKind>
    requires { count ≤ 8 }
    ensures read { Reads (λ n. n) (S.left source.old) (S.left source.new) result
        (limited_at count) }
    ensures cause { ReadCause (S.faults source.old) (S.faults source.new) result }
    ensures rest { LeavesRest (S.left source.old) (S.left source.new) }
{
    let len = read_number(source, count)?;
    if len > MAX_CONTENT as u64 {
        return Err(WireKind::InvalidData);
    }
    Ok(len as u32)
}

fn is_octet_count(count: u32) -> bool
    ensures counts { result ≡ is_octet_count count }
    ensures small { IsTrue result → count ≤ 3 }
{
    1 <= count && count <= MAX_LENGTH_OCTETS
}

/// Reads a length in one of its four forms, and returns it with how many bytes it took.
#[tactic(auto, unfolding(crate::specs::Sized::sized_length_at, crate::specs::Pieces::length_at))]
fn read_sized_length<S: Source>(source: &mut S) -> Result<(u32, usize), WireKind>
    ensures read { Reads (λ sized. (sized.0, sized.1)) (S.left source.old) (S.left source.new)
        result sized_length_at }
    ensures size { IfOk result (λ sized. sized.1 ≤ 4) }
    ensures cause { ReadCause (S.faults source.old) (S.faults source.new) result }
    ensures rest { LeavesRest (S.left source.old) (S.left source.new) }
{
    let first = read_byte(source)?;
    if first < 0x80 {
        return Ok((u32::from(first), 1));
    }
    let count = u32::from(first) - 0x80;
    if !is_octet_count(count) {
        return Err(WireKind::InvalidData);
    }
    let len = read_limited(source, count)?;
    Ok((len, 1 + count as usize))
}

/// Reads a length in one of its four forms, shortest or not (X.690 8.1.3).
///
/// `UnexpectedEof` if the input ends; `InvalidData` for a first octet of 0x80 or above 0x83 and
/// for a length past the limit; `ReadFault` only if the source failed.
#[tactic(auto, using(crate::proofs::Sized::length_half, crate::proofs::Sized::length_fault))]
pub fn read_length<S: Source>(source: &mut S) -> Result<u32, WireKind>
    ensures read { Reads (λ n. n) (S.left source.old) (S.left source.new) result length_at }
    ensures cause { ReadCause (S.faults source.old) (S.faults source.new) result }
    ensures rest { LeavesRest (S.left source.old) (S.left source.new) }
{
    match read_sized_length(source) {
        Ok((len, _)) => Ok(len),
        Err(kind) => Err(kind),
    }
}

/// Reads this identifier octet and a length, and returns the length. `InvalidData` if another byte
/// comes first; otherwise refused like `read_length`.
#[tactic(auto, unfolding(crate::specs::Pieces::header_at))]
pub fn read_header<S: Source>(source: &mut S, tag: u8) -> Result<u32, WireKind>
    ensures read { Reads (λ n. n) (S.left source.old) (S.left source.new) result (header_at tag) }
    ensures cause { ReadCause (S.faults source.old) (S.faults source.new) result }
    ensures rest { LeavesRest (S.left source.old) (S.left source.new) }
{
    if read_byte(source)? != tag {
        return Err(WireKind::InvalidData);
    }
    read_length(source)
}

/// The same as `read_header`, but also returns how many bytes the header took.
#[tactic(auto, unfolding(crate::specs::Pieces::sized_header_at, crate::specs::Pieces::header_at, crate::specs::Sized::sized_length_at))]
pub fn read_sized_header<S: Source>(source: &mut S, tag: u8) -> Result<(u32, usize), WireKind>
    ensures read { Reads (λ sized. (sized.0, sized.1)) (S.left source.old) (S.left source.new)
        result (sized_header_at tag) }
    ensures size { IfOk result (λ sized. sized.1 ≤ 5) }
    ensures cause { ReadCause (S.faults source.old) (S.faults source.new) result }
    ensures rest { LeavesRest (S.left source.old) (S.left source.new) }
{
    if read_byte(source)? != tag {
        return Err(WireKind::InvalidData);
    }
    let (len, size) = read_sized_length(source)?;
    Ok((len, 1 + size))
}

/// Reads the header of a SEQUENCE, its identifier octet and a length, and returns the length.
/// Refused like `read_header`.
pub fn read_sequence_tag<S: Source>(source: &mut S) -> Result<u32, WireKind>
    ensures read { Reads (λ n. n) (S.left source.old) (S.left source.new) result (header_at 0x30) }
    ensures cause { ReadCause (S.faults source.old) (S.faults source.new) result }
    ensures rest { LeavesRest (S.left source.old) (S.left source.new) }
{
    read_header(source, SEQUENCE)
}

/// Reads the header of a context-specific element. Only the low five bits of `tagnum` count.
/// Refused like `read_header`.
pub fn read_contextual_tag<S: Source>(source: &mut S, tagnum: u8, pc: Pc) -> Result<u32, WireKind>
    ensures read { Reads (λ n. n) (S.left source.old) (S.left source.new) result
        (header_at (contextual_identifier tagnum pc)) }
    ensures cause { ReadCause (S.faults source.old) (S.faults source.new) result }
    ensures rest { LeavesRest (S.left source.old) (S.left source.new) }
{
    read_header(source, contextual_identifier(tagnum, pc))
}

/// Reads the header of an OCTET STRING. Refused like `read_header`.
pub fn read_octet_string_tag<S: Source>(source: &mut S) -> Result<u32, WireKind>
    ensures read { Reads (λ n. n) (S.left source.old) (S.left source.new) result (header_at 0x04) }
    ensures cause { ReadCause (S.faults source.old) (S.faults source.new) result }
    ensures rest { LeavesRest (S.left source.old) (S.left source.new) }
{
    read_header(source, OCTET_STRING)
}

fn is_integer_size(size: u32) -> bool
    ensures counts { result ≡ is_integer_size size }
    ensures small { IsTrue result → size ≤ 8 }
{
    size == 1 || size == 2 || size == 3 || size == 4 || size == 8
}

/// Reads an unsigned INTEGER, whose content has 1, 2, 3, 4 or 8 bytes. Any other length is
/// `InvalidData`, whatever follows it.
#[tactic(auto, unfolding(crate::specs::Pieces::integer_at))]
pub fn read_integer<S: Source>(source: &mut S) -> Result<u64, WireKind>
    ensures read { Reads (λ n. n) (S.left source.old) (S.left source.new) result integer_at }
    ensures cause { ReadCause (S.faults source.old) (S.faults source.new) result }
    ensures rest { LeavesRest (S.left source.old) (S.left source.new) }
{
    let size = read_header(source, INTEGER)?;
    if is_integer_size(size) {
        read_number(source, size)
    } else {
        Err(WireKind::InvalidData)
    }
}
