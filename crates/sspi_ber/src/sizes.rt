//! How many bytes lengths, headers and elements take in their shortest form.

ghost use Rattle.std.specs.Prelude.{◌≡◌, ◌+◌, ◌≤◌, nat_le, length, IsTrue};
ghost use Rattle.sspi_ber.specs.Forms.{max_content};
ghost use Rattle.sspi_ber.specs.Short.{IsSizeIf, len_short, element_size, int_short};

use crate::limit::MAX_CONTENT;
use crate::wire_kind::WireKind;

/// How many bytes the shortest length takes.
#[tactic(auto, unfolding(crate::specs::Short::len_short, crate::specs::Short::length_octets))]
pub(crate) fn length_size(len: usize) -> usize
    requires { len ≤ max_content }
    ensures size { result ≡ length (len_short len) }
    ensures small { result ≤ 4 }
{
    if len < 0x80 {
        1
    } else if len < 0x100 {
        2
    } else if len < 0x1_0000 {
        3
    } else {
        4
    }
}

/// How many bytes the shortest length takes. `InvalidData` exactly when `len` exceeds the limit.
pub fn sizeof_length(len: usize) -> Result<usize, WireKind>
    ensures { IsSizeIf (nat_le len max_content) result (length (len_short len)) }
{
    if len > MAX_CONTENT {
        return Err(WireKind::InvalidData);
    }
    Ok(length_size(len))
}

/// How many bytes the header of a SEQUENCE with `len` bytes of content takes. `InvalidData`
/// exactly past the limit.
pub fn sizeof_sequence_tag(len: usize) -> Result<usize, WireKind>
    ensures { IsSizeIf (nat_le len max_content) result (1 + length (len_short len)) }
{
    if len > MAX_CONTENT {
        return Err(WireKind::InvalidData);
    }
    Ok(1 + length_size(len))
}

/// How many bytes the header of a context-specific element takes. `InvalidData` exactly past the
/// limit.
pub fn sizeof_contextual_tag(len: usize) -> Result<usize, WireKind>
    ensures { IsSizeIf (nat_le len max_content) result (1 + length (len_short len)) }
{
    sizeof_sequence_tag(len)
}

/// How many bytes an element takes with `len` bytes of content, which must fit.
#[tactic(auto, unfolding(crate::specs::Short::element_size))]
pub fn size_of_element(len: usize) -> usize
    requires { len ≤ max_content }
    ensures size { result ≡ element_size len }
    ensures small { result ≤ len + 5 }
{
    1 + length_size(len) + len
}

/// Whether an OCTET STRING of `len` bytes fits inside another element.
#[tactic(auto, unfolding(crate::specs::Short::element_size))]
pub(crate) fn fits_in_element(len: usize) -> bool
    ensures fits { result ≡ nat_le (element_size len) max_content }
    ensures small { IsTrue result → len ≤ max_content }
{
    len <= MAX_CONTENT && size_of_element(len) <= MAX_CONTENT
}

/// How many bytes a SEQUENCE with `len` bytes of content takes. `InvalidData` exactly when `len`
/// exceeds the limit.
pub fn sizeof_sequence(len: usize) -> Result<usize, WireKind>
    ensures { IsSizeIf (nat_le len max_content) result (element_size len) }
{
    if len > MAX_CONTENT {
        return Err(WireKind::InvalidData);
    }
    Ok(size_of_element(len))
}

/// How many bytes an OCTET STRING of `len` bytes takes. `InvalidData` exactly when `len` exceeds
/// the limit.
pub fn sizeof_octet_string(len: usize) -> Result<usize, WireKind>
    ensures { IsSizeIf (nat_le len max_content) result (element_size len) }
{
    sizeof_sequence(len)
}

/// How many bytes an OCTET STRING of `len` bytes takes inside another tag. `InvalidData` exactly
/// when that tag's content, the whole OCTET STRING, exceeds the limit.
pub fn sizeof_sequence_octet_string(len: usize) -> Result<usize, WireKind>
    ensures { IsSizeIf (nat_le (element_size len) max_content) result
        (element_size (element_size len)) }
{
    if !fits_in_element(len) {
        return Err(WireKind::InvalidData);
    }
    Ok(size_of_element(size_of_element(len)))
}

/// How many bytes an INTEGER takes: 3 to 6.
#[tactic(auto, using(crate::proofs::Short::short_integers))]
pub fn sizeof_integer(value: u32) -> usize
    ensures size { result ≡ length (int_short value) }
    ensures small { result ≤ 6 }
{
    if value < 0x80 {
        3
    } else if value < 0x8000 {
        4
    } else if value < 0x80_0000 {
        5
    } else {
        6
    }
}
