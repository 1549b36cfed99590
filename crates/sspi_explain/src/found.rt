//! What a reader finds where it refuses a piece.
ghost use Rattle.std.specs.Prelude.{◌≡◌, ◌≤◌, length, string_bytes, IfOk};
ghost use Rattle.sspi_ber.specs.Forms.{big_endian, is_integer_size};
ghost use Rattle.sspi_explain.specs.Found.{found_text, found_in_header, found_in_integer};
ghost use Rattle.sspi_explain.specs.Found.{found_in_length};
ghost use Rattle.sspi_explain.specs.Found.{found_in_octets, octet_text};

use crate::texts::count_text;
use sspi_ber::{SliceSource, read_header};
use std::alloc::{AllocError, Global};

/// What is wrong with a piece.
#[derive(Clone, Copy)]
pub(crate) enum Found {
    /// An identifier octet other than the expected one.
    Tag(u8, u8),
    /// No byte where this identifier octet is expected.
    NoTag(u8),
    /// A length whose first octet is not allowed here.
    LengthOctet(u8),
    /// A length that ends too early.
    NoLength,
    /// A length above the limit.
    LongLength(u32),
    /// An INTEGER of this many bytes.
    Integer(u32),
    /// A nonce of this many bytes.
    Nonce(u32),
    /// How many bytes are needed, and how many are left.
    Short(u32, usize),
}

impl Found {
    #[tactic(auto, unfolding(crate::specs::Found::found_text))]
    pub fn text(self, alloc: Global) -> Result<String, AllocError>
        ensures { IfOk result (λ text. string_bytes text ≡ found_text self) }
    {
        match self {
            Found::Tag(wanted, found) => tag_text(alloc, wanted, found),
            Found::NoTag(wanted) => {
                let wanted = octet_text(alloc, wanted)?;
                format!(in alloc; "tag {wanted} wanted, end of bytes")
            }
            Found::LengthOctet(octet) => {
                let octet = octet_text(alloc, octet)?;
                format!(in alloc; "length: first octet {octet}")
            }
            Found::NoLength => String::from_str(alloc, "length: end of bytes"),
            Found::LongLength(length) => format!(in alloc; "length {length} above 1048576"),
            Found::Integer(size) => {
                let count = count_text(alloc, size as usize)?;
                format!(in alloc; "integer of {count}")
            }
            Found::Nonce(size) => {
                let count = count_text(alloc, size as usize)?;
                format!(in alloc; "nonce of {count}")
            }
            Found::Short(wanted, left) => short_text(alloc, wanted, left),
        }
    }
}

#[tactic(auto, unfolding(crate::specs::Found::found_text))]
fn tag_text(alloc: Global, wanted: u8, found: u8) -> Result<String, AllocError>
    ensures { IfOk result (λ text. string_bytes text ≡ found_text (Found.Tag wanted found)) }
{
    let wanted = octet_text(alloc, wanted)?;
    let found = octet_text(alloc, found)?;
    let text = format!(in alloc; "tag {wanted} wanted, {found} found")?;
    Ok(text)
}

#[tactic(auto, unfolding(crate::specs::Found::found_text))]
fn short_text(alloc: Global, wanted: u32, left: usize) -> Result<String, AllocError>
    ensures { IfOk result (λ text. string_bytes text ≡ found_text (Found.Short wanted left)) }
{
    let count = count_text(alloc, wanted as usize)?;
    let text = format!(in alloc; "{count} wanted, {left} left")?;
    Ok(text)
}

#[tactic(auto, unfolding(crate::specs::Found::octet_text))]
fn octet_text(alloc: Global, octet: u8) -> Result<String, AllocError>
    ensures { IfOk result (λ text. string_bytes text ≡ octet_text octet) }
{
    hex::encode(alloc, &[octet])
}

/// What is wrong with a refused header of this tag, and how many bytes are left there.
#[tactic(auto, unfolding(crate::specs::Found::found_in_header))]
pub(crate) fn found_in_header(tag: u8, bytes: &[u8]) -> (usize, Found)
    ensures { (result.0, result.1) ≡ found_in_header tag bytes.now }
{
    match bytes.split_first() {
        None => (0, Found::NoTag(tag)),
        Some((first, rest)) => {
            if *first == tag {
                (rest.len(), found_in_length(rest))
            } else {
                (bytes.len(), Found::Tag(tag, *first))
            }
        }
    }
}

/// What is wrong with a refused length.
#[tactic(auto, unfolding(crate::specs::Found::found_in_length))]
fn found_in_length(bytes: &[u8]) -> Found
    ensures { result ≡ found_in_length bytes.now }
{
    match bytes.split_first() {
        None => Found::NoLength,
        Some((first, rest)) => found_in_octets(*first, first.saturating_sub(0x80), rest),
    }
}

/// What is wrong with a length that has `count` octets after its first.
fn found_in_octets(first: u8, count: u8, rest: &[u8]) -> Found
    ensures { result ≡ found_in_octets first count rest.now }
{
    if count < 1 || 3 < count {
        return Found::LengthOctet(first);
    }
    let count = count as usize;
    if rest.len() < count {
        return Found::NoLength;
    }
    Found::LongLength(big_endian(&rest[..count]))
}

/// The number that up to three octets encode, highest first.
fn big_endian(octets: &[u8]) -> u32
    requires { length octets.now ≤ 3 }
    ensures { result ≡ big_endian octets.now }
{
    let mut number = 0u32;
    for octet in octets {
        number = number * 256 + u32::from(*octet);
    }
    number
}

/// What is wrong with a refused INTEGER, and how many bytes are left there.
#[tactic(auto, unfolding(crate::specs::Found::found_in_integer))]
pub(crate) fn found_in_integer(bytes: &[u8]) -> (usize, Found)
    ensures { (result.0, result.1) ≡ found_in_integer bytes.now }
{
    let mut source = SliceSource::new(bytes);
    match read_header(&mut source, 0x02) {
        Err(_) => found_in_header(0x02, bytes),
        Ok(len) => {
            let left = source.rest().len();
            if is_integer_size(len) {
                (left, Found::Short(len, left))
            } else {
                (bytes.len().saturating_sub(1), Found::Integer(len))
            }
        }
    }
}

fn is_integer_size(size: u32) -> bool
    ensures { result ≡ is_integer_size size }
{
    size == 1 || size == 2 || size == 3 || size == 4 || size == 8
}
