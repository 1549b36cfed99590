//! Well-formed UTF-16 texts.

ghost use Rattle.std.specs.Prelude.{◌≡◌, ◌==◌, ◌≤◌, ◌∷◌, count_by, length, true, not, IfOk, IfSome};
ghost use Rattle.std.specs.Prelude.{MatchOption, string_bytes};
ghost use Rattle.std.specs.Char.Utf16.{has_unpaired_surrogate};
ghost use Rattle.std.specs.Result.{is_ok};
ghost use Rattle.sspi_names.specs.Utf16.{units_le};

use crate::error::Utf16Error;
use std::alloc::{AllocError, Global};
use std::marker::Model;

/// A text as UTF-16 code units. The units are well-formed: each surrogate has its partner.
/// Contracts see it as the list of its code units.
#[derive(Drop)]
pub struct Utf16Text {
    units: Vec<u16>,
}

impl Model for Utf16Text {
    ghost use Rattle.std.specs.Prelude.{ℕ, List};
    ghost use Rattle.sspi_names.specs.Utf16.{IsUtf16};

    ghost Value = { List ℕ };

    ghost view = { λ text. text.units.items };

    ghost invariant = { λ text. IsUtf16 text.units.items };
}

impl PartialEq for Utf16Text {
    ghost use Rattle.std.specs.Prelude.{◌==◌};
    ghost use Rattle.std.specs.Cmp.{partial_equiv_from_equiv};
    ghost use Rattle.std.specs.Cmp.Lexicographic.{pointwise, nat_list_eq_equiv};

    ghost eq = { pointwise ◌==◌ };

    ghost laws = { partial_equiv_from_equiv nat_list_eq_equiv };

    fn eq(&self, other: &Utf16Text) -> bool {
        self.units == other.units
    }
}

impl Eq for Utf16Text {
    ghost use Rattle.std.specs.Cmp.Lexicographic.{nat_list_eq_equiv};

    ghost laws = { nat_list_eq_equiv };
}

impl Utf16Text {
    ghost use Rattle.sspi_names.specs.Utf16.{units_of, text_of, bytes_le, decode_le, IsDecoded};
    ghost use Rattle.sspi_names.specs.Utf16.{IsUtf16};

    /// The code units of a text.
    pub fn from_str(alloc: Global, s: &str) -> Result<Utf16Text, AllocError>
        ensures { IfOk result (λ text. text ≡ units_of s.now) }
    {
        let mut units = Vec::with_capacity(alloc, s.len())?;
        for c in s.chars() {
            units.extend_from_slice(c.encode_utf16(&mut [0; 2]))?;
        }
        Ok(Utf16Text { units })
    }

    /// The text that the bytes encode, with two bytes per code unit, the low one first. `OddLength`
    /// for an odd number of bytes, else `UnpairedSurrogate` if the code units are not well-formed.
    /// Allocates only if the bytes are a text.
    pub fn from_bytes_le(alloc: Global, bytes: &[u8]) -> Result<Utf16Text, Utf16Error>
        ensures { IsDecoded result (decode_le bytes.now) }
    {
        if bytes.len() % 2 != 0 {
            return Err(Utf16Error::OddLength);
        }
        if !is_well_formed(bytes) {
            return Err(Utf16Error::UnpairedSurrogate);
        }
        Ok(Utf16Text {
            units: units_from_le(alloc, bytes)?,
        })
    }

    /// Whether `from_bytes_le` accepts the bytes as a text. Allocates nothing.
    #[tactic(auto, using(crate::proofs::CodeUnits::decoded_ok))]
    pub fn is_text_le(bytes: &[u8]) -> bool
        ensures { result ≡ is_ok (decode_le bytes.now) }
    {
        if bytes.len() % 2 == 0 {
            is_well_formed(bytes)
        } else {
            false
        }
    }

    /// The number of bytes that `to_bytes_le` returns.
    #[tactic(auto, using(crate::proofs::CodeUnits::length_bytes_le))]
    pub fn byte_len(&self) -> usize
        ensures { result ≡ length (bytes_le self.now) }
    {
        2 * self.units.len()
    }

    /// The code units as bytes, the low byte of each first.
    pub fn to_bytes_le(&self, alloc: Global) -> Result<Vec<u8>, AllocError>
        ensures bytes { IfOk result (λ bytes. bytes.items ≡ bytes_le self.now) }
        ensures text { IsUtf16 self.now }
    {
        let mut bytes = Vec::with_capacity(alloc, 2 * self.units.len())?;
        for unit in &self.units {
            bytes.extend_from_slice(&unit.to_le_bytes())?;
        }
        Ok(bytes)
    }

    /// The text in UTF-8.
    pub fn to_string(&self, alloc: Global) -> Result<String, AllocError>
        ensures text { IfOk result (λ text. string_bytes text ≡ text_of self.now) }
        ensures well_formed { IsUtf16 self.now }
    {
        // The units are well-formed, so none is replaced.
        String::from_utf16_lossy(alloc, &self.units)
    }

    /// How often this code unit occurs in the text.
    pub(crate) fn count_of(&self, unit: u16) -> usize
        ensures count { result ≡ count_by (λ u. u == unit) self.now }
        ensures well_formed { IsUtf16 self.now }
    {
        let mut count = 0;
        for other in &self.units {
            if *other == unit {
                count += 1;
            }
        }
        count
    }

    /// Whether there are no code units.
    pub(crate) fn is_empty(&self) -> bool
        ensures empty { result ≡ (length self.now == 0) }
        ensures well_formed { IsUtf16 self.now }
    {
        self.units.is_empty()
    }

    /// A copy in memory of its own, equal to this text.
    pub fn clone(&self, alloc: Global) -> Result<Utf16Text, AllocError>
        ensures { IfOk result (λ text. text ≡ self.now) }
    {
        Ok(Utf16Text {
            units: Vec::from_slice(alloc, &self.units)?,
        })
    }
}

/// The code units of an even number of bytes.
fn units_from_le(alloc: Global, bytes: &[u8]) -> Result<Vec<u16>, AllocError>
    ensures { IfOk result (λ units. units.items ≡ units_le bytes.now) }
{
    let mut units = Vec::with_capacity(alloc, bytes.len() / 2)?;
    let mut rest = bytes;
    while let [low, high, others @ ..] = rest {
        units.push(u16::from_le_bytes([*low, *high]))?;
        rest = others;
    }
    Ok(units)
}

/// Whether each surrogate has its partner in the code units of an even number of bytes.
fn is_well_formed(bytes: &[u8]) -> bool
    ensures { has_unpaired_surrogate (units_le bytes.now) ≡ not result }
{
    let mut rest = bytes;
    while let [low, high, others @ ..] = rest {
        match after_char(u16::from_le_bytes([*low, *high]), others) {
            Some(after) => rest = after,
            None => return false,
        }
    }
    true
}

/// The bytes after the character that begins with this unit; `None` if the unit is a surrogate
/// without its partner.
fn after_char(unit: u16, others: &[u8]) -> Option<&[u8]>
    ensures shorter { IfSome result (λ after. length after.now ≤ length others.now) }
    ensures paired { MatchOption result (has_unpaired_surrogate (unit ∷ units_le others.now) ≡ true)
        (λ after. has_unpaired_surrogate (unit ∷ units_le others.now) ≡ has_unpaired_surrogate
        (units_le after.now)) }
{
    if unit < 0xd800 || 0xe000 <= unit {
        return Some(others);
    }
    if 0xdc00 <= unit {
        return None;
    }
    let [low, high, after @ ..] = others else {
        return None;
    };
    let partner = u16::from_le_bytes([*low, *high]);
    if partner < 0xdc00 || 0xe000 <= partner {
        return None;
    }
    Some(after)
}
