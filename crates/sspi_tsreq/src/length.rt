//! The octets of a length, one at a time.

ghost use Rattle.std.specs.Prelude.{◌≡◌, ◌∷◌, ℕ, List};
ghost use Rattle.sspi_ber.specs.Forms.{is_integer_size};
ghost use Rattle.sspi_tsreq.specs.Places.{length_rest};
ghost use Rattle.sspi_tsreq.specs.Walks.{LengthLasts, LengthSteps};

use crate::place::{LengthPart, LengthStep};
use sspi_ber::MAX_CONTENT;

/// The length after this byte.
pub(crate) fn next_length(part: LengthPart, byte: u8) -> LengthStep
    ensures { (more : List ℕ) → LengthSteps (length_rest part (byte ∷ more)) result more }
{
    match part {
        LengthPart::First => first_octet(byte),
        LengthPart::Three => LengthStep::Part(LengthPart::Two(byte)),
        LengthPart::Two(high) => {
            LengthStep::Part(LengthPart::One(u16::from(high) * 256 + u16::from(byte)))
        }
        LengthPart::One(high) => last_octet(u32::from(high) * 256 + u32::from(byte)),
    }
}

fn first_octet(byte: u8) -> LengthStep
    ensures { (more : List ℕ) → LengthSteps (length_rest LengthPart.First (byte ∷ more)) result
        more }
{
    if byte < 0x80 {
        LengthStep::Known(u32::from(byte))
    } else if byte == 0x81 {
        LengthStep::Part(LengthPart::One(0))
    } else if byte == 0x82 {
        LengthStep::Part(LengthPart::Two(0))
    } else if byte == 0x83 {
        LengthStep::Part(LengthPart::Three)
    } else {
        LengthStep::Bad
    }
}

/// A length of several octets whose value is `len`.
fn last_octet(len: u32) -> LengthStep
    ensures { LengthLasts result len }
{
    if len > MAX_CONTENT as u32 {
        return LengthStep::Bad;
    }
    LengthStep::Known(len)
}

/// Whether an INTEGER's content may have this many bytes.
pub(crate) fn is_integer_size(size: u32) -> bool
    ensures { result ≡ is_integer_size size }
{
    size == 1 || size == 2 || size == 3 || size == 4 || size == 8
}
