//! Laws about the pieces, each on a function that does nothing.

ghost use Rattle.std.specs.Prelude.{◌≡◌, ℕ, ◌<◌, ◌≤◌, ◌^◌, List, ◌++◌, length, slice_index, Ok};
ghost use Rattle.sspi_ber.specs.Forms.{IsLength, IsElement, IsInteger, IsNotNegative, big_endian};
ghost use Rattle.sspi_ber.specs.Forms.{max_content};
ghost use Rattle.sspi_ber.specs.Pieces.{length_at, element_at, integer_at};
ghost use Rattle.sspi_ber.specs.Short.{len_short, element, element_size, int_content, int_short};

use crate::identifier::{INTEGER, OCTET_STRING, SEQUENCE};
use crate::limit::{MAX_CONTENT, MAX_LENGTH_OCTETS};

/// A length is read exactly when the bytes begin with a form of one, and then exactly that form is
/// consumed.
#[tactic(auto, using(crate::proofs::Agreement::agreement))]
pub fn lengths_agree()
    ensures takes { (bytes : List ℕ) (n : ℕ) (rest : List ℕ) → length_at bytes ≡ Ok (n, rest)
        → (text : List ℕ) × IsLength text n × (bytes ≡ text ++ rest) }
    ensures again { (text : List ℕ) (n : ℕ) (rest : List ℕ) → IsLength text n →
        length_at (text ++ rest) ≡ Ok (n, rest) }
{}

/// The same for an INTEGER.
#[tactic(auto, using(crate::proofs::Agreement::agreement))]
pub fn integers_agree()
    ensures takes { (bytes : List ℕ) (value : ℕ) (rest : List ℕ) →
        integer_at bytes ≡ Ok (value, rest)
        → (text : List ℕ) × IsInteger text value × (bytes ≡ text ++ rest) }
    ensures again { (text : List ℕ) (value : ℕ) (rest : List ℕ) → IsInteger text value →
        integer_at (text ++ rest) ≡ Ok (value, rest) }
{}

/// The same for a tag, a length and a content.
#[tactic(auto, using(crate::proofs::Agreement::agreement))]
pub fn elements_agree()
    ensures takes { (tag : ℕ) (bytes content rest : List ℕ) →
        element_at tag bytes ≡ Ok (content, rest)
        → (text : List ℕ) × IsElement tag text content × (bytes ≡ text ++ rest) }
    ensures again { (tag : ℕ) (text content rest : List ℕ) → IsElement tag text content →
        element_at tag (text ++ rest) ≡ Ok (content, rest) }
{}

/// The shortest encodings are read back, whatever follows.
#[tactic(auto, using(crate::proofs::Agreement::agreement))]
pub fn shortest_is_read()
    ensures length { (n : ℕ) (more : List ℕ) → n ≤ max_content →
        length_at (len_short n ++ more) ≡ Ok (n, more) }
    ensures integer { (value : ℕ) (more : List ℕ) →
        integer_at (int_short value ++ more) ≡ Ok (value, more) }
    ensures element { (tag : ℕ) (content more : List ℕ) → length content ≤ max_content
        → element_at tag (element tag content ++ more) ≡ Ok (content, more) }
{}

/// No form of a length has fewer bytes than the one that is written. No content bytes of an INTEGER
/// that represent a nonnegative number are fewer than those that are written for it. Below 2 ^ 31
/// the written bytes represent such a number; from there on they are always four, where X.690 8.3.3
/// has five.
#[tactic(auto, using(crate::proofs::Agreement::agreement))]
pub fn shortest_is_shortest()
    ensures length { (text : List ℕ) (n : ℕ) → ((i : ℕ) → slice_index text i < 256) →
        IsLength text n
        → length (len_short n) ≤ length text }
    ensures integer { (content : List ℕ) → ((i : ℕ) → slice_index content i < 256) →
        IsNotNegative content
        → length (int_content (big_endian content)) ≤ length content }
    ensures not_negative { (value : ℕ) → value < 2 ^ 31 → IsNotNegative (int_content value) }
    ensures four { (value : ℕ) → 2 ^ 31 ≤ value → length (int_content value) ≡ 4 }
{}

/// The named constants are the limit of all lengths, how many octets they may need, and the
/// identifier octets of X.690 8.1.2 for these types.
pub fn constants_have_their_numbers()
    // The limits of a length.
    ensures limit { MAX_CONTENT ≡ 1048576 }
    ensures octets { MAX_LENGTH_OCTETS ≡ 3 }
    // The identifier octets.
    ensures sequence { SEQUENCE ≡ 0x30 }
    ensures integer { INTEGER ≡ 0x02 }
    ensures octet_string { OCTET_STRING ≡ 0x04 }
{}

/// The sizes are the lengths of the encodings.
#[tactic(auto, using(crate::proofs::Written::lengths))]
pub fn sizes_are_lengths()
    ensures { (tag : ℕ) (content : List ℕ) →
        length (element tag content) ≡ element_size (length content) }
{}
