//! The effect of one byte at a place.

ghost use Rattle.std.specs.Prelude.{◌≡◌, ℕ, List, ◌∷◌};
ghost use Rattle.sspi_tsreq.specs.declared.request.TsRequest.{TsRequest};
ghost use Rattle.sspi_tsreq.specs.Places.{behind, length_from, rest_at, text_left};
ghost use Rattle.sspi_tsreq.specs.Walks.{with_text, from_inner, IsOpening, LeadsTo};
ghost use Rattle.sspi_tsreq.specs.Quiet.{IsOctetsElement, Opened};

use crate::length::next_length;
use crate::place::{Element, Inner, LengthPart, LengthStep, Next, Place, Text};
use crate::walk::{after_text, code_place, inside, nonce_place, push_low, tag_of, version_place};

/// The effect of this byte at the place.
pub(crate) fn next_place(place: Place, byte: u8) -> Next
    ensures goes { (nonce more : List ℕ) (r : TsRequest) →
        LeadsTo (rest_at nonce place r (byte ∷ more)) nonce r more result }
    ensures quiet { (Opened place → ⊥) → (byte ≡ 0x04 → ⊥) → IsOpening result → ⊥ }
{
    match place {
        Place::AtTag(Element::Required(inner)) => Next::At(tag_place(inner, byte)),
        Place::InLength(element, part) => length_next(element, part, byte),
        Place::InVersion(more, value) => version_next(more, value, byte),
        Place::InCode(more, value) => code_next(more, value, byte),
        Place::AtTag(Element::Optional(_)) => Next::Walked,
        Place::InText(_, _) => Next::Walked,
        Place::InNonce(_) => Next::Walked,
        Place::Whole => Next::At(Place::Whole),
        Place::Faulty => Next::At(Place::Faulty),
    }
}

fn tag_place(inner: Inner, byte: u8) -> Place
    ensures goes { (nonce more : List ℕ) (r : TsRequest) →
        from_inner inner r (byte ∷ more) ≡ rest_at nonce result r more }
    ensures quiet { (byte ≡ 0x04 → ⊥) → Opened result → ⊥ }
{
    if byte == tag_of(inner) {
        Place::InLength(Element::Required(inner), LengthPart::First)
    } else {
        Place::Faulty
    }
}

fn version_next(more: u32, value: u32, byte: u8) -> Next
    ensures goes { (nonce text : List ℕ) (r : TsRequest) →
        LeadsTo (rest_at nonce (Place.InVersion more value) r (byte ∷ text)) nonce r text result }
    ensures quiet { IsOpening result → ⊥ }
{
    let low = push_low(value, byte);
    if more > 0 {
        Next::At(Place::InVersion(more - 1, low))
    } else {
        Next::Version(low)
    }
}

fn code_next(more: u32, value: u32, byte: u8) -> Next
    ensures goes { (nonce text : List ℕ) (r : TsRequest) →
        LeadsTo (rest_at nonce (Place.InCode more value) r (byte ∷ text)) nonce r text result }
    ensures quiet { IsOpening result → ⊥ }
{
    let low = push_low(value, byte);
    if more > 0 {
        Next::At(Place::InCode(more - 1, low))
    } else {
        Next::Code(low)
    }
}

fn length_next(element: Element, part: LengthPart, byte: u8) -> Next
    ensures goes { (nonce more : List ℕ) (r : TsRequest) →
        LeadsTo (length_from element part r (byte ∷ more)) nonce r more result }
    ensures quiet { (IsOctetsElement element → ⊥) → IsOpening result → ⊥ }
{
    match next_length(part, byte) {
        LengthStep::Part(part) => Next::At(Place::InLength(element, part)),
        LengthStep::Known(len) => content_next(element, len),
        LengthStep::Bad => Next::At(Place::Faulty),
    }
}

/// What follows a length.
fn content_next(element: Element, len: u32) -> Next
    ensures goes { (nonce more : List ℕ) (r : TsRequest) →
        LeadsTo (behind element r len more) nonce r more result }
    ensures quiet { (IsOctetsElement element → ⊥) → IsOpening result → ⊥ }
{
    match element {
        Element::Optional(field) => Next::At(Place::AtTag(Element::Required(inside(field)))),
        Element::Required(inner) => inner_next(inner, len),
    }
}

fn inner_next(inner: Inner, len: u32) -> Next
    ensures goes { (nonce more : List ℕ) (r : TsRequest) →
        LeadsTo (behind (Element.Required inner) r len more) nonce r more result }
    ensures quiet { (IsOctetsElement (Element.Required inner) → ⊥) → IsOpening result → ⊥ }
{
    Next::At(match inner {
        Inner::Octets(text) => return Next::Begins(text, len),
        Inner::Version => Place::AtTag(Element::Required(Inner::VersionNumber)),
        Inner::TokenList => Place::AtTag(Element::Required(Inner::TokenItem)),
        Inner::TokenItem => Place::AtTag(Element::Required(Inner::Token)),
        Inner::Token => Place::AtTag(Element::Required(Inner::Octets(Text::NegoTokens))),
        Inner::VersionNumber => version_place(len),
        Inner::CodeNumber => code_place(len),
        Inner::NonceOctets => nonce_place(len),
    })
}

/// The place in a field of which `more` bytes are still to come, after those that it has.
pub(crate) fn text_place(text: Text, more: u32) -> Place
    ensures { (nonce rest octets : List ℕ) (r : TsRequest) →
        text_left text more (with_text text r octets) rest ≡
        rest_at nonce result (with_text text r octets) rest }
{
    if more > 0 {
        Place::InText(text, more - 1)
    } else {
        Place::AtTag(Element::Optional(after_text(text)))
    }
}
