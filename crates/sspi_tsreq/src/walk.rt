//! Walks through a piece of a request's content, byte by byte.

ghost use Rattle.std.specs.Prelude.{◌≡◌, ℕ, ◌+◌, ◌*◌, ◌%◌, ◌^◌, ◌<◌, ◌≤◌, nat_le, ◌&&◌, ◌==◌, List};
ghost use Rattle.std.specs.Prelude.{[], ◌∷◌, ◌++◌, length, slice_set};
ghost use Rattle.std.specs.Prelude.{MatchOption};
ghost use Rattle.sspi_tsreq.specs.declared.request.TsRequest.{TsRequest};
ghost use Rattle.sspi_tsreq.specs.Grammar.{bare};
ghost use Rattle.sspi_tsreq.specs.Places.{answered, behind, code_from, length_from, nonce_from};
ghost use Rattle.sspi_tsreq.specs.Places.{rest_at, text_then, version_from};
ghost use Rattle.sspi_tsreq.specs.Walks.{inner_tag, with_text, filled, goes_on, from_field};
ghost use Rattle.sspi_tsreq.specs.Walks.{from_inner, IsInText, IsQuiet};
ghost use Rattle.sspi_tsreq.specs.Reading.{after_code, after_key, after_auth, after_nego};
ghost use Rattle.sspi_tsreq.specs.Reading.{after_version};
ghost use Rattle.sspi_tsreq.specs.Quiet.{IsOctetsElement, IsOctetsHeader, IsWithout, Opened};

use crate::length::{is_integer_size, next_length};
use crate::place::{Element, Field, Inner, LengthPart, LengthStep, Place, Text};
use sspi_types::NStatusCode;

/// What a piece does to a field that is an OCTET STRING.
#[derive(Clone, Copy)]
pub(crate) enum Slot<'a> {
    /// Nothing.
    Kept,
    /// The field is absent.
    Absent,
    /// These are the field's bytes so far.
    Here(&'a [u8]),
}

/// The reader's position in a content, and what it read of it. A walk allocates nothing.
#[derive(Clone, Copy)]
pub(crate) struct Walk<'a> {
    pub place: Place,
    pub nonce: [u8; 32],
    pub version: u32,
    pub nego_tokens: Slot<'a>,
    pub auth_info: Slot<'a>,
    pub pub_key_auth: Slot<'a>,
    pub error_code: Option<NStatusCode>,
    pub client_nonce: Option<[u8; 32]>,
}

/// The identifier octet of a required element.
pub(crate) fn tag_of(inner: Inner) -> u8
    ensures { result ≡ inner_tag inner }
{
    match inner {
        Inner::Version => 0xA0,
        Inner::VersionNumber => 0x02,
        Inner::TokenList => 0x30,
        Inner::TokenItem => 0x30,
        Inner::Token => 0xA0,
        Inner::Octets(_) => 0x04,
        Inner::CodeNumber => 0x02,
        Inner::NonceOctets => 0x04,
    }
}

fn first_byte(rest: &[u8]) -> Option<(u8, &[u8])>
    ensures { MatchOption result (rest.now ≡ []) (λ (byte, behind). rest.now ≡ byte ∷ behind.now) }
{
    match rest.split_first() {
        None => None,
        Some((byte, behind)) => Some((*byte, behind)),
    }
}

/// Whether this byte begins a field that is looked for from version `least` on.
fn begins(version: u32, least: u32, byte: u8, tag: u8) -> bool
    ensures { result ≡ nat_le least version && byte == tag }
{
    version >= least && byte == tag
}

/// Puts this byte at this index of the nonce.
pub(crate) fn put_byte(nonce: &mut [u8; 32], at: usize, byte: u8)
    requires { at < 32 }
    ensures put { nonce.new ≡ slice_set nonce.old at byte }
    ensures size { length nonce.old ≡ 32 }
{
    nonce[at] = byte;
}

/// The low 32 bits of a number, extended by one byte.
pub(crate) fn push_low(value: u32, byte: u8) -> u32
    ensures { result ≡ (value * 256 + byte) % 2 ^ 32 }
{
    ((u64::from(value) * 256 + u64::from(byte)) % 0x1_0000_0000) as u32
}

impl<'a> Walk<'a> {
    fn at_nonce(&mut self, byte: u8)
        ensures goes { (base : TsRequest) (more : List ℕ) → answered
            (after_code (filled base self.old) (byte ∷ more)) ≡ goes_on self.new base more }
        ensures text { IsInText self.new.place → ⊥ }
        ensures quiet { IsQuiet self.old → IsQuiet self.new }
    {
        if begins(self.version, 5, byte, 0xA5) {
            self.place = Place::InLength(Element::Optional(Field::Nonce), LengthPart::First);
        } else {
            self.client_nonce = None;
            self.place = Place::Whole;
        }
    }

    fn at_code(&mut self, byte: u8)
        ensures goes { (base : TsRequest) (more : List ℕ) → answered
            (after_key (filled base self.old) (byte ∷ more)) ≡ goes_on self.new base more }
        ensures text { IsInText self.new.place → ⊥ }
        ensures quiet { IsQuiet self.old → IsQuiet self.new }
    {
        if begins(self.version, 3, byte, 0xA4) {
            self.place = Place::InLength(Element::Optional(Field::Code), LengthPart::First);
        } else {
            self.error_code = None;
            self.at_nonce(byte);
        }
    }

    fn at_key(&mut self, byte: u8)
        ensures goes { (base : TsRequest) (more : List ℕ) → answered
            (after_auth (filled base self.old) (byte ∷ more)) ≡ goes_on self.new base more }
        ensures text { IsInText self.new.place → ⊥ }
        ensures quiet { IsQuiet self.old → IsQuiet self.new }
    {
        if byte == 0xA3 {
            self.place = Place::InLength(Element::Optional(Field::Key), LengthPart::First);
        } else {
            self.pub_key_auth = Slot::Absent;
            self.at_code(byte);
        }
    }

    fn at_auth(&mut self, byte: u8)
        ensures goes { (base : TsRequest) (more : List ℕ) → answered
            (after_nego (filled base self.old) (byte ∷ more)) ≡ goes_on self.new base more }
        ensures text { IsInText self.new.place → ⊥ }
        ensures quiet { IsQuiet self.old → IsQuiet self.new }
    {
        if byte == 0xA2 {
            self.place = Place::InLength(Element::Optional(Field::Auth), LengthPart::First);
        } else {
            self.auth_info = Slot::Absent;
            self.at_key(byte);
        }
    }

    fn at_nego(&mut self, byte: u8)
        ensures goes { (base : TsRequest) (more : List ℕ) → answered
            (after_version (filled base self.old) (byte ∷ more)) ≡ goes_on self.new base more }
        ensures text { IsInText self.new.place → ⊥ }
        ensures quiet { IsQuiet self.old → IsQuiet self.new }
    {
        if byte == 0xA1 {
            self.place = Place::InLength(Element::Optional(Field::Nego), LengthPart::First);
        } else {
            self.nego_tokens = Slot::Absent;
            self.at_auth(byte);
        }
    }

    /// This field or a later one, or bytes that are ignored.
    fn at_field(&mut self, field: Field, byte: u8)
        ensures goes { (base : TsRequest) (more : List ℕ) → answered
            (from_field field (filled base self.old) (byte ∷ more)) ≡ goes_on self.new base more }
        ensures text { IsInText self.new.place → ⊥ }
        ensures quiet { IsQuiet self.old → IsQuiet self.new }
    {
        match field {
            Field::Nego => self.at_nego(byte),
            Field::Auth => self.at_auth(byte),
            Field::Key => self.at_key(byte),
            Field::Code => self.at_code(byte),
            Field::Nonce => self.at_nonce(byte),
        }
    }

    fn expect(&mut self, inner: Inner, byte: u8)
        ensures goes { (base : TsRequest) (more : List ℕ) → answered
            (from_inner inner (filled base self.old) (byte ∷ more)) ≡ goes_on self.new base more }
        ensures text { IsInText self.new.place → ⊥ }
        ensures quiet { IsQuiet self.old → (byte ≡ 0x04 → ⊥) → IsQuiet self.new }
    {
        if byte == tag_of(inner) {
            self.place = Place::InLength(Element::Required(inner), LengthPart::First);
        } else {
            self.place = Place::Faulty;
        }
    }

    /// The version is known, but no field yet.
    fn begin(&mut self, version: u32)
        ensures goes { (base : TsRequest) (more : List ℕ) →
            answered (after_version (bare version) more) ≡ goes_on self.new base more }
        ensures text { IsInText self.new.place → ⊥ }
        ensures quiet { IsQuiet self.new }
    {
        self.version = version;
        self.nego_tokens = Slot::Absent;
        self.auth_info = Slot::Absent;
        self.pub_key_auth = Slot::Absent;
        self.error_code = None;
        self.client_nonce = None;
        self.place = Place::AtTag(Element::Optional(Field::Nego));
    }

    fn version_byte(&mut self, more: u32, value: u32, byte: u8)
        ensures goes { (base : TsRequest) (text : List ℕ) →
            answered (version_from more value (byte ∷ text)) ≡ goes_on self.new base text }
        ensures text { IsInText self.new.place → ⊥ }
        ensures quiet { IsQuiet self.old → IsQuiet self.new }
    {
        let low = push_low(value, byte);
        if more > 0 {
            self.place = Place::InVersion(more - 1, low);
        } else {
            self.begin(low);
        }
    }

    fn code_byte(&mut self, more: u32, value: u32, byte: u8)
        ensures goes { (base : TsRequest) (text : List ℕ) → answered
            (code_from more value (filled base self.old) (byte ∷ text)) ≡ goes_on self.new base
            text }
        ensures text { IsInText self.new.place → ⊥ }
        ensures quiet { IsQuiet self.old → IsQuiet self.new }
    {
        let low = push_low(value, byte);
        if more > 0 {
            self.place = Place::InCode(more - 1, low);
        } else {
            self.error_code = Some(NStatusCode(low));
            self.place = Place::AtTag(Element::Optional(Field::Nonce));
        }
    }

    fn nonce_byte(&mut self, have: u32, byte: u8)
        ensures goes { (base : TsRequest) (more : List ℕ) → answered
            (nonce_from self.old.nonce have (filled base self.old) (byte ∷ more)) ≡ goes_on self.new
            base more }
        ensures text { IsInText self.new.place → ⊥ }
        ensures quiet { IsQuiet self.old → IsQuiet self.new }
    {
        if have >= 32 {
            self.place = Place::Faulty;
        } else {
            put_byte(&mut self.nonce, have as usize, byte);
            if have == 31 {
                self.client_nonce = Some(self.nonce);
                self.place = Place::Whole;
            } else {
                self.place = Place::InNonce(have + 1);
            }
        }
    }

    /// The bytes of this field so far.
    fn put(&mut self, text: Text, octets: &'a [u8])
        ensures fields { (base : TsRequest) →
            filled base self.new ≡ with_text text (filled base self.old) octets.now }
        ensures nonce { self.new.nonce ≡ self.old.nonce }
    {
        match text {
            Text::NegoTokens => self.nego_tokens = Slot::Here(octets),
            Text::AuthInfo => self.auth_info = Slot::Here(octets),
            Text::PubKeyAuth => self.pub_key_auth = Slot::Here(octets),
        }
    }

    /// Reads the field's `len` bytes, or as many as there are; returns what follows them.
    fn octets(&mut self, text: Text, len: usize, rest: &'a [u8]) -> &'a [u8]
        requires { len < 2 ^ 32 }
        ensures goes { (base : TsRequest) (more : List ℕ) → answered
            (behind (Element.Required (Inner.Octets text)) (filled base self.old) len
            (rest.now ++ more)) ≡ goes_on self.new base
            (result.now ++ more) }
        ensures text { IsInText self.new.place → result.now ≡ [] }
        ensures shorter { length result.now ≤ length rest.now }
    {
        if len <= rest.len() {
            let (here, behind) = rest.split_at(len);
            self.put(text, here);
            self.place = Place::AtTag(Element::Optional(after_text(text)));
            behind
        } else {
            self.put(text, rest);
            self.place = Place::InText(text, (len - rest.len() - 1) as u32);
            rest.split_at(rest.len()).1
        }
    }

    /// What follows the length of an element.
    fn behind(&mut self, element: Element, len: u32, rest: &'a [u8]) -> &'a [u8]
        ensures goes { (base : TsRequest) (more : List ℕ) → answered
            (behind element (filled base self.old) len (rest.now ++ more)) ≡ goes_on self.new base
            (result.now ++ more) }
        ensures text { IsInText self.new.place → result.now ≡ [] }
        ensures shorter { length result.now ≤ length rest.now }
        ensures quiet { IsQuiet self.old → (IsOctetsElement element → ⊥) → IsQuiet self.new
            × (IsWithout 0x04 rest.now → IsWithout 0x04 result.now) }
    {
        match element {
            Element::Optional(field) => {
                self.place = Place::AtTag(Element::Required(inside(field)));
                rest
            }
            Element::Required(inner) => self.inside(inner, len, rest),
        }
    }

    fn inside(&mut self, inner: Inner, len: u32, rest: &'a [u8]) -> &'a [u8]
        ensures goes { (base : TsRequest) (more : List ℕ) → answered
            (behind (Element.Required inner) (filled base self.old) len (rest.now ++ more)) ≡
            goes_on self.new base (result.now ++ more) }
        ensures text { IsInText self.new.place → result.now ≡ [] }
        ensures shorter { length result.now ≤ length rest.now }
        ensures quiet { IsQuiet self.old → (IsOctetsHeader inner → ⊥) → IsQuiet self.new
            × (IsWithout 0x04 rest.now → IsWithout 0x04 result.now) }
    {
        self.place = match inner {
            Inner::Octets(text) => return self.octets(text, len as usize, rest),
            Inner::Version => Place::AtTag(Element::Required(Inner::VersionNumber)),
            Inner::TokenList => Place::AtTag(Element::Required(Inner::TokenItem)),
            Inner::TokenItem => Place::AtTag(Element::Required(Inner::Token)),
            Inner::Token => Place::AtTag(Element::Required(Inner::Octets(Text::NegoTokens))),
            Inner::VersionNumber => version_place(len),
            Inner::CodeNumber => code_place(len),
            Inner::NonceOctets => return self.nonce_octets(len, rest),
        };
        rest
    }

    /// Reads the nonce, at once if it is whole in the piece.
    fn nonce_octets(&mut self, len: u32, rest: &'a [u8]) -> &'a [u8]
        // Where reading goes on.
        ensures goes { (base : TsRequest) (more : List ℕ) → answered
            (behind (Element.Required Inner.NonceOctets) (filled base self.old) len
            (rest.now ++ more)) ≡ goes_on self.new base
            (result.now ++ more) }
        ensures text { IsInText self.new.place → ⊥ }
        ensures shorter { length result.now ≤ length rest.now }
        // Without an OCTET STRING.
        ensures quiet { IsQuiet self.old → IsQuiet self.new }
        ensures without { IsWithout 0x04 rest.now → IsWithout 0x04 result.now }
    {
        if len != 32 || rest.len() < 32 {
            self.place = nonce_place(len);
            return rest;
        }
        let (here, behind) = rest.split_at(32);
        self.nonce.copy_from_slice(here);
        self.client_nonce = Some(self.nonce);
        self.place = Place::Whole;
        behind
    }

    fn length_byte(
        &mut self,
        element: Element,
        part: LengthPart,
        byte: u8,
        rest: &'a [u8],
    ) -> &'a [u8]
        ensures goes { (base : TsRequest) (more : List ℕ) → answered
            (length_from element part (filled base self.old) (byte ∷ (rest.now ++ more))) ≡ goes_on
            self.new base (result.now ++ more) }
        ensures text { IsInText self.new.place → result.now ≡ [] }
        ensures shorter { length result.now ≤ length rest.now }
        ensures quiet { IsQuiet self.old → (IsOctetsElement element → ⊥) → IsQuiet self.new
            × (IsWithout 0x04 rest.now → IsWithout 0x04 result.now) }
    {
        match next_length(part, byte) {
            LengthStep::Part(part) => {
                self.place = Place::InLength(element, part);
                rest
            }
            LengthStep::Known(len) => self.behind(element, len, rest),
            LengthStep::Bad => {
                self.place = Place::Faulty;
                rest
            }
        }
    }

    /// Reads one byte, and as many of `rest` as it settles; returns what follows them.
    fn step(&mut self, byte: u8, rest: &'a [u8]) -> &'a [u8]
        // What must hold before.
        requires { IsInText self.old.place → ⊥ }
        // Where reading goes on.
        ensures goes { (base : TsRequest) (more : List ℕ) →
            goes_on self.old base (byte ∷ (rest.now ++ more)) ≡ goes_on self.new base
            (result.now ++ more) }
        ensures text { IsInText self.new.place → result.now ≡ [] }
        ensures shorter { length result.now ≤ length rest.now }
        // Without an OCTET STRING.
        ensures quiet { IsQuiet self.old → (byte ≡ 0x04 → ⊥) → IsWithout 0x04 rest.now →
            IsQuiet self.new × IsWithout 0x04 result.now }
    {
        match self.place {
            Place::AtTag(Element::Optional(field)) => self.at_field(field, byte),
            Place::AtTag(Element::Required(inner)) => self.expect(inner, byte),
            Place::InLength(element, part) => return self.length_byte(element, part, byte, rest),
            Place::InVersion(more, value) => self.version_byte(more, value, byte),
            Place::InCode(more, value) => self.code_byte(more, value, byte),
            Place::InText(_, _) => {}
            Place::InNonce(have) => self.nonce_byte(have, byte),
            Place::Whole | Place::Faulty => return rest.split_at(rest.len()).1,
        }
        rest
    }

    /// Walks through the whole piece. The walk is in no OCTET STRING, unless the piece is empty.
    pub(crate) fn advance(&mut self, piece: &'a [u8])
        requires { IsInText self.old.place → piece.now ≡ [] }
        ensures goes { (base : TsRequest) (more : List ℕ) →
            goes_on self.old base (piece.now ++ more) ≡ goes_on self.new base more }
        ensures quiet { IsQuiet self.old → IsWithout 0x04 piece.now → IsQuiet self.new }
    {
        let mut rest = piece;
        while let Some((byte, behind)) = first_byte(rest) {
            rest = self.step(byte, behind);
        }
    }
}

/// What is inside a field.
pub(crate) fn inside(field: Field) -> Inner
    ensures { (r : TsRequest) (len : ℕ) (more : List ℕ) →
        behind (Element.Optional field) r len more ≡ from_inner result r more }
{
    match field {
        Field::Nego => Inner::TokenList,
        Field::Auth => Inner::Octets(Text::AuthInfo),
        Field::Key => Inner::Octets(Text::PubKeyAuth),
        Field::Code => Inner::CodeNumber,
        Field::Nonce => Inner::NonceOctets,
    }
}

/// The field after this one.
pub(crate) fn after_text(text: Text) -> Field
    ensures { (r : TsRequest) (octets more : List ℕ) →
        text_then text r (octets, more) ≡ from_field result (with_text text r octets) more }
{
    match text {
        Text::NegoTokens => Field::Auth,
        Text::AuthInfo => Field::Key,
        Text::PubKeyAuth => Field::Code,
    }
}

pub(crate) fn version_place(len: u32) -> Place
    ensures goes { (nonce : List ℕ) (r : TsRequest) (more : List ℕ) →
        behind (Element.Required Inner.VersionNumber) r len more ≡ rest_at nonce result r more }
    ensures text { IsInText result → ⊥ }
    ensures quiet { Opened result → ⊥ }
{
    if is_integer_size(len) {
        Place::InVersion(len - 1, 0)
    } else {
        Place::Faulty
    }
}

pub(crate) fn code_place(len: u32) -> Place
    ensures goes { (nonce : List ℕ) (r : TsRequest) (more : List ℕ) →
        behind (Element.Required Inner.CodeNumber) r len more ≡ rest_at nonce result r more }
    ensures text { IsInText result → ⊥ }
    ensures quiet { Opened result → ⊥ }
{
    if is_integer_size(len) {
        Place::InCode(len - 1, 0)
    } else {
        Place::Faulty
    }
}

pub(crate) fn nonce_place(len: u32) -> Place
    ensures goes { (nonce : List ℕ) (r : TsRequest) (more : List ℕ) →
        behind (Element.Required Inner.NonceOctets) r len more ≡ rest_at nonce result r more }
    ensures text { IsInText result → ⊥ }
    ensures quiet { Opened result → ⊥ }
{
    if len == 32 {
        Place::InNonce(0)
    } else {
        Place::Faulty
    }
}
