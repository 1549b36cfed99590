//! The position, in the grammar of a request, of a reader that is fed pieces.

/// The part of a length that is still to come.
#[derive(Clone, Copy)]
pub(crate) enum LengthPart {
    /// All of it.
    First,
    /// Three octets.
    Three,
    /// Two octets, after this one.
    Two(u8),
    /// One octet, after octets with this value.
    One(u16),
}

/// A length after one more byte.
pub(crate) enum LengthStep {
    /// This part is still to come.
    Part(LengthPart),
    /// The length is whole.
    Known(u32),
    /// The length is refused.
    Bad,
}

/// The fields that are OCTET STRINGs of any length.
#[derive(Clone, Copy)]
pub(crate) enum Text {
    NegoTokens,
    AuthInfo,
    PubKeyAuth,
}

/// The fields after the version, which may be absent.
#[derive(Clone, Copy)]
pub(crate) enum Field {
    Nego,
    Auth,
    Key,
    Code,
    Nonce,
}

/// The elements that are required at their position in the grammar.
#[derive(Clone, Copy)]
pub(crate) enum Inner {
    Version,
    VersionNumber,
    TokenList,
    TokenItem,
    Token,
    Octets(Text),
    CodeNumber,
    NonceOctets,
}

/// An identifier octet with its length.
#[derive(Clone, Copy)]
pub(crate) enum Element {
    Optional(Field),
    Required(Inner),
}

/// What comes next in a request's content.
#[derive(Clone, Copy)]
pub(crate) enum Place {
    /// The identifier octet of this element, or of a later one.
    AtTag(Element),
    /// The length of this element.
    InLength(Element, LengthPart),
    /// One byte of the version and this many more, after bytes with these low 32 bits.
    InVersion(u32, u32),
    /// One byte of the code and this many more, after bytes with these low 32 bits.
    InCode(u32, u32),
    /// One byte of this field and this many more.
    InText(Text, u32),
    /// The nonce, of which this many bytes were read.
    InNonce(u32),
    /// Only bytes that are ignored.
    Whole,
    /// Nothing that undoes the first fault.
    Faulty,
}

/// The effect of one byte at a place.
pub(crate) enum Next {
    /// This place; the fields stay as they are.
    At(Place),
    /// The version is complete, with these low 32 bits.
    Version(u32),
    /// The code is complete, with these low 32 bits.
    Code(u32),
    /// This field begins, with this many bytes.
    Begins(Text, u32),
    /// A walk has to decide.
    Walked,
}

/// What comes next in a message.
#[derive(Clone, Copy)]
pub(crate) enum Stage {
    /// The identifier octet of the outer header.
    OuterTag,
    /// The length in the outer header.
    OuterLength(LengthPart),
    /// This many bytes of the content, from this place on.
    Content(u32, Place),
    /// Nothing that makes the outer header valid.
    Refused,
}
