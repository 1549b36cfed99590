//! Identifier octets of BER (X.690 8.1.2): classes, tag numbers, primitive or constructed.

ghost use Rattle.std.specs.Prelude.{◌≡◌};
ghost use Rattle.sspi_ber.specs.Identifier.{universal_identifier, contextual_identifier};

/// Whether an encoding is primitive or constructed (bit 6 of the identifier octet, X.690 8.1.2.5).
#[derive(Clone, Copy, Debug, PartialEq, Eq)]
pub enum Pc {
    /// The content is the value itself.
    Primitive = 0x00,
    /// The content is further elements.
    Construct = 0x20,
}

/// The tag numbers of the universal class that are encoded here.
#[derive(Clone, Copy, Debug, PartialEq, Eq)]
pub enum Tag {
    /// BOOLEAN (X.690 8.2).
    Boolean = 0x01,
    /// INTEGER (X.690 8.3).
    Integer = 0x02,
    /// BIT STRING (X.690 8.6).
    BitString = 0x03,
    /// OCTET STRING (X.690 8.7).
    OctetString = 0x04,
    /// OBJECT IDENTIFIER (X.690 8.19).
    ObjectIdentifier = 0x06,
    /// ENUMERATED (X.690 8.4).
    Enumerated = 0x0A,
    /// SEQUENCE and SEQUENCE OF (X.690 8.9, 8.10).
    Sequence = 0x10,
}

/// The identifier octet of a SEQUENCE.
pub const SEQUENCE: u8 = 0x30;

/// The identifier octet of an INTEGER.
pub const INTEGER: u8 = 0x02;

/// The identifier octet of an OCTET STRING.
pub const OCTET_STRING: u8 = 0x04;

/// The bits of an identifier octet that hold the tag number.
const TAG_MASK: u8 = 0x1F;

/// The identifier octet of a universal tag.
pub fn universal_identifier(tag: Tag, pc: Pc) -> u8
    ensures { result ≡ universal_identifier tag pc }
{
    tag as u8 + pc as u8
}

/// The identifier octet of a context-specific tag, with the low five bits of `tagnum`.
pub fn contextual_identifier(tagnum: u8, pc: Pc) -> u8
    ensures { result ≡ contextual_identifier tagnum pc }
{
    0x80 + pc as u8 + (tagnum & TAG_MASK)
}
