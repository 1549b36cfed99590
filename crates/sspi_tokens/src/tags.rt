//! The identifier octets of SPNEGO's fields.

pub(crate) use sspi_ber::identifier::{OCTET_STRING, SEQUENCE};

/// The identifier octet of an OBJECT IDENTIFIER.
pub(crate) const OBJECT_IDENTIFIER: u8 = 0x06;

/// The identifier octet of an ENUMERATED.
pub(crate) const ENUMERATED: u8 = 0x0A;

/// The identifier octet of the GSS-API frame of an initial token (RFC 2743, section 3.1).
pub(crate) const INITIAL_TOKEN: u8 = 0x60;

/// The identifier octets of the constructed context-specific tags.
pub(crate) const FIELD_0: u8 = 0xA0;

pub(crate) const FIELD_1: u8 = 0xA1;

pub(crate) const FIELD_2: u8 = 0xA2;

pub(crate) const FIELD_3: u8 = 0xA3;
