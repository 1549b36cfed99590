//! Reads values in hex.

ghost use Rattle.std.specs.Prelude.{◌≡◌};
ghost use Rattle.sspi_scenario.specs.Hex.{hex_of, hex_byte_of, hex_of_size};
ghost use Rattle.sspi_scenario.specs.Reads.{Reads};

use crate::error::LineError;
use sspi_types::Bytes;
use std::alloc::Global;

/// The bytes that a text of hex digits encodes, in upper or lower case.
pub fn bytes(alloc: Global, text: &str) -> Result<Bytes, LineError>
    ensures { Reads result (hex_of text.now) }
{
    Ok(Bytes::from_vec(hex::decode(alloc, text)?))
}

/// The one byte that two hex digits encode.
pub fn byte(text: &str) -> Option<u8>
    ensures { result ≡ hex_byte_of text.now }
{
    let mut bytes = [0; 1];
    match hex::decode_to_slice(text, &mut bytes) {
        Ok(()) => Some(bytes[0]),
        Err(_) => None,
    }
}

/// The 32 bytes that 64 hex digits encode.
pub fn bytes_32(text: &str) -> Option<[u8; 32]>
    ensures { result ≡ hex_of_size 32 text.now }
{
    let mut bytes = [0; 32];
    match hex::decode_to_slice(text, &mut bytes) {
        Ok(()) => Some(bytes),
        Err(_) => None,
    }
}

/// The eight bytes that 16 hex digits encode.
pub fn bytes_8(text: &str) -> Option<[u8; 8]>
    ensures { result ≡ hex_of_size 8 text.now }
{
    let mut bytes = [0; 8];
    match hex::decode_to_slice(text, &mut bytes) {
        Ok(()) => Some(bytes),
        Err(_) => None,
    }
}
