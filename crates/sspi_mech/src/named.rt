//! Messages that begin with two letters, and those that carry a name.
ghost use Rattle.std.specs.Prelude.{◌≡◌, ◌<◌, ◌^◌, ◌++◌, length, option_map, option_copied};
ghost use Rattle.std.specs.Prelude.{if◌then◌else◌, IfOk, Some, None};
ghost use Rattle.std.specs.Str.{is_utf8};
ghost use Rattle.sspi_mech.specs.Named.{after_letters, read_block, named_message, read_named};

use std::alloc::{AllocError, Global};

const BLOCK_LENGTH: usize = 32;

/// The most bytes that the name in a message can have.
pub(crate) const LONGEST_NAME: usize = 65535;

/// What follows these letters.
pub(crate) fn after_letters<'a>(letters: &[u8; 2], message: &'a [u8]) -> Option<&'a [u8]>
    ensures { option_copied result ≡ after_letters letters.now message.now }
{
    message.strip_prefix(letters)
}

/// These letters followed by a text.
pub(crate) fn lettered(alloc: Global, letters: &[u8; 2], text: &[u8]) -> Result<Vec<u8>, AllocError>
    ensures { IfOk result (λ message. message.items ≡ letters.now ++ text.now) }
{
    let mut message = Vec::with_capacity(alloc, letters.len() + text.len())?;
    message.extend_from_slice(letters)?;
    message.extend_from_slice(text)?;
    Ok(message)
}

/// The 32 bytes after these letters, if nothing else follows them.
pub(crate) fn read_block<'a>(letters: &[u8; 2], message: &'a [u8]) -> Option<&'a [u8; 32]>
    ensures { option_copied result ≡ read_block letters.now message.now }
{
    after_letters(letters, message)?.as_array()
}

/// A message with the length of a name, the name, and 32 bytes.
pub(crate) fn named_message(
    alloc: Global,
    letters: &[u8; 2],
    name: &str,
    body: &[u8; 32],
) -> Result<Vec<u8>, AllocError>
    requires { length name.now < 2 ^ 16 }
    ensures { IfOk result (λ message. message.items ≡ named_message letters.now name.now body.now) }
{
    let length = [(name.len() % 256) as u8, (name.len() / 256) as u8];
    let mut message = Vec::with_capacity(
        alloc,
        letters.len() + length.len() + name.len() + BLOCK_LENGTH,
    )?;
    message.extend_from_slice(letters)?;
    message.extend_from_slice(&length)?;
    message.extend_from_slice(name.as_bytes())?;
    message.extend_from_slice(body)?;
    Ok(message)
}

/// The bytes of the name in such a message, and the 32 bytes.
pub(crate) fn read_named<'a>(
    letters: &[u8; 2],
    message: &'a [u8],
) -> Option<(&'a [u8], &'a [u8; 32])>
    ensures { option_map (λ read. record { name = read.0.now; body = read.1.now })
        result ≡ read_named letters.now message.now }
{
    let body = after_letters(letters, message)?;
    let [low, high, rest @ ..] = body else {
        return None;
    };
    let length = usize::from(*low) + 256 * usize::from(*high);
    if rest.len() != length + BLOCK_LENGTH {
        return None;
    }
    let (name, block) = rest.split_at(length);
    Some((name, block.as_array()?))
}

/// The text that the bytes are, if they are UTF-8.
pub(crate) fn text_in(bytes: &[u8]) -> Option<&str>
    ensures { option_copied result ≡ (if is_utf8 bytes.now then Some bytes.now else None) }
{
    match str::from_utf8(bytes) {
        Ok(text) => Some(text),
        Err(_) => None,
    }
}
