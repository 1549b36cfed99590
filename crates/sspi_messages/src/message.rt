//! Messages in buffers: EncryptMessage, DecryptMessage, MakeSignature and VerifySignature of SSPI.
//!
//! Each call takes the first buffer without flags of each type that it names. It neither reads nor
//! changes any other buffer.
ghost use Rattle.std.specs.Prelude.{◌≡◌, ◌≤◌, ◌++◌, take, drop, length, IfOk, IfErr, OnOk, OnErr};
ghost use Rattle.std.specs.Prelude.{Some, None, IsSome};
ghost use Rattle.sspi_types.specs.declared.buffer_type.BufferType.TheVariants.{Stream};
ghost use Rattle.sspi_messages.specs.Buffers.{bytes_in};
ghost use Rattle.sspi_mech.specs.Calls.{ToSeal};
ghost use Rattle.sspi_messages.specs.Messages.{if_tagged, to_encrypt, to_decrypt, to_sign};
ghost use Rattle.sspi_messages.specs.Messages.{to_verify};
ghost use Rattle.sspi_messages.specs.Messages.{Encrypts, Seals, Decrypts, Opens, Signs, Verifies};
ghost use Rattle.sspi_messages.specs.Messages.{Refuses, IsRefusal, IsJudged};

use crate::buffers::{bytes_in, pair_mut};
use crate::protects::Protects;
use bitflags::Flags;
use sspi_types::{
    BufferType, Bytes, DecryptionFlags, Error, ErrorKind, Reason, SecurityBuffer, SecurityStatus,
};

// The length in bytes of the tag with which a blob begins.
const TAG_LENGTH: usize = 16;

/// Seals the text in Data as the next message. The first 16 bytes of the blob go to Token, and the
/// rest stays in Data.
///
/// `InvalidToken` if Data or Token is missing, before the context is asked; otherwise as the
/// context refuses to seal. After a refusal the context, the number of its next message and all
/// buffers are as they were, even when out of memory.
pub fn encrypt_message<P: Protects>(
    context: &mut P,
    message: &mut [SecurityBuffer],
) -> Result<SecurityStatus, Error>
    ensures status { IfOk result (λ status. status ≡ SecurityStatus.Ok) }
    ensures sealed { IfOk result (λ status. Encrypts P.protecting context.old message.old
        context.new message.new) }
    ensures refused { IfErr result (λ error. Refuses P.protecting (to_encrypt message.old)
        context.old error context.new) }
    ensures buffers { OnErr result (message.new ≡ message.old) }
{
    let Some((token, data)) = pair_mut(message, BufferType::Token, BufferType::Data) else {
        return Err(no_buffer());
    };
    let blob = seal_with_room(context, &mut token.buffer, data.buffer.as_slice())?;
    leave(blob, &mut token.buffer, &mut data.buffer);
    Ok(SecurityStatus::Ok)
}

// Seals a text once `token` has room for the tag: memory must not run out after the number of a
// message is used.
fn seal_with_room<P: Protects>(
    context: &mut P,
    token: &mut Bytes,
    text: &[u8],
) -> Result<Vec<u8>, Error>
    ensures sealed { IfOk result (λ blob. Seals P.protecting context.old text.now blob.items
        context.new) }
    ensures room { OnOk result (16 ≤ length token.new) }
    ensures refused { IfErr result (λ error. Refuses P.protecting (Some (ToSeal text.now))
        context.old error context.new) }
    ensures same { OnErr result (token.new ≡ token.old) }
{
    let length = token.len();
    token.push_slice(&[0; TAG_LENGTH])?;
    match context.seal(text) {
        Ok(blob) => Ok(blob),
        Err(error) => {
            token.truncate(length);
            Err(error)
        }
    }
}

// Leaves the tag of a blob in `token`, which has room for it, and what follows the tag in `rest`.
fn leave(blob: Vec<u8>, token: &mut Bytes, rest: &mut Bytes)
    requires tagged { 16 ≤ length blob.items }
    requires room { 16 ≤ length token.old }
    ensures tag { token.new ≡ take 16 blob.items }
    ensures behind { rest.new ≡ drop 16 blob.items }
{
    let (tag, _) = blob.split_at(TAG_LENGTH);
    token.overwrite(0, tag);
    token.truncate(TAG_LENGTH);
    *rest = Bytes::from_vec(behind_tag(blob));
}

/// Opens the peer's next message and leaves its text in Data. The blob is the bytes of Stream, or,
/// without one, those of Token followed by those of Data. Answers no flags.
///
/// `InvalidToken`, before the context is asked, if Data or both Stream and Token are missing, or if
/// the blob has fewer than 16 bytes; otherwise as the context refuses to open. Out of memory never
/// takes the place of the refusal of a blob in Stream; Token and Data are joined first, which
/// allocates. After a refusal the context and all buffers are as they were.
pub fn decrypt_message<P: Protects>(
    context: &mut P,
    message: &mut [SecurityBuffer],
) -> Result<DecryptionFlags, Error>
    ensures flags { IfOk result (λ flags. flags.0 ≡ 0) }
    ensures opened { IfOk result (λ flags. Decrypts P.protecting context.old message.old context.new
        message.new) }
    ensures refused { IfErr result (λ error. Refuses P.protecting (to_decrypt message.old)
        context.old error context.new) }
    ensures judged { IfErr result (λ error. IsSome (bytes_in Stream message.old) →
        IsJudged P.protecting context.old (to_decrypt message.old) error.error_type) }
    ensures buffers { OnErr result (message.new ≡ message.old) }
{
    if let Some((stream, data)) = pair_mut(message, BufferType::Stream, BufferType::Data) {
        let text = open_stream(context, stream.buffer.as_slice())?;
        data.buffer = Bytes::from_vec(text);
        return Ok(DecryptionFlags::from_bits_retain(0));
    }
    let Some((token, data)) = pair_mut(message, BufferType::Token, BufferType::Data) else {
        return Err(no_buffer());
    };
    let text = open_parts(context, &mut token.buffer, data.buffer.as_slice())?;
    data.buffer = Bytes::from_vec(text);
    Ok(DecryptionFlags::from_bits_retain(0))
}

fn open_stream<P: Protects>(context: &mut P, blob: &[u8]) -> Result<Vec<u8>, Error>
    ensures opened { IfOk result (λ text. Opens P.protecting context.old blob.now text.items
        context.new) }
    ensures refused { IfErr result (λ error. Refuses P.protecting (if_tagged blob.now) context.old
        error context.new) }
    ensures judged { IfErr result (λ error. IsJudged P.protecting context.old (if_tagged blob.now)
        error.error_type) }
{
    if blob.len() < TAG_LENGTH {
        return Err(short_blob());
    }
    context.unseal(blob)
}

// Opens the two parts joined together. They are joined in the memory of the first, which is then
// restored.
fn open_parts<P: Protects>(
    context: &mut P,
    first: &mut Bytes,
    second: &[u8],
) -> Result<Vec<u8>, Error>
    ensures opened { IfOk result (λ text. Opens P.protecting context.old (first.old ++ second.now)
        text.items context.new) }
    ensures refused { IfErr result (λ error.
        Refuses P.protecting (if_tagged (first.old ++ second.now)) context.old error context.new) }
    ensures same { first.new ≡ first.old }
{
    let length = first.len();
    if second.len() < TAG_LENGTH.saturating_sub(length) {
        return Err(short_blob());
    }
    first.push_slice(second)?;
    let opened = context.unseal(first.as_slice());
    first.truncate(length);
    opened
}

/// Leaves in Token the MIC of the text in Data, as the next of the context's MICs.
///
/// `InvalidToken` if Data or Token is missing, before the context is asked; otherwise as the
/// context refuses to sign. After a refusal the context and all buffers are as they were.
pub fn make_signature<P: Protects>(
    context: &mut P,
    message: &mut [SecurityBuffer],
) -> Result<(), Error>
    ensures signed { IfOk result (λ _. Signs P.protecting context.old message.old context.new
        message.new) }
    ensures refused { IfErr result (λ error. Refuses P.protecting (to_sign message.old) context.old
        error context.new) }
    ensures buffers { OnErr result (message.new ≡ message.old) }
{
    let Some((token, data)) = pair_mut(message, BufferType::Token, BufferType::Data) else {
        return Err(no_buffer());
    };
    let mic = context.sign(data.buffer.as_slice())?;
    token.buffer = Bytes::from_vec(mic);
    Ok(())
}

/// Checks that Token is the MIC that the peer made of the text in Data, as the next of its MICs. No
/// buffer is changed.
///
/// `InvalidToken` if Data or Token is missing, before the context is asked; otherwise as the
/// context refuses to verify. It allocates nothing. After a refusal the context is as it was.
pub fn verify_signature<P: Protects>(
    context: &mut P,
    message: &[SecurityBuffer],
) -> Result<(), Error>
    ensures verified { IfOk result (λ _. Verifies P.protecting context.old message.now
        context.new) }
    ensures refused { IfErr result (λ error. Refuses P.protecting (to_verify message.now)
        context.old error context.new) }
    ensures exact { IfErr result (λ error. IsRefusal P.protecting context.old
        (to_verify message.now) error.error_type) }
{
    match (
        bytes_in(message, BufferType::Token),
        bytes_in(message, BufferType::Data),
    ) {
        (Some(mic), Some(text)) => context.verify(mic, text),
        (_, _) => Err(no_buffer()),
    }
}

// What follows the tag, in the memory of the blob.
fn behind_tag(blob: Vec<u8>) -> Vec<u8>
    requires { 16 ≤ length blob.items }
    ensures { result.items ≡ drop 16 blob.items }
{
    let mut rest = blob;
    let length = rest.len() - TAG_LENGTH;
    rest.rotate_left(TAG_LENGTH);
    rest.truncate(length);
    rest
}

fn no_buffer() -> Error
    ensures { result ≡ record {
      error_type = ErrorKind.InvalidToken;
      description = Reason.NoBuffer;
      nstatus = None;
    } }
{
    Error::new(ErrorKind::InvalidToken, Reason::NoBuffer)
}

fn short_blob() -> Error
    ensures { result ≡ record {
      error_type = ErrorKind.InvalidToken;
      description = Reason.ShortBlob;
      nstatus = None;
    } }
{
    Error::new(ErrorKind::InvalidToken, Reason::ShortBlob)
}
