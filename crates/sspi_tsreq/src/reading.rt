//! A request read in place, without allocating. So every refusal comes before any allocation.

ghost use Rattle.std.specs.Prelude.{◌≡◌};
ghost use Rattle.std.specs.Option.{option_copied};
ghost use Rattle.sspi_ber.specs.Pieces.{as_ended, field_at, header_at, tagged_at};
ghost use Rattle.sspi_ber.specs.Outside.{Gives, NeedsNoMemory};
ghost use Rattle.sspi_tsreq.specs.Parts.{seen};
ghost use Rattle.sspi_tsreq.specs.Grammar.{bare};
ghost use Rattle.sspi_tsreq.specs.Reading.{low_at, version_at, octets_at, token_at, code_at};
ghost use Rattle.sspi_tsreq.specs.Reading.{nonce_at, after_code, after_key};
ghost use Rattle.sspi_tsreq.specs.Reading.{after_auth, after_nego, after_version, body_at};
ghost use Rattle.sspi_tsreq.specs.Reading.{request_at};

use crate::parts::Parts;
use sspi_ber::{
    SliceSource, WireKind, read_element, read_header, read_integer, read_tag_or_absent,
};
use sspi_types::NStatusCode;

/// The low 32 bits of an INTEGER.
#[tactic(auto, unfolding(crate::specs::Reading::low_at))]
fn read_low(source: &mut SliceSource<'_>) -> Result<u32, WireKind>
    ensures read { Gives (λ low. low) source.new result (low_at source.old) }
    ensures memory { NeedsNoMemory result }
{
    let whole = read_integer(source)?;
    Ok((whole % 0x1_0000_0000) as u32)
}

#[tactic(auto, unfolding(sspi_ber::specs::Pieces::tagged_at))]
fn read_version(source: &mut SliceSource<'_>) -> Result<u32, WireKind>
    ensures read { Gives (λ version. version) source.new result (version_at source.old) }
    ensures memory { NeedsNoMemory result }
{
    read_header(source, 0xA0)?;
    read_low(source)
}

/// An OCTET STRING's bytes.
fn read_octets<'a>(source: &mut SliceSource<'a>) -> Result<&'a [u8], WireKind>
    ensures read { Gives (λ octets. octets.now) source.new result (octets_at source.old) }
    ensures memory { NeedsNoMemory result }
{
    read_element(source, 0x04)
}

#[inline(always)]
#[tactic(auto, unfolding(sspi_ber::specs::Pieces::field_at))]
fn read_octets_field<'a>(
    source: &mut SliceSource<'a>,
    tag: u8,
) -> Result<Option<&'a [u8]>, WireKind>
    ensures read { Gives (λ field. option_copied field) source.new result
        (field_at tag octets_at source.old) }
    ensures memory { NeedsNoMemory result }
{
    match read_tag_or_absent(source, tag)? {
        None => Ok(None),
        Some(_) => {
            let octets = read_octets(source)?;
            Ok(Some(octets))
        }
    }
}

/// The first item of the list of tokens.
#[tactic(auto, unfolding(sspi_ber::specs::Pieces::tagged_at))]
fn read_token<'a>(source: &mut SliceSource<'a>) -> Result<&'a [u8], WireKind>
    ensures read { Gives (λ token. token.now) source.new result (token_at source.old) }
    ensures memory { NeedsNoMemory result }
{
    read_header(source, 0x30)?;
    read_header(source, 0x30)?;
    read_header(source, 0xA0)?;
    read_octets(source)
}

#[tactic(auto, unfolding(sspi_ber::specs::Pieces::field_at))]
fn read_nego_field<'a>(source: &mut SliceSource<'a>) -> Result<Option<&'a [u8]>, WireKind>
    ensures read { Gives (λ field. option_copied field) source.new result
        (field_at 0xA1 token_at source.old) }
    ensures memory { NeedsNoMemory result }
{
    match read_tag_or_absent(source, 0xA1)? {
        None => Ok(None),
        Some(_) => {
            let token = read_token(source)?;
            Ok(Some(token))
        }
    }
}

#[tactic(auto, unfolding(sspi_ber::specs::Pieces::field_at, crate::specs::Reading::code_at))]
fn read_code_field(source: &mut SliceSource<'_>) -> Result<Option<NStatusCode>, WireKind>
    ensures read { Gives (λ field. field) source.new result (field_at 0xA4 code_at source.old) }
    ensures memory { NeedsNoMemory result }
{
    match read_tag_or_absent(source, 0xA4)? {
        None => Ok(None),
        Some(_) => {
            let code = read_low(source)?;
            Ok(Some(NStatusCode(code)))
        }
    }
}

#[tactic(auto, unfolding(crate::specs::Reading::nonce_at))]
fn read_nonce<'a>(source: &mut SliceSource<'a>) -> Result<&'a [u8; 32], WireKind>
    ensures read { Gives (λ nonce. nonce.now) source.new result (nonce_at source.old) }
    ensures memory { NeedsNoMemory result }
{
    let len = read_header(source, 0x04)?;
    if len != 32 {
        return Err(WireKind::InvalidData);
    }
    let text = source.take(32)?;
    match text.try_into() {
        Ok(nonce) => Ok(nonce),
        Err(_) => Err(WireKind::InvalidData),
    }
}

#[tactic(auto, unfolding(sspi_ber::specs::Pieces::field_at))]
fn read_nonce_field<'a>(source: &mut SliceSource<'a>) -> Result<Option<&'a [u8; 32]>, WireKind>
    ensures read { Gives (λ field. option_copied field) source.new result
        (field_at 0xA5 nonce_at source.old) }
    ensures memory { NeedsNoMemory result }
{
    match read_tag_or_absent(source, 0xA5)? {
        None => Ok(None),
        Some(_) => {
            let nonce = read_nonce(source)?;
            Ok(Some(nonce))
        }
    }
}

#[tactic(auto, unfolding(crate::specs::Reading::after_code))]
fn read_after_code<'a>(parts: &mut Parts<'a>, source: &mut SliceSource<'a>) -> Result<(), WireKind>
    ensures read { Gives (λ _. seen parts.new) source.new result
        (after_code (seen parts.old) source.old) }
    ensures memory { NeedsNoMemory result }
{
    parts.client_nonce = if parts.version >= 5 {
        read_nonce_field(source)?
    } else {
        None
    };
    Ok(())
}

#[tactic(auto, unfolding(crate::specs::Reading::after_key))]
fn read_after_key<'a>(parts: &mut Parts<'a>, source: &mut SliceSource<'a>) -> Result<(), WireKind>
    ensures read { Gives (λ _. seen parts.new) source.new result
        (after_key (seen parts.old) source.old) }
    ensures memory { NeedsNoMemory result }
{
    parts.error_code = if parts.version >= 3 {
        read_code_field(source)?
    } else {
        None
    };
    read_after_code(parts, source)
}

#[tactic(auto, unfolding(crate::specs::Reading::after_auth))]
fn read_after_auth<'a>(parts: &mut Parts<'a>, source: &mut SliceSource<'a>) -> Result<(), WireKind>
    ensures read { Gives (λ _. seen parts.new) source.new result
        (after_auth (seen parts.old) source.old) }
    ensures memory { NeedsNoMemory result }
{
    parts.pub_key_auth = read_octets_field(source, 0xA3)?;
    read_after_key(parts, source)
}

#[tactic(auto, unfolding(crate::specs::Reading::after_nego))]
fn read_after_nego<'a>(parts: &mut Parts<'a>, source: &mut SliceSource<'a>) -> Result<(), WireKind>
    ensures read { Gives (λ _. seen parts.new) source.new result
        (after_nego (seen parts.old) source.old) }
    ensures memory { NeedsNoMemory result }
{
    parts.auth_info = read_octets_field(source, 0xA2)?;
    read_after_auth(parts, source)
}

#[tactic(auto, unfolding(crate::specs::Reading::after_version))]
fn read_after_version<'a>(
    parts: &mut Parts<'a>,
    source: &mut SliceSource<'a>,
) -> Result<(), WireKind>
    ensures read { Gives (λ _. seen parts.new) source.new result
        (after_version (seen parts.old) source.old) }
    ensures memory { NeedsNoMemory result }
{
    parts.nego_tokens = read_nego_field(source)?;
    read_after_nego(parts, source)
}

#[tactic(auto, unfolding(crate::specs::Reading::body_at))]
fn read_body<'a>(source: &mut SliceSource<'a>) -> Result<Parts<'a>, WireKind>
    ensures read { Gives (λ parts. seen parts) source.new result (body_at source.old) }
    ensures memory { NeedsNoMemory result }
{
    let version = read_version(source)?;
    let mut parts: Parts<'a> = bare_parts(version);
    read_after_version(&mut parts, source)?;
    Ok(parts)
}

/// The parts of a request with this version and nothing else.
fn bare_parts<'a>(version: u32) -> Parts<'a>
    ensures { seen result ≡ bare version }
{
    Parts {
        version,
        nego_tokens: None,
        auth_info: None,
        pub_key_auth: None,
        error_code: None,
        client_nonce: None,
    }
}

fn read_outer_header(source: &mut SliceSource<'_>) -> Result<u32, WireKind>
    ensures read { Gives (λ len. len) source.new result (as_ended (header_at 0x30 source.old)) }
    ensures memory { NeedsNoMemory result }
{
    match read_header(source, 0x30) {
        Ok(len) => Ok(len),
        Err(_) => Err(WireKind::UnexpectedEof),
    }
}

/// The request that the source begins with.
#[tactic(auto, unfolding(crate::specs::Reading::request_at))]
pub(crate) fn read_request<'a>(source: &mut SliceSource<'a>) -> Result<Parts<'a>, WireKind>
    ensures read { Gives (λ parts. seen parts) source.new result (request_at source.old) }
    ensures memory { NeedsNoMemory result }
{
    let len = read_outer_header(source)?;
    let body = source.take(len as usize)?;
    read_body(&mut SliceSource::new(body))
}
