//! A TSRequest, field by field (MS-CSSP 2.2.1).
ghost use Rattle.std.specs.Prelude.{◌≡◌, string_bytes, OnOk, IfOk, option_map};
ghost use Rattle.sspi_explain.specs.Request.{body_told, client_nonce_told, error_code_told};
ghost use Rattle.sspi_explain.specs.Request.{nego_tokens_told, nested_fields, nested_text};
ghost use Rattle.sspi_explain.specs.Request.{octets_told};
ghost use Rattle.sspi_explain.specs.Pieces.{header_told};
ghost use Rattle.sspi_explain.specs.Request.{as_ended, request_told, token_inside, version_told};
ghost use Rattle.sspi_explain.specs.Request.{with_fields, with_token};
ghost use Rattle.sspi_explain.specs.Told.{Tells, TellsSome};

use crate::codes::code_text;
use crate::depth::Depth;
use crate::field::{Field, Form};
use crate::page::Page;
use crate::pieces::{bytes, element, header, low, nonce, there};
use crate::place::Place;
use crate::stop::{Fault, Stop};
use crate::texts::count_text;
use crate::token::{self, Kind};
use std::alloc::{AllocError, Global};

/// Explains the request that comes next, and what is ignored after it.
#[tactic(auto, unfolding(crate::specs::Request::request_told))]
pub(crate) fn tell_request(page: &mut Page, place: &mut Place<'_>) -> Result<(), Stop>
    ensures { TellsSome page.new place.new result (request_told page.old place.old) }
{
    let len = outer_header(page, place)?;
    let content = bytes(page, place, len, Field::Header)?;
    let mut body = Place::new(content, place.offset());
    tell_body(page, &mut body)?;
    page.ignored(page.depth, body.offset(), body.rest())?;
    page.ignored(page.depth, place.offset(), place.rest())?;
    Ok(())
}

/// The header of the request. Any fault of it counts as an early end.
fn outer_header(page: &mut Page, place: &mut Place<'_>) -> Result<u32, Stop>
    ensures { Tells (λ len. len) page.new place.new result
        (as_ended (header_told 0x30 Field.Header page.old place.old)) }
{
    match header(page, place, 0x30, Field::Header) {
        Ok(len) => Ok(len),
        Err(Stop::Refused(_)) => Err(Stop::Refused(Fault::Ended)),
        Err(Stop::OutOfMemory) => Err(Stop::OutOfMemory),
    }
}

#[tactic(auto, unfolding(crate::specs::Request::body_told))]
fn tell_body(page: &mut Page, place: &mut Place<'_>) -> Result<(), Stop>
    ensures { TellsSome page.new place.new result (body_told page.old place.old) }
{
    let version = tell_version(page, place)?;
    tell_nego_tokens(page, place)?;
    tell_octets(page, place, 0xA2, Field::AuthInfo)?;
    tell_octets(page, place, 0xA3, Field::PubKeyAuth)?;
    tell_error_code(page, place, version)?;
    tell_client_nonce(page, place, version)?;
    Ok(())
}

#[tactic(auto, unfolding(crate::specs::Request::version_told))]
fn tell_version(page: &mut Page, place: &mut Place<'_>) -> Result<u32, Stop>
    ensures { Tells (λ version. version) page.new place.new result
        (version_told page.old place.old) }
{
    let at = place.offset();
    header(page, place, 0xA0, Field::Version)?;
    let version = low(page, place, Field::Version)?;
    let value = format!(in page.alloc; "{version}")?;
    page.field(at, Field::Version, &value)?;
    Ok(version)
}

/// The first item of the list of tokens, and its fields if it is an SPNEGO token.
#[tactic(auto, unfolding(crate::specs::Request::nego_tokens_told))]
fn tell_nego_tokens(page: &mut Page, place: &mut Place<'_>) -> Result<(), Stop>
    ensures { TellsSome page.new place.new result (nego_tokens_told page.old place.old) }
{
    let at = place.offset();
    match there(page, place, 0xA1, Field::NegoTokens)? {
        None => Ok(()),
        Some(_) => {
            tell_token_inside(page, place, at)?;
            Ok(())
        }
    }
}

fn tell_token_inside(page: &mut Page, place: &mut Place<'_>, at: usize) -> Result<(), Stop>
    ensures { TellsSome page.new place.new result (token_inside at page.old place.old) }
{
    header(page, place, 0x30, Field::NegoTokens)?;
    header(page, place, 0x30, Field::NegoTokens)?;
    header(page, place, 0xA0, Field::NegoTokens)?;
    let content = element(page, place, 0x04, Field::NegoTokens)?;
    tell_token(page, at, content, place.offset())?;
    Ok(())
}

#[tactic(auto, unfolding(crate::specs::Request::with_token))]
fn tell_token(page: &mut Page, at: usize, content: &[u8], end: usize) -> Result<(), AllocError>
    ensures { OnOk result (page.new ≡ with_token at content.now end page.old) }
{
    let Some(kind) = token::kind_of(content) else {
        return page.content(at, Field::NegoTokens, content);
    };
    match nested(page.alloc, kind, content, end)? {
        None => page.content(at, Field::NegoTokens, content),
        Some(fields) => tell_nested(page, at, kind, content, &fields),
    }
}

fn tell_nested(
    page: &mut Page,
    at: usize,
    kind: Kind,
    content: &[u8],
    fields: &str,
) -> Result<(), AllocError>
    ensures { OnOk result (page.new ≡ with_fields kind fields.now at content.now page.old) }
{
    let value = nested_text(page.alloc, kind, content)?;
    page.field(at, Field::NegoTokens, &value)?;
    page.push(fields)
}

#[tactic(auto, unfolding(crate::specs::Request::nested_text))]
fn nested_text(alloc: Global, kind: Kind, content: &[u8]) -> Result<String, AllocError>
    ensures { IfOk result (λ text. string_bytes text ≡ nested_text kind content.now) }
{
    let count = count_text(alloc, content.len())?;
    let name = kind.name();
    let text = format!(in alloc; "{count} {name}")?;
    Ok(text)
}

/// The fields of the token of this kind with which a content begins, if it does.
#[tactic(auto, unfolding(crate::specs::Request::nested_fields))]
fn nested(
    alloc: Global,
    kind: Kind,
    content: &[u8],
    end: usize,
) -> Result<Option<String>, AllocError>
    ensures { IfOk result
        (λ fields. option_map (λ t. string_bytes t) fields ≡ nested_fields kind content.now end) }
{
    let mut page = Page::new(alloc, Form::Token, Depth::Two)?;
    let mut place = Place::new(content, end);
    match token::tell_token(&mut page, &mut place, kind) {
        Ok(()) => Ok(Some(page.text)),
        Err(Stop::Refused(_)) => Ok(None),
        Err(Stop::OutOfMemory) => Err(AllocError),
    }
}

#[tactic(auto, unfolding(crate::specs::Request::octets_told))]
fn tell_octets(page: &mut Page, place: &mut Place<'_>, tag: u8, field: Field) -> Result<(), Stop>
    ensures { TellsSome page.new place.new result (octets_told tag field page.old place.old) }
{
    let at = place.offset();
    match there(page, place, tag, field)? {
        None => Ok(()),
        Some(_) => {
            let content = element(page, place, 0x04, field)?;
            page.content(at, field, content)?;
            Ok(())
        }
    }
}

/// The code, from version 3 on.
#[tactic(auto, unfolding(crate::specs::Request::error_code_told))]
fn tell_error_code(page: &mut Page, place: &mut Place<'_>, version: u32) -> Result<(), Stop>
    ensures { TellsSome page.new place.new result (error_code_told version page.old place.old) }
{
    if version < 3 {
        return Ok(());
    }
    let at = place.offset();
    match there(page, place, 0xA4, Field::ErrorCode)? {
        None => Ok(()),
        Some(_) => {
            let code = low(page, place, Field::ErrorCode)?;
            let value = code_text(page.alloc, code)?;
            page.field(at, Field::ErrorCode, &value)?;
            Ok(())
        }
    }
}

/// The nonce, from version 5 on.
#[tactic(auto, unfolding(crate::specs::Request::client_nonce_told))]
fn tell_client_nonce(page: &mut Page, place: &mut Place<'_>, version: u32) -> Result<(), Stop>
    ensures { TellsSome page.new place.new result (client_nonce_told version page.old place.old) }
{
    if version < 5 {
        return Ok(());
    }
    let at = place.offset();
    match there(page, place, 0xA5, Field::ClientNonce)? {
        None => Ok(()),
        Some(_) => {
            let nonce = nonce(page, place, Field::ClientNonce)?;
            page.content(at, Field::ClientNonce, nonce)?;
            Ok(())
        }
    }
}
