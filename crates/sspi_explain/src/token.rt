//! A token of SPNEGO, field by field (RFC 4178 4.2).
ghost use Rattle.std.specs.Prelude.{◌≡◌, OnOk, IfOk, string_bytes};
ghost use Rattle.sspi_explain.specs.Token;
ghost use Rattle.sspi_explain.specs.Token.{frame_told, if_next, init_fields_told, init_told};
ghost use Rattle.sspi_explain.specs.Token.{inner_field, mech_told, mech_types_field};
ghost use Rattle.sspi_explain.specs.Token.{mechs_told};
ghost use Rattle.sspi_explain.specs.Token.{neg_state_field, octets_field, resp_fields_told};
ghost use Rattle.sspi_explain.specs.Token.{resp_told, state_text, token_told, unwanted_text};
ghost use Rattle.sspi_explain.specs.Token.{whole_field, with_mech, with_rest, with_rest_inside};
ghost use Rattle.sspi_explain.specs.Identifier.{identifier_text};
ghost use Rattle.sspi_explain.specs.Told.{Tells, TellsSome};

use crate::field::Field;
use crate::identifier::identifier_text;
use crate::page::Page;
use crate::pieces::{element, enter};
use crate::place::Place;
use crate::stop::{Fault, Stop};
use crate::texts::content_text;
use std::alloc::{AllocError, Global};

/// The two tokens.
#[derive(Clone, Copy)]
pub(crate) enum Kind {
    Init,
    Resp,
}

impl Kind {
    pub fn name(self) -> &'static str
        ensures { result.now ≡ Token.kind_name self }
    {
        match self {
            Kind::Init => "NegTokenInit",
            Kind::Resp => "NegTokenResp",
        }
    }
}

/// The kind of token that these bytes may be, by their first.
pub(crate) fn kind_of(content: &[u8]) -> Option<Kind>
    ensures { result ≡ Token.kind_of content.now }
{
    match content.first() {
        Some(0x60) => Some(Kind::Init),
        Some(0xA1) => Some(Kind::Resp),
        _ => None,
    }
}

/// Explains the token that comes next, and what is ignored after it.
#[tactic(auto, unfolding(crate::specs::Token::token_told))]
pub(crate) fn tell_token(page: &mut Page, place: &mut Place<'_>, kind: Kind) -> Result<(), Stop>
    ensures { Tells (λ it. it) page.new place.new result (token_told kind page.old place.old) }
{
    match kind {
        Kind::Init => {
            tell_init(page, place)?;
            tell_rest(page, place)?;
            Ok(())
        }
        Kind::Resp => {
            tell_resp(page, place)?;
            tell_rest(page, place)?;
            Ok(())
        }
    }
}

/// What is ignored after the elements of a content.
fn tell_rest(page: &mut Page, place: &Place<'_>) -> Result<(), AllocError>
    ensures { OnOk result (page.new ≡ with_rest place.now page.old) }
{
    page.ignored(page.depth, place.offset(), place.rest())
}

/// What is ignored inside a field.
fn tell_rest_inside(page: &mut Page, place: &Place<'_>) -> Result<(), AllocError>
    ensures { OnOk result (page.new ≡ with_rest_inside place.now page.old) }
{
    page.ignored(page.depth.deeper(), place.offset(), place.rest())
}

/// NegTokenInit in the frame of an initial token of the GSS-API (RFC 2743 3.1).
#[tactic(auto, unfolding(crate::specs::Token::init_told))]
fn tell_init(page: &mut Page, place: &mut Place<'_>) -> Result<(), Stop>
    ensures { TellsSome page.new place.new result (init_told page.old place.old) }
{
    let mut frame = enter(page, place, 0x60, Field::Header)?;
    tell_frame(page, &mut frame)?;
    let mut body = enter(page, &mut frame, 0xA0, Field::Header)?;
    let mut fields = enter(page, &mut body, 0x30, Field::Header)?;
    tell_init_fields(page, &mut fields)?;
    tell_rest(page, &fields)?;
    tell_rest(page, &body)?;
    tell_rest(page, &frame)?;
    Ok(())
}

#[tactic(auto, unfolding(crate::specs::Token::init_fields_told))]
fn tell_init_fields(page: &mut Page, place: &mut Place<'_>) -> Result<(), Stop>
    ensures { TellsSome page.new place.new result (init_fields_told page.old place.old) }
{
    tell_mech_types(page, place)?;
    tell_whole(page, place, 0xA1, Field::ReqFlags)?;
    tell_octets(page, place, 0xA2, Field::MechToken)?;
    tell_whole(page, place, 0xA3, Field::MechListMic)?;
    Ok(())
}

/// The identifier of the frame, which is that of SPNEGO.
#[tactic(auto, unfolding(crate::specs::Token::frame_told))]
fn tell_frame(page: &mut Page, frame: &mut Place<'_>) -> Result<(), Stop>
    ensures { TellsSome page.new frame.new result (frame_told page.old frame.old) }
{
    let at = frame.offset();
    let mech = element(page, frame, 0x06, Field::Header)?;
    if mech == [0x2b, 0x06, 0x01, 0x05, 0x05, 0x02].as_slice() {
        return Ok(());
    }
    let why = unwanted_text(page.alloc, mech)?;
    Err(page.refuse(at, Field::Header, Fault::Invalid, &why))
}

#[tactic(auto, unfolding(crate::specs::Token::unwanted_text))]
fn unwanted_text(alloc: Global, mech: &[u8]) -> Result<String, AllocError>
    ensures { IfOk result (λ text. string_bytes text ≡ unwanted_text mech.now) }
{
    let mech = identifier_text(alloc, mech)?;
    let text = format!(in alloc; "mechanism {mech}, SPNEGO wanted")?;
    Ok(text)
}

/// NegTokenResp.
#[tactic(auto, unfolding(crate::specs::Token::resp_told))]
fn tell_resp(page: &mut Page, place: &mut Place<'_>) -> Result<(), Stop>
    ensures { TellsSome page.new place.new result (resp_told page.old place.old) }
{
    let mut frame = enter(page, place, 0xA1, Field::Header)?;
    let mut fields = enter(page, &mut frame, 0x30, Field::Header)?;
    tell_resp_fields(page, &mut fields)?;
    tell_rest(page, &fields)?;
    tell_rest(page, &frame)?;
    Ok(())
}

#[tactic(auto, unfolding(crate::specs::Token::resp_fields_told))]
fn tell_resp_fields(page: &mut Page, place: &mut Place<'_>) -> Result<(), Stop>
    ensures { TellsSome page.new place.new result (resp_fields_told page.old place.old) }
{
    tell_neg_state(page, place)?;
    tell_supported_mech(page, place)?;
    tell_octets(page, place, 0xA2, Field::ResponseToken)?;
    tell_octets(page, place, 0xA3, Field::MechListMic)?;
    Ok(())
}

fn tell_mech_types(page: &mut Page, place: &mut Place<'_>) -> Result<(), Stop>
    ensures { TellsSome page.new place.new result
        (if_next 0xA0 mech_types_field page.old place.old) }
{
    if !place.is_next(0xA0) {
        return Ok(());
    }
    tell_mech_types_inside(page, place)?;
    Ok(())
}

#[tactic(auto, unfolding(crate::specs::Token::mech_types_field))]
fn tell_mech_types_inside(page: &mut Page, place: &mut Place<'_>) -> Result<(), Stop>
    ensures { TellsSome page.new place.new result (mech_types_field page.old place.old) }
{
    let at = place.offset();
    let mut field = enter(page, place, 0xA0, Field::MechTypes)?;
    let mut list = enter(page, &mut field, 0x30, Field::MechTypes)?;
    page.line(page.depth, at, Field::MechTypes.name())?;
    tell_mechs(page, &mut list)?;
    tell_rest_inside(page, &list)?;
    tell_rest_inside(page, &field)?;
    Ok(())
}

/// The mechanisms of a list, up to the first other tag.
fn tell_mechs(page: &mut Page, list: &mut Place<'_>) -> Result<(), Stop>
    ensures { TellsSome page.new list.new result (mechs_told page.old list.old) }
{
    'mechs: while list.is_next(0x06) {
        tell_mech(page, list)?;
    }
    Ok(())
}

#[tactic(auto, unfolding(crate::specs::Token::mech_told))]
fn tell_mech<'a>(page: &mut Page, list: &mut Place<'a>) -> Result<&'a [u8], Stop>
    ensures { Tells (λ mech. mech.now) page.new list.new result (mech_told page.old list.old) }
{
    let at = list.offset();
    let mech = element(page, list, 0x06, Field::MechTypes)?;
    let text = identifier_text(page.alloc, mech)?;
    page.line(page.depth.deeper(), at, &text)?;
    Ok(mech)
}

/// A field that the reader skips.
#[tactic(auto, unfolding(crate::specs::Token::whole_field))]
fn tell_whole(page: &mut Page, place: &mut Place<'_>, tag: u8, field: Field) -> Result<(), Stop>
    ensures { TellsSome page.new place.new result
        (if_next tag (whole_field tag field) page.old place.old) }
{
    if !place.is_next(tag) {
        return Ok(());
    }
    let at = place.offset();
    let content = element(page, place, tag, field)?;
    page.content(at, field, content)?;
    Ok(())
}

#[tactic(auto, unfolding(crate::specs::Token::inner_field))]
fn tell_octets(page: &mut Page, place: &mut Place<'_>, tag: u8, field: Field) -> Result<(), Stop>
    ensures { TellsSome page.new place.new result
        (if_next tag (octets_field tag field) page.old place.old) }
{
    if !place.is_next(tag) {
        return Ok(());
    }
    let at = place.offset();
    let mut inside = enter(page, place, tag, field)?;
    let content = element(page, &mut inside, 0x04, field)?;
    page.content(at, field, content)?;
    tell_rest_inside(page, &inside)?;
    Ok(())
}

#[tactic(auto, unfolding(crate::specs::Token::inner_field, crate::specs::Token::neg_state_field))]
fn tell_neg_state(page: &mut Page, place: &mut Place<'_>) -> Result<(), Stop>
    ensures { TellsSome page.new place.new result
        (if_next 0xA0 neg_state_field page.old place.old) }
{
    if !place.is_next(0xA0) {
        return Ok(());
    }
    let at = place.offset();
    let mut inside = enter(page, place, 0xA0, Field::NegState)?;
    let content = element(page, &mut inside, 0x0A, Field::NegState)?;
    let value = state_text(page.alloc, content)?;
    page.field(at, Field::NegState, &value)?;
    tell_rest_inside(page, &inside)?;
    Ok(())
}

#[tactic(auto, unfolding(crate::specs::Token::state_text))]
fn state_text(alloc: Global, content: &[u8]) -> Result<String, AllocError>
    ensures { IfOk result (λ text. string_bytes text ≡ state_text content.now) }
{
    match content {
        [0] => String::from_str(alloc, "accept-completed"),
        [1] => String::from_str(alloc, "accept-incomplete"),
        [2] => String::from_str(alloc, "reject"),
        [3] => String::from_str(alloc, "request-mic"),
        _ => {
            let content = content_text(alloc, content)?;
            format!(in alloc; "other {content}")
        }
    }
}

fn tell_supported_mech(page: &mut Page, place: &mut Place<'_>) -> Result<(), Stop>
    ensures { TellsSome page.new place.new result
        (if_next 0xA1 (inner_field 0xA1 0x06 Field.SupportedMech identifier_text) page.old
        place.old) }
{
    if !place.is_next(0xA1) {
        return Ok(());
    }
    tell_supported_mech_inside(page, place)?;
    Ok(())
}

#[tactic(auto, unfolding(crate::specs::Token::inner_field))]
fn tell_supported_mech_inside<'a>(page: &mut Page, place: &mut Place<'a>) -> Result<&'a [u8], Stop>
    ensures { Tells (λ mech. mech.now) page.new place.new result
        (inner_field 0xA1 0x06 Field.SupportedMech identifier_text page.old place.old) }
{
    let at = place.offset();
    let mut inside = enter(page, place, 0xA1, Field::SupportedMech)?;
    let mech = element(page, &mut inside, 0x06, Field::SupportedMech)?;
    push_mech(page, at, mech)?;
    tell_rest_inside(page, &inside)?;
    Ok(mech)
}

fn push_mech(page: &mut Page, at: usize, mech: &[u8]) -> Result<(), AllocError>
    ensures { OnOk result (page.new ≡ with_mech at mech.now page.old) }
{
    let text = identifier_text(page.alloc, mech)?;
    page.field(at, Field::SupportedMech, &text)
}
