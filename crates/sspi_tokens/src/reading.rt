//! Reads tokens in place, without allocating, so that every refusal comes before any allocation.

ghost use Rattle.std.specs.Prelude.{◌≡◌};
ghost use Rattle.std.specs.Option.{option_copied, option_map};
ghost use Rattle.sspi_ber.specs.Outside.{Gives, NeedsNoMemory};
ghost use Rattle.sspi_ber.specs.Pieces.{element_at};
ghost use Rattle.sspi_tokens.specs.Parts.{oids_in, init_seen, targ_seen};
ghost use Rattle.sspi_tokens.specs.Reading.{is_next, around_at, optional_at, oids_at};
ghost use Rattle.sspi_tokens.specs.Reading.{mech_types_at, octets_at, result_at};
ghost use Rattle.sspi_tokens.specs.Reading.{init_fields_at, init_content_at, init_at};
ghost use Rattle.sspi_tokens.specs.Reading.{targ_fields_at, targ_at};

use crate::neg_result::NegResult;
use crate::oid::SPNEGO;
use crate::parts::{InitParts, TargParts};
use crate::tags::{
    ENUMERATED, FIELD_0, FIELD_1, FIELD_2, FIELD_3, INITIAL_TOKEN, OBJECT_IDENTIFIER, OCTET_STRING,
    SEQUENCE,
};
use sspi_ber::{SliceSource, WireKind, read_element};

pub(crate) fn is_next(source: &SliceSource<'_>, tag: u8) -> bool
    ensures { result ≡ is_next tag source.now }
{
    match source.rest().first() {
        None => false,
        Some(byte) => *byte == tag,
    }
}

/// The content of the next element, as a source to read from.
fn enter<'a>(source: &mut SliceSource<'a>, tag: u8) -> Result<SliceSource<'a>, WireKind>
    ensures read { Gives (λ inside. inside) source.new result (element_at tag source.old) }
    ensures memory { NeedsNoMemory result }
{
    let content = read_element(source, tag)?;
    Ok(SliceSource::new(content))
}

/// The content of an element inside an optional field.
#[tactic(auto, unfolding(crate::specs::Reading::optional_at, crate::specs::Reading::around_at))]
fn read_field<'a>(
    source: &mut SliceSource<'a>,
    tag: u8,
    inner: u8,
) -> Result<Option<&'a [u8]>, WireKind>
    ensures read { Gives (λ content. option_copied content) source.new result
        (optional_at tag (around_at tag (element_at inner)) source.old) }
    ensures memory { NeedsNoMemory result }
{
    if !is_next(source, tag) {
        return Ok(None);
    }
    let mut inside = enter(source, tag)?;
    let content = read_element(&mut inside, inner)?;
    Ok(Some(content))
}

/// Skips an optional field by its length.
#[tactic(auto, unfolding(crate::specs::Reading::optional_at))]
fn skip_field<'a>(source: &mut SliceSource<'a>, tag: u8) -> Result<Option<&'a [u8]>, WireKind>
    ensures read { Gives (λ content. option_copied content) source.new result
        (optional_at tag (element_at tag) source.old) }
    ensures memory { NeedsNoMemory result }
{
    if !is_next(source, tag) {
        return Ok(None);
    }
    let content = read_element(source, tag)?;
    Ok(Some(content))
}

fn read_octets<'a>(source: &mut SliceSource<'a>, tag: u8) -> Result<Option<&'a [u8]>, WireKind>
    ensures read { Gives (λ octets. option_copied octets) source.new result
        (octets_at tag source.old) }
    ensures memory { NeedsNoMemory result }
{
    read_field(source, tag, OCTET_STRING)
}

/// Skips object identifiers up to the first other tag.
fn pass_oids(source: &mut SliceSource<'_>) -> Result<(), WireKind>
    ensures read { Gives (λ _. oids_in source.old) source.new result (oids_at source.old) }
    ensures memory { NeedsNoMemory result }
{
    'oids: while is_next(source, OBJECT_IDENTIFIER) {
        read_element(source, OBJECT_IDENTIFIER)?;
    }
    Ok(())
}

/// The content of a list, which begins with object identifiers.
#[tactic(auto, unfolding(crate::specs::Reading::around_at))]
fn read_mech_types<'a>(source: &mut SliceSource<'a>) -> Result<&'a [u8], WireKind>
    ensures read { Gives (λ list. oids_in list.now) source.new result (mech_types_at source.old) }
    ensures memory { NeedsNoMemory result }
{
    let content = read_element(source, SEQUENCE)?;
    pass_oids(&mut SliceSource::new(content))?;
    Ok(content)
}

#[tactic(auto, unfolding(crate::specs::Reading::optional_at, crate::specs::Reading::around_at))]
fn read_mech_types_field<'a>(source: &mut SliceSource<'a>) -> Result<Option<&'a [u8]>, WireKind>
    ensures read { Gives (λ list. option_map oids_in (option_copied list)) source.new result
        (optional_at 0xA0 (around_at 0xA0 mech_types_at) source.old) }
    ensures memory { NeedsNoMemory result }
{
    if !is_next(source, FIELD_0) {
        return Ok(None);
    }
    let mut inside = enter(source, FIELD_0)?;
    let list = read_mech_types(&mut inside)?;
    Ok(Some(list))
}

#[tactic(auto, unfolding(crate::specs::Reading::init_fields_at))]
fn read_init_fields<'a>(source: &mut SliceSource<'a>) -> Result<InitParts<'a>, WireKind>
    ensures read { Gives (λ parts. init_seen parts) source.new result (init_fields_at source.old) }
    ensures memory { NeedsNoMemory result }
{
    let mech_types = read_mech_types_field(source)?;
    skip_field(source, FIELD_1)?;
    let mech_token = read_octets(source, FIELD_2)?;
    skip_field(source, FIELD_3)?;
    Ok(InitParts {
        mech_types,
        mech_token,
    })
}

#[tactic(auto, unfolding(crate::specs::Reading::init_content_at, crate::specs::Reading::around_at))]
fn read_init_content<'a>(source: &mut SliceSource<'a>) -> Result<InitParts<'a>, WireKind>
    ensures read { Gives (λ parts. init_seen parts) source.new result (init_content_at source.old) }
    ensures memory { NeedsNoMemory result }
{
    let mech = read_element(source, OBJECT_IDENTIFIER)?;
    if mech != SPNEGO.as_slice() {
        return Err(WireKind::InvalidData);
    }
    let mut body = enter(source, FIELD_0)?;
    let mut fields = enter(&mut body, SEQUENCE)?;
    read_init_fields(&mut fields)
}

/// The `NegTokenInit` that the bytes begin with.
#[tactic(auto, unfolding(crate::specs::Reading::init_at, crate::specs::Reading::around_at))]
pub(crate) fn read_init<'a>(source: &mut SliceSource<'a>) -> Result<InitParts<'a>, WireKind>
    ensures read { Gives (λ parts. init_seen parts) source.new result (init_at source.old) }
    ensures memory { NeedsNoMemory result }
{
    let mut inside = enter(source, INITIAL_TOKEN)?;
    read_init_content(&mut inside)
}

#[tactic(auto, unfolding(crate::specs::Reading::optional_at, crate::specs::Reading::around_at, crate::specs::Reading::result_at))]
fn read_result(source: &mut SliceSource<'_>) -> Result<Option<NegResult>, WireKind>
    ensures read { Gives (λ result. result) source.new result
        (optional_at 0xA0 (around_at 0xA0 result_at) source.old) }
    ensures memory { NeedsNoMemory result }
{
    match read_field(source, FIELD_0, ENUMERATED)? {
        None => Ok(None),
        Some(content) => Ok(Some(NegResult::from_content(content))),
    }
}

#[tactic(auto, unfolding(crate::specs::Reading::targ_fields_at))]
fn read_targ_fields<'a>(source: &mut SliceSource<'a>) -> Result<TargParts<'a>, WireKind>
    ensures read { Gives (λ parts. targ_seen parts) source.new result (targ_fields_at source.old) }
    ensures memory { NeedsNoMemory result }
{
    let neg_result = read_result(source)?;
    let supported_mech = read_field(source, FIELD_1, OBJECT_IDENTIFIER)?;
    let response_token = read_octets(source, FIELD_2)?;
    let mech_list_mic = read_octets(source, FIELD_3)?;
    Ok(TargParts {
        neg_result,
        supported_mech,
        response_token,
        mech_list_mic,
    })
}

/// The `NegTokenTarg` that the bytes begin with.
#[tactic(auto, unfolding(crate::specs::Reading::targ_at, crate::specs::Reading::around_at))]
pub(crate) fn read_targ<'a>(source: &mut SliceSource<'a>) -> Result<TargParts<'a>, WireKind>
    ensures read { Gives (λ parts. targ_seen parts) source.new result (targ_at source.old) }
    ensures memory { NeedsNoMemory result }
{
    let mut inside = enter(source, FIELD_1)?;
    let mut fields = enter(&mut inside, SEQUENCE)?;
    read_targ_fields(&mut fields)
}
