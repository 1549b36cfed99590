//! Copies a token from its parts, into memory of its own.

ghost use Rattle.std.specs.Prelude.{◌≡◌, IfOk};
ghost use Rattle.std.specs.Option.{option_copied, option_map};
ghost use Rattle.sspi_ber.specs.Outside.{Gives};
ghost use Rattle.sspi_tokens.specs.Parts.{oids_in, init_seen, targ_seen};
ghost use Rattle.sspi_tokens.specs.Reading.{oids_at};

use crate::mech_type_list::MechTypeList;
use crate::neg_token_init::NegTokenInit;
use crate::neg_token_targ::NegTokenTarg;
use crate::oid::Oid;
use crate::parts::{InitParts, TargParts};
use crate::reading::is_next;
use crate::tags::OBJECT_IDENTIFIER;
use sspi_ber::{SliceSource, WireKind, read_element};
use sspi_types::Bytes;
use std::alloc::{AllocError, Global};

fn copy_octets(alloc: Global, octets: Option<&[u8]>) -> Result<Option<Bytes>, AllocError>
    ensures { IfOk result (λ copy. copy ≡ option_copied octets.entry) }
{
    match octets {
        None => Ok(None),
        Some(octets) => Ok(Some(Bytes::from_slice(alloc, octets)?)),
    }
}

fn copy_oid(alloc: Global, content: Option<&[u8]>) -> Result<Option<Oid>, AllocError>
    ensures { IfOk result (λ oid. oid ≡ option_copied content.entry) }
{
    match content {
        None => Ok(None),
        Some(content) => Ok(Some(Oid::from_content(alloc, content)?)),
    }
}

/// Copies object identifiers up to the first other tag.
fn read_oids(alloc: Global, source: &mut SliceSource<'_>) -> Result<Vec<Oid>, WireKind>
    ensures { Gives (λ oids. oids.items) source.new result (oids_at source.old) }
{
    let mut oids = Vec::new(alloc);
    'oids: while is_next(source, OBJECT_IDENTIFIER) {
        let content = read_element(source, OBJECT_IDENTIFIER)?;
        oids.push(Oid::from_content(alloc, content)?)?;
    }
    Ok(oids)
}

/// The identifiers that the content of a list begins with. They were read before, so only an
/// allocation can fail.
fn copy_oids(alloc: Global, content: &[u8]) -> Result<MechTypeList, AllocError>
    ensures { IfOk result (λ list. list ≡ oids_in content.now) }
{
    match read_oids(alloc, &mut SliceSource::new(content)) {
        Ok(oids) => Ok(MechTypeList::from_vec(oids)),
        Err(_) => Err(AllocError),
    }
}

fn copy_mech_types(
    alloc: Global,
    content: Option<&[u8]>,
) -> Result<Option<MechTypeList>, AllocError>
    ensures { IfOk result (λ list. list ≡ option_map oids_in (option_copied content.entry)) }
{
    match content {
        None => Ok(None),
        Some(content) => Ok(Some(copy_oids(alloc, content)?)),
    }
}

pub(crate) fn copy_init(alloc: Global, parts: &InitParts<'_>) -> Result<NegTokenInit, AllocError>
    ensures { IfOk result (λ token. token ≡ init_seen parts.now) }
{
    let mech_types = copy_mech_types(alloc, parts.mech_types)?;
    let mech_token = copy_octets(alloc, parts.mech_token)?;
    Ok(NegTokenInit {
        mech_types,
        mech_token,
    })
}

pub(crate) fn copy_targ(alloc: Global, parts: &TargParts<'_>) -> Result<NegTokenTarg, AllocError>
    ensures { IfOk result (λ token. token ≡ targ_seen parts.now) }
{
    let supported_mech = copy_oid(alloc, parts.supported_mech)?;
    let response_token = copy_octets(alloc, parts.response_token)?;
    let mech_list_mic = copy_octets(alloc, parts.mech_list_mic)?;
    Ok(NegTokenTarg {
        neg_result: parts.neg_result,
        supported_mech,
        response_token,
        mech_list_mic,
    })
}
