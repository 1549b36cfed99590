//! Writes the parts of a token.

ghost use Rattle.std.specs.Prelude.{◌≡◌, ◌≤◌, length};
ghost use Rattle.std.specs.Option.{option_map};
ghost use Rattle.sspi_ber.specs.Forms.{max_content};
ghost use Rattle.sspi_ber.specs.Short.{header, element};
ghost use Rattle.sspi_tokens.specs.Spelling.{field, oids_text, mech_types_text, result_text};
ghost use Rattle.sspi_tokens.specs.Spelling.{init_fields};
ghost use Rattle.sspi_tokens.specs.Spelling.{init_content, octet_fields, last_fields, targ_fields};
ghost use Rattle.sspi_tokens.specs.Spelling.{targ_content};
ghost use Rattle.sspi_tokens.specs.Writing.{list_length, IsInitLengths, Puts};

use crate::mech_type_list::MechTypeList;
use crate::neg_result::NegResult;
use crate::neg_token_init::NegTokenInit;
use crate::neg_token_targ::NegTokenTarg;
use crate::oid::{Oid, SPNEGO};
use crate::sizes::InitLengths;
use crate::tags::{
    ENUMERATED, FIELD_0, FIELD_1, FIELD_2, FIELD_3, INITIAL_TOKEN, OBJECT_IDENTIFIER, OCTET_STRING,
    SEQUENCE,
};
use sspi_ber::{VecSink, size_of_element, write_element, write_header};
use sspi_types::Bytes;
use std::alloc::AllocError;

fn put_header(sink: &mut VecSink, tag: u8, len: usize) -> Result<(), AllocError>
    requires { len ≤ max_content }
    ensures { Puts sink.old sink.new result (header tag len) }
{
    match write_header(sink, tag, len) {
        Ok(()) => Ok(()),
        Err(_) => Err(AllocError),
    }
}

fn put_element(sink: &mut VecSink, tag: u8, content: &[u8]) -> Result<(), AllocError>
    requires { length content.now ≤ max_content }
    ensures { Puts sink.old sink.new result (element tag content.now) }
{
    match write_element(sink, tag, content) {
        Ok(()) => Ok(()),
        Err(_) => Err(AllocError),
    }
}

/// Writes an element inside a field.
#[tactic(auto, using(crate::proofs::Written::putting, crate::proofs::Lengths::sizing))]
fn put_field(sink: &mut VecSink, tag: u8, inner: u8, content: &[u8]) -> Result<(), AllocError>
    requires { length (element tag (element inner content.now)) ≤ max_content }
    ensures { Puts sink.old sink.new result (element tag (element inner content.now)) }
{
    put_header(sink, tag, size_of_element(content.len()))?;
    put_element(sink, inner, content)
}

#[tactic(auto, using(crate::proofs::Written::putting, crate::proofs::Lengths::sizing))]
fn put_octets(sink: &mut VecSink, tag: u8, octets: &Option<Bytes>) -> Result<(), AllocError>
    requires { length (field tag (option_map (element 0x04) octets.now)) ≤ max_content }
    ensures { Puts sink.old sink.new result (field tag (option_map (element 0x04) octets.now)) }
{
    match octets {
        None => Ok(()),
        Some(octets) => put_field(sink, tag, OCTET_STRING, octets.as_slice()),
    }
}

#[tactic(auto, using(crate::proofs::Written::putting, crate::proofs::Lengths::sizing))]
fn put_oid(sink: &mut VecSink, oid: &Option<Oid>) -> Result<(), AllocError>
    requires { length (field 0xA1 (option_map (element 0x06) oid.now)) ≤ max_content }
    ensures { Puts sink.old sink.new result (field 0xA1 (option_map (element 0x06) oid.now)) }
{
    match oid {
        None => Ok(()),
        Some(oid) => put_field(sink, FIELD_1, OBJECT_IDENTIFIER, oid.content()),
    }
}

#[tactic(auto, using(crate::proofs::Written::putting, crate::proofs::Lengths::result_field))]
fn put_result(sink: &mut VecSink, neg_result: Option<NegResult>) -> Result<(), AllocError>
    ensures { Puts sink.old sink.new result (field 0xA0 (option_map result_text neg_result)) }
{
    match neg_result {
        None => Ok(()),
        Some(neg_result) => put_field(sink, FIELD_0, ENUMERATED, &[neg_result.code()]),
    }
}

/// Writes object identifiers one after the other.
pub(crate) fn put_oids(sink: &mut VecSink, oids: &[Oid]) -> Result<(), AllocError>
    requires { length (oids_text oids.now) ≤ max_content }
    ensures { Puts sink.old sink.new result (oids_text oids.now) }
{
    for oid in oids {
        put_element(sink, OBJECT_IDENTIFIER, oid.content())?;
    }
    Ok(())
}

/// Writes a mechanism list, whose identifiers have this length.
#[tactic(auto, using(crate::proofs::Written::putting, crate::proofs::Lengths::sizing), unfolding(sspi_ber::specs::Short::element))]
pub(crate) fn put_mech_types(sink: &mut VecSink, oids: &[Oid], len: usize) -> Result<(), AllocError>
    requires size { len ≡ length (oids_text oids.now) }
    requires fits { len ≤ max_content }
    ensures { Puts sink.old sink.new result (element 0x30 (oids_text oids.now)) }
{
    put_header(sink, SEQUENCE, len)?;
    put_oids(sink, oids)
}

#[tactic(auto, using(crate::proofs::Written::putting, crate::proofs::Lengths::sizing))]
fn put_mech_types_field(
    sink: &mut VecSink,
    list: &Option<MechTypeList>,
    len: usize,
) -> Result<(), AllocError>
    requires size { len ≡ list_length list.now }
    requires fits { length (field 0xA0 (option_map mech_types_text list.now)) ≤ max_content }
    ensures { Puts sink.old sink.new result (field 0xA0 (option_map mech_types_text list.now)) }
{
    match list {
        None => Ok(()),
        Some(list) => put_list(sink, list.as_slice(), len),
    }
}

#[tactic(auto, using(crate::proofs::Written::putting, crate::proofs::Lengths::sizing), unfolding(crate::specs::Spelling::mech_types_text))]
fn put_list(sink: &mut VecSink, oids: &[Oid], len: usize) -> Result<(), AllocError>
    requires size { len ≡ length (oids_text oids.now) }
    requires fits { length (element 0xA0 (mech_types_text oids.now)) ≤ max_content }
    ensures { Puts sink.old sink.new result (element 0xA0 (mech_types_text oids.now)) }
{
    put_header(sink, FIELD_0, size_of_element(len))?;
    put_mech_types(sink, oids, len)
}

#[tactic(auto, using(crate::proofs::Written::putting, crate::proofs::Lengths::sizing), unfolding(crate::specs::Spelling::init_fields))]
fn put_init_fields(
    sink: &mut VecSink,
    token: &NegTokenInit,
    mech_types: usize,
) -> Result<(), AllocError>
    requires size { mech_types ≡ list_length token.now.mech_types }
    requires fits { length (init_fields token.now) ≤ max_content }
    ensures { Puts sink.old sink.new result (init_fields token.now) }
{
    put_mech_types_field(sink, &token.mech_types, mech_types)?;
    put_octets(sink, FIELD_2, &token.mech_token)
}

/// Writes the SEQUENCE of the fields.
#[tactic(auto, using(crate::proofs::Written::putting, crate::proofs::Lengths::sizing), unfolding(sspi_ber::specs::Short::element))]
fn put_init_sequence(
    sink: &mut VecSink,
    token: &NegTokenInit,
    lengths: &InitLengths,
) -> Result<(), AllocError>
    requires { IsInitLengths token.now lengths.now }
    ensures { Puts sink.old sink.new result (element 0x30 (init_fields token.now)) }
{
    put_header(sink, SEQUENCE, lengths.fields)?;
    put_init_fields(sink, token, lengths.mech_types)
}

/// Writes [0] around that SEQUENCE.
#[tactic(auto, using(crate::proofs::Written::putting, crate::proofs::Lengths::sizing))]
fn put_init_body(
    sink: &mut VecSink,
    token: &NegTokenInit,
    lengths: &InitLengths,
) -> Result<(), AllocError>
    requires { IsInitLengths token.now lengths.now }
    ensures { Puts sink.old sink.new result (element 0xA0 (element 0x30 (init_fields token.now))) }
{
    put_header(sink, FIELD_0, size_of_element(lengths.fields))?;
    put_init_sequence(sink, token, lengths)
}

/// Writes the identifier of SPNEGO, and that [0] after it.
#[tactic(auto, using(crate::proofs::Written::putting, crate::proofs::Lengths::sizing), unfolding(crate::specs::Spelling::init_content))]
fn put_init_content(
    sink: &mut VecSink,
    token: &NegTokenInit,
    lengths: &InitLengths,
) -> Result<(), AllocError>
    requires { IsInitLengths token.now lengths.now }
    ensures { Puts sink.old sink.new result (init_content token.now) }
{
    put_element(sink, OBJECT_IDENTIFIER, &SPNEGO)?;
    put_init_body(sink, token, lengths)
}

/// Writes a whole `NegTokenInit`.
#[tactic(auto, using(crate::proofs::Written::putting, crate::proofs::Lengths::sizing), unfolding(sspi_ber::specs::Short::element))]
pub(crate) fn put_init(
    sink: &mut VecSink,
    token: &NegTokenInit,
    lengths: &InitLengths,
) -> Result<(), AllocError>
    requires { IsInitLengths token.now lengths.now }
    ensures { Puts sink.old sink.new result (element 0x60 (init_content token.now)) }
{
    put_header(sink, INITIAL_TOKEN, lengths.content)?;
    put_init_content(sink, token, lengths)
}

#[tactic(auto, using(crate::proofs::Written::putting, crate::proofs::Lengths::sizing), unfolding(crate::specs::Spelling::octet_fields))]
fn put_octet_fields(sink: &mut VecSink, token: &NegTokenTarg) -> Result<(), AllocError>
    requires { length (targ_fields token.now) ≤ max_content }
    ensures { Puts sink.old sink.new result (octet_fields token.now) }
{
    put_octets(sink, FIELD_2, &token.response_token)?;
    put_octets(sink, FIELD_3, &token.mech_list_mic)
}

#[tactic(auto, using(crate::proofs::Written::putting, crate::proofs::Lengths::sizing), unfolding(crate::specs::Spelling::last_fields))]
fn put_last_fields(sink: &mut VecSink, token: &NegTokenTarg) -> Result<(), AllocError>
    requires { length (targ_fields token.now) ≤ max_content }
    ensures { Puts sink.old sink.new result (last_fields token.now) }
{
    put_oid(sink, &token.supported_mech)?;
    put_octet_fields(sink, token)
}

#[tactic(auto, using(crate::proofs::Written::putting, crate::proofs::Lengths::sizing), unfolding(crate::specs::Spelling::targ_fields))]
fn put_targ_fields(sink: &mut VecSink, token: &NegTokenTarg) -> Result<(), AllocError>
    requires { length (targ_fields token.now) ≤ max_content }
    ensures { Puts sink.old sink.new result (targ_fields token.now) }
{
    put_result(sink, token.neg_result)?;
    put_last_fields(sink, token)
}

/// Writes the SEQUENCE of the fields, which have this length.
#[tactic(auto, using(crate::proofs::Written::sized), unfolding(crate::specs::Spelling::targ_content, sspi_ber::specs::Short::element))]
fn put_targ_content(
    sink: &mut VecSink,
    token: &NegTokenTarg,
    fields: usize,
) -> Result<(), AllocError>
    requires size { fields ≡ length (targ_fields token.now) }
    requires fits { length (targ_content token.now) ≤ max_content }
    ensures { Puts sink.old sink.new result (targ_content token.now) }
{
    put_header(sink, SEQUENCE, fields)?;
    put_targ_fields(sink, token)
}

/// Writes a whole `NegTokenTarg`, whose fields have this length.
#[tactic(auto, using(crate::proofs::Written::putting, crate::proofs::Lengths::sizing))]
pub(crate) fn put_targ(
    sink: &mut VecSink,
    token: &NegTokenTarg,
    fields: usize,
) -> Result<(), AllocError>
    requires size { fields ≡ length (targ_fields token.now) }
    requires fits { length (targ_content token.now) ≤ max_content }
    ensures { Puts sink.old sink.new result (element 0xA1 (targ_content token.now)) }
{
    put_header(sink, FIELD_1, size_of_element(fields))?;
    put_targ_content(sink, token, fields)
}
