//! Writes the fields of TSRequest.

ghost use Rattle.std.specs.Prelude.{◌≡◌, ◌≤◌, length};
ghost use Rattle.std.specs.Option.{option_copied};
ghost use Rattle.sspi_ber.specs.Forms.{max_content};
ghost use Rattle.sspi_ber.specs.Short.{element, int_short};
ghost use Rattle.sspi_tsreq.specs.Size.{IsTokenSize};
ghost use Rattle.sspi_ber.specs.Outside.{Writes, WriteCause};
ghost use Rattle.sspi_tsreq.specs.Spelling.{carried, version_field, token_item, token_list};
ghost use Rattle.sspi_tsreq.specs.Spelling.{nego_field, octets_field, code_field};
ghost use Rattle.sspi_tsreq.specs.Spelling.{last_fields, later_fields, fields, fits, spelled};

use crate::request::TsRequest;
use crate::sizes::{carried_code, carried_nonce};
use sspi_ber::identifier::INTEGER;
use sspi_ber::{
    Sink, WireKind, size_of_element, sizeof_integer, write_all, write_header, write_integer,
    write_wrapped_octets,
};
use sspi_types::{Bytes, NStatusCode};

/// An INTEGER inside another element.
#[tactic(auto, using(sspi_ber::proofs::Written::writing), unfolding(sspi_ber::specs::Short::element))]
#[inline(always)]
fn write_wrapped_integer<W: Sink>(sink: &mut W, tag: u8, value: u32) -> Result<(), WireKind>
    ensures wrote { Writes (W.written sink.old) (W.written sink.new) result
        (element tag (int_short value)) }
    ensures cause { WriteCause (W.faults sink.old) (W.faults sink.new) result }
{
    if value < 0x80 {
        return write_all(sink, &[tag, 3, INTEGER, 1, value as u8]);
    }
    write_header(sink, tag, sizeof_integer(value))?;
    write_integer(sink, value)?;
    Ok(())
}

#[tactic(auto, using(sspi_ber::proofs::Written::writing), unfolding(crate::specs::Spelling::octets_field))]
fn write_octets_field<W: Sink>(sink: &mut W, tag: u8, field: &Option<Bytes>) -> Result<(), WireKind>
    requires { length (octets_field tag field.now) ≤ max_content }
    ensures wrote { Writes (W.written sink.old) (W.written sink.new) result
        (octets_field tag field.now) }
    ensures cause { WriteCause (W.faults sink.old) (W.faults sink.new) result }
{
    match field {
        None => Ok(()),
        Some(octets) => write_wrapped_octets(sink, tag, octets.as_slice()),
    }
}

/// A SEQUENCE with the token in [0].
#[tactic(auto, using(crate::proofs::Room::sized_writing), unfolding(crate::specs::Spelling::token_item, sspi_ber::specs::Short::element))]
fn write_token_item<W: Sink>(sink: &mut W, token: &[u8]) -> Result<(), WireKind>
    requires { IsTokenSize (length token.now) }
    ensures wrote { Writes (W.written sink.old) (W.written sink.new) result (token_item token.now) }
    ensures cause { WriteCause (W.faults sink.old) (W.faults sink.new) result }
{
    write_header(sink, 0x30, size_of_element(size_of_element(token.len())))?;
    write_wrapped_octets(sink, 0xA0, token)
}

/// How many bytes the item of a token takes.
fn token_item_size(token: &[u8]) -> usize
    requires { IsTokenSize (length token.now) }
    ensures size { result ≡ length (token_item token.now) }
    ensures small { result ≤ max_content }
{
    size_of_element(size_of_element(size_of_element(token.len())))
}

/// The list of this one item.
#[tactic(auto, using(sspi_ber::proofs::Written::writing), unfolding(crate::specs::Spelling::token_list, sspi_ber::specs::Short::element))]
fn write_token_list<W: Sink>(sink: &mut W, token: &[u8]) -> Result<(), WireKind>
    requires { IsTokenSize (length token.now) }
    ensures wrote { Writes (W.written sink.old) (W.written sink.new) result (token_list token.now) }
    ensures cause { WriteCause (W.faults sink.old) (W.faults sink.new) result }
{
    write_header(sink, 0x30, token_item_size(token))?;
    write_token_item(sink, token)
}

/// How many bytes the list of a token takes.
fn token_list_size(token: &[u8]) -> usize
    requires { IsTokenSize (length token.now) }
    ensures size { result ≡ length (token_list token.now) }
    ensures small { result ≤ max_content }
{
    size_of_element(token_item_size(token))
}

/// The field of the token.
#[tactic(auto, using(sspi_ber::proofs::Written::writing), unfolding(sspi_ber::specs::Short::element))]
fn write_token<W: Sink>(sink: &mut W, token: &[u8]) -> Result<(), WireKind>
    requires { IsTokenSize (length token.now) }
    ensures wrote { Writes (W.written sink.old) (W.written sink.new) result
        (element 0xA1 (token_list token.now)) }
    ensures cause { WriteCause (W.faults sink.old) (W.faults sink.new) result }
{
    write_header(sink, 0xA1, token_list_size(token))?;
    write_token_list(sink, token)
}

#[tactic(auto, using(sspi_ber::proofs::Written::writing), unfolding(crate::specs::Spelling::nego_field))]
fn write_nego_field<W: Sink>(sink: &mut W, field: &Option<Bytes>) -> Result<(), WireKind>
    requires { length (nego_field field.now) ≤ max_content }
    ensures wrote { Writes (W.written sink.old) (W.written sink.new) result (nego_field field.now) }
    ensures cause { WriteCause (W.faults sink.old) (W.faults sink.new) result }
{
    match field {
        None => Ok(()),
        Some(token) => write_token(sink, token.as_slice()),
    }
}

#[tactic(auto, using(sspi_ber::proofs::Written::writing), unfolding(crate::specs::Spelling::code_field))]
fn write_code_field<W: Sink>(sink: &mut W, field: Option<NStatusCode>) -> Result<(), WireKind>
    ensures wrote { Writes (W.written sink.old) (W.written sink.new) result (code_field field) }
    ensures cause { WriteCause (W.faults sink.old) (W.faults sink.new) result }
{
    match field {
        None => Ok(()),
        Some(code) => write_wrapped_integer(sink, 0xA4, code.0),
    }
}

#[tactic(auto, using(sspi_ber::proofs::Written::writing), unfolding(crate::specs::Spelling::octets_field))]
fn write_nonce_field<W: Sink>(sink: &mut W, field: Option<&[u8; 32]>) -> Result<(), WireKind>
    ensures wrote { Writes (W.written sink.old) (W.written sink.new) result
        (octets_field 0xA5 (option_copied field.entry)) }
    ensures cause { WriteCause (W.faults sink.old) (W.faults sink.new) result }
{
    match field {
        None => Ok(()),
        Some(nonce) => write_wrapped_octets(sink, 0xA5, nonce),
    }
}

#[tactic(auto, using(sspi_ber::proofs::Written::writing), unfolding(crate::specs::Spelling::last_fields))]
fn write_last_fields<W: Sink>(sink: &mut W, request: &TsRequest) -> Result<(), WireKind>
    ensures wrote { Writes (W.written sink.old) (W.written sink.new) result
        (last_fields (carried request.now)) }
    ensures cause { WriteCause (W.faults sink.old) (W.faults sink.new) result }
{
    write_code_field(sink, carried_code(request))?;
    write_nonce_field(sink, carried_nonce(request))
}

#[tactic(auto, using(sspi_ber::proofs::Written::writing), unfolding(crate::specs::Spelling::later_fields))]
fn write_later_fields<W: Sink>(sink: &mut W, request: &TsRequest) -> Result<(), WireKind>
    requires { length (later_fields (carried request.now)) ≤ max_content }
    ensures wrote { Writes (W.written sink.old) (W.written sink.new) result
        (later_fields (carried request.now)) }
    ensures cause { WriteCause (W.faults sink.old) (W.faults sink.new) result }
{
    write_octets_field(sink, 0xA2, &request.auth_info)?;
    write_octets_field(sink, 0xA3, &request.pub_key_auth)?;
    write_last_fields(sink, request)
}

#[tactic(auto, using(sspi_ber::proofs::Written::writing), unfolding(crate::specs::Spelling::fields, crate::specs::Spelling::version_field))]
fn write_fields<W: Sink>(sink: &mut W, request: &TsRequest) -> Result<(), WireKind>
    requires { length (fields (carried request.now)) ≤ max_content }
    ensures wrote { Writes (W.written sink.old) (W.written sink.new) result
        (fields (carried request.now)) }
    ensures cause { WriteCause (W.faults sink.old) (W.faults sink.new) result }
{
    write_wrapped_integer(sink, 0xA0, request.version)?;
    write_nego_field(sink, &request.nego_tokens)?;
    write_later_fields(sink, request)
}

/// Writes the whole request, which must fit; `size` is how many bytes its fields take.
#[tactic(auto, using(sspi_ber::proofs::Written::writing), unfolding(crate::specs::Spelling::spelled, sspi_ber::specs::Short::element))]
#[inline(always)]
pub(crate) fn write_request<W: Sink>(
    sink: &mut W,
    request: &TsRequest,
    size: usize,
) -> Result<(), WireKind>
    requires size { size ≡ length (fields (carried request.now)) }
    requires fits { size ≤ max_content }
    ensures wrote { Writes (W.written sink.old) (W.written sink.new) result (spelled request.now) }
    ensures cause { WriteCause (W.faults sink.old) (W.faults sink.new) result }
{
    write_header(sink, 0x30, size)?;
    write_fields(sink, request)
}
