//! TSRequest (MS-CSSP 2.2.1).
ghost use Rattle.std.specs.Prelude.{◌≡◌, ℕ, List, Ok, Some, option_map, Result};
ghost use Rattle.sspi_ber.specs.declared.wire_kind.WireKind.{WireKind as Kind};
ghost use Rattle.sspi_tsreq.specs.Answer.{IsAnswer};
ghost use Rattle.sspi_tsreq.specs.Grammar.{bare};
ghost use Rattle.sspi_tsreq.specs.Header.{request_size_at};
ghost use Rattle.sspi_tsreq.specs.declared.request.TsRequest.{TsRequest as Message};
ghost use Rattle.newaksu_c.specs.declared.object.Object.TheVariants as objects;
ghost use Rattle.newaksu_c.specs.Giving.{Answers};
ghost use Rattle.newaksu_c.specs.Told.{told, items_of};
ghost use Rattle.newaksu_c.specs.Held.{request_in};
ghost use Rattle.newaksu_c.specs.Putting.{Puts};
ghost use Rattle.newaksu_c.specs.Requests.{GivesEncoded};
ghost use Rattle.newaksu_c.specs.Requests.{code_in, code_of, field_at, field_in, present};
ghost use Rattle.newaksu_c.specs.Requests.{request_made, version_in, IsEncoded, Sized, Tells};

use crate::giving::{answer, give_all};
use crate::handle::Handle;
use crate::kept_request::KeptRequest;
use crate::object::{Object, request_of};
use crate::putting::put;
use crate::status::{ABSENT, INVALID_HANDLE, INVALID_PARAMETER, OK, wire_status};
use sspi_ber::SliceSource;
use sspi_tsreq::TsRequest;
use sspi_types::{Bytes, NStatusCode};
use std::alloc::Global;

#[tactic(auto, unfolding(sspi_tsreq::specs::Header::request_size_at))]
/// The size in bytes of the request that the bytes begin with, from its header alone.
#[unsafe(no_mangle)]
pub extern "C" fn newaksu_request_size(bytes: &[u8], size: &mut usize) -> u32
    ensures { Sized (request_size_at bytes.now) size.old size.new result }
{
    match TsRequest::read_length(&mut SliceSource::new(bytes)) {
        Ok(length) => {
            *size = length;
            OK
        }
        Err(kind) => wire_status(kind),
    }
}

/// A request of this version, without other fields.
#[unsafe(no_mangle)]
pub extern "C" fn newaksu_request_new(alloc: Global, handle: &mut Handle, version: u32) -> u32
    ensures { Puts handle.old.held handle.new.held (Ok (objects.Request (bare version))) result }
{
    put(
        alloc,
        handle,
        Object::Request(KeptRequest::new(
            alloc,
            TsRequest {
                version,
                nego_tokens: None,
                auth_info: None,
                pub_key_auth: None,
                error_code: None,
                client_nonce: None,
            },
        )),
    )
}

/// The request that the bytes begin with.
#[unsafe(no_mangle)]
pub extern "C" fn newaksu_request_decode(alloc: Global, handle: &mut Handle, bytes: &[u8]) -> u32
    ensures { (read : Result Message Kind) × IsAnswer bytes.now read ×
        Puts handle.old.held handle.new.held (request_made read) result }
{
    match TsRequest::from_buffer(alloc, bytes) {
        Ok(request) => put_request(alloc, handle, request),
        Err(kind) => wire_status(kind),
    }
}

fn set_request(alloc: Global, object: &mut Object, request: TsRequest)
    ensures { object.new ≡ objects.Request request }
{
    match object {
        Object::Request(
            KeptRequest {
                request: before,
                ..
            },
        ) => *before = request,
        _ => *object = Object::Request(KeptRequest::new(alloc, request)),
    }
}

// In place of an earlier request, this one moves once, and nothing is allocated.
fn put_request(alloc: Global, handle: &mut Handle, request: TsRequest) -> u32
    ensures { Puts handle.old.held handle.new.held (Ok (objects.Request request)) result }
{
    let Some(mut object) = handle.take(alloc) else {
        return put(
            alloc,
            handle,
            Object::Request(KeptRequest::new(alloc, request)),
        );
    };
    set_request(alloc, &mut object, request);
    handle.put(object);
    OK
}

fn encode(object: &mut Object, out: &mut [u8], written: &mut usize) -> u32
    ensures kept { object.new ≡ object.old }
    ensures gives { GivesEncoded (request_in (Some object.old)) out.old out.new written.new
        result }
{
    match object {
        Object::Request(kept) => kept.encode(out, written),
        _ => answer(Err(INVALID_HANDLE), out, written),
    }
}

pub(crate) fn encoded_message(alloc: Global, request: &TsRequest) -> Result<Vec<u8>, u32>
    ensures { IsEncoded (Some request.now) (items_of result) }
{
    match request.encode(alloc) {
        Ok(text) => Ok(text),
        Err(kind) => Err(wire_status(kind)),
    }
}

/// The request in its shortest encoding. The memory of the encoding is kept for the next one, until
/// the handle is released.
#[unsafe(no_mangle)]
pub extern "C" fn newaksu_request_encode(
    alloc: Global,
    handle: &mut Handle,
    out: &mut [u8],
    written: &mut usize,
) -> u32
    ensures kept { handle.new.held ≡ handle.old.held }
    ensures gives { GivesEncoded (request_in handle.old.held) out.old out.new written.new result }
{
    let Some(mut object) = handle.take(alloc) else {
        return answer(Err(INVALID_HANDLE), out, written);
    };
    let status = encode(&mut object, out, written);
    handle.put(object);
    status
}

/// The version.
#[unsafe(no_mangle)]
pub extern "C" fn newaksu_request_version(
    alloc: Global,
    handle: &mut Handle,
    version: &mut u32,
) -> u32
    ensures kept { handle.new.held ≡ handle.old.held }
    ensures tells { Tells (version_in (request_in handle.old.held)) version.old version.new result }
{
    let object = handle.take(alloc);
    let status = match request_of(&object) {
        Some(request) => {
            *version = request.version;
            OK
        }
        None => INVALID_HANDLE,
    };
    handle.keep(object);
    status
}

/// The error code.
#[unsafe(no_mangle)]
pub extern "C" fn newaksu_request_error_code(
    alloc: Global,
    handle: &mut Handle,
    code: &mut u32,
) -> u32
    ensures kept { handle.new.held ≡ handle.old.held }
    ensures tells { Tells (code_in (request_in handle.old.held)) code.old code.new result }
{
    let object = handle.take(alloc);
    let status = match request_of(&object) {
        Some(request) => tell_code(request.error_code, code),
        None => INVALID_HANDLE,
    };
    handle.keep(object);
    status
}

fn tell_code(found: Option<NStatusCode>, code: &mut u32) -> u32
    ensures { Tells (code_of found) code.old code.new result }
{
    match found {
        Some(found) => {
            *code = found.0;
            OK
        }
        None => ABSENT,
    }
}

fn present(bytes: &Option<Bytes>) -> Result<&[u8], u32>
    ensures { told result ≡ present bytes.now }
{
    match bytes {
        Some(bytes) => Ok(bytes.as_slice()),
        None => Err(ABSENT),
    }
}

fn field_at(request: &TsRequest, field: u32) -> Result<&[u8], u32>
    ensures { told result ≡ field_at field request.now }
{
    match field {
        1 => present(&request.nego_tokens),
        2 => present(&request.auth_info),
        3 => present(&request.pub_key_auth),
        5 => match &request.client_nonce {
            Some(nonce) => Ok(nonce.as_slice()),
            None => Err(ABSENT),
        },
        _ => Err(INVALID_PARAMETER),
    }
}

fn field_in(object: &Option<Box<Object>>, field: u32) -> Result<&[u8], u32>
    ensures { told result ≡ field_in field (request_in (option_map (λ b. b.value) object.now)) }
{
    match request_of(object) {
        Some(request) => field_at(request, field),
        None => Err(INVALID_HANDLE),
    }
}

/// The octets of a field of the request.
#[unsafe(no_mangle)]
pub extern "C" fn newaksu_request_field(
    alloc: Global,
    handle: &mut Handle,
    field: u32,
    out: &mut [u8],
    written: &mut usize,
) -> u32
    ensures kept { handle.new.held ≡ handle.old.held }
    ensures gives { Answers (field_in field (request_in handle.old.held)) out.old out.new
        written.new result }
{
    let object = handle.take(alloc);
    let status = answer(field_in(&object, field), out, written);
    handle.keep(object);
    status
}
