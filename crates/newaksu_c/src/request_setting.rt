//! The fields of a TSRequest, set.
ghost use Rattle.std.specs.Prelude.{◌≡◌, ◌≢◌, Some, length};
ghost use Rattle.newaksu_c.specs.declared.object.Object.TheVariants as objects;
ghost use Rattle.newaksu_c.specs.Held.{request_in};
ghost use Rattle.newaksu_c.specs.Putting.{Sets, SetsOr};
ghost use Rattle.newaksu_c.specs.Changing.{Changes};
ghost use Rattle.newaksu_c.specs.Status.{insufficient_memory, invalid_parameter};
ghost use Rattle.newaksu_c.specs.Requests.{with_field, without_field};

use crate::handle::Handle;
use crate::kept_request::KeptRequest;
use crate::object::Object;
use crate::status::{INSUFFICIENT_MEMORY, INVALID_HANDLE, INVALID_PARAMETER, OK};
use sspi_tsreq::TsRequest;
use sspi_types::{Bytes, NStatusCode};
use std::alloc::Global;

fn set_version(object: &mut Object, version: u32) -> u32
    ensures { Sets (request_in (Some object.old)) objects.Request
        (λ r. record r { version = version })
        (Some object.old) (Some object.new) result }
{
    match object {
        Object::Request(KeptRequest { request, .. }) => {
            request.version = version;
            OK
        }
        _ => INVALID_HANDLE,
    }
}

/// Sets the version.
#[unsafe(no_mangle)]
pub extern "C" fn newaksu_request_set_version(
    alloc: Global,
    handle: &mut Handle,
    version: u32,
) -> u32
    ensures { Sets (request_in handle.old.held) objects.Request
        (λ r. record r { version = version }) handle.old.held
        handle.new.held result }
{
    let Some(mut object) = handle.take(alloc) else {
        return INVALID_HANDLE;
    };
    let status = set_version(&mut object, version);
    handle.put(object);
    status
}

fn set_code(object: &mut Object, code: u32) -> u32
    ensures { Sets (request_in (Some object.old)) objects.Request
        (λ r. record r { error_code = Some (record { 0 = code }) })
        (Some object.old) (Some object.new) result }
{
    match object {
        Object::Request(KeptRequest { request, .. }) => {
            request.error_code = Some(NStatusCode(code));
            OK
        }
        _ => INVALID_HANDLE,
    }
}

/// Sets the error code.
#[unsafe(no_mangle)]
pub extern "C" fn newaksu_request_set_error_code(
    alloc: Global,
    handle: &mut Handle,
    code: u32,
) -> u32
    ensures { Sets (request_in handle.old.held) objects.Request
        (λ r. record r { error_code = Some (record { 0 = code }) })
        handle.old.held handle.new.held result }
{
    let Some(mut object) = handle.take(alloc) else {
        return INVALID_HANDLE;
    };
    let status = set_code(&mut object, code);
    handle.put(object);
    status
}

pub(crate) fn set_bytes(alloc: Global, field: &mut Option<Bytes>, bytes: &[u8]) -> u32
    ensures ok { result ≡ 0 → field.new ≡ Some bytes.now }
    ensures err { result ≢ 0 → (result ≡ insufficient_memory) × (field.new ≡ field.old) }
{
    match Bytes::from_slice(alloc, bytes) {
        Ok(bytes) => {
            *field = Some(bytes);
            OK
        }
        Err(_) => INSUFFICIENT_MEMORY,
    }
}

fn set_nonce(field: &mut Option<[u8; 32]>, bytes: &[u8]) -> u32
    ensures ok { length bytes.now ≡ 32 → (result ≡ 0) × (field.new ≡ Some bytes.now) }
    ensures err { length bytes.now ≢ 32 → (result ≡ invalid_parameter) × (field.new ≡ field.old) }
{
    match bytes.as_array() {
        Some(bytes) => {
            *field = Some(*bytes);
            OK
        }
        None => INVALID_PARAMETER,
    }
}

fn set_field(alloc: Global, request: &mut TsRequest, field: u32, bytes: &[u8]) -> u32
    ensures { Changes (with_field field bytes.now request.old) request.old request.new result }
{
    match field {
        1 => set_bytes(alloc, &mut request.nego_tokens, bytes),
        2 => set_bytes(alloc, &mut request.auth_info, bytes),
        3 => set_bytes(alloc, &mut request.pub_key_auth, bytes),
        5 => set_nonce(&mut request.client_nonce, bytes),
        _ => INVALID_PARAMETER,
    }
}

fn set_field_in(alloc: Global, object: &mut Object, field: u32, bytes: &[u8]) -> u32
    ensures { SetsOr (request_in (Some object.old)) objects.Request (with_field field bytes.now)
        (Some object.old) (Some object.new) result }
{
    match object {
        Object::Request(KeptRequest { request, .. }) => set_field(alloc, request, field, bytes),
        _ => INVALID_HANDLE,
    }
}

/// Sets the octets of a field.
#[unsafe(no_mangle)]
pub extern "C" fn newaksu_request_set_field(
    alloc: Global,
    handle: &mut Handle,
    field: u32,
    bytes: &[u8],
) -> u32
    ensures { SetsOr (request_in handle.old.held) objects.Request (with_field field bytes.now)
        handle.old.held handle.new.held
        result }
{
    let Some(mut object) = handle.take(alloc) else {
        return INVALID_HANDLE;
    };
    let status = set_field_in(alloc, &mut object, field, bytes);
    handle.put(object);
    status
}

fn clear_field(request: &mut TsRequest, field: u32) -> u32
    ensures { Changes (without_field field request.old) request.old request.new result }
{
    match field {
        1 => request.nego_tokens = None,
        2 => request.auth_info = None,
        3 => request.pub_key_auth = None,
        4 => request.error_code = None,
        5 => request.client_nonce = None,
        _ => return INVALID_PARAMETER,
    }
    OK
}

fn clear_field_in(object: &mut Object, field: u32) -> u32
    ensures { SetsOr (request_in (Some object.old)) objects.Request (without_field field)
        (Some object.old) (Some object.new) result }
{
    match object {
        Object::Request(KeptRequest { request, .. }) => clear_field(request, field),
        _ => INVALID_HANDLE,
    }
}

/// Takes a field out of the request.
#[unsafe(no_mangle)]
pub extern "C" fn newaksu_request_clear_field(alloc: Global, handle: &mut Handle, field: u32) -> u32
    ensures { SetsOr (request_in handle.old.held) objects.Request (without_field field)
        handle.old.held handle.new.held result }
{
    let Some(mut object) = handle.take(alloc) else {
        return INVALID_HANDLE;
    };
    let status = clear_field_in(&mut object, field);
    handle.put(object);
    status
}
