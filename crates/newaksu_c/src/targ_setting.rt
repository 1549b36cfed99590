//! The fields of a later token, set; and the mechanisms by their identifiers.
ghost use Rattle.std.specs.Prelude.{◌≡◌, ◌≢◌, ℕ, Some};
ghost use Rattle.sspi_tokens.specs.Oids.{kind_of};
ghost use Rattle.newaksu_c.specs.declared.object.Object.TheVariants as objects;
ghost use Rattle.newaksu_c.specs.Held.{targ_in};
ghost use Rattle.newaksu_c.specs.Putting.{SetsOr};
ghost use Rattle.newaksu_c.specs.Changing.{Changes};
ghost use Rattle.newaksu_c.specs.Status.{insufficient_memory};
ghost use Rattle.newaksu_c.specs.Tokens.{mech_number, with_state, with_targ_field};

use crate::handle::Handle;
use crate::object::Object;
use crate::request_setting::set_bytes;
use crate::status::{INSUFFICIENT_MEMORY, INVALID_HANDLE, INVALID_PARAMETER, OK};
use sspi_tokens::{MechKind, NegResult, NegTokenTarg, Oid};
use std::alloc::Global;

fn set_state(object: &mut Object, state: u32) -> u32
    ensures { SetsOr (targ_in (Some object.old)) objects.Targ (with_state state) (Some object.old)
        (Some object.new) result }
{
    let Object::Targ(token) = object else {
        return INVALID_HANDLE;
    };
    token.neg_result = match state {
        0 => Some(NegResult::AcceptComplete),
        1 => Some(NegResult::AcceptIncomplete),
        2 => Some(NegResult::Other),
        _ => return INVALID_PARAMETER,
    };
    OK
}

/// Sets `negState`.
#[unsafe(no_mangle)]
pub extern "C" fn newaksu_targ_set_state(alloc: Global, handle: &mut Handle, state: u32) -> u32
    ensures { SetsOr (targ_in handle.old.held) objects.Targ (with_state state) handle.old.held
        handle.new.held result }
{
    let Some(mut object) = handle.take(alloc) else {
        return INVALID_HANDLE;
    };
    let status = set_state(&mut object, state);
    handle.put(object);
    status
}

fn set_mech(alloc: Global, field: &mut Option<Oid>, bytes: &[u8]) -> u32
    ensures ok { result ≡ 0 → field.new ≡ Some bytes.now }
    ensures err { result ≢ 0 → (result ≡ insufficient_memory) × (field.new ≡ field.old) }
{
    match Oid::from_content(alloc, bytes) {
        Ok(oid) => {
            *field = Some(oid);
            OK
        }
        Err(_) => INSUFFICIENT_MEMORY,
    }
}

fn set_field(alloc: Global, token: &mut NegTokenTarg, field: u32, bytes: &[u8]) -> u32
    ensures { Changes (with_targ_field field bytes.now token.old) token.old token.new result }
{
    match field {
        1 => set_mech(alloc, &mut token.supported_mech, bytes),
        2 => set_bytes(alloc, &mut token.response_token, bytes),
        3 => set_bytes(alloc, &mut token.mech_list_mic, bytes),
        _ => INVALID_PARAMETER,
    }
}

fn set_field_in(alloc: Global, object: &mut Object, field: u32, bytes: &[u8]) -> u32
    ensures { SetsOr (targ_in (Some object.old)) objects.Targ (with_targ_field field bytes.now)
        (Some object.old) (Some object.new)
        result }
{
    match object {
        Object::Targ(token) => set_field(alloc, token, field, bytes),
        _ => INVALID_HANDLE,
    }
}

/// Sets a field, by the numbers of `newaksu_targ_field`.
#[unsafe(no_mangle)]
pub extern "C" fn newaksu_targ_set_field(
    alloc: Global,
    handle: &mut Handle,
    field: u32,
    bytes: &[u8],
) -> u32
    ensures { SetsOr (targ_in handle.old.held) objects.Targ (with_targ_field field bytes.now)
        handle.old.held handle.new.held
        result }
{
    let Some(mut object) = handle.take(alloc) else {
        return INVALID_HANDLE;
    };
    let status = set_field_in(alloc, &mut object, field, bytes);
    handle.put(object);
    status
}

fn number_of(kind: MechKind) -> u32
    ensures { result ≡ mech_number kind }
{
    match kind {
        MechKind::Other => 0,
        MechKind::MsKerberos => 1,
        MechKind::Kerberos => 2,
        MechKind::Ntlm => 3,
    }
}

/// Which mechanism an identifier names, by its content bytes.
#[unsafe(no_mangle)]
pub extern "C" fn newaksu_mech_kind(alloc: Global, oid: &[u8], kind: &mut u32) -> u32
    ensures ok { result ≡ 0 → kind.new ≡ mech_number (kind_of oid.now) }
    ensures err { result ≢ 0 → (result ≡ insufficient_memory) × (kind.new ≡ kind.old) }
{
    match Oid::from_content(alloc, oid) {
        Ok(oid) => {
            *kind = number_of(oid.kind());
            OK
        }
        Err(_) => INSUFFICIENT_MEMORY,
    }
}
