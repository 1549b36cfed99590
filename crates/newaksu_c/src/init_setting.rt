//! The fields of a client's first token, set.
ghost use Rattle.std.specs.Prelude.{◌≡◌, ◌++◌, [], ◌∷◌, Some, IfOk};
ghost use Rattle.newaksu_c.specs.declared.object.Object.TheVariants as objects;
ghost use Rattle.newaksu_c.specs.Held.{init_in};
ghost use Rattle.newaksu_c.specs.Putting.{SetsOr};
ghost use Rattle.newaksu_c.specs.Tokens.{listed, with_mech, with_mech_token};

use crate::handle::Handle;
use crate::object::Object;
use crate::status::{INSUFFICIENT_MEMORY, INVALID_HANDLE, OK};
use sspi_tokens::{MechTypeList, Oid};
use sspi_types::Bytes;
use std::alloc::{AllocError, Global};

fn copied(alloc: Global, list: &[Oid]) -> Result<Vec<Oid>, AllocError>
    ensures { IfOk result (λ copies. copies.items ≡ list.now) }
{
    let mut copies = Vec::new(alloc);
    for oid in list {
        copies.push(oid.clone(alloc)?)?;
    }
    Ok(copies)
}

fn listed(alloc: Global, list: &Option<MechTypeList>) -> Result<Vec<Oid>, AllocError>
    ensures { IfOk result (λ copies. copies.items ≡ listed list.now) }
{
    match list {
        Some(list) => copied(alloc, list.as_slice()),
        None => Ok(Vec::new(alloc)),
    }
}

fn lengthened(
    alloc: Global,
    list: &Option<MechTypeList>,
    oid: &[u8],
) -> Result<MechTypeList, AllocError>
    ensures { IfOk result (λ longer. longer ≡ listed list.now ++ oid.now ∷ []) }
{
    let mut oids = listed(alloc, list)?;
    oids.push(Oid::from_content(alloc, oid)?)?;
    Ok(MechTypeList::from_vec(oids))
}

fn add(alloc: Global, object: &mut Object, oid: &[u8]) -> u32
    ensures { SetsOr (init_in (Some object.old)) objects.Init (with_mech oid.now) (Some object.old)
        (Some object.new) result }
{
    let Object::Init(token) = object else {
        return INVALID_HANDLE;
    };
    match lengthened(alloc, &token.mech_types, oid) {
        Ok(list) => {
            token.mech_types = Some(list);
            OK
        }
        Err(_) => INSUFFICIENT_MEMORY,
    }
}

/// Puts a mechanism, by the content bytes of its identifier, at the end of the list.
#[unsafe(no_mangle)]
pub extern "C" fn newaksu_init_add_mech(alloc: Global, handle: &mut Handle, oid: &[u8]) -> u32
    ensures { SetsOr (init_in handle.old.held) objects.Init (with_mech oid.now) handle.old.held
        handle.new.held result }
{
    let Some(mut object) = handle.take(alloc) else {
        return INVALID_HANDLE;
    };
    let status = add(alloc, &mut object, oid);
    handle.put(object);
    status
}

fn set_token(alloc: Global, object: &mut Object, bytes: &[u8]) -> u32
    ensures { SetsOr (init_in (Some object.old)) objects.Init (with_mech_token bytes.now)
        (Some object.old) (Some object.new) result }
{
    let Object::Init(token) = object else {
        return INVALID_HANDLE;
    };
    match Bytes::from_slice(alloc, bytes) {
        Ok(bytes) => {
            token.mech_token = Some(bytes);
            OK
        }
        Err(_) => INSUFFICIENT_MEMORY,
    }
}

/// Sets the mechanism's token.
#[unsafe(no_mangle)]
pub extern "C" fn newaksu_init_set_token(alloc: Global, handle: &mut Handle, bytes: &[u8]) -> u32
    ensures { SetsOr (init_in handle.old.held) objects.Init (with_mech_token bytes.now)
        handle.old.held handle.new.held result }
{
    let Some(mut object) = handle.take(alloc) else {
        return INVALID_HANDLE;
    };
    let status = set_token(alloc, &mut object, bytes);
    handle.put(object);
    status
}
