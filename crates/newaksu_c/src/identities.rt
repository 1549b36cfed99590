//! The identities that a server knows.
ghost use Rattle.std.specs.Prelude.{[], Ok, Some};
ghost use Rattle.newaksu_c.specs.declared.object.Object.TheVariants as objects;
ghost use Rattle.newaksu_c.specs.Putting.{Puts};
ghost use Rattle.newaksu_c.specs.Held.{identities_in};
ghost use Rattle.newaksu_c.specs.Identities.{HasAdded};
ghost use Rattle.newaksu_c.specs.Settings.{identity_of};

use crate::handle::Handle;
use crate::identity_list::IdentityList;
use crate::object::Object;
use crate::putting::put;
use crate::settings::identity_of;
use crate::status::{INSUFFICIENT_MEMORY, INVALID_HANDLE, OK};
use std::alloc::Global;

/// A list without identities.
#[unsafe(no_mangle)]
pub extern "C" fn newaksu_identities_new(alloc: Global, handle: &mut Handle) -> u32
    ensures { Puts handle.old.held handle.new.held (Ok (objects.Identities [])) result }
{
    put(alloc, handle, Object::Identities(IdentityList::new(alloc)))
}

fn add(alloc: Global, object: &mut Object, name: &[u8], password: &[u8]) -> u32
    ensures { HasAdded (identities_in (Some object.old)) (identity_of name.now password.now)
        (Some object.old) (Some object.new)
        result }
{
    let Object::Identities(identities) = object else {
        return INVALID_HANDLE;
    };
    match identity_of(alloc, name, password) {
        Ok(identity) => match identities.push(identity) {
            Ok(()) => OK,
            Err(_) => INSUFFICIENT_MEMORY,
        },
        Err(status) => status,
    }
}

/// Puts an identity at the end of the list: its name and its password, in UTF-8.
#[unsafe(no_mangle)]
pub extern "C" fn newaksu_identities_add(
    alloc: Global,
    handle: &mut Handle,
    name: &[u8],
    password: &[u8],
) -> u32
    ensures { HasAdded (identities_in handle.old.held) (identity_of name.now password.now)
        handle.old.held handle.new.held result }
{
    let Some(mut object) = handle.take(alloc) else {
        return INVALID_HANDLE;
    };
    let status = add(alloc, &mut object, name, password);
    handle.put(object);
    status
}
