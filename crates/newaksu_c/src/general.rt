//! Calls on any handle.
ghost use Rattle.std.specs.Prelude.{◌≡◌, None, Some};
ghost use Rattle.newaksu_c.specs.Held.{kind_in};
ghost use Rattle.newaksu_c.specs.Status.{released};

use crate::handle::Handle;
use crate::object::kind_of;
use crate::status::{INVALID_HANDLE, OK};
use std::alloc::Global;

/// The version of the library: its three numbers, one byte each.
#[unsafe(no_mangle)]
pub extern "C" fn newaksu_version() -> u32
    ensures { result ≡ 0x000100 }
{
    0x000100
}

/// Releases the object behind the handle.
#[unsafe(no_mangle)]
pub extern "C" fn newaksu_release(alloc: Global, handle: &mut Handle) -> u32
    ensures status { result ≡ released (kind_in handle.old.held) }
    ensures empty { handle.new.held ≡ None }
{
    match handle.take(alloc) {
        Some(_) => OK,
        None => INVALID_HANDLE,
    }
}

/// The kind of the object behind the handle.
#[unsafe(no_mangle)]
pub extern "C" fn newaksu_kind(alloc: Global, handle: &mut Handle, kind: &mut u32) -> u32
    ensures kind { kind.new ≡ kind_in handle.old.held }
    ensures status { result ≡ 0 }
    ensures kept { handle.new.held ≡ handle.old.held }
{
    let object = handle.take(alloc);
    *kind = kind_of(&object);
    handle.keep(object);
    OK
}
