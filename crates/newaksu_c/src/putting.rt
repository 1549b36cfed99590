//! Puts an object behind a handle.
ghost use Rattle.std.specs.Prelude.{Ok};
ghost use Rattle.newaksu_c.specs.Putting.{Puts};

use crate::handle::Handle;
use crate::object::Object;
use crate::status::{INSUFFICIENT_MEMORY, OK};
use std::alloc::Global;

/// Puts the object behind the handle, if there is memory for it.
pub(crate) fn put(alloc: Global, handle: &mut Handle, object: Object) -> u32
    ensures { Puts handle.old.held handle.new.held (Ok object) result }
{
    match handle.fill(alloc, object) {
        Ok(()) => OK,
        Err(_) => INSUFFICIENT_MEMORY,
    }
}
