//! Room for one more element, reserved before anything else changes.

ghost use Rattle.std.specs.Prelude.{◌≡◌, ◌<◌, ◌-◌, vec_len, vec_capacity, OnOk};

use std::alloc::AllocError;

// Room for what most exchanges need is reserved with the first entry.
const USUAL: usize = 8;

// Makes room for one more entry.
pub fn reserve_one<T>(entries: &mut Vec<T>) -> Result<(), AllocError>
    ensures items { entries.new.items ≡ entries.old.items }
    ensures room { OnOk result (0 < vec_capacity entries.new - vec_len entries.new) }
{
    let more = if entries.is_empty() { USUAL } else { 1 };
    entries.reserve(more)
}
