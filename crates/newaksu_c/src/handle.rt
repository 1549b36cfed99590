//! What C keeps of an object: one word, which is zero if there is none.
ghost use Rattle.std.specs.Prelude.{◌≡◌, None, Some, MatchOption, OnOk, OnErr, option_map};
ghost use Rattle.std.specs.declared.option.Option.{Option};
ghost use Rattle.newaksu_c.specs.declared.object.Object.{Object as What};
ghost use Rattle.newaksu_c.specs.Owned.{owned, coded_held};

use crate::loose::Loose;
use crate::object::Object;
use std::alloc::{AllocError, Global};
use std::marker::Model;
use std::ptr::null_mut;

/// A handle is zeroed before its first use, and never copied: it owns the object behind it.
#[repr(C)]
pub struct Handle {
    pub(crate) at: *mut u8,
    pub(crate) alloc: Global,
    pub ghost held: { Option What } by { coded_held },
}

impl Model for Handle {
    ghost also_owns = { λ h. owned h.alloc h.at h.held };
}

impl Handle {
    /// A handle with nothing behind it.
    pub(crate) fn empty(alloc: Global) -> Handle
        ensures { result.held ≡ None }
    {
        Handle {
            at: null_mut(),
            alloc,
        }
    }

    // A handle that owns the box.
    fn of(value: Loose<Object, Global>) -> Handle
        ensures { result.held ≡ Some value.value }
    {
        let Loose { at, alloc } = value;
        Handle {
            at: at as *mut u8,
            alloc,
        }
    }

    // The box that it owned, if there was one.
    fn into_loose(self) -> Option<Loose<Object, Global>>
        ensures { MatchOption result (self.held ≡ None) (λ b. self.held ≡ Some b.value) }
    {
        let Handle { at, alloc } = self;
        if at.is_null() {
            None
        } else {
            Some(Loose {
                at: at as *mut Object,
                alloc,
            })
        }
    }

    /// Takes the object behind the handle, which is then empty.
    pub(crate) fn take(&mut self, alloc: Global) -> Option<Box<Object>>
        ensures taken { option_map (λ b. b.value) result ≡ self.old.held }
        ensures empty { self.new.held ≡ None }
    {
        let before = std::mem::replace(self, Handle::empty(alloc));
        match before.into_loose() {
            Some(loose) => Some(loose.into_box()),
            None => None,
        }
    }

    /// Puts an object behind the handle, and releases the one before.
    pub(crate) fn put(&mut self, object: Box<Object>)
        ensures { self.new.held ≡ Some object.value }
    {
        let before = std::mem::replace(self, Handle::of(Loose::of(object)));
        if let Some(loose) = before.into_loose() {
            drop(loose.into_box());
        }
    }

    /// Puts back what was taken.
    pub(crate) fn keep(&mut self, object: Option<Box<Object>>)
        requires { self.old.held ≡ None }
        ensures { self.new.held ≡ option_map (λ b. b.value) object }
    {
        if let Some(object) = object {
            self.put(object);
        }
    }

    /// Puts an object behind the handle, in the memory of the one before; an empty handle stays
    /// empty when out of memory.
    pub(crate) fn fill(&mut self, alloc: Global, object: Object) -> Result<(), AllocError>
        ensures ok { OnOk result (self.new.held ≡ Some object) }
        ensures err { OnErr result (self.new.held ≡ self.old.held) }
    {
        match self.take(alloc) {
            Some(before) => {
                self.put(replaced(before, object));
                Ok(())
            }
            None => self.fill_empty(alloc, object),
        }
    }

    fn fill_empty(&mut self, alloc: Global, object: Object) -> Result<(), AllocError>
        ensures ok { OnOk result (self.new.held ≡ Some object) }
        ensures err { OnErr result (self.new.held ≡ self.old.held) }
    {
        match Box::new(alloc, object) {
            Ok(object) => {
                self.put(object);
                Ok(())
            }
            Err(_) => Err(AllocError),
        }
    }
}

// The same memory, with another object in it.
fn replaced(before: Box<Object>, object: Object) -> Box<Object>
    ensures { result.value ≡ object }
{
    let mut after = before;
    *after = object;
    after
}
