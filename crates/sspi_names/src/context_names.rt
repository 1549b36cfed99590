//! The name of a context's user (SecPkgContext_Names).

ghost use Rattle.std.specs.Prelude.{◌≡◌, IfOk};

use crate::username::Username;
use std::alloc::{AllocError, Global};

/// The name of the user of a context (SecPkgContext_Names).
#[derive(Drop, PartialEq, Eq)]
pub struct ContextNames {
    /// The user's name.
    pub username: Username,
}

impl ContextNames {
    /// A copy in memory of its own, equal to these names.
    pub fn clone(&self, alloc: Global) -> Result<ContextNames, AllocError>
        ensures { IfOk result (λ names. names ≡ self.now) }
    {
        Ok(ContextNames {
            username: self.username.clone(alloc)?,
        })
    }
}
