//! A list of identities.
ghost use Rattle.std.specs.Prelude.{◌≡◌, ◌++◌, [], ◌∷◌, IfOk, OnErr, OnOk};

use sspi_names::AuthIdentity;
use std::alloc::{AllocError, Global};
use std::marker::Model;

/// Identities, which contracts see as a list.
#[derive(Drop)]
pub struct IdentityList {
    list: Vec<AuthIdentity>,
}

impl Model for IdentityList {
    ghost use Rattle.std.specs.Prelude.{List};
    ghost use Rattle.sspi_names.specs.declared.identity.AuthIdentity.{AuthIdentity};

    ghost Value = { List AuthIdentity };

    ghost view = { λ it. it.list.items };
}

impl IdentityList {
    /// No identities. Allocates nothing.
    pub(crate) fn new(alloc: Global) -> IdentityList
        ensures { result ≡ [] }
    {
        IdentityList {
            list: Vec::new(alloc),
        }
    }

    /// Puts an identity at the end, or leaves the list as it was when out of memory.
    pub(crate) fn push(&mut self, identity: AuthIdentity) -> Result<(), AllocError>
        ensures ok { OnOk result (self.new ≡ self.old ++ identity ∷ []) }
        ensures err { OnErr result (self.new ≡ self.old) }
    {
        match self.list.push(identity) {
            Ok(()) => Ok(()),
            Err(_) => Err(AllocError),
        }
    }

    /// The identities, in memory of their own.
    pub(crate) fn copied(&self, alloc: Global) -> Result<Vec<AuthIdentity>, AllocError>
        ensures { IfOk result (λ copies. copies.items ≡ self.now) }
    {
        let mut copies = Vec::new(alloc);
        for identity in &self.list {
            copies.push(identity.clone(alloc)?)?;
        }
        Ok(copies)
    }
}
