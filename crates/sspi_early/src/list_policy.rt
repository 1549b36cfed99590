//! A policy by a list of names.

ghost use Rattle.std.specs.Prelude.{◌≡◌, Ok};
ghost use Rattle.sspi_early.specs.Policy.{HasDecided, is_listed};

use crate::policy::{Policy, PolicyError};
use sspi_names::{AuthIdentity, Username};
use std::alloc::Global;
use std::marker::Model;

/// A policy by a list of names, which it exposes: the users in it may log on. It never fails and
/// allocates nothing.
#[derive(Drop)]
pub struct ListPolicy {
    names: Vec<Username>,
}

impl Model for ListPolicy {
    ghost use Rattle.std.specs.Prelude.{List};
    ghost use Rattle.sspi_names.specs.Name.{Name};

    ghost Value = { List Name };

    ghost view = { λ policy. policy.names.items };
}

impl ListPolicy {
    /// A policy by which the users of these names may log on, and nobody else.
    pub fn new(_alloc: Global, names: Vec<Username>) -> ListPolicy
        ensures { result ≡ names.items }
    {
        ListPolicy { names }
    }
}

/// Whether the name is in the list, ignoring the case of ASCII letters.
fn is_listed(names: &[Username], name: &Username) -> bool
    ensures { result ≡ is_listed names.now name.now }
{
    names.iter().any(|listed| listed.eq_ignore_ascii_case(name))
}

impl Policy for ListPolicy {
    ghost use Rattle.sspi_early.specs.Policy.{list_meaning};

    ghost meaning = { list_meaning };

    fn admits(&mut self, identity: &AuthIdentity) -> Result<bool, PolicyError>
        ensures decision { result ≡ Ok (is_listed self.old identity.now.username) }
        ensures same { self.new ≡ self.old }
        ensures call { HasDecided list_meaning self.old identity.now result self.new }
    {
        Ok(is_listed(&self.names, &identity.username))
    }
}
