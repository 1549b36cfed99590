//! A policy that always fails.

ghost use Rattle.std.specs.Prelude.{◌≡◌, Err};
ghost use Rattle.sspi_types.specs.Counting.{counted_on};
ghost use Rattle.sspi_early.specs.Policy.{HasDecided};

use crate::policy::{Policy, PolicyError};
use sspi_names::AuthIdentity;
use std::marker::Model;

/// A policy that fails whenever it is asked, and exposes no names.
#[derive(Drop)]
pub struct FailingPolicy {
    faults: u64,
}

impl Model for FailingPolicy {
    ghost use Rattle.std.specs.Prelude.{ℕ};

    ghost Value = { ℕ };

    ghost view = { λ policy. policy.faults };
}

impl FailingPolicy {
    /// A policy that has not been asked yet.
    pub fn new() -> FailingPolicy
        ensures { result ≡ 0 }
    {
        FailingPolicy { faults: 0 }
    }
}

impl Policy for FailingPolicy {
    ghost use Rattle.sspi_early.specs.Policy.{failing_meaning};

    ghost meaning = { failing_meaning };

    fn admits(&mut self, _identity: &AuthIdentity) -> Result<bool, PolicyError>
        ensures failed { result ≡ Err PolicyError.Failed }
        ensures count { self.new ≡ counted_on self.old }
        ensures call { HasDecided failing_meaning self.old _identity.now result self.new }
    {
        self.faults = self.faults.saturating_add(1);
        Err(PolicyError::Failed)
    }
}
