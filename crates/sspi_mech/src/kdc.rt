//! The trait `Kdc`, which answers a mechanism's requests to a KDC.

ghost use Rattle.std.specs.Prelude.{◌≡◌};
ghost use Rattle.sspi_types.specs.Counting.{counted_on};
ghost use Rattle.sspi_mech.specs.Asking.{AskCause, IsTold};

use sspi_names::NetworkRequest;
use std::alloc::AllocError;
use std::marker::Model;

/// Why a KDC gave no reply.
#[derive(Clone, Copy, Debug, PartialEq, Eq)]
pub enum KdcError {
    /// It could not be asked, or did not answer.
    Failed,
    /// There was not enough memory for the request or the reply.
    InsufficientMemory,
}

/// Out of memory is `InsufficientMemory`.
impl From<AllocError> for KdcError {
    ghost use Rattle.std.specs.Prelude.{◌≡◌};
    ghost use Rattle.sspi_mech.specs.declared.kdc.KdcError.TheVariants.{InsufficientMemory};

    ghost from_gives = { λ _ error. error ≡ InsufficientMemory };

    fn from(_error: AllocError) -> KdcError {
        KdcError::InsufficientMemory
    }
}

/// A key distribution center, as its clients reach it.
pub trait Kdc {
    ghost use Rattle.std.specs.Prelude.{ℕ, Option};
    ghost use Rattle.sspi_names.specs.declared.network.NetworkRequest.{NetworkRequest};
    ghost use Rattle.sspi_mech.specs.declared.step.Reply.{Reply};

    // The reply to each request, by the number of the call from 0, if the object exposes it.
    ghost told: { Self → Option (ℕ → NetworkRequest → Reply) };

    // How many calls were made, and how many of them failed. Each stays at `u64::MAX` once it gets
    // there.
    ghost asked: { Self → ℕ };

    ghost faults: { Self → ℕ };

    /// Sends the request and waits for the reply. A call that answers `Failed` raises the count of
    /// faults, unless that was already at its maximum.
    fn ask(&mut self, request: &NetworkRequest) -> Result<Vec<u8>, KdcError>
        ensures told { told self.new ≡ told self.old }
        ensures asked { asked self.new ≡ counted_on (asked self.old) }
        ensures reply { IsTold (told self.old) (asked self.old) request.now (faults self.old)
            (faults self.new) result }
        ensures cause { AskCause (faults self.old) (faults self.new) result };
}

/// A KDC that cannot be asked.
#[derive(Drop)]
pub struct FailingKdc {
    faults: u64,
}

impl Model for FailingKdc {
    ghost use Rattle.std.specs.Prelude.{ℕ};

    ghost Value = { ℕ };

    ghost view = { λ kdc. kdc.faults };
}

impl FailingKdc {
    /// A KDC that has not been asked yet.
    pub fn new() -> FailingKdc
        ensures { result ≡ 0 }
    {
        FailingKdc { faults: 0 }
    }
}

impl Kdc for FailingKdc {
    ghost use Rattle.std.specs.Prelude.{Some};
    ghost use Rattle.sspi_mech.specs.declared.step.Reply.TheVariants.{Failed};

    ghost told = { λ _. Some (λ _ _. Failed) };

    ghost asked = { λ calls. calls };

    ghost faults = { λ calls. calls };

    fn ask(&mut self, _request: &NetworkRequest) -> Result<Vec<u8>, KdcError>
        ensures failed { result ≡ Err KdcError.Failed }
        ensures count { self.new ≡ counted_on self.old }
        ensures cause { AskCause self.old self.new result }
    {
        self.faults = self.faults.saturating_add(1);
        Err(KdcError::Failed)
    }
}
