//! A proxy whose look-ups all fail.

ghost use Rattle.std.specs.Prelude.{◌≡◌, Err};
ghost use Rattle.sspi_types.specs.Counting.{counted_on};
ghost use Rattle.sspi_credssp.specs.Proxy.{IsList, HasAnswered};

use crate::proxy::{CredentialsProxy, ProxyError};
use sspi_names::{AuthIdentity, Username};
use std::marker::Model;

/// A proxy whose look-ups all fail.
#[derive(Drop)]
pub struct FailingProxy {
    faults: u64,
}

impl Model for FailingProxy {
    ghost use Rattle.std.specs.Prelude.{ℕ};

    ghost Value = { ℕ };

    ghost view = { λ proxy. proxy.faults };
}

impl FailingProxy {
    ghost use Rattle.sspi_credssp.specs.Table.{failing_meaning};

    /// A proxy that has not been asked yet.
    pub fn new() -> FailingProxy
        ensures { result ≡ 0 }
    {
        FailingProxy { faults: 0 }
    }

    fn fail<T>(&mut self) -> Result<T, ProxyError>
        ensures failed { result ≡ Err ProxyError.Failed }
        ensures count { self.new ≡ counted_on self.old }
        ensures call { HasAnswered failing_meaning self.old result self.new }
    {
        self.faults = self.faults.saturating_add(1);
        Err(ProxyError::Failed)
    }
}

impl CredentialsProxy for FailingProxy {
    ghost use Rattle.sspi_credssp.specs.Table.{failing_meaning};

    ghost meaning = { failing_meaning };

    fn auth_data_by_user(&mut self, _username: &Username) -> Result<AuthIdentity, ProxyError>
        ensures failed { result ≡ Err ProxyError.Failed }
        ensures count { self.new ≡ counted_on self.old }
        ensures call { HasAnswered failing_meaning self.old result self.new }
    {
        self.fail()
    }

    fn auth_data_candidates_by_user(
        &mut self,
        _username: &Username,
    ) -> Result<Vec<AuthIdentity>, ProxyError>
        ensures failed { result ≡ Err ProxyError.Failed }
        ensures count { self.new ≡ counted_on self.old }
        ensures list { IsList result }
        ensures call { HasAnswered failing_meaning self.old result self.new }
    {
        self.fail()
    }

    fn auth_data(&mut self) -> Result<Vec<AuthIdentity>, ProxyError>
        ensures failed { result ≡ Err ProxyError.Failed }
        ensures count { self.new ≡ counted_on self.old }
        ensures list { IsList result }
        ensures call { HasAnswered failing_meaning self.old result self.new }
    {
        self.fail()
    }
}
