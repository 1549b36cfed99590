//! A proxy over a list of identities.

ghost use Rattle.std.specs.Prelude.{◌≡◌, ◌≤◌, false, IsTrue, IfOk, Some, option_copied};
ghost use Rattle.sspi_types.specs.Counting.{counted_on};
ghost use Rattle.sspi_credssp.specs.Proxy.{fails_at, candidates_of, entry_of};

use crate::proxy::{CredentialsProxy, ProxyError};
use sspi_names::{AuthIdentity, Username};
use std::alloc::{AllocError, Global};
use std::marker::Model;

/// A proxy over a list of identities. It exposes its list, and which of its calls fail.
#[derive(Drop)]
pub struct TableProxy {
    alloc: Global,
    entries: Vec<AuthIdentity>,
    failing: Vec<u64>,
    calls: u64,
    faults: u64,
}

impl Model for TableProxy {
    ghost use Rattle.sspi_credssp.specs.Table.{TableView};

    ghost Value = { TableView };

    ghost view = { λ a. record {
      entries = a.entries.items;
      failing = a.failing.items;
      calls = a.calls;
      faults = a.faults;
    } };
}

impl TableProxy {
    /// A proxy over these entries. Calls are numbered from 0, and those in `failing` fail.
    pub fn new(alloc: Global, entries: Vec<AuthIdentity>, failing: Vec<u64>) -> TableProxy
        ensures { result ≡ record {
          entries = entries.items;
          failing = failing.items;
          calls = 0;
          faults = 0;
        } }
    {
        TableProxy {
            alloc,
            entries,
            failing,
            calls: 0,
            faults: 0,
        }
    }

    // Counts a call, and says whether it fails.
    fn count(&mut self) -> bool
        // Which call fails, and all that may change.
        ensures fails { result ≡ fails_at self.old.failing self.old.calls }
        ensures counted { self.new ≡ record self.old {
          calls = counted_on self.old.calls;
          faults = self.new.faults;
        } }
        // When the count of faults rises.
        ensures rises { self.old.faults ≤ self.new.faults }
        ensures failed { IsTrue result → counted_on self.old.faults ≤ self.new.faults }
        ensures kept { result ≡ false → self.new.faults ≡ self.old.faults }
    {
        let call = self.calls;
        let fails = self.failing.iter().any(|number| *number == call);
        self.calls = self.calls.saturating_add(1);
        if fails {
            self.faults = self.faults.saturating_add(1);
        }
        fails
    }
}

#[tactic(auto, unfolding(crate::specs::Proxy::entry_of))]
fn first_named<'a>(entries: &'a [AuthIdentity], username: &Username) -> Option<&'a AuthIdentity>
    ensures { option_copied result ≡ entry_of entries.now username.now }
{
    entries
        .iter()
        .find(|entry| entry.username.eq_ignore_ascii_case(username))
}

fn copy_all(alloc: Global, entries: &[AuthIdentity]) -> Result<Vec<AuthIdentity>, AllocError>
    ensures { IfOk result (λ copies. copies.items ≡ entries.now) }
{
    let mut copies = Vec::new(alloc);
    for entry in entries {
        copies.push(entry.clone(alloc)?)?;
    }
    Ok(copies)
}

#[tactic(auto, unfolding(crate::specs::Proxy::candidates_of))]
fn copy_named(
    alloc: Global,
    entries: &[AuthIdentity],
    username: &Username,
) -> Result<Vec<AuthIdentity>, AllocError>
    ensures { IfOk result (λ copies. copies.items ≡ candidates_of entries.now username.now) }
{
    let mut copies = Vec::new(alloc);
    for entry in entries {
        if entry.username.eq_ignore_ascii_case(username) {
            copies.push(entry.clone(alloc)?)?;
        }
    }
    Ok(copies)
}

impl CredentialsProxy for TableProxy {
    ghost use Rattle.sspi_credssp.specs.Table.{table_meaning};

    ghost meaning = { table_meaning };

    fn auth_data_by_user(&mut self, username: &Username) -> Result<AuthIdentity, ProxyError> {
        if self.count() {
            return Err(ProxyError::Failed);
        }
        match first_named(&self.entries, username) {
            None => Err(ProxyError::NotFound),
            Some(entry) => match entry.clone(self.alloc) {
                Ok(identity) => Ok(identity),
                Err(_) => Err(ProxyError::InsufficientMemory),
            },
        }
    }

    fn auth_data_candidates_by_user(
        &mut self,
        username: &Username,
    ) -> Result<Vec<AuthIdentity>, ProxyError> {
        if self.count() {
            return Err(ProxyError::Failed);
        }
        match copy_named(self.alloc, &self.entries, username) {
            Ok(identities) => Ok(identities),
            Err(_) => Err(ProxyError::InsufficientMemory),
        }
    }

    fn auth_data(&mut self) -> Result<Vec<AuthIdentity>, ProxyError> {
        if self.count() {
            return Err(ProxyError::Failed);
        }
        match copy_all(self.alloc, &self.entries) {
            Ok(identities) => Ok(identities),
            Err(_) => Err(ProxyError::InsufficientMemory),
        }
    }
}
