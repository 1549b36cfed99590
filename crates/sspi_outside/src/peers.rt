//! Where a server over the host's mechanism looks up its peers.
ghost use Rattle.std.specs.Prelude.{◌≡◌, [], ◌∷◌, IfOk};
ghost use Rattle.sspi_outside.specs.Peers.{without_password};

use sspi_credssp::{CredentialsProxy, ProxyError, TableProxy};
use sspi_names::{AuthIdentity, Username};
use sspi_types::{Secret, Text};
use std::alloc::{AllocError, Global};

/// Whoever the mechanism names: each name has one identity, with that name and without a password.
/// For a mechanism that keeps its users in a directory of its own, and names only those that it
/// authenticated.
#[derive(Drop)]
pub struct AnyPeer {
    alloc: Global,
    calls: u64,
}

impl AnyPeer {
    /// Allocates nothing.
    pub fn new(alloc: Global) -> AnyPeer
        ensures { result.calls ≡ 0 }
    {
        AnyPeer { alloc, calls: 0 }
    }
}

fn identity_of(alloc: Global, username: &Username) -> Result<AuthIdentity, AllocError>
    ensures { IfOk result (λ identity. identity ≡ without_password username.now) }
{
    Ok(AuthIdentity {
        username: username.clone(alloc)?,
        password: Secret {
            value: Text::from_text(alloc, "")?,
        },
    })
}

fn alone(alloc: Global, username: &Username) -> Result<Vec<AuthIdentity>, AllocError>
    ensures { IfOk result (λ identities. identities.items ≡ without_password username.now ∷ []) }
{
    let mut identities = Vec::new(alloc);
    identities.push(identity_of(alloc, username)?)?;
    Ok(identities)
}

impl CredentialsProxy for AnyPeer {
    ghost use Rattle.sspi_outside.specs.Peers.{any_tells};

    ghost meaning = { record { told = λ _. any_tells; calls = λ peer. peer.calls; faults = λ _. 0 } };

    fn auth_data_by_user(&mut self, username: &Username) -> Result<AuthIdentity, ProxyError> {
        self.calls = self.calls.saturating_add(1);
        match identity_of(self.alloc, username) {
            Ok(identity) => Ok(identity),
            Err(_) => Err(ProxyError::InsufficientMemory),
        }
    }

    fn auth_data_candidates_by_user(
        &mut self,
        username: &Username,
    ) -> Result<Vec<AuthIdentity>, ProxyError> {
        self.calls = self.calls.saturating_add(1);
        match alone(self.alloc, username) {
            Ok(identities) => Ok(identities),
            Err(_) => Err(ProxyError::InsufficientMemory),
        }
    }

    fn auth_data(&mut self) -> Result<Vec<AuthIdentity>, ProxyError> {
        self.calls = self.calls.saturating_add(1);
        Ok(Vec::new(self.alloc))
    }
}

/// The peers that a server accepts.
#[derive(Drop)]
pub enum Peers {
    /// Those of a list.
    Listed(TableProxy),
    /// Whoever the mechanism names.
    Anyone(AnyPeer),
}

impl CredentialsProxy for Peers {
    ghost use Rattle.sspi_outside.specs.PeersMeaning.{peers_meaning};

    ghost meaning = { peers_meaning };

    fn auth_data_by_user(&mut self, username: &Username) -> Result<AuthIdentity, ProxyError> {
        match self {
            Peers::Listed(table) => table.auth_data_by_user(username),
            Peers::Anyone(peer) => peer.auth_data_by_user(username),
        }
    }

    fn auth_data_candidates_by_user(
        &mut self,
        username: &Username,
    ) -> Result<Vec<AuthIdentity>, ProxyError> {
        match self {
            Peers::Listed(table) => table.auth_data_candidates_by_user(username),
            Peers::Anyone(peer) => peer.auth_data_candidates_by_user(username),
        }
    }

    fn auth_data(&mut self) -> Result<Vec<AuthIdentity>, ProxyError> {
        match self {
            Peers::Listed(table) => table.auth_data(),
            Peers::Anyone(peer) => peer.auth_data(),
        }
    }
}
