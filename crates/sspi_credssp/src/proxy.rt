//! The trait through which a server looks up its users.

ghost use Rattle.std.specs.Prelude.{IfOk};
ghost use Rattle.sspi_credssp.specs.Proxy.{ProxyMeaning, IsEntry, IsTold, AreFound, IsList};
ghost use Rattle.sspi_credssp.specs.Proxy.{HasAnswered};

use sspi_names::{AuthIdentity, Username};
use std::alloc::AllocError;
use std::fmt;

/// Why a look-up returned no credentials.
#[derive(Clone, Copy, Debug, PartialEq, Eq)]
pub enum ProxyError {
    /// There is no such user.
    NotFound,
    /// The look-up could not be made.
    Failed,
    /// Memory ran out for the answer.
    InsufficientMemory,
}

impl fmt::Display for ProxyError {
    fn fmt<W: fmt::Write>(&self, f: &mut fmt::Formatter<W>) -> fmt::Result {
        match self {
            ProxyError::NotFound => write!(f, "no such user"),
            ProxyError::Failed => write!(f, "the look-up failed"),
            ProxyError::InsufficientMemory => write!(f, "out of memory"),
        }
    }
}

impl std::error::Error for ProxyError {}

impl From<AllocError> for ProxyError {
    ghost use Rattle.std.specs.Prelude.{◌≡◌};
    ghost use Rattle.sspi_credssp.specs.declared.proxy.ProxyError.TheVariants.{InsufficientMemory};

    ghost from_gives = { λ _ error. error ≡ InsufficientMemory };

    fn from(_error: AllocError) -> ProxyError {
        ProxyError::InsufficientMemory
    }
}

/// Where a server looks up the identities of its peers.
///
/// Names are compared by form, account and domain, ignoring the case of ASCII letters. A call that
/// answers `Failed` has raised the count of faults, unless the count was already at its maximum.
/// Each count stays at `u64::MAX` once it is there.
pub trait CredentialsProxy: Drop {
    // What the proxy exposes of itself, and how many calls were made and failed.
    ghost meaning: { ProxyMeaning Self };

    /// The first identity with this name; `NotFound` if there is none.
    fn auth_data_by_user(&mut self, username: &Username) -> Result<AuthIdentity, ProxyError>
        ensures call { HasAnswered meaning self.old result self.new }
        ensures entry { IsEntry (meaning.told self.old).entries username.now result };

    /// All identities with this name, in their order; the list may be empty. A user may have
    /// several, such as one with the current password and one with the previous one.
    fn auth_data_candidates_by_user(
        &mut self,
        username: &Username,
    ) -> Result<Vec<AuthIdentity>, ProxyError>
        ensures call { HasAnswered meaning self.old result self.new }
        ensures found { IfOk result (λ identities. AreFound (meaning.told self.old) username.now
            identities.items) }
        ensures list { IsList result };

    /// All identities.
    fn auth_data(&mut self) -> Result<Vec<AuthIdentity>, ProxyError>
        ensures call { HasAnswered meaning self.old result self.new }
        ensures listed { IfOk result (λ identities. IsTold (meaning.told self.old).entries
            identities.items) }
        ensures list { IsList result };
}
