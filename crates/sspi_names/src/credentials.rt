//! What a client authenticates with: a password or a keytab.

ghost use Rattle.std.specs.Prelude.{◌≡◌, IfOk, option_copied};

use crate::identity::{AuthIdentity, AuthIdentityBuffers, KeytabIdentity};
use std::alloc::{AllocError, Global};

/// What a client authenticates with.
#[derive(Drop, PartialEq, Eq)]
pub enum Credentials {
    /// A user name and its password.
    AuthIdentity(AuthIdentity),
    /// A user name and a keytab.
    Keytab(KeytabIdentity),
}

/// `Credentials` with a name and a password as UTF-16.
#[derive(Drop, PartialEq, Eq)]
pub enum CredentialsBuffers {
    /// A user name, its domain and its password, as UTF-16.
    AuthIdentity(AuthIdentityBuffers),
    /// A user name and a keytab, as in `Credentials`.
    Keytab(KeytabIdentity),
}

impl From<AuthIdentity> for Credentials {
    ghost use Rattle.sspi_names.specs.declared.credentials.Credentials.TheVariants as credentials;
    ghost use Rattle.std.specs.Prelude.{◌≡◌};

    ghost from_gives = { λ identity made. made ≡ credentials.AuthIdentity identity };

    fn from(identity: AuthIdentity) -> Credentials {
        Credentials::AuthIdentity(identity)
    }
}

impl Credentials {
    ghost use Rattle.sspi_names.specs.Identity.{AreCredentials, credentials_buffers_of};
    ghost use Rattle.sspi_names.specs.Identity.{password_identity};

    /// The credentials with a name and a password as UTF-16. A keytab identity is copied unchanged.
    pub fn to_buffers(&self, alloc: Global) -> Result<CredentialsBuffers, AllocError>
        ensures buffers { IfOk result (λ buffers. buffers ≡ credentials_buffers_of self.now) }
        ensures well_formed { IfOk result (λ buffers. AreCredentials buffers) }
    {
        match self {
            Credentials::AuthIdentity(identity) => Ok(CredentialsBuffers::AuthIdentity(
                identity.to_buffers(alloc)?,
            )),
            Credentials::Keytab(identity) => Ok(CredentialsBuffers::Keytab(identity.clone(alloc)?)),
        }
    }

    /// The identity with a password; `None` exactly for a keytab.
    pub fn auth_identity(&self) -> Option<&AuthIdentity>
        ensures { option_copied result ≡ password_identity self.now }
    {
        match self {
            Credentials::AuthIdentity(identity) => Some(identity),
            Credentials::Keytab(_) => None,
        }
    }

    /// A copy in memory of its own, equal to these credentials.
    pub fn clone(&self, alloc: Global) -> Result<Credentials, AllocError>
        ensures { IfOk result (λ credentials. credentials ≡ self.now) }
    {
        match self {
            Credentials::AuthIdentity(identity) => Ok(Credentials::AuthIdentity(identity.clone(
                alloc,
            )?)),
            Credentials::Keytab(identity) => Ok(Credentials::Keytab(identity.clone(alloc)?)),
        }
    }
}

impl CredentialsBuffers {
    ghost use Rattle.sspi_names.specs.Identity.{password_buffers};

    /// The buffers of a name and a password; `None` exactly for a keytab.
    pub fn as_auth_identity(&self) -> Option<&AuthIdentityBuffers>
        ensures { option_copied result ≡ password_buffers self.now }
    {
        match self {
            CredentialsBuffers::AuthIdentity(buffers) => Some(buffers),
            CredentialsBuffers::Keytab(_) => None,
        }
    }

    /// The buffers of a name and a password, moved and not copied; `None` exactly for a keytab.
    pub fn into_auth_identity(self) -> Option<AuthIdentityBuffers>
        ensures { result ≡ password_buffers self }
    {
        match self {
            CredentialsBuffers::AuthIdentity(buffers) => Some(buffers),
            CredentialsBuffers::Keytab(_) => None,
        }
    }

    /// A copy in memory of its own, equal to these credentials.
    pub fn clone(&self, alloc: Global) -> Result<CredentialsBuffers, AllocError>
        ensures { IfOk result (λ credentials. credentials ≡ self.now) }
    {
        match self {
            CredentialsBuffers::AuthIdentity(buffers) => Ok(CredentialsBuffers::AuthIdentity(
                buffers.clone(alloc)?,
            )),
            CredentialsBuffers::Keytab(identity) => Ok(CredentialsBuffers::Keytab(identity.clone(
                alloc,
            )?)),
        }
    }
}
