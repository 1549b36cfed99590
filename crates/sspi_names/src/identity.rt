//! A user name with its password, as text and as UTF-16.

ghost use Rattle.std.specs.Prelude.{◌≡◌, IfOk};

use crate::username::Username;
use crate::utf16::Utf16Text;
use sspi_types::{Bytes, Secret, Text};
use std::alloc::{AllocError, Global};

/// A user name and its password.
#[derive(Drop, PartialEq, Eq)]
pub struct AuthIdentity {
    /// The user's name.
    pub username: Username,
    /// The user's password.
    pub password: Secret<Text>,
}

/// A user name, its domain and its password as UTF-16 (SEC_WINNT_AUTH_IDENTITY).
#[derive(Drop, PartialEq, Eq)]
pub struct AuthIdentityBuffers {
    /// The user's name; a user principal name is kept here whole.
    pub user: Utf16Text,
    /// The user's domain; empty for a user principal name.
    pub domain: Utf16Text,
    /// The user's password.
    pub password: Secret<Utf16Text>,
}

/// A user name and the keytab that has its keys.
#[derive(Drop, PartialEq, Eq)]
pub struct KeytabIdentity {
    /// The user's name.
    pub username: Username,
    /// The bytes of the keytab.
    pub keytab: Bytes,
}

impl AuthIdentity {
    /// A copy in memory of its own, equal to this identity.
    pub fn clone(&self, alloc: Global) -> Result<AuthIdentity, AllocError>
        ensures { IfOk result (λ identity. identity ≡ self.now) }
    {
        Ok(AuthIdentity {
            username: self.username.clone(alloc)?,
            password: Secret {
                value: self.password.value.clone(alloc)?,
            },
        })
    }
}

impl AuthIdentityBuffers {
    /// A copy in memory of its own, equal to these buffers.
    pub fn clone(&self, alloc: Global) -> Result<AuthIdentityBuffers, AllocError>
        ensures { IfOk result (λ buffers. buffers ≡ self.now) }
    {
        Ok(AuthIdentityBuffers {
            user: self.user.clone(alloc)?,
            domain: self.domain.clone(alloc)?,
            password: Secret {
                value: self.password.value.clone(alloc)?,
            },
        })
    }
}

impl KeytabIdentity {
    /// A copy in memory of its own, equal to this identity.
    pub fn clone(&self, alloc: Global) -> Result<KeytabIdentity, AllocError>
        ensures { IfOk result (λ identity. identity ≡ self.now) }
    {
        Ok(KeytabIdentity {
            username: self.username.clone(alloc)?,
            keytab: self.keytab.clone(alloc)?,
        })
    }
}
