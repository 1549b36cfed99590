//! The credentials that an NTLM client acquires.

ghost use Rattle.std.specs.Prelude.{option_copied};
ghost use Rattle.sspi_mech.specs.NtlmAcquire.{acquired};
ghost use Rattle.sspi_mech.specs.Answered.{Gives};

use crate::refusal::Refusal;
use sspi_names::{Credentials, CredentialsBuffers};
use sspi_types::{CredentialUse, ErrorKind, Reason};
use std::alloc::Global;

/// The buffers of the credentials, or none if none are given.
pub fn buffers_of(
    alloc: Global,
    credential_use: CredentialUse,
    auth_data: Option<&Credentials>,
) -> Result<Option<CredentialsBuffers>, Refusal>
    ensures { Gives result (acquired credential_use (option_copied auth_data.entry)) }
{
    match auth_data {
        Some(Credentials::AuthIdentity(identity)) => Ok(Some(CredentialsBuffers::AuthIdentity(
            identity.to_buffers(alloc)?,
        ))),
        Some(Credentials::Keytab(_)) => Err(Refusal::new(
            ErrorKind::UnknownCredentials,
            Reason::Keytab,
        )),
        None => match credential_use {
            CredentialUse::Outbound => Err(Refusal::new(
                ErrorKind::NoCredentials,
                Reason::NoAuthData,
            )),
            CredentialUse::Inbound | CredentialUse::Both | CredentialUse::Default => Ok(None),
        },
    }
}
