//! Who an NTLM client logs on as.

ghost use Rattle.std.specs.Prelude.{◌≡◌, ◌≤◌, length, IfOk, IfErr, option_copied};
ghost use Rattle.sspi_names.specs.Name.{inner_of};
ghost use Rattle.sspi_mech.specs.NtlmSteps.{login_of, MayWantLogin};
ghost use Rattle.sspi_mech.specs.Answered.{Gives};

use crate::named::LONGEST_NAME;
use crate::refusal::Refusal;
use sspi_names::{CredentialsBuffers, Username};
use sspi_types::{ErrorKind, Reason, Text};
use std::alloc::Global;

/// Who a client logs on as.
#[derive(Drop)]
pub struct Login {
    /// The name of the user, with its domain if it has one.
    pub name: Username,
    /// The password, as text.
    pub password: Text,
}

/// The name and the password of a client's credentials. It allocates only for a name that does not
/// mix the two forms.
pub fn login_of(alloc: Global, handle: Option<&CredentialsBuffers>) -> Result<Login, Refusal>
    ensures answer { Gives result (login_of (option_copied handle.entry)) }
    ensures memory { IfErr result (λ error. error.error_type ≡ ErrorKind.InsufficientMemory →
        MayWantLogin (login_of (option_copied handle.entry))) }
    ensures short { IfOk result (λ login. length (inner_of login.name) ≤ 65535) }
{
    let buffers = match handle {
        None => return Err(Refusal::new(ErrorKind::NoCredentials, Reason::NoAuthData)),
        Some(CredentialsBuffers::Keytab(_)) => return Err(Refusal::new(
            ErrorKind::UnknownCredentials,
            Reason::Keytab,
        )),
        Some(CredentialsBuffers::AuthIdentity(buffers)) => buffers,
    };
    let name = buffers.username(alloc)?;
    if name.inner().len() > LONGEST_NAME {
        return Err(Refusal::new(ErrorKind::InternalError, Reason::TooLong));
    }
    let password = buffers.password.value.to_string(alloc)?;
    Ok(Login {
        name,
        password: Text::from_string(password),
    })
}
