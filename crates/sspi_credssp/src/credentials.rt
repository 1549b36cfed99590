//! TSCredentials as an end seals and opens them (MS-CSSP 2.2.1.2).

ghost use Rattle.std.specs.Prelude.{◌≡◌, ◌≢◌, Ok, Err, IfOk, IfErr};
ghost use Rattle.sspi_credssp.specs.Exchange.{delegated_text, delegated_identity};
ghost use Rattle.sspi_mech.specs.Refusals.{error_of};

use sspi_mech::Refusal;
use sspi_names::{AuthIdentity, Credentials, CredentialsBuffers};
use sspi_tsreq::{CredSspMode, read_ts_credentials_from_slice, write_ts_credentials};
use sspi_types::ErrorKind;
use std::alloc::Global;

pub fn write_credentials(
    alloc: Global,
    credentials: &Credentials,
    mode: CredSspMode,
) -> Result<Vec<u8>, Refusal>
    ensures text { IfOk result (λ text. delegated_text credentials.now mode ≡ Ok text.items) }
    ensures cause { IfErr result (λ error. error.error_type ≢ ErrorKind.InsufficientMemory →
        delegated_text credentials.now mode ≡ Err (error_of error)) }
{
    let buffers = credentials.to_buffers(alloc)?;
    Ok(write_ts_credentials(alloc, &buffers, mode)?)
}

pub fn read_identity(alloc: Global, text: &[u8]) -> Result<AuthIdentity, Refusal>
    ensures identity { IfOk result (λ identity. delegated_identity text.now ≡ Ok identity) }
    ensures cause { IfErr result (λ error. error.error_type ≢ ErrorKind.InsufficientMemory →
        delegated_identity text.now ≡ Err (error_of error)) }
{
    match read_ts_credentials_from_slice(alloc, text)? {
        CredentialsBuffers::AuthIdentity(buffers) => Ok(AuthIdentity::from_buffers(
            alloc, &buffers,
        )?),
        CredentialsBuffers::Keytab(_) => Err(Refusal::malformed()),
    }
}
