//! Who a Kerberos client logs on as.

ghost use Rattle.std.specs.Prelude.{◌≡◌, ◌≤◌, length, option_copied, IfErr, IsOk};
ghost use Rattle.sspi_names.specs.Name.{inner_of};
ghost use Rattle.sspi_mech.specs.KerberosLogon.{acquired, name_in, short_name, logon_of};
ghost use Rattle.sspi_mech.specs.KerberosLogon.{MayWantLogon, protocol_of, request_at};
ghost use Rattle.sspi_mech.specs.Answered.{Gives};

use crate::kerberos::realms::Realms;
use crate::named::LONGEST_NAME;
use crate::refusal::Refusal;
use sspi_names::{Credentials, CredentialsBuffers, NetworkProtocol, NetworkRequest, Username};
use sspi_types::{Bytes, CredentialUse, ErrorKind, Reason, Text};
use std::alloc::Global;
use std::marker::Model;

/// The name of a client, short enough for a message.
#[derive(Drop)]
pub struct ClientName {
    name: Username,
}

impl Model for ClientName {
    ghost use Rattle.std.specs.Prelude.{◌≤◌, length};
    ghost use Rattle.sspi_names.specs.Name.{Name, inner_of};

    ghost Value = { Name };

    ghost view = { λ client. client.name };

    ghost invariant = { λ client. length (inner_of client.name) ≤ 65535 };
}

impl ClientName {
    /// This name; none if it is too long.
    fn new(name: Username) -> Option<ClientName>
        ensures { result ≡ short_name name }
    {
        if name.inner().len() > LONGEST_NAME {
            return None;
        }
        Some(ClientName { name })
    }

    pub fn username(&self) -> &Username
        ensures name { result.now ≡ self.now }
        ensures short { length (inner_of self.now) ≤ 65535 }
    {
        &self.name
    }
}

/// A client and its KDC.
#[derive(Drop)]
pub struct Logon {
    /// The name of the client.
    pub name: ClientName,
    /// The URL of its KDC.
    pub url: Text,
}

/// The buffers of the credentials, or none if none are given.
pub fn buffers_of(
    alloc: Global,
    credential_use: CredentialUse,
    auth_data: Option<&Credentials>,
) -> Result<Option<CredentialsBuffers>, Refusal>
    ensures answer { Gives result (acquired credential_use (option_copied auth_data.entry)) }
{
    match auth_data {
        Some(credentials) => Ok(Some(credentials.to_buffers(alloc)?)),
        None => match credential_use {
            CredentialUse::Outbound => Err(Refusal::new(
                ErrorKind::NoCredentials,
                Reason::NoAuthData,
            )),
            CredentialUse::Inbound | CredentialUse::Both | CredentialUse::Default => Ok(None),
        },
    }
}

/// The name in a client's credentials.
fn name_in(alloc: Global, handle: Option<&CredentialsBuffers>) -> Result<Username, Refusal>
    ensures answer { Gives result (name_in (option_copied handle.entry)) }
    ensures memory { IfErr result (λ error. error.error_type ≡ ErrorKind.InsufficientMemory →
        IsOk (name_in (option_copied handle.entry))) }
{
    let buffers = match handle {
        None => return Err(Refusal::new(ErrorKind::NoCredentials, Reason::NoAuthData)),
        Some(CredentialsBuffers::Keytab(identity)) => return Ok(identity.username.clone(alloc)?),
        Some(CredentialsBuffers::AuthIdentity(buffers)) => buffers,
    };
    Ok(buffers.username(alloc)?)
}

/// Who a client is by its credentials, and where its KDC is.
pub fn logon_of(
    alloc: Global,
    realms: &Realms,
    handle: Option<&CredentialsBuffers>,
) -> Result<Logon, Refusal>
    ensures answer { Gives result (logon_of realms.now (option_copied handle.entry)) }
    ensures memory { IfErr result (λ error. error.error_type ≡ ErrorKind.InsufficientMemory →
        MayWantLogon (logon_of realms.now (option_copied handle.entry))) }
{
    let name = name_in(alloc, handle)?;
    let url = realms.kdc_of(alloc, &name)?;
    match ClientName::new(name) {
        Some(name) => Ok(Logon { name, url }),
        None => Err(Refusal::new(ErrorKind::InternalError, Reason::TooLong)),
    }
}

fn protocol_of(url: &str) -> NetworkProtocol
    ensures { result ≡ protocol_of url.now }
{
    let url = url.as_bytes();
    if url.starts_with(b"udp://") {
        NetworkProtocol::Udp
    } else if url.starts_with(b"http://") {
        NetworkProtocol::Http
    } else if url.starts_with(b"https://") {
        NetworkProtocol::Https
    } else {
        NetworkProtocol::Tcp
    }
}

/// The request that sends these bytes to the KDC at this URL.
pub fn request_at(url: Text, payload: Vec<u8>) -> NetworkRequest
    ensures { result ≡ request_at url payload.items }
{
    NetworkRequest {
        protocol: protocol_of(url.as_str()),
        url,
        payload: Bytes::from_vec(payload),
    }
}
