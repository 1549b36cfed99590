//! What the ends of the examples are made of.

ghost use Rattle.std.specs.Prelude.{◌≡◌, ℕ, List, Option, IfOk, IsSome, Some, None, codes};
ghost use Rattle.std.specs.Prelude.{replicate};
ghost use Rattle.sspi_names.specs.Name.{parse_name};
ghost use Rattle.sspi_names.specs.declared.kdc_table.KdcEntry.{KdcEntry};
ghost use Rattle.sspi_negotiate.specs.declared.protocol_config.ProtocolConfig.{ProtocolConfig};
ghost use Rattle.sspi_completeness.specs.Worked.{client_ntlm, server_ntlm, realm_table};
ghost use Rattle.sspi_completeness.specs.Worked.{negotiation};
ghost use Rattle.sspi_completeness.specs.Answered.{ann};
ghost use Rattle.sspi_completeness.specs.Worked.{with_ntlm, with_kerberos, with_ticket};
ghost use Rattle.sspi_completeness.specs.Worked.{with_ntlm_alone};
ghost use Rattle.sspi_completeness.specs.Worked.{computer, realm_kerberos, realm_kdc};

use crate::worked::ends::{alone, pair};
use sspi_credssp::{ClientMode, ServerMode};
use sspi_mech::{KerberosConfig, KerberosServerConfig, NtlmConfig, PlainKdc};
use sspi_names::{AuthIdentity, KdcTable, Username, UsernameError};
use sspi_negotiate::{NegotiateConfig, ProtocolConfig};
use sspi_types::{Secret, Text};
use std::alloc::{AllocError, Global};

// ---- identities

fn name_of(alloc: Global, text: &str) -> Result<Username, AllocError>
    requires { IsSome (parse_name text.now) }
    ensures { IfOk result (λ name. parse_name text.now ≡ Some name) }
{
    match Username::parse(alloc, text) {
        Ok(name) => Ok(name),
        Err(UsernameError::InsufficientMemory) => Err(AllocError),
        Err(UsernameError::MixedFormat) => unreachable!(),
    }
}

/// The identity of this name and password.
pub(crate) fn identity_of(
    alloc: Global,
    name: &str,
    password: &str,
) -> Result<AuthIdentity, AllocError>
    requires { IsSome (parse_name name.now) }
    ensures { IfOk result (λ identity. (parse_name name.now ≡ Some identity.username) ×
        (identity.password.value ≡ password.now)) }
{
    let (username, password) = pair(name_of(alloc, name), Text::from_text(alloc, password))?;
    Ok(AuthIdentity {
        username,
        password: Secret::from(password),
    })
}

// ---- NTLM

fn computer(alloc: Global) -> Result<Text, AllocError>
    ensures { IfOk result (λ name. name ≡ computer) }
{
    Text::from_text(alloc, "CLIENT")
}

fn client_ntlm(alloc: Global) -> Result<NtlmConfig, AllocError>
    ensures { IfOk result (λ config. config ≡ client_ntlm) }
{
    Ok(NtlmConfig::new(computer(alloc)?))
}

fn server_ntlm() -> NtlmConfig
    ensures { result ≡ server_ntlm }
{
    NtlmConfig {
        client_computer_name: None,
        challenge: [0; 8],
    }
}

/// A client that uses only NTLM.
pub(crate) fn ntlm_client(alloc: Global) -> Result<ClientMode, AllocError>
    ensures { IfOk result (λ mode. mode ≡ ClientMode.Ntlm client_ntlm) }
{
    Ok(ClientMode::Ntlm(client_ntlm(alloc)?))
}

/// A server that uses only NTLM.
pub(crate) fn ntlm_server() -> Result<ServerMode, AllocError>
    ensures { IfOk result (λ mode. mode ≡ ServerMode.Ntlm server_ntlm) }
{
    Ok(ServerMode::Ntlm(server_ntlm()))
}

// ---- a negotiation

fn negotiation(
    alloc: Global,
    first: Result<ProtocolConfig, AllocError>,
    packages: Result<Option<Text>, AllocError>,
    kdcs: Result<KdcTable, AllocError>,
) -> Result<NegotiateConfig, AllocError>
    ensures { (p : ProtocolConfig) → (names : Option (List ℕ)) → (table : List KdcEntry) →
        IfOk first (λ first. first ≡ p) →
        IfOk packages (λ packages. packages ≡ names) → IfOk kdcs (λ kdcs. kdcs ≡ table) →
        IfOk result (λ config. config ≡ negotiation p names table) }
{
    let ((first, packages), (computer, kdcs)) = pair(
        pair(first, packages),
        pair(computer(alloc), kdcs),
    )?;
    Ok(NegotiateConfig::new(first, packages, computer, kdcs))
}

/// The KDC that serves EXAMPLE.COM.
fn realm_table(alloc: Global) -> Result<KdcTable, AllocError>
    ensures { IfOk result (λ kdcs. kdcs ≡ realm_table) }
{
    let mut kdcs = KdcTable::new(alloc);
    kdcs.push("EXAMPLE.COM", "tcp://kdc")
        .map_err(|_| AllocError)?;
    Ok(kdcs)
}

/// Kerberos, with the KDC of its realm.
fn realm_kerberos(alloc: Global) -> Result<KerberosConfig, AllocError>
    ensures { IfOk result (λ config. config ≡ realm_kerberos) }
{
    let (kdcs, client_computer_name) = pair(realm_table(alloc), computer(alloc))?;
    Ok(KerberosConfig {
        kdc_url: None,
        kdcs,
        client_computer_name,
    })
}

fn client_first(alloc: Global) -> Result<ProtocolConfig, AllocError>
    ensures { IfOk result (λ first. first ≡ ProtocolConfig.Ntlm client_ntlm) }
{
    Ok(ProtocolConfig::Ntlm(client_ntlm(alloc)?))
}

/// A client with NTLM selected, which knows no KDC.
pub(crate) fn client_with_ntlm(alloc: Global) -> Result<ClientMode, AllocError>
    ensures { IfOk result (λ mode. mode ≡ ClientMode.Negotiate (with_ntlm client_ntlm)) }
{
    let first = client_first(alloc);
    let config = negotiation(alloc, first, Ok(None), Ok(KdcTable::new(alloc)))?;
    Ok(ClientMode::Negotiate(config))
}

/// A server with NTLM selected.
pub(crate) fn server_with_ntlm(alloc: Global) -> Result<ServerMode, AllocError>
    ensures { IfOk result (λ mode. mode ≡ ServerMode.Negotiate (with_ntlm server_ntlm)) }
{
    let first = Ok(ProtocolConfig::Ntlm(server_ntlm()));
    let config = negotiation(alloc, first, Ok(None), Ok(KdcTable::new(alloc)))?;
    Ok(ServerMode::Negotiate(config))
}

fn client_kerberos(alloc: Global) -> Result<ProtocolConfig, AllocError>
    ensures { IfOk result (λ first. first ≡ ProtocolConfig.Kerberos realm_kerberos) }
{
    Ok(ProtocolConfig::Kerberos(realm_kerberos(alloc)?))
}

/// A client with Kerberos selected, which finds its KDC by the realm of its name.
pub(crate) fn client_with_kerberos(alloc: Global) -> Result<ClientMode, AllocError>
    ensures { IfOk result (λ mode. mode ≡ ClientMode.Negotiate with_kerberos) }
{
    let config = negotiation(alloc, client_kerberos(alloc), Ok(None), realm_table(alloc))?;
    Ok(ClientMode::Negotiate(config))
}

fn server_kerberos(alloc: Global) -> Result<ProtocolConfig, AllocError>
    ensures { IfOk result (λ first. first ≡ ProtocolConfig.KerberosServer realm_kerberos
        (record { ticket = Some (replicate 32 0x11) })) }
{
    let ticket = KerberosServerConfig {
        ticket: Some([0x11; 32]),
    };
    Ok(ProtocolConfig::KerberosServer(realm_kerberos(alloc)?, ticket))
}

/// A server with Kerberos selected, which has a ticket.
pub(crate) fn server_with_ticket(alloc: Global) -> Result<ServerMode, AllocError>
    ensures { IfOk result (λ mode. mode ≡ ServerMode.Negotiate with_ticket) }
{
    let config = negotiation(alloc, server_kerberos(alloc), Ok(None), realm_table(alloc))?;
    Ok(ServerMode::Negotiate(config))
}

/// A list of packages with only NTLM.
fn ntlm_alone(alloc: Global) -> Result<Option<Text>, AllocError>
    ensures { IfOk result (λ packages. packages ≡ Some (codes "ntlm")) }
{
    Ok(Some(Text::from_text(alloc, "ntlm")?))
}

/// A server that may use only NTLM.
pub(crate) fn server_with_ntlm_alone(alloc: Global) -> Result<ServerMode, AllocError>
    ensures { IfOk result (λ mode. mode ≡ ServerMode.Negotiate with_ntlm_alone) }
{
    let first = Ok(ProtocolConfig::Ntlm(server_ntlm()));
    let config = negotiation(alloc, first, ntlm_alone(alloc), realm_table(alloc))?;
    Ok(ServerMode::Negotiate(config))
}

/// A KDC that knows only ann@example.com.
pub(crate) fn realm_kdc(alloc: Global) -> Result<PlainKdc, AllocError>
    ensures { IfOk result (λ kdc. kdc ≡ realm_kdc) }
{
    let users = alone(alloc, Text::from_text(alloc, "ann@example.com"))?;
    Ok(PlainKdc::new(alloc, users, Vec::new(alloc)))
}
