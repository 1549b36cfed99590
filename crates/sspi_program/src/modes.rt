//! How the ends of a scenario authenticate.

ghost use Rattle.std.specs.Prelude.{◌≡◌, IfOk};
ghost use Rattle.sspi_program.specs.Ends.{
  client_mode_in,
  server_mode_in,
  client_ntlm,
  server_ntlm,
  client_kerberos,
  server_kerberos,
  client_first,
  server_first,
  negotiate_config_in,
};

use crate::ends::given_up;
use sspi_credssp::{ClientMode, ServerMode};
use sspi_mech::{KerberosConfig, KerberosServerConfig, NtlmConfig};
use sspi_names::KdcTable;
use sspi_negotiate::{NegotiateConfig, ProtocolConfig};
use sspi_scenario::{Mode, Package, Scenario};
use sspi_types::Text;
use std::alloc::{AllocError, Global};

/// How the client of a scenario authenticates.
pub fn client_mode(alloc: Global, scenario: &Scenario) -> Result<ClientMode, AllocError>
    ensures { IfOk result (λ mode. mode ≡ client_mode_in scenario.now) }
{
    match scenario.mode {
        Mode::Ntlm => Ok(ClientMode::Ntlm(client_ntlm(alloc, scenario)?)),
        Mode::Negotiate => {
            let first = client_first(alloc, scenario)?;
            let config = negotiate_config(alloc, scenario, first, &scenario.client_packages)?;
            Ok(ClientMode::Negotiate(config))
        }
    }
}

/// How its server authenticates.
pub fn server_mode(alloc: Global, scenario: &Scenario) -> Result<ServerMode, AllocError>
    ensures { IfOk result (λ mode. mode ≡ server_mode_in scenario.now) }
{
    match scenario.mode {
        Mode::Ntlm => Ok(ServerMode::Ntlm(server_ntlm(scenario))),
        Mode::Negotiate => {
            let first = server_first(alloc, scenario)?;
            let config = negotiate_config(alloc, scenario, first, &scenario.server_packages)?;
            Ok(ServerMode::Negotiate(config))
        }
    }
}

/// What the client of a negotiation begins with.
fn client_first(alloc: Global, scenario: &Scenario) -> Result<ProtocolConfig, AllocError>
    ensures { IfOk result (λ first. first ≡ client_first scenario.now.client_protocol
        scenario.now) }
{
    match scenario.client_protocol {
        Package::Ntlm => Ok(ProtocolConfig::Ntlm(client_ntlm(alloc, scenario)?)),
        Package::Kerberos => Ok(ProtocolConfig::Kerberos(client_kerberos(alloc, scenario)?)),
    }
}

/// What the server of a negotiation begins with.
fn server_first(alloc: Global, scenario: &Scenario) -> Result<ProtocolConfig, AllocError>
    ensures { IfOk result (λ first. first ≡ server_first scenario.now.server_protocol
        scenario.now) }
{
    match scenario.server_protocol {
        Package::Ntlm => Ok(ProtocolConfig::Ntlm(server_ntlm(scenario))),
        Package::Kerberos => Ok(ProtocolConfig::KerberosServer(
            server_kerberos(alloc, scenario)?,
            KerberosServerConfig {
                ticket: scenario.ticket,
            },
        )),
    }
}

/// The client's NTLM knows its computer.
fn client_ntlm(alloc: Global, scenario: &Scenario) -> Result<NtlmConfig, AllocError>
    ensures { IfOk result (λ config. config ≡ client_ntlm scenario.now) }
{
    Ok(NtlmConfig::new(scenario.computer.clone(alloc)?))
}

/// The server's NTLM has the challenge.
fn server_ntlm(scenario: &Scenario) -> NtlmConfig
    ensures { result ≡ server_ntlm scenario.now }
{
    NtlmConfig {
        client_computer_name: None,
        challenge: scenario.challenge,
    }
}

/// The client's Kerberos asks the KDC at the URL of the scenario, or that of its realm.
fn client_kerberos(alloc: Global, scenario: &Scenario) -> Result<KerberosConfig, AllocError>
    ensures { IfOk result (λ config. config ≡ client_kerberos scenario.now) }
{
    Ok(KerberosConfig {
        kdc_url: copy_text(alloc, &scenario.client_url)?,
        kdcs: scenario.kdc.clone(alloc)?,
        client_computer_name: scenario.computer.clone(alloc)?,
    })
}

/// The server's Kerberos asks nobody.
fn server_kerberos(alloc: Global, scenario: &Scenario) -> Result<KerberosConfig, AllocError>
    ensures { IfOk result (λ config. config ≡ server_kerberos scenario.now) }
{
    Ok(KerberosConfig {
        kdc_url: None,
        kdcs: scenario.kdc.clone(alloc)?,
        client_computer_name: scenario.computer.clone(alloc)?,
    })
}

/// The configuration of an end that begins with this mechanism and may use these packages.
fn negotiate_config(
    alloc: Global,
    scenario: &Scenario,
    first: ProtocolConfig,
    packages: &Option<Text>,
) -> Result<NegotiateConfig, AllocError>
    ensures { IfOk result (λ config. config ≡ negotiate_config_in scenario.now first packages.now) }
{
    match parts(alloc, scenario, packages) {
        Ok((packages, computer, kdcs)) => {
            Ok(NegotiateConfig::new(first, packages, computer, kdcs))
        }
        Err(error) => given_up(first, error),
    }
}

/// The packages, the computer and the KDCs of a configuration.
fn parts(
    alloc: Global,
    scenario: &Scenario,
    packages: &Option<Text>,
) -> Result<(Option<Text>, Text, KdcTable), AllocError>
    ensures { IfOk result (λ parts. (parts.0 ≡ packages.now) × (parts.1 ≡ scenario.now.computer) ×
        (parts.2 ≡ scenario.now.kdc)) }
{
    let packages = copy_text(alloc, packages)?;
    let computer = scenario.computer.clone(alloc)?;
    let kdcs = scenario.kdc.clone(alloc)?;
    Ok((packages, computer, kdcs))
}

fn copy_text(alloc: Global, text: &Option<Text>) -> Result<Option<Text>, AllocError>
    ensures { IfOk result (λ copy. copy ≡ text.now) }
{
    match text {
        Some(text) => Ok(Some(text.clone(alloc)?)),
        None => Ok(None),
    }
}
