//! The configuration from which an end over the host's mechanisms makes its negotiation.
ghost use Rattle.std.specs.Prelude.{◌≡◌, Some, IfOk};
ghost use Rattle.sspi_outside.specs.Configured.{begins_with, configured, list_by};

use sspi_mech::{KerberosConfig, NtlmConfig};
use sspi_names::KdcTable;
use sspi_negotiate::{NegotiateConfig, PackageListConfig, ProtocolConfig};
use sspi_types::Text;
use std::alloc::{AllocError, Global};

fn named(alloc: Global, names: &str) -> Result<Option<Text>, AllocError>
    ensures { IfOk result (λ list. list ≡ Some names.now) }
{
    Ok(Some(Text::from_text(alloc, names)?))
}

fn list_by(alloc: Global, ntlm: bool, kerberos: bool) -> Result<Option<Text>, AllocError>
    ensures { IfOk result (λ list. list ≡ list_by ntlm kerberos) }
{
    match (ntlm, kerberos) {
        (true, true) => Ok(None),
        (true, false) => named(alloc, "ntlm"),
        (false, true) => named(alloc, "kerberos"),
        (false, false) => named(alloc, ""),
    }
}

fn begins_with(alloc: Global, kerberos: bool) -> Result<ProtocolConfig, AllocError>
    ensures { IfOk result (λ config. config ≡ begins_with kerberos) }
{
    if !kerberos {
        return Ok(ProtocolConfig::Ntlm(NtlmConfig {
            client_computer_name: None,
            challenge: [0; 8],
        }));
    }
    Ok(ProtocolConfig::Kerberos(KerberosConfig {
        kdc_url: None,
        kdcs: KdcTable::new(alloc),
        client_computer_name: Text::from_text(alloc, "")?,
    }))
}

/// The configuration of a negotiation of these mechanisms, with Kerberos first if it may be used.
/// Its host begins with `Course::new` of the same mechanisms.
pub fn negotiation(
    alloc: Global,
    packages: PackageListConfig,
) -> Result<NegotiateConfig, AllocError>
    ensures { IfOk result (λ config. config ≡ configured packages) }
{
    let client_computer_name = Text::from_text(alloc, "")?;
    let package_list = list_by(alloc, packages.ntlm, packages.kerberos)?;
    let protocol_config = begins_with(alloc, packages.kerberos)?;
    Ok(NegotiateConfig::new(
        protocol_config,
        package_list,
        client_computer_name,
        KdcTable::new(alloc),
    ))
}
