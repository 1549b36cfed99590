//! What a mechanism is made from.

ghost use Rattle.std.specs.Prelude.{◌≡◌, Some, IfOk, replicate};

use sspi_names::KdcTable;
use sspi_types::Text;
use std::alloc::{AllocError, Global};

/// What a mechanism is made from.
#[derive(Clone, Copy)]
pub enum MechConfig<'a> {
    /// From this configuration of NTLM.
    Ntlm(&'a NtlmConfig),
    /// From this configuration of Kerberos, without a ticket.
    Kerberos(&'a KerberosConfig),
    /// From this configuration of Kerberos and that of its server.
    KerberosServer(&'a KerberosConfig, &'a KerberosServerConfig),
}

/// The configuration of NTLM.
#[derive(Drop, PartialEq, Eq)]
pub struct NtlmConfig {
    /// The name of the client's machine, which plain NTLM ignores.
    pub client_computer_name: Option<Text>,
    /// The challenge that a server sends in its first message.
    pub challenge: [u8; 8],
}

impl NtlmConfig {
    /// A configuration whose challenge is eight zero bytes.
    pub fn new(client_computer_name: Text) -> NtlmConfig
        ensures { result ≡ record {
          client_computer_name = Some client_computer_name;
          challenge = replicate 8 0;
        } }
    {
        NtlmConfig {
            client_computer_name: Some(client_computer_name),
            challenge: [0; 8],
        }
    }

    /// A copy in memory of its own, equal to this configuration.
    pub fn clone(&self, alloc: Global) -> Result<NtlmConfig, AllocError>
        ensures { IfOk result (λ copy. copy ≡ self.now) }
    {
        let client_computer_name = match &self.client_computer_name {
            None => None,
            Some(name) => Some(name.clone(alloc)?),
        };
        Ok(NtlmConfig {
            client_computer_name,
            challenge: self.challenge,
        })
    }
}

/// The configuration of Kerberos.
#[derive(Drop, PartialEq, Eq)]
pub struct KerberosConfig {
    /// The URL of the KDC that a client asks, whatever its realm.
    pub kdc_url: Option<Text>,
    /// The KDCs of the realms, for a client without `kdc_url`.
    pub kdcs: KdcTable,
    /// The name of the client's machine, which plain Kerberos ignores.
    pub client_computer_name: Text,
}

impl KerberosConfig {
    /// A copy in memory of its own, equal to this configuration.
    pub fn clone(&self, alloc: Global) -> Result<KerberosConfig, AllocError>
        ensures { IfOk result (λ copy. copy ≡ self.now) }
    {
        let kdc_url = match &self.kdc_url {
            None => None,
            Some(url) => Some(url.clone(alloc)?),
        };
        Ok(KerberosConfig {
            kdc_url,
            kdcs: self.kdcs.clone(alloc)?,
            client_computer_name: self.client_computer_name.clone(alloc)?,
        })
    }
}

/// What a Kerberos server has in addition to its configuration.
#[derive(Drop, PartialEq, Eq)]
pub struct KerberosServerConfig {
    /// The ticket that it sends to a client that asks for user-to-user authentication.
    pub ticket: Option<[u8; 32]>,
}

impl KerberosServerConfig {
    /// A copy, equal to this configuration. It allocates nothing.
    pub fn clone(&self, _alloc: Global) -> Result<KerberosServerConfig, AllocError>
        ensures { IfOk result (λ copy. copy ≡ self.now) }
    {
        Ok(KerberosServerConfig {
            ticket: self.ticket,
        })
    }
}
