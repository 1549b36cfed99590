//! The mechanism that a negotiation begins with.

ghost use Rattle.std.specs.Prelude.{◌≡◌, IfOk, IfErr};
ghost use Rattle.sspi_types.specs.Errors.{memory_error};
ghost use Rattle.sspi_mech.specs.Calls.{no_counts};
ghost use Rattle.sspi_negotiate.specs.Hand.{Configured, hand};

use crate::protocol::NegotiatedProtocol;
use sspi_mech::{KerberosConfig, KerberosServerConfig, MechConfig, Mechanism, NtlmConfig};
use sspi_types::Error;
use std::alloc::{AllocError, Global};

/// The mechanism that a negotiation begins with, as it is configured.
#[derive(Drop, PartialEq, Eq)]
pub enum ProtocolConfig {
    Ntlm(NtlmConfig),
    /// A Kerberos without a ticket.
    Kerberos(KerberosConfig),
    /// A Kerberos that may authenticate user-to-user.
    KerberosServer(KerberosConfig, KerberosServerConfig),
}

impl ProtocolConfig {
    /// A mechanism of this configuration that has made no step. Refused only when out of memory.
    pub fn new_instance<N: Mechanism, K: Mechanism>(
        &self,
        alloc: Global,
    ) -> Result<NegotiatedProtocol<N, K>, Error>
        ensures made { IfOk result (λ protocol. (hand N.meaning K.meaning).made
            (Configured self.now) protocol) }
        ensures fresh { IfOk result (λ protocol. (hand N.meaning K.meaning).counts
            protocol ≡ no_counts) }
        ensures err { IfErr result (λ error. error ≡ memory_error) }
    {
        match self {
            ProtocolConfig::Ntlm(config) => {
                let ntlm = N::make(alloc, &MechConfig::Ntlm(config))?;
                Ok(NegotiatedProtocol::Ntlm(ntlm))
            }
            ProtocolConfig::Kerberos(config) => {
                let kerberos = K::make(alloc, &MechConfig::Kerberos(config))?;
                Ok(NegotiatedProtocol::Kerberos(kerberos))
            }
            ProtocolConfig::KerberosServer(config, server) => {
                let kerberos = K::make(alloc, &MechConfig::KerberosServer(config, server))?;
                Ok(NegotiatedProtocol::Kerberos(kerberos))
            }
        }
    }

    /// A copy in memory of its own, equal to this configuration.
    pub fn clone(&self, alloc: Global) -> Result<ProtocolConfig, AllocError>
        ensures { IfOk result (λ copy. copy ≡ self.now) }
    {
        match self {
            ProtocolConfig::Ntlm(config) => Ok(ProtocolConfig::Ntlm(config.clone(alloc)?)),
            ProtocolConfig::Kerberos(config) => Ok(ProtocolConfig::Kerberos(config.clone(alloc)?)),
            ProtocolConfig::KerberosServer(config, server) => Ok(ProtocolConfig::KerberosServer(
                config.clone(alloc)?,
                server.clone(alloc)?,
            )),
        }
    }
}
