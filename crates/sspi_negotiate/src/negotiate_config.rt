//! The configuration of one end of a negotiation.

ghost use Rattle.std.specs.Prelude.{◌≡◌, None, IfOk};

use crate::protocol_config::ProtocolConfig;
use sspi_names::KdcTable;
use sspi_types::Text;
use std::alloc::{AllocError, Global};

/// The configuration of one end of a negotiation.
#[derive(Drop)]
pub struct NegotiateConfig {
    /// The mechanism that it begins with.
    pub protocol_config: ProtocolConfig,
    /// The packages that it may use, in the form that `PackageListConfig::parse` reads; all of them
    /// if there is no list.
    pub package_list: Option<Text>,
    /// The name of the client's computer, for the mechanisms that are selected later.
    pub client_computer_name: Text,
    /// Which KDC serves which realm.
    pub kdcs: KdcTable,
}

impl NegotiateConfig {
    /// A configuration of these parts, which are moved, not copied.
    pub fn new(
        protocol_config: ProtocolConfig,
        package_list: Option<Text>,
        client_computer_name: Text,
        kdcs: KdcTable,
    ) -> NegotiateConfig
        ensures { result ≡ record {
          protocol_config = protocol_config;
          package_list = package_list;
          client_computer_name = client_computer_name;
          kdcs = kdcs;
        } }
    {
        NegotiateConfig {
            protocol_config,
            package_list,
            client_computer_name,
            kdcs,
        }
    }

    /// The same, without a list of packages.
    pub fn from_protocol_config(
        protocol_config: ProtocolConfig,
        client_computer_name: Text,
        kdcs: KdcTable,
    ) -> NegotiateConfig
        ensures { result ≡ record {
          protocol_config = protocol_config;
          package_list = None;
          client_computer_name = client_computer_name;
          kdcs = kdcs;
        } }
    {
        NegotiateConfig::new(protocol_config, None, client_computer_name, kdcs)
    }

    /// A copy in memory of its own, equal to this configuration.
    pub fn clone(&self, alloc: Global) -> Result<NegotiateConfig, AllocError>
        ensures { IfOk result (λ copy. copy ≡ self.now) }
    {
        let protocol_config = self.protocol_config.clone(alloc)?;
        let package_list = clone_list(alloc, &self.package_list)?;
        let client_computer_name = self.client_computer_name.clone(alloc)?;
        let kdcs = self.kdcs.clone(alloc)?;
        Ok(NegotiateConfig {
            protocol_config,
            package_list,
            client_computer_name,
            kdcs,
        })
    }
}

fn clone_list(alloc: Global, list: &Option<Text>) -> Result<Option<Text>, AllocError>
    ensures { IfOk result (λ copy. copy ≡ list.now) }
{
    match list {
        None => Ok(None),
        Some(list) => Ok(Some(list.clone(alloc)?)),
    }
}
