//! Makes a negotiation from its configuration.

ghost use Rattle.std.specs.Prelude.{◌≡◌, ◌≢◌, None, IfOk, IfErr};
ghost use Rattle.sspi_mech.specs.Calls.{no_counts};
ghost use Rattle.sspi_negotiate.specs.Hand.{hand};
ghost use Rattle.sspi_negotiate.specs.New.{ForClient, ForServer, packages_in, without_ntlm};
ghost use Rattle.sspi_negotiate.specs.New.{without_kerberos};
ghost use Rattle.sspi_negotiate.specs.New.{first_by, first_in_hand, IsFirst, IsUnmade, TellsUnmade};
ghost use Rattle.sspi_negotiate.specs.New.{Begins, MadeOf, UnmadeOf};

use crate::branch::Branch;
use crate::negotiate::Negotiate;
use crate::negotiate_config::NegotiateConfig;
use crate::package_list::PackageListConfig;
use crate::protocol::NegotiatedProtocol;
use crate::protocol_config::ProtocolConfig;
use crate::state::{NegotiateState, Role};
use sspi_mech::{Mechanism, Refusal};
use sspi_names::AuthIdentity;
use sspi_tokens::MechTypeList;
use sspi_types::{Error, ErrorKind, Reason};
use std::alloc::Global;

fn packages_in(config: &NegotiateConfig) -> PackageListConfig
    ensures { result ≡ packages_in config.now }
{
    let list = match &config.package_list {
        None => None,
        Some(list) => Some(list.as_str()),
    };
    PackageListConfig::parse(list)
}

/// What replaces an NTLM that may not be used.
fn make_without_ntlm<N: Mechanism, K: Mechanism>(
    alloc: Global,
    role: Role,
    config: &NegotiateConfig,
    kerberos: bool,
) -> Result<NegotiatedProtocol<N, K>, Refusal>
    ensures made { IfOk result (λ it. IsFirst (hand N.meaning K.meaning)
        (without_ntlm role config.now kerberos) it) }
    ensures fresh { IfOk result (λ it. (hand N.meaning K.meaning).counts it ≡ no_counts) }
    ensures cause { IfErr result (λ error. error.error_type ≢ ErrorKind.InsufficientMemory →
        IsUnmade (without_ntlm role config.now kerberos) error.error_type) }
    ensures exact { IfErr result (λ error.
        TellsUnmade (without_ntlm role config.now kerberos) error.error_type) }
{
    if !kerberos {
        return Err(Refusal::new(ErrorKind::NoCredentials, Reason::NoPackage));
    }
    match role {
        Role::Client => {
            NegotiatedProtocol::new_kerberos(
                alloc,
                None,
                &config.kdcs,
                &config.client_computer_name,
            )
        }
        Role::Server => Err(Refusal::new(ErrorKind::InternalError, Reason::Disabled)),
    }
}

/// What replaces a Kerberos that may not be used.
fn make_without_kerberos<N: Mechanism, K: Mechanism>(
    alloc: Global,
    config: &NegotiateConfig,
    ntlm: bool,
) -> Result<NegotiatedProtocol<N, K>, Refusal>
    ensures made { IfOk result (λ it. IsFirst (hand N.meaning K.meaning)
        (without_kerberos config.now ntlm) it) }
    ensures fresh { IfOk result (λ it. (hand N.meaning K.meaning).counts it ≡ no_counts) }
    ensures cause { IfErr result (λ error. error.error_type ≢ ErrorKind.InsufficientMemory →
        IsUnmade (without_kerberos config.now ntlm) error.error_type) }
    ensures exact { IfErr result (λ error.
        TellsUnmade (without_kerberos config.now ntlm) error.error_type) }
{
    if ntlm {
        NegotiatedProtocol::new_ntlm(alloc, &config.client_computer_name)
    } else {
        Err(Refusal::new(ErrorKind::NoCredentials, Reason::NoPackage))
    }
}

/// The mechanism that is selected at first.
fn make_first<N: Mechanism, K: Mechanism>(
    alloc: Global,
    role: Role,
    config: &NegotiateConfig,
    packages: PackageListConfig,
) -> Result<NegotiatedProtocol<N, K>, Refusal>
    ensures made { IfOk result (λ it.
        IsFirst (hand N.meaning K.meaning)
        (first_by role config.now config.now.protocol_config packages) it) }
    ensures fresh { IfOk result (λ it. (hand N.meaning K.meaning).counts it ≡ no_counts) }
    ensures cause { IfErr result (λ error. error.error_type ≢ ErrorKind.InsufficientMemory →
        IsUnmade (first_by role config.now config.now.protocol_config packages) error.error_type) }
    ensures exact { IfErr result (λ error.
        TellsUnmade (first_by role config.now config.now.protocol_config packages)
        error.error_type) }
{
    match &config.protocol_config {
        ProtocolConfig::Ntlm(_) => {
            if packages.ntlm {
                Ok(config.protocol_config.new_instance(alloc)?)
            } else {
                make_without_ntlm(alloc, role, config, packages.kerberos)
            }
        }
        ProtocolConfig::Kerberos(_) => {
            if packages.kerberos {
                Ok(config.protocol_config.new_instance(alloc)?)
            } else {
                make_without_kerberos(alloc, config, packages.ntlm)
            }
        }
        ProtocolConfig::KerberosServer(_, _) => {
            if packages.kerberos {
                Ok(config.protocol_config.new_instance(alloc)?)
            } else {
                make_without_kerberos(alloc, config, packages.ntlm)
            }
        }
    }
}

fn begin<N: Mechanism, K: Mechanism>(
    alloc: Global,
    role: Role,
    config: &NegotiateConfig,
    known: Vec<AuthIdentity>,
) -> Result<Negotiate<N, K>, Refusal>
    ensures made { IfOk result (λ it. Begins N.meaning K.meaning role config.now known.items it) }
    ensures fresh { IfOk result (λ it. (hand N.meaning K.meaning).counts it.mech ≡ no_counts) }
    ensures cause { IfErr result (λ error. error.error_type ≢ ErrorKind.InsufficientMemory →
        IsUnmade (first_in_hand role config.now) error.error_type) }
    ensures exact { IfErr result (λ error.
        TellsUnmade (first_in_hand role config.now) error.error_type) }
{
    let packages = packages_in(config);
    let protocol = make_first(alloc, role, config, packages)?;
    let client_computer_name = config.client_computer_name.clone(alloc)?;
    let kdcs = config.kdcs.clone(alloc)?;
    Ok(Negotiate {
        alloc,
        role,
        state: NegotiateState::Initial,
        protocol,
        packages,
        mech_types: MechTypeList::from_vec(Vec::new(alloc)),
        mic_needed: true,
        auth_identity: None,
        known,
        client_computer_name,
        kdcs,
        branch: Branch::Idle,
    })
}

impl<N: Mechanism, K: Mechanism> Negotiate<N, K> {
    /// The client of a negotiation.
    ///
    /// It begins with the mechanism of its configuration if the list of packages enables it, else
    /// with the other one. A replacing NTLM gets the configuration's computer name; a replacing
    /// Kerberos gets that and the KDCs, but no URL. `NoCredentials` exactly if no package is
    /// enabled.
    pub fn new_client(alloc: Global, config: &NegotiateConfig) -> Result<Self, Error>
        ensures made { IfOk result (λ it. MadeOf N.meaning K.meaning (ForClient config.now) it) }
        ensures fresh { IfOk result (λ it. (hand N.meaning K.meaning).counts it.mech ≡ no_counts) }
        ensures codeless { IfErr result (λ error. error.nstatus ≡ None) }
        ensures cause { IfErr result (λ error. error.error_type ≢ ErrorKind.InsufficientMemory →
            UnmadeOf (ForClient config.now) error.error_type) }
        ensures exact { IfErr result (λ error.
            TellsUnmade (first_in_hand Role.Client config.now) error.error_type) }
    {
        Ok(begin(alloc, Role::Client, config, Vec::new(alloc))?)
    }

    /// The server of a negotiation, which knows these identities of its peers.
    ///
    /// As `new_client`, except that no Kerberos replaces an NTLM: `InternalError` if it is
    /// configured with NTLM, NTLM is disabled, and Kerberos is enabled.
    pub fn new_server(
        alloc: Global,
        config: &NegotiateConfig,
        auth_data: Vec<AuthIdentity>,
    ) -> Result<Self, Error>
        ensures made { IfOk result (λ it. MadeOf N.meaning K.meaning
            (ForServer config.now auth_data.items) it) }
        ensures fresh { IfOk result (λ it. (hand N.meaning K.meaning).counts it.mech ≡ no_counts) }
        ensures codeless { IfErr result (λ error. error.nstatus ≡ None) }
        ensures cause { IfErr result (λ error. error.error_type ≢ ErrorKind.InsufficientMemory →
            UnmadeOf (ForServer config.now auth_data.items) error.error_type) }
        ensures exact { IfErr result (λ error.
            TellsUnmade (first_in_hand Role.Server config.now) error.error_type) }
    {
        Ok(begin(alloc, Role::Server, config, auth_data)?)
    }
}
