//! Makes ends that negotiate over two mechanisms of the host.
ghost use Rattle.std.specs.Prelude.{◌≡◌, ◌≢◌, ℕ, Ok, Err, Result, IfOk, IfErr, replicate};
ghost use Rattle.std.specs.Prelude.{option_map};
ghost use Rattle.sspi_credssp.specs.Ends.{IsFreshClient, IsFreshServer};
ghost use Rattle.sspi_outside.specs.Configured.{configured};
ghost use Rattle.newaksu_c.specs.declared.object.Object.{Object as What};
ghost use Rattle.newaksu_c.specs.Courses.{packages_by};
ghost use Rattle.newaksu_c.specs.MakingServers.{hosted_peers, of_versions, taken_peers};
ghost use Rattle.newaksu_c.specs.Negotiating.{negotiating_client, server_with, settings_with};
ghost use Rattle.newaksu_c.specs.Negotiating.{MakesNegotiating, MakesNegotiatingServer};
ghost use Rattle.newaksu_c.specs.Putting.{Puts};
ghost use Rattle.newaksu_c.specs.Settings.{server_settings};
ghost use Rattle.newaksu_c.specs.Status.{insufficient_memory};

use crate::client::key_of;
use crate::course::packages_by;
use crate::handle::Handle;
use crate::object::{Object, boxed};
use crate::putting::put;
use crate::server::hosted_peers;
use crate::settings::{
    ClientOptions, ServerOptions, check_versions, delegation_of, identity_of, nonce_of, text_of,
};
use crate::status::INSUFFICIENT_MEMORY;
use sspi_credssp::{ClientMode, CredSspClient, CredSspServer, ServerMode};
use sspi_names::Credentials;
use sspi_negotiate::{NegotiateConfig, PackageListConfig};
use sspi_outside::{ClientEnd, Outside, Peers, ServerEnd, negotiation};
use std::alloc::Global;

fn config_of(alloc: Global, packages: PackageListConfig) -> Result<NegotiateConfig, u32>
    ensures ok { IfOk result (λ config. config ≡ configured packages) }
    ensures err { IfErr result (λ status. status ≡ insufficient_memory) }
{
    match negotiation(alloc, packages) {
        Ok(config) => Ok(config),
        Err(_) => Err(INSUFFICIENT_MEMORY),
    }
}

#[tactic(auto, unfolding(crate::specs::Settings::client_settings))]
fn client_of(
    alloc: Global,
    packages: PackageListConfig,
    options: &ClientOptions,
    key: &[u8],
    target: &[u8],
    nonce: &[u8],
    name: &[u8],
    password: &[u8],
) -> Result<CredSspClient<Outside, Outside>, u32>
    ensures fresh { IfOk result (λ client. IsFreshClient client) }
    ensures settings { IfOk result (λ client.
        settings_with packages options.now key.now target.now nonce.now name.now password.now ≡ Ok
        client.settings) }
    ensures cause { IfErr result (λ status. status ≢ insufficient_memory →
        settings_with packages options.now key.now target.now nonce.now name.now password.now ≡ Err
        status) }
{
    check_versions(options.version, options.least_version)?;
    let delegation = delegation_of(options.delegation)?;
    let nonce = nonce_of(nonce)?;
    let target = text_of(alloc, target)?;
    let identity = identity_of(alloc, name, password)?;
    let key = key_of(alloc, key)?;
    let config = config_of(alloc, packages)?;
    let client = CredSspClient::new_with_version(
        alloc,
        key,
        Credentials::AuthIdentity(identity),
        delegation,
        options.version,
        ClientMode::Negotiate(config),
        target.into_inner(),
        nonce,
    );
    Ok(client.with_least_version(options.least_version))
}

fn made_client(
    alloc: Global,
    options: &ClientOptions,
    key: &[u8],
    target: &[u8],
    nonce: &[u8],
    name: &[u8],
    password: &[u8],
) -> Result<Object, u32>
    ensures { MakesNegotiating (negotiating_client options.now key.now target.now nonce.now name.now
        password.now) result }
{
    let packages = packages_by(options.mechanism)?;
    let client = client_of(alloc, packages, options, key, target, nonce, name, password)?;
    Ok(Object::Client(boxed(alloc, ClientEnd::new(client))?))
}

/// A client that negotiates: as `newaksu_client_new`, but `mechanism` is 1 for NTLM, 2 for
/// Kerberos, 3 for both.
#[unsafe(no_mangle)]
pub extern "C" fn newaksu_client_negotiating(
    alloc: Global,
    handle: &mut Handle,
    options: &ClientOptions,
    key: &[u8],
    target: &[u8],
    nonce: &[u8],
    name: &[u8],
    password: &[u8],
) -> u32
    ensures { (end : Result What ℕ) ×
        MakesNegotiating (negotiating_client options.now key.now target.now nonce.now name.now
        password.now) end ×
        Puts handle.old.held handle.new.held end result }
{
    match made_client(alloc, options, key, target, nonce, name, password) {
        Ok(end) => put(alloc, handle, end),
        Err(status) => status,
    }
}

fn server_of(
    alloc: Global,
    packages: PackageListConfig,
    options: &ServerOptions,
    key: &[u8],
    peers: Peers,
) -> Result<CredSspServer<Outside, Outside, Peers>, u32>
    ensures fresh { IfOk result (λ server. IsFreshServer server) }
    ensures settings { IfOk result (λ server.
        server.settings ≡ server_with packages
        (server_settings options.now key.now (replicate 8 0))) }
    ensures proxy { IfOk result (λ server. server.proxy ≡ peers) }
    ensures err { IfErr result (λ status. status ≡ insufficient_memory) }
{
    let key = key_of(alloc, key)?;
    let mode = ServerMode::Negotiate(config_of(alloc, packages)?);
    let server = CredSspServer::new_with_version(alloc, key, peers, options.version, mode);
    Ok(server.with_least_version(options.least_version))
}

fn made_server(
    alloc: Global,
    identities: &Option<Box<Object>>,
    options: &ServerOptions,
    key: &[u8],
) -> Result<Object, u32>
    ensures { MakesNegotiatingServer options.now key.now (option_map (λ b. b.value) identities.now)
        result }
{
    let packages = packages_by(options.mechanism)?;
    check_versions(options.version, options.least_version)?;
    let peers = hosted_peers(alloc, options.peers, identities)?;
    let server = server_of(alloc, packages, options, key, peers)?;
    Ok(Object::Server(boxed(alloc, ServerEnd::new(server))?))
}

/// A server that negotiates: as `newaksu_server_new`, but `mechanism` is 1 for NTLM, 2 for
/// Kerberos, 3 for both.
#[unsafe(no_mangle)]
pub extern "C" fn newaksu_server_negotiating(
    alloc: Global,
    handle: &mut Handle,
    identities: &mut Handle,
    options: &ServerOptions,
    key: &[u8],
) -> u32
    ensures kept { identities.new.held ≡ identities.old.held }
    ensures puts { (end : Result What ℕ) ×
        MakesNegotiatingServer options.now key.now identities.old.held end ×
        Puts handle.old.held handle.new.held end result }
{
    let known = identities.take(alloc);
    let end = made_server(alloc, &known, options, key);
    identities.keep(known);
    match end {
        Ok(end) => put(alloc, handle, end),
        Err(status) => status,
    }
}
