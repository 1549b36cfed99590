//! Makes a server.
ghost use Rattle.std.specs.Prelude.{◌≡◌, ◌≢◌, ℕ, List, None, Some, Ok, Err, Result, IfOk, IfErr};
ghost use Rattle.std.specs.Prelude.{replicate, option_map};
ghost use Rattle.sspi_credssp.specs.Ends.{IsFreshServer};
ghost use Rattle.newaksu_c.specs.declared.object.Object.{Object as What};
ghost use Rattle.newaksu_c.specs.Held.{identities_in};
ghost use Rattle.newaksu_c.specs.Making.{ArePeers, IsNewServer};
ghost use Rattle.newaksu_c.specs.MakingServers.{any_peer, hosted_peers, listed_peers, plain_fault};
ghost use Rattle.newaksu_c.specs.MakingServers.{taken_peers, MakesServer};
ghost use Rattle.newaksu_c.specs.Putting.{Puts};
ghost use Rattle.newaksu_c.specs.Settings.{challenge_of, server_settings};
ghost use Rattle.newaksu_c.specs.Status.{insufficient_memory};

use crate::handle::Handle;
use crate::identity_list::IdentityList;
use crate::object::{Object, boxed, identities_of};
use crate::putting::put;
use crate::settings::{ServerOptions, challenge_of, check_versions};
use crate::status::{INSUFFICIENT_MEMORY, INVALID_HANDLE, INVALID_PARAMETER};
use sspi_credssp::{CredSspServer, ServerMode, TableProxy};
use sspi_mech::{Ntlm, NtlmConfig};
use sspi_outside::{AnyPeer, Outside, Peers, ServerEnd};
use std::alloc::Global;

fn listed(alloc: Global, list: &IdentityList) -> Result<Peers, u32>
    ensures ok { IfOk result (λ peers. ArePeers (Some list.now) peers) }
    ensures err { IfErr result (λ status. status ≡ insufficient_memory) }
{
    match list.copied(alloc) {
        Ok(entries) => Ok(Peers::Listed(TableProxy::new(alloc, entries, Vec::new(alloc)))),
        Err(_) => Err(INSUFFICIENT_MEMORY),
    }
}

fn server_of<N, K>(
    alloc: Global,
    options: &ServerOptions,
    key: &[u8],
    challenge: [u8; 8],
    peers: Peers,
) -> Result<CredSspServer<N, K, Peers>, u32>
    ensures fresh { IfOk result (λ server. IsFreshServer server) }
    ensures settings { IfOk result (λ server. server.settings ≡ server_settings options.now key.now
        challenge) }
    ensures proxy { IfOk result (λ server. server.proxy ≡ peers) }
    ensures err { IfErr result (λ status. status ≡ insufficient_memory) }
{
    let Ok(key) = Vec::from_slice(alloc, key) else {
        return Err(INSUFFICIENT_MEMORY);
    };
    let mode = ServerMode::Ntlm(NtlmConfig {
        client_computer_name: None,
        challenge,
    });
    let server = CredSspServer::new_with_version(alloc, key, peers, options.version, mode);
    Ok(server.with_least_version(options.least_version))
}

/// Over the host's mechanism: for the peers of the list, or anyone it names, as the options say.
fn hosted(
    alloc: Global,
    options: &ServerOptions,
    key: &[u8],
    identities: &Option<Box<Object>>,
) -> Result<ServerEnd<Outside, Outside, Peers>, u32>
    ensures ok { IfOk result (λ end. IsNewServer
        (server_settings options.now key.now (replicate 8 0))
        (taken_peers options.now.peers (option_map (λ b. b.value) identities.now)) end.server
        end.last) }
    ensures peers { IfOk result (λ end. hosted_peers options.now.peers
        (option_map (λ b. b.value) identities.now) ≡ Ok tt) }
    ensures cause { IfErr result (λ status. status ≢ insufficient_memory →
        hosted_peers options.now.peers (option_map (λ b. b.value) identities.now) ≡ Err status) }
{
    let peers = hosted_peers(alloc, options.peers, identities)?;
    Ok(ServerEnd::new(server_of(alloc, options, key, [0; 8], peers)?))
}

pub(crate) fn hosted_peers(
    alloc: Global,
    choice: u32,
    identities: &Option<Box<Object>>,
) -> Result<Peers, u32>
    ensures ok { IfOk result (λ peers. ArePeers
        (taken_peers choice (option_map (λ b. b.value) identities.now)) peers) }
    ensures there { IfOk result (λ peers. hosted_peers choice
        (option_map (λ b. b.value) identities.now) ≡ Ok tt) }
    ensures cause { IfErr result (λ status. status ≢ insufficient_memory →
        hosted_peers choice (option_map (λ b. b.value) identities.now) ≡ Err status) }
{
    match choice {
        0 => listed_peers(alloc, identities),
        1 => anyone(alloc, identities),
        _ => Err(INVALID_PARAMETER),
    }
}

fn listed_peers(alloc: Global, identities: &Option<Box<Object>>) -> Result<Peers, u32>
    ensures ok { IfOk result (λ peers. ArePeers
        (identities_in (option_map (λ b. b.value) identities.now)) peers) }
    ensures there { IfOk result (λ peers. listed_peers
        (identities_in (option_map (λ b. b.value) identities.now)) ≡ Ok tt) }
    ensures cause { IfErr result (λ status. status ≢ insufficient_memory →
        listed_peers (identities_in (option_map (λ b. b.value) identities.now)) ≡ Err status) }
{
    match identities_of(identities) {
        Some(list) => listed(alloc, list),
        None => Err(INVALID_HANDLE),
    }
}

fn anyone(alloc: Global, identities: &Option<Box<Object>>) -> Result<Peers, u32>
    ensures ok { IfOk result (λ peers. ArePeers None peers) }
    ensures there { IfOk result (λ peers. any_peer (option_map (λ b. b.value) identities.now) ≡ Ok
        tt) }
    ensures cause { IfErr result (λ status. any_peer
        (option_map (λ b. b.value) identities.now) ≡ Err status) }
{
    match identities {
        None => Ok(Peers::Anyone(AnyPeer::new(alloc))),
        Some(_) => Err(INVALID_PARAMETER),
    }
}

/// Over plain NTLM, with this challenge: for the peers of the list.
fn plain(
    alloc: Global,
    options: &ServerOptions,
    key: &[u8],
    challenge: [u8; 8],
    list: &IdentityList,
) -> Result<ServerEnd<Ntlm, Ntlm, Peers>, u32>
    ensures ok { IfOk result (λ end. IsNewServer (server_settings options.now key.now challenge)
        (Some list.now) end.server end.last) }
    ensures err { IfErr result (λ status. status ≡ insufficient_memory) }
{
    let peers = listed(alloc, list)?;
    Ok(ServerEnd::new(server_of(alloc, options, key, challenge, peers)?))
}

fn plain_of(
    alloc: Global,
    options: &ServerOptions,
    key: &[u8],
    challenge: &[u8],
    identities: &Option<Box<Object>>,
) -> Result<ServerEnd<Ntlm, Ntlm, Peers>, u32>
    ensures ok { IfOk result (λ end. (bytes : List ℕ) × (challenge_of challenge.now ≡ Ok bytes) ×
        IsNewServer (server_settings options.now key.now bytes)
        (identities_in (option_map (λ b. b.value) identities.now)) end.server end.last) }
    ensures choice { IfOk result (λ end. options.now.peers ≡ 0) }
    ensures cause { IfErr result (λ status. status ≢ insufficient_memory →
        plain_fault options.now.peers
        (identities_in (option_map (λ b. b.value) identities.now))
        (challenge_of challenge.now) ≡ Err status) }
{
    if options.peers != 0 {
        return Err(INVALID_PARAMETER);
    }
    let Some(list) = identities_of(identities) else {
        return Err(INVALID_HANDLE);
    };
    plain(alloc, options, key, challenge_of(challenge)?, list)
}

fn made(
    alloc: Global,
    identities: &Option<Box<Object>>,
    options: &ServerOptions,
    key: &[u8],
    challenge: &[u8],
) -> Result<Object, u32>
    ensures { MakesServer options.now key.now challenge.now
        (option_map (λ b. b.value) identities.now) result }
{
    check_versions(options.version, options.least_version)?;
    match options.mechanism {
        0 => {
            let end = hosted(alloc, options, key, identities)?;
            Ok(Object::Server(boxed(alloc, end)?))
        }
        1 => {
            let end = plain_of(alloc, options, key, challenge, identities)?;
            Ok(Object::PlainServer(boxed(alloc, end)?))
        }
        _ => Err(INVALID_PARAMETER),
    }
}

/// A server with these options, for the channel with this key, with the identities that it knows.
///
/// `peers` chooses whom it accepts. With 0, only those on the list: an empty list refuses every
/// peer, and a handle without a list is refused as `INVALID_HANDLE`. With 1, anyone whom the host's
/// mechanism names; the handle of the identities must then be empty. With 1 and identities, with 1
/// over plain NTLM, and with any other number, the call is refused as `INVALID_PARAMETER`.
#[unsafe(no_mangle)]
pub extern "C" fn newaksu_server_new(
    alloc: Global,
    handle: &mut Handle,
    identities: &mut Handle,
    options: &ServerOptions,
    key: &[u8],
    challenge: &[u8],
) -> u32
    ensures made { (end : Result What ℕ) ×
        MakesServer options.now key.now challenge.now identities.old.held end ×
        Puts handle.old.held handle.new.held end result }
    ensures kept { identities.new.held ≡ identities.old.held }
{
    let known = identities.take(alloc);
    let end = made(alloc, &known, options, key, challenge);
    identities.keep(known);
    match end {
        Ok(end) => put(alloc, handle, end),
        Err(status) => status,
    }
}
