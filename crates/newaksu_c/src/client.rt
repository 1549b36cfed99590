//! Makes a client.
ghost use Rattle.std.specs.Prelude.{◌≡◌, ◌≢◌, ℕ, Ok, Err, Result, IfOk, IfErr};
ghost use Rattle.sspi_credssp.specs.Ends.{IsFreshClient};
ghost use Rattle.newaksu_c.specs.declared.object.Object.{Object as What};
ghost use Rattle.newaksu_c.specs.Making.{MakesClient};
ghost use Rattle.newaksu_c.specs.Putting.{Puts};
ghost use Rattle.newaksu_c.specs.Settings.{client_settings};
ghost use Rattle.newaksu_c.specs.Status.{insufficient_memory};

use crate::handle::Handle;
use crate::object::{Object, boxed};
use crate::putting::put;
use crate::settings::{
    ClientOptions, check_versions, delegation_of, identity_of, nonce_of, text_of,
};
use crate::status::{INSUFFICIENT_MEMORY, INVALID_PARAMETER};
use sspi_credssp::{ClientMode, CredSspClient};
use sspi_mech::{Ntlm, NtlmConfig};
use sspi_names::Credentials;
use sspi_outside::{ClientEnd, Outside};
use std::alloc::Global;

pub(crate) fn key_of(alloc: Global, key: &[u8]) -> Result<Vec<u8>, u32>
    ensures ok { IfOk result (λ copy. copy.items ≡ key.now) }
    ensures err { IfErr result (λ status. status ≡ insufficient_memory) }
{
    match Vec::from_slice(alloc, key) {
        Ok(key) => Ok(key),
        Err(_) => Err(INSUFFICIENT_MEMORY),
    }
}

#[tactic(auto, unfolding(crate::specs::Settings::client_settings))]
fn client_of<N, K>(
    alloc: Global,
    options: &ClientOptions,
    key: &[u8],
    target: &[u8],
    nonce: &[u8],
    name: &[u8],
    password: &[u8],
) -> Result<CredSspClient<N, K>, u32>
    ensures fresh { IfOk result (λ client. IsFreshClient client) }
    ensures settings { IfOk result (λ client.
        client_settings options.now key.now target.now nonce.now name.now password.now ≡ Ok
        client.settings) }
    ensures cause { IfErr result (λ status. status ≢ insufficient_memory →
        client_settings options.now key.now target.now nonce.now name.now password.now ≡ Err
        status) }
{
    check_versions(options.version, options.least_version)?;
    let delegation = delegation_of(options.delegation)?;
    let nonce = nonce_of(nonce)?;
    let target = text_of(alloc, target)?;
    let identity = identity_of(alloc, name, password)?;
    let key = key_of(alloc, key)?;
    let config = NtlmConfig {
        client_computer_name: None,
        challenge: [0; 8],
    };
    let client = CredSspClient::new_with_version(
        alloc,
        key,
        Credentials::AuthIdentity(identity),
        delegation,
        options.version,
        ClientMode::Ntlm(config),
        target.into_inner(),
        nonce,
    );
    Ok(client.with_least_version(options.least_version))
}

/// What the options make, as an object.
fn made(
    alloc: Global,
    options: &ClientOptions,
    key: &[u8],
    target: &[u8],
    nonce: &[u8],
    name: &[u8],
    password: &[u8],
) -> Result<Object, u32>
    ensures { MakesClient options.now.mechanism
        (client_settings options.now key.now target.now nonce.now name.now password.now) result }
{
    match options.mechanism {
        0 => {
            let client = client_of::<Outside, Outside>(
                alloc, options, key, target, nonce, name, password,
            )?;
            Ok(Object::Client(boxed(alloc, ClientEnd::new(client))?))
        }
        1 => {
            let client = client_of::<Ntlm, Ntlm>(
                alloc, options, key, target, nonce, name, password,
            )?;
            Ok(Object::PlainClient(boxed(alloc, ClientEnd::new(client))?))
        }
        _ => Err(INVALID_PARAMETER),
    }
}

/// A client with these options, nonce and credentials, for the channel with this key and the
/// service with this name.
#[unsafe(no_mangle)]
pub extern "C" fn newaksu_client_new(
    alloc: Global,
    handle: &mut Handle,
    options: &ClientOptions,
    key: &[u8],
    target: &[u8],
    nonce: &[u8],
    name: &[u8],
    password: &[u8],
) -> u32
    ensures { (end : Result What ℕ) × MakesClient options.now.mechanism
        (client_settings options.now key.now target.now nonce.now name.now password.now) end ×
        Puts handle.old.held handle.new.held end result }
{
    match made(alloc, options, key, target, nonce, name, password) {
        Ok(end) => put(alloc, handle, end),
        Err(status) => status,
    }
}
