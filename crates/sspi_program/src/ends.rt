//! The ends of a scenario.

ghost use Rattle.std.specs.Prelude.{◌≡◌, IfOk, IsErr, OnErr, Ok};
ghost use Rattle.sspi_credssp.specs.Ends.{IsFreshClient, IsFreshServer};
ghost use Rattle.sspi_program.specs.Ends.{credentials_in, IsClientOf, IsServerOf, link_in, kdc_in};
ghost use Rattle.sspi_program.specs.Making.{AreEndsOf};

use crate::modes::{client_mode, server_mode};
use sspi_credssp::{CredSspClient, CredSspServer, TableProxy};
use sspi_delegate::{Edit, MemoryLink};
use sspi_mech::{Kerberos, Ntlm, PlainKdc};
use sspi_names::{AuthIdentity, Credentials, KeytabIdentity};
use sspi_scenario::Scenario;
use sspi_types::{Secret, Text};
use std::alloc::{AllocError, Global};

/// The client of a scenario.
pub type Client = CredSspClient<Ntlm, Kerberos>;

/// The server of a scenario. Its proxy looks up its peers in the table of the scenario.
pub type Server = CredSspServer<Ntlm, Kerberos, TableProxy>;

/// Both ends of a scenario, and the KDC that the client asks.
#[derive(Drop)]
pub struct Ends {
    // An end has several thousand bytes, so it is moved by its address.
    pub client: Box<Client>,
    pub server: Box<Server>,
    pub kdc: PlainKdc,
}

/// The ends and the KDC that the scenario names.
pub fn ends_of(alloc: Global, scenario: &Scenario) -> Result<Ends, AllocError>
    ensures { IfOk result (AreEndsOf scenario.now) }
{
    let kdc = kdc_of(alloc, scenario)?;
    let (server, kdc) = beside(server_of(alloc, scenario), kdc)?;
    let (client, (server, kdc)) = beside(client_of(alloc, scenario), (server, kdc))?;
    Ok(Ends {
        client,
        server,
        kdc,
    })
}

/// What was made, and what was there before. Generic, as what follows is, since dropping a value of
/// a type parameter is one proof step.
pub fn beside<T, A: Drop>(made: Result<T, AllocError>, there: A) -> Result<(T, A), AllocError>
    ensures made { IfOk result (λ both. (made ≡ Ok both.0) × (both.1 ≡ there)) }
    ensures unmade { OnErr result (IsErr made) }
{
    Ok((made?, there))
}

/// Gives up what was there before.
pub fn given_up<A: Drop, T>(_there: A, error: AllocError) -> Result<T, AllocError>
    ensures { IsErr result }
{
    Err(error)
}

/// The client that the scenario names, to which nothing has been delivered.
pub fn client_of(alloc: Global, scenario: &Scenario) -> Result<Box<Client>, AllocError>
    ensures fresh { IfOk result (λ client. IsFreshClient client.value) }
    ensures named { IfOk result (λ client. IsClientOf scenario.now client.value) }
{
    let key = scenario.key.clone(alloc)?.into_inner();
    let target = scenario.target.clone(alloc)?.into_inner();
    let credentials = credentials_of(alloc, scenario)?;
    let (mode, credentials) = beside(client_mode(alloc, scenario), credentials)?;
    let client = CredSspClient::new_with_version(
        alloc,
        key,
        credentials,
        scenario.delegation,
        scenario.client_version,
        mode,
        target,
        scenario.nonce,
    );
    boxed(alloc, client.with_least_version(scenario.client_least))
}

/// Generic, as `beside` is.
fn boxed<T: Drop>(alloc: Global, value: T) -> Result<Box<T>, AllocError>
    ensures { IfOk result (λ made. made.value ≡ value) }
{
    Ok(Box::new(alloc, value)?)
}

fn credentials_of(alloc: Global, scenario: &Scenario) -> Result<Credentials, AllocError>
    ensures { IfOk result (λ credentials. credentials ≡ credentials_in scenario.now) }
{
    let username = scenario.user.clone(alloc)?;
    Ok(match &scenario.keytab {
        Some(keytab) => Credentials::Keytab(KeytabIdentity {
            username,
            keytab: keytab.clone(alloc)?,
        }),
        None => Credentials::AuthIdentity(AuthIdentity {
            username,
            password: Secret {
                value: scenario.password.clone(alloc)?,
            },
        }),
    })
}

/// The server that the scenario names, to which nothing has been delivered.
pub fn server_of(alloc: Global, scenario: &Scenario) -> Result<Box<Server>, AllocError>
    ensures fresh { IfOk result (λ server. IsFreshServer server.value) }
    ensures named { IfOk result (λ server. IsServerOf scenario.now server.value) }
{
    let key = scenario.server_key.clone(alloc)?.into_inner();
    let accounts = copy_accounts(alloc, scenario.account.as_slice())?;
    let failing = Vec::from_slice(alloc, scenario.proxy_fail.as_slice())?;
    let mode = server_mode(alloc, scenario)?;
    let server = CredSspServer::new_with_version(
        alloc,
        key,
        TableProxy::new(alloc, accounts, failing),
        scenario.server_version,
        mode,
    );
    boxed(alloc, server.with_least_version(scenario.server_least))
}

fn copy_accounts(alloc: Global, accounts: &[AuthIdentity]) -> Result<Vec<AuthIdentity>, AllocError>
    ensures { IfOk result (λ copies. copies.items ≡ accounts.now) }
{
    let mut copies = Vec::new(alloc);
    for account in accounts {
        copies.push(account.clone(alloc)?)?;
    }
    Ok(copies)
}

/// The link that the scenario names, with an empty log.
pub fn link_of(alloc: Global, scenario: &Scenario) -> Result<MemoryLink, AllocError>
    ensures { IfOk result (λ link. link ≡ link_in scenario.now) }
{
    let edits = copy_edits(alloc, scenario.edit.as_slice())?;
    Ok(MemoryLink::new(alloc, edits))
}

fn copy_edits(alloc: Global, edits: &[Edit]) -> Result<Vec<Edit>, AllocError>
    ensures { IfOk result (λ copies. copies.items ≡ edits.now) }
{
    let mut copies = Vec::new(alloc);
    for edit in edits {
        copies.push(edit.clone(alloc)?)?;
    }
    Ok(copies)
}

/// The KDC that the scenario names, which has not been asked yet.
pub fn kdc_of(alloc: Global, scenario: &Scenario) -> Result<PlainKdc, AllocError>
    ensures { IfOk result (λ kdc. kdc ≡ kdc_in scenario.now) }
{
    let users = copy_texts(alloc, scenario.kdc_user.as_slice())?;
    let script = Vec::from_slice(alloc, scenario.kdc_answer.as_slice())?;
    Ok(PlainKdc::new(alloc, users, script))
}

fn copy_texts(alloc: Global, texts: &[Text]) -> Result<Vec<Text>, AllocError>
    ensures { IfOk result (λ copies. copies.items ≡ texts.now) }
{
    let mut copies = Vec::new(alloc);
    for text in texts {
        copies.push(text.clone(alloc)?)?;
    }
    Ok(copies)
}
