//! The values of a scenario, with defaults for the keys that it lacks.

ghost use Rattle.std.specs.Prelude.{◌≡◌, Some, Err, IfOk, IfErr, OnOk};
ghost use Rattle.sspi_names.specs.Name.{parse_name};
ghost use Rattle.sspi_scenario.specs.Accounts.{account_of};
ghost use Rattle.sspi_scenario.specs.Kdcs.{kdc_of};
ghost use Rattle.sspi_scenario.specs.Reads.{Reads, Puts, Adds};
ghost use Rattle.sspi_scenario.specs.Scenario.{defaults, finished, own_identity};
ghost use Rattle.sspi_scenario.specs.Table.{row};

use crate::deliveries::delivery;
use crate::edits::edit;
use crate::error::LineError;
use crate::hexadecimal;
use crate::key::{Key, has};
use crate::lines::parted;
use crate::number::number;
use crate::scenario::{Mode, Package, Scenario};
use crate::script::kdc_answer;
use crate::words::{self, Accounts};
use sspi_names::{AuthIdentity, KdcTable, Username, UsernameError};
use sspi_tsreq::CredSspMode;
use sspi_types::{Bytes, Rows, Secret, Text};
use std::alloc::{AllocError, Global};

/// The values that some lines give, with defaults for the keys that they lack.
#[derive(Drop)]
pub struct Values {
    pub scenario: Scenario,
    /// What the proxy's table holds if no line gives an account.
    pub accounts: Accounts,
}

impl Values {
    /// The defaults. A key without a default of its own has an empty value.
    #[tactic(auto, unfolding(sspi_names::specs::Name::parse_name))]
    pub fn new(alloc: Global) -> Result<Values, LineError>
        ensures { Reads result (Some defaults) }
    {
        let scenario = Scenario {
            mode: Mode::Ntlm,
            user: user(alloc, "")?,
            password: text(alloc, "")?,
            key: Bytes::from_vec(Vec::new(alloc)),
            server_key: Bytes::from_vec(Vec::new(alloc)),
            client_version: 6,
            server_version: 6,
            nonce: [0; 32],
            challenge: [0; 8],
            computer: text(alloc, "CLIENT")?,
            target: text(alloc, "TERMSRV/host.example.com")?,
            delegation: CredSspMode::WithCredentials,
            keytab: None,
            client_protocol: Package::Ntlm,
            server_protocol: Package::Ntlm,
            client_packages: None,
            server_packages: None,
            client_url: None,
            kdc: KdcTable::new(alloc),
            kdc_user: Rows::new(alloc),
            kdc_answer: Rows::new(alloc),
            ticket: None,
            account: Rows::new(alloc),
            proxy_fail: Rows::new(alloc),
            turns: 5,
            edit: Rows::new(alloc),
            deliver: Rows::new(alloc),
            client_least: 5,
            server_least: 5,
            admit: Rows::new(alloc),
        };
        Ok(Values {
            scenario,
            accounts: Accounts::Own,
        })
    }

    /// Sets what this value of a key says. `Fault` if the value violates the key's grammar,
    /// `InsufficientMemory` if memory runs out.
    pub fn put(&mut self, alloc: Global, key: Key, value: &str) -> Result<(), LineError>
        ensures { Puts self.old self.new result ((row key).value value.now) }
    {
        let told = &mut self.scenario;
        match key {
            Key::Mode => told.mode = found(words::mode_named(value))?,
            Key::User => told.user = user(alloc, value)?,
            Key::Password => told.password = text(alloc, value)?,
            Key::Key => told.key = hexadecimal::bytes(alloc, value)?,
            Key::ServerKey => told.server_key = hexadecimal::bytes(alloc, value)?,
            Key::ClientVersion => told.client_version = found(number(value))?,
            Key::ServerVersion => told.server_version = found(number(value))?,
            Key::Nonce => told.nonce = found(hexadecimal::bytes_32(value))?,
            Key::Challenge => told.challenge = found(hexadecimal::bytes_8(value))?,
            Key::Computer => told.computer = text(alloc, value)?,
            Key::Target => told.target = text(alloc, value)?,
            Key::Delegation => told.delegation = found(words::delegation_named(value))?,
            Key::Keytab => told.keytab = Some(hexadecimal::bytes(alloc, value)?),
            Key::ClientProtocol => told.client_protocol = found(words::package_named(value))?,
            Key::ServerProtocol => told.server_protocol = found(words::package_named(value))?,
            Key::ClientPackages => told.client_packages = Some(text(alloc, value)?),
            Key::ServerPackages => told.server_packages = Some(text(alloc, value)?),
            Key::ClientUrl => told.client_url = Some(text(alloc, value)?),
            Key::Kdc => add_kdc(&mut told.kdc, value)?,
            Key::KdcUser => told.kdc_user.push(text(alloc, value)?)?,
            Key::KdcAnswer => told.kdc_answer.push(found(kdc_answer(value))?)?,
            Key::Ticket => told.ticket = Some(found(hexadecimal::bytes_32(value))?),
            Key::Account => told.account.push(account(alloc, value)?)?,
            Key::Accounts => self.accounts = found(words::accounts_named(value))?,
            Key::ProxyFail => told.proxy_fail.push(u64::from(found(number(value))?))?,
            Key::Turns => told.turns = found(number(value))?,
            Key::Edit => told.edit.push(edit(alloc, value)?)?,
            Key::Deliver => told.deliver.push(delivery(alloc, value)?)?,
            Key::ClientLeast => told.client_least = found(number(value))?,
            Key::ServerLeast => told.server_least = found(number(value))?,
            Key::Admit => told.admit.push(user(alloc, value)?)?,
        }
        Ok(())
    }

    /// The scenario of these values; `keys` are the keys of their lines.
    pub fn finish(self, alloc: Global, keys: &[Key]) -> Result<Scenario, AllocError>
        ensures { IfOk result (λ scenario. scenario ≡ finished keys.now self) }
    {
        let Values {
            mut scenario,
            accounts,
        } = self;
        match complete(alloc, &mut scenario, accounts, keys) {
            Ok(()) => Ok(scenario),
            Err(error) => given_up(scenario, error),
        }
    }
}

/// Drops what cannot be completed, and returns the error. Generic, since dropping a value of a type
/// parameter is a single step.
pub fn given_up<T: Drop, R, E>(_value: T, error: E) -> Result<R, E>
    ensures { result ≡ Err error }
{
    Err(error)
}

/// Fills in the server's key and the proxy's table, if no line gives them.
fn complete(
    alloc: Global,
    told: &mut Scenario,
    word: Accounts,
    keys: &[Key],
) -> Result<(), AllocError>
    ensures { OnOk result (told.new ≡ finished keys.now
        (record { scenario = told.old; accounts = word })) }
{
    if !has(keys, Key::ServerKey) {
        told.server_key = told.key.clone(alloc)?;
    }
    if told.account.is_empty() && word == Accounts::Own {
        let own = own_identity(alloc, &told.user, &told.password)?;
        told.account.push(own)?;
    }
    Ok(())
}

/// The user's own account.
fn own_identity(alloc: Global, user: &Username, password: &Text) -> Result<AuthIdentity, AllocError>
    ensures { IfOk result (λ own. own ≡ own_identity user.now password.now) }
{
    Ok(AuthIdentity {
        username: user.clone(alloc)?,
        password: Secret {
            value: password.clone(alloc)?,
        },
    })
}

/// The value, or a fault if there is none.
fn found<T>(value: Option<T>) -> Result<T, LineError>
    ensures reads { Reads result value }
    ensures fault { IfErr result (λ error. error ≡ LineError.Fault) }
{
    match value {
        Some(value) => Ok(value),
        None => Err(LineError::Fault),
    }
}

fn user(alloc: Global, value: &str) -> Result<Username, LineError>
    ensures { Reads result (parse_name value.now) }
{
    match Username::parse(alloc, value) {
        Ok(name) => Ok(name),
        Err(UsernameError::MixedFormat) => Err(LineError::Fault),
        Err(UsernameError::InsufficientMemory) => Err(LineError::InsufficientMemory),
    }
}

fn text(alloc: Global, value: &str) -> Result<Text, LineError>
    ensures { Reads result (Some value.now) }
{
    match Text::from_text(alloc, value) {
        Ok(copy) => Ok(copy),
        Err(_) => Err(LineError::InsufficientMemory),
    }
}

/// Adds an entry to the table: a realm, a space and the URL of its KDC.
#[tactic(auto, unfolding(crate::specs::Kdcs::kdc_of))]
fn add_kdc(kdcs: &mut KdcTable, value: &str) -> Result<(), LineError>
    ensures { Adds kdcs.old kdcs.new result (kdc_of value.now) }
{
    let Some((realm, url)) = parted(value) else {
        return Err(LineError::Fault);
    };
    match kdcs.push(realm, url) {
        Ok(()) => Ok(()),
        Err(_) => Err(LineError::InsufficientMemory),
    }
}

#[tactic(auto, unfolding(crate::specs::Accounts::account_of))]
fn account(alloc: Global, value: &str) -> Result<AuthIdentity, LineError>
    ensures { Reads result (account_of value.now) }
{
    let Some((name, password)) = parted(value) else {
        return Err(LineError::Fault);
    };
    Ok(AuthIdentity {
        username: user(alloc, name)?,
        password: Secret {
            value: text(alloc, password)?,
        },
    })
}
