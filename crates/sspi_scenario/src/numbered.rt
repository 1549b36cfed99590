//! Scenarios that are given by a number alone: a sequence of exchanges that differ in how they
//! authenticate, in their versions and in what hinders them.

ghost use Rattle.std.specs.Prelude.{◌≡◌, ◌∷◌, [], IfOk, OnOk};
ghost use Rattle.sspi_scenario.specs.Held.{HoldsValues};
ghost use Rattle.sspi_scenario.specs.Numbered.{key_at, least_at, mode_at, numbered, password_at};
ghost use Rattle.sspi_scenario.specs.Numbered.{set_apart, user_at, version_at};
ghost use Rattle.sspi_scenario.specs.Numbered.{usual_at, with_kerberos};
ghost use Rattle.sspi_scenario.specs.Scenario.{defaults, own_identity};

use crate::scenario::{Mode, Package, Scenario};
use crate::values::Values;
use sspi_delegate::{Edit, EditKind};
use sspi_names::{AuthIdentity, Username};
use sspi_types::{Bytes, Rows, Secret, Text};
use std::alloc::{AllocError, Global};

const KEY_LENGTH: usize = 40;

/// The scenario of a number. The user, password and key are derived from the number. How the ends
/// authenticate, their versions and what hinders them repeat with a period of eight. Fails only
/// when out of memory.
pub fn numbered(alloc: Global, number: u32) -> Result<Scenario, AllocError>
    ensures scenario { IfOk result (λ scenario. scenario ≡ numbered number) }
    ensures holds { IfOk result HoldsValues }
{
    let Ok(values) = Values::new(alloc) else {
        return Err(AllocError);
    };
    let Values { mut scenario, .. } = values;
    tell(alloc, number, &mut scenario)?;
    Ok(scenario)
}

/// Replaces the defaults by what the number determines.
fn tell(alloc: Global, number: u32, scenario: &mut Scenario) -> Result<(), AllocError>
    ensures { scenario.old ≡ defaults.scenario → OnOk result (scenario.new ≡ numbered number) }
{
    tell_usual(alloc, number, scenario)?;
    tell_apart(alloc, number % 8, scenario)
}

/// What every number determines.
fn tell_usual(alloc: Global, number: u32, scenario: &mut Scenario) -> Result<(), AllocError>
    ensures { scenario.old ≡ defaults.scenario → OnOk result (scenario.new ≡ usual_at number) }
{
    scenario.user = user_at(alloc, number)?;
    scenario.password = password_at(alloc, number)?;
    scenario.account = known_by(alloc, &scenario.user, scenario.password.as_str())?;
    scenario.key = key_at(alloc, number)?;
    scenario.server_key = key_at(alloc, number)?;
    scenario.mode = mode_at(number);
    scenario.client_version = version_at(number);
    scenario.server_version = version_at(number);
    scenario.client_least = least_at(number);
    scenario.server_least = least_at(number);
    Ok(())
}

/// What sets the scenarios of this remainder apart from the others.
fn tell_apart(alloc: Global, remainder: u32, scenario: &mut Scenario) -> Result<(), AllocError>
    ensures { OnOk result (scenario.new ≡ set_apart remainder scenario.old) }
{
    match remainder {
        3 | 7 => scenario.edit.push(Edit {
            entry: 1,
            kind: EditKind::Drop,
        })?,
        4 => scenario.turns = 2,
        5 => begin_with_kerberos(alloc, scenario)?,
        6 => scenario.account = known_by(alloc, &scenario.user, "other")?,
        _ => {}
    }
    Ok(())
}

/// Both ends begin with Kerberos, and have what it needs.
fn begin_with_kerberos(alloc: Global, scenario: &mut Scenario) -> Result<(), AllocError>
    ensures { OnOk result (scenario.new ≡ with_kerberos scenario.old) }
{
    scenario.client_protocol = Package::Kerberos;
    scenario.server_protocol = Package::Kerberos;
    scenario.client_url = Some(Text::from_text(alloc, "tcp://kdc")?);
    let name = Text::from_text(alloc, scenario.user.inner())?;
    scenario.kdc_user.push(name)?;
    scenario.ticket = Some([0; 32]);
    Ok(())
}

fn mode_at(number: u32) -> Mode
    ensures { result ≡ mode_at number }
{
    if number % 2 == 0 {
        Mode::Ntlm
    } else {
        Mode::Negotiate
    }
}

/// The version of both ends.
fn version_at(number: u32) -> u32
    ensures { result ≡ version_at number }
{
    if (number / 2) % 2 == 1 { 4 } else { 6 }
}

/// The lowest version that each end accepts of the other.
fn least_at(number: u32) -> u32
    ensures { result ≡ least_at number }
{
    if (number / 2) % 2 == 1 { 4 } else { 5 }
}

fn user_at(alloc: Global, number: u32) -> Result<Username, AllocError>
    ensures { IfOk result (λ name. name ≡ user_at number) }
{
    let account = format!(in alloc; "u{number}")?;
    let domain = format!(in alloc; "D{number}")?;
    match Username::new(alloc, account.as_str(), Some(domain.as_str())) {
        Ok(name) => Ok(name),
        Err(_) => Err(AllocError),
    }
}

fn password_at(alloc: Global, number: u32) -> Result<Text, AllocError>
    ensures { IfOk result (λ password. password ≡ password_at number) }
{
    let text = format!(in alloc; "p{number}")?;
    Ok(Text::from_string(text))
}

/// The key that both ends see.
fn key_at(alloc: Global, number: u32) -> Result<Bytes, AllocError>
    ensures { IfOk result (λ key. key ≡ key_at number) }
{
    let byte = (number % 256) as u8;
    let key = vec![in alloc; byte; KEY_LENGTH]?;
    Ok(Bytes::from_vec(key))
}

/// A table that knows this user with this password.
fn known_by(
    alloc: Global,
    user: &Username,
    password: &str,
) -> Result<Rows<AuthIdentity>, AllocError>
    ensures { IfOk result (λ table. table ≡ own_identity user.now password.now ∷ []) }
{
    let mut table = Rows::new(alloc);
    table.push(AuthIdentity {
        username: user.clone(alloc)?,
        password: Secret {
            value: Text::from_text(alloc, password)?,
        },
    })?;
    Ok(table)
}
