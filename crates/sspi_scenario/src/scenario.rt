//! A scenario, and how a text is read as one.

ghost use Rattle.std.specs.Prelude.{◌≡◌, ◌≤◌, true, false, length, IfOk, IfErr};
ghost use Rattle.sspi_scenario.specs.declared.scenario.ScenarioError.TheVariants.{Line};
ghost use Rattle.sspi_scenario.specs.Scenario.{Parses, is_readable};
ghost use Rattle.sspi_scenario.specs.Drafts.{Gathers};
ghost use Rattle.sspi_scenario.specs.Reading.{text_limit};

use crate::draft::Draft;
use crate::error::LineError;
use crate::lines::first_line;
use crate::purpose::Purpose;
use crate::reading::TEXT_LIMIT;
use sspi_delegate::Edit;
use sspi_mech::Scripted;
use sspi_names::{AuthIdentity, KdcTable, Username};
use sspi_play::Delivery;
use sspi_tsreq::CredSspMode;
use sspi_types::{Bytes, Rows, Text};
use std::alloc::{AllocError, Global};

/// How both ends authenticate.
#[derive(Clone, Copy, Debug, PartialEq, Eq)]
pub enum Mode {
    /// Plain NTLM, without a negotiation.
    Ntlm,
    /// SPNEGO, which agrees on a mechanism.
    Negotiate,
}

/// A mechanism that an end of a negotiation has selected before it hears from its peer.
#[derive(Clone, Copy, Debug, PartialEq, Eq)]
pub enum Package {
    Ntlm,
    Kerberos,
}

/// What a scenario text says: each field has the value of its key, or the key's default.
#[derive(Drop)]
pub struct Scenario {
    pub mode: Mode,
    pub user: Username,
    pub password: Text,
    /// The public key of the channel, as the client sees it.
    pub key: Bytes,
    /// The same key, as the server sees it.
    pub server_key: Bytes,
    pub client_version: u32,
    pub server_version: u32,
    pub nonce: [u8; 32],
    /// The challenge of the server's NTLM.
    pub challenge: [u8; 8],
    pub computer: Text,
    /// The service principal name of the server.
    pub target: Text,
    pub delegation: CredSspMode,
    /// If present, this keytab is the client's credentials.
    pub keytab: Option<Bytes>,
    /// The mechanism that the client of a negotiation begins with.
    pub client_protocol: Package,
    pub server_protocol: Package,
    /// The packages that the client of a negotiation may use, in the form that
    /// `PackageListConfig::parse` reads; all of them if there is no list.
    pub client_packages: Option<Text>,
    pub server_packages: Option<Text>,
    /// The URL of the KDC that the client's Kerberos asks; if absent, that of its realm in `kdc`.
    pub client_url: Option<Text>,
    /// Which KDC serves which realm.
    pub kdc: KdcTable,
    /// The names that the KDC knows.
    pub kdc_user: Rows<Text>,
    /// How the KDC answers its first calls; it answers all later ones as usual.
    pub kdc_answer: Rows<Scripted>,
    /// The ticket of the server's Kerberos, by which it authenticates user-to-user.
    pub ticket: Option<[u8; 32]>,
    /// The account table of the server's proxy.
    pub account: Rows<AuthIdentity>,
    /// The numbers of the proxy's calls that fail, counted from 0.
    pub proxy_fail: Rows<u64>,
    /// The most turns that the client may make.
    pub turns: u32,
    pub edit: Rows<Edit>,
    /// The deliveries that the ends are given, in order.
    pub deliver: Rows<Delivery>,
    /// The lowest version that the client accepts of its peer.
    pub client_least: u32,
    pub server_least: u32,
    /// The names of the users whom the server's policy admits.
    pub admit: Rows<Username>,
}

/// Why a text gave no scenario.
#[derive(Clone, Copy, Debug, PartialEq, Eq)]
pub enum ScenarioError {
    /// The text is not a scenario. The number is that of its first faulty line, from 1; 0 if no
    /// line is to blame.
    Line(usize),
    InsufficientMemory,
}

impl From<AllocError> for ScenarioError {
    ghost use Rattle.std.specs.Prelude.{◌≡◌};
    ghost use Rattle.sspi_scenario.specs.declared.scenario.ScenarioError.TheVariants.{InsufficientMemory};

    ghost from_gives = { λ _ error. error ≡ InsufficientMemory };

    fn from(_error: AllocError) -> ScenarioError {
        ScenarioError::InsufficientMemory
    }
}

impl Scenario {
    /// The scenario of a text, which must be UTF-8 of at most `TEXT_LIMIT` bytes. Unless memory
    /// runs out, `Line` is returned exactly if the text is not a scenario for this purpose. It has
    /// the number of the first faulty line; 0 if the text is too long, is not UTF-8, or lacks a key
    /// and has no faulty line. A line with a key of another purpose is faulty.
    pub fn parse(alloc: Global, purpose: Purpose, text: &[u8]) -> Result<Scenario, ScenarioError>
        ensures { Parses purpose text.now result }
    {
        read(alloc, purpose, checked(text)?)?.complete(alloc, purpose)
    }
}

/// These bytes as text, if they are within the limit and are UTF-8.
fn checked(text: &[u8]) -> Result<&str, ScenarioError>
    ensures text { IfOk result (λ read. (read.now ≡ text.now) × (is_readable text.now ≡ true)) }
    ensures refused { IfErr result (λ error. (error ≡ Line 0) × (is_readable text.now ≡ false)) }
{
    if text.len() > TEXT_LIMIT {
        return Err(ScenarioError::Line(0));
    }
    match str::from_utf8(text) {
        Ok(text) => Ok(text),
        Err(_) => Err(ScenarioError::Line(0)),
    }
}

/// The values of all lines.
fn read(alloc: Global, purpose: Purpose, text: &str) -> Result<Draft, ScenarioError>
    requires { length text.now ≤ text_limit }
    ensures { Gathers purpose text.now result }
{
    let mut draft = Draft::new(alloc)?;
    let mut number = 1;
    let mut rest = Some(text);
    while let Some(text) = rest {
        let (line, more) = first_line(text);
        match draft.take_line(alloc, purpose, line) {
            Ok(()) => {}
            Err(LineError::Fault) => return Err(ScenarioError::Line(number)),
            Err(LineError::InsufficientMemory) => return Err(ScenarioError::InsufficientMemory),
        }
        number += 1;
        rest = more;
    }
    Ok(draft)
}
