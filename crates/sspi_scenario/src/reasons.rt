//! Why a text is not a scenario, in words for its author.
ghost use Rattle.std.specs.Prelude.{◌≡◌, ◌-◌, ◌++◌, None, string_bytes, IfOk, OnOk, option_copied};
ghost use Rattle.std.specs.List.{list_all, slice_get};
ghost use Rattle.sspi_scenario.specs.Lines.{lines_of};
ghost use Rattle.sspi_scenario.specs.Reasons.{fault_line, fault_text, is_plain, is_plain_byte};
ghost use Rattle.sspi_scenario.specs.Reasons.{is_shown};
ghost use Rattle.sspi_scenario.specs.Reasons.{key_text, line_text, missing_part, missing_text};
ghost use Rattle.sspi_scenario.specs.Reasons.{names_key, numbered_text, reason_text};
ghost use Rattle.sspi_scenario.specs.Reasons.{refusal_text, value_is_good, value_text, wanted};
ghost use Rattle.sspi_scenario.specs.Reasons.{whole_text};
ghost use Rattle.sspi_scenario.specs.Scenario.{scenario_of};

use crate::error::LineError;
use crate::key::Key;
use crate::lines::{first_line, sides};
use crate::purpose::Purpose;
use crate::reading::{TEXT_LIMIT, text_of};
use crate::scenario::{Scenario, ScenarioError};
use crate::values::Values;
use std::alloc::{AllocError, Global};

/// The length of the longest value that is shown, in bytes.
const SHOWN: usize = 40;

/// Why `Scenario::parse` refuses this text for this purpose, in words without a line end. Empty if
/// the text is a scenario.
///
/// It names the faulty line, as in `line 5: turns: no number from 0 to 4294967295 without leading
/// zeros: "05"`. Or it says which of `mode`, `user`, `password` and `key` are missing, or that the
/// text is too long or not UTF-8. A value is shown only if its key takes a number or one of a few
/// words, and it is short and printable ASCII. No password, keytab or ticket is shown, nor an
/// unknown key, which may be part of a password.
#[tactic(auto, unfolding(crate::specs::Reasons::reason_text))]
pub fn reason(alloc: Global, purpose: Purpose, text: &[u8]) -> Result<String, AllocError>
    ensures { IfOk result (λ told. string_bytes told ≡ reason_text purpose text.now) }
{
    match faulty_line(alloc, purpose, text)? {
        None => Ok(String::new(alloc)),
        Some(number) => refusal_text(alloc, purpose, number, text),
    }
}

/// Why a text is refused at the line of this number, which is 0 if no line is to blame.
fn refusal_text(
    alloc: Global,
    purpose: Purpose,
    number: usize,
    text: &[u8],
) -> Result<String, AllocError>
    ensures { IfOk result (λ told. string_bytes told ≡ refusal_text purpose text.now number) }
{
    if number == 0 {
        whole_text(alloc, text)
    } else {
        numbered_text(alloc, purpose, number, text)
    }
}

/// The number of the first faulty line, 0 if no line is to blame; `None` for a scenario.
fn faulty_line(alloc: Global, purpose: Purpose, text: &[u8]) -> Result<Option<usize>, AllocError>
    ensures { IfOk result (λ line. line ≡ fault_line (scenario_of purpose text.now)) }
{
    match Scenario::parse(alloc, purpose, text) {
        Ok(scenario) => Ok(none_beside(scenario)),
        Err(ScenarioError::Line(number)) => Ok(Some(number)),
        Err(ScenarioError::InsufficientMemory) => Err(AllocError),
    }
}

/// Generic, since dropping a value of a type parameter is a single step.
fn none_beside<T: Drop>(_value: T) -> Option<usize>
    ensures { result ≡ None }
{
    None
}

/// Why no line of a text is examined, or which keys the text lacks.
#[tactic(auto, unfolding(crate::specs::Reasons::whole_text))]
fn whole_text(alloc: Global, text: &[u8]) -> Result<String, AllocError>
    ensures { IfOk result (λ told. string_bytes told ≡ whole_text text.now) }
{
    if text.len() > TEXT_LIMIT {
        return String::from_str(alloc, "text: more than 1048576 bytes");
    }
    match text_of(text) {
        Some(text) => missing_text(alloc, text),
        None => String::from_str(alloc, "text: not UTF-8"),
    }
}

/// Which of `mode`, `user`, `password` and `key` no line of a text names.
#[tactic(auto, unfolding(crate::specs::Reasons::missing_text))]
fn missing_text(alloc: Global, text: &str) -> Result<String, AllocError>
    ensures { IfOk result (λ told. string_bytes told ≡ missing_text text.now) }
{
    let mut told = String::from_str(alloc, "text: missing keys:")?;
    push_missing(&mut told, text, "mode")?;
    push_missing(&mut told, text, "user")?;
    push_missing(&mut told, text, "password")?;
    push_missing(&mut told, text, "key")?;
    Ok(told)
}

fn push_missing(told: &mut String, text: &str, name: &str) -> Result<(), AllocError>
    ensures { OnOk result (string_bytes told.new ≡ string_bytes told.old ++
        missing_part text.now name.now) }
{
    if names_key(text, name) {
        return Ok(());
    }
    told.push(' ')?;
    told.push_str(name)
}

/// Whether a line of a text begins with this key.
fn names_key(text: &str, name: &str) -> bool
    ensures { result ≡ names_key (lines_of text.now) name.now }
{
    let mut rest = Some(text);
    while let Some(text) = rest {
        let (line, more) = first_line(text);
        let (key, _value) = sides(line);
        if key == name {
            return true;
        }
        rest = more;
    }
    false
}

/// What is wrong with the line of this number, counted from 1.
#[tactic(auto, unfolding(crate::specs::Reasons::numbered_text))]
fn numbered_text(
    alloc: Global,
    purpose: Purpose,
    number: usize,
    text: &[u8],
) -> Result<String, AllocError>
    ensures { IfOk result (λ told. string_bytes told ≡ numbered_text purpose number text.now) }
{
    match text_of(text) {
        Some(text) => line_text(alloc, purpose, number, line_at(text, number)),
        None => Ok(String::new(alloc)),
    }
}

fn line_text(
    alloc: Global,
    purpose: Purpose,
    number: usize,
    line: Option<&str>,
) -> Result<String, AllocError>
    ensures { IfOk result (λ told. string_bytes told ≡ line_text purpose number
        (option_copied line.entry)) }
{
    match line {
        Some(line) => {
            let fault = fault_text(alloc, purpose, line)?;
            format!(in alloc; "line {number}: {fault}")
        }
        None => Ok(String::new(alloc)),
    }
}

/// The line of this number, counted from 1.
fn line_at(text: &str, number: usize) -> Option<&str>
    ensures { option_copied result ≡ slice_get (lines_of text.now) (number - 1) }
{
    let mut ahead = number.saturating_sub(1);
    let mut rest = Some(text);
    while let Some(text) = rest {
        let (line, more) = first_line(text);
        if ahead == 0 {
            return Some(line);
        }
        ahead -= 1;
        rest = more;
    }
    None
}

/// What is wrong with a faulty line: its key, its value, or that an earlier line excludes it.
fn fault_text(alloc: Global, purpose: Purpose, line: &str) -> Result<String, AllocError>
    ensures { IfOk result (λ told. string_bytes told ≡ fault_text purpose line.now) }
{
    let (name, value) = sides(line);
    match Key::from_name(name) {
        Some(key) => key_text(alloc, purpose, key, name, value),
        None => String::from_str(alloc, "no key of a scenario"),
    }
}

fn key_text(
    alloc: Global,
    purpose: Purpose,
    key: Key,
    name: &str,
    value: &str,
) -> Result<String, AllocError>
    ensures { IfOk result (λ told. string_bytes told ≡ key_text purpose key name.now value.now) }
{
    if !purpose.takes(key) {
        return format!(in alloc; "{name}: no key of this word");
    }
    if value_is_good(alloc, key, value)? {
        return format!(in alloc; "{name}: an earlier line has or excludes this key");
    }
    let fault = value_text(alloc, key, value)?;
    format!(in alloc; "{name}: {fault}")
}

/// Whether a value fits the grammar of its key.
#[tactic(auto, using(crate::proofs::Wanted::there))]
fn value_is_good(alloc: Global, key: Key, value: &str) -> Result<bool, AllocError>
    ensures { IfOk result (λ is. is ≡ value_is_good key value.now) }
{
    let Ok(mut values) = Values::new(alloc) else {
        return Err(AllocError);
    };
    match values.put(alloc, key, value) {
        Ok(()) => Ok(beside(values, true)),
        Err(LineError::Fault) => Ok(beside(values, false)),
        Err(LineError::InsufficientMemory) => Err(beside(values, AllocError)),
    }
}

/// Generic, as `none_beside` is.
fn beside<T: Drop, A>(_values: T, answer: A) -> A
    ensures { result ≡ answer }
{
    answer
}

/// What the grammar of a key wants, and the value if it may be shown.
fn value_text(alloc: Global, key: Key, value: &str) -> Result<String, AllocError>
    ensures { IfOk result (λ told. string_bytes told ≡ value_text key value.now) }
{
    let wanted = wanted(key);
    if is_shown(key) && is_plain(value) {
        return format!(in alloc; "{wanted}: \"{value}\"");
    }
    String::from_str(alloc, wanted)
}

/// Whether a value of this key may be shown: a number, or one of a few words.
fn is_shown(key: Key) -> bool
    ensures { result ≡ is_shown key }
{
    match key {
        Key::Mode
        | Key::ClientVersion
        | Key::ServerVersion
        | Key::Delegation
        | Key::ClientProtocol
        | Key::ServerProtocol
        | Key::KdcAnswer
        | Key::Accounts
        | Key::ProxyFail
        | Key::Turns
        | Key::ClientLeast
        | Key::ServerLeast => true,
        _ => false,
    }
}

/// Whether a value is short and has only printable ASCII characters.
fn is_plain(value: &str) -> bool
    ensures { result ≡ is_plain value.now }
{
    value.len() <= SHOWN && are_plain(value.as_bytes())
}

fn are_plain(bytes: &[u8]) -> bool
    ensures { result ≡ list_all is_plain_byte bytes.now }
{
    for byte in bytes {
        if !is_plain_byte(*byte) {
            return false;
        }
    }
    true
}

fn is_plain_byte(byte: u8) -> bool
    ensures { result ≡ is_plain_byte byte }
{
    32 <= byte && byte <= 126
}

/// What a faulty value of this key is not.
fn wanted(key: Key) -> &'static str
    ensures { result.now ≡ wanted key }
{
    match key {
        Key::Mode => "neither ntlm nor negotiate",
        Key::ClientVersion
        | Key::ServerVersion
        | Key::ProxyFail
        | Key::Turns
        | Key::ClientLeast
        | Key::ServerLeast => "no number from 0 to 4294967295 without leading zeros",
        Key::User | Key::Admit => "a name with two \\, or with a \\ and an @",
        Key::Account => "no name, space and password, or a name with two \\, or with a \\ and an @",
        Key::Key | Key::ServerKey | Key::Keytab => "no even number of hex digits",
        Key::Nonce | Key::Ticket => "not 64 hex digits",
        Key::Challenge => "not 16 hex digits",
        Key::Delegation => "neither with nor less",
        Key::ClientProtocol | Key::ServerProtocol => "neither ntlm nor kerberos",
        Key::Accounts => "neither own nor none",
        Key::Kdc => "no realm, space and URL",
        Key::KdcAnswer => "none of usual, fail, and code with a number up to 255",
        Key::Edit =>
            "no number, space, and drop, cut, set, add, give, again or fail with its argument",
        Key::Deliver => "no client or server, space and hex",
        Key::Password
        | Key::Computer
        | Key::Target
        | Key::ClientPackages
        | Key::ServerPackages
        | Key::ClientUrl
        | Key::KdcUser => "no text",
    }
}
