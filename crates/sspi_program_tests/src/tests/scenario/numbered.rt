//! Scenarios that are made from a number.

use crate::tests::scenario::checks::{given, holds, lend, parsed};
use sspi_delegate::{Edit, EditKind};
use sspi_names::AuthIdentity;
use sspi_scenario::numbered::numbered;
use sspi_scenario::{Purpose, Scenario};
use sspi_types::Text;
use std::alloc::{AllocError, Global};
use std::process::Abort;

/// The parts of each text: the number, the mode, its low byte in hex, the version of both ends, and
/// further lines. A `|` follows each part but the last, and `;` is an LF.
const TOLD: &str = "0|ntlm|00|6|\n\
    1|negotiate|01|6|\n\
    2|ntlm|02|4|client-least 4;server-least 4;\n\
    3|negotiate|03|4|client-least 4;server-least 4;edit 1 drop;\n\
    4|ntlm|04|6|turns 2;\n\
    5|negotiate|05|6|client-protocol kerberos;server-protocol kerberos;client-url tcp://kdc;kdc-user D5\\u5;\
    ticket 0000000000000000000000000000000000000000000000000000000000000000;\n\
    6|ntlm|06|4|client-least 4;server-least 4;account D6\\u6 other;\n\
    7|negotiate|07|4|client-least 4;server-least 4;edit 1 drop;\n\
    258|ntlm|02|4|client-least 4;server-least 4;\n\
    9999|negotiate|0f|4|client-least 4;server-least 4;edit 1 drop;\n\
    10000|ntlm|10|6|";

fn next_part<'a>(rest: &mut &'a str) -> &'a str {
    let (part, more) = match rest.split_once('|') {
        Some(parts) => parts,
        None => (*rest, ""),
    };
    *rest = more;
    part
}

/// The text of a line of the table, and its number.
fn text_of(alloc: Global, line: &str) -> Result<(String, u32), AllocError> {
    let mut rest = line;
    let number = next_part(&mut rest);
    let mode = next_part(&mut rest);
    let key = next_part(&mut rest).repeat(alloc, 40)?;
    let version = next_part(&mut rest);
    let more = rest.replace(alloc, ';', "\n")?;
    let text = format!(in alloc;
        "mode {mode}\nuser D{number}\\u{number}\npassword p{number}\nkey {key}\nclient-version {version}\nserver-version {version}\n{more}"
    )?;
    Ok((text, number.parse().unwrap_or(0)))
}

fn are_same_texts(a: &[Text], b: &[Text]) -> bool {
    a.len() == b.len() && a.iter().zip(b.iter()).all(|(a, b)| *a == *b)
}

fn are_same_accounts(a: &[AuthIdentity], b: &[AuthIdentity]) -> bool {
    a.len() == 1
        && b.len() == 1
        && a[0].username == b[0].username
        && a[0].password.value == b[0].password.value
}

fn is_loss(edit: &Edit) -> bool {
    edit.entry == 1 && matches!(edit.kind, EditKind::Drop)
}

fn are_same_edits(a: &[Edit], b: &[Edit]) -> bool {
    a.len() == b.len() && (a.is_empty() || a.len() == 1 && is_loss(&a[0]) && is_loss(&b[0]))
}

fn have_same_ends(a: &Scenario, b: &Scenario) -> bool {
    a.mode == b.mode
        && a.user == b.user
        && a.password == b.password
        && a.key == b.key
        && a.server_key == b.server_key
        && a.client_version == b.client_version
        && a.server_version == b.server_version
        && a.client_least == b.client_least
        && a.server_least == b.server_least
        && a.nonce == b.nonce
        && a.challenge == b.challenge
}

fn have_same_names(a: &Scenario, b: &Scenario) -> bool {
    a.computer == b.computer
        && a.target == b.target
        && a.delegation == b.delegation
        && a.keytab.is_none()
        && b.keytab.is_none()
        && a.client_protocol == b.client_protocol
        && a.server_protocol == b.server_protocol
        && a.client_packages.is_none()
        && b.client_packages.is_none()
        && a.server_packages.is_none()
        && b.server_packages.is_none()
        && a.ticket == b.ticket
        && a.kdc == b.kdc
}

fn are_same_urls(a: &Option<Text>, b: &Option<Text>) -> bool {
    match (a, b) {
        (Some(a), Some(b)) => *a == *b,
        (None, None) => true,
        _ => false,
    }
}

fn have_same_lists(a: &Scenario, b: &Scenario) -> bool {
    are_same_urls(&a.client_url, &b.client_url)
        && are_same_texts(a.kdc_user.as_slice(), b.kdc_user.as_slice())
        && are_same_accounts(a.account.as_slice(), b.account.as_slice())
        && are_same_edits(a.edit.as_slice(), b.edit.as_slice())
        && a.kdc_answer.is_empty()
        && b.kdc_answer.is_empty()
        && a.proxy_fail.is_empty()
        && b.proxy_fail.is_empty()
        && a.turns == b.turns
        && a.deliver.is_empty()
        && b.deliver.is_empty()
        && a.admit.is_empty()
        && b.admit.is_empty()
}

fn check_same(rt: &impl Abort, told: &Scenario, made: &Scenario, line: &str) {
    holds(rt, have_same_ends(told, made), line);
    holds(rt, have_same_names(told, made), line);
    holds(rt, have_same_lists(told, made), line);
}

/// Compares with the scenario of the number.
fn is_made(rt: &impl Abort, alloc: Global, number: u32, told: &Scenario, line: &str) {
    let made = given(rt, numbered(alloc, number));
    lend(made, |made| check_same(rt, told, made, line));
}

fn is_told(rt: &impl Abort, alloc: Global, text: &str, number: u32, line: &str) {
    let told = parsed(rt, alloc, Purpose::Exchange, text.as_bytes());
    lend(told, |told| is_made(rt, alloc, number, told, line));
}

fn is_same(rt: &impl Abort, alloc: Global, line: &str) {
    let (text, number) = given(rt, text_of(alloc, line));
    is_told(rt, alloc, text.as_str(), number, line);
}

/// The scenario of a number is what its text says.
#[test]
fn numbers_make_what_their_texts_tell(rt: HostRuntime) {
    for line in TOLD.lines() {
        is_same(&rt, rt.alloc(), line);
    }
}
