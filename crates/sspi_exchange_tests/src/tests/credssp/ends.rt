//! The two ends that an `ends` line of a script makes. Its words, each with its default first:
//!
//! - `client-version=`, `server-version=`: 6.
//! - `client-least=`, `server-least=`: the least version that an end accepts by default.
//! - `key=`: `010203`, the public key of the channel.
//! - `nonce=`: `00`, the byte that the client's nonce repeats.
//! - `credentials=`: `own`, which is `DOM\ann` with the password `pw`; `keytab`; or a number of
//!   letters for a password of theirs.
//! - `delegation=`: `with` credentials, or `none`.
//! - `account=NAME:PASSWORD`, repeatable: that of `own`; `none` for a server that knows nobody.
//! - `fails=`: the number of the call at which the server's look-up fails.
//! - `packages=`: the ends speak only NTLM; with this word they negotiate, among all packages or
//!   those of the list.

use crate::tests::credssp::words::{Test, byte, given, number, octets, parted};
use sspi_credssp::{ClientMode, CredSspClient, CredSspMode, CredSspServer, ServerMode, TableProxy};
use sspi_mech::NtlmConfig;
use sspi_names::{AuthIdentity, Credentials, KdcTable, KeytabIdentity, Username};
use sspi_negotiate::{NegotiateConfig, ProtocolConfig};
use sspi_types::{Bytes, Secret, Text};

/// A client of one mechanism.
pub type Client<M> = CredSspClient<M, M>;

/// A server of one mechanism, which looks its client up in a table.
pub type Server<M> = CredSspServer<M, M, TableProxy>;

const WORDS: [&str; 11] = [
    "client-version",
    "server-version",
    "client-least",
    "server-least",
    "key",
    "nonce",
    "credentials",
    "delegation",
    "account",
    "fails",
    "packages",
];

/// Ends the test if the line has another word.
pub fn knows_words(rt: &impl Test, line: &str) {
    for word in line.split_whitespace() {
        let (name, _) = parted(rt, word, "=");
        assert!(rt; WORDS.contains(&name), "{line}");
    }
}

/// The value of this word, if the line has it.
fn value_of<'a>(line: &'a str, name: &str) -> Option<&'a str> {
    for word in line.split_whitespace() {
        if let Some((found, value)) = word.split_once('=')
            && found == name
        {
            return Some(value);
        }
    }
    None
}

fn text(rt: &impl Test, text: &str) -> Text {
    given(rt, Text::from_text(rt.alloc(), text))
}

pub fn name(rt: &impl Test, name: &str) -> Username {
    given(rt, Username::parse(rt.alloc(), name))
}

fn identity(rt: &impl Test, user: &str, password: &str) -> AuthIdentity {
    let username = name(rt, user);
    let password = Secret::from(text(rt, password));
    AuthIdentity { username, password }
}

fn with_letters(rt: &impl Test, letters: u32) -> AuthIdentity {
    let password = given(rt, "a".repeat(rt.alloc(), letters as usize));
    identity(rt, "DOM\\ann", password.as_str())
}

fn credentials(rt: &impl Test, line: &str) -> Credentials {
    match value_of(line, "credentials") {
        None | Some("own") => Credentials::AuthIdentity(identity(rt, "DOM\\ann", "pw")),
        Some("keytab") => Credentials::Keytab(KeytabIdentity {
            username: name(rt, "ann"),
            keytab: Bytes::new(rt.alloc()),
        }),
        Some(letters) => Credentials::AuthIdentity(with_letters(rt, number(rt, letters))),
    }
}

fn delegation(rt: &impl Test, line: &str) -> CredSspMode {
    match value_of(line, "delegation") {
        None | Some("with") => CredSspMode::WithCredentials,
        Some("none") => CredSspMode::CredentialLess,
        Some(_) => rt.abort(),
    }
}

fn key(rt: &impl Test, line: &str) -> Vec<u8> {
    octets(rt, value_of(line, "key").unwrap_or("key"))
}

fn nonce(rt: &impl Test, line: &str) -> [u8; 32] {
    [byte(rt, value_of(line, "nonce").unwrap_or("00")); 32]
}

fn ntlm(rt: &impl Test) -> NtlmConfig {
    NtlmConfig::new(text(rt, "computer"))
}

fn negotiate(rt: &impl Test, packages: &str) -> NegotiateConfig {
    let list = match packages {
        "all" => None,
        _ => Some(text(rt, packages)),
    };
    NegotiateConfig::new(
        ProtocolConfig::Ntlm(ntlm(rt)),
        list,
        text(rt, "computer"),
        KdcTable::new(rt.alloc()),
    )
}

fn client_mode(rt: &impl Test, line: &str) -> ClientMode {
    match value_of(line, "packages") {
        None => ClientMode::Ntlm(ntlm(rt)),
        Some(packages) => ClientMode::Negotiate(negotiate(rt, packages)),
    }
}

fn server_mode(rt: &impl Test, line: &str) -> ServerMode {
    match value_of(line, "packages") {
        None => ServerMode::Ntlm(ntlm(rt)),
        Some(packages) => ServerMode::Negotiate(negotiate(rt, packages)),
    }
}

fn client_of_6<M>(rt: &impl Test, line: &str) -> Client<M> {
    CredSspClient::new(
        rt.alloc(),
        key(rt, line),
        credentials(rt, line),
        delegation(rt, line),
        client_mode(rt, line),
        text(rt, "TERMSRV/host").into_inner(),
        nonce(rt, line),
    )
}

fn client_of<M>(rt: &impl Test, line: &str, version: u32) -> Client<M> {
    CredSspClient::new_with_version(
        rt.alloc(),
        key(rt, line),
        credentials(rt, line),
        delegation(rt, line),
        version,
        client_mode(rt, line),
        text(rt, "TERMSRV/host").into_inner(),
        nonce(rt, line),
    )
}

fn client_at<M>(rt: &impl Test, line: &str) -> Client<M> {
    match value_of(line, "client-version") {
        None => client_of_6(rt, line),
        Some(version) => client_of(rt, line, number(rt, version)),
    }
}

pub fn client<M>(rt: &impl Test, line: &str) -> Client<M> {
    let client = client_at(rt, line);
    match value_of(line, "client-least") {
        None => client,
        Some(least) => client.with_least_version(number(rt, least)),
    }
}

/// The identities that the `account` words give.
fn listed(rt: &impl Test, line: &str) -> Vec<AuthIdentity> {
    let mut known = Vec::new(rt.alloc());
    for word in line.split_whitespace() {
        if let Some(account) = word.strip_prefix("account=") {
            let (user, password) = parted(rt, account, ":");
            given(rt, known.push(identity(rt, user, password)));
        }
    }
    known
}

fn known(rt: &impl Test, line: &str) -> Vec<AuthIdentity> {
    match value_of(line, "account") {
        None => listed(rt, "account=DOM\\ann:pw"),
        Some("none") => Vec::new(rt.alloc()),
        Some(_) => listed(rt, line),
    }
}

fn failing(rt: &impl Test, line: &str) -> Vec<u64> {
    match value_of(line, "fails") {
        None => Vec::new(rt.alloc()),
        Some(call) => given(rt, Vec::from_slice(rt.alloc(), &[number(rt, call) as u64])),
    }
}

pub fn proxy(rt: &impl Test, line: &str) -> TableProxy {
    TableProxy::new(rt.alloc(), known(rt, line), failing(rt, line))
}

fn server_at<M>(rt: &impl Test, line: &str) -> Server<M> {
    let mode = server_mode(rt, line);
    match value_of(line, "server-version") {
        None => CredSspServer::new(rt.alloc(), key(rt, line), proxy(rt, line), mode),
        Some(version) => CredSspServer::new_with_version(
            rt.alloc(),
            key(rt, line),
            proxy(rt, line),
            number(rt, version),
            mode,
        ),
    }
}

pub fn server<M>(rt: &impl Test, line: &str) -> Server<M> {
    let server = server_at(rt, line);
    match value_of(line, "server-least") {
        None => server,
        Some(least) => server.with_least_version(number(rt, least)),
    }
}
