//! Values in words: names, identities, credentials and their buffers; and the configurations and
//! arguments of the mechanisms.

use crate::tests::checks::{Test, given, halves, text};
use sspi_mech::{InitializeSecurityContext, KerberosConfig, NtlmConfig};
use sspi_names::{
    AuthIdentity, AuthIdentityBuffers, Credentials, CredentialsBuffers, KdcTable, KeytabIdentity,
    Username, Utf16Text,
};
use sspi_types::{Bytes, ClientRequestFlags, CredentialUse, DataRepresentation, Secret};
use std::process::Abort;

fn push_many(rt: &impl Test, letter: &str, times: usize, name: &mut String) {
    for _ in 0..times {
        given(rt, name.push_str(letter));
    }
}

fn push_name(rt: &impl Test, word: &str, name: &mut String) {
    match word.split_once('*') {
        None => given(rt, name.push_str(word)),
        Some((letter, times)) => push_many(rt, letter, given(rt, times.parse()), name),
    }
}

/// A name; `a*300` is one of 300 letters.
fn name(rt: &impl Test, word: &str) -> String {
    let mut name = String::new(rt.alloc());
    push_name(rt, word, &mut name);
    name
}

fn username(rt: &impl Test, word: &str) -> Username {
    given(rt, Username::parse(rt.alloc(), &name(rt, word)))
}

/// An identity from the words of its name and its password.
pub fn identity(rt: &impl Test, words: &str) -> AuthIdentity {
    let (name, password) = halves(words);
    AuthIdentity {
        username: username(rt, name),
        password: Secret::from(text(rt, password)),
    }
}

/// The identities from lines of words.
pub fn identities(rt: &impl Test, lines: &str) -> Vec<AuthIdentity> {
    let mut identities = Vec::new(rt.alloc());
    for line in lines.lines() {
        given(rt, identities.push(identity(rt, line)));
    }
    identities
}

fn key_table(rt: &impl Test, name: &str) -> KeytabIdentity {
    KeytabIdentity {
        username: username(rt, name),
        keytab: Bytes::new(rt.alloc()),
    }
}

/// Credentials from the words of an identity, or `key-table` and a name.
pub fn credentials(rt: &impl Test, words: &str) -> Credentials {
    match words.strip_prefix("key-table ") {
        Some(name) => Credentials::Keytab(key_table(rt, name)),
        None => Credentials::AuthIdentity(identity(rt, words)),
    }
}

fn utf16(rt: &impl Test, word: &str) -> Utf16Text {
    let word = if word == "-" { "" } else { word };
    given(rt, Utf16Text::from_str(rt.alloc(), &name(rt, word)))
}

/// The buffers from the words of a domain, a user and a password, whether or not they make a name;
/// `-` is an empty domain.
pub fn password_buffers(rt: &impl Test, words: &str) -> CredentialsBuffers {
    let (domain, words) = halves(words);
    let (user, password) = halves(words);
    CredentialsBuffers::AuthIdentity(AuthIdentityBuffers {
        user: utf16(rt, user),
        domain: utf16(rt, domain),
        password: Secret::from(utf16(rt, password)),
    })
}

pub fn buffers(rt: &impl Test, words: &str) -> Option<CredentialsBuffers> {
    if words == "none" {
        return None;
    }
    match words.strip_prefix("key-table ") {
        Some(name) => Some(CredentialsBuffers::Keytab(key_table(rt, name))),
        None => Some(password_buffers(rt, words)),
    }
}

pub fn credential_use(rt: &impl Test, word: &str) -> CredentialUse {
    match word {
        "inbound" => CredentialUse::Inbound,
        "outbound" => CredentialUse::Outbound,
        _ => rt.abort(),
    }
}

pub fn credentials_or_none(rt: &impl Test, words: &str) -> Option<Credentials> {
    match words {
        "none" => None,
        _ => Some(credentials(rt, words)),
    }
}

/// The arguments of a client's step.
pub fn client_args<'a>(
    handle: Option<&'a CredentialsBuffers>,
    flags: ClientRequestFlags,
    target_name: Option<&'a str>,
    input: &'a [u8],
) -> InitializeSecurityContext<'a> {
    InitializeSecurityContext {
        credentials_handle: handle,
        context_requirements: flags,
        target_data_representation: DataRepresentation::Native,
        target_name,
        input,
    }
}

pub fn ntlm_config(rt: &impl Test) -> NtlmConfig {
    NtlmConfig::new(text(rt, "CLIENT"))
}

/// A configuration with these KDCs and, if given, one for every realm.
pub fn kerberos_config(rt: &impl Test, kdc_url: Option<&str>, kdcs: KdcTable) -> KerberosConfig {
    KerberosConfig {
        kdc_url: kdc_url.map(|url| text(rt, url)),
        kdcs,
        client_computer_name: text(rt, "CLIENT"),
    }
}
