//! Package lists, and what the ends that are made with them select.

use crate::tests::came::refusal;
use crate::tests::checks::{Test, comes, halves, holds, joined, lend};
use crate::tests::negotiate::end::{End, Plain};
use crate::tests::negotiate::scene::config;
use crate::tests::values::identities;
use sspi_negotiate::{FALLBACK_ERROR_KINDS, NegotiateConfig, PackageListConfig};
use sspi_types::{Error, ErrorKind};

/// Which packages each list allows, and the list in quotes, or `none`.
const LISTS: &str = "
both none
neither ''
both '!'
neither 'ntlm,!ntlm'
ntlm '!ntlm,ntlm'
ntlm '!kerberos,ntlm'
neither 'pku2u'
both '!pku2u'
kerberos '!ntlm'
kerberos 'kerberos'
kerberos 'kerberos,!ntlm'
kerberos 'kerberos,!NTLM'
ntlm 'ntlm'
ntlm 'NTLM'
ntlm 'NTLM,!Kerberos'
ntlm '!kerberos'
both 'ntlm,kerberos'
both 'kerberos,ntlm'
neither ' ntlm'
ntlm 'ntlm,'
both '!!ntlm'
";

fn list_of(text: &str) -> Option<&str> {
    match text.strip_prefix("'") {
        None => None,
        Some(text) => text.strip_suffix("'"),
    }
}

fn allows(rt: &impl Test, line: &str, allowed: &str, list: Option<&str>) {
    let packages = PackageListConfig::parse(list);
    let ntlm = allowed == "both" || allowed == "ntlm";
    let kerberos = allowed == "both" || allowed == "kerberos";
    holds(rt, packages.ntlm == ntlm, line);
    holds(rt, packages.kerberos == kerberos, line);
}

#[test]
fn lists(rt: HostRuntime) {
    for line in LISTS.lines() {
        let (allowed, text) = halves(line);
        if !allowed.is_empty() {
            allows(&rt, line, allowed, list_of(text));
        }
    }
}

fn hand(rt: &impl Test, end: &impl End) -> String {
    let need = if end.needs_mic() { " true" } else { " false" };
    joined(rt, end.hand(), need)
}

/// What a new end has selected, with MICs needed, or how it is refused.
fn begun<E: End>(rt: &impl Test, made: Result<E, Error>) -> String {
    match made {
        Ok(end) => hand(rt, &end),
        Err(error) => refusal(rt, error),
    }
}

fn client_begins<E: End>(rt: &impl Test, line: &str, config: &NegotiateConfig, wanted: &str) {
    let begun = begun(rt, E::client(rt.alloc(), config));
    comes(rt, line, &begun, wanted);
}

fn server_begins<E: End>(rt: &impl Test, line: &str, config: &NegotiateConfig, wanted: &str) {
    let known = identities(rt, "DOM\\ann pw");
    let begun = begun(rt, E::server(rt.alloc(), config, known));
    comes(rt, line, &begun, wanted);
}

/// Checks what a client and a server that begin with this mechanism select.
fn begin<E: End>(
    rt: &impl Test,
    line: &str,
    protocol: &str,
    list: Option<&str>,
    wanted: (&str, &str),
) {
    lend(config(rt, protocol, list), |config| {
        client_begins::<E>(rt, line, config, wanted.0);
        server_begins::<E>(rt, line, config, wanted.1);
    });
}

const NO_PACKAGE: &str = "refuses NoCredentials NoPackage";

/// An end that begins with NTLM selects it if its list allows it. Otherwise a client takes
/// Kerberos, if that is allowed, and a server is not made.
fn beginning_with_ntlm(allowed: &str) -> (&'static str, &'static str) {
    match allowed {
        "both" => ("NTLM true", "NTLM true"),
        "ntlm" => ("NTLM true", "NTLM true"),
        "kerberos" => ("Kerberos true", "refuses InternalError Disabled"),
        _ => (NO_PACKAGE, NO_PACKAGE),
    }
}

/// One that begins with Kerberos selects that if its list allows it, and otherwise NTLM, if that is
/// allowed.
fn beginning_with_kerberos(allowed: &str) -> (&'static str, &'static str) {
    match allowed {
        "both" => ("Kerberos true", "Kerberos true"),
        "ntlm" => ("NTLM true", "NTLM true"),
        "kerberos" => ("Kerberos true", "Kerberos true"),
        _ => (NO_PACKAGE, NO_PACKAGE),
    }
}

fn begin_with_each(rt: &impl Test, line: &str, allowed: &str, list: Option<&str>) {
    let wanted = beginning_with_ntlm(allowed);
    begin::<Plain>(rt, line, "ntlm", list, wanted);
    let wanted = beginning_with_kerberos(allowed);
    begin::<Plain>(rt, line, "kerberos", list, wanted);
}

#[test]
fn new_ends(rt: HostRuntime) {
    for line in LISTS.lines() {
        let (allowed, text) = halves(line);
        if !allowed.is_empty() {
            begin_with_each(&rt, line, allowed, list_of(text));
        }
    }
}

fn is_code(rt: &impl Test, kind: ErrorKind, code: u32, what: &str) {
    holds(rt, kind as u32 == code, what);
}

/// SEC_E_TIME_SKEW, SEC_E_NO_AUTHENTICATING_AUTHORITY, SEC_E_CERT_UNKNOWN and
/// SEC_E_UNKNOWN_CREDENTIALS.
#[test]
fn fallback_kinds(rt: HostRuntime) {
    let [time, authority, certificate, credentials] = FALLBACK_ERROR_KINDS;
    is_code(&rt, time, 0x8009_0324, "time");
    is_code(&rt, authority, 0x8009_0311, "authority");
    is_code(&rt, certificate, 0x8009_0327, "certificate");
    is_code(&rt, credentials, 0x8009_030d, "credentials");
    holds(
        &rt,
        !FALLBACK_ERROR_KINDS.contains(&ErrorKind::LogonDenied),
        "logon",
    );
}
