//! Packages by name, with their entries.

use crate::tests::checks::{answered, gives, holds, refusal, told};
use bitflags::Flags;
use sspi_types::{
    AsStr, Bytes, Error, ErrorKind, PackageInfo, Secret, SecurityPackageType, SessionKeys, Text,
    enumerate_security_packages, negotiate_package_info, query_security_package_info,
};
use std::alloc::Global;
use std::process::Abort;

// Names are case-sensitive.
#[test]
fn packages_are_known_by_name(rt: HostRuntime) {
    is_named(&rt, rt.alloc(), "NTLM", true);
    is_named(&rt, rt.alloc(), "Kerberos", true);
    is_named(&rt, rt.alloc(), "Negotiate", true);
    is_named(&rt, rt.alloc(), "ntlm", false);
    is_named(&rt, rt.alloc(), "x", false);
}

fn is_named(rt: &impl Abort, alloc: Global, name: &str, is_own: bool) {
    let package_type = answered(rt, SecurityPackageType::from_str(alloc, name), name);
    holds(rt, package_type.as_str() == name, name);
    let is_other = matches!(&package_type, SecurityPackageType::Other(_));
    holds(rt, is_other != is_own, name);
    gives(rt, package_type.clone(alloc), &package_type, name);
    is_entry_of(
        rt,
        query_security_package_info(alloc, &package_type),
        name,
        is_own,
    );
}

fn is_entry_of(rt: &impl Abort, info: Result<PackageInfo, Error>, name: &str, is_own: bool) {
    if is_own {
        let info = answered(rt, info, name);
        holds(rt, info.name.as_str() == name, name);
    } else {
        let error = refusal(rt, info, name);
        holds(rt, error.error_type == ErrorKind::Unknown, name);
    }
}

/// An entry has no capabilities and no RPC identifier, and this length and comment.
fn is_entry(rt: &impl Abort, info: Option<&PackageInfo>, max_token_len: u32, comment: &str) {
    let info = told(rt, info, comment);
    holds(rt, info.capabilities.is_empty(), comment);
    holds(rt, info.rpc_id == 0xFFFF, comment);
    holds(rt, info.max_token_len == max_token_len, comment);
    holds(rt, info.comment.as_str() == comment, comment);
}

#[test]
fn packages_have_their_entries(rt: HostRuntime) {
    let infos = answered(&rt, enumerate_security_packages(rt.alloc()), "entries");
    assert_eq!(rt; infos.len(), 3);
    is_entry(&rt, infos.get(0), 48000, "Microsoft Package Negotiator");
    is_entry(&rt, infos.get(1), 48000, "Kerberos Security Package");
    is_entry(&rt, infos.get(2), 2888, "NTLM Security Package");
    are_copied(&rt, rt.alloc(), &infos);
}

fn are_copied(rt: &impl Abort, alloc: Global, infos: &[PackageInfo]) {
    let first = told(rt, infos.get(0), "first");
    gives(rt, negotiate_package_info(alloc), first, "first");
    let last = told(rt, infos.get(2), "last");
    gives(rt, last.clone(alloc), last, "last");
}

#[test]
fn copies_are_equal(rt: HostRuntime) {
    let alloc = rt.alloc();
    let mut bytes = answered(&rt, Bytes::from_slice(alloc, b"key"), "bytes");
    copies_bytes(&rt, alloc, &mut bytes);
    let session_key = Secret::from(bytes);
    let keys = SessionKeys { session_key };
    gives(&rt, keys.clone(alloc), &keys, "keys");
    let text = answered(&rt, Text::from_text(alloc, "text"), "text");
    gives(&rt, text.clone(alloc), &text, "text");
}

fn copies_bytes(rt: &impl Abort, alloc: Global, bytes: &mut Bytes) {
    let mut copy = answered(rt, bytes.clone(alloc), "copy");
    holds(rt, copy == *bytes, "copied");
    answered(rt, bytes.push_slice(b"s"), "bytes");
    holds(rt, copy != *bytes, "longer");
    answered(rt, copy.push(b's'), "byte");
    holds(rt, copy == *bytes, "both longer");
}
