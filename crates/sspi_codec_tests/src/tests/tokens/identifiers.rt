//! Identifiers with the mechanisms that they name.

use crate::tests::checks::{differ, given, gives, holds, is};
use crate::tests::tokens::{KRB5, MS_KRB5, NTLM};
use sspi_tokens::{MechKind, Oid};
use std::alloc::AllocError;
use std::process::Abort;

/// The identifier has this content, and names this mechanism.
fn is_named(rt: &impl Abort, oid: Result<Oid, AllocError>, content: &[u8], kind: MechKind) {
    let oid = given(rt, oid);
    holds(rt, oid.content() == content, "another content");
    is(rt, oid.kind(), kind);
}

#[test]
fn of_mechanisms(rt: HostRuntime) {
    let alloc = rt.alloc();
    let spnego = &[0x2b, 0x06, 0x01, 0x05, 0x05, 0x02];
    is_named(&rt, Oid::spnego(alloc), spnego, MechKind::Other);
    is_named(&rt, Oid::ms_krb5(alloc), &MS_KRB5, MechKind::MsKerberos);
    is_named(&rt, Oid::krb5(alloc), &KRB5, MechKind::Kerberos);
    is_named(&rt, Oid::ntlm_ssp(alloc), &NTLM, MechKind::Ntlm);
}

/// The mechanism gives this identifier, or none if no content is given.
fn identifies(rt: &impl Abort, oid: Result<Option<Oid>, AllocError>, content: Option<&[u8]>) {
    match given(rt, oid) {
        Some(oid) => holds(rt, content == Some(oid.content()), "another identifier"),
        None => holds(rt, content.is_none(), "no identifier"),
    }
}

#[test]
fn by_mechanisms(rt: HostRuntime) {
    let alloc = rt.alloc();
    identifies(&rt, MechKind::MsKerberos.identifier(alloc), Some(&MS_KRB5));
    identifies(&rt, MechKind::Kerberos.identifier(alloc), Some(&KRB5));
    identifies(&rt, MechKind::Ntlm.identifier(alloc), Some(&NTLM));
    identifies(&rt, MechKind::Other.identifier(alloc), None);
}

#[test]
fn compared(rt: HostRuntime) {
    let alloc = rt.alloc();
    let krb5 = given(&rt, Oid::krb5(alloc));
    gives(&rt, krb5.clone(alloc), &krb5, "made otherwise");
    differ(&rt, Oid::krb5(alloc), Oid::ms_krb5(alloc));
}
