//! First tokens of other implementations, decoded and encoded again.

use crate::tests::checks::{differ, given, gives, holds};
use crate::tests::tokens::{
    HTTP_OFFER, KRB5, MS_KRB5, NTLM, OFFER, SMB_HINTS, is_spelled, lists, same,
};
use sspi_tokens::{MechTypeList, NegTokenInit, Oid, encode_mech_types};
use std::alloc::Global;
use std::process::Abort;

/// The token has this list and this mechanism token.
fn offers(rt: &impl Abort, alloc: Global, bytes: &[u8], oids: &[&[u8]], mech_token: Option<&[u8]>) {
    let token = given(rt, NegTokenInit::decode(alloc, bytes));
    lists(rt, &token, oids);
    same(rt, &token.mech_token, mech_token);
}

/// The token is encoded as the bytes that it was read from, and has a copy.
fn is_written_again(rt: &impl Abort, alloc: Global, bytes: &[u8]) {
    let token = given(rt, NegTokenInit::decode(alloc, bytes));
    is_spelled(rt, token.encode(alloc), bytes);
    gives(rt, token.clone(alloc), &token, "made otherwise");
}

#[test]
fn of_ntlm(rt: HostRuntime) {
    let alloc = rt.alloc();
    offers(&rt, alloc, &OFFER, &[&NTLM], Some(b"N1"));
    is_written_again(&rt, alloc, &OFFER);
}

#[test]
fn over_http(rt: HostRuntime) {
    let alloc = rt.alloc();
    offers(&rt, alloc, &HTTP_OFFER, &[&NTLM], HTTP_OFFER.get(34..));
    is_written_again(&rt, alloc, &HTTP_OFFER);
    differ(
        &rt,
        NegTokenInit::decode(alloc, &HTTP_OFFER),
        NegTokenInit::decode(alloc, &OFFER),
    );
}

#[test]
fn of_smb(rt: HostRuntime) {
    let oids: &[&[u8]] = &[&MS_KRB5, &KRB5, &NTLM];
    offers(&rt, rt.alloc(), &SMB_HINTS, oids, None);
}

/// NTLM alone.
fn ntlm_list(rt: &impl Abort, alloc: Global) -> MechTypeList {
    let mut oids = Vec::new(alloc);
    given(rt, oids.push(given(rt, Oid::ntlm_ssp(alloc))));
    MechTypeList::from_vec(oids)
}

fn is_listed(rt: &impl Abort, alloc: Global, list: &MechTypeList, text: &[u8]) {
    is_spelled(rt, encode_mech_types(alloc, list), text);
    gives(rt, list.clone(alloc), list, "made otherwise");
}

#[test]
fn lists_alone(rt: HostRuntime) {
    let alloc = rt.alloc();
    let text = &[
        0x30, 0x0c, 0x06, 0x0a, 0x2b, 0x06, 0x01, 0x04, 0x01, 0x82, 0x37, 0x02, 0x02, 0x0a,
    ];
    let ntlm = ntlm_list(&rt, alloc);
    is_listed(&rt, alloc, &ntlm, text);
    let none = MechTypeList::from_vec(Vec::new(alloc));
    is_spelled(&rt, encode_mech_types(alloc, &none), &[0x30, 0x00]);
    holds(&rt, ntlm != none, "two lists alike");
}
