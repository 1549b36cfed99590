//! The longest tokens, and longer ones.

use crate::tests::checks::{given, gives, is};
use crate::tests::tokens::{empty_targ, is_too_long};
use sspi_tokens::{MechTypeList, NegTokenInit, NegTokenTarg, Oid, encode_mech_types};
use sspi_types::Bytes;
use std::alloc::Global;
use std::process::Abort;

fn zeros(rt: &impl Abort, alloc: Global, len: usize) -> Option<Bytes> {
    Some(Bytes::from_vec(given(rt, vec![in alloc; 0u8; len])))
}

/// A mechanism token of `len` bytes, and nothing else.
fn answer(rt: &impl Abort, alloc: Global, len: usize) -> NegTokenTarg {
    NegTokenTarg {
        response_token: zeros(rt, alloc, len),
        ..empty_targ()
    }
}

/// The encoding has 1048581 bytes, and the token is read from it.
fn fits(rt: &impl Abort, alloc: Global, token: &NegTokenTarg) {
    let text = given(rt, token.encode(alloc));
    is(rt, text.len(), 1048581);
    gives(
        rt,
        NegTokenTarg::decode(alloc, &text),
        token,
        "made otherwise",
    );
}

// The longest token that fits has 1048581 bytes.
#[test]
fn of_answers(rt: HostRuntime) {
    let alloc = rt.alloc();
    fits(&rt, alloc, &answer(&rt, alloc, 1048561));
    is_too_long(&rt, answer(&rt, alloc, 1048562).encode(alloc));
}

/// The same for the first token.
fn offer_of(rt: &impl Abort, alloc: Global, len: usize) -> NegTokenInit {
    NegTokenInit {
        mech_types: None,
        mech_token: zeros(rt, alloc, len),
    }
}

#[test]
fn of_offers(rt: HostRuntime) {
    let alloc = rt.alloc();
    is_too_long(&rt, offer_of(&rt, alloc, 1048549).encode(alloc));
}

fn push(rt: &impl Abort, alloc: Global, oids: &mut Vec<Oid>, content: &[u8]) {
    let oid = given(rt, Oid::from_content(alloc, content));
    given(rt, oids.push(oid));
}

fn push_ntlm(rt: &impl Abort, alloc: Global, oids: &mut Vec<Oid>, count: u32) {
    for _ in 0..count {
        let oid = given(rt, Oid::ntlm_ssp(alloc));
        given(rt, oids.push(oid));
    }
}

/// An identifier of one byte, one of 200, and 6000 times NTLM.
fn many(rt: &impl Abort, alloc: Global) -> NegTokenInit {
    let mut oids = Vec::new(alloc);
    push(rt, alloc, &mut oids, &[0x2a]);
    push(rt, alloc, &mut oids, &[0x81; 200]);
    push_ntlm(rt, alloc, &mut oids, 6000);
    NegTokenInit {
        mech_types: Some(MechTypeList::from_vec(oids)),
        mech_token: None,
    }
}

/// The offer is read from its encoding, and has a copy.
fn offered(rt: &impl Abort, alloc: Global, offer: &NegTokenInit) {
    let text = given(rt, offer.encode(alloc));
    gives(
        rt,
        NegTokenInit::decode(alloc, &text),
        offer,
        "made otherwise",
    );
    gives(rt, offer.clone(alloc), offer, "made otherwise");
}

/// 87382 times NTLM, of 12 bytes each.
fn too_many(rt: &impl Abort, alloc: Global) -> MechTypeList {
    let mut oids = Vec::new(alloc);
    push_ntlm(rt, alloc, &mut oids, 87382);
    MechTypeList::from_vec(oids)
}

#[test]
fn many_mechanisms(rt: HostRuntime) {
    let alloc = rt.alloc();
    offered(&rt, alloc, &many(&rt, alloc));
    is_too_long(&rt, encode_mech_types(alloc, &too_many(&rt, alloc)));
}
