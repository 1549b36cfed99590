//! The calls of a negotiation itself, without the context around it.

use crate::tests::messages::ends::{Ends, Test, holds};
use crate::tests::messages::lines::{message, shows};
use crate::tests::messages::queries::{entered, keyed, named, refused, sized};
use bitflags::Flags;
use sspi_credssp::SspiContext;
use sspi_mech::Ntlm;
use sspi_negotiate::Negotiate;
use sspi_types::{DecryptionFlags, EncryptionFlags, SecurityStatus};

type Negotiation = Negotiate<Ntlm, Ntlm>;

const TEXT: &str = "tokn:,data:text";

const SEALED: &str = "tokn:d1965807c84d82fb1c7eebee8dfd6c72,data:text";

const SIGNED: &str = "tokn:39bf1559df3584a50c8634a2d96294c9,data:text";

const KEY: &str = "a30f440ea5d4fad9989e2e7dab3de7e0cf9ed7c3e4506b346e382439f6b556a8";

const UNSUPPORTED: &str = "UnsupportedFunction: the function is not supported";

fn seals(rt: &impl Test, client: &mut Negotiation) {
    let mut sealed = message(rt, TEXT);
    let answer = client.encrypt_message(EncryptionFlags::WRAP_OOB_DATA, &mut sealed);
    holds(rt, answer == Ok(SecurityStatus::Ok), "it is not sealed");
    holds(rt, sealed == message(rt, SEALED), "another message");
}

fn opens(rt: &impl Test, server: &mut Negotiation) {
    let mut opened = message(rt, SEALED);
    let answer = server.decrypt_message(&mut opened);
    let flags = Ok(DecryptionFlags::from_bits_retain(0));
    holds(rt, answer == flags, "it is not opened");
    holds(rt, opened == message(rt, SEALED), "another text");
}

fn opens_no_more(rt: &impl Test, server: &mut Negotiation) {
    let mut opened = message(rt, SEALED);
    match server.decrypt_message(&mut opened) {
        Ok(_) => holds(rt, false, "it is opened twice"),
        Err(error) => holds(
            rt,
            shows(&error, "MessageAltered: a tag does not match"),
            "another refusal",
        ),
    }
}

fn signs(rt: &impl Test, client: &mut Negotiation) {
    let mut signed = message(rt, TEXT);
    let answer = client.make_signature(0, &mut signed, 0);
    holds(rt, answer.is_ok(), "it is not signed");
    holds(rt, signed == message(rt, SIGNED), "another MIC");
}

fn verifies(rt: &impl Test, server: &mut Negotiation) {
    let mut signed = message(rt, SIGNED);
    holds(
        rt,
        server.verify_signature(&mut signed, 5) == Ok(0),
        "it is not verified",
    );
}

fn tells(rt: &impl Test, end: &Negotiation) {
    named(rt, end.query_context_names(), "DOM\\ann");
    keyed(rt, end.query_context_session_key(), KEY);
    sized(rt, end.query_context_sizes(), "2010,16,0,16");
    entered(rt, end.query_context_package_info(), "Negotiate");
    entered(rt, end.query_context_negotiation_package(), "NTLM");
    refused(rt, end.query_context_stream_sizes().err(), UNSUPPORTED);
    refused(rt, end.query_context_cert_trust_status().err(), UNSUPPORTED);
    refused(rt, end.query_context_connection_info().err(), UNSUPPORTED);
}

fn protects(rt: &impl Test, client: &mut Negotiation, server: &mut Negotiation) {
    seals(rt, client);
    opens(rt, server);
    opens_no_more(rt, server);
    signs(rt, client);
    verifies(rt, server);
    tells(rt, client);
    tells(rt, server);
}

/// The negotiations that both ends have selected, once they have authenticated.
pub fn negotiated(rt: &impl Test, ends: &mut Ends) {
    let SspiContext::Negotiate(client) = &mut ends.client else {
        return holds(rt, false, "another client");
    };
    let SspiContext::Negotiate(server) = &mut ends.server else {
        return holds(rt, false, "another server");
    };
    protects(rt, client, server);
}
