//! The ends for the other tests: DOM\ann with the password pw, and a challenge of zeros.

use bitflags::Flags;
use sspi_credssp::SspiContext;
use sspi_mech::{
    AcceptSecurityContext, InitializeSecurityContext, MechConfig, Mechanism, Ntlm, NtlmConfig,
    Progressing,
};
use sspi_names::{
    AuthIdentity, AuthIdentityBuffers, Credentials, CredentialsBuffers, KdcTable, Username,
    Utf16Text,
};
use sspi_negotiate::{Negotiate, NegotiateConfig, ProtocolConfig};
use sspi_types::{ClientRequestFlags, DataRepresentation, Secret, ServerRequestFlags, Text};
use std::alloc::Global;
use std::process::Abort;

/// What a test runs on.
pub trait Test: Abort + Alloc<A = Global> {}

impl<R: Abort + Alloc<A = Global>> Test for R {}

/// Ends the test unless this holds.
pub fn holds(rt: &impl Abort, fact: bool, what: &str) {
    assert!(rt; fact, "{what}");
}

/// The value of a call that must not be refused.
pub fn given<T, E: Drop>(rt: &impl Abort, answer: Result<T, E>) -> T {
    match answer {
        Ok(value) => value,
        Err(_) => rt.abort(),
    }
}

pub type Context = SspiContext<Ntlm, Ntlm>;

/// The two ends of an authentication.
#[derive(Drop)]
pub struct Ends {
    pub client: Context,
    pub server: Context,
}

/// Ends that have only plain NTLM.
pub fn by_ntlm(rt: &impl Test) -> Ends {
    Ends {
        client: SspiContext::Ntlm(ntlm(rt)),
        server: SspiContext::Ntlm(ntlm(rt)),
    }
}

/// Ends that negotiate, and agree on plain NTLM.
pub fn negotiating(rt: &impl Test) -> Ends {
    Ends {
        client: SspiContext::Negotiate(given(rt, Negotiate::new_client(rt.alloc(), &config(rt)))),
        server: SspiContext::Negotiate(server(rt)),
    }
}

fn server(rt: &impl Test) -> Negotiate<Ntlm, Ntlm> {
    let mut known = Vec::new(rt.alloc());
    given(rt, known.push(identity(rt)));
    given(rt, Negotiate::new_server(rt.alloc(), &config(rt), known))
}

fn text(rt: &impl Test, text: &str) -> Text {
    given(rt, Text::from_text(rt.alloc(), text))
}

fn ntlm(rt: &impl Test) -> Ntlm {
    let config = NtlmConfig::new(text(rt, "CLIENT"));
    given(rt, Ntlm::make(rt.alloc(), &MechConfig::Ntlm(&config)))
}

fn config(rt: &impl Test) -> NegotiateConfig {
    let protocol = ProtocolConfig::Ntlm(NtlmConfig::new(text(rt, "CLIENT")));
    let packages = Some(text(rt, "ntlm"));
    NegotiateConfig::new(
        protocol,
        packages,
        text(rt, "CLIENT"),
        KdcTable::new(rt.alloc()),
    )
}

/// The identity of both ends.
pub fn identity(rt: &impl Test) -> AuthIdentity {
    AuthIdentity {
        username: given(rt, Username::parse(rt.alloc(), "DOM\\ann")),
        password: Secret::from(text(rt, "pw")),
    }
}

fn utf16(rt: &impl Test, text: &str) -> Utf16Text {
    given(rt, Utf16Text::from_str(rt.alloc(), text))
}

fn handle(rt: &impl Test) -> CredentialsBuffers {
    CredentialsBuffers::AuthIdentity(AuthIdentityBuffers {
        user: utf16(rt, "ann"),
        domain: utf16(rt, "DOM"),
        password: Secret::from(utf16(rt, "pw")),
    })
}

/// The client's token in answer to the server's.
fn initializes(rt: &impl Test, client: &mut Context, input: Vec<u8>) -> Vec<u8> {
    let handle = handle(rt);
    match client.initialize_security_context(&InitializeSecurityContext {
        credentials_handle: Some(&handle),
        context_requirements: ClientRequestFlags::from_bits_retain(0),
        target_data_representation: DataRepresentation::Native,
        target_name: None,
        input: &input,
    }) {
        Ok(Progressing::Done(step)) => step.output.into_inner(),
        Ok(Progressing::Suspended(_)) | Err(_) => rt.abort(),
    }
}

/// The server's token in answer to the client's.
fn accepts(rt: &impl Test, server: &mut Context, input: Vec<u8>) -> Vec<u8> {
    let step = given(
        rt,
        server.accept_security_context(&AcceptSecurityContext {
            credentials_handle: None,
            context_requirements: ServerRequestFlags::from_bits_retain(0),
            target_data_representation: DataRepresentation::Native,
            input: &input,
        }),
    );
    step.output.into_inner()
}

/// The server's answer to the client's next token.
fn goes_round(rt: &impl Test, ends: &mut Ends, input: Vec<u8>) -> Vec<u8> {
    let token = initializes(rt, &mut ends.client, input);
    accepts(rt, &mut ends.server, token)
}

/// Both ends authenticate, and the server is told who its peer may be: then both have the key.
pub fn authenticate(rt: &impl Test, ends: &mut Ends) {
    let challenge = goes_round(rt, ends, Vec::new(rt.alloc()));
    let last = goes_round(rt, ends, challenge);
    if !last.is_empty() {
        let _ = initializes(rt, &mut ends.client, last);
    }
    let identity = Credentials::AuthIdentity(identity(rt));
    given(rt, ends.server.custom_set_auth_identity(identity));
}
