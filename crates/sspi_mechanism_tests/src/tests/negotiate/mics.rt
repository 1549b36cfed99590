//! MICs by the selected mechanism: before it has a key, and over the list of NTLM alone once a
//! client has sent its name.

use crate::tests::came::{of_done, of_octets, wanted};
use crate::tests::checks::{Test, given, holds};
use crate::tests::octets::octets;
use crate::tests::values::{client_args, ntlm_config, password_buffers};
use bitflags::Flags;
use sspi_mech::{MechConfig, Mechanism, Ntlm};
use sspi_names::CredentialsBuffers;
use sspi_negotiate::NegotiatedProtocol;
use sspi_types::ClientRequestFlags;

type Protocol = NegotiatedProtocol<Ntlm, Ntlm>;

const TOKENS: &str = r"
LIST = 300c 060a 2b06010401823702020a
CLIENT-MIC = 9579e8b49db2332ae5f5d92fc9491e35
SERVER-MIC = 7388f4f863f9ef7566d4e6ab5f8de814
";

fn made(rt: &impl Test) -> Ntlm {
    let config = ntlm_config(rt);
    given(rt, Ntlm::make(rt.alloc(), &MechConfig::Ntlm(&config)))
}

/// A step of a client, whatever its result.
fn step(rt: &impl Test, ntlm: &mut Ntlm, ann: &CredentialsBuffers, input: &str) {
    let input = octets(rt, TOKENS, input);
    let flags = ClientRequestFlags::from_bits_retain(0);
    let _ = ntlm.initialize(&client_args(Some(ann), flags, None, &input));
}

/// The NTLM of a client that sent its name.
fn keyed(rt: &impl Test) -> Protocol {
    let ann = password_buffers(rt, "DOM ann pw");
    let mut ntlm = made(rt);
    step(rt, &mut ntlm, &ann, "");
    step(rt, &mut ntlm, &ann, "'N2' 00*8");
    NegotiatedProtocol::Ntlm(ntlm)
}

fn is(rt: &impl Test, came: String, text: &str) {
    let wanted = wanted(rt, TOKENS, text);
    holds(rt, came == wanted, text);
}

fn signs(rt: &impl Test, protocol: &mut Protocol, list: &str, text: &str) {
    let list = octets(rt, TOKENS, list);
    is(rt, of_octets(rt, protocol.generate_mic_token(&list)), text);
}

fn verifies(rt: &impl Test, protocol: &mut Protocol, mic: &str, list: &str, text: &str) {
    let (mic, list) = (octets(rt, TOKENS, mic), octets(rt, TOKENS, list));
    is(
        rt,
        of_done(rt, protocol.verify_mic_token(&mic, &list)),
        text,
    );
}

fn lacks_key(rt: &impl Test, protocol: &mut Protocol) {
    let refusal = "refuses OutOfSequence Sequence";
    signs(rt, protocol, "LIST", refusal);
    verifies(rt, protocol, "", "LIST", refusal);
}

#[test]
fn before_a_key(rt: HostRuntime) {
    lacks_key(&rt, &mut NegotiatedProtocol::Ntlm(made(&rt)));
}

/// A MIC is verified as the next one, and only once.
fn has_key(rt: &impl Test, protocol: &mut Protocol) {
    let refusal = "refuses MessageAltered Tag";
    signs(rt, protocol, "LIST", "gives CLIENT-MIC");
    verifies(rt, protocol, "SERVER-MIC", "", refusal);
    verifies(rt, protocol, "CLIENT-MIC", "LIST", refusal);
    verifies(rt, protocol, "SERVER-MIC", "LIST", "takes");
    verifies(rt, protocol, "SERVER-MIC", "LIST", refusal);
}

#[test]
fn with_a_key(rt: HostRuntime) {
    has_key(&rt, &mut keyed(&rt));
}
