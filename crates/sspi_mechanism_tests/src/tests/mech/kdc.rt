//! What the laws give a caller that knows nothing else about a mechanism: its questions end, no
//! step changes a count, and what it seals has a tag.
ghost use Rattle.std.specs.Prelude.{◌≡◌, ◌≤◌, false, length, IfOk, OnOk};
ghost use Rattle.sspi_mech.specs.Calls.{no_counts, one_sealing};

use crate::tests::checks::holds;
use crate::tests::mech::asks::Asks;
use crate::tests::values::ntlm_config;
use bitflags::Flags;
use sspi_mech::{
    Answer, InitializeSecurityContext, MechConfig, Mechanism, Ntlm, NtlmConfig, Reply, Step,
};
use sspi_testing::Scripted;
use sspi_types::{Bytes, ClientRequestFlags, DataRepresentation, Error, ErrorKind, Reason};
use std::alloc::Global;
use std::process::Abort;

/// A client's step with no token, each of its questions answered by `reply`, and the number of its
/// questions.
fn first_step<M: Mechanism>(client: &mut M, reply: &Reply) -> (Result<Step, Error>, u32)
    ensures waits { OnOk result.0 (M.meaning.waits client.new ≡ false) }
    ensures counts { M.meaning.counts client.new ≡ M.meaning.counts client.old }
    ensures few { result.1 ≤ M.meaning.left client.old }
{
    let allowed = client.requests_left();
    let mut questions = 0;
    let mut answer = client.initialize(&InitializeSecurityContext {
        credentials_handle: None,
        context_requirements: ClientRequestFlags::from_bits_retain(0),
        target_data_representation: DataRepresentation::Native,
        target_name: None,
        input: b"",
    });
    'questions: while let Answer::Ask(_) = answer {
        questions += 1;
        answer = client.resume(reply);
    }
    match answer {
        Answer::Done(step) => (Ok(step), questions),
        Answer::Refused(error) => (Err(error), questions),
        Answer::Ask(_) => (
            Err(Error::new(ErrorKind::Unknown, Reason::Mechanism)),
            allowed,
        ),
    }
}

/// A client that made its first step and sealed a text.
#[derive(Drop)]
struct FirstBlob<M> {
    client: M,
    questions: u32,
    blob: Vec<u8>,
}

/// A new client after its first step, with its first blob.
fn seal_first<M: Mechanism>(
    alloc: Global,
    config: &NtlmConfig,
    reply: &Reply,
    text: &[u8],
) -> Result<FirstBlob<M>, Error>
    ensures few { IfOk result (λ first. first.questions ≤ M.REQUESTS) }
    ensures blob { IfOk result (λ first. M.meaning.seals first.client 0 text.now first.blob.items) }
    ensures long { IfOk result (λ first. 16 ≤ length first.blob.items) }
    ensures count { IfOk result (λ first. M.meaning.counts first.client ≡ one_sealing no_counts) }
{
    let mut client = M::make(alloc, &MechConfig::Ntlm(config))?;
    let (step, questions) = first_step(&mut client, reply);
    step?;
    let blob = client.seal(text)?;
    Ok(FirstBlob {
        client,
        questions,
        blob,
    })
}

/// Whether `text` was sealed after this many questions.
fn is_sealed<M>(first: &FirstBlob<M>, questions: u32) -> bool {
    first.questions == questions
        && first.blob.strip_prefix([0; 16].as_slice()) == Some(b"text".as_slice())
}

/// Whether a new client seals after this many questions, each answered by `reply`.
fn seals_after<M: Mechanism>(
    alloc: Global,
    config: &NtlmConfig,
    reply: &Reply,
    questions: u32,
) -> bool {
    match seal_first::<M>(alloc, config, reply, b"text") {
        Ok(first) => is_sealed(&first, questions),
        Err(_) => false,
    }
}

fn is_refused<M: Mechanism>(
    alloc: Global,
    config: &NtlmConfig,
    reply: &Reply,
    refusal: &Error,
) -> bool {
    match seal_first::<M>(alloc, config, reply, b"text") {
        Ok(_) => false,
        Err(error) => error == *refusal,
    }
}

/// A client that asks `TIMES` times seals after its questions.
fn seals<const TIMES: u32>(
    rt: &impl Abort,
    alloc: Global,
    config: &NtlmConfig,
    reply: &Reply,
    what: &str,
) {
    let sealed = seals_after::<Scripted<Asks, TIMES>>(alloc, config, reply, TIMES);
    holds(rt, sealed, what);
}

fn seal(rt: &impl Abort, alloc: Global, config: &NtlmConfig, reply: &Reply) {
    seals::<0>(rt, alloc, config, &Reply::Failed, "of no question");
    seals::<1>(rt, alloc, config, reply, "of one question");
    seals::<3>(rt, alloc, config, reply, "of three questions");
}

fn do_not_seal(rt: &impl Abort, alloc: Global, config: &NtlmConfig, reply: &Reply) {
    let no_kdc = Error::new(ErrorKind::NoAuthenticatingAuthority, Reason::Kdc);
    holds(
        rt,
        is_refused::<Scripted<Asks, 1>>(alloc, config, &Reply::Failed, &no_kdc),
        "without a KDC",
    );
    let no_key = Error::new(ErrorKind::OutOfSequence, Reason::Sequence);
    holds(
        rt,
        is_refused::<Ntlm>(alloc, config, reply, &no_key),
        "without a key",
    );
}

#[test]
fn a_mechanism_may_ask(rt: HostRuntime) {
    let reply = Reply::Answered(Bytes::new(rt.alloc()));
    let config = ntlm_config(&rt);
    seal(&rt, rt.alloc(), &config, &reply);
    do_not_seal(&rt, rt.alloc(), &config, &reply);
}
