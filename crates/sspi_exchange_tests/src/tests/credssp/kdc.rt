//! A whole exchange whose client asks a KDC: once in its first turn, and once in its second.

use crate::tests::credssp::asks::Asks;
use crate::tests::credssp::ends::{Client, Server, client, server};
use crate::tests::credssp::words::{Test, given, lend, parted};
use sspi_delegate::{DelegateError, Delegation, MemoryLink, Transcript, delegate};
use sspi_mech::{Kdc, KdcError, Mechanism};
use sspi_names::NetworkRequest;
use sspi_testing::Scripted;
use std::alloc::Global;

/// What a KDC does at each call.
#[derive(Clone, Copy, PartialEq, Eq)]
enum Usual {
    Answers,
    Fails,
    HasNoMemory,
}

/// A KDC that exposes nothing about its replies.
#[derive(Drop)]
struct TestKdc {
    alloc: Global,
    usual: Usual,
    calls: u64,
    faults: u64,
}

impl Kdc for TestKdc {
    ghost use Rattle.std.specs.Prelude.{None};

    ghost told = { λ _. None };

    ghost asked = { λ kdc. kdc.calls };

    ghost faults = { λ kdc. kdc.faults };

    fn ask(&mut self, _request: &NetworkRequest) -> Result<Vec<u8>, KdcError> {
        self.calls = self.calls.saturating_add(1);
        match self.usual {
            Usual::Answers => Ok(Vec::new(self.alloc)),
            Usual::Fails => {
                self.faults = self.faults.saturating_add(1);
                Err(KdcError::Failed)
            }
            Usual::HasNoMemory => Err(KdcError::InsufficientMemory),
        }
    }
}

fn kdc(rt: &impl Test, word: &str) -> TestKdc {
    let usual = match word {
        "answers" => Usual::Answers,
        "fails" => Usual::Fails,
        "lacks-memory" => Usual::HasNoMemory,
        _ => rt.abort(),
    };
    TestKdc {
        alloc: rt.alloc(),
        usual,
        calls: 0,
        faults: 0,
    }
}

fn delegated(rt: &impl Test, delegation: &Delegation, recorded: usize) -> String {
    let name = delegation.credentials.username.inner();
    let password = delegation.credentials.password.value.as_str();
    let turns = delegation.rounds;
    given(
        rt,
        format!(in rt.alloc(); "{name}:{password}:{turns} {recorded}"),
    )
}

fn refused(rt: &impl Test, error: DelegateError, recorded: usize) -> String {
    let word = match error {
        DelegateError::Client(error) => error.error_type.name(),
        DelegateError::InsufficientMemory => "memory",
        _ => rt.abort(),
    };
    given(rt, format!(in rt.alloc(); "{word} {recorded}"))
}

fn came(rt: &impl Test, answer: Result<Delegation, DelegateError>, recorded: usize) -> String {
    match answer {
        Ok(delegation) => delegated(rt, &delegation, recorded),
        Err(error) => refused(rt, error, recorded),
    }
}

fn exchange<M: Mechanism>(
    rt: &impl Test,
    client: &mut Client<M>,
    server: &mut Server<M>,
    kdc: &mut TestKdc,
) -> String {
    let mut link = MemoryLink::new(rt.alloc(), Vec::new(rt.alloc()));
    let mut transcript = Transcript::new(rt.alloc());
    let answer = delegate(
        rt.alloc(),
        client,
        server,
        &mut link,
        kdc,
        5,
        &mut transcript,
    );
    let turns = transcript.turns().len();
    came(rt, answer, turns)
}

/// An exchange with this KDC: its result, how many turns were recorded, how often the KDC was
/// asked, and whether the client was left waiting.
fn exchanged<M: Mechanism>(rt: &impl Test, word: &str) -> String {
    lend(client::<M>(rt, ""), |client| {
        lend(
            server::<M>(rt, ""),
            |server| exchanged_by(rt, client, server, word),
        )
    })
}

fn exchanged_by<M: Mechanism>(
    rt: &impl Test,
    client: &mut Client<M>,
    server: &mut Server<M>,
    word: &str,
) -> String {
    let mut kdc = kdc(rt, word);
    let came = exchange(rt, client, server, &mut kdc);
    let calls = kdc.calls;
    let waits = client.waiting();
    given(rt, format!(in rt.alloc(); "{came} {calls} {waits}"))
}

/// What the KDC does; then the credentials with the number of the client's turns, or the refusal;
/// the recorded turns, the calls of the KDC, and whether the client waits. A failed call is
/// reported to the client, which refuses the turn for it, but would still take a reply. A KDC out
/// of memory ends the exchange, and no turn is recorded.
const EXCHANGES: &str = "answers -> DOM\\ann:pw:3 6 2 false
fails -> NoAuthenticatingAuthority 1 1 true
lacks-memory -> memory 0 1 true";

#[test]
fn an_exchange_asks_its_kdc(rt: HostRuntime) {
    for line in EXCHANGES.lines() {
        let (word, wanted) = parted(&rt, line, " -> ");
        assert!(&rt;
            exchanged::<Scripted<Asks, 2>>(&rt, word).as_str() == wanted,
            "{line}"
        );
    }
}
