//! Both ends over two pipes in memory, taking turns: if the client reads and nothing is there, its
//! server makes a turn.

use crate::tests::recorded::PLAIN;
use crate::tests::stage::{
    Came, between, client_of, connects, delegates, given, sends_all, server_of, serves,
};
use sspi_ber::{Sink, SinkError, SliceSource, Source, SourceError, VecSink};
use sspi_credssp::{CredSspClient, CredSspServer, CredentialsProxy};
use sspi_delegate::Delegation;
use sspi_mech::Mechanism;
use std::alloc::Global;
use std::cell::Cell;
use std::rc::Rc;

/// What was written and not yet taken.
#[derive(Drop)]
struct Pipe {
    alloc: Global,
    content: Rc<Cell<Vec<u8>>>,
}

impl Pipe {
    fn take(&self) -> Vec<u8> {
        self.content.replace(Vec::new(self.alloc))
    }
}

impl Sink for Pipe {
    ghost use Rattle.std.specs.Prelude.{None};

    ghost written = { λ _. None };

    ghost faults = { λ _. 0 };

    fn write(&mut self, piece: &[u8]) -> Result<usize, SinkError> {
        let mut content = self.take();
        let wrote = content.extend_from_slice(piece);
        self.content.set(content);
        match wrote {
            Ok(()) => Ok(piece.len()),
            Err(_) => Err(SinkError::InsufficientMemory),
        }
    }
}

/// What its server wrote; if all of that was read, the server makes a turn first.
#[derive(Drop)]
struct AtHand<N: Mechanism, K: Mechanism, C: CredentialsProxy> {
    pipe: Pipe,
    server: CredSspServer<N, K, C>,
    answers: Vec<u8>,
    taken: usize,
}

impl<N: Mechanism, K: Mechanism, C: CredentialsProxy> AtHand<N, K, C> {
    /// One turn of the server on what the client wrote.
    fn turn(&mut self) {
        let sent = self.pipe.take();
        let mut sink = VecSink::new(self.pipe.alloc);
        let mut source = SliceSource::new(&sent);
        let _came = serves(self.pipe.alloc, &mut self.server, &mut source, &mut sink, 1);
        self.answers = sink.into_inner();
        self.taken = 0;
    }
}

impl<N: Mechanism, K: Mechanism, C: CredentialsProxy> Source for AtHand<N, K, C> {
    ghost use Rattle.std.specs.Prelude.{None};

    ghost left = { λ _. None };

    ghost faults = { λ _. 0 };

    fn read(&mut self, into: &mut [u8]) -> Result<usize, SourceError> {
        if self.taken >= self.answers.len() {
            self.turn();
        }
        let rest = self.answers.get(self.taken..).unwrap_or(&[]);
        let count = rest.len().min(into.len());
        let (front, _) = rest.split_at(count);
        into[..count].copy_from_slice(front);
        self.taken = self.taken.saturating_add(count);
        Ok(count)
    }
}

/// The result of the client, and that of its server with the client's last message.
#[derive(Drop)]
struct Both {
    client: Came<u32>,
    server: Came<Delegation>,
}

/// The client over the two pipes, and then its server on what is left in them.
fn by_turns<N: Mechanism, K: Mechanism, C: CredentialsProxy>(
    alloc: Global,
    client: &mut CredSspClient<N, K>,
    hand: &mut AtHand<N, K, C>,
    sink: &mut Pipe,
) -> Both {
    let client = connects(alloc, client, hand, sink, 9);
    let last = sink.take();
    let mut source = SliceSource::new(&last);
    let mut answers = VecSink::new(alloc);
    let server = serves(alloc, &mut hand.server, &mut source, &mut answers, 9);
    Both { client, server }
}

#[test]
fn both_ends_by_turns(rt: HostRuntime) {
    let alloc = rt.alloc();
    let content = given(&rt, Rc::new(alloc, Cell::new(Vec::new(alloc))));
    let mut sink = Pipe {
        alloc,
        content: given(&rt, content.clone()),
    };
    let hand = AtHand {
        pipe: Pipe { alloc, content },
        server: given(&rt, server_of(alloc, &PLAIN)),
        answers: Vec::new(alloc),
        taken: 0,
    };
    let client = given(&rt, client_of(alloc, &PLAIN));
    let both = between(client, hand, |client, hand| {
        by_turns(alloc, client, hand, &mut sink)
    });
    sends_all(&rt, &both.client);
    delegates(&rt, &both.server, 1);
}
