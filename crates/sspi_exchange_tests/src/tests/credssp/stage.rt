//! Scripts: texts whose lines make two ends, deliver messages to them and state what must come
//! back.
//!
//! - `ends WORDS` makes both ends anew (`ends.rt` has the words).
//! - `client MESSAGE -> CAME CHECKS` and `server MESSAGE -> CAME CHECKS` deliver a message: `new`,
//!   which is version 6 and nothing else; `relayed`, the one that the last call gave; or one that
//!   `named.rt` has. Words of the form `FIELD=VALUE` change its fields first: `version`, `token`,
//!   `auth` (the sealed credentials), `proof` (that of the key), `code` and `nonce`.
//! - `kdc answers -> ..` and `kdc fails -> ..` give a suspended client its KDC's reply, which is
//!   empty.
//! - `see -> CHECKS` calls nothing.
//!
//! `CAME` is one word of `said.rt`. Each check is a word too: `did=ACTS`, the effects of the last
//! call; `gave=TOKEN`, the token of its step, which can be taken once; `waits=yes` or `no` and
//! `left=N`, the client's state; or else a field of the message that came, by its name in
//! `message.rt`: `auth-text` and `proof-text` are what follows the tag of a sealed blob.

use crate::tests::credssp::ends::{Client, Server, client, knows_words, server};
use crate::tests::credssp::message::{compose, has};
use crate::tests::credssp::said::{by_client, by_server};
use crate::tests::credssp::words::{Test, acts, lend, number, octets, parted, put};
use sspi_credssp::Acts;
use sspi_mech::{Mechanism, Reply};
use sspi_tsreq::TsRequest;
use sspi_types::Bytes;
use std::mem::take;

/// The two ends, the current message, and the outcome of the last call.
#[derive(Drop)]
struct Stage<M> {
    client: Client<M>,
    server: Server<M>,
    message: TsRequest,
    came: String,
    of_server: bool,
}

impl<M: Mechanism> Stage<M> {
    fn new(rt: &impl Test) -> Stage<M> {
        Stage {
            client: client(rt, ""),
            server: server(rt, ""),
            message: TsRequest::default(),
            came: String::new(rt.alloc()),
            of_server: false,
        }
    }

    fn make_ends(&mut self, rt: &impl Test, words: &str) {
        knows_words(rt, words);
        put(&mut self.client, client(rt, words));
        put(&mut self.server, server(rt, words));
    }

    fn client_turn(&mut self, rt: &impl Test) {
        let said = by_client(rt, self.client.process(take(&mut self.message)));
        self.note(said, false);
    }

    fn resumed(&mut self, rt: &impl Test, reply: &Reply) {
        let said = by_client(rt, self.client.resume(reply));
        self.note(said, false);
    }

    fn server_turn(&mut self, rt: &impl Test) {
        let said = by_server(rt, self.server.process(take(&mut self.message)));
        self.note(said, true);
    }

    fn note(&mut self, said: (String, TsRequest), of_server: bool) {
        let (came, message) = said;
        self.came = came;
        self.message = message;
        self.of_server = of_server;
    }

    fn kdc(&mut self, rt: &impl Test, word: &str) {
        match word {
            "answers" => self.resumed(rt, &Reply::Answered(Bytes::new(rt.alloc()))),
            "fails" => self.resumed(rt, &Reply::Failed),
            _ => rt.abort(),
        }
    }

    fn step(&mut self, rt: &impl Test, who: &str, words: &str) {
        match who {
            "client" => {
                compose(rt, &mut self.message, words);
                self.client_turn(rt);
            }
            "server" => {
                compose(rt, &mut self.message, words);
                self.server_turn(rt);
            }
            "kdc" => self.kdc(rt, words),
            _ => rt.abort(),
        }
    }

    fn acts(&self) -> Acts {
        if self.of_server {
            self.server.last_acts()
        } else {
            self.client.last_acts()
        }
    }

    fn output(&mut self) -> Bytes {
        if self.of_server {
            self.server.take_output()
        } else {
            self.client.take_output()
        }
    }

    /// Whether the last call gave this token, which can be taken once.
    fn gave(&mut self, rt: &impl Test, word: &str) -> bool {
        let token = match word {
            "none" => Vec::new(rt.alloc()),
            _ => octets(rt, word),
        };
        self.output().as_slice() == token.as_slice() && self.output().is_empty()
    }

    fn is_so(&mut self, rt: &impl Test, word: &str) -> bool {
        match word.split_once('=') {
            None => self.came.as_str() == word,
            Some(("did", value)) => self.acts() == acts(rt, value),
            Some(("gave", value)) => self.gave(rt, value),
            Some(("waits", value)) => self.client.waiting() == (value == "yes"),
            Some(("left", value)) => self.client.requests_left() == number(rt, value) as u64,
            Some((name, value)) => has(rt, &self.message, name, value),
        }
    }

    fn line(&mut self, rt: &impl Test, line: &str) {
        match line.split_once(" -> ") {
            None => self.make_ends(rt, parted(rt, line, "ends").1),
            Some((step, checks)) => {
                if step != "see" {
                    let (who, words) = parted(rt, step, " ");
                    self.step(rt, who, words);
                }
                for word in checks.split_whitespace() {
                    assert!(rt; self.is_so(rt, word), "{word} in {line}");
                }
            }
        }
    }
}

fn play<M: Mechanism>(rt: &impl Test, stage: &mut Stage<M>, script: &str) {
    for line in script.lines() {
        if !line.is_empty() {
            stage.line(rt, line);
        }
    }
}

/// Plays a script between ends of one mechanism.
pub fn plays<M: Mechanism>(rt: &impl Test, script: &str) {
    lend(Stage::<M>::new(rt), |stage| play(rt, stage, script));
}
