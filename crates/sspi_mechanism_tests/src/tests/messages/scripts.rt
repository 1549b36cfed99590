//! Scripts of message calls on every context.

use crate::tests::messages::ends::{Ends, Test, by_ntlm, negotiating};
use crate::tests::messages::lines::go;

// The tags are the first 16 bytes of SHA-256 over the label, the key, who made the message, its
// number and its text; the key is that over its label, eight zero bytes, the name and the password.
// The text is `Devolutions/sspi-rs`.

/// A missing buffer, even one that is there only with flags, is reported before the mechanism is
/// asked; so is a short blob.
const LACKING: &str = "
client seal - -> InvalidToken: no buffer was provided with that type
client seal data:41 -> InvalidToken: no buffer was provided with that type
client seal tokn:41 -> InvalidToken: no buffer was provided with that type
client seal tokn:,data!:41,data?:42 -> InvalidToken: no buffer was provided with that type
client seal tokn!:,data:41,strm: -> InvalidToken: no buffer was provided with that type
client open data:00112233445566778899aabbccddeeff -> InvalidToken: no buffer was provided with that type
client open tokn:00112233445566778899aabbccddeeff -> InvalidToken: no buffer was provided with that type
client open strm:00112233445566778899aabbccddeeff -> InvalidToken: no buffer was provided with that type
client open strm:00112233445566778899aabbccddeeff,data!:,tokn: -> InvalidToken: no buffer was provided with that type
client open strm!:00112233445566778899aabbccddeeff,data: -> InvalidToken: no buffer was provided with that type
client open strm:00112233445566778899aabbccddee,data: -> InvalidToken: sealed bytes are shorter than 16
client open tokn:0011223344556677,data:8899aabbccddee -> InvalidToken: sealed bytes are shorter than 16
client open tokn:,data:00112233445566778899aabbccddee -> InvalidToken: sealed bytes are shorter than 16
client open tokn:00112233445566778899aabbccddee,data: -> InvalidToken: sealed bytes are shorter than 16
client sign data:41 -> InvalidToken: no buffer was provided with that type
client sign tokn:41,padd: -> InvalidToken: no buffer was provided with that type
client sign tokn?:41,data: -> InvalidToken: no buffer was provided with that type
client verify data:41 -> InvalidToken: no buffer was provided with that type
client verify tokn:41,data?: -> InvalidToken: no buffer was provided with that type
";

/// If the buffers are suitable, an end without a key is out of sequence.
const KEYLESS: &str = "
client seal tokn:01,data:02 -> OutOfSequence: call out of sequence
client open tokn:0011223344556677,data:8899aabbccddeeff -> OutOfSequence: call out of sequence
client open strm:00112233445566778899aabbccddeeff,data:01 -> OutOfSequence: call out of sequence
client sign tokn:01,data:02 -> OutOfSequence: call out of sequence
client verify tokn:01,data:02 -> OutOfSequence: call out of sequence
client ask key -> OutOfSequence: call out of sequence
client ask name -> OutOfSequence: call out of sequence
server ask key -> OutOfSequence: call out of sequence
server ask name -> OutOfSequence: call out of sequence
server do complete -> OutOfSequence: call out of sequence
server do password -> OutOfSequence: call out of sequence
server do keytab -> IncompleteCredentials: provided credentials are not password-based
";

/// A message each way, as two buffers and as a stream of 35 bytes; the same message is not opened
/// twice.
const SEALED: &str = "
client seal tokn:,data:text -> tokn:d1965807c84d82fb1c7eebee8dfd6c72,data:text
server open tokn:d1965807c84d82fb1c7eebee8dfd6c72,data:text -> same
server open tokn:d1965807c84d82fb1c7eebee8dfd6c72,data:text -> MessageAltered: a tag does not match
server seal data:text,tokn:ff -> data:text,tokn:2136948bef9d7683b1473389af3b010a
client open data:,strm:2136948bef9d7683b1473389af3b010a+text -> data:text,strm:2136948bef9d7683b1473389af3b010a+text
client open data:,strm:2136948bef9d7683b1473389af3b010a+text -> MessageAltered: a tag does not match
";

/// Empty texts, as the second messages; what a token had before does not matter.
const EMPTY: &str = "
client seal tokn:00112233445566778899aabbccddeeff0011,data: -> tokn:ad80a644e098f3f0577f1531092be880,data:
server open data:,tokn:ad80a644e098f3f0577f1531092be880 -> same
server seal tokn:,data: -> tokn:27044ec1e03a33807bac5311d7a15c64,data:
client open strm:27044ec1e03a33807bac5311d7a15c64,data:00 -> strm:27044ec1e03a33807bac5311d7a15c64,data:
";

/// MICs have numbers of their own, and each is verified once.
const SIGNED: &str = "
client sign tokn:,data:text -> tokn:a4bf83b9263d8726e442495f53c0dcf7,data:text
server verify tokn:a4bf83b9263d8726e442495f53c0dcf7,data: -> MessageAltered: a tag does not match
server verify tokn:a4bf83b9263d8726e442495f53c0dcf7,data:text -> same
server verify tokn:a4bf83b9263d8726e442495f53c0dcf7,data:text -> MessageAltered: a tag does not match
server sign data:,tokn:00 -> data:,tokn:390011cfca66d770580ce9391e4ccf3d
client verify data:,tokn:390011cfca66d770580ce9391e4ccf3d -> same
";

/// In a negotiation each end has already made a MIC over the list of mechanisms.
const SIGNED_NEXT: &str = "
client sign tokn:,data:text -> tokn:39bf1559df3584a50c8634a2d96294c9,data:text
server verify tokn:39bf1559df3584a50c8634a2d96294c9,data:text -> same
server sign data:,tokn:00 -> data:,tokn:a9a91ad5aac2490309f4ab9c921eef86
client verify data:,tokn:a9a91ad5aac2490309f4ab9c921eef86 -> same
";

/// The first buffer of a type is taken; one that may only be read, or that a checksum covers, is
/// passed over.
const FIRST: &str = "
client seal tokn!:01,data?:02,data:,tokn:,data:03,tokn:04 -> tokn!:01,data?:02,data:,tokn:16d54a854f24b6fcec6f8eb4c2d7b40d,data:03,tokn:04
server open tokn!:01,data?:02,data:,tokn:16d54a854f24b6fcec6f8eb4c2d7b40d,data:03,tokn:04 -> same
client sign data!:01,data:,data:02,tokn?:03,tokn:04,tokn:05 -> data!:01,data:,data:02,tokn?:03,tokn:6d722fb4e93e826393784e4e343fcdce,tokn:05
server verify data!:01,data:,data:02,tokn?:03,tokn:6d722fb4e93e826393784e4e343fcdce,tokn:05 -> same
";

/// A stream is taken before a token, unless it has flags.
const STREAMS: &str = "
client seal tokn:,data: -> tokn:ad80a644e098f3f0577f1531092be880,data:
server open strm!:00,tokn:01,data:41,strm:ad80a644e098f3f0577f1531092be880 -> strm!:00,tokn:01,data:,strm:ad80a644e098f3f0577f1531092be880
client seal tokn:,data: -> tokn:c7ee43ddac41f0a4ea60da8cea8db73f,data:
server open strm?:00,data:,tokn:c7ee43ddac41f0a4ea60da8cea8db73f -> same
";

/// Refusals use up no number.
const AFTER: &str = "
client seal tokn:,data: -> tokn:16d54a854f24b6fcec6f8eb4c2d7b40d,data:
server open tokn:16d54a854f24b6fcec6f8eb4c2d7b40d,data:00 -> MessageAltered: a tag does not match
server open strm:16d54a854f24b6fcec6f8eb4c2d7b40c,data:00 -> MessageAltered: a tag does not match
server open strm:16d54a854f24b6fcec6f8eb4c2d7b40d,data:00 -> strm:16d54a854f24b6fcec6f8eb4c2d7b40d,data:
";

/// What both ends of plain NTLM answer once they have the key.
const TOLD: &str = "
client ask key -> a30f440ea5d4fad9989e2e7dab3de7e0cf9ed7c3e4506b346e382439f6b556a8
server ask key -> a30f440ea5d4fad9989e2e7dab3de7e0cf9ed7c3e4506b346e382439f6b556a8
client ask name -> DOM\\ann
server ask name -> DOM\\ann
server do complete -> Ok
server do keytab -> IncompleteCredentials: provided credentials are not password-based
server do password -> -
client ask sizes -> 2010,16,0,16
client ask streams -> UnsupportedFunction: the function is not supported
client ask trust -> UnsupportedFunction: the function is not supported
server ask connection -> UnsupportedFunction: the function is not supported
";

const OF_NTLM: &str = "
client ask package -> NTLM
client ask entry -> NTLM
client ask negotiated -> UnsupportedFunction: the function is not supported
";

const OF_NEGOTIATE: &str = "
client ask package -> Negotiate
client ask entry -> Negotiate
client ask negotiated -> NTLM
";

const REFUSALS: [&str; 5] = [LACKING, KEYLESS, "authenticate", LACKING, AFTER];

/// What scripts run on. A test passes it on and owns none, so no test drops it.
trait Stage: Drop {
    fn play(&mut self, rt: &impl Test, script: &str);
}

impl Stage for Ends {
    fn play(&mut self, rt: &impl Test, script: &str) {
        go(rt, self, script);
    }
}

fn run<S: Stage>(rt: &impl Test, stage: S, scripts: &[&str]) {
    let mut stage = stage;
    for script in scripts {
        stage.play(rt, script);
    }
}

#[test]
fn refusals_of_ntlm(rt: HostRuntime) {
    run(&rt, by_ntlm(&rt), &REFUSALS);
}

#[test]
fn refusals_of_a_negotiation(rt: HostRuntime) {
    run(&rt, negotiating(&rt), &REFUSALS);
}

#[test]
fn messages_of_ntlm(rt: HostRuntime) {
    let scripts = [OF_NTLM, "authenticate", TOLD, SEALED, EMPTY, SIGNED];
    run(&rt, by_ntlm(&rt), &scripts);
}

#[test]
fn messages_of_a_negotiation(rt: HostRuntime) {
    let scripts = [
        OF_NEGOTIATE,
        "authenticate",
        TOLD,
        SEALED,
        EMPTY,
        SIGNED_NEXT,
    ];
    run(&rt, negotiating(&rt), &scripts);
}

#[test]
fn which_buffers_are_taken(rt: HostRuntime) {
    run(&rt, by_ntlm(&rt), &["authenticate", FIRST, STREAMS]);
}

#[test]
fn the_calls_of_a_negotiation(rt: HostRuntime) {
    run(&rt, negotiating(&rt), &["authenticate", "negotiation"]);
}
