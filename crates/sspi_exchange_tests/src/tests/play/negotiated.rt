//! A play of two ends that negotiate NTLM, of `ann@example.com` over a key of 270 octets, as an
//! instance of what agreement rests on. The messages, texts, MICs and hashes were computed apart.

use crate::tests::play::ends::{
    Account, Test, client, config, given, lend, made_by, server, turns_of,
};
use sha2::{Digest, Sha256};
use sspi_credssp::{ClientMode, ServerMode};
use sspi_delegate::{Transcript, Turn};
use sspi_names::KdcTable;
use sspi_negotiate::{NegotiateConfig, ProtocolConfig};
use sspi_play::Ending;
use sspi_types::{Bytes, ErrorKind, Text};
use std::process::Abort;

/// The whole exchange: the offer and its answer, each end's MIC, both proofs, and the credentials.
const EXCHANGE: &str = "
c:
s:3033a003020106a12c302a3028a0260424602206062b0601050502a0183016a00e300c060a2b06010401823702020aa20404024e31
c:3034a003020106a12d302b3029a0270425a1233021a0030a0101a10c060a2b06010401823702020aa20c040a4e320000000000000000
s:3063a003020106a15c305a3058a0560454a1523050a0030a0101a23504334e330f00616e6e406578616d706c652e636f6dee621e7aa395ba49\
caae97cce87ee8d7299aa25ac1670b043142ac5a8491e1bba312041089ef78e0b71557213596c7b6f7ad3cfe
c:302ca003020106a12530233021a01f041da11b3019a0030a0100a3120410e85d3b9e3a525bb7f09aa4d401c49752
s:305da003020106a3320430295ba2b446313ee8e31f0c897ae2dab157f88c6173ea7461fac10d490730c714bdac8550b6679d73945e037ddf2e\
8518a52204200000000000000000000000000000000000000000000000000000000000000000
c:305da003020106a3320430db11882452b62856dc133c0ef470c5ef678e72a57cf188acbb310635ac9c08622e1c71f10ed6d9461ed59a982733\
024ea52204200000000000000000000000000000000000000000000000000000000000000000
s:308190a003020106a2650463867716124342cfd5d01da6fa98840c6f3051a003020101a14a04483046a0020400a120041e61006e006e004000\
6500780061006d0070006c0065002e0063006f006d00a21e041c66006f00750072007400650065006e006c0065007400740065007200a5220420\
0000000000000000000000000000000000000000000000000000000000000000
";

/// The same up to the client's MIC, but the server is offered one mechanism more than the client
/// offered.
const LONGER_OFFER: &str = "
c:
s:303fa003020106a13830363034a0320430602e06062b0601050502a0243022a01a3018060a2b06010401823702020a060a2b06010401823702021ea20404024e31
c:3034a003020106a12d302b3029a0270425a1233021a0030a0101a10c060a2b06010401823702020aa20c040a4e320000000000000000
s:3063a003020106a15c305a3058a0560454a1523050a0030a0101a23504334e330f00616e6e406578616d706c652e636f6dee621e7aa395ba49\
caae97cce87ee8d7299aa25ac1670b043142ac5a8491e1bba312041089ef78e0b71557213596c7b6f7ad3cfe
";

const ANN: Account = ("ann@example.com", "fourteenletter");

fn key(rt: &impl Test) -> Vec<u8> {
    let mut key = Vec::new(rt.alloc());
    for index in 0..270u32 {
        given(rt, key.push((index % 251) as u8));
    }
    key
}

fn mode(rt: &impl Test) -> NegotiateConfig {
    let computer = given(rt, Text::from_text(rt.alloc(), "CLIENT"));
    let protocol = ProtocolConfig::Ntlm(config(rt));
    NegotiateConfig::new(protocol, None, computer, KdcTable::new(rt.alloc()))
}

/// The turns of these words, after which the server is in this state and has opened an identity of
/// this name.
fn negotiates(
    rt: &impl Test,
    words: &str,
    server_stands: Ending,
    name: Option<&str>,
) -> Transcript {
    let client = client(rt, key(rt), ANN, ClientMode::Negotiate(mode(rt)));
    let server = server(rt, key(rt), ANN, ServerMode::Negotiate(mode(rt)));
    let wanted = (Ending::Running, server_stands, name);
    lend(client, |client| {
        lend(server, |server| turns_of(rt, client, server, words, wanted))
    })
}

fn exchange(rt: &impl Test) -> Transcript {
    let transcript = negotiates(rt, EXCHANGE, Ending::Running, Some("ann@example.com"));
    assert!(rt; made_by(transcript.turns(), "cscscscs"), "other turns");
    transcript
}

/// The text before and after a mark.
fn halves<'a>(rt: &impl Abort, text: &'a str, mark: char) -> (&'a str, &'a str) {
    match text.split_once(mark) {
        Some(parts) => parts,
        None => rt.abort(),
    }
}

// ---- the texts

/// The text that a turn opened and the one that it sealed, or `-`, one line per turn.
const TEXTS: &str = "
- -
- -
- -
- -
- 57f88c6173ea7461fac10d490730c714bdac8550b6679d73945e037ddf2e8518
57f88c6173ea7461fac10d490730c714bdac8550b6679d73945e037ddf2e8518 678e72a57cf188acbb310635ac9c08622e1c71f10ed6d9461ed59a982733024e
678e72a57cf188acbb310635ac9c08622e1c71f10ed6d9461ed59a982733024e 3051a003020101a14a04483046a0020400a120041e61006e006\
e0040006500780061006d0070006c0065002e0063006f006d00a21e041c66006f00750072007400650065006e006c0065007400740065007200
3051a003020101a14a04483046a0020400a120041e61006e006e0040006500780061006d0070006c0065002e0063006f006d00a21e041c66006f\
00750072007400650065006e006c0065007400740065007200 -
";

fn opened(turn: &Turn) -> Option<&Bytes> {
    if turn.acts.checked {
        turn.delivered.pub_key_auth.as_ref()
    } else if turn.acts.opened {
        turn.delivered.auth_info.as_ref()
    } else {
        None
    }
}

fn sealed(turn: &Turn) -> Option<&Bytes> {
    match turn.outcome.message() {
        Some(message) if turn.acts.proved => message.pub_key_auth.as_ref(),
        Some(message) if turn.acts.sealed => message.auth_info.as_ref(),
        _ => None,
    }
}

/// Checks that this text follows the blob's tag, or that there is no blob.
fn is_behind_tag(rt: &impl Test, blob: Option<&Bytes>, text: &str) {
    match blob {
        Some(blob) => {
            let text = given(rt, hex::decode(rt.alloc(), text));
            assert!(rt;
                blob.as_slice().get(16..) == Some(text.as_slice()),
                "another text"
            );
        }
        None => assert!(rt; text == "-", "no text"),
    }
}

fn texts(rt: &impl Test, turns: &[Turn]) {
    let lines = TEXTS.trim();
    assert!(rt; turns.len() == lines.lines().count(), "other turns");
    for (turn, line) in turns.iter().zip(lines.lines()) {
        let (was_opened, was_sealed) = halves(rt, line, ' ');
        is_behind_tag(rt, opened(turn), was_opened);
        is_behind_tag(rt, sealed(turn), was_sealed);
    }
}

/// Each text that an end opens was sealed by its peer in the turn before.
#[test]
fn each_text_was_sealed_before(rt: HostRuntime) {
    let transcript = exchange(&rt);
    texts(&rt, transcript.turns());
}

// ---- the MICs

/// The last octets of each token, one line per turn: the offer and its answer without a MIC, and
/// the MIC of each end. The turns after these have no tokens.
const TOKENS: &str = r"
a00e300c060a2b06010401823702020aa20404024e31
a20c040a4e320000000000000000
a312041089ef78e0b71557213596c7b6f7ad3cfe
a3120410e85d3b9e3a525bb7f09aa4d401c49752




";

fn tokens(rt: &impl Test, turns: &[Turn]) {
    let lines = TOKENS.trim_start();
    assert!(rt; turns.len() == lines.lines().count(), "other turns");
    for (turn, line) in turns.iter().zip(lines.lines()) {
        let end = given(rt, hex::decode(rt.alloc(), line));
        assert!(rt; turn.output.as_slice().ends_with(&end), "another token");
        assert!(rt;
            turn.output.is_empty() == line.is_empty(),
            "a further token"
        );
    }
}

/// The server read the very offer that the client made.
fn one_offer(rt: &impl Abort, turns: &[Turn]) {
    match turns {
        [offer, choice, ..] => {
            assert!(rt;
                choice.delivered.nego_tokens.as_ref() == Some(&offer.output),
                "another offer"
            )
        }
        _ => rt.abort(),
    }
}

/// Each end makes one MIC, which the other verifies, over the list of one offer.
#[test]
fn one_mic_of_each_end(rt: HostRuntime) {
    let transcript = exchange(&rt);
    tokens(&rt, transcript.turns());
    one_offer(&rt, transcript.turns());
}

/// A server that read another list than the client offered verifies no MIC of the client.
#[test]
fn another_list_is_refused(rt: HostRuntime) {
    let altered = Ending::Refused(ErrorKind::MessageAltered);
    let transcript = negotiates(&rt, LONGER_OFFER, altered, None);
    assert!(rt; made_by(transcript.turns(), "cscs"), "other turns");
}

// ---- the hashes

/// An end's label, the nonce, and the hash of both and the key. The server's first two turns are
/// given no nonce.
const HASHES: &str = "
CredSSP Client-To-Server Binding Hash|0000000000000000000000000000000000000000000000000000000000000000|57f88c6173ea7\
461fac10d490730c714bdac8550b6679d73945e037ddf2e8518
CredSSP Client-To-Server Binding Hash||3888c646a8867364badead566af5d42e973a0d55b02bf2d4a03f6aa63e0fed5c
CredSSP Server-To-Client Binding Hash|0000000000000000000000000000000000000000000000000000000000000000|678e72a57cf18\
8acbb310635ac9c08622e1c71f10ed6d9461ed59a982733024e
CredSSP Server-To-Client Binding Hash||7c1000a4b380a892bf7057dbcb3ea776c2f9d03c12238cb34b0e564134553960
";

fn is_hash(rt: &impl Test, label: &str, nonce: &str, hash: &str) {
    let mut hasher = Sha256::new();
    hasher.update(label.as_bytes());
    hasher.update(&[0]);
    hasher.update(&given(rt, hex::decode(rt.alloc(), nonce)));
    hasher.update(&key(rt));
    let wanted = given(rt, hex::decode(rt.alloc(), hash));
    assert!(rt;
        hasher.finalize().as_slice() == wanted.as_slice(),
        "another hash"
    );
}

fn hashes(rt: &impl Test) {
    for line in HASHES.trim().lines() {
        let (label, rest) = halves(rt, line, '|');
        let (nonce, hash) = halves(rt, rest, '|');
        is_hash(rt, label, nonce, hash);
        assert!(rt; HASHES.matches(hash).count() == 1, "one hash of two texts");
    }
}

/// The text that this turn sealed is the hash in that line.
fn seals_hash(rt: &impl Test, turn: &Turn, line: usize) {
    let fields = HASHES.trim().lines().nth(line).unwrap_or("");
    let (_, rest) = halves(rt, fields, '|');
    let (_, hash) = halves(rt, rest, '|');
    is_behind_tag(rt, sealed(turn), hash);
}

/// The proofs of both ends are the hashes that have a nonce, each with its own label.
fn proofs_are_hashes(rt: &impl Test, turns: &[Turn]) {
    match turns {
        [_, _, _, _, client, server, ..] => {
            seals_hash(rt, client, 0);
            seals_hash(rt, server, 2);
        }
        _ => rt.abort(),
    }
}

/// No two of the texts that are hashed in the exchange have the same hash; both proofs are among
/// these hashes.
#[test]
fn no_two_texts_have_one_hash(rt: HostRuntime) {
    hashes(&rt);
    let transcript = exchange(&rt);
    proofs_are_hashes(&rt, transcript.turns());
}
