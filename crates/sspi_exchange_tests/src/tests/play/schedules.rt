//! One line per play: the deliveries; the end of each turn that is made, or `-` for none; the
//! states of the client and the server; and whether the server opened an identity. The server's
//! key is that of the client, unless a test says otherwise.

use crate::tests::play::ends::{Test, comes_to};
use sspi_ber::WireKind;
use sspi_play::Ending;
use sspi_types::ErrorKind;

fn ending(rt: &impl Test, word: &str) -> Ending {
    match word {
        "running" => Ending::Running,
        "altered" => Ending::Refused(ErrorKind::MessageAltered),
        "token" => Ending::Refused(ErrorKind::InvalidToken),
        "sequence" => Ending::Refused(ErrorKind::OutOfSequence),
        "unsupported" => Ending::Refused(ErrorKind::UnsupportedFunction),
        "old" => Ending::Refused(ErrorKind::DowngradeDetected),
        "eof" => Ending::Unread(WireKind::UnexpectedEof),
        "data" => Ending::Unread(WireKind::InvalidData),
        _ => rt.abort(),
    }
}

fn identity(rt: &impl Test, word: &str) -> Option<&'static str> {
    match word {
        "-" => None,
        "ann" => Some("DOM\\ann"),
        _ => rt.abort(),
    }
}

/// The states of the ends, in three words.
fn standing(rt: &impl Test, words: &str) -> (Ending, Ending, Option<&'static str>) {
    let (client, rest) = halves(rt, words, " ");
    let (server, name) = halves(rt, rest, " ");
    (ending(rt, client), ending(rt, server), identity(rt, name))
}

/// The text before and after a mark.
fn halves<'a>(rt: &impl Test, text: &'a str, mark: &str) -> (&'a str, &'a str) {
    match text.split_once(mark) {
        Some(parts) => parts,
        None => rt.abort(),
    }
}

fn plays(rt: &impl Test, key: &str, lines: &str) {
    for line in lines.trim().lines() {
        let (words, rest) = halves(rt, line, " = ");
        let (turns, wanted) = halves(rt, rest, " ");
        comes_to(rt, key, words, turns, standing(rt, wanted));
    }
}

/// The exchange itself, and prefixes of it.
const EXCHANGES: &str = r"
c: s:1 c:2 s:3 c:4 s:5 = cscscs running running ann
c: s:1 c:2 s:3 c:4 = cscsc running running -
c: s:1 c:2 s:3 = cscs running running -
c: = c running running -
";

#[test]
fn exchanges(rt: HostRuntime) {
    plays(&rt, "010203", EXCHANGES);
}

/// Messages that are repeated, reflected, reordered or left out. The challenge is all zeros, so
/// what an earlier session sent is accepted again: the plain mechanism is not faithful there.
const REORDERED: &str = r"
c: s:1 s:1 = css running token -
c: s:1 c:2 s:3 c:3 = cscsc altered running -
c: s:1 c:2 s:3 s:4 = cscss running token -
c: s:1 c:2 s:3 c:4 c:4 = cscscc sequence running -
c: s:1 c:2 s:3 c:4 s:5 s:5 c:4 = cscscssc sequence unsupported ann
c: s:1 c:2 s:3 c:4 s:5 c:4 c:4 = cscscsc sequence running ann
s:1 c: c:2 s:3 c:4 s:5 = sccscs running running ann
s:1 s:3 s:5 = sss running running ann
";

#[test]
fn reordered(rt: HostRuntime) {
    plays(&rt, "010203", REORDERED);
}

/// Messages that the attacker made. What comes after a refusal, or after what is not a request, is
/// passed over.
const INVENTED: &str = r"
s:3005a003020104 c:3005a003020106 c:3005a003020104 = scc old old -
s:3005a003020104 c:30 c:3005a003020104 = scc old old -
c: s:1 c:2 s:3 c:4 s:5 s:30 s:3005a003020105 = cscscs running eof ann
c: s:1 c:2 s:3 c:4 s:5 s:3005a003020105 c:3005a003020105 = cscscssc altered altered ann
c: s:1 c:30 s:300aa003020106a403020105 = css eof token -
s:30 s:1 c: c:2 = cc running eof -
s:3007a003020106a28a s:1 = - running data -
c: s:1 c:30 c:2 = cs eof running -
";

#[test]
fn invented(rt: HostRuntime) {
    plays(&rt, "010203", INVENTED);
}

/// Messages of another session of the same user, with another nonce: the server answers its proof,
/// but this client accepts no answer to another nonce, and never seals.
const CROSSED: &str = r"
c: s:1 c:2 s:3n c:4n = cscsc altered running -
c: s:1 c:2 s:3 c:4n = cscsc altered running -
s:1 s:3n c: c:2 c:4n = ssccc altered running -
";

#[test]
fn two_sessions_crossed(rt: HostRuntime) {
    plays(&rt, "010203", CROSSED);
}

/// A relay with a key of its own to each end: the server refuses the client's proof, and the client
/// accepts no proof of the other key, which the server makes for another client. So the client
/// never seals.
const RELAYED: &str = r"
c: s:1 c:2 s:3 = cscs running altered -
c: s:1 c:2 s:3k c:4k = cscsc altered running -
";

#[test]
fn a_relay_with_two_keys(rt: HostRuntime) {
    plays(&rt, "010204", RELAYED);
}
