//! Texts that are not scenarios, each with its first faulty line.

use crate::tests::scenario::checks::holds;
use sspi_scenario::{Purpose, Scenario, ScenarioError};
use std::alloc::Global;
use std::process::Abort;

/// Texts for an exchange, each with the number of its first faulty line.
const FAULTS: [(&str, usize); 54] = [
    ("", 0),
    ("mode ntlm\nuser a\npassword p\n", 0),
    ("mode negotiate\nuser a\npassword p\n", 0),
    ("mode x", 1),
    ("mode", 1),
    ("mode negotiates", 1),
    ("mode  ntlm", 1),
    ("mode ntlm\nmode ntlm", 2),
    ("# a comment\n\nMode ntlm", 3),
    (" mode ntlm", 1),
    ("mode ntlm\r\n", 1),
    ("kdc EXAMPLE.COM", 1),
    ("kdc EXAMPLE.COM tcp://k\nkdc EXAMPLE.COM tcp://k\nkdc", 3),
    ("kdc-answer", 1),
    ("kdc-answer Usual", 1),
    ("kdc-answer usual\nkdc-answer fail ", 2),
    ("kdc-answer code", 1),
    ("kdc-answer code 255\nkdc-answer code 256", 2),
    ("kdc-answer code 00", 1),
    ("kdc-answer codes 1", 1),
    ("kdc-user\nkdc-user\nclient-url\nclient-url", 4),
    ("ticket 00", 1),
    ("kdc-users a", 1),
    ("user a\\b@c", 1),
    ("key 010", 1),
    ("key 0g", 1),
    ("key 01 ", 1),
    ("turns 05", 1),
    ("turns +5", 1),
    ("turns", 1),
    ("turns 4294967296", 1),
    ("client-least", 1),
    ("server-least 05", 1),
    ("client-least 0\nclient-least 0", 2),
    ("nonce 00", 1),
    ("challenge 00000000000000", 1),
    ("delegation  with", 1),
    ("client-protocol Kerberos", 1),
    ("server-protocol NTLM", 1),
    ("client-protocol ntlm\nserver-protocol", 2),
    ("client-packages a\nserver-packages \nclient-packages a", 3),
    ("account DOM\\ann", 1),
    ("accounts none\n# one\naccount a p", 3),
    ("account a p\naccounts own", 2),
    ("edit 0 add", 1),
    ("edit 0 drop ", 1),
    ("edit 0 set 1 0", 1),
    ("edit 0 set 1 000", 1),
    ("edit 0 again", 1),
    ("edit 00 drop", 1),
    ("deliver client", 1),
    ("admit ann", 1),
    ("mode ntlm\nuser a\nuser b\nkey 0", 3),
    ("mode negotiate\nclient-protocol x\nmode x", 2),
];

/// The same for a play, which has deliveries, but neither a turn limit nor a link that changes
/// messages.
const FAULTS_OF_A_PLAY: [(&str, usize); 9] = [
    (
        "deliver client\ndeliver server\ndeliver client 00\ndeliver",
        4,
    ),
    ("deliver clients 00", 1),
    ("deliver Client 00", 1),
    ("deliver  00", 1),
    ("deliver server 0", 1),
    ("deliver server  00", 1),
    ("turns 5", 1),
    ("deliver server \nedit 0 drop", 2),
    ("admit ann", 1),
];

/// The same for an early result, which admits names and has no deliveries.
const FAULTS_OF_AN_EARLY: [(&str, usize); 4] = [
    ("admit ann\nadmit ann\nadmit\nadmit a\\b@c", 4),
    ("admits ann", 1),
    ("turns 5\nedit 0 drop\ndeliver client", 3),
    ("admit ann", 0),
];

/// The same for the sessions of a desk, which have a turn limit, but no link that changes messages.
const FAULTS_OF_SESSIONS: [(&str, usize); 4] = [
    ("turns 5\nproxy-fail 9\nedit 0 drop", 3),
    ("turns 5\ndeliver client", 2),
    ("admit ann", 1),
    ("turns 5\nturns 5", 2),
];

/// The same for a server over a channel, which needs a challenge; if only that is missing, no line
/// is faulty.
const FAULTS_OF_A_SERVER: [(&str, usize); 5] = [
    ("admit ann\nturns 5\nproxy-fail 9", 3),
    ("edit 0 drop", 1),
    ("challenge 0001020304050607\ndeliver client", 2),
    ("mode ntlm\nuser a\npassword b\nkey 00\nnonce 00", 5),
    ("mode ntlm\nuser a\npassword b\nkey 00", 0),
];

/// The same for a client over a channel, which needs a nonce.
const FAULTS_OF_A_CLIENT: [(&str, usize); 4] = [
    ("proxy-fail 9", 1),
    ("admit ann\nedit 0 drop", 2),
    ("deliver server", 1),
    (
        "mode ntlm\nuser a\npassword b\nkey 00\nchallenge 0001020304050607",
        0,
    ),
];

/// The line at which a text is refused; `None` if it is not refused for a line.
fn line_of<T: Drop>(read: Result<T, ScenarioError>) -> Option<usize> {
    match read {
        Err(ScenarioError::Line(line)) => Some(line),
        _ => None,
    }
}

fn is_refused(rt: &impl Abort, alloc: Global, purpose: Purpose, text: &str, line: usize) {
    let read = Scenario::parse(alloc, purpose, text.as_bytes());
    holds(rt, line_of(read) == Some(line), text);
}

#[test]
fn faults_are_found_at_their_lines(rt: HostRuntime) {
    for (text, line) in FAULTS {
        is_refused(&rt, rt.alloc(), Purpose::Exchange, text, line);
    }
    for (text, line) in FAULTS_OF_A_PLAY {
        is_refused(&rt, rt.alloc(), Purpose::Play, text, line);
    }
    for (text, line) in FAULTS_OF_AN_EARLY {
        is_refused(&rt, rt.alloc(), Purpose::Early, text, line);
    }
    for (text, line) in FAULTS_OF_SESSIONS {
        is_refused(&rt, rt.alloc(), Purpose::Sessions, text, line);
    }
    for (text, line) in FAULTS_OF_A_SERVER {
        is_refused(&rt, rt.alloc(), Purpose::Serve, text, line);
    }
    for (text, line) in FAULTS_OF_A_CLIENT {
        is_refused(&rt, rt.alloc(), Purpose::Connect, text, line);
    }
}
