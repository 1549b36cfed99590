//! Why texts are not scenarios, in words.

use crate::tests::scenario::checks::{given, holds};
use sspi_scenario::{Purpose, reason};
use std::alloc::Global;
use std::process::Abort;

/// Texts for an exchange, each with the reason: every key, and each way to be refused.
const REASONS: [(&str, &str); 44] = [
    ("", "text: missing keys: mode user password key"),
    ("mode ntlm\nkey 01\n", "text: missing keys: user password"),
    ("#mode\nuser a\npassword\nkey", "text: missing keys: mode"),
    ("passwords p", "line 1: no key of a scenario"),
    ("mode ntlm\n\npassword=pw", "line 3: no key of a scenario"),
    ("deliver client", "line 1: deliver: no key of this word"),
    ("admit a", "line 1: admit: no key of this word"),
    (
        "turns 5\n#\nturns 05",
        "line 3: turns: no number from 0 to 4294967295 without leading zeros: \"05\"",
    ),
    (
        "turns 5\nturns 6",
        "line 2: turns: an earlier line has or excludes this key",
    ),
    (
        "account a p\naccounts own",
        "line 2: accounts: an earlier line has or excludes this key",
    ),
    (
        "accounts own\naccount a p",
        "line 2: account: an earlier line has or excludes this key",
    ),
    (
        "mode kerberos",
        "line 1: mode: neither ntlm nor negotiate: \"kerberos\"",
    ),
    ("mode", "line 1: mode: neither ntlm nor negotiate: \"\""),
    ("mode \u{1b}[2J", "line 1: mode: neither ntlm nor negotiate"),
    ("mode n\u{f6}", "line 1: mode: neither ntlm nor negotiate"),
    (
        "mode 1234567890123456789012345678901234567890",
        "line 1: mode: neither ntlm nor negotiate: \"1234567890123456789012345678901234567890\"",
    ),
    (
        "mode 12345678901234567890123456789012345678901",
        "line 1: mode: neither ntlm nor negotiate",
    ),
    (
        "user a\\b@c",
        "line 1: user: a name with two \\, or with a \\ and an @",
    ),
    ("key 0", "line 1: key: no even number of hex digits"),
    (
        "server-key 0g",
        "line 1: server-key: no even number of hex digits",
    ),
    ("keytab abc", "line 1: keytab: no even number of hex digits"),
    (
        "client-version -1",
        "line 1: client-version: no number from 0 to 4294967295 without leading zeros: \"-1\"",
    ),
    (
        "server-version 6 ",
        "line 1: server-version: no number from 0 to 4294967295 without leading zeros: \"6 \"",
    ),
    ("nonce 00", "line 1: nonce: not 64 hex digits"),
    ("challenge 00", "line 1: challenge: not 16 hex digits"),
    ("ticket 00", "line 1: ticket: not 64 hex digits"),
    (
        "delegation none",
        "line 1: delegation: neither with nor less: \"none\"",
    ),
    (
        "client-protocol NTLM",
        "line 1: client-protocol: neither ntlm nor kerberos: \"NTLM\"",
    ),
    (
        "server-protocol x",
        "line 1: server-protocol: neither ntlm nor kerberos: \"x\"",
    ),
    ("kdc EXAMPLE.COM", "line 1: kdc: no realm, space and URL"),
    (
        "kdc-answer code 256",
        "line 1: kdc-answer: none of usual, fail, and code with a number up to 255: \"code 256\"",
    ),
    (
        "account ann",
        "line 1: account: no name, space and password, or a name with two \\, or with a \\ and an @",
    ),
    (
        "account a\\b@c pw",
        "line 1: account: no name, space and password, or a name with two \\, or with a \\ and an @",
    ),
    (
        "accounts all",
        "line 1: accounts: neither own nor none: \"all\"",
    ),
    (
        "proxy-fail 00",
        "line 1: proxy-fail: no number from 0 to 4294967295 without leading zeros: \"00\"",
    ),
    (
        "client-least x",
        "line 1: client-least: no number from 0 to 4294967295 without leading zeros: \"x\"",
    ),
    (
        "server-least 4294967296",
        "line 1: server-least: no number from 0 to 4294967295 without leading zeros: \"4294967296\"",
    ),
    (
        "edit 0 dropped",
        "line 1: edit: no number, space, and drop, cut, set, add, give, again or fail with its argument",
    ),
    (
        "computer a\ncomputer b",
        "line 2: computer: an earlier line has or excludes this key",
    ),
    (
        "target a\ntarget a",
        "line 2: target: an earlier line has or excludes this key",
    ),
    (
        "password a\npassword a",
        "line 2: password: an earlier line has or excludes this key",
    ),
    (
        "client-url\nclient-url",
        "line 2: client-url: an earlier line has or excludes this key",
    ),
    (
        "client-packages\nclient-packages",
        "line 2: client-packages: an earlier line has or excludes this key",
    ),
    ("mode ntlm\nuser a\npassword p\nkey 01\n", ""),
];

/// The reason given is this one.
fn is_refused_so(rt: &impl Abort, alloc: Global, purpose: Purpose, text: &[u8], why: &str) {
    let told = given(rt, reason(alloc, purpose, text));
    holds(rt, told.as_str() == why, why);
}

#[test]
fn reasons_are_told_in_words(rt: HostRuntime) {
    for (text, why) in REASONS {
        is_refused_so(&rt, rt.alloc(), Purpose::Exchange, text.as_bytes(), why);
    }
    for (purpose, text, why) in [
        (
            Purpose::Play,
            "edit 0 drop",
            "line 1: edit: no key of this word",
        ),
        (
            Purpose::Play,
            "deliver clients",
            "line 1: deliver: no client or server, space and hex",
        ),
        (
            Purpose::Early,
            "admit a\\b@c",
            "line 1: admit: a name with two \\, or with a \\ and an @",
        ),
        (
            Purpose::Sessions,
            "edit 0 drop",
            "line 1: edit: no key of this word",
        ),
    ] {
        is_refused_so(&rt, rt.alloc(), purpose, text.as_bytes(), why);
    }
}

#[test]
fn texts_that_are_not_looked_at(rt: HostRuntime) {
    let bad = b"mode x\n# \xff";
    is_refused_so(&rt, rt.alloc(), Purpose::Exchange, bad, "text: not UTF-8");
    let long = given(&rt, vec![in rt.alloc(); b'#'; 1_048_577]);
    is_refused_so(
        &rt,
        rt.alloc(),
        Purpose::Play,
        &long,
        "text: more than 1048576 bytes",
    );
}
