//! The plain KDC, and one that always fails. A line is a call, `REQUEST -> REPLY` in the words of
//! `octets`, or `REQUEST -> fails`.

use crate::tests::checks::{Test, given, holds, text};
use crate::tests::octets::octets;
use sspi_mech::{FailingKdc, Kdc, KdcError, PlainKdc, Scripted};
use sspi_names::{NetworkProtocol, NetworkRequest};
use sspi_types::{Bytes, Text};

const TOKENS: &str = r"
KA = 'KAann@example.com'
KB = 'KB' d4260e4d04178ee096ed5e5e0046a4dd7c4f3947f0ea99e78ebd779f56c51124
KT = 'KT' d4260e4d04178ee096ed5e5e0046a4dd7c4f3947f0ea99e78ebd779f56c51124
  404142434445464748494a4b4c4d4e4f505152535455565758595a5b5c5d5e5f
KS = 'KS' 39c283f8d904c44a2e4c2591cf7953ce8fd02b7d07437d4d2c317189cdba63a5
";

fn request(rt: &impl Test, words: &str) -> NetworkRequest {
    NetworkRequest {
        protocol: NetworkProtocol::Tcp,
        url: text(rt, "tcp://kdc"),
        payload: Bytes::from_vec(octets(rt, TOKENS, words)),
    }
}

fn replies(rt: &impl Test, reply: Result<Vec<u8>, KdcError>, words: &str) -> bool {
    match reply {
        Ok(reply) => reply.as_slice() == octets(rt, TOKENS, words).as_slice(),
        Err(error) => error == KdcError::Failed && words == "fails",
    }
}

fn calls(rt: &impl Test, kdc: &mut impl Kdc, lines: &str) {
    for line in lines.trim().lines() {
        match line.split_once(" -> ") {
            Some((asked, words)) => {
                let request = request(rt, asked);
                holds(rt, replies(rt, kdc.ask(&request), words), line);
            }
            None => rt.abort(),
        }
    }
}

fn users(rt: &impl Test) -> Vec<Text> {
    let mut users = Vec::new(rt.alloc());
    given(rt, users.push(text(rt, "bob")));
    given(rt, users.push(text(rt, "ann@example.com")));
    users
}

fn of_script(rt: &impl Test, script: &[Scripted], lines: &str) {
    let script = given(rt, Vec::from_slice(rt.alloc(), script));
    let mut kdc = PlainKdc::new(rt.alloc(), users(rt), script);
    calls(rt, &mut kdc, lines);
}

/// The two replies; then unknown names, compared byte by byte, and malformed requests.
const USUAL: &str = r"
KA -> KB
KT -> KS
'KAANN@example.com' -> 'KE' 04
'KAann@example.com.' -> 'KE' 04
'KA' -> 'KE' 04
'KT' -> 'KE' 05
'KT' 78*63 -> 'KE' 05
'KT' 78*65 -> 'KE' 05
'KB' 78*64 -> 'KE' 05
'K' -> 'KE' 05
 -> 'KE' 05
";

#[test]
fn usual_calls(rt: HostRuntime) {
    of_script(&rt, &[], USUAL);
}

const SCRIPT: [Scripted; 5] = [
    Scripted::Code(1),
    Scripted::Fail,
    Scripted::Usual,
    Scripted::Code(255),
    Scripted::Fail,
];

/// Each call has its place in the script, even one that fails; calls past its end are usual.
const SCRIPTED: &str = r"
KA -> 'KE' 01
KA -> fails
KA -> KB
KA -> 'KE' ff
KA -> fails
KT -> KS
";

#[test]
fn a_script(rt: HostRuntime) {
    of_script(&rt, &SCRIPT, SCRIPTED);
}

const FAILING: &str = r"
KA -> fails
KT -> fails
";

#[test]
fn a_kdc_that_fails(rt: HostRuntime) {
    calls(&rt, &mut FailingKdc::new(), FAILING);
}
