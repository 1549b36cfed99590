//! Cases as scripts. An empty line ends a case, `#` begins a title, and every other line does
//! something:
//!
//!     known NAME PASSWORD         the next server knows this identity
//!     kdc REALM URL               the next end knows this KDC, in its own table and in Kerberos's
//!     kdc-url URL                 the next end's Kerberos asks this KDC, whatever the realm
//!     client PROTOCOL [PACKAGES]  makes a client that begins with this mechanism and may use
//!                                 these packages, or all
//!     server PROTOCOL [PACKAGES]  makes a server; with `kerberos+ticket` its Kerberos has a
//!                                 ticket of 32 bytes `07`
//!     handle DOMAIN USER PASSWORD later steps are given these credentials, or
//!                                 `key-table NAME`, or `none`
//!     flags FLAG                  later steps ask for this flag, or `none`, or all `others`
//!     target NAME                 later steps are for this service
//!     state HAND, MIC needed      which mechanism is selected, and whether MICs are needed, or
//!                                 `no MIC`
//!     questions 2, one waits      how often a KDC may still be asked, and whether one is asked
//!
//! and the calls, with the result of each after an arrow, where OCTETS are in the words of
//! `octets`:
//!
//!     initialize OCTETS -> ContinueNeeded OCTETS    a client's step, its status and its token
//!     accept OCTETS -> Ok OCTETS                    a server's step
//!     resume OCTETS -> asks Tcp 'URL' OCTETS        the KDC answered; another question follows
//!     fail -> refuses KIND REASON                   the KDC did not answer
//!     acquire USE CREDENTIALS -> gives-handle       credentials by NAME PASSWORD,
//!                                                   `key-table NAME` or `none`
//!     names -> gives OCTETS                         the name of the context
//!     complete -> Ok                                the end of the authentication
//!     identify CREDENTIALS -> takes                 gives the server an identity, or with `none`
//!                                                   an empty list
//!     seal OCTETS -> gives OCTETS                   and `unseal`

use crate::tests::came::{
    of_buffers, of_done, of_names, of_octets, of_progress, of_status, of_step, wanted,
};
use crate::tests::checks::{Test, comes, given, halves, joined, put};
use crate::tests::negotiate::end::{End, Plain};
use crate::tests::negotiate::scene::{Scene, made};
use crate::tests::negotiate::told::Tokens;
use crate::tests::octets::octets;
use crate::tests::values::{credential_use, credentials, credentials_or_none};
use sspi_mech::{Ntlm, Reply};
use sspi_names::CredentialsBuffers;
use sspi_negotiate::Negotiate;
use sspi_testing::Scripted;
use sspi_types::{Bytes, Error};

fn state(rt: &impl Test, end: &impl End) -> String {
    let mic = if end.needs_mic() {
        ", MIC needed"
    } else {
        ", no MIC"
    };
    joined(rt, end.hand(), mic)
}

fn questions(rt: &impl Test, end: &impl End) -> String {
    let left = end.questions_left();
    let left = given(rt, format!(in rt.alloc(); "{left}"));
    joined(rt, &left, if end.waits() { ", one waits" } else { "" })
}

fn resume(rt: &impl Test, end: &mut impl End, told: Vec<u8>) -> String {
    of_progress(rt, end.resumes(&Reply::Answered(Bytes::from_vec(told))))
}

fn acquire(
    rt: &impl Test,
    end: &mut impl End,
    handle: &Option<CredentialsBuffers>,
    words: &str,
) -> String {
    let (word, words) = halves(words);
    let credentials = credentials_or_none(rt, words);
    let answer = end.acquire(credential_use(rt, word), credentials.as_ref());
    of_buffers(rt, handle, answer)
}

fn identify(rt: &impl Test, end: &mut impl End, words: &str) -> Result<(), Error> {
    match words {
        "none" => end.set_identities(Vec::new(rt.alloc())),
        _ => end.set_identity(credentials(rt, words)),
    }
}

/// The result of sealing or opening a text.
fn protect(rt: &impl Test, tokens: &str, end: &mut impl End, word: &str, words: &str) -> String {
    let text = octets(rt, tokens, words);
    let answer = match word {
        "seal" => end.seals(&text),
        _ => end.opens(&text),
    };
    of_octets(rt, answer)
}

/// The result of a call that is not a step.
fn call(
    rt: &impl Test,
    tokens: &str,
    end: &mut impl End,
    handle: &Option<CredentialsBuffers>,
    word: &str,
    words: &str,
) -> String {
    match word {
        "resume" => resume(rt, end, octets(rt, tokens, words)),
        "fail" => of_progress(rt, end.resumes(&Reply::Failed)),
        "acquire" => acquire(rt, end, handle, words),
        "names" => of_names(rt, end.names()),
        "complete" => of_status(rt, end.complete()),
        "identify" => of_done(rt, identify(rt, end, words)),
        "seal" | "unseal" => protect(rt, tokens, end, word, words),
        _ => rt.abort(),
    }
}

/// The result of any call.
fn came<E: End>(rt: &impl Test, tokens: &str, scene: &mut Scene<E>, told: &str) -> String {
    let (word, words) = halves(told);
    match word {
        "initialize" => of_progress(rt, scene.initialize(rt, &octets(rt, tokens, words))),
        "accept" => of_step(rt, scene.accept(rt, &octets(rt, tokens, words))),
        _ => {
            let end = made(rt, &mut scene.end);
            call(rt, tokens, end, &scene.handle, word, words)
        }
    }
}

fn standing(rt: &impl Test, end: &impl End, word: &str) -> String {
    if word == "state" {
        state(rt, end)
    } else {
        questions(rt, end)
    }
}

fn stands<E: End>(rt: &impl Test, scene: &Scene<E>, line: &str, word: &str, words: &str) {
    match &scene.end {
        None => rt.abort(),
        Some(end) => comes(rt, line, &standing(rt, end, word), words),
    }
}

fn calls<E: End>(rt: &impl Test, tokens: &str, scene: &mut Scene<E>, told: &str, text: &str) {
    let came = came(rt, tokens, scene, told);
    comes(rt, told, &came, &wanted(rt, tokens, text));
}

fn goes<E: End>(rt: &impl Test, tokens: &str, scene: &mut Scene<E>, line: &'static str) {
    if let Some((told, text)) = line.split_once(" -> ") {
        return calls(rt, tokens, scene, told, text);
    }
    let (word, words) = halves(line);
    match word {
        "#" => (),
        "" => put(scene, Scene::new(rt.alloc())),
        "state" => stands(rt, scene, line, word, words),
        "questions" => stands(rt, scene, line, word, words),
        _ => scene.set(rt, word, words),
    }
}

fn go_on<E: End>(rt: &impl Test, tokens: &str, scene: &mut Scene<E>, script: &'static str) {
    for line in script.lines() {
        goes(rt, tokens, scene, line);
    }
}

/// Checks each line of the script on ends of this type; a text of tokens defines the names in it.
fn run<E: End>(rt: &impl Test, tokens: &str, script: &'static str) {
    let mut scene: Scene<E> = Scene::new(rt.alloc());
    go_on(rt, tokens, &mut scene, script);
}

/// The same for ends over the two plain mechanisms.
pub fn run_plain(rt: &impl Test, tokens: &str, script: &'static str) {
    run::<Plain>(rt, tokens, script);
}

/// The same for ends over mechanisms that do what their tokens say.
pub fn run_told(rt: &impl Test, tokens: &str, script: &'static str) {
    run::<Negotiate<Scripted<Tokens, 3>, Scripted<Tokens, 2>>>(rt, tokens, script);
}

/// The same for ends over plain NTLM, with such a mechanism in place of Kerberos.
pub fn run_beside_told(rt: &impl Test, tokens: &str, script: &'static str) {
    run::<Negotiate<Ntlm, Scripted<Tokens, 3>>>(rt, tokens, script);
}
