//! Cases as scripts. An empty line ends a case, `#` begins a title, and every other line does
//! something:
//!
//!     kdc REALM URL               the next object knows this KDC
//!     kdc-url URL                 the next object asks this KDC, whatever the realm
//!     make CONFIGURATION          makes an object of `ntlm`, `kerberos`, or `kerberos+ticket`,
//!                                 whose ticket is the bytes `40` to `5f`
//!     handle DOMAIN USER PASSWORD later steps are given these credentials, or
//!                                 `key-table NAME`, or `none`
//!     flags FLAG                  later steps ask for this flag, or `none`
//!     state 2 left                how often a KDC may still be asked, with `, waits` and
//!                                 `, user to user` if that applies
//!     package NAME MOST           its entry: the name, and the most bytes of a token
//!     sizes 2010 16 0 16          the most bytes of a token and of a signature, a block, and the
//!                                 trailer of a blob
//!
//! and the calls, with the result of each after an arrow, where OCTETS are in the words of
//! `octets`:
//!
//!     initialize OCTETS -> ContinueNeeded OCTETS    a client's step, its status and its token
//!     accept OCTETS -> Ok OCTETS                    a server's step
//!     resume OCTETS -> asks Tcp 'URL' OCTETS        the KDC answered; another question follows
//!     fail -> refuses KIND REASON                   the KDC did not answer
//!     acquire USE CREDENTIALS -> gives-handle       credentials by NAME PASSWORD,
//!                                                   `key-table NAME` or `none`
//!     names -> gives OCTETS                         the name of the context
//!     key -> gives OCTETS                           its session key
//!     complete -> Ok                                the end of the authentication
//!     identify CREDENTIALS; CREDENTIALS -> takes    tells the server who its peer may be, or with
//!                                                   `none` nobody
//!     seal OCTETS -> gives OCTETS                   and `unseal`, and `sign`
//!     verify OCTETS : OCTETS -> takes               a MIC and its text

use crate::tests::came::{
    of_buffers, of_done, of_key, of_name, of_octets, of_package, of_progress, of_sizes, of_status,
    of_step, wanted,
};
use crate::tests::checks::{Test, comes, given, halves, put};
use crate::tests::mech::object::Object;
use crate::tests::mech::scene::Scene;
use crate::tests::octets::octets;
use crate::tests::values::{credential_use, credentials, credentials_or_none};
use sspi_mech::{Kerberos, Ntlm, Reply};
use sspi_names::CredentialsBuffers;
use sspi_types::Bytes;

fn state(rt: &impl Test, object: &impl Object) -> String {
    let left = object.questions_left();
    let waits = if object.waits() { ", waits" } else { "" };
    let user = if object.is_user_to_user() {
        ", user to user"
    } else {
        ""
    };
    given(rt, format!(in rt.alloc(); "{left} left{waits}{user}"))
}

fn resume(rt: &impl Test, object: &mut impl Object, told: Vec<u8>) -> String {
    of_progress(rt, object.resumes(&Reply::Answered(Bytes::from_vec(told))))
}

fn acquire(
    rt: &impl Test,
    object: &mut impl Object,
    handle: &Option<CredentialsBuffers>,
    words: &str,
) -> String {
    let (word, words) = halves(words);
    let credentials = credentials_or_none(rt, words);
    let answer = object.acquires(credential_use(rt, word), credentials.as_ref());
    of_buffers(rt, handle, answer)
}

fn identify(rt: &impl Test, object: &mut impl Object, words: &str) -> String {
    let mut identities = Vec::new(rt.alloc());
    if words != "none" {
        for words in words.split("; ") {
            given(rt, identities.push(credentials(rt, words)));
        }
    }
    of_done(rt, object.takes(&identities))
}

fn verify(rt: &impl Test, tokens: &str, object: &mut impl Object, words: &str) -> String {
    match words.split_once(':') {
        None => rt.abort(),
        Some((mic, text)) => {
            let (mic, text) = (octets(rt, tokens, mic), octets(rt, tokens, text));
            of_done(rt, object.verifies(&mic, &text))
        }
    }
}

/// The result of sealing, opening or signing a text.
fn protect(
    rt: &impl Test,
    tokens: &str,
    object: &mut impl Object,
    word: &str,
    words: &str,
) -> String {
    let text = octets(rt, tokens, words);
    let answer = match word {
        "seal" => object.seals(&text),
        "unseal" => object.opens(&text),
        _ => object.signs(&text),
    };
    of_octets(rt, answer)
}

/// The result of a call that is not a step.
fn call(
    rt: &impl Test,
    tokens: &str,
    object: &mut impl Object,
    handle: &Option<CredentialsBuffers>,
    word: &str,
    words: &str,
) -> String {
    match word {
        "resume" => resume(rt, object, octets(rt, tokens, words)),
        "fail" => of_progress(rt, object.resumes(&Reply::Failed)),
        "acquire" => acquire(rt, object, handle, words),
        "names" => of_name(rt, object.name()),
        "key" => of_key(rt, object.key()),
        "complete" => of_status(rt, object.completes()),
        "identify" => identify(rt, object, words),
        "seal" | "unseal" | "sign" => protect(rt, tokens, object, word, words),
        "verify" => verify(rt, tokens, object, words),
        _ => rt.abort(),
    }
}

/// The result of any call.
fn came<M: Object>(rt: &impl Test, tokens: &str, scene: &mut Scene<M>, told: &str) -> String {
    let (word, words) = halves(told);
    match word {
        "initialize" => of_progress(rt, scene.initialize(rt, &octets(rt, tokens, words))),
        "accept" => of_step(rt, scene.accept(rt, &octets(rt, tokens, words))),
        _ => match &mut scene.object {
            None => rt.abort(),
            Some(object) => call(rt, tokens, object, &scene.handle, word, words),
        },
    }
}

fn stands(rt: &impl Test, object: &impl Object, line: &str, word: &str, words: &str) {
    let came = match word {
        "state" => state(rt, object),
        "package" => of_package(rt, object.package()),
        _ => of_sizes(rt, object.context_sizes()),
    };
    comes(rt, line, &came, words);
}

fn calls<M: Object>(rt: &impl Test, tokens: &str, scene: &mut Scene<M>, told: &str, text: &str) {
    let came = came(rt, tokens, scene, told);
    comes(rt, told, &came, &wanted(rt, tokens, text));
}

fn is_of_state(word: &str) -> bool {
    word == "state" || word == "package" || word == "sizes"
}

fn says<M: Object>(rt: &impl Test, scene: &mut Scene<M>, line: &'static str) {
    let (word, words) = halves(line);
    if is_of_state(word) {
        match &scene.object {
            None => rt.abort(),
            Some(object) => return stands(rt, object, line, word, words),
        }
    }
    match word {
        "#" => (),
        "" => put(scene, Scene::new(rt.alloc())),
        _ => scene.set(rt, word, words),
    }
}

fn lines<M: Object>(rt: &impl Test, tokens: &str, scene: &mut Scene<M>, script: &'static str) {
    for line in script.lines() {
        match line.split_once(" -> ") {
            Some((told, text)) => calls(rt, tokens, scene, told, text),
            None => says(rt, scene, line),
        }
    }
}

/// Checks each line of the script on objects of this type; a text of tokens defines the names in
/// it.
fn run<M: Object>(rt: &impl Test, tokens: &str, script: &'static str) {
    let mut scene: Scene<M> = Scene::new(rt.alloc());
    lines(rt, tokens, &mut scene, script);
}

pub fn run_ntlm(rt: &impl Test, tokens: &str, script: &'static str) {
    run::<Ntlm>(rt, tokens, script);
}

pub fn run_kerberos(rt: &impl Test, tokens: &str, script: &'static str) {
    run::<Kerberos>(rt, tokens, script);
}
