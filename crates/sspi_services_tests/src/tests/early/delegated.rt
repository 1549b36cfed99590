//! Whole delegations with their early result, between two ends of plain NTLM over a link in memory.

use crate::tests::early::results::told;
use crate::tests::early::words::{answered, edits, given, identity, names, number, parted};
use sspi_credssp::{
    ClientMode, CredSspClient, CredSspMode, CredSspServer, CredentialsProxy, ServerMode, TableProxy,
};
use sspi_delegate::{Carried, Delegation, MemoryLink, Transcript};
use sspi_early::{
    Authorized, Early, EarlyError, FailingPolicy, ListPolicy, Policy, delegate_early,
};
use sspi_mech::{FailingKdc, Kerberos, Ntlm, NtlmConfig};
use sspi_names::Credentials;
use sspi_types::Text;
use std::alloc::Global;
use std::process::Abort;

type Client = CredSspClient<Ntlm, Kerberos>;

/// Whom the policy admits, how many messages the client may make, what the link does with the
/// result, and the answer. Then how many messages the link carried; if the last one told the
/// result, what it was, and how many bytes were taken from it.
const LISTED: &str = "\
DOM\\ann, / 3 / none / success success / 6 / 00000000 / 4
 / 3 / none / denied denied / 6 / 05000000 / 4
dom\\ANN, / 5 / give 05000000 / success denied / 6 / 00000000 / 4
DOM\\ann, / 5 / cut 3 / eof / 6 / 00000000 / 3
DOM\\ann, / 5 / fail / link / 5
DOM\\ann, / 2 / none / turns / 4";

fn text(rt: &impl Abort, alloc: Global, text: &str) -> Text {
    given(rt, Text::from_text(alloc, text))
}

fn key(rt: &impl Abort, alloc: Global) -> Vec<u8> {
    given(rt, Vec::from_slice(alloc, &[1, 2, 3]))
}

fn client(rt: &impl Abort, alloc: Global) -> Client {
    CredSspClient::new(
        alloc,
        key(rt, alloc),
        Credentials::AuthIdentity(identity(rt, alloc, "DOM\\ann")),
        CredSspMode::WithCredentials,
        ClientMode::Ntlm(NtlmConfig::new(text(rt, alloc, "CLIENT"))),
        text(rt, alloc, "TERMSRV/host.example.com").into_inner(),
        [0; 32],
    )
}

/// A server that knows the client's own identity.
fn server(rt: &impl Abort, alloc: Global) -> CredSspServer<Ntlm, Kerberos, TableProxy> {
    let mut known = Vec::new(alloc);
    given(rt, known.push(identity(rt, alloc, "DOM\\ann")));
    CredSspServer::new(
        alloc,
        key(rt, alloc),
        TableProxy::new(alloc, known, Vec::new(alloc)),
        ServerMode::Ntlm(NtlmConfig::new(text(rt, alloc, "SERVER"))),
    )
}

/// Lends both, then drops them. Generic, since dropping a value of a type parameter is one step.
fn between<A: Drop, B: Drop, R, F: FnOnce(&mut A, &mut B) -> R>(first: A, second: B, act: F) -> R
    requires { F.IsAlwaysCallable act }
{
    let mut first = first;
    let mut second = second;
    act(&mut first, &mut second)
}

/// The same for one value.
fn lend<T: Drop, R, F: FnOnce(&mut T) -> R>(value: T, act: F) -> R
    requires { F.IsAlwaysCallable act }
{
    let mut value = value;
    act(&mut value)
}

fn delegated<C: CredentialsProxy, P: Policy>(
    alloc: Global,
    client: &mut Client,
    server: &mut CredSspServer<Ntlm, Kerberos, C>,
    link: &mut MemoryLink,
    policy: &mut P,
    limit: u32,
) -> Result<Early, EarlyError> {
    let mut kdc = FailingKdc::new();
    lend(Transcript::new(alloc), |transcript| {
        delegate_early(
            alloc, client, server, link, &mut kdc, policy, limit, transcript,
        )
    })
}

/// A line without its first part, whom this policy admits.
fn line<P: Policy>(rt: &impl Abort, alloc: Global, policy: P, line: &str) {
    let (limit, rest) = parted(rt, line, " / ");
    let (edit, rest) = parted(rt, rest, " / ");
    let (words, log) = parted(rt, rest, " / ");
    let limit = given(rt, limit.parse());
    let mut policy = policy;
    let mut link = MemoryLink::new(alloc, edits(rt, alloc, 5, edit));
    let found = between(client(rt, alloc), server(rt, alloc), |client, server| {
        delegated(alloc, client, server, &mut link, &mut policy, limit)
    });
    comes(rt, &found, words);
    carried(rt, alloc, link.log(), log, words == "eof");
}

fn comes(rt: &impl Abort, found: &Result<Early, EarlyError>, words: &str) {
    match found {
        Ok(early) => {
            is_ann(rt, &early.delegation);
            let (told, heard) = (early.told, early.heard);
            answered(rt, &Ok(Authorized { told, heard }), words);
        }
        Err(error) => answered(rt, &Err(*error), words),
    }
}

fn is_ann(rt: &impl Abort, delegation: &Delegation) {
    assert_eq!(rt; delegation.rounds, 3);
    assert!(rt; delegation.credentials.username.inner() == "DOM\\ann");
    assert!(rt; delegation.credentials.password.value.as_str() == "pw");
}

fn carried(rt: &impl Abort, alloc: Global, log: &[Carried], words: &str, ended: bool) {
    let (count, result) = words.split_once(" / ").unwrap_or((words, ""));
    assert_eq!(rt; log.len(), number(rt, count));
    match (result.split_once(" / "), log.last()) {
        (Some((sent, taken)), Some(last)) => told(rt, alloc, last, sent, taken, ended),
        _ => assert!(rt; result.is_empty()),
    }
}

fn listed(rt: &impl Abort, alloc: Global, words: &str) {
    let (admit, rest) = parted(rt, words, " / ");
    line(
        rt,
        alloc,
        ListPolicy::new(alloc, names(rt, alloc, admit)),
        rest,
    );
}

#[test]
fn a_delegated_user_is_told_what_a_list_decides(rt: HostRuntime) {
    for words in LISTED.lines() {
        listed(&rt, rt.alloc(), words);
    }
}

// If the turns are spent, the policy is not asked: its failure would be the answer.
#[test]
fn a_policy_that_fails_tells_nothing(rt: HostRuntime) {
    let alloc = rt.alloc();
    line(&rt, alloc, FailingPolicy::new(), "3 / none / policy / 5");
    line(&rt, alloc, FailingPolicy::new(), "2 / none / turns / 4");
}
