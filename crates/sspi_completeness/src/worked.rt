//! Exchanges worked by hand, one for each way to `Ok`.
//!
//! Each makes its two ends and the KDC that the client may ask, and carries their messages in
//! memory. The client may make `limit` of them. It returns what it made: both ends, the KDC, the
//! link and the transcript, which are those of a run. Its answer is `Ok` with the delegated
//! identity, after the number of messages in its contract. If `limit` is lower, the turns are
//! spent; or there was no memory. The call itself is refused only if there is no memory to make the
//! ends.

ghost use Rattle.std.specs.Prelude.{◌≡◌, ◌≤◌, ℕ, Some, IfOk, IsSome, nat_lt};
ghost use Rattle.sspi_names.specs.Name.{parse_name};
ghost use Rattle.sspi_names.specs.declared.identity.AuthIdentity.{AuthIdentity};
ghost use Rattle.sspi_completeness.specs.Worked as examples;
ghost use Rattle.sspi_completeness.specs.Worked.{Example, Matches};
ghost use Rattle.sspi_completeness.specs.WorkedOut.{IsWorked, kdc_told};

mod ends;
mod parts;

pub use crate::worked::ends::{Client, Exchanged, Server, Worked};
use crate::worked::ends::{client_of, run, server_of};
use crate::worked::parts::{
    client_with_kerberos, client_with_ntlm, identity_of, ntlm_client, ntlm_server, realm_kdc,
    server_with_ntlm, server_with_ntlm_alone, server_with_ticket,
};
use sspi_credssp::{ClientMode, CredSspMode, ServerMode};
use sspi_mech::PlainKdc;
use sspi_names::AuthIdentity;
use std::alloc::{AllocError, Global};

/// What the two ends of an exchange are given, besides how each authenticates.
#[derive(Clone, Copy)]
struct Given<'a> {
    key: &'a [u8],
    name: &'a str,
    password: &'a str,
    delegation: CredSspMode,
    client_version: u32,
    server_version: u32,
    least: u32,
}

/// What most exchanges are given.
const USUAL: Given<'static> = Given {
    key: &[1, 2, 3],
    name: "ann@example.com",
    password: "pw",
    delegation: CredSspMode::WithCredentials,
    client_version: 6,
    server_version: 6,
    least: 5,
};

/// The identity of the client, which the server knows.
fn who(alloc: Global, given: &Given<'_>) -> Result<AuthIdentity, AllocError>
    requires { IsSome (parse_name given.now.name.now) }
    ensures { (identity : AuthIdentity) → parse_name given.now.name.now ≡ Some identity.username →
        given.now.password.now ≡ identity.password.value →
        IfOk result (λ who. who ≡ identity) }
{
    identity_of(alloc, given.name, given.password)
}

/// An exchange of two ends that are given this, and authenticate in these modes.
fn exchange(
    alloc: Global,
    given: &Given<'_>,
    client: Result<ClientMode, AllocError>,
    server: Result<ServerMode, AllocError>,
    kdc: Result<PlainKdc, AllocError>,
    limit: u32,
) -> Result<Worked, AllocError>
    requires { IsSome (parse_name given.now.name.now) }
    ensures { (x : Example) → (messages : ℕ) → given.now.key.now ≡ x.key →
        parse_name given.now.name.now ≡ Some x.identity.username →
        given.now.password.now ≡ x.identity.password.value → given.now.delegation ≡ x.delegation →
        given.now.client_version ≡ x.client_version →
        given.now.server_version ≡ x.server_version → given.now.least ≡ x.least →
        IfOk client (λ mode. mode ≡ x.client) →
        IfOk server (λ mode. mode ≡ x.server) →
        IfOk kdc (λ kdc. Matches (kdc_told kdc) kdc.asked messages x) →
        IfOk result (IsWorked x messages limit) }
{
    let client = client_of(
        alloc,
        Vec::from_slice(alloc, given.key),
        who(alloc, given),
        given.delegation,
        given.client_version,
        given.least,
        client,
    );
    let server = server_of(
        alloc,
        Vec::from_slice(alloc, given.key),
        who(alloc, given),
        given.server_version,
        given.least,
        server,
    );
    run(alloc, client, server, kdc, limit)
}

/// Three messages: NTLM without a negotiation, for `DOM\ann` with the password `pw`, at version 6.
pub fn by_ntlm(alloc: Global, limit: u32) -> Result<Worked, AllocError>
    ensures { IfOk result (IsWorked (examples.ntlm_example CredSspMode.WithCredentials 6 6 5)
        3 limit) }
{
    by_ntlm_at(alloc, CredSspMode::WithCredentials, 6, 6, 5, limit)
}

/// Three messages: the same at versions 2 and 4, whose proofs are the key and the key plus one.
pub fn by_ntlm_of_old(alloc: Global, limit: u32) -> Result<Worked, AllocError>
    ensures { IfOk result (IsWorked (examples.ntlm_example CredSspMode.WithCredentials 2 4 0)
        3 limit) }
{
    by_ntlm_at(alloc, CredSspMode::WithCredentials, 2, 4, 0, limit)
}

/// Three messages: the same at versions 5 and 6, with a client that keeps its credentials.
pub fn without_credentials(alloc: Global, limit: u32) -> Result<Worked, AllocError>
    ensures { IfOk result (IsWorked (examples.ntlm_example CredSspMode.CredentialLess 5 6 5)
        3 limit) }
{
    by_ntlm_at(alloc, CredSspMode::CredentialLess, 5, 6, 5, limit)
}

fn by_ntlm_at(
    alloc: Global,
    delegation: CredSspMode,
    client_version: u32,
    server_version: u32,
    least: u32,
    limit: u32,
) -> Result<Worked, AllocError>
    ensures { nat_lt client_version 5 ≡ nat_lt server_version 5 → least ≤ client_version →
        least ≤ server_version →
        IfOk result (IsWorked (examples.ntlm_example delegation client_version server_version least)
        3 limit) }
{
    let given = Given {
        name: "DOM\\ann",
        delegation,
        client_version,
        server_version,
        least,
        ..USUAL
    };
    let client = ntlm_client(alloc);
    let server = ntlm_server();
    exchange(alloc, &given, client, server, realm_kdc(alloc), limit)
}

/// Four messages: a negotiation of NTLM at version 4, where the server's proof is the key plus one.
pub fn negotiated_at_version_4(alloc: Global, limit: u32) -> Result<Worked, AllocError>
    ensures { IfOk result (IsWorked examples.negotiated_at_version_4 4 limit) }
{
    let given = Given {
        name: "DOM\\ann",
        client_version: 4,
        server_version: 4,
        least: 4,
        ..USUAL
    };
    let client = client_with_ntlm(alloc);
    let server = server_with_ntlm(alloc);
    exchange(alloc, &given, client, server, realm_kdc(alloc), limit)
}

/// Four messages: a negotiation of NTLM for `ann@example.com`, with a key and a password of usual
/// lengths.
pub fn negotiated_with_a_long_key(alloc: Global, limit: u32) -> Result<Worked, AllocError>
    ensures { IfOk result (IsWorked examples.negotiated_with_a_long_key 4 limit) }
{
    let given = Given {
        key: &[0x3b; 270],
        password: "fourteenletter",
        ..USUAL
    };
    let client = client_with_ntlm(alloc);
    let server = server_with_ntlm(alloc);
    exchange(alloc, &given, client, server, realm_kdc(alloc), limit)
}

/// Four messages: a negotiation of Kerberos, user-to-user, whose KDC the client finds by its realm.
pub fn user_to_user(alloc: Global, limit: u32) -> Result<Worked, AllocError>
    ensures { IfOk result (IsWorked examples.user_to_user 4 limit) }
{
    let client = client_with_kerberos(alloc);
    let server = server_with_ticket(alloc);
    exchange(alloc, &USUAL, client, server, realm_kdc(alloc), limit)
}

/// Five messages: a negotiation that the client begins with Kerberos, with a server that may use
/// only NTLM.
pub fn given_up_for_ntlm(alloc: Global, limit: u32) -> Result<Worked, AllocError>
    ensures { IfOk result (IsWorked examples.given_up_for_ntlm 5 limit) }
{
    let client = client_with_kerberos(alloc);
    let server = server_with_ntlm_alone(alloc);
    exchange(alloc, &USUAL, client, server, realm_kdc(alloc), limit)
}
