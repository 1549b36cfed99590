//! The ends of an exchange, and how one is run between them.

ghost use Rattle.std.specs.Prelude.{◌≡◌, ◌∷◌, [], ℕ, Ok, IfOk};
ghost use Rattle.sspi_names.specs.declared.identity.AuthIdentity.{AuthIdentity};
ghost use Rattle.sspi_completeness.specs.Worked.{Example, IsClientOf, IsServerOf, Matches};
ghost use Rattle.sspi_completeness.specs.WorkedOut.{IsWorked, kdc_told};

use crate::plain::delegate_plainly;
use sspi_credssp::{ClientMode, CredSspClient, CredSspMode, CredSspServer, ServerMode, TableProxy};
use sspi_delegate::{DelegateError, Delegation, MemoryLink, Transcript};
use sspi_mech::{Kerberos, Ntlm, PlainKdc};
use sspi_names::{AuthIdentity, Credentials};
use std::alloc::{AllocError, Global};

/// The client of an example.
pub type Client = CredSspClient<Ntlm, Kerberos>;

/// The server of an example, whose proxy is a table.
pub type Server = CredSspServer<Ntlm, Kerberos, TableProxy>;

/// Both values, or an error if there was no memory for one of them.
pub(crate) fn pair<A: Drop, B: Drop>(
    first: Result<A, AllocError>,
    second: Result<B, AllocError>,
) -> Result<(A, B), AllocError>
    ensures { IfOk result (λ both. (first ≡ Ok both.0) × (second ≡ Ok both.1)) }
{
    Ok((first?, second?))
}

/// A client made from these parts, with a nonce of zeros.
pub(crate) fn client_of(
    alloc: Global,
    key: Result<Vec<u8>, AllocError>,
    identity: Result<AuthIdentity, AllocError>,
    delegation: CredSspMode,
    version: u32,
    least: u32,
    mode: Result<ClientMode, AllocError>,
) -> Result<Client, AllocError>
    ensures { (x : Example) → IfOk key (λ key. key.items ≡ x.key) →
        IfOk identity (λ identity. identity ≡ x.identity) →
        delegation ≡ x.delegation → version ≡ x.client_version → least ≡ x.least →
        IfOk mode (λ mode. mode ≡ x.client) →
        IfOk result (IsClientOf x) }
{
    let target = String::from_str(alloc, "TERMSRV/host.example.com");
    let ((key, identity), (mode, target)) = pair(pair(key, identity), pair(mode, target))?;
    let client = CredSspClient::new_with_version(
        alloc,
        key,
        Credentials::AuthIdentity(identity),
        delegation,
        version,
        mode,
        target,
        [0; 32],
    );
    Ok(client.with_least_version(least))
}

/// A server made from these parts, whose proxy knows only this identity.
pub(crate) fn server_of(
    alloc: Global,
    key: Result<Vec<u8>, AllocError>,
    identity: Result<AuthIdentity, AllocError>,
    version: u32,
    least: u32,
    mode: Result<ServerMode, AllocError>,
) -> Result<Server, AllocError>
    ensures { (x : Example) → IfOk key (λ key. key.items ≡ x.key) →
        IfOk identity (λ identity. identity ≡ x.identity) →
        version ≡ x.server_version → least ≡ x.least → IfOk mode (λ mode. mode ≡ x.server) →
        IfOk result (IsServerOf x) }
{
    let ((key, proxy), mode) = pair(pair(key, proxy_of(alloc, identity)), mode)?;
    let server = CredSspServer::new_with_version(alloc, key, proxy, version, mode);
    Ok(server.with_least_version(least))
}

/// A proxy that knows only this identity, and whose calls never fail.
fn proxy_of(
    alloc: Global,
    identity: Result<AuthIdentity, AllocError>,
) -> Result<TableProxy, AllocError>
    ensures { (known : AuthIdentity) → IfOk identity (λ identity. identity ≡ known) →
        IfOk result (λ proxy. proxy ≡ record {
          entries = known ∷ [];
          failing = [];
          calls = 0;
          faults = 0;
        }) }
{
    let entries = alone(alloc, identity)?;
    Ok(TableProxy::new(alloc, entries, Vec::new(alloc)))
}

/// A list of only this value.
pub(crate) fn alone<T: Drop>(
    alloc: Global,
    value: Result<T, AllocError>,
) -> Result<Vec<T>, AllocError>
    ensures { (x : T) → IfOk value (λ value. value ≡ x) →
        IfOk result (λ list. list.items ≡ x ∷ []) }
{
    let value = value?;
    let mut list = Vec::new(alloc);
    list.push(value)?;
    Ok(list)
}

/// An exchange that was run: its answer, and the final state of what took part in it.
#[derive(Drop)]
pub struct Exchanged<C, S> {
    pub answer: Result<Delegation, DelegateError>,
    pub client: C,
    pub server: S,
    pub kdc: PlainKdc,
    pub link: MemoryLink,
    pub transcript: Transcript,
}

/// An exchange worked by hand.
pub type Worked = Exchanged<Client, Server>;

/// What an exchange is run between: both ends, with the KDC that the client may ask.
#[derive(Drop)]
struct Ends<C, S> {
    client: C,
    server: S,
    kdc: PlainKdc,
}

/// All three, or an error if there was no memory for one of them.
fn make_ends<C: Drop, S: Drop>(
    client: Result<C, AllocError>,
    server: Result<S, AllocError>,
    kdc: Result<PlainKdc, AllocError>,
) -> Result<Ends<C, S>, AllocError>
    ensures { IfOk result (λ ends. (client ≡ Ok ends.client) × (server ≡ Ok ends.server) ×
        (kdc ≡ Ok ends.kdc)) }
{
    let ((client, server), kdc) = pair(pair(client, server), kdc)?;
    Ok(Ends {
        client,
        server,
        kdc,
    })
}

/// Runs an exchange of these two ends in memory, over a link that changes nothing.
fn carry_out(alloc: Global, ends: Ends<Client, Server>, limit: u32) -> Worked
    ensures { (x : Example) → (messages : ℕ) → IsClientOf x ends.client → IsServerOf x ends.server →
        Matches (kdc_told ends.kdc) ends.kdc.asked messages x → IsWorked x messages limit result }
{
    let Ends {
        mut client,
        mut server,
        mut kdc,
    } = ends;
    let mut link = MemoryLink::new(alloc, Vec::new(alloc));
    let mut transcript = Transcript::new(alloc);
    let answer = delegate_plainly(
        alloc,
        &mut client,
        &mut server,
        &mut link,
        &mut kdc,
        limit,
        &mut transcript,
    );
    Exchanged {
        answer,
        client,
        server,
        kdc,
        link,
        transcript,
    }
}

/// An exchange of these two ends in memory, over a link that changes nothing; an error if there was
/// no memory for one of them.
pub(crate) fn run(
    alloc: Global,
    client: Result<Client, AllocError>,
    server: Result<Server, AllocError>,
    kdc: Result<PlainKdc, AllocError>,
    limit: u32,
) -> Result<Worked, AllocError>
    ensures { (x : Example) → (messages : ℕ) → IfOk client (IsClientOf x) →
        IfOk server (IsServerOf x) →
        IfOk kdc (λ kdc. Matches (kdc_told kdc) kdc.asked messages x) →
        IfOk result (IsWorked x messages limit) }
{
    let ends = make_ends(client, server, kdc)?;
    Ok(carry_out(alloc, ends, limit))
}
