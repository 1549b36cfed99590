//! Whole exchanges between two ends of plain NTLM. What they send was computed apart.

use crate::tests::delegate::links::{Kind, echoing, edit, given};
use sspi_ber::WireKind;
use sspi_credssp::{
    ClientMode, CredSspClient, CredSspServer, CredentialsProxy, ServerMode, TableProxy,
};
use sspi_delegate::{
    Carried, DelegateError, Delegation, End, KeptLink, Link, MemoryLink, Transcript, delegate,
};
use sspi_mech::{FailingKdc, Mechanism, Ntlm, NtlmConfig};
use sspi_names::{AuthIdentity, Credentials, Username};
use sspi_tsreq::CredSspMode;
use sspi_types::{Error, ErrorKind, NStatusCode, Secret, Text};
use std::alloc::{AllocError, Global};
use std::process::Abort;

/// The five messages of `DOM\ann` with the password `pw` and the key 010203: two tokens, two proofs
/// and the credentials.
fn plain_messages() -> [&'static str; 5] {
    [
        "3011a003020106a10a30083006a00404024e31",
        "3019a003020106a1123010300ea00c040a4e320000000000000000",
        "308192a003020106a1333031302fa02d042b4e330700444f4d5c616e6e34ddc90ba7ffb071634b466e4d8ecefc8e57189f71f0576ac\
         2bb6e173cf15e3fa3320430507e00ce75d8eebf639da627511157b3e1e0e7bbbd1efcbe459a5253b2f0839a676027203f86155c53b7\
         5ceb87f89c4ca52204200000000000000000000000000000000000000000000000000000000000000000",
        "305da003020106a332043078cc8c57f30bd91a89321eab210cec4eb4f2c13c3a9badf1d36d23a85d33afc979a1ffec6a9fcc3e9b702\
         6299ad0c77ea52204200000000000000000000000000000000000000000000000000000000000000000",
        "3066a003020106a23b0439a5410dbaf6a0ebe3683e10cab62877af3027a003020101a120041e301ca008040644004f004d00a108040\
         661006e006e00a206040470007700a52204200000000000000000000000000000000000000000000000000000000000000000",
    ]
}

/// The messages of a client of version 4 with a key of 270 bytes, whose proof is altered for a
/// server of version 6.
fn mixed_messages() -> [&'static str; 4] {
    [
        "3011a003020104a10a30083006a00404024e31",
        "3019a003020106a1123010300ea00c040a4e320000000000000000",
        "306ea003020104a1333031302fa02d042b4e330700444f4d5c616e6e34ddc90ba7ffb071634b466e4d8ecefc8e57189f71f0576ac2b\
         b6e173cf15e3fa33204306001bec9650f69b2d96edf07e18dd44757f88c6173ea7461fac10d490730c714bdac8550b6679d73945e03\
         7ddf2e8518",
        "3041a003020106a33204306001bec9650f69b2d96edf07e18dd44757f88c6173ea7461fac10d490730c714bdac8550b6679d73945e0\
         37ddf2e8518a4060204c007030f",
    ]
}

/// What two ends are made from, and what their link does.
#[derive(Clone, Copy)]
struct Setting {
    /// The user's name is this text, repeated.
    user: (&'static str, usize),
    /// The bytes of the key are the numbers from the first to before the second, modulo 251.
    key: (usize, usize),
    /// The client's version and the server's.
    versions: (u32, u32),
    /// The least version of a peer that either takes.
    least: u32,
    turns: u32,
    edit: Option<(u32, Kind)>,
    /// The most bytes of a piece.
    piece: usize,
}

/// What an exchange must answer.
#[derive(Clone, Copy)]
enum Wanted {
    /// The credentials of `DOM\ann`, after this many turns of the client.
    Credentials(u32),
    /// A refusal of this kind, with this NTSTATUS code.
    Client(ErrorKind, Option<NStatusCode>),
    Server(ErrorKind),
    Other(DelegateError),
}

/// An exchange, and its result.
#[derive(Clone, Copy)]
struct Row {
    setting: Setting,
    wanted: Wanted,
    /// How many turns are recorded.
    turns: usize,
    /// How many of the messages are in the log.
    sent: usize,
    /// How many bytes of the last one were delivered.
    delivered: usize,
}

/// The result of an exchange, except for its log.
#[derive(Drop)]
struct Exchanged {
    answer: Result<Delegation, DelegateError>,
    turns: usize,
}

fn repeated(alloc: Global, text: &str, count: usize) -> Result<String, AllocError> {
    let mut all = String::new(alloc);
    for _ in 0..count {
        all.push_str(text)?;
    }
    Ok(all)
}

fn key(alloc: Global, (first, end): (usize, usize)) -> Result<Vec<u8>, AllocError> {
    let mut bytes = Vec::new(alloc);
    for number in first..end {
        bytes.push((number % 251) as u8)?;
    }
    Ok(bytes)
}

fn identity(alloc: Global, setting: &Setting) -> Result<AuthIdentity, Error> {
    let (user, count) = setting.user;
    let name = repeated(alloc, user, count)?;
    let username = Username::parse(alloc, name.as_str())?;
    let password = Secret::from(Text::from_text(alloc, "pw")?);
    Ok(AuthIdentity { username, password })
}

fn client_of(alloc: Global, setting: &Setting) -> Result<CredSspClient<Ntlm, Ntlm>, Error> {
    let key = key(alloc, setting.key)?;
    let target = repeated(alloc, "TERMSRV/host.example.com", 1)?;
    let identity = identity(alloc, setting)?;
    let config = NtlmConfig::new(Text::from_text(alloc, "CLIENT")?);
    let client = CredSspClient::new_with_version(
        alloc,
        key,
        Credentials::AuthIdentity(identity),
        CredSspMode::WithCredentials,
        setting.versions.0,
        ClientMode::Ntlm(config),
        target,
        [0; 32],
    );
    Ok(client.with_least_version(setting.least))
}

/// A server that knows the client's own identity.
fn server_of(
    alloc: Global,
    setting: &Setting,
) -> Result<CredSspServer<Ntlm, Ntlm, TableProxy>, Error> {
    let key = key(alloc, setting.key)?;
    let config = NtlmConfig::new(Text::from_text(alloc, "SERVER")?);
    let mut known = Vec::new(alloc);
    known.push(identity(alloc, setting)?)?;
    let server = CredSspServer::new_with_version(
        alloc,
        key,
        TableProxy::new(alloc, known, Vec::new(alloc)),
        setting.versions.1,
        ServerMode::Ntlm(config),
    );
    Ok(server.with_least_version(setting.least))
}

fn memory_link(alloc: Global, setting: &Setting) -> Result<MemoryLink, AllocError> {
    let mut edits = Vec::new(alloc);
    if let Some((entry, kind)) = setting.edit {
        edits.push(edit(alloc, entry, kind)?)?;
    }
    let mut link = MemoryLink::new(alloc, edits);
    link.set_piece(setting.piece);
    Ok(link)
}

/// Both, if there are both. Generic, since dropping a value of a type parameter is one step.
fn both<A: Drop, B>(first: A, second: Result<B, Error>) -> Result<(A, B), Error> {
    match second {
        Ok(second) => Ok((first, second)),
        Err(error) => Err(error),
    }
}

fn carry<N: Mechanism, K: Mechanism, C: CredentialsProxy, L: Link>(
    alloc: Global,
    client: &mut CredSspClient<N, K>,
    server: &mut CredSspServer<N, K, C>,
    link: &mut L,
    turns: u32,
) -> Exchanged {
    let mut transcript = Transcript::new(alloc);
    let answer = delegate(
        alloc,
        client,
        server,
        link,
        &mut FailingKdc::new(),
        turns,
        &mut transcript,
    );
    Exchanged {
        answer,
        turns: transcript.turns().len(),
    }
}

/// Lends both, then drops them. Generic, since dropping a value of a type parameter is one step.
fn between<A: Drop, B: Drop, R, F: FnOnce(&mut A, &mut B) -> R>(first: A, second: B, act: F) -> R
    requires { F.IsAlwaysCallable act }
{
    let mut first = first;
    let mut second = second;
    act(&mut first, &mut second)
}

fn exchange<L: Link>(alloc: Global, setting: &Setting, link: &mut L) -> Result<Exchanged, Error> {
    let (client, server) = both(client_of(alloc, setting)?, server_of(alloc, setting))?;
    Ok(between(client, server, |client, server| {
        carry(alloc, client, server, link, setting.turns)
    }))
}

fn is_wanted(answer: &Result<Delegation, DelegateError>, wanted: Wanted) -> bool {
    match answer {
        Ok(delegation) => is_delegated(delegation, wanted),
        Err(error) => is_refused(*error, wanted),
    }
}

fn is_delegated(delegation: &Delegation, wanted: Wanted) -> bool {
    match wanted {
        Wanted::Credentials(turns) => {
            delegation.rounds == turns
                && delegation.credentials.username.inner() == "DOM\\ann"
                && delegation.credentials.password.value.as_str() == "pw"
        }
        _ => false,
    }
}

fn is_refused(answer: DelegateError, wanted: Wanted) -> bool {
    match wanted {
        Wanted::Credentials(_) => false,
        Wanted::Client(kind, status) => match answer {
            DelegateError::Client(error) => is_error(error, kind, status),
            _ => false,
        },
        Wanted::Server(kind) => match answer {
            DelegateError::Server(error) => is_error(error, kind, None),
            _ => false,
        },
        Wanted::Other(other) => answer == other,
    }
}

fn is_error(error: Error, kind: ErrorKind, status: Option<NStatusCode>) -> bool {
    error.error_type == kind && error.nstatus == status
}

fn digit(number: u8) -> u8 {
    match number {
        0..=9 => b'0' + number,
        10..=15 => b'a' + (number - 10),
        _ => b'?',
    }
}

fn is_hex(bytes: &[u8], hex: &str) -> bool {
    let digits = hex.as_bytes();
    digits.len() / 2 == bytes.len()
        && bytes.iter().zip(digits.chunks_exact(2)).all(|(byte, pair)| pair
            == [digit(*byte / 16), digit(*byte % 16)].as_slice())
}

fn is_log(log: &[Carried], sent: &[&str]) -> bool {
    log.len() == sent.len()
        && log.iter().zip(sent.iter()).enumerate().all(|(place, (entry, text))| {
            let end = if place % 2 == 0 {
                End::Client
            } else {
                End::Server
            };
            entry.from == end && is_hex(entry.sent.as_slice(), *text)
        })
}

/// What was sent was delivered, and read to its end.
fn is_whole(entry: &Carried) -> bool {
    entry.ended && entry.delivered.as_slice() == entry.sent.as_slice()
}

fn assert_log(rt: &impl Abort, log: &[Carried], sent: &[&str], delivered: usize) {
    assert!(rt; is_log(log, sent));
    if let Some(last) = log.last() {
        assert_eq!(rt; last.delivered.len(), delivered);
    }
}

const USUAL: Setting = Setting {
    user: ("DOM\\ann", 1),
    key: (1, 4),
    versions: (6, 6),
    least: 5,
    turns: 5,
    edit: None,
    piece: usize::MAX,
};

fn edited(
    entry: u32,
    kind: Kind,
    wanted: Wanted,
    turns: usize,
    sent: usize,
    delivered: usize,
) -> Row {
    Row {
        setting: Setting {
            edit: Some((entry, kind)),
            ..USUAL
        },
        wanted,
        turns,
        sent,
        delivered,
    }
}

fn limited(limit: u32, wanted: Wanted, turns: usize, sent: usize, delivered: usize) -> Row {
    Row {
        setting: Setting {
            turns: limit,
            ..USUAL
        },
        wanted,
        turns,
        sent,
        delivered,
    }
}

/// Pieces change neither the answer nor the log.
fn in_pieces(piece: usize) -> Row {
    Row {
        setting: Setting { piece, ..USUAL },
        wanted: Wanted::Credentials(3),
        turns: 6,
        sent: 5,
        delivered: 104,
    }
}

fn rows() -> [Row; 16] {
    let altered = Wanted::Client(ErrorKind::MessageAltered, None);
    let old = Wanted::Client(ErrorKind::DowngradeDetected, None);
    let malformed = Wanted::Client(ErrorKind::InvalidToken, None);
    let told = Wanted::Client(ErrorKind::InvalidToken, Some(NStatusCode(0xc0070308)));
    let unread = Wanted::Other(DelegateError::Read(End::Server, WireKind::UnexpectedEof));
    let spent = Wanted::Other(DelegateError::TurnsSpent);
    let fault = Wanted::Other(DelegateError::LinkFault);
    [
        limited(5, Wanted::Credentials(3), 6, 5, 104),
        limited(3, Wanted::Credentials(3), 6, 5, 104),
        limited(2, spent, 4, 4, 0),
        limited(0, spent, 0, 0, 0),
        Row {
            setting: Setting {
                user: ("a", 65536),
                ..USUAL
            },
            wanted: Wanted::Client(ErrorKind::InternalError, None),
            turns: 3,
            sent: 2,
            delivered: 27,
        },
        edited(3, Kind::Again(2), altered, 5, 4, 149),
        edited(3, Kind::Set(6, 5), altered, 5, 4, 95),
        edited(1, Kind::Set(6, 4), old, 3, 2, 27),
        edited(3, short_proof(), malformed, 5, 4, 26),
        edited(1, error_code(), told, 3, 2, 15),
        edited(0, Kind::Drop, unread, 1, 1, 0),
        edited(0, Kind::Fail, fault, 1, 0, 0),
        in_pieces(1),
        in_pieces(2),
        in_pieces(3),
        in_pieces(7),
    ]
}

/// A request of version 6 whose proof has 15 bytes.
fn short_proof() -> Kind {
    Kind::Give(b"\x30\x18\xa0\x03\x02\x01\x06\xa3\x11\x04\x0f\0\0\0\0\0\0\0\0\0\0\0\0\0\0\0")
}

/// A request of version 6 with the error code 0xc0070308.
fn error_code() -> Kind {
    Kind::Give(b"\x30\x0d\xa0\x03\x02\x01\x06\xa4\x06\x02\x04\xc0\x07\x03\x08")
}

#[test]
fn exchanges_over_edited_links(rt: HostRuntime) {
    let messages = plain_messages();
    for row in rows() {
        let mut link = given(&rt, memory_link(rt.alloc(), &row.setting));
        let exchanged = given(&rt, exchange(rt.alloc(), &row.setting, &mut link));
        assert!(rt; is_wanted(&exchanged.answer, row.wanted));
        assert_eq!(rt; exchanged.turns, row.turns);
        let sent = messages.get(..row.sent).unwrap_or(&[]);
        assert_log(&rt, link.log(), sent, row.delivered);
    }
}

#[test]
fn an_altered_proof_is_told_to_the_client(rt: HostRuntime) {
    let setting = Setting {
        key: (0, 270),
        versions: (4, 6),
        least: 4,
        ..USUAL
    };
    let mut link = given(&rt, memory_link(rt.alloc(), &setting));
    let exchanged = given(&rt, exchange(rt.alloc(), &setting, &mut link));
    let wanted = Wanted::Server(ErrorKind::MessageAltered);
    assert!(rt; is_wanted(&exchanged.answer, wanted));
    assert_log(&rt, link.log(), &mixed_messages(), 0);
}

/// The server tells its client that its version is too old, and the client's own least version is
/// not consulted.
#[test]
fn an_old_client_is_told_so(rt: HostRuntime) {
    let setting = Setting {
        versions: (4, 6),
        ..USUAL
    };
    let mut link = given(&rt, memory_link(rt.alloc(), &setting));
    let exchanged = given(&rt, exchange(rt.alloc(), &setting, &mut link));
    let wanted = Wanted::Server(ErrorKind::DowngradeDetected);
    assert!(rt; is_wanted(&exchanged.answer, wanted));
    let messages = [
        "3011a003020104a10a30083006a00404024e31",
        "300da003020104a4060204c0070350",
    ];
    assert_log(&rt, link.log(), &messages, 0);
}

#[test]
fn exchange_over_a_carrier(rt: HostRuntime) {
    let mut link = KeptLink::new(rt.alloc(), echoing(rt.alloc(), Some(5), None));
    let exchanged = given(&rt, exchange(rt.alloc(), &USUAL, &mut link));
    assert!(rt; is_wanted(&exchanged.answer, Wanted::Credentials(3)));
    assert_log(&rt, link.log(), &plain_messages(), 104);
    assert!(rt; link.log().iter().all(|entry| is_whole(entry)));
}

/// The second message is not sent, or nothing of the first one is received: a call that is tried
/// again would succeed.
#[test]
fn a_fault_of_the_carrier_ends_the_exchange(rt: HostRuntime) {
    for (sends_left, receives_left, turns) in [(Some(1), None, 2), (None, Some(0), 1)] {
        let carrier = echoing(rt.alloc(), sends_left, receives_left);
        let mut link = KeptLink::new(rt.alloc(), carrier);
        let exchanged = given(&rt, exchange(rt.alloc(), &USUAL, &mut link));
        let wanted = Wanted::Other(DelegateError::LinkFault);
        assert!(rt; is_wanted(&exchanged.answer, wanted));
        assert_eq!(rt; exchanged.turns, turns);
        assert_eq!(rt; link.log().len(), 1);
    }
}
