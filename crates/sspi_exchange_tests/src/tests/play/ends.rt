//! The two ends, and what is delivered to them. What they send to each other was computed apart.

use sspi_credssp::{ClientMode, CredSspClient, CredSspServer, ServerMode, TableProxy};
use sspi_delegate::{DelegateError, End, Transcript, Turn};
use sspi_mech::{FailingKdc, Ntlm, NtlmConfig};
use sspi_names::{AuthIdentity, Credentials, Username};
use sspi_play::{Delivery, Ending, Played, play};
use sspi_tsreq::CredSspMode;
use sspi_types::{Bytes, Secret, Text};
use std::alloc::Global;
use std::process::Abort;

/// What a test runs on.
pub trait Test: Abort + Alloc<A = Global> {}

impl<R: Abort + Alloc<A = Global>> Test for R {}

/// The value of a call that must not be refused.
pub fn given<T, E: Drop>(rt: &impl Abort, answer: Result<T, E>) -> T {
    match answer {
        Ok(value) => value,
        Err(_) => rt.abort(),
    }
}

/// Lends a value, then drops it. Generic, since dropping a value of a type parameter is one step of
/// a proof, and dropping an end is many.
pub fn lend<A: Drop, R, F: FnOnce(&mut A) -> R>(value: A, act: F) -> R
    requires { F.IsAlwaysCallable act }
{
    let mut value = value;
    act(&mut value)
}

/// The messages of `DOM\ann` with the password `pw` and the key 010203 to a server of that key, by
/// their numbers: two tokens, two proofs and the credentials. With an `n` the two proofs of a
/// session with a nonce of octets 11, with a `k` those of one with the key 010204. Other words are
/// octets themselves.
fn octets_of(word: &str) -> &str {
    match word {
        "1" => "3011a003020106a10a30083006a00404024e31",
        "2" => "3019a003020106a1123010300ea00c040a4e320000000000000000",
        "3" => {
            "308192a003020106a1333031302fa02d042b4e330700444f4d5c616e6e34ddc90ba7ffb071634b466e4d8ecefc8e57189f71f05\
             76ac2bb6e173cf15e3fa3320430507e00ce75d8eebf639da627511157b3e1e0e7bbbd1efcbe459a5253b2f0839a676027203f86\
             155c53b75ceb87f89c4ca52204200000000000000000000000000000000000000000000000000000000000000000"
        }
        "4" => {
            "305da003020106a332043078cc8c57f30bd91a89321eab210cec4eb4f2c13c3a9badf1d36d23a85d33afc979a1ffec6a9fcc3e9\
             b7026299ad0c77ea52204200000000000000000000000000000000000000000000000000000000000000000"
        }
        "5" => {
            "3066a003020106a23b0439a5410dbaf6a0ebe3683e10cab62877af3027a003020101a120041e301ca008040644004f004d00a10\
             8040661006e006e00a206040470007700a522042000000000000000000000000000000000000000000000000000000000000000\
             00"
        }
        "3n" => {
            "308192a003020106a1333031302fa02d042b4e330700444f4d5c616e6e34ddc90ba7ffb071634b466e4d8ecefc8e57189f71f05\
             76ac2bb6e173cf15e3fa332043003805741e957ec9490fe14f35b140926bc247bcf014a3c46ebcc2c8795926751f0625093cd70\
             60ee9a1a9ea38ccd2395a52204201111111111111111111111111111111111111111111111111111111111111111"
        }
        "4n" => {
            "305da003020106a332043027c1279f6407d794c59347dad6f0fef984e36fc2d0ec4f007e7aaa26cd1f0d6d64712741010d4f6b7\
             c266da3eb8a74fda52204201111111111111111111111111111111111111111111111111111111111111111"
        }
        "3k" => {
            "308192a003020106a1333031302fa02d042b4e330700444f4d5c616e6e34ddc90ba7ffb071634b466e4d8ecefc8e57189f71f05\
             76ac2bb6e173cf15e3fa3320430386f7bfb21b55e1321a58e558b45b8ead7e2eb14c75a00f5cee84f53e7cbd2e86f3e0df19d93\
             f15da16d7504ad6f4e22a52204200000000000000000000000000000000000000000000000000000000000000000"
        }
        "4k" => {
            "305da003020106a33204306ad9b21f48bfc7576f2d4231f1fd99d168b9e4f14231af7e1412dfbb61e3b2afe136dfe5367a065f7\
             bd0ac7cd367c9d0a52204200000000000000000000000000000000000000000000000000000000000000000"
        }
        _ => word,
    }
}

/// A word for a delivery: `c` or `s` for its end, and what is delivered.
fn delivery(rt: &impl Test, word: &str) -> Delivery {
    match word.split_once(':') {
        Some((end, octets)) => Delivery {
            to: if end == "c" { End::Client } else { End::Server },
            bytes: Bytes::from_vec(given(rt, hex::decode(rt.alloc(), octets_of(octets)))),
        },
        None => rt.abort(),
    }
}

fn schedule(rt: &impl Test, words: &str) -> Vec<Delivery> {
    let mut schedule = Vec::new(rt.alloc());
    for word in words.split_whitespace() {
        given(rt, schedule.push(delivery(rt, word)));
    }
    schedule
}

/// A name and a password.
pub type Account = (&'static str, &'static str);

fn identity(rt: &impl Test, (name, password): Account) -> AuthIdentity {
    let username = given(rt, Username::parse(rt.alloc(), name));
    let password = Secret::from(given(rt, Text::from_text(rt.alloc(), password)));
    AuthIdentity { username, password }
}

pub fn config(rt: &impl Test) -> NtlmConfig {
    NtlmConfig::new(given(rt, Text::from_text(rt.alloc(), "CLIENT")))
}

fn key(rt: &impl Test, digits: &str) -> Vec<u8> {
    given(rt, hex::decode(rt.alloc(), digits))
}

/// A client of this account.
pub fn client(
    rt: &impl Test,
    key: Vec<u8>,
    account: Account,
    mode: ClientMode,
) -> CredSspClient<Ntlm, Ntlm> {
    let mut target = String::new(rt.alloc());
    given(rt, target.push_str("TERMSRV/host.example.com"));
    CredSspClient::new(
        rt.alloc(),
        key,
        Credentials::AuthIdentity(identity(rt, account)),
        CredSspMode::WithCredentials,
        mode,
        target,
        [0; 32],
    )
}

/// A server that knows this account.
pub fn server(
    rt: &impl Test,
    key: Vec<u8>,
    account: Account,
    mode: ServerMode,
) -> CredSspServer<Ntlm, Ntlm, TableProxy> {
    let mut known = Vec::new(rt.alloc());
    given(rt, known.push(identity(rt, account)));
    let proxy = TableProxy::new(rt.alloc(), known, Vec::new(rt.alloc()));
    CredSspServer::new(rt.alloc(), key, proxy, mode)
}

/// The turns that these words make, which leave the ends in these states.
pub fn turns_of(
    rt: &impl Test,
    client: &mut CredSspClient<Ntlm, Ntlm>,
    server: &mut CredSspServer<Ntlm, Ntlm, TableProxy>,
    words: &str,
    wanted: (Ending, Ending, Option<&str>),
) -> Transcript {
    let mut transcript = Transcript::new(rt.alloc());
    let schedule = schedule(rt, words);
    let mut kdc = FailingKdc::new();
    let played = play(
        rt.alloc(),
        client,
        server,
        &schedule,
        &mut kdc,
        &mut transcript,
    );
    stands(rt, played, words, wanted);
    transcript
}

const ANN: Account = ("DOM\\ann", "pw");

/// Checks the states of the ends after a play, by the server's key, the words for the deliveries
/// and the ends of the turns.
pub fn comes_to(
    rt: &impl Test,
    digits: &str,
    words: &str,
    turns: &str,
    wanted: (Ending, Ending, Option<&str>),
) {
    let client = client(rt, key(rt, "010203"), ANN, ClientMode::Ntlm(config(rt)));
    let server = server(rt, key(rt, digits), ANN, ServerMode::Ntlm(config(rt)));
    let transcript = lend(client, |client| {
        lend(server, |server| turns_of(rt, client, server, words, wanted))
    });
    assert!(rt; made_by(transcript.turns(), turns), "{words}");
}

/// Whether the turns are those of these ends, in order.
pub fn made_by(turns: &[Turn], ends: &str) -> bool {
    let ends = if ends == "-" {
        [].as_slice()
    } else {
        ends.as_bytes()
    };
    turns.len() == ends.len()
        && turns
            .iter()
            .zip(ends.iter())
            .all(|(turn, end)| (turn.end == End::Client) == (*end == b'c'))
}

/// Checks that a play had this result.
fn stands(
    rt: &impl Abort,
    played: Result<Played, DelegateError>,
    words: &str,
    (client, server, name): (Ending, Ending, Option<&str>),
) {
    match played {
        Ok(played) => {
            assert!(rt; played.client == client, "{words}");
            assert!(rt; played.server == server, "{words}");
            assert!(rt; is_named(&played.identity, name), "{words}");
        }
        Err(_) => rt.abort(),
    }
}

fn is_named(identity: &Option<AuthIdentity>, name: Option<&str>) -> bool {
    match (identity, name) {
        (Some(identity), Some(name)) => identity.username.inner() == name,
        (None, None) => true,
        _ => false,
    }
}
