//! What the proof of a public key is made of, by version (MS-CSSP 3.1.5).

ghost use Rattle.std.specs.Prelude.{◌≡◌, ◌≢◌, ◌<◌, ◌++◌, ℕ, List, All, IfOk, IsTrue, false};
ghost use Rattle.sha2.specs.Sha256.{sha256};
ghost use Rattle.sspi_credssp.specs.Exchange.{magic, echo, incremented, decremented, prescribed};

use crate::versions::FIRST_HASHED_VERSION;
use sha2::{Digest, Sha256};
use sspi_types::Bytes;
use std::alloc::{AllocError, Global};

/// The two ends of a CredSSP exchange.
#[derive(Clone, Copy, Debug, PartialEq, Eq)]
pub enum EndpointType {
    /// The end that delegates its credentials.
    Client,
    /// The end that they are delegated to.
    Server,
}

/// What the client's proof hashes first (ClientServerHashMagic, MS-CSSP 3.1.5).
pub const CLIENT_SERVER_HASH_MAGIC: [u8; 38] = *b"CredSSP Client-To-Server Binding Hash\0";

/// What the server's proof hashes first (ServerClientHashMagic, MS-CSSP 3.1.5).
pub const SERVER_CLIENT_HASH_MAGIC: [u8; 38] = *b"CredSSP Server-To-Client Binding Hash\0";

/// The two magics are those of MS-CSSP 3.1.5, their final zero byte included.
pub fn hash_magics_are_prescribed()
    ensures client { CLIENT_SERVER_HASH_MAGIC ≡ magic EndpointType.Client }
    ensures server { SERVER_CLIENT_HASH_MAGIC ≡ magic EndpointType.Server }
{}

/// Adds one to a little-endian number of n bytes, modulo 256^n. An empty list stays empty.
pub fn integer_increment_le(buffer: &mut [u8])
    ensures { buffer.new ≡ incremented buffer.old }
{
    for byte in buffer.iter_mut() {
        if *byte != u8::MAX {
            *byte += 1;
            return;
        }
        *byte = 0;
    }
}

/// Subtracts one from a little-endian number of n bytes, modulo 256^n; adding one undoes it. An
/// empty list stays empty.
pub fn integer_decrement_le(buffer: &mut [u8])
    ensures taken { buffer.new ≡ decremented buffer.old }
    ensures undone { incremented buffer.new ≡ buffer.old }
{
    for byte in buffer.iter_mut() {
        if *byte != 0 {
            *byte -= 1;
            return;
        }
        *byte = u8::MAX;
    }
}

/// Subtracting one undoes adding one, for numbers of every length.
pub fn decrement_undoes_increment()
    ensures { (bytes : List ℕ) → All (λ b. b < 256) bytes →
        decremented (incremented bytes) ≡ bytes }
{}

fn hash_magic(endpoint: EndpointType) -> [u8; 38]
    ensures { result ≡ magic endpoint }
{
    match endpoint {
        EndpointType::Client => CLIENT_SERVER_HASH_MAGIC,
        EndpointType::Server => SERVER_CLIENT_HASH_MAGIC,
    }
}

/// The text that `endpoint` seals as its proof of the channel's key, for the version that its peer
/// speaks (MS-CSSP 3.1.5): from version 5 on the hash of its magic, the client's nonce and the key;
/// below 5 the key from the client, and the key plus one from the server.
#[tactic(auto, unfolding(crate::specs::Exchange::prescribed))]
pub(crate) fn prescribed_proof(
    alloc: Global,
    endpoint: EndpointType,
    peer_version: u32,
    nonce: &[u8],
    public_key: &[u8],
) -> Result<Bytes, AllocError>
    ensures { IfOk result (λ proof. proof ≡ prescribed endpoint peer_version nonce.now
        public_key.now) }
{
    if peer_version < FIRST_HASHED_VERSION {
        return echo_of(alloc, endpoint, public_key);
    }
    Bytes::from_slice(alloc, &hash_of(endpoint, nonce, public_key))
}

/// Whether this text is the one that `endpoint` seals as its proof. Allocates nothing, so a wrong
/// proof is reported even when out of memory. The text may be overwritten.
#[tactic(auto, unfolding(crate::specs::Exchange::prescribed))]
pub(crate) fn is_prescribed(
    text: &mut [u8],
    endpoint: EndpointType,
    peer_version: u32,
    nonce: &[u8],
    public_key: &[u8],
) -> bool
    ensures same { IsTrue result → text.old ≡ prescribed endpoint peer_version nonce.now
        public_key.now }
    ensures other { result ≡ false → text.old ≢ prescribed endpoint peer_version nonce.now
        public_key.now }
{
    if peer_version < FIRST_HASHED_VERSION {
        return is_echo(text, endpoint, public_key);
    }
    same_bytes(text, &hash_of(endpoint, nonce, public_key))
}

fn hash_of(endpoint: EndpointType, nonce: &[u8], public_key: &[u8]) -> [u8; 32]
    ensures { result ≡ sha256 (magic endpoint ++ nonce.now ++ public_key.now) }
{
    let mut hasher = Sha256::new();
    hasher.update(&hash_magic(endpoint));
    hasher.update(nonce);
    hasher.update(public_key);
    hasher.finalize()
}

fn is_echo(text: &mut [u8], endpoint: EndpointType, public_key: &[u8]) -> bool
    ensures same { IsTrue result → text.old ≡ echo endpoint public_key.now }
    ensures other { result ≡ false → text.old ≢ echo endpoint public_key.now }
{
    match endpoint {
        EndpointType::Client => same_bytes(text, public_key),
        EndpointType::Server => is_next(text, public_key),
    }
}

// Whether the first number is the second plus one; subtracts one from the first to compare them.
fn is_next(next: &mut [u8], number: &[u8]) -> bool
    ensures same { IsTrue result → next.old ≡ incremented number.now }
    ensures other { result ≡ false → next.old ≢ incremented number.now }
{
    integer_decrement_le(next);
    same_bytes(next, number)
}

fn same_bytes(a: &[u8], b: &[u8]) -> bool
    ensures same { IsTrue result → a.now ≡ b.now }
    ensures other { result ≡ false → a.now ≢ b.now }
{
    a == b
}

fn echo_of(alloc: Global, endpoint: EndpointType, public_key: &[u8]) -> Result<Bytes, AllocError>
    ensures { IfOk result (λ proof. proof ≡ echo endpoint public_key.now) }
{
    let mut key = Vec::from_slice(alloc, public_key)?;
    if endpoint == EndpointType::Server {
        integer_increment_le(&mut key);
    }
    Ok(Bytes::from_vec(key))
}
