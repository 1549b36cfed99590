//! The messages of plain NTLM.

ghost use Rattle.std.specs.Prelude.{◌≡◌, ◌<◌, ◌^◌, ◌++◌, length, option_map, option_copied, IfOk};
ghost use Rattle.sspi_mech.specs.NtlmMessages.{proof_of, key_of, challenge_message};
ghost use Rattle.sspi_mech.specs.NtlmMessages.{authenticate_message, is_negotiate};
ghost use Rattle.sspi_mech.specs.NtlmMessages.{read_challenge, read_authenticate};
ghost use Rattle.sha2.specs.Sha256.{sha256};

use crate::named::{named_message, read_named};
use sha2::{Digest, Sha256};
use std::alloc::{AllocError, Global};

/// The message with which a client begins.
pub const NEGOTIATE: &[u8; 2] = b"N1";

const CHALLENGE_LETTERS: &[u8; 2] = b"N2";

const AUTHENTICATE_LETTERS: &[u8; 2] = b"N3";

const CHALLENGE_LENGTH: usize = 8;

/// The hash of four texts, joined in this order.
fn hash(label: &[u8], challenge: &[u8], name: &[u8], password: &[u8]) -> [u8; 32]
    ensures { result ≡ sha256 (label.now ++ challenge.now ++ name.now ++ password.now) }
{
    let mut hasher = Sha256::new();
    hasher.update(label);
    hasher.update(challenge);
    hasher.update(name);
    hasher.update(password);
    hasher.finalize()
}

/// What shows that a client knows the password.
#[tactic(auto, unfolding(crate::specs::NtlmMessages::proof_of))]
pub fn proof_of(challenge: &[u8; 8], name: &[u8], password: &[u8]) -> [u8; 32]
    ensures { result ≡ proof_of challenge.now name.now password.now }
{
    hash(b"plain ntlm proof\0", challenge.as_slice(), name, password)
}

/// The key that both ends make of a password.
#[tactic(auto, unfolding(crate::specs::NtlmMessages::key_of))]
pub fn key_of(challenge: &[u8; 8], name: &[u8], password: &[u8]) -> [u8; 32]
    ensures { result ≡ key_of challenge.now name.now password.now }
{
    hash(b"plain ntlm key\0", challenge.as_slice(), name, password)
}

/// The message with which a server answers.
pub fn challenge_message(alloc: Global, challenge: &[u8; 8]) -> Result<Vec<u8>, AllocError>
    ensures { IfOk result (λ message. message.items ≡ challenge_message challenge.now) }
{
    let mut message = Vec::with_capacity(alloc, CHALLENGE_LETTERS.len() + CHALLENGE_LENGTH)?;
    message.extend_from_slice(CHALLENGE_LETTERS)?;
    message.extend_from_slice(challenge)?;
    Ok(message)
}

/// The message with which a client ends: its name, with the length before it, and the proof.
pub fn authenticate_message(
    alloc: Global,
    name: &str,
    proof: &[u8; 32],
) -> Result<Vec<u8>, AllocError>
    requires { length name.now < 2 ^ 16 }
    ensures { IfOk result (λ message. message.items ≡ authenticate_message name.now proof.now) }
{
    named_message(alloc, AUTHENTICATE_LETTERS, name, proof)
}

/// Whether this is the message with which a client begins.
pub fn is_negotiate(message: &[u8]) -> bool
    ensures { result ≡ is_negotiate message.now }
{
    message == NEGOTIATE.as_slice()
}

/// The challenge of a server's message.
pub fn read_challenge(message: &[u8]) -> Option<&[u8; 8]>
    ensures { option_copied result ≡ read_challenge message.now }
{
    message.strip_prefix(CHALLENGE_LETTERS)?.as_array()
}

/// The name and the proof of a client's last message.
pub fn read_authenticate(message: &[u8]) -> Option<(&[u8], &[u8; 32])>
    ensures { option_map (λ read. record { name = read.0.now; body = read.1.now })
        result ≡ read_authenticate message.now }
{
    read_named(AUTHENTICATE_LETTERS, message)
}
