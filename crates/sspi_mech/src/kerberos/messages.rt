//! The messages of plain Kerberos.

ghost use Rattle.std.specs.Prelude.{◌≡◌, ◌<◌, ◌^◌, length, option_map, option_copied, IfOk};
ghost use Rattle.sspi_mech.specs.KerberosMessages.{reply_proof, ticket_reply, ap_request, ap_reply};
ghost use Rattle.sspi_mech.specs.KerberosMessages.{is_ticket_request, read_ticket};
ghost use Rattle.sspi_mech.specs.KerberosMessages.{read_ap_request, read_ap_reply, as_request};
ghost use Rattle.sspi_mech.specs.KerberosMessages.{tgs_request};

use crate::named::{lettered, named_message, read_block, read_named};
use sha2::{Digest, Sha256};
use std::alloc::{AllocError, Global};

/// The message with which a client asks for the ticket of a server.
pub const TICKET_REQUEST: &[u8; 2] = b"K1";

const TICKET_REPLY_LETTERS: &[u8; 2] = b"K2";

const AP_REQUEST_LETTERS: &[u8; 2] = b"K3";

const AP_REPLY_LETTERS: &[u8; 2] = b"K4";

/// The letters with which a client's request for a first key begins.
pub const AS_REQUEST_LETTERS: &[u8; 2] = b"KA";

/// The letters with which the reply that has a first key begins.
pub const AS_REPLY_LETTERS: &[u8; 2] = b"KB";

/// The letters with which a client's request for a session key begins.
pub const TGS_REQUEST_LETTERS: &[u8; 2] = b"KT";

/// The letters with which the reply that has a session key begins.
pub const TGS_REPLY_LETTERS: &[u8; 2] = b"KS";

/// The letters with which a KDC's error begins.
pub const ERROR_LETTERS: &[u8; 2] = b"KE";

const KEY_LENGTH: usize = 32;

/// What shows that a server has the session key.
#[tactic(auto, unfolding(crate::specs::KerberosMessages::reply_proof))]
pub fn reply_proof(key: &[u8; 32]) -> [u8; 32]
    ensures { result ≡ reply_proof key.now }
{
    let mut hasher = Sha256::new();
    hasher.update(b"plain kerberos reply\0".as_slice());
    hasher.update(key.as_slice());
    hasher.finalize()
}

/// The message with which a server sends its ticket.
pub fn ticket_reply(alloc: Global, ticket: &[u8; 32]) -> Result<Vec<u8>, AllocError>
    ensures { IfOk result (λ message. message.items ≡ ticket_reply ticket.now) }
{
    lettered(alloc, TICKET_REPLY_LETTERS, ticket)
}

/// The message with which a client sends its name, with the length before it, and the session key.
pub fn ap_request(alloc: Global, name: &str, key: &[u8; 32]) -> Result<Vec<u8>, AllocError>
    requires { length name.now < 2 ^ 16 }
    ensures { IfOk result (λ message. message.items ≡ ap_request name.now key.now) }
{
    named_message(alloc, AP_REQUEST_LETTERS, name, key)
}

/// The message with which a server shows that it has the session key.
pub fn ap_reply(alloc: Global, key: &[u8; 32]) -> Result<Vec<u8>, AllocError>
    ensures { IfOk result (λ message. message.items ≡ ap_reply key.now) }
{
    lettered(alloc, AP_REPLY_LETTERS, &reply_proof(key))
}

/// The request to a KDC for a first key.
pub fn as_request(alloc: Global, name: &str) -> Result<Vec<u8>, AllocError>
    ensures { IfOk result (λ request. request.items ≡ as_request name.now) }
{
    lettered(alloc, AS_REQUEST_LETTERS, name.as_bytes())
}

/// The request to a KDC for a session key, by the first key and a ticket.
pub fn tgs_request(alloc: Global, key: &[u8; 32], ticket: &[u8; 32]) -> Result<Vec<u8>, AllocError>
    ensures { IfOk result (λ request. request.items ≡ tgs_request key.now ticket.now) }
{
    let mut request = Vec::with_capacity(alloc, TGS_REQUEST_LETTERS.len() + 2 * KEY_LENGTH)?;
    request.extend_from_slice(TGS_REQUEST_LETTERS)?;
    request.extend_from_slice(key)?;
    request.extend_from_slice(ticket)?;
    Ok(request)
}

/// Whether a client asks for a ticket.
pub fn is_ticket_request(message: &[u8]) -> bool
    ensures { result ≡ is_ticket_request message.now }
{
    message == TICKET_REQUEST.as_slice()
}

/// The ticket of a server's message.
pub fn read_ticket(message: &[u8]) -> Option<&[u8; 32]>
    ensures { option_copied result ≡ read_ticket message.now }
{
    read_block(TICKET_REPLY_LETTERS, message)
}

/// The name and the session key of a client's message.
pub fn read_ap_request(message: &[u8]) -> Option<(&[u8], &[u8; 32])>
    ensures { option_map (λ read. record { name = read.0.now; body = read.1.now })
        result ≡ read_ap_request message.now }
{
    read_named(AP_REQUEST_LETTERS, message)
}

/// What a server shows in its last message.
pub fn read_ap_reply(message: &[u8]) -> Option<&[u8; 32]>
    ensures { option_copied result ≡ read_ap_reply message.now }
{
    read_block(AP_REPLY_LETTERS, message)
}
