//! The current message: how a step's words change it, and how a check's words describe it.

use crate::tests::credssp::words::{Test, code, field, nonce, number, octets};
use sspi_tsreq::TsRequest;
use sspi_types::Bytes;

fn read(rt: &impl Test, name: &str) -> TsRequest {
    match TsRequest::from_buffer(rt.alloc(), &octets(rt, name)) {
        Ok(request) => request,
        Err(_) => rt.abort(),
    }
}

/// Changes the current message as each of these words says.
pub fn compose(rt: &impl Test, message: &mut TsRequest, words: &str) {
    for word in words.split_whitespace() {
        match word.split_once('=') {
            None => take(rt, message, word),
            Some((name, value)) => set(rt, message, name, value),
        }
    }
}

fn take(rt: &impl Test, message: &mut TsRequest, word: &str) {
    match word {
        "relayed" => {}
        "new" => *message = TsRequest::default(),
        _ => *message = read(rt, word),
    }
}

fn set(rt: &impl Test, message: &mut TsRequest, name: &str, value: &str) {
    match name {
        "version" => message.version = number(rt, value),
        "token" => message.nego_tokens = field(rt, value),
        "auth" => message.auth_info = field(rt, value),
        "proof" => message.pub_key_auth = field(rt, value),
        "code" => message.error_code = code(rt, value),
        "nonce" => message.client_nonce = nonce(rt, value),
        _ => rt.abort(),
    }
}

/// The text after the tag of a sealed blob.
fn text_of(field: &Option<Bytes>) -> &[u8] {
    match field {
        Some(blob) if blob.len() >= 16 => &blob.as_slice()[16..],
        _ => &[],
    }
}

fn is_octets(rt: &impl Test, bytes: &[u8], word: &str) -> bool {
    octets(rt, word).as_slice() == bytes
}

fn is_field(rt: &impl Test, found: &Option<Bytes>, word: &str) -> bool {
    match found {
        None => word == "none",
        Some(bytes) => word == "some" || is_octets(rt, bytes.as_slice(), word),
    }
}

fn has_length(request: &TsRequest, length: usize) -> bool {
    match request.buffer_len() {
        Ok(found) => found as usize == length,
        Err(_) => false,
    }
}

fn is_spelled(rt: &impl Test, request: &TsRequest, word: &str) -> bool {
    read(rt, word) == *request && has_length(request, octets(rt, word).len())
}

/// Whether the message has this value under this name.
pub fn has(rt: &impl Test, message: &TsRequest, name: &str, value: &str) -> bool {
    match name {
        "version" => message.version == number(rt, value),
        "token" => is_field(rt, &message.nego_tokens, value),
        "auth" => is_field(rt, &message.auth_info, value),
        "auth-text" => is_octets(rt, text_of(&message.auth_info), value),
        "auth-length" => text_of(&message.auth_info).len() == number(rt, value) as usize,
        "proof" => is_field(rt, &message.pub_key_auth, value),
        "proof-text" => is_octets(rt, text_of(&message.pub_key_auth), value),
        "code" => message.error_code == code(rt, value),
        "nonce" => message.client_nonce == nonce(rt, value),
        "length" => has_length(message, number(rt, value) as usize),
        "spelled" => is_spelled(rt, message, value),
        _ => rt.abort(),
    }
}
