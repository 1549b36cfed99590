//! Calls described by lines of text, such as `client seal tokn:,data:41 -> tokn:00,data:41`,
//! `server ask name -> DOM\ann` or `server do complete -> Ok`.
//!
//! A buffer is its type, `!` if it may only be read or `?` if a checksum covers it too, `:` and its
//! bytes: hex, or `text` for those of `Devolutions/sspi-rs`, joined by `+`. After the arrow come
//! the buffers afterwards, `same` if they are unchanged, or the text of a refusal, after which they
//! must be as before. The line `authenticate` has both ends authenticate, and `negotiation` tries
//! the calls of the negotiations that they have selected.

use crate::tests::messages::ends::{Context, Ends, Test, authenticate, given, holds};
use crate::tests::messages::negotiation::negotiated;
use crate::tests::messages::queries::{act, ask};
use bitflags::Flags;
use sspi_types::{
    BufferType, Bytes, EncryptionFlags, Error, SecurityBuffer, SecurityBufferFlags,
    SecurityBufferType, SecurityStatus,
};
use std::process::Abort;

fn flags(name: &str) -> (&str, SecurityBufferFlags) {
    if let Some(name) = name.strip_suffix("!") {
        return (name, SecurityBufferFlags::SECBUFFER_READONLY);
    }
    match name.strip_suffix("?") {
        Some(name) => (name, SecurityBufferFlags::SECBUFFER_READONLY_WITH_CHECKSUM),
        None => (name, SecurityBufferFlags::NONE),
    }
}

fn kind(rt: &impl Abort, name: &str) -> SecurityBufferType {
    let (name, buffer_flags) = flags(name);
    let buffer_type = match name {
        "data" => BufferType::Data,
        "tokn" => BufferType::Token,
        "strm" => BufferType::Stream,
        "padd" => BufferType::Padding,
        _ => rt.abort(),
    };
    SecurityBufferType {
        buffer_type,
        buffer_flags,
    }
}

fn octets(rt: &impl Test, digits: &str) -> Vec<u8> {
    let mut octets = Vec::new(rt.alloc());
    for piece in digits.split('+') {
        if piece == "text" {
            given(rt, octets.extend_from_slice(b"Devolutions/sspi-rs"));
        } else {
            let decoded = given(rt, hex::decode(rt.alloc(), piece));
            given(rt, octets.extend_from_slice(&decoded));
        }
    }
    octets
}

fn buffer(rt: &impl Test, text: &str) -> SecurityBuffer {
    match text.split_once(':') {
        Some((name, digits)) => SecurityBuffer {
            buffer: Bytes::from_vec(octets(rt, digits)),
            buffer_type: kind(rt, name),
        },
        None => rt.abort(),
    }
}

/// The buffers of a text; `-` has none.
pub fn message(rt: &impl Test, text: &str) -> Vec<SecurityBuffer> {
    let mut buffers = Vec::new(rt.alloc());
    if text == "-" {
        return buffers;
    }
    for part in text.split(',') {
        given(rt, buffers.push(buffer(rt, part)));
    }
    buffers
}

/// Whether a refusal, which has no NTSTATUS code, shows as this text.
pub fn shows(error: &Error, text: &str) -> bool {
    match text.split_once(": ") {
        Some((kind, reason)) => {
            error.error_type.name() == kind
                && error.description.text() == reason
                && error.nstatus.is_none()
        }
        None => false,
    }
}

/// A call, by its word, and whether its answer is the only possible one. Flags and numbers are
/// ignored.
fn calls(end: &mut Context, call: &str, message: &mut [SecurityBuffer]) -> Result<bool, Error> {
    match call {
        "seal" => {
            let status = end.encrypt_message(EncryptionFlags::WRAP_NO_ENCRYPT, message)?;
            Ok(status == SecurityStatus::Ok)
        }
        "open" => Ok(end.decrypt_message(message)?.bits() == 0),
        "sign" => {
            end.make_signature(1, message, 7)?;
            Ok(true)
        }
        "verify" => Ok(end.verify_signature(message, 9)? == 0),
        _ => Ok(false),
    }
}

fn protects(rt: &impl Test, end: &mut Context, call: &str, before: &str, after: &str) {
    let mut buffers = message(rt, before);
    match calls(end, call, &mut buffers) {
        Err(error) => {
            holds(rt, shows(&error, after), before);
            holds(rt, buffers == message(rt, before), before);
        }
        Ok(answered) => {
            let after = if after == "same" { before } else { after };
            holds(rt, answered, before);
            holds(rt, buffers == message(rt, after), before);
        }
    }
}

fn comes(rt: &impl Test, end: &mut Context, told: &str, after: &str) {
    match told.split_once(' ') {
        Some(("ask", what)) => ask(rt, end, what, after),
        Some(("do", what)) => act(rt, end, what, after),
        Some((call, before)) => protects(rt, end, call, before, after),
        None => holds(rt, false, told),
    }
}

fn goes(rt: &impl Test, ends: &mut Ends, line: &str) {
    let Some((told, after)) = line.split_once(" -> ") else {
        return holds(rt, false, line);
    };
    match told.split_once(' ') {
        Some(("client", told)) => comes(rt, &mut ends.client, told, after),
        Some(("server", told)) => comes(rt, &mut ends.server, told, after),
        Some((_, _)) | None => holds(rt, false, told),
    }
}

/// Checks each line of the script.
pub fn go(rt: &impl Test, ends: &mut Ends, script: &str) {
    for line in script.lines() {
        match line {
            "" => {}
            "authenticate" => authenticate(rt, ends),
            "negotiation" => negotiated(rt, ends),
            line => goes(rt, ends, line),
        }
    }
}
