//! The line with the outcome of an end over a channel.

ghost use Rattle.std.specs.Prelude.{◌≡◌, ◌<◌, ◌++◌, IfOk, OnOk};
ghost use Rattle.sspi_channel.specs.Texts;
ghost use Rattle.sspi_channel.specs.Texts.{digit, early_part, early_text, error_text, head};
ghost use Rattle.sspi_channel.specs.Texts.{scenario_text, shown, shown_octet};
ghost use Rattle.sspi_report.specs.Names.{fault_name};

use crate::answer::{ChannelError, Connected, Served};
use sspi_ber::WireKind;
use sspi_report::report;
use sspi_tsreq::EarlyUserAuthResult;
use std::alloc::{AllocError, Global};

/// The line with the outcome of a server, ended by LF. It has the name of the user and no password.
/// The name is the client's, so a control character in it is shown by its number, and no name makes
/// a line of its own. Fails only when out of memory.
pub fn serve_line(
    alloc: Global,
    answer: &Result<Served, ChannelError>,
) -> Result<Vec<u8>, AllocError>
    ensures { IfOk result (λ text. text.items ≡ Texts.serve_line answer.now) }
{
    let served = match answer {
        Ok(served) => served,
        Err(error) => return error_text(alloc, *error),
    };
    let mut text = head(alloc, served.delegation.rounds)?;
    push_shown(
        &mut text,
        served.delegation.credentials.username.inner().as_bytes(),
    )?;
    text.extend_from_slice(early_part(served.told).as_bytes())?;
    text.push(b'\n')?;
    Ok(text)
}

/// How many messages of the client the server took, and what precedes the name.
fn head(alloc: Global, rounds: u32) -> Result<Vec<u8>, AllocError>
    ensures { IfOk result (λ text. text.items ≡ head rounds) }
{
    let text = format!(in alloc; "ok {rounds} user=")?;
    Ok(text.into_bytes())
}

/// The line with the outcome of a client, ended by LF. Fails only when out of memory.
pub fn connect_line(
    alloc: Global,
    answer: &Result<Connected, ChannelError>,
) -> Result<Vec<u8>, AllocError>
    ensures { IfOk result (λ text. text.items ≡ Texts.connect_line answer.now) }
{
    let connected = match answer {
        Ok(connected) => connected,
        Err(error) => return error_text(alloc, *error),
    };
    let rounds = connected.rounds;
    let early = early_part(connected.heard);
    let text = format!(in alloc; "ok {rounds}{early}\n")?;
    Ok(text.into_bytes())
}

fn early_part(early: Option<EarlyUserAuthResult>) -> &'static str
    ensures { result.now ≡ early_part early }
{
    match early {
        None => "",
        Some(EarlyUserAuthResult::Success) => " early=success",
        Some(EarlyUserAuthResult::AccessDenied) => " early=denied",
    }
}

/// The line of this error, ended by LF. Fails only when out of memory.
pub(crate) fn error_text(alloc: Global, error: ChannelError) -> Result<Vec<u8>, AllocError>
    ensures { IfOk result (λ text. text.items ≡ error_text error) }
{
    match error {
        ChannelError::Scenario(line) => scenario_text(alloc, line),
        ChannelError::Delegate(error) => report(alloc, &[], &Err(error)),
        ChannelError::Early(kind) => early_text(alloc, wire_name(kind)),
        ChannelError::ReadFault => Vec::from_slice(alloc, b"error: read\n"),
        ChannelError::WriteFault => Vec::from_slice(alloc, b"error: write\n"),
        ChannelError::InsufficientMemory => Vec::from_slice(alloc, b"error: memory\n"),
    }
}

fn scenario_text(alloc: Global, line: usize) -> Result<Vec<u8>, AllocError>
    ensures { IfOk result (λ text. text.items ≡ scenario_text line) }
{
    let text = format!(in alloc; "error: scenario line {line}\n")?;
    Ok(text.into_bytes())
}

fn early_text(alloc: Global, kind: &str) -> Result<Vec<u8>, AllocError>
    ensures { IfOk result (λ text. text.items ≡ early_text kind.now) }
{
    let text = format!(in alloc; "early read {kind}\n")?;
    Ok(text.into_bytes())
}

fn wire_name(kind: WireKind) -> &'static str
    ensures { result.now ≡ fault_name kind }
{
    match kind {
        WireKind::UnexpectedEof => "UnexpectedEof",
        WireKind::InvalidData => "InvalidData",
        WireKind::ReadFault => "ReadFault",
        WireKind::WriteFault => "WriteFault",
        WireKind::InsufficientMemory => "InsufficientMemory",
    }
}

/// Appends a text, with each control character of ASCII written as `\x` and its two hex digits.
fn push_shown(made: &mut Vec<u8>, text: &[u8]) -> Result<(), AllocError>
    ensures { OnOk result (made.new.items ≡ made.old.items ++ shown text.now) }
{
    for octet in text {
        push_octet(made, *octet)?;
    }
    Ok(())
}

fn push_octet(made: &mut Vec<u8>, octet: u8) -> Result<(), AllocError>
    ensures { OnOk result (made.new.items ≡ made.old.items ++ shown_octet octet) }
{
    if octet < 0x20 || octet == 0x7f {
        made.extend_from_slice(&[b'\\', b'x', digit(octet / 16), digit(octet % 16)])?;
    } else {
        made.push(octet)?;
    }
    Ok(())
}

/// A hex digit in lower case.
fn digit(value: u8) -> u8
    requires { value < 16 }
    ensures { result ≡ digit value }
{
    if value < 10 {
        b'0' + value
    } else {
        b'a' + (value - 10)
    }
}
