//! Shows a decoded TSRequest in hex, so that other readers can be compared with this one.

use anyhow::Result;
use sspi_ber::{VecSink, WireKind};
use sspi_tsreq::TsRequest;
use sspi_types::Bytes;

/// The octets in hex after `=`, or `-` if there are none.
fn shown(rt: &HostRuntime, octets: Option<&[u8]>) -> Result<()> {
    match octets {
        None => print!(rt; " -")?,
        Some(octets) => {
            let digits = hex::encode(rt.alloc(), octets)?;
            print!(rt; " ={}", digits.as_str())?;
        }
    }
    Ok(())
}

fn octets_of(field: &Option<Bytes>) -> Option<&[u8]> {
    match field {
        None => None,
        Some(bytes) => Some(bytes.as_slice()),
    }
}

fn show_code(rt: &HostRuntime, request: &TsRequest) -> Result<()> {
    match request.error_code {
        None => print!(rt; " -")?,
        Some(code) => print!(rt; " {}", code.0)?,
    }
    Ok(())
}

/// The request written again, or `-` if it cannot be encoded.
fn show_written(rt: &HostRuntime, request: &TsRequest) -> Result<()> {
    let mut sink = VecSink::new(rt.alloc());
    match request.encode_ts_request(&mut sink) {
        Ok(()) => shown(rt, Some(sink.written())),
        Err(_) => shown(rt, None),
    }
}

fn show_request(rt: &HostRuntime, request: &TsRequest) -> Result<()> {
    print!(rt; "{}", request.version)?;
    shown(rt, octets_of(&request.nego_tokens))?;
    shown(rt, octets_of(&request.auth_info))?;
    shown(rt, octets_of(&request.pub_key_auth))?;
    show_code(rt, request)?;
    match &request.client_nonce {
        None => shown(rt, None)?,
        Some(nonce) => shown(rt, Some(nonce))?,
    }
    show_written(rt, request)
}

fn name_of(kind: WireKind) -> &'static str {
    match kind {
        WireKind::UnexpectedEof => "UnexpectedEof",
        WireKind::InvalidData => "InvalidData",
        WireKind::ReadFault => "ReadFault",
        WireKind::WriteFault => "WriteFault",
        WireKind::InsufficientMemory => "InsufficientMemory",
    }
}

/// One line for these bytes: version, `negoTokens`, `authInfo`, `pubKeyAuth`, code, nonce and the
/// shortest encoding of the request that they begin with, or the fault.
pub(crate) fn show(rt: &HostRuntime, bytes: &[u8]) -> Result<()> {
    match TsRequest::from_buffer(rt.alloc(), bytes) {
        Ok(request) => show_request(rt, &request)?,
        Err(kind) => print!(rt; "{}", name_of(kind))?,
    }
    println!(rt; "")?;
    Ok(())
}
