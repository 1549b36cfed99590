//! Tests that both ends make at each step.

ghost use Rattle.std.specs.Prelude.{◌≡◌, IfOk, option_copied};
ghost use Rattle.sspi_negotiate.specs.Client.{is_guest, is_ok, has_begun, passwords, handle_for};
ghost use Rattle.sspi_negotiate.specs.Rows.{client_wants_mic, server_wants_mic, is_over};
ghost use Rattle.sspi_negotiate.specs.Rows.{is_complete, is_guest_text, if_some};

use crate::protocol::Protocol;
use bitflags::Flags;
use sspi_names::CredentialsBuffers;
use sspi_tokens::NegResult;
use sspi_types::{Bytes, ClientRequestFlags, SecurityStatus, ServerRequestFlags};
use std::alloc::{AllocError, Global};

pub(crate) fn client_wants_mic(flags: ClientRequestFlags) -> bool
    ensures { result ≡ client_wants_mic flags }
{
    flags.contains(ClientRequestFlags::USE_SESSION_KEY)
        || flags.contains(ClientRequestFlags::USE_DCE_STYLE)
}

pub(crate) fn server_wants_mic(flags: ServerRequestFlags) -> bool
    ensures { result ≡ server_wants_mic flags }
{
    flags.contains(ServerRequestFlags::USE_DCE_STYLE)
}

pub(crate) fn is_over(status: SecurityStatus) -> bool
    ensures { result ≡ is_over status }
{
    matches!(status, SecurityStatus::Ok | SecurityStatus::CompleteNeeded)
}

pub(crate) fn is_ok(status: SecurityStatus) -> bool
    ensures { result ≡ is_ok status }
{
    matches!(status, SecurityStatus::Ok)
}

pub(crate) fn has_begun(status: SecurityStatus) -> bool
    ensures { result ≡ has_begun status }
{
    matches!(status, SecurityStatus::Ok | SecurityStatus::ContinueNeeded)
}

pub(crate) fn is_complete(result_field: Option<NegResult>) -> bool
    ensures { result ≡ is_complete result_field }
{
    matches!(result_field, Some(NegResult::AcceptComplete))
}

pub(crate) fn is_guest_text(text: &str) -> bool
    ensures { result ≡ is_guest_text text.now }
{
    text.eq_ignore_ascii_case("/GUEST")
}

pub(crate) fn is_guest(
    alloc: Global,
    handle: Option<&CredentialsBuffers>,
) -> Result<bool, AllocError>
    ensures { IfOk result (λ guest. guest ≡ is_guest (option_copied handle.entry)) }
{
    match handle {
        None => Ok(false),
        Some(CredentialsBuffers::Keytab(_)) => Ok(false),
        Some(CredentialsBuffers::AuthIdentity(buffers)) => {
            let user = buffers.user.to_string(alloc)?;
            Ok(is_guest_text(user.as_str()))
        }
    }
}

/// A token, unless it is empty.
pub(crate) fn if_some(token: Bytes) -> Option<Bytes>
    ensures { result ≡ if_some token }
{
    if token.is_empty() { None } else { Some(token) }
}

pub(crate) fn passwords(kept: Option<&CredentialsBuffers>) -> Option<&CredentialsBuffers>
    ensures { option_copied result ≡ passwords (option_copied kept.entry) }
{
    match kept {
        None => None,
        Some(CredentialsBuffers::Keytab(_)) => None,
        Some(CredentialsBuffers::AuthIdentity(_)) => kept,
    }
}

/// The credentials that the selected mechanism steps with.
pub(crate) fn handle_for<'a>(
    protocol: Protocol,
    kept: Option<&'a CredentialsBuffers>,
    handle: Option<&'a CredentialsBuffers>,
) -> Option<&'a CredentialsBuffers>
    ensures { option_copied result ≡ handle_for protocol (option_copied kept.entry)
        (option_copied handle.entry) }
{
    match protocol {
        Protocol::Ntlm => passwords(kept),
        Protocol::Kerberos => handle,
    }
}
