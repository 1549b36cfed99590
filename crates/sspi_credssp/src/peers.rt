//! Which identities a negotiating server passes to its context.

ghost use Rattle.std.specs.Prelude.{◌≡◌, ◌≢◌, ◌≤◌, IfOk, IfErr, OnOk};
ghost use Rattle.sspi_credssp.specs.Proxy.{list_calls, IsTold, IsAsked, HasAsked};
ghost use Rattle.sspi_credssp.specs.ServerStage.{IsListed};
ghost use Rattle.sspi_types.specs.Counting.{counted_on};
ghost use Rattle.sspi_credssp.specs.ServerCause.{ListRefused};

use crate::mode::ServerMode;
use crate::proxy::{CredentialsProxy, ProxyError};
use sspi_mech::Refusal;
use sspi_names::AuthIdentity;
use sspi_types::{ErrorKind, Reason};
use std::alloc::Global;

/// All identities of the proxy if a negotiation is made with them; otherwise none, and the proxy is
/// not asked.
pub(crate) fn list_peers<C: CredentialsProxy>(
    alloc: Global,
    mode: &ServerMode,
    proxy: &mut C,
) -> Result<Vec<AuthIdentity>, Refusal>
    // What `Ok` holds, and what the proxy was asked.
    ensures listed { IfOk result (λ known. IsListed mode.now (C.meaning.told proxy.old).entries
        known.items) }
    ensures proxy { IsAsked C.meaning (list_calls mode.now) proxy.old proxy.new }
    ensures asked { OnOk result (HasAsked C.meaning (list_calls mode.now) proxy.old proxy.new) }
    // What a refusal says.
    ensures cause { IfErr result (λ error. error.error_type ≢ ErrorKind.InsufficientMemory →
        ListRefused mode.now (C.meaning.faults proxy.old) (C.meaning.faults proxy.new)
        error.error_type) }
{
    match mode {
        ServerMode::Negotiate(_) => list_all(proxy),
        ServerMode::Ntlm(_) => Ok(Vec::new(alloc)),
    }
}

fn list_all<C: CredentialsProxy>(proxy: &mut C) -> Result<Vec<AuthIdentity>, Refusal>
    // What `Ok` holds, and what the proxy was asked.
    ensures listed { IfOk result (λ known. IsTold (C.meaning.told proxy.old).entries known.items) }
    ensures proxy { IsAsked C.meaning 1 proxy.old proxy.new }
    ensures asked { OnOk result (HasAsked C.meaning 1 proxy.old proxy.new) }
    // What a refusal says.
    ensures risen { IfErr result (λ error. error.error_type ≢ ErrorKind.InsufficientMemory →
        counted_on (C.meaning.faults proxy.old) ≤ C.meaning.faults proxy.new) }
    ensures kind { IfErr result (λ error. error.error_type ≢ ErrorKind.InsufficientMemory →
        error.error_type ≡ ErrorKind.InternalError) }
{
    match proxy.auth_data() {
        Ok(known) => Ok(known),
        Err(ProxyError::InsufficientMemory) => {
            Err(Refusal::new(ErrorKind::InsufficientMemory, Reason::Memory))
        }
        Err(ProxyError::NotFound | ProxyError::Failed) => {
            Err(Refusal::new(ErrorKind::InternalError, Reason::Proxy))
        }
    }
}
