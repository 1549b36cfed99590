//! What both ends share: adopting a context with its credentials, and forgetting the last call.

ghost use Rattle.std.specs.Prelude.{◌≡◌, ◌≢◌, [], OnOk, OnErr, IfErr};
ghost use Rattle.std.specs.Option.{option_copied};
ghost use Rattle.sspi_mech.specs.Calls.{ToAcquire};
ghost use Rattle.sspi_mech.specs.Calls.{IsUnused};
ghost use Rattle.sspi_credssp.specs.Acts.{no_acts};
ghost use Rattle.sspi_credssp.specs.Context.{IfContext, either};
ghost use Rattle.sspi_credssp.specs.Unused.{IsUnusedIn};

use crate::acts::Acts;
use crate::context::SspiContext;
use sspi_mech::{Mechanism, Refusal};
use sspi_names::{Credentials, CredentialsBuffers};
use sspi_types::{Bytes, CredentialUse, ErrorKind};
use std::alloc::Global;

// Has a new context acquire credentials, and keeps both, or neither.
pub fn adopt<N: Mechanism, K: Mechanism>(
    context: SspiContext<N, K>,
    purpose: CredentialUse,
    credentials: Option<&Credentials>,
    place: &mut Option<SspiContext<N, K>>,
    handle: &mut Option<CredentialsBuffers>,
) -> Result<(), Refusal>
    // What `Ok` holds, and that nothing was used.
    ensures acquired { let c = either N.REQUESTS N.meaning K.meaning in OnOk result
        (IfContext place.new
        (c.acquires context purpose (option_copied credentials.entry) handle.new)) }
    ensures unused { let c = either N.REQUESTS N.meaning K.meaning in IsUnused (c.counts context) →
        OnOk result (IsUnusedIn c place.new) }
    // What a refusal says, and what it leaves.
    ensures err { OnErr result ((place.new ≡ place.old) × (handle.new ≡ handle.old)) }
    ensures cause { IfErr result (λ error. error.error_type ≢ ErrorKind.InsufficientMemory →
        (either N.REQUESTS N.meaning K.meaning).refuses context
        (ToAcquire purpose (option_copied credentials.entry)) error.error_type) }
{
    let mut context = context;
    let acquired = context.acquire_credentials_handle(purpose, credentials)?;
    *handle = acquired;
    *place = Some(context);
    Ok(())
}

// Forgets what the last call did and returned.
pub fn forget(alloc: Global, acts: &mut Acts, output: &mut Bytes)
    ensures acts { acts.new ≡ no_acts }
    ensures output { output.new ≡ [] }
{
    *acts = Acts::none();
    *output = Bytes::new(alloc);
}
