//! A delegation, and after it the early user authorization result.

ghost use Rattle.std.specs.Prelude.{◌≡◌, [], Err};
ghost use Rattle.sspi_completeness.specs.Matching.{AreMatching, IsCalm, NothingDisturbs};
ghost use Rattle.sspi_completeness.specs.Matching.{messages_in};
ghost use Rattle.sspi_credssp.specs.Exchange.{delegated_as};
ghost use Rattle.sspi_credssp.specs.Context.{either};
ghost use Rattle.sspi_delegate.specs.Headline.{around_by, parties};
ghost use Rattle.sspi_early.specs.Completes.{AnswersEarlyIn};
ghost use Rattle.sspi_early.specs.Authorizes.{link_at};
ghost use Rattle.sspi_early.specs.Early.{GoesOn, IsEarly};
ghost use Rattle.sspi_mech.specs.Kerberos.{kerberos_meaning};
ghost use Rattle.sspi_mech.specs.Ntlm.{ntlm_meaning};

use crate::answer::{Authorized, Early, EarlyError};
use crate::authorizing::authorize;
use crate::policy::Policy;
use sspi_completeness::delegate_plainly;
use sspi_credssp::{CredSspClient, CredSspServer, CredentialsProxy};
use sspi_delegate::{DelegateError, Delegation, Link, Transcript};
use sspi_mech::{Kdc, Kerberos, Ntlm};
use std::alloc::Global;

/// A delegation between two ends of the plain mechanisms. After it the server tells its client
/// whether the delegated user may log on (MS-CSSP 3.1.5; MS-RDPBCGR 2.2.10.2).
///
/// First comes `delegate`. If it is Ok, the policy is asked about the delegated identity, and its
/// decision goes over the link as in `authorize`. Refused:
///
/// - `Delegate`: what `delegate` refused. Neither the policy nor the link was asked further.
/// - `Policy`, `LinkFault`, `Read`: as in `authorize`, after a delegation that was Ok.
/// - `InsufficientMemory`: from either.
///
/// In every case the ends, the KDC and the transcript are as `delegate` left them, and the link's
/// log has at most one more entry. `early` holds of every call, and cites all that `delegate`
/// promises. `matched` is about matching ends that have made no call. Their link disturbs nothing,
/// during or after the delegation, and their proxy and policy do not fail. They come to Ok, and the
/// client hears what the server told; or, if `limit` is too low, the turns are spent. Memory may
/// run out instead.
pub fn delegate_early<C: CredentialsProxy, L: Link, D: Kdc, P: Policy>(
    alloc: Global,
    client: &mut CredSspClient<Ntlm, Kerberos>,
    server: &mut CredSspServer<Ntlm, Kerberos, C>,
    link: &mut L,
    kdc: &mut D,
    policy: &mut P,
    limit: u32,
    transcript: &mut Transcript,
) -> Result<Early, EarlyError>
    ensures early { IsEarly (either 0 ntlm_meaning kerberos_meaning)
        (around_by C.meaning L.log L.edits L.faults D.told D.asked D.faults) P.meaning
        (parties client.old server.old link.old kdc.old []) limit policy.old result
        (parties client.new server.new link.new kdc.new transcript.new.turns) policy.new }
    ensures matched { (matching : AreMatching C.meaning (D.told kdc.old) (D.asked kdc.old)
        client.old server.old) →
        NothingDisturbs (around_by C.meaning L.log L.edits L.faults D.told D.asked D.faults)
        (parties client.old server.old link.old kdc.old [])
        (parties client.new server.new link.new kdc.new transcript.new.turns) →
        IsCalm (P.meaning.faults policy.old) (P.meaning.faults policy.new) →
        AnswersEarlyIn (messages_in matching) limit
        (delegated_as client.old.settings.delegation matching.identity) result }
{
    let delegated = delegate_plainly(alloc, client, server, link, kdc, limit, transcript);
    tell_early(link, policy, delegated)
}

/// What follows a delegation with this result: the second half of `delegate_early`, for a caller
/// that does the first half itself and wants to keep its result. After a refused delegation nothing
/// follows, and the link and the policy stay as they are.
pub fn tell_early<L: Link, P: Policy>(
    link: &mut L,
    policy: &mut P,
    delegated: Result<Delegation, DelegateError>,
) -> Result<Early, EarlyError>
    ensures goes_on { GoesOn (λ l. link_at (L.log l) (L.edits l) (L.faults l)) P.meaning delegated
        link.old link.new
        policy.old policy.new result }
    ensures untouched { result ≡ Err EarlyError.Policy → link.new ≡ link.old }
{
    let delegation = match delegated {
        Ok(delegation) => delegation,
        Err(DelegateError::InsufficientMemory) => return Err(EarlyError::InsufficientMemory),
        Err(error) => return Err(EarlyError::Delegate(error)),
    };
    let Authorized { told, heard } = authorize(link, policy, &delegation.credentials)?;
    Ok(Early {
        delegation,
        told,
        heard,
    })
}
