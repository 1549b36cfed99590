//! `delegate` between ends of the plain mechanisms, and what matching ends come to.

ghost use Rattle.std.specs.Prelude.{◌≤◌, [], IfOk};
ghost use Rattle.sspi_credssp.specs.Context.{either};
ghost use Rattle.sspi_delegate.specs.Headline.{around_by, parties, Delegates, Accounts, Stays};
ghost use Rattle.sspi_delegate.specs.Headline.{IsFresh};
ghost use Rattle.sspi_mech.specs.Kerberos.{kerberos_meaning};
ghost use Rattle.sspi_mech.specs.Ntlm.{ntlm_meaning};
ghost use Rattle.sspi_completeness.specs.Answered.{AnswersIn};
ghost use Rattle.sspi_completeness.specs.Matching.{AreMatching, IsNtlmServer, messages_in};
ghost use Rattle.sspi_completeness.specs.Matching.{NothingDisturbs};
ghost use Rattle.sspi_credssp.specs.Exchange.{delegated_as};

use sspi_credssp::{CredSspClient, CredSspServer, CredentialsProxy};
use sspi_delegate::{DelegateError, Delegation, Link, Transcript, delegate};
use sspi_mech::{Kdc, Kerberos, Ntlm};
use std::alloc::Global;

/// `delegate` between two ends of the plain mechanisms: its promises, and what holds of these ends
/// alone.
///
/// If the server does not negotiate, ends that have made no call come to Ok only after three
/// messages of the client. That holds whatever the link delivers.
///
/// Suppose the ends match and have made no call, the link disturbs nothing and no look-up of the
/// proxy fails. Then the answer is Ok with the identity that the client seals. Without a
/// negotiation the client makes three messages. In a negotiation it makes four if the server picks
/// the mechanism that the client began with. It makes five if that was Kerberos and the server
/// picks NTLM. If `limit` allows the client fewer messages, the turns are spent. Memory may run out
/// instead.
pub fn delegate_plainly<C: CredentialsProxy, L: Link, D: Kdc>(
    alloc: Global,
    client: &mut CredSspClient<Ntlm, Kerberos>,
    server: &mut CredSspServer<Ntlm, Kerberos, C>,
    link: &mut L,
    kdc: &mut D,
    limit: u32,
    transcript: &mut Transcript,
) -> Result<Delegation, DelegateError>
    // What `delegate` promises.
    ensures delegates { IsFresh client.old server.old →
        Delegates (either 0 ntlm_meaning kerberos_meaning)
        (around_by C.meaning L.log L.edits L.faults D.told D.asked D.faults)
        (parties client.old server.old link.old kdc.old []) limit result
        (parties client.new server.new link.new kdc.new transcript.new.turns) }
    ensures accounts { Accounts (either 0 ntlm_meaning kerberos_meaning)
        (around_by C.meaning L.log L.edits L.faults D.told D.asked D.faults)
        (parties client.old server.old link.old kdc.old []) limit result
        (parties client.new server.new link.new kdc.new transcript.new.turns) }
    ensures stays { Stays (around_by C.meaning L.log L.edits L.faults D.told D.asked D.faults)
        (parties client.old server.old link.old kdc.old []) limit result
        (parties client.new server.new link.new kdc.new transcript.new.turns) }
    // How many messages are too few, and what matching ends come to.
    ensures three { IsNtlmServer server.old.settings.mode → IsFresh client.old server.old →
        IfOk result (λ delegation. 3 ≤ delegation.rounds) }
    ensures matched { (matching : AreMatching C.meaning (D.told kdc.old) (D.asked kdc.old)
        client.old server.old) →
        NothingDisturbs (around_by C.meaning L.log L.edits L.faults D.told D.asked D.faults)
        (parties client.old server.old link.old kdc.old [])
        (parties client.new server.new link.new kdc.new transcript.new.turns) →
        AnswersIn (messages_in matching) limit
        (delegated_as client.old.settings.delegation matching.identity) result }
{
    delegate(alloc, client, server, link, kdc, limit, transcript)
}
