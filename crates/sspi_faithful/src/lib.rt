//! The premise of agreement (`sspi_play`) is met: an undisturbed CredSSP delegation between
//! matching ends is faithful (MS-CSSP 3.1.5).
#![tactic(auto)]

ghost use Rattle.std.specs.Prelude.{ℕ, Ok};
ghost use Rattle.sspi_mech.specs.Kerberos.{kerberos_meaning};
ghost use Rattle.sspi_mech.specs.KerberosStage.{KerberosState};
ghost use Rattle.sspi_mech.specs.Ntlm.{ntlm_meaning};
ghost use Rattle.sspi_mech.specs.NtlmStage.{NtlmState};
ghost use Rattle.sspi_credssp.specs.declared.context.SspiContext.{SspiContext};
ghost use Rattle.sspi_credssp.specs.Context.{either};
ghost use Rattle.sspi_delegate.specs.declared.answer.Delegation.{Delegation};
ghost use Rattle.sspi_delegate.specs.Headline.{around_by, Parties, Delegates};
ghost use Rattle.sspi_delegate.specs.Turns.{client_end, server_end};
ghost use Rattle.sspi_mech.specs.PlainKdc.{PlainKdcState};
ghost use Rattle.sspi_credssp.specs.Table.{TableView};
ghost use Rattle.sspi_delegate.specs.Link.{MemoryLinkView};
ghost use Rattle.sspi_completeness.specs.Matching.{AreMatching, NothingDisturbs};
ghost use Rattle.sspi_completeness.specs.Worked.{Example};
ghost use Rattle.sspi_completeness.specs.WorkedOut.{Plain, plain_meaning, WorkedOut};
ghost use Rattle.sspi_play.specs.Faithful.{OpensWhatWasSealed};

use sspi_credssp::CredentialsProxy;
use sspi_delegate::Link;
use sspi_mech::Kdc;

/// If an undisturbed delegation between matching ends of the plain mechanisms came to Ok, each end
/// has opened what its peer sealed, in order. It comes to Ok unless its turns or memory run out:
/// `sspi_completeness::delegate_plainly`.
pub fn an_undisturbed_delegation_is_faithful<C: CredentialsProxy, L: Link, D: Kdc>()
    ensures { let c = either 0 ntlm_meaning kerberos_meaning in
        let around = around_by C.meaning L.log L.edits L.faults D.told D.asked D.faults in
        (old new : Parties (SspiContext NtlmState KerberosState) C L D) → (limit : ℕ) →
        (delegation : Delegation) →
        AreMatching C.meaning (D.told old.kdc) (D.asked old.kdc) old.client old.server →
        NothingDisturbs around old new → Delegates c around old limit (Ok delegation) new →
        OpensWhatWasSealed c (client_end new.client) (server_end new.server) new.turns }
{}

/// Each exchange that was worked by hand (`sspi_completeness::worked`) and came to Ok is such a
/// delegation. So the premise of agreement holds of ends that a program makes.
pub fn worked_exchanges_are_faithful()
    ensures { (x : Example) (messages limit : ℕ) (delegation : Delegation)
        (new : Parties Plain TableView MemoryLinkView PlainKdcState) →
        WorkedOut x messages limit (Ok delegation) new →
        OpensWhatWasSealed plain_meaning (client_end new.client) (server_end new.server) new.turns }
{}
