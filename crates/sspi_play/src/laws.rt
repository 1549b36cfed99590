//! Laws: which contexts open a blob to what follows its tag, so that their turns show the texts
//! that they opened; and that an undisturbed exchange is faithful, as agreement supposes. Each law
//! is the contract of a call that does nothing.

ghost use Rattle.std.specs.Prelude.{◌≡◌, ℕ, List, Option};
ghost use Rattle.sspi_mech.specs.Kerberos.{kerberos_meaning};
ghost use Rattle.sspi_mech.specs.KerberosStage.{KerberosState};
ghost use Rattle.sspi_mech.specs.Ntlm.{ntlm_meaning};
ghost use Rattle.sspi_mech.specs.NtlmStage.{NtlmState};
ghost use Rattle.sspi_credssp.specs.declared.context.SspiContext.{SspiContext};
ghost use Rattle.sspi_credssp.specs.declared.turn.Turn.{Turn};
ghost use Rattle.sspi_credssp.specs.Context.{either};
ghost use Rattle.sspi_delegate.specs.Turns.{ClientEnd, ServerEnd};
ghost use Rattle.sspi_play.specs.Clear.{OpensBehindTag, OpensWhatIsShown};
ghost use Rattle.sspi_play.specs.Faithful.{HaveOpened, OpensWhatWasSealed};
ghost use Rattle.sspi_play.specs.Undisturbed.{IsUndisturbedExchange, ReadsSeals};

use sspi_mech::Mechanism;

/// If two mechanisms open to what follows the tag, so does a context over both, negotiating or not.
pub fn a_context_opens_as_its_mechanisms<N: Mechanism, K: Mechanism>()
    ensures { OpensBehindTag N.meaning → OpensBehindTag K.meaning →
        OpensBehindTag (either N.REQUESTS N.meaning K.meaning) }
{}

/// A context over plain NTLM and plain Kerberos opens to what follows the tag, negotiating or not.
#[tactic(auto, using(crate::proofs::BehindTags::plain_opens))]
pub fn a_plain_context_opens_behind_the_tag()
    ensures { (requests : ℕ) → OpensBehindTag (either requests ntlm_meaning kerberos_meaning) }
{}

/// There is at most one list of the texts that an end has opened in its turns.
pub fn one_list_was_opened<N: Mechanism, K: Mechanism>()
    ensures { let c = either N.REQUESTS N.meaning K.meaning in
        (context : Option (SspiContext N K)) → (turns : List Turn) →
        (texts others : List (List ℕ)) →
        HaveOpened c context turns texts → HaveOpened c context turns others → texts ≡ others }
{}

/// If an end opens a blob to what follows its tag, its turns have opened what they show. So, with
/// mechanisms that do not encrypt, the premise of agreement is one about recorded turns.
pub fn recorded_turns_show_what_is_opened<N: Mechanism, K: Mechanism>()
    ensures { OpensBehindTag (either N.REQUESTS N.meaning K.meaning) →
        OpensWhatIsShown (either N.REQUESTS N.meaning K.meaning) }
{}

/// An exchange that the server finished, with each turn given the message of the turn before it, is
/// faithful on one premise. What one context sealed as its n-th message, the other, if it opens it
/// as its own n-th, opens to the same text. Nothing is said of a blob opened under another number,
/// so a mechanism that encrypts by message number can meet the premise.
pub fn an_undisturbed_exchange_is_faithful<N: Mechanism, K: Mechanism>()
    ensures { let c = either N.REQUESTS N.meaning K.meaning in
        (client : ClientEnd (SspiContext N K)) → (server : ServerEnd (SspiContext N K)) →
        (turns : List Turn) →
        IsUndisturbedExchange c client server turns → OpensWhatWasSealed c client server turns }
{}

/// Two plain contexts read each other's messages, whatever their keys: the text that is opened
/// follows the tag, which is where it was sealed.
pub fn plain_contexts_read_each_other()
    ensures { (requests : ℕ) → (own peer : Option (SspiContext NtlmState KerberosState)) →
        ReadsSeals (either requests ntlm_meaning kerberos_meaning) own peer }
{}
