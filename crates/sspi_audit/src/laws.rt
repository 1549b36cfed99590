//! What an auditor says of what `delegate` leaves, and what its `Yes` implies.
ghost use Rattle.std.specs.Prelude.{ℕ, List, [], reverse, Result};
ghost use Rattle.sspi_credssp.specs.declared.context.SspiContext.{SspiContext};
ghost use Rattle.sspi_credssp.specs.declared.turn.Turn.{Turn};
ghost use Rattle.sspi_credssp.specs.Ends.{ClientView, ServerView};
ghost use Rattle.sspi_credssp.specs.Context.{either};
ghost use Rattle.sspi_delegate.specs.declared.answer.DelegateError.{DelegateError};
ghost use Rattle.sspi_delegate.specs.declared.answer.Delegation.{Delegation};
ghost use Rattle.sspi_delegate.specs.declared.carried.Carried.{Carried};
ghost use Rattle.sspi_delegate.specs.Headline.{around_by, Delegates, IsFresh, IsRun, Parties};
ghost use Rattle.sspi_delegate.specs.Log.{HasLog};
ghost use Rattle.sspi_delegate.specs.Turns.{Alternates};
ghost use Rattle.sspi_audit.specs.Left.{LeavesRun, LeavesShown};
ghost use Rattle.sspi_audit.specs.Run.{IsShownRun};
ghost use Rattle.sspi_audit.specs.Shown.{ShownRun};

use sspi_credssp::{CredentialsProxy, SspiContext, context_keeps_laws};
use sspi_delegate::Link;
use sspi_mech::{Kdc, Mechanism};

/// A run of two ends is shown right. After `delegate` with two fresh ends, `audit` says `Yes` to
/// its turns and the log entries that it added, unless memory runs out.
pub fn delegation_is_shown<N: Mechanism, K: Mechanism, C: CredentialsProxy>()
    ensures { (client client2 : ClientView (SspiContext N K)) (server server2 : ServerView
        (SspiContext N K) C) (base log : List Carried)
        (turns : List Turn) → IsRun (either N.REQUESTS N.meaning K.meaning)
        client client2 server server2 base log turns →
        LeavesShown base log turns }
{
    context_keeps_laws::<N, K>();
}

/// Whatever `delegate` returns for two fresh ends, what it leaves is shown as a run. `audit_run`
/// says `Yes` to its turns and the log entries that it added, unless memory runs out.
pub fn delegation_is_a_shown_run<N: Mechanism, K: Mechanism, C: CredentialsProxy, L: Link, D: Kdc>()
    ensures { (old new : Parties (SspiContext N K) C L D) (limit : ℕ)
        (result : Result Delegation DelegateError) →
        IsFresh old.client old.server → Delegates (either N.REQUESTS N.meaning K.meaning)
        (around_by C.meaning L.log L.edits L.faults D.told D.asked D.faults) old limit result new →
        LeavesRun (L.log old.link) (L.log new.link) new.turns }
{
    context_keeps_laws::<N, K>();
}

/// What is shown as a run is shown right: where `audit_run` says `Yes`, so does `audit`. Its ends
/// alternate, with no turn after one that ended the exchange. Turns and log belong together as
/// those of a run whose link had carried nothing before.
pub fn a_shown_run_is_shown()
    ensures shown { (turns : List Turn) (log : List Carried) → IsShownRun turns log →
        ShownRun turns log }
    ensures run { (turns : List Turn) (log : List Carried) → IsShownRun turns log →
        Alternates turns × HasLog [] turns (reverse log) }
{}
