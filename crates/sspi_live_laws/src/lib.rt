//! What two ends that ran over channels agree on, whoever carried the bytes between them. Each law
//! is the contract of a call that does nothing.
#![tactic(auto)]

ghost use Rattle.std.specs.Prelude.{◌≡◌, ℕ, List, Result, length};
ghost use Rattle.sspi_credssp.specs.declared.context.SspiContext.{SspiContext};
ghost use Rattle.sspi_credssp.specs.declared.turn.Turn.{Turn};
ghost use Rattle.sspi_credssp.specs.Context.{either};
ghost use Rattle.sspi_credssp.specs.Ends.{ClientView, IsFreshServer, ServerView};
ghost use Rattle.sspi_delegate.specs.declared.answer.Delegation.{Delegation};
ghost use Rattle.sspi_delegate.specs.declared.answer.DelegateError.{DelegateError};
ghost use Rattle.sspi_delegate.specs.History.{ServerPast};
ghost use Rattle.sspi_delegate.specs.Turns.{ClientRan, client_end, client_turns, server_end};
ghost use Rattle.sspi_delegate.specs.Turns.{server_turns};
ghost use Rattle.sspi_live.specs.Answers.{Serves};
ghost use Rattle.sspi_live.specs.Channel.{Channel};
ghost use Rattle.sspi_live.specs.Fresh.{ServedFresh};
ghost use Rattle.sspi_live_laws.specs.Identities.{identity_of};
ghost use Rattle.sspi_play.specs.Agreement.{AgreesIfFaithful};

use sspi_credssp::CredentialsProxy;
use sspi_mech::Mechanism;

/// A fresh server ran `serve` and a fresh client `connect`, and the turns of both are in any order.
/// If the mechanism is faithful in these turns, the ends agree on key and nonce; and the identity
/// that `serve` answers is the one that this client sealed. The premises are the clauses `answer`,
/// `history` and `fresh` of `serve`; the client's run, which the clause `fresh` of `connect` gives;
/// and that the client's nonce has 32 bytes.
pub fn two_ends_agree<N: Mechanism, K: Mechanism, C: CredentialsProxy>()
    ensures { let c = either N.REQUESTS N.meaning K.meaning in
        (server server2 : ServerView (SspiContext N K) C) (limit : ℕ) (before after : Channel) →
        (answer : Result Delegation DelegateError) (client client2 : ClientView (SspiContext N K))
        (turns : List Turn) →
        IsFreshServer server → Serves limit before after answer (server_turns turns) →
        ServerPast c C.meaning server answer (server_turns turns) server2 →
        ServedFresh c C.meaning server answer (server_turns turns) server2 →
        ClientRan c client client2 (client_turns turns) →
        length client.settings.nonce ≡ 32 →
        AgreesIfFaithful c (client_end client2) (server_end server2) turns (identity_of answer) }
{}
