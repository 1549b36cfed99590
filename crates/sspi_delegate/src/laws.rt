//! What follows from every exchange. Each law is the contract of a call that does nothing.

ghost use Rattle.std.specs.Prelude.{List, ◌≡◌};
ghost use Rattle.sspi_names.specs.declared.identity.AuthIdentity.{AuthIdentity};
ghost use Rattle.sspi_credssp.specs.declared.context.SspiContext.{SspiContext};
ghost use Rattle.sspi_credssp.specs.declared.turn.Turn.{Turn};
ghost use Rattle.sspi_credssp.specs.Context.{either};
ghost use Rattle.sspi_delegate.specs.Turns.{GivesNewest, ServerEnd};

use sspi_mech::Mechanism;

/// The server that an exchange leaves, together with its turns, gives the identity that it opened
/// last: at most one.
pub fn a_run_gives_one_identity<N: Mechanism, K: Mechanism>()
    ensures { let c = either N.REQUESTS N.meaning K.meaning in
        (server : ServerEnd (SspiContext N K)) (turns : List Turn) (identity other : AuthIdentity) →
        GivesNewest c server turns identity → GivesNewest c server turns other → identity ≡ other }
{}
