//! What follows for a server that serves calls one after another. Each law is the contract of a
//! call that does nothing.

ghost use Rattle.std.specs.Prelude.{◌≡◌, ℕ, List, Result, Ok};
ghost use Rattle.sspi_names.specs.declared.identity.AuthIdentity.{AuthIdentity};
ghost use Rattle.sspi_credssp.specs.declared.context.SspiContext.{SspiContext};
ghost use Rattle.sspi_credssp.specs.declared.state.CredSspState.TheVariants as states;
ghost use Rattle.sspi_credssp.specs.Context.{either};
ghost use Rattle.sspi_credssp.specs.Ends.{ServerView};
ghost use Rattle.sspi_desk.specs.declared.answer.DeskError.{DeskError};
ghost use Rattle.sspi_desk.specs.declared.answer.Served.{Served};
ghost use Rattle.sspi_desk.specs.declared.answer.Served.TheVariants as served;
ghost use Rattle.sspi_desk.specs.Alone.{Alone};
ghost use Rattle.sspi_desk.specs.Call.{IsServed};
ghost use Rattle.sspi_desk.specs.Proving.{ProvesIn};

use sspi_credssp::CredentialsProxy;
use sspi_mech::Mechanism;

/// A session whose server began in the authentication finishes only after an earlier call. In it,
/// the server checked the client's proof and proved its own key (MS-CSSP 3.1.5.2).
pub fn a_session_proves_before_it_finishes<N: Mechanism, K: Mechanism, C: CredentialsProxy>()
    ensures { let c = either N.REQUESTS N.meaning K.meaning in
        (first old new : ServerView (SspiContext N K) C) (calls : List (List ℕ))
        (answers : List (Result Served DeskError))
        (bytes : List ℕ) (identity : AuthIdentity) → first.state ≡ states.NegoToken →
        Alone c C.meaning first calls answers old →
        IsServed c C.meaning old bytes (Ok (served.Finished identity)) new →
        ProvesIn c C.meaning first calls answers old }
{}
