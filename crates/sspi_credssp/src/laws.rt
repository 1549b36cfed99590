//! What follows from a blob opening to a single text. Each law is the contract of a call that does
//! nothing.

ghost use Rattle.std.specs.Prelude.{ℕ, List, Option, Some, Result, ◌≡◌, ◌-◌};
ghost use Rattle.sspi_names.specs.declared.identity.AuthIdentity.{AuthIdentity};
ghost use Rattle.sspi_types.specs.declared.error.Error.{Error};
ghost use Rattle.sspi_types.specs.declared.error_kind.ErrorKind.{ErrorKind};
ghost use Rattle.sspi_credssp.specs.declared.context.SspiContext.{SspiContext};
ghost use Rattle.sspi_credssp.specs.Acts.{OpensIn, SameBut};
ghost use Rattle.sspi_credssp.specs.ClientCause.{SealsCause};
ghost use Rattle.sspi_credssp.specs.Context.{either};
ghost use Rattle.sspi_credssp.specs.Exchange.{CheckedCause, OpensOther};
ghost use Rattle.sspi_credssp.specs.ServerTurn.{HoldsIdentity};

use sspi_mech::Mechanism;

/// The last blob that a context opened holds at most one identity.
pub fn one_identity_is_held<N: Mechanism, K: Mechanism>()
    ensures { (context : Option (SspiContext N K)) (field : Option (List ℕ))
        (identity other : AuthIdentity) →
        HoldsIdentity (either N.REQUESTS N.meaning K.meaning) context field identity →
        HoldsIdentity (either N.REQUESTS N.meaning K.meaning) context field other →
        identity ≡ other }
{}

/// A blob that an end refused as altered did not open to the proof, even if the context has sealed
/// since. So an end that refuses a blob that opened to the proof has another reason: what it owes
/// next has no text, or is not sealed.
pub fn an_altered_blob_is_not_the_proof<N: Mechanism, K: Mechanism>()
    ensures altered { let c = either N.REQUESTS N.meaning K.meaning in
        (m : SspiContext N K) (context : Option (SspiContext N K)) (blob proof : List ℕ) →
        SameBut c (Some m) context →
        OpensOther c m blob proof → OpensIn c context ((c.counts m).unsealings - 1) (Some blob)
        proof → ⊥ }
    ensures unsealed { let c = either N.REQUESTS N.meaning K.meaning in
        (m : SspiContext N K) (context : Option (SspiContext N K)) (blob proof : List ℕ) →
        SameBut c (Some m) context →
        OpensIn c context ((c.counts m).unsealings - 1) (Some blob) proof →
        (owed : Result (List ℕ) Error) (kind : ErrorKind) →
        CheckedCause c m blob proof (SealsCause c m owed kind) kind → SealsCause c m owed kind }
{}
