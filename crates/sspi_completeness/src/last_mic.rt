//! What a server answers to the MIC that its negotiation waits for.

ghost use Rattle.std.specs.Prelude.{◌≡◌, ℕ, List, Some, Result};
ghost use Rattle.sspi_types.specs.declared.error.Error.{Error};
ghost use Rattle.sspi_mech.specs.declared.step.Step.{Step};
ghost use Rattle.sspi_mech.specs.Calls.{AcceptArgs};
ghost use Rattle.sspi_negotiate.specs.declared.protocol.NegotiatedProtocol.{NegotiatedProtocol};
ghost use Rattle.sspi_negotiate.specs.declared.state.NegotiateState.TheVariants as states;
ghost use Rattle.sspi_negotiate.specs.declared.state.Role.TheVariants as roles;
ghost use Rattle.sspi_negotiate.specs.Does.{told};
ghost use Rattle.sspi_negotiate.specs.Hand.{hand};
ghost use Rattle.sspi_negotiate.specs.Negotiate.{negotiate};
ghost use Rattle.sspi_negotiate.specs.Values.{Negotiation};
ghost use Rattle.sspi_completeness.specs.LastMic.{mic_in, AnswersLast};

use sspi_mech::Mechanism;

/// What a server answers to the MIC that its negotiation waits for (RFC 4178, section 5), for any
/// two mechanisms. The step is made only on a MIC that the selected mechanism verified. The
/// mechanism was first given the identities that the server knows by its peer's name.
///
/// If the mechanism does not name its peer, takes none of the identities, or does not verify the
/// MIC, the refusal has the mechanism's kind. It is `NoCredentials` if the server knows nobody of
/// that name, and `InternalError` if the list of mechanisms is too long. `InsufficientMemory` may
/// come in place of any of them.
pub fn last_mic_is_answered<N: Mechanism, K: Mechanism>()
    ensures { (old new : Negotiation (NegotiatedProtocol N K)) (args : AcceptArgs)
        (result : Result Step Error) (mic : List ℕ) →
        (negotiate N.REQUESTS N.meaning K.meaning).accepts old args result new →
        old.role ≡ roles.Server → old.state ≡ states.VerifyMic → mic_in args.input ≡ Some mic →
        AnswersLast (hand N.meaning K.meaning) old.mech old.known old.list mic (told result) }
{}
