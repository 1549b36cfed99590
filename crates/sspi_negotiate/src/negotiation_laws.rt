//! What holds for every negotiation. Each law is the contract of a call that does nothing.

ghost use Rattle.std.specs.Prelude.{◌≡◌, ◌≢◌, ◌⊎◌, true, false, Some, Result, Ok, OnErr};
ghost use Rattle.sspi_types.specs.declared.error.Error.{Error};
ghost use Rattle.sspi_mech.specs.declared.step.Answer.{Answer};
ghost use Rattle.sspi_mech.specs.declared.step.Reply.{Reply};
ghost use Rattle.sspi_mech.specs.declared.step.Step.{Step};
ghost use Rattle.sspi_mech.specs.Calls.{StepArgs, AcceptArgs};
ghost use Rattle.sspi_mech.specs.Context.{IsContext};
ghost use Rattle.sspi_negotiate.specs.declared.protocol.NegotiatedProtocol.{NegotiatedProtocol};
ghost use Rattle.sspi_negotiate.specs.Does.{StaysNeeded, StaysPicked, StaysConfigured};
ghost use Rattle.sspi_negotiate.specs.Does.{UnlessMemory, told};
ghost use Rattle.sspi_negotiate.specs.Choices.{chosen_in, chosen_at, excuses_guest, other_protocol};
ghost use Rattle.sspi_negotiate.specs.Choices.{UnlessRefused};
ghost use Rattle.sspi_negotiate.specs.declared.protocol.Protocol.{Protocol};
ghost use Rattle.sspi_mech.specs.declared.step.Answer.TheVariants as answers;
ghost use Rattle.sspi_negotiate.specs.declared.state.NegotiateState.TheVariants as states;
ghost use Rattle.sspi_negotiate.specs.Exact.{TellsKind, client_refusal, resumed_refusal};
ghost use Rattle.sspi_negotiate.specs.Exact.{server_refusal};
ghost use Rattle.sspi_negotiate.specs.Hand.{hand, hand_of};
ghost use Rattle.sspi_negotiate.specs.Holding.{StaysHeld, MayKeep, MayNeed, user_of};
ghost use Rattle.sspi_negotiate.specs.Verified.{IsVerified, IsGuestNamed};
ghost use Rattle.sspi_negotiate.specs.Keeps.{Keeps, KeepsPackages, is_opening, may_use};
ghost use Rattle.sspi_negotiate.specs.Lives.{LivesOn};
ghost use Rattle.sspi_negotiate.specs.Values.{Negotiation, values_of};
ghost use Rattle.sspi_negotiate.specs.Negotiate.{negotiate};

use sspi_mech::Mechanism;

/// A negotiation over any two mechanisms keeps what every context keeps. No step seals or opens
/// anything, and each further question to a KDC leaves fewer to come, even if NTLM has replaced
/// Kerberos in between.
pub fn negotiation_is_context<N: Mechanism, K: Mechanism>()
    ensures { IsContext (negotiate N.REQUESTS N.meaning K.meaning) }
{}

/// Whatever it answers, out of memory included, no step enables a package again. If the selected
/// mechanism may be used before a step, so may the one after it.
pub fn packages_are_kept<N: Mechanism, K: Mechanism>()
    ensures client { (old new : Negotiation (NegotiatedProtocol N K)) (args : StepArgs)
        (answer : Answer) →
        (negotiate N.REQUESTS N.meaning K.meaning).steps old args answer new →
        KeepsPackages old.packages (hand_of old.mech) new.packages (hand_of new.mech) }
    ensures resumed { (old new : Negotiation (NegotiatedProtocol N K)) (reply : Reply)
        (answer : Answer) →
        (negotiate N.REQUESTS N.meaning K.meaning).resumes old reply answer new →
        KeepsPackages old.packages (hand_of old.mech) new.packages (hand_of new.mech) }
    ensures server { (old new : Negotiation (NegotiatedProtocol N K)) (args : AcceptArgs)
        (result : Result Step Error) →
        (negotiate N.REQUESTS N.meaning K.meaning).accepts old args result new →
        KeepsPackages old.packages (hand_of old.mech) new.packages (hand_of new.mech) }
{}

/// In addition to what `packages_are_kept` says, no step replaces the list of mechanisms that the
/// client once offered. When out of memory, `Stays` says what stays.
pub fn steps_keep<N: Mechanism, K: Mechanism>()
    ensures client { (old new : Negotiation (NegotiatedProtocol N K)) (args : StepArgs)
        (answer : Answer) →
        (negotiate N.REQUESTS N.meaning K.meaning).steps old args answer new →
        UnlessMemory answer (Keeps (values_of old) (values_of new)) }
    ensures resumed { (old new : Negotiation (NegotiatedProtocol N K)) (reply : Reply)
        (answer : Answer) →
        (negotiate N.REQUESTS N.meaning K.meaning).resumes old reply answer new →
        UnlessMemory answer (Keeps (values_of old) (values_of new)) }
    ensures server { (old new : Negotiation (NegotiatedProtocol N K)) (args : AcceptArgs)
        (result : Result Step Error) →
        (negotiate N.REQUESTS N.meaning K.meaning).accepts old args result new →
        UnlessMemory (told result) (Keeps (values_of old) (values_of new)) }
{}

/// A server's choice stays. The client's later step that takes it disables the other mechanism, and
/// no step takes a choice of a disabled one. No package is enabled again (`packages_are_kept`), so
/// once Kerberos has been chosen, a choice of NTLM is refused, and the other way round.
pub fn choices_are_kept<N: Mechanism, K: Mechanism>()
    ensures disables { (old new : Negotiation (NegotiatedProtocol N K)) (args : StepArgs)
        (answer : Answer) (protocol : Protocol) →
        (negotiate N.REQUESTS N.meaning K.meaning).steps old args answer new →
        old.state ≡ states.InProgress →
        chosen_in args.input ≡ Some protocol →
        UnlessRefused answer (may_use new.packages (other_protocol protocol) ≡ false) }
    ensures refused { (old new : Negotiation (NegotiatedProtocol N K)) (args : StepArgs)
        (answer : Answer) (protocol : Protocol) →
        (negotiate N.REQUESTS N.meaning K.meaning).steps old args answer new →
        old.state ≡ states.InProgress →
        chosen_in args.input ≡ Some protocol → may_use old.packages protocol ≡ false →
        UnlessRefused answer ⊥ }
{}

/// What is selected, allowed and kept, out of memory included. After the first step, a client's
/// step keeps the selected mechanism or selects another. That is one of three: the server's choice;
/// NTLM if the target is named by its IP address and NTLM may be used; or Kerberos if a KDC serves
/// the domain of the call's user. The step disables at most one package: the one not chosen, or
/// Kerberos because of the address. A resumed step, except a resumed first one, and a server's
/// later step keep the list, the packages and the selected mechanism. A client's step leaves the
/// kept credentials, or replaces them by those of the call's user. A resumed step leaves them; a
/// server's step leaves them and the packages. A server's later step makes no new mechanism. What
/// is left is the old one, after at most one token, the peer's identities, one verified MIC and one
/// MIC made.
pub fn hand_is_kept<N: Mechanism, K: Mechanism>()
    ensures client { (old new : Negotiation (NegotiatedProtocol N K)) (args : StepArgs)
        (answer : Answer) →
        (negotiate N.REQUESTS N.meaning K.meaning).steps old args answer new →
        old.state ≢ states.Initial → StaysHeld (values_of old) args (values_of new) }
    ensures client_keeps { (old new : Negotiation (NegotiatedProtocol N K)) (args : StepArgs)
        (answer : Answer) →
        (negotiate N.REQUESTS N.meaning K.meaning).steps old args answer new → MayKeep
        (user_of args.handle) old.kept new.kept }
    ensures resumed { (old new : Negotiation (NegotiatedProtocol N K)) (reply : Reply)
        (answer : Answer) →
        (negotiate N.REQUESTS N.meaning K.meaning).resumes old reply answer new →
        is_opening old.branch ≡ false → StaysPicked (values_of old) (values_of new) }
    ensures resumed_keeps { (old new : Negotiation (NegotiatedProtocol N K)) (reply : Reply)
        (answer : Answer) →
        (negotiate N.REQUESTS N.meaning K.meaning).resumes old reply answer new →
        new.kept ≡ old.kept }
    ensures server { (old new : Negotiation (NegotiatedProtocol N K)) (args : AcceptArgs)
        (result : Result Step Error) →
        (negotiate N.REQUESTS N.meaning K.meaning).accepts old args result new →
        old.state ≢ states.Initial → StaysPicked (values_of old) (values_of new) }
    ensures server_configured { (old new : Negotiation (NegotiatedProtocol N K)) (args : AcceptArgs)
        (result : Result Step Error) →
        (negotiate N.REQUESTS N.meaning K.meaning).accepts old args result new → StaysConfigured
        (values_of old) (values_of new) }
    ensures server_lives { (old new : Negotiation (NegotiatedProtocol N K)) (args : AcceptArgs)
        (result : Result Step Error) →
        (negotiate N.REQUESTS N.meaning K.meaning).accepts old args result new →
        old.state ≢ states.Initial → LivesOn (hand N.meaning K.meaning) args old.mech new.mech }
{}

/// A refusal that allocates nothing is reported with its own kind, never as out of memory. The kind
/// is `OutOfSequence` for a client's step on a server, while a step waits, and after the end; for a
/// resume if no step waits; and for a server's step on a client, and after the end. It is
/// `InvalidToken` for a server's step if its bytes begin with no token of the form that its state
/// requires.
pub fn refusals_are_exact<N: Mechanism, K: Mechanism>()
    ensures client { (old new : Negotiation (NegotiatedProtocol N K)) (args : StepArgs)
        (answer : Answer) →
        (negotiate N.REQUESTS N.meaning K.meaning).steps old args answer new →
        TellsKind (client_refusal old.role old.state old.branch) answer }
    ensures resumed { (old new : Negotiation (NegotiatedProtocol N K)) (reply : Reply)
        (answer : Answer) →
        (negotiate N.REQUESTS N.meaning K.meaning).resumes old reply answer new → TellsKind
        (resumed_refusal old.branch) answer }
    ensures server { (old new : Negotiation (NegotiatedProtocol N K)) (args : AcceptArgs)
        (result : Result Step Error) →
        (negotiate N.REQUESTS N.meaning K.meaning).accepts old args result new →
        TellsKind (server_refusal old.role old.state args.input) (told result) }
{}

/// If MICs are needed, they stay needed, out of memory included. A server's refused step leaves the
/// need as it was, and so does any resumed step. A client's first step leaves it, or sets it as the
/// flags of the step say. After the first step, a client drops it only if the server chooses NTLM,
/// which may be used, for a guest. A server then drops it only if the mechanism selected after the
/// step names the peer as a guest.
pub fn mic_need_is_kept<N: Mechanism, K: Mechanism>()
    ensures client { (old new : Negotiation (NegotiatedProtocol N K)) (args : StepArgs)
        (answer : Answer) →
        (negotiate N.REQUESTS N.meaning K.meaning).steps old args answer new →
        old.state ≢ states.Initial →
        StaysNeeded (excuses_guest (chosen_at old.state args.input) (values_of old) args)
        (values_of old) (values_of new) }
    ensures client_first { (old new : Negotiation (NegotiatedProtocol N K)) (args : StepArgs)
        (answer : Answer) →
        (negotiate N.REQUESTS N.meaning K.meaning).steps old args answer new →
        old.state ≡ states.Initial → MayNeed args.requirements old.need new.need }
    ensures resumed { (old new : Negotiation (NegotiatedProtocol N K)) (reply : Reply)
        (answer : Answer) →
        (negotiate N.REQUESTS N.meaning K.meaning).resumes old reply answer new →
        new.need ≡ old.need }
    ensures server { (old new : Negotiation (NegotiatedProtocol N K)) (args : AcceptArgs)
        (result : Result Step Error) →
        (negotiate N.REQUESTS N.meaning K.meaning).accepts old args result new →
        OnErr result (new.need ≡ old.need) }
    ensures server_done { (old new : Negotiation (NegotiatedProtocol N K)) (args : AcceptArgs)
        (step : Step) →
        (negotiate N.REQUESTS N.meaning K.meaning).accepts old args (Ok step) new →
        old.state ≢ states.Initial → old.need ≡ true →
        (new.need ≡ true) ⊎ IsGuestNamed (hand N.meaning K.meaning) new.mech }
{}

/// An end that needs MICs finishes only by a step in which the peer's MIC is verified (RFC 4178,
/// section 5). The mechanism left selected verifies the peer's next MIC over the kept list, and
/// then makes at most its own. That holds if MICs are needed after the step and, after the first
/// step, if they were needed before it. The latter has two exceptions: a client whose server chose
/// NTLM, which may be used, for a guest, and a server whose mechanism names the peer as a guest.
pub fn mics_protect_the_list<N: Mechanism, K: Mechanism>()
    ensures client { (old new : Negotiation (NegotiatedProtocol N K)) (args : StepArgs)
        (step : Step) →
        (negotiate N.REQUESTS N.meaning K.meaning).steps old args (answers.Done step) new →
        new.state ≡ states.Ok → new.need ≡ true →
        IsVerified (hand N.meaning K.meaning) new.list new.mech }
    ensures resumed { (old new : Negotiation (NegotiatedProtocol N K)) (reply : Reply)
        (step : Step) → old.state ≢ states.Ok →
        (negotiate N.REQUESTS N.meaning K.meaning).resumes old reply (answers.Done step) new →
        new.state ≡ states.Ok → new.need ≡ true →
        IsVerified (hand N.meaning K.meaning) new.list new.mech }
    ensures server { (old new : Negotiation (NegotiatedProtocol N K)) (args : AcceptArgs)
        (step : Step) →
        (negotiate N.REQUESTS N.meaning K.meaning).accepts old args (Ok step) new →
        new.state ≡ states.Ok → new.need ≡ true →
        IsVerified (hand N.meaning K.meaning) new.list new.mech }
    ensures client_before { (old new : Negotiation (NegotiatedProtocol N K)) (args : StepArgs)
        (step : Step) →
        (negotiate N.REQUESTS N.meaning K.meaning).steps old args (answers.Done step) new →
        new.state ≡ states.Ok → old.state ≢ states.Initial → old.need ≡ true →
        excuses_guest (chosen_at old.state args.input) (values_of old) args ≡ false →
        IsVerified (hand N.meaning K.meaning) new.list new.mech }
    ensures resumed_before { (old new : Negotiation (NegotiatedProtocol N K)) (reply : Reply)
        (step : Step) → old.state ≢ states.Ok →
        (negotiate N.REQUESTS N.meaning K.meaning).resumes old reply (answers.Done step) new →
        new.state ≡ states.Ok → old.need ≡ true →
        IsVerified (hand N.meaning K.meaning) new.list new.mech }
    ensures server_before { (old new : Negotiation (NegotiatedProtocol N K)) (args : AcceptArgs)
        (step : Step) →
        (negotiate N.REQUESTS N.meaning K.meaning).accepts old args (Ok step) new →
        new.state ≡ states.Ok → old.state ≢ states.Initial → old.need ≡ true →
        IsVerified (hand N.meaning K.meaning) new.list new.mech ⊎
        IsGuestNamed (hand N.meaning K.meaning) new.mech }
{}
