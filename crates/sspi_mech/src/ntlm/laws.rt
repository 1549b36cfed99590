//! What holds for plain NTLM by its definitions alone: each law is proved once, and holds for every
//! object.
ghost use Rattle.std.specs.Prelude.{true, ◌≡◌, ℕ, ◌-◌, ◌<◌, ◌^◌, List, Some, drop, length};
ghost use Rattle.sspi_types.specs.declared.error_kind.ErrorKind.{ErrorKind};
ghost use Rattle.sspi_names.specs.declared.credentials.Credentials.TheVariants as credentials;
ghost use Rattle.sspi_names.specs.declared.identity.AuthIdentity.{AuthIdentity};
ghost use Rattle.sspi_mech.specs.declared.ntlm.stage.Claim.{Claim};
ghost use Rattle.sspi_mech.specs.Calls.{Call, ToUnseal, ToVerify};
ghost use Rattle.sspi_mech.specs.Ntlm.{ntlm_meaning};
ghost use Rattle.sspi_mech.specs.NtlmIdentities.{proves};
ghost use Rattle.sspi_mech.specs.NtlmMessages.{challenge_message, authenticate_message};
ghost use Rattle.sspi_mech.specs.NtlmMessages.{read_challenge, read_authenticate, proof_of};
ghost use Rattle.sspi_mech.specs.NtlmPeers.{IsPeer};
ghost use Rattle.sspi_mech.specs.NtlmStage.{NtlmState};

/// Of a blob that opens, the text is all that follows the tag, which has 16 bytes.
pub fn opened_is_body()
    ensures { (m : NtlmState) (n : ℕ) (blob text : List ℕ) → ntlm_meaning.opens m n blob text →
        text ≡ drop 16 blob }
{}

/// What one end seals, the other opens, and does not refuse if it is the next message and the count
/// is not spent.
pub fn sealed_opens()
    ensures opens { (m p : NtlmState) (n : ℕ) (text blob : List ℕ) →
        IsPeer m p → ntlm_meaning.seals m n text blob → ntlm_meaning.opens p n blob text }
    ensures taken { (p : NtlmState) (blob text : List ℕ) →
        ntlm_meaning.opens p p.protection.unsealings blob text →
        p.protection.unsealings < 2 ^ 64 - 1 →
        ntlm_meaning.permits p (ToUnseal blob) }
{}

/// What one end signs, the other verifies, and does not refuse if it is the next MIC and the count
/// is not spent.
pub fn signed_verifies()
    ensures verifies { (m p : NtlmState) (n : ℕ) (text mic : List ℕ) →
        IsPeer m p → ntlm_meaning.signs m n text mic → ntlm_meaning.verifies p n mic text }
    ensures taken { (p : NtlmState) (mic text : List ℕ) →
        ntlm_meaning.verifies p p.protection.verifications mic text →
        p.protection.verifications < 2 ^ 64 - 1 →
        ntlm_meaning.permits p (ToVerify mic text) }
{}

/// A call that may answer `Ok` is refused only when out of memory.
pub fn permitted_is_not_refused()
    ensures { (m : NtlmState) (call : Call) (kind : ErrorKind) → ntlm_meaning.permits m call →
        ntlm_meaning.refuses m call kind → ⊥ }
{}

/// Each end reads the messages that the other writes.
pub fn written_is_read()
    ensures challenge { (challenge : List ℕ) → length challenge ≡ 8 →
        read_challenge (challenge_message challenge) ≡ Some challenge }
    ensures authenticate { (name proof : List ℕ) → length name < 2 ^ 16 → length proof ≡ 32 →
        read_authenticate (authenticate_message name proof) ≡ Some
        (record { name = name; body = proof }) }
{}

/// The password that made a claim's proof is found to prove the claim.
pub fn password_proves()
    ensures { (challenge : List ℕ) (claim : Claim) (identity : AuthIdentity) →
        claim.proof ≡ proof_of challenge claim.text identity.password.value →
        proves challenge claim (credentials.AuthIdentity identity) ≡ true }
{}
