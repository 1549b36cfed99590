//! The laws of TSCredentials, each on a function that does nothing.

ghost use Rattle.std.specs.Prelude.{◌≡◌, ◌++◌, ◌↔◌, ◌⊎◌, ℕ, List, Ok, Err};
ghost use Rattle.sspi_types.specs.declared.error.Error.{Error};
ghost use Rattle.sspi_names.specs.Identity.{AreCredentials};
ghost use Rattle.sspi_names.specs.Utf16.{bad_text};
ghost use Rattle.sspi_names.specs.declared.credentials.CredentialsBuffers.{CredentialsBuffers};
ghost use Rattle.sspi_names.specs.declared.credentials.CredentialsBuffers.TheVariants as buffered;
ghost use Rattle.sspi_names.specs.declared.identity.AuthIdentityBuffers.{AuthIdentityBuffers};
ghost use Rattle.sspi_names.specs.declared.identity.KeytabIdentity.{KeytabIdentity};
ghost use Rattle.sspi_tsreq.specs.declared.mode.CredSspMode.{CredSspMode};
ghost use Rattle.sspi_tsreq.specs.Creds.{delegated_credentials, creds_of, creds_text, malformed};
ghost use Rattle.sspi_tsreq.specs.Creds.{smart_card, unknown_type, Passwords};
ghost use Rattle.sspi_tsreq.specs.CredsGrammar.{HasBadText, IsCreds, IsCredsOfType, IsNoCreds};
ghost use Rattle.sspi_tsreq.specs.CredsGrammar.{IsOtherType, IsPasswordCreds};
ghost use Rattle.sspi_tsreq.specs.CredsGrammar.{LacksPasswords, StandsFor};

/// Buffers are read exactly when the text begins with password TSCredentials that represent them;
/// a keytab is never read.
pub fn password_is_grammar()
    ensures password { (text : List ℕ) (buffers : AuthIdentityBuffers)
        → (creds_of text ≡ Ok (buffered.AuthIdentity buffers)) ↔ StandsFor text buffers }
    ensures keytab { (text : List ℕ) (keytab : KeytabIdentity) →
        ¬ (creds_of text ≡ Ok (buffered.Keytab keytab)) }
{}

/// A smart card is refused exactly when there are TSCredentials of type 2, with any credentials.
pub fn smart_card_is_grammar()
    ensures { (text : List ℕ) → (creds_of text ≡ Err smart_card) ↔
        ((credentials : List ℕ) × IsCredsOfType 2 text credentials) }
{}

/// A type is refused as unknown exactly when there are TSCredentials of a type without meaning.
pub fn unknown_type_is_grammar()
    ensures { (text : List ℕ) → (creds_of text ≡ Err unknown_type)
        ↔ ((cred_type credentials : List ℕ) × IsCreds text cred_type credentials ×
        IsOtherType cred_type) }
{}

/// A structure is refused as malformed exactly when there are no TSCredentials, or password
/// TSCredentials without TSPasswordCreds.
pub fn malformed_is_grammar()
    ensures { (text : List ℕ) → (creds_of text ≡ Err malformed) ↔
        (IsNoCreds text ⊎ LacksPasswords text) }
{}

/// A text is refused exactly when both structures are present and one of the three texts is not
/// UTF-16.
pub fn bad_text_is_grammar()
    ensures { (text : List ℕ) → (creds_of text ≡ Err bad_text)
        ↔ ((credentials : List ℕ) × (texts : Passwords) × IsCredsOfType 1 text credentials ×
        IsPasswordCreds credentials texts ×
        HasBadText texts) }
{}

/// There is no other refusal.
pub fn no_other_refusal()
    ensures { (text : List ℕ) (error : Error) → creds_of text ≡ Err error
        → (error ≡ malformed) ⊎ (error ≡ unknown_type) ⊎ (error ≡ smart_card) ⊎ (error ≡ bad_text) }
{}

/// Bytes begin with at most one TSCredentials, with at most one TSPasswordCreds, and represent at
/// most one identity.
pub fn creds_are_known_by_bytes()
    ensures creds { (text cred_type credentials other_type other : List ℕ) →
        IsCreds text cred_type credentials
        → IsCreds text other_type other → (cred_type ≡ other_type) × (credentials ≡ other) }
    ensures passwords { (text : List ℕ) (texts other : Passwords) → IsPasswordCreds text texts →
        IsPasswordCreds text other
        → texts ≡ other }
    ensures buffers { (text : List ℕ) (buffers other : AuthIdentityBuffers) →
        StandsFor text buffers → StandsFor text other
        → buffers ≡ other }
{}

/// Written credentials are read back as the same buffers, or as empty ones if the client keeps its
/// credentials, whatever follows.
#[tactic(auto, using(crate::proofs::CredsBack::credentials_back, crate::proofs::CredsBack::credentials_back_alone))]
pub fn written_credentials_are_read()
    ensures read { (c : CredentialsBuffers) (mode : CredSspMode) (text : List ℕ) →
        AreCredentials c → creds_text c mode ≡ Ok text
        → creds_of text ≡ Ok (delegated_credentials mode c) }
    ensures followed { (c : CredentialsBuffers) (mode : CredSspMode) (text more : List ℕ) →
        AreCredentials c → creds_text c mode ≡ Ok text
        → creds_of (text ++ more) ≡ Ok (delegated_credentials mode c) }
{}
