//! Laws of names and texts, each on a function that does nothing.

ghost use Rattle.std.specs.Prelude.{◌≡◌, ◌<◌, ◌^◌, ℕ, List, All, true, false, Ok, Some, None};
ghost use Rattle.std.specs.Prelude.{slice_index};
ghost use Rattle.std.specs.Cmp.{IsEquivalence};
ghost use Rattle.std.specs.Str.{IsUtf8};
ghost use Rattle.std.specs.Char.Utf16.{has_unpaired_surrogate};
ghost use Rattle.sspi_names.specs.declared.format.UserNameFormat.TheVariants.{UserPrincipalName};
ghost use Rattle.sspi_names.specs.declared.format.UserNameFormat.TheVariants.{DownLevelLogonName};
ghost use Rattle.sspi_names.specs.declared.identity.AuthIdentity.{AuthIdentity};
ghost use Rattle.sspi_names.specs.Name.{Name, IsName, parse_name, new_name, inner_of, name_eq};
ghost use Rattle.sspi_names.specs.Name.{equals_ignoring_case};
ghost use Rattle.sspi_names.specs.Grammar.{IsSpelled, IsMixed, IsSameName};
ghost use Rattle.sspi_names.specs.Identity.{IsIdentity, AreBuffers, buffers_of, identity_of};
ghost use Rattle.sspi_names.specs.Same.{ComparesValues};
ghost use Rattle.sspi_names.specs.Utf16.{IsUtf16, units_of, text_of, bytes_le, decode_le};

use crate::context_names::ContextNames;
use crate::credentials::{Credentials, CredentialsBuffers};
use crate::identity::{AuthIdentity, AuthIdentityBuffers, KeytabIdentity};
use crate::kdc_table::KdcTable;
use crate::network::NetworkRequest;
use crate::username::Username;
use crate::utf16::Utf16Text;

/// A text is read as a name exactly when it is that name by the grammar.
pub fn names_are_read_by_the_grammar()
    ensures read { (text : List ℕ) (n : Name) → parse_name text ≡ Some n → IsSpelled text n }
    ensures again { (text : List ℕ) (n : Name) → IsSpelled text n → parse_name text ≡ Some n }
{}

/// A text is refused as a name exactly when it mixes the forms.
#[tactic(auto, using(crate::proofs::Mixed::mixed_is_none, crate::proofs::Mixed::none_is_mixed))]
pub fn mixed_forms_are_refused()
    ensures refused { (text : List ℕ) → IsMixed text → parse_name text ≡ None }
    ensures only { (text : List ℕ) → parse_name text ≡ None → IsMixed text }
{}

/// Each name that is made from texts is one that the grammar allows.
pub fn made_names_are_allowed()
    ensures parsed { (text : List ℕ) (n : Name) → parse_name text ≡ Some n → IsUtf8 text →
        IsName n }
    ensures joined { (account domain : List ℕ) (n : Name) → new_name account domain ≡ Some n →
        IsUtf8 account → IsUtf8 domain → IsName n }
{}

/// The text that shows a name is read as that name, and is UTF-8.
pub fn shown_name_is_read()
    ensures read { (n : Name) → IsName n → parse_name (inner_of n) ≡ Some n }
    ensures text { (n : Name) → IsName n → IsUtf8 (inner_of n) }
{}

/// Equality ignoring case is an equivalence: the same form, and texts that differ at most in the
/// case of ASCII letters. A user principal name never equals a down-level name.
pub fn ignoring_case_is_an_equivalence()
    ensures equivalence { IsEquivalence equals_ignoring_case }
    ensures same { (a b : Name) → equals_ignoring_case a b ≡ true → IsSameName a b }
    ensures equal { (a b : Name) → IsSameName a b → equals_ignoring_case a b ≡ true }
    ensures forms { (a b : Name) → a.format ≡ UserPrincipalName → b.format ≡ DownLevelLogonName →
        equals_ignoring_case a b ≡ false }
{}

/// `==` on names holds exactly when they are the same.
pub fn equality_is_of_the_parts()
    ensures same { (a b : Name) → name_eq a b ≡ true → a ≡ b }
    ensures equal { (a b : Name) → a ≡ b → name_eq a b ≡ true }
{}

/// `==` on each type of texts, names and identities holds exactly when the values are the same.
#[tactic(auto, using(crate::proofs::SameValues::name_decided))]
pub fn equality_is_of_values()
    // Of texts and names.
    ensures texts { ComparesValues ⟦<Utf16Text as PartialEq>⟧.eq }
    ensures names { ComparesValues ⟦<Username as PartialEq>⟧.eq }
    ensures context_names { ComparesValues ⟦<ContextNames as PartialEq>⟧.eq }
    // Of identities.
    ensures identities { ComparesValues ⟦<AuthIdentity as PartialEq>⟧.eq }
    ensures buffers { ComparesValues ⟦<AuthIdentityBuffers as PartialEq>⟧.eq }
{}

/// `==` on credentials, KDC requests and KDC tables holds exactly when the values are the same.
#[tactic(auto, using(crate::proofs::SameValues::name_decided, crate::specs::Same::table_decided))]
pub fn equality_of_credentials_is_of_values()
    // Of credentials.
    ensures keytabs { ComparesValues ⟦<KeytabIdentity as PartialEq>⟧.eq }
    ensures credentials { ComparesValues ⟦<Credentials as PartialEq>⟧.eq }
    ensures credentials_buffers { ComparesValues ⟦<CredentialsBuffers as PartialEq>⟧.eq }
    // Of KDC requests and tables.
    ensures requests { ComparesValues ⟦<NetworkRequest as PartialEq>⟧.eq }
    ensures tables { ComparesValues ⟦<KdcTable as PartialEq>⟧.eq }
{}

/// The buffers of an identity convert back to it.
pub fn buffers_give_the_identity_back()
    ensures identity { (i : AuthIdentity) → IsIdentity i → identity_of (buffers_of i) ≡ Some i }
    ensures buffers { (i : AuthIdentity) → IsIdentity i → AreBuffers (buffers_of i) }
{}

/// The code units of a text are well-formed and convert back to it. The text of well-formed code
/// units is UTF-8 and converts back to them.
pub fn texts_and_code_units()
    ensures units { (text : List ℕ) → IsUtf8 text → IsUtf16 (units_of text) ×
        (text_of (units_of text) ≡ text) }
    ensures text { (units : List ℕ) → IsUtf16 units → IsUtf8 (text_of units) ×
        (units_of (text_of units) ≡ units) }
{}

/// Code units of 16 bits are well-formed exactly when each surrogate has its partner.
pub fn well_formed_is_paired()
    ensures paired { (units : List ℕ) → IsUtf16 units → has_unpaired_surrogate units ≡ false }
    ensures small { (units : List ℕ) → IsUtf16 units → All (λ u. u < 2 ^ 16) units }
    ensures well_formed { (units : List ℕ) → All (λ u. u < 2 ^ 16) units →
        has_unpaired_surrogate units ≡ false → IsUtf16 units }
{}

/// The bytes of well-formed code units are read back as those units. Code units read from bytes are
/// well-formed and convert back to those bytes.
pub fn code_units_and_bytes()
    ensures read { (units : List ℕ) → IsUtf16 units → decode_le (bytes_le units) ≡ Ok units }
    ensures bytes { (bytes units : List ℕ) → ((i : ℕ) → slice_index bytes i < 256) →
        decode_le bytes ≡ Ok units
        → IsUtf16 units × (bytes_le units ≡ bytes) }
{}
