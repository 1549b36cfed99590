//! What follows from the definitions alone. Each law is the contract of an empty function.

ghost use Rattle.std.specs.Prelude.{◌≡◌, ◌↔◌, ℕ, List, ◌++◌, Some};
ghost use Rattle.sspi_tokens.specs.Grammar.{IsInit, IsTarg};
ghost use Rattle.sspi_tokens.specs.Nested.{Begins};
ghost use Rattle.sspi_tokens.specs.Oids.{ms_krb5, krb5, ntlm_ssp, kind_of, identifier_of};
ghost use Rattle.sspi_tokens.specs.Reading.{init_of, targ_of};
ghost use Rattle.sspi_tokens.specs.Spelling.{spelled_init, spelled_targ, spelled_list};
ghost use Rattle.sspi_tokens.specs.declared.neg_token_init.NegTokenInit.{NegTokenInit};
ghost use Rattle.sspi_tokens.specs.declared.neg_token_targ.NegTokenTarg.{NegTokenTarg};

use crate::oid::MechKind;

/// `NegTokenInit::decode` follows the grammar: it reads a token exactly when the bytes begin with
/// that token, and they begin with no other.
pub fn init_is_grammar()
    ensures { (bytes : List ℕ) (token : NegTokenInit) → (init_of bytes ≡ Some token) ↔
        Begins IsInit bytes token }
{}

/// The same for `NegTokenTarg::decode`.
pub fn targ_is_grammar()
    ensures { (bytes : List ℕ) (token : NegTokenTarg) → (targ_of bytes ≡ Some token) ↔
        Begins IsTarg bytes token }
{}

/// An encoded `NegTokenInit` reads back, whatever follows it.
pub fn init_reads_back()
    ensures { (token : NegTokenInit) (text more : List ℕ) → spelled_init token ≡ Some text →
        init_of (text ++ more) ≡ Some token }
{}

/// An encoded `NegTokenTarg` reads back, whatever follows it.
pub fn targ_reads_back()
    ensures { (token : NegTokenTarg) (text more : List ℕ) → spelled_targ token ≡ Some text →
        targ_of (text ++ more) ≡ Some token }
{}

/// An encoding is that of at most one mechanism list, so a MIC over it is a MIC over the list.
pub fn list_is_known_by_spelling()
    ensures { (list other : List (List ℕ)) (text : List ℕ) → spelled_list list ≡ Some text →
        spelled_list other ≡ Some text → list ≡ other }
{}

/// Each known mechanism has exactly one identifier, which is recognized as that mechanism.
pub fn kinds_are_identifiers()
    ensures ms_kerberos { (oid : List ℕ) → (kind_of oid ≡ MechKind.MsKerberos) ↔ (oid ≡ ms_krb5) }
    ensures kerberos { (oid : List ℕ) → (kind_of oid ≡ MechKind.Kerberos) ↔ (oid ≡ krb5) }
    ensures ntlm { (oid : List ℕ) → (kind_of oid ≡ MechKind.Ntlm) ↔ (oid ≡ ntlm_ssp) }
    ensures known { (kind : MechKind) (oid : List ℕ) → identifier_of kind ≡ Some oid →
        kind_of oid ≡ kind }
{}
