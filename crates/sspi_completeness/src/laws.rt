//! Laws of contexts of plain NTLM or plain Kerberos, and of those that negotiate; and that
//! negotiating ends can match.
ghost use Rattle.std.specs.Prelude.{◌≡◌, ◌≤◌, ◌<◌, ◌^◌, ℕ, List, Option, length, false, nat_lt};
ghost use Rattle.std.specs.Prelude.{Some};
ghost use Rattle.sspi_names.specs.declared.identity.AuthIdentity.{AuthIdentity};
ghost use Rattle.sspi_names.specs.declared.network.NetworkRequest.{NetworkRequest};
ghost use Rattle.sspi_names.specs.Identity.{buffers_of};
ghost use Rattle.sspi_names.specs.Utf16.{text_of};
ghost use Rattle.sspi_mech.specs.declared.step.Reply.{Reply};
ghost use Rattle.sspi_mech.specs.PlainKdc.{told_by};
ghost use Rattle.sspi_negotiate.specs.Rows.{is_guest_text};
ghost use Rattle.sspi_completeness.specs.Examples.{example_target, example_ntlm, example_kerberos};
ghost use Rattle.sspi_completeness.specs.Examples.{example_ticket, example_kdc};
ghost use Rattle.sspi_completeness.specs.Matching.{AreMatching, messages_in};
ghost use Rattle.sspi_completeness.specs.Negotiating.{AreNegotiating, messages_by};
ghost use Rattle.sspi_completeness.specs.Worked.{Example, IsClientOf, IsServerOf, Matches};
ghost use Rattle.sspi_completeness.specs.Worked.{ntlm_example, realm_kdc};
ghost use Rattle.sspi_completeness.specs.Worked.{negotiated_at_version_4};
ghost use Rattle.sspi_completeness.specs.Worked.{negotiated_with_a_long_key, user_to_user};
ghost use Rattle.sspi_completeness.specs.Worked.{given_up_for_ntlm};
ghost use Rattle.sspi_credssp.specs.Ends.{ClientView, ServerView};
ghost use Rattle.sspi_credssp.specs.Table.{TableView, table_meaning};
ghost use Rattle.sspi_tsreq.specs.declared.mode.CredSspMode.{CredSspMode};
ghost use Rattle.sspi_credssp.specs.Context.{either, NeverRefuses};
ghost use Rattle.sspi_mech.specs.Kerberos.{kerberos_meaning};
ghost use Rattle.sspi_mech.specs.Ntlm.{ntlm_meaning};
ghost use Rattle.sspi_negotiate.specs.Negotiate.{negotiate};
ghost use Rattle.sspi_types.specs.declared.error_kind.ErrorKind.TheVariants.{DowngradeDetected};

use sspi_mech::Mechanism;

/// A context of plain NTLM or plain Kerberos refuses nothing as `DowngradeDetected`. Nor does one
/// over any two mechanisms that do not, even if it negotiates them. So an end with such a context
/// gives this refusal exactly if its peer is below the least version.
pub fn contexts_refuse_no_version<N: Mechanism, K: Mechanism>()
    // Of the plain mechanisms, and of a context that has either or negotiates them.
    ensures ntlm { NeverRefuses ntlm_meaning DowngradeDetected }
    ensures kerberos { NeverRefuses kerberos_meaning DowngradeDetected }
    ensures plain { NeverRefuses (either 0 ntlm_meaning kerberos_meaning) DowngradeDetected }
    // Of any two mechanisms.
    ensures negotiation { (requests : ℕ) → NeverRefuses N.meaning DowngradeDetected →
        NeverRefuses K.meaning DowngradeDetected →
        NeverRefuses (negotiate requests N.meaning K.meaning) DowngradeDetected }
    ensures either { (requests : ℕ) → NeverRefuses N.meaning DowngradeDetected →
        NeverRefuses K.meaning DowngradeDetected →
        NeverRefuses (either requests N.meaning K.meaning) DowngradeDetected }
{}

/// The negotiating ends of the examples match: both with Kerberos selected; the client with
/// Kerberos and the server with NTLM; both with NTLM. Each pair has what it needs, for every client
/// but a guest of NTLM, and completes after the stated number of messages.
pub fn negotiations_match()
    ensures kerberos { (identity : AuthIdentity) → (url ticket computer : List ℕ) →
        length ticket ≡ 32 →
        (ends : AreNegotiating (example_kdc identity) 0 (example_kerberos url computer)
        (example_ticket ticket computer)
        example_target identity) × (messages_by ends.begins ends.picked.choice ≡ 4) }
    ensures changed { (identity : AuthIdentity) → (url computer : List ℕ) →
        is_guest_text (text_of (buffers_of identity).user) ≡ false →
        (ends : AreNegotiating (example_kdc identity) 0 (example_kerberos url computer)
        (example_ntlm computer)
        example_target identity) × (messages_by ends.begins ends.picked.choice ≡ 5) }
    ensures ntlm { (told : Option (ℕ → NetworkRequest → Reply)) → (call : ℕ) →
        (identity : AuthIdentity) → (computer : List ℕ) →
        is_guest_text (text_of (buffers_of identity).user) ≡ false →
        (ends : AreNegotiating told call (example_ntlm computer) (example_ntlm computer)
        example_target identity) × (messages_by ends.begins ends.picked.choice ≡ 4) }
{}

/// The ends of the exchanges worked by hand match, with the stated number of the client's messages.
/// So what is promised of matching ends is promised of some. `C` is the type of an end's context.
pub fn worked_ends_match<C>()
    // An example that matches also does so as two ends that are made from it.
    ensures ends { (told : Option (ℕ → NetworkRequest → Reply)) → (call messages : ℕ) →
        (x : Example) → (client : ClientView C) →
        (server : ServerView C TableView) → IsClientOf x client → IsServerOf x server →
        Matches told call messages x →
        (matching : AreMatching table_meaning told call client server) ×
        (messages_in matching ≡ messages) }
    // NTLM alone, with a client that delegates its credentials or keeps them, at any two versions
    // that accept each other.
    ensures ntlm { (told : Option (ℕ → NetworkRequest → Reply)) → (call : ℕ) →
        (delegation : CredSspMode) → (client server least : ℕ) →
        nat_lt client 5 ≡ nat_lt server 5 → least ≤ server → least ≤ client → client < 2 ^ 32 →
        server < 2 ^ 32 →
        Matches told call 3 (ntlm_example delegation client server least) }
    // Negotiations: of NTLM, of Kerberos, and one that begins with Kerberos and comes to NTLM.
    ensures version_4 { (told : Option (ℕ → NetworkRequest → Reply)) → (call : ℕ) →
        Matches told call 4 negotiated_at_version_4 }
    ensures long_key { (told : Option (ℕ → NetworkRequest → Reply)) → (call : ℕ) →
        Matches told call 4 negotiated_with_a_long_key }
    ensures kerberos { Matches (Some (told_by realm_kdc.users realm_kdc.script))
        realm_kdc.asked 4 user_to_user }
    ensures changed { Matches (Some (told_by realm_kdc.users realm_kdc.script))
        realm_kdc.asked 5 given_up_for_ntlm }
{}
