//! Laws about what the host reports.
ghost use Rattle.std.specs.Prelude.{◌≡◌, ◌++◌, ℕ, List, None, Some};
ghost use Rattle.sspi_outside.specs.Envelope.{no_tag, text_in};
ghost use Rattle.sspi_outside.specs.Hosting.{closed};
ghost use Rattle.sspi_outside.specs.Negotiated.{ListToSignIsTheEnds, MicIsGoodAsReported};
ghost use Rattle.sspi_outside.specs.Reported.{CredentialsAreAwaitedOnceProved};
ghost use Rattle.sspi_outside.specs.Reported.{CredentialsFollowTheProof, IdentityIsReported};
ghost use Rattle.sspi_outside.specs.Reported.{ServerProofFollowsTheProof};

use sspi_credssp::CredentialsProxy;

/// A text after sixteen zeros is what the host opened.
#[tactic(auto, unfolding(crate::specs::Envelope::text_in))]
pub fn reported_text_is_opened()
    ensures { (text : List ℕ) → text_in (no_tag ++ text) ≡ Some text }
{}

/// A blob that the host did not open has no text, whatever was received.
pub fn unopened_blob_has_no_text()
    ensures { (blob : List ℕ) → text_in (closed blob) ≡ None }
{}

/// A client's credentials are to be sealed only in a call in which the host reported exactly the
/// proof that the server owes: at the pinned version, over the client's nonce and the channel's
/// key.
pub fn credentials_follow_the_proof()
    ensures { CredentialsFollowTheProof }
{}

/// A server proves its key only in a call in which the host reported exactly the proof that the
/// client owes. Only such a call makes it wait for the credentials.
pub fn server_proof_follows_the_proof<C: CredentialsProxy>()
    ensures proof { ServerProofFollowsTheProof C.meaning }
    ensures state { CredentialsAreAwaitedOnceProved C.meaning }
{}

/// A server reports an identity only if it was waiting for the credentials. It takes it from a text
/// that the host reported in that call.
pub fn identity_is_reported<C: CredentialsProxy>()
    ensures { IdentityIsReported C.meaning }
{}

/// A received MIC verifies over exactly the list over which the host reported it to be good, and
/// over none if it reported none.
pub fn mic_is_good_as_reported()
    ensures { MicIsGoodAsReported }
{}

/// What a negotiation signs is what the host is asked to sign.
pub fn list_to_sign_is_the_ends()
    ensures { ListToSignIsTheEnds }
{}
