//! Laws about requests, each on a function that does nothing.

ghost use Rattle.std.specs.Prelude.{◌≡◌, ℕ, ◌<◌, List, ◌∷◌, ◌++◌, length, take, Some, IsTrue};
ghost use Rattle.sspi_ber.specs.Pieces.{Ended, Invalid, zeros};
ghost use Rattle.sspi_ber.specs.Forms.{IsLength};
ghost use Rattle.sspi_tsreq.specs.Reading.{fault, body_fault};
ghost use Rattle.sspi_tsreq.specs.Grammar.{IsBody, IsRequest, IsRequestValue};
ghost use Rattle.sspi_tsreq.specs.Settled.{IsNoTag, IsSettled};
ghost use Rattle.sspi_tsreq.specs.Spelling.{carried, fits, spelled};
ghost use Rattle.sspi_tsreq.specs.declared.request.TsRequest.{TsRequest};

/// Bytes that begin with the encoding of a request that fits are read as what its version carries.
/// Exactly the encoding is consumed, whatever follows.
#[tactic(auto, using(crate::proofs::RoundTrip::spelled_again))]
pub fn spelled_is_read()
    ensures { (r : TsRequest) (more : List ℕ) → IsRequestValue r → IsTrue (fits r)
        → IsRequest (spelled r ++ more) (carried r) (length (spelled r)) }
{}

/// The same when nothing follows, as after encoding.
#[tactic(auto, using(crate::proofs::RoundTrip::spelled_whole))]
pub fn encoded_is_read()
    ensures { (r : TsRequest) → IsRequestValue r → IsTrue (fits r) →
        IsRequest (spelled r) (carried r) (length (spelled r)) }
{}

/// What is read from an encoding has the same encoding again.
#[tactic(auto, using(crate::proofs::RoundTrip::carried_once, crate::proofs::RoundTrip::spelled_once))]
pub fn carried_is_spelled_again()
    ensures carried { (r : TsRequest) → carried (carried r) ≡ carried r }
    ensures spelled { (r : TsRequest) → spelled (carried r) ≡ spelled r }
{}

/// Bytes begin with at most one request.
pub fn one_is_read()
    ensures { (bytes : List ℕ) (r s : TsRequest) (k j : ℕ) → IsRequest bytes r k →
        IsRequest bytes s j → (r ≡ s) × (k ≡ j) }
{}

/// A request is read the same whatever follows it, and also from its own bytes alone.
#[tactic(auto, using(crate::proofs::RoundTrip::more_request, crate::proofs::Fronts::alone_request))]
pub fn what_follows_is_ignored()
    ensures followed { (bytes more : List ℕ) (r : TsRequest) (count : ℕ) → IsRequest bytes r count →
        IsRequest (bytes ++ more) r count }
    ensures alone { (bytes : List ℕ) (r : TsRequest) (count : ℕ) → IsRequest bytes r count →
        IsRequest (take count bytes) r count }
{}

/// A request that is cut short anywhere is not read, and its fault is `Ended`.
pub fn cut_request_has_ended()
    ensures { (bytes : List ℕ) (r : TsRequest) (count j : ℕ) → IsRequest bytes r count → j < count →
        fault (take j bytes) ≡ Some Ended }
{}

/// No proper prefix of an encoding is read.
pub fn no_front_is_read()
    ensures { (r s : TsRequest) (j k : ℕ) → IsRequestValue r → IsTrue (fits r) →
        j < length (spelled r)
        → IsRequest (take j (spelled r)) s k → ⊥ }
{}

/// What is read is a value that a request may have, so it can be written again if it fits.
#[tactic(auto, using(crate::proofs::Ranges::read_value))]
pub fn read_is_value()
    ensures { (bytes : List ℕ) (r : TsRequest) (count : ℕ) → IsRequest bytes r count →
        IsRequestValue r }
{}

/// Bytes that begin with a SEQUENCE and its whole content have the fault of that content, whatever
/// follows it. All other bytes have the fault `Ended`.
#[tactic(auto, using(crate::proofs::Faults::framed, crate::proofs::Faults::unframed))]
pub fn fault_is_of_the_body()
    ensures framed { (len body after : List ℕ) → IsLength len (length body)
        → fault ((0x30 ∷ len) ++ (body ++ after)) ≡ body_fault body }
    ensures unframed { (bytes : List ℕ)
        → ((len body after : List ℕ) → IsLength len (length body) →
        bytes ≡ (0x30 ∷ len) ++ (body ++ after) → ⊥)
        → fault bytes ≡ Some Ended }
{}

/// A content that is refused as `InvalidData` stays refused so, whatever is appended to it.
#[tactic(auto, using(crate::proofs::Faults::body_stays))]
pub fn invalid_is_final()
    ensures { (body more : List ℕ) → body_fault body ≡ Some Invalid →
        body_fault (body ++ more) ≡ Some Invalid }
{}

/// Enough further bytes, even zeros, settle a content that ends too early: it is then read, or
/// refused as `InvalidData`.
#[tactic(auto, using(crate::proofs::Faults::body_settles))]
pub fn end_is_settled()
    ensures { (body : List ℕ) → (count : ℕ) × (body_fault (body ++ zeros count) ≡ Some Ended → ⊥) }
{}

/// A byte after the last field, if it begins no optional field, hides all that follows it in the
/// content.
#[tactic(auto, using(crate::proofs::Tails::tail_ignored))]
pub fn tail_is_ignored()
    ensures { (body more : List ℕ) (r : TsRequest) (byte : ℕ) → IsNoTag byte → IsBody body r →
        IsBody (body ++ byte ∷ more) r }
{}

/// Enough zeros after any content settle it for good: the same request is read whatever follows,
/// or the content is refused as `InvalidData` whatever follows.
#[tactic(auto, using(crate::proofs::Tails::settled))]
pub fn end_is_settled_for_good()
    ensures { (body : List ℕ) → (count : ℕ) × IsSettled (body ++ zeros count) }
{}
