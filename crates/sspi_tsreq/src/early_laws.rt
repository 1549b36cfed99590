//! The laws of the early user authorization result, each on a function that does nothing.

ghost use Rattle.std.specs.Prelude.{◌≡◌, ◌++◌, ℕ, List, Some, Ok};
ghost use Rattle.sspi_tsreq.specs.declared.early.EarlyUserAuthResult.{EarlyUserAuthResult};
ghost use Rattle.sspi_tsreq.specs.Early.{early_result_at, early_result_text, number_of, result_of};

/// A written result is read back, and exactly its four bytes are consumed; no other result has its
/// number.
#[tactic(auto, using(crate::proofs::EarlyBack::read_back, crate::proofs::EarlyBack::number_back))]
pub fn written_result_is_read()
    ensures read { (r : EarlyUserAuthResult) (more : List ℕ) →
        early_result_at (early_result_text r ++ more) ≡ Ok (r, more) }
    ensures number { (r : EarlyUserAuthResult) → result_of (number_of r) ≡ Some r }
{}
