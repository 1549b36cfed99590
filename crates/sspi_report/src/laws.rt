//! Laws about reports, each on a function that does nothing.

ghost use Rattle.std.specs.Prelude.{◌≡◌, ℕ, List, [], ◌++◌, ◌⊎◌};
ghost use Rattle.hex.specs.Hex.{encode_lower, IsBytes};
ghost use Rattle.sspi_delegate.specs.declared.carried.Carried.{Carried};
ghost use Rattle.sspi_report.specs.Entries.{entry_text, line, mark};

/// The lines of an entry show which end sent it, and what was sent, whatever follows.
#[tactic(auto, using(crate::proofs::Telling::same_entry))]
pub fn an_entry_tells_what_was_sent()
    ensures { (first second : Carried) (more more2 : List ℕ) → IsBytes first.sent →
        IsBytes second.sent
        → entry_text first ++ more ≡ entry_text second ++ more2
        → (first.from ≡ second.from) × (first.sent ≡ second.sent) }
{}

/// An entry has one line if nothing was delivered, or exactly what was sent.
pub fn an_unaltered_entry_has_one_line()
    ensures { (entry : Carried) → (entry.delivered ≡ []) ⊎ (entry.delivered ≡ entry.sent)
        → entry_text entry ≡ line (mark entry.from ++ encode_lower entry.sent) }
{}
