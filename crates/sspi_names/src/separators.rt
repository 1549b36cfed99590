//! Finds the separators of a user name.

ghost use Rattle.std.specs.Prelude.{◌≡◌, ◌+◌, ◌<◌, false, take, drop, length, slice_index};
ghost use Rattle.std.specs.Prelude.{MatchOption};
ghost use Rattle.sspi_names.specs.Places.{IsFirst, IsLast};
ghost use Rattle.sspi_names.specs.Name.{at_sign, backslash, has_at_sign, has_backslash};
ghost use Rattle.sspi_names.specs.Name.{has_separator};

/// The position of the last `@`.
#[tactic(auto, using(crate::proofs::Found::last_at_sign_found))]
pub fn last_at_sign(text: &str) -> Option<usize>
    ensures { MatchOption result (has_at_sign text.now ≡ false) (λ at. IsLast at_sign text.now at) }
{
    text.rfind('@')
}

/// The position of the first `\`.
#[tactic(auto, using(crate::proofs::Found::first_backslash_found))]
pub fn first_backslash(text: &str) -> Option<usize>
    ensures { MatchOption result (has_backslash text.now ≡ false)
        (λ at. IsFirst backslash text.now at) }
{
    text.find('\\')
}

/// Whether the text contains `@`.
#[tactic(auto, using(crate::proofs::Found::contained))]
fn contains_at_sign(text: &str) -> bool
    ensures { result ≡ has_at_sign text.now }
{
    text.contains('@')
}

/// Whether the text contains `\`.
#[tactic(auto, using(crate::proofs::Found::contained))]
pub fn contains_backslash(text: &str) -> bool
    ensures { result ≡ has_backslash text.now }
{
    text.contains('\\')
}

/// Whether the text contains `@` or `\`.
pub fn contains_separator(text: &str) -> bool
    ensures { result ≡ has_separator text.now }
{
    contains_at_sign(text) || contains_backslash(text)
}

/// The text before the ASCII character at `at`.
pub fn before(text: &str, at: usize) -> &str
    requires within { at < length text.now }
    requires ascii { slice_index text.now at < 128 }
    ensures { result.now ≡ take at text.now }
{
    &text[..at]
}

/// The text after the ASCII character at `at`.
pub fn after(text: &str, at: usize) -> &str
    requires within { at < length text.now }
    requires ascii { slice_index text.now at < 128 }
    ensures { result.now ≡ drop (at + 1) text.now }
{
    &text[at + 1..]
}
