//! Equality of texts, ignoring the case of ASCII letters.

ghost use Rattle.std.specs.Prelude.{◌≡◌};
ghost use Rattle.sspi_names.specs.Name.{same_text};

/// Whether two texts are equal, ignoring the case of ASCII letters.
pub fn is_same(a: &str, b: &str) -> bool
    ensures { result ≡ same_text a.now b.now }
{
    a.eq_ignore_ascii_case(b)
}
