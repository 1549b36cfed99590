//! Reads decimal numbers.

ghost use Rattle.std.specs.Prelude.{◌≡◌};
ghost use Rattle.sspi_scenario.specs.Numbers.{number_of};

/// The decimal number that a text is: without a sign or a leading zero, and below 2^32.
pub fn number(text: &str) -> Option<u32>
    ensures { result ≡ number_of text.now }
{
    let digits = text.as_bytes();
    if digits.is_empty() || digits[0] == b'+' {
        return None;
    }
    if digits.len() > 1 && digits[0] == b'0' {
        return None;
    }
    text.parse().ok()
}
