//! Splits a text into lines, and a line at its first separator.

ghost use Rattle.std.specs.Prelude.{◌≡◌, ◌<◌, ◌∷◌, length, Some, None, MatchOption, IfSome};
ghost use Rattle.std.specs.Prelude.{option_copied};
ghost use Rattle.sspi_scenario.specs.Lines;
ghost use Rattle.sspi_scenario.specs.Lines.{lines_of, before_space, after_space};
ghost use Rattle.sspi_scenario.specs.Reads.{lines_after};

/// The first line of a text, without its LF, and the text after that LF if there is one.
pub fn first_line(text: &str) -> (&str, Option<&str>)
    ensures lines { lines_of text.now ≡ result.0.now ∷ lines_after (option_copied result.1) }
    ensures shorter { IfSome result.1 (λ rest. length rest.now < length text.now) }
{
    match text.split_once('\n') {
        Some((line, rest)) => (line, Some(rest)),
        None => (text, None),
    }
}

/// Whether a line is empty or a comment.
pub fn is_skipped(line: &str) -> bool
    ensures { result ≡ Lines.is_skipped line.now }
{
    line.is_empty() || line.as_bytes()[0] == b'#'
}

/// The parts before and after the first space, if there is one.
pub fn parted(text: &str) -> Option<(&str, &str)>
    ensures { MatchOption result (Lines.parted text.now ≡ None)
        (λ parts. Lines.parted text.now ≡ Some (parts.0.now, parts.1.now)) }
{
    text.split_once(' ')
}

/// The parts before and after the first space; without a space, the whole text and nothing.
pub fn sides(text: &str) -> (&str, &str)
    ensures before { result.0.now ≡ before_space text.now }
    ensures after { result.1.now ≡ after_space text.now }
{
    match parted(text) {
        Some(parts) => parts,
        None => (text, ""),
    }
}
