//! Which end the words of the program ask for, and the file of its scenario.

ghost use Rattle.std.specs.Prelude.{◌≡◌, option_map};
ghost use Rattle.sspi_channel.specs.Asked.{end_in, end_named};

use sspi_credssp::End;

/// The end that these words of the program ask for, and the file of its scenario: `serve FILE` and
/// `connect FILE`.
pub fn end_of(words: &[String]) -> Option<(End, &str)>
    ensures { option_map (λ asked. (asked.0, asked.1.now)) result ≡ end_in words.now }
{
    match words {
        [word, file] => match end_named(word.as_str()) {
            Some(end) => Some((end, file.as_str())),
            None => None,
        },
        _ => None,
    }
}

fn end_named(word: &str) -> Option<End>
    ensures { result ≡ end_named word.now }
{
    match word {
        "serve" => Some(End::Server),
        "connect" => Some(End::Client),
        _ => None,
    }
}
