//! Reads the whole text of a source, up to a limit.
ghost use Rattle.std.specs.Prelude.{◌≡◌, ◌+◌, ◌<◌, ◌≤◌, true, false, length, IfOk, MatchOption};
ghost use Rattle.std.specs.Str.{is_utf8};
ghost use Rattle.sspi_scenario.specs.Reading.{ReadsText, ReadsSoFar, TextCause, TakesAtMost};

use sspi_ber::Source;
use std::alloc::Global;
use std::str;

/// The most bytes that the text of a scenario may have.
pub const TEXT_LIMIT: usize = 1_048_576;

const PIECE_LENGTH: usize = 1024;

/// Why a source gave no text.
#[derive(Clone, Copy, Debug, PartialEq, Eq)]
pub enum TextError {
    /// The source has more bytes than the text may have.
    TooLong,
    /// The source failed.
    Failed,
    InsufficientMemory,
}

/// All that is left of a source, which may be at most `limit` bytes: `TEXT_LIMIT` for a scenario.
///
/// `TooLong` if more are left; one byte past the limit is then read, and no more. `Failed` if a
/// call on the source fails. At any other result no call failed: the count of faults is unchanged.
/// `InsufficientMemory` if memory runs out for the text. A refusal loses what was read: at most
/// `limit` bytes and one more.
pub fn read_text<S: Source>(
    alloc: Global,
    limit: usize,
    source: &mut S,
) -> Result<Vec<u8>, TextError>
    // What was read.
    ensures text { ReadsText limit (S.left source.old) result }
    ensures short { IfOk result (λ text. length text.items ≤ limit) }
    // What was taken from the source, and why no more.
    ensures taken { TakesAtMost (limit + 1) (S.left source.old) (S.left source.new) }
    ensures so_far { ReadsSoFar limit (S.left source.old) (S.left source.new) result }
    ensures cause { TextCause (S.faults source.old) (S.faults source.new) result }
{
    let mut text = Vec::new(alloc);
    let mut room = [0u8; PIECE_LENGTH];
    while text.len() <= limit {
        let most = most_at(limit, text.len());
        let Ok(count) = source.read(&mut room[..most]) else {
            return Err(TextError::Failed);
        };
        if count == 0 {
            return Ok(text);
        }
        let Ok(()) = text.extend_from_slice(&room[..count]) else {
            return Err(TextError::InsufficientMemory);
        };
    }
    Err(TextError::TooLong)
}

/// How many bytes to ask for once `read` bytes were read: never more than one past the limit.
fn most_at(limit: usize, read: usize) -> usize
    requires { read ≤ limit }
    ensures some { 0 < result }
    ensures room { result ≤ PIECE_LENGTH }
    ensures short { read + result ≤ limit + 1 }
{
    PIECE_LENGTH.min((limit - read).saturating_add(1))
}

/// These bytes as text, if they are UTF-8.
pub fn text_of(bytes: &[u8]) -> Option<&str>
    ensures { MatchOption result (is_utf8 bytes.now ≡ false)
        (λ text. (text.now ≡ bytes.now) × (is_utf8 bytes.now ≡ true)) }
{
    match str::from_utf8(bytes) {
        Ok(text) => Some(text),
        Err(_) => None,
    }
}
