//! A text whose lines of hex are explained in words.
ghost use Rattle.std.specs.Prelude.{◌≡◌, ◌≢◌, ◌<◌, ◌==◌, [], ◌∷◌, ◌++◌, length, IfOk, OnOk};
ghost use Rattle.sspi_explain.specs.Explained.{as_it_is, digits_of, explained, explained_line};
ghost use Rattle.sspi_explain.specs.Explained.{lines_of, mark_of};

use crate::message::push_message;
use hex::FromHexError;
use std::alloc::{AllocError, Global};

/// The text, with the line of each message replaced by what the message says.
///
/// A message is a line with an even number of hex digits of either case. It may follow one of the
/// marks `> `, `< ` and `! ` of this program's reports. What it says is a line with its name and
/// length, and a line for each field: its offset in the message, its name and its value. What a
/// reader ignores is shown as `ignored`. Where it refuses the message, the last line has the
/// offset, the error kind, the field, and what was found. Every other line is left as it was. Each
/// line written ends with LF. Fails only when out of memory.
#[tactic(auto, unfolding(crate::specs::Explained::explained, crate::specs::Explained::lines_of))]
pub fn explain(alloc: Global, text: &str) -> Result<Vec<u8>, AllocError>
    ensures { IfOk result (λ told. told.items ≡ explained text.now) }
{
    let mut told = Vec::new(alloc);
    let mut rest = text;
    'lines: while !is_end(rest) {
        let (line, after) = first_line(rest);
        push_line(alloc, &mut told, line)?;
        rest = after;
    }
    Ok(told)
}

fn is_end(text: &str) -> bool
    ensures { result ≡ (length text.now == 0) }
{
    text.is_empty()
}

/// The first line, and what follows its LF.
fn first_line(text: &str) -> (&str, &str)
    requires { text.now ≢ [] }
    ensures lines { lines_of text.now ≡ result.0.now ∷ lines_of result.1.now }
    ensures shorter { length result.1.now < length text.now }
{
    match text.split_once('\n') {
        Some(parts) => parts,
        None => (text, ""),
    }
}

#[tactic(auto, unfolding(crate::specs::Explained::explained_line))]
fn push_line(alloc: Global, told: &mut Vec<u8>, line: &str) -> Result<(), AllocError>
    ensures { OnOk result (told.new.items ≡ told.old.items ++ explained_line line.now) }
{
    let (mark, digits) = marked(line);
    match hex::decode(alloc, digits) {
        Ok(message) if !message.is_empty() => push_message(alloc, told, mark, &message),
        Err(FromHexError::OutOfMemory) => Err(AllocError),
        _ => push_as_it_is(alloc, told, line),
    }
}

fn push_as_it_is(alloc: Global, told: &mut Vec<u8>, line: &str) -> Result<(), AllocError>
    ensures { OnOk result (told.new.items ≡ told.old.items ++ as_it_is line.now) }
{
    let line = format!(in alloc; "{line}\n")?;
    told.extend_from_slice(line.as_bytes())
}

/// The mark that a line of a report begins with, and the rest of the line.
#[tactic(auto, unfolding(crate::specs::Explained::mark_of, crate::specs::Explained::digits_of))]
fn marked(line: &str) -> (&'static str, &[u8])
    ensures mark { result.0.now ≡ mark_of line.now }
    ensures digits { result.1.now ≡ digits_of line.now }
{
    let bytes = line.as_bytes();
    let Some((mark, behind)) = bytes.split_first() else {
        return ("", bytes);
    };
    let Some((space, digits)) = behind.split_first() else {
        return ("", bytes);
    };
    if *space != b' ' {
        return ("", bytes);
    }
    match *mark {
        b'>' => ("> ", digits),
        b'<' => ("< ", digits),
        b'!' => ("! ", digits),
        _ => ("", bytes),
    }
}
