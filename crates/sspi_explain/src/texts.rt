//! The texts of counts and contents.
ghost use Rattle.std.specs.Prelude.{◌≡◌, string_bytes, IfOk};
ghost use Rattle.sspi_explain.specs.Texts;
ghost use Rattle.sspi_explain.specs.Texts.{bytes_word, content_text, count_text, counted, shown};

use std::alloc::{AllocError, Global};

/// How many bytes of a content are shown.
const SHOWN: usize = 64;

#[tactic(auto, unfolding(crate::specs::Texts::bytes_word))]
fn bytes_word(count: usize) -> &'static str
    ensures { result.now ≡ bytes_word count }
{
    if count == 1 { "byte" } else { "bytes" }
}

/// How many bytes there are, in words.
#[tactic(auto, unfolding(crate::specs::Texts::count_text))]
pub(crate) fn count_text(alloc: Global, count: usize) -> Result<String, AllocError>
    ensures { IfOk result (λ text. string_bytes text ≡ count_text count) }
{
    let word = bytes_word(count);
    let text = format!(in alloc; "{count} {word}")?;
    Ok(text)
}

/// The first bytes of a content in hex.
#[tactic(auto, unfolding(crate::specs::Texts::shown))]
fn shown(alloc: Global, content: &[u8]) -> Result<String, AllocError>
    ensures { IfOk result (λ text. string_bytes text ≡ shown content.now) }
{
    if content.len() <= SHOWN {
        return hex::encode(alloc, content);
    }
    let digits = hex::encode(alloc, &content[..SHOWN])?;
    format!(in alloc; "{digits}..")
}

/// A content: how many bytes it has, and the first of them in hex.
#[tactic(auto, unfolding(crate::specs::Texts::content_text))]
pub(crate) fn content_text(alloc: Global, content: &[u8]) -> Result<String, AllocError>
    ensures { IfOk result (λ text. string_bytes text ≡ content_text content.now) }
{
    if content.is_empty() {
        return String::from_str(alloc, "0 bytes");
    }
    counted(alloc, content)
}

#[tactic(auto, unfolding(crate::specs::Texts::counted))]
fn counted(alloc: Global, content: &[u8]) -> Result<String, AllocError>
    ensures { IfOk result (λ text. string_bytes text ≡ counted content.now) }
{
    let count = count_text(alloc, content.len())?;
    let shown = shown(alloc, content)?;
    let text = format!(in alloc; "{count} {shown}")?;
    Ok(text)
}
