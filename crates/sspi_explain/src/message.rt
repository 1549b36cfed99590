//! A message of any kind.
ghost use Rattle.std.specs.Prelude.{◌≡◌, ◌++◌, OnOk};
ghost use Rattle.sspi_explain.specs.Message.{first_line, lines_of, message_text, other_text};
ghost use Rattle.sspi_explain.specs.Message.{request_page};
ghost use Rattle.sspi_explain.specs.Request.{request_told};
ghost use Rattle.std.specs.Prelude.{codes, length, None, Some};
ghost use Rattle.sspi_explain.specs.Told.{spot};

use crate::depth::Depth;
use crate::field::Form;
use crate::page::Page;
use crate::place::Place;
use crate::request::tell_request;
use crate::stop::Stop;
use crate::texts::{content_text, count_text};
use crate::token::{Kind, kind_of, tell_token};
use std::alloc::{AllocError, Global};

/// Appends what a message says, after the mark of its line.
#[tactic(auto, unfolding(crate::specs::Message::message_text))]
pub(crate) fn push_message(
    alloc: Global,
    text: &mut Vec<u8>,
    mark: &str,
    message: &[u8],
) -> Result<(), AllocError>
    ensures { OnOk result (text.new.items ≡ text.old.items ++ message_text mark.now message.now) }
{
    match message.first() {
        None => push_unknown(alloc, text, mark, message),
        Some(0x30) => push_request(alloc, text, mark, message),
        Some(_) => match kind_of(message) {
            Some(kind) => push_token(alloc, text, mark, kind, message),
            None => push_unknown(alloc, text, mark, message),
        },
    }
}

/// The first line: what the message is, and its length.
fn push_first(
    alloc: Global,
    text: &mut Vec<u8>,
    mark: &str,
    name: &str,
    message: &[u8],
) -> Result<(), AllocError>
    ensures { OnOk result (text.new.items ≡ text.old.items ++
        first_line mark.now name.now message.now) }
{
    let count = count_text(alloc, message.len())?;
    let line = format!(in alloc; "{mark}{name} {count}\n")?;
    text.extend_from_slice(line.as_bytes())
}

fn push_unknown(
    alloc: Global,
    text: &mut Vec<u8>,
    mark: &str,
    message: &[u8],
) -> Result<(), AllocError>
    ensures { OnOk result (text.new.items ≡ text.old.items ++
        other_text mark.now None message.now) }
{
    let content = content_text(alloc, message)?;
    let line = format!(in alloc; "{mark}unknown {content}\n")?;
    text.extend_from_slice(line.as_bytes())
}

fn push_request(
    alloc: Global,
    text: &mut Vec<u8>,
    mark: &str,
    message: &[u8],
) -> Result<(), AllocError>
    ensures { OnOk result (text.new.items ≡ text.old.items ++
        first_line mark.now (codes "TSRequest") message.now ++
        lines_of (request_told request_page (spot message.now (length message.now)))) }
{
    push_first(alloc, text, mark, "TSRequest", message)?;
    let mut page = Page::new(alloc, Form::Request, Depth::One)?;
    let mut place = Place::new(message, message.len());
    match tell_request(&mut page, &mut place) {
        Ok(()) => text.extend_from_slice(page.text.as_bytes()),
        Err(Stop::Refused(_)) => text.extend_from_slice(page.text.as_bytes()),
        Err(Stop::OutOfMemory) => Err(AllocError),
    }
}

fn push_token(
    alloc: Global,
    text: &mut Vec<u8>,
    mark: &str,
    kind: Kind,
    message: &[u8],
) -> Result<(), AllocError>
    ensures { OnOk result (text.new.items ≡ text.old.items ++
        other_text mark.now (Some kind) message.now) }
{
    push_first(alloc, text, mark, kind.name(), message)?;
    let mut page = Page::new(alloc, Form::Token, Depth::One)?;
    let mut place = Place::new(message, message.len());
    match tell_token(&mut page, &mut place, kind) {
        Ok(()) => text.extend_from_slice(page.text.as_bytes()),
        Err(Stop::Refused(_)) => text.extend_from_slice(page.text.as_bytes()),
        Err(Stop::OutOfMemory) => Err(AllocError),
    }
}
