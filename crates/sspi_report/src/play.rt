//! The report of a play.

ghost use Rattle.std.specs.Prelude.{◌≡◌, ◌++◌, codes, string_bytes, IfOk, OnOk};
ghost use Rattle.sspi_report.specs.Entries.{line};
ghost use Rattle.sspi_report.specs.Play.{ending_text, identity_text, message_text, play_text};
ghost use Rattle.sspi_report.specs.Play.{standing_line, turn_text};

use crate::entries::{mark, push_line};
use crate::names::fault_name;
use sspi_ber::WireKind;
use sspi_credssp::Turn;
use sspi_names::AuthIdentity;
use sspi_play::{Ending, Played};
use sspi_tsreq::TsRequest;
use std::alloc::{AllocError, Global};

/// The report of a play, in UTF-8: a line for each message that a turn made, the first turn first,
/// unless it is too long to be written; and then one line with the state of the ends.
///
/// Each line ends with LF. Fails only when out of memory.
#[tactic(auto, unfolding(crate::specs::Play::play_text))]
pub fn play_report(alloc: Global, turns: &[Turn], played: &Played) -> Result<Vec<u8>, AllocError>
    ensures { IfOk result (λ text. text.items ≡ play_text turns.now played.now) }
{
    let mut text = String::new(alloc);
    for turn in turns {
        push_turn(alloc, &mut text, turn)?;
    }
    push_standing(&mut text, played)?;
    Ok(text.into_bytes())
}

/// Appends the line of the message that a turn made, if it did.
fn push_turn(alloc: Global, text: &mut String, turn: &Turn) -> Result<(), AllocError>
    ensures { OnOk result (string_bytes text.new ≡ string_bytes text.old ++ turn_text turn.now) }
{
    match turn.outcome.message() {
        Some(message) => push_message(alloc, text, mark(turn.end), message),
        None => Ok(()),
    }
}

/// Appends the line of a message, unless it is too long to be written.
fn push_message(
    alloc: Global,
    text: &mut String,
    mark: &str,
    message: &TsRequest,
) -> Result<(), AllocError>
    ensures { OnOk result (string_bytes text.new ≡ string_bytes text.old ++
        message_text mark.now message.now) }
{
    match message.encode(alloc) {
        Ok(octets) => push_line(alloc, text, mark, &octets),
        Err(WireKind::InvalidData) => Ok(()),
        Err(_) => Err(AllocError),
    }
}

/// Appends the line with the state of the ends.
fn push_standing(text: &mut String, played: &Played) -> Result<(), AllocError>
    ensures { OnOk result (string_bytes text.new ≡ string_bytes text.old ++
        standing_line played.now) }
{
    push_end(text, "play client=", played.client)?;
    push_end(text, " server=", played.server)?;
    push_identity(text, &played.identity)
}

/// Appends this text and then the state of an end.
fn push_end(text: &mut String, name: &str, ending: Ending) -> Result<(), AllocError>
    ensures { OnOk result (string_bytes text.new ≡ string_bytes text.old ++
        (name.now ++ ending_text ending)) }
{
    text.push_str(name)?;
    push_ending(text, ending)
}

fn push_identity(text: &mut String, identity: &Option<AuthIdentity>) -> Result<(), AllocError>
    ensures { OnOk result (string_bytes text.new ≡ string_bytes text.old ++
        line (codes " identity=" ++ identity_text identity.now)) }
{
    text.push_str(" identity=")?;
    text.push_str(identity_name(identity))?;
    text.push('\n')
}

fn push_ending(text: &mut String, ending: Ending) -> Result<(), AllocError>
    ensures { OnOk result (string_bytes text.new ≡ string_bytes text.old ++ ending_text ending) }
{
    match ending {
        Ending::Running => text.push_str("running"),
        Ending::Refused(kind) => text.push_str(kind.name()),
        Ending::Unread(kind) => {
            text.push_str("unread-")?;
            text.push_str(fault_name(kind))
        }
    }
}

fn identity_name(identity: &Option<AuthIdentity>) -> &str
    ensures { result.now ≡ identity_text identity.now }
{
    match identity {
        Some(identity) => identity.username.inner(),
        None => "-",
    }
}
