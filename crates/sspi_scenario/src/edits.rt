//! Reads an edit of a scenario's link.

ghost use Rattle.std.specs.Prelude.{◌≡◌};
ghost use Rattle.sspi_scenario.specs.Edits;
ghost use Rattle.sspi_scenario.specs.Edits.{edit_of, kind_of, set_of};
ghost use Rattle.sspi_scenario.specs.Reads.{Reads};

use crate::error::LineError;
use crate::hexadecimal;
use crate::lines::parted;
use crate::number::number;
use sspi_delegate::{Edit, EditKind};
use std::alloc::Global;

/// The edit of a text: the number of an entry, a space, and what is done to that entry.
#[tactic(auto, unfolding(crate::specs::Edits::edit_of))]
pub fn edit(alloc: Global, text: &str) -> Result<Edit, LineError>
    ensures { Reads result (edit_of text.now) }
{
    let Some((entry, action)) = parted(text) else {
        return Err(LineError::Fault);
    };
    let Some(entry) = number(entry) else {
        return Err(LineError::Fault);
    };
    Ok(Edit {
        entry,
        kind: kind(alloc, action)?,
    })
}

#[tactic(auto, unfolding(crate::specs::Edits::kind_of))]
fn kind(alloc: Global, action: &str) -> Result<EditKind, LineError>
    ensures { Reads result (kind_of action.now) }
{
    match parted(action) {
        Some((word, argument)) => kind_with(alloc, word, argument),
        None => kind_alone(action).ok_or(LineError::Fault),
    }
}

#[tactic(auto, using(crate::proofs::EditWords::is_drop, crate::proofs::EditWords::is_fail, crate::proofs::EditWords::none_alone))]
fn kind_alone(word: &str) -> Option<EditKind>
    ensures { result ≡ Edits.kind_alone word.now }
{
    match word {
        "drop" => Some(EditKind::Drop),
        "fail" => Some(EditKind::Fail),
        _ => None,
    }
}

#[tactic(auto, using(crate::proofs::EditWords::told), unfolding(crate::specs::Edits::add_of, crate::specs::Edits::give_of))]
fn kind_with(alloc: Global, word: &str, argument: &str) -> Result<EditKind, LineError>
    ensures { Reads result (Edits.kind_with word.now argument.now) }
{
    match word {
        "add" => Ok(EditKind::Add(hexadecimal::bytes(alloc, argument)?)),
        "give" => Ok(EditKind::Give(hexadecimal::bytes(alloc, argument)?)),
        _ => kind_by_number(word, argument).ok_or(LineError::Fault),
    }
}

#[tactic(auto, using(crate::proofs::EditWords::by_number), unfolding(crate::specs::Edits::cut_of, crate::specs::Edits::again_of))]
fn kind_by_number(word: &str, argument: &str) -> Option<EditKind>
    ensures { result ≡ Edits.kind_by_number word.now argument.now }
{
    match word {
        "cut" => Some(EditKind::Cut(number(argument)? as usize)),
        "set" => set(argument),
        "again" => Some(EditKind::Again(number(argument)?)),
        _ => None,
    }
}

#[tactic(auto, unfolding(crate::specs::Edits::set_of))]
fn set(argument: &str) -> Option<EditKind>
    ensures { result ≡ set_of argument.now }
{
    let (at, byte) = parted(argument)?;
    Some(EditKind::Set(number(at)? as usize, hexadecimal::byte(byte)?))
}
