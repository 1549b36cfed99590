//! What the host has to seal of an end's message, and what is sent.
ghost use Rattle.std.specs.Prelude.{◌≡◌, ℕ, List, Ok, Err, option_map, Result};
ghost use Rattle.sspi_tsreq.specs.declared.request.TsRequest.{TsRequest as Message};
ghost use Rattle.sspi_outside.specs.Hosting.{message_of, sent};
ghost use Rattle.newaksu_c.specs.Giving.{Answers};
ghost use Rattle.newaksu_c.specs.Told.{items_of, told};
ghost use Rattle.newaksu_c.specs.Held.{acts_in, is_hosted, last_in};
ghost use Rattle.newaksu_c.specs.Requests.{present};
ghost use Rattle.newaksu_c.specs.SendingText.{IsMessageText};
ghost use Rattle.newaksu_c.specs.Sending.{field_for, is_seal, message_for, message_with, owed_in};
ghost use Rattle.newaksu_c.specs.Sending.{text_for};
ghost use Rattle.newaksu_c.specs.Settings.{OrMemory};

use crate::ends::{acts_of, is_hosted, last_of};
use crate::giving::{answer, give_all};
use crate::handle::Handle;
use crate::object::Object;
use crate::request::encoded_message;
use crate::status::{ABSENT, INSUFFICIENT_MEMORY, INVALID_HANDLE, INVALID_PARAMETER};
use sspi_outside::{Last, Owed};
use sspi_tsreq::TsRequest;
use std::alloc::Global;

fn owed_in(object: &Option<Box<Object>>) -> Result<Owed, u32>
    ensures { result ≡ owed_in (is_hosted (option_map (λ b. b.value) object.now))
        (acts_in (option_map (λ b. b.value) object.now))
        (last_in (option_map (λ b. b.value) object.now)) }
{
    let Some(acts) = acts_of(object) else {
        return Err(INVALID_HANDLE);
    };
    let Some(last) = last_of(object) else {
        return Err(INVALID_HANDLE);
    };
    if is_hosted(object) {
        Ok(last.owed(acts))
    } else {
        Ok(Owed::Neither)
    }
}

fn name_field(owed: Result<Owed, u32>, field: &mut u32)
    ensures { field.new ≡ field_for owed field.old }
{
    match owed {
        Ok(Owed::PubKeyAuth) => *field = 3,
        Ok(Owed::AuthInfo) => *field = 2,
        Ok(Owed::Neither) | Err(_) => {}
    }
}

fn text_for(object: &Option<Box<Object>>, owed: Result<Owed, u32>) -> Result<&[u8], u32>
    ensures { told result ≡ text_for owed (last_in (option_map (λ b. b.value) object.now)) }
{
    let owed = owed?;
    let Some(last) = last_of(object) else {
        return Err(INVALID_HANDLE);
    };
    match last.text(owed) {
        Some(text) => Ok(text),
        None => Err(ABSENT),
    }
}

/// The text of the end's message that the host has to seal, and for which field.
#[unsafe(no_mangle)]
pub extern "C" fn newaksu_end_sealing(
    alloc: Global,
    end: &mut Handle,
    field: &mut u32,
    out: &mut [u8],
    written: &mut usize,
) -> u32
    ensures kept { end.new.held ≡ end.old.held }
    ensures field { field.new ≡ field_for (owed_in (is_hosted end.old.held) (acts_in end.old.held)
        (last_in end.old.held)) field.old }
    ensures gives { Answers (text_for (owed_in (is_hosted end.old.held) (acts_in end.old.held)
        (last_in end.old.held))
        (last_in end.old.held)) out.old out.new written.new result }
{
    let object = end.take(alloc);
    let owed = owed_in(&object);
    name_field(owed, field);
    let status = answer(text_for(&object, owed), out, written);
    end.keep(object);
    status
}

fn is_seal(owed: Owed, blob: &[u8]) -> bool
    ensures { result ≡ is_seal owed blob.now }
{
    match owed {
        Owed::Neither => blob.len() == 0,
        Owed::PubKeyAuth => blob.len() >= 16,
        Owed::AuthInfo => blob.len() >= 16,
    }
}

fn as_made(alloc: Global, last: &Last) -> Result<TsRequest, u32>
    ensures { OrMemory result (present (message_of last.now)) }
{
    let Some(message) = last.message() else {
        return Err(ABSENT);
    };
    match message.clone(alloc) {
        Ok(message) => Ok(message),
        Err(_) => Err(INSUFFICIENT_MEMORY),
    }
}

fn as_sent(alloc: Global, last: &Last, owed: Owed, blob: &[u8]) -> Result<TsRequest, u32>
    ensures { OrMemory result (present (sent owed blob.now last.now)) }
{
    match last.sent(alloc, owed, blob) {
        Ok(Some(message)) => Ok(message),
        Ok(None) => Err(ABSENT),
        Err(_) => Err(INSUFFICIENT_MEMORY),
    }
}

fn message_with(
    alloc: Global,
    hosted: bool,
    owed: Owed,
    blob: &[u8],
    last: &Last,
) -> Result<TsRequest, u32>
    ensures { OrMemory result (message_with hosted owed blob.now last.now) }
{
    if !is_seal(owed, blob) {
        return Err(INVALID_PARAMETER);
    }
    if hosted {
        as_sent(alloc, last, owed, blob)
    } else {
        as_made(alloc, last)
    }
}

fn message_for(alloc: Global, object: &Option<Box<Object>>, blob: &[u8]) -> Result<TsRequest, u32>
    ensures { OrMemory result (message_for (is_hosted (option_map (λ b. b.value) object.now))
        (owed_in (is_hosted (option_map (λ b. b.value) object.now))
        (acts_in (option_map (λ b. b.value) object.now))
        (last_in (option_map (λ b. b.value) object.now))) blob.now
        (last_in (option_map (λ b. b.value) object.now))) }
{
    let owed = owed_in(object)?;
    match last_of(object) {
        Some(last) => message_with(alloc, is_hosted(object), owed, blob, last),
        None => Err(INVALID_HANDLE),
    }
}

fn text_of(alloc: Global, message: Result<TsRequest, u32>) -> Result<Vec<u8>, u32>
    ensures { IsMessageText message (items_of result) }
{
    let message = message?;
    encoded_message(alloc, &message)
}

/// The end's message for its peer, with the sealed blob in place of the text that the host had to
/// seal.
#[unsafe(no_mangle)]
pub extern "C" fn newaksu_end_message(
    alloc: Global,
    end: &mut Handle,
    sealed: &[u8],
    out: &mut [u8],
    written: &mut usize,
) -> u32
    ensures kept { end.new.held ≡ end.old.held }
    ensures gives { (message : Result Message ℕ) ×
        OrMemory message (message_for (is_hosted end.old.held)
        (owed_in (is_hosted end.old.held) (acts_in end.old.held) (last_in end.old.held)) sealed.now
        (last_in end.old.held)) ×
        ((text : Result (List ℕ) ℕ) × IsMessageText message text ×
        Answers text out.old out.new written.new result) }
{
    let object = end.take(alloc);
    let message = message_for(alloc, &object, sealed);
    end.keep(object);
    give_all(text_of(alloc, message), out, written)
}
