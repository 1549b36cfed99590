//! SPNEGO tokens in the form that an end takes, and the list that the host signs.
ghost use Rattle.std.specs.Prelude.{◌≡◌, ◌≢◌, Some, None, IfOk, option_copied, option_map};
ghost use Rattle.newaksu_c.specs.declared.object.Object.TheVariants as objects;
ghost use Rattle.newaksu_c.specs.Courses.{good_over, signing_of, with_report, with_step};
ghost use Rattle.newaksu_c.specs.Giving.{Answers};
ghost use Rattle.newaksu_c.specs.Told.{told};
ghost use Rattle.newaksu_c.specs.Held.{init_in, targ_in};
ghost use Rattle.newaksu_c.specs.Putting.{SetsOr};
ghost use Rattle.newaksu_c.specs.Tokens.{of_it};
ghost use Rattle.sspi_outside.specs.Negotiated.{handed_offer as handed_offer_of};
ghost use Rattle.sspi_outside.specs.Negotiated.{handed_response as handed_response_of};

use crate::giving::answer;
use crate::handle::Handle;
use crate::object::{Object, targ_of};
use crate::status::{ABSENT, INSUFFICIENT_MEMORY, INVALID_HANDLE, OK};
use sspi_outside::{handed_offer, handed_response, list_to_sign};
use sspi_tokens::{NegTokenInit, NegTokenTarg};
use std::alloc::{AllocError, Global};

fn with_step(alloc: Global, token: &NegTokenInit, step: &[u8]) -> Result<NegTokenInit, AllocError>
    ensures { IfOk result (λ it. it ≡ handed_offer_of token.now step.now) }
{
    handed_offer(alloc, token.clone(alloc)?, step)
}

fn hand_offer(alloc: Global, object: &mut Object, step: &[u8]) -> u32
    ensures { SetsOr (init_in (Some object.old)) objects.Init (with_step step.now) (Some object.old)
        (Some object.new) result }
{
    let Object::Init(token) = object else {
        return INVALID_HANDLE;
    };
    match with_step(alloc, token, step) {
        Ok(handed) => {
            *token = handed;
            OK
        }
        Err(_) => INSUFFICIENT_MEMORY,
    }
}

/// Replaces the mechanism's token, if the offer has one, by the envelope of the step.
#[unsafe(no_mangle)]
pub extern "C" fn newaksu_init_hand(alloc: Global, init: &mut Handle, step: &[u8]) -> u32
    ensures { SetsOr (init_in init.old.held) objects.Init (with_step step.now) init.old.held
        init.new.held result }
{
    let Some(mut object) = init.take(alloc) else {
        return INVALID_HANDLE;
    };
    let status = hand_offer(alloc, &mut object, step);
    init.put(object);
    status
}

fn good_over(good: u32, list: &[u8]) -> Option<&[u8]>
    ensures { option_copied result ≡ good_over good list.now }
{
    match good {
        0 => None,
        _ => Some(list),
    }
}

fn with_report(
    alloc: Global,
    token: &NegTokenTarg,
    step: &[u8],
    verified: Option<&[u8]>,
) -> Result<NegTokenTarg, AllocError>
    ensures { IfOk result (λ it. it ≡ handed_response_of token.now step.now
        (option_copied verified.entry)) }
{
    handed_response(alloc, token.clone(alloc)?, step, verified)
}

fn hand_response(alloc: Global, object: &mut Object, step: &[u8], good: u32, list: &[u8]) -> u32
    ensures { SetsOr (targ_in (Some object.old)) objects.Targ (with_report step.now good list.now)
        (Some object.old) (Some object.new)
        result }
{
    let Object::Targ(token) = object else {
        return INVALID_HANDLE;
    };
    match with_report(alloc, token, step, good_over(good, list)) {
        Ok(handed) => {
            *token = handed;
            OK
        }
        Err(_) => INSUFFICIENT_MEMORY,
    }
}

/// Replaces the mechanism's token by the envelope of the step, and a MIC by a report of whether it
/// was good over this list.
#[unsafe(no_mangle)]
pub extern "C" fn newaksu_targ_hand(
    alloc: Global,
    targ: &mut Handle,
    step: &[u8],
    good: u32,
    list: &[u8],
) -> u32
    ensures { SetsOr (targ_in targ.old.held) objects.Targ (with_report step.now good list.now)
        targ.old.held targ.new.held result }
{
    let Some(mut object) = targ.take(alloc) else {
        return INVALID_HANDLE;
    };
    let status = hand_response(alloc, &mut object, step, good, list);
    targ.put(object);
    status
}

fn signing(object: &Option<Box<Object>>) -> Result<&[u8], u32>
    ensures { told result ≡ of_it signing_of (targ_in (option_map (λ b. b.value) object.now)) }
{
    match targ_of(object) {
        Some(token) => match list_to_sign(token) {
            Some(list) => Ok(list),
            None => Err(ABSENT),
        },
        None => Err(INVALID_HANDLE),
    }
}

/// The list that the host signs, and whose place its MIC then takes.
#[unsafe(no_mangle)]
pub extern "C" fn newaksu_targ_signing(
    alloc: Global,
    targ: &mut Handle,
    out: &mut [u8],
    written: &mut usize,
) -> u32
    ensures kept { targ.new.held ≡ targ.old.held }
    ensures gives { Answers (of_it signing_of (targ_in targ.old.held)) out.old out.new written.new
        result }
{
    let object = targ.take(alloc);
    let status = answer(signing(&object), out, written);
    targ.keep(object);
    status
}
