//! What a host knows about the negotiation of its end, and what it does before each call.
ghost use Rattle.std.specs.Prelude.{◌≡◌, ℕ, List, Ok, Some, Result, option_map};
ghost use Rattle.sspi_outside.specs.Course.{go_on, make_offer, Asking};
ghost use Rattle.sspi_tokens.specs.Spelling.{spelled_list};
ghost use Rattle.newaksu_c.specs.declared.object.Object.TheVariants as objects;
ghost use Rattle.newaksu_c.specs.Courses.{course_by, course_in, due_number, is_set, list_of};
ghost use Rattle.newaksu_c.specs.Courses.{mechanism_number, packages_by, status_by};
ghost use Rattle.newaksu_c.specs.Courses.{TakesAnswer, TakesOffer, TellsContinuation, TellsFirst};
ghost use Rattle.newaksu_c.specs.Giving.{Answers};
ghost use Rattle.newaksu_c.specs.Told.{items_of};
ghost use Rattle.newaksu_c.specs.Held.{init_in, targ_in};
ghost use Rattle.newaksu_c.specs.Putting.{Puts, Sets, SetsOr};
ghost use Rattle.newaksu_c.specs.Tokens.{of_it, IsSpelled};

use crate::giving::give_all;
use crate::handle::Handle;
use crate::init::spelling;
use crate::object::{Object, course_of, init_of, targ_of};
use crate::putting::put;
use crate::status::{INSUFFICIENT_MEMORY, INVALID_HANDLE, INVALID_PARAMETER, OK};
use sspi_negotiate::PackageListConfig;
use sspi_negotiate::protocol::Protocol;
use sspi_outside::{Course, Due};
use sspi_tokens::{NegTokenInit, NegTokenTarg, encode_mech_types};
use sspi_types::SecurityStatus;
use std::alloc::Global;

// The server chose a mechanism that may not be used (SEC_E_INVALID_TOKEN).
const INVALID_TOKEN: u32 = 0x80090308;

pub(crate) fn packages_by(mechanisms: u32) -> Result<PackageListConfig, u32>
    ensures { result ≡ packages_by mechanisms }
{
    match mechanisms {
        1 => Ok(PackageListConfig {
            ntlm: true,
            kerberos: false,
        }),
        2 => Ok(PackageListConfig {
            ntlm: false,
            kerberos: true,
        }),
        3 => Ok(PackageListConfig {
            ntlm: true,
            kerberos: true,
        }),
        _ => Err(INVALID_PARAMETER),
    }
}

fn number_of(mechanism: Protocol) -> u32
    ensures { result ≡ mechanism_number mechanism }
{
    match mechanism {
        Protocol::Kerberos => 2,
        Protocol::Ntlm => 3,
    }
}

fn due_number(due: Option<Due<'_>>) -> u32
    ensures { result ≡ due_number (option_map {U = Asking}
        (λ d. record { mechanism = d.mechanism; token = d.token.now }) due.entry) }
{
    match due {
        None => 0,
        Some(due) => number_of(due.mechanism),
    }
}

fn status_by(status: u32) -> SecurityStatus
    ensures { result ≡ status_by status }
{
    match status {
        0 => SecurityStatus::Ok,
        _ => SecurityStatus::ContinueNeeded,
    }
}

fn made(alloc: Global, mechanisms: u32, by_address: u32) -> Result<Object, u32>
    ensures { result ≡ course_by mechanisms by_address }
{
    let packages = packages_by(mechanisms)?;
    Ok(Object::Course(Course::new(alloc, packages, by_address != 0)))
}

/// For an end that has made no step: which mechanisms may be used, and whether a client's target is
/// named by its IP address.
#[unsafe(no_mangle)]
pub extern "C" fn newaksu_course_new(
    alloc: Global,
    handle: &mut Handle,
    mechanisms: u32,
    by_address: u32,
) -> u32
    ensures { Puts handle.old.held handle.new.held (course_by mechanisms by_address) result }
{
    match made(alloc, mechanisms, by_address) {
        Ok(course) => put(alloc, handle, course),
        Err(status) => status,
    }
}

// ---- a server's first token

fn take_offer(alloc: Global, course: &mut Course, offer: &NegTokenInit, mechanism: &mut u32) -> u32
    ensures { TakesOffer (Some (objects.Course course.old)) (Some (objects.Course course.new))
        mechanism.old mechanism.new result
        (Some course.old) (Some offer.now) }
{
    let due = due_number(course.offer_due(offer));
    match course.take_offer(alloc, offer) {
        Ok(()) => {
            *mechanism = due;
            OK
        }
        Err(_) => INSUFFICIENT_MEMORY,
    }
}

fn offer_in(
    alloc: Global,
    object: &mut Object,
    init: &Option<Box<Object>>,
    mechanism: &mut u32,
) -> u32
    ensures { TakesOffer (Some object.old) (Some object.new) mechanism.old mechanism.new result
        (course_in (Some object.old)) (init_in (option_map (λ b. b.value) init.now)) }
{
    let Object::Course(course) = object else {
        return INVALID_HANDLE;
    };
    match init_of(init) {
        Some(offer) => take_offer(alloc, course, offer, mechanism),
        None => INVALID_HANDLE,
    }
}

/// Takes the client's offer, and reports which mechanism steps with its token: 2 Kerberos, 3 NTLM,
/// 0 none.
#[unsafe(no_mangle)]
pub extern "C" fn newaksu_course_offer(
    alloc: Global,
    course: &mut Handle,
    init: &mut Handle,
    mechanism: &mut u32,
) -> u32
    ensures kept { init.new.held ≡ init.old.held }
    ensures takes { TakesOffer course.old.held course.new.held mechanism.old mechanism.new result
        (course_in course.old.held) (init_in init.old.held) }
{
    let Some(mut object) = course.take(alloc) else {
        return INVALID_HANDLE;
    };
    let token = init.take(alloc);
    let status = offer_in(alloc, &mut object, &token, mechanism);
    init.keep(token);
    course.put(object);
    status
}

// ---- later tokens

fn take_answer(course: &mut Course, token: &NegTokenTarg, mechanism: &mut u32) -> u32
    ensures { TakesAnswer (Some (objects.Course course.old)) (Some (objects.Course course.new))
        mechanism.old mechanism.new result
        (Some course.old) (Some token.now) }
{
    if !course.take_choice(token) {
        return INVALID_TOKEN;
    }
    *mechanism = due_number(course.continuation_due(token));
    OK
}

fn answer_in(object: &mut Object, targ: &Option<Box<Object>>, mechanism: &mut u32) -> u32
    ensures { TakesAnswer (Some object.old) (Some object.new) mechanism.old mechanism.new result
        (course_in (Some object.old)) (targ_in (option_map (λ b. b.value) targ.now)) }
{
    let Object::Course(course) = object else {
        return INVALID_HANDLE;
    };
    match targ_of(targ) {
        Some(token) => take_answer(course, token, mechanism),
        None => INVALID_HANDLE,
    }
}

/// On a client, takes the server's token and choice, and reports which mechanism steps with it.
#[unsafe(no_mangle)]
pub extern "C" fn newaksu_course_answer(
    alloc: Global,
    course: &mut Handle,
    targ: &mut Handle,
    mechanism: &mut u32,
) -> u32
    ensures kept { targ.new.held ≡ targ.old.held }
    ensures takes { TakesAnswer course.old.held course.new.held mechanism.old mechanism.new result
        (course_in course.old.held) (targ_in targ.old.held) }
{
    let Some(mut object) = course.take(alloc) else {
        return INVALID_HANDLE;
    };
    let token = targ.take(alloc);
    let status = answer_in(&mut object, &token, mechanism);
    targ.keep(token);
    course.put(object);
    status
}

fn continuation_in(
    object: &Option<Box<Object>>,
    targ: &Option<Box<Object>>,
    mechanism: &mut u32,
) -> u32
    ensures { TellsContinuation (option_map (λ b. b.value) object.now)
        (option_map (λ b. b.value) object.now)
        mechanism.old mechanism.new result (course_in (option_map (λ b. b.value) object.now))
        (targ_in (option_map (λ b. b.value) targ.now)) }
{
    let Some(course) = course_of(object) else {
        return INVALID_HANDLE;
    };
    match targ_of(targ) {
        Some(token) => {
            *mechanism = due_number(course.continuation_due(token));
            OK
        }
        None => INVALID_HANDLE,
    }
}

/// On a server, reports which mechanism steps with a client's later token.
#[unsafe(no_mangle)]
pub extern "C" fn newaksu_course_continuation(
    alloc: Global,
    course: &mut Handle,
    targ: &mut Handle,
    mechanism: &mut u32,
) -> u32
    ensures kept { targ.new.held ≡ targ.old.held }
    ensures tells { TellsContinuation course.old.held course.new.held mechanism.old mechanism.new
        result
        (course_in course.old.held) (targ_in targ.old.held) }
{
    let object = course.take(alloc);
    let token = targ.take(alloc);
    let status = continuation_in(&object, &token, mechanism);
    targ.keep(token);
    course.keep(object);
    status
}

// ---- a client's first step, and the outcome of a call

fn first_in(object: &mut Object, mechanism: &mut u32) -> u32
    ensures { TellsFirst (Some object.old) (Some object.new) mechanism.old mechanism.new result
        (course_in (Some object.old)) }
{
    let Object::Course(course) = object else {
        return INVALID_HANDLE;
    };
    course.address();
    *mechanism = number_of(course.hand);
    OK
}

/// Reports which mechanism makes a client's first step, with no token.
#[unsafe(no_mangle)]
pub extern "C" fn newaksu_course_first(
    alloc: Global,
    course: &mut Handle,
    mechanism: &mut u32,
) -> u32
    ensures { TellsFirst course.old.held course.new.held mechanism.old mechanism.new result
        (course_in course.old.held) }
{
    let Some(mut object) = course.take(alloc) else {
        return INVALID_HANDLE;
    };
    let status = first_in(&mut object, mechanism);
    course.put(object);
    status
}

fn offered_in(alloc: Global, object: &mut Object) -> u32
    ensures { SetsOr (course_in (Some object.old)) objects.Course (λ c. Ok (make_offer c))
        (Some object.old) (Some object.new) result }
{
    let Object::Course(course) = object else {
        return INVALID_HANDLE;
    };
    match course.make_offer(alloc) {
        Ok(()) => OK,
        Err(_) => INSUFFICIENT_MEMORY,
    }
}

/// After a client's first call: its offer was made.
#[unsafe(no_mangle)]
pub extern "C" fn newaksu_course_offered(alloc: Global, course: &mut Handle) -> u32
    ensures { SetsOr (course_in course.old.held) objects.Course (λ c. Ok (make_offer c))
        course.old.held course.new.held result }
{
    let Some(mut object) = course.take(alloc) else {
        return INVALID_HANDLE;
    };
    let status = offered_in(alloc, &mut object);
    course.put(object);
    status
}

fn go_on_in(object: &mut Object, ended: u32, status: u32) -> u32
    ensures { Sets (course_in (Some object.old)) objects.Course
        (go_on (is_set ended) (status_by status))
        (Some object.old) (Some object.new) result }
{
    let Object::Course(course) = object else {
        return INVALID_HANDLE;
    };
    course.go_on(ended != 0, status_by(status));
    OK
}

/// After each other call: takes whether the mechanism has ended, and what the negotiation answered,
/// 0 if it is over.
#[unsafe(no_mangle)]
pub extern "C" fn newaksu_course_go_on(
    alloc: Global,
    course: &mut Handle,
    ended: u32,
    status: u32,
) -> u32
    ensures { Sets (course_in course.old.held) objects.Course
        (go_on (is_set ended) (status_by status))
        course.old.held course.new.held result }
{
    let Some(mut object) = course.take(alloc) else {
        return INVALID_HANDLE;
    };
    let answer = go_on_in(&mut object, ended, status);
    course.put(object);
    answer
}

fn list_in(alloc: Global, object: &Option<Box<Object>>) -> Result<Vec<u8>, u32>
    ensures { IsSpelled spelled_list (of_it list_of
        (course_in (option_map (λ b. b.value) object.now))) (items_of result) }
{
    match course_of(object) {
        Some(course) => spelling(encode_mech_types(alloc, &course.list)),
        None => Err(INVALID_HANDLE),
    }
}

/// The list over which MICs are made and verified.
#[unsafe(no_mangle)]
pub extern "C" fn newaksu_course_list(
    alloc: Global,
    course: &mut Handle,
    out: &mut [u8],
    written: &mut usize,
) -> u32
    ensures kept { course.new.held ≡ course.old.held }
    ensures gives { (text : Result (List ℕ) ℕ) ×
        IsSpelled spelled_list (of_it list_of (course_in course.old.held)) text ×
        Answers text out.old out.new written.new result }
{
    let object = course.take(alloc);
    let text = list_in(alloc, &object);
    course.keep(object);
    give_all(text, out, written)
}
