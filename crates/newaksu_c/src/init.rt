//! The first token of a client (NegTokenInit, RFC 4178 4.2.1).
ghost use Rattle.std.specs.Prelude.{◌≡◌, ℕ, List, None, Some, Ok, option_map, Result};
ghost use Rattle.sspi_types.specs.declared.error.Error.{Error as Fault};
ghost use Rattle.sspi_tokens.specs.Answers.{ReadsAs};
ghost use Rattle.sspi_tokens.specs.Reading.{init_of};
ghost use Rattle.sspi_tokens.specs.Spelling.{spelled_init, spelled_list};
ghost use Rattle.sspi_tokens.specs.declared.neg_token_init.NegTokenInit.{NegTokenInit as Token};
ghost use Rattle.newaksu_c.specs.declared.object.Object.TheVariants as objects;
ghost use Rattle.newaksu_c.specs.Giving.{Answers};
ghost use Rattle.newaksu_c.specs.Told.{items_of, told, told_list};
ghost use Rattle.newaksu_c.specs.Held.{init_in};
ghost use Rattle.newaksu_c.specs.Putting.{made, spelled, Puts};
ghost use Rattle.newaksu_c.specs.Requests.{Tells};
ghost use Rattle.newaksu_c.specs.Tokens.{count_of, item_at, item_of, mech_list, mech_token, of_it};
ghost use Rattle.newaksu_c.specs.Tokens.{there, IsSpelled};

use crate::giving::{answer, give_all};
use crate::handle::Handle;
use crate::object::{Object, init_of as token_of};
use crate::putting::put;
use crate::status::{ABSENT, INVALID_HANDLE, OK, kind_status};
use sspi_tokens::{MechTypeList, NegTokenInit, Oid, encode_mech_types};
use sspi_types::Error;
use std::alloc::Global;

/// A token without a list and without a mechanism's token.
#[unsafe(no_mangle)]
pub extern "C" fn newaksu_init_new(alloc: Global, handle: &mut Handle) -> u32
    ensures { Puts handle.old.held handle.new.held
        (Ok (objects.Init (record { mech_types = None; mech_token = None }))) result }
{
    put(
        alloc,
        handle,
        Object::Init(NegTokenInit {
            mech_types: None,
            mech_token: None,
        }),
    )
}

/// The token that the bytes begin with.
#[unsafe(no_mangle)]
pub extern "C" fn newaksu_init_decode(alloc: Global, handle: &mut Handle, bytes: &[u8]) -> u32
    ensures { (read : Result Token Fault) × ReadsAs (init_of bytes.now) read ×
        Puts handle.old.held handle.new.held (made objects.Init read) result }
{
    match NegTokenInit::decode(alloc, bytes) {
        Ok(token) => put(alloc, handle, Object::Init(token)),
        Err(error) => kind_status(error.error_type),
    }
}

pub(crate) fn spelling(text: Result<Vec<u8>, Error>) -> Result<Vec<u8>, u32>
    ensures { items_of result ≡ spelled text }
{
    match text {
        Ok(text) => Ok(text),
        Err(error) => Err(kind_status(error.error_type)),
    }
}

fn encoded(alloc: Global, object: &Option<Box<Object>>) -> Result<Vec<u8>, u32>
    ensures { IsSpelled spelled_init (there (init_in (option_map (λ b. b.value) object.now)))
        (items_of result) }
{
    match token_of(object) {
        Some(token) => spelling(token.encode(alloc)),
        None => Err(INVALID_HANDLE),
    }
}

/// The token in its shortest encoding.
#[unsafe(no_mangle)]
pub extern "C" fn newaksu_init_encode(
    alloc: Global,
    handle: &mut Handle,
    out: &mut [u8],
    written: &mut usize,
) -> u32
    ensures kept { handle.new.held ≡ handle.old.held }
    ensures gives { (text : Result (List ℕ) ℕ) ×
        IsSpelled spelled_init (there (init_in handle.old.held)) text × Answers text
        out.old out.new written.new result }
{
    let object = handle.take(alloc);
    let text = encoded(alloc, &object);
    handle.keep(object);
    give_all(text, out, written)
}

fn list_of(object: &Option<Box<Object>>) -> Result<&MechTypeList, u32>
    ensures { told_list result ≡ of_it mech_list (init_in (option_map (λ b. b.value) object.now)) }
{
    match token_of(object) {
        Some(token) => match &token.mech_types {
            Some(list) => Ok(list),
            None => Err(ABSENT),
        },
        None => Err(INVALID_HANDLE),
    }
}

fn list_encoded(alloc: Global, object: &Option<Box<Object>>) -> Result<Vec<u8>, u32>
    ensures { IsSpelled spelled_list (of_it mech_list
        (init_in (option_map (λ b. b.value) object.now))) (items_of result) }
{
    match list_of(object) {
        Ok(list) => spelling(encode_mech_types(alloc, list)),
        Err(status) => Err(status),
    }
}

/// The list of mechanisms alone, over which the MICs of a negotiation are made (RFC 4178 5).
#[unsafe(no_mangle)]
pub extern "C" fn newaksu_init_mech_list(
    alloc: Global,
    handle: &mut Handle,
    out: &mut [u8],
    written: &mut usize,
) -> u32
    ensures kept { handle.new.held ≡ handle.old.held }
    ensures gives { (text : Result (List ℕ) ℕ) ×
        IsSpelled spelled_list (of_it mech_list (init_in handle.old.held)) text ×
        Answers text out.old out.new written.new result }
{
    let object = handle.take(alloc);
    let text = list_encoded(alloc, &object);
    handle.keep(object);
    give_all(text, out, written)
}

fn count_in(object: &Option<Box<Object>>, count: &mut usize) -> u32
    ensures { Tells (count_of (of_it mech_list (init_in (option_map (λ b. b.value) object.now))))
        count.old count.new result }
{
    match list_of(object) {
        Ok(list) => {
            *count = list.as_slice().len();
            OK
        }
        Err(status) => status,
    }
}

/// How many mechanisms the list has.
#[unsafe(no_mangle)]
pub extern "C" fn newaksu_init_mech_count(
    alloc: Global,
    handle: &mut Handle,
    count: &mut usize,
) -> u32
    ensures kept { handle.new.held ≡ handle.old.held }
    ensures tells { Tells (count_of (of_it mech_list (init_in handle.old.held))) count.old count.new
        result }
{
    let object = handle.take(alloc);
    let status = count_in(&object, count);
    handle.keep(object);
    status
}

fn item_at(list: &[Oid], index: usize) -> Result<&[u8], u32>
    ensures { told result ≡ item_at index list.now }
{
    if index < list.len() {
        Ok(list[index].content())
    } else {
        Err(ABSENT)
    }
}

fn item_in(object: &Option<Box<Object>>, index: usize) -> Result<&[u8], u32>
    ensures { told result ≡ item_of index
        (of_it mech_list (init_in (option_map (λ b. b.value) object.now))) }
{
    match list_of(object) {
        Ok(list) => item_at(list.as_slice(), index),
        Err(status) => Err(status),
    }
}

/// The content bytes of a mechanism's identifier, by its index in the list.
#[unsafe(no_mangle)]
pub extern "C" fn newaksu_init_mech(
    alloc: Global,
    handle: &mut Handle,
    index: usize,
    out: &mut [u8],
    written: &mut usize,
) -> u32
    ensures kept { handle.new.held ≡ handle.old.held }
    ensures gives { Answers (item_of index (of_it mech_list (init_in handle.old.held))) out.old
        out.new written.new result }
{
    let object = handle.take(alloc);
    let status = answer(item_in(&object, index), out, written);
    handle.keep(object);
    status
}

fn token_in(object: &Option<Box<Object>>) -> Result<&[u8], u32>
    ensures { told result ≡ of_it mech_token (init_in (option_map (λ b. b.value) object.now)) }
{
    match token_of(object) {
        Some(token) => match &token.mech_token {
            Some(token) => Ok(token.as_slice()),
            None => Err(ABSENT),
        },
        None => Err(INVALID_HANDLE),
    }
}

/// The mechanism's token.
#[unsafe(no_mangle)]
pub extern "C" fn newaksu_init_token(
    alloc: Global,
    handle: &mut Handle,
    out: &mut [u8],
    written: &mut usize,
) -> u32
    ensures kept { handle.new.held ≡ handle.old.held }
    ensures gives { Answers (of_it mech_token (init_in handle.old.held)) out.old out.new written.new
        result }
{
    let object = handle.take(alloc);
    let status = answer(token_in(&object), out, written);
    handle.keep(object);
    status
}
