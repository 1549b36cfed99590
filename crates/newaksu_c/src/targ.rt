//! Every later token (NegTokenResp, RFC 4178 4.2.2).
ghost use Rattle.std.specs.Prelude.{◌≡◌, ℕ, List, None, Some, Ok, option_map, Result};
ghost use Rattle.sspi_types.specs.declared.error.Error.{Error as Fault};
ghost use Rattle.sspi_tokens.specs.Answers.{ReadsAs};
ghost use Rattle.sspi_tokens.specs.Reading.{targ_of};
ghost use Rattle.sspi_tokens.specs.Spelling.{spelled_targ};
ghost use Rattle.sspi_tokens.specs.declared.neg_token_targ.NegTokenTarg.{NegTokenTarg as Token};
ghost use Rattle.newaksu_c.specs.declared.object.Object.TheVariants as objects;
ghost use Rattle.newaksu_c.specs.Giving.{Answers};
ghost use Rattle.newaksu_c.specs.Told.{items_of, told};
ghost use Rattle.newaksu_c.specs.Held.{targ_in};
ghost use Rattle.newaksu_c.specs.Putting.{made, Puts};
ghost use Rattle.newaksu_c.specs.Requests.{present, Tells};
ghost use Rattle.newaksu_c.specs.Tokens.{of_it, result_number, targ_field, targ_state, there};
ghost use Rattle.newaksu_c.specs.Tokens.{IsSpelled};

use crate::giving::{answer, give_all};
use crate::handle::Handle;
use crate::init::spelling;
use crate::object::{Object, targ_of as token_of};
use crate::putting::put;
use crate::status::{ABSENT, INVALID_HANDLE, INVALID_PARAMETER, OK, kind_status};
use sspi_tokens::{NegResult, NegTokenTarg};
use sspi_types::Bytes;
use std::alloc::Global;

/// A token without fields.
#[unsafe(no_mangle)]
pub extern "C" fn newaksu_targ_new(alloc: Global, handle: &mut Handle) -> u32
    ensures { Puts handle.old.held handle.new.held (Ok (objects.Targ
        (record {
          neg_result = None;
          supported_mech = None;
          response_token = None;
          mech_list_mic = None;
        }))) result }
{
    put(
        alloc,
        handle,
        Object::Targ(NegTokenTarg {
            neg_result: None,
            supported_mech: None,
            response_token: None,
            mech_list_mic: None,
        }),
    )
}

/// The token that the bytes begin with.
#[unsafe(no_mangle)]
pub extern "C" fn newaksu_targ_decode(alloc: Global, handle: &mut Handle, bytes: &[u8]) -> u32
    ensures { (read : Result Token Fault) × ReadsAs (targ_of bytes.now) read ×
        Puts handle.old.held handle.new.held (made objects.Targ read) result }
{
    match NegTokenTarg::decode(alloc, bytes) {
        Ok(token) => put(alloc, handle, Object::Targ(token)),
        Err(error) => kind_status(error.error_type),
    }
}

fn encoded(alloc: Global, object: &Option<Box<Object>>) -> Result<Vec<u8>, u32>
    ensures { IsSpelled spelled_targ (there (targ_in (option_map (λ b. b.value) object.now)))
        (items_of result) }
{
    match token_of(object) {
        Some(token) => spelling(token.encode(alloc)),
        None => Err(INVALID_HANDLE),
    }
}

/// The token in its shortest encoding.
#[unsafe(no_mangle)]
pub extern "C" fn newaksu_targ_encode(
    alloc: Global,
    handle: &mut Handle,
    out: &mut [u8],
    written: &mut usize,
) -> u32
    ensures kept { handle.new.held ≡ handle.old.held }
    ensures gives { (text : Result (List ℕ) ℕ) ×
        IsSpelled spelled_targ (there (targ_in handle.old.held)) text × Answers text
        out.old out.new written.new result }
{
    let object = handle.take(alloc);
    let text = encoded(alloc, &object);
    handle.keep(object);
    give_all(text, out, written)
}

fn number_of(state: NegResult) -> u32
    ensures { result ≡ result_number state }
{
    match state {
        NegResult::AcceptComplete => 0,
        NegResult::AcceptIncomplete => 1,
        NegResult::Other => 2,
    }
}

fn state_in(object: &Option<Box<Object>>, state: &mut u32) -> u32
    ensures { Tells (of_it targ_state (targ_in (option_map (λ b. b.value) object.now))) state.old
        state.new result }
{
    match token_of(object) {
        Some(token) => match token.neg_result {
            Some(found) => {
                *state = number_of(found);
                OK
            }
            None => ABSENT,
        },
        None => INVALID_HANDLE,
    }
}

/// What the sender says about the negotiation (`negState`).
#[unsafe(no_mangle)]
pub extern "C" fn newaksu_targ_state(alloc: Global, handle: &mut Handle, state: &mut u32) -> u32
    ensures kept { handle.new.held ≡ handle.old.held }
    ensures tells { Tells (of_it targ_state (targ_in handle.old.held)) state.old state.new result }
{
    let object = handle.take(alloc);
    let status = state_in(&object, state);
    handle.keep(object);
    status
}

fn present(bytes: &Option<Bytes>) -> Result<&[u8], u32>
    ensures { told result ≡ present bytes.now }
{
    match bytes {
        Some(bytes) => Ok(bytes.as_slice()),
        None => Err(ABSENT),
    }
}

fn field_of(token: &NegTokenTarg, field: u32) -> Result<&[u8], u32>
    ensures { told result ≡ targ_field field token.now }
{
    match field {
        1 => match &token.supported_mech {
            Some(oid) => Ok(oid.content()),
            None => Err(ABSENT),
        },
        2 => present(&token.response_token),
        3 => present(&token.mech_list_mic),
        _ => Err(INVALID_PARAMETER),
    }
}

fn field_in(object: &Option<Box<Object>>, field: u32) -> Result<&[u8], u32>
    ensures { told result ≡ of_it (targ_field field)
        (targ_in (option_map (λ b. b.value) object.now)) }
{
    match token_of(object) {
        Some(token) => field_of(token, field),
        None => Err(INVALID_HANDLE),
    }
}

/// A field of the token: the content bytes of `supportedMech`, the octets of `responseToken` or of
/// `mechListMIC`.
#[unsafe(no_mangle)]
pub extern "C" fn newaksu_targ_field(
    alloc: Global,
    handle: &mut Handle,
    field: u32,
    out: &mut [u8],
    written: &mut usize,
) -> u32
    ensures kept { handle.new.held ≡ handle.old.held }
    ensures gives { Answers (of_it (targ_field field) (targ_in handle.old.held)) out.old out.new
        written.new result }
{
    let object = handle.take(alloc);
    let status = answer(field_in(&object, field), out, written);
    handle.keep(object);
    status
}
