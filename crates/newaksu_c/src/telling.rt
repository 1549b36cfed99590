//! What an end waits for, and the effects and outcome of its last call.
ghost use Rattle.std.specs.Prelude.{◌≡◌, Err, Ok, option_map, IfErr, IfOk};
ghost use Rattle.newaksu_c.specs.Giving.{Answers};
ghost use Rattle.newaksu_c.specs.Told.{told};
ghost use Rattle.newaksu_c.specs.Held.{acts_in, last_in, state_in};
ghost use Rattle.newaksu_c.specs.Requests.{Tells};
ghost use Rattle.newaksu_c.specs.Telling.{acts_told, error_of, flag, identity_in, identity_part};
ghost use Rattle.newaksu_c.specs.Telling.{outcome_number, outcome_told, part_of, reason_of};
ghost use Rattle.newaksu_c.specs.Telling.{refusal_of, state_number, state_told, step_status};
ghost use Rattle.newaksu_c.specs.Telling.{stepped, told_acts, TellsAll};

use crate::ends::{acts_of, last_of, state_of};
use crate::giving::answer;
use crate::handle::Handle;
use crate::object::Object;
use crate::status::{ABSENT, INVALID_HANDLE, INVALID_PARAMETER, OK, kind_status};
use sspi_credssp::{Acts, CredSspState};
use sspi_names::AuthIdentity;
use sspi_outside::Last;
use sspi_types::{Error, SecurityStatus};
use std::alloc::Global;

/// What the last call of an end did on its context; each number but the status is 0 or 1.
#[repr(C)]
#[derive(Clone, Copy)]
pub struct ToldActs {
    /// A step returned a status.
    pub stepped: u32,
    /// The status that it returned: 0 if it ended the authentication, 0x90312 if that goes on.
    pub status: u32,
    /// The context took a step.
    pub negotiated: u32,
    /// The end sealed its proof of the channel's key.
    pub proved: u32,
    /// The peer's proof was opened.
    pub checked: u32,
    /// The client sealed its credentials.
    pub sealed: u32,
    /// The server opened them.
    pub opened: u32,
}

/// A refusal: the SSPI code of its kind, 1 if the peer sent an NTSTATUS code, and that code, else 0
/// for both.
#[derive(Clone, Copy)]
pub struct ToldRefusal {
    kind: u32,
    has_nstatus: u32,
    nstatus: u32,
}

fn number_of(state: CredSspState) -> u32
    ensures { result ≡ state_number state }
{
    match state {
        CredSspState::NegoToken => 0,
        CredSspState::PubKeyInfo => 1,
        CredSspState::AuthInfo => 2,
        CredSspState::Final => 3,
    }
}

/// What the end waits for.
#[unsafe(no_mangle)]
pub extern "C" fn newaksu_end_state(alloc: Global, end: &mut Handle, state: &mut u32) -> u32
    ensures kept { end.new.held ≡ end.old.held }
    ensures tells { Tells (state_told (state_in end.old.held)) state.old state.new result }
{
    let object = end.take(alloc);
    let found = state_of(&object);
    end.keep(object);
    match found {
        Some(found) => {
            *state = number_of(found);
            OK
        }
        None => INVALID_HANDLE,
    }
}

fn outcome_of(last: &Last) -> u32
    ensures { result ≡ outcome_number last.now }
{
    match last {
        Last::Nothing => 0,
        Last::Reply(_) => 1,
        Last::Final(_) => 2,
        Last::Finished(_) => 3,
        Last::Refused(_, _) => 4,
        Last::Asks(_) => 5,
    }
}

fn tell_outcome(object: &Option<Box<Object>>, outcome: &mut u32) -> u32
    ensures { Tells (outcome_told (last_in (option_map (λ b. b.value) object.now))) outcome.old
        outcome.new result }
{
    match last_of(object) {
        Some(last) => {
            *outcome = outcome_of(last);
            OK
        }
        None => INVALID_HANDLE,
    }
}

/// The outcome of the last message passed to the end.
#[unsafe(no_mangle)]
pub extern "C" fn newaksu_end_outcome(alloc: Global, end: &mut Handle, outcome: &mut u32) -> u32
    ensures kept { end.new.held ≡ end.old.held }
    ensures tells { Tells (outcome_told (last_in end.old.held)) outcome.old outcome.new result }
{
    let object = end.take(alloc);
    let status = tell_outcome(&object, outcome);
    end.keep(object);
    status
}

fn stepped(status: Option<SecurityStatus>) -> u32
    ensures { result ≡ stepped status }
{
    match status {
        Some(_) => 1,
        None => 0,
    }
}

fn step_status(status: Option<SecurityStatus>) -> u32
    ensures { result ≡ step_status status }
{
    match status {
        Some(status) => status.to_u32(),
        None => 0,
    }
}

fn told_of(acts: Acts) -> ToldActs
    ensures { result ≡ told_acts acts }
{
    ToldActs {
        stepped: stepped(acts.status),
        status: step_status(acts.status),
        negotiated: flag(acts.negotiated),
        proved: flag(acts.proved),
        checked: flag(acts.checked),
        sealed: flag(acts.sealed),
        opened: flag(acts.opened),
    }
}

fn flag(holds: bool) -> u32
    ensures { result ≡ flag holds }
{
    if holds { 1 } else { 0 }
}

/// What the last call of the end did on its context, even if it was refused.
#[unsafe(no_mangle)]
pub extern "C" fn newaksu_end_acts(alloc: Global, end: &mut Handle, acts: &mut ToldActs) -> u32
    ensures kept { end.new.held ≡ end.old.held }
    ensures tells { TellsAll (acts_told (acts_in end.old.held)) acts.old acts.new result }
{
    let object = end.take(alloc);
    let found = acts_of(&object);
    end.keep(object);
    match found {
        Some(found) => {
            *acts = told_of(found);
            OK
        }
        None => INVALID_HANDLE,
    }
}

fn error_of(object: &Option<Box<Object>>) -> Result<Error, u32>
    ensures { result ≡ error_of (last_in (option_map (λ b. b.value) object.now)) }
{
    match last_of(object) {
        Some(Last::Refused(error, _)) => Ok(*error),
        Some(_) => Err(ABSENT),
        None => Err(INVALID_HANDLE),
    }
}

fn refusal_of(error: Error) -> ToldRefusal
    ensures { Ok result ≡ refusal_of (Ok error) }
{
    let kind = kind_status(error.error_type);
    match error.nstatus {
        Some(code) => ToldRefusal {
            kind,
            has_nstatus: 1,
            nstatus: code.0,
        },
        None => ToldRefusal {
            kind,
            has_nstatus: 0,
            nstatus: 0,
        },
    }
}

/// The kind of the last refusal, and the NTSTATUS code that the peer sent, if it sent one.
#[unsafe(no_mangle)]
pub extern "C" fn newaksu_end_refusal(
    alloc: Global,
    end: &mut Handle,
    kind: &mut u32,
    has_nstatus: &mut u32,
    nstatus: &mut u32,
) -> u32
    ensures kept { end.new.held ≡ end.old.held }
    ensures tells { TellsAll (refusal_of (error_of (last_in end.old.held)))
        (record { kind = kind.old; has_nstatus = has_nstatus.old; nstatus = nstatus.old })
        (record { kind = kind.new; has_nstatus = has_nstatus.new; nstatus = nstatus.new }) result }
{
    let object = end.take(alloc);
    let found = error_of(&object);
    end.keep(object);
    match found {
        Ok(error) => {
            let refusal = refusal_of(error);
            *kind = refusal.kind;
            *has_nstatus = refusal.has_nstatus;
            *nstatus = refusal.nstatus;
            OK
        }
        Err(status) => status,
    }
}

fn reason_of(error: Result<Error, u32>) -> Result<&'static [u8], u32>
    ensures { told result ≡ reason_of error }
{
    match error {
        Ok(error) => Ok(error.description.text().as_bytes()),
        Err(status) => Err(status),
    }
}

/// Why the last call was refused, as a text in English.
#[unsafe(no_mangle)]
pub extern "C" fn newaksu_end_reason(
    alloc: Global,
    end: &mut Handle,
    out: &mut [u8],
    written: &mut usize,
) -> u32
    ensures kept { end.new.held ≡ end.old.held }
    ensures gives { Answers (reason_of (error_of (last_in end.old.held))) out.old out.new
        written.new result }
{
    let object = end.take(alloc);
    let found = error_of(&object);
    end.keep(object);
    answer(reason_of(found), out, written)
}

fn identity_of(object: &Option<Box<Object>>) -> Result<&AuthIdentity, u32>
    ensures ok { IfOk result (λ identity. identity_in
        (last_in (option_map (λ b. b.value) object.now)) ≡ Ok identity.now) }
    ensures err { IfErr result (λ status. identity_in
        (last_in (option_map (λ b. b.value) object.now)) ≡ Err status) }
{
    match last_of(object) {
        Some(Last::Finished(identity)) => Ok(identity),
        Some(_) => Err(ABSENT),
        None => Err(INVALID_HANDLE),
    }
}

fn part_of(identity: &AuthIdentity, which: u32) -> Result<&[u8], u32>
    ensures { told result ≡ part_of which identity.now }
{
    match which {
        0 => match identity.username.domain_name() {
            Some(domain) => Ok(domain.as_bytes()),
            None => Err(ABSENT),
        },
        1 => Ok(identity.username.account_name().as_bytes()),
        2 => Ok(identity.password.value.as_str().as_bytes()),
        3 => Ok(identity.username.inner().as_bytes()),
        _ => Err(INVALID_PARAMETER),
    }
}

fn part_in(object: &Option<Box<Object>>, which: u32) -> Result<&[u8], u32>
    ensures { told result ≡ identity_part which
        (identity_in (last_in (option_map (λ b. b.value) object.now))) }
{
    match identity_of(object) {
        Ok(identity) => part_of(identity, which),
        Err(status) => Err(status),
    }
}

/// A part of the identity that the client delegated, in UTF-8; only once the server has finished.
#[unsafe(no_mangle)]
pub extern "C" fn newaksu_server_identity(
    alloc: Global,
    server: &mut Handle,
    which: u32,
    out: &mut [u8],
    written: &mut usize,
) -> u32
    ensures kept { server.new.held ≡ server.old.held }
    ensures gives { Answers (identity_part which (identity_in (last_in server.old.held))) out.old
        out.new written.new result }
{
    let object = server.take(alloc);
    let status = answer(part_in(&object, which), out, written);
    server.keep(object);
    status
}
