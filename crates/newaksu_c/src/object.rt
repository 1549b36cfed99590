//! The objects that can be behind a handle.
ghost use Rattle.std.specs.Prelude.{◌≡◌, option_copied, option_map, IfOk, IfErr};
ghost use Rattle.newaksu_c.specs.Held.{kind_in, request_in, init_in, targ_in, credentials_in};
ghost use Rattle.newaksu_c.specs.Held.{identities_in};
ghost use Rattle.newaksu_c.specs.Courses.{course_in};
ghost use Rattle.newaksu_c.specs.Status.{insufficient_memory};

use crate::identity_list::IdentityList;
use crate::kept_request::KeptRequest;
use crate::status::INSUFFICIENT_MEMORY;
use sspi_mech::Ntlm;
use sspi_names::CredentialsBuffers;
use sspi_outside::{ClientEnd, Course, Outside, Peers, ServerEnd};
use sspi_tokens::{NegTokenInit, NegTokenTarg};
use sspi_tsreq::{TsReader, TsRequest};
use std::alloc::Global;

/// An object that C keeps by a handle. An end, much larger than the others, has memory of its own,
/// so that moving another object moves few bytes.
#[derive(Drop)]
pub enum Object {
    /// A TSRequest.
    Request(KeptRequest),
    /// A reader of a TSRequest in pieces.
    Reader(TsReader),
    /// The first token of a client.
    Init(NegTokenInit),
    /// A later token.
    Targ(NegTokenTarg),
    /// The texts of TSCredentials.
    Credentials(CredentialsBuffers),
    /// The identities that a server knows.
    Identities(IdentityList),
    /// A client over the host's mechanism.
    Client(Box<ClientEnd<Outside, Outside>>),
    /// A server over the host's mechanism.
    Server(Box<ServerEnd<Outside, Outside, Peers>>),
    /// A client over plain NTLM.
    PlainClient(Box<ClientEnd<Ntlm, Ntlm>>),
    /// A server over plain NTLM.
    PlainServer(Box<ServerEnd<Ntlm, Ntlm, Peers>>),
    /// What a host knows about its negotiation.
    Course(Course),
}

/// Moves an end to memory of its own.
pub(crate) fn boxed<T: Drop>(alloc: Global, end: T) -> Result<Box<T>, u32>
    ensures ok { IfOk result (λ it. it.value ≡ end) }
    ensures err { IfErr result (λ status. status ≡ insufficient_memory) }
{
    match Box::new(alloc, end) {
        Ok(end) => Ok(end),
        Err(_) => Err(INSUFFICIENT_MEMORY),
    }
}

/// The number of the kind of object behind a handle.
pub(crate) fn kind_of(object: &Option<Box<Object>>) -> u32
    ensures { result ≡ kind_in (option_map (λ b. b.value) object.now) }
{
    let Some(object) = object else {
        return 0;
    };
    match &**object {
        Object::Request(_) => 1,
        Object::Reader(_) => 2,
        Object::Init(_) => 3,
        Object::Targ(_) => 4,
        Object::Credentials(_) => 5,
        Object::Identities(_) => 6,
        Object::Client(_) => 7,
        Object::Server(_) => 8,
        Object::PlainClient(_) => 9,
        Object::PlainServer(_) => 10,
        Object::Course(_) => 11,
    }
}

/// The request behind the handle, if that is what it holds.
pub(crate) fn request_of(object: &Option<Box<Object>>) -> Option<&TsRequest>
    ensures { option_copied result ≡ request_in (option_map (λ b. b.value) object.now) }
{
    match &**object.as_ref()? {
        Object::Request(KeptRequest { request, .. }) => Some(request),
        _ => None,
    }
}

/// The init behind the handle, if that is what it holds.
pub(crate) fn init_of(object: &Option<Box<Object>>) -> Option<&NegTokenInit>
    ensures { option_copied result ≡ init_in (option_map (λ b. b.value) object.now) }
{
    match &**object.as_ref()? {
        Object::Init(init) => Some(init),
        _ => None,
    }
}

/// The targ behind the handle, if that is what it holds.
pub(crate) fn targ_of(object: &Option<Box<Object>>) -> Option<&NegTokenTarg>
    ensures { option_copied result ≡ targ_in (option_map (λ b. b.value) object.now) }
{
    match &**object.as_ref()? {
        Object::Targ(targ) => Some(targ),
        _ => None,
    }
}

/// The credentials behind the handle, if that is what it holds.
pub(crate) fn credentials_of(object: &Option<Box<Object>>) -> Option<&CredentialsBuffers>
    ensures { option_copied result ≡ credentials_in (option_map (λ b. b.value) object.now) }
{
    match &**object.as_ref()? {
        Object::Credentials(credentials) => Some(credentials),
        _ => None,
    }
}

/// The identities behind the handle, if that is what it holds.
pub(crate) fn identities_of(object: &Option<Box<Object>>) -> Option<&IdentityList>
    ensures { option_copied result ≡ identities_in (option_map (λ b. b.value) object.now) }
{
    match &**object.as_ref()? {
        Object::Identities(identities) => Some(identities),
        _ => None,
    }
}

/// The course behind the handle, if that is what it holds.
pub(crate) fn course_of(object: &Option<Box<Object>>) -> Option<&Course>
    ensures { option_copied result ≡ course_in (option_map (λ b. b.value) object.now) }
{
    match &**object.as_ref()? {
        Object::Course(course) => Some(course),
        _ => None,
    }
}
