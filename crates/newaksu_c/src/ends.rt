//! What every kind of end reports.
ghost use Rattle.std.specs.Prelude.{◌≡◌, option_copied, option_map};
ghost use Rattle.newaksu_c.specs.Held.{acts_in, is_hosted, last_in, state_in};

use crate::object::Object;
use sspi_credssp::{Acts, CredSspState};
use sspi_outside::Last;

/// The outcome of the last call of the end behind the handle.
pub(crate) fn last_of(object: &Option<Box<Object>>) -> Option<&Last>
    ensures { option_copied result ≡ last_in (option_map (λ b. b.value) object.now) }
{
    match &**object.as_ref()? {
        Object::Client(end) => Some(&end.last),
        Object::Server(end) => Some(&end.last),
        Object::PlainClient(end) => Some(&end.last),
        Object::PlainServer(end) => Some(&end.last),
        _ => None,
    }
}

/// What that call did on its context.
pub(crate) fn acts_of(object: &Option<Box<Object>>) -> Option<Acts>
    ensures { result ≡ acts_in (option_map (λ b. b.value) object.now) }
{
    match &**object.as_ref()? {
        Object::Client(end) => Some(end.client.last_acts()),
        Object::Server(end) => Some(end.server.last_acts()),
        Object::PlainClient(end) => Some(end.client.last_acts()),
        Object::PlainServer(end) => Some(end.server.last_acts()),
        _ => None,
    }
}

/// What the end waits for.
pub(crate) fn state_of(object: &Option<Box<Object>>) -> Option<CredSspState>
    ensures { result ≡ state_in (option_map (λ b. b.value) object.now) }
{
    match &**object.as_ref()? {
        Object::Client(end) => Some(end.client.state()),
        Object::Server(end) => Some(end.server.state()),
        Object::PlainClient(end) => Some(end.client.state()),
        Object::PlainServer(end) => Some(end.server.state()),
        _ => None,
    }
}

/// Whether the object is an end over the host's mechanism.
pub(crate) fn is_hosted(object: &Option<Box<Object>>) -> bool
    ensures { result ≡ is_hosted (option_map (λ b. b.value) object.now) }
{
    match object {
        Some(object) => matches!(&**object, Object::Client(_) | Object::Server(_)),
        None => false,
    }
}
