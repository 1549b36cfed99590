//! What a server reads in a client's AP request.

ghost use Rattle.std.specs.Prelude.{◌≡◌, IfErr, IsOk};
ghost use Rattle.sspi_mech.specs.KerberosSteps.{arrival_of};
ghost use Rattle.sspi_mech.specs.Answered.{Gives};

use crate::kerberos::messages::read_ap_request;
use crate::named::text_in;
use crate::refusal::Refusal;
use sspi_names::Username;
use sspi_types::{ErrorKind, Reason};
use std::alloc::Global;

/// Who a client says it is, and the session key that it sent.
#[derive(Drop)]
pub struct Arrival {
    /// The name that the client gave.
    pub name: Username,
    /// The session key.
    pub key: [u8; 32],
}

/// What a client says in its AP request. It allocates only for a name that a client may have.
pub fn arrival_of(alloc: Global, message: &[u8]) -> Result<Arrival, Refusal>
    ensures answer { Gives result (arrival_of message.now) }
    ensures memory { IfErr result (λ error. error.error_type ≡ ErrorKind.InsufficientMemory →
        IsOk (arrival_of message.now)) }
{
    let Some((name, key)) = read_ap_request(message) else {
        return Err(Refusal::malformed());
    };
    let Some(text) = text_in(name) else {
        return Err(Refusal::new(ErrorKind::InvalidToken, Reason::Utf));
    };
    let name = Username::parse(alloc, text)?;
    Ok(Arrival { name, key: *key })
}
