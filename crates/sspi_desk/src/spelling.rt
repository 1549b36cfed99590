//! Encodes the answer of a session.

ghost use Rattle.sspi_desk.specs.Call.{Spells};

use sspi_ber::WireKind;
use sspi_tsreq::TsRequest;
use sspi_types::Bytes;
use std::alloc::{AllocError, Global};

/// The bytes of a message; `None` exactly if its content exceeds `sspi_ber::MAX_CONTENT`, 1048576
/// octets.
pub fn spell(alloc: Global, message: &TsRequest) -> Result<Option<Bytes>, AllocError>
    ensures { Spells message.now result }
{
    match message.encode(alloc) {
        Ok(text) => Ok(Some(Bytes::from_vec(text))),
        Err(WireKind::InsufficientMemory) => Err(AllocError),
        Err(_) => Ok(None),
    }
}
