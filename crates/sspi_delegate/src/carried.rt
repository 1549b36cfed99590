//! One entry of a link's log: what was sent, and what was delivered of it.

use sspi_credssp::End;
use sspi_types::Bytes;

/// An entry of a link's log: a message that was given to the link, and what was delivered of it.
#[derive(Drop)]
pub struct Carried {
    /// The end that sent it.
    pub from: End,
    /// The whole message, as its end gave it to the link.
    pub sent: Bytes,
    /// The part of the delivery that was read so far.
    pub delivered: Bytes,
    /// Whether the delivery was read to its end.
    pub ended: bool,
}
