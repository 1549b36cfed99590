//! A request behind a handle, with the memory of its encoding.
ghost use Rattle.std.specs.Prelude.{◌≡◌, ℕ, List, Result, Some};
ghost use Rattle.newaksu_c.specs.Giving.{Answers};
ghost use Rattle.newaksu_c.specs.Told.{filled};
ghost use Rattle.newaksu_c.specs.Requests.{IsEncoded};

use crate::giving::{answer, give};
use crate::status::wire_status;
use sspi_ber::{Sink, SinkError};
use sspi_tsreq::TsRequest;
use std::alloc::Global;
use std::marker::Model;

/// A sink in memory that serves one encoding after another.
#[derive(Drop)]
struct Room {
    bytes: Vec<u8>,
}

impl Model for Room {
    ghost use Rattle.std.specs.Prelude.{ℕ, List};

    ghost Value = { List ℕ };

    ghost view = { λ room. room.bytes.items };
}

impl Sink for Room {
    ghost use Rattle.std.specs.Prelude.{Some};

    ghost written = { λ room. Some room };

    ghost faults = { λ _. 0 };

    fn write(&mut self, piece: &[u8]) -> Result<usize, SinkError> {
        match self.bytes.extend_from_slice(piece) {
            Ok(()) => Ok(piece.len()),
            Err(_) => Err(SinkError::InsufficientMemory),
        }
    }
}

/// A request, and the memory of its last encoding, which the next one reuses.
#[derive(Drop)]
pub struct KeptRequest {
    pub(crate) request: TsRequest,
    room: Room,
}

impl Model for KeptRequest {
    ghost use Rattle.sspi_tsreq.specs.declared.request.TsRequest.{TsRequest};

    ghost Value = { TsRequest };

    ghost view = { λ kept. kept.request };
}

impl KeptRequest {
    /// A request that has not been encoded yet. Allocates nothing.
    pub(crate) fn new(alloc: Global, request: TsRequest) -> KeptRequest
        ensures { result ≡ request }
    {
        KeptRequest {
            request,
            room: Room {
                bytes: Vec::new(alloc),
            },
        }
    }

    /// Gives the shortest encoding.
    pub(crate) fn encode(&mut self, out: &mut [u8], written: &mut usize) -> u32
        ensures kept { self.new ≡ self.old }
        ensures gives { (text : Result (List ℕ) ℕ) × IsEncoded (Some self.old) text ×
            Answers text out.old out.new written.new result }
    {
        let KeptRequest { request, room } = self;
        let encoded = room.encode(request);
        room.give(encoded, out, written)
    }
}

impl Room {
    /// Replaces the previous encoding by that of this request.
    fn encode(&mut self, request: &TsRequest) -> Result<(), u32>
        ensures { IsEncoded (Some request.now) (filled self.new result) }
    {
        self.bytes.clear();
        match request.encode_ts_request(self) {
            Ok(()) => Ok(()),
            Err(kind) => Err(wire_status(kind)),
        }
    }

    /// Gives its bytes, or returns the status that says why it has none.
    fn give(&self, encoded: Result<(), u32>, out: &mut [u8], written: &mut usize) -> u32
        ensures { Answers (filled self.now encoded) out.old out.new written.new result }
    {
        match encoded {
            Ok(()) => give(self.bytes.as_slice(), out, written),
            Err(status) => answer(Err(status), out, written),
        }
    }
}
