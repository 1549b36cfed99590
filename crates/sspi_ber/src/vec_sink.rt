//! A sink in memory, which keeps what is written.

ghost use Rattle.std.specs.Prelude.{◌≡◌, [], IfOk};

use crate::sink::{Sink, SinkError};
use std::alloc::{AllocError, Global};
use std::marker::Model;

/// A sink in memory, which keeps what was written. It fails only when out of memory, which is not a
/// fault.
#[derive(Drop)]
pub struct VecSink {
    content: Vec<u8>,
}

impl Model for VecSink {
    ghost use Rattle.std.specs.Prelude.{ℕ, List};

    ghost Value = { List ℕ };

    ghost view = { λ sink. sink.content.items };
}

impl VecSink {
    /// A sink to which nothing was written. Allocates nothing.
    pub fn new(alloc: Global) -> VecSink
        ensures { result ≡ [] }
    {
        VecSink {
            content: Vec::new(alloc),
        }
    }

    /// The same with room for `capacity` bytes, so that writing that many allocates only once.
    pub fn with_capacity(alloc: Global, capacity: usize) -> Result<VecSink, AllocError>
        ensures { IfOk result (λ sink. sink ≡ []) }
    {
        Ok(VecSink {
            content: Vec::with_capacity(alloc, capacity)?,
        })
    }

    /// What was written so far.
    pub fn written(&self) -> &[u8]
        ensures { result.now ≡ self.now }
    {
        &self.content
    }

    /// What was written, moved out.
    pub fn into_inner(self) -> Vec<u8>
        ensures { result.items ≡ self }
    {
        self.content
    }
}

impl Sink for VecSink {
    ghost use Rattle.std.specs.Prelude.{Some};

    ghost written = { λ sink. Some sink };

    ghost faults = { λ _. 0 };

    fn write(&mut self, piece: &[u8]) -> Result<usize, SinkError> {
        match self.content.extend_from_slice(piece) {
            Ok(()) => Ok(piece.len()),
            Err(_) => Err(SinkError::InsufficientMemory),
        }
    }
}
