//! The trait of byte sinks, with a count of their faults.

ghost use Rattle.std.specs.Prelude.{◌<◌, ◌≤◌, IfOk, length};
ghost use Rattle.std.specs.Io.KnownBytes.{WriteAppends};
ghost use Rattle.sspi_ber.specs.Outside.{SinkCause};

/// Why a sink took no bytes.
#[derive(Clone, Copy, Debug, PartialEq, Eq)]
pub enum SinkError {
    /// The sink failed, and its count of faults rose. A later call may succeed.
    Failed,
    /// There was no memory for the bytes, which is not a fault.
    InsufficientMemory,
}

/// Where bytes go.
pub trait Sink {
    ghost use Rattle.std.specs.Prelude.{ℕ, List, Option};

    // The bytes that were written, if they are exposed.
    ghost written: { Self → Option (List ℕ) };

    // How often the sink failed. It never falls, and stays at `u64::MAX` once it is there.
    ghost faults: { Self → ℕ };

    /// Writes a prefix of `piece`, and returns how many bytes: at least one of a nonempty `piece`.
    /// If the write is refused, nothing was written.
    fn write(&mut self, piece: &[u8]) -> Result<usize, SinkError>
        ensures bound { IfOk result (λ count. count ≤ length piece.now) }
        ensures some { 0 < length piece.now → IfOk result (λ count. 0 < count) }
        ensures bytes { WriteAppends (written self.old) (written self.new) result piece.now }
        ensures cause { SinkCause (faults self.old) (faults self.new) result };
}
