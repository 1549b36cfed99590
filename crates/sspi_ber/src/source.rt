//! The trait of byte sources, with a count of their faults.

ghost use Rattle.std.specs.Prelude.{◌≤◌, IfOk, length};
ghost use Rattle.std.specs.Io.KnownBytes.{ReadConsumes};
ghost use Rattle.sspi_ber.specs.Outside.{SourceCause, NextConsumes};

/// Why a source gave no bytes.
#[derive(Clone, Copy, Debug, PartialEq, Eq)]
pub enum SourceError {
    /// The source failed. Nothing was taken, and a later call may succeed.
    Failed,
}

/// Where bytes come from.
pub trait Source {
    ghost use Rattle.std.specs.Prelude.{ℕ, List, Option};

    // The bytes that are left, if they are exposed.
    ghost left: { Self → Option (List ℕ) };

    // How often the source failed. It never falls, and stays at `u64::MAX` once it is there.
    ghost faults: { Self → ℕ };

    /// Reads the next bytes into `into`, and returns how many. If `into` is not empty, 0 means that
    /// nothing is left.
    fn read(&mut self, into: &mut [u8]) -> Result<usize, SourceError>
        ensures bound { IfOk result (λ count. count ≤ length into.new) }
        ensures bytes { ReadConsumes (left self.old) (left self.new) result into.new }
        ensures cause { SourceCause (faults self.old) (faults self.new) result };

    /// The next byte, or `None` at the end: the same as a read of one byte.
    fn next_byte(&mut self) -> Result<Option<u8>, SourceError>
        ensures bytes { NextConsumes (left self.old) (left self.new) result }
        ensures cause { SourceCause (faults self.old) (faults self.new) result }
    {
        let mut byte = [0u8];
        if self.read(&mut byte)? == 0 {
            return Ok(None);
        }
        Ok(Some(byte[0]))
    }
}
