//! A source that keeps what it gave, so that the fault of a refused text can be reported later.
ghost use Rattle.std.specs.Prelude.{◌≡◌, ◌≤◌, [], Some, IfOk, OnErr, length, take};
ghost use Rattle.std.specs.Io.KnownBytes.{ReadConsumes};
ghost use Rattle.std.specs.Option.{option_map};
ghost use Rattle.sspi_ber.specs.Outside.{NextConsumes, SourceCause};
ghost use Rattle.sspi_program.specs.Keeping.{byte_of, Keeps};

use sspi_ber::{Source, SourceError};
use std::alloc::Global;
use std::marker::Model;

/// A source over another one. It gives what that one gives, and keeps a copy of it until memory for
/// that runs out.
#[derive(Drop)]
pub struct KeepingSource<S> {
    source: S,
    /// What was given so far; none once memory for it ran out.
    given: Option<Vec<u8>>,
}

impl<S> Model for KeepingSource<S> {
    ghost use Rattle.std.specs.Option.{option_map};
    ghost use Rattle.sspi_program.specs.Keeping.{KeepingView};

    ghost Value = { KeepingView S };

    ghost view = { λ source. record {
      source = source.source;
      given = option_map (λ given. given.items) source.given;
    } };
}

impl<S: Source> KeepingSource<S> {
    /// A source over this one that has given nothing yet.
    pub fn new(alloc: Global, source: S) -> KeepingSource<S>
        ensures { result ≡ record { source = source; given = Some [] } }
    {
        KeepingSource {
            source,
            given: Some(Vec::new(alloc)),
        }
    }

    /// What was given so far; none if memory for it ran out.
    pub fn given(&self) -> Option<&[u8]>
        ensures { option_map (λ given. given.now) result ≡ self.now.given }
    {
        match &self.given {
            Some(bytes) => Some(bytes.as_slice()),
            None => None,
        }
    }

    /// Keeps these bytes too. Without any, no memory is asked for.
    fn keep(&mut self, bytes: &[u8])
        ensures source { self.new.source ≡ self.old.source }
        ensures given { Keeps self.old.given self.new.given bytes.now }
    {
        if bytes.is_empty() {
            return;
        }
        let kept = match &mut self.given {
            Some(given) => given.extend_from_slice(bytes).is_ok(),
            None => true,
        };
        if !kept {
            self.given = None;
        }
    }
}

impl<S: Source> Source for KeepingSource<S> {
    ghost left = { λ source. S.left source.source };

    ghost faults = { λ source. S.faults source.source };

    /// What is read is kept too. A refused read leaves what was kept.
    fn read(&mut self, into: &mut [u8]) -> Result<usize, SourceError>
        // What a source promises.
        ensures bound { IfOk result (λ count. count ≤ length into.new) }
        ensures bytes { ReadConsumes (S.left self.old.source) (S.left self.new.source) result
            into.new }
        ensures cause { SourceCause (S.faults self.old.source) (S.faults self.new.source) result }
        // What is kept.
        ensures keeps { IfOk result (λ count. Keeps self.old.given self.new.given
            (take count into.new)) }
        ensures refused { OnErr result (self.new.given ≡ self.old.given) }
    {
        let count = self.source.read(into)?;
        self.keep(&into[..count]);
        Ok(count)
    }

    /// A byte that is read is kept too.
    fn next_byte(&mut self) -> Result<Option<u8>, SourceError>
        // What a source promises.
        ensures bytes { NextConsumes (S.left self.old.source) (S.left self.new.source) result }
        ensures cause { SourceCause (S.faults self.old.source) (S.faults self.new.source) result }
        // What is kept.
        ensures keeps { Keeps self.old.given self.new.given (byte_of result) }
    {
        let mut byte = [0u8];
        if self.read(&mut byte)? == 0 {
            return Ok(None);
        }
        Ok(Some(byte[0]))
    }
}
