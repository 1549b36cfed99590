//! What the lines read so far say.

ghost use Rattle.std.specs.Prelude.{◌≡◌, [], IfOk, OnOk};
ghost use Rattle.sspi_scenario.specs.Drafts.{draft_of, Takes, Completes, draft_completed, noted};

use crate::error::LineError;
use crate::key::{Key, has, has_required, is_excluded};
use crate::lines::{is_skipped, sides};
use crate::purpose::Purpose;
use crate::scenario::{Scenario, ScenarioError};
use crate::values::{Values, given_up};
use sspi_types::Rows;
use std::alloc::{AllocError, Global};

/// What the lines so far say.
#[derive(Drop)]
pub struct Draft {
    values: Values,
    /// Their keys, each once.
    seen: Rows<Key>,
}

impl Draft {
    /// The draft of no lines.
    #[tactic(auto, unfolding(crate::specs::Drafts::draft_of, crate::specs::Scenario::values_of))]
    pub fn new(alloc: Global) -> Result<Draft, AllocError>
        ensures { IfOk result (λ draft. draft ≡ draft_of []) }
    {
        match Values::new(alloc) {
            Ok(values) => Ok(Draft {
                values,
                seen: Rows::new(alloc),
            }),
            Err(_) => Err(AllocError),
        }
    }

    /// Takes one line of a scenario for this purpose. `Fault` if it is no such line, or if earlier
    /// lines exclude it; `InsufficientMemory` if memory runs out.
    pub fn take_line(
        &mut self,
        alloc: Global,
        purpose: Purpose,
        line: &str,
    ) -> Result<(), LineError>
        ensures { Takes purpose self.old self.new line.now result }
    {
        if is_skipped(line) {
            return Ok(());
        }
        let (name, value) = sides(line);
        let Some(key) = purpose.key_named(name) else {
            return Err(LineError::Fault);
        };
        if is_excluded(self.seen.as_slice(), key) {
            return Err(LineError::Fault);
        }
        self.values.put(alloc, key, value)?;
        note(&mut self.seen, key)?;
        Ok(())
    }

    /// The scenario of these lines, for this purpose.
    pub fn complete(self, alloc: Global, purpose: Purpose) -> Result<Scenario, ScenarioError>
        ensures { Completes result (draft_completed purpose self) }
    {
        let Draft { values, seen } = self;
        if has_required(seen.as_slice()) && purpose.has_random(seen.as_slice()) {
            Ok(values.finish(alloc, seen.as_slice())?)
        } else {
            given_up(values, ScenarioError::Line(0))
        }
    }
}

/// Adds a key, unless it is already there.
fn note(seen: &mut Rows<Key>, key: Key) -> Result<(), AllocError>
    ensures { OnOk result (seen.new ≡ noted seen.old key) }
{
    if has(seen.as_slice(), key) {
        return Ok(());
    }
    seen.push(key)
}
