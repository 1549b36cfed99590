//! The recorded turns of an exchange.

ghost use Rattle.std.specs.Prelude.{◌≡◌, ◌<◌, [], ◌∷◌, reverse, slice_get, OnOk};
ghost use Rattle.std.specs.Option.{option_copied};
ghost use Rattle.sspi_delegate.specs.LogKeeping.{recorded};

use crate::room::reserve_one;
use sspi_credssp::{Acts, End, Outcome, Turn};
use sspi_tsreq::TsRequest;
use sspi_types::Bytes;
use std::alloc::{AllocError, Global};
use std::marker::Model;

/// The turns of an exchange, in order.
#[derive(Drop)]
pub struct Transcript {
    turns: Vec<Turn>,
}

impl Model for Transcript {
    ghost use Rattle.std.specs.Prelude.{◌-◌, reverse, vec_len, vec_capacity};
    ghost use Rattle.sspi_delegate.specs.Turns.{TranscriptView};

    ghost Value = { TranscriptView };

    ghost view = { λ transcript. record {
      turns = reverse transcript.turns.items;
      room = vec_capacity transcript.turns - vec_len transcript.turns;
    } };
}

impl Transcript {
    /// A transcript without turns. Allocates nothing.
    pub fn new(alloc: Global) -> Transcript
        ensures { result.turns ≡ [] }
    {
        Transcript {
            turns: Vec::new(alloc),
        }
    }

    /// Drops all turns. No clause says this: their room stays reserved.
    pub fn clear(&mut self)
        ensures { self.new.turns ≡ [] }
    {
        self.turns.clear();
    }

    /// Makes room for one more turn.
    pub(crate) fn reserve(&mut self) -> Result<(), AllocError>
        ensures turns { self.new.turns ≡ self.old.turns }
        ensures room { OnOk result (0 < self.new.room) }
    {
        reserve_one(&mut self.turns)
    }

    /// Records a turn, for which there is room.
    pub(crate) fn record(
        &mut self,
        end: End,
        delivered: TsRequest,
        acts: Acts,
        output: Bytes,
        outcome: Outcome,
    )
        requires { 0 < self.old.room }
        ensures { self.new.turns ≡ recorded end delivered acts output outcome ∷ self.old.turns }
    {
        let turn = Turn {
            end,
            delivered,
            acts,
            output,
            outcome,
        };
        self.turns.push_reserved(turn);
    }

    /// The turns, the first one first. Allocates nothing.
    pub fn turns(&self) -> &[Turn]
        ensures { result.now ≡ reverse self.now.turns }
    {
        &self.turns
    }

    /// The turns themselves, the first one first. Allocates nothing.
    pub fn into_turns(self) -> Vec<Turn>
        ensures { result.items ≡ reverse self.turns }
    {
        self.turns
    }

    /// The last turn. Allocates nothing.
    pub fn newest(&self) -> Option<&Turn>
        ensures { option_copied result ≡ slice_get self.now.turns 0 }
    {
        self.turns.last()
    }
}
