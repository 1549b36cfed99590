//! The log of a link, kept in memory.

ghost use Rattle.std.specs.Prelude.{◌≡◌, ◌<◌, ◌≤◌, [], ◌∷◌, length, reverse, true, IfOk, IfErr};
ghost use Rattle.std.specs.Prelude.{OnOk, OnErr};
ghost use Rattle.sspi_delegate.specs.Link.{DidOrKept, IsReceived, IsReceivedOf, LinkCause};
ghost use Rattle.sspi_delegate.specs.Link.{PieceGives, Delivers};
ghost use Rattle.sspi_delegate.specs.LogKeeping.{NewestDelivers};
ghost use Rattle.sspi_delegate.specs.Log.{grown};

use crate::carried::Carried;
use crate::kept_link::Carrier;
use crate::link::LinkError;
use crate::room::reserve_one;
use std::alloc::{AllocError, Global};
use std::marker::Model;

/// The log of a link, kept in memory.
#[derive(Drop)]
pub struct Log {
    entries: Vec<Carried>,
}

impl Log {
    pub fn new(alloc: Global) -> Log
        ensures { result.entries ≡ [] }
    {
        Log {
            entries: Vec::new(alloc),
        }
    }

    /// The entries, the first one first.
    pub fn as_slice(&self) -> &[Carried]
        ensures { result.now ≡ reverse self.now.entries }
    {
        &self.entries
    }

    /// Makes room for one more entry.
    pub fn reserve(&mut self) -> Result<(), AllocError>
        ensures entries { self.new.entries ≡ self.old.entries }
        ensures room { OnOk result (0 < self.new.room) }
    {
        reserve_one(&mut self.entries)
    }

    /// Adds an entry, for which there is room.
    pub fn push(&mut self, entry: Carried)
        requires { 0 < self.old.room }
        ensures { self.new.entries ≡ entry ∷ self.old.entries }
    {
        self.entries.push_reserved(entry);
    }

    /// Writes the next bytes of `text` to `into`, at most `most` of them, after those that the
    /// newest entry has had already.
    pub fn hand_out(
        &mut self,
        text: &[u8],
        most: usize,
        into: &mut [u8],
    ) -> Result<usize, LinkError>
        // What must hold before.
        requires newest { NewestDelivers text.now self.old.entries }
        requires some { 0 < most }
        // What was written.
        ensures gives { PieceGives self.old.entries self.new.entries result into.new }
        ensures within { IfOk result (λ n. n ≤ most) }
        ensures delivers { NewestDelivers text.now self.new.entries }
        // When nothing was.
        ensures memory { IfErr result (λ error. error ≡ LinkError.InsufficientMemory) }
        ensures none { self.old.entries ≡ [] → (result ≡ Ok 0) × (self.new ≡ self.old) }
    {
        let Some(last) = self.entries.len().checked_sub(1) else {
            return Ok(0);
        };
        hand_out(&mut self.entries[last], text, most, into)
    }

    /// Asks the carrier for the next bytes of the newest delivery.
    pub fn receive<R: Carrier>(
        &mut self,
        carrier: &mut R,
        into: &mut [u8],
    ) -> Result<usize, LinkError>
        ensures gives { PieceGives self.old.entries self.new.entries result into.new }
        ensures receives { IfOk result (λ count. IsReceived R.receives self.old.entries carrier.old
            count into.new carrier.new) }
        ensures refuses { IfErr result (λ error. DidOrKept error
            (R.refuses carrier.old error carrier.new) (carrier.new ≡ carrier.old)) }
        ensures cause { LinkCause (R.faults carrier.old) (R.faults carrier.new) result }
        ensures none { self.old.entries ≡ [] → (result ≡ Ok 0) × (self.new ≡ self.old) ×
            (carrier.new ≡ carrier.old) }
    {
        let Some(last) = self.entries.len().checked_sub(1) else {
            return Ok(0);
        };
        receive(&mut self.entries[last], carrier, into)
    }
}

impl Model for Log {
    ghost use Rattle.std.specs.Prelude.{◌-◌, reverse, vec_len, vec_capacity};
    ghost use Rattle.sspi_delegate.specs.LogKeeping.{LogView};

    ghost Value = { LogView };

    ghost view = { λ log. record {
      entries = reverse log.entries.items;
      room = vec_capacity log.entries - vec_len log.entries;
    } };
}

fn hand_out(
    entry: &mut Carried,
    text: &[u8],
    most: usize,
    into: &mut [u8],
) -> Result<usize, LinkError>
    // What must hold before.
    requires delivers { Delivers (Some text.now) entry.old }
    requires some { 0 < most }
    // What was written.
    ensures ok { IfOk result (λ n. (n ≤ length into.new) × (entry.old.ended ≡ true → n ≡ 0) ×
        (entry.new ≡ grown entry.old n into.new)) }
    ensures err { OnErr result (entry.new ≡ entry.old) }
    // How much, and that the delivery stays the same.
    ensures within { IfOk result (λ n. n ≤ most) }
    ensures delivers { Delivers (Some text.now) entry.new }
    // What a refusal says.
    ensures memory { IfErr result (λ error. error ≡ LinkError.InsufficientMemory) }
{
    let (_, rest) = text.split_at(entry.delivered.len());
    let count = rest.len().min(into.len()).min(most);
    let (piece, _) = rest.split_at(count);
    entry.delivered.push_slice(piece)?;
    into[..count].copy_from_slice(piece);
    if count == 0 && !into.is_empty() {
        entry.ended = true;
    }
    Ok(count)
}

/// Memory for the bytes that may come is allocated before they are asked for.
#[tactic(auto, using(crate::proofs::Newest::did, crate::proofs::Newest::kept))]
fn receive<R: Carrier>(
    entry: &mut Carried,
    carrier: &mut R,
    into: &mut [u8],
) -> Result<usize, LinkError>
    ensures ok { IfOk result (λ n. (n ≤ length into.new) × (entry.old.ended ≡ true → n ≡ 0) ×
        (entry.new ≡ grown entry.old n into.new)) }
    ensures err { OnErr result (entry.new ≡ entry.old) }
    ensures receives { IfOk result (λ count. IsReceivedOf R.receives entry.old.ended carrier.old
        count into.new carrier.new) }
    ensures refuses { IfErr result (λ error. DidOrKept error
        (R.refuses carrier.old error carrier.new) (carrier.new ≡ carrier.old)) }
    ensures cause { LinkCause (R.faults carrier.old) (R.faults carrier.new) result }
{
    if entry.ended {
        return Ok(0);
    }
    let before = entry.delivered.len();
    entry.delivered.push_slice(into)?;
    match carrier.receive(into) {
        Ok(count) => {
            entry.delivered.overwrite(before, &into[..count]);
            let unused = into.len() - count;
            entry.delivered.truncate(entry.delivered.len() - unused);
            if count == 0 && !into.is_empty() {
                entry.ended = true;
            }
            Ok(count)
        }
        Err(error) => {
            entry.delivered.truncate(before);
            Err(error)
        }
    }
}
