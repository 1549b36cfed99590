//! How the plain mechanisms tag messages and MICs, by direction and number.

ghost use Rattle.std.specs.Prelude.{◌≡◌, ◌+◌, ◌-◌, ◌^◌, ◌==◌, false, true, None, Some, IfOk, OnOk};
ghost use Rattle.std.specs.Prelude.{OnErr, IfErr};
ghost use Rattle.sspi_mech.specs.Protection.{direction_byte, tag_of, seal_tag, mic_of, SealsBy};
ghost use Rattle.sspi_mech.specs.Protection.{OpensBy, SignsBy, VerifiesBy};
ghost use Rattle.sspi_mech.specs.Protection.{making_refusal, unseal_refusal, verify_refusal};
ghost use Rattle.sspi_mech.specs.Protection.{no_protection};
ghost use Rattle.sspi_mech.specs.Answered.{IsCause, IsRefusedAs};

use crate::refusal::Refusal;
use sha2::{Digest, Sha256};
use sspi_types::{ErrorKind, Reason};
use std::alloc::Global;

const TAG_LENGTH: usize = 16;

/// Who made a message.
#[derive(Clone, Copy)]
pub enum Direction {
    /// Made by the client.
    FromClient,
    /// Made by the server.
    FromServer,
}

impl Direction {
    fn byte(self) -> u8
        ensures { result ≡ direction_byte self }
    {
        match self {
            Direction::FromClient => 1,
            Direction::FromServer => 2,
        }
    }
}

/// The key of an object, once there is one, and how many messages of each kind were made and taken
/// with it.
#[derive(Clone, Copy)]
pub struct Protection {
    key: Option<[u8; 32]>,
    sealings: u64,
    unsealings: u64,
    signings: u64,
    verifications: u64,
}

impl Protection {
    pub fn new() -> Protection
        ensures { result ≡ no_protection }
    {
        Protection {
            key: None,
            sealings: 0,
            unsealings: 0,
            signings: 0,
            verifications: 0,
        }
    }

    /// Takes a key, and leaves the counts.
    pub fn set_key(&mut self, key: [u8; 32])
        ensures { self.new ≡ record self.old { key = Some key } }
    {
        self.key = Some(key);
    }

    /// The key; OutOfSequence before there is one.
    pub fn key(&self) -> Result<&[u8; 32], Refusal>
        ensures ok { IfOk result (λ key. self.now.key ≡ Some key.now) }
        ensures err { IfErr result (λ error. (self.now.key ≡ None) ×
            (error.error_type ≡ ErrorKind.OutOfSequence)) }
    {
        match &self.key {
            Some(key) => Ok(key),
            None => Err(Refusal::out_of_sequence()),
        }
    }

    /// The tag of the text, followed by the text.
    pub fn seal(
        &mut self,
        alloc: Global,
        direction: Direction,
        text: &[u8],
    ) -> Result<Vec<u8>, Refusal>
        // What `Ok` holds.
        ensures blob { IfOk result (λ blob. SealsBy self.new.key direction self.old.sealings
            text.now blob.items) }
        ensures ok { OnOk result (self.new ≡ record self.old { sealings = self.old.sealings + 1 }) }
        ensures permitted { OnOk result (making_refusal self.old.key self.old.sealings ≡ None) }
        // What a refusal says, and what it leaves.
        ensures err { OnErr result (self.new ≡ self.old) }
        ensures cause { IfErr result (λ error. IsCause
            (making_refusal self.old.key self.old.sealings) error.error_type) }
    {
        let key = self.key()?;
        let count = next(self.sealings)?;
        let tag = seal_tag(key, direction, self.sealings, text);
        let mut blob = Vec::with_capacity(alloc, TAG_LENGTH + text.len())?;
        blob.extend_from_slice(&tag)?;
        blob.extend_from_slice(text)?;
        self.sealings = count;
        Ok(blob)
    }

    /// The text of a blob whose tag is that of the text. It allocates only for such a blob.
    pub fn unseal(
        &mut self,
        alloc: Global,
        direction: Direction,
        blob: &[u8],
    ) -> Result<Vec<u8>, Refusal>
        // What `Ok` holds.
        ensures text { IfOk result (λ text. OpensBy self.new.key direction self.old.unsealings
            blob.now text.items) }
        ensures ok { OnOk result
            (self.new ≡ record self.old { unsealings = self.old.unsealings + 1 }) }
        ensures permitted { OnOk result (unseal_refusal self.old.key direction self.old.unsealings
            blob.now ≡ None) }
        // What a refusal says, and what it leaves.
        ensures err { OnErr result (self.new ≡ self.old) }
        ensures cause { IfErr result (λ error. IsCause
            (unseal_refusal self.old.key direction self.old.unsealings blob.now)
            error.error_type) }
        ensures told { IfErr result (λ error. IsRefusedAs
            (unseal_refusal self.old.key direction self.old.unsealings blob.now ≡ None)
            (λ kind. unseal_refusal self.old.key direction self.old.unsealings blob.now ≡ Some kind)
            error.error_type) }
    {
        let key = self.key()?;
        let count = next(self.unsealings)?;
        if blob.len() < TAG_LENGTH {
            return Err(Refusal::new(ErrorKind::InvalidToken, Reason::ShortBlob));
        }
        let (tag, text) = blob.split_at(TAG_LENGTH);
        if tag != seal_tag(key, direction, self.unsealings, text).as_slice() {
            return Err(Refusal::new(ErrorKind::MessageAltered, Reason::Tag));
        }
        let text = Vec::from_slice(alloc, text)?;
        self.unsealings = count;
        Ok(text)
    }

    /// The MIC of the text.
    pub fn sign(
        &mut self,
        alloc: Global,
        direction: Direction,
        text: &[u8],
    ) -> Result<Vec<u8>, Refusal>
        // What `Ok` holds.
        ensures mic { IfOk result (λ mic. SignsBy self.new.key direction self.old.signings text.now
            mic.items) }
        ensures ok { OnOk result (self.new ≡ record self.old { signings = self.old.signings + 1 }) }
        ensures permitted { OnOk result (making_refusal self.old.key self.old.signings ≡ None) }
        // What a refusal says, and what it leaves.
        ensures err { OnErr result (self.new ≡ self.old) }
        ensures cause { IfErr result (λ error. IsCause
            (making_refusal self.old.key self.old.signings) error.error_type) }
    {
        let key = self.key()?;
        let count = next(self.signings)?;
        let mic = mic_of(key, direction, self.signings, text);
        let mic = Vec::from_slice(alloc, &mic)?;
        self.signings = count;
        Ok(mic)
    }

    /// Whether the MIC is that of the text; MessageAltered if it is not.
    pub fn verify(&mut self, direction: Direction, mic: &[u8], text: &[u8]) -> Result<(), Refusal>
        // What `Ok` holds.
        ensures mic { OnOk result (VerifiesBy self.new.key direction self.old.verifications mic.now
            text.now) }
        ensures ok { OnOk result
            (self.new ≡ record self.old { verifications = self.old.verifications + 1 }) }
        ensures permitted { OnOk result (verify_refusal self.old.key direction
            self.old.verifications mic.now text.now ≡ None) }
        // What a refusal says, and what it leaves.
        ensures err { OnErr result (self.new ≡ self.old) }
        ensures cause { IfErr result (λ error. verify_refusal self.old.key direction
            self.old.verifications mic.now text.now ≡ Some
            error.error_type) }
    {
        let key = self.key()?;
        let count = next(self.verifications)?;
        if mic != mic_of(key, direction, self.verifications, text).as_slice() {
            return Err(Refusal::new(ErrorKind::MessageAltered, Reason::Tag));
        }
        self.verifications = count;
        Ok(())
    }
}

/// The count after this one; ContextExpired if there is none.
fn next(count: u64) -> Result<u64, Refusal>
    ensures ok { IfOk result (λ next. ((count == 2 ^ 64 - 1) ≡ false) × (next ≡ count + 1)) }
    ensures err { IfErr result (λ error. ((count == 2 ^ 64 - 1) ≡ true) ×
        (error.error_type ≡ ErrorKind.ContextExpired)) }
{
    match count.checked_add(1) {
        Some(next) => Ok(next),
        None => Err(Refusal::new(ErrorKind::ContextExpired, Reason::Spent)),
    }
}

#[tactic(auto, unfolding(crate::specs::Protection::seal_tag))]
fn seal_tag(key: &[u8; 32], direction: Direction, number: u64, text: &[u8]) -> [u8; TAG_LENGTH]
    ensures { result ≡ seal_tag key.now direction number text.now }
{
    tag(b"seal\0", key, direction, number, text)
}

#[tactic(auto, unfolding(crate::specs::Protection::mic_of))]
fn mic_of(key: &[u8; 32], direction: Direction, number: u64, text: &[u8]) -> [u8; TAG_LENGTH]
    ensures { result ≡ mic_of key.now direction number text.now }
{
    tag(b"mic\0", key, direction, number, text)
}

/// The first bytes of the hash of a label, the key, who made the message, its number and its text.
fn tag(
    label: &[u8],
    key: &[u8; 32],
    direction: Direction,
    number: u64,
    text: &[u8],
) -> [u8; TAG_LENGTH]
    ensures { result ≡ tag_of label.now key.now direction number text.now }
{
    let mut hasher = Sha256::new();
    hasher.update(label);
    hasher.update(key.as_slice());
    hasher.update([direction.byte()].as_slice());
    hasher.update(number.to_le_bytes().as_slice());
    hasher.update(text);
    let digest = hasher.finalize();
    let mut tag = [0; TAG_LENGTH];
    tag.copy_from_slice(&digest[..TAG_LENGTH]);
    tag
}
