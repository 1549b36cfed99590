//! Lists of bytes.

ghost use Rattle.std.specs.Prelude.{◌≡◌, ◌+◌, ◌≤◌, ◌↔◌, [], ◌∷◌, ◌++◌, length, take, drop, IsTrue};
ghost use Rattle.std.specs.Prelude.{IfOk, OnOk, OnErr};

use std::alloc::{AllocError, Global};
use std::marker::Model;

/// A list of bytes that contracts see as a list.
#[derive(Drop)]
pub struct Bytes {
    content: Vec<u8>,
}

impl Model for Bytes {
    ghost use Rattle.std.specs.Prelude.{ℕ, List};

    ghost Value = { List ℕ };

    ghost view = { λ bytes. bytes.content.items };
}

impl PartialEq for Bytes {
    ghost use Rattle.std.specs.Prelude.{◌==◌};
    ghost use Rattle.std.specs.Cmp.{partial_equiv_from_equiv};
    ghost use Rattle.std.specs.Cmp.Lexicographic.{pointwise, nat_list_eq_equiv};

    ghost eq = { pointwise ◌==◌ };

    ghost laws = { partial_equiv_from_equiv nat_list_eq_equiv };

    fn eq(&self, other: &Bytes) -> bool {
        self.content == other.content
    }
}

impl Eq for Bytes {
    ghost use Rattle.std.specs.Cmp.Lexicographic.{nat_list_eq_equiv};

    ghost laws = { nat_list_eq_equiv };
}

impl Bytes {
    /// No bytes. Allocates nothing until bytes are added.
    pub fn new(alloc: Global) -> Bytes
        ensures { result ≡ [] }
    {
        Bytes {
            content: Vec::new(alloc),
        }
    }

    /// The bytes of `bytes`, which are moved and not copied.
    pub fn from_vec(bytes: Vec<u8>) -> Bytes
        ensures { result ≡ bytes.items }
    {
        Bytes { content: bytes }
    }

    /// A copy of `piece`, in memory of its own.
    pub fn from_slice(alloc: Global, piece: &[u8]) -> Result<Bytes, AllocError>
        ensures { IfOk result (λ bytes. bytes ≡ piece.now) }
    {
        Ok(Bytes {
            content: Vec::from_slice(alloc, piece)?,
        })
    }

    /// The bytes, borrowed.
    pub fn as_slice(&self) -> &[u8]
        ensures { result.now ≡ self.now }
    {
        &self.content
    }

    /// The bytes as a `Vec`, which are moved and not copied.
    pub fn into_inner(self) -> Vec<u8>
        ensures { result.items ≡ self }
    {
        self.content
    }

    /// The number of bytes.
    pub fn len(&self) -> usize
        ensures { result ≡ length self.now }
    {
        self.content.len()
    }

    /// Whether there are no bytes.
    pub fn is_empty(&self) -> bool
        ensures { IsTrue result ↔ (self.now ≡ []) }
    {
        self.content.is_empty()
    }

    /// Appends `piece`. If memory runs out, the list stays as it was.
    pub fn push_slice(&mut self, piece: &[u8]) -> Result<(), AllocError>
        ensures ok { OnOk result (self.new ≡ self.old ++ piece.now) }
        ensures err { OnErr result (self.new ≡ self.old) }
    {
        self.content.extend_from_slice(piece)
    }

    /// Appends one byte. If memory runs out, the list stays as it was. Capacity grows by doubling,
    /// from 8 bytes on.
    pub fn push(&mut self, byte: u8) -> Result<(), AllocError>
        ensures ok { OnOk result (self.new ≡ self.old ++ byte ∷ []) }
        ensures err { OnErr result (self.new ≡ self.old) }
    {
        match self.content.push(byte) {
            Ok(()) => Ok(()),
            Err(_) => Err(AllocError),
        }
    }

    /// Keeps the first `len` bytes; a larger `len` changes nothing. Allocates nothing.
    pub fn truncate(&mut self, len: usize)
        ensures { self.new ≡ take len self.old }
    {
        self.content.truncate(len);
    }

    /// Overwrites the bytes from position `at` on with `piece`. Allocates nothing.
    pub fn overwrite(&mut self, at: usize, piece: &[u8])
        requires { at + length piece.now ≤ length self.old }
        ensures { self.new ≡ take at self.old ++ piece.now ++
            drop (at + length piece.now) self.old }
    {
        self.content[at..at + piece.len()].copy_from_slice(piece);
    }

    /// A copy in memory of its own, equal to this list.
    pub fn clone(&self, alloc: Global) -> Result<Bytes, AllocError>
        ensures { IfOk result (λ bytes. bytes ≡ self.now) }
    {
        Bytes::from_slice(alloc, &self.content)
    }
}
