//! Security buffers (SecBuffer).

ghost use Rattle.std.specs.Prelude.{◌≡◌, Some, None, find, option_map, position, IfOk, IfErr};
ghost use Rattle.std.specs.Borrow.{sem};
ghost use Rattle.sspi_types.specs.Buffers.{has_type, no_buffer, unflagged_buffer, LendsFirst};
ghost use Rattle.sspi_types.specs.Buffers.{LendsFound};

use crate::buffer_flags::SecurityBufferFlags;
use crate::buffer_type::BufferType;
use crate::bytes::Bytes;
use crate::error::Error;
use crate::error_kind::ErrorKind;
use crate::reason::Reason;
use crate::security_buffer_type::SecurityBufferType;
use std::alloc::{AllocError, Global};

/// A buffer that a caller and a security package exchange (SecBuffer).
#[derive(Drop, PartialEq, Eq)]
pub struct SecurityBuffer {
    /// The bytes.
    pub buffer: Bytes,
    /// What they are, and what may be done with them.
    pub buffer_type: SecurityBufferType,
}

impl SecurityBuffer {
    /// A buffer of this type without flags. The bytes are moved and not copied.
    pub fn new(buffer: Vec<u8>, buffer_type: BufferType) -> SecurityBuffer
        ensures { result ≡ unflagged_buffer buffer.items buffer_type }
    {
        SecurityBuffer {
            buffer: Bytes::from_vec(buffer),
            buffer_type: SecurityBufferType {
                buffer_type,
                buffer_flags: SecurityBufferFlags::NONE,
            },
        }
    }

    /// The first buffer of this type, whatever its flags.
    /// `InvalidToken` exactly when there is none.
    #[tactic(auto, using(crate::proofs::Places::found_at, crate::proofs::Places::not_found))]
    pub fn find_buffer(
        buffers: &[SecurityBuffer],
        buffer_type: BufferType,
    ) -> Result<&SecurityBuffer, Error>
        ensures found { IfOk result
            (λ buffer. find (has_type buffer_type) buffers.now ≡ Some buffer.now) }
        ensures missing { IfErr result
            (λ error. (error ≡ no_buffer) × (find (has_type buffer_type) buffers.now ≡ None)) }
    {
        let Some(place) = SecurityBuffer::place(buffers, buffer_type) else {
            return Err(Error::new(ErrorKind::InvalidToken, Reason::NoBuffer));
        };
        Ok(&buffers[place])
    }

    /// The same as `find_buffer`, to change the buffer in place. Nothing else in the list changes,
    /// and a refusal leaves all of it unchanged. `first_mut` does the same on a slice.
    #[tactic(auto, using(crate::proofs::Places::not_found))]
    pub fn find_buffer_mut(
        buffers: &mut Vec<SecurityBuffer>,
        buffer_type: BufferType,
    ) -> Result<&mut SecurityBuffer, Error>
        ensures* writes_back { sem 𝓛 (LendsFound buffers.entry buffer_type result) }
        ensures found { IfOk result
            (λ buffer. find (has_type buffer_type) buffers.old.items ≡ Some buffer.now) }
        ensures missing { IfErr result
            (λ error. (error ≡ no_buffer) ×
            (find (has_type buffer_type) buffers.old.items ≡ None)) }
    {
        match SecurityBuffer::place(buffers, buffer_type) {
            Some(place) => Ok(&mut buffers[place]),
            None => Err(Error::new(ErrorKind::InvalidToken, Reason::NoBuffer)),
        }
    }

    /// The first buffer of this type in a slice, to change it in place; `None` exactly when there
    /// is none. Nothing else in the slice changes.
    #[tactic(auto, using(crate::proofs::Places::found_at, crate::proofs::Places::not_found))]
    pub fn first_mut(
        buffers: &mut [SecurityBuffer],
        buffer_type: BufferType,
    ) -> Option<&mut SecurityBuffer>
        ensures* writes_back { sem 𝓛 (LendsFirst buffers.entry buffer_type result) }
        ensures found { option_map (λ buffer. buffer.now) result
            ≡ find (has_type buffer_type) buffers.old }
    {
        if let Some(place) = SecurityBuffer::place(buffers, buffer_type) {
            return Some(&mut buffers[place]);
        }
        None
    }

    // The position of the first buffer of this type.
    fn place(buffers: &[SecurityBuffer], buffer_type: BufferType) -> Option<usize>
        ensures { result ≡ position (has_type buffer_type) buffers.now }
    {
        buffers
            .iter()
            .position(|buffer| buffer.has_type(buffer_type))
    }

    // Whether this buffer is of the type, whatever its flags.
    #[tactic(auto, using(crate::proofs::Numbers::buffer_type_test))]
    fn has_type(&self, buffer_type: BufferType) -> bool
        ensures { result ≡ has_type buffer_type self.now }
    {
        self.buffer_type.buffer_type == buffer_type
    }

    /// A copy in memory of its own, equal to this buffer.
    pub fn clone(&self, alloc: Global) -> Result<SecurityBuffer, AllocError>
        ensures { IfOk result (λ copy. copy ≡ self.now) }
    {
        Ok(SecurityBuffer {
            buffer: self.buffer.clone(alloc)?,
            buffer_type: self.buffer_type,
        })
    }
}
