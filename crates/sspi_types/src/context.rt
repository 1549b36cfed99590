//! Sizes and session keys of a context, as its queries return them.

ghost use Rattle.std.specs.Prelude.{◌≡◌, IfOk};

use crate::bytes::Bytes;
use crate::secret::Secret;
use std::alloc::{AllocError, Global};

/// The sizes that matter to users of a context (SecPkgContext_Sizes), in bytes.
#[derive(Clone, Copy, Debug, PartialEq, Eq)]
pub struct ContextSizes {
    /// The maximum size of a token.
    pub max_token: u32,
    /// The maximum size of a signature.
    pub max_signature: u32,
    /// The size of the blocks that sealed bytes come in; 0 if there are no blocks.
    pub block: u32,
    /// The maximum number of bytes that sealing adds to a message.
    pub security_trailer: u32,
}

/// The sizes of a stream's messages (SecPkgContext_StreamSizes), in bytes; `buffers` is a count.
#[derive(Clone, Copy, Debug, PartialEq, Eq)]
pub struct StreamSizes {
    /// The size of a message's header.
    pub header: u32,
    /// The maximum size of its trailer.
    pub trailer: u32,
    /// The maximum size of its data.
    pub max_message: u32,
    /// How many buffers a call takes.
    pub buffers: u32,
    /// The preferred block size: data comes best in multiples of it.
    pub block_size: u32,
}

/// A value that is unique on one machine until it restarts (LUID of winnt.h).
pub type Luid = u64;

/// The session key of a context (SecPkgContext_SessionKey).
#[derive(Drop, PartialEq, Eq)]
pub struct SessionKeys {
    /// The bytes of the key.
    pub session_key: Secret<Bytes>,
}

impl SessionKeys {
    /// A copy in memory of its own, equal to this key.
    pub fn clone(&self, alloc: Global) -> Result<SessionKeys, AllocError>
        ensures { IfOk result (λ copy. copy ≡ self.now) }
    {
        Ok(SessionKeys {
            session_key: Secret {
                value: self.session_key.value.clone(alloc)?,
            },
        })
    }
}
