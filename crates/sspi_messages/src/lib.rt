//! Messages in buffers (SecBuffer of sspi.h), over whatever protects them.
//!
//! - `Protects`: what a context does with messages once it has a key: it seals and opens, signs and
//!   verifies. `specs/Protecting.antt` is the part of a context's meaning that describes this.
//! - `message`: the same on the buffers of a call. `specs/Buffers.antt` says which buffers a call
//!   takes, `specs/Messages.antt` what it leaves in them, which count rises, and why it refuses.
//! - `unsupported`: the answer to a query that a package does not have.
#![tactic(auto)]

mod buffers;
pub mod message;
pub mod protects;
pub mod queries;

pub use message::{decrypt_message, encrypt_message, make_signature, verify_signature};
pub use protects::Protects;
pub use queries::unsupported;
