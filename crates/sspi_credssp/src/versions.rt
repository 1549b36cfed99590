//! The versions of CredSSP, and what changes with which version (MS-CSSP 2.2.1).

// The version of an end that is given no other.
pub const DEFAULT_VERSION: u32 = 6;

// The first version whose proofs of the channel's key are hashes over a nonce; below it they are
// the key itself and the key plus one.
pub const FIRST_HASHED_VERSION: u32 = 5;
