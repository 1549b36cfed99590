//! The longest content of an element: 1 MiB.

/// The most bytes that the content of an element may have: 1 MiB, so that an element with its
/// header has at most 1048581.
pub const MAX_CONTENT: usize = 1048576;

/// The most octets that a length may have after its first.
pub const MAX_LENGTH_OCTETS: u32 = 3;
