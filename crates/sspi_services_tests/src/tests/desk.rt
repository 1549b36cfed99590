//! Sessions of a desk, alone, interleaved and refused.

mod interleaved;
mod messages;
mod sessions;
mod stage;
