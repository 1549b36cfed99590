//! Relays between recorded streams, whole, damaged and failing.

mod damages;
mod faults;
mod rows;
mod words;
