//! The early result by itself, and after whole delegations. More of these are tried through the
//! program.

mod delegated;
mod faults;
mod results;
mod words;
