//! Many similar cases are the lines of a text, which costs only one proof.

mod adapters;
mod elements;
mod faults;
mod limits;
mod spellings;
