//! Many similar cases are the lines of a text, which costs only one proof. A field in a line of
//! names ends with `|`; a dot means no text at all. Values of the vocabulary are those that the
//! headers give for the name next to each.

mod ber;
mod checks;
mod names;
mod tokens;
mod tsreq;
mod types;
