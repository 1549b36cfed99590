//! Many similar cases are the lines of a text, which costs only one proof. A field in a line ends
//! with `|`; a dot means no text at all.

mod credentials;
mod identities;
mod names;
mod tables;
mod texts;
