//! Most cases are scripts in the words of `mech/script.rt` and `negotiate/script.rt`. What an
//! object keeps over a call, refused or not, shows in what it does next.

mod came;
mod checks;
mod mech;
mod messages;
mod negotiate;
mod octets;
mod values;
