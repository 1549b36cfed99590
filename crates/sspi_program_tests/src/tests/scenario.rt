//! Texts of scenarios, read, refused and taken from failing sources.

mod checks;
mod faults;
mod numbered;
mod reasons;
mod sources;
mod told;
