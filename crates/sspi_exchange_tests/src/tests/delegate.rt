//! The links by themselves, and whole exchanges over them.

mod exchange;
mod links;
mod texts;
mod worked;
