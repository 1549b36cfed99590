//! Values are those that the headers give for the name next to each.

mod buffers;
mod numbers;
mod packages;
mod texts;
