//! One script per test: its lines go through one driver, over two ends that are made once.

mod ends;
mod lines;
mod negotiation;
mod queries;
mod scripts;
