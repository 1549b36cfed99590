//! What is built on an exchange, each part by itself.

mod audit;
mod desk;
mod early;
mod gate;
