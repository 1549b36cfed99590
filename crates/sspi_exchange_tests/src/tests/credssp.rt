//! Calls of both ends, one after another, with the answer that each must give.

mod asks;
mod client_refusals;
mod delegation;
mod ends;
mod kdc;
mod least_versions;
mod message;
mod named;
mod negotiation;
mod peers;
mod proxies;
mod said;
mod server_refusals;
mod stage;
mod suspension;
mod versions;
mod words;
