//! Scripts of tokens for both ends, with what each step must answer.

mod addresses;
mod choices;
mod client;
mod configurations;
mod credentials;
mod end;
mod exchange;
mod fallback;
mod guests;
mod kerberos;
mod lengths;
mod mics;
mod packages;
mod rules;
mod scene;
mod script;
mod server;
mod statuses;
mod suspension;
mod tokens;
mod told;
