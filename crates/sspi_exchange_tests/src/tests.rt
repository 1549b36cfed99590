//! Exchanges, from calls on single ends to delegations and schedules of deliveries.

mod credssp;
mod delegate;
mod play;
