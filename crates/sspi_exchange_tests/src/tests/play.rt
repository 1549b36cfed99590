//! Schedules of deliveries to two ends of plain NTLM, which they negotiate or not.

mod ends;
mod negotiated;
mod schedules;
