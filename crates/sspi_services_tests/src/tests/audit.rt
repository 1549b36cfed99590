//! Audits of recorded exchanges, and of the same records with one change each.

mod limits;
mod negotiated;
mod negotiated_changes;
mod ntlm;
mod ntlm_changes;
mod records;
mod runs;
mod tables;
