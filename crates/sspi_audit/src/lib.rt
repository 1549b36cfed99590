//! An auditor of recorded CredSSP exchanges (MS-CSSP 3.1.5): does a record have what recorded bytes
//! can show of a run, and in which turn were the credentials handed over?
//!
//! `audit` and the stricter `audit_run` read turns and log entries, whoever recorded them. They
//! need no key, nonce or context, so a `Yes` is about the record alone: they cannot tell whether
//! two ends made it. What two ends leave of a run gets `Yes` from both (`laws`). `audit_run` checks
//! all that bytes can show of a run; `audit` does not hold a refused turn to what it was told.
//!
//! - `specs/Shown.antt`: what it takes for turns and a log to be shown right.
//! - `specs/Run.antt`, `specs/Refusals.antt`: what more it takes for them to be shown as a run.
//! - `specs/Verdicts.antt`, `specs/RunVerdicts.antt`: what each verdict means.
#![tactic(auto)]

mod acts;
pub mod auditor;
mod client;
mod entry;
mod fields;
mod frame;
mod heeds;
pub mod laws;
mod refusals;
pub mod run;
mod server;
mod standing;
pub mod verdict;

pub use auditor::audit;
pub use run::audit_run;
pub use verdict::Verdict;
