//! What an audit answers: yes, or the first turn at fault.

/// What an auditor finds of recorded turns and their log.
#[derive(Clone, Copy, Debug, PartialEq, Eq)]
pub enum Verdict {
    /// They have what recorded bytes can show of a run. Holds the only turn recorded to have sealed
    /// the credentials, counted from 0, or `None` if none did.
    Yes(Option<u64>),
    /// The first turn at fault, counted from 0. If the turns are right and the log is not, the
    /// number of turns: there are too few or too many entries or, for `audit_run`, too much of the
    /// last delivery was taken.
    No(u64),
}
