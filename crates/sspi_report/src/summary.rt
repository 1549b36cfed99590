//! The summary of many exchanges.

ghost use Rattle.std.specs.Prelude.{◌≡◌, ◌++◌, string_bytes, IfOk, OnOk};
ghost use Rattle.sspi_report.specs.Summary.{count_line, is_of, is_same, place, summary_text};

use sspi_delegate::{DelegateError, Delegation};
use std::alloc::{AllocError, Global};

/// The outcomes of exchanges, as a summary counts them. Out of memory has no kind.
#[derive(Clone, Copy, Debug)]
pub enum Kind {
    Ok,
    /// The client refused.
    Client,
    /// The server refused.
    Server,
    /// An end could not read what was delivered to it.
    Read,
    /// A message was too long to be written.
    Write,
    /// The link failed.
    Link,
    /// The client's turns were spent.
    Turns,
}

/// How many exchanges there were, how many of them had each kind of outcome, and how many messages
/// their logs have together.
#[derive(Clone, Copy, Debug)]
pub struct Summary {
    pub runs: usize,
    pub ok: usize,
    pub client: usize,
    pub server: usize,
    pub read: usize,
    pub write: usize,
    pub link: usize,
    pub turns: usize,
    /// Wide enough for the sum over any number of logs, of any length.
    pub messages: u128,
}

impl Kind {
    /// Its place among the lines of a summary, after that of all exchanges.
    fn place(self) -> u8
        ensures { result ≡ place self }
    {
        match self {
            Kind::Ok => 0,
            Kind::Client => 1,
            Kind::Server => 2,
            Kind::Read => 3,
            Kind::Write => 4,
            Kind::Link => 5,
            Kind::Turns => 6,
        }
    }

    /// Whether both are the same kind.
    fn is(self, other: Kind) -> bool
        ensures { result ≡ is_same self other }
    {
        self.place() == other.place()
    }

    /// Whether an exchange had an outcome of this kind.
    pub fn is_of(self, answer: &Result<Delegation, DelegateError>) -> bool
        ensures { result ≡ is_of self answer.now }
    {
        match answer {
            Ok(_) => self.is(Kind::Ok),
            Err(DelegateError::Client(_)) => self.is(Kind::Client),
            Err(DelegateError::Server(_)) => self.is(Kind::Server),
            Err(DelegateError::Read(_, _)) => self.is(Kind::Read),
            Err(DelegateError::Write(_)) => self.is(Kind::Write),
            Err(DelegateError::LinkFault) => self.is(Kind::Link),
            Err(DelegateError::TurnsSpent) => self.is(Kind::Turns),
            Err(DelegateError::InsufficientMemory) => false,
        }
    }
}

// Room for nine lines with numbers of a few digits.
const USUAL_LENGTH: usize = 128;

/// The summary as a text of nine lines, each a name, a space and a number. Each ends with LF. Fails
/// only when out of memory.
pub fn summary_text(alloc: Global, summary: Summary) -> Result<String, AllocError>
    ensures { IfOk result (λ text. string_bytes text ≡ summary_text summary) }
{
    let mut text = String::with_capacity(alloc, USUAL_LENGTH)?;
    push_counts(&mut text, summary)?;
    Ok(text)
}

/// Appends all lines.
fn push_counts(text: &mut String, summary: Summary) -> Result<(), AllocError>
    ensures { OnOk result (string_bytes text.new ≡ string_bytes text.old ++ summary_text summary) }
{
    push_count(text, "runs", summary.runs as u128)?;
    push_count(text, "ok", summary.ok as u128)?;
    push_count(text, "client", summary.client as u128)?;
    push_count(text, "server", summary.server as u128)?;
    push_count(text, "read", summary.read as u128)?;
    push_count(text, "write", summary.write as u128)?;
    push_count(text, "link", summary.link as u128)?;
    push_count(text, "turns", summary.turns as u128)?;
    push_count(text, "messages", summary.messages)?;
    Ok(())
}

/// Appends the line of a count.
fn push_count(text: &mut String, name: &str, count: u128) -> Result<(), AllocError>
    ensures { OnOk result (string_bytes text.new ≡ string_bytes text.old ++
        count_line name.now count) }
{
    write!(text, "{name} {count}\n")
}
