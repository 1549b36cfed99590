//! What the benchmark is asked to do: the work, the message and how often.

/// The work that is repeated.
#[derive(Clone, Copy)]
pub enum Work {
    Decode,
    Encode,
    Both,
}

/// The message that the work is done on.
#[derive(Clone, Copy)]
pub enum Message {
    Request,
    Init,
    Targ,
}

/// What the program repeats.
#[derive(Drop)]
pub enum Job {
    /// This work with a line for each of these messages.
    Repeat(Work, Vec<Message>),
    /// A TSRequest is fed in pieces of this many bytes.
    Feed(usize),
    /// A desk of this many sessions is served.
    Desk(u32),
    /// Requests are shown, one for each line.
    Show,
}

pub(crate) fn work_of(word: &str) -> Option<Work> {
    match word {
        "decode" => Some(Work::Decode),
        "encode" => Some(Work::Encode),
        "both" => Some(Work::Both),
        _ => None,
    }
}

pub(crate) fn message_of(word: &str) -> Option<Message> {
    match word {
        "request" => Some(Message::Request),
        "init" => Some(Message::Init),
        "targ" => Some(Message::Targ),
        _ => None,
    }
}
