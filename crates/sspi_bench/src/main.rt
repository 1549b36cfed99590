//! Decodes or encodes one message many times, so that an instruction counter can tell the cost of
//! one.
//!
//! Words: `decode`, `encode` or `both`, how many times, and any of `request` (a TSRequest), `init`
//! and `targ` (the tokens of SPNEGO); without such a word, `request`. Each of these takes one line
//! of hex from standard input. Or `feed`, how many times, and a size: one line, a TSRequest, is
//! decoded from pieces of that many bytes. Or `desk`, how many times, and a number of sessions: a
//! desk of that many serves one line, one session after the other. Each line is parsed before its
//! loop, and one checksum is printed, so that no result goes unused. docs/PERFORMANCE.md says how
//! it is measured. Or `show` and how many lines: for each, what is read of the request that it
//! begins with.
#![tactic(auto)]

use crate::work::{Job, Message, Work, message_of, work_of};
use anyhow::{Context, Result, bail};
use sspi_types::Error;
use std::alloc::Global;
use std::env::{self, Env};

mod desk;
mod init;
mod request;
mod show;
mod sums;
mod targ;
mod work;

fn repeat(
    alloc: Global,
    work: Work,
    message: Message,
    bytes: &[u8],
    times: u32,
) -> std::result::Result<u64, Error> {
    match message {
        Message::Request => Ok(request::repeat(alloc, work, bytes, times)?),
        Message::Init => init::repeat(alloc, work, bytes, times),
        Message::Targ => targ::repeat(alloc, work, bytes, times),
    }
}

/// The words after the program's name.
fn words_of<R: Env + Alloc<A = Global>>(rt: &R) -> Result<Vec<String>> {
    let mut words = Vec::new(rt.alloc());
    for word in env::args(rt)?.skip(1) {
        words.push(word)?;
    }
    Ok(words)
}

/// The job, and how many times it is done.
fn job_of(alloc: Global, words: &[String]) -> Result<(Job, u32)> {
    let [verb, times, rest @ ..] = words else {
        bail!("a word and a number are wanted");
    };
    let times = times.as_str().parse::<u32>()?;
    if verb.as_str() == "feed" {
        return Ok((Job::Feed(size_of(rest)?), times));
    }
    if verb.as_str() == "desk" {
        return Ok((Job::Desk(sessions_of(rest)?), times));
    }
    if verb.as_str() == "show" {
        return Ok((Job::Show, times));
    }
    let Some(work) = work_of(verb.as_str()) else {
        bail!("decode, encode, both, feed, desk or show is wanted");
    };
    Ok((Job::Repeat(work, messages_of(alloc, rest)?), times))
}

fn size_of(words: &[String]) -> Result<usize> {
    let word = words.first().context("a size is wanted")?;
    Ok(word.as_str().parse::<usize>()?)
}

fn sessions_of(words: &[String]) -> Result<u32> {
    let word = words.first().context("a number of sessions is wanted")?;
    Ok(word.as_str().parse::<u32>()?)
}

/// The messages of these words; a request if there are none.
fn messages_of(alloc: Global, words: &[String]) -> Result<Vec<Message>> {
    let mut messages = Vec::new(alloc);
    if words.is_empty() {
        messages.push(Message::Request)?;
    }
    for word in words {
        let Some(message) = message_of(word.as_str()) else {
            bail!("request, init or targ is wanted");
        };
        messages.push(message)?;
    }
    Ok(messages)
}

/// The bytes that the next line of standard input encodes in hex.
fn next_message(rt: &HostRuntime) -> Result<Vec<u8>> {
    let mut line = String::new(rt.alloc());
    let _ = rt.read_line(&mut line)?;
    Ok(hex::decode(rt.alloc(), line.as_str().trim())?)
}

/// Prints one line with this checksum, or fails if there is none.
fn tell(rt: &HostRuntime, sum: Option<u64>, otherwise: &'static str) -> Result<()> {
    let sum = sum.context(otherwise)?;
    println!(rt; "{sum}")?;
    Ok(())
}

fn repeat_line(rt: &HostRuntime, work: Work, message: Message, times: u32) -> Result<()> {
    let bytes = next_message(rt)?;
    let sum = repeat(rt.alloc(), work, message, &bytes, times);
    tell(rt, sum.ok(), "the message cannot be read or written")
}

/// One line and one checksum for each message.
fn repeat_all(rt: &HostRuntime, work: Work, messages: &[Message], times: u32) -> Result<()> {
    for message in messages {
        repeat_line(rt, work, *message, times)?;
    }
    Ok(())
}

fn feed(rt: &HostRuntime, size: usize, times: u32) -> Result<()> {
    if size == 0 {
        bail!("a size of at least 1 is wanted");
    }
    let bytes = next_message(rt)?;
    let sum = request::repeat_fed(rt.alloc(), size, &bytes, times);
    tell(rt, sum.ok(), "the message cannot be read")
}

fn serve(rt: &HostRuntime, sessions: u32, times: u32) -> Result<()> {
    if sessions == 0 {
        bail!("at least 1 session is wanted");
    }
    let bytes = next_message(rt)?;
    let sum = desk::repeat(rt.alloc(), sessions, &bytes, times);
    tell(rt, sum.ok(), "no memory")
}

fn show_lines(rt: &HostRuntime, lines: u32) -> Result<()> {
    for _ in 0..lines {
        show::show(rt, &next_message(rt)?)?;
    }
    Ok(())
}

fn act(rt: &HostRuntime, job: &Job, times: u32) -> Result<()> {
    match job {
        Job::Repeat(work, messages) => repeat_all(rt, *work, messages, times),
        Job::Feed(size) => feed(rt, *size, times),
        Job::Desk(sessions) => serve(rt, *sessions, times),
        Job::Show => show_lines(rt, times),
    }
}

fn main(rt: HostRuntime) -> Result<()> {
    let words = words_of(&rt)?;
    let (job, times) = job_of(rt.alloc(), &words)?;
    act(&rt, &job, times)
}
