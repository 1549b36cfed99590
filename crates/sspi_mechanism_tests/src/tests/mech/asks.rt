//! A client that asks a KDC as often as it may in its first step, and is then done.

use sspi_testing::{Script, Told};
use sspi_types::{ErrorKind, Reason, SecurityStatus};

/// Asks as often as it may, and is then done; with no question left, at once. It is not a server.
#[derive(Drop)]
pub struct Asks;

fn next<'a>(left: u32) -> Option<Told<'a>> {
    if left == 0 {
        Some(Told::Made(SecurityStatus::Ok, b""))
    } else {
        None
    }
}

impl Script for Asks {
    fn initialize<'a>(left: u32, _has_credentials: bool, _token: &'a [u8]) -> Option<Told<'a>> {
        next(left)
    }

    fn resume<'a>(left: u32, _reply: &'a [u8]) -> Option<Told<'a>> {
        next(left)
    }

    fn accept<'a>(_token: &'a [u8]) -> Told<'a> {
        Told::Refused(ErrorKind::OutOfSequence, Reason::Sequence)
    }
}
