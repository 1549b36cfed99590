//! A client that asks a KDC once in each of its first steps.

use sspi_testing::{Script, Told};
use sspi_types::{ErrorKind, Reason, SecurityStatus};

/// A client asks a KDC once in each of its first steps, and ends with the last of them; with no
/// question it ends in its first step. Each of its steps requires the credentials that it acquired.
/// Each step of a server is its last, but has another status if the token is `odd`.
#[derive(Drop)]
pub struct Asks;

fn status_after(token: &[u8]) -> SecurityStatus {
    if token == b"odd".as_slice() {
        SecurityStatus::CompleteAndContinue
    } else {
        SecurityStatus::Ok
    }
}

impl Script for Asks {
    fn initialize<'a>(left: u32, has_credentials: bool, _token: &'a [u8]) -> Option<Told<'a>> {
        if !has_credentials {
            return Some(Told::Refused(ErrorKind::OutOfSequence, Reason::Sequence));
        }
        if left == 0 {
            return Some(Told::Made(SecurityStatus::Ok, b""));
        }
        None
    }

    fn resume<'a>(left: u32, _reply: &'a [u8]) -> Option<Told<'a>> {
        let status = if left == 0 {
            SecurityStatus::Ok
        } else {
            SecurityStatus::ContinueNeeded
        };
        Some(Told::Made(status, b"asked"))
    }

    fn accept<'a>(token: &'a [u8]) -> Told<'a> {
        Told::Made(status_after(token), b"last")
    }
}
