//! A KDC for plain Kerberos, a stand-in: anyone can read, forge and replay its messages.

ghost use Rattle.std.specs.Prelude.{◌≡◌, ◌++◌, IfOk, option_copied};
ghost use Rattle.std.specs.List.{slice_get};
ghost use Rattle.sha2.specs.Sha256.{sha256};
ghost use Rattle.sspi_mech.specs.KerberosMessages.{kdc_error};
ghost use Rattle.sspi_mech.specs.PlainKdc.{first_key, session_key, knows, first_reply};
ghost use Rattle.sspi_mech.specs.PlainKdc.{session_reply, usual_reply};

use crate::kdc::{Kdc, KdcError};
use crate::kerberos::messages::{
    AS_REPLY_LETTERS, AS_REQUEST_LETTERS, ERROR_LETTERS, TGS_REPLY_LETTERS, TGS_REQUEST_LETTERS,
};
use crate::named::{after_letters, lettered};
use sha2::{Digest, Sha256};
use sspi_names::NetworkRequest;
use sspi_types::Text;
use std::alloc::{AllocError, Global};
use std::marker::Model;

/// The code of a KDC's error: the name is unknown.
const UNKNOWN_NAME: u8 = 4;

/// The code of a KDC's error: the request is not one that it knows.
const DENIED: u8 = 5;

/// The length of a first key and a ticket together, in bytes.
const KEYS_LENGTH: usize = 64;

/// How a KDC answers a call.
#[derive(Clone, Copy, Debug, PartialEq, Eq)]
pub enum Scripted {
    /// It replies according to its users.
    Usual,
    /// It replies with an error of this code.
    Code(u8),
    /// It cannot be asked.
    Fail,
}

/// A KDC that exposes its replies: a first key for each name of its users, and a session key for
/// each first key with a ticket. The script decides its calls in order, from the first; calls past
/// its end are `Usual`. Names are compared byte by byte.
#[derive(Drop)]
pub struct PlainKdc {
    alloc: Global,
    users: Vec<Text>,
    script: Vec<Scripted>,
    asked: u64,
    faults: u64,
}

impl Model for PlainKdc {
    ghost use Rattle.sspi_mech.specs.PlainKdc.{PlainKdcState};

    ghost Value = { PlainKdcState };

    ghost view = { λ kdc. record {
      users = kdc.users.items;
      script = kdc.script.items;
      asked = kdc.asked;
      faults = kdc.faults;
    } };
}

impl PlainKdc {
    /// A KDC that has not been asked yet.
    pub fn new(alloc: Global, users: Vec<Text>, script: Vec<Scripted>) -> PlainKdc
        ensures { result ≡ record {
          users = users.items;
          script = script.items;
          asked = 0;
          faults = 0;
        } }
    {
        PlainKdc {
            alloc,
            users,
            script,
            asked: 0,
            faults: 0,
        }
    }

    /// What the script has for the call of this number.
    fn scripted(&self, call: u64) -> Option<Scripted>
        ensures { result ≡ slice_get self.now.script call }
    {
        self.script.get(call as usize).copied()
    }
}

fn knows(users: &[Text], name: &[u8]) -> bool
    ensures { result ≡ knows users.now name.now }
{
    users.iter().any(|user| user.as_str().as_bytes() == name)
}

/// The key that a KDC gives for a name.
#[tactic(auto, unfolding(crate::specs::PlainKdc::first_key))]
fn first_key(name: &[u8]) -> [u8; 32]
    ensures { result ≡ first_key name.now }
{
    hash(b"plain kdc first\0", name)
}

/// The key that a KDC gives for a first key and a ticket, one after the other.
#[tactic(auto, unfolding(crate::specs::PlainKdc::session_key))]
fn session_key(both: &[u8]) -> [u8; 32]
    ensures { result ≡ session_key both.now }
{
    hash(b"plain kdc session\0", both)
}

fn hash(label: &[u8], text: &[u8]) -> [u8; 32]
    ensures { result ≡ sha256 (label.now ++ text.now) }
{
    let mut hasher = Sha256::new();
    hasher.update(label);
    hasher.update(text);
    hasher.finalize()
}

fn error_reply(alloc: Global, code: u8) -> Result<Vec<u8>, AllocError>
    ensures { IfOk result (λ reply. reply.items ≡ kdc_error code) }
{
    lettered(alloc, ERROR_LETTERS, &[code])
}

fn first_reply(alloc: Global, users: &[Text], name: &[u8]) -> Result<Vec<u8>, AllocError>
    ensures { IfOk result (λ reply. reply.items ≡ first_reply users.now name.now) }
{
    if knows(users, name) {
        lettered(alloc, AS_REPLY_LETTERS, &first_key(name))
    } else {
        error_reply(alloc, UNKNOWN_NAME)
    }
}

fn session_reply(alloc: Global, both: Option<&[u8]>) -> Result<Vec<u8>, AllocError>
    ensures { IfOk result (λ reply. reply.items ≡ session_reply (option_copied both.entry)) }
{
    match both {
        Some(both) if both.len() == KEYS_LENGTH => {
            lettered(alloc, TGS_REPLY_LETTERS, &session_key(both))
        }
        Some(_) | None => error_reply(alloc, DENIED),
    }
}

/// The usual reply to a request.
fn usual_reply(alloc: Global, users: &[Text], request: &[u8]) -> Result<Vec<u8>, AllocError>
    ensures { IfOk result (λ reply. reply.items ≡ usual_reply users.now request.now) }
{
    match after_letters(AS_REQUEST_LETTERS, request) {
        Some(name) => first_reply(alloc, users, name),
        None => session_reply(alloc, after_letters(TGS_REQUEST_LETTERS, request)),
    }
}

impl Kdc for PlainKdc {
    ghost use Rattle.std.specs.Prelude.{Some};
    ghost use Rattle.sspi_mech.specs.PlainKdc.{told_by};

    ghost told = { λ kdc. Some (told_by kdc.users kdc.script) };

    ghost asked = { λ kdc. kdc.asked };

    ghost faults = { λ kdc. kdc.faults };

    fn ask(&mut self, request: &NetworkRequest) -> Result<Vec<u8>, KdcError> {
        let scripted = self.scripted(self.asked);
        self.asked = self.asked.saturating_add(1);
        match scripted {
            Some(Scripted::Fail) => {
                self.faults = self.faults.saturating_add(1);
                Err(KdcError::Failed)
            }
            Some(Scripted::Code(code)) => Ok(error_reply(self.alloc, code)?),
            Some(Scripted::Usual) | None => Ok(usual_reply(
                self.alloc,
                &self.users,
                request.payload.as_slice(),
            )?),
        }
    }
}
