//! A mechanism whose work the host does.
ghost use Rattle.std.specs.Prelude.{◌≡◌, ◌≢◌, ◌+◌, ◌++◌, None, Some, IfOk, IfErr, OnOk, OnErr};
ghost use Rattle.sspi_types.specs.declared.error_kind.ErrorKind.TheVariants as kinds;
ghost use Rattle.sspi_mech.specs.Answered.{answered, Gives};
ghost use Rattle.sspi_mech.specs.Protection.{unless_spent};
ghost use Rattle.sspi_outside.specs.Envelope.{introduced, name_of, no_tag, said, IsKindOf};

use crate::envelope::{Envelope, NO_TAG, read_name, read_step, read_text};
use sspi_mech::{
    AcceptSecurityContext, Answer, InitializeSecurityContext, MechConfig, Mechanism, Refusal,
    Reply, Step,
};
use sspi_names::{Credentials, CredentialsBuffers, Username, UsernameError, Utf16Error, Utf16Text};
use sspi_types::{
    Bytes, ContextSizes, CredentialUse, Error, ErrorKind, PackageInfo, Reason, SecurityPackageType,
    SecurityStatus, SessionKeys, query_security_package_info,
};
use std::alloc::{AllocError, Global};
use std::marker::Model;

/// The security context of the host, as an end of CredSSP sees it.
///
/// Before a call of the end the host steps its own context with the received token, and opens the
/// received sealed field. In place of the token it passes in the *envelope* of the step, and in
/// place of the field sixteen zeros and the text:
///
/// - A client's envelope is a status byte and the token for the peer. The byte is 0 if the context
///   has ended and 1 if it goes on; 3 adds to 1 that it authenticates user-to-user or in DCE style.
///   Then a server needs MICs of Kerberos too. If the context refused the step, the envelope is 2
///   and a code of winerror.h in four bytes, the low one first.
/// - A server's envelope has before that the length of the peer's name in bytes, as two bytes with
///   the low one first, and the name in UTF-16. The length is 0 while the name is not known.
///
/// After the call the host seals what follows the sixteen zeros in the field that the end made. It
/// puts the sealed blob in its place, and sends. Neither an envelope nor such a field is ever sent,
/// and neither may be taken from what was received.
///
/// Refusals, of which the first that applies is answered:
/// - `OutOfSequence`: a step after the one that ended the context; `resume`; completing, sealing,
///   opening, signing and verifying before that one; the name before it is known.
/// - `ContextExpired`: a message whose count is `u64::MAX`.
/// - The kind of the code that the host passed in; `InvalidToken` if the code has no kind.
/// - `InvalidToken`: an envelope of another form or with an invalid name; a blob of fewer than 16
///   bytes.
/// - `MessageAltered`: a blob or a MIC that does not begin with sixteen zeros; a MIC with another
///   text after them.
/// - `UnsupportedFunction`: the session key.
#[derive(Drop)]
pub struct Outside {
    alloc: Global,
    ended: bool,
    pairs: bool,
    peer: Option<Username>,
    sealings: u64,
    unsealings: u64,
    signings: u64,
    verifications: u64,
}

impl Model for Outside {
    ghost use Rattle.sspi_outside.specs.Outside.{OutsideState};

    ghost Value = { OutsideState };

    ghost view = { λ it. record {
      ended = it.ended;
      pairs = it.pairs;
      peer = it.peer;
      counts = record {
        sealings = it.sealings;
        unsealings = it.unsealings;
        signings = it.signings;
        verifications = it.verifications;
      };
    } };
}

// The refusal of the host's context.
fn denied(code: u32) -> Refusal
    ensures { IsKindOf code result.error_type }
{
    match ErrorKind::from_u32(code) {
        Some(kind) => Refusal::new(kind, Reason::Mechanism),
        None => Refusal::new(ErrorKind::InvalidToken, Reason::TokenForm),
    }
}

// The name that the host gave.
fn name_in(alloc: Global, bytes: &[u8]) -> Result<Username, Refusal>
    ensures ok { IfOk result (λ name. name_of bytes.now ≡ Some name) }
    ensures err { IfErr result (λ error. error.error_type ≢ kinds.InsufficientMemory →
        (name_of bytes.now ≡ None) × (error.error_type ≡ kinds.InvalidToken)) }
{
    match Utf16Text::from_bytes_le(alloc, bytes) {
        Ok(units) => match Username::parse(alloc, &units.to_string(alloc)?) {
            Ok(name) => Ok(name),
            Err(UsernameError::MixedFormat) => Err(Refusal::malformed()),
            Err(error) => Err(error.into()),
        },
        Err(Utf16Error::InsufficientMemory) => Err(Utf16Error::InsufficientMemory.into()),
        Err(Utf16Error::OddLength | Utf16Error::UnpairedSurrogate) => Err(Refusal::malformed()),
    }
}

// The number of the next message; `ContextExpired` if there is none.
fn next(count: u64) -> Result<u64, Refusal>
    ensures ok { IfOk result (λ next. (next ≡ count + 1) × (unless_spent count None ≡ None)) }
    ensures err { IfErr result (λ error. unless_spent count None ≡ Some error.error_type) }
{
    match count.checked_add(1) {
        Some(next) => Ok(next),
        None => Err(Refusal::new(ErrorKind::ContextExpired, Reason::Spent)),
    }
}

impl Outside {
    ghost use Rattle.sspi_outside.specs.Outside.{Steps, takes, hears, hears_name, client_step};
    ghost use Rattle.sspi_outside.specs.Outside.{server_step, latest, unless_early};

    fn hear(&mut self, heard: Option<Username>)
        ensures { self.new ≡ record self.old { peer = latest heard self.old.peer } }
    {
        if let Some(name) = heard {
            self.peer = Some(name);
        }
    }

    // What the host said about a step, and about the peer's name.
    fn take(&mut self, heard: Option<Username>, envelope: &[u8]) -> Result<Step, Refusal>
        ensures { Steps (takes self.old heard (said envelope.now)) self.old (answered result)
            self.new }
    {
        match read_step(envelope) {
            Envelope::Ended(token) => {
                let output = Bytes::from_slice(self.alloc, token)?;
                self.ended = true;
                self.hear(heard);
                Ok(Step {
                    status: SecurityStatus::Ok,
                    output,
                })
            }
            Envelope::GoesOn(token) => {
                let output = Bytes::from_slice(self.alloc, token)?;
                self.hear(heard);
                Ok(Step {
                    status: SecurityStatus::ContinueNeeded,
                    output,
                })
            }
            Envelope::UserToUser(token) => {
                let output = Bytes::from_slice(self.alloc, token)?;
                self.pairs = true;
                self.hear(heard);
                Ok(Step {
                    status: SecurityStatus::ContinueNeeded,
                    output,
                })
            }
            Envelope::Denied(code) => Err(denied(code)),
            Envelope::Unsaid => Err(Refusal::malformed()),
        }
    }

    fn take_named(&mut self, name: &[u8], step: &[u8]) -> Result<Step, Refusal>
        ensures { Steps (hears_name self.old name.now step.now) self.old (answered result)
            self.new }
    {
        if name.is_empty() {
            return self.take(None, step);
        }
        let name = name_in(self.alloc, name)?;
        self.take(Some(name), step)
    }

    fn client_step(&mut self, envelope: &[u8]) -> Result<Step, Refusal>
        ensures { Steps (client_step self.old envelope.now) self.old (answered result) self.new }
    {
        if self.ended {
            return Err(Refusal::out_of_sequence());
        }
        self.take(None, envelope)
    }

    fn server_step(&mut self, envelope: &[u8]) -> Result<Step, Refusal>
        ensures { Steps (server_step self.old envelope.now) self.old (answered result) self.new }
    {
        if self.ended {
            return Err(Refusal::out_of_sequence());
        }
        match read_name(envelope) {
            Some((name, step)) => self.take_named(name, step),
            None => Err(Refusal::malformed()),
        }
    }

    // The number after this one; `OutOfSequence` before the context has ended.
    fn count_on(&self, count: u64) -> Result<u64, Refusal>
        ensures ok { IfOk result (λ next. (next ≡ count + 1) ×
            (unless_early self.now count None ≡ None)) }
        ensures err { IfErr result (λ error. unless_early self.now count None ≡ Some
            error.error_type) }
    {
        if !self.ended {
            return Err(Refusal::out_of_sequence());
        }
        next(count)
    }
}

// Sixteen zeros and the text.
pub(crate) fn untagged(alloc: Global, text: &[u8]) -> Result<Vec<u8>, AllocError>
    ensures { IfOk result (λ blob. blob.items ≡ no_tag ++ text.now) }
{
    let mut blob = Vec::with_capacity(alloc, NO_TAG.len() + text.len())?;
    blob.extend_from_slice(&NO_TAG)?;
    blob.extend_from_slice(text)?;
    Ok(blob)
}

impl Mechanism for Outside {
    const REQUESTS: u32 = 0;

    ghost use Rattle.sspi_outside.specs.Outside.{outside_meaning};
    ghost use Rattle.sspi_outside.specs.OutsideLaws.{outside_laws};

    ghost REQUESTS = { 0 };

    ghost meaning = { outside_meaning };

    ghost laws = { outside_laws };

    fn make(alloc: Global, _config: &MechConfig<'_>) -> Result<Self, Error> {
        Ok(Outside {
            alloc,
            ended: false,
            pairs: false,
            peer: None,
            sealings: 0,
            unsealings: 0,
            signings: 0,
            verifications: 0,
        })
    }

    fn acquire(
        &mut self,
        _credential_use: CredentialUse,
        auth_data: Option<&Credentials>,
    ) -> Result<Option<CredentialsBuffers>, Error> {
        match auth_data {
            None => Ok(None),
            Some(credentials) => Ok(Some(credentials.to_buffers(self.alloc)?)),
        }
    }

    fn initialize(&mut self, args: &InitializeSecurityContext<'_>) -> Answer {
        match self.client_step(args.input) {
            Ok(step) => Answer::Done(step),
            Err(refusal) => Answer::Refused(refusal.into()),
        }
    }

    fn resume(&mut self, _reply: &Reply) -> Answer {
        Answer::Refused(Refusal::out_of_sequence().into())
    }

    fn accept(&mut self, args: &AcceptSecurityContext<'_>) -> Result<Step, Error> {
        Ok(self.server_step(args.input)?)
    }

    fn waiting(&self) -> bool {
        false
    }

    fn requests_left(&self) -> u32 {
        0
    }

    fn complete(&mut self) -> Result<SecurityStatus, Error> {
        if !self.ended {
            return Err(Refusal::out_of_sequence().into());
        }
        Ok(SecurityStatus::Ok)
    }

    fn names(&self) -> Result<Username, Error> {
        match &self.peer {
            Some(name) => Ok(name.clone(self.alloc)?),
            None => Err(Refusal::out_of_sequence().into()),
        }
    }

    fn set_identities(&mut self, _identities: &[Credentials]) -> Result<(), Error> {
        Ok(())
    }

    fn seal(&mut self, text: &[u8]) -> Result<Vec<u8>, Error> {
        let count = self.count_on(self.sealings)?;
        let blob = untagged(self.alloc, text)?;
        self.sealings = count;
        Ok(blob)
    }

    fn unseal(&mut self, blob: &[u8]) -> Result<Vec<u8>, Error> {
        let count = self.count_on(self.unsealings)?;
        if blob.len() < NO_TAG.len() {
            return Err(Error::new(ErrorKind::InvalidToken, Reason::ShortBlob));
        }
        let Some(text) = read_text(blob) else {
            return Err(Error::new(ErrorKind::MessageAltered, Reason::Tag));
        };
        let text = Vec::from_slice(self.alloc, text)?;
        self.unsealings = count;
        Ok(text)
    }

    fn sign(&mut self, text: &[u8]) -> Result<Vec<u8>, Error> {
        let count = self.count_on(self.signings)?;
        let mic = untagged(self.alloc, text)?;
        self.signings = count;
        Ok(mic)
    }

    fn verify(&mut self, mic: &[u8], text: &[u8]) -> Result<(), Error> {
        let count = self.count_on(self.verifications)?;
        if read_text(mic) != Some(text) {
            return Err(Error::new(ErrorKind::MessageAltered, Reason::Tag));
        }
        self.verifications = count;
        Ok(())
    }

    fn user_to_user(&self) -> bool {
        self.pairs
    }

    fn package_info(&self) -> Result<PackageInfo, Error> {
        query_security_package_info(self.alloc, &SecurityPackageType::Ntlm)
    }

    fn sizes(&self) -> ContextSizes {
        ContextSizes {
            max_token: 2010,
            max_signature: 16,
            block: 0,
            security_trailer: 16,
        }
    }

    fn session_key(&self) -> Result<SessionKeys, Error> {
        Err(Error::new(ErrorKind::UnsupportedFunction, Reason::Unsupported))
    }
}
