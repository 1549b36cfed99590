//! A mechanism whose steps a script decides, and which protects nothing.

ghost use Rattle.std.specs.Prelude.{◌≡◌, ◌<◌, ◌≤◌, ◌-◌, None, false, true, refl, length, drop};
ghost use Rattle.std.specs.Prelude.{IfOk, IfErr, OnOk, OnErr};
ghost use Rattle.std.proofs.Common.{ap, arith};
ghost use Rattle.sspi_types.specs.Packages.{ntlm_entry};
ghost use Rattle.sspi_mech.specs.Ntlm.{ntlm_sizes};
ghost use Rattle.sspi_mech.specs.Answers.{IfRefused};
ghost use Rattle.sspi_mech.specs.declared.step.Answer.TheVariants as answers;

use sspi_mech::{
    AcceptSecurityContext, Answer, InitializeSecurityContext, MechConfig, Mechanism, Reply, Step,
};
use sspi_names::{Credentials, CredentialsBuffers, NetworkProtocol, NetworkRequest, Username};
use sspi_types::{
    Bytes, ContextSizes, CredentialUse, Error, ErrorKind, PackageInfo, Reason, SecurityPackageType,
    SecurityStatus, SessionKeys, Text, query_security_package_info,
};
use std::alloc::Global;
use std::marker::PhantomData;

/// What a script says about a step.
pub enum Told<'a> {
    /// It is made, with this status and this token.
    Made(SecurityStatus, &'a [u8]),
    Refused(ErrorKind, Reason),
}

/// The steps of a mechanism.
pub trait Script: Drop {
    /// A client's step; none if it asks a KDC, which it may do `left` more times.
    fn initialize<'a>(left: u32, has_credentials: bool, token: &'a [u8]) -> Option<Told<'a>>;

    /// The same step once the KDC has replied.
    fn resume<'a>(left: u32, reply: &'a [u8]) -> Option<Told<'a>>;

    /// A server's step.
    fn accept<'a>(token: &'a [u8]) -> Told<'a>;
}

/// A mechanism that does what its script says. A client asks a KDC at most `TIMES` times, and a
/// server's peer is `DOM\ann`. It protects nothing: a blob is sixteen zeros and the text, and the
/// MIC of a text is the text, so a token shows what was signed.
#[derive(Drop)]
pub struct Scripted<S, const TIMES: u32> {
    script: PhantomData<S>,
    alloc: Global,
    left: u32,
    waiting: bool,
    peer: Option<Username>,
    sealings: u64,
    unsealings: u64,
    signings: u64,
    verifications: u64,
}

fn refusal(kind: ErrorKind, reason: Reason) -> Error
    ensures { result.nstatus ≡ None }
{
    Error::new(kind, reason)
}

fn out_of_sequence() -> Error
    ensures { result.nstatus ≡ None }
{
    refusal(ErrorKind::OutOfSequence, Reason::Sequence)
}

fn spent() -> Error
    ensures { result.nstatus ≡ None }
{
    refusal(ErrorKind::ContextExpired, Reason::Spent)
}

fn step_of(alloc: Global, told: Told<'_>) -> Result<Step, Error>
    ensures codeless { IfErr result (λ error. error.nstatus ≡ None) }
{
    match told {
        Told::Made(status, output) => {
            let output = Bytes::from_slice(alloc, output)?;
            Ok(Step { status, output })
        }
        Told::Refused(kind, reason) => Err(refusal(kind, reason)),
    }
}

/// What follows the sixteen zeros of a blob.
fn text_in(alloc: Global, blob: &[u8]) -> Result<Vec<u8>, Error>
    ensures text { IfOk result (λ text. text.items ≡ drop 16 blob.now) }
    ensures codeless { IfErr result (λ error. error.nstatus ≡ None) }
{
    match blob.get(16..) {
        Some(text) => Ok(Vec::from_slice(alloc, text)?),
        None => Err(out_of_sequence()),
    }
}

impl<S: Script, const TIMES: u32> Scripted<S, TIMES> {
    fn ask(&mut self) -> Result<NetworkRequest, Error>
        ensures asked { OnOk result
            ((self.new ≡ record self.old { left = self.new.left; waiting = true })
            × (self.new.left < self.old.left)) }
        ensures err { OnErr result (self.new ≡ self.old) }
        ensures codeless { IfErr result (λ error. error.nstatus ≡ None) }
    {
        if self.left == 0 {
            return Err(spent());
        }
        let url = Text::from_text(self.alloc, "tcp://kdc")?;
        self.left -= 1;
        self.waiting = true;
        Ok(NetworkRequest {
            protocol: NetworkProtocol::Tcp,
            url,
            payload: Bytes::new(self.alloc),
        })
    }

    fn step(&mut self, told: Told<'_>) -> Result<Step, Error>
        ensures done { OnOk result (self.new ≡ record self.old { waiting = false }) }
        ensures err { OnErr result (self.new ≡ self.old) }
        ensures codeless { IfErr result (λ error. error.nstatus ≡ None) }
    {
        let step = step_of(self.alloc, told)?;
        self.waiting = false;
        Ok(step)
    }

    fn asks_or_steps(&mut self, told: Option<Told<'_>>) -> Answer
        ensures told { (self.new ≡ record self.old {
          left = self.new.left;
          waiting = self.new.waiting;
        })
            × (self.new.left ≤ self.old.left) × elim result as (λ _. Type 0) [
              | answers.Done _ ↦ self.new.waiting ≡ false
              | answers.Ask _ ↦ (self.new.left < self.old.left) × (self.new.waiting ≡ true)
              | answers.Refused _ ↦ self.new ≡ self.old
            ] }
        ensures codeless { IfRefused result (λ error. error.nstatus ≡ None) }
    {
        match told {
            None => match self.ask() {
                Ok(question) => Answer::Ask(question),
                Err(error) => Answer::Refused(error),
            },
            Some(told) => match self.step(told) {
                Ok(step) => Answer::Done(step),
                Err(error) => Answer::Refused(error),
            },
        }
    }
}

impl<S: Script, const TIMES: u32> Mechanism for Scripted<S, TIMES> {
    const REQUESTS: u32 = TIMES;

    ghost REQUESTS = { TIMES };

    ghost meaning = { record {
      made = λ _ m. (m.left ≡ TIMES) × (m.sealings ≡ 0) × (m.unsealings ≡ 0) × (m.signings ≡ 0) ×
          (m.verifications ≡ 0);
      unmade = λ _ _. ⊥;
      acquires = λ m _ _ _ m2. m2 ≡ m;
      steps = λ m _ answer m2. (m2 ≡ record m { left = m2.left; waiting = m2.waiting })
          × (m2.left ≤ m.left) × elim answer as (λ _. Type 0) [
            | answers.Done _ ↦ m2.waiting ≡ false
            | answers.Ask _ ↦ (m2.left < m.left) × (m2.waiting ≡ true)
            | answers.Refused _ ↦ m2 ≡ m
          ];
      resumes = λ m _ answer m2. (m2 ≡ record m { left = m2.left; waiting = m2.waiting })
          × (m2.left ≤ m.left) × elim answer as (λ _. Type 0) [
            | answers.Done _ ↦ m2.waiting ≡ false
            | answers.Ask _ ↦ (m2.left < m.left) × (m2.waiting ≡ true)
            | answers.Refused _ ↦ m2 ≡ m
          ];
      accepts = λ m _ answer m2. (m2 ≡ record m { peer = m2.peer }) ×
          OnOk answer (m2.waiting ≡ false) × OnErr answer (m2 ≡ m);
      identifies = λ m _ m2. m2 ≡ m;
      names = λ m. m.peer;
      keyed = λ _. true;
      session_key = λ _. None;
      waits = λ m. m.waiting;
      left = λ m. m.left;
      pairs = λ _. false;
      counts = λ m. record {
        sealings = m.sealings;
        unsealings = m.unsealings;
        signings = m.signings;
        verifications = m.verifications;
      };
      counted = λ m n.
          record m {
            sealings = n.sealings;
            unsealings = n.unsealings;
            signings = n.signings;
            verifications = n.verifications;
          };
      seals = λ _ _ _ blob. 16 ≤ length blob;
      opens = λ _ _ blob text. text ≡ drop 16 blob;
      signs = λ _ _ _ _. Unit {0};
      verifies = λ _ _ _ _. Unit {0};
      permits = λ _ _. Unit {0};
      refuses = λ _ _ _. Unit {0};
      entry = λ _. ntlm_entry;
      sizes = λ _. ntlm_sizes;
    } };

    fn make(alloc: Global, _config: &MechConfig<'_>) -> Result<Self, Error> {
        Ok(Scripted {
            script: PhantomData,
            alloc,
            left: TIMES,
            waiting: false,
            peer: None,
            sealings: 0,
            unsealings: 0,
            signings: 0,
            verifications: 0,
        })
    }

    fn acquire(
        &mut self,
        _credential_use: CredentialUse,
        auth_data: Option<&Credentials>,
    ) -> Result<Option<CredentialsBuffers>, Error> {
        match auth_data {
            None => Ok(None),
            Some(credentials) => Ok(Some(credentials.to_buffers(self.alloc)?)),
        }
    }

    fn initialize(&mut self, args: &InitializeSecurityContext<'_>) -> Answer {
        if self.waiting {
            return Answer::Refused(out_of_sequence());
        }
        let has_credentials = args.credentials_handle.is_some();
        self.asks_or_steps(S::initialize(self.left, has_credentials, args.input))
    }

    fn resume(&mut self, reply: &Reply) -> Answer {
        match reply {
            Reply::Answered(reply) if self.waiting => {
                self.asks_or_steps(S::resume(self.left, reply.as_slice()))
            }
            Reply::Answered(_) => Answer::Refused(out_of_sequence()),
            Reply::Failed => Answer::Refused(refusal(
                ErrorKind::NoAuthenticatingAuthority,
                Reason::Kdc,
            )),
        }
    }

    fn accept(&mut self, args: &AcceptSecurityContext<'_>) -> Result<Step, Error> {
        if self.waiting {
            return Err(out_of_sequence());
        }
        let step = step_of(self.alloc, S::accept(args.input))?;
        match Username::parse(self.alloc, "DOM\\ann") {
            Ok(name) => {
                self.peer = Some(name);
                Ok(step)
            }
            Err(_) => Err(out_of_sequence()),
        }
    }

    fn waiting(&self) -> bool {
        self.waiting
    }

    fn requests_left(&self) -> u32 {
        self.left
    }

    fn complete(&mut self) -> Result<SecurityStatus, Error> {
        Ok(SecurityStatus::Ok)
    }

    fn names(&self) -> Result<Username, Error> {
        match &self.peer {
            Some(name) => Ok(name.clone(self.alloc)?),
            None => Err(out_of_sequence()),
        }
    }

    fn set_identities(&mut self, _identities: &[Credentials]) -> Result<(), Error> {
        Ok(())
    }

    fn seal(&mut self, text: &[u8]) -> Result<Vec<u8>, Error> {
        let Some(count) = self.sealings.checked_add(1) else {
            return Err(spent());
        };
        let mut blob = Vec::from_slice(self.alloc, &[0; 16])?;
        blob.extend_from_slice(text)?;
        self.sealings = count;
        Ok(blob)
    }

    fn unseal(&mut self, blob: &[u8]) -> Result<Vec<u8>, Error> {
        let Some(count) = self.unsealings.checked_add(1) else {
            return Err(spent());
        };
        let text = text_in(self.alloc, blob)?;
        self.unsealings = count;
        Ok(text)
    }

    fn sign(&mut self, text: &[u8]) -> Result<Vec<u8>, Error> {
        let Some(count) = self.signings.checked_add(1) else {
            return Err(spent());
        };
        let mic = Vec::from_slice(self.alloc, text)?;
        self.signings = count;
        Ok(mic)
    }

    fn verify(&mut self, mic: &[u8], text: &[u8]) -> Result<(), Error> {
        let Some(count) = self.verifications.checked_add(1) else {
            return Err(spent());
        };
        if mic != text {
            return Err(refusal(ErrorKind::MessageAltered, Reason::Tag));
        }
        self.verifications = count;
        Ok(())
    }

    fn user_to_user(&self) -> bool {
        false
    }

    fn package_info(&self) -> Result<PackageInfo, Error> {
        query_security_package_info(self.alloc, &SecurityPackageType::Ntlm)
    }

    fn sizes(&self) -> ContextSizes {
        ContextSizes {
            max_token: 2010,
            max_signature: 16,
            block: 0,
            security_trailer: 16,
        }
    }

    fn session_key(&self) -> Result<SessionKeys, Error> {
        Err(out_of_sequence())
    }

    ghost laws = { record {
      made_fresh = λ s m made. Prim.cc;
      made_left = λ s m made. Prim.omega (arith, made.0);
      step_refused = λ m m2 a e stepped. stepped.2;
      resume_refused = λ m m2 b e resumed. resumed.2;
      accept_refused = λ m m2 a e accepted. accepted.2;
      step_asks = λ m m2 a q stepped. stepped.2.0;
      resume_asks = λ m m2 b q resumed. resumed.2.0;
      acquire_left = λ m m2 u d b acquired. Prim.omega (arith, ap (λ x. x.left) acquired);
      step_left = λ m m2 a r stepped. stepped.1;
      resume_left = λ m m2 b r resumed. resumed.1;
      accept_left = λ m m2 a r accepted. Prim.omega (arith, ap (λ x. x.left) accepted.0);
      identify_left = λ m m2 ids is. Prim.omega (arith, ap (λ x. x.left) is);
      step_waits = λ m m2 a q stepped. stepped.2.1;
      resume_waits = λ m m2 b q resumed. resumed.2.1;
      step_done = λ m m2 a s stepped. stepped.2;
      resume_done = λ m m2 b s resumed. resumed.2;
      accept_done = λ m m2 a s accepted. accepted.1;
      acquire_counts = λ m m2 u d b acquired. Prim.cc;
      step_counts = λ m m2 a r stepped. Prim.cc;
      resume_counts = λ m m2 b r resumed. Prim.cc;
      accept_counts = λ m m2 a r accepted. Prim.cc;
      identify_counts = λ m m2 ids is. Prim.cc;
      counts_counted = λ m n. refl;
      counted_counted = λ m n k. refl;
      counted_counts = λ m. refl;
      names_counted = λ m n. refl;
      keyed_counted = λ m n. refl;
      session_key_counted = λ m n. refl;
      waits_counted = λ m n. refl;
      left_counted = λ m n. refl;
      pairs_counted = λ m n. refl;
      seals_counted = λ m n i text blob sealed. sealed;
      opens_counted = λ m n i blob text opened. opened;
      signs_counted = λ m n i text mic signed. signed;
      verifies_counted = λ m n i mic text verified. verified;
      one_text = λ m i blob text other opened again. Prim.cc;
      long_blob = λ m i text blob sealed. sealed;
    } };
}
