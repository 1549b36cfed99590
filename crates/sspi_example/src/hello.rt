//! A mechanism of one's own: it greets, believes its peer and protects nothing.
ghost use Rattle.std.specs.Prelude.{◌≡◌, ◌≤◌, None, false, true, refl, length, drop, IfErr, OnErr};
ghost use Rattle.std.proofs.Common.{arith};
ghost use Rattle.sspi_types.specs.Packages.{ntlm_entry};
ghost use Rattle.sspi_mech.specs.Ntlm.{ntlm_sizes};
ghost use Rattle.sspi_mech.specs.declared.step.Answer.TheVariants as answers;

use sspi_mech::{
    AcceptSecurityContext, Answer, InitializeSecurityContext, MechConfig, Mechanism, Reply, Step,
};
use sspi_names::{Credentials, CredentialsBuffers, Username, Utf16Text};
use sspi_types::{
    Bytes, ContextSizes, CredentialUse, Error, ErrorKind, PackageInfo, Reason, SecurityPackageType,
    SecurityStatus, SessionKeys, query_security_package_info,
};
use std::alloc::Global;

/// One end. A client sends its name and is done after the answer; a server is done at once. A blob
/// is sixteen zeros and the text.
#[derive(Drop)]
pub struct Hello {
    alloc: Global,
    peer: Option<Username>,
    sealings: u64,
    unsealings: u64,
    signings: u64,
    verifications: u64,
}

fn refusal(kind: ErrorKind) -> Error
    ensures { result.nstatus ≡ None }
{
    Error::new(kind, Reason::Mechanism)
}

impl Hello {
    fn greet(&self, args: &InitializeSecurityContext<'_>) -> Result<Step, Error>
        ensures codeless { IfErr result (λ error. error.nstatus ≡ None) }
    {
        if !args.input.is_empty() {
            return Ok(Step {
                status: SecurityStatus::Ok,
                output: Bytes::new(self.alloc),
            });
        }
        match args.credentials_handle {
            Some(CredentialsBuffers::AuthIdentity(buffers)) => Ok(Step {
                status: SecurityStatus::ContinueNeeded,
                output: Bytes::from_vec(buffers.user.to_bytes_le(self.alloc)?),
            }),
            Some(CredentialsBuffers::Keytab(_)) | None => Err(refusal(ErrorKind::NoCredentials)),
        }
    }
}

/// The name that a client sent.
fn name_in(alloc: Global, token: &[u8]) -> Result<Username, Error>
    ensures codeless { IfErr result (λ error. error.nstatus ≡ None) }
{
    let name = Utf16Text::from_bytes_le(alloc, token)?.to_string(alloc)?;
    Ok(Username::parse(alloc, &name)?)
}

impl Mechanism for Hello {
    const REQUESTS: u32 = 0;

    ghost REQUESTS = { 0 };

    ghost meaning = { record {
      made = λ _ m. (m.sealings ≡ 0) × (m.unsealings ≡ 0) × (m.signings ≡ 0) ×
          (m.verifications ≡ 0);
      unmade = λ _ _. ⊥;
      acquires = λ m _ _ _ m2. m2 ≡ m;
      steps = λ m _ answer m2. (m2 ≡ m) × elim answer as (λ _. Type 0) [
        | answers.Done _ ↦ Unit {0}
        | answers.Ask _ ↦ ⊥
        | answers.Refused _ ↦ Unit {0}
      ];
      resumes = λ m _ answer m2. (m2 ≡ m) × elim answer as (λ _. Type 0) [
        | answers.Done _ ↦ ⊥
        | answers.Ask _ ↦ ⊥
        | answers.Refused _ ↦ Unit {0}
      ];
      accepts = λ m _ answer m2. (m2 ≡ record m { peer = m2.peer }) × OnErr answer (m2 ≡ m);
      identifies = λ m _ m2. m2 ≡ m;
      names = λ m. m.peer;
      keyed = λ _. true;
      session_key = λ _. None;
      waits = λ _. false;
      left = λ _. 0;
      pairs = λ _. false;
      counts = λ m. record {
        sealings = m.sealings;
        unsealings = m.unsealings;
        signings = m.signings;
        verifications = m.verifications;
      };
      counted = λ m n.
          record m {
            sealings = n.sealings;
            unsealings = n.unsealings;
            signings = n.signings;
            verifications = n.verifications;
          };
      seals = λ _ _ _ blob. 16 ≤ length blob;
      opens = λ _ _ blob text. text ≡ drop 16 blob;
      signs = λ _ _ _ _. ⊥;
      verifies = λ _ _ _ _. ⊥;
      permits = λ _ _. Unit {0};
      refuses = λ _ _ _. Unit {0};
      entry = λ _. ntlm_entry;
      sizes = λ _. ntlm_sizes;
    } };

    fn make(alloc: Global, _config: &MechConfig<'_>) -> Result<Self, Error> {
        Ok(Hello {
            alloc,
            peer: None,
            sealings: 0,
            unsealings: 0,
            signings: 0,
            verifications: 0,
        })
    }

    fn acquire(
        &mut self,
        _credential_use: CredentialUse,
        auth_data: Option<&Credentials>,
    ) -> Result<Option<CredentialsBuffers>, Error> {
        match auth_data {
            None => Ok(None),
            Some(credentials) => Ok(Some(credentials.to_buffers(self.alloc)?)),
        }
    }

    fn initialize(&mut self, args: &InitializeSecurityContext<'_>) -> Answer {
        match self.greet(args) {
            Ok(step) => Answer::Done(step),
            Err(error) => Answer::Refused(error),
        }
    }

    fn resume(&mut self, _reply: &Reply) -> Answer {
        Answer::Refused(refusal(ErrorKind::OutOfSequence))
    }

    fn accept(&mut self, args: &AcceptSecurityContext<'_>) -> Result<Step, Error> {
        let output = Bytes::from_slice(self.alloc, b"hello")?;
        self.peer = Some(name_in(self.alloc, args.input)?);
        Ok(Step {
            status: SecurityStatus::Ok,
            output,
        })
    }

    fn waiting(&self) -> bool {
        false
    }

    fn requests_left(&self) -> u32 {
        0
    }

    fn complete(&mut self) -> Result<SecurityStatus, Error> {
        Ok(SecurityStatus::Ok)
    }

    fn names(&self) -> Result<Username, Error> {
        match &self.peer {
            Some(name) => Ok(name.clone(self.alloc)?),
            None => Err(refusal(ErrorKind::OutOfSequence)),
        }
    }

    fn set_identities(&mut self, _identities: &[Credentials]) -> Result<(), Error> {
        Ok(())
    }

    fn seal(&mut self, text: &[u8]) -> Result<Vec<u8>, Error> {
        let Some(count) = self.sealings.checked_add(1) else {
            return Err(refusal(ErrorKind::ContextExpired));
        };
        let mut blob = Vec::from_slice(self.alloc, &[0; 16])?;
        blob.extend_from_slice(text)?;
        self.sealings = count;
        Ok(blob)
    }

    fn unseal(&mut self, blob: &[u8]) -> Result<Vec<u8>, Error> {
        let Some(count) = self.unsealings.checked_add(1) else {
            return Err(refusal(ErrorKind::ContextExpired));
        };
        if blob.len() < 16 {
            return Err(refusal(ErrorKind::InvalidToken));
        }
        let text = Vec::from_slice(self.alloc, &blob[16..])?;
        self.unsealings = count;
        Ok(text)
    }

    fn sign(&mut self, _text: &[u8]) -> Result<Vec<u8>, Error> {
        Err(refusal(ErrorKind::UnsupportedFunction))
    }

    fn verify(&mut self, _mic: &[u8], _text: &[u8]) -> Result<(), Error> {
        Err(refusal(ErrorKind::UnsupportedFunction))
    }

    fn user_to_user(&self) -> bool {
        false
    }

    fn package_info(&self) -> Result<PackageInfo, Error> {
        query_security_package_info(self.alloc, &SecurityPackageType::Ntlm)
    }

    fn sizes(&self) -> ContextSizes {
        ContextSizes {
            max_token: 2010,
            max_signature: 16,
            block: 0,
            security_trailer: 16,
        }
    }

    fn session_key(&self) -> Result<SessionKeys, Error> {
        Err(refusal(ErrorKind::UnsupportedFunction))
    }

    ghost laws = { record {
      made_fresh = λ s m made. Prim.cc;
      made_left = λ s m made. Prim.omega arith;
      step_refused = λ m m2 a e stepped. stepped.0;
      resume_refused = λ m m2 b e resumed. resumed.0;
      accept_refused = λ m m2 a e accepted. accepted.1;
      acquire_left = λ m m2 u d b acquired. Prim.omega arith;
      step_left = λ m m2 a r stepped. Prim.omega arith;
      resume_left = λ m m2 b r resumed. Prim.omega arith;
      accept_left = λ m m2 a r accepted. Prim.omega arith;
      identify_left = λ m m2 ids is. Prim.omega arith;
      step_asks = λ m m2 a q stepped. absurd stepped.1;
      resume_asks = λ m m2 b q resumed. absurd resumed.1;
      step_waits = λ m m2 a q stepped. absurd stepped.1;
      resume_waits = λ m m2 b q resumed. absurd resumed.1;
      step_done = λ m m2 a s stepped. refl;
      resume_done = λ m m2 b s resumed. refl;
      accept_done = λ m m2 a s accepted. refl;
      acquire_counts = λ m m2 u d b acquired. Prim.cc;
      step_counts = λ m m2 a r stepped. Prim.cc;
      resume_counts = λ m m2 b r resumed. Prim.cc;
      accept_counts = λ m m2 a r accepted. Prim.cc;
      identify_counts = λ m m2 ids is. Prim.cc;
      counts_counted = λ m n. refl;
      counted_counted = λ m n k. refl;
      counted_counts = λ m. refl;
      names_counted = λ m n. refl;
      keyed_counted = λ m n. refl;
      session_key_counted = λ m n. refl;
      waits_counted = λ m n. refl;
      left_counted = λ m n. refl;
      pairs_counted = λ m n. refl;
      seals_counted = λ m n i text blob sealed. sealed;
      opens_counted = λ m n i blob text opened. opened;
      signs_counted = λ m n i text mic signed. signed;
      verifies_counted = λ m n i mic text verified. verified;
      one_text = λ m i blob text other opened again. Prim.cc;
      long_blob = λ m i text blob sealed. sealed;
    } };
}
