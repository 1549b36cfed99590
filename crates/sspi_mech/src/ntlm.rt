//! Plain NTLM, a stand-in: anyone can read, forge and replay its messages.

ghost use Rattle.std.specs.Prelude.{option_copied};

mod acquire;
mod claim;
pub mod laws;
mod login;
mod messages;
mod stage;

use crate::args::{AcceptSecurityContext, InitializeSecurityContext};
use crate::config::MechConfig;
use crate::mechanism::Mechanism;
use crate::ntlm::acquire::buffers_of;
use crate::ntlm::claim::claim_of;
use crate::ntlm::login::login_of;
use crate::ntlm::messages::{
    NEGOTIATE, authenticate_message, challenge_message, is_negotiate, key_of, proof_of,
    read_challenge,
};
use crate::ntlm::stage::Stage;
use crate::protection::Protection;
use crate::refusal::Refusal;
use crate::step::{Answer, Reply, Step};
use sspi_names::{Credentials, CredentialsBuffers, Username};
use sspi_types::{
    Bytes, ContextSizes, CredentialUse, Error, PackageInfo, SecurityPackageType, SecurityStatus,
    SessionKeys, query_security_package_info,
};
use std::alloc::Global;
use std::marker::Model;

/// Plain NTLM: three messages, a challenge, and a proof and a key over the password.
///
/// A client sends its first message, takes the challenge, and sends its name with the proof. A
/// server sends the challenge of its configuration (zeros if that is one of Kerberos), and takes
/// the name and the proof. It has a key once `set_identities` has found whose proof it is; that may
/// be called again.
///
/// Refusals; the first that applies is answered:
/// - OutOfSequence: a step of the other role or after the end; `resume`; a call before the key or
///   name it needs; `set_identities` except on a server that has the client's last message.
/// - ContextExpired: a message whose count is `u64::MAX`.
/// - InvalidToken: a message of another form or with bytes after it; a name that is not UTF-8; a
///   sealed text of less than 16 bytes.
/// - UnknownCredentials: a keytab; a name that mixes the two forms of names.
/// - NoCredentials: outbound `acquire`, or the client's last step, without credentials; a list
///   without a password.
/// - MessageAltered: a wrong tag or MIC. LogonDenied: no password gives the proof. InternalError: a
///   name longer than 65535 bytes.
#[derive(Drop)]
pub struct Ntlm {
    alloc: Global,
    challenge: [u8; 8],
    stage: Stage,
    protection: Protection,
}

impl Model for Ntlm {
    ghost use Rattle.sspi_mech.specs.NtlmStage.{NtlmState};

    ghost Value = { NtlmState };

    ghost view = { λ ntlm. record {
      challenge = ntlm.challenge;
      stage = ntlm.stage;
      protection = ntlm.protection;
    } };
}

impl Ntlm {
    ghost use Rattle.sspi_mech.specs.NtlmSteps.{Steps, client_step, server_step, negotiates};
    ghost use Rattle.sspi_mech.specs.NtlmSteps.{authenticates, challenges, claims};
    ghost use Rattle.sspi_mech.specs.NtlmMessages.{is_negotiate, read_challenge};
    ghost use Rattle.sspi_mech.specs.NtlmClaims.{claim_of};
    ghost use Rattle.sspi_mech.specs.Answered.{answered};

    fn client_step(
        &mut self,
        handle: Option<&CredentialsBuffers>,
        input: &[u8],
    ) -> Result<Step, Refusal>
        ensures { Steps (client_step self.old.stage self.old (option_copied handle.entry) input.now)
            self.old (answered result)
            self.new }
    {
        match &self.stage {
            Stage::Unused => self.negotiate(),
            Stage::NegotiateSent => self.authenticate(handle, input),
            Stage::AuthenticateSent(_) | Stage::ChallengeSent | Stage::Claimed(_) => Err(
                Refusal::out_of_sequence(),
            ),
        }
    }

    fn negotiate(&mut self) -> Result<Step, Refusal>
        ensures { Steps (negotiates self.old) self.old (answered result) self.new }
    {
        let output = Bytes::from_slice(self.alloc, NEGOTIATE)?;
        self.stage = Stage::NegotiateSent;
        Ok(Step {
            status: SecurityStatus::ContinueNeeded,
            output,
        })
    }

    fn authenticate(
        &mut self,
        handle: Option<&CredentialsBuffers>,
        input: &[u8],
    ) -> Result<Step, Refusal>
        ensures { Steps (authenticates self.old (read_challenge input.now)
            (option_copied handle.entry)) self.old (answered result)
            self.new }
    {
        let Some(challenge) = read_challenge(input) else {
            return Err(Refusal::malformed());
        };
        let login = login_of(self.alloc, handle)?;
        let name = login.name.inner();
        let password = login.password.as_str().as_bytes();
        let proof = proof_of(challenge, name.as_bytes(), password);
        let key = key_of(challenge, name.as_bytes(), password);
        let output = authenticate_message(self.alloc, name, &proof)?;
        self.protection.set_key(key);
        self.stage = Stage::AuthenticateSent(login.name);
        Ok(Step {
            status: SecurityStatus::Ok,
            output: Bytes::from_vec(output),
        })
    }

    fn server_step(&mut self, input: &[u8]) -> Result<Step, Refusal>
        ensures { Steps (server_step self.old.stage self.old input.now) self.old (answered result)
            self.new }
    {
        match &self.stage {
            Stage::Unused => self.challenge(input),
            Stage::ChallengeSent => self.take_claim(input),
            Stage::NegotiateSent | Stage::AuthenticateSent(_) | Stage::Claimed(_) => Err(
                Refusal::out_of_sequence(),
            ),
        }
    }

    fn challenge(&mut self, input: &[u8]) -> Result<Step, Refusal>
        ensures { Steps (challenges self.old (is_negotiate input.now)) self.old (answered result)
            self.new }
    {
        if !is_negotiate(input) {
            return Err(Refusal::malformed());
        }
        let output = challenge_message(self.alloc, &self.challenge)?;
        self.stage = Stage::ChallengeSent;
        Ok(Step {
            status: SecurityStatus::ContinueNeeded,
            output: Bytes::from_vec(output),
        })
    }

    fn take_claim(&mut self, input: &[u8]) -> Result<Step, Refusal>
        ensures { Steps (claims self.old (claim_of input.now)) self.old (answered result) self.new }
    {
        let claim = claim_of(self.alloc, input)?;
        self.stage = Stage::Claimed(claim);
        Ok(Step {
            status: SecurityStatus::CompleteNeeded,
            output: Bytes::new(self.alloc),
        })
    }
}

impl Mechanism for Ntlm {
    const REQUESTS: u32 = 0;

    ghost use Rattle.sspi_mech.specs.Ntlm.{ntlm_meaning};
    ghost use Rattle.sspi_mech.specs.NtlmLaws.{ntlm_laws};

    ghost REQUESTS = { 0 };

    ghost meaning = { ntlm_meaning };

    ghost laws = { ntlm_laws };

    fn make(alloc: Global, config: &MechConfig<'_>) -> Result<Self, Error> {
        let challenge = match config {
            MechConfig::Ntlm(config) => config.challenge,
            MechConfig::Kerberos(_) | MechConfig::KerberosServer(_, _) => [0; 8],
        };
        Ok(Ntlm {
            alloc,
            challenge,
            stage: Stage::Unused,
            protection: Protection::new(),
        })
    }

    fn acquire(
        &mut self,
        credential_use: CredentialUse,
        auth_data: Option<&Credentials>,
    ) -> Result<Option<CredentialsBuffers>, Error> {
        Ok(buffers_of(self.alloc, credential_use, auth_data)?)
    }

    fn initialize(&mut self, args: &InitializeSecurityContext<'_>) -> Answer {
        match self.client_step(args.credentials_handle, args.input) {
            Ok(step) => Answer::Done(step),
            Err(refusal) => Answer::Refused(refusal.into()),
        }
    }

    fn resume(&mut self, _reply: &Reply) -> Answer {
        Answer::Refused(Refusal::out_of_sequence().into())
    }

    fn accept(&mut self, args: &AcceptSecurityContext<'_>) -> Result<Step, Error> {
        Ok(self.server_step(args.input)?)
    }

    fn waiting(&self) -> bool {
        false
    }

    fn requests_left(&self) -> u32 {
        0
    }

    fn complete(&mut self) -> Result<SecurityStatus, Error> {
        self.protection.key()?;
        Ok(SecurityStatus::Ok)
    }

    fn names(&self) -> Result<Username, Error> {
        match &self.stage {
            Stage::AuthenticateSent(name) => Ok(name.clone(self.alloc)?),
            Stage::Claimed(claim) => Ok(claim.name.clone(self.alloc)?),
            Stage::Unused | Stage::NegotiateSent | Stage::ChallengeSent => Err(
                Refusal::out_of_sequence().into(),
            ),
        }
    }

    fn set_identities(&mut self, identities: &[Credentials]) -> Result<(), Error> {
        let key = self.stage.key(&self.challenge, identities)?;
        self.protection.set_key(key);
        Ok(())
    }

    fn seal(&mut self, text: &[u8]) -> Result<Vec<u8>, Error> {
        let direction = self.stage.own_direction();
        Ok(self.protection.seal(self.alloc, direction, text)?)
    }

    fn unseal(&mut self, blob: &[u8]) -> Result<Vec<u8>, Error> {
        let direction = self.stage.peer_direction();
        Ok(self.protection.unseal(self.alloc, direction, blob)?)
    }

    fn sign(&mut self, text: &[u8]) -> Result<Vec<u8>, Error> {
        let direction = self.stage.own_direction();
        Ok(self.protection.sign(self.alloc, direction, text)?)
    }

    fn verify(&mut self, mic: &[u8], text: &[u8]) -> Result<(), Error> {
        let direction = self.stage.peer_direction();
        Ok(self.protection.verify(direction, mic, text)?)
    }

    fn user_to_user(&self) -> bool {
        false
    }

    fn package_info(&self) -> Result<PackageInfo, Error> {
        query_security_package_info(self.alloc, &SecurityPackageType::Ntlm)
    }

    fn sizes(&self) -> ContextSizes {
        ContextSizes {
            max_token: 2010,
            max_signature: 16,
            block: 0,
            security_trailer: 16,
        }
    }

    fn session_key(&self) -> Result<SessionKeys, Error> {
        let key = self.protection.key()?;
        let session_key = Bytes::from_slice(self.alloc, key.as_slice())?;
        Ok(SessionKeys {
            session_key: session_key.into(),
        })
    }
}
