//! Who an NTLM client says it is, and the password that proves it.

ghost use Rattle.std.specs.Prelude.{◌≡◌, find, option_copied, IfErr, IsOk};
ghost use Rattle.std.specs.List.{list_any};
ghost use Rattle.sspi_mech.specs.NtlmClaims.{claim_of};
ghost use Rattle.sspi_mech.specs.NtlmIdentities.{has_password, proves, claimed_key, key_at};
ghost use Rattle.sspi_mech.specs.Answered.{Gives, GivesExactly};

use crate::named::text_in;
use crate::ntlm::messages::{key_of, proof_of, read_authenticate};
use crate::ntlm::stage::{Claim, Stage};
use crate::refusal::Refusal;
use sspi_names::{Credentials, Username};
use sspi_types::{Bytes, ErrorKind, Reason};
use std::alloc::Global;

/// Who a client says it is in its last message. It allocates only for a name that a client may
/// have.
pub fn claim_of(alloc: Global, message: &[u8]) -> Result<Claim, Refusal>
    ensures answer { Gives result (claim_of message.now) }
    ensures memory { IfErr result (λ error. error.error_type ≡ ErrorKind.InsufficientMemory →
        IsOk (claim_of message.now)) }
{
    let Some((name, proof)) = read_authenticate(message) else {
        return Err(Refusal::malformed());
    };
    let Some(text) = text_in(name) else {
        return Err(Refusal::new(ErrorKind::InvalidToken, Reason::Utf));
    };
    let name = Username::parse(alloc, text)?;
    let text = Bytes::from_slice(alloc, text.as_bytes())?;
    Ok(Claim {
        name,
        text,
        proof: *proof,
    })
}

impl Stage {
    /// The key that the identities give; OutOfSequence except on a server that has a claim.
    pub fn key(&self, challenge: &[u8; 8], identities: &[Credentials]) -> Result<[u8; 32], Refusal>
        ensures { GivesExactly result (key_at self.now challenge.now identities.now) }
    {
        match self {
            Stage::Claimed(claim) => claim.key(challenge, identities),
            Stage::Unused
            | Stage::NegotiateSent
            | Stage::AuthenticateSent(_)
            | Stage::ChallengeSent => Err(Refusal::out_of_sequence()),
        }
    }
}

impl Claim {
    /// The key of the first identity whose password gives the proof.
    pub fn key(&self, challenge: &[u8; 8], identities: &[Credentials]) -> Result<[u8; 32], Refusal>
        ensures { GivesExactly result (claimed_key challenge.now self.now identities.now) }
    {
        if !have_password(identities) {
            return Err(Refusal::new(ErrorKind::NoCredentials, no_password(identities)));
        }
        match self.find_proof(challenge, identities) {
            Some(Credentials::AuthIdentity(identity)) => {
                let password = identity.password.value.as_str().as_bytes();
                Ok(key_of(challenge, self.text.as_slice(), password))
            }
            Some(Credentials::Keytab(_)) | None => Err(Refusal::new(
                ErrorKind::LogonDenied,
                Reason::Proof,
            )),
        }
    }

    /// The first identity whose password gives the proof.
    fn find_proof<'a>(
        &self,
        challenge: &[u8; 8],
        identities: &'a [Credentials],
    ) -> Option<&'a Credentials>
        ensures { option_copied result ≡ find (proves challenge.now self.now) identities.now }
    {
        identities
            .iter()
            .find(|credentials| self.is_proved_by(challenge, *credentials))
    }

    /// Whether the password of these credentials gives the proof.
    fn is_proved_by(&self, challenge: &[u8; 8], credentials: &Credentials) -> bool
        ensures { result ≡ proves challenge.now self.now credentials.now }
    {
        match credentials {
            Credentials::AuthIdentity(identity) => {
                let password = identity.password.value.as_str().as_bytes();
                proof_of(challenge, self.text.as_slice(), password).as_slice()
                    == self.proof.as_slice()
            }
            Credentials::Keytab(_) => false,
        }
    }
}

fn has_password(credentials: &Credentials) -> bool
    ensures { result ≡ has_password credentials.now }
{
    match credentials {
        Credentials::AuthIdentity(_) => true,
        Credentials::Keytab(_) => false,
    }
}

fn have_password(identities: &[Credentials]) -> bool
    ensures { result ≡ list_any has_password identities.now }
{
    identities.iter().any(has_password)
}

/// Why a list has no password: it is empty, or has only keytabs.
fn no_password(identities: &[Credentials]) -> Reason {
    if identities.is_empty() {
        Reason::NoCandidate
    } else {
        Reason::NotPassword
    }
}
