//! The selected mechanism: its calls, and how one replaces another.

ghost use Rattle.std.specs.Prelude.{◌≡◌, ◌≢◌, ◌<◌, [], ◌∷◌, true, false, IsTrue, IsErr, IfOk};
ghost use Rattle.std.specs.Prelude.{IfErr};
ghost use Rattle.std.specs.Prelude.{OnOk, OnErr, Some, None, option_copied};
ghost use Rattle.sspi_types.specs.Errors.{memory_error};
ghost use Rattle.sspi_mech.specs.Answers.{IfRefused};
ghost use Rattle.sspi_mech.specs.Calls.{step_args, accept_args, no_counts, one_sealing};
ghost use Rattle.sspi_mech.specs.Calls.{one_unsealing, one_signing, one_verification};
ghost use Rattle.sspi_mech.specs.Calls.{ToAcquire, ToName, ToIdentify, ToComplete, ToSeal};
ghost use Rattle.sspi_mech.specs.Calls.{ToUnseal, ToSign, ToVerify};
ghost use Rattle.sspi_mech.specs.Refusals.{refusal_of};
ghost use Rattle.sspi_mech.specs.Answered.{IsRefusedAs, answered};
ghost use Rattle.sspi_negotiate.specs.declared.protocol.Protocol.TheVariants as protocols;
ghost use Rattle.sspi_negotiate.specs.Hand.{InPlaceOfNtlm, in_place_of_kerberos, hand, hand_of};
ghost use Rattle.sspi_negotiate.specs.Hand.{asks_left};
ghost use Rattle.sspi_negotiate.specs.Identity.{is_refused_identity};

use crate::protocol::NegotiatedProtocol;
use sspi_mech::{
    AcceptSecurityContext, Answer, InitializeSecurityContext, KerberosConfig, MechConfig,
    Mechanism, NtlmConfig, Refusal, Reply, Step, first_of, with_passwords,
};
use sspi_names::{Credentials, CredentialsBuffers, KdcTable, Username};
use sspi_types::{CredentialUse, Error, ErrorKind, Reason, SecurityStatus, Text};
use std::alloc::{AllocError, Global};
use std::slice::from_ref;

fn kerberos_config(
    alloc: Global,
    kdc_url: Option<&str>,
    kdcs: &KdcTable,
    client_computer_name: &Text,
) -> Result<KerberosConfig, AllocError>
    ensures { IfOk result (λ config. config ≡ record {
      kdc_url = option_copied kdc_url.entry;
      kdcs = kdcs.now;
      client_computer_name = client_computer_name.now;
    }) }
{
    let kdc_url = match kdc_url {
        None => None,
        Some(url) => Some(Text::from_text(alloc, url)?),
    };
    Ok(KerberosConfig {
        kdc_url,
        kdcs: kdcs.clone(alloc)?,
        client_computer_name: client_computer_name.clone(alloc)?,
    })
}

impl<N: Mechanism, K: Mechanism> NegotiatedProtocol<N, K> {
    /// An NTLM that replaces Kerberos.
    pub(crate) fn new_ntlm(alloc: Global, client_computer_name: &Text) -> Result<Self, Refusal>
        ensures made { IfOk result (λ it. (hand N.meaning K.meaning).made
            (in_place_of_kerberos client_computer_name.now) it) }
        ensures fresh { IfOk result (λ it. (hand N.meaning K.meaning).counts it ≡ no_counts) }
        ensures named { IfOk result (λ it. hand_of it ≡ protocols.Ntlm) }
        ensures err { IfErr result (λ error. error ≡ refusal_of memory_error) }
    {
        let config = NtlmConfig::new(client_computer_name.clone(alloc)?);
        let ntlm = N::make(alloc, &MechConfig::Ntlm(&config))?;
        Ok(NegotiatedProtocol::Ntlm(ntlm))
    }

    /// A Kerberos that replaces NTLM.
    pub(crate) fn new_kerberos(
        alloc: Global,
        kdc_url: Option<&str>,
        kdcs: &KdcTable,
        client_computer_name: &Text,
    ) -> Result<Self, Refusal>
        ensures made { IfOk result (λ it. (hand N.meaning K.meaning).made
            (InPlaceOfNtlm (option_copied kdc_url.entry) kdcs.now client_computer_name.now) it) }
        ensures fresh { IfOk result (λ it. (hand N.meaning K.meaning).counts it ≡ no_counts) }
        ensures named { IfOk result (λ it. hand_of it ≡ protocols.Kerberos) }
        ensures err { IfErr result (λ error. error ≡ refusal_of memory_error) }
    {
        let config = kerberos_config(alloc, kdc_url, kdcs, client_computer_name)?;
        let kerberos = K::make(alloc, &MechConfig::Kerberos(&config))?;
        Ok(NegotiatedProtocol::Kerberos(kerberos))
    }

    pub(crate) fn acquire(
        &mut self,
        credential_use: CredentialUse,
        auth_data: Option<&Credentials>,
    ) -> Result<Option<CredentialsBuffers>, Refusal>
        // What `Ok` holds.
        ensures acquired { IfOk result (λ buffers.
            (hand N.meaning K.meaning).acquires self.old credential_use
            (option_copied auth_data.entry) buffers self.new) }
        // What holds of every answer.
        ensures count { (hand N.meaning K.meaning).counts
            self.new ≡ (hand N.meaning K.meaning).counts self.old }
        ensures named { hand_of self.new ≡ hand_of self.old }
        // What a refusal says, and what it leaves.
        ensures err { OnErr result (self.new ≡ self.old) }
        ensures cause { IfErr result (λ error. error.error_type ≢ ErrorKind.InsufficientMemory →
            (hand N.meaning K.meaning).refuses self.old
            (ToAcquire credential_use (option_copied auth_data.entry)) error.error_type) }
    {
        match self {
            NegotiatedProtocol::Ntlm(mechanism) => Ok(mechanism.acquire(
                credential_use,
                auth_data,
            )?),
            NegotiatedProtocol::Kerberos(mechanism) => Ok(mechanism.acquire(
                credential_use,
                auth_data,
            )?),
        }
    }

    pub(crate) fn initialize(&mut self, args: &InitializeSecurityContext<'_>) -> Answer
        // The step.
        ensures step { (hand N.meaning K.meaning).steps self.old (step_args args.now) result
            self.new }
        // What every answer keeps, and that a refusal has no code.
        ensures named { hand_of self.new ≡ hand_of self.old }
        ensures codeless { IfRefused result (λ error. error.nstatus ≡ None) }
    {
        match self {
            NegotiatedProtocol::Ntlm(mechanism) => mechanism.initialize(args),
            NegotiatedProtocol::Kerberos(mechanism) => mechanism.initialize(args),
        }
    }

    pub(crate) fn resume(&mut self, reply: &Reply) -> Answer
        // The step.
        ensures step { (hand N.meaning K.meaning).resumes self.old reply.now result self.new }
        // What every answer keeps, and that a refusal has no code.
        ensures named { hand_of self.new ≡ hand_of self.old }
        ensures codeless { IfRefused result (λ error. error.nstatus ≡ None) }
    {
        match self {
            NegotiatedProtocol::Ntlm(mechanism) => mechanism.resume(reply),
            NegotiatedProtocol::Kerberos(mechanism) => mechanism.resume(reply),
        }
    }

    pub(crate) fn accept(&mut self, args: &AcceptSecurityContext<'_>) -> Result<Step, Refusal>
        // The step.
        ensures step { (hand N.meaning K.meaning).accepts self.old (accept_args args.now)
            (answered result) self.new }
        // What every answer keeps.
        ensures named { hand_of self.new ≡ hand_of self.old }
    {
        match self {
            NegotiatedProtocol::Ntlm(mechanism) => Ok(mechanism.accept(args)?),
            NegotiatedProtocol::Kerberos(mechanism) => Ok(mechanism.accept(args)?),
        }
    }

    pub(crate) fn requests_left(&self) -> u64
        ensures { result ≡ asks_left N.REQUESTS N.meaning K.meaning self.now }
    {
        match self {
            NegotiatedProtocol::Ntlm(mechanism) => u64::from(mechanism.requests_left()),
            NegotiatedProtocol::Kerberos(mechanism) => {
                u64::from(mechanism.requests_left()) + u64::from(N::REQUESTS)
            }
        }
    }

    pub(crate) fn complete(&mut self) -> Result<SecurityStatus, Refusal>
        // What stays, and what `Ok` holds.
        ensures same { self.new ≡ self.old }
        ensures keyed { IsTrue ((hand N.meaning K.meaning).keyed self.old) →
            result ≡ Ok SecurityStatus.Ok }
        ensures permitted { OnOk result ((hand N.meaning K.meaning).permits self.old ToComplete) }
        // What a refusal says.
        ensures cause { IfErr result (λ error. error.error_type ≢ ErrorKind.InsufficientMemory →
            (hand N.meaning K.meaning).refuses self.old ToComplete error.error_type) }
    {
        match self {
            NegotiatedProtocol::Ntlm(mechanism) => Ok(mechanism.complete()?),
            NegotiatedProtocol::Kerberos(mechanism) => Ok(mechanism.complete()?),
        }
    }

    pub(crate) fn names(&self) -> Result<Username, Refusal>
        ensures named { IfOk result (λ name. (hand N.meaning K.meaning).names self.now ≡ Some
            name) }
        ensures cause { IfErr result (λ error. error.error_type ≢ ErrorKind.InsufficientMemory →
            (hand N.meaning K.meaning).refuses self.now ToName error.error_type) }
    {
        match self {
            NegotiatedProtocol::Ntlm(mechanism) => Ok(mechanism.names()?),
            NegotiatedProtocol::Kerberos(mechanism) => Ok(mechanism.names()?),
        }
    }

    pub(crate) fn set_identities(&mut self, identities: Vec<Credentials>) -> Result<(), Refusal>
        // What `Ok` holds.
        ensures identified { OnOk result ((hand N.meaning K.meaning).identifies self.old
            identities.items self.new) }
        // What holds of every answer.
        ensures count { (hand N.meaning K.meaning).counts
            self.new ≡ (hand N.meaning K.meaning).counts self.old }
        ensures named { hand_of self.new ≡ hand_of self.old }
        // What a refusal says, and what it leaves.
        ensures err { OnErr result (self.new ≡ self.old) }
        ensures cause { let c = hand N.meaning K.meaning in IfErr result (λ error.
            IsRefusedAs (c.permits self.old (ToIdentify identities.items))
            (c.refuses self.old (ToIdentify identities.items))
            error.error_type) }
    {
        match self {
            NegotiatedProtocol::Ntlm(mechanism) => {
                Ok(mechanism.set_identities(&with_passwords(identities))?)
            }
            NegotiatedProtocol::Kerberos(mechanism) => {
                Ok(mechanism.set_identities(&first_of(identities))?)
            }
        }
    }

    /// The same for one identity. A keytab is refused while NTLM is selected.
    pub(crate) fn set_identity(&mut self, identity: &Credentials) -> Result<(), Refusal>
        // What `Ok` holds.
        ensures identified { OnOk result ((hand N.meaning K.meaning).identifies self.old
            (identity.now ∷ []) self.new) }
        // What holds of every answer.
        ensures count { (hand N.meaning K.meaning).counts
            self.new ≡ (hand N.meaning K.meaning).counts self.old }
        // What a refusal says, and what it leaves.
        ensures err { OnErr result (self.new ≡ self.old) }
        ensures keytab { is_refused_identity (hand_of self.old) identity.now ≡ true →
            IfErr result (λ error. error.error_type ≡ ErrorKind.IncompleteCredentials) ×
            IsErr result }
        ensures cause { let c = hand N.meaning K.meaning in is_refused_identity (hand_of self.old)
            identity.now ≡ false →
            IfErr result (λ error. IsRefusedAs (c.permits self.old (ToIdentify (identity.now ∷ [])))
            (c.refuses self.old (ToIdentify (identity.now ∷ []))) error.error_type) }
    {
        match self {
            NegotiatedProtocol::Ntlm(mechanism) => match identity {
                Credentials::AuthIdentity(_) => Ok(mechanism.set_identities(from_ref(identity))?),
                Credentials::Keytab(_) => Err(Refusal::new(
                    ErrorKind::IncompleteCredentials,
                    Reason::NotPassword,
                )),
            },
            NegotiatedProtocol::Kerberos(mechanism) => {
                Ok(mechanism.set_identities(from_ref(identity))?)
            }
        }
    }

    pub(crate) fn seal(&mut self, text: &[u8]) -> Result<Vec<u8>, Refusal>
        // What `Ok` holds.
        ensures blob { let c = hand N.meaning K.meaning in
            IfOk result (λ blob. c.seals self.new (c.counts self.old).sealings text.now
            blob.items) }
        ensures ok { let c = hand N.meaning K.meaning in OnOk result
            (self.new ≡ c.counted self.old (one_sealing (c.counts self.old))) }
        ensures count { let c = hand N.meaning K.meaning in OnOk result
            (c.counts self.new ≡ one_sealing (c.counts self.old)) }
        ensures permitted { OnOk result ((hand N.meaning K.meaning).permits self.old
            (ToSeal text.now)) }
        // What a refusal says, and what it leaves.
        ensures err { OnErr result (self.new ≡ self.old) }
        ensures cause { IfErr result (λ error. error.error_type ≢ ErrorKind.InsufficientMemory →
            (hand N.meaning K.meaning).refuses self.old (ToSeal text.now) error.error_type) }
    {
        match self {
            NegotiatedProtocol::Ntlm(mechanism) => Ok(mechanism.seal(text)?),
            NegotiatedProtocol::Kerberos(mechanism) => Ok(mechanism.seal(text)?),
        }
    }

    pub(crate) fn unseal(&mut self, blob: &[u8]) -> Result<Vec<u8>, Refusal>
        // What `Ok` holds.
        ensures text { let c = hand N.meaning K.meaning in
            IfOk result (λ text. c.opens self.new (c.counts self.old).unsealings blob.now
            text.items) }
        ensures ok { let c = hand N.meaning K.meaning in OnOk result
            (self.new ≡ c.counted self.old (one_unsealing (c.counts self.old))) }
        ensures count { let c = hand N.meaning K.meaning in OnOk result
            (c.counts self.new ≡ one_unsealing (c.counts self.old)) }
        ensures permitted { OnOk result ((hand N.meaning K.meaning).permits self.old
            (ToUnseal blob.now)) }
        // What a refusal says, and what it leaves.
        ensures err { OnErr result (self.new ≡ self.old) }
        ensures cause { let c = hand N.meaning K.meaning in IfErr result (λ error.
            IsRefusedAs (c.permits self.old (ToUnseal blob.now))
            (c.refuses self.old (ToUnseal blob.now)) error.error_type) }
    {
        match self {
            NegotiatedProtocol::Ntlm(mechanism) => Ok(mechanism.unseal(blob)?),
            NegotiatedProtocol::Kerberos(mechanism) => Ok(mechanism.unseal(blob)?),
        }
    }

    /// Makes the MIC of a text for the peer, this end's next MIC (MakeSignature). With the plain
    /// mechanisms, `OutOfSequence` before there is a key, and `ContextExpired` once all MIC numbers
    /// are used.
    pub fn generate_mic_token(&mut self, text: &[u8]) -> Result<Vec<u8>, Error>
        // What `Ok` holds, and that the mechanism is the same.
        ensures mic { let c = hand N.meaning K.meaning in
            IfOk result (λ mic. c.signs self.new (c.counts self.old).signings text.now mic.items) }
        ensures ok { let c = hand N.meaning K.meaning in OnOk result
            (self.new ≡ c.counted self.old (one_signing (c.counts self.old))) }
        ensures count { let c = hand N.meaning K.meaning in OnOk result
            (c.counts self.new ≡ one_signing (c.counts self.old)) }
        ensures named { hand_of self.new ≡ hand_of self.old }
        ensures permitted { OnOk result ((hand N.meaning K.meaning).permits self.old
            (ToSign text.now)) }
        // What a refusal says, and what it leaves.
        ensures err { OnErr result (self.new ≡ self.old) }
        ensures codeless { IfErr result (λ error. error.nstatus ≡ None) }
        ensures cause { IfErr result (λ error. error.error_type ≢ ErrorKind.InsufficientMemory →
            (hand N.meaning K.meaning).refuses self.old (ToSign text.now) error.error_type) }
    {
        match self {
            NegotiatedProtocol::Ntlm(mechanism) => mechanism.sign(text),
            NegotiatedProtocol::Kerberos(mechanism) => mechanism.sign(text),
        }
    }

    /// Verifies that `token` is the MIC that the peer made of `text` as its next MIC
    /// (VerifySignature). With the plain mechanisms, `MessageAltered` if it is not, even if only
    /// its length is wrong; `OutOfSequence` and `ContextExpired` as for `generate_mic_token`.
    pub fn verify_mic_token(&mut self, token: &[u8], text: &[u8]) -> Result<(), Error>
        // What `Ok` holds, and that the mechanism is the same.
        ensures mic { let c = hand N.meaning K.meaning in
            OnOk result (c.verifies self.new (c.counts self.old).verifications token.now text.now) }
        ensures ok { let c = hand N.meaning K.meaning in
            OnOk result (self.new ≡ c.counted self.old (one_verification (c.counts self.old))) }
        ensures count { let c = hand N.meaning K.meaning in OnOk result
            (c.counts self.new ≡ one_verification (c.counts self.old)) }
        ensures named { hand_of self.new ≡ hand_of self.old }
        ensures permitted { OnOk result ((hand N.meaning K.meaning).permits self.old
            (ToVerify token.now text.now)) }
        // What a refusal says, and what it leaves.
        ensures err { OnErr result (self.new ≡ self.old) }
        ensures codeless { IfErr result (λ error. error.nstatus ≡ None) }
        ensures cause { IfErr result (λ error.
            (hand N.meaning K.meaning).refuses self.old (ToVerify token.now text.now)
            error.error_type) }
    {
        match self {
            NegotiatedProtocol::Ntlm(mechanism) => mechanism.verify(token, text),
            NegotiatedProtocol::Kerberos(mechanism) => mechanism.verify(token, text),
        }
    }

    pub(crate) fn user_to_user(&self) -> bool
        ensures { result ≡ (hand N.meaning K.meaning).pairs self.now }
    {
        match self {
            NegotiatedProtocol::Ntlm(mechanism) => mechanism.user_to_user(),
            NegotiatedProtocol::Kerberos(mechanism) => mechanism.user_to_user(),
        }
    }
}
