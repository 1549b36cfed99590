//! A security context: one of two mechanisms, or a SPNEGO negotiation of one.

ghost use Rattle.std.specs.Prelude.{List, [], ◌∷◌, Option, ◌≡◌, ◌≢◌, ◌-◌, true, false, IsTrue};
ghost use Rattle.std.specs.Prelude.{IsErr, IfOk, IfErr, OnOk, OnErr};
ghost use Rattle.std.specs.Prelude.{option_copied};
ghost use Rattle.sspi_mech.specs.Calls.{step_args, accept_args, no_counts, one_sealing};
ghost use Rattle.sspi_mech.specs.Calls.{one_unsealing};
ghost use Rattle.sspi_mech.specs.Calls.{ToAcquire, ToName, ToIdentify, ToComplete, ToSeal};
ghost use Rattle.sspi_mech.specs.Calls.{ToUnseal};
ghost use Rattle.sspi_mech.specs.Answered.{IsRefusedAs};
ghost use Rattle.sspi_mech.specs.Answers.{answer_of};
ghost use Rattle.sspi_names.specs.declared.identity.AuthIdentity.{AuthIdentity};
ghost use Rattle.sspi_credssp.specs.Refusal.{IsRefusedBy};
ghost use Rattle.sspi_credssp.specs.Context.{either, ForClient, ForServer};
ghost use Rattle.sspi_credssp.specs.ServerStage.{IsListed};
ghost use Rattle.sspi_mech.specs.Context.{IsContext, NeitherSealsNorOpens};
ghost use Rattle.sspi_negotiate.specs.Identity.{is_refused_identity};
ghost use Rattle.sspi_credssp.specs.PackageName.{package_name_of, protocol_of};

use crate::mode::{ClientMode, ServerMode};
use sspi_mech::{
    AcceptSecurityContext, InitializeSecurityContext, MechConfig, Mechanism, Progressing, Reply,
    Step, first_of, with_passwords,
};
use sspi_names::{AuthIdentity, ContextNames, Credentials, CredentialsBuffers};
use sspi_negotiate::Negotiate;
use sspi_types::{CredentialUse, Error, ErrorKind, Reason, SecurityStatus};
use std::alloc::Global;
use std::slice::from_ref;

/// A security context of one of two mechanisms, or of a negotiation that agrees on one of them. The
/// mechanisms need not be those that the variants are named after.
///
/// Its calls answer what the selected mechanism answers. A refusal has no NTSTATUS code, and any
/// call that allocates may run out of memory. The relation of a step says what it refuses; any
/// other call whose text names no kind refuses as the mechanism's `refuses` says. The kinds given
/// for the plain mechanisms are theirs alone.
#[derive(Drop)]
pub enum SspiContext<N, K> {
    /// The negotiation of a mechanism (SPNEGO).
    Negotiate(Negotiate<N, K>),
    /// The mechanism of NTLM.
    Ntlm(N),
    /// The mechanism of Kerberos.
    Kerberos(K),
}

impl<N: Mechanism, K: Mechanism> SspiContext<N, K> {
    /// The context of a client in this mode.
    pub(crate) fn new_client(alloc: Global, mode: &ClientMode) -> Result<Self, Error>
        ensures made { IfOk result (λ context. (either N.REQUESTS N.meaning K.meaning).made
            (ForClient mode.now) context) }
        ensures fresh { IfOk result (λ context. (either N.REQUESTS N.meaning K.meaning).counts
            context ≡ no_counts) }
        ensures cause { IsRefusedBy result
            ((either N.REQUESTS N.meaning K.meaning).unmade (ForClient mode.now)) }
    {
        match mode {
            ClientMode::Negotiate(config) => {
                let negotiation = Negotiate::new_client(alloc, config)?;
                Ok(SspiContext::Negotiate(negotiation))
            }
            ClientMode::Ntlm(config) => {
                let mechanism = N::make(alloc, &MechConfig::Ntlm(config))?;
                Ok(SspiContext::Ntlm(mechanism))
            }
        }
    }

    /// The context of a server in this mode. A negotiation knows these identities of its peers.
    pub(crate) fn new_server(
        alloc: Global,
        mode: &ServerMode,
        known: Vec<AuthIdentity>,
    ) -> Result<Self, Error>
        ensures made { IfOk result (λ context. (told : Option (List AuthIdentity)) →
            IsListed mode.now told known.items →
            (either N.REQUESTS N.meaning K.meaning).made (ForServer mode.now told) context) }
        ensures fresh { IfOk result (λ context. (either N.REQUESTS N.meaning K.meaning).counts
            context ≡ no_counts) }
        ensures codeless { IfErr result (λ error. error.nstatus ≡ None) }
        ensures cause { IfErr result (λ error. error.error_type ≢ ErrorKind.InsufficientMemory →
            (told : Option (List AuthIdentity)) →
            (either N.REQUESTS N.meaning K.meaning).unmade (ForServer mode.now told)
            error.error_type) }
    {
        match mode {
            ServerMode::Negotiate(config) => {
                let negotiation = Negotiate::new_server(alloc, config, known)?;
                Ok(SspiContext::Negotiate(negotiation))
            }
            ServerMode::Ntlm(config) => {
                let mechanism = N::make(alloc, &MechConfig::Ntlm(config))?;
                Ok(SspiContext::Ntlm(mechanism))
            }
        }
    }

    /// The name of the context's package: `Negotiate` for a negotiation, whichever mechanism it has
    /// selected.
    pub fn package_name(&self) -> &'static str
        ensures { result.now ≡ package_name_of self.now }
    {
        match self {
            SspiContext::Negotiate(_) => "Negotiate",
            SspiContext::Ntlm(_) => "NTLM",
            SspiContext::Kerberos(_) => "Kerberos",
        }
    }

    /// The buffers for the handle of these credentials, or none without credentials
    /// (AcquireCredentialsHandle).
    ///
    /// With the plain mechanisms, negotiated or not, `NoCredentials` for an outbound use without
    /// credentials. NTLM refuses a keytab with `UnknownCredentials`, but with `NoCredentials` for
    /// an outbound use if it was negotiated. A refusal leaves the context unchanged.
    pub fn acquire_credentials_handle(
        &mut self,
        credential_use: CredentialUse,
        auth_data: Option<&Credentials>,
    ) -> Result<Option<CredentialsBuffers>, Error>
        ensures acquired { IfOk result (λ buffers.
            (either N.REQUESTS N.meaning K.meaning).acquires self.old credential_use
            (option_copied auth_data.entry) buffers self.new) }
        ensures silent { let c = either N.REQUESTS N.meaning K.meaning in NeitherSealsNorOpens
            (c.counts self.old) (c.counts self.new) }
        ensures err { OnErr result (self.new ≡ self.old) }
        ensures cause { IsRefusedBy result ((either N.REQUESTS N.meaning K.meaning).refuses self.old
            (ToAcquire credential_use (option_copied auth_data.entry))) }
    {
        match self {
            SspiContext::Negotiate(negotiation) => {
                negotiation.acquire_credentials_handle(credential_use, auth_data)
            }
            SspiContext::Ntlm(mechanism) => mechanism.acquire(credential_use, auth_data),
            SspiContext::Kerberos(mechanism) => mechanism.acquire(credential_use, auth_data),
        }
    }

    /// A client's step (InitializeSecurityContext). A suspended step continues with `resume`. It
    /// refuses as the mechanism or the negotiation does.
    pub fn initialize_security_context(
        &mut self,
        args: &InitializeSecurityContext<'_>,
    ) -> Result<Progressing, Error>
        ensures step { (either N.REQUESTS N.meaning K.meaning).steps self.old (step_args args.now)
            (answer_of result) self.new }
        ensures codeless { IfErr result (λ error. error.nstatus ≡ None) }
    {
        match self {
            SspiContext::Negotiate(negotiation) => negotiation.initialize_security_context(args),
            SspiContext::Ntlm(mechanism) => mechanism.initialize(args).into_result(),
            SspiContext::Kerberos(mechanism) => mechanism.initialize(args).into_result(),
        }
    }

    /// Continues the suspended step once the outcome of its request is known. It refuses as the
    /// mechanism or the negotiation does.
    pub fn resume(&mut self, reply: &Reply) -> Result<Progressing, Error>
        ensures step { (either N.REQUESTS N.meaning K.meaning).resumes self.old reply.now
            (answer_of result) self.new }
        ensures codeless { IfErr result (λ error. error.nstatus ≡ None) }
    {
        match self {
            SspiContext::Negotiate(negotiation) => negotiation.resume(reply),
            SspiContext::Ntlm(mechanism) => mechanism.resume(reply).into_result(),
            SspiContext::Kerberos(mechanism) => mechanism.resume(reply).into_result(),
        }
    }

    /// A server's step (AcceptSecurityContext). It refuses as the mechanism or the negotiation
    /// does.
    pub fn accept_security_context(
        &mut self,
        args: &AcceptSecurityContext<'_>,
    ) -> Result<Step, Error>
        ensures step { (either N.REQUESTS N.meaning K.meaning).accepts self.old
            (accept_args args.now) result self.new }
        ensures codeless { IfErr result (λ error. error.nstatus ≡ None) }
    {
        match self {
            SspiContext::Negotiate(negotiation) => negotiation.accept_security_context(args),
            SspiContext::Ntlm(mechanism) => mechanism.accept(args),
            SspiContext::Kerberos(mechanism) => mechanism.accept(args),
        }
    }

    /// Whether a step is suspended.
    pub fn waiting(&self) -> bool
        ensures { result ≡ (either N.REQUESTS N.meaning K.meaning).waits self.now }
    {
        match self {
            SspiContext::Negotiate(negotiation) => negotiation.waiting(),
            SspiContext::Ntlm(mechanism) => mechanism.waiting(),
            SspiContext::Kerberos(mechanism) => mechanism.waiting(),
        }
    }

    /// How often this context may still ask a KDC, at most.
    pub fn requests_left(&self) -> u64
        ensures { result ≡ (either N.REQUESTS N.meaning K.meaning).left self.now }
    {
        match self {
            SspiContext::Negotiate(negotiation) => negotiation.requests_left(),
            SspiContext::Ntlm(mechanism) => u64::from(mechanism.requests_left()),
            SspiContext::Kerberos(mechanism) => u64::from(mechanism.requests_left()),
        }
    }

    /// The authenticated name: the peer's on a server, its own on a client. With the plain
    /// mechanisms `OutOfSequence` before it is known.
    pub fn query_context_names(&self) -> Result<ContextNames, Error>
        ensures named { IfOk result (λ names. (either N.REQUESTS N.meaning K.meaning).names
            self.now ≡ Some names.username) }
        ensures cause { IsRefusedBy result ((either N.REQUESTS N.meaning K.meaning).refuses self.now
            ToName) }
    {
        let username = match self {
            SspiContext::Negotiate(negotiation) => return negotiation.query_context_names(),
            SspiContext::Ntlm(mechanism) => mechanism.names(),
            SspiContext::Kerberos(mechanism) => mechanism.names(),
        };
        Ok(ContextNames {
            username: username?,
        })
    }

    /// Gives a server the identity that its peer may have. `IncompleteCredentials` for a keytab if
    /// NTLM is selected, negotiated or not; otherwise like `custom_set_auth_identities` with this
    /// one alone. A refusal leaves the context unchanged.
    pub fn custom_set_auth_identity(&mut self, identity: Credentials) -> Result<(), Error>
        // What `Ok` holds, and that the counts stay.
        ensures identified { OnOk result ((either N.REQUESTS N.meaning K.meaning).identifies
            self.old (identity ∷ []) self.new) }
        ensures count { (either N.REQUESTS N.meaning K.meaning).counts
            self.new ≡ (either N.REQUESTS N.meaning K.meaning).counts self.old }
        // What a refusal says, and what it leaves.
        ensures err { OnErr result (self.new ≡ self.old) }
        ensures codeless { IfErr result (λ error. error.nstatus ≡ None) }
        ensures keytab { is_refused_identity (protocol_of self.old) identity ≡ true →
            IfErr result (λ error. error.error_type ≡ ErrorKind.IncompleteCredentials) ×
            IsErr result }
        ensures cause { let c = either N.REQUESTS N.meaning K.meaning in is_refused_identity
            (protocol_of self.old) identity ≡ false →
            IfErr result (λ error. IsRefusedAs (c.permits self.old (ToIdentify (identity ∷ [])))
            (c.refuses self.old (ToIdentify (identity ∷ []))) error.error_type) }
    {
        match self {
            SspiContext::Negotiate(negotiation) => negotiation.custom_set_auth_identity(identity),
            SspiContext::Ntlm(mechanism) => match identity {
                Credentials::AuthIdentity(_) => mechanism.set_identities(from_ref(&identity)),
                Credentials::Keytab(_) => Err(Error::new(
                    ErrorKind::IncompleteCredentials,
                    Reason::NotPassword,
                )),
            },
            SspiContext::Kerberos(mechanism) => mechanism.set_identities(from_ref(&identity)),
        }
    }

    /// Gives a server the identities that its peer may have. NTLM takes those with a password,
    /// Kerberos the first, negotiated or not.
    ///
    /// Plain NTLM answers `OutOfSequence` on a client and before its peer has proved a password;
    /// `NoCredentials` if no identity has a password; and `LogonDenied` if none has the one that
    /// was proved. Plain Kerberos answers `OutOfSequence` except on a server that has its session
    /// key, and `NoCredentials` for an empty list. Out of memory never replaces any of these. A
    /// refusal leaves the context unchanged.
    pub fn custom_set_auth_identities(&mut self, identities: Vec<Credentials>) -> Result<(), Error>
        ensures identified { OnOk result ((either N.REQUESTS N.meaning K.meaning).identifies
            self.old identities.items self.new) }
        ensures count { (either N.REQUESTS N.meaning K.meaning).counts
            self.new ≡ (either N.REQUESTS N.meaning K.meaning).counts self.old }
        ensures err { OnErr result (self.new ≡ self.old) }
        ensures cause { IsRefusedBy result ((either N.REQUESTS N.meaning K.meaning).refuses self.old
            (ToIdentify identities.items)) }
        ensures memory { IfErr result (λ error. error.error_type ≡ ErrorKind.InsufficientMemory →
            (either N.REQUESTS N.meaning K.meaning).permits self.old
            (ToIdentify identities.items)) }
    {
        match self {
            SspiContext::Negotiate(negotiation) => negotiation.custom_set_auth_identities(
                identities,
            ),
            SspiContext::Ntlm(mechanism) => mechanism.set_identities(&with_passwords(identities)),
            SspiContext::Kerberos(mechanism) => mechanism.set_identities(&first_of(identities)),
        }
    }

    /// Completes the authentication (CompleteAuthToken). With the plain mechanisms `OutOfSequence`
    /// before there is a key.
    pub fn complete_auth_token(&mut self) -> Result<SecurityStatus, Error>
        ensures same { self.new ≡ self.old }
        ensures keyed { IsTrue ((either N.REQUESTS N.meaning K.meaning).keyed self.old) →
            result ≡ Ok SecurityStatus.Ok }
        ensures permitted { OnOk result ((either N.REQUESTS N.meaning K.meaning).permits self.old
            ToComplete) }
        ensures cause { IsRefusedBy result ((either N.REQUESTS N.meaning K.meaning).refuses self.old
            ToComplete) }
    {
        match self {
            SspiContext::Negotiate(negotiation) => negotiation.complete_auth_token(),
            SspiContext::Ntlm(mechanism) => mechanism.complete(),
            SspiContext::Kerberos(mechanism) => mechanism.complete(),
        }
    }

    /// Seals a text for the peer as the context's next message: a blob of at least 16 bytes.
    ///
    /// With the plain mechanisms `OutOfSequence` before there is a key, `ContextExpired` once all
    /// message numbers are used.
    pub fn seal(&mut self, text: &[u8]) -> Result<Vec<u8>, Error>
        // What `Ok` holds.
        ensures blob { let c = either N.REQUESTS N.meaning K.meaning in
            IfOk result (λ blob. c.seals self.new (c.counts self.old).sealings text.now
            blob.items) }
        ensures last { let c = either N.REQUESTS N.meaning K.meaning in
            IfOk result (λ blob. c.seals self.new ((c.counts self.new).sealings - 1) text.now
            blob.items) }
        ensures ok { let c = either N.REQUESTS N.meaning K.meaning in
            OnOk result (self.new ≡ c.counted self.old (one_sealing (c.counts self.old))) }
        ensures count { let c = either N.REQUESTS N.meaning K.meaning in OnOk result
            (c.counts self.new ≡ one_sealing (c.counts self.old)) }
        ensures permitted { OnOk result ((either N.REQUESTS N.meaning K.meaning).permits self.old
            (ToSeal text.now)) }
        // What a refusal says, and what it leaves.
        ensures err { OnErr result (self.new ≡ self.old) }
        ensures cause { IsRefusedBy result ((either N.REQUESTS N.meaning K.meaning).refuses self.new
            (ToSeal text.now)) }
    {
        match self {
            SspiContext::Negotiate(negotiation) => negotiation.seal(text),
            SspiContext::Ntlm(mechanism) => mechanism.seal(text),
            SspiContext::Kerberos(mechanism) => mechanism.seal(text),
        }
    }

    /// Opens what the peer sealed as its next message.
    ///
    /// With the plain mechanisms `OutOfSequence` before there is a key, `ContextExpired` once all
    /// message numbers are used; `InvalidToken` for a blob of under 16 bytes; and `MessageAltered`
    /// for one that the peer did not seal as this message. Out of memory never replaces any of
    /// these.
    pub fn unseal(&mut self, blob: &[u8]) -> Result<Vec<u8>, Error>
        // What `Ok` holds.
        ensures text { let c = either N.REQUESTS N.meaning K.meaning in
            IfOk result (λ text. c.opens self.new (c.counts self.old).unsealings blob.now
            text.items) }
        ensures last { let c = either N.REQUESTS N.meaning K.meaning in
            IfOk result (λ text. c.opens self.new ((c.counts self.new).unsealings - 1) blob.now
            text.items) }
        ensures ok { let c = either N.REQUESTS N.meaning K.meaning in
            OnOk result (self.new ≡ c.counted self.old (one_unsealing (c.counts self.old))) }
        ensures count { let c = either N.REQUESTS N.meaning K.meaning in
            OnOk result (c.counts self.new ≡ one_unsealing (c.counts self.old)) }
        ensures permitted { OnOk result ((either N.REQUESTS N.meaning K.meaning).permits self.old
            (ToUnseal blob.now)) }
        // What a refusal says, and what it leaves.
        ensures err { OnErr result (self.new ≡ self.old) }
        ensures cause { IsRefusedBy result ((either N.REQUESTS N.meaning K.meaning).refuses self.new
            (ToUnseal blob.now)) }
        ensures memory { IfErr result (λ error. error.error_type ≡ ErrorKind.InsufficientMemory →
            (either N.REQUESTS N.meaning K.meaning).permits self.new (ToUnseal blob.now)) }
    {
        match self {
            SspiContext::Negotiate(negotiation) => negotiation.unseal(blob),
            SspiContext::Ntlm(mechanism) => mechanism.unseal(blob),
            SspiContext::Kerberos(mechanism) => mechanism.unseal(blob),
        }
    }
}

/// A context over any two mechanisms keeps the laws of every context, and so does a negotiation.
pub fn context_keeps_laws<N: Mechanism, K: Mechanism>()
    ensures { IsContext (either N.REQUESTS N.meaning K.meaning) }
{}
