//! An end of a negotiation, for tests over any two mechanisms.

use sspi_mech::{
    AcceptSecurityContext, InitializeSecurityContext, Kerberos, Mechanism, Ntlm, Progressing,
    Reply, Step,
};
use sspi_names::{AuthIdentity, ContextNames, Credentials, CredentialsBuffers};
use sspi_negotiate::{Negotiate, NegotiateConfig};
use sspi_types::{CredentialUse, Error, SecurityStatus};
use std::alloc::Global;

/// An end of a negotiation. The tests are written over this trait, which promises nothing.
pub trait End: Sized + Drop {
    fn client(alloc: Global, config: &NegotiateConfig) -> Result<Self, Error>;

    fn server(
        alloc: Global,
        config: &NegotiateConfig,
        known: Vec<AuthIdentity>,
    ) -> Result<Self, Error>;

    fn initialize(&mut self, args: &InitializeSecurityContext<'_>) -> Result<Progressing, Error>;

    fn resumes(&mut self, reply: &Reply) -> Result<Progressing, Error>;

    fn accept(&mut self, args: &AcceptSecurityContext<'_>) -> Result<Step, Error>;

    fn acquire(
        &mut self,
        credential_use: CredentialUse,
        credentials: Option<&Credentials>,
    ) -> Result<Option<CredentialsBuffers>, Error>;

    /// The name of the selected mechanism.
    fn hand(&self) -> &'static str;

    fn needs_mic(&self) -> bool;

    fn waits(&self) -> bool;

    fn questions_left(&self) -> u64;

    fn names(&self) -> Result<ContextNames, Error>;

    fn set_identity(&mut self, identity: Credentials) -> Result<(), Error>;

    fn set_identities(&mut self, identities: Vec<Credentials>) -> Result<(), Error>;

    fn complete(&mut self) -> Result<SecurityStatus, Error>;

    fn seals(&mut self, text: &[u8]) -> Result<Vec<u8>, Error>;

    fn opens(&mut self, blob: &[u8]) -> Result<Vec<u8>, Error>;
}

impl<N: Mechanism, K: Mechanism> End for Negotiate<N, K> {
    fn client(alloc: Global, config: &NegotiateConfig) -> Result<Self, Error> {
        Negotiate::new_client(alloc, config)
    }

    fn server(
        alloc: Global,
        config: &NegotiateConfig,
        known: Vec<AuthIdentity>,
    ) -> Result<Self, Error> {
        Negotiate::new_server(alloc, config, known)
    }

    fn initialize(&mut self, args: &InitializeSecurityContext<'_>) -> Result<Progressing, Error> {
        self.initialize_security_context(args)
    }

    fn resumes(&mut self, reply: &Reply) -> Result<Progressing, Error> {
        self.resume(reply)
    }

    fn accept(&mut self, args: &AcceptSecurityContext<'_>) -> Result<Step, Error> {
        self.accept_security_context(args)
    }

    fn acquire(
        &mut self,
        credential_use: CredentialUse,
        credentials: Option<&Credentials>,
    ) -> Result<Option<CredentialsBuffers>, Error> {
        self.acquire_credentials_handle(credential_use, credentials)
    }

    fn hand(&self) -> &'static str {
        self.negotiated_protocol().protocol_name()
    }

    fn needs_mic(&self) -> bool {
        self.mic_needed()
    }

    fn waits(&self) -> bool {
        self.waiting()
    }

    fn questions_left(&self) -> u64 {
        self.requests_left()
    }

    fn names(&self) -> Result<ContextNames, Error> {
        self.query_context_names()
    }

    fn set_identity(&mut self, identity: Credentials) -> Result<(), Error> {
        self.custom_set_auth_identity(identity)
    }

    fn set_identities(&mut self, identities: Vec<Credentials>) -> Result<(), Error> {
        self.custom_set_auth_identities(identities)
    }

    fn complete(&mut self) -> Result<SecurityStatus, Error> {
        self.complete_auth_token()
    }

    fn seals(&mut self, text: &[u8]) -> Result<Vec<u8>, Error> {
        self.seal(text)
    }

    fn opens(&mut self, blob: &[u8]) -> Result<Vec<u8>, Error> {
        self.unseal(blob)
    }
}

/// An end over the two plain mechanisms.
pub type Plain = Negotiate<Ntlm, Kerberos>;
