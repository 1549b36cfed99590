//! An object of any mechanism, for the tests.

use sspi_mech::{
    AcceptSecurityContext, InitializeSecurityContext, MechConfig, Mechanism, Progressing, Reply,
    Step,
};
use sspi_names::{Credentials, CredentialsBuffers, Username};
use sspi_types::{ContextSizes, CredentialUse, Error, PackageInfo, SecurityStatus, SessionKeys};
use std::alloc::Global;

/// The calls of a mechanism. The scripts are written over this trait, which promises nothing.
pub trait Object: Sized + Drop {
    fn made(alloc: Global, config: &MechConfig<'_>) -> Result<Self, Error>;

    fn acquires(
        &mut self,
        credential_use: CredentialUse,
        credentials: Option<&Credentials>,
    ) -> Result<Option<CredentialsBuffers>, Error>;

    fn initializes(&mut self, args: &InitializeSecurityContext<'_>) -> Result<Progressing, Error>;

    fn resumes(&mut self, reply: &Reply) -> Result<Progressing, Error>;

    fn accepts(&mut self, args: &AcceptSecurityContext<'_>) -> Result<Step, Error>;

    fn waits(&self) -> bool;

    fn questions_left(&self) -> u32;

    fn is_user_to_user(&self) -> bool;

    fn completes(&mut self) -> Result<SecurityStatus, Error>;

    fn name(&self) -> Result<Username, Error>;

    fn key(&self) -> Result<SessionKeys, Error>;

    fn takes(&mut self, identities: &[Credentials]) -> Result<(), Error>;

    fn seals(&mut self, text: &[u8]) -> Result<Vec<u8>, Error>;

    fn opens(&mut self, blob: &[u8]) -> Result<Vec<u8>, Error>;

    fn signs(&mut self, text: &[u8]) -> Result<Vec<u8>, Error>;

    fn verifies(&mut self, mic: &[u8], text: &[u8]) -> Result<(), Error>;

    fn package(&self) -> Result<PackageInfo, Error>;

    fn context_sizes(&self) -> ContextSizes;
}

impl<M: Mechanism> Object for M {
    fn made(alloc: Global, config: &MechConfig<'_>) -> Result<Self, Error> {
        M::make(alloc, config)
    }

    fn acquires(
        &mut self,
        credential_use: CredentialUse,
        credentials: Option<&Credentials>,
    ) -> Result<Option<CredentialsBuffers>, Error> {
        self.acquire(credential_use, credentials)
    }

    fn initializes(&mut self, args: &InitializeSecurityContext<'_>) -> Result<Progressing, Error> {
        self.initialize(args).into_result()
    }

    fn resumes(&mut self, reply: &Reply) -> Result<Progressing, Error> {
        self.resume(reply).into_result()
    }

    fn accepts(&mut self, args: &AcceptSecurityContext<'_>) -> Result<Step, Error> {
        self.accept(args)
    }

    fn waits(&self) -> bool {
        self.waiting()
    }

    fn questions_left(&self) -> u32 {
        self.requests_left()
    }

    fn is_user_to_user(&self) -> bool {
        self.user_to_user()
    }

    fn completes(&mut self) -> Result<SecurityStatus, Error> {
        self.complete()
    }

    fn name(&self) -> Result<Username, Error> {
        self.names()
    }

    fn key(&self) -> Result<SessionKeys, Error> {
        self.session_key()
    }

    fn takes(&mut self, identities: &[Credentials]) -> Result<(), Error> {
        self.set_identities(identities)
    }

    fn seals(&mut self, text: &[u8]) -> Result<Vec<u8>, Error> {
        self.seal(text)
    }

    fn opens(&mut self, blob: &[u8]) -> Result<Vec<u8>, Error> {
        self.unseal(blob)
    }

    fn signs(&mut self, text: &[u8]) -> Result<Vec<u8>, Error> {
        self.sign(text)
    }

    fn verifies(&mut self, mic: &[u8], text: &[u8]) -> Result<(), Error> {
        self.verify(mic, text)
    }

    fn package(&self) -> Result<PackageInfo, Error> {
        self.package_info()
    }

    fn context_sizes(&self) -> ContextSizes {
        self.sizes()
    }
}
