//! The trait `Mechanism`, with its laws.

ghost use Rattle.std.specs.Prelude.{◌≡◌, ◌≢◌, ◌<◌, Some, IsTrue, IfOk, IfErr, OnOk, OnErr};
ghost use Rattle.std.specs.Prelude.{option_copied};
ghost use Rattle.sspi_types.specs.Errors.{memory_error};
ghost use Rattle.sspi_mech.specs.Calls.{step_args, accept_args, no_counts, one_sealing};
ghost use Rattle.sspi_mech.specs.Calls.{one_unsealing, one_signing, one_verification};
ghost use Rattle.sspi_mech.specs.Calls.{ToAcquire, ToName, ToIdentify, ToComplete, ToSeal};
ghost use Rattle.sspi_mech.specs.Calls.{ToUnseal, ToSign, ToVerify, ToDescribe};
ghost use Rattle.sspi_mech.specs.Calls.{ToShowKey};
ghost use Rattle.sspi_mech.specs.Context.{IsContext};
ghost use Rattle.sspi_mech.specs.Laws.{IsMechanism};
ghost use Rattle.sspi_mech.specs.Meaning.{Meaning};
ghost use Rattle.sspi_mech.specs.Answered.{IsRefusedAs};
ghost use Rattle.sspi_mech.specs.Answers.{IfRefused, OnRefused, OnAsk};
ghost use Rattle.sspi_mech.specs.Settings.{Setting, setting_of};

use crate::args::{AcceptSecurityContext, InitializeSecurityContext};
use crate::config::MechConfig;
use crate::step::{Answer, Reply, Step};
use sspi_names::{Credentials, CredentialsBuffers, Username};
use sspi_types::{
    ContextSizes, CredentialUse, Error, ErrorKind, PackageInfo, SecurityStatus, SessionKeys,
};
use std::alloc::Global;

/// A security mechanism: one end of one authentication, and the protection of messages once it has
/// a key.
///
/// Every call that can refuse, except `verify`, may answer `InsufficientMemory`; `unseal` and
/// `set_identities` do so only if nothing else refuses them. A refused call leaves the object as it
/// was, and no refusal has an NTSTATUS code. `meaning` says what each call does, in the words of
/// `specs/Meaning.antt`; `specs/Laws.antt` has what holds for every mechanism.
pub trait Mechanism: Sized + Drop {
    /// The most requests that one object ever makes to a KDC (`laws::object_asks_at_most`).
    const REQUESTS: u32;

    ghost use Rattle.std.specs.Prelude.{ℕ};

    ghost REQUESTS: { ℕ };

    ghost meaning: { Meaning Setting Self };

    /// A mechanism that has made no step. Refused only when out of memory.
    fn make(alloc: Global, config: &MechConfig<'_>) -> Result<Self, Error>
        ensures made { IfOk result (λ it. meaning.made (setting_of config.now) it) }
        ensures fresh { IfOk result (λ it. meaning.counts it ≡ no_counts) }
        ensures err { IfErr result (λ error. error ≡ memory_error) };

    /// The buffers for the handle of these credentials (AcquireCredentialsHandle); none if none are
    /// given.
    fn acquire(
        &mut self,
        credential_use: CredentialUse,
        auth_data: Option<&Credentials>,
    ) -> Result<Option<CredentialsBuffers>, Error>
        // What `Ok` holds.
        ensures acquired { IfOk result (λ buffers. meaning.acquires self.old credential_use
            (option_copied auth_data.entry) buffers self.new) }
        // What holds of every answer.
        ensures count { meaning.counts self.new ≡ meaning.counts self.old }
        // What a refusal says, and what it leaves.
        ensures err { OnErr result (self.new ≡ self.old) }
        ensures codeless { IfErr result (λ error. error.nstatus ≡ None) }
        ensures cause { IfErr result (λ error. error.error_type ≢ ErrorKind.InsufficientMemory →
            meaning.refuses self.old (ToAcquire credential_use (option_copied auth_data.entry))
            error.error_type) };

    /// A client's step (InitializeSecurityContext).
    fn initialize(&mut self, args: &InitializeSecurityContext<'_>) -> Answer
        ensures step { meaning.steps self.old (step_args args.now) result self.new }
        ensures err { OnRefused result (self.new ≡ self.old) }
        ensures codeless { IfRefused result (λ error. error.nstatus ≡ None) };

    /// Continues the step that asked, once the outcome of its request is known. If refused, it
    /// still waits.
    fn resume(&mut self, reply: &Reply) -> Answer
        ensures step { meaning.resumes self.old reply.now result self.new }
        ensures falls { OnAsk result (meaning.left self.new < meaning.left self.old) }
        ensures err { OnRefused result (self.new ≡ self.old) }
        ensures codeless { IfRefused result (λ error. error.nstatus ≡ None) };

    /// A server's step (AcceptSecurityContext). It asks no KDC.
    fn accept(&mut self, args: &AcceptSecurityContext<'_>) -> Result<Step, Error>
        ensures step { meaning.accepts self.old (accept_args args.now) result self.new }
        ensures err { OnErr result (self.new ≡ self.old) }
        ensures codeless { IfErr result (λ error. error.nstatus ≡ None) };

    /// Whether a step waits for the outcome of a request.
    fn waiting(&self) -> bool
        ensures { result ≡ meaning.waits self.now };

    /// The most requests to a KDC that this object may still make.
    fn requests_left(&self) -> u32
        ensures { result ≡ meaning.left self.now };

    /// Completes the authentication (CompleteAuthToken). Once there is a key it answers `Ok`.
    fn complete(&mut self) -> Result<SecurityStatus, Error>
        // What stays, and what `Ok` holds.
        ensures same { self.new ≡ self.old }
        ensures keyed { IsTrue (meaning.keyed self.old) → result ≡ Ok SecurityStatus.Ok }
        ensures permitted { OnOk result (meaning.permits self.old ToComplete) }
        // What a refusal says.
        ensures codeless { IfErr result (λ error. error.nstatus ≡ None) }
        ensures cause { IfErr result (λ error. error.error_type ≢ ErrorKind.InsufficientMemory →
            meaning.refuses self.old ToComplete error.error_type) };

    /// The name that was authenticated: on a server the peer's, on a client its own.
    fn names(&self) -> Result<Username, Error>
        ensures named { IfOk result (λ name. meaning.names self.now ≡ Some name) }
        ensures codeless { IfErr result (λ error. error.nstatus ≡ None) }
        ensures cause { IfErr result (λ error. error.error_type ≢ ErrorKind.InsufficientMemory →
            meaning.refuses self.now ToName error.error_type) };

    /// Tells a server which identities its peer may have. Out of memory never takes the place of a
    /// refusal of them.
    fn set_identities(&mut self, identities: &[Credentials]) -> Result<(), Error>
        // What `Ok` holds.
        ensures identified { OnOk result (meaning.identifies self.old identities.now self.new) }
        // What holds of every answer.
        ensures count { meaning.counts self.new ≡ meaning.counts self.old }
        // What a refusal says, and what it leaves.
        ensures err { OnErr result (self.new ≡ self.old) }
        ensures codeless { IfErr result (λ error. error.nstatus ≡ None) }
        ensures cause { IfErr result (λ error. IsRefusedAs
            (meaning.permits self.old (ToIdentify identities.now))
            (meaning.refuses self.old (ToIdentify identities.now)) error.error_type) };

    /// Seals a text for the peer (EncryptMessage).
    fn seal(&mut self, text: &[u8]) -> Result<Vec<u8>, Error>
        // What `Ok` holds.
        ensures blob { IfOk result (λ blob. meaning.seals self.new
            (meaning.counts self.old).sealings text.now blob.items) }
        ensures ok { OnOk result (self.new ≡ meaning.counted self.old
            (one_sealing (meaning.counts self.old))) }
        ensures count { OnOk result (meaning.counts self.new ≡ one_sealing
            (meaning.counts self.old)) }
        ensures permitted { OnOk result (meaning.permits self.old (ToSeal text.now)) }
        // What a refusal says, and what it leaves.
        ensures err { OnErr result (self.new ≡ self.old) }
        ensures codeless { IfErr result (λ error. error.nstatus ≡ None) }
        ensures cause { IfErr result (λ error. error.error_type ≢ ErrorKind.InsufficientMemory →
            meaning.refuses self.old (ToSeal text.now) error.error_type) };

    /// Opens what the peer sealed (DecryptMessage). Out of memory never takes the place of the
    /// refusal of an altered blob.
    fn unseal(&mut self, blob: &[u8]) -> Result<Vec<u8>, Error>
        // What `Ok` holds.
        ensures text { IfOk result (λ text. meaning.opens self.new
            (meaning.counts self.old).unsealings blob.now text.items) }
        ensures ok { OnOk result (self.new ≡ meaning.counted self.old
            (one_unsealing (meaning.counts self.old))) }
        ensures count { OnOk result (meaning.counts self.new ≡ one_unsealing
            (meaning.counts self.old)) }
        ensures permitted { OnOk result (meaning.permits self.old (ToUnseal blob.now)) }
        // What a refusal says, and what it leaves.
        ensures err { OnErr result (self.new ≡ self.old) }
        ensures codeless { IfErr result (λ error. error.nstatus ≡ None) }
        ensures cause { IfErr result (λ error. IsRefusedAs
            (meaning.permits self.old (ToUnseal blob.now))
            (meaning.refuses self.old (ToUnseal blob.now)) error.error_type) };

    /// The MIC of a text for the peer (MakeSignature).
    fn sign(&mut self, text: &[u8]) -> Result<Vec<u8>, Error>
        // What `Ok` holds.
        ensures mic { IfOk result (λ mic. meaning.signs self.new (meaning.counts self.old).signings
            text.now mic.items) }
        ensures ok { OnOk result (self.new ≡ meaning.counted self.old
            (one_signing (meaning.counts self.old))) }
        ensures count { OnOk result (meaning.counts self.new ≡ one_signing
            (meaning.counts self.old)) }
        ensures permitted { OnOk result (meaning.permits self.old (ToSign text.now)) }
        // What a refusal says, and what it leaves.
        ensures err { OnErr result (self.new ≡ self.old) }
        ensures codeless { IfErr result (λ error. error.nstatus ≡ None) }
        ensures cause { IfErr result (λ error. error.error_type ≢ ErrorKind.InsufficientMemory →
            meaning.refuses self.old (ToSign text.now) error.error_type) };

    /// Checks the MIC that the peer made of a text (VerifySignature). It allocates nothing: each
    /// refusal is the mechanism's own.
    fn verify(&mut self, mic: &[u8], text: &[u8]) -> Result<(), Error>
        // What `Ok` holds.
        ensures mic { OnOk result (meaning.verifies self.new (meaning.counts self.old).verifications
            mic.now text.now) }
        ensures ok { OnOk result (self.new ≡ meaning.counted self.old
            (one_verification (meaning.counts self.old))) }
        ensures count { OnOk result (meaning.counts self.new ≡ one_verification
            (meaning.counts self.old)) }
        ensures permitted { OnOk result (meaning.permits self.old (ToVerify mic.now text.now)) }
        // What a refusal says, and what it leaves.
        ensures err { OnErr result (self.new ≡ self.old) }
        ensures codeless { IfErr result (λ error. error.nstatus ≡ None) }
        ensures cause { IfErr result (λ error. meaning.refuses self.old (ToVerify mic.now text.now)
            error.error_type) };

    /// Whether this is a server that authenticates user-to-user.
    fn user_to_user(&self) -> bool
        ensures { result ≡ meaning.pairs self.now };

    /// The entry of the mechanism's package.
    fn package_info(&self) -> Result<PackageInfo, Error>
        ensures entry { IfOk result (λ info. info ≡ meaning.entry self.now) }
        ensures codeless { IfErr result (λ error. error.nstatus ≡ None) }
        ensures cause { IfErr result (λ error. error.error_type ≢ ErrorKind.InsufficientMemory →
            meaning.refuses self.now ToDescribe error.error_type) };

    /// The sizes that users of the mechanism must know.
    fn sizes(&self) -> ContextSizes
        ensures { result ≡ meaning.sizes self.now };

    /// The session key.
    fn session_key(&self) -> Result<SessionKeys, Error>
        ensures key { IfOk result (λ keys. meaning.session_key self.now ≡ Some
            keys.session_key.value) }
        ensures codeless { IfErr result (λ error. error.nstatus ≡ None) }
        ensures cause { IfErr result (λ error. error.error_type ≢ ErrorKind.InsufficientMemory →
            meaning.refuses self.now ToShowKey error.error_type) };

    ghost laws: { IsMechanism REQUESTS meaning };
}

/// What holds for every context holds for a mechanism.
pub fn mechanism_is_context<M: Mechanism>()
    ensures { IsContext M.meaning }
{}
