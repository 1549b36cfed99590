//! What a negotiation passes on to its selected mechanism: identities, names, completion.

ghost use Rattle.std.specs.Prelude.{◌≡◌, ◌≢◌, ◌-◌, [], ◌∷◌, None, true, false, IsTrue, IsErr, IfOk};
ghost use Rattle.std.specs.Prelude.{IfErr, OnOk, OnErr};
ghost use Rattle.sspi_mech.specs.Calls.{one_sealing, one_unsealing, ToName, ToIdentify, ToComplete};
ghost use Rattle.sspi_mech.specs.Calls.{ToSeal, ToUnseal};
ghost use Rattle.sspi_mech.specs.Answered.{IsRefusedAs};
ghost use Rattle.sspi_negotiate.specs.Hand.{hand_of};
ghost use Rattle.sspi_negotiate.specs.Identity.{is_refused_identity};
ghost use Rattle.sspi_negotiate.specs.Negotiate.{negotiate};

use crate::negotiate::Negotiate;
use sspi_mech::Mechanism;
use sspi_names::{ContextNames, Credentials};
use sspi_types::{Error, ErrorKind, SecurityStatus};

impl<N: Mechanism, K: Mechanism> Negotiate<N, K> {
    /// The name that was authenticated: on a server the peer's, on a client its own. With the plain
    /// mechanisms, `OutOfSequence` before it is known.
    pub fn query_context_names(&self) -> Result<ContextNames, Error>
        ensures named { IfOk result (λ names. (negotiate N.REQUESTS N.meaning K.meaning).names
            self.now ≡ Some names.username) }
        ensures codeless { IfErr result (λ error. error.nstatus ≡ None) }
        ensures cause { IfErr result (λ error. error.error_type ≢ ErrorKind.InsufficientMemory →
            (negotiate N.REQUESTS N.meaning K.meaning).refuses self.now ToName error.error_type) }
    {
        let username = self.protocol.names()?;
        Ok(ContextNames { username })
    }

    /// Tells a server which identity its peer may have. `IncompleteCredentials` exactly for a
    /// keytab with NTLM selected; else as `custom_set_auth_identities`. The kept credentials stay.
    pub fn custom_set_auth_identity(&mut self, identity: Credentials) -> Result<(), Error>
        // What `Ok` holds, and that the counts stay.
        ensures identified { OnOk result ((negotiate N.REQUESTS N.meaning K.meaning).identifies
            self.old (identity ∷ []) self.new) }
        ensures count { let c = negotiate N.REQUESTS N.meaning K.meaning in c.counts
            self.new ≡ c.counts self.old }
        // What a refusal says, and what it leaves.
        ensures err { OnErr result (self.new ≡ self.old) }
        ensures codeless { IfErr result (λ error. error.nstatus ≡ None) }
        ensures keytab { is_refused_identity (hand_of self.old.mech) identity ≡ true →
            IfErr result (λ error. error.error_type ≡ ErrorKind.IncompleteCredentials) ×
            IsErr result }
        ensures cause { let c = negotiate N.REQUESTS N.meaning K.meaning in
            is_refused_identity (hand_of self.old.mech) identity ≡ false →
            IfErr result (λ error. IsRefusedAs (c.permits self.old (ToIdentify (identity ∷ [])))
            (c.refuses self.old (ToIdentify (identity ∷ []))) error.error_type) }
    {
        Ok(self.protocol.set_identity(&identity)?)
    }

    /// Tells a server which identities its peer may have. NTLM takes those with a password,
    /// Kerberos the first one. The kept credentials stay.
    pub fn custom_set_auth_identities(&mut self, identities: Vec<Credentials>) -> Result<(), Error>
        // What `Ok` holds.
        ensures identified { OnOk result ((negotiate N.REQUESTS N.meaning K.meaning).identifies
            self.old identities.items self.new) }
        // What holds of every answer.
        ensures count { let c = negotiate N.REQUESTS N.meaning K.meaning in c.counts
            self.new ≡ c.counts self.old }
        // What a refusal says, and what it leaves.
        ensures err { OnErr result (self.new ≡ self.old) }
        ensures codeless { IfErr result (λ error. error.nstatus ≡ None) }
        ensures cause { let c = negotiate N.REQUESTS N.meaning K.meaning in IfErr result (λ error.
            IsRefusedAs (c.permits self.old (ToIdentify identities.items))
            (c.refuses self.old (ToIdentify identities.items))
            error.error_type) }
    {
        Ok(self.protocol.set_identities(identities)?)
    }

    /// Completes the authentication (CompleteAuthToken). With the plain mechanisms, `OutOfSequence`
    /// before there is a key.
    pub fn complete_auth_token(&mut self) -> Result<SecurityStatus, Error>
        // What stays, and what `Ok` holds.
        ensures same { self.new ≡ self.old }
        ensures keyed { IsTrue ((negotiate N.REQUESTS N.meaning K.meaning).keyed self.old) →
            result ≡ Ok SecurityStatus.Ok }
        ensures permitted { OnOk result ((negotiate N.REQUESTS N.meaning K.meaning).permits self.old
            ToComplete) }
        // What a refusal says.
        ensures codeless { IfErr result (λ error. error.nstatus ≡ None) }
        ensures cause { IfErr result (λ error. error.error_type ≢ ErrorKind.InsufficientMemory →
            (negotiate N.REQUESTS N.meaning K.meaning).refuses self.old ToComplete
            error.error_type) }
    {
        Ok(self.protocol.complete()?)
    }

    /// Seals a text for the peer as this end's next message: a blob of at least 16 bytes.
    ///
    /// With the plain mechanisms, `OutOfSequence` before there is a key, and `ContextExpired` once
    /// all message numbers are used.
    pub fn seal(&mut self, text: &[u8]) -> Result<Vec<u8>, Error>
        // What `Ok` holds.
        ensures blob { let c = negotiate N.REQUESTS N.meaning K.meaning in
            IfOk result (λ blob. c.seals self.new (c.counts self.old).sealings text.now
            blob.items) }
        ensures last { let c = negotiate N.REQUESTS N.meaning K.meaning in
            IfOk result (λ blob. c.seals self.new ((c.counts self.new).sealings - 1) text.now
            blob.items) }
        ensures ok { let c = negotiate N.REQUESTS N.meaning K.meaning in
            OnOk result (self.new ≡ c.counted self.old (one_sealing (c.counts self.old))) }
        ensures count { let c = negotiate N.REQUESTS N.meaning K.meaning in
            OnOk result (c.counts self.new ≡ one_sealing (c.counts self.old)) }
        ensures permitted { OnOk result ((negotiate N.REQUESTS N.meaning K.meaning).permits self.old
            (ToSeal text.now)) }
        // What a refusal says, and what it leaves.
        ensures err { OnErr result (self.new ≡ self.old) }
        ensures codeless { IfErr result (λ error. error.nstatus ≡ None) }
        ensures cause { IfErr result (λ error. error.error_type ≢ ErrorKind.InsufficientMemory →
            (negotiate N.REQUESTS N.meaning K.meaning).refuses self.new (ToSeal text.now)
            error.error_type) }
    {
        Ok(self.protocol.seal(text)?)
    }

    /// Opens what the peer sealed as its next message.
    ///
    /// With the plain mechanisms, `OutOfSequence` before there is a key, and `ContextExpired` once
    /// all message numbers are used. `InvalidToken` for a blob of under 16 bytes, and
    /// `MessageAltered` for one that the peer did not seal as this message.
    pub fn unseal(&mut self, blob: &[u8]) -> Result<Vec<u8>, Error>
        // What `Ok` holds.
        ensures text { let c = negotiate N.REQUESTS N.meaning K.meaning in
            IfOk result (λ text. c.opens self.new (c.counts self.old).unsealings blob.now
            text.items) }
        ensures last { let c = negotiate N.REQUESTS N.meaning K.meaning in
            IfOk result (λ text. c.opens self.new ((c.counts self.new).unsealings - 1) blob.now
            text.items) }
        ensures ok { let c = negotiate N.REQUESTS N.meaning K.meaning in
            OnOk result (self.new ≡ c.counted self.old (one_unsealing (c.counts self.old))) }
        ensures count { let c = negotiate N.REQUESTS N.meaning K.meaning in
            OnOk result (c.counts self.new ≡ one_unsealing (c.counts self.old)) }
        ensures permitted { OnOk result ((negotiate N.REQUESTS N.meaning K.meaning).permits self.old
            (ToUnseal blob.now)) }
        // What a refusal says, and what it leaves.
        ensures err { OnErr result (self.new ≡ self.old) }
        ensures codeless { IfErr result (λ error. error.nstatus ≡ None) }
        ensures cause { let c = negotiate N.REQUESTS N.meaning K.meaning in IfErr result (λ error.
            IsRefusedAs (c.permits self.new (ToUnseal blob.now))
            (c.refuses self.new (ToUnseal blob.now)) error.error_type) }
    {
        Ok(self.protocol.unseal(blob)?)
    }
}
