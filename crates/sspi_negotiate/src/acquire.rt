//! AcquireCredentialsHandle of a negotiation.

ghost use Rattle.std.specs.Prelude.{◌≡◌, ◌≢◌, ◌&&◌, None, Some, true, false, IfOk, IfErr, IfSome};
ghost use Rattle.std.specs.Prelude.{OnOk, OnErr};
ghost use Rattle.std.specs.Prelude.{option_map, option_copied};
ghost use Rattle.sspi_names.specs.Identity.{credentials_buffers_of};
ghost use Rattle.std.specs.Option.{unwrap_or};
ghost use Rattle.sspi_mech.specs.Calls.{ToAcquire, no_counts};
ghost use Rattle.sspi_negotiate.specs.Acquire.{is_outbound, lacks, acquired_url, Acquires};
ghost use Rattle.sspi_negotiate.specs.Acquire.{RefusesToAcquire};
ghost use Rattle.sspi_negotiate.specs.Hand.{hand, hand_of};
ghost use Rattle.sspi_negotiate.specs.Rule.{TakenBy};
ghost use Rattle.sspi_negotiate.specs.Values.{values_of};

use crate::negotiate::Negotiate;
use crate::protocol::{NegotiatedProtocol, Protocol};
use crate::state::Role;
use sspi_mech::{Mechanism, Refusal};
use sspi_names::{Credentials, CredentialsBuffers};
use sspi_types::{CredentialUse, Error, ErrorKind, Reason};
use std::alloc::{AllocError, Global};

fn is_outbound(credential_use: CredentialUse) -> bool
    ensures { result ≡ is_outbound credential_use }
{
    matches!(credential_use, CredentialUse::Outbound)
}

fn lacks(protocol: Protocol, auth_data: Option<&Credentials>) -> bool
    ensures { result ≡ lacks protocol (option_copied auth_data.entry) }
{
    match auth_data {
        None => true,
        Some(Credentials::AuthIdentity(_)) => false,
        Some(Credentials::Keytab(_)) => match protocol {
            Protocol::Ntlm => true,
            Protocol::Kerberos => false,
        },
    }
}

fn buffers_of(
    alloc: Global,
    auth_data: Option<&Credentials>,
) -> Result<Option<CredentialsBuffers>, AllocError>
    ensures { IfOk result (λ kept. kept ≡ option_map credentials_buffers_of
        (option_copied auth_data.entry)) }
{
    match auth_data {
        None => Ok(None),
        Some(credentials) => Ok(Some(credentials.to_buffers(alloc)?)),
    }
}

impl<N, K> Negotiate<N, K> {
    fn lacks(&self, credential_use: CredentialUse, auth_data: Option<&Credentials>) -> bool
        ensures { result ≡ (is_outbound credential_use &&
            lacks (hand_of self.now.mech) (option_copied auth_data.entry)) }
    {
        is_outbound(credential_use) && lacks(self.protocol.protocol(), auth_data)
    }
}

impl<N: Mechanism, K: Mechanism> Negotiate<N, K> {
    /// The buffers for the handle of these credentials (AcquireCredentialsHandle), which are also
    /// kept; none without credentials.
    ///
    /// `NoCredentials` for an outbound use without credentials, or with a keytab while NTLM is
    /// selected. Else a client selects Kerberos, if that may be used and a KDC in its table serves
    /// the domain of the name. Then the selected mechanism answers. A refusal leaves everything as
    /// it was, including the selected mechanism.
    pub fn acquire_credentials_handle(
        &mut self,
        credential_use: CredentialUse,
        auth_data: Option<&Credentials>,
    ) -> Result<Option<CredentialsBuffers>, Error>
        // What was acquired, and what a refusal leaves.
        ensures acquired { IfOk result (λ buffers.
            Acquires N.meaning K.meaning self.old credential_use (option_copied auth_data.entry)
            buffers self.new) }
        ensures err { OnErr result (self.new ≡ self.old) }
        // What a refusal says.
        ensures codeless { IfErr result (λ error. error.nstatus ≡ None) }
        ensures lacking { is_outbound credential_use
            && lacks (hand_of self.old.mech) (option_copied auth_data.entry) ≡ true →
            IfErr result (λ error. error.error_type ≡ ErrorKind.NoCredentials) }
        ensures cause { IfErr result (λ error. error.error_type ≢ ErrorKind.InsufficientMemory →
            RefusesToAcquire N.meaning K.meaning self.old credential_use
            (option_copied auth_data.entry) error.error_type) }
    {
        if self.lacks(credential_use, auth_data) {
            return Err(Error::new(ErrorKind::NoCredentials, Reason::NoAuthData));
        }
        let kept = buffers_of(self.alloc, auth_data)?;
        match self.kerberos_for(auth_data)? {
            None => Ok(self.acquire_in_hand(credential_use, auth_data, kept)?),
            Some(kerberos) => Ok(self.acquire_in(kerberos, credential_use, auth_data, kept)?),
        }
    }

    /// A Kerberos to replace NTLM on a client, if a KDC serves the domain of a name with a
    /// password.
    fn kerberos_for(
        &self,
        auth_data: Option<&Credentials>,
    ) -> Result<Option<NegotiatedProtocol<N, K>>, Refusal>
        // What `Ok` holds.
        ensures taken { IfOk result (λ kerberos. TakenBy (hand N.meaning K.meaning)
            (acquired_url self.now.role (values_of self.now) (option_copied auth_data.entry))
            self.now.kdcs self.now.computer self.now.mech (unwrap_or kerberos self.now.mech)) }
        ensures fresh { IfOk result (λ kerberos. IfSome kerberos
            (λ it. (hand N.meaning K.meaning).counts it ≡ no_counts)) }
        // What a refusal says.
        ensures err { IfErr result (λ error. error.error_type ≡ ErrorKind.InsufficientMemory) }
    {
        match self.role {
            Role::Server => Ok(None),
            Role::Client => match auth_data {
                None => Ok(None),
                Some(Credentials::Keytab(_)) => Ok(None),
                Some(Credentials::AuthIdentity(identity)) => {
                    self.kerberos_by_rule(&identity.username)
                }
            },
        }
    }

    /// Acquires with this mechanism, which is then selected.
    fn acquire_in(
        &mut self,
        mechanism: NegotiatedProtocol<N, K>,
        credential_use: CredentialUse,
        auth_data: Option<&Credentials>,
        kept: Option<CredentialsBuffers>,
    ) -> Result<Option<CredentialsBuffers>, Refusal>
        // What was acquired, and what a refusal leaves.
        ensures acquired { IfOk result (λ buffers.
            (hand N.meaning K.meaning).acquires mechanism credential_use
            (option_copied auth_data.entry) buffers self.new.mech) }
        ensures kept { OnOk result (self.new ≡ record self.old {
          kept = kept;
          mech = self.new.mech;
        }) }
        ensures err { OnErr result (self.new ≡ self.old) }
        // What a refusal says.
        ensures cause { IfErr result (λ error. error.error_type ≢ ErrorKind.InsufficientMemory →
            (hand N.meaning K.meaning).refuses mechanism
            (ToAcquire credential_use (option_copied auth_data.entry)) error.error_type) }
    {
        let mut mechanism = mechanism;
        let buffers = mechanism.acquire(credential_use, auth_data)?;
        self.protocol = mechanism;
        self.auth_identity = kept;
        Ok(buffers)
    }

    fn acquire_in_hand(
        &mut self,
        credential_use: CredentialUse,
        auth_data: Option<&Credentials>,
        kept: Option<CredentialsBuffers>,
    ) -> Result<Option<CredentialsBuffers>, Refusal>
        // What was acquired, and what a refusal leaves.
        ensures acquired { IfOk result (λ buffers.
            (hand N.meaning K.meaning).acquires self.old.mech credential_use
            (option_copied auth_data.entry) buffers self.new.mech) }
        ensures kept { OnOk result (self.new ≡ record self.old {
          kept = kept;
          mech = self.new.mech;
        }) }
        ensures err { OnErr result (self.new ≡ self.old) }
        // What a refusal says.
        ensures cause { IfErr result (λ error. error.error_type ≢ ErrorKind.InsufficientMemory →
            (hand N.meaning K.meaning).refuses self.old.mech
            (ToAcquire credential_use (option_copied auth_data.entry)) error.error_type) }
    {
        let buffers = self.protocol.acquire(credential_use, auth_data)?;
        self.auth_identity = kept;
        Ok(buffers)
    }
}
