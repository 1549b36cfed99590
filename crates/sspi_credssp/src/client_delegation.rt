//! The client's last turn: it checks the server's proof, and only then seals its credentials.

ghost use Rattle.std.specs.Prelude.{◌≡◌, ◌≢◌, [], false, None, IsSome, IfOk, IfErr, OnErr};
ghost use Rattle.sspi_credssp.specs.Acts.{no_acts};
ghost use Rattle.sspi_credssp.specs.ClientCause.{DeliverCause, DeliverExact};
ghost use Rattle.sspi_credssp.specs.Context.{either};
ghost use Rattle.sspi_credssp.specs.Exchange.{prescribed};
ghost use Rattle.sspi_mech.specs.Answered.{answered};

use crate::client::CredSspClient;
use crate::client_state::ClientState;
use crate::credentials::write_credentials;
use crate::proof::{altered, opens_to, seal_text, sealed_blob};
use crate::public_key::{EndpointType, prescribed_proof};
use crate::request::with_credentials;
use crate::state::CredSspState;
use sspi_mech::{Mechanism, Refusal};
use sspi_tsreq::TsRequest;
use sspi_types::{Bytes, ErrorKind, Reason};
use std::alloc::AllocError;

impl<N: Mechanism, K: Mechanism> CredSspClient<N, K> {
    ghost use Rattle.sspi_credssp.specs.declared.context.SspiContext.{SspiContext};
    ghost use Rattle.sspi_credssp.specs.Ends.{ClientView};
    ghost use Rattle.sspi_credssp.specs.ClientTurn.{IsReady};
    ghost use Rattle.sspi_credssp.specs.ClientStage.{ClientAnswers, ClientDelivers, HasDone};

    pub(crate) fn conclude(&mut self, request: TsRequest) -> Result<ClientState, Refusal>
        // What must hold before.
        requires done { HasDone no_acts self.old }
        requires noted { IsSome self.old.noted }
        // The turn.
        ensures turn { let c = either N.REQUESTS N.meaning K.meaning
            in (start : ClientView (SspiContext N K)) (d : TsRequest) →
            request ≡ record d { version = self.old.settings.version } →
            IsReady c start d self.old →
            self.old.state ≡ CredSspState.AuthInfo →
            self.old.output ≡ [] → ClientAnswers c start d (answered result) self.new }
        ensures begun { IsSome self.new.context }
        // What a refusal says.
        ensures cause { IfErr result (λ error. error.error_type ≢ ErrorKind.InsufficientMemory →
            DeliverCause (either N.REQUESTS N.meaning K.meaning) request.pub_key_auth self.new
            error.error_type) }
        ensures exact { IfErr result (λ error.
            DeliverExact (either N.REQUESTS N.meaning K.meaning) request.pub_key_auth self.new
            error.error_type) }
        // What holds afterwards.
        ensures acts { (self.new.acts.status ≡ None) × (self.new.acts.negotiated ≡ false) }
    {
        let credentials = self.exchange(&request.pub_key_auth)?;
        self.state = CredSspState::Final;
        Ok(ClientState::FinalMessage(with_credentials(request, credentials)))
    }

    // The client's own proof, made from the channel's key and its nonce.
    pub(crate) fn own_proof(&self, version: u32) -> Result<Bytes, AllocError>
        ensures { IfOk result (λ proof.
            proof ≡ prescribed EndpointType.Client version self.now.settings.nonce
            self.now.settings.public_key) }
    {
        prescribed_proof(
            self.alloc,
            EndpointType::Client,
            version,
            &self.client_nonce,
            self.public_key.as_slice(),
        )
    }

    // Opens the server's proof, and seals the credentials if it is the right one.
    fn exchange(&mut self, pub_key_auth: &Option<Bytes>) -> Result<Bytes, Refusal>
        // What must hold before.
        requires acts { self.old.acts ≡ no_acts }
        requires begun { IsSome self.old.context }
        requires noted { IsSome self.old.noted }
        // What holds of every answer.
        ensures delivers { ClientDelivers (either N.REQUESTS N.meaning K.meaning) self.old
            pub_key_auth.now (answered result) self.new }
        ensures begun { IsSome self.new.context }
        // What a refusal says.
        ensures cause { IfErr result (λ error. error.error_type ≢ ErrorKind.InsufficientMemory →
            DeliverCause (either N.REQUESTS N.meaning K.meaning) pub_key_auth.now self.new
            error.error_type) }
        ensures exact { IfErr result (λ error.
            DeliverExact (either N.REQUESTS N.meaning K.meaning) pub_key_auth.now self.new
            error.error_type) }
        ensures ended { OnErr result (self.new.acts.sealed ≡ false) }
    {
        let blob = sealed_blob(pub_key_auth, Reason::NoPubKey)?;
        let Some(version) = self.peer_version else {
            unreachable!()
        };
        let Some(context) = &mut self.context else {
            unreachable!()
        };
        let end = EndpointType::Server;
        let key = self.public_key.as_slice();
        if opens_to(
            context,
            &mut self.acts,
            blob,
            end,
            version,
            &self.client_nonce,
            key,
        )? {
            let text = write_credentials(self.alloc, &self.credentials, self.cred_ssp_mode)?;
            seal_text(context, &mut self.acts.sealed, &text)
        } else {
            Err(altered(version))
        }
    }
}
