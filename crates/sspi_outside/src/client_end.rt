//! A client that keeps the result of its last call.
ghost use Rattle.std.specs.Prelude.{◌≡◌};
ghost use Rattle.sspi_credssp.specs.Context.{either};
ghost use Rattle.sspi_outside.specs.declared.last.Last.TheVariants as lasts;

use crate::last::Last;
use sspi_credssp::CredSspClient;
use sspi_mech::Mechanism;
use sspi_tsreq::TsRequest;
use sspi_types::Error;

/// A client, and the result of its last call.
#[derive(Drop)]
pub struct ClientEnd<N, K> {
    /// The client.
    pub client: CredSspClient<N, K>,
    /// The result of its last call.
    pub last: Last,
}

impl<N, K> ClientEnd<N, K> {
    /// An end with a client that has made no call yet.
    pub fn new(client: CredSspClient<N, K>) -> ClientEnd<N, K>
        ensures { result ≡ record { client = client; last = lasts.Nothing } }
    {
        ClientEnd {
            client,
            last: Last::Nothing,
        }
    }
}

impl<N: Mechanism, K: Mechanism> ClientEnd<N, K> {
    ghost use Rattle.sspi_outside.specs.Ends.{ClientCalled};

    /// One call of `CredSspClient::process`.
    pub fn process(&mut self, request: TsRequest) -> Result<(), Error>
        ensures { ClientCalled (either N.REQUESTS N.meaning K.meaning) self.old.client request
            result self.new.client self.new.last }
    {
        match self.client.process(request) {
            Ok(progress) => {
                self.last = Last::of_client(progress);
                Ok(())
            }
            Err(error) => {
                self.last = Last::Refused(error, None);
                Err(error)
            }
        }
    }
}
