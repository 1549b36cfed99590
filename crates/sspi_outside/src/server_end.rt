//! A server that keeps the result of its last call.
ghost use Rattle.std.specs.Prelude.{◌≡◌};
ghost use Rattle.sspi_credssp.specs.Context.{either};
ghost use Rattle.sspi_outside.specs.declared.last.Last.TheVariants as lasts;

use crate::last::Last;
use sspi_credssp::{CredSspServer, CredentialsProxy};
use sspi_mech::Mechanism;
use sspi_tsreq::TsRequest;
use sspi_types::Error;

/// A server, and the result of its last call.
#[derive(Drop)]
pub struct ServerEnd<N, K, C> {
    /// The server.
    pub server: CredSspServer<N, K, C>,
    /// The result of its last call.
    pub last: Last,
}

impl<N, K, C> ServerEnd<N, K, C> {
    /// An end with a server that has made no call yet.
    pub fn new(server: CredSspServer<N, K, C>) -> ServerEnd<N, K, C>
        ensures { result ≡ record { server = server; last = lasts.Nothing } }
    {
        ServerEnd {
            server,
            last: Last::Nothing,
        }
    }
}

impl<N: Mechanism, K: Mechanism, C: CredentialsProxy> ServerEnd<N, K, C> {
    ghost use Rattle.sspi_outside.specs.Ends.{ServerCalled};

    /// One call of `CredSspServer::process`.
    pub fn process(&mut self, request: TsRequest) -> Result<(), Error>
        ensures { ServerCalled (either N.REQUESTS N.meaning K.meaning) C.meaning self.old.server
            request result self.new.server
            self.new.last }
    {
        match self.server.process(request) {
            Ok(state) => {
                self.last = Last::of_server(state);
                Ok(())
            }
            Err(refusal) => {
                let error = refusal.error;
                self.last = Last::Refused(error, refusal.ts_request);
                Err(error)
            }
        }
    }
}
