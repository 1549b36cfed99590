//! The request that reports a server's refusal to its client.

ghost use Rattle.std.specs.Prelude.{◌≡◌, Some};
ghost use Rattle.sspi_mech.specs.Refusals.{error_of};
ghost use Rattle.sspi_credssp.specs.Requests.{error_request};

use crate::error_code::construct_error;
use crate::server_state::ServerError;
use crate::state::CredSspState;
use sspi_mech::Refusal;
use sspi_tsreq::TsRequest;
use sspi_types::Error;

// The request with the error code, without the fields that the state consumes.
pub fn refusal(state: CredSspState, request: TsRequest, refusal: Refusal) -> ServerError
    ensures { result ≡ record {
      ts_request = Some (error_request state request.version refusal.error_type request);
      error = error_of refusal;
    } }
{
    let mut request = request;
    match state {
        CredSspState::NegoToken => request.nego_tokens = None,
        CredSspState::PubKeyInfo => {
            request.nego_tokens = None;
            request.pub_key_auth = None;
        }
        CredSspState::AuthInfo => request.auth_info = None,
        CredSspState::Final => {}
    }
    let error = Error::from(refusal);
    request.error_code = Some(construct_error(&error));
    ServerError {
        ts_request: Some(request),
        error,
    }
}
