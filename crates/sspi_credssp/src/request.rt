//! How a request becomes the reply to it: it is changed in place, and nothing is copied.

ghost use Rattle.std.specs.Prelude.{◌≡◌, Some, None};

use sspi_tsreq::TsRequest;
use sspi_types::Bytes;

pub fn at_version(request: TsRequest, version: u32) -> TsRequest
    ensures { result ≡ record request { version = version } }
{
    let mut request = request;
    request.version = version;
    request
}

pub fn with_tokens(request: TsRequest, tokens: Option<Bytes>) -> TsRequest
    ensures { result ≡ record request { nego_tokens = tokens } }
{
    let mut request = request;
    request.nego_tokens = tokens;
    request
}

pub fn with_proof(
    request: TsRequest,
    tokens: Option<Bytes>,
    nonce: [u8; 32],
    proof: Bytes,
) -> TsRequest
    ensures { result ≡ record request {
      nego_tokens = tokens;
      client_nonce = Some nonce;
      pub_key_auth = Some proof;
    } }
{
    let mut request = request;
    request.nego_tokens = tokens;
    request.client_nonce = Some(nonce);
    request.pub_key_auth = Some(proof);
    request
}

pub fn with_credentials(request: TsRequest, credentials: Bytes) -> TsRequest
    ensures { result ≡ record request {
      nego_tokens = None;
      pub_key_auth = None;
      auth_info = Some credentials;
    } }
{
    let mut request = request;
    request.nego_tokens = None;
    request.pub_key_auth = None;
    request.auth_info = Some(credentials);
    request
}

pub fn with_exchange(request: TsRequest, proof: Bytes) -> TsRequest
    ensures { result ≡ record request { nego_tokens = None; pub_key_auth = Some proof } }
{
    let mut request = request;
    request.nego_tokens = None;
    request.pub_key_auth = Some(proof);
    request
}
