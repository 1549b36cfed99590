//! The authentication's tokens, read from a request and copied for a reply.

ghost use Rattle.std.specs.Prelude.{◌≡◌, IfOk};
ghost use Rattle.sspi_credssp.specs.Requests.{token_of, unless_empty};

use sspi_types::Bytes;
use std::alloc::{AllocError, Global};

pub fn token_of(token: &Option<Bytes>) -> &[u8]
    ensures { result.now ≡ token_of token.now }
{
    match token {
        Some(token) => token.as_slice(),
        None => &[],
    }
}

// An empty token is left out of the reply.
pub fn copy_token(alloc: Global, token: &Bytes) -> Result<Option<Bytes>, AllocError>
    ensures { IfOk result (λ copy. copy ≡ unless_empty token.now) }
{
    if token.is_empty() {
        return Ok(None);
    }
    Ok(Some(token.clone(alloc)?))
}
