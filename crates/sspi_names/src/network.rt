//! What a mechanism asks of a KDC: transport, URL and bytes.

ghost use Rattle.std.specs.Prelude.{◌≡◌, IfOk};

use sspi_types::{Bytes, Text};
use std::alloc::{AllocError, Global};

/// The transport by which a KDC is reached.
#[derive(Clone, Copy, Debug, PartialEq, Eq)]
pub enum NetworkProtocol {
    /// A TCP connection.
    Tcp,
    /// UDP datagrams.
    Udp,
    /// A request over HTTP.
    Http,
    /// A request over HTTP with TLS.
    Https,
}

/// What a suspended step asks of a KDC.
#[derive(Drop, PartialEq, Eq)]
pub struct NetworkRequest {
    /// How the KDC is reached.
    pub protocol: NetworkProtocol,
    /// Where the KDC is.
    pub url: Text,
    /// The bytes that are sent.
    pub payload: Bytes,
}

impl NetworkRequest {
    /// A copy in memory of its own, equal to this request.
    pub fn clone(&self, alloc: Global) -> Result<NetworkRequest, AllocError>
        ensures { IfOk result (λ request. request ≡ self.now) }
    {
        Ok(NetworkRequest {
            protocol: self.protocol,
            url: self.url.clone(alloc)?,
            payload: self.payload.clone(alloc)?,
        })
    }
}
