//! What a step of a mechanism is given.

use sspi_names::CredentialsBuffers;
use sspi_types::{ClientRequestFlags, DataRepresentation, ServerRequestFlags};

/// What a client's step is given (InitializeSecurityContext).
#[derive(Clone, Copy)]
pub struct InitializeSecurityContext<'a> {
    /// The acquired credentials. A step that needs a name is refused without them.
    pub credentials_handle: Option<&'a CredentialsBuffers>,
    /// What the client asks of the context, such as `USE_SESSION_KEY`.
    pub context_requirements: ClientRequestFlags,
    /// The byte order of the peer's machine; the plain mechanisms ignore it.
    pub target_data_representation: DataRepresentation,
    /// The name of the service, such as `TERMSRV/host`.
    pub target_name: Option<&'a str>,
    /// The token that the peer sent; empty in the first step.
    pub input: &'a [u8],
}

/// What a server's step is given (AcceptSecurityContext).
#[derive(Clone, Copy)]
pub struct AcceptSecurityContext<'a> {
    /// The acquired credentials, if the mechanism requires any from a server.
    pub credentials_handle: Option<&'a CredentialsBuffers>,
    /// What the server asks of the context.
    pub context_requirements: ServerRequestFlags,
    /// The byte order of the peer's machine; the plain mechanisms ignore it.
    pub target_data_representation: DataRepresentation,
    /// The token that the peer sent.
    pub input: &'a [u8],
}
