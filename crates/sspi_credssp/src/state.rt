//! What an end waits for.

/// What an end of CredSSP waits for (MS-CSSP 3.1.5).
#[derive(Clone, Copy, Debug, PartialEq, Eq)]
pub enum CredSspState {
    /// A token of the authentication.
    NegoToken,
    /// On a server whose authentication has ended: the client's proof of the channel's key.
    PubKeyInfo,
    /// On a client the server's proof, on a server the client's credentials.
    AuthInfo,
    /// Nothing more.
    Final,
}
