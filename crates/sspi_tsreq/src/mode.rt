//! Whether a client delegates its credentials.

/// Whether the client delegates its credentials, or an empty identity in their place.
#[derive(Clone, Copy, Debug, PartialEq, Eq)]
pub enum CredSspMode {
    /// The client's user name, domain and password are delegated.
    WithCredentials,
    /// Three empty texts are delegated in their place.
    CredentialLess,
}
