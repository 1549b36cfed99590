//! The protocol and ciphers of a connection.

ghost use Rattle.std.specs.Prelude.{◌≡◌};
ghost use Rattle.sspi_types.specs.Connections.{connection_protocol_number};
ghost use Rattle.sspi_types.specs.Connections.{connection_cipher_number};
ghost use Rattle.sspi_types.specs.Connections.{connection_hash_number};
ghost use Rattle.sspi_types.specs.Connections.{connection_key_exchange_number};
ghost use Rattle.sspi_types.specs.Numbers.{ReadsNumber};

/// The protocol of a connection (`dwProtocol` of SecPkgContext_ConnectionInfo).
#[derive(Clone, Copy, Debug, PartialEq, Eq)]
pub enum ConnectionProtocol {
    /// TLS 1.0, at the client (SP_PROT_TLS1_CLIENT).
    SpProtTls1Client = 0x0080,
    /// TLS 1.0, at the server (SP_PROT_TLS1_SERVER).
    SpProtTls1Server = 0x0040,
    /// SSL 3.0, at the client (SP_PROT_SSL3_CLIENT).
    SpProtSsl3Client = 0x0020,
    /// SSL 3.0, at the server (SP_PROT_SSL3_SERVER).
    SpProtSsl3Server = 0x0010,
    /// TLS 1.1, at the client (SP_PROT_TLS1_1_CLIENT).
    SpProtTls1_1Client = 0x0200,
    /// TLS 1.1, at the server (SP_PROT_TLS1_1_SERVER).
    SpProtTls1_1Server = 0x0100,
    /// TLS 1.2, at the client (SP_PROT_TLS1_2_CLIENT).
    SpProtTls1_2Client = 0x0800,
    /// TLS 1.2, at the server (SP_PROT_TLS1_2_SERVER).
    SpProtTls1_2Server = 0x0400,
    /// TLS 1.3, at the client (SP_PROT_TLS1_3_CLIENT).
    SpProtTls1_3Client = 0x2000,
    /// TLS 1.3, at the server (SP_PROT_TLS1_3_SERVER).
    SpProtTls1_3Server = 0x1000,
    /// PCT 1.0, at the client (SP_PROT_PCT1_CLIENT).
    SpProtPct1Client = 0x0002,
    /// PCT 1.0, at the server (SP_PROT_PCT1_SERVER).
    SpProtPct1Server = 0x0001,
    /// SSL 2.0, at the client (SP_PROT_SSL2_CLIENT).
    SpProtSsl2Client = 0x0008,
    /// SSL 2.0, at the server (SP_PROT_SSL2_SERVER).
    SpProtSsl2Server = 0x0004,
}

impl ConnectionProtocol {
    /// The value with this number, or `None` if the table has no such number.
    #[tactic(auto, using(crate::proofs::Numbers::same_connection_protocol))]
    pub fn from_u32(number: u32) -> Option<Self>
        ensures { ReadsNumber connection_protocol_number number result }
    {
        Some(match number {
            0x0080 => ConnectionProtocol::SpProtTls1Client,
            0x0040 => ConnectionProtocol::SpProtTls1Server,
            0x0020 => ConnectionProtocol::SpProtSsl3Client,
            0x0010 => ConnectionProtocol::SpProtSsl3Server,
            0x0200 => ConnectionProtocol::SpProtTls1_1Client,
            0x0100 => ConnectionProtocol::SpProtTls1_1Server,
            0x0800 => ConnectionProtocol::SpProtTls1_2Client,
            0x0400 => ConnectionProtocol::SpProtTls1_2Server,
            0x2000 => ConnectionProtocol::SpProtTls1_3Client,
            0x1000 => ConnectionProtocol::SpProtTls1_3Server,
            0x0002 => ConnectionProtocol::SpProtPct1Client,
            0x0001 => ConnectionProtocol::SpProtPct1Server,
            0x0008 => ConnectionProtocol::SpProtSsl2Client,
            0x0004 => ConnectionProtocol::SpProtSsl2Server,
            _ => return None,
        })
    }

    /// The number of this value.
    pub fn to_u32(self) -> u32
        ensures { result ≡ connection_protocol_number self }
    {
        self as u32
    }
}

/// The bulk cipher of a connection (`aiCipher` of SecPkgContext_ConnectionInfo).
#[derive(Clone, Copy, Debug, PartialEq, Eq)]
pub enum ConnectionCipher {
    /// Triple DES (CALG_3DES).
    Calg3des = 26115,
    /// AES with a 128-bit key (CALG_AES_128).
    CalgAes128 = 26126,
    /// AES with a 256-bit key (CALG_AES_256).
    CalgAes256 = 26128,
    /// DES (CALG_DES).
    CalgDes = 26113,
    /// RC2 (CALG_RC2).
    CalgRc2 = 26114,
    /// RC4 (CALG_RC4).
    CalgRc4 = 26625,
    /// Nothing is encrypted.
    NoEncryption = 0,
}

impl ConnectionCipher {
    /// The value with this number, or `None` if the table has no such number.
    #[tactic(auto, using(crate::proofs::Numbers::same_connection_cipher))]
    pub fn from_u32(number: u32) -> Option<Self>
        ensures { ReadsNumber connection_cipher_number number result }
    {
        Some(match number {
            26115 => ConnectionCipher::Calg3des,
            26126 => ConnectionCipher::CalgAes128,
            26128 => ConnectionCipher::CalgAes256,
            26113 => ConnectionCipher::CalgDes,
            26114 => ConnectionCipher::CalgRc2,
            26625 => ConnectionCipher::CalgRc4,
            0 => ConnectionCipher::NoEncryption,
            _ => return None,
        })
    }

    /// The number of this value.
    pub fn to_u32(self) -> u32
        ensures { result ≡ connection_cipher_number self }
    {
        self as u32
    }
}

/// The hash of a connection (`aiHash` of SecPkgContext_ConnectionInfo).
#[derive(Clone, Copy, Debug, PartialEq, Eq)]
pub enum ConnectionHash {
    /// MD5 (CALG_MD5).
    CalgMd5 = 32771,
    /// SHA-1 (CALG_SHA).
    CalgSha = 32772,
}

impl ConnectionHash {
    /// The value with this number, or `None` if the table has no such number.
    #[tactic(auto, using(crate::proofs::Numbers::same_connection_hash))]
    pub fn from_u32(number: u32) -> Option<Self>
        ensures { ReadsNumber connection_hash_number number result }
    {
        Some(match number {
            32771 => ConnectionHash::CalgMd5,
            32772 => ConnectionHash::CalgSha,
            _ => return None,
        })
    }

    /// The number of this value.
    pub fn to_u32(self) -> u32
        ensures { result ≡ connection_hash_number self }
    {
        self as u32
    }
}

/// The key exchange of a connection (`aiExch` of SecPkgContext_ConnectionInfo).
#[derive(Clone, Copy, Debug, PartialEq, Eq)]
pub enum ConnectionKeyExchange {
    /// RSA (CALG_RSA_KEYX).
    CalgRsaKeyx = 41984,
    /// Diffie-Hellman with ephemeral keys (CALG_DH_EPHEM).
    CalgDhEphem = 43522,
}

impl ConnectionKeyExchange {
    /// The value with this number, or `None` if the table has no such number.
    #[tactic(auto, using(crate::proofs::Numbers::same_connection_key_exchange))]
    pub fn from_u32(number: u32) -> Option<Self>
        ensures { ReadsNumber connection_key_exchange_number number result }
    {
        Some(match number {
            41984 => ConnectionKeyExchange::CalgRsaKeyx,
            43522 => ConnectionKeyExchange::CalgDhEphem,
            _ => return None,
        })
    }

    /// The number of this value.
    pub fn to_u32(self) -> u32
        ensures { result ≡ connection_key_exchange_number self }
    {
        self as u32
    }
}

/// The algorithms of a connection, with their strengths in bits (SecPkgContext_ConnectionInfo).
#[derive(Clone, Copy, Debug, PartialEq, Eq)]
pub struct ConnectionInfo {
    /// The protocol, and which end this is.
    pub protocol: ConnectionProtocol,
    /// The cipher that seals.
    pub cipher: ConnectionCipher,
    /// Bits of the cipher's key.
    pub cipher_strength: u32,
    /// The hash of signatures.
    pub hash: ConnectionHash,
    /// Bits of a hash.
    pub hash_strength: u32,
    /// How the key was agreed on.
    pub key_exchange: ConnectionKeyExchange,
    /// Bits of the key of that exchange.
    pub exchange_strength: u32,
}
