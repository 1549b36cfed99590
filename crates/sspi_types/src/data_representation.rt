//! The data representation of a target.

ghost use Rattle.std.specs.Prelude.{◌≡◌};
ghost use Rattle.sspi_types.specs.DataRepresentations.{data_representation_number};
ghost use Rattle.sspi_types.specs.Numbers.{ReadsNumber};

/// The data representation of the target (`TargetDataRep` of InitializeSecurityContext).
#[derive(Clone, Copy, Debug, PartialEq, Eq)]
pub enum DataRepresentation {
    /// High byte first (SECURITY_NETWORK_DREP).
    Network = 0x00,
    /// As on this machine (SECURITY_NATIVE_DREP).
    Native = 0x10,
}

impl DataRepresentation {
    /// The value with this number, or `None` if the table has no such number.
    #[tactic(auto, using(crate::proofs::Numbers::same_data_representation))]
    pub fn from_u32(number: u32) -> Option<Self>
        ensures { ReadsNumber data_representation_number number result }
    {
        Some(match number {
            0x00 => DataRepresentation::Network,
            0x10 => DataRepresentation::Native,
            _ => return None,
        })
    }

    /// The number of this value.
    pub fn to_u32(self) -> u32
        ensures { result ≡ data_representation_number self }
    {
        self as u32
    }
}
