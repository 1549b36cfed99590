//! The Early User Authorization Result PDU (MS-RDPBCGR 2.2.10.2).

ghost use Rattle.std.specs.Prelude.{◌≡◌};
ghost use Rattle.sspi_ber.specs.Outside.{LeavesRest, Reads, ReadCause, Writes, WriteCause};

use crate::block::read_block;
use sspi_ber::{Sink, Source, WireKind, write_all};

/// How many bytes an Early User Authorization Result PDU has.
pub const EARLY_USER_AUTH_RESULT_PDU_SIZE: usize = 4;

/// Whether the user may log on, which a server that supports HYBRID_EX sends after CredSSP
/// (MS-RDPBCGR 2.2.10.2).
#[derive(Clone, Copy, Debug, PartialEq, Eq)]
pub enum EarlyUserAuthResult {
    /// The user may log on: the number 0 (AUTHZ_SUCCESS).
    Success,
    /// The user may not log on: the number 5 (AUTHZ_ACCESS_DENIED).
    AccessDenied,
}

impl EarlyUserAuthResult {
    ghost use Rattle.sspi_tsreq.specs.Early.{number_of, result_of, early_result_at};
    ghost use Rattle.sspi_tsreq.specs.Early.{early_result_text};

    /// The result with this number, 0 or 5; `None` for any other.
    pub fn from_u32(value: u32) -> Option<EarlyUserAuthResult>
        ensures { result ≡ result_of value }
    {
        match value {
            0 => Some(EarlyUserAuthResult::Success),
            5 => Some(EarlyUserAuthResult::AccessDenied),
            _ => None,
        }
    }

    /// The number: 0 for success, 5 for access denied.
    pub fn to_u32(self) -> u32
        ensures { result ≡ number_of self }
    {
        match self {
            EarlyUserAuthResult::Success => 0,
            EarlyUserAuthResult::AccessDenied => 5,
        }
    }

    /// Reads a result, four bytes with the low one first. `UnexpectedEof` if fewer are left,
    /// `InvalidData` for a number that is no result, `ReadFault` only if the source failed.
    #[tactic(auto, unfolding(crate::specs::Early::early_result_at))]
    pub fn from_buffer<S: Source>(source: &mut S) -> Result<EarlyUserAuthResult, WireKind>
        ensures read { Reads (λ result. result) (S.left source.old) (S.left source.new) result
            early_result_at }
        ensures cause { ReadCause (S.faults source.old) (S.faults source.new) result }
        ensures rest { LeavesRest (S.left source.old) (S.left source.new) }
    {
        let mut bytes = [0; EARLY_USER_AUTH_RESULT_PDU_SIZE];
        read_block(source, &mut bytes)?;
        match EarlyUserAuthResult::from_u32(u32::from_le_bytes(bytes)) {
            Some(result) => Ok(result),
            None => Err(WireKind::InvalidData),
        }
    }

    /// Writes the four bytes. `WriteFault` only if the sink failed; after it, and when out of
    /// memory, at most the first three of them were written.
    pub fn to_buffer<W: Sink>(self, sink: &mut W) -> Result<(), WireKind>
        ensures wrote { Writes (W.written sink.old) (W.written sink.new) result
            (early_result_text self) }
        ensures cause { WriteCause (W.faults sink.old) (W.faults sink.new) result }
    {
        write_all(sink, &self.to_u32().to_le_bytes())
    }

    /// How many bytes `to_buffer` writes.
    pub fn buffer_len(self) -> usize
        ensures { result ≡ 4 }
    {
        EARLY_USER_AUTH_RESULT_PDU_SIZE
    }
}
