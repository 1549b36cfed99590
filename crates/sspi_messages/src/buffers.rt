//! Finds the buffers that a message call reads and writes.

ghost use Rattle.std.specs.Prelude.{◌≡◌, ◌≢◌, option_map, position};
ghost use Rattle.std.specs.Borrow.{sem};
ghost use Rattle.sspi_types.specs.BufferTypes.{buffer_type_number};
ghost use Rattle.sspi_messages.specs.Buffers.{is_unflagged, first_unflagged, pair_of, bytes_in};
ghost use Rattle.sspi_messages.specs.Pair.{LendsPair};

use bitflags::Flags;
use sspi_types::{BufferType, SecurityBuffer};

fn is_unflagged(buffer_type: BufferType, buffer: &SecurityBuffer) -> bool
    ensures { result ≡ is_unflagged buffer_type buffer.now }
{
    buffer.buffer_type.buffer_type.to_u32() == buffer_type.to_u32()
        && buffer.buffer_type.buffer_flags.bits() == 0
}

fn place(message: &[SecurityBuffer], buffer_type: BufferType) -> Option<usize>
    ensures { result ≡ position (is_unflagged buffer_type) message.now }
{
    message
        .iter()
        .position(|buffer| is_unflagged(buffer_type, buffer))
}

/// The bytes of the first buffer of this type without flags.
#[tactic(auto, using(sspi_types::proofs::Places::found_at, sspi_types::proofs::Places::not_found))]
pub fn bytes_in(message: &[SecurityBuffer], buffer_type: BufferType) -> Option<&[u8]>
    ensures { option_map (λ bytes. bytes.now) result ≡ bytes_in buffer_type message.now }
{
    match place(message, buffer_type) {
        Some(place) => Some(message[place].buffer.as_slice()),
        None => None,
    }
}

/// The first buffers of these two types without flags, to be changed in place, if both are there.
pub fn pair_mut(
    message: &mut [SecurityBuffer],
    first_type: BufferType,
    second_type: BufferType,
) -> Option<(&mut SecurityBuffer, &mut SecurityBuffer)>
    requires { buffer_type_number first_type ≢ buffer_type_number second_type }
    ensures* writes_back { sem 𝓛 (LendsPair message.entry first_type second_type result) }
    ensures pair { option_map (λ pair. (pair.0.now, pair.1.now)) result
        ≡ pair_of (first_unflagged first_type message.old)
        (first_unflagged second_type message.old) }
{
    let Some(first) = place(message, first_type) else {
        return None;
    };
    let Some(second) = place(message, second_type) else {
        return None;
    };
    if first < second {
        let (front, back) = message.split_at_mut(second);
        return Some((&mut front[first], &mut back[0]));
    }
    let (front, back) = message.split_at_mut(first);
    Some((&mut back[0], &mut front[second]))
}
