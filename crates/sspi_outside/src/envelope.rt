//! Reads what a host reports in place of a token or a blob.

ghost use Rattle.std.specs.Prelude.{◌≡◌, option_copied, option_map};
ghost use Rattle.sspi_outside.specs.Envelope.{denied_by, introduced, said, text_in};
ghost use Rattle.sspi_outside.specs.Seen.{seen};

// What the host says about the step that its context made.
#[derive(Clone, Copy)]
pub enum Envelope<'a> {
    // The context has ended, with this token for the peer.
    Ended(&'a [u8]),
    // The context goes on, with this token for the peer.
    GoesOn(&'a [u8]),
    // The same, and it authenticates user-to-user or in DCE style.
    UserToUser(&'a [u8]),
    // The context refused the step, with this code of winerror.h.
    Denied(u32),
    // The bytes are not an envelope.
    Unsaid,
}

#[tactic(auto, unfolding(crate::specs::Envelope::said))]
pub fn read_step(envelope: &[u8]) -> Envelope<'_>
    ensures { seen result ≡ said envelope.now }
{
    match envelope {
        [0, token @ ..] => Envelope::Ended(token),
        [1, token @ ..] => Envelope::GoesOn(token),
        [2, code @ ..] => read_code(code),
        [3, token @ ..] => Envelope::UserToUser(token),
        _ => Envelope::Unsaid,
    }
}

fn read_code(code: &[u8]) -> Envelope<'static>
    ensures { seen result ≡ denied_by code.now }
{
    match code.as_array() {
        Some(code) => Envelope::Denied(u32::from_le_bytes(*code)),
        None => Envelope::Unsaid,
    }
}

// The bytes of the name that a server's envelope begins with, and the envelope of the step after
// it.
#[tactic(auto, unfolding(crate::specs::Envelope::introduced))]
pub fn read_name(envelope: &[u8]) -> Option<(&[u8], &[u8])>
    ensures { option_map (λ it. record { name = it.0.now; step = it.1.now }) result ≡ introduced
        envelope.now }
{
    let [low, high, rest @ ..] = envelope else {
        return None;
    };
    let length = usize::from(*low) + 256 * usize::from(*high);
    if rest.len() < length {
        return None;
    }
    Some(rest.split_at(length))
}

pub const NO_TAG: [u8; 16] = [0; 16];

// The text that the host opened.
#[tactic(auto, unfolding(crate::specs::Envelope::text_in))]
pub fn read_text(blob: &[u8]) -> Option<&[u8]>
    ensures { option_copied result ≡ text_in blob.now }
{
    blob.strip_prefix(&NO_TAG)
}
