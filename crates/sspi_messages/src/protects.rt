//! The trait of a context that seals and signs messages.

ghost use Rattle.std.specs.Prelude.{◌≡◌, ◌≢◌, ◌≤◌, None, length, IfOk, IfErr, OnOk, OnErr};
ghost use Rattle.sspi_mech.specs.Calls.{one_sealing, one_unsealing, one_signing, one_verification};
ghost use Rattle.sspi_mech.specs.Calls.{ToSeal, ToUnseal, ToSign, ToVerify};
ghost use Rattle.sspi_mech.specs.Answered.{IsRefusedAs};
ghost use Rattle.sspi_messages.specs.Protecting.{Protecting};

use sspi_types::{Error, ErrorKind};

/// A context that protects messages once it has a key.
///
/// A refusal leaves it as it was and has no NTSTATUS code. Only `seal`, `sign` and `unseal` may run
/// out of memory, `unseal` only if nothing else refuses it. Every other kind comes only where
/// `refuses` says so. `Ok` raises the call's own count by one and changes nothing else.
pub trait Protects {
    ghost protecting: { Protecting Self };

    /// Seals a text for the peer, as the next of its messages: a blob of at least 16 bytes.
    fn seal(&mut self, text: &[u8]) -> Result<Vec<u8>, Error>
        // What `Ok` holds.
        ensures blob { IfOk result (λ blob. protecting.seals self.new
            (protecting.counts self.old).sealings text.now blob.items) }
        ensures long { IfOk result (λ blob. 16 ≤ length blob.items) }
        ensures ok { OnOk result (self.new ≡ protecting.counted self.old
            (one_sealing (protecting.counts self.old))) }
        ensures count { OnOk result (protecting.counts self.new ≡ one_sealing
            (protecting.counts self.old)) }
        ensures permitted { OnOk result (protecting.permits self.old (ToSeal text.now)) }
        // What a refusal says, and what it leaves.
        ensures err { OnErr result (self.new ≡ self.old) }
        ensures codeless { IfErr result (λ error. error.nstatus ≡ None) }
        ensures cause { IfErr result (λ error. error.error_type ≢ ErrorKind.InsufficientMemory →
            protecting.refuses self.old (ToSeal text.now) error.error_type) };

    /// Opens what the peer sealed, as the next of its messages.
    fn unseal(&mut self, blob: &[u8]) -> Result<Vec<u8>, Error>
        // What `Ok` holds.
        ensures text { IfOk result (λ text. protecting.opens self.new
            (protecting.counts self.old).unsealings blob.now text.items) }
        ensures ok { OnOk result (self.new ≡ protecting.counted self.old
            (one_unsealing (protecting.counts self.old))) }
        ensures count { OnOk result (protecting.counts self.new ≡ one_unsealing
            (protecting.counts self.old)) }
        ensures permitted { OnOk result (protecting.permits self.old (ToUnseal blob.now)) }
        // What a refusal says, and what it leaves.
        ensures err { OnErr result (self.new ≡ self.old) }
        ensures codeless { IfErr result (λ error. error.nstatus ≡ None) }
        ensures cause { IfErr result (λ error. IsRefusedAs
            (protecting.permits self.old (ToUnseal blob.now))
            (protecting.refuses self.old (ToUnseal blob.now)) error.error_type) };

    /// The MIC of a text for the peer, as the next of its MICs.
    fn sign(&mut self, text: &[u8]) -> Result<Vec<u8>, Error>
        // What `Ok` holds.
        ensures mic { IfOk result (λ mic. protecting.signs self.new
            (protecting.counts self.old).signings text.now mic.items) }
        ensures ok { OnOk result (self.new ≡ protecting.counted self.old
            (one_signing (protecting.counts self.old))) }
        ensures count { OnOk result (protecting.counts self.new ≡ one_signing
            (protecting.counts self.old)) }
        ensures permitted { OnOk result (protecting.permits self.old (ToSign text.now)) }
        // What a refusal says, and what it leaves.
        ensures err { OnErr result (self.new ≡ self.old) }
        ensures codeless { IfErr result (λ error. error.nstatus ≡ None) }
        ensures cause { IfErr result (λ error. error.error_type ≢ ErrorKind.InsufficientMemory →
            protecting.refuses self.old (ToSign text.now) error.error_type) };

    /// Checks the MIC that the peer made of a text, as the next of its MICs. It allocates nothing.
    fn verify(&mut self, mic: &[u8], text: &[u8]) -> Result<(), Error>
        // What `Ok` holds.
        ensures mic { OnOk result (protecting.verifies self.new
            (protecting.counts self.old).verifications mic.now text.now) }
        ensures ok { OnOk result (self.new ≡ protecting.counted self.old
            (one_verification (protecting.counts self.old))) }
        ensures count { OnOk result (protecting.counts self.new ≡ one_verification
            (protecting.counts self.old)) }
        ensures permitted { OnOk result (protecting.permits self.old (ToVerify mic.now text.now)) }
        // What a refusal says, and what it leaves.
        ensures err { OnErr result (self.new ≡ self.old) }
        ensures codeless { IfErr result (λ error. error.nstatus ≡ None) }
        ensures cause { IfErr result (λ error. protecting.refuses self.old
            (ToVerify mic.now text.now) error.error_type) };
}
