//! EncryptMessage, DecryptMessage, MakeSignature and VerifySignature of a security context.

ghost use Rattle.std.specs.Prelude.{◌≡◌, IfOk, IfErr, OnErr, IsSome};
ghost use Rattle.sspi_messages.specs.Messages.{to_encrypt, to_decrypt, to_sign, to_verify};
ghost use Rattle.sspi_messages.specs.Messages.{Encrypts, Decrypts, Signs, Verifies, Refuses};
ghost use Rattle.sspi_messages.specs.Messages.{IsRefusal, IsJudged};
ghost use Rattle.sspi_messages.specs.Buffers.{bytes_in};
ghost use Rattle.sspi_types.specs.declared.buffer_type.BufferType.TheVariants.{Stream};
ghost use Rattle.sspi_messages.specs.Protecting.{protecting};
ghost use Rattle.sspi_credssp.specs.Context.{either};

use crate::context::SspiContext;
use sspi_mech::Mechanism;
use sspi_messages::{Protects, decrypt_message, encrypt_message, make_signature, verify_signature};
use sspi_types::{DecryptionFlags, EncryptionFlags, Error, SecurityBuffer, SecurityStatus};

impl<N: Mechanism, K: Mechanism> Protects for SspiContext<N, K> {
    ghost use Rattle.sspi_messages.specs.Protecting.{protecting};
    ghost use Rattle.sspi_credssp.specs.Context.{either};

    ghost protecting = { protecting (either N.REQUESTS N.meaning K.meaning) };

    fn seal(&mut self, text: &[u8]) -> Result<Vec<u8>, Error> {
        SspiContext::seal(self, text)
    }

    fn unseal(&mut self, blob: &[u8]) -> Result<Vec<u8>, Error> {
        SspiContext::unseal(self, blob)
    }

    fn sign(&mut self, text: &[u8]) -> Result<Vec<u8>, Error> {
        match self {
            SspiContext::Negotiate(negotiation) => negotiation.sign(text),
            SspiContext::Ntlm(mechanism) => mechanism.sign(text),
            SspiContext::Kerberos(mechanism) => mechanism.sign(text),
        }
    }

    fn verify(&mut self, mic: &[u8], text: &[u8]) -> Result<(), Error> {
        match self {
            SspiContext::Negotiate(negotiation) => negotiation.verify(mic, text),
            SspiContext::Ntlm(mechanism) => mechanism.verify(mic, text),
            SspiContext::Kerberos(mechanism) => mechanism.verify(mic, text),
        }
    }
}

impl<N: Mechanism, K: Mechanism> SspiContext<N, K> {
    /// Seals the text in Data as the next message (EncryptMessage): the first 16 bytes of the blob
    /// go to Token, the rest stays in Data. The flags are not read.
    ///
    /// The first buffer of each type without flags is taken; `InvalidToken` if Data or Token is
    /// missing, before the selected mechanism is asked. With the plain mechanisms `OutOfSequence`
    /// before there is a key, `ContextExpired` once all message numbers are used. A refusal leaves
    /// the context and all buffers unchanged.
    pub fn encrypt_message(
        &mut self,
        _flags: EncryptionFlags,
        message: &mut [SecurityBuffer],
    ) -> Result<SecurityStatus, Error>
        ensures status { IfOk result (λ status. status ≡ SecurityStatus.Ok) }
        ensures sealed { IfOk result (λ status.
            Encrypts (protecting (either N.REQUESTS N.meaning K.meaning)) self.old message.old
            self.new message.new) }
        ensures refused { IfErr result (λ error.
            Refuses (protecting (either N.REQUESTS N.meaning K.meaning)) (to_encrypt message.old)
            self.old error self.new) }
        ensures buffers { OnErr result (message.new ≡ message.old) }
    {
        encrypt_message(self, message)
    }

    /// Opens the peer's next message (DecryptMessage) and leaves its text in Data. The blob is the
    /// bytes of Stream, or without one those of Token followed by those of Data. Answers no flags.
    ///
    /// The first buffer of each type without flags is taken. Before the selected mechanism is
    /// asked: `InvalidToken` if Data is missing, if there is neither Stream nor Token, and for a
    /// blob of under 16 bytes. With the plain mechanisms `OutOfSequence` before there is a key,
    /// `ContextExpired` once all message numbers are used; `MessageAltered` for what the peer did
    /// not seal as this message. Out of memory never replaces the refusal of a blob in Stream;
    /// joining Token and Data allocates first. A refusal leaves the context and all buffers
    /// unchanged.
    pub fn decrypt_message(
        &mut self,
        message: &mut [SecurityBuffer],
    ) -> Result<DecryptionFlags, Error>
        ensures flags { IfOk result (λ flags. flags.0 ≡ 0) }
        ensures opened { IfOk result (λ flags.
            Decrypts (protecting (either N.REQUESTS N.meaning K.meaning)) self.old message.old
            self.new message.new) }
        ensures refused { IfErr result (λ error.
            Refuses (protecting (either N.REQUESTS N.meaning K.meaning)) (to_decrypt message.old)
            self.old error self.new) }
        ensures judged { IfErr result (λ error. IsSome (bytes_in Stream message.old) →
            IsJudged (protecting (either N.REQUESTS N.meaning K.meaning)) self.old
            (to_decrypt message.old) error.error_type) }
        ensures buffers { OnErr result (message.new ≡ message.old) }
    {
        decrypt_message(self, message)
    }

    /// Writes the MIC of the text in Data to Token, as the context's next MIC (MakeSignature).
    /// Flags and sequence number are not read.
    ///
    /// The first buffer of each type without flags is taken; `InvalidToken` if Data or Token is
    /// missing, before the selected mechanism is asked. With the plain mechanisms `OutOfSequence`
    /// before there is a key, `ContextExpired` once all MIC numbers are used. A refusal leaves the
    /// context and all buffers unchanged.
    pub fn make_signature(
        &mut self,
        _flags: u32,
        message: &mut [SecurityBuffer],
        _sequence_number: u32,
    ) -> Result<(), Error>
        ensures signed { IfOk result (λ _.
            Signs (protecting (either N.REQUESTS N.meaning K.meaning)) self.old message.old self.new
            message.new) }
        ensures refused { IfErr result (λ error.
            Refuses (protecting (either N.REQUESTS N.meaning K.meaning)) (to_sign message.old)
            self.old error self.new) }
        ensures buffers { OnErr result (message.new ≡ message.old) }
    {
        make_signature(self, message)
    }

    /// Checks that Token is the MIC that the peer made of the text in Data (VerifySignature), as
    /// its next MIC, and answers 0. Changes no buffer and allocates nothing. The sequence number is
    /// not read.
    ///
    /// The first buffer of each type without flags is taken; `InvalidToken` if Data or Token is
    /// missing, before the selected mechanism is asked. With the plain mechanisms `OutOfSequence`
    /// before there is a key, `ContextExpired` once all MIC numbers are used, `MessageAltered` for
    /// another MIC. A refusal leaves the context unchanged.
    pub fn verify_signature(
        &mut self,
        message: &mut [SecurityBuffer],
        _sequence_number: u32,
    ) -> Result<u32, Error>
        // What `Ok` holds.
        ensures zero { IfOk result (λ answer. answer ≡ 0) }
        ensures verified { IfOk result (λ answer.
            Verifies (protecting (either N.REQUESTS N.meaning K.meaning)) self.old message.old
            self.new) }
        // What a refusal says, and what it leaves.
        ensures refused { IfErr result (λ error.
            Refuses (protecting (either N.REQUESTS N.meaning K.meaning)) (to_verify message.old)
            self.old error self.new) }
        ensures exact { IfErr result (λ error. IsRefusal
            (protecting (either N.REQUESTS N.meaning K.meaning)) self.old
            (to_verify message.old) error.error_type) }
        ensures buffers { message.new ≡ message.old }
    {
        verify_signature(self, message)?;
        Ok(0)
    }
}
