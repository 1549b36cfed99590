//! EncryptMessage, DecryptMessage, MakeSignature and VerifySignature of a negotiation.

ghost use Rattle.std.specs.Prelude.{◌≡◌, IfOk, IfErr, OnErr, IsSome};
ghost use Rattle.sspi_messages.specs.Messages.{to_encrypt, to_decrypt, to_sign, to_verify};
ghost use Rattle.sspi_messages.specs.Messages.{Encrypts, Decrypts, Signs, Verifies, Refuses};
ghost use Rattle.sspi_messages.specs.Messages.{IsRefusal, IsJudged};
ghost use Rattle.sspi_messages.specs.Buffers.{bytes_in};
ghost use Rattle.sspi_types.specs.declared.buffer_type.BufferType.TheVariants.{Stream};
ghost use Rattle.sspi_messages.specs.Protecting.{protecting};
ghost use Rattle.sspi_negotiate.specs.Negotiate.{negotiate};

use crate::negotiate::Negotiate;
use sspi_mech::Mechanism;
use sspi_messages::{Protects, decrypt_message, encrypt_message, make_signature, verify_signature};
use sspi_types::{DecryptionFlags, EncryptionFlags, Error, SecurityBuffer, SecurityStatus};

impl<N: Mechanism, K: Mechanism> Protects for Negotiate<N, K> {
    ghost use Rattle.sspi_messages.specs.Protecting.{protecting};
    ghost use Rattle.sspi_negotiate.specs.Negotiate.{negotiate};

    ghost protecting = { protecting (negotiate N.REQUESTS N.meaning K.meaning) };

    fn seal(&mut self, text: &[u8]) -> Result<Vec<u8>, Error> {
        Ok(self.protocol.seal(text)?)
    }

    fn unseal(&mut self, blob: &[u8]) -> Result<Vec<u8>, Error> {
        Ok(self.protocol.unseal(blob)?)
    }

    fn sign(&mut self, text: &[u8]) -> Result<Vec<u8>, Error> {
        self.protocol.generate_mic_token(text)
    }

    fn verify(&mut self, mic: &[u8], text: &[u8]) -> Result<(), Error> {
        self.protocol.verify_mic_token(mic, text)
    }
}

impl<N: Mechanism, K: Mechanism> Negotiate<N, K> {
    /// Seals the text in Data as the next message (EncryptMessage): the first 16 bytes of the blob
    /// go to Token, the rest stays in Data. The flags are ignored.
    ///
    /// Of each type the first buffer without flags is used; `InvalidToken` if Data or Token is
    /// missing, before the mechanism is asked. With the plain mechanisms, `OutOfSequence` before
    /// there is a key, and `ContextExpired` once all message numbers are used. After a refusal, the
    /// negotiation and all buffers are as they were.
    pub fn encrypt_message(
        &mut self,
        _flags: EncryptionFlags,
        message: &mut [SecurityBuffer],
    ) -> Result<SecurityStatus, Error>
        ensures status { IfOk result (λ status. status ≡ SecurityStatus.Ok) }
        ensures sealed { IfOk result (λ status.
            Encrypts (protecting (negotiate N.REQUESTS N.meaning K.meaning)) self.old message.old
            self.new message.new) }
        ensures refused { IfErr result (λ error.
            Refuses (protecting (negotiate N.REQUESTS N.meaning K.meaning)) (to_encrypt message.old)
            self.old error self.new) }
        ensures buffers { OnErr result (message.new ≡ message.old) }
    {
        encrypt_message(self, message)
    }

    /// Opens the peer's next message (DecryptMessage) and leaves its text in Data. The blob is the
    /// bytes of Stream or, without one, those of Token followed by those of Data. Returns no flags.
    ///
    /// Of each type the first buffer without flags is used. `InvalidToken` if Data is missing, if
    /// there is neither Stream nor Token, and for a blob of under 16 bytes, before the mechanism is
    /// asked. With the plain mechanisms, `OutOfSequence` before there is a key, and
    /// `ContextExpired` once all message numbers are used; `MessageAltered` for what the peer did
    /// not seal as this message. A refused blob in Stream is never reported as out of memory; Token
    /// and Data are joined first, which allocates. After a refusal, the negotiation and all buffers
    /// are as they were.
    pub fn decrypt_message(
        &mut self,
        message: &mut [SecurityBuffer],
    ) -> Result<DecryptionFlags, Error>
        ensures flags { IfOk result (λ flags. flags.0 ≡ 0) }
        ensures opened { IfOk result (λ flags.
            Decrypts (protecting (negotiate N.REQUESTS N.meaning K.meaning)) self.old message.old
            self.new message.new) }
        ensures refused { IfErr result (λ error.
            Refuses (protecting (negotiate N.REQUESTS N.meaning K.meaning)) (to_decrypt message.old)
            self.old error self.new) }
        ensures judged { IfErr result (λ error. IsSome (bytes_in Stream message.old) →
            IsJudged (protecting (negotiate N.REQUESTS N.meaning K.meaning)) self.old
            (to_decrypt message.old) error.error_type) }
        ensures buffers { OnErr result (message.new ≡ message.old) }
    {
        decrypt_message(self, message)
    }

    /// Puts the MIC of the text in Data, as this end's next MIC, in Token (MakeSignature). The
    /// flags and the sequence number are ignored.
    ///
    /// Of each type the first buffer without flags is used; `InvalidToken` if Data or Token is
    /// missing, before the mechanism is asked. With the plain mechanisms, `OutOfSequence` before
    /// there is a key, and `ContextExpired` once all MIC numbers are used. After a refusal, the
    /// negotiation and all buffers are as they were.
    pub fn make_signature(
        &mut self,
        _flags: u32,
        message: &mut [SecurityBuffer],
        _sequence_number: u32,
    ) -> Result<(), Error>
        ensures signed { IfOk result (λ _.
            Signs (protecting (negotiate N.REQUESTS N.meaning K.meaning)) self.old message.old
            self.new message.new) }
        ensures refused { IfErr result (λ error.
            Refuses (protecting (negotiate N.REQUESTS N.meaning K.meaning)) (to_sign message.old)
            self.old error self.new) }
        ensures buffers { OnErr result (message.new ≡ message.old) }
    {
        make_signature(self, message)
    }

    /// Checks that Token is the MIC that the peer made of the text in Data as its next MIC
    /// (VerifySignature), and returns 0. Changes no buffer and allocates nothing. The sequence
    /// number is ignored.
    ///
    /// Of each type the first buffer without flags is used; `InvalidToken` if Data or Token is
    /// missing, before the mechanism is asked. With the plain mechanisms, `OutOfSequence` before
    /// there is a key, `ContextExpired` once all MIC numbers are used, and `MessageAltered` for any
    /// other MIC. After a refusal, the negotiation is as it was.
    pub fn verify_signature(
        &mut self,
        message: &mut [SecurityBuffer],
        _sequence_number: u32,
    ) -> Result<u32, Error>
        // What `Ok` holds.
        ensures zero { IfOk result (λ answer. answer ≡ 0) }
        ensures verified { IfOk result (λ answer.
            Verifies (protecting (negotiate N.REQUESTS N.meaning K.meaning)) self.old message.old
            self.new) }
        // What a refusal says, and what it leaves.
        ensures refused { IfErr result (λ error.
            Refuses (protecting (negotiate N.REQUESTS N.meaning K.meaning)) (to_verify message.old)
            self.old error self.new) }
        ensures exact { IfErr result (λ error. IsRefusal
            (protecting (negotiate N.REQUESTS N.meaning K.meaning)) self.old
            (to_verify message.old) error.error_type) }
        ensures buffers { message.new ≡ message.old }
    {
        verify_signature(self, message)?;
        Ok(0)
    }
}
