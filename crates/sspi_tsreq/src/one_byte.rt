//! Reads one byte of a request's content, and updates the reader in place.

ghost use Rattle.std.specs.Prelude.{◌≡◌, ◌<◌, [], ◌∷◌, ◌++◌, Some, IsOk, OnOk, OnErr};
ghost use Rattle.sspi_tsreq.specs.Walks.{WentOn, with_text};
ghost use Rattle.sspi_tsreq.specs.Places.{octets_of, text_of};
ghost use Rattle.sspi_tsreq.specs.Grammar.{bare};
ghost use Rattle.sspi_tsreq.specs.Quiet.{Opened};

use crate::next::{next_place, text_place};
use crate::place::{Element, Field, Next, Place, Stage, Text};
use crate::reader::TsReader;
use crate::request::TsRequest;
use crate::walk::put_byte;
use sspi_types::{Bytes, NStatusCode};
use std::alloc::{AllocError, Global};

/// Appends one byte to the field; when out of memory, the field stays as it was.
fn push_octet(alloc: Global, field: &mut Option<Bytes>, byte: u8) -> Result<(), AllocError>
    ensures ok { OnOk result (field.new ≡ Some (octets_of field.old ++ byte ∷ [])) }
    ensures err { OnErr result (field.new ≡ field.old) }
{
    match field {
        Some(bytes) => bytes.push(byte),
        None => {
            *field = Some(Bytes::from_slice(alloc, &[byte])?);
            Ok(())
        }
    }
}

impl TsReader {
    /// Reads one byte of the content; `left` more are still to come.
    pub(crate) fn read_byte(&mut self, left: u32, place: Place, byte: u8) -> Result<(), AllocError>
        ensures ok { OnOk result (WentOn self.old.nonce place self.old.request (byte ∷ []) left
            self.new) }
        ensures err { OnErr result (self.new ≡ self.old) }
        ensures free { (Opened place → ⊥) → (byte ≡ 0x04 → ⊥) → IsOk result }
    {
        match place {
            Place::InText(text, more) => {
                self.push_byte(text, byte)?;
                self.stage = Stage::Content(left, text_place(text, more));
                Ok(())
            }
            Place::InNonce(have) if have < 32 => {
                self.nonce_byte(left, have, byte);
                Ok(())
            }
            _ => self.step_byte(left, place, byte),
        }
    }

    fn push_byte(&mut self, text: Text, byte: u8) -> Result<(), AllocError>
        ensures ok { OnOk result (self.new ≡ record self.old {
          request = with_text text self.old.request (text_of text self.old.request ++ byte ∷ []);
        }) }
        ensures err { OnErr result (self.new ≡ self.old) }
    {
        match text {
            Text::NegoTokens => push_octet(self.alloc, &mut self.request.nego_tokens, byte),
            Text::AuthInfo => push_octet(self.alloc, &mut self.request.auth_info, byte),
            Text::PubKeyAuth => push_octet(self.alloc, &mut self.request.pub_key_auth, byte),
        }
    }

    fn nonce_byte(&mut self, left: u32, have: u32, byte: u8)
        requires { have < 32 }
        ensures { WentOn self.old.nonce (Place.InNonce have) self.old.request (byte ∷ []) left
            self.new }
    {
        put_byte(&mut self.nonce, have as usize, byte);
        if have == 31 {
            self.request.client_nonce = Some(self.nonce);
            self.stage = Stage::Content(left, Place::Whole);
        } else {
            self.stage = Stage::Content(left, Place::InNonce(have + 1));
        }
    }

    /// Reads one byte that is content neither of a text field nor of the nonce.
    fn step_byte(&mut self, left: u32, place: Place, byte: u8) -> Result<(), AllocError>
        ensures ok { OnOk result (WentOn self.old.nonce place self.old.request (byte ∷ []) left
            self.new) }
        ensures err { OnErr result (self.new ≡ self.old) }
        ensures free { (Opened place → ⊥) → (byte ≡ 0x04 → ⊥) → IsOk result }
    {
        match next_place(place, byte) {
            Next::At(next) => self.stage = Stage::Content(left, next),
            Next::Version(version) => self.begin(left, version),
            Next::Code(code) => {
                self.request.error_code = Some(NStatusCode(code));
                self.stage = Stage::Content(left, Place::AtTag(Element::Optional(Field::Nonce)));
            }
            Next::Begins(text, len) => {
                self.begin_text(text);
                self.stage = Stage::Content(left, text_place(text, len));
            }
            Next::Walked => return self.read_content(left, place, &[byte]),
        }
        Ok(())
    }

    /// The version is known, but no field yet.
    fn begin(&mut self, left: u32, version: u32)
        ensures { self.new ≡ record self.old {
          stage = Stage.Content left (Place.AtTag (Element.Optional Field.Nego));
          request = bare version;
        } }
    {
        self.request = TsRequest::bare(version);
        self.stage = Stage::Content(left, Place::AtTag(Element::Optional(Field::Nego)));
    }

    /// The field is present, but has no bytes yet.
    fn begin_text(&mut self, text: Text)
        ensures { self.new ≡ record self.old { request = with_text text self.old.request [] } }
    {
        let none = Some(Bytes::new(self.alloc));
        match text {
            Text::NegoTokens => self.request.nego_tokens = none,
            Text::AuthInfo => self.request.auth_info = none,
            Text::PubKeyAuth => self.request.pub_key_auth = none,
        }
    }
}
