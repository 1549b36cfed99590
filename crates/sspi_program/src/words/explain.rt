//! What the messages of a text say.
ghost use Rattle.sspi_program.specs.Telling.{Explains, ExplainsText};

use crate::record::Conducted;
use crate::said::Said;
use crate::status;
use sspi_explain::explain;
use sspi_scenario::text_of;
use std::alloc::Global;

/// The text of these bytes, with what its messages say in place of their lines.
pub fn explain_bytes(alloc: Global, bytes: &[u8]) -> Said
    ensures { Explains bytes.now result }
{
    match text_of(bytes) {
        Some(text) => explain_text(alloc, text),
        None => Said::NoText,
    }
}

fn explain_text(alloc: Global, text: &str) -> Said
    ensures { ExplainsText text.now result }
{
    match explain(alloc, text) {
        Ok(told) => Said::Done(Conducted::nothing(status::DONE), told),
        Err(_) => Said::NoMemory,
    }
}
