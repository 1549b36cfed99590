//! The page on which an explanation is written.
ghost use Rattle.std.specs.Prelude.{◌≡◌, OnOk, IfOk, []};
ghost use Rattle.sspi_explain.specs.Page.{refused, with_content, with_field, with_ignored};
ghost use Rattle.sspi_explain.specs.Page.{with_line, with_text};
ghost use Rattle.sspi_explain.specs.Told.{fault_of, IsRefused};

use crate::depth::Depth;
use crate::field::{Field, Form};
use crate::stop::{Fault, Stop};
use crate::texts::content_text;
use std::alloc::{AllocError, Global};
use std::fmt::Write;
use std::marker::Model;

/// Enough bytes for the lines of most messages.
const ROOM: usize = 512;

/// What has been said of a message so far, and how its fields are shown.
#[derive(Drop)]
pub(crate) struct Page {
    pub alloc: Global,
    pub form: Form,
    pub depth: Depth,
    pub text: String,
}

impl Model for Page {
    ghost use Rattle.std.specs.Prelude.{string_bytes};
    ghost use Rattle.sspi_explain.specs.Page.{Sheet};

    ghost Value = { Sheet };

    ghost view = { λ page.
        record { form = page.form; depth = page.depth; text = string_bytes page.text } };
}

impl Page {
    pub fn new(alloc: Global, form: Form, depth: Depth) -> Result<Page, AllocError>
        ensures { IfOk result
            (λ page. page ≡ record { form = form; depth = depth; text = [] }) }
    {
        Ok(Page {
            alloc,
            form,
            depth,
            text: String::with_capacity(alloc, ROOM)?,
        })
    }

    /// A line: its indentation, an offset, and what is there.
    pub fn line(&mut self, depth: Depth, at: usize, said: &str) -> Result<(), AllocError>
        ensures { OnOk result (self.new ≡ with_line depth at said.now self.old) }
    {
        let blanks = depth.blanks();
        write!(self.text, "{blanks}{at} {said}\n")
    }

    /// Lines that were composed elsewhere.
    pub fn push(&mut self, text: &str) -> Result<(), AllocError>
        ensures { OnOk result (self.new ≡ with_text text.now self.old) }
    {
        self.text.push_str(text)
    }

    /// A field with its value.
    pub fn field(&mut self, at: usize, field: Field, value: &str) -> Result<(), AllocError>
        ensures { OnOk result (self.new ≡ with_field at field value.now self.old) }
    {
        let blanks = self.depth.blanks();
        let name = field.name();
        write!(self.text, "{blanks}{at} {name} {value}\n")
    }

    /// A field with its content.
    pub fn content(&mut self, at: usize, field: Field, content: &[u8]) -> Result<(), AllocError>
        ensures { OnOk result (self.new ≡ with_content at field content.now self.old) }
    {
        let value = content_text(self.alloc, content)?;
        self.field(at, field, &value)
    }

    /// What a reader ignores, if anything.
    pub fn ignored(&mut self, depth: Depth, at: usize, bytes: &[u8]) -> Result<(), AllocError>
        ensures { OnOk result (self.new ≡ with_ignored depth at bytes.now self.old) }
    {
        if bytes.is_empty() {
            return Ok(());
        }
        let blanks = depth.blanks();
        let content = content_text(self.alloc, bytes)?;
        write!(self.text, "{blanks}{at} ignored {content}\n")
    }

    /// Reports that the message is refused, where and why.
    pub fn refuse(&mut self, at: usize, field: Field, fault: Fault, why: &str) -> Stop
        ensures { IsRefused fault result (self.new ≡ refused
            at field (fault_of fault) why.now self.old) }
    {
        match self.refused(at, field, fault, why) {
            Ok(()) => Stop::Refused(fault),
            Err(_) => Stop::OutOfMemory,
        }
    }

    fn refused(
        &mut self,
        at: usize,
        field: Field,
        fault: Fault,
        why: &str,
    ) -> Result<(), AllocError>
        ensures { OnOk result (self.new ≡ refused at field (fault_of fault) why.now self.old) }
    {
        let blanks = self.depth.blanks();
        let kind = self.form.kind(field, fault);
        let name = field.name();
        write!(self.text, "{blanks}{at} refused {kind} {name}: {why}\n")
    }
}
