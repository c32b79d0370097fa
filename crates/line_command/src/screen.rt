//! What a program shows.
ghost use Rattle.std.specs.Prelude.{◌≡◌, ◌++◌, IfOk, OnOk, Option, None, Some};
ghost use Rattle.line_command.specs.Screen as spec;
ghost use Rattle.eu_base.specs.declared.stop.Stop as stops;

use eu_base::{Bytes, NoMemory, Request, Stop, decimal};
use std::alloc::Global;
use std::marker::Model;

/// What is shown so far, and whether its last line is unfinished.
#[derive(Drop)]
pub(crate) struct Screen {
    text: Bytes,
    is_open: bool,
}

impl Model for Screen {
    ghost use Rattle.line_command.specs.Screen as spec;

    ghost Value = { spec.Screen };

    ghost view = { λ s. record { text = s.text; open_ = s.is_open } };
}

impl Screen {
    pub(crate) fn new(alloc: Global) -> Screen
        ensures { result ≡ spec.blank }
    {
        Screen {
            text: Bytes::new(alloc),
            is_open: false,
        }
    }

    /// Shows what a program asks for.
    pub(crate) fn show(&mut self, alloc: Global, request: &Request) -> Result<(), NoMemory>
        ensures { OnOk result (self.new ≡ spec.with_request self.old request.now) }
    {
        match request {
            Request::Out { bytes, ends } => self.put(alloc, bytes.as_slice(), *ends),
            _ => Ok(()),
        }
    }

    /// Writes bytes, and ends the line after them where `ends`.
    fn put(&mut self, alloc: Global, bytes: &[u8], ends: bool) -> Result<(), NoMemory>
        ensures { OnOk result (self.new ≡ spec.put self.old (record { bytes = bytes.now; ends = ends })) }
    {
        append_shown(alloc, &mut self.text, bytes)?;
        if ends {
            self.text.append(b"\n")?;
            self.is_open = false;
        } else if !bytes.is_empty() {
            self.is_open = true;
        }
        Ok(())
    }

    /// Ends the line that is unfinished, and shows the stop.
    pub(crate) fn finish(self, alloc: Global, stop: Option<Stop>) -> Result<Bytes, NoMemory>
        ensures { IfOk result (λ text. text ≡ spec.final self stop) }
    {
        let Screen { mut text, is_open } = self;
        if is_open {
            text.append(b"\n")?;
        }
        if let Some(stop) = stop {
            text.append(b"FEHLER : ")?;
            append_shown(alloc, &mut text, stop.text(alloc)?.as_slice())?;
            text.append(b"\n")?;
        }
        Ok(text)
    }
}

/// Bytes as they are shown.
fn append_shown(alloc: Global, out: &mut Bytes, bytes: &[u8]) -> Result<(), NoMemory>
    ensures { OnOk result (out.new ≡ out.old ++ spec.shown bytes.now) }
{
    for byte in bytes {
        append_shown_byte(alloc, out, *byte)?;
    }
    Ok(())
}

fn append_shown_byte(alloc: Global, out: &mut Bytes, byte: u8) -> Result<(), NoMemory>
    ensures { OnOk result (out.new ≡ out.old ++ spec.shown_byte byte) }
{
    if byte < 32 || byte == 127 {
        out.append(b"\"")?;
        out.append(decimal(alloc, i64::from(byte))?.as_slice())?;
        out.append(b"\"")?;
        Ok(())
    } else {
        out.append(&[byte])?;
        Ok(())
    }
}
