//! What is shown at the four channels.
ghost use Rattle.std.specs.Prelude.{◌≡◌, ◌≤◌, [], ◌++◌, true, length, OnOk};
ghost use Rattle.session_text.specs.Display as spec;

use crate::piece;
use containers::{Bytes, List, NoMemory};
use std::alloc::Global;
use std::marker::Model;
use std::mem;

/// Bytes that were written to a channel in one piece.
#[derive(Drop)]
pub struct Piece {
    /// The channel, 1 to 4.
    pub channel: u8,
    /// The bytes, without the line end.
    pub bytes: Bytes,
    /// Whether a line end closed the piece.
    pub ended: bool,
}

/// The bytes at each channel that no line end follows yet, and the pieces that are closed, in the order in which they were
/// closed. A call that memory was refused to may leave it with a part of what it was to show.
#[derive(Drop)]
pub struct Display {
    alloc: Global,
    unfinished: [Bytes; 4],
    shown: List<Piece>,
}

impl Model for Display {
    ghost use Rattle.std.specs.Prelude.{◌≡◌, length};
    ghost use Rattle.session_text.specs.Display as spec;

    ghost Value = { spec.Display };

    ghost view = { λ display. record { unfinished = display.unfinished; shown = display.shown } };

    ghost invariant = { λ display. length display.unfinished ≡ 4 };
}

impl Display {
    /// Nothing is shown. It takes no memory.
    pub fn new(alloc: Global) -> Display
        ensures { result ≡ spec.blank }
    {
        Display {
            alloc,
            unfinished: [
                Bytes::new(alloc),
                Bytes::new(alloc),
                Bytes::new(alloc),
                Bytes::new(alloc),
            ],
            shown: List::new(alloc),
        }
    }

    /// Writes bytes at a channel, and a line end behind them where they end the line.
    pub fn write(&mut self, channel: u8, bytes: &[u8], ends: bool) -> Result<(), NoMemory>
        requires low { 1 ≤ channel }
        requires high { channel ≤ 4 }
        ensures { OnOk result (self.new ≡ spec.write channel bytes.now ends self.old) }
    {
        if ends {
            self.write_end(channel, bytes)?;
        } else {
            self.write_part(channel, bytes)?;
        }
        Ok(())
    }

    /// Shows a prompt or a message, a piece of its own; the unfinished piece of the channel is closed before it.
    pub fn say(&mut self, channel: u8, bytes: &[u8]) -> Result<(), NoMemory>
        requires low { 1 ≤ channel }
        requires high { channel ≤ 4 }
        ensures { OnOk result (self.new ≡ spec.say channel bytes.now self.old) }
    {
        self.close(channel)?;
        let bytes = Bytes::from(self.alloc, bytes)?;
        self.show(channel, bytes, true)?;
        Ok(())
    }

    /// Closes the unfinished piece of each channel, from the first.
    pub fn close_all(&mut self) -> Result<(), NoMemory>
        ensures { OnOk result (self.new ≡ spec.close_all self.old) }
    {
        self.close(1)?;
        self.close(2)?;
        self.close(3)?;
        self.close(4)?;
        Ok(())
    }

    /// Nothing is shown any more.
    pub fn clear(&mut self)
        ensures { self.new ≡ spec.blank }
    {
        *self = Display::new(self.alloc);
    }

    /// Adds the closed pieces as lines of output. In the `plain` form nothing stands before the pieces of channel 1.
    pub fn render(&self, plain: bool, out: &mut Bytes) -> Result<(), NoMemory>
        ensures { OnOk result (out.new ≡ out.old ++ spec.rendered plain self.now.shown) }
    {
        for shown in self.shown.as_slice() {
            let bytes = shown.bytes.as_slice();
            piece(self.alloc, shown.channel, bytes, shown.ended, plain, out)?;
        }
        Ok(())
    }

    /// What holds of each display: there are four unfinished pieces.
    pub fn law(&self)
        ensures { length self.now.unfinished ≡ 4 }
    {
        let _unfinished = &self.unfinished;
    }

    fn write_end(&mut self, channel: u8, bytes: &[u8]) -> Result<(), NoMemory>
        requires low { 1 ≤ channel }
        requires high { channel ≤ 4 }
        ensures { OnOk result (self.new ≡ spec.with_unfinished channel []
            (spec.show channel (spec.unfinished_at channel self.old ++ bytes.now) true self.old)) }
    {
        let mut line = self.take(channel);
        line.append(bytes)?;
        self.show(channel, line, true)?;
        Ok(())
    }

    fn write_part(&mut self, channel: u8, bytes: &[u8]) -> Result<(), NoMemory>
        requires low { 1 ≤ channel }
        requires high { channel ≤ 4 }
        ensures { OnOk result (self.new ≡ spec.with_unfinished channel (spec.unfinished_at channel self.old ++ bytes.now) self.old) }
    {
        self.unfinished[channel as usize - 1].append(bytes)?;
        Ok(())
    }

    fn close(&mut self, channel: u8) -> Result<(), NoMemory>
        requires low { 1 ≤ channel }
        requires high { channel ≤ 4 }
        ensures { OnOk result (self.new ≡ spec.close channel self.old) }
    {
        let bytes = self.take(channel);
        self.show(channel, bytes, false)?;
        Ok(())
    }

    fn show(&mut self, channel: u8, bytes: Bytes, ended: bool) -> Result<(), NoMemory>
        ensures { OnOk result (self.new ≡ spec.show channel bytes ended self.old) }
    {
        let piece = Piece {
            channel,
            bytes,
            ended,
        };
        self.shown.push(piece)?;
        Ok(())
    }

    /// Takes the unfinished piece of a channel.
    fn take(&mut self, channel: u8) -> Bytes
        requires low { 1 ≤ channel }
        requires high { channel ≤ 4 }
        ensures bytes { result ≡ spec.unfinished_at channel self.old }
        ensures others { self.new ≡ spec.with_unfinished channel [] self.old }
    {
        let none = Bytes::new(self.alloc);
        mem::replace(&mut self.unfinished[channel as usize - 1], none)
    }
}
