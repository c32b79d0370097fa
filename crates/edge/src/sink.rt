//! Where bytes go.
ghost use Rattle.std.specs.Prelude.{◌≡◌, ◌<◌, ℕ, List, [], false, true, Some, IsErr, OnOk, OnErr, IfOk, ◌≤◌};
ghost use Rattle.std.specs.declared.option.Option.{Option};
ghost use Rattle.std.specs.Io.{WritesAtMost};
ghost use Rattle.std.specs.Io.KnownBytes.{WriteAppends};
ghost use Rattle.edge.specs.Faults.{HasCause};
ghost use Rattle.eu_base.specs.Faults.{next_count};
ghost use Rattle.edge.specs.Memory.{IsListed};
ghost use Rattle.edge.specs.Piece.{TakesSome};

use crate::Failed;
use crate::calls::is_listed;
use eu_base::{Bytes, List, NoMemory};
use std::alloc::Global;
use std::marker::Model;

/// A stream that takes bytes and may fail.
pub trait Sink {
    /// The bytes taken, where it tells them.
    ghost taken: { Self → Option (List ℕ) };

    /// How often it failed, which stands still at the last value of its counter.
    ghost faults: { Self → ℕ };

    /// Takes some of the bytes, from their front, and says how many.
    fn put(&mut self, bytes: &[u8]) -> Result<usize, Failed>
        ensures bound { WritesAtMost result bytes.now }
        ensures some { TakesSome result bytes.now }
        ensures bytes { WriteAppends (taken self.old) (taken self.new) result bytes.now }
        ensures cause { HasCause (faults self.old) (faults self.new) result };
}

/// Bytes taken into memory, in pieces. A call fails where its number, from 1, is listed, or for want of memory.
#[derive(Drop)]
pub struct MemSink {
    bytes: Bytes,
    piece: usize,
    fails: List<u32>,
    calls: u64,
    faults: u64,
    wanted: bool,
}

impl Model for MemSink {
    ghost use Rattle.std.specs.Prelude.{◌<◌};
    ghost use Rattle.edge.specs.Memory.{SinkState};

    ghost Value = { SinkState };

    ghost view = { λ s. record { taken = s.bytes; piece = s.piece; fails = s.fails; calls = s.calls; faults = s.faults; wanted = s.wanted } };

    ghost invariant = { λ s. 0 < s.piece };
}

impl MemSink {
    /// Takes at most `piece` bytes a call.
    pub fn new(alloc: Global, piece: usize, fails: List<u32>) -> MemSink
        requires { 0 < piece }
        ensures { result ≡ record { taken = []; piece = piece; fails = fails; calls = 0; faults = 0; wanted = false } }
    {
        MemSink {
            bytes: Bytes::new(alloc),
            piece,
            fails,
            calls: 0,
            faults: 0,
            wanted: false,
        }
    }

    /// The bytes taken.
    pub fn bytes(&self) -> &[u8]
        ensures { result.now ≡ self.now.taken }
    {
        self.bytes.as_slice()
    }

    /// Whether a call failed for want of memory.
    pub fn wanted(&self) -> bool
        ensures { result ≡ self.now.wanted }
    {
        self.wanted
    }
}

impl Sink for MemSink {
    ghost taken = { λ s. Some s.taken };

    ghost faults = { λ s. s.faults };

    fn put(&mut self, bytes: &[u8]) -> Result<usize, Failed>
        ensures bound { WritesAtMost result bytes.now }
        ensures some { TakesSome result bytes.now }
        ensures bytes { WriteAppends (Some self.old.taken) (Some self.new.taken) result bytes.now }
        ensures cause { HasCause self.old.faults self.new.faults result }
        ensures listed { IsListed self.old.fails self.old.calls → IsErr result × (self.new.wanted ≡ self.old.wanted) }
        ensures wanted { ¬ IsListed self.old.fails self.old.calls → OnErr result (self.new.wanted ≡ true) }
        ensures ok { OnOk result (self.new.wanted ≡ self.old.wanted) }
        ensures short { IfOk result (λ count. count ≤ self.old.piece) }
        ensures calls { self.new.calls ≡ next_count self.old.calls }
        ensures set { (self.new.fails ≡ self.old.fails) × (self.new.piece ≡ self.old.piece) }
    {
        self.calls = self.calls.saturating_add(1);
        if is_listed(self.fails.as_slice(), self.calls) {
            self.faults = self.faults.saturating_add(1);
            return Err(Failed);
        }
        let count = self.piece.min(bytes.len());
        match self.bytes.append(&bytes[..count]) {
            Ok(()) => Ok(count),
            Err(NoMemory) => {
                self.faults = self.faults.saturating_add(1);
                self.wanted = true;
                Err(Failed)
            }
        }
    }
}
