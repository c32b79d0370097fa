//! Where bytes come from.
ghost use Rattle.std.specs.Prelude.{◌≡◌, ◌↔◌, ◌<◌, ◌≤◌, ℕ, List, [], length, take, Some, IsErr, IfOk};
ghost use Rattle.std.specs.declared.option.Option.{Option};
ghost use Rattle.std.specs.Io.{ReadsAtMost};
ghost use Rattle.std.specs.Io.KnownBytes.{ReadConsumes};
ghost use Rattle.edge.specs.Faults.{HasCause};
ghost use Rattle.eu_base.specs.Faults.{next_count};
ghost use Rattle.edge.specs.Memory.{IsListed};

use crate::Failed;
use crate::calls::is_listed;
use eu_base::{Bytes, List};
use std::marker::Model;

/// A stream of bytes that may fail.
pub trait Source {
    /// The bytes that are left, where it tells them.
    ghost left: { Self → Option (List ℕ) };

    /// How often it failed, which stands still at the last value of its counter.
    ghost faults: { Self → ℕ };

    /// Takes bytes into the front of `into`, and says how many. None for a place that is not empty is the
    /// end of input.
    fn take(&mut self, into: &mut [u8]) -> Result<usize, Failed>
        ensures bound { ReadsAtMost result into.new }
        ensures bytes { ReadConsumes (left self.old) (left self.new) result into.new }
        ensures cause { HasCause (faults self.old) (faults self.new) result };
}

/// Bytes in memory, given in pieces. A call fails where its number, from 1, is listed.
#[derive(Drop)]
pub struct MemSource {
    bytes: Bytes,
    at: usize,
    piece: usize,
    fails: List<u32>,
    calls: u64,
    faults: u64,
}

impl Model for MemSource {
    ghost use Rattle.std.specs.Prelude.{◌≤◌, ◌<◌, length, drop};
    ghost use Rattle.edge.specs.Memory.{SourceState};

    ghost Value = { SourceState };

    ghost view = { λ s. record { left = drop s.at s.bytes; piece = s.piece; fails = s.fails; calls = s.calls; faults = s.faults } };

    ghost invariant = { λ s. (s.at ≤ length s.bytes) × (0 < s.piece) };
}

impl MemSource {
    /// Gives at most `piece` bytes a call.
    pub fn new(bytes: Bytes, piece: usize, fails: List<u32>) -> MemSource
        requires { 0 < piece }
        ensures { result ≡ record { left = bytes; piece = piece; fails = fails; calls = 0; faults = 0 } }
    {
        MemSource {
            bytes,
            at: 0,
            piece,
            fails,
            calls: 0,
            faults: 0,
        }
    }
}

impl Source for MemSource {
    ghost left = { λ s. Some s.left };

    ghost faults = { λ s. s.faults };

    fn take(&mut self, into: &mut [u8]) -> Result<usize, Failed>
        ensures bound { ReadsAtMost result into.new }
        ensures bytes { ReadConsumes (Some self.old.left) (Some self.new.left) result into.new }
        ensures cause { HasCause self.old.faults self.new.faults result }
        ensures listed { IsErr result ↔ IsListed self.old.fails self.old.calls }
        ensures short { IfOk result (λ count. count ≤ self.old.piece) }
        ensures calls { self.new.calls ≡ next_count self.old.calls }
        ensures set { (self.new.fails ≡ self.old.fails) × (self.new.piece ≡ self.old.piece) }
    {
        self.calls = self.calls.saturating_add(1);
        if is_listed(self.fails.as_slice(), self.calls) {
            self.faults = self.faults.saturating_add(1);
            return Err(Failed);
        }
        let (_, rest) = self.bytes.as_slice().split_at(self.at);
        let count = give(rest, into, self.piece);
        self.at += count;
        Ok(count)
    }
}

// Copies a front of `rest` into the front of `into`, at most `piece` bytes, and says how many.
fn give(rest: &[u8], into: &mut [u8], piece: usize) -> usize
    requires { 0 < piece }
    ensures short { result ≤ piece }
    ensures room { result ≤ length into.new }
    ensures there { result ≤ length rest.now }
    ensures given { take result into.new ≡ take result rest.now }
    ensures some { result ≡ 0 → 0 < length into.new → rest.now ≡ [] }
{
    let count = piece.min(into.len()).min(rest.len());
    into[..count].copy_from_slice(&rest[..count]);
    count
}
