//! The log of a disk in memory.
ghost use Rattle.std.specs.Prelude.{◌≡◌, ◌∷◌, ◌++◌, [], OnOk, OnErr};
ghost use Rattle.edge.specs.Log.{written_at, lost_at, block_after, zeros, mark_last, synced_part};

use crate::log::{Written, find, lose, note, settle};
use crate::trail::{Event, Trail};
use std::alloc::{AllocError, Global};
use std::marker::Model;

/// The writes to a disk in memory. A contract sees all of them, each lost one as a write of the bytes that stood
/// there; memory keeps those that changed something.
#[derive(Drop)]
pub(crate) struct WriteLog {
    kept: Vec<Written>,
    trail: Trail,
}

impl Model for WriteLog {
    ghost use Rattle.std.specs.Prelude.{List};
    ghost use Rattle.edge.specs.declared.log.Written.{Written};

    ghost Value = { List Written };

    ghost use Rattle.edge.specs.Log.{now_of, HoldsSame};

    ghost view = { λ l. l.trail.writes };

    ghost invariant = { λ l. HoldsSame (now_of l.kept.items) (now_of l.trail.writes) };
}

impl WriteLog {
    pub(crate) fn new(alloc: Global) -> WriteLog
        ensures { result ≡ [] }
    {
        WriteLog {
            kept: Vec::new(alloc),
            trail: Trail::new(),
        }
    }

    /// Gives what stands in a block.
    pub(crate) fn find(&self, at: u32, into: &mut [u8; 512])
        ensures { into.new ≡ block_after self.now at zeros }
    {
        find(&self.kept, at, into);
    }

    /// Notes a write. One for which there is no memory is lost.
    pub(crate) fn note(&mut self, at: u32, from: &[u8; 512]) -> Result<(), AllocError>
        ensures ok { OnOk result (self.new ≡ self.old ++ written_at at from.now ∷ []) }
        ensures err { OnErr result (self.new ≡ self.old ++ lost_at self.old at ∷ []) }
    {
        match note(&mut self.kept, at, from) {
            Ok(()) => {
                self.trail = self.trail.then(&Event::Wrote(at, from));
                Ok(())
            }
            Err(error) => {
                self.trail = self.trail.then(&Event::Lost(at));
                Err(error)
            }
        }
    }

    /// Notes a write that was lost. It takes no memory.
    pub(crate) fn note_lost(&mut self, at: u32)
        ensures { self.new ≡ self.old ++ lost_at self.old at ∷ [] }
    {
        self.trail = self.trail.then(&Event::Lost(at));
    }

    /// Notes that a sync follows the last write. It takes no memory.
    pub(crate) fn settle(&mut self)
        ensures { self.new ≡ mark_last self.old }
    {
        settle(&mut self.kept);
        self.trail = self.trail.then(&Event::Synced);
    }

    /// Cuts off the writes that no sync has followed.
    pub(crate) fn lose(&mut self)
        ensures { self.new ≡ synced_part self.old }
    {
        lose(&mut self.kept);
        self.trail = self.trail.then(&Event::Cut);
    }
}
