//! A disk that fails from some call on, as at a crash there.
ghost use Rattle.std.specs.Prelude.{◌≡◌, ◌<◌, ◌≤◌, ◌-◌, ◌↔◌, None, Some, OnOk, OnErr, IsErr, IsTrue, length};
ghost use Rattle.edge.specs.Disk.{Blocks, after_read, after_write, after_sync, after_failed_sync, IsFailedWrite, IsImage};
ghost use Rattle.edge.specs.Log.{now_of, past_of, LeftSince, counts_now_of, only_now_of};
ghost use Rattle.edge.specs.DisksInMemory.{told_state, told_by_fuse, lost, Passes, MemReads, MemWrites, MemSyncs, IsSpent, one_less};
ghost use Rattle.edge.specs.Faults.{HasCause};

use crate::mem_disk::Counts;
use crate::{Disk, Failed, MemDisk};
use std::marker::Model;

/// A disk in memory behind a fuse. It passes so many calls, or all calls before some sync, and then fails
/// every call. A call that it refuses doesn't reach the disk in memory; a write that it refuses is lost, and the
/// block counts as written.
#[derive(Drop)]
pub struct FuseDisk {
    disk: MemDisk,
    calls_left: Option<u32>,
    syncs_left: Option<u32>,
    counts: Counts,
}

impl Model for FuseDisk {
    ghost use Rattle.edge.specs.DisksInMemory.{FuseDiskState};

    ghost Value = { FuseDiskState };

    ghost view = { λ f. record {
      disk = f.disk;
      calls_left = f.calls_left;
      syncs_left = f.syncs_left;
      reads = f.counts.reads;
      writes = f.counts.writes;
      syncs = f.counts.syncs;
      faults = f.counts.faults;
    } };
}

impl FuseDisk {
    /// Passes so many calls.
    pub fn after(disk: MemDisk, calls: u32) -> FuseDisk
        ensures { result ≡ record {
          disk = disk;
          calls_left = Some calls;
          syncs_left = None;
          reads = disk.reads;
          writes = disk.writes;
          syncs = disk.syncs;
          faults = disk.faults;
        } }
    {
        let counts = disk.counts();
        FuseDisk {
            disk,
            calls_left: Some(calls),
            syncs_left: None,
            counts,
        }
    }

    /// Fails from the m-th sync on.
    pub fn at_sync(disk: MemDisk, m: u32) -> FuseDisk
        requires { 1 ≤ m }
        ensures { result ≡ record {
          disk = disk;
          calls_left = None;
          syncs_left = Some (m - 1);
          reads = disk.reads;
          writes = disk.writes;
          syncs = disk.syncs;
          faults = disk.faults;
        } }
    {
        let counts = disk.counts();
        FuseDisk {
            disk,
            calls_left: None,
            syncs_left: Some(m - 1),
            counts,
        }
    }

    /// The disk behind the fuse. What a crash may leave of it, it may have left behind the fuse.
    pub fn into_inner(self) -> MemDisk
        ensures disk { result ≡ self.disk }
        ensures images { (image : Blocks) → IsImage (told_state result) image → IsImage (told_by_fuse self) image }
    {
        let FuseDisk {
            disk,
            calls_left: _,
            syncs_left: _,
            counts: _,
        } = self;
        disk
    }
}

// One more call, where they are counted; whether none was left for it.
fn is_refused(left: &mut Option<u32>) -> bool
    ensures spent { IsTrue result ↔ IsSpent left.old }
    ensures left { left.new ≡ one_less left.old }
{
    match *left {
        None => false,
        Some(0) => true,
        Some(calls) => {
            *left = Some(calls - 1);
            false
        }
    }
}

impl Disk for FuseDisk {
    ghost state = { λ f. Some (told_by_fuse f) };

    ghost faults = { λ f. f.faults };

    ghost moment = { λ f. length (past_of f.disk.log) };

    ghost left_since = { λ f. LeftSince (past_of f.disk.log) (now_of f.disk.log) };

    ghost counts_now = { λ f t image le now. counts_now_of (past_of f.disk.log) (now_of f.disk.log) t image now };

    ghost only_now = { λ f image left. only_now_of (past_of f.disk.log) (now_of f.disk.log) image left };

    fn read(&mut self, at: u32, into: &mut [u8; 512]) -> Result<(), Failed>
        ensures bytes { OnOk result (into.new ≡ (told_by_fuse self.old).content at) }
        ensures state { Some (told_by_fuse self.new) ≡ Some (after_read (told_by_fuse self.old)) }
        ensures time { Passes self.old.disk self.new.disk }
        ensures cause { HasCause self.old.faults self.new.faults result }
        ensures refused { IsSpent self.old.calls_left → IsErr result × (self.new.disk ≡ self.old.disk) }
        ensures passed { ¬ (IsSpent self.old.calls_left) → MemReads result self.old.disk self.new.disk }
        ensures left { (self.new.calls_left ≡ one_less self.old.calls_left) × (self.new.syncs_left ≡ self.old.syncs_left) }
    {
        self.counts.reads = self.counts.reads.saturating_add(1);
        if is_refused(&mut self.calls_left) {
            self.counts.faults = self.counts.faults.saturating_add(1);
            return Err(Failed);
        }
        match self.disk.read(at, into) {
            Ok(()) => Ok(()),
            Err(failed) => {
                self.counts.faults = self.counts.faults.saturating_add(1);
                Err(failed)
            }
        }
    }

    fn write(&mut self, at: u32, from: &[u8; 512]) -> Result<(), Failed>
        ensures ok { OnOk result (Some (told_by_fuse self.new) ≡ Some (after_write at from.now (told_by_fuse self.old))) }
        ensures err { OnErr result (IsFailedWrite at from.now (Some (told_by_fuse self.old)) (Some (told_by_fuse self.new))) }
        ensures time { Passes self.old.disk self.new.disk }
        ensures cause { HasCause self.old.faults self.new.faults result }
        ensures refused { IsSpent self.old.calls_left → IsErr result × (self.new.disk ≡ lost at self.old.disk) }
        ensures passed { ¬ (IsSpent self.old.calls_left) → MemWrites at from.now result self.old.disk self.new.disk }
        ensures left { (self.new.calls_left ≡ one_less self.old.calls_left) × (self.new.syncs_left ≡ self.old.syncs_left) }
    {
        self.counts.writes = self.counts.writes.saturating_add(1);
        if is_refused(&mut self.calls_left) {
            self.disk.lose_write(at);
            self.counts.faults = self.counts.faults.saturating_add(1);
            return Err(Failed);
        }
        match self.disk.write(at, from) {
            Ok(()) => Ok(()),
            Err(failed) => {
                self.counts.faults = self.counts.faults.saturating_add(1);
                Err(failed)
            }
        }
    }

    fn sync(&mut self) -> Result<(), Failed>
        ensures ok { OnOk result (Some (told_by_fuse self.new) ≡ Some (after_sync (told_by_fuse self.old))) }
        ensures err { OnErr result (Some (told_by_fuse self.new) ≡ Some (after_failed_sync (told_by_fuse self.old))) }
        ensures time { Passes self.old.disk self.new.disk }
        ensures cause { HasCause self.old.faults self.new.faults result }
        ensures refused { IsSpent self.old.calls_left → IsErr result × (self.new ≡ record self.new {
          disk = self.old.disk;
          calls_left = Some 0;
          syncs_left = self.old.syncs_left;
        }) }
        ensures blows { ¬ (IsSpent self.old.calls_left) → IsSpent self.old.syncs_left → IsErr result
            × (self.new ≡ record self.new { disk = self.old.disk; calls_left = Some 0; syncs_left = Some 0 }) }
        ensures passed { ¬ (IsSpent self.old.calls_left) → ¬ (IsSpent self.old.syncs_left) → MemSyncs result self.old.disk self.new.disk
            × (self.new.calls_left ≡ one_less self.old.calls_left) × (self.new.syncs_left ≡ one_less self.old.syncs_left) }
    {
        self.counts.syncs = self.counts.syncs.saturating_add(1);
        if is_refused(&mut self.calls_left) {
            self.counts.faults = self.counts.faults.saturating_add(1);
            return Err(Failed);
        }
        if is_refused(&mut self.syncs_left) {
            self.calls_left = Some(0);
            self.counts.faults = self.counts.faults.saturating_add(1);
            return Err(Failed);
        }
        match self.disk.sync() {
            Ok(()) => Ok(()),
            Err(failed) => {
                self.counts.faults = self.counts.faults.saturating_add(1);
                Err(failed)
            }
        }
    }
}
