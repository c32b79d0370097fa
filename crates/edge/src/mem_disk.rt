//! A disk in memory.
ghost use Rattle.std.specs.Prelude.{◌≡◌, [], false, Some, OnOk, OnErr, IsTrue, length};
ghost use Rattle.edge.specs.Disk.{after_read, after_write, after_sync, after_failed_sync, IsFailedWrite, IsImage};
ghost use Rattle.edge.specs.Log.{now_of, past_of, LeftSince, counts_now_of, only_now_of, zeros, mark_last, synced_part};
ghost use Rattle.edge.specs.DisksInMemory.{told_state, lost, Passes, MemReads, MemWrites, MemSyncs};
ghost use Rattle.edge.specs.Faults.{HasCause};

use crate::calls::is_listed;
use crate::write_log::WriteLog;
use crate::{Disk, Failed};
use eu_base::List;
use std::alloc::Global;
use std::marker::Model;

/// A disk in memory, at first all zeros. A call fails where its number, from 1, is listed, and a write for want
/// of memory too. A listed write fails after it reached the disk: the block is new, and a crash may keep or lose
/// it. A write for which there is no memory is lost: the block is as it was, and counts as written too.
#[derive(Drop)]
pub struct MemDisk {
    log: WriteLog,
    fails: List<u32>,
    calls: u64,
    reads: u64,
    writes: u64,
    syncs: u64,
    faults: u64,
    wanted: bool,
    missed: bool,
}

/// How often a disk was read, written and synced, and how often it failed.
#[derive(Clone, Copy)]
pub(crate) struct Counts {
    pub(crate) reads: u64,
    pub(crate) writes: u64,
    pub(crate) syncs: u64,
    pub(crate) faults: u64,
}

impl Model for MemDisk {
    ghost use Rattle.edge.specs.DisksInMemory.{MemDiskState};

    ghost Value = { MemDiskState };

    ghost view = { λ m. record {
      log = m.log;
      fails = m.fails;
      calls = m.calls;
      reads = m.reads;
      writes = m.writes;
      syncs = m.syncs;
      faults = m.faults;
      wanted = m.wanted;
      missed = m.missed;
    } };
}

impl MemDisk {
    /// A disk of zeros, of which the calls with these numbers, from 1, fail.
    pub fn new(alloc: Global, fails: List<u32>) -> MemDisk
        ensures made { result ≡ record {
          log = [];
          fails = fails;
          calls = 0;
          reads = 0;
          writes = 0;
          syncs = 0;
          faults = 0;
          wanted = false;
          missed = false;
        } }
        ensures blank { (told_state result).content ≡ (λ _. zeros) }
    {
        MemDisk {
            log: WriteLog::new(alloc),
            fails,
            calls: 0,
            reads: 0,
            writes: 0,
            syncs: 0,
            faults: 0,
            wanted: false,
            missed: false,
        }
    }

    /// The power goes and comes back. The blocks written since the last successful sync then hold what was
    /// written, where `keep`, and else what they held at that sync. This begins a new life of the disk: its
    /// moments before count no more.
    pub fn crash(&mut self, keep: bool)
        ensures image { IsImage (told_state self.old) (told_state self.new).content }
        ensures kept { IsTrue keep → (told_state self.new).content ≡ (told_state self.old).content }
        ensures lost { keep ≡ false → (told_state self.new).content ≡ (told_state self.old).synced }
        ensures settled { (told_state self.new).written ≡ (λ _. false) }
        ensures synced { (told_state self.new).synced ≡ (told_state self.new).content }
        ensures log { IsTrue keep → self.new.log ≡ mark_last self.old.log }
        ensures cut { keep ≡ false → self.new.log ≡ synced_part self.old.log }
        ensures rest { self.new ≡ record self.old { log = self.new.log } }
    {
        if keep {
            self.log.settle();
        } else {
            self.log.lose();
        }
    }

    /// Whether a write failed for want of memory whose number is not listed.
    pub fn wanted(&self) -> bool
        ensures { result ≡ self.now.wanted }
    {
        self.wanted
    }

    /// Whether a listed write was lost, for want of memory.
    pub fn missed(&self) -> bool
        ensures { result ≡ self.now.missed }
    {
        self.missed
    }

    // A write that never came here is lost: it counts among the writes, and in no other way.
    pub(crate) fn lose_write(&mut self, at: u32)
        ensures { self.new ≡ lost at self.old }
    {
        self.log.note_lost(at);
    }

    pub(crate) fn counts(&self) -> Counts
        ensures { result ≡ record {
          reads = self.now.reads;
          writes = self.now.writes;
          syncs = self.now.syncs;
          faults = self.now.faults;
        } }
    {
        Counts {
            reads: self.reads,
            writes: self.writes,
            syncs: self.syncs,
            faults: self.faults,
        }
    }
}

impl Disk for MemDisk {
    ghost state = { λ m. Some (told_state m) };

    ghost faults = { λ m. m.faults };

    ghost moment = { λ m. length (past_of m.log) };

    ghost left_since = { λ m. LeftSince (past_of m.log) (now_of m.log) };

    ghost counts_now = { λ m t image le now. counts_now_of (past_of m.log) (now_of m.log) t image now };

    ghost only_now = { λ m image left. only_now_of (past_of m.log) (now_of m.log) image left };

    fn read(&mut self, at: u32, into: &mut [u8; 512]) -> Result<(), Failed>
        ensures bytes { OnOk result (into.new ≡ (told_state self.old).content at) }
        ensures state { Some (told_state self.new) ≡ Some (after_read (told_state self.old)) }
        ensures time { Passes self.old self.new }
        ensures cause { HasCause self.old.faults self.new.faults result }
        ensures does { MemReads result self.old self.new }
    {
        self.calls = self.calls.saturating_add(1);
        self.reads = self.reads.saturating_add(1);
        if is_listed(self.fails.as_slice(), self.calls) {
            self.faults = self.faults.saturating_add(1);
            return Err(Failed);
        }
        self.log.find(at, into);
        Ok(())
    }

    fn write(&mut self, at: u32, from: &[u8; 512]) -> Result<(), Failed>
        ensures ok { OnOk result (Some (told_state self.new) ≡ Some (after_write at from.now (told_state self.old))) }
        ensures err { OnErr result (IsFailedWrite at from.now (Some (told_state self.old)) (Some (told_state self.new))) }
        ensures time { Passes self.old self.new }
        ensures cause { HasCause self.old.faults self.new.faults result }
        ensures does { MemWrites at from.now result self.old self.new }
    {
        self.calls = self.calls.saturating_add(1);
        self.writes = self.writes.saturating_add(1);
        if is_listed(self.fails.as_slice(), self.calls) {
            self.faults = self.faults.saturating_add(1);
            return match self.log.note(at, from) {
                Ok(()) => Err(Failed),
                Err(_) => {
                    self.missed = true;
                    Err(Failed)
                }
            };
        }
        match self.log.note(at, from) {
            Ok(()) => Ok(()),
            Err(_) => {
                self.wanted = true;
                self.faults = self.faults.saturating_add(1);
                Err(Failed)
            }
        }
    }

    fn sync(&mut self) -> Result<(), Failed>
        ensures ok { OnOk result (Some (told_state self.new) ≡ Some (after_sync (told_state self.old))) }
        ensures err { OnErr result (Some (told_state self.new) ≡ Some (after_failed_sync (told_state self.old))) }
        ensures time { Passes self.old self.new }
        ensures cause { HasCause self.old.faults self.new.faults result }
        ensures does { MemSyncs result self.old self.new }
    {
        self.calls = self.calls.saturating_add(1);
        self.syncs = self.syncs.saturating_add(1);
        if is_listed(self.fails.as_slice(), self.calls) {
            self.faults = self.faults.saturating_add(1);
            return Err(Failed);
        }
        self.log.settle();
        Ok(())
    }
}
