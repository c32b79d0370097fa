//! A commit that stops at each of its calls.
ghost use Rattle.std.specs.Prelude.{◌<◌};

use crate::image::Pages;
use edge::{Disk, FuseDisk, MemDisk};
use eu_base::List;
use fixpoint::Fix;
use std::alloc::Global;

const FIRST: Pages = Pages {
    from: 4,
    count: 3,
    fill: 1,
};

const SECOND: Pages = Pages {
    from: 524288,
    count: 3,
    fill: 2,
};

const THIRD: Pages = Pages {
    from: 100,
    count: 3,
    fill: 3,
};

// Makes one fixpoint on a disk, or a second one behind it, and says whether that was done.
fn begin(disk: &mut MemDisk, second: bool) -> bool {
    let first = Fix::format(disk, &FIRST).is_ok();
    first && (!second || commits(disk, &SECOND))
}

fn commits<D: Disk>(disk: &mut D, pages: &Pages) -> bool {
    match Fix::recover(disk) {
        Ok(fix) => {
            let mut fix = fix;
            fix.commit(disk, pages).is_ok()
        }
        Err(_) => false,
    }
}

// Whether this fixpoint is recovered, with its pages.
fn keeps(disk: &mut MemDisk, pages: &Pages) -> bool {
    match Fix::recover(disk) {
        Ok(fix) => fix.root() == pages.from && has_pages(disk, pages),
        Err(_) => false,
    }
}

fn has_page(disk: &mut MemDisk, at: u32, fill: u8) -> bool
    requires { at < 1048576 }
{
    let mut block = [0; 512];
    disk.read(at, &mut block).is_ok() && block == [fill; 512]
}

fn has_pages(disk: &mut MemDisk, pages: &Pages) -> bool {
    for k in 0..pages.count {
        if !has_page(disk, pages.from + k, pages.fill) {
            return false;
        }
    }
    true
}

// The fixpoint that a commit of three pages finds.
fn keeps_old(disk: &mut MemDisk, second: bool) -> bool {
    keeps(disk, if second { &SECOND } else { &FIRST })
}

fn empty(alloc: Global) -> MemDisk {
    MemDisk::new(alloc, List::new(alloc))
}

// A disk whose call of that number fails; none fails where memory is refused.
fn failing(alloc: Global, call: u32) -> MemDisk {
    let mut fails = List::new(alloc);
    let _listed = fails.push(call).is_ok();
    MemDisk::new(alloc, fails)
}

// A commit of three pages that stops after so many calls, and a crash: the fixpoint before or the new one is kept. It takes
// eight calls, and one more where an open gate is closed first; three or four reads before them recover the old fixpoint.
fn is_old_or_new(alloc: Global, second: bool, calls: u32, keep: bool) -> bool {
    let mut disk = empty(alloc);
    let begun = begin(&mut disk, second);
    let mut fuse = FuseDisk::after(disk, calls);
    let done = commits(&mut fuse, &THIRD);
    let mut disk = fuse.into_inner();
    disk.crash(keep);
    let new = keeps(&mut disk, &THIRD);
    let old = keeps_old(&mut disk, second);
    let enough = if second { 13 } else { 11 };
    begun && done == (calls >= enough) && (new || old && !done)
}

/// Whether each stop leaves the old fixpoint or the new.
pub fn each_stop_is_right(alloc: Global, second: bool, keep: bool) -> bool {
    let mut right = true;
    for calls in 0..15u32 {
        right = is_old_or_new(alloc, second, calls, keep) && right;
    }
    right
}

// A commit of three pages of which one call fails, and a crash. The number counts all calls of the disk: the commit, and the reads
// before it, make those from 11 to 21, or from 22 to 34 behind a second fixpoint. A write that fails has reached the disk, so the
// new fixpoint is there where the last write or sync fails, and the crash keeps what was written.
fn a_failed_call_leaves_old_or_new(alloc: Global, call: u32, keep: bool) -> bool {
    let mut disk = failing(alloc, call);
    let second = call >= 22;
    let begun = begin(&mut disk, second);
    let failed = !commits(&mut disk, &THIRD);
    disk.crash(keep);
    let gate_written = call >= if second { 33 } else { 20 };
    let right = if keep && gate_written {
        keeps(&mut disk, &THIRD)
    } else {
        keeps_old(&mut disk, second)
    };
    begun && failed && right
}

/// Whether each failed call leaves the old fixpoint or the new.
pub fn each_failed_call_is_right(alloc: Global, keep: bool) -> bool {
    let mut right = true;
    for call in 11..35u32 {
        right = a_failed_call_leaves_old_or_new(alloc, call, keep) && right;
    }
    right
}

// A commit that stops after so many calls, a crash, and another commit.
fn goes_on(alloc: Global, calls: u32) -> bool {
    let mut disk = empty(alloc);
    let begun = begin(&mut disk, false);
    let mut fuse = FuseDisk::after(disk, calls);
    let _stopped = commits(&mut fuse, &SECOND);
    let mut disk = fuse.into_inner();
    disk.crash(calls % 2 == 0);
    let done = commits(&mut disk, &THIRD);
    disk.crash(false);
    begun && done && keeps(&mut disk, &THIRD)
}

/// Whether fixpoints go on after each stop.
pub fn all_go_on(alloc: Global) -> bool {
    let mut right = true;
    for calls in 0..13u32 {
        right = goes_on(alloc, calls) && right;
    }
    right
}

/// Whether each failing call of a disk is told where it gets its first fixpoint.
pub fn each_failed_format_is_told(alloc: Global) -> bool {
    let mut right = true;
    for call in 1..11u32 {
        right = Fix::format(&mut failing(alloc, call), &FIRST).is_err() && right;
    }
    right
}
