//! Disks in memory: what they hold, which calls fail, and what a crash leaves.

use crate::calls::answers;
use crate::cells::{cell, number, parts};
use edge::{FuseDisk, MemDisk};
use eu_base::List;
use std::alloc::Global;

/// Scenes: the numbers of the calls that fail, calls of a disk with their answers, what is read after a crash that keeps
/// what was not synced, and after one that loses it. In turn: a block holds what was written last; exactly the listed calls
/// fail; a crash keeps or loses what was not synced; a write that fails has reached the disk; a sync that fails after it
/// makes sure of nothing; one that succeeds makes sure of it too; a second write over it succeeds, or fails too; two blocks.
const SCENES: &str = "\
|w255:1 w3:2 s w3:3 r255=1 r3=3 r4=0|r255=1 r3=3|r255=1 r3=2
2 4 5|w7:1 w7:2=! r7=2 r7=! s=!|r7=2|r7=0
|w5:1 s w5:2 w6:3|r5=2 r6=3|r5=1 r6=0
3|w5:1 s w5:2=! r5=2|r5=2|r5=1
3 4|w5:1 s w5:2=! s=!|r5=2|r5=1
3|w5:1 s w5:2=! s|r5=2|r5=2
3|w5:1 s w5:2=! w5:3|r5=3|r5=1
1 2|w5:1=! w5:2=! r5=2|r5=2|r5=0
2 4|w5:1 w255:2=! s w5:3=!|r5=3 r255=2|r5=1 r255=2";

/// The same behind a fuse: which it is, and what the disk without it answers then, stand behind. It passes a write that fails;
/// it passes so many calls; it fails from the second sync on.
const FUSED: &str = "\
1|w1:1=! r1=1 w1:2=! w2:3=!|r1=1 r2=0|r1=0 r2=0|after 2|r1=1 r2=0
2|w1:1 s=! r1=1 w1:2=! r1=! s=!|r1=1|r1=0|after 3|r1=1
|w1:1 s w1:2 s=! w1:3=! r1=!|r1=2|r1=1|at 2|r1=2";

// A disk whose calls of these numbers fail. Where memory is refused, fewer fail, and the row is not right.
fn disk_with(alloc: Global, fails: &str) -> MemDisk {
    let mut numbers = List::new(alloc);
    for word in fails.split_ascii_whitespace() {
        let _listed = numbers.push(number(word)).is_ok();
    }
    MemDisk::new(alloc, numbers)
}

// What a crash leaves, a second crash leaves too.
fn leaves(disk: &mut MemDisk, keep: bool, row: &str) -> bool {
    let left = cell(row, if keep { 2 } else { 3 });
    disk.crash(keep);
    let first = answers(disk, left);
    disk.crash(!keep);
    first && answers(disk, left)
}

fn is_right(alloc: Global, row: &str, keep: bool) -> bool {
    let mut disk = disk_with(alloc, cell(row, 0));
    let called = answers(&mut disk, cell(row, 1)) && !disk.wanted() && !disk.missed();
    called && leaves(&mut disk, keep, row)
}

fn behind(disk: MemDisk, fuse: &str) -> FuseDisk {
    match parts(fuse, ' ') {
        ("after", calls) => FuseDisk::after(disk, number(calls)),
        _ => FuseDisk::at_sync(disk, 2),
    }
}

fn is_right_fused(alloc: Global, row: &str, keep: bool) -> bool {
    let mut fuse = behind(disk_with(alloc, cell(row, 0)), cell(row, 4));
    let called = answers(&mut fuse, cell(row, 1));
    let mut disk = fuse.into_inner();
    called && answers(&mut disk, cell(row, 5)) && leaves(&mut disk, keep, row)
}

/// How many scenes are right, with either crash.
pub fn right_scenes(alloc: Global) -> usize {
    let mut rows = 0usize;
    for row in SCENES.lines() {
        if is_right(alloc, row, false) && is_right(alloc, row, true) {
            rows = rows.saturating_add(1);
        }
    }
    rows
}

/// How many scenes behind a fuse are right, with either crash.
pub fn right_fused(alloc: Global) -> usize {
    let mut rows = 0usize;
    for row in FUSED.lines() {
        if is_right_fused(alloc, row, false) && is_right_fused(alloc, row, true) {
            rows = rows.saturating_add(1);
        }
    }
    rows
}
