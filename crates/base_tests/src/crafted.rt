//! Contents of gates and heads, and what is recovered of them.

use crate::cells::{cell, number};
use edge::{Disk, MemDisk};
use eu_base::List;
use fixpoint::{Fix, RecoverError};
use std::alloc::Global;

/// The gates of both slots, their heads, and the root that is recovered; 0 for a foreign disk. `~` stands for a byte 255, and what
/// follows the bytes of a block is zeros. In turn: zeros, and closed gates before good heads; one open gate; gates whose
/// other bytes are torn; both gates open, where 2 is newer than 1, 3 newer than 2, and 1 newer than 3; an open slot without
/// a head, which is the newer one, the older one, or the only one; roots from block 4 to the last one.
const CASES: &str = "\
||||0
\x00|\x02|EUMELSYS\x01\x01\x04|EUMELSYS\x01\x02\x05|0
\x01||EUMELSYS\x01\x01\x04||4
|\x01||EUMELSYS\x01\x03\x07|7
\x01ABC|~ABC|EUMELSYS\x01\x01\x04|ABC|4
\x00ABC|\x01ABC|ABC|EUMELSYS\x01\x01\x04|4
\x01|\x01|EUMELSYS\x01\x01\x04|EUMELSYS\x01\x02\x05|5
\x01|\x01|EUMELSYS\x01\x02\x04|EUMELSYS\x01\x01\x05|4
\x01|\x01|EUMELSYS\x01\x02\x04|EUMELSYS\x01\x03\x05|5
\x01|\x01|EUMELSYS\x01\x03\x04|EUMELSYS\x01\x01\x05|5
\x01|\x01|EUMELSYS\x01\x01\x04|EUMELSYS\x01\x03\x05|4
\x01|\x01|EUMELSYS\x01\x02\x04|EUMELSYS\x01\x02\x05|0
\x01|\x01|EUMELSYS\x01\x01\x04|EUMELSYT\x01\x02\x05|0
\x01|\x01|EUMELSYS\x02\x01\x04|EUMELSYS\x01\x02\x05|0
\x01||EUMELSYS\x01\x00\x04|EUMELSYS\x01\x02\x05|0
\x01||EUMELSYS\x01\x04\x04||0
\x01||EUMELSYS\x01\x01\x04\x00\x00\x00\x00\x01||0
\x01||EUMELSYS\x01\x01\x03||0
\x01||EUMELSYS\x01\x01~~\x0f||1048575
\x01||EUMELSYS\x01\x01\x00\x00\x10||0";

// Writes a block that begins with these bytes.
fn craft(disk: &mut MemDisk, at: u8, front: &str) -> bool {
    let mut block = [0; 512];
    let mut place = 0usize;
    for given in front.as_bytes() {
        if let Some(byte) = block.get_mut(place) {
            *byte = if *given == b'~' { 255 } else { *given };
        }
        place = place.saturating_add(1);
    }
    disk.write(u32::from(at), &block).is_ok()
}

// The gates and heads of both slots.
fn craft_all(disk: &mut MemDisk, row: &str) -> bool {
    let gates = craft(disk, 0, cell(row, 0)) && craft(disk, 1, cell(row, 1));
    gates && craft(disk, 2, cell(row, 2)) && craft(disk, 3, cell(row, 3))
}

// The root that is recovered; 0 for a foreign disk, and 1 for one that fails.
fn root_of(disk: &mut MemDisk) -> u32 {
    match Fix::recover(disk) {
        Ok(fix) => fix.root(),
        Err(RecoverError::Foreign) => 0,
        Err(RecoverError::DiskFault) => 1,
    }
}

fn is_right(alloc: Global, row: &str) -> bool {
    let mut disk = MemDisk::new(alloc, List::new(alloc));
    craft_all(&mut disk, row) && root_of(&mut disk) == number(cell(row, 4))
}

/// How many cases are right.
pub fn right_cases(alloc: Global) -> usize {
    let mut rows = 0usize;
    for row in CASES.lines() {
        if is_right(alloc, row) {
            rows = rows.saturating_add(1);
        }
    }
    rows
}

/// Whether an empty disk whose call of that number fails is not foreign.
pub fn is_not_foreign(alloc: Global, call: u32) -> bool {
    let mut fails = List::new(alloc);
    let listed = fails.push(call).is_ok();
    listed && root_of(&mut MemDisk::new(alloc, fails)) == 1
}
