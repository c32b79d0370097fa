//! Calls of a disk, and what they answer.
ghost use Rattle.std.specs.Prelude.{◌<◌};

use crate::cells::{number, parts};
use edge::Disk;

/// A call that failed; a read answers the first byte of the block, and other calls 0.
const FAULT: u32 = 999;

/// Blocks are numbered from 0, and 255 stands for the last one of the disk.
fn block_at(word: &str) -> u32
    ensures { result < 1048576 }
{
    let at = number(word);
    if at < 255 { at } else { 1048575 }
}

fn read<D: Disk>(disk: &mut D, at: &str) -> u32 {
    let mut block = [9; 512];
    match disk.read(block_at(at), &mut block) {
        Ok(()) => u32::from(block[0]),
        Err(_) => FAULT,
    }
}

fn write<D: Disk>(disk: &mut D, at: &str, fill: u32) -> u32 {
    match disk.write(block_at(at), &[(fill % 256) as u8; 512]) {
        Ok(()) => 0,
        Err(_) => FAULT,
    }
}

fn sync<D: Disk>(disk: &mut D) -> u32 {
    match disk.sync() {
        Ok(()) => 0,
        Err(_) => FAULT,
    }
}

fn answer<D: Disk>(disk: &mut D, call: &str) -> u32 {
    let (call, fill) = parts(call, ':');
    let (front, at) = call.split_at_checked(1).unwrap_or(("", ""));
    match front {
        "r" => read(disk, at),
        "w" => write(disk, at, number(fill)),
        _ => sync(disk),
    }
}

fn is_right<D: Disk>(disk: &mut D, word: &str) -> bool {
    let (call, told) = parts(word, '=');
    answer(disk, call) == if told == "!" { FAULT } else { number(told) }
}

/// Whether calls, in order, answer so: `r5=2` reads block 5, whose first byte is 2; `w`, a block, a colon and a byte write that
/// byte to each place of the block; `s` is a sync; `=!` stands behind a call that fails.
pub fn answers<D: Disk>(disk: &mut D, calls: &str) -> bool {
    for word in calls.split(' ') {
        if !is_right(disk, word) {
            return false;
        }
    }
    true
}
