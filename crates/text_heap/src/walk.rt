//! Along the links of a text, from its first block on.
ghost use Rattle.std.specs.Prelude.{◌≡◌, ◌≢◌, ◌+◌, ◌<◌, ◌≤◌, ◌++◌, IfOk, OnOk};
ghost use Rattle.eu_base.specs.Cells.{HasFaultCause};
ghost use Rattle.text_heap.specs.Blocks.{block_at, bytes_from, blocks_of, gather};
ghost use Rattle.text_heap.specs.Chains.{Releases};

use crate::block::{BLOCKS, PAYLOAD, block_at, free, link, next};
use eu_base::{Bytes, MemFault, Space};
use std::alloc::Global;

/// The bytes of a text of this length.
pub fn collect<S: Space>(
    alloc: Global,
    space: &mut S,
    first: u16,
    length: usize,
) -> Result<Bytes, MemFault>
    requires { first < BLOCKS }
    ensures text { IfOk result (λ text. S.known space.old → text ≡ gather (S.content space.old) first length (blocks_of length)) }
    ensures kept { OnOk result (S.content space.new ≡ S.content space.old) }
    ensures cause { HasFaultCause (S.faults space.old) (S.faults space.new) result }
    ensures follows { S.follows space.old space.new }
{
    let mut text = Bytes::new(alloc);
    let mut block = first;
    let mut left = length;
    while left > 0 {
        let size = left.min(PAYLOAD);
        read_piece(space, block, size, &mut text)?;
        block = next(link(space, block)?);
        left -= size;
    }
    Ok(text)
}

// Appends the first bytes of a block.
fn read_piece<S: Space>(
    space: &mut S,
    block: u16,
    size: usize,
    text: &mut Bytes,
) -> Result<(), MemFault>
    requires block { block < BLOCKS }
    requires few { size ≤ PAYLOAD }
    ensures text { OnOk result (S.known space.old → text.new ≡ text.old ++ bytes_from (S.content space.old) (block_at block + 4) size) }
    ensures kept { OnOk result (S.content space.new ≡ S.content space.old) }
    ensures cause { HasFaultCause (S.faults space.old) (S.faults space.new) result }
    ensures follows { S.follows space.old space.new }
{
    let mut bytes = [0u8; PAYLOAD];
    let piece = &mut bytes[..size];
    space.read(block_at(block) + 4, piece)?;
    text.append(piece)?;
    Ok(())
}

/// Frees so many blocks. It answers the lowest of them, or the hint where that is lower still.
pub fn release<S: Space>(
    space: &mut S,
    first: u16,
    count: usize,
    hint: u16,
) -> Result<u16, MemFault>
    requires first { first < BLOCKS }
    requires hint { hint < BLOCKS }
    ensures lowest { IfOk result (λ lowest. lowest < BLOCKS) }
    ensures releases { OnOk result (S.known space.old → Releases (S.content space.old) (S.content space.new) first count) }
    ensures cause { HasFaultCause (S.faults space.old) (S.faults space.new) result }
    ensures follows { S.follows space.old space.new }
{
    let mut block = first;
    let mut lowest = hint;
    for done in 0..count {
        let link = link(space, block)?;
        free(space, block)?;
        lowest = lowest.min(block);
        block = next(link);
    }
    Ok(lowest)
}
