//! One block of a space.
ghost use Rattle.std.specs.Prelude.{◌≡◌, ◌≢◌, ◌+◌, ◌-◌, ◌*◌, ◌<◌, ◌≤◌, ◌%◌, length, IfOk, OnOk, Err};
ghost use Rattle.eu_base.specs.declared.cells.MemFault.TheVariants.{NoMemory};
ghost use Rattle.eu_base.specs.Cells.{HasFaultCause};
ghost use Rattle.text_heap.specs.Blocks.{block_at, link_in, blocks_of, Frees, Fills};

use eu_base::{MemFault, Space};

/// The number of blocks of a space. They are numbered from 0.
pub const BLOCKS: u16 = 4_096;

/// The bytes of a text in a block.
pub const PAYLOAD: usize = 28;

/// The number of blocks that so many bytes take.
pub fn blocks(length: usize) -> usize
    ensures { result ≡ blocks_of length }
{
    length.div_ceil(PAYLOAD)
}

/// The number of a block's first byte in its space.
pub fn block_at(k: u16) -> u32
    requires { k < BLOCKS }
    ensures { result ≡ block_at k }
{
    131_072 + 32 * u32::from(k)
}

/// The link of a block, 0 where it is free.
pub fn link<S: Space>(space: &mut S, k: u16) -> Result<u16, MemFault>
    requires { k < BLOCKS }
    ensures link { IfOk result (λ link. S.known space.old → link ≡ link_in (S.content space.old) k) }
    ensures kept { OnOk result (S.content space.new ≡ S.content space.old) }
    ensures memory { result ≢ Err NoMemory }
    ensures cause { HasFaultCause (S.faults space.old) (S.faults space.new) result }
    ensures follows { S.follows space.old space.new }
{
    let mut bytes = [0u8; 2];
    space.read(block_at(k), &mut bytes)?;
    Ok(joined(bytes[0], bytes[1]))
}

/// The number of two bytes, the lower one first.
pub fn joined(low: u8, high: u8) -> u16
    ensures { result ≡ low + 256 * high }
{
    u16::from(low) + 256 * u16::from(high)
}

/// The block that a link names. Every link names one.
pub fn next(link: u16) -> u16
    ensures { result ≡ (link - 1) % 4096 }
{
    link.saturating_sub(1) % BLOCKS
}

/// Frees a block.
pub fn free<S: Space>(space: &mut S, k: u16) -> Result<(), MemFault>
    requires { k < BLOCKS }
    ensures frees { OnOk result (S.known space.old → Frees (S.content space.old) (S.content space.new) k) }
    ensures cause { HasFaultCause (S.faults space.old) (S.faults space.new) result }
    ensures follows { S.follows space.old space.new }
{
    space.write(block_at(k), &[0, 0])?;
    Ok(())
}

/// Fills a block with bytes, and links it to the one that follows it in its text.
pub fn fill<S: Space>(space: &mut S, k: u16, next: u16, piece: &[u8]) -> Result<(), MemFault>
    requires block { k < BLOCKS }
    requires next { next < BLOCKS }
    requires few { length piece.now ≤ PAYLOAD }
    ensures fills { OnOk result (S.known space.old → Fills (S.content space.old) (S.content space.new) k next piece.now) }
    ensures cause { HasFaultCause (S.faults space.old) (S.faults space.new) result }
    ensures follows { S.follows space.old space.new }
{
    let link = next + 1;
    space.write(block_at(k), &[(link % 256) as u8, (link / 256) as u8])?;
    space.write(block_at(k) + 4, piece)?;
    Ok(())
}
