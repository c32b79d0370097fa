//! Past all blocks, in search of free ones.
ghost use Rattle.std.specs.Prelude.{ℕ, ◌≡◌, ◌≢◌, ◌<◌, length, Err, IfOk, OnOk, MatchOption, IfSome, nat_le};
ghost use Rattle.eu_base.specs.declared.cells.MemFault.TheVariants.{NoMemory};
ghost use Rattle.eu_base.specs.Cells.{HasFaultCause};
ghost use Rattle.text_heap.specs.Blocks.{met, blocks_of, free_in, link_in};
ghost use Rattle.text_heap.specs.Chains.{Filled};

use crate::block::{BLOCKS, PAYLOAD, fill, link};
use eu_base::{MemFault, Space};

// The block that a search meets after so many others. From the last it goes on with block 0.
fn block_met(from: u16, count: u16) -> u16
    requires from { from < BLOCKS }
    requires count { count < BLOCKS }
    ensures { result ≡ met from count }
{
    (from + count) % BLOCKS
}

/// How many blocks are free.
pub fn count_free<S: Space>(space: &mut S) -> Result<u16, MemFault>
    ensures count { IfOk result (λ count. S.known space.old → count ≡ free_in (S.content space.old) 4096) }
    ensures kept { OnOk result (S.content space.new ≡ S.content space.old) }
    ensures memory { result ≢ Err NoMemory }
    ensures cause { HasFaultCause (S.faults space.old) (S.faults space.new) result }
    ensures follows { S.follows space.old space.new }
{
    let mut count = 0;
    for k in 0..BLOCKS {
        if link(space, k)? == 0 {
            count += 1;
        }
    }
    Ok(count)
}

/// The first free block from one on, so that a search for so many can begin there. Where none is wanted or free it is that one.
pub fn first_free<S: Space>(space: &mut S, from: u16, wanted: usize) -> Result<u16, MemFault>
    requires { from < BLOCKS }
    ensures low { IfOk result (λ block. block < BLOCKS) }
    ensures free { IfOk result (λ block. S.known space.old → 0 < wanted → 0 < free_in (S.content space.old) 4096 → link_in (S.content space.old) block ≡ 0) }
    ensures kept { OnOk result (S.content space.new ≡ S.content space.old) }
    ensures memory { result ≢ Err NoMemory }
    ensures cause { HasFaultCause (S.faults space.old) (S.faults space.new) result }
    ensures follows { S.follows space.old space.new }
{
    if wanted == 0 {
        return Ok(from);
    }
    for k in 0..BLOCKS {
        let block = block_met(from, k);
        if link(space, block)? == 0 {
            return Ok(block);
        }
    }
    Ok(from)
}

/// Whether so many blocks are free. It looks from one block on, until enough were seen.
pub fn has_free<S: Space>(space: &mut S, from: u16, wanted: usize) -> Result<bool, MemFault>
    requires { from < BLOCKS }
    ensures has { IfOk result (λ has. S.known space.old → has ≡ nat_le wanted (free_in (S.content space.old) 4096)) }
    ensures kept { OnOk result (S.content space.new ≡ S.content space.old) }
    ensures memory { result ≢ Err NoMemory }
    ensures cause { HasFaultCause (S.faults space.old) (S.faults space.new) result }
    ensures follows { S.follows space.old space.new }
{
    let mut left = wanted;
    for k in 0..BLOCKS {
        if left == 0 {
            return Ok(true);
        }
        if link(space, block_met(from, k))? == 0 {
            left -= 1;
        }
    }
    Ok(left == 0)
}

/// Puts a text into free blocks, from its end to its front, so that each link is known when its block is filled. It answers
/// the first block of the text, which is the last that was filled; `None` where the text has no room.
pub fn spread<S: Space>(space: &mut S, from: u16, t: &[u8]) -> Result<Option<u16>, MemFault>
    requires { from < BLOCKS }
    ensures cells { OnOk result (S.known space.old → (n : ℕ) → n < 131072 → S.content space.new n ≡ S.content space.old n) }
    ensures low { IfOk result (λ made. IfSome made (λ first. first < 4096)) }
    ensures made { IfOk result (λ made. S.known space.old → MatchOption made (free_in (S.content space.old) 4096 < blocks_of (length t.now))
        (λ first. (first < 4096) × Filled (S.content space.old) (S.content space.new) first t.now)) }
    ensures cause { HasFaultCause (S.faults space.old) (S.faults space.new) result }
    ensures follows { S.follows space.old space.new }
{
    let mut next = 0;
    let mut left = t.len();
    for k in 0..BLOCKS {
        if left == 0 {
            return Ok(Some(next));
        }
        let block = block_met(from, k);
        if link(space, block)? == 0 {
            let start = (left - 1) / PAYLOAD * PAYLOAD;
            fill(space, block, next, &t[start..left])?;
            next = block;
            left = start;
        }
    }
    if left > 0 {
        return Ok(None);
    }
    Ok(Some(next))
}
