//! Reads runs of blocks.
ghost use Rattle.std.specs.Prelude.{◌≡◌, ◌+◌, ◌*◌, ◌<◌, ◌≤◌, ◌/◌, ◌%◌, ℕ, length, OnOk, OnErr};
ghost use Rattle.std.specs.Option.{option_map, ForSome};
ghost use Rattle.edge.specs.Moments.{Nowhere, Step};
ghost use Rattle.edge.specs.Faults.{HasCause};
ghost use Rattle.block_disk.specs.Runs.{blocks_in, block_of, HoldsRun, after_reads, IsFailedRead};

use edge::{BLOCKS, Disk, Failed};

/// Reads the blocks from that number on into `into`, which has room for whole blocks. It stops at the first
/// read that fails.
pub fn read_run<D: Disk>(disk: &mut D, at: u32, into: &mut [u8]) -> Result<(), Failed>
    requires whole { length into.old % 512 ≡ 0 }
    requires within { at + blocks_in into.old ≤ BLOCKS }
    ensures length { length into.new ≡ length into.old }
    ensures bytes { OnOk result (ForSome (D.state disk.old) (λ s. HoldsRun s.content at (blocks_in into.old) into.new)) }
    ensures ok { OnOk result (D.state disk.new ≡ option_map (after_reads (blocks_in into.old)) (D.state disk.old)) }
    ensures err { OnErr result (IsFailedRead (blocks_in into.old) (D.state disk.old) (D.state disk.new)) }
    ensures step { ForSome (D.state disk.old) (Step D.state D.moment D.left_since disk.old disk.new Nowhere (blocks_in into.old) 0 0) }
    ensures cause { HasCause (D.faults disk.old) (D.faults disk.new) result }
{
    let count = into.len() / 512;
    for k in 0..count {
        let mut block = [0; 512];
        disk.read(at + k as u32, &mut block)?;
        put_block(into, k, &block);
    }
    Ok(())
}

// Puts a block at its place among others.
fn put_block(into: &mut [u8], k: usize, block: &[u8; 512])
    requires { 512 * k + 512 ≤ length into.old }
    ensures length { length into.new ≡ length into.old }
    ensures there { block_of k into.new ≡ block.now }
    ensures others { (j : ℕ) → j < k → block_of j into.new ≡ block_of j into.old }
{
    into[512 * k..512 * k + 512].copy_from_slice(block);
}
