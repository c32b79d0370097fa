//! Writes runs of blocks.
ghost use Rattle.std.specs.Prelude.{◌≡◌, ◌+◌, ◌*◌, ◌<◌, ◌≤◌, ◌/◌, ◌%◌, length, OnOk, OnErr};
ghost use Rattle.std.specs.Option.{option_map, ForSome};
ghost use Rattle.edge.specs.Moments.{Step};
ghost use Rattle.edge.specs.Faults.{HasCause};
ghost use Rattle.block_disk.specs.Runs.{blocks_in, IsInRun, HoldsRun, after_writes, IsFailedRun};

use edge::{BLOCKS, Disk, Failed};

/// Writes these bytes, which are whole blocks, to the blocks from that number on. It stops at the first write
/// that fails.
pub fn write_run<D: Disk>(disk: &mut D, at: u32, from: &[u8]) -> Result<(), Failed>
    requires whole { length from.now % 512 ≡ 0 }
    requires within { at + blocks_in from.now ≤ BLOCKS }
    ensures ok { OnOk result (D.state disk.new ≡ option_map (after_writes (blocks_in from.now) at from.now) (D.state disk.old)) }
    ensures err { OnErr result (IsFailedRun (blocks_in from.now) at from.now (D.state disk.old) (D.state disk.new)) }
    ensures bytes { OnOk result (ForSome (D.state disk.new) (λ s. HoldsRun s.content at (blocks_in from.now) from.now)) }
    ensures step { ForSome (D.state disk.old) (Step D.state D.moment D.left_since disk.old disk.new
        (IsInRun at (blocks_in from.now)) 0 (blocks_in from.now) 0) }
    ensures cause { HasCause (D.faults disk.old) (D.faults disk.new) result }
{
    let count = from.len() / 512;
    for k in 0..count {
        let mut block = [0; 512];
        block.copy_from_slice(&from[512 * k..512 * k + 512]);
        disk.write(at + k as u32, &block)?;
    }
    Ok(())
}
