//! Single blocks of a disk.
ghost use Rattle.std.specs.Prelude.{◌≡◌, ◌<◌, OnOk};
ghost use Rattle.std.specs.Option.{option_map, ForSome};
ghost use Rattle.edge.specs.Disk.{after_write, after_sync, IsSettled};
ghost use Rattle.edge.specs.Moments.{Step, Nowhere};
ghost use Rattle.edge.specs.Faults.{HasCause};

use crate::DiskFault;
use block_disk::{read_run, write_run};
use edge::{BLOCKS, Disk};

pub(crate) fn read_block<D: Disk>(
    disk: &mut D,
    at: u32,
    into: &mut [u8; 512],
) -> Result<(), DiskFault>
    requires { at < BLOCKS }
    ensures bytes { OnOk result (ForSome (D.state disk.old) (λ s. into.new ≡ s.content at)) }
    ensures step { ForSome (D.state disk.old) (Step D.state D.moment D.left_since disk.old disk.new Nowhere 1 0 0) }
    ensures cause { HasCause (D.faults disk.old) (D.faults disk.new) result }
{
    read_run(disk, at, into)?;
    Ok(())
}

pub(crate) fn write_block<D: Disk>(disk: &mut D, at: u32, from: &[u8; 512]) -> Result<(), DiskFault>
    requires { at < BLOCKS }
    ensures ok { OnOk result (D.state disk.new ≡ option_map (after_write at from.now) (D.state disk.old)) }
    ensures step { ForSome (D.state disk.old) (Step D.state D.moment D.left_since disk.old disk.new (λ block. block ≡ at) 0 1 0) }
    ensures cause { HasCause (D.faults disk.old) (D.faults disk.new) result }
{
    write_run(disk, at, from)?;
    Ok(())
}

pub(crate) fn sync<D: Disk>(disk: &mut D) -> Result<(), DiskFault>
    ensures ok { OnOk result (D.state disk.new ≡ option_map after_sync (D.state disk.old)) }
    ensures settled { OnOk result (ForSome (D.state disk.new) IsSettled) }
    ensures step { ForSome (D.state disk.old) (Step D.state D.moment D.left_since disk.old disk.new Nowhere 0 0 1) }
    ensures cause { HasCause (D.faults disk.old) (D.faults disk.new) result }
{
    disk.sync()?;
    Ok(())
}
