//! The four parts of a commit.
ghost use Rattle.std.specs.Prelude.{◌≡◌, ◌<◌, ℕ, OnOk, IsTrue, true, false};
ghost use Rattle.std.specs.Option.{ForSome};
ghost use Rattle.edge.specs.Disk.{IsSettled};
ghost use Rattle.edge.specs.Moments.{Step, HasMade};
ghost use Rattle.edge.specs.Faults.{HasCause};
ghost use Rattle.fixpoint.specs.Slots.{gate_of, head_of};
ghost use Rattle.fixpoint.specs.Fixpoints.{IsPlace, HasPages, gate_writes};

use crate::blocks::{sync, write_block};
use crate::head::spell;
use crate::{DiskFault, Image};
use edge::{BLOCKS, Disk};

/// Closes a gate where it is open, and syncs. A gate that is closed is not written: a crash in that write
/// could leave it open.
pub(crate) fn close_gate<D: Disk>(disk: &mut D, gate: u32, was_open: bool) -> Result<(), DiskFault>
    requires { gate < 2 }
    ensures step { ForSome (D.state disk.old) (Step D.state D.moment D.left_since disk.old disk.new
        (λ block. (block ≡ gate) × IsTrue was_open) 0 (gate_writes was_open) 1) }
    ensures settled { OnOk result (ForSome (D.state disk.new) IsSettled) }
    ensures closed { OnOk result (IsTrue was_open → ForSome (D.state disk.new) (λ t. t.content gate ≡ gate_of false)) }
    ensures calls { OnOk result (ForSome (D.state disk.old) (λ s. ForSome (D.state disk.new)
        (HasMade 0 (gate_writes was_open) 1 s))) }
    ensures cause { HasCause (D.faults disk.old) (D.faults disk.new) result }
{
    if !was_open {
        return sync(disk);
    }
    write_block(disk, gate, &[0; 512])?;
    sync(disk)
}

/// Writes the pages to their places, in order.
pub(crate) fn write_pages<D: Disk, I: Image>(disk: &mut D, image: &I) -> Result<(), DiskFault>
    requires high { (k : ℕ) → k < I.count_of image.now → I.place_of image.now k < BLOCKS }
    requires differ { (j k : ℕ) → j < I.count_of image.now → k < I.count_of image.now
        → I.place_of image.now j ≡ I.place_of image.now k → j ≡ k }
    ensures step { ForSome (D.state disk.old) (Step D.state D.moment D.left_since disk.old disk.new
        (IsPlace (I.count_of image.now) (I.place_of image.now)) 0 (I.count_of image.now) 0) }
    ensures pages { OnOk result (ForSome (D.state disk.new)
        (λ t. HasPages (I.count_of image.now) (I.place_of image.now) (I.page_of image.now) t.content)) }
    ensures calls { OnOk result (ForSome (D.state disk.old) (λ s. ForSome (D.state disk.new)
        (HasMade 0 (I.count_of image.now) 0 s))) }
    ensures cause { HasCause (D.faults disk.old) (D.faults disk.new) result }
{
    for k in 0..image.count() {
        let mut page = [0; 512];
        image.page(k, &mut page);
        write_block(disk, image.place(k), &page)?;
    }
    Ok(())
}

/// Writes a head, and syncs it and the pages.
pub(crate) fn write_head<D: Disk>(
    disk: &mut D,
    at: u32,
    sequence: u8,
    root: u32,
) -> Result<(), DiskFault>
    requires { at < 4 }
    ensures step { ForSome (D.state disk.old) (Step D.state D.moment D.left_since disk.old disk.new (λ block. block ≡ at) 0 1 1) }
    ensures settled { OnOk result (ForSome (D.state disk.new) IsSettled) }
    ensures head { OnOk result (ForSome (D.state disk.new) (λ t. t.content at ≡ head_of sequence root)) }
    ensures calls { OnOk result (ForSome (D.state disk.old) (λ s. ForSome (D.state disk.new) (HasMade 0 1 1 s))) }
    ensures cause { HasCause (D.faults disk.old) (D.faults disk.new) result }
{
    write_block(disk, at, &spell(sequence, root))?;
    sync(disk)
}

/// Opens a gate, and syncs.
pub(crate) fn open_gate<D: Disk>(disk: &mut D, gate: u32) -> Result<(), DiskFault>
    requires { gate < 2 }
    ensures step { ForSome (D.state disk.old) (Step D.state D.moment D.left_since disk.old disk.new (λ block. block ≡ gate) 0 1 1) }
    ensures settled { OnOk result (ForSome (D.state disk.new) IsSettled) }
    ensures opened { OnOk result (ForSome (D.state disk.new) (λ t. t.content gate ≡ gate_of true)) }
    ensures calls { OnOk result (ForSome (D.state disk.old) (λ s. ForSome (D.state disk.new) (HasMade 0 1 1 s))) }
    ensures cause { HasCause (D.faults disk.old) (D.faults disk.new) result }
{
    let mut block = [0; 512];
    block[0] = 1;
    write_block(disk, gate, &block)?;
    sync(disk)
}
