//! Where blocks are kept: what a read gives, and what a crash may leave.
ghost use Rattle.std.specs.Prelude.{◌≡◌, ◌<◌, ◌≤◌, ℕ, Option, OnOk, OnErr, IfSome};
ghost use Rattle.std.specs.Option.{option_map};
ghost use Rattle.edge.specs.Disk.{Blocks, DiskState, after_read, after_write, after_sync, after_failed_sync, IsFailedWrite, MayLeave, Elapses};
ghost use Rattle.edge.specs.Faults.{HasCause};

use crate::Failed;

/// The blocks of a disk, of 512 bytes each, 512 megabytes in all. Their numbers are from 0 to one less.
pub const BLOCKS: u32 = 1_048_576;

/// A disk of [`BLOCKS`] blocks, which may fail, and which may lose its power at any moment.
pub trait Disk {
    /// What it holds and how often it was called, where it tells that.
    ghost state: { Self → Option DiskState };

    /// How often it failed; the count stands still at the last value of its counter.
    ghost faults: { Self → ℕ };

    /// The moment, as a number that never falls.
    ghost moment: { Self → ℕ };

    /// The images that a crash may have left at some moment from that one on, during a call or between two.
    ghost left_since: { Self → ℕ → Blocks → Type 0 };

    /// Reads the block of that number.
    fn read(&mut self, at: u32, into: &mut [u8; 512]) -> Result<(), Failed>
        requires { at < BLOCKS }
        ensures bytes { OnOk result (IfSome (state self.old) (λ s. into.new ≡ s.content at)) }
        ensures state { state self.new ≡ option_map after_read (state self.old) }
        ensures time { Elapses (moment self.old) (moment self.new) (left_since self.old) (left_since self.new)
            (MayLeave (state self.new)) }
        ensures cause { HasCause (faults self.old) (faults self.new) result };

    /// Writes the block of that number. Until a sync succeeds a crash may leave any bytes there. A write that fails
    /// leaves the block old or new, and a crash may leave any bytes there too.
    fn write(&mut self, at: u32, from: &[u8; 512]) -> Result<(), Failed>
        requires { at < BLOCKS }
        ensures ok { OnOk result (state self.new ≡ option_map (after_write at from.now) (state self.old)) }
        ensures err { OnErr result (IsFailedWrite at from.now (state self.old) (state self.new)) }
        ensures time { Elapses (moment self.old) (moment self.new) (left_since self.old) (left_since self.new)
            (MayLeave (state self.new)) }
        ensures cause { HasCause (faults self.old) (faults self.new) result };

    /// Makes sure of all blocks written so far: after it a crash leaves what a read gives.
    fn sync(&mut self) -> Result<(), Failed>
        ensures ok { OnOk result (state self.new ≡ option_map after_sync (state self.old)) }
        ensures err { OnErr result (state self.new ≡ option_map after_failed_sync (state self.old)) }
        ensures time { Elapses (moment self.old) (moment self.new) (left_since self.old) (left_since self.new)
            (MayLeave (state self.new)) }
        ensures cause { HasCause (faults self.old) (faults self.new) result };

    /// What a crash may leave now it may have left since any moment before.
    ghost counts_now: { (disk : Self) (t : ℕ) (image : Blocks) → t ≤ moment disk → MayLeave (state disk) image → left_since disk t image };

    /// Since the present moment there is no other.
    ghost only_now: { (disk : Self) (image : Blocks) → left_since disk (moment disk) image → MayLeave (state disk) image };
}
