//! Which slot of a disk is taken.
ghost use Rattle.std.specs.Prelude.{◌≡◌, ◌≤◌, ◌<◌, ◌-◌, ℕ, OnOk, IfOk, IfSome, IfNone, IsErrOf};
ghost use Rattle.std.specs.Option.{ForSome};
ghost use Rattle.edge.specs.Disk.{Blocks, IsSettled, Tells};
ghost use Rattle.edge.specs.Moments.{Step, Nowhere};
ghost use Rattle.edge.specs.Faults.{HasCause};
ghost use Rattle.eu_base.specs.Faults.{Rose};
ghost use Rattle.fixpoint.specs.Slots.{IsTaken, IsForeign};
ghost use Rattle.fixpoint.specs.Fixpoints.{Holds, Fits};
ghost use Rattle.fixpoint.specs.Found.{IsFound};

use crate::blocks::read_block;
use crate::fix::{Fix, next};
use crate::head::{Head, parse};
use crate::{DiskFault, RecoverError};
use edge::Disk;

/// What stands in a slot: a closed gate, an open one with no head behind it, or with this head.
#[derive(Drop)]
pub(crate) enum Found {
    Closed,
    Headless,
    Headed(Head),
}

fn read_slot<D: Disk>(disk: &mut D, slot: u32) -> Result<Found, DiskFault>
    requires { slot < 2 }
    ensures found { IfOk result (λ found. ForSome (D.state disk.old) (λ s. IsFound s.content slot found)) }
    ensures step { ForSome (D.state disk.old) (Step D.state D.moment D.left_since disk.old disk.new Nowhere 2 0 0) }
    ensures cause { HasCause (D.faults disk.old) (D.faults disk.new) result }
{
    let mut block = [0; 512];
    read_block(disk, slot, &mut block)?;
    if block[0] != 1 {
        return Ok(Found::Closed);
    }
    read_block(disk, 2 + slot, &mut block)?;
    match parse(&block) {
        Some(head) => Ok(Found::Headed(head)),
        None => Ok(Found::Headless),
    }
}

fn choose(first: Found, second: Found) -> Option<Fix>
    ensures some { IfSome result (λ fix. (content : Blocks) → IsFound content 0 first → IsFound content 1 second → Holds fix content) }
    ensures none { IfNone result ((content : Blocks) → IsFound content 0 first → IsFound content 1 second → IsForeign content) }
{
    match (first, second) {
        (Found::Headed(head), Found::Closed) => Some(Fix::of(0, &head, false)),
        (Found::Closed, Found::Headed(head)) => Some(Fix::of(1, &head, false)),
        (Found::Headed(a), Found::Headed(b)) => {
            if a.sequence == b.sequence {
                None
            } else if a.sequence == next(b.sequence) {
                Some(Fix::of(0, &a, true))
            } else {
                Some(Fix::of(1, &b, true))
            }
        }
        _ => None,
    }
}

impl Fix {
    /// Finds the fixpoint that the disk holds: the open slot, or the newer one where both are open. It writes
    /// nothing.
    pub fn recover<D: Disk>(disk: &mut D) -> Result<Fix, RecoverError>
        ensures ok { IfOk result (λ fix. ForSome (D.state disk.old) (λ s. Holds fix s.content)) }
        // A content has one slot, sequence and root that are taken.
        ensures only { IfOk result (λ fix. ForSome (D.state disk.old) (λ s.
            (slot sequence root : ℕ) → IsTaken s.content slot sequence root
            → (slot ≡ fix.slot) × (sequence ≡ fix.sequence) × (root ≡ fix.root))) }
        // A disk with nothing left to sync is ready for a commit.
        ensures fits { IfOk result (λ fix. ForSome (D.state disk.old) (λ s. IsSettled s → Tells (D.state disk.new) (Fits fix))) }
        ensures foreign { IsErrOf result RecoverError.Foreign → ForSome (D.state disk.old) (λ s. IsForeign s.content) }
        ensures not_foreign { OnOk result (ForSome (D.state disk.old) (λ s. ¬ (IsForeign s.content))) }
        ensures none { IsErrOf result RecoverError.Foreign → ForSome (D.state disk.old) (λ s.
            (slot sequence root : ℕ) → ¬ (IsTaken s.content slot sequence root)) }
        ensures fault { IsErrOf result RecoverError.DiskFault → Rose (D.faults disk.old) (D.faults disk.new) }
        ensures later { D.faults disk.old ≤ D.faults disk.new }
        ensures step { ForSome (D.state disk.old) (Step D.state D.moment D.left_since disk.old disk.new Nowhere 4 0 0) }
    {
        let Ok(first) = read_slot(disk, 0) else {
            return Err(RecoverError::DiskFault);
        };
        let Ok(second) = read_slot(disk, 1) else {
            return Err(RecoverError::DiskFault);
        };
        match choose(first, second) {
            Some(fix) => Ok(fix),
            None => Err(RecoverError::Foreign),
        }
    }
}
