//! All writes to a disk in memory, as proofs see them.
ghost use Rattle.std.specs.Prelude.{◌≡◌, List, []};
ghost use Rattle.std.specs.Borrow.{ftrue};
ghost use Rattle.edge.specs.declared.log.Written.{Written};

use std::marker::Model;

/// The writes that were made, lost ones among them, each with whether a sync followed it. It takes no bytes and is
/// read by proofs alone, so a write counts for which there is no memory.
#[derive(Drop)]
pub(crate) struct Trail {
    pub ghost writes: { List Written },
}

/// What becomes of the writes.
#[derive(Clone, Copy)]
pub(crate) enum Event<'a> {
    /// These bytes were written to a block.
    Wrote(u32, &'a [u8; 512]),
    /// A write to a block was lost: the block is as it was.
    Lost(u32),
    /// A sync followed.
    Synced,
    /// The writes that no sync has followed were undone.
    Cut,
}

impl Model for Trail {
    ghost also_owns = { λ _. ftrue };
}

impl Trail {
    ghost use Rattle.edge.specs.Trail.{after_event};

    pub(crate) fn new() -> Trail
        ensures { result.writes ≡ [] }
    {
        Trail {}
    }

    pub(crate) fn then(&self, _event: &Event<'_>) -> Trail
        ensures { result.writes ≡ after_event self.now.writes _event.now }
    {
        Trail {}
    }
}
