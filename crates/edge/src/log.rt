//! The writes to a disk in memory, each with whether a sync followed it.
ghost use Rattle.std.specs.Prelude.{◌≡◌, ◌∷◌, ◌++◌, [], OnOk, OnErr};
ghost use Rattle.edge.specs.Log.{written_at, block_after, zeros, mark_last, synced_part};

use std::alloc::AllocError;

/// The bytes written to a block, and whether a sync followed before the next write.
#[derive(Drop)]
pub struct Written {
    /// The block's number, from 0.
    pub at: u32,
    /// What was written.
    pub bytes: [u8; 512],
    /// Whether a sync followed before the next write.
    pub synced: bool,
}

/// Gives what stands in a block after these writes.
pub(crate) fn find(log: &[Written], at: u32, into: &mut [u8; 512])
    ensures { into.new ≡ block_after log.now at zeros }
{
    *into = [0; 512];
    for write in log {
        if write.at == at {
            into.copy_from_slice(&write.bytes);
        }
    }
}

/// Notes a write that no sync has followed.
pub(crate) fn note(log: &mut Vec<Written>, at: u32, from: &[u8; 512]) -> Result<(), AllocError>
    ensures ok { OnOk result (log.new.items ≡ log.old.items ++ written_at at from.now ∷ []) }
    ensures err { OnErr result (log.new.items ≡ log.old.items) }
{
    let mut bytes = [0; 512];
    bytes.copy_from_slice(from);
    log.push(Written {
        at,
        bytes,
        synced: false,
    })?;
    Ok(())
}

/// Notes that a sync follows the last write. It takes no memory.
pub(crate) fn settle(log: &mut Vec<Written>)
    ensures { log.new.items ≡ mark_last log.old.items }
{
    let length = log.len();
    if length > 0 {
        log[length - 1].synced = true;
    }
}

/// Cuts off the writes that no sync has followed.
pub(crate) fn lose(log: &mut Vec<Written>)
    ensures { log.new.items ≡ synced_part log.old.items }
{
    let mut end = 0;
    for k in 0..log.len() {
        if log[k].synced {
            end = k + 1;
        }
    }
    log.truncate(end);
}
