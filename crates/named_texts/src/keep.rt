//! A text that is kept under a name.
ghost use Rattle.std.specs.Prelude.{◌≡◌, ◌+◌, ◌<◌, ◌≤◌, ◌∷◌, length, None, OnOk, OnErr};
ghost use Rattle.std.specs.List.{All};
ghost use Rattle.eu_base.specs.Cells.{HasFaultCause};
ghost use Rattle.page_pool.specs.Pool.{Tell, Backed};
ghost use Rattle.named_texts.specs.Below.page_table.specs.Frames.{over, Frames, Stands};
ghost use Rattle.space_memory.specs.Kept.{KeepsBytes};
ghost use Rattle.named_texts.specs.Below.space_names.specs.Directory as directory;
ghost use Rattle.space_memory.specs.Memories.{roots, with_new};
ghost use Rattle.named_texts.specs.Texts.{KeepsText, named_last, without_named};

use data_space::DataSpace;
use eu_base::{Bytes, MemFault, NoMemory};
use page_pool::{Backing, Pool};
use source_texts::{LONGEST_LINE, MOST_LINES, write_source};
use space_memory::{MOST_LIVE, SpaceMemory};
use std::alloc::Global;

/// A text of these lines becomes the last space, and its name the last of the directory. An older space of that name is forgotten
/// first. Where memory is wanting, the older space may be gone, and the text may stand there without a name.
pub fn keep_text<B: Backing>(
    alloc: Global,
    memory: &mut SpaceMemory,
    pool: &mut Pool,
    name: &[u8],
    lines: &[Bytes],
    backing: &mut B,
) -> Result<(), MemFault>
    requires few { length lines.now ≤ MOST_LINES }
    requires short { All (λ line. length line ≤ LONGEST_LINE) lines.now }
    requires room { directory.get name.now memory.old.names ≡ None → length memory.old.spaces < MOST_LIVE }
    requires left { memory.old.last < 4294967295 }
    requires agree { Stands pool.old (roots memory.old) 1 }
    requires backed { Backed (B.holds backing.old) pool.old }
    ensures kept { OnOk result (KeepsText (over pool.old (B.tells backing.old)) (over pool.new (B.tells backing.new)) memory.old memory.new name.now lines.now) }
    ensures frames { OnOk result (Frames (over pool.old (B.tells backing.old)) (over pool.new (B.tells backing.new)) (roots memory.old) (roots memory.new)) }
    ensures back { OnErr result (Frames (over pool.old (B.tells backing.old)) (over pool.new (B.tells backing.new)) (None ∷ roots memory.old) (roots memory.new)) }
    ensures more { length (roots memory.new) ≤ length (roots memory.old) + 1 }
    ensures cause { HasFaultCause (B.faults backing.old) (B.faults backing.new) result }
    ensures follows { B.follows backing.old backing.new }
{
    forget_named(memory, pool, name);
    // No two names are alike, so the name is free now; but a memory says of no name that it stands there once.
    if memory.named(name).is_some() {
        return Err(MemFault::NoMemory);
    }
    let space = write_source(alloc, pool, lines, backing)?;
    give_named(memory, pool, name, space)?;
    Ok(())
}

// Forgets the space under a name; where the name is free, nothing changes.
fn forget_named(memory: &mut SpaceMemory, pool: &mut Pool, name: &[u8])
    requires room { directory.get name.now memory.old.names ≡ None → length memory.old.spaces < MOST_LIVE }
    requires agree { Stands pool.old (roots memory.old) 0 }
    ensures gone { memory.new ≡ without_named (directory.get name.now memory.old.names) memory.old }
    ensures room { length memory.new.spaces < MOST_LIVE }
    ensures last { memory.new.last ≡ memory.old.last }
    ensures fewer { length (roots memory.new) ≤ length (roots memory.old) }
    ensures frames { (tell : Tell) → Frames (over pool.old tell) (over pool.new tell) (roots memory.old) (roots memory.new) }
    ensures keeps { (tell : Tell) → KeepsBytes (over pool.old tell) (over pool.new tell) (roots memory.new) }
{
    prove!(memory.count() <= MOST_LIVE);
    let Some(s) = memory.named(name) else { return };
    memory.forget(pool, s);
}

// Gives the memory a space under a name that is free.
fn give_named(
    memory: &mut SpaceMemory,
    pool: &mut Pool,
    name: &[u8],
    space: DataSpace,
) -> Result<(), NoMemory>
    requires free { directory.get name.now memory.old.names ≡ None }
    requires room { length memory.old.spaces < MOST_LIVE }
    requires left { memory.old.last < 4294967295 }
    requires agree { Stands pool.old (space.root ∷ roots memory.old) 0 }
    ensures given { OnOk result (memory.new ≡ named_last name.now (with_new space memory.old)) }
    ensures same { OnOk result (pool.new ≡ pool.old) }
    ensures more { length (roots memory.new) ≤ length (roots memory.old) + 1 }
    ensures frames { (tell : Tell) → Frames (over pool.old tell) (over pool.new tell) (space.root ∷ roots memory.old) (roots memory.new) }
{
    match memory.give(space) {
        Ok(s) => memory.name(name, s),
        Err(back) => {
            back.forget(pool);
            Err(NoMemory)
        }
    }
}
