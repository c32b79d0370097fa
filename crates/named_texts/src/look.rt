//! Names and texts that are looked up.
ghost use Rattle.std.specs.Prelude.{◌≡◌, map, option_copied, Some, IfOk};
ghost use Rattle.eu_base.specs.Cells.{HasFaultCause};
ghost use Rattle.page_pool.specs.Pool.{Backed};
ghost use Rattle.named_texts.specs.Below.page_table.specs.Entries.{Names};
ghost use Rattle.named_texts.specs.Below.page_table.specs.Frames.{over, Frames, Stands};
ghost use Rattle.source_texts.specs.Spaces.{Space, HoldsSpace};
ghost use Rattle.space_memory.specs.Live.{space_at};
ghost use Rattle.data_space.specs.Data.{SpaceData};
ghost use Rattle.space_memory.specs.Memories.{roots};
ghost use Rattle.named_texts.specs.Texts.{under};
ghost use Rattle.named_texts.specs.Sources.{as_source, source_in, IsShort};

use data_space::DataSpace;
use eu_base::{Bytes, List, MemFault, NoMemory};
use page_pool::{Backing, Pool};
use source_texts::read_source;
use space_memory::SpaceMemory;
use std::alloc::Global;
use task_numbers::SpaceNo;

/// What stands under a name.
#[derive(Drop)]
pub enum Source {
    /// The name is free.
    NoSpace,
    /// A space that is no source text.
    NoText,
    /// A source text.
    Text(Bytes),
}

/// The text of the space under a name. A text of 4,294,967,296 bytes or more is one that memory is wanting for.
pub fn text_under<B: Backing>(
    alloc: Global,
    memory: &SpaceMemory,
    pool: &mut Pool,
    name: &[u8],
    backing: &mut B,
) -> Result<Source, MemFault>
    requires agree { Stands pool.old (roots memory.now) 0 }
    requires backed { Backed (B.holds backing.old) pool.old }
    ensures none { IfOk result (λ source. under name.now memory.now ≡ None → source ≡ Source.NoSpace) }
    ensures text { IfOk result (λ source. (paged : SpaceData) (space : Space) → under name.now memory.now ≡ Some paged →
        HoldsSpace (over pool.old (B.tells backing.old)) paged space → source ≡ source_in (Some space)) }
    ensures short { IfOk result IsShort }
    ensures frames { (mine : Names) → Frames (over pool.old (B.tells backing.old)) (over pool.new (B.tells backing.new)) mine mine }
    ensures cause { HasFaultCause (B.faults backing.old) (B.faults backing.new) result }
    ensures follows { B.follows backing.old backing.new }
{
    let Some(s) = memory.named(name) else {
        return Ok(Source::NoSpace);
    };
    let Some(space) = space_under(memory, s) else {
        return Ok(Source::NoSpace);
    };
    let text = read_source(alloc, pool, space, backing)?;
    let source = short_source(text)?;
    Ok(source)
}

/// The names of the directory in order of entry.
pub fn names(alloc: Global, memory: &SpaceMemory) -> Result<List<Bytes>, NoMemory>
    ensures { IfOk result (λ names. names ≡ map (λ entry. entry.0) memory.now.names) }
{
    let mut names = List::new(alloc);
    for k in 0..u32::MAX {
        let Some((name, _)) = memory.entry(k) else {
            return Ok(names);
        };
        names.push(Bytes::from(alloc, name)?)?;
    }
    Err(NoMemory)
}

// The space under a number; `None` exactly where none lives under it.
fn space_under(memory: &SpaceMemory, s: SpaceNo) -> Option<&DataSpace>
    ensures { option_copied result ≡ space_at s.0 memory.now.spaces }
{
    for k in 0..memory.count() {
        let Some((number, space)) = memory.space(k) else {
            return None;
        };
        if s == number {
            return Some(space);
        }
    }
    None
}

// What the text of a space is, where it is a source text.
fn short_source(text: Option<Bytes>) -> Result<Source, NoMemory>
    ensures is { IfOk result (λ source. source ≡ as_source text) }
    ensures short { IfOk result IsShort }
{
    let Some(text) = text else {
        return Ok(Source::NoText);
    };
    if text.as_slice().len() > u32::MAX as usize {
        return Err(NoMemory);
    }
    Ok(Source::Text(text))
}
