//! The text of a space, where it is a source text.
ghost use Rattle.std.specs.Prelude.{◌≡◌, ◌+◌, ◌≤◌, ◌++◌, [], ◌∷◌, IfOk, OnOk, option_map};
ghost use Rattle.eu_base.specs.Cells.{HasFaultCause};
ghost use Rattle.page_pool.specs.Pool.{Backed};
ghost use Rattle.source_texts.specs.Below.page_table.specs.Entries.{Names};
ghost use Rattle.source_texts.specs.Below.page_table.specs.Frames.{over, Frames, Stands};
ghost use Rattle.source_texts.specs.Spaces as spaces;
ghost use Rattle.units.specs.Sources.{joined, source_text};
ghost use Rattle.source_texts.specs.Lines.{lines_at, line_count, line_end, text_at};

use crate::shape::{MOST_LINES, is_source};
use crate::view::view;
use cell_layout::get;
use data_space::DataSpace;
use eu_base::{Bytes, MemFault, NoMemory, Space, number_in};
use page_pool::{Backing, Pool};
use std::alloc::Global;

/// The text of a space: its lines, with a line end between two. `None` exactly where the space has another shape than
/// that of source texts, or its number of lines is none from 0 to 400.
pub fn read_source<B: Backing>(
    alloc: Global,
    pool: &mut Pool,
    space: &DataSpace,
    backing: &mut B,
) -> Result<Option<Bytes>, MemFault>
    requires agree { Stands pool.old (space.now.root ∷ []) 0 }
    requires backed { Backed (B.holds backing.old) pool.old }
    ensures text { IfOk result (λ text. (value : spaces.Space) → spaces.HoldsSpace (over pool.old (B.tells backing.old)) space.now value → text ≡ source_text value) }
    ensures frames { (mine : Names) → Frames (over pool.old (B.tells backing.old)) (over pool.new (B.tells backing.new)) mine mine }
    ensures cause { HasFaultCause (B.faults backing.old) (B.faults backing.new) result }
    ensures follows { B.follows backing.old backing.new }
{
    let Some(shape) = space.shape() else {
        return Ok(None);
    };
    if !is_source(shape) {
        return Ok(None);
    }
    let mut lent = view(space, pool, backing);
    let text = read_text(alloc, &mut lent)?;
    Ok(text)
}

// What the bytes of a space spell as a source text.
fn read_text<S: Space>(alloc: Global, space: &mut S) -> Result<Option<Bytes>, MemFault>
    ensures text { IfOk result (λ text. S.known space.old → text ≡ text_at (S.content space.old)) }
    ensures cause { HasFaultCause (S.faults space.old) (S.faults space.new) result }
    ensures follows { S.follows space.old space.new }
{
    let number = number_in(get(space, 0)?);
    let Some(count) = count_of(number) else {
        return Ok(None);
    };
    let text = read_lines(alloc, space, count)?;
    Ok(Some(text))
}

// A number of lines, where it is one.
fn count_of(number: i16) -> Option<u16>
    ensures { result ≡ line_count number }
{
    if number < 0 {
        return None;
    }
    let count = number as u16;
    (count <= MOST_LINES).then_some(count)
}

// The texts of so many cells from the second on, with a line end between two.
fn read_lines<S: Space>(alloc: Global, space: &mut S, count: u16) -> Result<Bytes, MemFault>
    requires { count ≤ MOST_LINES }
    ensures text { IfOk result (λ text. S.known space.old → text ≡ joined (lines_at (S.content space.old) count)) }
    ensures cause { HasFaultCause (S.faults space.old) (S.faults space.new) result }
    ensures follows { S.follows space.old space.new }
{
    let mut text = Bytes::new(alloc);
    for k in 0..count {
        let line = text_heap::get(alloc, space, k + 1)?;
        append_line(&mut text, k, line.as_slice())?;
    }
    Ok(text)
}

// Appends line `k`, counted from 0.
fn append_line(text: &mut Bytes, k: u16, line: &[u8]) -> Result<(), NoMemory>
    ensures { OnOk result (text.new ≡ text.old ++ (line_end k ++ line.now)) }
{
    if k > 0 {
        text.append(b"\n")?;
    }
    text.append(line)?;
    Ok(())
}
