//! What a cell says of its text.
ghost use Rattle.std.specs.Prelude.{◌≡◌, ◌≢◌, ◌<◌, IfOk, OnOk, Err};
ghost use Rattle.eu_base.specs.declared.cells.MemFault.TheVariants.{NoMemory};
ghost use Rattle.eu_base.specs.Cells.{HasFaultCause};
ghost use Rattle.text_heap.specs.Blocks.{length_in, first_in};

use eu_base::{CELLS, MemFault, Space};

/// The length of a text in bytes, and its first block. The text "" has none, whatever stands there.
#[derive(Clone, Copy)]
pub struct Entry {
    pub length: usize,
    pub first: u16,
}

/// What the number in a cell says: it is the length, and 2 to the 32 times the first block. Of a number that no text gave it
/// takes as much as a space can hold.
pub fn read_entry<S: Space>(space: &mut S, cell: u16) -> Result<Entry, MemFault>
    requires { cell < CELLS }
    ensures low { IfOk result (λ entry. entry.first < 4096) }
    ensures entry { IfOk result (λ entry. S.known space.old → (entry.length ≡ length_in (S.content space.old) cell) × (entry.first ≡ first_in (S.content space.old) cell)) }
    ensures kept { OnOk result (S.content space.new ≡ S.content space.old) }
    ensures memory { result ≢ Err NoMemory }
    ensures cause { HasFaultCause (S.faults space.old) (S.faults space.new) result }
    ensures follows { S.follows space.old space.new }
{
    let number = cell_layout::get(space, cell)?;
    let length = (number % 4_294_967_296).min(114_688) as usize;
    let first = (number / 4_294_967_296 % 4_096) as u16;
    Ok(Entry { length, first })
}
