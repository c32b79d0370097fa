//! The places of names, kept by the name.

ghost use Rattle.std.specs.Prelude.{OnOk};
ghost use Rattle.elan_names.specs.walks.Firsts as spec;

use eu_base::NoMemory;
use std::alloc::Global;
use std::collections::HashMap;

/// So many names are looked through one after another.
pub const FEW: usize = 8;

/// Keeps a name with its place, unless it is kept. Without memory the map is of no use: its maker drops it.
pub fn keep(
    alloc: Global,
    firsts: &mut HashMap<Vec<u8>, usize>,
    place: usize,
    name: &[u8],
) -> Result<(), NoMemory>
    ensures { OnOk result (spec.KeepsOne firsts.old firsts.new place name.now) }
{
    if firsts.contains_key(name) {
        return Ok(());
    }
    let name = Vec::from_slice(alloc, name)?;
    firsts.insert(name, place)?;
    Ok(())
}
