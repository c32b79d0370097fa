//! A space that is built of its pages, as from a disk.
ghost use Rattle.std.specs.Prelude.{◌≡◌, ◌+◌, ◌<◌, length, [], ◌∷◌, IfOk};
ghost use Rattle.eu_base.specs.Spaces.{IsRead};
ghost use Rattle.page_pool.specs.Pool.{used_of, Known};
ghost use Rattle.page_table.specs.Frames.{content_at, Frames};
ghost use Rattle.memory_tests.specs.Tasks.{zeros, whole};

use data_space::DataSpace;
use eu_base::MemFault;
use page_pool::{Nowhere, Pool};
use page_table::table_page;

/// A space with these bytes as its first page.
pub fn open_page(pool: &mut Pool, bytes: &[u8]) -> Result<DataSpace, MemFault>
    requires room { used_of pool.old + 2 < 1048576 }
    requires page { length bytes.now ≡ 512 }
    ensures frames { IfOk result (λ space. Frames (whole pool.old) (whole pool.new) [] (space.root ∷ [])) }
    ensures shows { IfOk result (λ space. Known zeros pool.old → IsRead (content_at (whole pool.new) space.root) 0 bytes.now) }
{
    let p = pool.fresh()?;
    pool.write_own(p, 0, bytes, &mut Nowhere)?;
    let t = table_page(pool, &[Some(p)])?;
    let r = table_page(pool, &[Some(t)])?;
    Ok(DataSpace::of(0, None, Some(r)))
}
