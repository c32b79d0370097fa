//! Images for tests.
ghost use Rattle.std.specs.Prelude.{◌+◌, ◌<◌, ◌≤◌, replicate};

use fixpoint::Image;

/// So many pages from a block on, all filled with one number; the first is the root.
#[derive(Drop)]
pub struct Pages {
    /// The first block.
    pub from: u32,
    /// How many pages.
    pub count: u32,
    /// The number that their bytes are.
    pub fill: u8,
    ghost low: { 4 ≤ from },
    ghost within: { from + count < 1048576 },
}

impl Image for Pages {
    ghost root_of = { λ i. i.from };

    ghost count_of = { λ i. i.count };

    ghost place_of = { λ i k. i.from + k };

    ghost page_of = { λ i _. replicate 512 i.fill };

    fn root(&self) -> u32 {
        self.from
    }

    fn count(&self) -> u32 {
        self.count
    }

    fn place(&self, k: u32) -> u32 {
        self.from + k
    }

    fn page(&self, _k: u32, into: &mut [u8; 512]) {
        *into = [self.fill; 512];
    }
}
