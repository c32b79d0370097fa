//! Pages over blocks of a disk, of which one is kept in memory.
ghost use Rattle.std.specs.Prelude.{◌≡◌, nat_lt};
ghost use Rattle.edge.specs.declared.disk.TheConstants.{BLOCKS as blocks};
ghost use Rattle.page_pool.specs.Pool.{Backed};

use crate::out::{put, put_digit, tell};
use disk_backing::DiskBacking;
use edge::{Disk, MemDisk};
use eu_base::{Bytes, List, NoMemory};
use page_pool::{PAGES, Pool};
use std::alloc::Global;

/// Steps, and what they tell. A page is named by its digit and a block by its own. `m4c` fills block 4 with `c`. `s4` makes a page that stands in block 4, `f` a
/// content page and `t` a table page, and `d0` lets page 0 go. `r0` tells the first and the last byte of page 0; `w0a` puts `a` there as its first; `b06` puts page 0 into block 6, where it settles.
/// `L0` tells whether page 0 lives, `T0` whether it is a table page, `C0` whether it is changed, `H0` where it stands, and `P` which number is past the last.
/// What a call may not be asked is not done.
pub const STEPS: &str = "\
m4c m5d s4 s5 r0 r1 r1 r0 r1 => 01cc:dd:dd:cc:dd:
m4c m5d s4 s5 r0 w0a r0 r1 b06 r1 r0 r1 => 01cc:+ac:dd:dd:ac:dd:
m4c s4 C0 H0 w0a C0 H0 b07 C0 H0 r0 m7e r0 m4e s4 r1 r0 => 0-4++n-7ac:ac:1ee:ee:
f t s3 C0 C1 C2 T0 T1 T2 P L0 L1 L2 L3 => 012++--+-3+++-
P f f f P d1 L1 P d2 P L0 d0 P L0 => 00123-31+0-
t w0a r0 b09 C0 H0 r0 => 0+a\0:-9a\0:
";

// Pages over a disk.
#[derive(Drop)]
struct Pages {
    pool: Pool,
    disk: MemDisk,
    ghost backed: { Backed (λ block. nat_lt block blocks) pool },
}

impl Pages {
    fn new(alloc: Global) -> Result<Pages, NoMemory> {
        Ok(Pages {
            pool: Pool::paged(alloc, 1)?,
            disk: MemDisk::new(alloc, List::new(alloc)),
        })
    }

    // A page that stands in a block, a content page, or a table page.
    fn make(&mut self, what: u8, block: u32) -> Option<u32> {
        if self.pool.used() >= PAGES || block >= edge::BLOCKS {
            return None;
        }
        match what {
            b's' => self.pool.stored(block).ok(),
            b'f' => self.pool.fresh().ok(),
            _ => self.pool.fresh_pinned().ok(),
        }
    }

    fn read(&mut self, out: &mut Bytes, p: u32) {
        let mut bytes = [0; 512];
        let mut backing = DiskBacking {
            disk: &mut self.disk,
        };
        if self.pool.lives(p) && self.pool.read(p, 0, &mut bytes, &mut backing).is_ok() {
            put(out, &[bytes[0], bytes[511], b':']);
        }
    }

    fn write(&mut self, out: &mut Bytes, p: u32, byte: u8) {
        let mut backing = DiskBacking {
            disk: &mut self.disk,
        };
        if self.pool.lives(p) && self.pool.count(p) == 1 {
            let written = self.pool.write_own(p, 0, &[byte], &mut backing);
            tell(out, written.is_ok());
        }
    }

    fn settle(&mut self, p: u32, block: u32) {
        if self.pool.lives(p) && self.pool.changed(p) && block < edge::BLOCKS {
            let mut bytes = [0; 512];
            self.pool.peek(p, 0, &mut bytes);
            let _written = self.disk.write(block, &bytes).is_ok();
            self.pool.settle(p, block);
        }
    }

    fn let_go(&mut self, p: u32) {
        if self.pool.lives(p) {
            self.pool.drop_ref(p);
        }
    }

    fn tell(&self, out: &mut Bytes, what: u8, p: u32) {
        if what == b'L' {
            tell(out, self.pool.lives(p));
        } else if self.pool.lives(p) {
            match what {
                b'T' => tell(out, self.pool.pinned(p)),
                b'C' => tell(out, self.pool.changed(p)),
                _ => match self.pool.home(p) {
                    Some(block) => put_digit(out, block),
                    None => put(out, b"n"),
                },
            }
        }
    }
}

fn digit(byte: u8) -> u32 {
    u32::from(byte.wrapping_sub(b'0'))
}

fn put_made(out: &mut Bytes, made: Option<u32>) {
    match made {
        Some(p) => put_digit(out, p),
        None => tell(out, false),
    }
}

fn go(out: &mut Bytes, pages: &mut Pages, step: &[u8]) {
    match step {
        [b'm', block, byte] => {
            if digit(*block) < edge::BLOCKS {
                let _written = pages.disk.write(digit(*block), &[*byte; 512]).is_ok();
            }
        }
        [b's', block] => put_made(out, pages.make(b's', digit(*block))),
        [b'r', p] => pages.read(out, digit(*p)),
        [b'w', p, byte] => pages.write(out, digit(*p), *byte),
        [b'b', p, block] => pages.settle(digit(*p), digit(*block)),
        [b'd', p] => pages.let_go(digit(*p)),
        [b'P'] => put_digit(out, pages.pool.past()),
        [what] => put_made(out, pages.make(*what, 0)),
        [what, p] => pages.tell(out, *what, digit(*p)),
        _ => {}
    }
}

/// Whether each row tells what stands behind it: with what the rows tell the table is made again.
pub fn steps_are_right(alloc: Global) -> bool {
    let mut out = Bytes::new(alloc);
    for row in STEPS.lines() {
        let (steps, _) = row.split_once(" => ").unwrap_or((row, ""));
        put(&mut out, steps.as_bytes());
        put(&mut out, b" => ");
        if let Ok(mut pages) = Pages::new(alloc) {
            for step in steps.split(' ') {
                go(&mut out, &mut pages, step.as_bytes());
            }
        }
        put(&mut out, b"\n");
    }
    out.as_slice() == STEPS.as_bytes()
}
