//! Three spaces over one pool, against plain bytes.
ghost use Rattle.std.specs.Prelude.{◌≡◌, ◌+◌, ◌≤◌, ◌∷◌, [], length};
ghost use Rattle.page_table.specs.Sharing.{Agree};

use crate::numbers::next;
use crate::out::{put, put_digit, tell};
use data_space::DataSpace;
use eu_base::{Bytes, NoMemory};
use page_pool::{Nowhere, Pool};
use std::alloc::Global;
use std::mem;

// Spaces over a pool, of which each call works on the first.
#[derive(Drop)]
struct Three {
    pool: Pool,
    first: DataSpace,
    second: DataSpace,
    third: DataSpace,
    ghost agree: { ∥ Agree pool (first.root ∷ second.root ∷ third.root ∷ []) ∥₁ },
}

fn untouched(alloc: Global) -> Result<Three, NoMemory> {
    Ok(Three {
        pool: Pool::new(alloc)?,
        first: DataSpace::nil(),
        second: DataSpace::nil(),
        third: DataSpace::of(5, None, None),
    })
}

impl Three {
    // The next space is the first.
    fn turn(&mut self) {
        mem::swap(&mut self.first, &mut self.second);
        mem::swap(&mut self.second, &mut self.third);
    }

    fn write(&mut self, at: u32, from: &[u8]) -> bool
        requires { at + length from.now ≤ 262144 }
    {
        self.first
            .write(&mut self.pool, at, from, &mut Nowhere)
            .is_ok()
    }

    fn read(&mut self, at: u32, into: &mut [u8]) -> bool
        requires { at + length into.old ≤ 262144 }
        ensures { length into.new ≡ length into.old }
    {
        self.first
            .read(&mut self.pool, at, into, &mut Nowhere)
            .is_ok()
    }

    // The third space is a copy of the first. A refusal changes nothing.
    fn copy(&mut self, alloc: Global) -> bool {
        match self.first.copy(alloc, &mut self.pool) {
            Ok(copy) => {
                mem::replace(&mut self.third, copy).forget(&mut self.pool);
                true
            }
            Err(_) => false,
        }
    }

    // Forgets all, and tells how many pages are left.
    fn ended(self) -> u32
        ensures { result ≡ 0 }
    {
        let Three {
            mut pool,
            first,
            second,
            third,
        } = self;
        third.forget(&mut pool);
        second.forget(&mut pool);
        first.forget(&mut pool);
        pool.used()
    }
}

/// How many bytes a space has.
const BYTES: usize = 262_144;

// Where the bytes stand that the first space is to have, after so many turns.
fn place(turns: usize) -> usize
    ensures { result ≤ 524288 }
{
    turns % 3 * BYTES
}

fn put_plain(plain: &mut [u8], at: usize, byte: u8, times: usize)
    requires { at ≤ 786432 }
{
    for k in 0..times.min(2000) {
        if let Some(found) = plain.get_mut(at + k) {
            *found = byte;
        }
    }
}

fn put_copy(plain: &mut [u8], from: usize, to: usize)
    requires low { from ≤ 524288 }
    requires high { to ≤ 524288 }
{
    for k in 0..BYTES {
        let byte = *plain.get(from + k).unwrap_or(&0);
        if let Some(found) = plain.get_mut(to + k) {
            *found = byte;
        }
    }
}

fn agree(spaces: &mut Three, plain: &[u8], from: usize) -> bool
    requires { from ≤ 524288 }
{
    let mut part = [0; 1024];
    for k in 0..256 {
        let read = spaces.read(1024 * k, &mut part);
        let at = from + 1024 * k as usize;
        if !read || plain.get(at..at + 1024) != Some(&part) {
            return false;
        }
    }
    true
}

// A run of bytes without order, to the first space.
fn write(spaces: &mut Three, plain: &mut [u8], turns: usize, seed: &mut u32) -> bool {
    let at = next(seed) % 260_000;
    let len = next(seed) as usize % 1_500;
    let byte = (next(seed) % 256) as u8;
    put_plain(plain, place(turns) + at as usize, byte, len);
    let bytes = [byte; 1_500];
    spaces.write(at, &bytes[..len])
}

// A run of bytes, and sometimes a copy; then the next space is the first.
fn go(alloc: Global, spaces: &mut Three, plain: &mut [u8], turns: usize, seed: &mut u32) -> bool
    requires { turns ≤ 1000 }
{
    let mut done = write(spaces, plain, turns, seed);
    if next(seed) % 3 == 0 {
        put_copy(plain, place(turns), place(turns + 2));
        done = spaces.copy(alloc) && done;
    }
    spaces.turn();
    done
}

// Whether each space has its bytes.
fn all_agree(spaces: &mut Three, plain: &[u8]) -> bool {
    let mut right = true;
    for turns in 0..3 {
        right = agree(spaces, plain, place(turns)) && right;
        spaces.turn();
    }
    right
}

// Whether all is right after many writes and copies, and no page is left where all are forgotten.
fn are_right(alloc: Global, plain: &mut [u8]) -> bool {
    let Ok(made) = untouched(alloc) else {
        return false;
    };
    let mut spaces = made;
    let mut seed = 7;
    let mut done = true;
    for turns in 0..150usize {
        done = go(alloc, &mut spaces, plain, turns, &mut seed) && done;
    }
    all_agree(&mut spaces, plain) && spaces.ended() == 0 && done
}

pub fn each_has_its_bytes(alloc: Global) -> bool {
    match Vec::from_elem(alloc, 0u8, 3 * BYTES) {
        Ok(plain) => {
            let mut plain = plain;
            are_right(alloc, plain.as_mut_slice())
        }
        Err(_) => false,
    }
}

// A letter is written at the front, and `L` to the last page; `y` copies and `t` turns; `?` tells the first byte, `K` the type,
// and `#` how many pages live.
fn step(alloc: Global, out: &mut Bytes, spaces: &mut Three, step: u8) {
    match step {
        b'y' => tell(out, spaces.copy(alloc)),
        b't' => spaces.turn(),
        b'?' => {
            let mut found = [0];
            if spaces.read(0, &mut found) {
                put(out, &found);
            }
        }
        b'#' => put_digit(out, spaces.pool.used()),
        b'K' => put_digit(out, u32::from(spaces.first.kind().unsigned_abs())),
        b'L' => tell(out, spaces.write(261_632, b"L")),
        _ => tell(out, spaces.write(0, &[step])),
    }
}

// A space of type 5 without pages gets its first and its last page, and two copies, which share them; one of these gets another
// first byte, and has the type.
const SHARING: &[u8] = b"ttKaL#y#yttct#?tt?K";

pub fn pages_are_shared(alloc: Global) -> bool {
    let Ok(made) = untouched(alloc) else {
        return false;
    };
    let mut spaces = made;
    let mut out = Bytes::new(alloc);
    for k in 0..SHARING.len() {
        step(alloc, &mut out, &mut spaces, SHARING[k]);
    }
    put_digit(&mut out, spaces.ended());
    out.as_slice() == b"5++5+5++8ac50".as_slice()
}
