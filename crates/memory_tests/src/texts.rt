//! What is done with a space and its texts.
ghost use Rattle.std.specs.Prelude.{◌<◌, ◌≤◌};

use crate::numbers::next;
use eu_base::{Bytes, Set, Space};
use std::alloc::Global;
use text_heap::{clear, get, rooms, set};

/// A text is told by its length and the seed of its bytes. A shorter one of the same seed is its front.
#[derive(Clone, Copy)]
struct Content {
    length: usize,
    seed: u32,
}

// Where memory is refused, the text is too short, and the scene goes wrong.
fn text(alloc: Global, content: Content) -> Bytes {
    let mut bytes = Bytes::new(alloc);
    let mut seed = content.seed;
    for _ in 0..content.length {
        let _added = bytes.append(&[(next(&mut seed) % 256) as u8]).is_ok();
    }
    bytes
}

// One number out of the bytes of so many cells from the first on; the blocks count as as many cells. 0 where they can't be read.
fn digest<S: Space>(space: &mut S, cells: u32) -> u64
    requires { cells ≤ 32768 }
{
    let mut sum = 1u64;
    let mut bytes = [0u8; 8];
    for cell in 0..cells {
        if space.read(8 * cell, &mut bytes).is_err() {
            return 0;
        }
        sum = sum
            .wrapping_mul(1_099_511_628_211)
            .wrapping_add(u64::from_le_bytes(bytes));
    }
    sum
}

fn has<S: Space>(alloc: Global, space: &mut S, cell: u16, t: &[u8]) -> bool
    requires { cell < 16384 }
{
    match get(alloc, space, cell) {
        Ok(found) => found.as_slice() == t,
        Err(_) => false,
    }
}

fn has_text<S: Space>(alloc: Global, space: &mut S, cell: u16, content: Content) -> bool
    requires { cell < 16384 }
{
    has(alloc, space, cell, text(alloc, content).as_slice())
}

// A text is put into a cell.
fn is_put<S: Space>(alloc: Global, space: &mut S, cell: u16, content: Content) -> bool
    requires { cell < 16384 }
{
    let t = text(alloc, content);
    matches!(set(space, cell, t.as_slice()), Ok(Set::Done))
}

// A text is put into a cell, and comes back from it.
fn comes_back<S: Space>(alloc: Global, space: &mut S, cell: u16, content: Content) -> bool
    requires { cell < 16384 }
{
    is_put(alloc, space, cell, content) && has_text(alloc, space, cell, content)
}

// So many blocks are free.
fn has_rooms<S: Space>(space: &mut S, free: u16) -> bool {
    rooms(space).unwrap_or(u16::MAX) == free
}

// A text of that length comes back from the last cell, beside so many free blocks.
fn fits<S: Space>(alloc: Global, space: &mut S, length: usize, free: u16) -> bool {
    comes_back(alloc, space, 16_383, Content { length, seed: 5 }) && has_rooms(space, free)
}

// Texts of each length, one after another in the last cell.
fn each_length<S: Space>(alloc: Global, space: &mut S) -> bool {
    let short = fits(alloc, space, 0, 4096) && fits(alloc, space, 1, 4095);
    let block = fits(alloc, space, 28, 4095) && fits(alloc, space, 29, 4094);
    let long = fits(alloc, space, 16_000, 3524) && fits(alloc, space, 114_688, 0);
    let again = fits(alloc, space, 30, 4094);
    let cleared = clear(space, 16_383).is_ok() && has(alloc, space, 16_383, b"");
    short && block && long && again && cleared && has_rooms(space, 4096)
}

// The space has no room for the text, and no byte of it changes.
fn is_full<S: Space>(alloc: Global, space: &mut S, cell: u16, content: Content) -> bool
    requires { cell < 16384 }
{
    let t = text(alloc, content);
    let before = digest(space, 32_768);
    let full = matches!(set(space, cell, t.as_slice()), Ok(Set::HeapFull));
    full && before != 0 && digest(space, 32_768) == before
}

fn long(length: usize) -> Content {
    Content { length, seed: 6 }
}

// All blocks are taken, and then one more is wanted.
fn all_blocks<S: Space>(alloc: Global, space: &mut S) -> bool {
    let too_long = is_full(alloc, space, 0, long(114_689));
    let all = comes_back(alloc, space, 0, long(114_688));
    let one_more = is_full(alloc, space, 1, long(1));
    let one_byte_more = is_full(alloc, space, 0, long(114_689));
    let none = comes_back(alloc, space, 1, long(0));
    let most = too_long && all && one_more && one_byte_more && none;
    let one_less = comes_back(alloc, space, 0, long(114_660));
    let last = comes_back(alloc, space, 1, long(28));
    let no_more = is_full(alloc, space, 1, long(29));
    let still = has_text(alloc, space, 0, long(114_660));
    most && one_less && last && no_more && still && has_rooms(space, 0)
}

// The text of a cell after so many rounds, in which each cell gets another one.
fn of_round(round: u32, cell: u16) -> Content {
    let mut seed = round.wrapping_mul(65_536).wrapping_add(u32::from(cell));
    let length = next(&mut seed) % 600;
    Content {
        length: length as usize,
        seed,
    }
}

// 200 cells get another text.
fn change<S: Space>(alloc: Global, space: &mut S, round: u32) -> bool {
    let mut right = true;
    for cell in 0..200u16 {
        right = is_put(alloc, space, 80 * cell, of_round(round, cell)) && right;
    }
    right
}

// They have these texts, and each other block is free.
fn are_there<S: Space>(alloc: Global, space: &mut S, round: u32) -> bool {
    let mut right = true;
    let mut taken = 0usize;
    for cell in 0..200u16 {
        let content = of_round(round, cell);
        right = has_text(alloc, space, 80 * cell, content) && right;
        taken = taken.saturating_add(content.length.div_ceil(28));
    }
    let left = rooms(space).unwrap_or(0);
    right && taken.saturating_add(usize::from(left)) == 4096
}

// 200 texts, each changed in so many rounds, and read back in the end.
fn many_texts<S: Space>(alloc: Global, space: &mut S, rounds: u32) -> bool {
    let mut right = true;
    for round in 0..rounds {
        right = change(alloc, space, round) && right;
    }
    right && are_there(alloc, space, rounds.saturating_sub(1))
}

// Every byte of a space gets some value.
fn any_bytes<S: Space>(space: &mut S, seed: u32) -> bool {
    let mut seed = seed;
    for cell in 0..32_768 {
        let high = u64::from(next(&mut seed));
        let low = u64::from(next(&mut seed));
        let number = high.wrapping_mul(1_099_511_627_776) ^ low.wrapping_mul(65_537);
        if space.write(8 * cell, &number.to_le_bytes()).is_err() {
            return false;
        }
    }
    true
}

// A block that is linked to itself, to which the last cell leads with as many bytes as a space has room for. Both are written at
// once, over the border of two pages, and read back so.
fn is_circle<S: Space>(space: &mut S) -> bool {
    let circle = [0, 192, 1, 0, 0, 0, 0, 0, 1, 0];
    let mut found = [0; 10];
    let written = space.write(131_064, &circle).is_ok();
    written && space.read(131_064, &mut found).is_ok() && found == circle
}

// The blocks can be counted, and no byte has changed.
fn is_kept<S: Space>(space: &mut S, whole: u64) -> bool {
    let left = rooms(space).unwrap_or(u16::MAX);
    left <= 4096 && whole != 0 && digest(space, 32_768) == whole
}

// A text of two blocks and then another are put into the last cell, which is cleared then, and no other one changes.
fn writes_return<S: Space>(space: &mut S, found: &[u8]) -> bool {
    let cells = digest(space, 16_383);
    let two_blocks = b"a text of two blocks, which is none too many";
    let short = set(space, 16_383, two_blocks).is_ok() && digest(space, 16_383) == cells;
    let full = set(space, 16_383, found).is_ok();
    let cleared = clear(space, 16_383).is_ok();
    short && full && cleared && cells != 0 && digest(space, 16_383) == cells
}

// Each call returns where the space holds no texts, and changes no cell but the last.
fn every_call_returns<S: Space>(alloc: Global, space: &mut S) -> bool {
    let whole = digest(space, 32_768);
    match get(alloc, space, 16_383) {
        Ok(found) => {
            let kept = found.as_slice().len() <= 114_688 && is_kept(space, whole);
            kept && writes_return(space, found.as_slice())
        }
        Err(_) => false,
    }
}

// The same where each byte has some value, and before that where a text leads in a circle.
fn calls_return<S: Space>(alloc: Global, space: &mut S) -> bool {
    let mut right = is_circle(space) && every_call_returns(alloc, space);
    for seed in 0..2 {
        right = any_bytes(space, seed) && every_call_returns(alloc, space) && right;
    }
    right
}

/// What is done with a space that nothing was written to.
#[derive(Clone, Copy)]
pub enum Scene {
    /// Texts come back until no block is free.
    UntilFull,
    /// 200 texts are changed again and again.
    Changes,
    /// Calls on a space that holds no texts return.
    AnyBytes,
}

/// Whether all goes in a scene as it should.
pub fn is_right<S: Space>(alloc: Global, space: &mut S, scene: Scene) -> bool {
    match scene {
        Scene::UntilFull => each_length(alloc, space) && all_blocks(alloc, space),
        Scene::Changes => many_texts(alloc, space, 4),
        Scene::AnyBytes => calls_return(alloc, space),
    }
}
