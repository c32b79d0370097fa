//! Steps over the cells of a memory.
ghost use Rattle.std.specs.Prelude.{◌≡◌, ◌<◌};
ghost use Rattle.eu_base.specs.SpaceCells.{IsThere};

use crate::out::{tell, tell_done, tell_fault, tell_set};
use eu_base::{Addr, Area, Bytes, Memory};
use std::alloc::Global;
use task_numbers::SpaceNo;

fn number(digits: &[u8]) -> u64 {
    let mut number = 0u64;
    for digit in digits {
        number = number
            .wrapping_mul(10)
            .wrapping_add(u64::from(digit.wrapping_sub(b'0')));
    }
    number
}

// A text is told by its first byte and its length. Where memory is refused, it is too short, and the scene goes wrong.
fn text(alloc: Global, told: &[u8]) -> Bytes {
    let mut bytes = Bytes::new(alloc);
    if let [first, length @ ..] = told {
        for index in 0..number(length) {
            let byte = first.wrapping_add((index % 251) as u8);
            let _added = bytes.append(&[byte]).is_ok();
        }
    }
    bytes
}

// `p` is the area of the packets, and a digit that of a data space, where it lives.
fn area_of<M: Memory>(memory: &M, area: u8) -> Area
    ensures { IsThere (M.heads memory.now) result }
{
    let s = SpaceNo(u32::from(area.wrapping_sub(b'0')));
    if area == b'p' {
        Area::Packets
    } else if memory.live(s) {
        Area::Space(s)
    } else {
        Area::Run
    }
}

// `z` is the last cell.
fn address(area: Area, cell: u8) -> Addr
    ensures low { result.cell < 16384 }
    ensures area { result.area ≡ area }
{
    Addr {
        area,
        cell: if cell == b'z' {
            16_383
        } else {
            u16::from(cell % 48)
        },
    }
}

/// Does a step, and tells whether it went as it says. It begins with `r` for the cells of the command, `p` for those of the packets or the number
/// of a data space, and the cell. Behind that `=5` puts 5, and `?5` finds it there; `<a3` puts the text that begins with `a` and has 3 bytes, `>a3` finds it
/// there, and `/a3` finds no room for it; and `#5` finds 5 blocks free.
pub fn go<M: Memory>(alloc: Global, out: &mut Bytes, memory: &mut M, step: &[u8])
    ensures { M.follows memory.old memory.new }
{
    let [area, cell, what, told @ ..] = step else {
        return
    };
    let at = address(area_of(memory, *area), *cell);
    match *what {
        b'=' => tell_done(out, memory.set_cell(at, number(told))),
        b'?' => match memory.cell(at) {
            Ok(found) => tell(out, found == number(told)),
            Err(fault) => tell_fault(out, fault),
        },
        b'<' => {
            let t = text(alloc, told);
            tell_set(out, memory.set_text(at, t.as_slice()), false);
        }
        b'/' => {
            let t = text(alloc, told);
            tell_set(out, memory.set_text(at, t.as_slice()), true);
        }
        b'>' => match memory.text(at) {
            Ok(found) => tell(out, found.as_slice() == text(alloc, told).as_slice()),
            Err(fault) => tell_fault(out, fault),
        },
        _ => match memory.rooms(at.area) {
            Ok(rooms) => tell(out, u64::from(rooms) == number(told)),
            Err(fault) => tell_fault(out, fault),
        },
    }
}
