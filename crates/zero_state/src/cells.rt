//! Places of cells.
ghost use Rattle.std.specs.Prelude.{◌≡◌, ◌+◌, ◌<◌, true};
ghost use Rattle.eu_base.specs.declared.address.TheConstants.{CELLS};
ghost use Rattle.eu_base.specs.Room.{cells_fit};
ghost use Rattle.eu_base.specs.Cells.{area_cell, run_cell, area_in, place_in};

use eu_base::{Addr, Area, CELLS, SpaceNo};

/// The place of a cell of the command that runs, by its number.
pub fn run_cell(cell: usize) -> Addr
    requires { cell < CELLS }
    ensures { result ≡ run_cell cell }
{
    area_cell(Area::Run, cell)
}

/// The place of a cell of an area, by its number.
pub fn area_cell(area: Area, cell: usize) -> Addr
    requires { cell < CELLS }
    ensures { result ≡ area_cell area cell }
{
    Addr {
        area,
        cell: cell as u16,
    }
}

/// Whether more cells have room beside those in use.
pub fn have_room(used: usize, more: usize) -> bool
    requires { cells_fit used ≡ true }
    ensures { result ≡ cells_fit (used + more) }
{
    more <= usize::from(CELLS) - used
}

/// The place that a number in a cell stands for.
pub fn place_in(number: u64) -> Addr
    ensures { result ≡ place_in number }
{
    Addr {
        area: area_in(number / u64::from(CELLS)),
        cell: (number % u64::from(CELLS)) as u16,
    }
}

// The area whose cells come behind those of so many.
fn area_in(before: u64) -> Area
    ensures { result ≡ area_in before }
{
    match before {
        0 => Area::Run,
        1 => Area::Packets,
        _ => Area::Space(SpaceNo(((before - 2) % 4_294_967_296) as u32)),
    }
}
