//! Numbers of bodies and cells among those of all packets of the task.

ghost use Rattle.std.specs.Prelude.{◌≡◌, ◌+◌, IfOk};

use eu_base::NoMemory;

/// The number of what has this number in its level, where so many stand before those of the level. No memory holds more than can
/// be counted.
pub fn behind(before: usize, number: usize) -> Result<usize, NoMemory>
    ensures { IfOk result (λ sum. sum ≡ before + number) }
{
    before.checked_add(number).ok_or(NoMemory)
}
