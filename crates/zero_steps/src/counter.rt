//! Counters of loops.
ghost use Rattle.std.specs.Prelude.{◌≡◌};
ghost use Rattle.eu_base.specs.Operations.{is_past, has_reached};

use eu_base::Way;

/// Whether a counter is past its limit.
pub fn is_past(way: Way, limit: i16, number: i16) -> bool
    ensures { result ≡ is_past way limit number }
{
    match way {
        Way::Up => limit < number,
        Way::Down => number < limit,
    }
}

/// Whether a counter has reached its limit.
pub fn has_reached(way: Way, limit: i16, number: i16) -> bool
    ensures { result ≡ has_reached way limit number }
{
    match way {
        Way::Up => limit <= number,
        Way::Down => number <= limit,
    }
}
