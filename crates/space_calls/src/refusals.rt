//! Reasons to stop.
ghost use Rattle.eu_base.specs.SpaceOperations as rules;
ghost use Rattle.space_calls.specs.Planned.{Refuses};

use eu_base::{Memory, SpaceNo, is_name};
use zero_state::Next;

// So many data spaces can live, and the last number of one.
const MOST_LIVE: u32 = 16;

const LAST_NUMBER: u32 = 4_294_967_295;

/// Why a name cannot be given.
pub(crate) fn name_refusal<M: Memory>(m: &M, name: &[u8]) -> Option<Next>
    ensures { Refuses result (rules.name_refusal name.now (M.heads m.now)) }
{
    if !is_name(name) {
        return Some(Next::BadName);
    }
    match m.named(name) {
        Some(_) => Some(Next::NameThere),
        None => None,
    }
}

/// Why no data space can be made.
pub fn room_refusal<M: Memory>(m: &M) -> Option<Next>
    ensures { Refuses result (rules.room_refusal (M.heads m.now)) }
{
    if MOST_LIVE <= m.count() {
        return Some(Next::ManySpaces);
    }
    if LAST_NUMBER <= m.last_number() {
        return Some(Next::SpaceNumbers);
    }
    None
}

/// Why a data space cannot be used.
pub fn life_refusal<M: Memory>(m: &M, s: SpaceNo) -> Option<Next>
    ensures { Refuses result (rules.life_refusal s (M.heads m.now)) }
{
    if m.live(s) {
        return None;
    }
    Some(Next::NoSpace)
}

/// Why a data space cannot be copied; the nil space can.
pub fn copy_refusal<M: Memory>(m: &M, from: Option<SpaceNo>) -> Option<Next>
    ensures { Refuses result (rules.copy_refusal from (M.heads m.now)) }
{
    match from {
        Some(s) => life_refusal(m, s),
        None => None,
    }
}
