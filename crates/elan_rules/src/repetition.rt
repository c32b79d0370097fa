//! Loops.

ghost use Rattle.std.specs.Prelude.{◌≡◌};
ghost use Rattle.elan_rules.specs.Loops as spec;
ghost use Rattle.elan_rules.specs.walks.UnitSteps as walk;
ghost use Rattle.elan_meant.specs.Parts as parts;
ghost use Rattle.elan_meant.specs.Verdict.{gives, ◌>>=◌ as and_then, Tells};

use elan_meant::meant::Meant;
use elan_meant::operands::delivers_kind;
use elan_meant::part::{actions, both_written, four_written, may_deliver, unit_doing, variable};
use elan_meant::row::Judged;
use elan_scope::trouble::Trouble;
use elan_types::{Action, PlacePhrase, ValuePhrase, Way, Why};
use eu_base::Kind;
use std::alloc::Global;

/// What a loop does in its turns: the condition of WHILE, its units, and the condition of UNTIL.
#[derive(Drop)]
pub struct Turns {
    pub condition: Meant,
    pub units: Meant,
    pub until: Meant,
}

impl Turns {
    fn let_go(self) {
        let Turns {
            condition,
            units,
            until,
        } = self;
        condition.let_go();
        units.let_go();
        until.let_go();
    }
}

/// The counter of a loop, its first value, and its limit.
#[derive(Drop)]
pub struct Bounds {
    pub name: Meant,
    pub from: Meant,
    pub limit: Meant,
}

impl Bounds {
    fn let_go(self) {
        let Bounds { name, from, limit } = self;
        name.let_go();
        from.let_go();
        limit.let_go();
    }
}

fn conditions(turns: &Turns) -> bool
    ensures { result ≡ spec.conditions turns.now.condition turns.now.until }
{
    may_deliver(Kind::Truth, &turns.condition) && may_deliver(Kind::Truth, &turns.until)
}

fn uncounted(alloc: Global, turns: Turns) -> Judged
    ensures { Tells result (gives (walk.uncounted turns.condition turns.units turns.until)) }
{
    let Turns {
        condition,
        units,
        until,
    } = turns;
    match both_written(alloc, condition, until) {
        Err(_refusal) => {
            units.let_go();
            Err(Trouble::NoMemory)
        }
        Ok((condition, until)) => {
            let units = actions(alloc, units);
            unit_doing(
                alloc,
                Action::Loop {
                    condition,
                    units,
                    until,
                },
            )
        }
    }
}

/// A loop without counter.
pub fn repeated(alloc: Global, at: u32, turns: Turns) -> Judged
    ensures { Tells result (spec.loop at turns.condition turns.units turns.until) }
{
    if conditions(&turns) {
        uncounted(alloc, turns)
    } else {
        turns.let_go();
        Err(Trouble::Breaks(at, Why::WrongType))
    }
}

fn first_value(from: Option<ValuePhrase>) -> ValuePhrase
    ensures { result ≡ walk.first_value from }
{
    match from {
        None => ValuePhrase::Number(1),
        Some(value) => value,
    }
}

fn are_numbers(bounds: &Bounds) -> bool
    ensures { result ≡ walk.are_numbers bounds.now.name bounds.now.from bounds.now.limit }
{
    delivers_kind(Kind::Int, &bounds.name)
        && may_deliver(Kind::Int, &bounds.from)
        && may_deliver(Kind::Int, &bounds.limit)
}

fn count(
    alloc: Global,
    way: Way,
    from: Meant,
    limit: Meant,
    turns: Turns,
    counter: PlacePhrase,
) -> Judged
    ensures { Tells result (gives (spec.count way from limit turns.condition turns.units turns.until counter)) }
{
    let Turns {
        condition,
        units,
        until,
    } = turns;
    match four_written(alloc, (from, limit), (condition, until)) {
        Err(_refusal) => {
            counter.let_go();
            units.let_go();
            Err(Trouble::NoMemory)
        }
        Ok(((from, limit), (condition, until))) => {
            let units = actions(alloc, units);
            unit_doing(
                alloc,
                Action::Count {
                    counter,
                    from: first_value(from),
                    way,
                    limit,
                    condition,
                    units,
                    until,
                },
            )
        }
    }
}

// A variable is needed as a counter.
fn counting(alloc: Global, at: u32, way: Way, bounds: Bounds, turns: Turns) -> Judged
    ensures { Tells result (and_then (parts.variable at bounds.name)
        (λ x. gives (spec.count way bounds.from bounds.limit turns.condition turns.units turns.until x))) }
{
    let Bounds { name, from, limit } = bounds;
    match variable(at, name) {
        Err(trouble) => {
            from.let_go();
            limit.let_go();
            turns.let_go();
            Err(trouble)
        }
        Ok(counter) => count(alloc, way, from, limit, turns, counter),
    }
}

/// A loop with a counter.
pub fn counted(alloc: Global, at: u32, way: Way, bounds: Bounds, turns: Turns) -> Judged
    ensures { Tells result (spec.counted at way bounds.name bounds.from bounds.limit turns.condition turns.units turns.until) }
{
    if are_numbers(&bounds) && conditions(&turns) {
        counting(alloc, at, way, bounds, turns)
    } else {
        bounds.let_go();
        turns.let_go();
        Err(Trouble::Breaks(at, Why::WrongType))
    }
}
