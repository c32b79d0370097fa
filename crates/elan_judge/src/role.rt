//! What units are asked for, by where they stand in their list.

ghost use Rattle.std.specs.Prelude.{◌≡◌, map, option_map};
ghost use Rattle.elan_scope.specs.declared.scope.Scope.{Scope};
ghost use Rattle.elan_scope.specs.Known.{delivered};
ghost use Rattle.elan_judge.specs.Shape as shape;
ghost use Rattle.elan_judge.specs.walks.Steps as walk;

use elan_tree::Unit;
use elan_types::ElanType;

/// What the last unit of a list is asked for.
#[derive(Clone, Copy)]
pub enum Wanted<'a> {
    /// It may deliver what it will.
    Open,
    Nothing,
    Of(&'a ElanType),
}

impl<'a> Wanted<'a> {
    /// What the units of a PROC or OP with this result are asked for.
    pub fn of(result_type: Option<&'a ElanType>) -> Wanted<'a>
        ensures { walk.wanted result ≡ delivered (option_map (λ t. t.now) result_type.entry) }
    {
        match result_type {
            None => Wanted::Nothing,
            Some(of) => Wanted::Of(of),
        }
    }
}

/// Whether a unit is empty.
pub fn is_empty(unit: &Unit) -> bool
    ensures { (s : Scope) → result ≡ walk.is_empty (shape.unit s unit.now) }
{
    match unit {
        Unit::Empty => true,
        _ => false,
    }
}

/// Whether all units are empty.
pub fn all_empty(units: &[Unit]) -> bool
    ensures { (s : Scope) → result ≡ shape.all_empty (map (shape.unit s) units.now) }
{
    for unit in units {
        if !is_empty(unit) {
            return false;
        }
    }
    true
}

/// What a unit before these is asked for, if it is not empty, where their list has to deliver this.
pub fn asked<'a>(wanted: Wanted<'a>, unit: &Unit, rest: &[Unit]) -> Option<Wanted<'a>>
    ensures { (s : Scope) → option_map walk.wanted result ≡ walk.asked (walk.wanted wanted.entry) (shape.unit s unit.now) (map (shape.unit s) rest.now) }
{
    if is_empty(unit) {
        None
    } else if all_empty(rest) {
        Some(wanted)
    } else {
        Some(Wanted::Nothing)
    }
}
