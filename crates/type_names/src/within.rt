//! The scope of a PROC or OP, entered and left.

ghost use Rattle.std.specs.Prelude.{◌≡◌, None, OnOk, OnErr};
ghost use Rattle.elan_scope.specs.declared.scope.Scope.{Scope};
ghost use Rattle.elan_scope.specs.declared.scope.Within.{Within};
ghost use Rattle.type_names.specs.Bodies as spec;

use crate::bodies::body_within;
use elan_scope::scope::Scope;
use elan_tree::{Body, Formal};
use eu_base::NoMemory;
use std::alloc::Global;

/// Enters the PROC or OP with this number, from the scope of its level.
pub fn enter(
    alloc: Global,
    scope: &mut Scope,
    number: usize,
    formals: &[Formal],
    body: &Body,
) -> Result<(), NoMemory>
    requires { scope.old.refinement ≡ None }
    ensures entered { OnOk result (scope.new ≡ spec.routine_scope scope.old
        (spec.body_within scope.old.types number formals.now body.now)) }
    ensures refused { OnErr result (scope.new ≡ scope.old) }
{
    let within = body_within(alloc, number, &scope.types, formals, body)?;
    scope.routine = Some(within);
    Ok(())
}

/// Leaves the PROC or OP that was entered.
pub fn leave(scope: &mut Scope)
    ensures { (s : Scope) → (w : Within) → s.routine ≡ None → s.refinement ≡ None → scope.old ≡ spec.routine_scope s w
        → scope.new ≡ s }
{
    scope.routine = None;
}
