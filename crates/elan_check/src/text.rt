//! The meaning of a text.

ghost use Rattle.std.specs.Prelude.{IfOk};
ghost use Rattle.elan_types.specs.Typing.{IsWellTyped};
ghost use Rattle.elan_types.specs.declared.core_phrase.Core.{Core};
ghost use Rattle.elan_tree.specs.declared.tree.Tree.{Tree};
ghost use Rattle.elan_scope.specs.Ruled.{Fault};
ghost use Rattle.elan_check.specs.Packets.{AreCompiled};
ghost use Rattle.elan_check.specs.Text as text;

use crate::error::CheckError;
use crate::text_core::core_of;
use elan_scope::env::Env;
use elan_tree::Tree;
use elan_types::Core;
use std::alloc::Global;

/// The one core of a text that stands behind packets, or the first phrase in text order that breaks a rule though all its parts
/// have meaning, and the rule.
pub fn check(alloc: Global, tree: &Tree, packets: &Env) -> Result<Core, CheckError>
    requires { AreCompiled packets.now }
    // What it gives is the meaning.
    ensures meaning { IfOk result (λ core. text.Means packets.now tree.now core) }
    // A text that has a meaning is not refused.
    ensures only { (core : Core) → text.Means packets.now tree.now core → text.IsCore core result }
    // The refusal is the first one.
    ensures refused { text.IsRefusal (text.Refused packets.now tree.now) result }
    // A core is well typed, so code can be made of it.
    ensures typed { IfOk result (λ core. IsWellTyped core) }
{
    core_of(alloc, packets, tree)
}
