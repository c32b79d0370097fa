//! Laws of what rules are given.

ghost use Rattle.std.specs.Prelude.{◌≡◌, ℕ, List, Some};
ghost use Rattle.elan_tree.specs.declared.tree.Tree.{Tree};
ghost use Rattle.elan_types.specs.declared.core_phrase.Actual.{Actual};
ghost use Rattle.elan_laws.specs.Below.elan_names.specs.declared.heading.Sort.{Sort};
ghost use Rattle.elan_laws.specs.Below.elan_scope.specs.declared.env.Env.{Env};
ghost use Rattle.elan_laws.specs.Below.elan_scope.specs.declared.scope.Scope.{Scope};
ghost use Rattle.elan_laws.specs.Below.elan_scope.specs.Scope.{Callable};
ghost use Rattle.elan_laws.specs.Below.elan_meant.specs.declared.meant.Meant.{Meant};
ghost use Rattle.elan_laws.specs.Below.elan_meant.specs.Operands.{chosen};
ghost use Rattle.elan_laws.specs.Below.elan_meant.specs.Verdict.{gives};
ghost use Rattle.elan_laws.specs.Below.value_rules.specs.Calls.{given, performed};
ghost use Rattle.elan_laws.specs.Below.elan_judge.specs.Level.{text};
ghost use Rattle.elan_laws.specs.Served.{AreServed};

/// In every text each rule is given what it asks for: so many parts, and what it looks up. Each name that is declared,
/// also that of a type, and each heading of a PROC or OP, is found in the scope that declares it, and what an identifier denotes
/// as a refinement is a body.
pub fn each_rule_gets_what_it_asks_for()
    ensures { (env : Env) → (t : Tree) → AreServed (text env t) }
{}

/// What is chosen by its name and the types of its operands does something with what it is given.
pub fn what_is_chosen_suits()
    ensures { (at : ℕ) → (s : Scope) → (sort : Sort) → (name : List ℕ) → (ms : List Meant) → (c : Callable) → (actuals : List Actual)
        → chosen s sort name ms ≡ Some c → given at c.parameters ms ≡ gives actuals
        → (m : Meant) × (performed at c.callee c.result actuals ≡ gives m) }
{}
