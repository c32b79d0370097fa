//! Laws of places.

ghost use Rattle.std.specs.Prelude.{◌++◌, map};
ghost use Rattle.std.specs.List.{Contains};
ghost use Rattle.elan_tree.specs.declared.tree.Tree.{Tree};
ghost use Rattle.elan_laws.specs.Below.elan_scope.specs.declared.env.Env.{Env};
ghost use Rattle.elan_laws.specs.Below.elan_scope.specs.Ruled.{Fault};
ghost use Rattle.elan_laws.specs.Below.elan_rules.specs.Meaning.{phrases, IsFirst};
ghost use Rattle.elan_laws.specs.Below.elan_judge.specs.Level.{text};
ghost use Rattle.elan_check.specs.Text.{Refused, faults, known};
ghost use Rattle.elan_laws.specs.Places.{places, type_places};
ghost use Rattle.elan_laws.specs.Order.{Follows, IsSame, in_phrase, leaves};

/// The phrases of a text stand in text order, and none is left out: their places are those of the tree, a phrase before its
/// parts. In the order in which phrases are judged those that have no parts stand as in the text. The faults of types are
/// told in the order in which they stand.
pub fn phrases_stand_in_text_order()
    ensures all { (env : Env) → (t : Tree) → IsSame (in_phrase (text env t)) (places t) }
    ensures judged { (env : Env) → (t : Tree) → Follows (leaves (phrases (text env t))) (places t) }
    ensures types { (env : Env) → (t : Tree) → Follows (map (λ f. f.0) (faults env t)) (type_places t) }
{}

/// The first phrase that breaks a rule breaks it at a place of the text: that of a name that it shows or declares, or of a label,
/// an expression or a unit. A text is refused at such a place, or at one in a type as it is written, or at that of a TYPE.
pub fn a_refusal_has_a_place_of_the_text()
    ensures phrase { (env : Env) → (t : Tree) → (f : Fault) → IsFirst (known env t) (phrases (text env t)) f → Contains (places t) f.0 }
    ensures refused { (env : Env) → (t : Tree) → (f : Fault) → Refused env t f → Contains (places t ++ type_places t) f.0 }
{}
