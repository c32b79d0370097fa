//! Laws of meaning.

ghost use Rattle.std.specs.Prelude.{◌≡◌, ◌⊎◌};
ghost use Rattle.elan_scope.specs.declared.env.Env.{Env};
ghost use Rattle.elan_types.specs.declared.core_phrase.Core.{Core};
ghost use Rattle.elan_tree.specs.declared.tree.Tree.{Tree};
ghost use Rattle.elan_types.specs.Typing.{IsWellTyped};
ghost use Rattle.elan_scope.specs.Ruled.{Fault};
ghost use Rattle.elan_check.specs.Text.{Means, Refused, HasOneAnswer};
ghost use Rattle.elan_check.specs.Packets.{AreCompiled};

/// A text has at most one core.
pub fn one_core()
    ensures { (env : Env) → (t : Tree) → (c : Core) → (d : Core) → Means env t c → Means env t d → c ≡ d }
{}

/// A text is refused at one phrase, for one reason.
pub fn one_refusal()
    ensures { (env : Env) → (t : Tree) → (f : Fault) → (g : Fault) → Refused env t f → Refused env t g → f ≡ g }
{}

/// A text that has a core is not refused.
pub fn meant_is_not_refused()
    ensures { (env : Env) → (t : Tree) → (c : Core) → (f : Fault) → Means env t c → Refused env t f → ⊥ }
{}

/// Behind packets each text has a core or is refused, and not both.
pub fn each_text_has_one_answer()
    ensures { (env : Env) → AreCompiled env → (t : Tree) → HasOneAnswer env t }
{}

/// A core that a text means behind packets is well typed.
pub fn what_a_text_means_is_well_typed()
    ensures { (env : Env) → AreCompiled env → (t : Tree) → (c : Core) → Means env t c → IsWellTyped c }
{}
