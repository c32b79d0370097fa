//! A law of what is known of bodies.

ghost use Rattle.elan_tree.specs.declared.tree.Tree.{Tree};
ghost use Rattle.elan_laws.specs.Below.elan_scope.specs.declared.env.Env.{Env};
ghost use Rattle.elan_laws.specs.Settled.{IsSettled};

/// What is known of the bodies of a text is what they deliver: a PROC or OP as its heading says, a refinement as its last
/// unit does, judged with all that is known.
pub fn what_is_known_is_settled()
    ensures { (env : Env) → (t : Tree) → IsSettled env t }
{}
