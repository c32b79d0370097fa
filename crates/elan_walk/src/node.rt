//! The nodes of trees, and who looks at them.

ghost use Rattle.std.specs.Prelude.{Bool, [], ◌∷◌};

use elan_tree::{Constant, Name, Operator, TypePhrase};

/// How the names of a declaration are held.
#[derive(Clone, Copy)]
pub enum Held {
    Variable,
    Constant,
    /// By a BOUND variable, which denotes the content of a data space.
    Bound,
}

/// A node of a tree, as far as it has a name, a type or an operator.
#[derive(Clone, Copy)]
pub enum Node<'a> {
    /// An identifier that stands alone in an expression.
    Alone(&'a Name),
    /// A name with actuals, as a label, after FOR, PROC or LEAVE.
    Other(&'a Name),
    Operator(&'a Operator),
    /// The type of a declaration.
    Type(&'a TypePhrase),
    /// A name that is declared.
    Item(Held, &'a TypePhrase, &'a Name),
    /// A name that LET gives to a constant.
    Let(&'a Name, &'a Constant),
    /// A name that LET gives to a type.
    Abbreviation(&'a Name, &'a TypePhrase),
    /// A TYPE, with the place of the word, its name, and its concrete type.
    NewType(u32, &'a Name, &'a TypePhrase),
    /// The type of what BOUND variables denote.
    Content(&'a TypePhrase),
}

/// Who looks at the nodes of trees, and notes where memory was wanted.
pub trait Visitor {
    ghost use Rattle.elan_walk.specs.Nodes as spec;
    ghost use Rattle.elan_walk.specs.Walk.{Seen};

    /// What it is when it has seen a node.
    ghost after: { Self → spec.Node → Self };

    /// Whether memory was wanted. What it found is worth nothing then.
    ghost wanted: { Self → Bool };

    /// Looks at a node.
    fn visit(self, node: Node<'_>) -> Self
        ensures { Seen wanted after (spec.plain node.entry ∷ []) self result };
}
