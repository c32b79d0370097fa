//! Laws of the grammar: a text has at most one tree, and one place where it stops being a text.

ghost use Rattle.std.specs.Prelude.{◌≡◌, ℕ, List, Bool};
ghost use Rattle.elan_grammar.specs.Reads.{Reads};
ghost use Rattle.elan_grammar.specs.Place.{IsPlace};

use elan_tree::{Token, Tree};

/// A list of tokens has at most one tree.
pub fn one_tree()
    ensures { (packet : Bool) (tokens : List Token) (t u : Tree) → Reads packet tokens t → Reads packet tokens u → t ≡ u }
{}

/// A list of tokens has one place.
pub fn one_place()
    ensures some { (packet : Bool) (tokens : List Token) → (n : ℕ) × IsPlace packet tokens n }
    ensures one { (packet : Bool) (tokens : List Token) (n m : ℕ) → IsPlace packet tokens n → IsPlace packet tokens m → n ≡ m }
{}
