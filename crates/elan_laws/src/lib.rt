//! Laws of meaning: limits of depth, where a text is refused, in which order its phrases stand, what rules are given, and what is known
//! of bodies.
#![tactic(auto)]

mod bodies;
mod names;
mod places;

ghost use Rattle.std.specs.Prelude.{◌≤◌, List, Bool};
ghost use Rattle.elan_grammar.specs.Depth.{tree_depth};
ghost use Rattle.elan_grammar.specs.Reads.{Reads, ReadsAtAnyDepth};

pub use bodies::what_is_known_is_settled;
use elan_tree::{Token, Tree};
pub use names::{each_rule_gets_what_it_asks_for, what_is_chosen_suits};
pub use places::{a_refusal_has_a_place_of_the_text, phrases_stand_in_text_order};

/// The limits that the rules bear are the depth of the tree and nothing else: a text reads as a tree exactly where the grammar
/// without limit reads it as that tree, and the tree is at most 400 deep.
pub fn depth_alone()
    ensures reads { (packet : Bool) (tokens : List Token) (t : Tree) → Reads packet tokens t → ReadsAtAnyDepth packet tokens t × (tree_depth t ≤ 400) }
    ensures all { (packet : Bool) (tokens : List Token) (t : Tree) → ReadsAtAnyDepth packet tokens t → tree_depth t ≤ 400 → Reads packet tokens t }
{}
