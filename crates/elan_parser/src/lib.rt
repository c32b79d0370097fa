//! The parser of ELAN: from tokens to the tree that they spell.
#![tactic(auto)]

mod bodies;
mod copies;
mod error;
mod operators;
mod place;
mod procs;
mod texts;

ghost use Rattle.std.specs.Prelude.{◌≡◌, ℕ, Err, ◌≤◌, IfOk};
ghost use Rattle.elan_grammar.specs.Reads.{Reads};
ghost use Rattle.elan_grammar.specs.Depth.{tree_depth};
ghost use Rattle.elan_grammar.specs.Place.{IsPlace, place_of};

pub use copies::continued;
use elan_grammar::ParseError as ReadError;
pub use elan_grammar::{one_place, one_tree};
use elan_tree::{Token, Tree};
pub use error::ParseError;
use std::alloc::Global;
pub use texts::{left, whole};

/// The tree that the tokens spell, as a packet or as a program; else the place where they stop being a text of the grammar.
pub fn parse(alloc: Global, tokens: &[Token], packet: bool) -> Result<Tree, ParseError>
    ensures ok { IfOk result (λ t. Reads packet tokens.now t) }
    ensures deep { IfOk result (λ t. tree_depth t ≤ 400) }
    ensures refused { (at : ℕ) → result ≡ Err (ParseError.NotElan at) → (t : Tree) → Reads packet tokens.now t → ⊥ }
    ensures place { (at : ℕ) → result ≡ Err (ParseError.NotElan at) → (n : ℕ) × IsPlace packet tokens.now n × (at ≡ place_of tokens.now n) }
{
    match whole(alloc, tokens, packet) {
        Ok(tree) => Ok(tree),
        Err(ReadError::NoMemory) => Err(ParseError::NoMemory),
        Err(ReadError::NotElan(left)) => Err(ParseError::NotElan(place::refusal_place(
            alloc, tokens, packet, left,
        )?)),
    }
}
