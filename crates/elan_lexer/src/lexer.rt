//! The tokens of a text.
ghost use Rattle.std.specs.Prelude.{◌≡◌, ◌<◌, ◌+◌, ◌^◌, length, IfOk, OnOk};
ghost use Rattle.elan_lexer.specs.Kept as kept;
ghost use Rattle.elan_lexer.specs.Law as law;
ghost use Rattle.elan_lexer.specs.Scan as scan;
ghost use Rattle.elan_lexer.specs.Tokens as spec;

use crate::error::LexError;
use crate::front::Front;
use crate::scan::scan;
use containers::{List, NoMemory};
use elan_tree::{Key, Token, Word};
use std::alloc::Global;

/// The most tokens that a text may have.
const MOST: usize = 8000;

/// The tokens so far, and whether there are more than are kept.
#[derive(Drop)]
struct Found {
    tokens: List<Token>,
    over: bool,
}

impl Found {
    /// Takes a token whose first byte has this index in the text.
    fn add(&mut self, what: Word, index: usize, len: usize) -> Result<(), NoMemory>
        requires index { index + 1 < 2 ^ 32 }
        requires len { len < 2 ^ 32 }
        ensures { OnOk result (self.new ≡ kept.added self.old (kept.token what index len)) }
    {
        if self.tokens.len() < MOST {
            self.tokens.push(Token {
                what,
                at: index as u32 + 1,
                len: len as u32,
            })?;
        } else {
            self.over = true;
        }
        Ok(())
    }
}

/// The longest piece at the front of a text.
fn first(alloc: Global, text: &[u8]) -> Result<Front, NoMemory>
    requires { 0 < length text.now }
    ensures { IfOk result (λ f. scan.IsLongest text.now f) }
{
    let front = scan(alloc, text)?;
    Ok(front)
}

/// The tokens of a text, in order. `NoToken` gives the place of the first token or comment that can't be read; it comes before
/// `TooMany`, which says that there are more than 8,000 tokens.
pub fn tokens(alloc: Global, text: &[u8]) -> Result<List<Token>, LexError>
    requires { length text.now < 2 ^ 32 }
    ensures answer { spec.Answers text.now result }
    ensures places { IfOk result (λ list. law.InOrder 1 (1 + length text.now) list) }
{
    let mut found = Found {
        tokens: List::new(alloc),
        over: false,
    };
    let mut index: usize = 0;
    'pieces: while index < text.len() {
        match first(alloc, &text[index..])? {
            Front::Skips(len) => index += len,
            Front::Holds(word, len) => {
                found.add(word, index, len)?;
                index += len;
            }
            Front::Ends(key, len) => {
                found.add(Word::Key(Key::End), index, 3)?;
                found.add(Word::Key(key), index + 3, len - 3)?;
                index += len;
            }
            Front::Stuck => return Err(LexError::NoToken(index as u32 + 1)),
        }
    }
    if found.over {
        Err(LexError::TooMany)
    } else {
        Ok(found.tokens)
    }
}

/// Law: a text is cut into pieces in one way, in which each is the longest that begins at its place.
pub fn longest_match(text: &[u8])
    ensures { law.LongestMatch text.now }
{}
