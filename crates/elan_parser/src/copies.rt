//! Copies of tokens.

ghost use Rattle.std.specs.Prelude.{◌≡◌, IfOk, ◌++◌};
ghost use Rattle.elan_grammar.specs.Stops as stops;

use containers::{Bytes, List, NoMemory};
use elan_grammar::Continuation;
use elan_tree::{Key, Sign, Token, Word};
use std::alloc::Global;

fn copied_bytes(alloc: Global, bytes: &Bytes) -> Result<Bytes, NoMemory>
    ensures { IfOk result (λ copy. copy ≡ bytes.now) }
{
    Bytes::from(alloc, bytes.as_slice())
}

fn copied_word(alloc: Global, word: &Word) -> Result<Word, NoMemory>
    ensures { IfOk result (λ copy. copy ≡ word.now) }
{
    Ok(match word {
        Word::Ident(bytes) => Word::Ident(copied_bytes(alloc, bytes)?),
        Word::Bold(bytes) => Word::Bold(copied_bytes(alloc, bytes)?),
        Word::Key(key) => Word::Key(*key),
        Word::Sign(sign) => Word::Sign(*sign),
        Word::Number(number) => Word::Number(*number),
        Word::Text(bytes) => Word::Text(copied_bytes(alloc, bytes)?),
    })
}

fn copied_token(alloc: Global, token: &Token) -> Result<Token, NoMemory>
    ensures { IfOk result (λ copy. copy ≡ token.now) }
{
    Ok(Token {
        what: copied_word(alloc, &token.what)?,
        at: token.at,
        len: token.len,
    })
}

/// Copies of these tokens.
fn copied(alloc: Global, tokens: &[Token]) -> Result<List<Token>, NoMemory>
    ensures { IfOk result (λ copies. copies ≡ tokens.now) }
{
    let mut copies = List::new(alloc);
    for token in tokens {
        copies.push(copied_token(alloc, token)?)?;
    }
    Ok(copies)
}

fn token_of(what: Word) -> Token
    ensures { result ≡ stops.token_of what }
{
    Token {
        what,
        at: 1,
        len: 1,
    }
}

fn a_name(alloc: Global) -> Result<Token, NoMemory>
    ensures { IfOk result (λ token. token ≡ stops.a_name) }
{
    Ok(token_of(Word::Ident(Bytes::from(alloc, b"a")?)))
}

/// A front, and what stands behind it.
#[tactic(auto, using(crate::proofs::Fronts::none_behind, crate::proofs::Fronts::two_behind))]
pub fn continued(
    alloc: Global,
    front: &[Token],
    behind: Continuation,
) -> Result<List<Token>, NoMemory>
    ensures { IfOk result (λ all. all ≡ front.now ++ stops.tokens_of behind) }
{
    let mut all = copied(alloc, front)?;
    match behind {
        Continuation::End => {}
        Continuation::Name => all.push(a_name(alloc)?)?,
        Continuation::Refinement => {
            all.push(a_name(alloc)?)?;
            all.push(token_of(Word::Sign(Sign::Colon)))?;
        }
        Continuation::Colon => all.push(token_of(Word::Sign(Sign::Colon)))?,
        Continuation::Declaration => all.push(token_of(Word::Key(Key::Var)))?,
    }
    Ok(all)
}
