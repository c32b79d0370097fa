//! Finds the longest piece at the front of a text.
ghost use Rattle.std.specs.Prelude.{◌≡◌, ◌<◌, length, IfOk};
ghost use Rattle.elan_lexer.specs.Pieces as pieces;
ghost use Rattle.elan_lexer.specs.Scan as spec;

use crate::class::{is_blank, is_digit, is_lower, is_upper};
use crate::front::Front;
use crate::reading::{
    capitals_len, characters, comment_end, digits_len, opens, rest_len, value, without_spaces,
};
use crate::tables::{end_word, keyword, sign_spelled};
use containers::{Bytes, NoMemory};
use elan_tree::Word;
use std::alloc::Global;

fn comment(curly: bool, rest: &[u8]) -> Front
    ensures { result ≡ spec.comment curly rest.now }
{
    match comment_end(curly, rest) {
        Some(len) => Front::Skips(len + 1),
        None => Front::Stuck,
    }
}

fn identifier(alloc: Global, text: &[u8]) -> Result<Front, NoMemory>
    requires { 0 < length text.now }
    ensures { IfOk result (λ f. f ≡ spec.ident text.now) }
{
    let len = rest_len(&text[1..]) + 1;
    Ok(Front::Holds(Word::Ident(without_spaces(alloc, &text[..len])?), len))
}

fn number(text: &[u8]) -> Front
    ensures { result ≡ spec.number text.now }
{
    let len = digits_len(text);
    let value = value(&text[..len]);
    if value <= 32767 {
        Front::Holds(Word::Number(value as i16), len)
    } else {
        Front::Stuck
    }
}

fn word_of(alloc: Global, spelling: &[u8]) -> Result<Word, NoMemory>
    ensures { IfOk result (λ w. w ≡ pieces.word_of spelling.now) }
{
    match keyword(spelling) {
        Some(key) => Ok(Word::Key(key)),
        None => Ok(Word::Bold(Bytes::from(alloc, spelling)?)),
    }
}

fn bold(alloc: Global, text: &[u8]) -> Result<Front, NoMemory>
    ensures { IfOk result (λ f. f ≡ spec.bold text.now) }
{
    let len = capitals_len(text);
    let spelling = &text[..len];
    match end_word(spelling) {
        Some(key) => Ok(Front::Ends(key, len)),
        None => Ok(Front::Holds(word_of(alloc, spelling)?, len)),
    }
}

fn denoter(alloc: Global, rest: &[u8]) -> Result<Front, NoMemory>
    ensures { IfOk result (λ f. f ≡ spec.denoter (pieces.characters 0 rest.now)) }
{
    match characters(alloc, rest)? {
        Some((bytes, len)) => Ok(Front::Holds(Word::Text(bytes), len + 1)),
        None => Ok(Front::Stuck),
    }
}

fn sign(text: &[u8]) -> Front
    ensures { result ≡ spec.sign text.now }
{
    let two = &text[..text.len().min(2)];
    if let Some(sign) = sign_spelled(two) {
        return Front::Holds(Word::Sign(sign), two.len());
    }
    match sign_spelled(&text[..text.len().min(1)]) {
        Some(sign) => Front::Holds(Word::Sign(sign), 1),
        None => Front::Stuck,
    }
}

/// The longest piece at the front of a text.
#[tactic(auto, unfolding(crate::specs::Scan::scan))]
pub fn scan(alloc: Global, text: &[u8]) -> Result<Front, NoMemory>
    ensures { IfOk result (λ f. f ≡ spec.scan text.now) }
{
    match text {
        [] => Ok(Front::Stuck),
        [b, rest @ ..] => {
            let b = *b;
            if is_blank(b) {
                Ok(Front::Skips(1))
            } else if is_lower(b) {
                identifier(alloc, text)
            } else if is_upper(b) {
                bold(alloc, text)
            } else if is_digit(b) {
                Ok(number(text))
            } else if b == b'"' {
                denoter(alloc, rest)
            } else if opens(true, text) {
                Ok(comment(true, rest))
            } else if opens(false, text) {
                Ok(comment(false, rest))
            } else {
                Ok(sign(text))
            }
        }
    }
}
