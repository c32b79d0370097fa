//! What is asked of a text, and the answer as a text.

use crate::shown;
use elan_lexer::tokens;
use elan_parser::{ParseError, parse};
use elan_tree::{LevelUnit, Token, Tree, Word};
use std::alloc::Global;

/// What is asked of a text.
#[derive(Clone, Copy)]
pub enum Asked {
    /// Its tokens.
    Tokens,
    /// How many tokens it has.
    Count,
    /// Whether it is a program.
    Program,
    /// Whether it is a packet.
    Packet,
    /// How the operators of its first unit hold.
    Groups,
}

/// Adds to an answer. Where memory is refused, the answer is not the one that a row tells, so nothing else has to say it.
pub fn put(out: &mut String, text: &str) {
    let _put = out.push_str(text).is_ok();
}

fn put_number(out: &mut String, number: usize) {
    let _put = write!(out, "{number}").is_ok();
}

/// The answer: `tree`, or the place where the text is refused, where that is asked.
pub fn answer(alloc: Global, text: &str, asked: Asked) -> String {
    let mut out = String::new(alloc);
    read(alloc, &mut out, text, asked);
    out
}

fn read(alloc: Global, out: &mut String, text: &str, asked: Asked) {
    if text.len() > 20_000 {
        return put(out, "too long");
    }
    match tokens(alloc, text.as_bytes()) {
        Ok(found) => {
            of_tokens(alloc, out, found.as_slice(), asked);
            Token::all_let_go(found);
        }
        Err(error) => {
            let _put = write!(out, "{error:?}").is_ok();
        }
    }
}

fn of_tokens(alloc: Global, out: &mut String, tokens: &[Token], asked: Asked) {
    match asked {
        Asked::Tokens => list(out, tokens),
        Asked::Count => put_number(out, tokens.len()),
        Asked::Program => of_tree(alloc, out, tokens, false, false),
        Asked::Packet => of_tree(alloc, out, tokens, true, false),
        Asked::Groups => of_tree(alloc, out, tokens, false, true),
    }
}

fn of_tree(alloc: Global, out: &mut String, tokens: &[Token], packet: bool, groups: bool) {
    match parse(alloc, tokens, packet) {
        Ok(tree) => {
            if groups {
                first_unit(out, &tree);
            } else {
                put(out, "tree");
            }
            tree.let_go();
        }
        Err(ParseError::NotElan(place)) => put_number(out, place as usize),
        Err(ParseError::NoMemory) => put(out, "no memory"),
    }
}

/// Writes the first unit of a program.
fn first_unit(out: &mut String, tree: &Tree) {
    if let Tree::Program(level) = tree {
        if let Some(LevelUnit::Plain(first)) = level.units.as_slice().first() {
            shown::unit(out, first);
        }
    }
}

fn list(out: &mut String, tokens: &[Token]) {
    for token in tokens {
        if !out.is_empty() {
            put(out, " ");
        }
        describe(out, &token.what);
        put(out, "@");
        put_number(out, token.at as usize);
        put(out, "+");
        put_number(out, token.len as usize);
    }
}

fn describe(out: &mut String, word: &Word) {
    match word {
        Word::Ident(name) => shown::word(out, name),
        Word::Bold(name) => {
            put(out, "'");
            shown::word(out, name);
        }
        Word::Key(key) => {
            let _put = write!(out, "{key:?}").is_ok();
        }
        Word::Sign(sign) => shown::sign(out, *sign),
        Word::Number(number) => shown::number(out, *number),
        Word::Text(text) => {
            put(out, "\"");
            shown::word(out, text);
            put(out, "\"");
        }
    }
}
