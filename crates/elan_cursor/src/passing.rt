//! Signs and keywords behind what was read.

ghost use Rattle.std.specs.Prelude.{◌≡◌, ◌<◌, IfOk};
ghost use Rattle.elan_cursor.specs.Passing.{Passes, StandsBefore};
ghost use Rattle.elan_grammar.specs.Rule as rule;
ghost use Rattle.elan_grammar.specs.Rule.{Gives};
ghost use Rattle.elan_grammar.specs.Terminals as spec;

use crate::cursor::{Cursor, is_operator_name};
use crate::kind::{is_key, is_sign, kind_of};
use elan_grammar::ParseError;
use elan_grammar::tall::and;
use elan_tree::{Key, Name, OperatorName, Sign, Word};

impl<'a> Cursor<'a> {
    /// Goes past a keyword, where it stands next; whether it does.
    pub fn passes_key(&mut self, key: Key) -> bool
        ensures { Passes (spec.keyword key) self.old.rest.now result self.new.rest.now }
    {
        match self.rest {
            [] => false,
            [first, rest @ ..] => {
                if !is_key(key, kind_of(&first.what)) {
                    return false;
                }
                self.rest = rest;
                true
            }
        }
    }

    /// Goes past a sign, where it stands next; whether it does.
    pub fn passes_sign(&mut self, sign: Sign) -> bool
        ensures { Passes (spec.mark sign) self.old.rest.now result self.new.rest.now }
    {
        match self.rest {
            [] => false,
            [first, rest @ ..] => {
                if !is_sign(sign, kind_of(&first.what)) {
                    return false;
                }
                self.rest = rest;
                true
            }
        }
    }

    /// Goes past the identifier that has this name, where it stands next; whether it does.
    pub fn passes_same(&mut self, name: &Name) -> bool
        ensures { Passes (spec.word (spec.same_of name.now)) self.old.rest.now result self.new.rest.now }
    {
        match self.rest {
            [] => false,
            [first, rest @ ..] => {
                if !is_name(name, &first.what) {
                    return false;
                }
                self.rest = rest;
                true
            }
        }
    }

    /// Goes past the name of this operator, where it stands next; whether it does.
    pub fn passes_same_operator(&mut self, name: &OperatorName) -> bool
        ensures { Passes (spec.word (spec.same_operator_of name.now)) self.old.rest.now result self.new.rest.now }
    {
        match self.rest {
            [] => false,
            [first, rest @ ..] => {
                if !is_operator_name(&name.operator, &first.what) {
                    return false;
                }
                self.rest = rest;
                true
            }
        }
    }

    /// Takes the keyword that a phrase begins with, where there is a depth for the phrase; its place.
    pub fn opening(&mut self, key: Key, depth: u16) -> Result<u32, ParseError>
        ensures reads { Gives ((rule.below 0 depth (spec.keyword key)).run self.old.rest.now) result self.new.rest.now }
        ensures low { IfOk result (λ _. 0 < depth) }
    {
        self.below(0, depth)?;
        self.keyword(key)
    }

    /// Takes the sign that a phrase goes on with, where there is a depth above what it begins with, which is so high; its place.
    pub fn opening_sign(&mut self, sign: Sign, height: u32, depth: u16) -> Result<u32, ParseError>
        ensures reads { Gives ((rule.below height depth (spec.mark sign)).run self.old.rest.now) result self.new.rest.now }
        ensures low { IfOk result (λ _. height < depth) }
    {
        self.below(height, depth)?;
        self.mark(sign)
    }
}

/// Whether a word is the identifier that has this name.
fn is_name(name: &Name, word: &Word) -> bool
    ensures { result ≡ rule.is_some (spec.same_of name.now 0 word.now) }
{
    match word {
        Word::Ident(text) => text.as_slice() == name.text.as_slice(),
        _ => false,
    }
}

/// What was read before a keyword.
pub fn before_key<T: Drop>(
    read: Result<T, ParseError>,
    cursor: &mut Cursor<'_>,
    key: Key,
) -> Result<T, ParseError>
    ensures { StandsBefore ((spec.keyword key).run cursor.old.rest.now) read result cursor.new.rest.now }
{
    let (read, _) = and(read?, cursor.keyword(key))?;
    Ok(read)
}

/// What was read before a sign.
pub fn before_sign<T: Drop>(
    read: Result<T, ParseError>,
    cursor: &mut Cursor<'_>,
    sign: Sign,
) -> Result<T, ParseError>
    ensures { StandsBefore ((spec.mark sign).run cursor.old.rest.now) read result cursor.new.rest.now }
{
    let (read, _) = and(read?, cursor.mark(sign))?;
    Ok(read)
}

/// What was read before END and a keyword.
pub fn before_end<T: Drop>(
    read: Result<T, ParseError>,
    cursor: &mut Cursor<'_>,
    key: Key,
) -> Result<T, ParseError>
    ensures { StandsBefore ((spec.end_of key).run cursor.old.rest.now) read result cursor.new.rest.now }
{
    let (read, _) = and(read?, cursor.end_of(key))?;
    Ok(read)
}
