//! A cursor over tokens: it stands before the next one.

ghost use Rattle.std.specs.Prelude.{◌≡◌, ◌<◌, ◌||◌, nat_lt, Ok, Err, IfOk};
ghost use Rattle.elan_grammar.specs.Rule as rule;
ghost use Rattle.elan_grammar.specs.Rule.{Gives};
ghost use Rattle.elan_grammar.specs.Kinds as kinds;
ghost use Rattle.elan_grammar.specs.Terminals as spec;

use crate::kind::{ahead, is_init, is_key, is_level, is_rep, is_sign, is_symbol, kind_of};
use containers::{Bytes, NoMemory};
use elan_grammar::{Joint, Kind, ParseError};
use elan_tree::{
    Access, Constant, Export, Expr, Key, Label, Name, Operator, OperatorName, Sign, Size, Token,
    TypePhrase, Word,
};
use std::alloc::Global;

fn copied(alloc: Global, text: &Bytes) -> Result<Bytes, NoMemory>
    ensures { IfOk result (λ copy. copy ≡ text.now) }
{
    Bytes::from(alloc, text.as_slice())
}

fn named(alloc: Global, at: u32, text: &Bytes) -> Result<Name, NoMemory>
    ensures { IfOk result (λ name. name ≡ spec.named_at at text.now) }
{
    let text = copied(alloc, text)?;
    Ok(Name { at, text })
}

/// Goes past the next token, where it is one of these; what was found in it.
macro_rules! take {
    ($cursor:ident, $first:ident, $($word:pat $(if $test:expr)? => $found:expr),+) => {
        match $cursor.rest {
            [] => Err($cursor.refuse()),
            [$first, rest @ ..] => {
                let found = match &$first.what {
                    $($word $(if $test)? => $found,)+
                    _ => return Err($cursor.refuse()),
                };
                $cursor.rest = rest;
                Ok(found)
            }
        }
    };
}

/// Whether the next token is one of these.
macro_rules! sees {
    ($cursor:ident, $($word:pat $(if $test:expr)?),+) => {
        match $cursor.rest {
            [] => false,
            [first, ..] => match &first.what {
                $($word $(if $test)? => true,)+
                _ => false,
            },
        }
    };
}

/// The tokens that are left.
#[derive(Drop)]
pub struct Cursor<'a> {
    pub rest: &'a [Token],
}

impl<'a> Cursor<'a> {
    /// What stands next.
    pub fn ahead(&self) -> Kind
        ensures { result ≡ kinds.ahead self.now.rest.now }
    {
        ahead(self.rest)
    }

    /// Whether this keyword stands next.
    pub fn sees_key(&self, key: Key) -> bool
        ensures { result ≡ (spec.keyword key).starts self.now.rest.now }
    {
        sees!(self, word if is_key(key, kind_of(word)))
    }

    /// Whether this sign stands next.
    pub fn sees_sign(&self, sign: Sign) -> bool
        ensures { result ≡ (spec.mark sign).starts self.now.rest.now }
    {
        sees!(self, word if is_sign(sign, kind_of(word)))
    }

    /// Whether `::` or `:=` stands next.
    pub fn sees_init(&self) -> bool
        ensures { result ≡ (spec.init_mark).starts self.now.rest.now }
    {
        sees!(self, word if is_init(kind_of(word)))
    }

    /// Whether REP or REPEAT stands next.
    pub fn sees_rep(&self) -> bool
        ensures { result ≡ (spec.rep).starts self.now.rest.now }
    {
        sees!(self, word if is_rep(kind_of(word)))
    }

    /// Whether an identifier stands next.
    pub fn sees_ident(&self) -> bool
        ensures { result ≡ (spec.ident).starts self.now.rest.now }
    {
        sees!(self, Word::Ident(_))
    }

    /// Whether a bold word stands next.
    pub fn sees_bold(&self) -> bool
        ensures { result ≡ (spec.bold).starts self.now.rest.now }
    {
        sees!(self, Word::Bold(_))
    }

    /// Whether a number, a text, TRUE or FALSE stands next.
    pub fn sees_literal(&self) -> bool
        ensures { result ≡ (spec.word spec.literal_of).starts self.now.rest.now }
    {
        sees!(
            self,
            Word::Number(_) | Word::Text(_) | Word::Key(Key::True | Key::False)
        )
    }

    /// Whether an operator stands next that may stand before its operand.
    pub fn sees_monadic(&self) -> bool
        ensures { result ≡ (spec.word spec.monadic_of).starts self.now.rest.now }
    {
        sees!(self, Word::Bold(_) | Word::Sign(Sign::Plus | Sign::Minus))
    }

    /// Whether an operator of a level stands next.
    pub fn sees_joint(&self, level: u8) -> bool
        ensures { result ≡ (spec.word (spec.joint_of level)).starts self.now.rest.now }
    {
        sees!(self, word @ (Word::Bold(_) | Word::Sign(_) | Word::Key(Key::Cand | Key::Cor)) if is_level(level, kind_of(word)))
    }

    /// Whether something stands next that an expression begins with.
    pub fn sees_expression(&self) -> bool
        ensures { result ≡ (spec.word spec.monadic_of).starts self.now.rest.now || ((spec.word spec.literal_of).starts self.now.rest.now
            || ((spec.mark Sign.LeftRound).starts self.now.rest.now || ((spec.keyword Key.Concr).starts self.now.rest.now
            || ((spec.keyword Key.If).starts self.now.rest.now || ((spec.keyword Key.Select).starts self.now.rest.now
            || (spec.ident).starts self.now.rest.now))))) }
    {
        self.sees_monadic()
            || self.sees_literal()
            || self.sees_sign(Sign::LeftRound)
            || self.sees_key(Key::Concr)
            || self.sees_key(Key::If)
            || self.sees_key(Key::Select)
            || self.sees_ident()
    }

    /// The refusal at this place.
    pub fn refuse(&self) -> ParseError
        ensures { result ≡ rule.refusal self.now.rest.now }
    {
        ParseError::NotElan(self.rest.len())
    }

    /// There is a depth above a phrase of this height.
    pub fn below(&self, height: u32, depth: u16) -> Result<(), ParseError>
        ensures reads { Gives ((rule.only (nat_lt height depth)).run self.now.rest.now) result self.now.rest.now }
        ensures low { IfOk result (λ _. height < depth) }
    {
        if height < u32::from(depth) {
            Ok(())
        } else {
            Err(self.refuse())
        }
    }

    /// Takes a keyword; its place.
    pub fn keyword(&mut self, key: Key) -> Result<u32, ParseError>
        ensures { Gives ((spec.keyword key).run self.old.rest.now) result self.new.rest.now }
    {
        take!(self, first, word if is_key(key, kind_of(word)) => first.at)
    }

    /// END and a keyword.
    #[tactic(auto, unfolding(elan_grammar::specs::Terminals::end_of))]
    pub fn end_of(&mut self, key: Key) -> Result<u32, ParseError>
        ensures { Gives ((spec.end_of key).run self.old.rest.now) result self.new.rest.now }
    {
        self.keyword(Key::End)?;
        self.keyword(key)
    }

    /// Takes a sign; its place.
    pub fn mark(&mut self, sign: Sign) -> Result<u32, ParseError>
        ensures { Gives ((spec.mark sign).run self.old.rest.now) result self.new.rest.now }
    {
        take!(self, first, word if is_sign(sign, kind_of(word)) => first.at)
    }

    /// Takes `::` or `:=`; its place.
    pub fn init_mark(&mut self) -> Result<u32, ParseError>
        ensures { Gives (spec.init_mark.run self.old.rest.now) result self.new.rest.now }
    {
        take!(self, first, word if is_init(kind_of(word)) => first.at)
    }

    /// Takes REP or REPEAT; its place.
    pub fn rep(&mut self) -> Result<u32, ParseError>
        ensures { Gives (spec.rep.run self.old.rest.now) result self.new.rest.now }
    {
        take!(self, first, word if is_rep(kind_of(word)) => first.at)
    }

    /// Takes an identifier.
    pub fn ident(&mut self, alloc: Global) -> Result<Name, ParseError>
        ensures { Gives (spec.ident.run self.old.rest.now) result self.new.rest.now }
    {
        take!(self, first, Word::Ident(text) => named(alloc, first.at, text)?)
    }

    /// Takes a bold word.
    pub fn bold(&mut self, alloc: Global) -> Result<Name, ParseError>
        ensures { Gives (spec.bold.run self.old.rest.now) result self.new.rest.now }
    {
        take!(self, first, Word::Bold(text) => named(alloc, first.at, text)?)
    }

    /// The name of what LEAVE leaves.
    pub fn leaving(&mut self, alloc: Global) -> Result<Name, ParseError>
        ensures { Gives ((spec.word spec.leaving_of).run self.old.rest.now) result self.new.rest.now }
    {
        take!(self, first, Word::Ident(text) | Word::Bold(text) => named(alloc, first.at, text)?)
    }

    /// Takes INT, BOOL, TEXT, TASK or DATASPACE.
    pub fn simple_type(&mut self) -> Result<TypePhrase, ParseError>
        ensures { Gives ((spec.word spec.simple_of).run self.old.rest.now) result self.new.rest.now }
    {
        take!(self, first,
            Word::Key(Key::Int) => TypePhrase::Int(first.at),
            Word::Key(Key::Bool) => TypePhrase::Bool(first.at),
            Word::Key(Key::Text) => TypePhrase::Text(first.at),
            Word::Key(Key::Task) => TypePhrase::Task(first.at),
            Word::Key(Key::Dataspace) => TypePhrase::Dataspace(first.at)
        )
    }

    /// Takes the size of a ROW.
    pub fn size(&mut self, alloc: Global) -> Result<Size, ParseError>
        ensures { Gives ((spec.word spec.size_of).run self.old.rest.now) result self.new.rest.now }
    {
        take!(self, first,
            Word::Number(number) => Size::Number(first.at, *number),
            Word::Ident(text) => Size::Named(named(alloc, first.at, text)?)
        )
    }

    /// Takes CONST or VAR.
    pub fn access(&mut self) -> Result<Access, ParseError>
        ensures { Gives ((spec.word spec.access_of).run self.old.rest.now) result self.new.rest.now }
    {
        take!(self, first,
            Word::Key(Key::Const) => Access::Const,
            Word::Key(Key::Var) => Access::Var
        )
    }

    /// Takes a number, a text, TRUE or FALSE, as the constant of a LET.
    pub fn constant(&mut self, alloc: Global) -> Result<Constant, ParseError>
        ensures { Gives ((spec.word spec.constant_of).run self.old.rest.now) result self.new.rest.now }
    {
        take!(self, first,
            Word::Number(number) => Constant::Number(first.at, *number),
            Word::Text(text) => Constant::Text(first.at, copied(alloc, text)?),
            Word::Key(Key::True) => Constant::Truth(first.at, true),
            Word::Key(Key::False) => Constant::Truth(first.at, false)
        )
    }

    /// Takes the label of a CASE.
    pub fn label(&mut self, alloc: Global) -> Result<Label, ParseError>
        ensures { Gives ((spec.word spec.label_of).run self.old.rest.now) result self.new.rest.now }
    {
        take!(self, first,
            Word::Number(number) => Label::Number(first.at, *number),
            Word::Ident(text) => Label::Named(named(alloc, first.at, text)?)
        )
    }

    /// A number behind a minus.
    pub fn negated(&mut self) -> Result<i16, ParseError>
        ensures { Gives ((spec.word spec.negated_of).run self.old.rest.now) result self.new.rest.now }
    {
        take!(self, first, Word::Number(number) if *number >= 0 => -*number)
    }

    /// Takes a number, a text, TRUE or FALSE, as an expression.
    pub fn literal(&mut self, alloc: Global) -> Result<Expr, ParseError>
        ensures { Gives ((spec.word spec.literal_of).run self.old.rest.now) result self.new.rest.now }
    {
        take!(self, first,
            Word::Number(number) => Expr::Number(first.at, *number),
            Word::Text(text) => Expr::Text(first.at, copied(alloc, text)?),
            Word::Key(Key::True) => Expr::Truth(first.at, true),
            Word::Key(Key::False) => Expr::Truth(first.at, false)
        )
    }

    /// Takes an operator that stands before its operand; its place and itself.
    pub fn monadic(&mut self, alloc: Global) -> Result<(u32, Operator), ParseError>
        ensures { Gives ((spec.word spec.monadic_of).run self.old.rest.now) result self.new.rest.now }
    {
        take!(self, first,
            Word::Sign(Sign::Plus) => (first.at, Operator::Sign(Sign::Plus)),
            Word::Sign(Sign::Minus) => (first.at, Operator::Sign(Sign::Minus)),
            Word::Bold(text) => (first.at, Operator::Named(copied(alloc, text)?))
        )
    }

    /// An operator of a level.
    pub fn joint(&mut self, alloc: Global, level: u8) -> Result<Joint, ParseError>
        ensures { Gives ((spec.word (spec.joint_of level)).run self.old.rest.now) result self.new.rest.now }
    {
        match self.rest {
            [] => Err(self.refuse()),
            [first, rest @ ..] => {
                if !is_level(level, kind_of(&first.what)) {
                    return Err(self.refuse());
                }
                let found = match &first.what {
                    Word::Bold(text) => Joint::Operator(Operator::Named(copied(alloc, text)?)),
                    Word::Sign(sign) => Joint::Operator(Operator::Sign(*sign)),
                    Word::Key(Key::Cand) => Joint::Cand,
                    Word::Key(Key::Cor) => Joint::Cor,
                    _ => return Err(self.refuse()),
                };
                self.rest = rest;
                Ok(found)
            }
        }
    }

    /// Takes the name of an operator.
    pub fn operator(&mut self, alloc: Global) -> Result<OperatorName, ParseError>
        ensures { Gives ((spec.word spec.operator_of).run self.old.rest.now) result self.new.rest.now }
    {
        take!(self, first,
            Word::Bold(text) => OperatorName { at: first.at, operator: Operator::Named(copied(alloc, text)?) },
            Word::Sign(sign) if is_symbol(*sign) => OperatorName { at: first.at, operator: Operator::Sign(*sign) }
        )
    }

    /// Takes a name that a packet offers.
    pub fn export(&mut self, alloc: Global) -> Result<Export, ParseError>
        ensures { Gives ((spec.word spec.export_of).run self.old.rest.now) result self.new.rest.now }
    {
        take!(self, first,
            Word::Ident(text) => Export::Ident(named(alloc, first.at, text)?),
            Word::Bold(text) => Export::Bold(named(alloc, first.at, text)?),
            Word::Sign(sign) if is_symbol(*sign) => Export::Sign(first.at, *sign)
        )
    }
}

/// Whether a word is the name of this operator.
pub fn is_operator_name(operator: &Operator, word: &Word) -> bool
    ensures { result ≡ spec.same_operator operator.now word.now }
{
    match (operator, word) {
        (Operator::Named(name), Word::Bold(text)) => text.as_slice() == name.as_slice(),
        (Operator::Sign(sign), Word::Sign(other)) => is_symbol(*other) && *sign == *other,
        _ => false,
    }
}
