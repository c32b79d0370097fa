//! What the parser looks at: the next token, and of some tokens what follows them.

ghost use Rattle.std.specs.Prelude.{◌≡◌, ◌==◌};
ghost use Rattle.elan_grammar.specs.Kinds as kinds;

use elan_grammar::{Kind, Tier};
use elan_tree::{Key, Sign, Token, Word};

/// Whether the kind is this keyword.
pub fn is_key(key: Key, kind: Kind) -> bool
    ensures { result ≡ kinds.is_key key kind }
{
    match kind {
        Kind::Key(other) => key == other,
        _ => false,
    }
}

/// Whether the kind is this sign.
pub fn is_sign(sign: Sign, kind: Kind) -> bool
    ensures { result ≡ kinds.is_sign sign kind }
{
    match kind {
        Kind::Sign(other) => sign == other,
        _ => false,
    }
}

fn tier_of(word: &[u8]) -> Tier
    ensures { result ≡ kinds.tier_of word.now }
{
    if word == b"AND".as_slice() {
        Tier::And
    } else if word == b"OR".as_slice() {
        Tier::Or
    } else if word == b"DIV".as_slice() || word == b"MOD".as_slice() {
        Tier::Times
    } else {
        Tier::Other
    }
}

/// The kind of a word, whatever follows it.
pub fn kind_of(word: &Word) -> Kind
    ensures { result ≡ kinds.kind_of word.now }
{
    match word {
        Word::Ident(_) => Kind::Ident,
        Word::Bold(text) => Kind::Bold(tier_of(text.as_slice())),
        Word::Key(key) => Kind::Key(*key),
        Word::Sign(sign) => Kind::Sign(*sign),
        Word::Number(_) => Kind::Number,
        Word::Text(_) => Kind::Text,
    }
}

fn first_kind(tokens: &[Token]) -> Kind
    ensures { result ≡ kinds.kind tokens.now }
{
    match tokens {
        [] => Kind::Nothing,
        [first, ..] => kind_of(&first.what),
    }
}

fn second(tokens: &[Token]) -> Kind
    ensures { result ≡ kinds.second tokens.now }
{
    match tokens {
        [] => Kind::Nothing,
        [_, rest @ ..] => first_kind(rest),
    }
}

fn point_by(first: Kind, second: Kind) -> Kind
    ensures { result ≡ kinds.point_by first second }
{
    match (first, second) {
        (Kind::Ident, Kind::Sign(Sign::Colon)) => Kind::Refines,
        (Kind::Ident, _) => Kind::Selects,
        _ => Kind::Sign(Sign::Point),
    }
}

fn comma_by(next: Kind) -> Kind
    ensures { result ≡ kinds.comma_by next }
{
    match next {
        Kind::Ident => Kind::GoesOn,
        _ => Kind::Sign(Sign::Comma),
    }
}

fn bold_by(tier: Tier, next: Kind) -> Kind
    ensures { result ≡ kinds.bold_by tier next }
{
    match next {
        Kind::Key(Key::Var | Key::Const | Key::Proc | Key::Op) => Kind::TypeName(tier),
        _ => Kind::Bold(tier),
    }
}

fn by_next(here: Kind, rest: &[Token]) -> Kind
    ensures { result ≡ kinds.by_next here rest.now }
{
    match here {
        Kind::Sign(Sign::Point) => point_by(first_kind(rest), second(rest)),
        Kind::Sign(Sign::Comma) => comma_by(first_kind(rest)),
        Kind::Bold(tier) => bold_by(tier, first_kind(rest)),
        other => other,
    }
}

/// What the parser sees before these tokens.
#[tactic(auto, unfolding(elan_grammar::specs::Kinds::ahead))]
pub fn ahead(tokens: &[Token]) -> Kind
    ensures { result ≡ kinds.ahead tokens.now }
{
    match tokens {
        [] => Kind::Nothing,
        [first, rest @ ..] => by_next(kind_of(&first.what), rest),
    }
}

// ---- the levels of operators: those of a lower level hold more tightly

/// No operator stands between two operands.
pub const OPERAND_LEVEL: u8 = 0;

const TIMES_LEVEL: u8 = 1;

const PLUS_LEVEL: u8 = 2;

const COMPARE_LEVEL: u8 = 3;

const AND_LEVEL: u8 = 4;

const OR_LEVEL: u8 = 5;
/// The level of bold words, and so of each expression.
pub const WORD_LEVEL: u8 = 6;

fn tier_level(tier: Tier) -> u8
    ensures { result ≡ kinds.tier_level tier }
{
    match tier {
        Tier::Times => TIMES_LEVEL,
        Tier::And => AND_LEVEL,
        Tier::Or => OR_LEVEL,
        Tier::Other => WORD_LEVEL,
    }
}

fn sign_level(sign: Sign) -> u8
    ensures { result ≡ kinds.loose (Kind.Sign sign) }
{
    match sign {
        Sign::Times => TIMES_LEVEL,
        Sign::Plus | Sign::Minus => PLUS_LEVEL,
        Sign::Equal
        | Sign::Unequal
        | Sign::Less
        | Sign::LessEqual
        | Sign::Greater
        | Sign::GreaterEqual => COMPARE_LEVEL,
        _ => 0,
    }
}

fn loose(kind: Kind) -> u8
    ensures { result ≡ kinds.loose kind }
{
    match kind {
        Kind::Bold(tier) | Kind::TypeName(tier) => tier_level(tier),
        Kind::Key(Key::Cand) => AND_LEVEL,
        Kind::Key(Key::Cor) => OR_LEVEL,
        Kind::Sign(sign) => sign_level(sign),
        _ => 0,
    }
}

/// An operator of this level.
pub fn is_level(level: u8, kind: Kind) -> bool
    ensures { result ≡ (kinds.loose kind == level) }
{
    loose(kind) == level
}

// ---- sets of kinds

/// REP or REPEAT.
pub fn is_rep(kind: Kind) -> bool
    ensures { result ≡ kinds.is_rep kind }
{
    matches!(kind, Kind::Key(Key::Rep | Key::Repeat))
}

/// A comma with an identifier behind it.
pub fn goes_on(kind: Kind) -> bool
    ensures { result ≡ kinds.goes_on kind }
{
    matches!(kind, Kind::GoesOn)
}

/// A point with an identifier behind it.
pub fn leads(kind: Kind) -> bool
    ensures { result ≡ kinds.leads kind }
{
    matches!(kind, Kind::Selects | Kind::Refines)
}

/// A point with an identifier behind it, and no colon behind that.
pub fn selects(kind: Kind) -> bool
    ensures { result ≡ kinds.selects kind }
{
    matches!(kind, Kind::Selects)
}

/// What an initial value stands behind: `::` or `:=`.
pub fn is_init(kind: Kind) -> bool
    ensures { result ≡ kinds.is_init kind }
{
    matches!(kind, Kind::Sign(Sign::DoubleColon | Sign::Becomes))
}

/// A sign that may name an operator.
pub fn is_symbol(sign: Sign) -> bool
    ensures { result ≡ kinds.is_symbol sign }
{
    match sign {
        Sign::Becomes => true,
        other => sign_level(other) > 0,
    }
}

/// What a unit begins with that begins with a type.
pub fn begins_typed(kind: Kind) -> bool
    ensures { result ≡ kinds.begins_typed kind }
{
    matches!(
        kind,
        Kind::TypeName(_)
            | Kind::Key(
                Key::Int
                    | Key::Bool
                    | Key::Text
                    | Key::Task
                    | Key::Dataspace
                    | Key::Row
                    | Key::Struct
            )
    )
}
