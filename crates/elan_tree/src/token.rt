//! Tokens.

use containers::{Bytes, List};

/// A token, and where it stands in its text.
#[derive(Drop)]
pub struct Token {
    /// What it says.
    pub what: Word,
    /// The place of its first byte; the text's first byte has place 1.
    pub at: u32,
    /// The number of bytes that it takes up in the text.
    pub len: u32,
}

impl Token {
    /// Lets tokens go, with what they say.
    pub fn all_let_go(_tokens: List<Token>) {}
}

/// What a token says.
#[derive(Drop)]
pub enum Word {
    /// An identifier, without the spaces that may stand in it.
    Ident(Bytes),
    /// A name of a type or of an operator, in capital letters.
    Bold(Bytes),
    /// A keyword.
    Key(Key),
    /// A sign.
    Sign(Sign),
    /// A number of at most 32,767.
    Number(i16),
    /// The characters that a text denoter stands for.
    Text(Bytes),
}

/// A keyword: the word of its variant's name in capital letters.
#[derive(Clone, Copy, PartialEq, Eq, Debug)]
pub enum Key {
    Packet,
    Defines,
    End,
    Proc,
    Op,
    TypeWord,
    Let,
    Const,
    Var,
    Row,
    Struct,
    Bound,
    Int,
    Bool,
    Text,
    Task,
    Dataspace,
    If,
    Then,
    Elif,
    Else,
    Fi,
    Select,
    Of,
    Case,
    Otherwise,
    For,
    From,
    Upto,
    Downto,
    While,
    Rep,
    Repeat,
    Until,
    Per,
    Leave,
    With,
    True,
    False,
    Concr,
    Cand,
    Cor,
}

/// A sign.
#[derive(Clone, Copy, PartialEq, Eq, Debug)]
pub enum Sign {
    /// `(`
    LeftRound,
    /// `)`
    RightRound,
    /// `[`
    LeftSquare,
    /// `]`
    RightSquare,
    /// `,`
    Comma,
    /// `;`
    Semicolon,
    /// `.`
    Point,
    /// `:`
    Colon,
    /// `::`
    DoubleColon,
    /// `:=`
    Becomes,
    /// `=`
    Equal,
    /// `<>`
    Unequal,
    /// `<`
    Less,
    /// `<=`
    LessEqual,
    /// `>`
    Greater,
    /// `>=`
    GreaterEqual,
    /// `+`
    Plus,
    /// `-`
    Minus,
    /// `*`
    Times,
}
