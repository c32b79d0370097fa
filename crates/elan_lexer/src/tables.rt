//! The keywords and the signs.
ghost use Rattle.std.specs.Prelude.{◌≡◌, map};
ghost use Rattle.elan_lexer.specs.Tables as spec;

use elan_tree::{Key, Sign};

const KEYWORDS: [(&[u8], Key); 42] = [
    (b"PACKET", Key::Packet),
    (b"DEFINES", Key::Defines),
    (b"END", Key::End),
    (b"PROC", Key::Proc),
    (b"OP", Key::Op),
    (b"TYPE", Key::TypeWord),
    (b"LET", Key::Let),
    (b"CONST", Key::Const),
    (b"VAR", Key::Var),
    (b"ROW", Key::Row),
    (b"STRUCT", Key::Struct),
    (b"BOUND", Key::Bound),
    (b"INT", Key::Int),
    (b"BOOL", Key::Bool),
    (b"TEXT", Key::Text),
    (b"TASK", Key::Task),
    (b"DATASPACE", Key::Dataspace),
    (b"IF", Key::If),
    (b"THEN", Key::Then),
    (b"ELIF", Key::Elif),
    (b"ELSE", Key::Else),
    (b"FI", Key::Fi),
    (b"SELECT", Key::Select),
    (b"OF", Key::Of),
    (b"CASE", Key::Case),
    (b"OTHERWISE", Key::Otherwise),
    (b"FOR", Key::For),
    (b"FROM", Key::From),
    (b"UPTO", Key::Upto),
    (b"DOWNTO", Key::Downto),
    (b"WHILE", Key::While),
    (b"REP", Key::Rep),
    (b"REPEAT", Key::Repeat),
    (b"UNTIL", Key::Until),
    (b"PER", Key::Per),
    (b"LEAVE", Key::Leave),
    (b"WITH", Key::With),
    (b"TRUE", Key::True),
    (b"FALSE", Key::False),
    (b"CONCR", Key::Concr),
    (b"CAND", Key::Cand),
    (b"COR", Key::Cor),
];

const END_WORDS: [(&[u8], Key); 7] = [
    (b"ENDIF", Key::If),
    (b"ENDREP", Key::Rep),
    (b"ENDREPEAT", Key::Repeat),
    (b"ENDPROC", Key::Proc),
    (b"ENDOP", Key::Op),
    (b"ENDPACKET", Key::Packet),
    (b"ENDSELECT", Key::Select),
];

const SIGNS: [(&[u8], Sign); 19] = [
    (b"(", Sign::LeftRound),
    (b")", Sign::RightRound),
    (b"[", Sign::LeftSquare),
    (b"]", Sign::RightSquare),
    (b",", Sign::Comma),
    (b";", Sign::Semicolon),
    (b".", Sign::Point),
    (b":", Sign::Colon),
    (b"::", Sign::DoubleColon),
    (b":=", Sign::Becomes),
    (b"=", Sign::Equal),
    (b"<>", Sign::Unequal),
    (b"<", Sign::Less),
    (b"<=", Sign::LessEqual),
    (b">", Sign::Greater),
    (b">=", Sign::GreaterEqual),
    (b"+", Sign::Plus),
    (b"-", Sign::Minus),
    (b"*", Sign::Times),
];

fn lookup<T: Copy>(mut table: &[(&[u8], T)], spelling: &[u8]) -> Option<T>
    ensures { result ≡ spec.lookup (map (λ entry. (entry.0.now, entry.1)) table.entry.now) spelling.now }
{
    while let [entry, rest @ ..] = table {
        if entry.0 == spelling {
            return Some(entry.1);
        }
        table = rest;
    }
    None
}

/// The keyword that is spelled so.
#[tactic(auto, unfolding(crate::specs::Tables::keywords))]
pub fn keyword(spelling: &[u8]) -> Option<Key>
    ensures { result ≡ spec.lookup spec.keywords spelling.now }
{
    lookup(&KEYWORDS, spelling)
}

/// The keyword that is written together with an END before it.
#[tactic(auto, unfolding(crate::specs::Tables::end_words, crate::specs::Tables::closed_by_end))]
pub fn end_word(spelling: &[u8]) -> Option<Key>
    ensures { result ≡ spec.lookup spec.end_words spelling.now }
{
    lookup(&END_WORDS, spelling)
}

/// The sign that is spelled so.
#[tactic(auto, unfolding(crate::specs::Tables::signs))]
pub fn sign_spelled(spelling: &[u8]) -> Option<Sign>
    ensures { result ≡ spec.lookup spec.signs spelling.now }
{
    lookup(&SIGNS, spelling)
}
