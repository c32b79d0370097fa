//! What stands behind the name of a command.
ghost use Rattle.std.specs.Prelude.{◌≡◌, bytes_eq, option_map};
ghost use Rattle.monitor.specs.Words as spec;

use elan_tree::{Sign, Token, Word};

/// Whether a name is this word.
pub fn is(name: &[u8], word: &[u8]) -> bool
    ensures { result ≡ bytes_eq name.now word.now }
{
    name == word
}

/// The text that stands alone between brackets.
pub fn text_in(tokens: &[Token]) -> Option<&[u8]>
    ensures { option_map (λ x. x.now) result ≡ spec.text_in (spec.words tokens.now) }
{
    match tokens {
        [left, text, right] => {
            if opens(left) && closes(right) {
                text_of(text)
            } else {
                None
            }
        }
        _ => None,
    }
}

/// The two texts that stand between brackets, with a comma between them.
pub fn texts_in(tokens: &[Token]) -> Option<(&[u8], &[u8])>
    ensures { option_map (λ p. (p.0.now, p.1.now)) result ≡ spec.texts_in (spec.words tokens.now) }
{
    match tokens {
        [left, first, comma, second, right] => {
            if opens(left) && separates(comma) && closes(right) {
                Some((text_of(first)?, text_of(second)?))
            } else {
                None
            }
        }
        _ => None,
    }
}

fn opens(token: &Token) -> bool
    ensures { result ≡ spec.opens token.now.what }
{
    matches!(token.what, Word::Sign(Sign::LeftRound))
}

fn closes(token: &Token) -> bool
    ensures { result ≡ spec.closes token.now.what }
{
    matches!(token.what, Word::Sign(Sign::RightRound))
}

fn separates(token: &Token) -> bool
    ensures { result ≡ spec.separates token.now.what }
{
    matches!(token.what, Word::Sign(Sign::Comma))
}

fn text_of(token: &Token) -> Option<&[u8]>
    ensures { option_map (λ x. x.now) result ≡ spec.text_of token.now.what }
{
    match &token.what {
        Word::Text(text) => Some(text.as_slice()),
        _ => None,
    }
}
