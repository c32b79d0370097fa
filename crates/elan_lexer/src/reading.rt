//! Reads words, numbers, comments and text denoters byte by byte.
ghost use Rattle.std.specs.Prelude.{◌≡◌, ◌≤◌, ◌<◌, ◌+◌, length, min, filter, not, IfOk, IfSome, Option, true, ℕ};
ghost use Rattle.elan_lexer.specs.Class as class;
ghost use Rattle.elan_lexer.specs.Pieces as spec;
ghost use Rattle.elan_lexer.specs.Scan as scan;
ghost use Rattle.std.specs.List.{prefix_len, suffix_len};

use crate::class::{is_digit, is_inner, is_space, is_upper};
use containers::{Bytes, NoMemory};
use std::alloc::Global;

/// The number of digits at the front.
pub fn digits_len(text: &[u8]) -> usize
    ensures value { result ≡ prefix_len class.is_digit text.now }
    ensures within { result ≤ length text.now }
{
    text.iter().take_while(|b| is_digit(**b)).count()
}

/// The number of capital letters at the front.
pub fn capitals_len(text: &[u8]) -> usize
    ensures value { result ≡ prefix_len class.is_upper text.now }
    ensures within { result ≤ length text.now }
{
    text.iter().take_while(|b| is_upper(**b)).count()
}

fn inner_len(text: &[u8]) -> usize
    ensures value { result ≡ prefix_len class.is_inner text.now }
    ensures within { result ≤ length text.now }
{
    text.iter().take_while(|b| is_inner(**b)).count()
}

fn spaces_at_end(text: &[u8]) -> usize
    ensures { result ≡ suffix_len class.is_space text.now }
{
    text.iter().rev().take_while(|b| is_space(**b)).count()
}

/// How many bytes behind its first letter belong to an identifier.
#[tactic(auto, unfolding(crate::specs::Scan::rest_len))]
pub fn rest_len(text: &[u8]) -> usize
    ensures value { result ≡ scan.rest_len text.now }
    ensures within { result ≤ length text.now }
{
    let len = inner_len(text);
    len.saturating_sub(spaces_at_end(&text[..len]))
}

/// The text without its spaces.
pub fn without_spaces(alloc: Global, text: &[u8]) -> Result<Bytes, NoMemory>
    ensures { IfOk result (λ b. b ≡ filter (λ c. not (class.is_space c)) text.now) }
{
    let found: Vec<u8> = text
        .iter()
        .copied()
        .filter(|b| !is_space(*b))
        .collect(alloc)?;
    Bytes::from(alloc, found.as_slice())
}

/// The value of digits, 32,768 where it is more.
pub fn value(digits: &[u8]) -> u32
    ensures value { result ≡ min (spec.value digits.now) 32768 }
    ensures within { result ≤ 32768 }
{
    let mut n: u32 = 0;
    for b in digits {
        n = (10 * n + u32::from(b.saturating_sub(b'0'))).min(32768);
    }
    n
}

/// Whether a comment of this kind, `{` or `(*`, begins here.
pub fn opens(curly: bool, text: &[u8]) -> bool
    ensures { result ≡ spec.opens_at curly text.now }
{
    match text {
        [b'{', ..] => curly,
        [b'(', b'*', ..] => !curly,
        _ => false,
    }
}

fn closes(curly: bool, text: &[u8]) -> bool
    ensures { result ≡ spec.closes_at curly text.now }
{
    match text {
        [b'}', ..] => curly,
        [b'*', b')', ..] => !curly,
        _ => false,
    }
}

/// How many bytes there are up to the end of a comment, behind the first byte of its first bracket; `None` where it has no
/// end.
#[tactic(auto, using(crate::proofs::Turns::comment_done))]
pub fn comment_end(curly: bool, text: &[u8]) -> Option<usize>
    ensures value { result ≡ spec.comment_end curly 1 (not curly) text.now }
    ensures within { IfSome result (λ n. n ≤ length text.now) }
{
    let mut depth: usize = 1;
    let mut second = !curly;
    for i in 0..text.len() {
        if second {
            second = false;
        } else if depth == 0 {
            return Some(i);
        } else if opens(curly, &text[i..]) {
            depth += 1;
            second = !curly;
        } else if closes(curly, &text[i..]) {
            depth -= 1;
            second = !curly;
        }
    }
    if depth == 0 { Some(text.len()) } else { None }
}

/// The character of a code, `None` past 255.
fn code(digits: &[u8]) -> Option<u8>
    ensures { result ≡ spec.code digits.now }
{
    let value = value(digits);
    if value <= 255 {
        Some(value as u8)
    } else {
        None
    }
}

/// What a quote inside a denoter stands for.
#[derive(Clone, Copy)]
pub enum Quote {
    /// The character of a code, none past 255, with the number of bytes behind the quote that belong to it.
    Code(Option<u8>, usize),
    /// A quote, with the one behind it.
    Doubled,
    /// The end of the denoter.
    End,
}

fn quote_at(n: usize, text: &[u8]) -> bool
    ensures value { result ≡ spec.quote_at n text.now }
    ensures within { result ≡ true → n < length text.now }
{
    n < text.len() && text[n] == b'"'
}

#[tactic(auto, unfolding(crate::specs::Pieces::quote))]
fn read_quote(text: &[u8]) -> Quote
    ensures value { result ≡ spec.quote text.now }
    ensures within { (c : Option ℕ) (n : ℕ) → result ≡ Quote.Code c n → n ≤ length text.now }
{
    let n = digits_len(text);
    if n > 0 && quote_at(n, text) {
        Quote::Code(code(&text[..n]), n + 1)
    } else if quote_at(0, text) {
        Quote::Doubled
    } else {
        Quote::End
    }
}

/// The characters of a denoter, and how many bytes there are up to its end, from behind its first quote; `None` where it has
/// no end or a code past 255.
pub fn characters(alloc: Global, text: &[u8]) -> Result<Option<(Bytes, usize)>, NoMemory>
    ensures value { IfOk result (λ d. d ≡ spec.characters 0 text.now) }
    ensures within { IfOk result (λ d. IfSome d (λ p. p.1 ≤ length text.now)) }
{
    let mut found: Vec<u8> = Vec::new(alloc);
    let mut i: usize = 0;
    'bytes: while i < text.len() {
        let b = text[i];
        if b == b'"' {
            match read_quote(&text[i + 1..]) {
                Quote::Code(Some(c), len) => {
                    found.push(c)?;
                    i += len + 1;
                }
                Quote::Code(None, _) => return Ok(None),
                Quote::Doubled => {
                    found.push(b'"')?;
                    i += 2;
                }
                Quote::End => return Ok(Some((Bytes::from(alloc, found.as_slice())?, i + 1))),
            }
        } else if b == b'\n' {
            return Ok(None);
        } else {
            found.push(b)?;
            i += 1;
        }
    }
    Ok(None)
}
