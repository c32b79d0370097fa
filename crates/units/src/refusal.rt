//! What is said of a text that is refused.
ghost use Rattle.std.specs.Prelude.{◌≡◌, ◌++◌, ◌+◌, ◌<◌, ◌^◌, length, codes, IfOk, OnOk};
ghost use Rattle.units.specs.Refusals as spec;

use crate::error::Refusal;
use elan_types::Why;
use eu_base::{Bytes, NoMemory, decimal};
use std::alloc::Global;

/// What is said of a text that is refused, without a line end: the reason, and the line and the place in it, both from 1. A text has less
/// than 2^32 bytes.
pub fn refusal_text(alloc: Global, refusal: Refusal, text: &[u8]) -> Result<Bytes, NoMemory>
    requires { length text.now < 2 ^ 32 }
    ensures { IfOk result (λ said. said ≡ spec.refusal_text refusal text.now) }
{
    match refusal {
        Refusal::NoToken(place) => refusal_at(alloc, b"kein Symbol", text, place),
        Refusal::TooMany => Bytes::from(alloc, b"FEHLER : zu viele Symbole"),
        Refusal::NotElan(place) => refusal_at(alloc, b"kein ELAN-Text", text, place),
        Refusal::NoMeaning(place, why) => refusal_at(alloc, why_text(why), text, place),
    }
}

/// A line and a place in it, both from 1.
#[derive(Clone, Copy)]
struct Position {
    line: u64,
    column: u64,
}

/// The position of a byte by its place from 1.
fn find(text: &[u8], place: u32) -> Position
    requires { length text.now < 2 ^ 32 }
    ensures line { result.line ≡ (spec.position_of text.now place).line }
    ensures column { result.column ≡ (spec.position_of text.now place).column }
    ensures small { (result.line < 2 ^ 33) × (result.column < 2 ^ 33) }
{
    let mut at = Position { line: 1, column: 1 };
    let front = text
        .split_at(text.len().min(place.saturating_sub(1) as usize))
        .0;
    for byte in front {
        at = if *byte == b'\n' {
            Position {
                line: at.line + 1,
                column: 1,
            }
        } else {
            Position {
                line: at.line,
                column: at.column + 1,
            }
        };
    }
    at
}

/// What is said of a text that is refused at a place.
fn refusal_at(alloc: Global, reason: &[u8], text: &[u8], place: u32) -> Result<Bytes, NoMemory>
    requires { length text.now < 2 ^ 32 }
    ensures { IfOk result (λ line. line ≡ spec.refusal_at reason.now text.now place) }
{
    let at = find(text, place);
    let mut line = Bytes::from(alloc, b"FEHLER : ")?;
    line.append(reason)?;
    line.append(b" (Zeile ")?;
    line.append(decimal(alloc, at.line as i64)?.as_slice())?;
    line.append(b", Stelle ")?;
    line.append(decimal(alloc, at.column as i64)?.as_slice())?;
    line.append(b")")?;
    Ok(line)
}

/// The words for a reason.
fn why_text(why: Why) -> &'static [u8]
    ensures { result.now ≡ spec.why_text why }
{
    match why {
        Why::Unknown => b"unbekannt",
        Why::Doubled => b"doppelt",
        Why::WrongType => b"falscher Typ",
        Why::NoVariable => b"keine Variable",
        Why::WrongPlace => b"falsche Stelle",
        Why::TooLarge => b"zu gross",
    }
}
