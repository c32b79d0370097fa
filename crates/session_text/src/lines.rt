//! Lines as events.
ghost use Rattle.std.specs.List.{list_all};
ghost use Rattle.std.specs.Prelude.{◌≡◌, [], ◌∷◌, IfOk, OnErr, List, ℕ, Option, Some, None};
ghost use Rattle.session_text.specs.Lines as spec;

use crate::{Event, LineError};
use containers::{Bytes, List};
use std::alloc::Global;
use task_numbers::LONGEST_LINE;

/// How many turns follow a line in the plain form.
pub const PLAIN_TURNS: u16 = 20;

/// How many turns a line can ask for.
const MOST_TURNS: u32 = 10_000;

/// The events of a line of a session, without its end: in the form with channels, or in the `plain` form. `BadLine` comes
/// exactly where the line is of no form.
pub fn event(alloc: Global, line: &[u8], plain: bool) -> Result<List<Event>, LineError>
    ensures events { IfOk result (λ events. spec.events_of plain line.now ≡ Some events) }
    ensures bad { result ≡ Err LineError.BadLine → spec.events_of plain line.now ≡ None }
{
    if plain {
        plain_events(alloc, line)
    } else {
        tagged_events(alloc, line)
    }
}

fn tagged_events(alloc: Global, line: &[u8]) -> Result<List<Event>, LineError>
    ensures events { IfOk result (λ events. spec.tagged line.now ≡ Some events) }
    ensures bad { result ≡ Err LineError.BadLine → spec.tagged line.now ≡ None }
{
    match line {
        [] => Ok(List::new(alloc)),
        [channel @ b'1'..=b'4', rest @ ..] => addressed(alloc, *channel - b'0', rest),
        [b'*', digits @ ..] => match turns(digits) {
            Some(number) => one(alloc, Event::Turns(number)),
            None => Err(LineError::BadLine),
        },
        [b'!'] => one(alloc, Event::Fixpoint),
        [b'.'] => one(alloc, Event::Shut),
        _ => Err(LineError::BadLine),
    }
}

/// What stands behind the digit of a channel.
fn addressed(alloc: Global, channel: u8, rest: &[u8]) -> Result<List<Event>, LineError>
    ensures events { IfOk result (λ events. spec.addressed channel rest.now ≡ Some events) }
    ensures bad { result ≡ Err LineError.BadLine → spec.addressed channel rest.now ≡ None }
{
    match rest {
        [b'>', text @ ..] => one(alloc, text_line(alloc, channel, text)?),
        [b'^'] => one(alloc, Event::Supervisor(channel)),
        _ => Err(LineError::BadLine),
    }
}

fn plain_events(alloc: Global, line: &[u8]) -> Result<List<Event>, LineError>
    ensures events { IfOk result (λ events. spec.plain_events line.now ≡ Some events) }
    ensures bad { result ≡ Err LineError.BadLine → spec.plain_events line.now ≡ None }
{
    match line {
        [] => one(alloc, Event::Turns(PLAIN_TURNS)),
        [b'!', rest @ ..] => marked(alloc, rest),
        _ => {
            let mut events = one(alloc, text_line(alloc, 1, line)?)?;
            events.push(Event::Turns(PLAIN_TURNS))?;
            Ok(events)
        }
    }
}

/// What stands behind `!` in the plain form.
fn marked(alloc: Global, rest: &[u8]) -> Result<List<Event>, LineError>
    ensures events { IfOk result (λ events. spec.marked rest.now ≡ Some events) }
    ensures bad { result ≡ Err LineError.BadLine → spec.marked rest.now ≡ None }
{
    match rest {
        [] => one(alloc, Event::Fixpoint),
        [b'!'] => one(alloc, Event::Shut),
        [b'^'] => one(alloc, Event::Supervisor(1)),
        _ => Err(LineError::BadLine),
    }
}

fn text_line(alloc: Global, channel: u8, text: &[u8]) -> Result<Event, LineError>
    ensures line { IfOk result (λ event. spec.text_line channel text.now ≡ Some event) }
    ensures bad { result ≡ Err LineError.BadLine → spec.text_line channel text.now ≡ None }
{
    if text.len() > LONGEST_LINE {
        return Err(LineError::BadLine);
    }
    Ok(Event::Line {
        channel,
        text: Bytes::from(alloc, text)?,
    })
}

fn one(alloc: Global, event: Event) -> Result<List<Event>, LineError>
    ensures event { IfOk result (λ events. events ≡ event ∷ []) }
    ensures memory { OnErr result (result ≡ Err LineError.NoMemory) }
{
    let mut events = List::new(alloc);
    events.push(event)?;
    Ok(events)
}

/// The number of turns that digits ask for.
fn turns(digits: &[u8]) -> Option<u16>
    ensures { result ≡ spec.turns digits.now }
{
    if is_count(digits) {
        number_of(digits)
    } else {
        None
    }
}

/// Whether these are digits, the first of them another than 0.
fn is_count(digits: &[u8]) -> bool
    ensures { result ≡ spec.is_count digits.now }
{
    match digits {
        [] => false,
        [first, ..] => *first > b'0' && are_digits(digits),
    }
}

fn are_digits(bytes: &[u8]) -> bool
    ensures { result ≡ list_all spec.is_digit bytes.now }
{
    bytes.iter().all(|byte| is_digit(*byte))
}

fn is_digit(byte: u8) -> bool
    ensures { result ≡ spec.is_digit byte }
{
    byte >= b'0' && byte <= b'9'
}

/// The number that digits spell, where a line can ask for so many turns.
fn number_of(digits: &[u8]) -> Option<u16>
    ensures { result ≡ spec.at_most_turns (spec.number_of digits.now) }
{
    let mut number: u32 = 0;
    for digit in digits {
        number = number * 10 + u32::from(digit.saturating_sub(b'0'));
        if number > MOST_TURNS {
            return None;
        }
    }
    Some(number as u16)
}
