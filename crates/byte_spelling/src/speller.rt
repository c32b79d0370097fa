//! Ways to spell values, and lists and options of what is spelled.
ghost use Rattle.std.specs.Prelude.{◌≡◌, ◌++◌, true, OnOk};
ghost use Rattle.std.specs.Int.{w32};
ghost use Rattle.std.specs.List.{flat_map};
ghost use Rattle.byte_spelling.specs.Spelling.{Spelling, number, bytes, items_at, all_fine, list_of, option_of};
ghost use Rattle.byte_spelling.specs.Gives.{Gives};

use crate::reading::{ReadError, byte_at, bytes_at, u32_at};
use crate::writing::{put_byte, put_bytes, put_u32};
use containers::{Bytes, List, NoMemory};
use std::alloc::Global;

/// The one way to spell values of a type. A type may be its own speller; a crate that spells
/// another's type has a speller of its own for it.
pub trait Speller {
    /// What is spelled.
    type Value: Drop;

    /// The bytes of the values.
    ghost spelling: { Spelling Self.Value };

    /// A value, and what follows.
    fn value_at(alloc: Global, from: &[u8]) -> Result<(Self::Value, &[u8]), ReadError>
        ensures { Gives (λ x. (x.0, x.1.now)) result (spelling.read from.now) };

    /// Appends a value.
    fn put(out: &mut Bytes, value: &Self::Value) -> Result<(), NoMemory>
        ensures spelled { OnOk result (out.new ≡ out.old ++ spelling.spell value.now) }
        ensures fine { OnOk result (spelling.fine value.now ≡ true) };
}

impl Speller for u32 {
    type Value = u32;

    ghost spelling = { number w32 };

    fn value_at(_alloc: Global, from: &[u8]) -> Result<(u32, &[u8]), ReadError> {
        u32_at(from)
    }

    fn put(out: &mut Bytes, value: &u32) -> Result<(), NoMemory> {
        put_u32(out, *value)
    }
}

impl Speller for Bytes {
    type Value = Bytes;

    ghost spelling = { bytes };

    fn value_at(alloc: Global, from: &[u8]) -> Result<(Bytes, &[u8]), ReadError> {
        bytes_at(alloc, from)
    }

    fn put(out: &mut Bytes, value: &Bytes) -> Result<(), NoMemory> {
        put_bytes(out, value.as_slice())
    }
}

/// So many values, and what follows.
pub fn some_at<S: Speller>(
    alloc: Global,
    count: u32,
    from: &[u8],
) -> Result<(List<S::Value>, &[u8]), ReadError>
    ensures { Gives (λ x. (x.0, x.1.now)) result (items_at S.spelling count from.now) }
{
    let mut items = List::new(alloc);
    let mut rest = from;
    for _ in 0..count {
        let (item, after) = S::value_at(alloc, rest)?;
        items.push(item)?;
        rest = after;
    }
    Ok((items, rest))
}

/// Values behind their count, and what follows.
pub fn list_at<S: Speller>(alloc: Global, from: &[u8]) -> Result<(List<S::Value>, &[u8]), ReadError>
    ensures { Gives (λ x. (x.0, x.1.now)) result ((list_of S.spelling).read from.now) }
{
    let (count, rest) = u32_at(from)?;
    some_at::<S>(alloc, count, rest)
}

/// Appends values, and not their count.
pub fn put_items<S: Speller>(out: &mut Bytes, items: &[S::Value]) -> Result<(), NoMemory>
    ensures spelled { OnOk result (out.new ≡ out.old ++ flat_map S.spelling.spell items.now) }
    ensures fine { OnOk result (all_fine S.spelling items.now ≡ true) }
{
    for item in items {
        S::put(out, item)?;
    }
    Ok(())
}

/// Appends values behind their count. More than can be counted find no memory.
pub fn put_list<S: Speller>(out: &mut Bytes, items: &[S::Value]) -> Result<(), NoMemory>
    ensures spelled { OnOk result (out.new ≡ out.old ++ (list_of S.spelling).spell items.now) }
    ensures fine { OnOk result ((list_of S.spelling).fine items.now ≡ true) }
{
    if items.len() > u32::MAX as usize {
        return Err(NoMemory);
    }
    put_u32(out, items.len() as u32)?;
    put_items::<S>(out, items)
}

/// A value that may be missing, and what follows.
pub fn option_at<S: Speller>(
    alloc: Global,
    from: &[u8],
) -> Result<(Option<S::Value>, &[u8]), ReadError>
    ensures { Gives (λ x. (x.0, x.1.now)) result ((option_of S.spelling).read from.now) }
{
    let (case, rest) = byte_at(from)?;
    match case {
        0 => Ok((None, rest)),
        1 => {
            let (value, rest) = S::value_at(alloc, rest)?;
            Ok((Some(value), rest))
        }
        _ => Err(ReadError::NotSpelled),
    }
}

/// Appends a value that may be missing.
pub fn put_option<S: Speller>(out: &mut Bytes, value: &Option<S::Value>) -> Result<(), NoMemory>
    ensures spelled { OnOk result (out.new ≡ out.old ++ (option_of S.spelling).spell value.now) }
    ensures fine { OnOk result ((option_of S.spelling).fine value.now ≡ true) }
{
    match value {
        None => put_byte(out, 0),
        Some(value) => {
            put_byte(out, 1)?;
            S::put(out, value)
        }
    }
}
