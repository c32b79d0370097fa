//! Values, and the numbers of data spaces, as bytes.
ghost use Rattle.std.specs.Prelude.{◌≡◌};
ghost use Rattle.state_spelling.specs.Operands as spec;

use byte_spelling::{
    ReadError, Speller, byte_at, bytes_at, i16_at, option_at, put_byte, put_bytes, put_i16,
    put_option, put_truth, put_u32, truth_at, u32_at,
};
use eu_base::{Bytes, NoMemory, SpaceNo, Value};
use std::alloc::Global;

/// Spells the numbers of data spaces.
pub struct SpaceNumberBytes;

impl Speller for SpaceNumberBytes {
    type Value = SpaceNo;

    ghost spelling = { spec.space_number };

    fn value_at(_alloc: Global, from: &[u8]) -> Result<(SpaceNo, &[u8]), ReadError> {
        let (number, rest) = u32_at(from)?;
        Ok((SpaceNo(number), rest))
    }

    fn put(out: &mut Bytes, space: &SpaceNo) -> Result<(), NoMemory> {
        put_u32(out, space.0)
    }
}

/// Spells values.
pub struct ValueBytes;

impl Speller for ValueBytes {
    type Value = Value;

    ghost spelling = { spec.value };

    fn value_at(alloc: Global, from: &[u8]) -> Result<(Value, &[u8]), ReadError> {
        let (case, rest) = byte_at(from)?;
        match case {
            0 => {
                let (number, rest) = i16_at(rest)?;
                Ok((Value::Int(number), rest))
            }
            1 => {
                let (truth, rest) = truth_at(rest)?;
                Ok((Value::Truth(truth), rest))
            }
            2 => {
                let (text, rest) = bytes_at(alloc, rest)?;
                Ok((Value::Text(text), rest))
            }
            3 => {
                let (task, rest) = u32_at(rest)?;
                Ok((Value::Task(task), rest))
            }
            4 => {
                let (space, rest) = option_at::<SpaceNumberBytes>(alloc, rest)?;
                Ok((Value::Space(space), rest))
            }
            _ => Err(ReadError::NotSpelled),
        }
    }

    fn put(out: &mut Bytes, value: &Value) -> Result<(), NoMemory> {
        match value {
            Value::Int(number) => {
                put_byte(out, 0)?;
                put_i16(out, *number)
            }
            Value::Truth(truth) => {
                put_byte(out, 1)?;
                put_truth(out, *truth)
            }
            Value::Text(text) => {
                put_byte(out, 2)?;
                put_bytes(out, text.as_slice())
            }
            Value::Task(task) => {
                put_byte(out, 3)?;
                put_u32(out, *task)
            }
            Value::Space(space) => {
                put_byte(out, 4)?;
                put_option::<SpaceNumberBytes>(out, space)
            }
        }
    }
}
