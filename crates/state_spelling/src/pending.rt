//! Places and pending operands as bytes.
ghost use Rattle.std.specs.Prelude.{◌≡◌, ◌++◌, true, OnOk};
ghost use Rattle.byte_spelling.specs.Gives.{Gives};
ghost use Rattle.state_spelling.specs.Operands as spec;

use crate::values::{SpaceNumberBytes, ValueBytes};
use byte_spelling::{
    ReadError, Speller, byte_at, list_at, put_byte, put_list, put_u16, put_u32, u16_at,
};
use code_form::Operand;
use eu_base::{Addr, Area, Bytes, NoMemory};
use std::alloc::Global;

fn area_at(alloc: Global, from: &[u8]) -> Result<(Area, &[u8]), ReadError>
    ensures { Gives (λ x. (x.0, x.1.now)) result (spec.area.read from.now) }
{
    let (case, rest) = byte_at(from)?;
    match case {
        0 => Ok((Area::Run, rest)),
        1 => Ok((Area::Packets, rest)),
        2 => {
            let (space, rest) = SpaceNumberBytes::value_at(alloc, rest)?;
            Ok((Area::Space(space), rest))
        }
        _ => Err(ReadError::NotSpelled),
    }
}

fn place_at(alloc: Global, from: &[u8]) -> Result<(Addr, &[u8]), ReadError>
    ensures { Gives (λ x. (x.0, x.1.now)) result (spec.place.read from.now) }
{
    let (area, rest) = area_at(alloc, from)?;
    let (cell, rest) = u16_at(rest)?;
    Ok((Addr { area, cell }, rest))
}

fn put_place(out: &mut Bytes, place: Addr) -> Result<(), NoMemory>
    ensures spelled { OnOk result (out.new ≡ out.old ++ spec.place.spell place) }
    ensures fine { OnOk result (spec.place.fine place ≡ true) }
{
    match place.area {
        Area::Run => put_byte(out, 0)?,
        Area::Packets => put_byte(out, 1)?,
        Area::Space(space) => {
            put_byte(out, 2)?;
            put_u32(out, space.0)?;
        }
    }
    put_u16(out, place.cell)?;
    Ok(())
}

/// Spells pending operands.
pub struct OperandBytes;

impl Speller for OperandBytes {
    type Value = Operand;

    ghost spelling = { spec.operand };

    fn value_at(alloc: Global, from: &[u8]) -> Result<(Operand, &[u8]), ReadError> {
        let (case, rest) = byte_at(from)?;
        match case {
            0 => {
                let (value, rest) = ValueBytes::value_at(alloc, rest)?;
                Ok((Operand::Value(value), rest))
            }
            1 => {
                let (place, rest) = place_at(alloc, rest)?;
                Ok((Operand::Place(place), rest))
            }
            2 => {
                let (values, rest) = list_at::<ValueBytes>(alloc, rest)?;
                Ok((Operand::Aggregate(values), rest))
            }
            _ => Err(ReadError::NotSpelled),
        }
    }

    fn put(out: &mut Bytes, operand: &Operand) -> Result<(), NoMemory> {
        match operand {
            Operand::Value(value) => {
                put_byte(out, 0)?;
                ValueBytes::put(out, value)
            }
            Operand::Place(place) => {
                put_byte(out, 1)?;
                put_place(out, *place)
            }
            Operand::Aggregate(values) => {
                put_byte(out, 2)?;
                put_list::<ValueBytes>(out, values.as_slice())
            }
        }
    }
}
