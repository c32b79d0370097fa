//! What a command waits for, from bytes and to bytes.
ghost use Rattle.std.specs.Prelude.{◌≡◌, ◌++◌, ◌<◌, ◌^◌, true, OnOk, IfOk};
ghost use Rattle.byte_spelling.specs.Gives.{Gives};
ghost use Rattle.state_spelling.specs.Waiting as spec;

use byte_spelling::{
    ReadError, byte_at, bytes_at, i16_at, option_at, put_byte, put_bytes, put_i16, put_option,
    put_truth, put_u32, truth_at, u32_at,
};
use code_form::Waits;
use eu_base::{Bytes, NoMemory, Reply, Request, Stop};
use std::alloc::Global;

fn stop_at(alloc: Global, from: &[u8]) -> Result<(Stop, &[u8]), ReadError>
    ensures { Gives (λ x. (x.0, x.1.now)) result (spec.stop.read from.now) }
{
    let (case, rest) = byte_at(from)?;
    if case >= 25 {
        return Err(ReadError::NotSpelled);
    }
    match case {
        0 => Ok((Stop::Overflow, rest)),
        1 => Ok((Stop::Division, rest)),
        2 => Ok((Stop::Index, rest)),
        3 => Ok((Stop::TextLong, rest)),
        4 => Ok((Stop::TextRoom, rest)),
        5 => Ok((Stop::CellRoom, rest)),
        6 => Ok((Stop::OperandRoom, rest)),
        7 => Ok((Stop::NoSpace, rest)),
        8 => Ok((Stop::WrongShape, rest)),
        9 => Ok((Stop::ManySpaces, rest)),
        10 => Ok((Stop::SpaceNumbers, rest)),
        11 => Ok((Stop::BadName, rest)),
        12 => Ok((Stop::NoName, rest)),
        13 => Ok((Stop::NameThere, rest)),
        14 => Ok((Stop::TaskThere, rest)),
        15 => Ok((Stop::ManyTasks, rest)),
        16 => Ok((Stop::TaskNumbers, rest)),
        17 => Ok((Stop::NotInserted, rest)),
        18 => Ok((Stop::BadCode, rest)),
        19 => {
            let (bytes, rest) = bytes_at(alloc, rest)?;
            Ok((Stop::Own(bytes), rest))
        }
        20 => Ok((Stop::Halted, rest)),
        21 => Ok((Stop::OnlySession, rest)),
        22 => Ok((Stop::LineMarks, rest)),
        23 => Ok((Stop::ManyPackets, rest)),
        24 => Ok((Stop::NoRight, rest)),
        _ => unreachable!(),
    }
}

fn request_at(alloc: Global, from: &[u8]) -> Result<(Request, &[u8]), ReadError>
    ensures { Gives (λ x. (x.0, x.1.now)) result (spec.request.read from.now) }
{
    let (case, rest) = byte_at(from)?;
    match case {
        0 => {
            let (bytes, rest) = bytes_at(alloc, rest)?;
            let (ends, rest) = truth_at(rest)?;
            Ok((Request::Out { bytes, ends }, rest))
        }
        1 => Ok((Request::Input, rest)),
        2 => {
            let (name, rest) = bytes_at(alloc, rest)?;
            let (start, rest) = u32_at(rest)?;
            Ok((
                Request::Begin {
                    name,
                    start: start as usize,
                },
                rest,
            ))
        }
        3 => {
            let (number, rest) = option_at::<u32>(alloc, rest)?;
            Ok((Request::End(number), rest))
        }
        4 => Ok((Request::Myself, rest)),
        5 => {
            let (number, rest) = option_at::<u32>(alloc, rest)?;
            Ok((Request::Father(number), rest))
        }
        6 => {
            let (number, rest) = u32_at(rest)?;
            Ok((Request::Son(number), rest))
        }
        7 => {
            let (number, rest) = u32_at(rest)?;
            Ok((Request::Brother(number), rest))
        }
        8 => {
            let (bytes, rest) = bytes_at(alloc, rest)?;
            Ok((Request::Named(bytes), rest))
        }
        9 => {
            let (number, rest) = u32_at(rest)?;
            Ok((Request::Name(number), rest))
        }
        10 => {
            let (number, rest) = u32_at(rest)?;
            Ok((Request::Exists(number), rest))
        }
        11 => Ok((Request::Break, rest)),
        12 => {
            let (to, rest) = u32_at(rest)?;
            let (code, rest) = i16_at(rest)?;
            let (space, rest) = u32_at(rest)?;
            Ok((Request::Send { to, code, space }, rest))
        }
        13 => Ok((Request::Wait, rest)),
        14 => {
            let (to, rest) = u32_at(rest)?;
            let (code, rest) = i16_at(rest)?;
            let (space, rest) = u32_at(rest)?;
            Ok((Request::Call { to, code, space }, rest))
        }
        15 => {
            let (of, rest) = u32_at(rest)?;
            Ok((Request::Answer { of }, rest))
        }
        _ => Err(ReadError::NotSpelled),
    }
}

fn reply_at(alloc: Global, from: &[u8]) -> Result<(Reply, &[u8]), ReadError>
    ensures { Gives (λ x. (x.0, x.1.now)) result (spec.reply.read from.now) }
{
    let (case, rest) = byte_at(from)?;
    match case {
        0 => Ok((Reply::Done, rest)),
        1 => {
            let (bytes, rest) = bytes_at(alloc, rest)?;
            Ok((Reply::Text(bytes), rest))
        }
        2 => {
            let (number, rest) = u32_at(rest)?;
            Ok((Reply::Task(number), rest))
        }
        3 => {
            let (truth, rest) = truth_at(rest)?;
            Ok((Reply::Truth(truth), rest))
        }
        4 => Ok((Reply::Taken, rest)),
        5 => {
            let (number, rest) = i16_at(rest)?;
            Ok((Reply::Receipt(number), rest))
        }
        6 => {
            let (code, rest) = i16_at(rest)?;
            let (from, rest) = u32_at(rest)?;
            let (space, rest) = u32_at(rest)?;
            Ok((Reply::Message { code, from, space }, rest))
        }
        7 => {
            let (stop, rest) = stop_at(alloc, rest)?;
            Ok((Reply::Stopped(stop), rest))
        }
        _ => Err(ReadError::NotSpelled),
    }
}

pub(crate) fn waits_at(alloc: Global, from: &[u8]) -> Result<(Waits, &[u8]), ReadError>
    ensures { Gives (λ x. (x.0, x.1.now)) result (spec.waits.read from.now) }
{
    let (case, rest) = byte_at(from)?;
    match case {
        0 => Ok((Waits::Nothing, rest)),
        1 => {
            let (request, rest) = request_at(alloc, rest)?;
            Ok((Waits::Asked(request), rest))
        }
        2 => {
            let (reply, rest) = reply_at(alloc, rest)?;
            Ok((Waits::Given(reply), rest))
        }
        3 => {
            let (stop, rest) = stop_at(alloc, rest)?;
            Ok((Waits::Refused(stop), rest))
        }
        _ => Err(ReadError::NotSpelled),
    }
}

/// A number that four bytes can spell. No greater one is met.
pub fn small(number: usize) -> Result<u32, NoMemory>
    ensures same { IfOk result (λ small. small ≡ number) }
    ensures few { IfOk result (λ small. number < 2 ^ 32) }
{
    if number > u32::MAX as usize {
        return Err(NoMemory);
    }
    Ok(number as u32)
}

fn put_stop(out: &mut Bytes, stop: &Stop) -> Result<(), NoMemory>
    ensures spelled { OnOk result (out.new ≡ out.old ++ spec.stop.spell stop.now) }
    ensures fine { OnOk result (spec.stop.fine stop.now ≡ true) }
{
    match stop {
        Stop::Overflow => put_byte(out, 0)?,
        Stop::Division => put_byte(out, 1)?,
        Stop::Index => put_byte(out, 2)?,
        Stop::TextLong => put_byte(out, 3)?,
        Stop::TextRoom => put_byte(out, 4)?,
        Stop::CellRoom => put_byte(out, 5)?,
        Stop::OperandRoom => put_byte(out, 6)?,
        Stop::NoSpace => put_byte(out, 7)?,
        Stop::WrongShape => put_byte(out, 8)?,
        Stop::ManySpaces => put_byte(out, 9)?,
        Stop::SpaceNumbers => put_byte(out, 10)?,
        Stop::BadName => put_byte(out, 11)?,
        Stop::NoName => put_byte(out, 12)?,
        Stop::NameThere => put_byte(out, 13)?,
        Stop::TaskThere => put_byte(out, 14)?,
        Stop::ManyTasks => put_byte(out, 15)?,
        Stop::TaskNumbers => put_byte(out, 16)?,
        Stop::NotInserted => put_byte(out, 17)?,
        Stop::BadCode => put_byte(out, 18)?,
        Stop::Own(inner) => {
            put_byte(out, 19)?;
            put_bytes(out, inner.as_slice())?;
        }
        Stop::Halted => put_byte(out, 20)?,
        Stop::OnlySession => put_byte(out, 21)?,
        Stop::LineMarks => put_byte(out, 22)?,
        Stop::ManyPackets => put_byte(out, 23)?,
        Stop::NoRight => put_byte(out, 24)?,
    }
    Ok(())
}

fn put_request(out: &mut Bytes, request: &Request) -> Result<(), NoMemory>
    ensures spelled { OnOk result (out.new ≡ out.old ++ spec.request.spell request.now) }
    ensures fine { OnOk result (spec.request.fine request.now ≡ true) }
{
    match request {
        Request::Out { bytes, ends } => {
            put_byte(out, 0)?;
            put_bytes(out, bytes.as_slice())?;
            put_truth(out, *ends)?;
        }
        Request::Input => put_byte(out, 1)?,
        Request::Begin { name, start } => {
            put_byte(out, 2)?;
            put_bytes(out, name.as_slice())?;
            put_u32(out, small(*start)?)?;
        }
        Request::End(inner) => {
            put_byte(out, 3)?;
            put_option::<u32>(out, inner)?;
        }
        Request::Myself => put_byte(out, 4)?,
        Request::Father(inner) => {
            put_byte(out, 5)?;
            put_option::<u32>(out, inner)?;
        }
        Request::Son(inner) => {
            put_byte(out, 6)?;
            put_u32(out, *inner)?;
        }
        Request::Brother(inner) => {
            put_byte(out, 7)?;
            put_u32(out, *inner)?;
        }
        Request::Named(inner) => {
            put_byte(out, 8)?;
            put_bytes(out, inner.as_slice())?;
        }
        Request::Name(inner) => {
            put_byte(out, 9)?;
            put_u32(out, *inner)?;
        }
        Request::Exists(inner) => {
            put_byte(out, 10)?;
            put_u32(out, *inner)?;
        }
        Request::Break => put_byte(out, 11)?,
        Request::Send { to, code, space } => {
            put_byte(out, 12)?;
            put_u32(out, *to)?;
            put_i16(out, *code)?;
            put_u32(out, *space)?;
        }
        Request::Wait => put_byte(out, 13)?,
        Request::Call { to, code, space } => {
            put_byte(out, 14)?;
            put_u32(out, *to)?;
            put_i16(out, *code)?;
            put_u32(out, *space)?;
        }
        Request::Answer { of } => {
            put_byte(out, 15)?;
            put_u32(out, *of)?;
        }
    }
    Ok(())
}

fn put_reply(out: &mut Bytes, reply: &Reply) -> Result<(), NoMemory>
    ensures spelled { OnOk result (out.new ≡ out.old ++ spec.reply.spell reply.now) }
    ensures fine { OnOk result (spec.reply.fine reply.now ≡ true) }
{
    match reply {
        Reply::Done => put_byte(out, 0)?,
        Reply::Text(inner) => {
            put_byte(out, 1)?;
            put_bytes(out, inner.as_slice())?;
        }
        Reply::Task(inner) => {
            put_byte(out, 2)?;
            put_u32(out, *inner)?;
        }
        Reply::Truth(inner) => {
            put_byte(out, 3)?;
            put_truth(out, *inner)?;
        }
        Reply::Taken => put_byte(out, 4)?,
        Reply::Receipt(inner) => {
            put_byte(out, 5)?;
            put_i16(out, *inner)?;
        }
        Reply::Message { code, from, space } => {
            put_byte(out, 6)?;
            put_i16(out, *code)?;
            put_u32(out, *from)?;
            put_u32(out, *space)?;
        }
        Reply::Stopped(inner) => {
            put_byte(out, 7)?;
            put_stop(out, inner)?;
        }
    }
    Ok(())
}

/// Appends what a command waits for.
pub fn put_waits(out: &mut Bytes, waits: &Waits) -> Result<(), NoMemory>
    ensures spelled { OnOk result (out.new ≡ out.old ++ spec.waits.spell waits.now) }
    ensures fine { OnOk result (spec.waits.fine waits.now ≡ true) }
{
    match waits {
        Waits::Nothing => put_byte(out, 0)?,
        Waits::Asked(inner) => {
            put_byte(out, 1)?;
            put_request(out, inner)?;
        }
        Waits::Given(inner) => {
            put_byte(out, 2)?;
            put_reply(out, inner)?;
        }
        Waits::Refused(inner) => {
            put_byte(out, 3)?;
            put_stop(out, inner)?;
        }
    }
    Ok(())
}
