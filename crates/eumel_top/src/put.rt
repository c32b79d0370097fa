//! Bytes that are put whole.
ghost use Rattle.std.specs.Prelude.{◌≡◌, ◌≤◌, IfOk, IfErr, OnOk};
ghost use Rattle.std.specs.Io.KnownBytes.{Appends};
ghost use Rattle.eu_base.specs.Faults.{Rose};
ghost use Rattle.eumel_top.specs.Causes.{HasLineCause};
ghost use Rattle.eumel_top.specs.Output.{bad_line, PutsLess, NamesLine};

use crate::LineFault;
use edge::{Sink, put_all};
use eu_base::{Bytes, NoMemory, decimal};
use std::alloc::Global;

/// Puts all the bytes.
pub(crate) fn put_whole<K: Sink>(sink: &mut K, bytes: &[u8]) -> Result<(), LineFault>
    ensures ok { OnOk result (Appends (K.taken sink.old) (K.taken sink.new) bytes.now) }
    ensures less { IfErr result (PutsLess bytes.now (K.taken sink.old) (K.taken sink.new)) }
    ensures cause { IfErr result (HasLineCause ⊥ (Rose (K.faults sink.old) (K.faults sink.new))) }
    ensures later { K.faults sink.old ≤ K.faults sink.new }
{
    match put_all(sink, bytes) {
        Ok(()) => Ok(()),
        Err(_) => Err(LineFault::SinkFault),
    }
}

/// Puts the line that names the line of this number, which is of no form.
pub(crate) fn put_bad_line<K: Sink>(alloc: Global, number: u32, sink: &mut K) -> LineFault
    ensures named { NamesLine number (K.taken sink.old) (K.taken sink.new) result }
    ensures cause { HasLineCause (Unit {0}) (Rose (K.faults sink.old) (K.faults sink.new)) result }
    ensures later { K.faults sink.old ≤ K.faults sink.new }
{
    let Ok(line) = bad_line(alloc, number) else {
        return LineFault::NoMemory;
    };
    match put_whole(sink, line.as_slice()) {
        Ok(()) => LineFault::BadLine(number),
        Err(fault) => fault,
    }
}

fn bad_line(alloc: Global, number: u32) -> Result<Bytes, NoMemory>
    ensures { IfOk result (λ line. line ≡ bad_line number) }
{
    let mut line = Bytes::new(alloc);
    line.append(b"! Zeile ")?;
    line.append(decimal(alloc, i64::from(number))?.as_slice())?;
    line.append(b"\n")?;
    Ok(line)
}
