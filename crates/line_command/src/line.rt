//! The command `line`.
ghost use Rattle.std.specs.Prelude.{◌≡◌, ◌≤◌, ◌<◌, ◌^◌, [], false, length, IfErr, IfOk, MatchOption};
ghost use Rattle.line_command.specs.Below.code_gen.specs.Correct.{Behaves};
ghost use Rattle.elan_types.specs.declared.core_phrase.Core.{Core};
ghost use Rattle.line_command.specs.Below.units.specs.Packets.{nothing};
ghost use Rattle.packet_store.specs.Meaning.{IsCause};
ghost use Rattle.packet_store.specs.Units.{IsUnitOf};
ghost use Rattle.line_command.specs.Program.{Shows};
ghost use Rattle.eu_base.specs.Faults.{Rose};
ghost use Rattle.line_command.specs.Meaning.{TextWrites, refusal_line};
ghost use Rattle.line_command.specs.Answer.{LineAnswers, HasCause};

use crate::program::run;
use crate::status::Status;
use crate::stream::{Line, read_line};
use code_form::Code;
use edge::{Sink, Source, put_all};
use eu_base::{Bytes, MemFault, NoMemory, Nowhere};
use packet_store::{CompileError, Library, Refusal, Unit, refusal_text};
use page_pool::Pool;
use space_memory::SpaceMemory;
use std::alloc::Global;

/// Runs the line at the front of the input.
pub fn run_line<S: Source, K: Sink>(alloc: Global, source: &mut S, sink: &mut K) -> Status
    ensures answer { LineAnswers (S.left source.old) (S.left source.new) (K.taken sink.old) (K.taken sink.new) result }
    ensures cause { HasCause (Rose (S.faults source.old) (S.faults source.new)) (Rose (K.faults sink.old) (K.faults sink.new)) ⊥ result }
    ensures source_later { S.faults source.old ≤ S.faults source.new }
    ensures sink_later { K.faults sink.old ≤ K.faults sink.new }
{
    match read_line(alloc, source) {
        Err(NoMemory) => Status::NoMemory,
        Ok(Line::Fault) => Status::SourceFault,
        Ok(Line::TooLong) => match put_all(sink, b"! Zeile 1\n") {
            Ok(()) => Status::BadLine(1),
            Err(_) => Status::SinkFault,
        },
        Ok(Line::Text(text)) => {
            let Ok(out) = respond(alloc, text.as_slice()) else {
                return Status::NoMemory;
            };
            match put_all(sink, out.as_slice()) {
                Ok(()) => Status::Done,
                Err(_) => Status::SinkFault,
            }
        }
    }
}

/// What code writes that runs as a line.
fn written(alloc: Global, code: &Code) -> Result<Bytes, NoMemory>
    ensures { (core : Core) → core.packets ≡ [] → Behaves core code.now → IfOk result (Shows core) }
{
    let mut pool = Pool::new(alloc)?;
    let mut memory = SpaceMemory::new(alloc);
    let mut nowhere = Nowhere;
    let mut lent = memory.over(&mut pool, &mut nowhere);
    match run(alloc, code, &mut lent) {
        Ok(out) => Ok(out),
        Err(MemFault::NoMemory) => Err(NoMemory),
        // What reads as zeros has no faults.
        Err(MemFault::Failed) => unreachable!(),
    }
}

/// The unit of a text that stands alone, behind no packets.
fn unit_of(alloc: Global, text: &[u8]) -> Result<Unit, CompileError>
    requires { length text.now < 2 ^ 32 }
    ensures unit { IfOk result (IsUnitOf nothing false text.now) }
    ensures refused { IfErr result (IsCause nothing false text.now) }
{
    let library = Library::new(alloc);
    let unit = library.compile(alloc, &[], text, false);
    library.let_go();
    unit
}

/// The line that refuses a text.
fn refusal_line(alloc: Global, refusal: Refusal, text: &[u8]) -> Result<Bytes, NoMemory>
    requires { length text.now < 2 ^ 32 }
    ensures { IfOk result (λ line. line ≡ refusal_line refusal text.now) }
{
    let mut line = refusal_text(alloc, refusal, text)?;
    line.append(b"\n")?;
    Ok(line)
}

/// What the text of a program writes.
fn respond(alloc: Global, text: &[u8]) -> Result<Bytes, NoMemory>
    requires { length text.now < 2 ^ 32 }
    ensures { IfOk result (TextWrites text.now) }
{
    match unit_of(alloc, text) {
        Ok(unit) => {
            let out = written(alloc, unit.code());
            unit.let_go();
            out
        }
        Err(CompileError::Refused(refusal)) => refusal_line(alloc, refusal, text),
        Err(CompileError::NoMemory) => Err(NoMemory),
    }
}
