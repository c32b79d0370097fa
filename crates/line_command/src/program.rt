//! Programs that run.
ghost use Rattle.std.specs.Prelude.{◌≡◌, [], IfOk};
ghost use Rattle.eu_base.specs.Cells.{Free, Cells, HasFaultCause};
ghost use Rattle.eu_base.specs.DataSpaces.{heads_of, no_spaces};
ghost use Rattle.code_form.specs.Machine.{start};
ghost use Rattle.code_form.specs.Valid.{Fits};
ghost use Rattle.line_command.specs.Below.zero_state.specs.Stepping.{mem_of};
ghost use Rattle.line_command.specs.Below.place_gen.specs.Correct.{HasSlots};
ghost use Rattle.line_command.specs.Below.code_gen.specs.Correct.{Behaves};
ghost use Rattle.elan_types.specs.declared.core_phrase.Core.{Core};
ghost use Rattle.elan_types.specs.Command.{blanks, start_kinds};
ghost use Rattle.line_command.specs.Program.{reply_to, Shows};

use crate::screen::Screen;
use code_form::{Code, Halt};
use eu_base::{Bytes, MemFault, Memory, Reply, Request, Stop};
use std::alloc::Global;
use task_run::TaskRun;

/// How many marks a line may spend.
const MARKS: u32 = 100_000;

/// What a program shows with the marks of a line, run from its start, its variables in this memory, of which nothing need be known, and which has no data spaces.
pub(crate) fn run<M: Memory>(alloc: Global, code: &Code, memory: &mut M) -> Result<Bytes, MemFault>
    requires nothing { M.holds memory.old (λ _. Free) }
    requires spaces { M.heads memory.old ≡ heads_of no_spaces }
    ensures shows { (core : Core) → core.packets ≡ [] → Behaves core code.now → IfOk result (Shows core) }
    ensures cause { HasFaultCause (M.faults memory.old) (M.faults memory.new) result }
{
    let mut command = TaskRun::start(alloc, code, memory)?;
    serve(alloc, code, &mut command, memory)
}

/// Runs a command from its start, and puts on the screen what it asks for.
fn serve<M: Memory>(
    alloc: Global,
    code: &Code,
    command: &mut TaskRun,
    memory: &mut M,
) -> Result<Bytes, MemFault>
    requires starts { command.old ≡ start code.now }
    requires fits { Fits code.now command.old }
    ensures shows { (core : Core) (first : Cells) → M.holds memory.old first → Behaves core code.now →
        HasSlots code.now (blanks (start_kinds core)) (blanks core.inserted) no_spaces (mem_of (M.heads memory.old) first) → IfOk result (Shows core) }
    ensures cause { HasFaultCause (M.faults memory.old) (M.faults memory.new) result }
{
    let mut marks = MARKS;
    let mut screen = Screen::new(alloc);
    loop {
        match command.go(code, memory, &mut marks)? {
            Halt::Ended => return Ok(screen.finish(alloc, None)?),
            Halt::Stopped(stop) => return Ok(screen.finish(alloc, Some(stop))?),
            Halt::Marked => return Ok(screen.finish(alloc, Some(Stop::LineMarks))?),
            Halt::Asks(request) => {
                let shown = screen.show(alloc, &request);
                let reply = reply_to(request);
                shown?;
                command.answer(code, memory, reply)?;
            }
        }
    }
}

/// What is replied: it was written; and all else that is asked for is there in a session alone. The request is let go here, whose forms are many.
fn reply_to(request: Request) -> Reply
    ensures { result ≡ reply_to request }
{
    match request {
        Request::Out { .. } => Reply::Done,
        _ => Reply::Stopped(Stop::OnlySession),
    }
}
