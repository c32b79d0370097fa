//! The code of a command.
ghost use Rattle.std.specs.Prelude.{◌≡◌, [], IfOk, length, slice_get, Some};
ghost use Rattle.code_form.specs.Program.{at_level};
ghost use Rattle.elan_types.specs.Typing.{IsWellTyped, StartsSo};
ghost use Rattle.code_gen.specs.Correct.{Behaves};
ghost use Rattle.code_gen.specs.Program.{program_of, start_from, lines_from, size_from, started_at, started_lines, started_size};

use crate::below::of_cell_kinds::Packet;
use crate::entries::emit_bodies;
use code_form::{Code, Instr, Start};
use elan_types::{Body, Core};
use eu_base::NoMemory;
use place_gen::{Draft, emit_actions, emit_content};
use std::alloc::Global;

/// The code of a command. It does what the command does, with any marks and replies.
pub fn generate(alloc: Global, core: &Core) -> Result<Code, NoMemory>
    requires { IsWellTyped core.now }
    ensures code { IfOk result (λ code. code ≡ program_of core.now) }
    ensures behaves { IfOk result (λ code. Behaves core.now code) }
{
    let packets = Packet::clone_all(core.packets.as_slice(), alloc)?;
    let inserted = core.inserted.try_clone(alloc)?;
    let variables = core.variables.try_clone(alloc)?;
    let mut out = Draft::new(alloc);
    let start = emit_first(&mut out, core)?;
    let bodies = emit_bodies(&mut out, core.bodies.as_slice())?;
    let Draft {
        alloc: _,
        lines,
        pending: _,
        spot: _,
        wanted: _,
    } = out;
    Ok(Code::new(packets, inserted, variables, start, bodies, lines))
}

// What the command begins with. It gives the call in which a start procedure starts.
fn emit_first(out: &mut Draft, core: &Core) -> Result<Option<Start>, NoMemory>
    requires starts { StartsSo core.now core.now.start }
    requires lines { out.old.lines ≡ [] }
    requires pending { out.old.pending ≡ [] }
    requires spot { out.old.spot ≡ at_level }
    ensures start { IfOk result (λ start. start ≡ start_from core.now.start core.now) }
    ensures lines { IfOk result (λ _. (out.new.lines ≡ lines_from core.now.start core.now) × (length out.new.lines ≡ size_from core.now.start core.now)) }
{
    match core.start {
        None => {
            emit_actions(out, core.units.as_slice())?;
            out.put(Instr::End, 0, None)?;
            Ok(None)
        }
        Some(number) => Ok(Some(emit_started(out, number, core.bodies.as_slice()[number].get())?)),
    }
}

// The body of a start procedure, its call, and the end of the command.
fn emit_started(out: &mut Draft, number: usize, body: &Body) -> Result<Start, NoMemory>
    requires { out.old.lines ≡ [] }
    ensures start { IfOk result (λ start. Some start ≡ started_at number (Some body.now)) }
    ensures lines { IfOk result (λ _. (out.new.lines ≡ started_lines number (Some body.now)) × (length out.new.lines ≡ started_size (Some body.now))) }
{
    out.begin_body(number);
    emit_content(out, &body.content)?;
    out.begin_level();
    out.put(Instr::Call(number), 0, None)?;
    let back = out.lines.len();
    out.put(Instr::End, 0, None)?;
    Ok(Start { body: number, back })
}
