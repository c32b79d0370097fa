//! One step of the machine.
ghost use Rattle.std.specs.Prelude.{◌≡◌, ◌≢◌, IfOk, Ok, Err};
ghost use Rattle.eu_base.specs.Cells.{HasFaultCause};
ghost use Rattle.eu_base.specs.declared.cells.MemFault.TheVariants.{Failed};
ghost use Rattle.code_form.specs.declared.instr.Instr.TheVariants as instrs;
ghost use Rattle.code_form.specs.Machine.{Mem};
ghost use Rattle.code_form.specs.Program.{Program};
ghost use Rattle.zero_state.specs.Finds.{Finds};
ghost use Rattle.zero_state.specs.Stepping.{position_of, control_of, scene_of, stage_of, stage_by, halt_of};
ghost use Rattle.zero_state.specs.Stepping.{IsReady, Steps};

use crate::calls::{back, back_around, call, refer};
use code_form::{Code, Instr, Operand};
use eu_base::{MemFault, Memory, NoMemory, Value};
use zero_state::{Next, State};
use zero_steps::aggregate::{pick, take};
use zero_steps::ask::{ask, ask_sending};
use zero_steps::change::modify;
use zero_steps::operate::operate;
use zero_steps::place::{field, index};
use zero_steps::push::push_on;
use zero_steps::step::{
    drop_value, jump_false, limit, load, local, outer, packet, param, push_text, step, store,
    unlimit, when,
};
use zero_steps::stop::error_stop;
use zero_steps::{bind, content, copy, on_spaces};

/// What one instruction does.
pub fn execute<M: Memory>(
    code: &Code,
    instr: &Instr,
    s: &mut State,
    m: &mut M,
    marks: &mut u32,
) -> Result<Next, MemFault>
    requires ready { IsReady s.old }
    requires finds { Finds code.now.bodies instr.now (position_of s.old) }
    ensures goes { IfOk result (Steps (M.holds m.old) (M.holds m.new) (M.heads m.old) (M.heads m.new) (stage_by code.now instr.now marks.old)
        (position_of s.old) (control_of s.new) marks.new) }
    ensures cause { HasFaultCause (M.faults m.old) (M.faults m.new) result }
    ensures follows { M.follows m.old m.new }
{
    match instr {
        Instr::Mark => Ok(mark(s, marks)),
        Instr::Number(number) => computed(push_on(s, Operand::Value(Value::Int(*number)))),
        Instr::Truth(truth) => computed(push_on(s, Operand::Value(Value::Truth(*truth)))),
        Instr::Text(text) => computed(push_text(s, text.as_slice())),
        Instr::Outer(cell) => computed(outer(s, *cell)),
        Instr::Packet(cell) => computed(packet(s, *cell)),
        Instr::Local(cell) => computed(local(s, *cell)),
        Instr::Param(cell) => param(s, m, *cell),
        Instr::Index(count, cells) => Ok(index(s, *count, *cells)),
        Instr::Field(cells) => Ok(field(s, *cells)),
        Instr::Content => content(s, m),
        Instr::Pick(count, cells) => computed(pick(s, *count, *cells)),
        Instr::Take(of, from, cells) => {
            take(s, *of, *from, *cells)?;
            Ok(Next::On)
        }
        Instr::Load(shape) => load(s, m, shape),
        Instr::Store(_) => store(s, m),
        Instr::Do(operation) => computed(operate(s, *operation)),
        Instr::OnSpaces(operation) => on_spaces(s, m, *operation),
        Instr::Copy => copy(s, m),
        Instr::Bind(shape) => bind(s, m, shape),
        Instr::Modify(by) => modify(s, m, *by),
        Instr::Jump(to) => {
            s.pc = *to;
            Ok(Next::On)
        }
        Instr::False(to) => {
            jump_false(s, *to);
            Ok(Next::On)
        }
        Instr::When(label, to) => {
            when(s, *label, *to)?;
            Ok(Next::On)
        }
        Instr::Drop => {
            drop_value(s);
            Ok(Next::On)
        }
        Instr::Limit(way, to) => limit(s, m, *way, *to),
        Instr::Unlimit => {
            unlimit(s);
            Ok(Next::On)
        }
        Instr::Step(way, to) => step(s, m, *way, *to),
        Instr::Ask(request) => {
            if request.sends() {
                ask_sending(s, m, *request, marks)
            } else {
                computed(ask(s, *request, marks))
            }
        }
        Instr::ErrorStop => {
            error_stop(s);
            Ok(Next::On)
        }
        Instr::Call(body) => call(*body, &code.bodies()[*body], s, m, marks),
        Instr::Refer(body) => refer(*body, &code.bodies()[*body], s, m, marks),
        Instr::Back(delivers) => {
            back(code, s, m, delivers)?;
            Ok(Next::On)
        }
        Instr::Out(delivers) => {
            back_around(code, s, m, delivers)?;
            Ok(Next::On)
        }
        Instr::End => Ok(Next::Ended),
    }
}

// What comes of an instruction that looks at no cell.
fn computed(made: Result<Next, NoMemory>) -> Result<Next, MemFault>
    ensures same { IfOk result (λ next. made ≡ Ok next) }
    ensures cause { result ≢ Err Failed }
{
    Ok(made?)
}

// Spends a mark, and goes on.
fn mark(s: &mut State, marks: &mut u32) -> Next
    requires { IsReady s.old }
    ensures { (p : Program) (mem : Mem) → stage_of (halt_of result) (control_of s.new) (scene_of mem marks.new) ≡ stage_by
        p
        instrs.Mark
        marks.old
        (position_of s.old)
        mem }
{
    if *marks == 0 {
        return Next::Marked;
    }
    *marks -= 1;
    s.pc += 1;
    Next::On
}
