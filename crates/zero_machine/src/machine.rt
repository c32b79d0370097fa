//! Runs of code.
ghost use Rattle.std.specs.Prelude.{◌≡◌, ◌≤◌, ◌<◌, ℕ, length, IfOk, OnOk, IsSome, None, option_map};
ghost use Rattle.eu_base.specs.Cells.{Cells, HasFaultCause};
ghost use Rattle.eu_base.specs.declared.request.Request.{Request as Requests};
ghost use Rattle.eu_base.specs.declared.request.Request.TheVariants as requests;
ghost use Rattle.eu_base.specs.Requests.{then_asked};
ghost use Rattle.eu_base.specs.declared.request.Reply.{Reply};
ghost use Rattle.code_form.specs.declared.halt.Halt.TheVariants as halts;
ghost use Rattle.code_form.specs.declared.waits.Waits.TheVariants as waits;
ghost use Rattle.code_form.specs.Machine.{Position, Rest, advance, answered, answered_by};
ghost use Rattle.code_form.specs.Valid.{Fits};
ghost use Rattle.code_form.specs.Runs.{Rests, Resumes, Replies, IsOne, StaysFit, asked, steps_left};
ghost use Rattle.zero_state.specs.Stepping.{position_of, control_of, mem_of, scene_of, halt_of, due, Does};
ghost use Rattle.zero_machine.specs.Running.{Spends, RestsSo};

use crate::instruction::execute;
use code_form::{Code, Halt, Instr, Waits};
use eu_base::{MemFault, Memory, Reply, Request};
use zero_state::{Next, State};
use zero_steps::reply::take_reply;

// One step, where nothing is waited for.
fn step<M: Memory>(code: &Code, s: &mut State, m: &mut M, marks: &mut u32) -> Result<Next, MemFault>
    requires fits { Fits code.now (control_of s.old) }
    requires free { s.old.waits ≡ waits.Nothing }
    ensures goes { IfOk result (λ next. (cells : Cells) → M.holds m.old cells →
        Does (M.holds m.new) (M.heads m.new) (halt_of next) (control_of s.new) marks.new (advance code.now (control_of s.old) (scene_of (mem_of (M.heads m.old) cells) marks.old))) }
    ensures fits { OnOk result (Fits code.now (control_of s.new)) }
    ensures spends { OnOk result (Spends marks.old marks.new s.new.waits) }
    ensures nearer { IfOk result (λ next. halt_of next ≡ None → steps_left code.now.lines marks.new (length s.new.stack.frames) s.new.pc
        < steps_left code.now.lines marks.old (length s.old.stack.frames) s.old.pc) }
    ensures cause { HasFaultCause (M.faults m.old) (M.faults m.new) result }
    ensures follows { M.follows m.old m.new }
{
    let size = code.len();
    prove!(s.pc < size);
    execute(code, code.instr(s.pc), s, m, marks)
}

// Goes on from a request with its reply, which costs nothing.
#[inline(never)]
fn reply_step<M: Memory>(code: &Code, s: &mut State, m: &mut M) -> Result<Next, MemFault>
    requires fits { Fits code.now (control_of s.old) }
    requires given { (r : Reply) × (s.old.waits ≡ waits.Given r) }
    ensures goes { IfOk result (λ next. (marks : ℕ) (cells : Cells) → M.holds m.old cells →
        Does (M.holds m.new) (M.heads m.new) (halt_of next) (control_of s.new) marks (advance code.now (control_of s.old) (scene_of (mem_of (M.heads m.old) cells) marks))) }
    ensures fits { OnOk result (Fits code.now (control_of s.new)) }
    ensures spends { (marks : ℕ) → OnOk result (Spends marks marks s.new.waits) }
    ensures nearer { (marks : ℕ) → IfOk result (λ next. halt_of next ≡ None → steps_left code.now.lines marks (length s.new.stack.frames) s.new.pc
        < steps_left code.now.lines marks (length s.old.stack.frames) s.old.pc) }
    ensures cause { HasFaultCause (M.faults m.old) (M.faults m.new) result }
    ensures follows { M.follows m.old m.new }
{
    let size = code.len();
    prove!(s.pc < size);
    match code.instr(s.pc) {
        Instr::Ask(name) => take_reply(s, m, *name),
        _ => unreachable!(),
    }
}

// One step, where nothing is waited for or the reply is there.
fn advance<M: Memory>(
    code: &Code,
    s: &mut State,
    m: &mut M,
    marks: &mut u32,
) -> Result<Next, MemFault>
    requires fits { Fits code.now (control_of s.old) }
    requires due { due s.old.waits ≡ None }
    ensures goes { IfOk result (λ next. (cells : Cells) → M.holds m.old cells →
        Does (M.holds m.new) (M.heads m.new) (halt_of next) (control_of s.new) marks.new (advance code.now (control_of s.old) (scene_of (mem_of (M.heads m.old) cells) marks.old))) }
    ensures fits { OnOk result (Fits code.now (control_of s.new)) }
    ensures spends { OnOk result (Spends marks.old marks.new s.new.waits) }
    ensures nearer { IfOk result (λ next. halt_of next ≡ None → steps_left code.now.lines marks.new (length s.new.stack.frames) s.new.pc
        < steps_left code.now.lines marks.old (length s.old.stack.frames) s.old.pc) }
    ensures cause { HasFaultCause (M.faults m.old) (M.faults m.new) result }
    ensures follows { M.follows m.old m.new }
{
    match s.waits {
        Waits::Nothing => step(code, s, m, marks),
        Waits::Given(_) => reply_step(code, s, m),
        Waits::Asked(_) | Waits::Refused(_) => unreachable!(),
    }
}

/// Answers the request that the machine waits for. Its instruction goes on with the reply in the next run; a call whose message was taken
/// waits for the answer then. What the reply does to the data spaces is done already.
pub fn reply<M: Memory>(_code: &Code, s: &mut State, _m: &mut M, r: Reply) -> Result<(), MemFault>
    requires fits { Fits _code.now (control_of s.old) }
    requires asks { IsSome (asked s.old.waits) }
    ensures answered { OnOk result ((request : Requests) → s.old.waits ≡ waits.Asked request → control_of s.new ≡ answered request r (position_of s.old)) }
    ensures fits { OnOk result (Fits _code.now (control_of s.new)) }
    ensures kept { (cells : Cells) → M.holds _m.old cells → M.holds _m.new cells }
    ensures heads { M.heads _m.new ≡ M.heads _m.old }
    ensures cause { HasFaultCause (M.faults _m.old) (M.faults _m.new) result }
    ensures follows { M.follows _m.old _m.new }
{
    s.waits = answered(&s.waits, r);
    Ok(())
}

// What is waited for after a reply: the answer to a call whose message was taken; else nothing any more.
fn answered(waiting: &Waits, r: Reply) -> Waits
    ensures { (request : Requests) (c : Position) → waiting.now ≡ waits.Asked request →
        record { position = c; waits = result } ≡ answered request r c }
{
    match answer_asked(waiting, &r) {
        Some(of) => Waits::Asked(Request::Answer { of }),
        None => heeded(r),
    }
}

// The task of which a call asks for the answer then.
fn answer_asked(waiting: &Waits, r: &Reply) -> Option<u32>
    ensures { (request : Requests) → waiting.now ≡ waits.Asked request → then_asked request r.now ≡ option_map requests.Answer result }
{
    match (waiting, r) {
        (
            Waits::Asked(
                Request::Call {
                    to,
                    code: _,
                    space: _,
                },
            ),
            Reply::Taken,
        ) => Some(*to),
        _ => None,
    }
}

// The instruction goes on with a reply, or stops.
fn heeded(r: Reply) -> Waits
    ensures { (c : Position) → record { position = c; waits = result } ≡ answered_by None r c }
{
    match r {
        Reply::Done => Waits::Given(Reply::Done),
        Reply::Text(text) => Waits::Given(Reply::Text(text)),
        Reply::Task(task) => Waits::Given(Reply::Task(task)),
        Reply::Truth(truth) => Waits::Given(Reply::Truth(truth)),
        Reply::Taken => Waits::Given(Reply::Taken),
        Reply::Receipt(number) => Waits::Given(Reply::Receipt(number)),
        Reply::Message { code, from, space } => Waits::Given(Reply::Message { code, from, space }),
        Reply::Stopped(stop) => Waits::Refused(stop),
    }
}

/// However marks and replies are divided over the calls, they make one run; a run comes to rest in one way; and
/// each state that it reaches fits its code.
pub fn laws()
    ensures resumes { Resumes }
    ensures replies { Replies }
    ensures one { IsOne }
    ensures fits { StaysFit }
{}

/// Runs until a mark is due and none is left, something is asked, or the command ends or stops. From all that memory is known to
/// hold it comes to the rest to which the definition comes; whatever memory holds, it comes to rest, and a request has cost a mark.
pub fn run<M: Memory>(
    code: &Code,
    s: &mut State,
    m: &mut M,
    marks: &mut u32,
) -> Result<Halt, MemFault>
    requires { Fits code.now (control_of s.old) }
    ensures rests { IfOk result (λ halt. (cells : Cells) (r : Rest) → M.holds m.old cells → Rests code.now (control_of s.old) (scene_of (mem_of (M.heads m.old) cells) marks.old) r →
        RestsSo (M.holds m.new) (M.heads m.new) halt (control_of s.new) marks.new r) }
    ensures marks { OnOk result (marks.new ≤ marks.old) }
    ensures asks { IfOk result (λ halt. (request : Requests) → halt ≡ halts.Asks request → s.new.waits ≡ waits.Asked request) }
    ensures pays { IfOk result (λ halt. (request : Requests) → halt ≡ halts.Asks request → asked s.old.waits ≡ None → marks.new < marks.old) }
    ensures fits { OnOk result (Fits code.now (control_of s.new)) }
    ensures cause { HasFaultCause (M.faults m.old) (M.faults m.new) result }
    ensures follows { M.follows m.old m.new }
{
    loop {
        // (asked first, since what is due is found outside this loop)
        if s.is_waiting() {
            if let Some(halt) = s.due()? {
                return Ok(halt);
            }
        }
        let next = advance(code, s, m, marks)?;
        if let Some(halt) = next.halt() {
            return Ok(halt);
        }
    }
}
