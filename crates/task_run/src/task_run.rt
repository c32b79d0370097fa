//! A command that runs.
ghost use Rattle.std.specs.Prelude.{◌≢◌, true, Err, ◌≡◌, ◌+◌, ◌-◌, ◌<◌, ◌≤◌, ◌⊎◌, ◌++◌, ◌∷◌, [], ℕ, List, None, IfOk, OnOk, IsSome, option_copied};
ghost use Rattle.eu_base.specs.declared.request.Request.{Request};
ghost use Rattle.eu_base.specs.Requests.{Answer};
ghost use Rattle.code_form.specs.declared.halt.Halt.TheVariants as halts;
ghost use Rattle.code_form.specs.declared.waits.Waits.TheVariants as waits;
ghost use Rattle.eu_base.specs.Cells.{Cells, HasFaultCause};
ghost use Rattle.code_form.specs.Machine.{Mem, Control, Rest, start, answered, after_reply, made, CanBeMade};
ghost use Rattle.code_form.specs.Valid.{Fits};
ghost use Rattle.code_form.specs.Runs.{IsPaused, Rests, Stands, asked};
ghost use Rattle.task_run.specs.Below.zero_state.specs.Stepping.{mem_of, scene_of};
ghost use Rattle.zero_machine.specs.Running.{RestsSo};
ghost use Rattle.byte_spelling.specs.declared.reading.ReadError.TheVariants as errors;
ghost use Rattle.state_spelling.specs.Kept.{kept as spelling};
ghost use Rattle.state_spelling.specs.Standing.{kept_of};

use byte_spelling::ReadError;
use code_form::{Code, Halt, Waits};
use eu_base::{Bytes, MemFault, Memory, NoMemory, Reply, Request};
use state_spelling::{record_bytes, revive_bytes};
use std::alloc::Global;
use std::marker::Model;
use zero_machine::State;

/// Where a command stands, which contracts see as the control of the machine.
#[derive(Drop)]
pub struct TaskRun {
    state: State,
}

impl Model for TaskRun {
    ghost use Rattle.code_form.specs.Machine.{Control};
    ghost use Rattle.task_run.specs.Below.zero_state.specs.Stepping.{control_of};

    ghost Value = { Control };

    ghost view = { λ command. control_of command.state };
}

impl TaskRun {
    /// Starts a command: its variables are made, and behind those of the packets of the task those of the packet that is inserted, each
    /// where they have room; and nothing is pending. Where some have none, it stops at once.
    pub fn start<M: Memory>(alloc: Global, c: &Code, m: &mut M) -> Result<TaskRun, MemFault>
        ensures control { IfOk result (λ command. command ≡ start c.now) }
        ensures fits { IfOk result (λ command. Fits c.now command) }
        ensures made { OnOk result ((cells : Cells) → M.holds m.old cells → CanBeMade c.now cells → M.holds m.new (made c.now cells)) }
        ensures heads { M.heads m.new ≡ M.heads m.old }
        ensures cause { HasFaultCause (M.faults m.old) (M.faults m.new) result }
        ensures follows { M.follows m.old m.new }
    {
        let state = zero_machine::start(alloc, c, m)?;
        Ok(TaskRun { state })
    }

    /// Goes on until a mark is due and none is left, something is asked, or the command ends or stops. However the
    /// marks are divided over the calls, they make one run. A call without marks asks nothing: after it the command
    /// stands right before its next mark, its end or its stop. Where it comes to rest is said of all that memory is known
    /// to hold, and memory then holds the cells of that rest.
    pub fn go<M: Memory>(&mut self, c: &Code, m: &mut M, marks: &mut u32) -> Result<Halt, MemFault>
        requires { Fits c.now self.old }
        ensures rests { IfOk result (λ halt. (cells : Cells) (r : Rest) → M.holds m.old cells → Rests c.now self.old (scene_of (mem_of (M.heads m.old) cells) marks.old) r →
            RestsSo (M.holds m.new) (M.heads m.new) halt self.new marks.new r) }
        ensures marks { OnOk result (marks.new ≤ marks.old) }
        ensures stands { IfOk result (λ halt. IsPaused halt ⊎ (marks.old ≡ 0) → (cells : Cells) (r : Rest) → M.holds m.old cells →
            Rests c.now self.old (scene_of (mem_of (M.heads m.old) cells) marks.old) r → (first : Control) (before : Mem) (spent : ℕ) (replies : List Answer) →
            Stands c.now first before spent replies self.old (mem_of (M.heads m.old) cells) →
            Stands c.now first before (spent + (marks.old - marks.new)) replies self.new r.scene.mem) }
        ensures asks { IfOk result (λ halt. (request : Request) → halt ≡ halts.Asks request → self.new.waits ≡ waits.Asked request) }
        ensures pays { IfOk result (λ halt. (request : Request) → halt ≡ halts.Asks request → asked self.old.waits ≡ None → marks.new < marks.old) }
        ensures fits { OnOk result (Fits c.now self.new) }
        ensures cause { HasFaultCause (M.faults m.old) (M.faults m.new) result }
        ensures follows { M.follows m.old m.new }
    {
        let halt = zero_machine::run(c, &mut self.state, m, marks)?;
        Ok(halt)
    }

    /// What is kept of where the command stands, as bytes.
    pub fn record(&self, alloc: Global) -> Result<Bytes, NoMemory>
        ensures spelled { IfOk result (λ bytes. bytes ≡ spelling.spell (kept_of self.now)) }
        ensures fine { IfOk result (λ _. spelling.fine (kept_of self.now) ≡ true) }
    {
        record_bytes(alloc, &self.state)
    }

    /// Where a command of this code stands, from the bytes that were kept of it. A refusal says that no state that fits the code has these bytes.
    pub fn revive(alloc: Global, c: &Code, kept: &[u8]) -> Result<TaskRun, ReadError>
        ensures fits { IfOk result (λ command. Fits c.now command) }
        ensures kept { IfOk result (λ command. kept.now ≡ spelling.spell (kept_of command)) }
        ensures same { (s : Control) → Fits c.now s → spelling.fine (kept_of s) ≡ true → kept.now ≡ spelling.spell (kept_of s) → IfOk result (λ command. command ≡ s) }
        ensures refused { (s : Control) → Fits c.now s → spelling.fine (kept_of s) ≡ true → kept.now ≡ spelling.spell (kept_of s) → result ≢ Err errors.NotSpelled }
    {
        let state = revive_bytes(alloc, c, kept)?;
        Ok(TaskRun { state })
    }

    /// The request that the command waits for.
    pub fn asked(&self) -> Option<&Request>
        ensures { option_copied result ≡ asked self.now.waits }
    {
        match &self.state.waits {
            Waits::Asked(request) => Some(request),
            Waits::Nothing | Waits::Given(_) | Waits::Refused(_) => None,
        }
    }

    /// Answers the request that the command waits for. A call whose message was taken waits for the answer then. What the answer does to the
    /// data spaces is done already: the one that was sent was taken out, and the one that came with a message was given.
    pub fn answer<M: Memory>(&mut self, c: &Code, m: &mut M, r: Reply) -> Result<(), MemFault>
        requires fits { Fits c.now self.old }
        requires asks { IsSome (asked self.old.waits) }
        ensures answered { OnOk result ((request : Request) → self.old.waits ≡ waits.Asked request → self.new ≡ answered request r self.old.position) }
        ensures stands { OnOk result ((first : Control) (before now : Mem) (spent : ℕ) (replies : List Answer) (request : Request) (a : Answer) →
            self.old.waits ≡ waits.Asked request → a.reply ≡ r → Stands c.now first before spent replies self.old now →
            Stands c.now first before spent (replies ++ a ∷ []) self.new (after_reply request a now)) }
        ensures fits { OnOk result (Fits c.now self.new) }
        ensures kept { (cells : Cells) → M.holds m.old cells → M.holds m.new cells }
        ensures heads { M.heads m.new ≡ M.heads m.old }
        ensures cause { HasFaultCause (M.faults m.old) (M.faults m.new) result }
        ensures follows { M.follows m.old m.new }
    {
        zero_machine::reply(c, &mut self.state, m, r)?;
        Ok(())
    }
}
