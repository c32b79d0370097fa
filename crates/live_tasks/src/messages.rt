//! Messages from one of the tasks to another.
ghost use Rattle.std.specs.Prelude.{◌≡◌, ◌≢◌, ◌<◌, ◌∷◌, [], ℕ, ℤ, List, length, set, nat_le, true, if◌then◌else◌, Some, None, IfOk, OnOk, slice_get};
ghost use Rattle.eu_base.specs.declared.value.Kind.{Kind};
ghost use Rattle.eu_base.specs.declared.stop.Stop.TheVariants as stops;
ghost use Rattle.eu_base.specs.Values.{SpaceNo as SpaceNos};
ghost use Rattle.eu_base.specs.declared.request.Request.{Request as Requests};
ghost use Rattle.eu_base.specs.declared.request.Reply.TheVariants.{Message};
ghost use Rattle.eu_base.specs.Requests.{Answer, plain, sent_by};
ghost use Rattle.eu_base.specs.declared.request.Reply.TheVariants as replies;
ghost use Rattle.eu_base.specs.DataSpaces.{Forgets, heads_of, is_live, the_space, without_space, next_number, most_live, last_number};
ghost use Rattle.eu_base.specs.SpaceOperations.{room_refusal};
ghost use Rattle.live_tasks.specs.Below.system_meaning.specs.Tasks.{Own, now, request_of, replied, with_doing};
ghost use Rattle.live_tasks.specs.Below.system_meaning.specs.Systems.{with_own};
ghost use Rattle.live_tasks.specs.Tasks.{Stand};
ghost use Rattle.live_tasks.specs.Handing.{Owed, StandOrDue, CanGo, handing, owing, paid};

use crate::tasks::Tasks;
use eu_base::{NoMemory, Reply, Stop};
use task_numbers::{SpaceNo, TaskNo};
use task_tidy::{can_send, can_take, send_out, take_in};

impl Tasks {
    /// Whether a data space of a task lives.
    pub fn has_space(&self, k: usize, space: SpaceNo) -> bool
        requires task { k < length self.now.tasks }
        ensures { (kinds_of : List ℕ → List Kind) (owns : List Own) (own : Own) → Stand kinds_of self.now owns → slice_get owns k ≡ Some own →
            result ≡ is_live space (now own.doing).spaces }
    {
        let task = &self.tasks[k];
        task.memory.live(space)
    }

    /// Why a task has no room for a data space more.
    pub fn room_refusal(&self, k: usize) -> Option<Stop>
        requires task { k < length self.now.tasks }
        ensures { (kinds_of : List ℕ → List Kind) (owns : List Own) (own : Own) → Stand kinds_of self.now owns → slice_get owns k ≡ Some own →
            result ≡ room_refusal (heads_of (now own.doing).spaces) }
    {
        let task = &self.tasks[k];
        refusal(task.memory.count(), task.memory.last_number())
    }

    /// Why it has none in the place of one that lives.
    pub fn refusal_without(&self, k: usize) -> Option<Stop>
        requires task { k < length self.now.tasks }
        ensures { (kinds_of : List ℕ → List Kind) (owns : List Own) (own : Own) (space : SpaceNos) → Stand kinds_of self.now owns →
            slice_get owns k ≡ Some own → is_live space (now own.doing).spaces ≡ true →
            result ≡ room_refusal (heads_of (without_space space (now own.doing).spaces)) }
    {
        let task = &self.tasks[k];
        refusal(0, task.memory.last_number())
    }

    /// The message of a task's request is taken by another, which waits for one: its data space goes there, and both get their answers and go on to
    /// right before their next marks. Where the data space does not live, or one has no room for it, nothing happens.
    pub fn hand(
        &mut self,
        from: usize,
        to: usize,
        space: SpaceNo,
        code: i16,
        sender: TaskNo,
    ) -> Result<(), NoMemory>
        requires from { from < length self.old.tasks }
        requires to { to < length self.old.tasks }
        ensures { OnOk result ((kinds_of : List ℕ → List Kind) (owns : List Own) (mine other : Own) (request asked : Requests) → from ≢ to → Stand kinds_of self.old owns →
            slice_get owns from ≡ Some mine → slice_get owns to ≡ Some other → request_of mine.doing ≡ Some request → sent_by request ≡ Forgets space ∷ [] →
            is_live space (now mine.doing).spaces ≡ true → request_of other.doing ≡ Some asked → room_refusal (heads_of (now other.doing).spaces) ≡ None →
            Stand kinds_of self.new
            (with_own to (λ o. with_doing (replied (record {
              reply = Message code sender.0 (next_number (now other.doing).spaces).0;
              content = the_space space (now mine.doing).spaces;
            }) o.doing) o)
            (with_own from (λ o. with_doing (replied (plain replies.Taken) o.doing) o) owns))) }
    {
        if !self.can_go(from, to, space) {
            return Ok(());
        }
        let number = self.pass(from, to, space)?;
        self.answer_due(from, Reply::Taken)?;
        self.answer_due(
            to,
            Reply::Message {
                code,
                from: sender.0,
                space: number.0,
            },
        )
    }

    // Whether a data space of a task can go to another.
    fn can_go(&self, from: usize, to: usize, space: SpaceNo) -> bool
        requires from { from < length self.now.tasks }
        requires to { to < length self.now.tasks }
        ensures go { result ≡ true → CanGo self.now.tasks from to space }
        ensures can { (kinds_of : List ℕ → List Kind) (owns : List Own) (mine other : Own) (request asked : Requests) → from ≢ to → Stand kinds_of self.now owns →
            slice_get owns from ≡ Some mine → slice_get owns to ≡ Some other → request_of mine.doing ≡ Some request →
            is_live space (now mine.doing).spaces ≡ true → request_of other.doing ≡ Some asked → room_refusal (heads_of (now other.doing).spaces) ≡ None →
            result ≡ true }
    {
        if from == to {
            return false;
        }
        let giver = &self.tasks[from];
        if !can_send(giver, space) {
            return false;
        }
        let taker = &self.tasks[to];
        can_take(taker)
    }

    // The data space of a task's message goes to another: under this number, and the answers of both are due then.
    fn pass(&mut self, from: usize, to: usize, space: SpaceNo) -> Result<SpaceNo, NoMemory>
        requires from { from < length self.old.tasks }
        requires to { to < length self.old.tasks }
        requires go { CanGo self.old.tasks from to space }
        ensures passed { IfOk result (λ number. (kinds_of : List ℕ → List Kind) (owns : List Own) (mine other : Own) (request asked : Requests) (code : ℤ) (sender : ℕ) →
            Stand kinds_of self.old owns → slice_get owns from ≡ Some mine → slice_get owns to ≡ Some other → request_of mine.doing ≡ Some request →
            sent_by request ≡ Forgets space ∷ [] → request_of other.doing ≡ Some asked →
            (number.0 ≡ (next_number (now other.doing).spaces).0) × StandOrDue kinds_of self.new (handing from (plain replies.Taken) mine to (record {
              reply = Message code sender number.0;
              content = the_space space (now mine.doing).spaces;
            }) other owns)) }
        ensures many { length self.new.tasks ≡ length self.old.tasks }
    {
        let giver = &mut self.tasks[from];
        let sent = send_out(giver, space);
        let taker = &mut self.tasks[to];
        match take_in(taker, sent) {
            Ok(number) => Ok(number),
            Err(back) => {
                back.forget(&mut self.pool);
                Err(NoMemory)
            }
        }
    }

    // A task gets the reply of an answer that is due to it.
    fn answer_due(&mut self, k: usize, reply: Reply) -> Result<(), NoMemory>
        requires task { k < length self.old.tasks }
        ensures answered { OnOk result ((kinds_of : List ℕ → List Kind) (all : List Owed) (own : Own) (a : Answer) → a.reply ≡ reply →
            StandOrDue kinds_of self.old all → slice_get all k ≡ Some (owing a own) →
            StandOrDue kinds_of self.new (set all k (paid (with_doing (replied a own.doing) own)))) }
        ensures many { length self.new.tasks ≡ length self.old.tasks }
    {
        let task = &mut self.tasks[k];
        task.answer(&mut self.pool, reply)
    }
}

// Why no data space can come where so many live, and this was the last number.
fn refusal(count: u32, last: u32) -> Option<Stop>
    ensures { result ≡ (if nat_le most_live count then Some stops.ManySpaces else if nat_le last_number last then Some stops.SpaceNumbers else None) }
{
    if count >= 16 {
        return Some(Stop::ManySpaces);
    }
    if last >= 4_294_967_295 {
        return Some(Stop::SpaceNumbers);
    }
    None
}
