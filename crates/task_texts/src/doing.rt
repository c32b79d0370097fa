//! Whether a task is idle, or a text is entered.
ghost use Rattle.std.specs.Prelude.{◌≡◌, [], List, MatchOption, false};
ghost use Rattle.eu_base.specs.declared.value.Kind.{Kind};
ghost use Rattle.page_pool.specs.Pool.{Pages};
ghost use Rattle.task_texts.specs.Below.system_meaning.specs.Tasks.{Own};
ghost use Rattle.live_task.specs.declared.task.Doing.TheVariants.{Idle, Entering};
ghost use Rattle.live_task.specs.Stands.{StandsFor};
ghost use Rattle.task_texts.specs.Doings.{is_idle, is_entering, rests, enters};

use eu_base::{Bytes, List};
use live_task::{Doing, Task};
use std::alloc::Global;
use std::mem;

/// Whether it runs no command, and no text is entered.
pub fn is_idle(task: &Task) -> bool
    ensures idle { (kinds : List Kind) (pages : Pages) (own : Own) → StandsFor kinds pages task.now own → result ≡ is_idle own.doing }
    ensures rests { result ≡ rests task.now.doing }
{
    match &task.doing {
        Doing::Idle => true,
        Doing::Entering { .. } | Doing::Running(_) => false,
    }
}

/// Whether a text is entered.
pub fn is_entering(task: &Task) -> bool
    ensures entering { (kinds : List Kind) (pages : Pages) (own : Own) → StandsFor kinds pages task.now own → result ≡ is_entering own.doing }
    ensures enters { result ≡ enters task.now.doing }
{
    match &task.doing {
        Doing::Entering { .. } => true,
        Doing::Idle | Doing::Running(_) => false,
    }
}

// The text that is entered, with its name: the task is idle then. `None` where none is entered, and nothing changes.
pub(crate) fn take_text(alloc: Global, task: &mut Task) -> Option<(Bytes, List<Bytes>)>
    ensures { MatchOption result ((enters task.old.doing ≡ false) × (task.new ≡ task.old))
        (λ text. (task.old.doing ≡ Entering text.0 text.1) × (task.new ≡ record task.old { doing = Idle })) }
{
    let Doing::Entering { name, lines } = &mut task.doing else {
        return None;
    };
    let name = mem::replace(name, Bytes::new(alloc));
    let lines = mem::replace(lines, List::new(alloc));
    put_doing(task, Doing::Idle);
    Some((name, lines))
}

// A text is entered under a name, which has no lines yet.
pub(crate) fn begin_text(alloc: Global, task: &mut Task, name: Bytes)
    ensures { task.new ≡ record task.old { doing = Entering name [] } }
{
    let lines = List::new(alloc);
    put_doing(task, Doing::Entering { name, lines });
}

// It does this from now on; what it did is let go.
pub(crate) fn put_doing(task: &mut Task, doing: Doing)
    ensures { task.new ≡ record task.old { doing = doing } }
{
    mem::replace(&mut task.doing, doing).let_go();
}
