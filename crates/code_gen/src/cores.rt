//! The bodies of a core, of which those do nothing that its command does not reach.

ghost use Rattle.std.specs.Prelude.{◌≡◌, ℕ, Bool, List, cond, length, option_map, slice_get, IfOk};
ghost use Rattle.elan_types.specs.declared.core_phrase.Core.{Core as Cores};
ghost use Rattle.elan_types.specs.Eval.{World};
ghost use Rattle.elan_types.specs.Typing.{IsWellTyped};
ghost use Rattle.elan_types.specs.Command.{evaluate_from};
ghost use Rattle.code_gen.specs.Reached.{IsReached, emptied as nothing_left, with_bodies};
ghost use Rattle.code_gen.specs.walks.Marks as walks;

use crate::marks::{is_marked, marks};
use crate::without::emptied;
use elan_types::{Body, Core};
use eu_base::{List, NoMemory, Shared};
use std::alloc::Global;

// A body that is reached is shared, not copied.
fn left(alloc: Global, is_reached: bool, body: &Shared<Body>) -> Result<Shared<Body>, NoMemory>
    ensures { IfOk result (λ made. made ≡ cond is_reached body.now (nothing_left body.now)) }
{
    if is_reached {
        body.share()
    } else {
        emptied(alloc, body.get())
    }
}

fn all_left(
    alloc: Global,
    marks: &[bool],
    bodies: &[Shared<Body>],
) -> Result<List<Shared<Body>>, NoMemory>
    ensures { IfOk result (λ made. made ≡ walks.left_from 0 marks.now bodies.now) }
{
    let mut made = List::new(alloc);
    for (number, body) in bodies.iter().enumerate() {
        made.push(left(alloc, is_marked(marks, number), body)?)?;
    }
    Ok(made)
}

/// The bodies of a core, each in its place: those that its command reaches as they are, and of the others the variables and the
/// result alone. With them the core is well typed as before, and does the same. It takes the time of looking at what is reached
/// once, and a little for each other body.
pub fn reached(alloc: Global, core: &Core) -> Result<List<Shared<Body>>, NoMemory>
    ensures left { IfOk result (walks.AreLeft core.now) }
    ensures kept { IfOk result (λ made. (n : ℕ) → IsReached core.now n → slice_get made n ≡ slice_get core.now.bodies n) }
    ensures emptied { IfOk result (λ made. (n : ℕ) → (IsReached core.now n → ⊥) → slice_get made n ≡ option_map nothing_left (slice_get core.now.bodies n)) }
    ensures count { IfOk result (λ made. length made ≡ length core.now.bodies) }
    ensures typed { IfOk result (λ made. IsWellTyped core.now → IsWellTyped (with_bodies core.now made)) }
    ensures same { IfOk result (λ made. (w : World) → evaluate_from (with_bodies core.now made) w ≡ evaluate_from core.now w) }
{
    let marks = marks(alloc, core)?;
    all_left(alloc, marks.as_slice(), core.bodies.as_slice())
}

/// Law: a command leaves one list of bodies.
pub fn one_left()
    ensures { (core : Cores) (a b : List Bool) → walks.AreMarks core a → walks.AreMarks core b → walks.left_from 0 a core.bodies ≡ walks.left_from 0 b core.bodies }
{}
