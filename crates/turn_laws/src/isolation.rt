//! Laws of isolation.
ghost use Rattle.std.specs.Prelude.{◌≡◌, ◌∷◌, ℕ, Bool, List, length};
ghost use Rattle.turn_laws.specs.Below.task_numbers.specs.declared.number.TaskNo.{TaskNo};
ghost use Rattle.turn_laws.specs.Below.elan_scope.specs.declared.env.Env.{Env};
ghost use Rattle.eu_base.specs.declared.request.Request.{Request};
ghost use Rattle.system_meaning.specs.Systems.{System, Moment, on_ready};
ghost use Rattle.system_meaning.specs.Serving.{serve};
ghost use Rattle.system_meaning.specs.Monitor.{Reading};
ghost use Rattle.system_meaning.specs.Turns.{turn};
ghost use Rattle.system_meaning.specs.Whole.{IsSystem, AreWaits};
ghost use Rattle.turn_laws.specs.Others.{OthersStay};
ghost use Rattle.turn_laws.specs.Told.{turn_told, turn_asked};
ghost use Rattle.turn_laws.specs.Waits.{AreOrderly, HasTurn, Asking, GoesOn};
ghost use Rattle.turn_laws.specs.Worlds.{SameFor, GoesSame, IsNext};

use crate::steady;

/// A turn of a task leaves all that is the own of each other that it does not reach: one that lives before it and behind it has the same name, the
/// same packets, which mean the same, the same variables and data spaces, and does the same. It reaches those to which the task sends a message in
/// it, and those whose call names the task, or one that ends. One that lives no more was of the family of the task that has the turn, which asked in it
/// for the end of that one or of an ancestor of it; and one that is new is a son of it, and it asked in it that a task of this name begin. And what
/// holds of every system holds behind the turn.
pub fn others_stay()
    ensures others { (read : Env → Bool → List ℕ → Reading) → (m : Moment) → IsSystem m.system → AreOrderly m.system
        → OthersStay m.system.shared.ready (turn_asked m) m.system (turn read m).system }
    ensures whole { (read : Env → Bool → List ℕ → Reading) → (m : Moment) → IsSystem m.system → AreOrderly m.system
        → IsSystem (turn read m).system × AreOrderly (turn read m).system }
{
    steady();
}

/// From one evaluation of a task to the next in its turn: it has its turn from the beginning, those that wait do so rightly where it asks for something,
/// and behind the request it has its turn still, with the answer; or all is orderly where it rests.
pub fn turns_go_on()
    ensures begins { (u : TaskNo) → (ready : List TaskNo) → (s : System) → IsSystem s → AreOrderly s → s.shared.ready ≡ u ∷ ready
        → IsSystem (on_ready (λ _. ready) s) × HasTurn u (on_ready (λ _. ready) s) }
    ensures asks { (u : TaskNo) → (q : Request) → (m : Moment) → (now : Moment) → IsSystem m.system → HasTurn u m.system → Asking u q m now
        → IsSystem now.system × AreWaits now.system }
    ensures serves { (u : TaskNo) → (q : Request) → (m : Moment) → (now : Moment) → IsSystem m.system → HasTurn u m.system → Asking u q m now
        → GoesOn u (serve u q now) }
{
    steady();
}

/// A turn of a task depends on nothing but what is its own, its channel, and what it is told in the turn: in two moments that are the same for it,
/// whatever the others have, it comes to the same if it is told the same, and the same is shown at its channel.
pub fn turns_alike()
    ensures { (read : Env → Bool → List ℕ → Reading) → (u : TaskNo) → (m : Moment) → (n : Moment) → IsSystem m.system → IsSystem n.system
        → AreOrderly m.system → AreOrderly n.system → length m.display.unfinished ≡ 4 → length n.display.unfinished ≡ 4 → IsNext u m.system.shared.ready
        → IsNext u n.system.shared.ready → SameFor u m n → turn_told m ≡ turn_told n → GoesSame u m n (turn read m) (turn read n) }
{}
