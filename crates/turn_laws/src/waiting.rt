//! What holds of those that wait is kept.
ghost use Rattle.std.specs.Prelude.{ℕ, Bool, List};
ghost use Rattle.turn_laws.specs.Below.elan_scope.specs.declared.env.Env.{Env};
ghost use Rattle.turn_laws.specs.Below.session_text.specs.declared.events.Event.{Event};
ghost use Rattle.system_meaning.specs.Systems.{System, Moment, opening};
ghost use Rattle.system_meaning.specs.Monitor.{Reading};
ghost use Rattle.system_meaning.specs.Turns.{turn};
ghost use Rattle.system_meaning.specs.Events.{after, run};
ghost use Rattle.system_meaning.specs.Whole.{IsSystem};
ghost use Rattle.turn_laws.specs.Waits.{AreOrderly};

use crate::steady;

/// Those that wait for messages do so rightly (`AreWaits`), callers have room for an answer, and no ready task asks for one: so it is at the opening,
/// and each turn and each other event keeps it, together with what holds of every system.
pub fn waits()
    ensures begins { AreOrderly opening }
    ensures turns { (read : Env → Bool → List ℕ → Reading) → (m : Moment) → IsSystem m.system → AreOrderly m.system
        → IsSystem (turn read m).system × AreOrderly (turn read m).system }
    ensures events { (read : Env → Bool → List ℕ → Reading) → (s : System) → (e : Event) → IsSystem s → AreOrderly s
        → IsSystem (after read s e) × AreOrderly (after read s e) }
    ensures runs { (read : Env → Bool → List ℕ → Reading) → (s : System) → (es : List Event) → IsSystem s → AreOrderly s
        → IsSystem (run read s es) × AreOrderly (run read s es) }
{
    steady();
}
