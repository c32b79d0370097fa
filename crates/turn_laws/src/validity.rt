//! Laws of valid systems.
ghost use Rattle.std.specs.Prelude.{ℕ, Bool, List};
ghost use Rattle.turn_laws.specs.Below.elan_scope.specs.declared.env.Env.{Env};
ghost use Rattle.turn_laws.specs.Below.session_text.specs.declared.events.Event.{Event};
ghost use Rattle.system_meaning.specs.Systems.{System, Moment, opening};
ghost use Rattle.system_meaning.specs.Monitor.{Reading};
ghost use Rattle.packet_store.specs.Readings.{IsReading};
ghost use Rattle.system_meaning.specs.Turns.{turn};
ghost use Rattle.system_meaning.specs.Events.{after, run};
ghost use Rattle.system_meaning.specs.Whole.{IsSystem};
ghost use Rattle.turn_laws.specs.Waits.{AreOrderly};
ghost use Rattle.turn_laws.specs.Standing.{AllStand};
ghost use Rattle.turn_laws.specs.Valid.{ArePlain, IsValid, IsEvent, AreEvents};

use crate::steady;

/// The opening is a valid system.
pub fn opening_is_valid()
    ensures { (read : Env → Bool → List ℕ → Reading) → IsValid read opening }
{}

/// Each turn, and each event whose line is short, leaves a valid system valid, for every right reading of texts.
pub fn events_leave_valid()
    ensures turns { (read : Env → Bool → List ℕ → Reading) → IsReading read → (m : Moment) → IsValid read m.system → IsValid read (turn read m).system }
    ensures events { (read : Env → Bool → List ℕ → Reading) → IsReading read → (s : System) → (e : Event) → IsEvent e → IsValid read s
        → IsValid read (after read s e) }
    ensures runs { (read : Env → Bool → List ℕ → Reading) → IsReading read → (s : System) → (es : List Event) → AreEvents es → IsValid read s
        → IsValid read (run read s es) }
{
    steady();
}

/// Each task stands as it should, behind each turn and behind each event: it is idle or enters a text, and is not ready; or its command is to go on,
/// and it is ready; or its command asks for something, and it waits so. So what is asked for tells who waits for messages, and the evaluations of a
/// slice are enough.
pub fn tasks_stand()
    ensures turns { (read : Env → Bool → List ℕ → Reading) → (m : Moment) → IsSystem m.system → AreOrderly m.system → AllStand m.system
        → AllStand (turn read m).system }
    ensures events { (read : Env → Bool → List ℕ → Reading) → (s : System) → (e : Event) → IsSystem s → AreOrderly s → AllStand s
        → AllStand (after read s e) }
{
    steady();
}

/// Behind each turn, and behind each event whose line is short: the tree has one root, and names of 1 to 60 bytes; the channels are four, with short
/// queues and tasks that live; and texts that are entered have room.
pub fn plain_parts_stay()
    ensures turns { (read : Env → Bool → List ℕ → Reading) → (m : Moment) → IsSystem m.system → AreOrderly m.system → AllStand m.system
        → ArePlain m.system → ArePlain (turn read m).system }
    ensures events { (read : Env → Bool → List ℕ → Reading) → (s : System) → (e : Event) → IsEvent e → IsSystem s → AreOrderly s → AllStand s
        → ArePlain s → ArePlain (after read s e) }
{
    steady();
}
