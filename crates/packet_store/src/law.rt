//! Laws of meaning: each text means something or is refused, and only so; and packets stand in later texts, and behind
//! further packets, as they were compiled.

ghost use Rattle.std.specs.Prelude.{◌≡◌, ℕ, Bool, List};
ghost use Rattle.elan_types.specs.declared.core_phrase.Core.{Core};
ghost use Rattle.packet_store.specs.Below.code_form.specs.Program.{Program};
ghost use Rattle.elan_scope.specs.declared.env.Env.{Env};
ghost use Rattle.packet_store.specs.Below.elan_names.specs.declared.interface.Interface.{Interface};
ghost use Rattle.units.specs.Packets.{after};
ghost use Rattle.elan_check.specs.Packets.{AreCompiled};
ghost use Rattle.units.specs.declared.error.Refusal.{Refusal};
ghost use Rattle.code_gen.specs.Codes.{IsCodeOf};
ghost use Rattle.packet_store.specs.Meaning.{Means, IsRefused, HasOutcome};
ghost use Rattle.units.specs.declared.unit.Compiled.{Compiled};
ghost use Rattle.packet_store.specs.Readings.{ReadsSo, IsReading};
ghost use Rattle.packet_store.specs.Units.{BodiesKeepTheirNumbers, HasPacket, IsUnit, IsUnitOf};
ghost use Rattle.units.specs.Reading.{Reading};
ghost use Rattle.units.specs.Sound.{IsSoundUnit};

use code_gen::one_code;
use elan_check::{each_text_has_one_answer, meant_is_not_refused, one_core, one_refusal};
use elan_parser::one_tree;

/// Behind packets each text has a meaning or is refused; no text has both, nor two meanings or two refusals.
pub fn one_meaning()
    ensures some { (env : Env) → AreCompiled env → (packet : Bool) → (text : List ℕ) → HasOutcome env packet text }
    ensures one { (env : Env) → (packet : Bool) → (text : List ℕ) → (c : Core) → (d : Core) → Means env packet text c → Means env packet text d → c ≡ d }
    ensures not_both { (env : Env) → (packet : Bool) → (text : List ℕ) → (c : Core) → (r : Refusal)
        → Means env packet text c → IsRefused env packet text r → ⊥ }
    ensures one_refusal { (env : Env) → (packet : Bool) → (text : List ℕ) → (q : Refusal) → (r : Refusal)
        → IsRefused env packet text q → IsRefused env packet text r → q ≡ r }
{
    one_tree();
    one_core();
    one_refusal();
    meant_is_not_refused();
    each_text_has_one_answer();
}

/// Behind packets a text has one unit: what it means, and what later texts see of it.
pub fn one_unit()
    ensures { (env : Env) → (packet : Bool) → (text : List ℕ) → (u : Compiled) → (v : Compiled)
        → IsUnitOf env packet text u → IsUnitOf env packet text v → (u.core ≡ v.core) × (u.shown ≡ v.shown) }
{
    one_tree();
    one_core();
    one_refusal();
    meant_is_not_refused();
}

/// Behind packets a text has one code: what is made anew from it is what was made before.
pub fn text_has_one_code()
    ensures { (env : Env) → (packet : Bool) → (text : List ℕ) → (u : Compiled) → (v : Compiled) → (p : Program) → (q : Program)
        → IsUnitOf env packet text u → IsUnitOf env packet text v → IsCodeOf u.core p → IsCodeOf v.core q → p ≡ q }
{
    one_unit();
    one_code();
}

/// What is inserted under a number is what was compiled: the meaning of each text behind a packet has the packet's bodies unchanged, and
/// its variables under that number. So code that does what this meaning does calls the packet, and reaches its variables, so.
pub fn packets_stand_as_compiled()
    ensures { (env : Env) → (i : Interface) → (c : Core) → (n : ℕ) → (packet : Bool) → (text : List ℕ) → (later : Core)
        → Means (after env i c n) packet text later → HasPacket env c n later }
{}

/// Behind whatever is installed after some packets, each of their bodies has the number and the content that it has behind them alone.
/// So a start procedure that is named by its packet is the same PROC in each task that has further packets.
pub fn bodies_keep_their_numbers()
    ensures { BodiesKeepTheirNumbers }
{}

/// There is a reading: a function that says of each text behind packets what unit it is, or why it is refused.
pub fn a_reading_exists()
    ensures { (read : Env → Bool → List ℕ → Reading) × IsReading read }
{}

/// Behind packets a text is one unit, or is refused for one reason, and never both; so readings agree there.
pub fn one_reading()
    ensures one { (env : Env) → AreCompiled env → (packet : Bool) → (text : List ℕ) → (a : Reading) → (b : Reading)
        → ReadsSo env packet text a → ReadsSo env packet text b → a ≡ b }
    ensures agree { (read : Env → Bool → List ℕ → Reading) → (other : Env → Bool → List ℕ → Reading) → IsReading read → IsReading other
        → (env : Env) → AreCompiled env → (packet : Bool) → (text : List ℕ) → read env packet text ≡ other env packet text }
{
    one_meaning();
    one_unit();
}

/// A unit is well typed, one that shows nothing inserts nothing, and its core has the packets behind which it stands.
pub fn units_are_sound()
    ensures { (u : Compiled) → IsUnit u → IsSoundUnit u }
{}
