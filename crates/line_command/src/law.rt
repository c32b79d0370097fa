//! A law of the definitions: each input has one output.
ghost use Rattle.std.specs.Prelude.{◌≡◌, ◌+◌, ℕ, List, []};
ghost use Rattle.elan_types.specs.declared.core_phrase.Core.{Core};
ghost use Rattle.line_command.specs.Line.{LineWrites};
ghost use Rattle.line_command.specs.Meaning.{Means};
ghost use Rattle.line_command.specs.Program.{line_marks, Suffices};

use crate::below::of_elan_check::what_a_text_means_is_well_typed;
use packet_store::one_meaning;

/// For each input there is one thing that the command `line` writes, and no other. What a program writes is told by as
/// many evaluations as it has marks, and one more: none that is accepted needs another.
pub fn one_output()
    ensures some { (bytes : List ℕ) → (out : List ℕ) × LineWrites bytes out }
    ensures one { (bytes a b : List ℕ) → LineWrites bytes a → LineWrites bytes b → a ≡ b }
    ensures enough { (text : List ℕ) (core : Core) → Means text core → Suffices (line_marks + 1) core line_marks [] }
{
    one_meaning();
    what_a_text_means_is_well_typed();
}
