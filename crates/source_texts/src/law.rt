//! What was written is read again.
ghost use Rattle.std.specs.Prelude.{◌≡◌, ◌≤◌, ℕ, List, length, Some};
ghost use Rattle.units.specs.Sources.{joined, source_space, source_text};

/// Law: the text of a space that was written is that of its lines, with a line end between two.
pub fn source_reads_back()
    ensures { (lines : List (List ℕ)) → length lines ≤ 400 → source_text (source_space lines) ≡ Some (joined lines) }
{}
