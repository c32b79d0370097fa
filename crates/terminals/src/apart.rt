//! Whether no two channels of a record have one task.
ghost use Rattle.std.specs.Prelude.{◌≡◌, true, false};
ghost use Rattle.std.specs.List.{list_all};
ghost use Rattle.terminals.specs.Rows as spec;

use crate::ChannelRow;

/// Whether no two rows have one task.
pub(crate) fn are_apart(rows: &[ChannelRow]) -> bool
    ensures all { result ≡ true → spec.AreApart rows.now }
    ensures some { result ≡ false → spec.AreApart rows.now → ⊥ }
{
    for place in 0..rows.len() {
        if !is_apart_from(&rows[..place], &rows[place]) {
            return false;
        }
    }
    true
}

fn is_apart_from(others: &[ChannelRow], row: &ChannelRow) -> bool
    ensures { result ≡ list_all (λ other. spec.is_apart other row.now) others.now }
{
    others.iter().all(|other| is_apart(other, row))
}

fn is_apart(row: &ChannelRow, other: &ChannelRow) -> bool
    ensures { result ≡ spec.is_apart row.now other.now }
{
    row.task.is_nil() || !row.task.is(other.task)
}
