//! What several phrases mean together: the calls of `row` and `arity`, made once for what phrases mean. A crate that makes them
//! here proves nothing of how what a phrase means is let go.

ghost use Rattle.std.specs.Prelude.{◌≡◌, ◌∷◌, [], List, IfOk};
ghost use Rattle.elan_meant.specs.declared.meant.Meant.{Meant};
ghost use Rattle.elan_meant.specs.Parts as spec;
ghost use Rattle.elan_meant.specs.walks.Arity as walk;
ghost use Rattle.elan_meant.specs.walks.Arity.{triple};
ghost use Rattle.elan_scope.specs.Ruled.{Ruled, gives, before, beside, joined};
ghost use Rattle.elan_scope.specs.Answer.{Is};

use crate::meant::Meant;
use crate::row::{Judged, Row};
use crate::{arity, row};
use elan_scope::trouble::Trouble;
use eu_base::{List, NoMemory};
use std::alloc::Global;

/// What three phrases mean.
pub type Three = Result<(Meant, Meant, Meant), Trouble>;

// ---- rows

/// A row of no phrases.
pub fn none(alloc: Global) -> Row
    ensures { Is result (gives []) }
{
    Ok(List::new(alloc))
}

/// What phrases mean, and one more.
pub fn with(row: Row, next: Judged) -> Row
    ensures { (rs : Ruled (List Meant)) → (r : Ruled Meant) → Is row rs → Is next r → Is result (joined rs r) }
{
    row::and(row, next)
}

/// What one phrase means.
pub fn one(alloc: Global, part: Judged) -> Row
    ensures { (r : Ruled Meant) → Is part r → Is result (before r (gives [])) }
{
    row::one(alloc, part)
}

/// What two phrases mean, one after the other.
pub fn pair(alloc: Global, first: Judged, second: Judged) -> Row
    ensures { (r : Ruled Meant) → (q : Ruled Meant) → Is first r → Is second q → Is result (before r (before q (gives []))) }
{
    row::pair(alloc, first, second)
}

/// Lets a row go.
pub fn let_go(_row: Row) {}

// ---- beside each other

/// What a phrase means, and those behind it.
pub fn before(first: Judged, rest: Row) -> Result<(Meant, List<Meant>), Trouble>
    ensures { (r : Ruled Meant) → (rs : Ruled (List Meant)) → Is first r → Is rest rs → Is result (beside r rs) }
{
    row::two(first, rest)
}

/// What two phrases mean beside each other.
pub fn two(first: Judged, second: Judged) -> Result<(Meant, Meant), Trouble>
    ensures { (r : Ruled Meant) → (q : Ruled Meant) → Is first r → Is second q → Is result (beside r q) }
{
    row::two(first, second)
}

/// What three phrases mean beside each other.
pub fn three(first: Judged, second: Judged, third: Judged) -> Three
    ensures { (r : Ruled Meant) → (q : Ruled Meant) → (s : Ruled Meant) → Is first r → Is second q → Is third s → Is result (triple r q s) }
{
    row::three(first, second, third)
}

/// What three phrases mean, and three others.
pub fn six(
    first: Three,
    second: Three,
) -> Result<((Meant, Meant, Meant), (Meant, Meant, Meant)), Trouble>
    ensures { (r : Ruled (Meant × Meant × Meant)) → (q : Ruled (Meant × Meant × Meant)) → Is first r → Is second q → Is result (beside r q) }
{
    row::two(first, second)
}

// ---- by their number

/// A list of two.
pub fn listed(alloc: Global, first: Meant, second: Meant) -> Result<List<Meant>, NoMemory>
    ensures { IfOk result (λ list. list ≡ first ∷ second ∷ []) }
{
    row::listed(alloc, first, second)
}

/// Two parts, where there are two.
pub fn two_of(parts: List<Meant>) -> Option<(Meant, Meant)>
    ensures { result ≡ walk.two_of parts }
{
    arity::two_of(parts)
}

/// Each two parts, and the last of an odd number.
pub fn pairs_of(
    alloc: Global,
    parts: List<Meant>,
) -> Result<(List<(Meant, Meant)>, Option<Meant>), NoMemory>
    ensures pairs { IfOk result (λ p. p.0 ≡ spec.pairs parts) }
    ensures odd { IfOk result (λ p. p.1 ≡ spec.odd parts) }
{
    arity::pairs_of(alloc, parts)
}
