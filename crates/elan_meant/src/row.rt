//! What several phrases mean together. Where one has no meaning the others are let go here and not in the caller, whose proof
//! would be long with exits at which trees are let go.

ghost use Rattle.std.specs.Prelude.{◌≡◌, ◌++◌, ◌∷◌, [], List, IfOk, OnOk};
ghost use Rattle.elan_scope.specs.Ruled.{Ruled, gives, before, beside, joined};
ghost use Rattle.elan_scope.specs.Answer.{Is};
ghost use Rattle.elan_meant.specs.walks.Arity.{triple};

use crate::meant::Meant;
use elan_scope::trouble::Trouble;
use eu_base::{List, NoMemory};
use std::alloc::Global;

/// What a phrase means, or why it has no meaning.
pub type Judged = Result<Meant, Trouble>;

/// What phrases mean, one after another.
pub type Row = Result<List<Meant>, Trouble>;

/// What two phrases mean. A fault to the right of a phrase that hangs is still a fault.
pub fn two<A: Drop, B: Drop>(
    first: Result<A, Trouble>,
    second: Result<B, Trouble>,
) -> Result<(A, B), Trouble>
    ensures { (r : Ruled A) → (q : Ruled B) → Is first r → Is second q → Is result (beside r q) }
{
    match first {
        Ok(first) => match second {
            Err(trouble) => Err(trouble),
            Ok(second) => Ok((first, second)),
        },
        Err(Trouble::Hangs) => match second {
            Err(trouble) => Err(trouble),
            Ok(_second) => Err(Trouble::Hangs),
        },
        Err(trouble) => Err(trouble),
    }
}

/// What phrases mean, and one more.
pub fn and<T: Drop>(
    row: Result<List<T>, Trouble>,
    next: Result<T, Trouble>,
) -> Result<List<T>, Trouble>
    ensures { (rs : Ruled (List T)) → (r : Ruled T) → Is row rs → Is next r → Is result (joined rs r) }
{
    match two(row, next) {
        Err(trouble) => Err(trouble),
        Ok((mut parts, part)) => match parts.push(part) {
            Err(_) => Err(Trouble::NoMemory),
            Ok(()) => Ok(parts),
        },
    }
}

/// What one phrase means.
pub fn one<T: Drop>(alloc: Global, part: Result<T, Trouble>) -> Result<List<T>, Trouble>
    ensures { (r : Ruled T) → Is part r → Is result (before r (gives [])) }
{
    let part = part?;
    let mut parts = List::new(alloc);
    parts.push(part)?;
    Ok(parts)
}

/// What two phrases mean, one after the other.
pub fn pair<T: Drop>(
    alloc: Global,
    first: Result<T, Trouble>,
    second: Result<T, Trouble>,
) -> Result<List<T>, Trouble>
    ensures { (r : Ruled T) → (q : Ruled T) → Is first r → Is second q → Is result (before r (before q (gives []))) }
{
    and(one(alloc, first), second)
}

/// What three phrases mean.
pub fn three<A: Drop, B: Drop, C: Drop>(
    first: Result<A, Trouble>,
    second: Result<B, Trouble>,
    third: Result<C, Trouble>,
) -> Result<(A, B, C), Trouble>
    ensures { (r : Ruled A) → (q : Ruled B) → (s : Ruled C) → Is first r → Is second q → Is third s → Is result (triple r q s) }
{
    match two(two(first, second), third) {
        Err(trouble) => Err(trouble),
        Ok(((first, second), third)) => Ok((first, second, third)),
    }
}

/// A list of two.
pub fn listed<T: Drop>(alloc: Global, first: T, second: T) -> Result<List<T>, NoMemory>
    ensures { IfOk result (λ list. list ≡ first ∷ second ∷ []) }
{
    let list = List::new(alloc);
    pushed(pushed(Ok(list), Ok(first)), Ok(second))
}

/// Two things that were made, unless memory ran out for one of them.
pub fn both<A: Drop, B: Drop>(
    first: Result<A, NoMemory>,
    second: Result<B, NoMemory>,
) -> Result<(A, B), NoMemory>
    ensures { (x : A) → (y : B) → IfOk first (λ a. a ≡ x) → IfOk second (λ b. b ≡ y) → IfOk result (λ p. (p.0 ≡ x) × (p.1 ≡ y)) }
{
    match first {
        Err(refusal) => Err(refusal),
        Ok(first) => match second {
            Err(refusal) => Err(refusal),
            Ok(second) => Ok((first, second)),
        },
    }
}

/// A list and one item more, unless memory ran out for one of them.
pub fn pushed<T: Drop>(
    list: Result<List<T>, NoMemory>,
    item: Result<T, NoMemory>,
) -> Result<List<T>, NoMemory>
    ensures { (xs : List T) → (x : T) → IfOk list (λ l. l ≡ xs) → IfOk item (λ i. i ≡ x) → IfOk result (λ l. l ≡ xs ++ x ∷ []) }
{
    match list {
        Err(refusal) => Err(refusal),
        Ok(mut list) => match item {
            Err(refusal) => Err(refusal),
            Ok(item) => match list.push(item) {
                Err(refusal) => Err(refusal),
                Ok(()) => Ok(list),
            },
        },
    }
}

/// A list and the items of another, unless memory ran out.
pub fn appended<T: Drop>(
    list: Result<List<T>, NoMemory>,
    more: List<T>,
) -> Result<List<T>, NoMemory>
    ensures { (xs : List T) → IfOk list (λ l. l ≡ xs) → IfOk result (λ l. l ≡ xs ++ more) }
{
    match list {
        Err(refusal) => Err(refusal),
        Ok(mut list) => match append(&mut list, more) {
            Err(refusal) => Err(refusal),
            Ok(()) => Ok(list),
        },
    }
}

/// Adds the items of another list.
pub fn append<T: Drop>(out: &mut List<T>, more: List<T>) -> Result<(), NoMemory>
    ensures { OnOk result (out.new ≡ out.old ++ more) }
{
    for item in more.into_vec() {
        out.push(item)?;
    }
    Ok(())
}
