//! Parts, by their number.

ghost use Rattle.std.specs.Prelude.{◌≡◌, IfOk};
ghost use Rattle.elan_meant.specs.Parts as spec;
ghost use Rattle.elan_meant.specs.walks.Arity as walk;

use eu_base::{List, NoMemory};
use std::alloc::Global;

/// Two parts, where there are two.
pub fn two_of<T: Drop>(mut parts: List<T>) -> Option<(T, T)>
    ensures { result ≡ walk.two_of parts }
{
    if parts.len() != 2 {
        return None;
    }
    let right = parts.pop();
    parts.pop().zip(right)
}

/// Each two parts, and the last of an odd number.
#[tactic(auto, using(crate::proofs::Pairs::pairs_push, crate::proofs::Pairs::odd_push))]
pub fn pairs_of<T: Drop>(
    alloc: Global,
    parts: List<T>,
) -> Result<(List<(T, T)>, Option<T>), NoMemory>
    ensures pairs { IfOk result (λ p. p.0 ≡ spec.pairs parts) }
    ensures odd { IfOk result (λ p. p.1 ≡ spec.odd parts) }
{
    let mut pairs = List::new(alloc);
    let mut first = None;
    for part in parts.into_vec() {
        match first.take() {
            None => first = Some(part),
            Some(before) => pairs.push((before, part))?,
        }
    }
    Ok((pairs, first))
}
