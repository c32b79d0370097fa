//! The place of a refusal.

ghost use Rattle.std.specs.Prelude.{◌≡◌, ℕ, ◌<◌, ◌≤◌, ◌++◌, true, false, length, take, IfOk};
ghost use Rattle.std.specs.Option.{option_copied};
ghost use Rattle.std.specs.List.{slice_get};
ghost use Rattle.elan_grammar.specs.Place as place;
ghost use Rattle.elan_grammar.specs.Place.{CanGoOn, IsPlace};
ghost use Rattle.elan_grammar.specs.Stops.{left, tokens_of};

use crate::{continued, left};
use containers::NoMemory;
use elan_grammar::Continuation;
use elan_tree::Token;
use std::alloc::Global;

/// Whether the parser reads a front to its end, before what stands behind it.
#[tactic(auto, using(crate::proofs::PlaceFronts::added, crate::proofs::PlaceFronts::front_fits))]
fn reaches_end(
    alloc: Global,
    front: &[Token],
    packet: bool,
    behind: Continuation,
) -> Result<bool, NoMemory>
    ensures yes { IfOk result (λ r. r ≡ true → left packet (front.now ++ tokens_of behind) ≤ length (tokens_of behind)) }
    ensures no { IfOk result (λ r. r ≡ false → length (tokens_of behind) < left packet (front.now ++ tokens_of behind)) }
{
    let all = continued(alloc, front, behind)?;
    let left = left(alloc, all.as_slice(), packet)?;
    Ok(left <= all.len() - front.len())
}

/// Whether a front can go on to a text: exactly where the parser reads it to its end before some of the continuations.
#[tactic(auto, using(elan_grammar::proofs::PlaceLaws::can_go_on, elan_grammar::proofs::PlaceLaws::each_early))]
fn can_go_on(alloc: Global, front: &[Token], packet: bool) -> Result<bool, NoMemory>
    ensures yes { IfOk result (λ r. r ≡ true → CanGoOn packet front.now) }
    ensures no { IfOk result (λ r. r ≡ false → CanGoOn packet front.now → ⊥) }
{
    if reaches_end(alloc, front, packet, Continuation::End)? {
        return Ok(true);
    }
    if reaches_end(alloc, front, packet, Continuation::Name)? {
        return Ok(true);
    }
    if reaches_end(alloc, front, packet, Continuation::Refinement)? {
        return Ok(true);
    }
    if reaches_end(alloc, front, packet, Continuation::Colon)? {
        return Ok(true);
    }
    reaches_end(alloc, front, packet, Continuation::Declaration)
}

/// How many tokens stand before the place, from a front of `start` tokens that can go on. The parser stops a token or two before
/// the place where what it saw ahead led it another way, and else at the place.
#[tactic(auto, using(crate::proofs::PlaceFronts::place_here, crate::proofs::PlaceFronts::place_behind, crate::proofs::PlaceFronts::one_more))]
fn tokens_before(
    alloc: Global,
    tokens: &[Token],
    packet: bool,
    start: usize,
) -> Result<usize, NoMemory>
    requires start { start ≤ length tokens.now }
    requires can { CanGoOn packet (take start tokens.now) }
    ensures { IfOk result (λ n. IsPlace packet tokens.now n) }
{
    for before in start..tokens.len() {
        if !can_go_on(alloc, &tokens[..before + 1], packet)? {
            return Ok(before);
        }
    }
    Ok(tokens.len())
}

fn token_at(tokens: &[Token], at: usize) -> Option<&Token>
    ensures { option_copied result ≡ slice_get tokens.now at }
{
    tokens.get(at)
}

/// The place in bytes where so many tokens stand before it.
#[tactic(auto, using(crate::proofs::PlaceFronts::at_next, crate::proofs::PlaceFronts::behind_last, crate::proofs::PlaceFronts::without_tokens))]
fn place_of(tokens: &[Token], before: usize) -> u32
    ensures { result ≡ place.place_of tokens.now before }
{
    if let Some(next) = token_at(tokens, before) {
        return next.at;
    }
    match tokens.last() {
        Some(last) => last.at.saturating_add(last.len),
        None => 1,
    }
}

/// The place of a refusal, where the parser leaves so many tokens.
#[tactic(auto, using(crate::proofs::PlaceFronts::from_left, crate::proofs::PlaceFronts::left_fits))]
pub(crate) fn refusal_place(
    alloc: Global,
    tokens: &[Token],
    packet: bool,
    unread: usize,
) -> Result<u32, NoMemory>
    requires { unread ≡ left packet tokens.now }
    ensures { IfOk result (λ at. (n : ℕ) × IsPlace packet tokens.now n × (at ≡ place.place_of tokens.now n)) }
{
    let before = tokens_before(alloc, tokens, packet, tokens.len() - unread)?;
    Ok(place_of(tokens, before))
}
