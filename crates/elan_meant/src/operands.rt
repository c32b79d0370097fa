//! Operands: what they deliver, and what takes them.

ghost use Rattle.std.specs.Prelude.{◌≡◌, map, option_map};
ghost use Rattle.std.specs.Option.{option_or};
ghost use Rattle.elan_types.specs.Types.{type_in};
ghost use Rattle.elan_meant.specs.Below.elan_names.specs.Predefined.{predefined};
ghost use Rattle.elan_scope.specs.Scope as scopes;
ghost use Rattle.elan_meant.specs.Below.elan_names.specs.walks.Seen as seen;
ghost use Rattle.elan_scope.specs.walks.Seen as looked;
ghost use Rattle.elan_meant.specs.Operands as spec;

use crate::below::of_elan_names::callable::{Callable, Parameters, predefined_callable};
use crate::below::of_elan_names::heading::Sort;
use crate::below::of_elan_names::headings::Headings;
use crate::below::of_elan_names::interface::Inserted;
use crate::below::of_elan_names::predefined::rows;
use crate::meant::Meant;
use elan_scope::scope::Scope;
use elan_types::ElanType;
use eu_base::Kind;

/// Whether a phrase delivers a value of a type.
pub fn delivers(of: &ElanType, meant: &Meant) -> bool
    ensures { result ≡ spec.delivers of.now meant.now }
{
    match meant {
        Meant::Variable { of: delivered, .. } => of.is_same(delivered),
        Meant::Value { of: delivered, .. } => of.is_same(delivered),
        _ => false,
    }
}

/// Whether a phrase delivers a value of the type of what is predefined for cells of a kind.
pub fn delivers_kind(kind: Kind, meant: &Meant) -> bool
    ensures { result ≡ spec.delivers (type_in kind) meant.now }
{
    let of = ElanType::of_kind(kind);
    let delivered = delivers(&of, meant);
    of.let_go();
    delivered
}

/// Whether parameters take these operands.
pub fn fit(parameters: Parameters<'_>, operands: &[Meant]) -> bool
    ensures { result ≡ spec.fit (seen.parameters parameters.entry) operands.now }
{
    match (parameters, operands) {
        (Parameters::Own([]), []) | (Parameters::Predefined([]), []) => true,
        (Parameters::Own([parameter, others @ ..]), [operand, operands @ ..]) => {
            delivers(&parameter.of, operand) && fit(Parameters::Own(others), operands)
        }
        (Parameters::Predefined([taken, others @ ..]), [operand, operands @ ..]) => {
            delivers_kind(taken.kind, operand) && fit(Parameters::Predefined(others), operands)
        }
        (Parameters::Own([]), [_operand, _operands @ ..]) => false,
        (Parameters::Predefined([]), [_operand, _operands @ ..]) => false,
        (Parameters::Own([_parameter, _others @ ..]), []) => false,
        (Parameters::Predefined([_taken, _others @ ..]), []) => false,
    }
}

fn takes(callable: &Callable<'_>, sort: Sort, name: &[u8], operands: &[Meant]) -> bool
    ensures { result ≡ spec.takes sort name.now operands.now (seen.callable callable.now) }
{
    callable.is_called(sort, name) && fit(callable.what.parameters(), operands)
}

// What is called, if it is anything that takes these operands.
fn if_takes<'a>(
    callable: Option<Callable<'a>>,
    sort: Sort,
    name: &[u8],
    operands: &[Meant],
) -> Option<Callable<'a>>
    ensures { option_map seen.callable result ≡ scopes.first (spec.takes sort name.now operands.now) (seen.listed callable.entry) }
{
    let callable = callable?;
    if takes(&callable, sort, name, operands) {
        Some(callable)
    } else {
        None
    }
}

// The first PROC or OP of a level that takes these operands, where so many bodies are before those of the level.
fn chosen_own<'a>(
    headings: &'a Headings,
    before: usize,
    sort: Sort,
    name: &[u8],
    operands: &[Meant],
) -> Option<Callable<'a>>
    ensures { option_map seen.callable result ≡ scopes.first (spec.takes sort name.now operands.now) (scopes.own_callables before headings.now) }
{
    for number in headings.named(name) {
        let callable = if_takes(headings.callable_at(before, *number), sort, name, operands);
        if callable.is_some() {
            return callable;
        }
    }
    None
}

// What is called, if what is written for one of its parameters has no meaning, so that it may take these operands.
fn if_may_take<'a>(
    callable: Option<Callable<'a>>,
    sort: Sort,
    name: &[u8],
    operands: &[Meant],
) -> Option<Callable<'a>>
    ensures { option_map seen.callable result ≡ scopes.first (spec.may_take sort name.now operands.now) (seen.listed callable.entry) }
{
    let callable = callable?;
    if callable.is_called(sort, name)
        && (callable.what.parameters().len() == operands.len() && callable.has_open())
    {
        Some(callable)
    } else {
        None
    }
}

// The first that may take these operands.
fn open_own<'a>(
    headings: &'a Headings,
    before: usize,
    sort: Sort,
    name: &[u8],
    operands: &[Meant],
) -> Option<Callable<'a>>
    ensures { option_map seen.callable result ≡ scopes.first (spec.may_take sort name.now operands.now) (scopes.own_callables before headings.now) }
{
    for number in headings.named(name) {
        let callable = if_may_take(headings.callable_at(before, *number), sort, name, operands);
        if callable.is_some() {
            return callable;
        }
    }
    None
}

fn nearest<'a>(
    headings: &'a Headings,
    before: usize,
    sort: Sort,
    name: &[u8],
    operands: &[Meant],
) -> Option<Callable<'a>>
    ensures { option_map seen.callable result ≡ spec.nearest (scopes.own_callables before headings.now) sort name.now operands.now }
{
    match chosen_own(headings, before, sort, name, operands) {
        Some(callable) => Some(callable),
        None => open_own(headings, before, sort, name, operands),
    }
}

/// Whether it hangs on a type that has no meaning what takes these operands, or what that delivers.
pub fn is_unclear(scope: &Scope, sort: Sort, name: &[u8], operands: &[Meant]) -> bool
    ensures { result ≡ spec.is_unclear scope.now sort name.now operands.now }
{
    match nearest(&scope.headings, scope.bodies_before, sort, name, operands) {
        None => false,
        Some(callable) => callable.is_open(),
    }
}

fn chosen_predefined(sort: Sort, name: &[u8], operands: &[Meant]) -> Option<Callable<'static>>
    ensures { option_map seen.callable result ≡ scopes.first (spec.takes sort name.now operands.now) (map scopes.predefined_callable predefined) }
{
    let mut rest = rows();
    while let [row, others @ ..] = rest {
        let callable = predefined_callable(row);
        if takes(&callable, sort, name, operands) {
            return Some(callable);
        }
        rest = others;
    }
    None
}

// What a packet shows that takes these operands.
#[tactic(auto, using(crate::proofs::Chosen::packet_chosen))]
fn chosen_in_packet<'a>(
    packet: &'a Inserted,
    sort: Sort,
    name: &[u8],
    operands: &[Meant],
) -> Option<Callable<'a>>
    ensures { option_map seen.callable result ≡ looked.called_in_packet (spec.takes sort name.now operands.now) packet.now }
{
    let interface = packet.interface.get();
    let callable = chosen_own(
        &interface.headings,
        packet.bodies_before,
        sort,
        name,
        operands,
    )?;
    if interface.exports(name) {
        Some(callable)
    } else {
        None
    }
}

// What the packets show, from the last inserted on.
fn chosen_in_packets<'a>(
    packets: &'a [Inserted],
    sort: Sort,
    name: &[u8],
    operands: &[Meant],
) -> Option<Callable<'a>>
    ensures { option_map seen.callable result ≡ looked.called_in_packets (spec.takes sort name.now operands.now) packets.now }
{
    let mut rest = packets;
    while let [packet, others @ ..] = rest {
        let callable = chosen_in_packet(packet, sort, name, operands);
        if callable.is_some() {
            return callable;
        }
        rest = others;
    }
    None
}

fn chosen_outside<'a>(
    packets: &'a [Inserted],
    sort: Sort,
    name: &[u8],
    operands: &[Meant],
) -> Option<Callable<'a>>
    ensures { option_map seen.callable result ≡ option_or (looked.called_in_packets (spec.takes sort name.now operands.now) packets.now)
        (scopes.first (spec.takes sort name.now operands.now) (map scopes.predefined_callable predefined)) }
{
    match chosen_in_packets(packets, sort, name, operands) {
        Some(callable) => Some(callable),
        None => chosen_predefined(sort, name, operands),
    }
}

/// What is called by a name with exactly these operands: the PROCs and OPs of the level are looked at first, then those that the
/// packets export, from the last inserted on, and then what is predefined. `None` exactly where nothing of that name takes them.
#[tactic(auto, using(elan_scope::proofs::Layers::called_as))]
pub fn chosen<'a>(
    scope: &'a Scope,
    sort: Sort,
    name: &[u8],
    operands: &[Meant],
) -> Option<Callable<'a>>
    ensures { option_map seen.callable result ≡ spec.chosen scope.now sort name.now operands.now }
{
    match chosen_own(&scope.headings, scope.bodies_before, sort, name, operands) {
        Some(callable) => Some(callable),
        None => chosen_outside(scope.packets.as_slice(), sort, name, operands),
    }
}
