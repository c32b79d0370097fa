//! Identifiers without actuals, and names in their declarations.

ghost use Rattle.std.specs.Prelude.{◌≡◌, [], option_map, IfOk};
ghost use Rattle.std.specs.Option.{option_map_or};
ghost use Rattle.elan_scope.specs.declared.delivery.Delivery.TheVariants as deliver;
ghost use Rattle.elan_types.specs.declared.core_phrase.Access.TheVariants as accesses;
ghost use Rattle.elan_types.specs.declared.core_phrase.PlacePhrase.TheVariants as places;
ghost use Rattle.elan_types.specs.Types as types;
ghost use Rattle.elan_meant.specs.declared.meant.Meant.TheVariants as means;
ghost use Rattle.value_rules.specs.Calls as spec;
ghost use Rattle.elan_scope.specs.Scope as scopes;
ghost use Rattle.elan_scope.specs.walks.Seen as looked;
ghost use Rattle.elan_names.specs.walks.Seen as seen;
ghost use Rattle.elan_scope.specs.Answer.{Is};
ghost use Rattle.elan_meant.specs.Verdict.{gives, told, unless, Tells};

use crate::call::{applied_alone, is_begin_name};
use crate::numbered::behind;
use crate::value::denoter;
use elan_meant::meant::Meant;
use elan_meant::operands::chosen;
use elan_meant::part::{delivering_as, done};
use elan_meant::row::Judged;
use elan_names::callable::{Callable, Called, has_open, is_open_result};
use elan_names::entry::Denotes;
use elan_names::heading::Sort;
use elan_scope::delivery::Delivery;
use elan_scope::known::Known;
use elan_scope::scope::{Found, Home, Scope, Usage};
use elan_scope::trouble::Trouble;
use elan_types::{Access, Action, ElanType, Parameter, PlacePhrase, ValuePhrase, Why};
use eu_base::{Boxed, List, NoMemory};
use std::alloc::Global;

// The place of what is held with this access; only PROCs and OPs have parameters.
fn place_in(home: Home, number: usize, access: Access) -> Result<PlacePhrase, NoMemory>
    ensures { IfOk result (λ place. place ≡ spec.place_in home number access) }
{
    match (home, access) {
        (Home::Level, _) => Ok(PlacePhrase::Variable(number)),
        (Home::Packet(before), _) => Ok(PlacePhrase::Packet(behind(before, number)?)),
        (Home::Routine, Access::Const) => Ok(PlacePhrase::Local(number)),
        (Home::Routine, Access::Var) => Ok(PlacePhrase::Parameter(number)),
    }
}

// Where a variable, constant or parameter is held.
#[derive(Clone, Copy)]
struct Held {
    home: Home,
    number: usize,
    access: Access,
}

impl Held {
    fn place(self) -> Result<PlacePhrase, NoMemory>
        ensures { IfOk result (λ place. place ≡ spec.place_in self.home self.number self.access) }
    {
        place_in(self.home, self.number, self.access)
    }
}

fn variable_at(at: u32, of: &ElanType, place: PlacePhrase) -> Judged
    ensures { Tells result (gives (means.Variable at of.now place)) }
{
    match of.try_clone() {
        Err(_refusal) => {
            place.let_go();
            Err(Trouble::NoMemory)
        }
        Ok(of) => Ok(Meant::Variable { at, of, place }),
    }
}

fn variable(at: u32, of: &ElanType, held: Held) -> Judged
    ensures { Tells result (gives (means.Variable at of.now (spec.place_in held.home held.number held.access))) }
{
    let place = held.place()?;
    variable_at(at, of, place)
}

// The content of this type of the data space to which a variable is bound.
fn content(alloc: Global, of: &ElanType, variable: PlacePhrase) -> Result<PlacePhrase, NoMemory>
    ensures { IfOk result (λ place. place ≡ places.Content variable (types.shape_in of.now)) }
{
    let variable = Boxed::new(alloc, variable)?;
    match of.shape(alloc) {
        Err(refusal) => {
            variable.into_inner().let_go();
            Err(refusal)
        }
        Ok(shape) => Ok(PlacePhrase::Content(variable, shape)),
    }
}

// A BOUND variable stands for the content of the data space to which it is bound.
fn bound(alloc: Global, at: u32, of: &ElanType, held: Held) -> Judged
    ensures { Tells result (gives (spec.bound at of.now (spec.place_in held.home held.number held.access))) }
{
    let place = content(alloc, of, held.place()?)?;
    variable_at(at, of, place)
}

fn constant(alloc: Global, at: u32, of: &ElanType, held: Held) -> Judged
    ensures { Tells result (gives (spec.constant at of.now (spec.place_in held.home held.number held.access))) }
{
    let place = held.place()?;
    match of.shape(alloc) {
        Err(_refusal) => {
            place.let_go();
            Err(Trouble::NoMemory)
        }
        Ok(shape) => delivering_as(alloc, at, of, ValuePhrase::Load(place, shape)),
    }
}

// A CONST parameter is a constant, a VAR parameter a variable.
fn parameter(alloc: Global, at: u32, home: Home, number: usize, parameter: &Parameter) -> Judged
    ensures { Tells result (gives (spec.parameter at parameter.now.of parameter.now.access (spec.place_in home number parameter.now.access))) }
{
    let held = Held {
        home,
        number,
        access: parameter.access,
    };
    match parameter.access {
        Access::Const => constant(alloc, at, &parameter.of, held),
        Access::Var => variable(at, &parameter.of, held),
    }
}

// ---- refinements

// Where it is not known what a refinement delivers, a call of it hangs on that.
fn referred(alloc: Global, at: u32, number: usize, delivery: Option<&Delivery>) -> Judged
    ensures { Is result (spec.referred at number (option_map_or (λ d. d.now) delivery.entry deliver.Open)) }
{
    match delivery {
        None | Some(Delivery::Open) => Err(Trouble::Hangs),
        Some(Delivery::Nothing) => done(alloc, Action::Refer(number)),
        Some(Delivery::Of(of)) => {
            let shape = of.shape(alloc)?;
            delivering_as(alloc, at, of, ValuePhrase::Refer(number, shape))
        }
    }
}

// A refinement does not call itself through any chain.
fn refined(alloc: Global, known: &Known, at: u32, scope: &Scope, number: Option<usize>) -> Judged
    ensures { Is result (spec.refined known.now at scope.now number) }
{
    match number {
        None => Err(Trouble::Breaks(at, Why::Unknown)),
        Some(number) => {
            let delivery = known.delivery_at(number);
            if known.leads_back(alloc, number, scope.refinement)? {
                Err(Trouble::Breaks(at, Why::WrongPlace))
            } else {
                let number = behind(scope.bodies_before, number)?;
                referred(alloc, at, number, delivery)
            }
        }
    }
}

// The identifier after FOR is no call, and a refinement is no variable, whatever it delivers.
fn refined_as(
    alloc: Global,
    known: &Known,
    usage: Usage,
    at: u32,
    scope: &Scope,
    name: &[u8],
) -> Judged
    ensures { Is result (spec.refined_as known.now usage at scope.now (scopes.refinement_named scope.now name.now)) }
{
    match usage {
        Usage::Expression => {
            let number = scope.refinement_named(name);
            refined(alloc, known, at, scope, number)
        }
        Usage::Counter => Err(Trouble::Breaks(at, Why::NoVariable)),
    }
}

// ---- identifiers without actuals

// Whether what is held under a name, or the content for which it stands, has a type without meaning.
fn holds_open(denotes: &Denotes) -> bool
    ensures { result ≡ spec.holds_open denotes.now }
{
    match denotes {
        Denotes::Variable(of) | Denotes::Constant(of) | Denotes::Bound(of) => of.is_open(),
        Denotes::Parameter(parameter) => parameter.of.is_open(),
        Denotes::Procedure | Denotes::Refinement | Denotes::Denoter(_) => false,
    }
}

fn denoted(
    alloc: Global,
    known: &Known,
    usage: Usage,
    at: u32,
    scope: &Scope,
    name: &[u8],
    found: Found<'_>,
) -> Judged
    ensures { Is result (unless (spec.denotes_open scope.now name.now found.entry.denotes.now)
        (spec.denoted known.now usage at scope.now name.now found.entry.home found.entry.number found.entry.denotes.now)) }
{
    if holds_open(found.denotes) {
        return Err(Trouble::Hangs);
    }
    match found.denotes {
        Denotes::Variable(of) => variable(at, of, plainly_held(found)),
        Denotes::Constant(of) => constant(alloc, at, of, plainly_held(found)),
        Denotes::Bound(of) => bound(alloc, at, of, plainly_held(found)),
        Denotes::Parameter(given) => parameter(alloc, at, found.home, found.number, given),
        Denotes::Procedure => applied_alone(alloc, at, scope, name),
        Denotes::Refinement => refined_as(alloc, known, usage, at, scope, name),
        Denotes::Denoter(written) => denoter(alloc, at, written),
    }
}

// ---- PROC with a name

// The number of a body that delivers nothing.
fn body_of(callable: Option<Callable<'_>>) -> Result<Option<usize>, NoMemory>
    ensures { IfOk result (λ number. number ≡ spec.body_of (option_map seen.callable callable.entry)) }
{
    match callable {
        None => Ok(None),
        Some(callable) => match callable.what {
            Called::Predefined(_) | Called::Body(_, _, _, Some(_)) => Ok(None),
            Called::Body(before, number, _, None) => Ok(Some(behind(before, number)?)),
        },
    }
}

fn is_procedure(found: Option<Found<'_>>) -> bool
    ensures { result ≡ spec.is_procedure (option_map looked.found_there found.entry) }
{
    match found {
        None => false,
        Some(found) => match (found.home, found.denotes) {
            (Home::Packet(_), Denotes::Procedure) => true,
            _ => false,
        },
    }
}

fn start_of(scope: &Scope, name: &[u8]) -> Result<Option<usize>, NoMemory>
    ensures { IfOk result (λ number. number ≡ spec.start_of scope.now name.now) }
{
    if is_procedure(scope.find(name)) {
        body_of(chosen(scope, Sort::Procedure, name, &[]))
    } else {
        Ok(None)
    }
}

fn is_name_known(scope: &Scope, name: &[u8]) -> bool
    ensures { result ≡ spec.is_name_known scope.now name.now }
{
    scope.find(name).is_some() || is_begin_name(name) || scope.can_be_called(Sort::Procedure, name)
}

/// The name behind PROC: the PROC of a packet in which a task can start. Another name that is known means nothing there.
pub fn start_named(at: u32, scope: &Scope, name: &[u8]) -> Judged
    ensures { Tells result (spec.start_named at scope.now name.now) }
{
    match start_of(scope, name)? {
        Some(number) => Ok(Meant::Start(number)),
        None => {
            if is_name_known(scope, name) {
                Ok(Meant::Absent)
            } else {
                Err(Trouble::Breaks(at, Why::Unknown))
            }
        }
    }
}

/// PROC with a name, where it may stand.
pub fn started(at: u32, may: bool, name: Meant) -> Judged
    ensures { Tells result (spec.started at may name) }
{
    match name {
        Meant::Start(number) if may => Ok(Meant::Start(number)),
        other => {
            other.let_go();
            Err(Trouble::Breaks(at, Why::WrongPlace))
        }
    }
}

// Where a variable or constant is held.
fn plainly_held(found: Found<'_>) -> Held
    ensures home { result.home ≡ found.entry.home }
    ensures number { result.number ≡ found.entry.number }
    ensures access { result.access ≡ accesses.Const }
{
    Held {
        home: found.home,
        number: found.number,
        access: Access::Const,
    }
}

/// An identifier without actuals.
pub fn named(
    alloc: Global,
    known: &Known,
    usage: Usage,
    at: u32,
    scope: &Scope,
    name: &[u8],
) -> Judged
    ensures { Is result (unless (spec.is_open_name scope.now name.now (scopes.find scope.now name.now))
        (spec.named known.now usage at scope.now name.now (scopes.find scope.now name.now))) }
{
    match scope.find(name) {
        Some(found) => denoted(alloc, known, usage, at, scope, name, found),
        None => applied_alone(alloc, at, scope, name),
    }
}

// ---- declarations

// A variable or constant can be given its initial value; nothing else has to be done.
fn declared_as(alloc: Global, at: u32, found: Found<'_>) -> Judged
    ensures { Tells result (gives (spec.declared_as at found.entry.home found.entry.number found.entry.denotes.now)) }
{
    match found.denotes {
        Denotes::Variable(of) | Denotes::Constant(of) => variable(at, of, plainly_held(found)),
        Denotes::Bound(of) => bound(alloc, at, of, plainly_held(found)),
        Denotes::Parameter(_) | Denotes::Procedure | Denotes::Refinement | Denotes::Denoter(_) =>
            Ok(Meant::Done(List::new(alloc))),
    }
}

/// A name in its declaration. It is declared where the first declaration of that name is this one, and hangs on its type.
pub fn declared(alloc: Global, at: u32, scope: &Scope, name: &[u8]) -> Judged
    ensures { Is result (unless (spec.declares_open at (scopes.find_own scope.now name.now)) (told (spec.declared at (scopes.find_own scope.now name.now)))) }
{
    match scope.find_own(name) {
        None => Err(Trouble::Breaks(at, Why::Unknown)),
        Some(found) => {
            if found.at != at {
                Err(Trouble::Breaks(at, Why::Doubled))
            } else if holds_open(found.denotes) {
                Err(Trouble::Hangs)
            } else {
                declared_as(alloc, at, found)
            }
        }
    }
}

/// The name of a type in its declaration. It is declared where the first declaration of that name is this one, and hangs on its type.
pub fn type_declared(alloc: Global, at: u32, scope: &Scope, name: &[u8]) -> Judged
    ensures { Is result (unless (spec.is_open_type at (scopes.find_own_type scope.now name.now))
        (told (spec.type_declared at (scopes.find_own_type scope.now name.now)))) }
{
    match scope.find_own_type(name) {
        None => Err(Trouble::Breaks(at, Why::Unknown)),
        Some(named) => {
            if named.at != at {
                Err(Trouble::Breaks(at, Why::Doubled))
            } else if named.is_open() {
                Err(Trouble::Hangs)
            } else {
                Ok(Meant::Done(List::new(alloc)))
            }
        }
    }
}

/// A name that a packet shows. It is shown once, and under it stands what may be shown.
pub fn exported(alloc: Global, at: u32, doubled: bool, may: Option<bool>) -> Judged
    ensures { Tells result (spec.exported at doubled may) }
{
    if doubled {
        return Err(Trouble::Breaks(at, Why::Doubled));
    }
    match may {
        None => Err(Trouble::Breaks(at, Why::Unknown)),
        Some(false) => Err(Trouble::Breaks(at, Why::WrongPlace)),
        Some(true) => Ok(Meant::Done(List::new(alloc))),
    }
}

// A value is missing where a PROC or OP delivers one and its body has no unit.
fn headed_as(alloc: Global, at: u32, missing: bool) -> Judged
    ensures { Tells result (spec.headed_as at missing) }
{
    if missing {
        Err(Trouble::Breaks(at, Why::WrongType))
    } else {
        Ok(Meant::Done(List::new(alloc)))
    }
}

/// The heading of a PROC or OP, of which the first with equal name and types of parameters is this one; it hangs on its types.
pub fn heading(
    alloc: Global,
    at: u32,
    scope: &Scope,
    of: Headed<'_>,
    delivered: Option<&ElanType>,
    missing: bool,
) -> Judged
    ensures { Is result (spec.heading_ruled at of.entry.parameters.now (option_map (λ t. t.now) delivered.entry) missing
        (scopes.first_heading (scopes.is_alike of.entry.sort of.entry.name.now (scopes.types_of of.entry.parameters.now)) scope.now.headings)) }
{
    let open = has_open(of.parameters);
    if !open {
        match scope.headings.first_alike(of.sort, of.name, of.parameters) {
            None => return Err(Trouble::Breaks(at, Why::Unknown)),
            Some((_, first)) => {
                if first.at != at {
                    return Err(Trouble::Breaks(at, Why::Doubled));
                }
            }
        }
    }
    if open || is_open_result(delivered) {
        if missing {
            return Err(Trouble::Breaks(at, Why::WrongType));
        }
        return Err(Trouble::Hangs);
    }
    headed_as(alloc, at, missing)
}

/// What a PROC or OP is called by, and what it is given.
#[derive(Clone, Copy)]
pub struct Headed<'a> {
    pub sort: Sort,
    pub name: &'a [u8],
    pub parameters: &'a [Parameter],
}
