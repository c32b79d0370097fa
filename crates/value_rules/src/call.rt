//! Calls: operators with their operands, and procedures with their actuals.

ghost use Rattle.std.specs.Prelude.{◌≡◌, ◌++◌, ◌∷◌, [], ℕ, IfOk, Option, Some, None, List, length, option_map};
ghost use Rattle.elan_types.specs.declared.elan_type.ElanType.{ElanType as ElanTypes};
ghost use Rattle.elan_types.specs.declared.core_phrase.Actual.{Actual as Actuals};
ghost use Rattle.eu_base.specs.Operations.{result_kind};
ghost use Rattle.eu_base.specs.Requests.{request_result};
ghost use Rattle.eu_base.specs.SpaceOperations.{space_result_kind};
ghost use Rattle.elan_types.specs.Types.{shape_in, type_in};
ghost use Rattle.elan_names.specs.Callees as callees;
ghost use Rattle.elan_names.specs.Predefined as table;
ghost use Rattle.elan_names.specs.declared.heading.Sort.TheVariants as sorts;
ghost use Rattle.elan_names.specs.declared.predefined.Predefined.TheVariants as names;
ghost use Rattle.elan_names.specs.walks.Seen as seen;
ghost use Rattle.value_rules.specs.Calls as spec;
ghost use Rattle.value_rules.specs.walks.Steps as walk;
ghost use Rattle.elan_scope.specs.Answer.{Is};
ghost use Rattle.elan_meant.specs.Operands.{is_unclear};
ghost use Rattle.elan_meant.specs.Parts.{nth};
ghost use Rattle.std.specs.Str.{bytes_eq};
ghost use Rattle.elan_meant.specs.Verdict.{Verdict, Tells, told, unless};

use crate::numbered::behind;
use elan_meant::arity::two_of;
use elan_meant::meant::Meant;
use elan_meant::operands::{chosen, fit, is_unclear};
use elan_meant::part::{delivering, delivering_as, done, value_in, variable};
use elan_meant::row::{Judged, and, pushed};
use elan_names::callable::{Callable, Called, Parameters};
use elan_names::heading::Sort;
use elan_names::predefined::Predefined;
use elan_scope::scope::Scope;
use elan_scope::trouble::Trouble;
use elan_types::{Access, Action, Actual, Change, ElanType, Formal, Operation, ValuePhrase, Why};
use eu_base::{List, NoMemory, RequestName, SpaceOperation};
use std::alloc::Global;

// ---- what is given

// A VAR parameter needs a variable.
fn given_as(alloc: Global, at: u32, parameter: Formal, operand: Meant) -> Result<Actual, Trouble>
    ensures { (t : ElanTypes) → parameter.shape ≡ shape_in t → Tells result (spec.given_as at parameter.access t operand) }
{
    match parameter.access {
        Access::Const => {
            let value = value_in(alloc, operand)?;
            Ok(Actual::Value(value))
        }
        Access::Var => {
            let place = variable(at, operand)?;
            Ok(Actual::Place(place, parameter.shape))
        }
    }
}

fn given_let_go(_actuals: Result<List<Actual>, Trouble>) {}

// What parameters were given, and the first of those that are left, if one is.
fn give(
    alloc: Global,
    at: u32,
    actuals: Result<List<Actual>, Trouble>,
    rest: Parameters<'_>,
    operand: Meant,
) -> Result<List<Actual>, Trouble>
    ensures { (given : Verdict (List Actuals)) → Tells actuals given → Tells result (walk.given_next at (seen.parameters rest.entry) operand given) }
{
    match rest.first(alloc) {
        Err(_refusal) => {
            operand.let_go();
            given_let_go(actuals);
            Err(Trouble::NoMemory)
        }
        Ok(None) => {
            operand.let_go();
            actuals
        }
        Ok(Some(parameter)) => and(actuals, given_as(alloc, at, parameter, operand)),
    }
}

// What parameters are given, from left to right.
fn given(
    alloc: Global,
    at: u32,
    parameters: Parameters<'_>,
    operands: List<Meant>,
) -> Result<List<Actual>, Trouble>
    ensures { Tells result (spec.given at (seen.parameters parameters.entry) operands) }
{
    let mut actuals = Ok(List::new(alloc));
    let mut rest = parameters;
    for operand in operands.into_vec() {
        actuals = give(alloc, at, actuals, rest, operand);
        rest = rest.behind_first();
    }
    actuals
}

// ---- what a callee does with it

fn add_value(
    values: Result<List<ValuePhrase>, NoMemory>,
    actual: Actual,
) -> Result<List<ValuePhrase>, NoMemory>
    ensures { (done : List Actuals) → IfOk values (λ list. list ≡ spec.values_in done) → IfOk result (λ list. list ≡ spec.values_in (done ++ actual ∷ [])) }
{
    match actual {
        Actual::Value(value) => pushed(values, Ok(value)),
        Actual::Place(place, _shape) => {
            place.let_go();
            values
        }
    }
}

fn values_in(alloc: Global, actuals: List<Actual>) -> Result<List<ValuePhrase>, NoMemory>
    ensures { IfOk result (λ values. values ≡ spec.values_in actuals) }
{
    let mut values = Ok(List::new(alloc));
    for actual in actuals.into_vec() {
        values = add_value(values, actual);
    }
    values
}

// The result of an operation.
fn operated(alloc: Global, at: u32, operation: Operation, actuals: List<Actual>) -> Judged
    ensures { Tells result (spec.performed at (callees.Predefined (names.Operation operation)) (Some (type_in (result_kind operation))) actuals) }
{
    let values = values_in(alloc, actuals)?;
    let of = ElanType::of_kind(operation.result_kind());
    delivering(alloc, at, of, ValuePhrase::Apply(operation, values))
}

// The phrase goes by a call of its own.
fn let_go(actual: Actual) {
    match actual {
        Actual::Value(value) => value.let_go(),
        Actual::Place(place, _shape) => place.let_go(),
    }
}

#[tactic(auto, using(crate::proofs::Given::changed_is))]
fn changed(alloc: Global, at: u32, change: Change, actuals: List<Actual>) -> Judged
    ensures { (r : Option ElanTypes) → Tells result (spec.performed at (callees.Predefined (names.Change change)) r actuals) }
{
    match two_of(actuals) {
        None => Err(Trouble::Breaks(at, Why::WrongType)),
        Some((first, second)) => match first {
            Actual::Value(value) => {
                value.let_go();
                let_go(second);
                Err(Trouble::Breaks(at, Why::WrongType))
            }
            Actual::Place(place, _shape) => match second {
                Actual::Place(other, _shape) => {
                    place.let_go();
                    other.let_go();
                    Err(Trouble::Breaks(at, Why::WrongType))
                }
                Actual::Value(value) => done(alloc, Action::Modify(change, place, value)),
            },
        },
    }
}

fn one_of(mut actuals: List<Actual>) -> Option<Actual>
    ensures { result ≡ walk.one_of actuals }
{
    if actuals.len() != 1 {
        return None;
    }
    actuals.pop()
}

// A stop with the text that is given.
#[tactic(auto, using(crate::proofs::Given::stopped_is))]
fn stopped(alloc: Global, at: u32, actuals: List<Actual>) -> Judged
    ensures { (r : Option ElanTypes) → Tells result (spec.performed at (callees.Predefined names.ErrorStop) r actuals) }
{
    match one_of(actuals) {
        None => Err(Trouble::Breaks(at, Why::WrongType)),
        Some(Actual::Place(place, _shape)) => {
            place.let_go();
            Err(Trouble::Breaks(at, Why::WrongType))
        }
        Some(Actual::Value(value)) => done(alloc, Action::ErrorStop(value)),
    }
}

// A request, for what it delivers where it does.
fn requested(alloc: Global, at: u32, name: RequestName, actuals: List<Actual>) -> Judged
    ensures { Tells result (spec.performed at (callees.Predefined (names.Request name)) (option_map type_in (request_result name)) actuals) }
{
    match name.result_kind() {
        None => done(alloc, Action::Ask(name, actuals)),
        Some(kind) => delivering(
            alloc,
            at,
            ElanType::of_kind(kind),
            ValuePhrase::Ask(name, actuals),
        ),
    }
}

// A call on data spaces, for what it delivers where it does.
fn on_spaces(alloc: Global, at: u32, operation: SpaceOperation, actuals: List<Actual>) -> Judged
    ensures { Tells result (spec.performed at (callees.Predefined (names.OnSpaces operation)) (option_map type_in (space_result_kind operation)) actuals) }
{
    let values = values_in(alloc, actuals)?;
    match operation.result_kind() {
        None => done(alloc, Action::Perform(operation, values)),
        Some(kind) => delivering(
            alloc,
            at,
            ElanType::of_kind(kind),
            ValuePhrase::Consult(operation, values),
        ),
    }
}

fn predefined(alloc: Global, at: u32, callee: Predefined, actuals: List<Actual>) -> Judged
    ensures { Tells result (spec.performed at (callees.Predefined callee) (table.result callee) actuals) }
{
    match callee {
        Predefined::Operation(operation) => operated(alloc, at, operation, actuals),
        Predefined::Change(change) => changed(alloc, at, change, actuals),
        Predefined::Request(name) => requested(alloc, at, name, actuals),
        Predefined::OnSpaces(operation) => on_spaces(alloc, at, operation, actuals),
        Predefined::ErrorStop => stopped(alloc, at, actuals),
    }
}

// A call of a body that delivers this type.
fn called_for(alloc: Global, at: u32, number: usize, of: &ElanType, actuals: List<Actual>) -> Judged
    ensures { Tells result (spec.performed at (callees.Body number) (Some of.now) actuals) }
{
    match of.shape(alloc) {
        Err(_refusal) => {
            given_let_go(Ok(actuals));
            Err(Trouble::NoMemory)
        }
        Ok(shape) => delivering_as(alloc, at, of, ValuePhrase::Call(number, actuals, shape)),
    }
}

// A call of a PROC or OP, for what it delivers.
fn called_body(
    alloc: Global,
    at: u32,
    number: Result<usize, NoMemory>,
    delivered: Option<&ElanType>,
    actuals: List<Actual>,
) -> Judged
    ensures { (n : ℕ) → IfOk number (λ m. m ≡ n) → Tells result (spec.performed at (callees.Body n) (option_map (λ t. t.now) delivered.entry) actuals) }
{
    match (number, delivered) {
        (Err(_refusal), _) => {
            given_let_go(Ok(actuals));
            Err(Trouble::NoMemory)
        }
        (Ok(number), None) => done(alloc, Action::Call(number, actuals)),
        (Ok(number), Some(of)) => called_for(alloc, at, number, of, actuals),
    }
}

fn performed(alloc: Global, at: u32, called: Called<'_>, actuals: List<Actual>) -> Judged
    ensures { Tells result (spec.performed at (seen.callee called.entry) (seen.result called.entry) actuals) }
{
    match called {
        Called::Predefined(callee) => predefined(alloc, at, callee, actuals),
        Called::Body(before, number, _, delivered) => {
            called_body(alloc, at, behind(before, number), delivered, actuals)
        }
    }
}

/// A call with these operands.
pub fn called(alloc: Global, at: u32, callable: Callable<'_>, operands: List<Meant>) -> Judged
    ensures { Tells result (spec.called at (seen.callable callable.entry) operands) }
{
    let actuals = given(alloc, at, callable.what.parameters(), operands)?;
    performed(alloc, at, callable.what, actuals)
}

/// An operator with its operands, or an identifier with its actuals. It hangs on a type that has no meaning, where that could take
/// these operands. A name that exists with that number of operands, but not
/// for these types, has the wrong type.
pub fn applied(
    alloc: Global,
    at: u32,
    scope: &Scope,
    sort: Sort,
    name: &[u8],
    operands: List<Meant>,
) -> Judged
    ensures { Is result (unless (is_unclear scope.now sort name.now operands) (told (spec.applied at scope.now sort name.now operands))) }
{
    if is_unclear(scope, sort, name, operands.as_slice()) {
        Meant::all_let_go(operands);
        return Err(Trouble::Hangs);
    }
    match start_among(operands.as_slice()) {
        Some(start) => begun(alloc, at, start, operands),
        None => applied_to(alloc, at, scope, sort, name, operands),
    }
}

fn applied_to(
    alloc: Global,
    at: u32,
    scope: &Scope,
    sort: Sort,
    name: &[u8],
    operands: List<Meant>,
) -> Judged
    ensures { Tells result (spec.applied_or at scope.now sort name.now operands None) }
{
    match chosen(scope, sort, name, operands.as_slice()) {
        Some(callable) => called(alloc, at, callable, operands),
        None => {
            let count = operands.len();
            if is_begin(sort, name, count) || scope.is_known(sort, name, count) {
                Err(Trouble::Breaks(at, Why::WrongType))
            } else {
                Err(Trouble::Breaks(at, Why::Unknown))
            }
        }
    }
}

// ---- `begin`

/// Whether a name is that of `begin`.
pub fn is_begin_name(name: &[u8]) -> bool
    ensures { result ≡ bytes_eq name.now spec.begin }
{
    name == b"begin".as_slice()
}

fn is_begin(sort: Sort, name: &[u8], count: usize) -> bool
    ensures { result ≡ spec.is_begin sort name.now count }
{
    match sort {
        Sort::Procedure => count == 3 && is_begin_name(name),
        Sort::Operator => false,
    }
}

fn start_among(operands: &[Meant]) -> Option<usize>
    ensures { result ≡ spec.start_among operands.now }
{
    match operands {
        [_name, Meant::Start(start), _task] => Some(*start),
        _ => None,
    }
}

// The first and the last of three operands.
fn outer_two(mut operands: List<Meant>) -> Result<List<Meant>, NoMemory>
    requires { length operands ≡ 3 }
    ensures { IfOk result (λ two. two ≡ nth operands 0 ∷ nth operands 2 ∷ []) }
{
    let last = operands.pop();
    operands.pop();
    if let Some(last) = last {
        operands.push(last)?;
    }
    Ok(operands)
}

// What the request takes beside its start procedure is given for it.
fn begun(alloc: Global, at: u32, start: usize, operands: List<Meant>) -> Judged
    requires { length operands ≡ 3 }
    ensures { Tells result (spec.begun at start (nth operands 0 ∷ nth operands 2 ∷ [])) }
{
    let operands = outer_two(operands)?;
    let callable = Callable {
        sort: Sort::Procedure,
        name: b"begin",
        what: Called::Predefined(Predefined::Request(RequestName::Begin(start))),
    };
    if fit(callable.what.parameters(), operands.as_slice()) {
        called(alloc, at, callable, operands)
    } else {
        Meant::all_let_go(operands);
        Err(Trouble::Breaks(at, Why::WrongType))
    }
}

/// An identifier without actuals that denotes no variable, constant, parameter or refinement.
pub fn applied_alone(alloc: Global, at: u32, scope: &Scope, name: &[u8]) -> Judged
    ensures { Is result (unless (is_unclear scope.now sorts.Procedure name.now []) (told (spec.applied at scope.now sorts.Procedure name.now []))) }
{
    applied(alloc, at, scope, Sort::Procedure, name, List::new(alloc))
}
