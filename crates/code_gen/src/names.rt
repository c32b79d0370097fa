//! Which bodies a phrase names: each call and each refinement, in text order.

ghost use Rattle.std.specs.Prelude.{◌≡◌, ◌++◌, ◌∷◌, [], map, option_map, IfOk};
ghost use Rattle.code_gen.specs.Names as spec;
ghost use Rattle.code_gen.specs.walks.Found.{Adds};

use elan_types::{Action, Actual, Arm, Content, PlacePhrase, ValueArm, ValuePhrase};
use eu_base::{List, NoMemory};

/// Bodies that were found, by their numbers.
#[derive(Drop)]
pub struct Found {
    numbers: List<usize>,
    // Whether memory was wanted. What was found is worth nothing then.
    wanted: bool,
}

impl Found {
    ghost use Rattle.std.specs.Prelude.{false};

    /// These, and nothing wanted.
    pub fn of(numbers: List<usize>) -> Found
        ensures wanted { result.wanted ≡ false }
        ensures numbers { result.numbers ≡ numbers }
    {
        Found {
            numbers,
            wanted: false,
        }
    }

    /// Adds a body.
    pub fn with(mut self, number: usize) -> Found
        ensures { Adds (number ∷ []) self result }
    {
        match self.numbers.push(number) {
            Ok(()) => (),
            Err(NoMemory) => self.wanted = true,
        }
        self
    }

    /// What was found, where memory sufficed for it.
    pub fn met(self) -> Result<List<usize>, NoMemory>
        ensures { IfOk result (λ numbers. (self.wanted ≡ false) × (numbers ≡ self.numbers)) }
    {
        let Found { numbers, wanted } = self;
        if wanted { Err(NoMemory) } else { Ok(numbers) }
    }
}

// An arm a form of value, so it is as long as there are forms.
#[cycle(names)]
fn in_value(found: Found, value: &ValuePhrase) -> Found
    ensures { Adds (spec.in_value value.now) found result }
{
    match value {
        ValuePhrase::Number(_) | ValuePhrase::Truth(_) | ValuePhrase::Text(_) => found,
        ValuePhrase::Load(place, _) => in_place(found, place),
        ValuePhrase::Apply(_, operands) | ValuePhrase::Consult(_, operands) => {
            in_values(found, operands.as_slice())
        }
        ValuePhrase::If(c, a, b) => {
            let found = in_value(found, c.get());
            let found = in_value(found, a.get());
            in_value(found, b.get())
        }
        ValuePhrase::Select(of, arms, other) => {
            let found = in_value(found, of.get());
            let found = in_value_arms(found, arms.as_slice());
            in_value(found, other.get())
        }
        ValuePhrase::Unit(a) => in_value(found, a.get()),
        ValuePhrase::After(units, a) => {
            let found = in_actions(found, units.as_slice());
            in_value(found, a.get())
        }
        ValuePhrase::Never(_) => found,
        ValuePhrase::Call(number, actuals, _) => {
            let found = found.with(*number);
            in_actuals(found, actuals.as_slice())
        }
        ValuePhrase::Refer(number, _) => found.with(*number),
        ValuePhrase::Pick(row, index, _, _) => {
            let found = in_value(found, row.get());
            in_value(found, index.get())
        }
        ValuePhrase::Take(whole, _, _) => in_value(found, whole.get()),
        ValuePhrase::Ask(_, actuals) => in_actuals(found, actuals.as_slice()),
    }
}

#[cycle(names)]
fn in_values(mut found: Found, values: &[ValuePhrase]) -> Found
    ensures { Adds (spec.all (map spec.in_value values.now)) found result }
{
    for value in values {
        found = in_value(found, value);
    }
    found
}

#[cycle(names)]
fn in_optional(found: Found, value: &Option<ValuePhrase>) -> Found
    ensures { Adds (spec.if_written (option_map spec.in_value value.now)) found result }
{
    match value {
        None => found,
        Some(value) => in_value(found, value),
    }
}

#[cycle(names)]
fn in_place(found: Found, place: &PlacePhrase) -> Found
    ensures { Adds (spec.in_place place.now) found result }
{
    match place {
        PlacePhrase::Variable(_)
        | PlacePhrase::Packet(_)
        | PlacePhrase::Local(_)
        | PlacePhrase::Parameter(_) => found,
        PlacePhrase::Item(row, index, _) => {
            let found = in_place(found, row.get());
            in_value(found, index.get())
        }
        PlacePhrase::Field(of, _) | PlacePhrase::Content(of, _) => in_place(found, of.get()),
    }
}

#[cycle(names)]
fn in_actual(found: Found, actual: &Actual) -> Found
    ensures { Adds (spec.in_actual actual.now) found result }
{
    match actual {
        Actual::Value(value) => in_value(found, value),
        Actual::Place(place, _) => in_place(found, place),
    }
}

#[cycle(names)]
fn in_actuals(mut found: Found, actuals: &[Actual]) -> Found
    ensures { Adds (spec.all (map spec.in_actual actuals.now)) found result }
{
    for actual in actuals {
        found = in_actual(found, actual);
    }
    found
}

#[cycle(names)]
fn in_value_arms(mut found: Found, arms: &[ValueArm]) -> Found
    ensures { Adds (spec.all (map spec.in_value_arm arms.now)) found result }
{
    for arm in arms {
        found = in_value(found, &arm.value);
    }
    found
}

#[cycle(names)]
fn in_arms(mut found: Found, arms: &[Arm]) -> Found
    ensures { Adds (spec.all (map spec.in_arm arms.now)) found result }
{
    for arm in arms {
        found = in_actions(found, arm.units.as_slice());
    }
    found
}

// An arm a form of action, so it is as long as there are forms.
#[cycle(names)]
fn in_action(found: Found, action: &Action) -> Found
    ensures { Adds (spec.in_action action.now) found result }
{
    match action {
        Action::Unit(units) => in_actions(found, units.as_slice()),
        Action::Store(place, _, value)
        | Action::Modify(_, place, value)
        | Action::Copy(place, value)
        | Action::Bind(place, _, value) => {
            let found = in_place(found, place);
            in_value(found, value)
        }
        Action::If(c, first, second) => {
            let found = in_value(found, c);
            let found = in_actions(found, first.as_slice());
            in_actions(found, second.as_slice())
        }
        Action::Select(of, arms, other) => {
            let found = in_value(found, of);
            let found = in_arms(found, arms.as_slice());
            in_actions(found, other.as_slice())
        }
        Action::Loop {
            condition,
            units,
            until,
        } => {
            let found = in_optional(found, condition);
            let found = in_actions(found, units.as_slice());
            in_optional(found, until)
        }
        Action::Count {
            counter,
            from,
            limit,
            condition,
            units,
            until,
            ..
        } => {
            let found = in_place(found, counter);
            let found = in_value(found, from);
            let found = in_optional(found, limit);
            let found = in_optional(found, condition);
            let found = in_actions(found, units.as_slice());
            in_optional(found, until)
        }
        Action::Ask(_, actuals) => in_actuals(found, actuals.as_slice()),
        Action::ErrorStop(text) => in_value(found, text),
        Action::Call(number, actuals) => {
            let found = found.with(*number);
            in_actuals(found, actuals.as_slice())
        }
        Action::Refer(number) => found.with(*number),
        Action::Leave(_) => found,
        Action::LeaveWith(_, _, value) => in_value(found, value),
        Action::Perform(_, operands) => in_values(found, operands.as_slice()),
    }
}

/// Adds the bodies that actions name, one after another.
#[cycle(names)]
pub fn in_actions(mut found: Found, actions: &[Action]) -> Found
    ensures { Adds (spec.all (map spec.in_action actions.now)) found result }
{
    for action in actions {
        found = in_action(found, action);
    }
    found
}

/// Adds the bodies that what a body does names.
pub fn in_content(found: Found, content: &Content) -> Found
    ensures { Adds (spec.in_content content.now) found result }
{
    match content {
        Content::Units(units) => in_actions(found, units.as_slice()),
        Content::Value(_, value) => in_value(found, value),
    }
}
