//! How many instructions a phrase has. More than the largest number count as that, so that no count fails.
ghost use Rattle.std.specs.Prelude.{◌≡◌, ◌+◌, map, option_map};
ghost use Rattle.eu_base.specs.declared.shape.Shape.{Shape};
ghost use Rattle.place_gen.specs.Counted.{counted};
ghost use Rattle.place_gen.specs.Stretch.{all_code, while_code, until_code, place_code, value_code, action_code, actual_code, value_arm_code, arm_code_of, arms_length};
ghost use Rattle.place_gen.specs.Steps.{count_code, step_of, loop_code};

use elan_types::{Action, Actual, Arm, PlacePhrase, ValueArm, ValuePhrase};

fn count_if(test: usize, first: usize, second: usize) -> usize
    ensures { result ≡ counted (test + (1 + (first + (1 + second)))) }
{
    test.saturating_add(first)
        .saturating_add(second)
        .saturating_add(2)
}

/// Of a phrase that delivers a value.
#[cycle(count)]
pub fn count_value(v: &ValuePhrase) -> usize
    ensures { result ≡ counted (value_code v.now).size }
{
    match v {
        ValuePhrase::Number(_) => 1,
        ValuePhrase::Truth(_) => 1,
        ValuePhrase::Text(_) => 1,
        ValuePhrase::Load(place, _) => count_place(place).saturating_add(1),
        ValuePhrase::Apply(_, operands) | ValuePhrase::Consult(_, operands) => {
            count_values(operands.as_slice()).saturating_add(1)
        }
        ValuePhrase::If(c, a, b) => count_if(
            count_value(c.get()),
            count_value(a.get()),
            count_value(b.get()),
        ),
        ValuePhrase::Select(v, arms, other) => count_value(v.get()).saturating_add(count_value_arms(
            arms.as_slice(),
            count_value(other.get()),
        )),
        ValuePhrase::Unit(a) => count_value(a.get()).saturating_add(1),
        ValuePhrase::After(units, a) => {
            count_actions(units.as_slice()).saturating_add(count_value(a.get()))
        }
        ValuePhrase::Call(_, actuals, _) | ValuePhrase::Ask(_, actuals) => {
            count_actuals(actuals.as_slice()).saturating_add(1)
        }
        ValuePhrase::Never(_) => 2,
        ValuePhrase::Refer(_, _) => 1,
        ValuePhrase::Pick(row, index, _, _) => count_value(row.get())
            .saturating_add(count_value(index.get()))
            .saturating_add(1),
        ValuePhrase::Take(whole, _, _) => count_value(whole.get()).saturating_add(1),
    }
}

// Of a phrase that names a place, whatever shape it has.
#[cycle(count)]
fn count_place(place: &PlacePhrase) -> usize
    ensures { (s : Shape) → result ≡ counted (place_code place.now s).size }
{
    match place {
        PlacePhrase::Variable(_) => 1,
        PlacePhrase::Packet(_) => 1,
        PlacePhrase::Local(_) => 1,
        PlacePhrase::Parameter(_) => 1,
        PlacePhrase::Item(row, index, _) => count_place(row.get())
            .saturating_add(count_value(index.get()))
            .saturating_add(1),
        PlacePhrase::Field(whole, _) | PlacePhrase::Content(whole, _) => {
            count_place(whole.get()).saturating_add(1)
        }
    }
}

#[cycle(count)]
fn count_actuals(actuals: &[Actual]) -> usize
    ensures { result ≡ counted (all_code (map actual_code actuals.now)).size }
{
    let mut count = 0usize;
    for actual in actuals {
        count = count.saturating_add(count_actual(actual));
    }
    count
}

#[cycle(count)]
fn count_actual(actual: &Actual) -> usize
    ensures { result ≡ counted (actual_code actual.now).size }
{
    match actual {
        Actual::Value(value) => count_value(value),
        Actual::Place(place, _) => count_place(place),
    }
}

#[cycle(count)]
fn count_values(values: &[ValuePhrase]) -> usize
    ensures { result ≡ counted (all_code (map value_code values.now)).size }
{
    let mut count = 0usize;
    for value in values {
        count = count.saturating_add(count_value(value));
    }
    count
}

/// Of actions, one after another.
#[cycle(count)]
pub fn count_actions(actions: &[Action]) -> usize
    ensures { result ≡ counted (all_code (map action_code actions.now)).size }
{
    let mut count = 0usize;
    for action in actions {
        count = count.saturating_add(count_action(action));
    }
    count
}

#[cycle(count)]
#[tactic(auto, using(elan_types::specs::declared::core_phrase::Action::TheFolds::the_lemmas))]
fn count_action(action: &Action) -> usize
    ensures { result ≡ counted (action_code action.now).size }
{
    match action {
        Action::Unit(units) => count_actions(units.as_slice()).saturating_add(1),
        Action::Store(place, _, value)
        | Action::Modify(_, place, value)
        | Action::Copy(place, value)
        | Action::Bind(place, _, value) => count_place(place)
            .saturating_add(count_value(value))
            .saturating_add(1),
        Action::If(c, first, second) => count_if(
            count_value(c),
            count_actions(first.as_slice()),
            count_actions(second.as_slice()),
        ),
        Action::Select(v, arms, other) => count_value(v).saturating_add(count_arms(
            arms.as_slice(),
            count_actions(other.as_slice()),
        )),
        Action::Loop { .. } => count_loop(action),
        Action::Count { .. } => count_stepped(action),
        Action::Ask(_, actuals) | Action::Call(_, actuals) => {
            count_actuals(actuals.as_slice()).saturating_add(1)
        }
        Action::ErrorStop(text) => count_value(text).saturating_add(1),
        Action::Refer(_) => 1,
        Action::Leave(_) => 1,
        Action::LeaveWith(_, _, value) => count_value(value).saturating_add(1),
        Action::Perform(_, operands) => count_values(operands.as_slice()).saturating_add(1),
    }
}

// A loop with a counter; nothing for another action.
#[cycle(count)]
fn count_stepped(action: &Action) -> usize
    ensures { result ≡ counted (count_code action.now).size }
{
    let Action::Count {
        counter,
        from,
        limit,
        ..
    } = action
    else {
        return 0;
    };
    let place = count_place(counter);
    let first = place.saturating_add(count_value(from)).saturating_add(1);
    match limit {
        None => first.saturating_add(count_loop(action)),
        Some(limit) => {
            let turns = count_loop(action);
            first.saturating_add(count_limited(place, count_value(limit), turns))
        }
    }
}

// A limit, and what keeps it around these turns.
fn count_limited(place: usize, limit: usize, turns: usize) -> usize
    ensures { result ≡ counted (place + (limit + (1 + (turns + 1)))) }
{
    place
        .saturating_add(limit)
        .saturating_add(turns)
        .saturating_add(2)
}

// Of the turns of a loop, from the counts of the parts of a turn.
fn count_turns(test: usize, units: usize, until: usize, step: usize) -> usize
    ensures { result ≡ counted (1 + (test + (units + (until + step)) + 1)) }
{
    test.saturating_add(units)
        .saturating_add(until)
        .saturating_add(step)
        .saturating_add(2)
}

#[cycle(count)]
fn count_while(test: &Option<ValuePhrase>) -> usize
    ensures { result ≡ counted (while_code (option_map value_code test.now)).size }
{
    match test {
        None => 0,
        Some(value) => count_value(value).saturating_add(1),
    }
}

#[cycle(count)]
fn count_until(test: &Option<ValuePhrase>) -> usize
    ensures { result ≡ counted (until_code (option_map value_code test.now)).size }
{
    match test {
        None => 0,
        Some(value) => count_value(value).saturating_add(2),
    }
}

/// Of the arms of a SELECT that delivers a value, with so many for what no label holds.
#[cycle(count)]
pub fn count_value_arms(arms: &[ValueArm], other: usize) -> usize
    ensures { result ≡ counted (arms_length (map value_arm_code arms.now) + (1 + other)) }
{
    let mut count = other.saturating_add(1);
    for arm in arms {
        count = count_arm(count, arm.labels.len(), count_value(&arm.value));
    }
    count
}

/// Of the arms of a SELECT that delivers nothing, with so many for what no label holds.
#[cycle(count)]
pub fn count_arms(arms: &[Arm], other: usize) -> usize
    ensures { result ≡ counted (arms_length (map arm_code_of arms.now) + (1 + other)) }
{
    let mut count = other.saturating_add(1);
    for arm in arms {
        count = count_arm(count, arm.labels.len(), count_actions(arm.units.as_slice()));
    }
    count
}

// So many, and an arm of this part.
fn count_arm(count: usize, labels: usize, part: usize) -> usize
    ensures { result ≡ counted (count + (labels + (part + 2))) }
{
    count
        .saturating_add(labels)
        .saturating_add(part)
        .saturating_add(2)
}

// Of the step of a loop's counter; nothing where there is no counter.
#[cycle(count)]
fn count_step(action: &Action) -> usize
    ensures { result ≡ counted (step_of action.now).size }
{
    match action {
        Action::Count {
            counter,
            limit: None,
            ..
        } => count_place(counter).saturating_add(2),
        Action::Count {
            counter,
            limit: Some(_),
            ..
        } => count_place(counter).saturating_add(1),
        _ => 0,
    }
}

/// Of the turns of a loop; nothing for another action.
#[cycle(count)]
pub fn count_loop(action: &Action) -> usize
    ensures { result ≡ counted (loop_code action.now).size }
{
    match action {
        Action::Loop {
            condition,
            units,
            until,
        } => count_turns(
            count_while(condition),
            count_actions(units.as_slice()),
            count_until(until),
            0,
        ),
        Action::Count {
            counter: _,
            from: _,
            way: _,
            limit: _,
            condition,
            units,
            until,
        } => {
            let units = count_actions(units.as_slice());
            let test = count_while(condition);
            count_turns(test, units, count_until(until), count_step(action))
        }
        _ => 0,
    }
}
