//! The instructions of phrases. Want of memory is kept in the draft and told at the end. The functions call each other in one
//! cycle, so they stand in one file.
ghost use Rattle.std.specs.Prelude.{◌≡◌, ℕ, OnOk, map, option_map};
ghost use Rattle.place_gen.specs.Stretch.{all_code, while_code, until_code, limit_code, step_code, step_to_code, place_code, value_code, action_code, actual_code};
ghost use Rattle.place_gen.specs.Stretch.{content_code, value_arm_code, arm_code_of, value_parts, action_parts};
ghost use Rattle.place_gen.specs.Adds.{Adds};
ghost use Rattle.place_gen.specs.Makes.{Makes, MakesExit, MakesArm};
ghost use Rattle.place_gen.specs.Steps.{loop_code, turn_of, step_of, count_code, transfer_code, spaces_code};

use crate::{
    Draft, count_actions, count_arms, count_loop, count_value, count_value_arms, put_bind,
    put_else, put_jump, put_leave, put_leave_with, put_load, put_never, put_number, put_on_spaces,
    put_operation, put_place, put_request, put_store, put_test, put_text, put_truth, put_value,
    put_whens, without_first,
};
use code_form::{Instr, OperandKind};
use elan_types::{Action, Actual, Arm, Content, Exit, PlacePhrase, ValueArm, ValuePhrase};
use eu_base::{Change, Kind, NoMemory, Shape, Way};

/// Adds the code of what a body does, and the instruction that leaves it.
pub fn emit_content(out: &mut Draft, content: &Content) -> Result<(), NoMemory>
    ensures { OnOk result (Adds (content_code content.now) out.old out.new) }
{
    add_content(out, content);
    out.met()
}

/// Adds the code of actions, one after another.
pub fn emit_actions(out: &mut Draft, actions: &[Action]) -> Result<(), NoMemory>
    ensures { OnOk result (Adds (all_code (map action_code actions.now)) out.old out.new) }
{
    add_actions(out, actions);
    out.met()
}

fn add_content(out: &mut Draft, content: &Content)
    ensures { Makes (content_code content.now) out.old out.new }
{
    match content {
        Content::Units(units) => {
            add_actions(out, units.as_slice());
            out.add(Instr::Back(None), 0, None);
        }
        Content::Value(shape, value) => {
            add_value(out, value);
            put_leave_with(out, Exit::Body, shape);
        }
    }
}

// Adds the code of a phrase that delivers a value.
#[cycle(emit)]
fn add_value(out: &mut Draft, phrase: &ValuePhrase)
    ensures { Makes (value_code phrase.now) out.old out.new }
{
    match phrase {
        ValuePhrase::Number(number) => put_number(out, *number),
        ValuePhrase::Truth(truth) => put_truth(out, *truth),
        ValuePhrase::Text(text) => put_text(out, text),
        ValuePhrase::Load(place, shape) => {
            add_place(out, place, shape);
            put_load(out, shape);
        }
        ValuePhrase::Apply(operation, operands) => {
            add_values(out, operands.as_slice());
            put_operation(out, *operation);
        }
        ValuePhrase::If(c, a, b) => {
            let below = out.kept();
            add_value(out, c.get());
            put_test(out, below.as_slice(), count_value(a.get()));
            add_value(out, a.get());
            put_else(out, below.as_slice(), count_value(b.get()));
            add_value(out, b.get());
        }
        ValuePhrase::Select(v, _, _) => {
            add_value(out, v.get());
            add_value_parts(out, phrase);
        }
        ValuePhrase::Unit(a) => {
            out.add(Instr::Mark, 0, None);
            add_value(out, a.get());
        }
        ValuePhrase::After(units, a) => {
            add_actions(out, units.as_slice());
            add_value(out, a.get());
        }
        ValuePhrase::Never(shape) => put_never(out, shape),
        ValuePhrase::Call(body, actuals, shape) => {
            add_actuals(out, actuals.as_slice());
            put_value(out, Instr::Call(*body), actuals.len(), shape);
        }
        ValuePhrase::Refer(body, shape) => put_value(out, Instr::Refer(*body), 0, shape),
        ValuePhrase::Pick(row, index, items, shape) => {
            add_value(out, row.get());
            add_value(out, index.get());
            put_value(out, Instr::Pick(items.count, items.cells), 2, shape);
        }
        ValuePhrase::Take(whole, part, shape) => {
            add_value(out, whole.get());
            put_value(out, Instr::Take(part.of, part.before, part.cells), 1, shape);
        }
        ValuePhrase::Ask(name, actuals) => {
            add_actuals(out, actuals.as_slice());
            put_request(out, *name, name.result_kind());
        }
        ValuePhrase::Consult(operation, operands) => {
            add_values(out, operands.as_slice());
            put_on_spaces(out, *operation, operation.result_kind());
        }
    }
}

// Adds the code of a phrase that names the place of a value of a shape.
#[cycle(emit)]
fn add_place(out: &mut Draft, place: &PlacePhrase, shape: &Shape)
    ensures { Makes (place_code place.now shape.now) out.old out.new }
{
    match place {
        PlacePhrase::Variable(cell) => put_place(out, Instr::Outer(*cell), 0, shape),
        PlacePhrase::Packet(cell) => put_place(out, Instr::Packet(*cell), 0, shape),
        PlacePhrase::Local(cell) => put_place(out, Instr::Local(*cell), 0, shape),
        PlacePhrase::Parameter(cell) => put_place(out, Instr::Param(*cell), 0, shape),
        PlacePhrase::Item(row, index, items) => {
            add_place(out, row.get(), shape);
            add_value(out, index.get());
            put_place(out, Instr::Index(items.count, items.cells), 2, shape);
        }
        PlacePhrase::Field(structure, before) => {
            add_place(out, structure.get(), shape);
            put_place(out, Instr::Field(*before), 1, shape);
        }
        PlacePhrase::Content(bound, _) => {
            add_place(out, bound.get(), &Shape::Cell(Kind::Space));
            put_place(out, Instr::Content, 1, shape);
        }
    }
}

#[cycle(emit)]
fn add_actuals(out: &mut Draft, actuals: &[Actual])
    ensures { Makes (all_code (map actual_code actuals.now)) out.old out.new }
{
    for actual in actuals {
        add_actual(out, actual);
    }
}

#[cycle(emit)]
fn add_actual(out: &mut Draft, actual: &Actual)
    ensures { Makes (actual_code actual.now) out.old out.new }
{
    match actual {
        Actual::Value(value) => add_value(out, value),
        Actual::Place(place, shape) => add_place(out, place, shape),
    }
}

#[cycle(emit)]
fn add_values(out: &mut Draft, values: &[ValuePhrase])
    ensures { Makes (all_code (map value_code values.now)) out.old out.new }
{
    for value in values {
        add_value(out, value);
    }
}

// The parts of a SELECT whose number is on top; nothing for another phrase.
#[cycle(emit)]
fn add_value_parts(out: &mut Draft, phrase: &ValuePhrase)
    ensures { Makes (value_parts phrase.now) out.old out.new }
{
    let ValuePhrase::Select(_, arms, other) = phrase else {
        return;
    };
    let arms = arms.as_slice();
    let end = out.ahead(count_value_arms(arms, count_value(other.get())));
    let kept = out.kept();
    let top = kept.as_slice();
    for arm in arms {
        add_value_arm(out, arm, top, end);
    }
    out.add(Instr::Drop, 1, None);
    add_value(out, other.get());
}

#[cycle(emit)]
fn add_value_arm(out: &mut Draft, arm: &ValueArm, top: &[OperandKind], end: usize)
    ensures { MakesArm (value_arm_code arm.now) end top.now out.old out.new }
{
    let past = out.ahead(arm.labels.len().saturating_add(1));
    put_whens(out, arm.labels.as_slice(), past);
    put_jump(out, count_value(&arm.value).saturating_add(1));
    out.restore(without_first(top));
    add_value(out, &arm.value);
    out.add(Instr::Jump(end), 0, None);
    out.restore(top);
}

// Adds the code of actions, one after another.
#[cycle(emit)]
fn add_actions(out: &mut Draft, actions: &[Action])
    ensures { Makes (all_code (map action_code actions.now)) out.old out.new }
{
    for action in actions {
        add_action(out, action);
    }
}

#[cycle(emit)]
fn add_action(out: &mut Draft, action: &Action)
    ensures { Makes (action_code action.now) out.old out.new }
{
    match action {
        Action::Unit(units) => {
            out.add(Instr::Mark, 0, None);
            add_actions(out, units.as_slice());
        }
        Action::Store(place, shape, value) => {
            add_place(out, place, shape);
            add_value(out, value);
            put_store(out, shape);
        }
        Action::Modify(change, place, value) => {
            add_place(out, place, &Shape::Cell(change.kind()));
            add_value(out, value);
            out.add(Instr::Modify(*change), 2, None);
        }
        Action::If(c, first, second) => {
            let below = out.kept();
            add_value(out, c);
            put_test(out, below.as_slice(), count_actions(first.as_slice()));
            add_actions(out, first.as_slice());
            put_else(out, below.as_slice(), count_actions(second.as_slice()));
            add_actions(out, second.as_slice());
        }
        Action::Select(v, _, _) => {
            add_value(out, v);
            add_parts(out, action);
        }
        Action::Ask(name, actuals) => {
            add_actuals(out, actuals.as_slice());
            put_request(out, *name, None);
        }
        Action::ErrorStop(text) => {
            add_value(out, text);
            out.add(Instr::ErrorStop, 1, None);
        }
        Action::Loop { .. } => add_turns(out, action),
        Action::Count { .. } => add_count(out, action),
        Action::Call(_, _) | Action::Refer(_) | Action::Leave(_) | Action::LeaveWith(_, _, _) => {
            add_transfer(out, action)
        }
        Action::Perform(_, _) | Action::Copy(_, _) | Action::Bind(_, _, _) => {
            add_on_spaces(out, action)
        }
    }
}

// What is done with data spaces; nothing for another action.
#[cycle(emit)]
fn add_on_spaces(out: &mut Draft, action: &Action)
    ensures { Makes (spaces_code action.now) out.old out.new }
{
    match action {
        Action::Perform(operation, operands) => {
            add_values(out, operands.as_slice());
            put_on_spaces(out, *operation, None);
        }
        Action::Copy(place, space) => {
            add_place(out, place, &Shape::Cell(Kind::Space));
            add_value(out, space);
            out.add(Instr::Copy, 2, None);
        }
        Action::Bind(place, shape, space) => {
            add_place(out, place, &Shape::Cell(Kind::Space));
            add_value(out, space);
            put_bind(out, shape);
        }
        _ => {}
    }
}

// Calls, references and LEAVE; nothing for another action.
#[cycle(emit)]
fn add_transfer(out: &mut Draft, action: &Action)
    ensures { Makes (transfer_code action.now) out.old out.new }
{
    match action {
        Action::Call(body, actuals) => {
            add_actuals(out, actuals.as_slice());
            out.add(Instr::Call(*body), actuals.len(), None);
        }
        Action::Refer(body) => out.add(Instr::Refer(*body), 0, None),
        Action::Leave(exit) => put_leave(out, *exit),
        Action::LeaveWith(exit, shape, value) => {
            add_value(out, value);
            put_leave_with(out, *exit, shape);
        }
        _ => {}
    }
}

// A counted loop; nothing for another action.
#[cycle(emit)]
fn add_count(out: &mut Draft, action: &Action)
    ensures { Makes (count_code action.now) out.old out.new }
{
    let Action::Count {
        counter,
        from,
        way,
        limit,
        ..
    } = action
    else {
        return;
    };
    let shape = &Shape::Cell(Kind::Int);
    add_place(out, counter, shape);
    add_value(out, from);
    put_store(out, shape);
    match limit {
        None => add_turns(out, action),
        Some(limit) => {
            add_place(out, counter, shape);
            add_value(out, limit);
            add_limited(out, action, *way);
        }
    }
}

// The parts of a SELECT whose number is on top; nothing for another action.
#[cycle(emit)]
fn add_parts(out: &mut Draft, action: &Action)
    ensures { Makes (action_parts action.now) out.old out.new }
{
    let Action::Select(_, arms, other) = action else {
        return;
    };
    let arms = arms.as_slice();
    let end = out.ahead(count_arms(arms, count_actions(other.as_slice())));
    let kept = out.kept();
    let top = kept.as_slice();
    for arm in arms {
        add_arm(out, arm, top, end);
    }
    out.add(Instr::Drop, 1, None);
    add_actions(out, other.as_slice());
}

#[cycle(emit)]
fn add_arm(out: &mut Draft, arm: &Arm, top: &[OperandKind], end: usize)
    ensures { MakesArm (arm_code_of arm.now) end top.now out.old out.new }
{
    let past = out.ahead(arm.labels.len().saturating_add(1));
    put_whens(out, arm.labels.as_slice(), past);
    put_jump(out, count_actions(arm.units.as_slice()).saturating_add(1));
    out.restore(without_first(top));
    add_actions(out, arm.units.as_slice());
    out.add(Instr::Jump(end), 0, None);
    out.restore(top);
}

// A WHILE test, which leaves the loop where it is FALSE.
#[cycle(emit)]
fn add_while(out: &mut Draft, test: &Option<ValuePhrase>, end: usize)
    ensures { MakesExit (while_code (option_map value_code test.now)) end out.old out.new }
{
    if let Some(value) = test {
        let below = out.kept();
        add_value(out, value);
        out.add(Instr::False(end), 1, None);
        out.restore(below.as_slice());
    }
}

// An UNTIL test, which leaves the loop where it is TRUE.
#[cycle(emit)]
fn add_until(out: &mut Draft, test: &Option<ValuePhrase>, end: usize)
    ensures { MakesExit (until_code (option_map value_code test.now)) end out.old out.new }
{
    if let Some(value) = test {
        let below = out.kept();
        add_value(out, value);
        put_test(out, below.as_slice(), 0);
        out.add(Instr::Jump(end), 0, None);
    }
}

// The turns of a loop; nothing for another action.
#[cycle(emit)]
fn add_turns(out: &mut Draft, action: &Action)
    ensures { Makes (loop_code action.now) out.old out.new }
{
    match action {
        Action::Loop { .. } | Action::Count { .. } => {
            let top = out.lines.len();
            let end = out.ahead(count_loop(action));
            out.add(Instr::Mark, 0, None);
            add_turn(out, action, end);
            out.add(Instr::Jump(top), 0, None);
        }
        _ => {}
    }
}

// A turn of a loop, which ends there; nothing for another action.
#[cycle(emit)]
fn add_turn(out: &mut Draft, action: &Action, end: usize)
    ensures { MakesExit (turn_of action.now) end out.old out.new }
{
    match action {
        Action::Loop {
            condition,
            units,
            until,
        }
        | Action::Count {
            condition,
            units,
            until,
            ..
        } => {
            let below = out.kept();
            add_while(out, condition, end);
            add_actions(out, units.as_slice());
            out.restore(below.as_slice());
            add_until(out, until, end);
            add_step(out, action, end);
        }
        _ => {}
    }
}

// The step of a loop's counter, and the way out of the loop behind its last turn; nothing where there is no counter.
#[cycle(emit)]
fn add_step(out: &mut Draft, action: &Action, end: usize)
    ensures { MakesExit (step_of action.now) end out.old out.new }
{
    match action {
        Action::Count {
            counter,
            limit: None,
            ..
        } => add_step_on(out, counter),
        Action::Count {
            counter,
            way,
            limit: Some(_),
            ..
        } => add_step_to(out, counter, *way, end),
        _ => {}
    }
}

// The step of a counter without limit.
#[cycle(emit)]
fn add_step_on(out: &mut Draft, counter: &PlacePhrase)
    ensures { (end : ℕ) → MakesExit (step_code (place_code counter.now)) end out.old out.new }
{
    let below = out.kept();
    add_place(out, counter, &Shape::Cell(Kind::Int));
    put_number(out, 1);
    out.add(Instr::Modify(Change::Increase), 2, None);
    out.restore(below.as_slice());
}

// The step of a counter under a limit, and the way out of the loop where it has reached it.
#[cycle(emit)]
fn add_step_to(out: &mut Draft, counter: &PlacePhrase, way: Way, end: usize)
    ensures { MakesExit (step_to_code (place_code counter.now) way) end out.old out.new }
{
    let below = out.kept();
    add_place(out, counter, &Shape::Cell(Kind::Int));
    out.add(Instr::Step(way, end), 1, None);
    out.restore(below.as_slice());
}

// The turns of a loop under a limit, which is on top, with the counter's place below it.
#[cycle(emit)]
fn add_limited(out: &mut Draft, action: &Action, way: Way)
    ensures { Makes (limit_code way (loop_code action.now)) out.old out.new }
{
    let end = out.ahead(count_loop(action).saturating_add(1));
    out.add(Instr::Limit(way, end), 2, None);
    let outer = out.spot;
    out.deepen();
    add_turns(out, action);
    out.add(Instr::Unlimit, 0, None);
    out.spot = outer;
}
