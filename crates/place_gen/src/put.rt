//! Single instructions, and the few that always stand together.
ghost use Rattle.std.specs.Prelude.{◌≡◌, ◌∷◌, ◌+◌, ℕ, length, drop};
ghost use Rattle.eu_base.specs.Operations.{operand_kinds, result_kind};
ghost use Rattle.eu_base.specs.Requests.{request_size};
ghost use Rattle.eu_base.specs.SpaceOperations.{space_operand_kinds};
ghost use Rattle.eu_base.specs.declared.value.Kind.TheVariants as kinds;
ghost use Rattle.code_form.specs.declared.operand.OperandKind.TheVariants as operand;
ghost use Rattle.code_form.specs.declared.instr.Instr.TheVariants as instrs;
ghost use Rattle.code_form.specs.Valid.{cell_value, with_answer};
ghost use Rattle.place_gen.specs.Stretch.{one, keeps, pushes, whens_code, leave_instr, never_code};
ghost use Rattle.place_gen.specs.Counted.{counted};
ghost use Rattle.place_gen.specs.Makes.{Makes, MakesTurn};

use crate::draft::Draft;
use code_form::{Instr, OperandKind};
use elan_types::Exit;
use eu_base::{Bytes, Kind, NoMemory, Operation, RequestName, Shape, SpaceOperation};

// A value of one cell, as it is pending.
fn cell_value(kind: Kind) -> OperandKind
    ensures { result ≡ cell_value kind }
{
    OperandKind::Value(Shape::Cell(kind))
}

fn leave_instr(exit: Exit, delivers: Option<Shape>) -> Instr
    ensures { result ≡ leave_instr exit delivers }
{
    match exit {
        Exit::Body => Instr::Back(delivers),
        Exit::Around => Instr::Out(delivers),
    }
}

// A jump past so many instructions and the jump behind them, where FALSE is on top.
fn put_false(out: &mut Draft, over: usize)
    ensures { (n : ℕ) → over ≡ counted n → Makes (one (instrs.False (length out.old.lines + 1 + n + 1)) (drop 1)) out.old out.new }
{
    let to = out.ahead(over.saturating_add(2));
    out.add(Instr::False(to), 1, None);
}

/// A jump past so many instructions.
pub fn put_jump(out: &mut Draft, over: usize)
    ensures { (n : ℕ) → over ≡ counted n → Makes (one (instrs.Jump (length out.old.lines + 1 + n)) keeps) out.old out.new }
{
    let to = out.ahead(over.saturating_add(1));
    out.add(Instr::Jump(to), 0, None);
}

/// The test of a choice: past the first branch where it is FALSE. The branch begins where this is pending.
pub fn put_test(out: &mut Draft, below: &[OperandKind], over: usize)
    ensures { (n : ℕ) → over ≡ counted n → MakesTurn (instrs.False (length out.old.lines + 1 + n + 1)) below.now out.old out.new }
{
    put_false(out, over);
    out.restore(below);
}

/// The end of the first branch of a choice. The second begins where this is pending.
pub fn put_else(out: &mut Draft, below: &[OperandKind], over: usize)
    ensures { (n : ℕ) → over ≡ counted n → MakesTurn (instrs.Jump (length out.old.lines + 1 + n)) below.now out.old out.new }
{
    put_jump(out, over);
    out.restore(below);
}

/// The instruction that leaves a body, and the PROC of a refinement, and delivers nothing.
pub fn put_leave(out: &mut Draft, exit: Exit)
    ensures { Makes (one (leave_instr exit None) keeps) out.old out.new }
{
    out.add(leave_instr(exit, None), 0, None);
}

/// The same, which delivers the value on top.
pub fn put_leave_with(out: &mut Draft, exit: Exit, shape: &Shape)
    ensures { Makes (one (leave_instr exit (Some shape.now)) (drop 1)) out.old out.new }
{
    let shape = out.copied(shape);
    out.add(leave_instr(exit, Some(shape)), 1, None);
}

/// An instruction that takes so many operands, and pushes the place of a value of a shape.
pub fn put_place(out: &mut Draft, instr: Instr, taken: usize, shape: &Shape)
    ensures { Makes (one instr (λ ks. operand.Place shape.now ∷ drop taken ks)) out.old out.new }
{
    let shape = out.copied(shape);
    out.add(instr, taken, Some(OperandKind::Place(shape)));
}

/// An instruction that takes so many operands, and pushes a value of a shape.
pub fn put_value(out: &mut Draft, instr: Instr, taken: usize, shape: &Shape)
    ensures { Makes (one instr (λ ks. operand.Value shape.now ∷ drop taken ks)) out.old out.new }
{
    let shape = out.copied(shape);
    out.add(instr, taken, Some(OperandKind::Value(shape)));
}

/// A mark, and back to it: what stands behind is never reached, and has a value of a shape on top.
pub fn put_never(out: &mut Draft, shape: &Shape)
    ensures { Makes (never_code shape.now) out.old out.new }
{
    let top = out.lines.len();
    out.add(Instr::Mark, 0, None);
    put_value(out, Instr::Jump(top), 0, shape);
}

/// A number.
pub fn put_number(out: &mut Draft, number: i16)
    ensures { Makes (one (instrs.Number number) (pushes (cell_value kinds.Int))) out.old out.new }
{
    out.add(Instr::Number(number), 0, Some(cell_value(Kind::Int)));
}

/// A truth value.
pub fn put_truth(out: &mut Draft, truth: bool)
    ensures { Makes (one (instrs.Truth truth) (pushes (cell_value kinds.Truth))) out.old out.new }
{
    out.add(Instr::Truth(truth), 0, Some(cell_value(Kind::Truth)));
}

/// A text, in a copy.
pub fn put_text(out: &mut Draft, text: &Bytes)
    ensures { Makes (one (instrs.Text text.now) (pushes (cell_value kinds.Text))) out.old out.new }
{
    match Bytes::from(out.alloc, text.as_slice()) {
        Ok(text) => out.add(Instr::Text(text), 0, Some(cell_value(Kind::Text))),
        Err(NoMemory) => out.wanted = true,
    }
}

/// The value of a shape at the place on top.
pub fn put_load(out: &mut Draft, shape: &Shape)
    ensures { Makes (one (instrs.Load shape.now) (λ ks. operand.Value shape.now ∷ drop 1 ks)) out.old out.new }
{
    let copy = out.copied(shape);
    put_value(out, Instr::Load(copy), 1, shape);
}

/// The value on top is stored at the place below it.
pub fn put_store(out: &mut Draft, shape: &Shape)
    ensures { Makes (one (instrs.Store shape.now) (drop 2)) out.old out.new }
{
    let shape = out.copied(shape);
    out.add(Instr::Store(shape), 2, None);
}

/// An operation on the operands on top.
pub fn put_operation(out: &mut Draft, operation: Operation)
    ensures { Makes (one (instrs.Do operation) (λ ks. cell_value (result_kind operation) ∷ drop (length (operand_kinds operation)) ks)) out.old out.new }
{
    out.add(
        Instr::Do(operation),
        operation.operand_kinds().len(),
        Some(cell_value(operation.result_kind())),
    );
}

/// A request with the operands on top, which delivers a value of this kind or nothing.
pub fn put_request(out: &mut Draft, name: RequestName, answer: Option<Kind>)
    ensures { Makes (one (instrs.Ask name) (λ ks. with_answer answer (drop (request_size name) ks))) out.old out.new }
{
    match answer {
        Some(kind) => out.add(Instr::Ask(name), name.size(), Some(cell_value(kind))),
        None => out.add(Instr::Ask(name), name.size(), None),
    }
}

/// A call on data spaces with the operands on top, which delivers a value of this kind or nothing.
pub fn put_on_spaces(out: &mut Draft, operation: SpaceOperation, answer: Option<Kind>)
    ensures { Makes (one (instrs.OnSpaces operation) (λ ks. with_answer answer (drop (length (space_operand_kinds operation)) ks))) out.old out.new }
{
    let taken = operation.operand_kinds().len();
    match answer {
        Some(kind) => out.add(Instr::OnSpaces(operation), taken, Some(cell_value(kind))),
        None => out.add(Instr::OnSpaces(operation), taken, None),
    }
}

/// A BOUND variable is bound to the data space on top, whose content has this shape then.
pub fn put_bind(out: &mut Draft, shape: &Shape)
    ensures { Makes (one (instrs.Bind shape.now) (drop 2)) out.old out.new }
{
    let shape = out.copied(shape);
    out.add(Instr::Bind(shape), 2, None);
}

/// Tests of labels, each of which jumps there where the number on top is the label.
pub fn put_whens(out: &mut Draft, labels: &[i16], to: usize)
    ensures { Makes (whens_code labels.now to) out.old out.new }
{
    for label in labels {
        out.add(Instr::When(*label, to), 0, None);
    }
}

/// What is pending below the newest.
pub fn without_first(kinds: &[OperandKind]) -> &[OperandKind]
    ensures { result.now ≡ drop 1 kinds.now }
{
    &kinds[kinds.len().min(1)..]
}
