//! The predefined operators and procedures.

ghost use Rattle.std.specs.Prelude.{◌≡◌, map};
ghost use Rattle.eu_base.specs.Operations.{operand_kinds, text_operand_kinds};
ghost use Rattle.eu_base.specs.SpaceOperations.{space_operand_kinds};
ghost use Rattle.elan_types.specs.Types.{values_of, request_parameters};
ghost use Rattle.elan_names.specs.Predefined as spec;
ghost use Rattle.elan_names.specs.walks.Seen as seen;

use crate::heading::Sort;
use elan_types::{Access, Change, Operation, RequestName};
use eu_base::{Kind, SpaceOperation, TextOperation};

/// What a predefined name is.
#[derive(Clone, Copy)]
pub enum Predefined {
    /// It delivers the result of an operation.
    Operation(Operation),
    /// It changes the variable that is its first operand.
    Change(Change),
    /// It makes a request.
    Request(RequestName),
    /// It asks for data spaces and their names, or changes them.
    OnSpaces(SpaceOperation),
    /// It stops the program.
    ErrorStop,
}

/// What something predefined is given: the kind of its type, and what a parameter for it holds.
#[derive(Clone, Copy)]
pub struct Operand {
    pub kind: Kind,
    pub access: Access,
}

/// Whether it is an operator or a procedure, its name, and what it is.
pub type Row = (Sort, &'static [u8], Predefined);

const PREDEFINED: [Row; 79] = [
    (Sort::Operator, b"+", Predefined::Operation(Operation::Plus)),
    (Sort::Operator, b"+", Predefined::Operation(Operation::Add)),
    (
        Sort::Operator,
        b"+",
        Predefined::Operation(Operation::OnTexts(TextOperation::Join)),
    ),
    (
        Sort::Operator,
        b"-",
        Predefined::Operation(Operation::Negate),
    ),
    (
        Sort::Operator,
        b"-",
        Predefined::Operation(Operation::Subtract),
    ),
    (
        Sort::Operator,
        b"*",
        Predefined::Operation(Operation::Multiply),
    ),
    (
        Sort::Operator,
        b"*",
        Predefined::Operation(Operation::OnTexts(TextOperation::Repeat)),
    ),
    (
        Sort::Operator,
        b"DIV",
        Predefined::Operation(Operation::Divide),
    ),
    (
        Sort::Operator,
        b"MOD",
        Predefined::Operation(Operation::Modulo),
    ),
    (
        Sort::Operator,
        b"INCR",
        Predefined::Change(Change::Increase),
    ),
    (
        Sort::Operator,
        b"DECR",
        Predefined::Change(Change::Decrease),
    ),
    (Sort::Operator, b"CAT", Predefined::Change(Change::Append)),
    (
        Sort::Operator,
        b"=",
        Predefined::Operation(Operation::Equal),
    ),
    (Sort::Operator, b"=", Predefined::Operation(Operation::Same)),
    (
        Sort::Operator,
        b"=",
        Predefined::Operation(Operation::OnTexts(TextOperation::Equal)),
    ),
    (
        Sort::Operator,
        b"=",
        Predefined::Operation(Operation::SameTask),
    ),
    (
        Sort::Operator,
        b"<>",
        Predefined::Operation(Operation::Unequal),
    ),
    (
        Sort::Operator,
        b"<>",
        Predefined::Operation(Operation::Different),
    ),
    (
        Sort::Operator,
        b"<>",
        Predefined::Operation(Operation::OnTexts(TextOperation::Unequal)),
    ),
    (
        Sort::Operator,
        b"<>",
        Predefined::Operation(Operation::OtherTask),
    ),
    (Sort::Operator, b"<", Predefined::Operation(Operation::Less)),
    (
        Sort::Operator,
        b"<",
        Predefined::Operation(Operation::OnTexts(TextOperation::Less)),
    ),
    (
        Sort::Operator,
        b"<=",
        Predefined::Operation(Operation::LessEqual),
    ),
    (
        Sort::Operator,
        b"<=",
        Predefined::Operation(Operation::OnTexts(TextOperation::LessEqual)),
    ),
    (
        Sort::Operator,
        b">",
        Predefined::Operation(Operation::Greater),
    ),
    (
        Sort::Operator,
        b">",
        Predefined::Operation(Operation::OnTexts(TextOperation::Greater)),
    ),
    (
        Sort::Operator,
        b">=",
        Predefined::Operation(Operation::GreaterEqual),
    ),
    (
        Sort::Operator,
        b">=",
        Predefined::Operation(Operation::OnTexts(TextOperation::GreaterEqual)),
    ),
    (
        Sort::Operator,
        b"AND",
        Predefined::Operation(Operation::And),
    ),
    (Sort::Operator, b"OR", Predefined::Operation(Operation::Or)),
    (
        Sort::Operator,
        b"NOT",
        Predefined::Operation(Operation::Not),
    ),
    (
        Sort::Operator,
        b"SUB",
        Predefined::Operation(Operation::OnTexts(TextOperation::ByteAt)),
    ),
    (
        Sort::Operator,
        b"LENGTH",
        Predefined::Operation(Operation::OnTexts(TextOperation::Length)),
    ),
    (
        Sort::Procedure,
        b"length",
        Predefined::Operation(Operation::OnTexts(TextOperation::Length)),
    ),
    (
        Sort::Procedure,
        b"pos",
        Predefined::Operation(Operation::OnTexts(TextOperation::PlaceOf)),
    ),
    (
        Sort::Procedure,
        b"subtext",
        Predefined::Operation(Operation::OnTexts(TextOperation::Subtext)),
    ),
    (
        Sort::Procedure,
        b"subtext",
        Predefined::Operation(Operation::OnTexts(TextOperation::SubtextFrom)),
    ),
    (
        Sort::Procedure,
        b"code",
        Predefined::Operation(Operation::OnTexts(TextOperation::CodeOf)),
    ),
    (
        Sort::Procedure,
        b"code",
        Predefined::Operation(Operation::OnTexts(TextOperation::TextOfCode)),
    ),
    (
        Sort::Procedure,
        b"text",
        Predefined::Operation(Operation::OnTexts(TextOperation::TextOfNumber)),
    ),
    (
        Sort::Procedure,
        b"int",
        Predefined::Operation(Operation::OnTexts(TextOperation::NumberIn)),
    ),
    (
        Sort::Procedure,
        b"abs",
        Predefined::Operation(Operation::Absolute),
    ),
    (
        Sort::Procedure,
        b"min",
        Predefined::Operation(Operation::Minimum),
    ),
    (
        Sort::Procedure,
        b"max",
        Predefined::Operation(Operation::Maximum),
    ),
    (
        Sort::Procedure,
        b"maxint",
        Predefined::Operation(Operation::Largest),
    ),
    (
        Sort::Procedure,
        b"niltask",
        Predefined::Operation(Operation::NoTask),
    ),
    (
        Sort::Procedure,
        b"nilspace",
        Predefined::Operation(Operation::NilSpace),
    ),
    (Sort::Procedure, b"errorstop", Predefined::ErrorStop),
    (
        Sort::Procedure,
        b"put",
        Predefined::Request(RequestName::PutNumber),
    ),
    (
        Sort::Procedure,
        b"put",
        Predefined::Request(RequestName::PutText),
    ),
    (
        Sort::Procedure,
        b"write",
        Predefined::Request(RequestName::Write),
    ),
    (
        Sort::Procedure,
        b"putline",
        Predefined::Request(RequestName::PutLine),
    ),
    (
        Sort::Procedure,
        b"line",
        Predefined::Request(RequestName::Line),
    ),
    (
        Sort::Procedure,
        b"get",
        Predefined::Request(RequestName::GetNumber),
    ),
    (
        Sort::Procedure,
        b"get",
        Predefined::Request(RequestName::GetText),
    ),
    (
        Sort::Procedure,
        b"getline",
        Predefined::Request(RequestName::GetLine),
    ),
    (
        Sort::Procedure,
        b"myself",
        Predefined::Request(RequestName::Myself),
    ),
    (
        Sort::Procedure,
        b"father",
        Predefined::Request(RequestName::Father),
    ),
    (
        Sort::Procedure,
        b"father",
        Predefined::Request(RequestName::FatherOf),
    ),
    (
        Sort::Procedure,
        b"son",
        Predefined::Request(RequestName::Son),
    ),
    (
        Sort::Procedure,
        b"brother",
        Predefined::Request(RequestName::Brother),
    ),
    (
        Sort::Procedure,
        b"task",
        Predefined::Request(RequestName::Named),
    ),
    (
        Sort::Procedure,
        b"name",
        Predefined::Request(RequestName::NameOf),
    ),
    (
        Sort::Procedure,
        b"exists",
        Predefined::Request(RequestName::Exists),
    ),
    (
        Sort::Procedure,
        b"end",
        Predefined::Request(RequestName::EndOf),
    ),
    (
        Sort::Procedure,
        b"end",
        Predefined::Request(RequestName::End),
    ),
    (
        Sort::Procedure,
        b"break",
        Predefined::Request(RequestName::Break),
    ),
    (
        Sort::Procedure,
        b"send",
        Predefined::Request(RequestName::Send),
    ),
    (
        Sort::Procedure,
        b"wait",
        Predefined::Request(RequestName::Wait),
    ),
    (
        Sort::Procedure,
        b"call",
        Predefined::Request(RequestName::Call),
    ),
    (
        Sort::Procedure,
        b"type",
        Predefined::OnSpaces(SpaceOperation::KindOf),
    ),
    (
        Sort::Procedure,
        b"type",
        Predefined::OnSpaces(SpaceOperation::SetKind),
    ),
    (
        Sort::Procedure,
        b"forget",
        Predefined::OnSpaces(SpaceOperation::Forget),
    ),
    (
        Sort::Procedure,
        b"forget",
        Predefined::OnSpaces(SpaceOperation::ForgetNamed),
    ),
    (
        Sort::Procedure,
        b"new",
        Predefined::OnSpaces(SpaceOperation::New),
    ),
    (
        Sort::Procedure,
        b"old",
        Predefined::OnSpaces(SpaceOperation::Old),
    ),
    (
        Sort::Procedure,
        b"exists",
        Predefined::OnSpaces(SpaceOperation::IsNamed),
    ),
    (
        Sort::Procedure,
        b"rename",
        Predefined::OnSpaces(SpaceOperation::Rename),
    ),
    (
        Sort::Procedure,
        b"copy",
        Predefined::OnSpaces(SpaceOperation::CopyNamed),
    ),
];

/// A row for each predefined operator and procedure.
#[tactic(auto, unfolding(crate::specs::Predefined::predefined))]
pub fn rows() -> &'static [Row]
    ensures { map (λ r. (r.0, r.1.now, r.2)) result.now ≡ spec.predefined }
{
    &PREDEFINED
}

const INT: Operand = Operand {
    kind: Kind::Int,
    access: Access::Const,
};

const BOOL: Operand = Operand {
    kind: Kind::Truth,
    access: Access::Const,
};

const TEXT: Operand = Operand {
    kind: Kind::Text,
    access: Access::Const,
};

const TASK: Operand = Operand {
    kind: Kind::Task,
    access: Access::Const,
};

const SPACE: Operand = Operand {
    kind: Kind::Space,
    access: Access::Const,
};

const INT_VAR: Operand = Operand {
    kind: Kind::Int,
    access: Access::Var,
};

const TEXT_VAR: Operand = Operand {
    kind: Kind::Text,
    access: Access::Var,
};

const TASK_VAR: Operand = Operand {
    kind: Kind::Task,
    access: Access::Var,
};

const SPACE_VAR: Operand = Operand {
    kind: Kind::Space,
    access: Access::Var,
};

// The operands of an operation are values.
fn operands(operation: Operation) -> &'static [Operand]
    ensures { map seen.operand result.now ≡ values_of (operand_kinds operation) }
{
    match operation {
        Operation::Largest | Operation::NoTask | Operation::NilSpace => &[],
        Operation::Plus | Operation::Negate | Operation::Absolute => &[INT],
        Operation::Not => &[BOOL],
        Operation::Same | Operation::Different | Operation::And | Operation::Or => &[BOOL, BOOL],
        Operation::SameTask | Operation::OtherTask => &[TASK, TASK],
        Operation::Add
        | Operation::Subtract
        | Operation::Multiply
        | Operation::Divide
        | Operation::Modulo
        | Operation::Equal
        | Operation::Unequal
        | Operation::Less
        | Operation::LessEqual
        | Operation::Greater
        | Operation::GreaterEqual
        | Operation::Minimum
        | Operation::Maximum => &[INT, INT],
        Operation::OnTexts(operation) => text_operands(operation),
    }
}

fn text_operands(operation: TextOperation) -> &'static [Operand]
    ensures { map seen.operand result.now ≡ values_of (text_operand_kinds operation) }
{
    match operation {
        TextOperation::Length | TextOperation::CodeOf | TextOperation::NumberIn => &[TEXT],
        TextOperation::TextOfCode | TextOperation::TextOfNumber => &[INT],
        TextOperation::Repeat => &[INT, TEXT],
        TextOperation::ByteAt | TextOperation::SubtextFrom => &[TEXT, INT],
        TextOperation::Subtext => &[TEXT, INT, INT],
        TextOperation::Join
        | TextOperation::Equal
        | TextOperation::Unequal
        | TextOperation::Less
        | TextOperation::LessEqual
        | TextOperation::Greater
        | TextOperation::GreaterEqual
        | TextOperation::PlaceOf => &[TEXT, TEXT],
    }
}

// A request is given values, and the variables for what it reads.
fn request_operands(name: RequestName) -> &'static [Operand]
    ensures { map seen.operand result.now ≡ request_parameters name }
{
    match name {
        RequestName::PutNumber => &[INT],
        RequestName::PutText | RequestName::Write | RequestName::PutLine => &[TEXT],
        RequestName::Line
        | RequestName::Myself
        | RequestName::Father
        | RequestName::End
        | RequestName::Break => &[],
        RequestName::Send | RequestName::Call => &[TASK, INT, SPACE_VAR, INT_VAR],
        RequestName::Wait => &[SPACE_VAR, INT_VAR, TASK_VAR],
        RequestName::Named => &[TEXT],
        RequestName::Begin(_) => &[TEXT, TASK_VAR],
        RequestName::FatherOf
        | RequestName::Son
        | RequestName::Brother
        | RequestName::NameOf
        | RequestName::Exists
        | RequestName::EndOf => &[TASK],
        RequestName::GetNumber => &[INT_VAR],
        RequestName::GetText | RequestName::GetLine => &[TEXT_VAR],
    }
}

// Those of a call on data spaces are values.
fn space_operands(operation: SpaceOperation) -> &'static [Operand]
    ensures { map seen.operand result.now ≡ values_of (space_operand_kinds operation) }
{
    match operation {
        SpaceOperation::KindOf | SpaceOperation::Forget => &[SPACE],
        SpaceOperation::SetKind => &[SPACE, INT],
        SpaceOperation::New
        | SpaceOperation::Old
        | SpaceOperation::IsNamed
        | SpaceOperation::ForgetNamed => &[TEXT],
        SpaceOperation::Rename | SpaceOperation::CopyNamed => &[TEXT, TEXT],
    }
}

impl Predefined {
    /// What it is given.
    pub fn operands(self) -> &'static [Operand]
        ensures { map seen.operand result.now ≡ spec.parameters self }
    {
        match self {
            Predefined::Operation(operation) => operands(operation),
            Predefined::Change(Change::Increase | Change::Decrease) => &[INT_VAR, INT],
            Predefined::Change(Change::Append) => &[TEXT_VAR, TEXT],
            Predefined::Request(name) => request_operands(name),
            Predefined::OnSpaces(operation) => space_operands(operation),
            Predefined::ErrorStop => &[TEXT],
        }
    }
}
