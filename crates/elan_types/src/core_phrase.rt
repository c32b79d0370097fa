//! What a command means: a text, or a PROC of a packet with which a task starts. Every name is resolved and every phrase has the
//! shape of its value, so evaluation and the making of code go by structure alone. Of types a core knows nothing else.

use cell_kinds::{CellKinds, Packet};
use eu_base::{
    Boxed, Bytes, Change, List, Operation, RequestName, Shape, Shared, SpaceOperation, Way,
};
use std::mem;

/// The meaning of a command.
pub struct Core {
    /// The packets of the task, in the order in which they were inserted.
    pub packets: List<Packet>,
    /// The kinds of the cells of the variables and constants of the packet that the text is, in the order of their declarations; a
    /// program has none here. They stand behind those of the packets of the task.
    pub inserted: CellKinds,
    /// The kinds of the cells of a program's variables and constants; a packet has none here, and a start procedure neither.
    pub variables: CellKinds,
    /// The PROCs and refinements, those of the packets first. Phrases name them by their numbers here. A body of a packet is one
    /// for all texts that are compiled after it.
    pub bodies: List<Shared<Body>>,
    /// What a text does, in text order.
    pub units: List<Action>,
    /// The PROC, without parameters and value, in whose call the command starts, where it is a start procedure. It then has no units.
    pub start: Option<usize>,
}

/// A PROC, or a refinement.
pub struct Body {
    /// What variables it has.
    pub scope: Scope,
    /// What it does.
    pub content: Content,
}

/// What variables a body has.
#[derive(Drop)]
pub enum Scope {
    /// Those of a PROC: its parameters, and behind them the kinds of the cells of its own variables and constants.
    Own {
        parameters: List<Formal>,
        variables: CellKinds,
    },
    /// Those of the PROC with this number, whose refinement it is.
    Of(usize),
    /// Those of the level alone, whose refinement it is.
    Level,
}

/// A parameter of a PROC.
#[derive(Drop)]
pub struct Formal {
    /// The shape of the value that it holds, or of the variable.
    pub shape: Shape,
    /// What it holds.
    pub access: Access,
}

/// What a parameter holds: a value, or the place of a variable.
#[derive(Clone, Copy, PartialEq, Eq)]
pub enum Access {
    /// A value.
    Const,
    /// The place of a variable.
    Var,
}

/// What a body does.
#[derive(Drop)]
pub enum Content {
    /// It delivers nothing.
    Units(List<Action>),
    /// It delivers a value of a shape.
    Value(Shape, ValuePhrase),
}

/// What a LEAVE leaves.
#[derive(Clone, Copy, PartialEq, Eq)]
pub enum Exit {
    /// The body in which it stands.
    Body,
    /// The PROC in whose refinement it stands.
    Around,
}

/// The items of a row.
#[derive(Clone, Copy, PartialEq, Eq)]
pub struct Items {
    /// How many they are.
    pub count: u16,
    /// How many cells each of them has.
    pub cells: u16,
}

/// Some cells of a value.
#[derive(Clone, Copy, PartialEq, Eq)]
pub struct Part {
    /// How many cells the whole value has.
    pub of: u16,
    /// How many of them stand before the part.
    pub before: u16,
    /// How many the part has.
    pub cells: u16,
}

/// A phrase that delivers a value.
#[cycle(phrases)]
#[derive(Drop)]
pub enum ValuePhrase {
    /// A number, from -32768 to 32767.
    Number(i16),
    /// A truth value.
    Truth(bool),
    /// A text, of at most 16,000 bytes.
    Text(Bytes),
    /// What stands at a place.
    Load(PlacePhrase, Shape),
    /// The result of an operation, its operands from left to right.
    Apply(Operation, List<ValuePhrase>),
    /// Condition, and the values for TRUE and FALSE. `a CAND b` is b, or else FALSE; `a COR b` is TRUE, or else b.
    If(Boxed<ValuePhrase>, Boxed<ValuePhrase>, Boxed<ValuePhrase>),
    /// The value to choose by, the arms, and the value where no label holds it.
    Select(Boxed<ValuePhrase>, List<ValueArm>, Boxed<ValuePhrase>),
    /// A value that is a unit: it spends a mark first.
    Unit(Boxed<ValuePhrase>),
    /// Actions, and then a value.
    After(List<Action>, Boxed<ValuePhrase>),
    /// A value of this shape that is never delivered. It stands behind a LEAVE, where it is not reached.
    Never(Shape),
    /// What the call of a PROC delivers, its actuals from left to right.
    Call(usize, List<Actual>, Shape),
    /// What a refinement delivers.
    Refer(usize, Shape),
    /// The item of a row that is a value: the row, the index, the items, and the shape of one.
    Pick(Boxed<ValuePhrase>, Boxed<ValuePhrase>, Items, Shape),
    /// The field of a structure that is a value: the structure, the part of it that the field is, and the field's shape.
    Take(Boxed<ValuePhrase>, Part, Shape),
    /// What a request delivers, its actuals from left to right.
    Ask(RequestName, List<Actual>),
    /// What a call on data spaces delivers, its operands from left to right.
    Consult(SpaceOperation, List<ValuePhrase>),
}

/// What a parameter is given.
#[cycle(phrases)]
#[derive(Drop)]
pub enum Actual {
    /// A value, for a CONST parameter.
    Value(ValuePhrase),
    /// The place of a variable of this shape, for a VAR parameter.
    Place(PlacePhrase, Shape),
}

/// Labels, and the value that they choose.
#[cycle(phrases)]
#[derive(Drop)]
pub struct ValueArm {
    /// At least one, and no two of a SELECT are equal.
    pub labels: List<i16>,
    /// What they choose.
    pub value: ValuePhrase,
}

/// A phrase that names a place: that of the first cell of what stands there.
#[cycle(phrases)]
#[derive(Drop)]
pub enum PlacePhrase {
    /// A variable or constant of a program, by the number of its first cell in `Core::variables`.
    Variable(usize),
    /// A variable or constant of a packet, by the number of its first cell among those of all packets, one packet behind the other.
    Packet(usize),
    /// A CONST parameter, variable or constant of the PROC, by the number of its first cell in the PROC's frame.
    Local(usize),
    /// What a VAR parameter of the PROC holds, by the number of its cell in the PROC's frame.
    Parameter(usize),
    /// An item of a row: the row, the index, and the items.
    Item(Boxed<PlacePhrase>, Boxed<ValuePhrase>, Items),
    /// A field of a structure: the structure, and how many of its cells stand before the field.
    Field(Boxed<PlacePhrase>, u16),
    /// The content of a data space, which has this shape: the BOUND variable that is bound to the space.
    Content(Boxed<PlacePhrase>, Shape),
}

/// A phrase that delivers nothing.
#[cycle(phrases)]
#[derive(Drop)]
pub enum Action {
    /// A declaration or statement: it spends a mark, and then does each of these.
    Unit(List<Action>),
    /// Stores a value at a place.
    Store(PlacePhrase, Shape, ValuePhrase),
    /// INCR, DECR and CAT.
    Modify(Change, PlacePhrase, ValuePhrase),
    /// Condition, and what is done for TRUE and FALSE.
    If(ValuePhrase, List<Action>, List<Action>),
    /// The value to choose by, the arms, and what is done where no label holds it.
    Select(ValuePhrase, List<Arm>, List<Action>),
    /// A loop without counter.
    Loop {
        condition: Option<ValuePhrase>,
        units: List<Action>,
        until: Option<ValuePhrase>,
    },
    /// A loop whose counter goes from a first value up or down, to a limit where one is written.
    Count {
        counter: PlacePhrase,
        from: ValuePhrase,
        way: Way,
        limit: Option<ValuePhrase>,
        condition: Option<ValuePhrase>,
        units: List<Action>,
        until: Option<ValuePhrase>,
    },
    /// A request that delivers nothing, its actuals from left to right.
    Ask(RequestName, List<Actual>),
    /// `errorstop`: the command stops with this text.
    ErrorStop(ValuePhrase),
    /// A call of a PROC that delivers nothing, its actuals from left to right.
    Call(usize, List<Actual>),
    /// A refinement that delivers nothing.
    Refer(usize),
    /// LEAVE without a value.
    Leave(Exit),
    /// A LEAVE WITH, and the value that is delivered.
    LeaveWith(Exit, Shape, ValuePhrase),
    /// A call on data spaces that delivers nothing, its operands from left to right.
    Perform(SpaceOperation, List<ValuePhrase>),
    /// A DATASPACE variable gets a copy of a data space.
    Copy(PlacePhrase, ValuePhrase),
    /// A BOUND variable is bound to a data space, whose content has this shape then.
    Bind(PlacePhrase, Shape, ValuePhrase),
}

/// Labels, and what they choose.
#[cycle(phrases)]
#[derive(Drop)]
pub struct Arm {
    /// At least one, and no two of a SELECT are equal.
    pub labels: List<i16>,
    /// What they choose.
    pub units: List<Action>,
}

// Cores and bodies are let go by functions of their own, so a crate above that holds them, shared or in lists, proves nothing of how their parts
// are let go.

impl Drop for Core {
    fn drop(self) {
        let Core {
            packets: _,
            inserted: _,
            variables: _,
            bodies: _,
            units: _,
            start: _,
        } = self;
    }
}

impl Drop for Body {
    fn drop(self) {
        let Body {
            scope: _,
            content: _,
        } = self;
    }
}

impl Core {
    /// Lets it go, with all its parts.
    pub fn let_go(self) {}
}

// A crate above that lets a phrase go by these calls proves nothing of how its parts are let go. A call of `drop` is cheaper to prove here than what
// a body lets go at its end.

impl ValuePhrase {
    /// Lets it go, with all its parts.
    pub fn let_go(self) {
        mem::drop(self);
    }
}

impl PlacePhrase {
    /// Lets it go, with all its parts.
    pub fn let_go(self) {
        mem::drop(self);
    }
}

impl Action {
    /// Lets actions go, with all their parts.
    pub fn all_let_go(_actions: List<Action>) {}
}

impl Scope {
    /// Lets it go, with its lists.
    pub fn let_go(self) {}
}

impl Body {
    /// Lets bodies go, with all their parts.
    pub fn all_let_go(_bodies: List<Body>) {}
}
