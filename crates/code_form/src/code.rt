//! Code.
ghost use Rattle.std.specs.Prelude.{◌≡◌, ◌<◌, length, slice_get, Some};
ghost use Rattle.code_form.specs.Program.{instr_of};
ghost use Rattle.code_form.specs.Valid.{IsValid};

use crate::instr::Instr;
use crate::operand::OperandKind;
use cell_kinds::{CellKinds, Packet};
use eu_base::{List, Shape};
use std::marker::Model;

/// An instruction, with what is pending when it is reached.
#[derive(Drop)]
pub struct Line {
    /// The instruction.
    pub instr: Instr,
    /// The kinds of the pending operands, the newest first.
    pub operands: List<OperandKind>,
    /// Where it stands.
    pub spot: Spot,
}

/// Where an instruction stands.
#[derive(Clone, Copy, PartialEq, Eq)]
pub struct Spot {
    /// The body that it is of; none where it is of the command itself.
    pub body: Option<usize>,
    /// How many limits of loops its frame keeps.
    pub limits: usize,
}

/// A PROC or a refinement.
#[derive(Drop)]
pub struct Entry {
    /// The number of its first instruction.
    pub first: usize,
    /// The cells of its frame.
    pub layout: Layout,
    /// The shape of the value that it delivers, where it delivers one.
    pub delivers: Option<Shape>,
}

/// The cells of a body's frame.
#[derive(Drop)]
pub enum Layout {
    /// Those of a PROC: its parameters, which stand as a call takes them, and behind them its variables, a kind a cell.
    Own {
        parameters: List<OperandKind>,
        variables: CellKinds,
    },
    /// Those of the PROC with this number, whose refinement it is.
    Of(usize),
    /// None: it is a refinement of the command itself.
    Level,
}

/// The call in which a command starts that is a start procedure.
#[derive(Clone, Copy, PartialEq, Eq)]
pub struct Start {
    /// The number of its PROC, whose first instruction is the first of the code.
    pub body: usize,
    /// The number of the instruction to which the call returns.
    pub back: usize,
}

/// A list of instructions with its tables. Along each step the tables agree, and a jump back goes to an
/// instruction that spends a mark.
#[derive(Drop)]
pub struct Code {
    packets: List<Packet>,
    inserted: CellKinds,
    variables: CellKinds,
    start: Option<Start>,
    bodies: List<Entry>,
    lines: List<Line>,
}

impl Model for Code {
    ghost use Rattle.code_form.specs.Program.{Program};

    ghost Value = { Program };

    ghost use Rattle.eu_base.specs.contracts.shape.Shape as shapes;
    ghost use Rattle.std.specs.Coded.{codes};

    ghost coded = { Prim.hlevel (codes, shapes.the_row.coded) };

    ghost use Rattle.code_form.specs.Valid.{IsValid};

    ghost view = { λ c. record {
      packets = c.packets;
      inserted = c.inserted;
      variables = c.variables;
      start = c.start;
      bodies = c.bodies;
      lines = c.lines;
    } };

    ghost invariant = { λ c. IsValid (record {
      packets = c.packets;
      inserted = c.inserted;
      variables = c.variables;
      start = c.start;
      bodies = c.bodies;
      lines = c.lines;
    }) };
}

impl Code {
    /// Code of these instructions, whose tables agree.
    pub fn new(
        packets: List<Packet>,
        inserted: CellKinds,
        variables: CellKinds,
        start: Option<Start>,
        bodies: List<Entry>,
        lines: List<Line>,
    ) -> Code
        requires { IsValid (record { packets = packets; inserted = inserted; variables = variables; start = start; bodies = bodies; lines = lines }) }
        ensures { result ≡ record { packets = packets; inserted = inserted; variables = variables; start = start; bodies = bodies; lines = lines } }
    {
        Code {
            packets,
            inserted,
            variables,
            start,
            bodies,
            lines,
        }
    }

    /// The packets of the task, in the order in which they were inserted.
    pub fn packets(&self) -> &[Packet]
        ensures { result.now ≡ self.now.packets }
    {
        self.packets.as_slice()
    }

    /// The kinds of the variables of the packet that is inserted, which stand behind those of the packets of the task.
    pub fn inserted(&self) -> &CellKinds
        ensures { result.now ≡ self.now.inserted }
    {
        &self.inserted
    }

    /// The kinds of the level's variables.
    pub fn variables(&self) -> &CellKinds
        ensures { result.now ≡ self.now.variables }
    {
        &self.variables
    }

    /// The call in which the command starts, where it is a start procedure.
    pub fn start(&self) -> Option<Start>
        ensures start { result ≡ self.now.start }
        ensures valid { IsValid self.now }
    {
        self.start
    }

    /// The PROCs and refinements.
    pub fn bodies(&self) -> &[Entry]
        ensures { result.now ≡ self.now.bodies }
    {
        self.bodies.as_slice()
    }

    /// The number of instructions.
    pub fn len(&self) -> usize
        ensures len { result ≡ length self.now.lines }
        ensures valid { IsValid self.now }
    {
        self.lines.len()
    }

    /// An instruction by its number from 0.
    pub fn instr(&self, at: usize) -> &Instr
        requires { at < length self.now.lines }
        ensures { Some result.now ≡ instr_of (slice_get self.now.lines at) }
    {
        &self.lines.as_slice()[at].instr
    }

    /// The instructions, by their numbers from 0.
    pub fn lines(&self) -> &[Line]
        ensures { result.now ≡ self.now.lines }
    {
        self.lines.as_slice()
    }

    /// Lets it go, with all its instructions. A crate above that lets code go by this call proves nothing of how its parts are let go.
    pub fn let_go(self) {}
}
