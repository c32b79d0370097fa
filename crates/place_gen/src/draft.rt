//! Code that is being made.
ghost use Rattle.std.specs.Prelude.{◌≡◌, ◌+◌, [], ◌∷◌, ◌++◌, false, ℕ, length, IfOk, OnOk};
ghost use Rattle.code_form.specs.Program.{at_level, in_body, deeper};
ghost use Rattle.place_gen.specs.Counted.{counted};
ghost use Rattle.place_gen.specs.Stretch.{one};
ghost use Rattle.place_gen.specs.Adds.{left, Adds, Begins};
ghost use Rattle.place_gen.specs.Makes.{Makes, ComesBack};

use code_form::{Instr, Line, OperandKind, Spot};
use eu_base::{Kind, List, NoMemory, Shape};
use std::alloc::Global;

/// Lines that were made, what is pending behind them, and where they stand.
#[derive(Drop)]
pub struct Draft {
    pub alloc: Global,
    pub lines: List<Line>,
    /// The kinds of the pending operands, the newest first.
    pub pending: List<OperandKind>,
    /// The body whose code is made, and how many limits of loops its frame keeps.
    pub spot: Spot,
    /// Whether memory was wanted. Steps after that do no harm, and what was made is worth nothing.
    pub wanted: bool,
}

impl Draft {
    /// A draft without lines, for the code of the level.
    pub fn new(alloc: Global) -> Draft
        ensures lines { result.lines ≡ [] }
        ensures pending { result.pending ≡ [] }
        ensures spot { result.spot ≡ at_level }
    {
        Draft {
            alloc,
            lines: List::new(alloc),
            pending: List::new(alloc),
            spot: Spot {
                body: None,
                limits: 0,
            },
            wanted: false,
        }
    }

    /// Goes on with the code of the body with this number.
    pub fn begin_body(&mut self, number: usize)
        ensures { Begins (in_body number) self.old self.new }
    {
        self.pending = List::new(self.alloc);
        self.spot = Spot {
            body: Some(number),
            limits: 0,
        };
    }

    /// Goes on with the code of the level.
    pub fn begin_level(&mut self)
        ensures { Begins at_level self.old self.new }
    {
        self.pending = List::new(self.alloc);
        self.spot = Spot {
            body: None,
            limits: 0,
        };
    }

    /// Adds an instruction that takes so many operands and may push one.
    pub fn put(
        &mut self,
        instr: Instr,
        taken: usize,
        pushed: Option<OperandKind>,
    ) -> Result<(), NoMemory>
        ensures { OnOk result (Adds (one instr (left taken pushed)) self.old self.new) }
    {
        self.add(instr, taken, pushed);
        self.met()
    }

    /// The same, where want of memory is kept in the draft.
    // There is no exit before the instruction is in its line, so no caller has to let one go.
    pub fn add(&mut self, instr: Instr, taken: usize, pushed: Option<OperandKind>)
        ensures { Makes (one instr (left taken pushed)) self.old self.new }
    {
        let operands = self.kept();
        self.add_line(Line {
            instr,
            operands,
            spot: self.spot,
        });
        self.leave(taken, pushed);
    }

    // Adds a line. What is pending stays.
    fn add_line(&mut self, line: Line)
        ensures { self.new.wanted ≡ false → (self.old.wanted ≡ false) × (self.new.lines ≡ self.old.lines ++ line ∷ []) × (self.new.pending ≡ self.old.pending) ×
            (self.new.spot ≡ self.old.spot) }
    {
        match self.lines.push(line) {
            Ok(()) => {}
            Err(NoMemory) => self.wanted = true,
        }
    }

    // So many operands are taken, and this one is pushed.
    fn leave(&mut self, taken: usize, pushed: Option<OperandKind>)
        ensures { ComesBack (left taken pushed self.old.pending) self.old self.new }
    {
        match left(self.alloc, taken, pushed, self.pending.as_slice()) {
            Ok(kinds) => self.pending = kinds,
            Err(NoMemory) => self.wanted = true,
        }
    }

    /// Whether memory sufficed for all that was made.
    pub fn met(&self) -> Result<(), NoMemory>
        ensures { OnOk result (self.now.wanted ≡ false) }
    {
        if self.wanted { Err(NoMemory) } else { Ok(()) }
    }

    /// The place so many instructions further on, as far as they were counted.
    pub fn ahead(&mut self, count: usize) -> usize
        ensures draft { ComesBack self.old.pending self.old self.new }
        ensures place { self.new.wanted ≡ false → (n : ℕ) → count ≡ counted n → result ≡ length self.old.lines + n }
    {
        let place = self.lines.len().saturating_add(count);
        if place == usize::MAX {
            self.wanted = true;
        }
        place
    }

    /// A copy of a shape; another one where memory was wanted.
    pub fn copied(&mut self, shape: &Shape) -> Shape
        ensures draft { ComesBack self.old.pending self.old self.new }
        ensures shape { self.new.wanted ≡ false → result ≡ shape.now }
    {
        match shape.try_clone(self.alloc) {
            Ok(shape) => shape,
            Err(NoMemory) => {
                self.wanted = true;
                Shape::Cell(Kind::Int)
            }
        }
    }

    /// What is pending, to come back to it.
    pub fn kept(&mut self) -> List<OperandKind>
        ensures draft { ComesBack self.old.pending self.old self.new }
        ensures kinds { self.new.wanted ≡ false → result ≡ self.old.pending }
    {
        match copies(self.alloc, self.pending.as_slice()) {
            Ok(kinds) => kinds,
            Err(NoMemory) => {
                self.wanted = true;
                List::new(self.alloc)
            }
        }
    }

    /// Goes on where this is pending.
    pub fn restore(&mut self, pending: &[OperandKind])
        ensures { ComesBack pending.now self.old self.new }
    {
        match copies(self.alloc, pending) {
            Ok(kinds) => self.pending = kinds,
            Err(NoMemory) => self.wanted = true,
        }
    }

    /// Goes on in the same body, under one limit more.
    pub fn deepen(&mut self)
        ensures { self.new.wanted ≡ false → (self.old.wanted ≡ false) × (self.new.lines ≡ self.old.lines) × (self.new.pending ≡ self.old.pending) ×
            (self.new.spot ≡ deeper self.old.spot) }
    {
        match self.spot.limits.checked_add(1) {
            Some(limits) => self.spot.limits = limits,
            None => self.wanted = true,
        }
    }
}

fn left(
    alloc: Global,
    taken: usize,
    pushed: Option<OperandKind>,
    pending: &[OperandKind],
) -> Result<List<OperandKind>, NoMemory>
    ensures { IfOk result (λ kinds. kinds ≡ left taken pushed pending.now) }
{
    let mut kinds = List::new(alloc);
    if let Some(kind) = pushed {
        kinds.push(kind)?;
    }
    copy_behind(alloc, &mut kinds, &pending[taken.min(pending.len())..])?;
    Ok(kinds)
}

// Puts copies of these kinds behind others.
fn copy_behind(
    alloc: Global,
    kinds: &mut List<OperandKind>,
    more: &[OperandKind],
) -> Result<(), NoMemory>
    ensures { OnOk result (kinds.new ≡ kinds.old ++ more.now) }
{
    for kind in more {
        kinds.push(kind.try_clone(alloc)?)?;
    }
    Ok(())
}

fn copies(alloc: Global, kinds: &[OperandKind]) -> Result<List<OperandKind>, NoMemory>
    ensures { IfOk result (λ copies. copies ≡ kinds.now) }
{
    let mut copies = List::new(alloc);
    copy_behind(alloc, &mut copies, kinds)?;
    Ok(copies)
}
