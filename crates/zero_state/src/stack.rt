//! What is pending.
ghost use Rattle.std.specs.Prelude.{◌≡◌, ◌+◌, ◌∷◌, ◌≤◌, [], List, drop, take, length, reverse, true, OnOk, MatchOption};
ghost use Rattle.eu_base.specs.Room.{bytes_fit};
ghost use Rattle.eu_base.specs.declared.address.Addr.{Addr};
ghost use Rattle.eu_base.specs.declared.value.TheConstants.{OPERAND_BYTES};
ghost use Rattle.code_form.specs.declared.operand.Operand.{Operand};
ghost use Rattle.code_form.specs.declared.operand.Operand.TheVariants as operand;
ghost use Rattle.code_form.specs.Machine.{bytes_on, bytes_of, base_of};
ghost use Rattle.zero_state.specs.Finds.{TopValue, TopPlace};
ghost use Rattle.zero_state.specs.Stacked.{linked, frames_of};

use code_form::Operand;
use eu_base::{Addr, CELL_BYTES, List, NoMemory, OPERAND_BYTES, Value};
use std::alloc::Global;
use std::marker::Model;
use std::mem;

/// Where a live call or refinement was made.
#[derive(Clone, Copy, PartialEq, Eq)]
pub struct Link {
    /// The instruction to which it returns.
    pub back: usize,
    /// Its first cell; that of the frame below for a refinement.
    pub base: usize,
    /// The cells that were in use before it.
    pub used: usize,
    pub refines: bool,
    /// The number of its body.
    pub body: usize,
}

/// A live call or refinement.
#[derive(Drop)]
pub struct Frame {
    pub link: Link,
    /// What is pending in the frame below, the newest last.
    pub operands: List<Operand>,
}

/// The pending operands of all frames, and the frames.
#[derive(Drop)]
pub struct Stack {
    /// What is pending in the innermost frame, the newest last.
    operands: List<Operand>,
    /// The live calls and refinements, the innermost last.
    frames: List<Frame>,
    /// The bytes of all that is pending.
    bytes: usize,
}

impl Model for Stack {
    ghost use Rattle.std.specs.Prelude.{◌≡◌, reverse};
    ghost use Rattle.code_form.specs.Machine.{bytes_on, bytes_of};
    ghost use Rattle.zero_state.specs.Stacked.{Stacked, frames_of};

    ghost Value = { Stacked };

    ghost view = { λ s. record { ops = reverse s.operands; frames = frames_of s.frames } };

    ghost invariant = { λ s. s.bytes ≡ bytes_on (reverse s.operands) (bytes_of (frames_of s.frames)) };
}

impl Stack {
    /// Nothing is pending, and no frame is live.
    pub fn new(alloc: Global) -> Stack
        ensures { result ≡ record { ops = []; frames = [] } }
    {
        Stack {
            operands: List::new(alloc),
            frames: List::new(alloc),
            bytes: 0,
        }
    }

    /// The live calls and refinements, the innermost last.
    pub fn frames(&self) -> &[Frame]
        ensures { frames_of result.now ≡ self.now.frames }
    {
        self.frames.as_slice()
    }

    /// What is pending in the innermost frame, the newest last.
    pub fn operands(&self) -> &[Operand]
        ensures { reverse result.now ≡ self.now.ops }
    {
        self.operands.as_slice()
    }

    /// Whether there is room for an operand more.
    pub fn has_room(&self, operand: &Operand) -> bool
        requires { bytes_fit (bytes_on self.now.ops (bytes_of self.now.frames)) ≡ true }
        ensures { result ≡ bytes_fit (bytes_on (operand.now ∷ self.now.ops) (bytes_of self.now.frames)) }
    {
        operand.bytes() <= OPERAND_BYTES as usize - self.bytes
    }

    /// Whether there is room for a value in place of the place on top.
    pub fn has_room_in_place(&self, value: &Value) -> bool
        requires bytes { bytes_fit (bytes_on self.now.ops (bytes_of self.now.frames)) ≡ true }
        requires place { TopPlace self.now.ops }
        ensures { (place : Addr) (rest : List Operand) → self.now.ops ≡ operand.Place place ∷ rest →
            result ≡ bytes_fit (bytes_on (operand.Value value.now ∷ rest) (bytes_of self.now.frames)) }
    {
        match value {
            Value::Int(_) | Value::Truth(_) | Value::Task(_) | Value::Space(_) => true,
            Value::Text(text) => text.as_slice().len() <= OPERAND_BYTES as usize - self.bytes,
        }
    }

    /// How many bytes have room in place of the place on top.
    pub fn room_in_place(&self) -> usize
        requires bytes { bytes_fit (bytes_on self.now.ops (bytes_of self.now.frames)) ≡ true }
        requires place { TopPlace self.now.ops }
        ensures { (place : Addr) (rest : List Operand) → self.now.ops ≡ operand.Place place ∷ rest →
            result + bytes_on rest (bytes_of self.now.frames) ≡ OPERAND_BYTES }
    {
        OPERAND_BYTES as usize - self.bytes + CELL_BYTES
    }

    // The bytes that are pending without the newest operands.
    fn bytes_behind(&self, count: usize) -> usize
        requires { count ≤ length self.now.ops }
        ensures { result ≡ bytes_on (drop count self.now.ops) (bytes_of self.now.frames) }
    {
        let kept = self.operands.len() - count;
        bytes_without(self.bytes, &self.operands.as_slice()[kept..])
    }

    /// Whether there is room for an operand in place of the newest ones.
    pub fn has_room_behind(&self, count: usize, operand: &Operand) -> bool
        requires few { count ≤ length self.now.ops }
        requires bytes { bytes_fit (bytes_on self.now.ops (bytes_of self.now.frames)) ≡ true }
        ensures { result ≡ bytes_fit (bytes_on (operand.now ∷ drop count self.now.ops) (bytes_of self.now.frames)) }
    {
        match operand.bytes().checked_add(self.bytes_behind(count)) {
            Some(bytes) => bytes <= OPERAND_BYTES as usize,
            None => false,
        }
    }

    /// Pushes an operand that has room.
    // Inlined, as `replace_top`: where it is known which operand it is, nothing is asked of it.
    #[inline(always)]
    pub fn push(&mut self, operand: Operand) -> Result<(), NoMemory>
        requires { bytes_fit (bytes_on (operand ∷ self.old.ops) (bytes_of self.old.frames)) ≡ true }
        ensures { OnOk result (self.new ≡ record self.old { ops = operand ∷ self.old.ops }) }
    {
        let bytes = operand.bytes();
        self.operands.push(operand)?;
        self.bytes += bytes;
        Ok(())
    }

    /// Takes the operand on top.
    pub fn pop(&mut self) -> Operand
        requires { 1 ≤ length self.old.ops }
        ensures { self.old ≡ record self.new { ops = result ∷ self.new.ops } }
    {
        match self.operands.pop() {
            Some(operand) => {
                self.bytes -= operand.bytes();
                operand
            }
            None => unreachable!(),
        }
    }

    /// Takes the value of one cell on top.
    pub fn pop_value(&mut self) -> Value
        requires { TopValue self.old.ops }
        ensures { self.old ≡ record self.new { ops = operand.Value result ∷ self.new.ops } }
    {
        match self.operands.pop() {
            Some(Operand::Value(value)) => {
                self.bytes -= value.bytes();
                value
            }
            _ => unreachable!(),
        }
    }

    /// Takes the place on top.
    pub fn pop_place(&mut self) -> Addr
        requires { TopPlace self.old.ops }
        ensures { self.old ≡ record self.new { ops = operand.Place result ∷ self.new.ops } }
    {
        match self.operands.pop() {
            Some(Operand::Place(place)) => {
                self.bytes -= CELL_BYTES;
                place
            }
            _ => unreachable!(),
        }
    }

    /// Puts an operand that has room in the place of the one on top.
    #[inline(always)]
    pub fn replace_top(&mut self, operand: Operand)
        requires top { 1 ≤ length self.old.ops }
        requires room { bytes_fit (bytes_on (operand ∷ drop 1 self.old.ops) (bytes_of self.old.frames)) ≡ true }
        ensures { self.new ≡ record self.old { ops = operand ∷ drop 1 self.old.ops } }
    {
        let at = self.operands.len() - 1;
        let left = bytes_without(self.bytes, &self.operands.as_slice()[at..]);
        self.bytes = left + operand.bytes();
        self.operands.set(at, operand);
    }

    /// Puts a place in the stead of the one on top.
    pub fn replace_place(&mut self, place: Addr)
        requires { TopPlace self.old.ops }
        ensures { self.new ≡ record self.old { ops = operand.Place place ∷ drop 1 self.old.ops } }
    {
        let at = self.operands.len() - 1;
        self.operands.set(at, Operand::Place(place));
    }

    /// The newest operands, the newest last.
    pub fn top(&self, count: usize) -> &[Operand]
        requires { count ≤ length self.now.ops }
        ensures { result.now ≡ reverse (take count self.now.ops) }
    {
        let kept = self.operands.len() - count;
        &self.operands.as_slice()[kept..]
    }

    /// Drops the newest operands.
    pub fn drop_top(&mut self, count: usize)
        requires { count ≤ length self.old.ops }
        ensures { self.new ≡ record self.old { ops = drop count self.old.ops } }
    {
        let kept = self.operands.len() - count;
        self.bytes = bytes_without(self.bytes, &self.operands.as_slice()[kept..]);
        self.operands.truncate(kept);
    }

    /// Takes the newest operands, and makes a frame.
    pub fn enter(&mut self, alloc: Global, link: Link, count: usize) -> Result<(), NoMemory>
        requires { count ≤ length self.old.ops }
        ensures { OnOk result (self.new ≡ record { ops = []; frames = linked link (drop count self.old.ops) ∷ self.old.frames }) }
    {
        self.drop_top(count);
        let at = self.frames.len();
        let none = List::new(alloc);
        self.frames.push(Frame {
            link,
            operands: none,
        })?;
        let operands = mem::replace(&mut self.operands, List::new(alloc));
        self.frames.set(at, Frame { link, operands });
        Ok(())
    }

    /// Leaves the innermost frame; `None` exactly where there is none.
    pub fn leave(&mut self) -> Option<Link>
        ensures { MatchOption result (self.old.frames ≡ []) (λ link. self.old.frames ≡ linked link self.new.ops ∷ self.new.frames) }
    {
        let Frame { link, operands } = self.frames.pop()?;
        self.bytes = bytes_without(self.bytes, self.operands.as_slice());
        self.operands = operands;
        Some(link)
    }

    /// The first cell of the innermost frame.
    pub fn base(&self) -> usize
        ensures { result ≡ base_of self.now.frames }
    {
        match self.frames.as_slice().last() {
            Some(frame) => frame.link.base,
            None => 0,
        }
    }
}

// The bytes that are left where these operands, which are counted among them, are gone.
fn bytes_without(bytes: usize, operands: &[Operand]) -> usize
    requires { bytes_on operands.now 0 ≤ bytes }
    ensures { bytes ≡ result + bytes_on operands.now 0 }
{
    let mut left = bytes;
    for operand in operands {
        left -= operand.bytes();
    }
    left
}
