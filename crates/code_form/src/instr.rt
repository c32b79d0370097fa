//! Instructions.

use eu_base::{Bytes, Change, Operation, RequestName, Shape, SpaceOperation, Way};

/// What one step of the machine does. A jump names the number of the instruction that it goes to.
#[derive(Drop)]
pub enum Instr {
    /// Spends a mark.
    Mark,
    /// Pushes a number.
    Number(i16),
    /// Pushes a truth value.
    Truth(bool),
    /// Pushes a text. It is listed by its number among the texts of the code.
    Text(Bytes),
    /// Pushes the place of a variable of the level.
    Outer(usize),
    /// Pushes the place of a cell of packets, by its number among the cells of all of them, one packet behind the other. It is listed by the
    /// number of its packet and its number there.
    Packet(usize),
    /// Pushes the place of a cell of the frame, by its number there.
    Local(usize),
    /// Pushes the place that a cell of the frame holds, by its number there.
    Param(usize),
    /// Takes a number i and the place below it, where a row of so many items of so many cells begins, and pushes the place of item i.
    /// Where i is none of 1 to the number of items, or the area has no such cell, the command stops.
    Index(u16, u16),
    /// Takes a place, and pushes the place so many cells further on. Where the area has no such cell, the command stops.
    Field(u16),
    /// Takes the place of a BOUND variable, and pushes the place where the content of its data space begins.
    Content,
    /// Takes a number i and the value below it, a row of so many items of so many cells, and pushes item i. Where i is none of 1 to the
    /// number of items, the command stops.
    Pick(u16, u16),
    /// Takes a value of so many cells, and pushes, from one of them on, so many.
    Take(u16, u16, u16),
    /// Takes a place, and pushes the value of a shape there.
    Load(Shape),
    /// Takes a value of a shape and the place below it, and stores the value there.
    Store(Shape),
    /// Takes operands, and pushes the result.
    Do(Operation),
    /// Takes operands, does what the call does with the data spaces, and pushes what it delivers, if it does. It is listed as `DO`.
    OnSpaces(SpaceOperation),
    /// Takes a data space and the place of a DATASPACE variable below it, and gives the variable a copy.
    Copy,
    /// Takes a data space and the place of a BOUND variable below it, and binds the variable to the data space, whose content has a shape
    /// then.
    Bind(Shape),
    /// Takes a value and the place below it, and changes the value there by it. It is listed as `DO`.
    Modify(Change),
    /// Jumps.
    Jump(usize),
    /// Takes a truth value, and jumps where it is FALSE.
    False(usize),
    /// Where the number on top is this one, takes it and jumps.
    When(i16, usize),
    /// Takes the value on top.
    Drop,
    /// Takes a number and the place below it, keeps the number as limit of a loop, and jumps where the
    /// number at the place is past it.
    Limit(Way, usize),
    /// Drops the innermost limit.
    Unlimit,
    /// Takes a place, and jumps where the number there has reached the innermost limit; else steps it.
    Step(Way, usize),
    /// Spends a mark and makes a request with the operands on top, which it takes once the reply is there; that
    /// goes into the variable of the request.
    Ask(RequestName),
    /// Takes a text, and stops the command with it. It is listed as `DO`.
    ErrorStop,
    /// Spends a mark, and goes to the PROC with this number, whose parameters it takes, with a new frame.
    Call(usize),
    /// Spends a mark, and goes to the refinement with this number, with a new frame over the same cells.
    Refer(usize),
    /// Leaves the frame, and takes the value on top with it where there is one of a shape.
    Back(Option<Shape>),
    /// Leaves the frames of refinements and that of their PROC, as `Back` does.
    Out(Option<Shape>),
    /// Ends the command.
    End,
}
