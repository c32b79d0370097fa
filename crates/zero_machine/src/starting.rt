//! The start of a command.
ghost use Rattle.std.specs.Prelude.{◌≡◌, ◌≤◌, ◌<◌, ◌+◌, ◌-◌, ◌^◌, ◌&&◌, [], ◌∷◌, min, ℕ, List, length, true, cond, IfOk, OnOk, Some, slice_get};
ghost use Rattle.eu_base.specs.declared.value.Kind.{Kind as Kinds};
ghost use Rattle.eu_base.specs.declared.value.Kind.TheVariants as kinds;
ghost use Rattle.eu_base.specs.Room.{cells_fit};
ghost use Rattle.eu_base.specs.Cells.{Cells, AreBare, HasFaultCause};
ghost use Rattle.eu_base.specs.SpaceCells.{IsThere};
ghost use Rattle.cell_kinds.specs.Kinds.{packet_kinds};
ghost use Rattle.eu_base.specs.declared.address.Area.TheVariants as areas;
ghost use Rattle.eu_base.specs.declared.stop.Stop.TheVariants as stop;
ghost use Rattle.code_form.specs.declared.waits.Waits.TheVariants as waits;
ghost use Rattle.code_form.specs.Program.{start_kinds, call_kinds, layout_of};
ghost use Rattle.code_form.specs.Machine.{start, start_frames, made_in, made, CanBeMade};
ghost use Rattle.code_form.specs.Valid.{Fits, IsStarted};
ghost use Rattle.zero_state.specs.Stepping.{control_of};

use crate::write_variables;
use cell_kinds::{CellKinds, Packet};
use code_form::{Code, Layout, Start, Waits};
use eu_base::{Area, CELLS, Kind, MemFault, Memory, NoMemory, Shape, Stop};
use std::alloc::Global;
use zero_state::{Link, Stack, State};

/// Starts a command: the variables of its level are made, or the frame of a start procedure, and behind those of the packets of the task
/// the variables of the packet that is inserted, each where they have room; and nothing is pending. Where some have none, it stops at once.
pub fn start<M: Memory>(alloc: Global, code: &Code, m: &mut M) -> Result<State, MemFault>
    ensures control { IfOk result (λ s. control_of s ≡ start code.now) }
    ensures fits { IfOk result (λ s. Fits code.now (control_of s)) }
    ensures made { OnOk result ((cells : Cells) → M.holds m.old cells → CanBeMade code.now cells → M.holds m.new (made code.now cells)) }
    ensures heads { M.heads m.new ≡ M.heads m.old }
    ensures cause { HasFaultCause (M.faults m.old) (M.faults m.new) result }
    ensures follows { M.follows m.old m.new }
{
    let first = first_kinds(alloc, code)?;
    let own = make_variables(alloc, m, Area::Run, 0, &first)?;
    let before = cells_before(code.packets());
    let inserted = make_variables(alloc, m, Area::Packets, before, code.inserted())?;
    Ok(State {
        alloc,
        pc: 0,
        stack: first_stack(alloc, code.start())?,
        used: first.len(),
        waits: unless_full(own, inserted),
    })
}

// The kinds of the cells that are made in the run's area.
fn first_kinds(alloc: Global, code: &Code) -> Result<CellKinds, NoMemory>
    ensures { IfOk result (λ kinds. kinds ≡ start_kinds code.now) }
{
    match code.start() {
        None => code.variables().try_clone(alloc),
        Some(start) => call_kinds(alloc, called_variables(code, start)),
    }
}

// The kinds of the variables of the PROC in whose call a command starts.
fn called_variables(code: &Code, start: Start) -> &CellKinds
    requires { IsStarted code.now start }
    ensures { call_kinds (layout_of (slice_get code.now.bodies start.body)) ≡ kinds.Int ∷ kinds.Int ∷ result.now }
{
    match &code.bodies()[start.body].layout {
        Layout::Own {
            parameters: _,
            variables,
        } => variables,
        _ => unreachable!(),
    }
}

// Those of the cells of its call: two numbers, and its variables.
fn call_kinds(alloc: Global, variables: &CellKinds) -> Result<CellKinds, NoMemory>
    ensures { IfOk result (λ made. made ≡ kinds.Int ∷ kinds.Int ∷ variables.now) }
{
    let mut made = CellKinds::new(alloc);
    made.push(Shape::Cell(Kind::Int))?;
    made.push(Shape::Cell(Kind::Int))?;
    for shape in variables.shapes() {
        made.push(shape.try_clone(alloc)?)?;
    }
    Ok(made)
}

// The live call of a start procedure.
fn first_stack(alloc: Global, start: Option<Start>) -> Result<Stack, NoMemory>
    ensures { IfOk result (λ stack. stack ≡ record { ops = []; frames = start_frames start }) }
{
    let mut stack = Stack::new(alloc);
    if let Some(start) = start {
        let link = Link {
            back: start.back,
            base: 2,
            used: 0,
            refines: false,
            body: start.body,
        };
        stack.enter(alloc, link, 0)?;
    }
    Ok(stack)
}

// A command is refused where cells of its own or of the packet that is inserted have no room.
fn unless_full(own: bool, inserted: bool) -> Waits
    ensures { result ≡ cond (own && inserted) waits.Nothing (waits.Refused stop.CellRoom) }
{
    if own && inserted {
        Waits::Nothing
    } else {
        Waits::Refused(Stop::CellRoom)
    }
}

// The cells of packets. More than can be counted have no room anyway.
fn cells_before(packets: &[Packet]) -> usize
    ensures { result ≡ min (length (packet_kinds packets.now)) (2 ^ 64 - 1) }
{
    let mut cells = 0usize;
    for packet in packets {
        cells = cells.saturating_add(packet.variables.len());
    }
    cells
}

// Makes variables in the cells of an area from one on, and answers whether they have room.
fn make_variables<M: Memory>(
    alloc: Global,
    m: &mut M,
    area: Area,
    at: usize,
    variables: &CellKinds,
) -> Result<bool, MemFault>
    requires { IsThere (M.heads m.old) area }
    ensures fits { IfOk result (λ fits. fits ≡ cells_fit (at + length variables.now)) }
    ensures made { OnOk result ((cells : Cells) → M.holds m.old cells →
        (cells_fit (at + length variables.now) ≡ true → AreBare area at (length variables.now) cells) →
        M.holds m.new (made_in area at variables.now cells)) }
    ensures heads { M.heads m.new ≡ M.heads m.old }
    ensures cause { HasFaultCause (M.faults m.old) (M.faults m.new) result }
    ensures follows { M.follows m.old m.new }
{
    if at.saturating_add(variables.len()) > usize::from(CELLS) {
        return Ok(false);
    }
    write_variables(alloc, m, area, at, variables.shapes())?;
    Ok(true)
}
