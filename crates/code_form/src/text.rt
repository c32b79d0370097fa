//! Code as text.
ghost use Rattle.std.specs.Prelude.{◌≡◌, ◌++◌, IfOk, OnOk, map, flat_map, length, slice_get, codes};
ghost use Rattle.std.specs.Fmt.{decimal, signed_decimal};
ghost use Rattle.code_form.specs.Listing.{truth_word, kind_word, listed, shape_text, way_word, operation_word, operation_name, text_operation_name, space_operation_name, change_name, request_name, first_of, cells_of_frame, cell_in_packet, packet_text, start_text, instr_text, texts_with};
ghost use Rattle.code_form.specs.Listing.{line_text, listing_text};
ghost use Rattle.code_form.specs.Program.{cell_uses, cells_of};

use crate::code::{Code, Entry, Layout};
use crate::instr::Instr;
use crate::operand::OperandKind;
use cell_kinds::{Packet, count};
use eu_base::{
    Bytes, Change, Kind, NoMemory, Operation, RequestName, Shape, SpaceOperation, TextOperation,
    Way,
};
use itoa::Buffer;
use std::alloc::Global;

/// A line for each instruction: its number, its word, and each argument, with blanks between them.
pub fn listing(alloc: Global, code: &Code) -> Result<Bytes, NoMemory>
    ensures { IfOk result (λ text. text ≡ listing_text code.now) }
{
    let mut out = Bytes::new(alloc);
    let mut texts = 0usize;
    for (number, line) in code.lines().iter().enumerate() {
        append_line(
            &mut out,
            code.packets(),
            code.bodies(),
            texts,
            number,
            &line.instr,
        )?;
        texts = texts_with(texts, &line.instr)?;
    }
    Ok(out)
}

// How many texts stand up to an instruction.
fn texts_with(texts: usize, instr: &Instr) -> Result<usize, NoMemory>
    ensures { IfOk result (λ count. count ≡ texts_with texts instr.now) }
{
    match instr {
        Instr::Text(_) => texts.checked_add(1).ok_or(NoMemory),
        _ => Ok(texts),
    }
}

fn append_line(
    out: &mut Bytes,
    packets: &[Packet],
    bodies: &[Entry],
    texts: usize,
    number: usize,
    instr: &Instr,
) -> Result<(), NoMemory>
    ensures { OnOk result (out.new ≡ out.old ++ line_text packets.now bodies.now texts number instr.now) }
{
    append_number(out, number)?;
    out.append(b" ")?;
    append_instr(out, packets, bodies, texts, instr)?;
    out.append(b"\n")?;
    Ok(())
}

// An arm an instruction, so it is as long as there are instructions.
fn append_instr(
    out: &mut Bytes,
    packets: &[Packet],
    bodies: &[Entry],
    texts: usize,
    instr: &Instr,
) -> Result<(), NoMemory>
    ensures { OnOk result (out.new ≡ out.old ++ instr_text packets.now bodies.now texts instr.now) }
{
    match instr {
        Instr::Mark => out.append(b"MARK"),
        Instr::Number(value) => {
            out.append(b"INT ")?;
            append_signed(out, *value)
        }
        Instr::Truth(value) => {
            out.append(b"BOOL ")?;
            out.append(truth_word(*value))
        }
        Instr::Text(_) => append_with(out, b"TEXT ", texts),
        Instr::Outer(cell) => append_with(out, b"OUTER ", *cell),
        Instr::Packet(cell) => append_packet(out, cell_in_packet(packets, *cell)),
        Instr::Local(cell) => append_with(out, b"LOCAL ", *cell),
        Instr::Param(cell) => append_with(out, b"PARAM ", *cell),
        Instr::Index(count, cells) => {
            append_with(out, b"INDEX ", usize::from(*count))?;
            append_with(out, b" ", usize::from(*cells))
        }
        Instr::Field(cells) => append_with(out, b"FIELD ", usize::from(*cells)),
        Instr::Content => out.append(b"CONTENT"),
        Instr::Pick(count, cells) => {
            append_with(out, b"PICK ", usize::from(*count))?;
            append_with(out, b" ", usize::from(*cells))
        }
        Instr::Take(of, from, cells) => {
            append_with(out, b"TAKE ", usize::from(*of))?;
            append_with(out, b" ", usize::from(*from))?;
            append_with(out, b" ", usize::from(*cells))
        }
        Instr::Load(shape) => {
            out.append(b"LOAD ")?;
            append_shape(out, shape)
        }
        Instr::Store(shape) => {
            out.append(b"STORE ")?;
            append_shape(out, shape)
        }
        Instr::Do(operation) => {
            out.append(operation_word(*operation))?;
            out.append(operation_name(*operation))
        }
        Instr::OnSpaces(operation) => {
            out.append(b"DO ")?;
            out.append(space_operation_name(*operation))
        }
        Instr::Copy => out.append(b"COPY"),
        Instr::Bind(shape) => {
            out.append(b"BIND ")?;
            append_shape(out, shape)
        }
        Instr::Modify(change) => {
            out.append(b"DO ")?;
            out.append(change_name(*change))
        }
        Instr::Jump(to) => append_with(out, b"JUMP ", *to),
        Instr::False(to) => append_with(out, b"FALSE ", *to),
        Instr::When(label, to) => {
            out.append(b"WHEN ")?;
            append_signed(out, *label)?;
            append_with(out, b" ", *to)
        }
        Instr::Drop => out.append(b"DROP"),
        Instr::Limit(way, to) => {
            out.append(b"LIMIT ")?;
            out.append(way_word(*way))?;
            append_with(out, b" ", *to)
        }
        Instr::Unlimit => out.append(b"UNLIMIT"),
        Instr::Step(way, to) => {
            out.append(way_word(*way))?;
            append_with(out, b" ", *to)
        }
        Instr::Ask(name) => {
            out.append(b"ASK ")?;
            out.append(request_name(*name))?;
            append_start(out, packets, *name)
        }
        Instr::ErrorStop => out.append(b"DO errorstop"),
        Instr::Call(body) => {
            append_with(out, b"CALL ", first_of(bodies, *body))?;
            append_with(out, b" ", cells_of_frame(bodies, *body)?)
        }
        Instr::Refer(body) => append_with(out, b"REFER ", first_of(bodies, *body)),
        Instr::Back(_) => out.append(b"BACK"),
        Instr::Out(_) => out.append(b"OUT"),
        Instr::End => out.append(b"END"),
    }
}

// The number of the packet that has a cell, and the cell's number there. The packet that is inserted stands behind the others, by 0.
fn cell_in_packet(packets: &[Packet], cell: usize) -> (u32, usize)
    ensures { result ≡ cell_in_packet packets.now cell }
{
    let mut rest = cell;
    for packet in packets {
        let cells = packet.variables.len();
        if rest < cells {
            return (packet.number, rest);
        }
        rest -= cells;
    }
    (0, rest)
}

// The number of a packet, and a number there.
fn append_at(out: &mut Bytes, at: (u32, usize)) -> Result<(), NoMemory>
    ensures { OnOk result (out.new ≡ out.old ++ packet_text at) }
{
    let (packet, number) = at;
    append_number(out, packet as usize)?;
    out.append(b" ")?;
    append_number(out, number)
}

fn append_packet(out: &mut Bytes, at: (u32, usize)) -> Result<(), NoMemory>
    ensures { OnOk result (out.new ≡ out.old ++ (codes "PACK " ++ packet_text at)) }
{
    out.append(b"PACK ")?;
    append_at(out, at)
}

// The start procedure of a request, where it has one.
fn append_start(out: &mut Bytes, packets: &[Packet], name: RequestName) -> Result<(), NoMemory>
    ensures { OnOk result (out.new ≡ out.old ++ start_text packets.now name) }
{
    match name {
        RequestName::Begin(start) => {
            append_at(out, Packet::of_body(packets, start))?;
            out.append(b",TASK)")
        }
        _ => Ok(()),
    }
}

// Where a body begins.
fn first_of(bodies: &[Entry], body: usize) -> usize
    ensures { result ≡ first_of (slice_get bodies.now body) }
{
    match bodies.get(body) {
        Some(entry) => entry.first,
        None => 0,
    }
}

// How many cells a body's frame has for its parameters and variables.
fn cells_of_frame(bodies: &[Entry], body: usize) -> Result<usize, NoMemory>
    ensures { IfOk result (λ cells. cells ≡ cells_of_frame (slice_get bodies.now body)) }
{
    match bodies.get(body) {
        Some(entry) => cells_of(&entry.layout),
        None => Ok(0),
    }
}

fn cells_of(layout: &Layout) -> Result<usize, NoMemory>
    ensures { IfOk result (λ cells. cells ≡ length (cells_of layout.now)) }
{
    match layout {
        Layout::Own {
            parameters,
            variables,
        } => cells_of_all(parameters.as_slice())?
            .checked_add(variables.len())
            .ok_or(NoMemory),
        Layout::Of(_) | Layout::Level => Ok(0),
    }
}

fn cells_of_all(parameters: &[OperandKind]) -> Result<usize, NoMemory>
    ensures { IfOk result (λ cells. cells ≡ length (flat_map cell_uses parameters.now)) }
{
    let mut cells = 0usize;
    for parameter in parameters {
        cells = cells.checked_add(cells_of_one(parameter)?).ok_or(NoMemory)?;
    }
    Ok(cells)
}

fn cells_of_one(parameter: &OperandKind) -> Result<usize, NoMemory>
    ensures { IfOk result (λ cells. cells ≡ length (cell_uses parameter.now)) }
{
    match parameter {
        OperandKind::Value(shape) => count(shape).ok_or(NoMemory),
        OperandKind::Place(_) => Ok(1),
    }
}

// A word and a number.
fn append_with(out: &mut Bytes, word: &[u8], number: usize) -> Result<(), NoMemory>
    ensures { OnOk result (out.new ≡ out.old ++ (word.now ++ decimal number)) }
{
    out.append(word)?;
    append_number(out, number)?;
    Ok(())
}

fn append_number(out: &mut Bytes, number: usize) -> Result<(), NoMemory>
    ensures { OnOk result (out.new ≡ out.old ++ decimal number) }
{
    let mut buffer = Buffer::new();
    out.append(buffer.format(number).as_bytes())?;
    Ok(())
}

fn append_signed(out: &mut Bytes, number: i16) -> Result<(), NoMemory>
    ensures { OnOk result (out.new ≡ out.old ++ signed_decimal number) }
{
    let mut buffer = Buffer::new();
    out.append(buffer.format(number).as_bytes())?;
    Ok(())
}

fn truth_word(value: bool) -> &'static [u8]
    ensures { result.now ≡ truth_word value }
{
    if value { b"TRUE" } else { b"FALSE" }
}

fn kind_word(kind: Kind) -> &'static [u8]
    ensures { result.now ≡ kind_word kind }
{
    match kind {
        Kind::Int => b"INT",
        Kind::Truth => b"BOOL",
        Kind::Text => b"TEXT",
        Kind::Task => b"TASK",
        Kind::Space => b"DATASPACE",
    }
}

// A shape, with commas and no blanks between its parts.
#[cycle(shapes)]
fn append_shape(out: &mut Bytes, shape: &Shape) -> Result<(), NoMemory>
    ensures { OnOk result (out.new ≡ out.old ++ shape_text shape.now) }
{
    match shape {
        Shape::Cell(kind) => out.append(kind_word(*kind)),
        Shape::Row(count, of) => {
            append_with(out, b"ROW ", usize::from(*count))?;
            out.append(b" ")?;
            append_shape(out, of.get())
        }
        Shape::Struct(parts) => {
            out.append(b"STRUCT(")?;
            append_shapes(out, parts.as_slice())?;
            out.append(b")")
        }
    }
}

#[cycle(shapes)]
fn append_shapes(out: &mut Bytes, shapes: &[Shape]) -> Result<(), NoMemory>
    ensures { OnOk result (out.new ≡ out.old ++ listed (map shape_text shapes.now)) }
{
    for (index, shape) in shapes.iter().enumerate() {
        if index > 0 {
            out.append(b",")?;
        }
        append_shape(out, shape)?;
    }
    Ok(())
}

fn way_word(way: Way) -> &'static [u8]
    ensures { result.now ≡ way_word way }
{
    match way {
        Way::Up => b"UP",
        Way::Down => b"DOWN",
    }
}

// The word before the name: niltask and nilspace are the nil values of their types, and all else is done.
fn operation_word(operation: Operation) -> &'static [u8]
    ensures { result.now ≡ operation_word operation }
{
    match operation {
        Operation::NoTask | Operation::NilSpace => b"NIL ",
        _ => b"DO ",
    }
}

fn operation_name(operation: Operation) -> &'static [u8]
    ensures { result.now ≡ operation_name operation }
{
    match operation {
        Operation::Plus | Operation::Add => b"+",
        Operation::Negate | Operation::Subtract => b"-",
        Operation::Multiply => b"*",
        Operation::Divide => b"DIV",
        Operation::Modulo => b"MOD",
        Operation::Equal | Operation::Same | Operation::SameTask => b"=",
        Operation::Unequal | Operation::Different | Operation::OtherTask => b"<>",
        Operation::Less => b"<",
        Operation::LessEqual => b"<=",
        Operation::Greater => b">",
        Operation::GreaterEqual => b">=",
        Operation::And => b"AND",
        Operation::Or => b"OR",
        Operation::Not => b"NOT",
        Operation::Absolute => b"abs",
        Operation::Minimum => b"min",
        Operation::Maximum => b"max",
        Operation::Largest => b"maxint",
        Operation::NoTask => b"TASK",
        Operation::NilSpace => b"DATASPACE",
        Operation::OnTexts(operation) => text_operation_name(operation),
    }
}

fn text_operation_name(operation: TextOperation) -> &'static [u8]
    ensures { result.now ≡ text_operation_name operation }
{
    match operation {
        TextOperation::Join => b"+",
        TextOperation::Repeat => b"*",
        TextOperation::Equal => b"=",
        TextOperation::Unequal => b"<>",
        TextOperation::Less => b"<",
        TextOperation::LessEqual => b"<=",
        TextOperation::Greater => b">",
        TextOperation::GreaterEqual => b">=",
        TextOperation::ByteAt => b"SUB",
        TextOperation::Length => b"LENGTH",
        TextOperation::PlaceOf => b"pos",
        TextOperation::Subtext | TextOperation::SubtextFrom => b"subtext",
        TextOperation::CodeOf | TextOperation::TextOfCode => b"code",
        TextOperation::TextOfNumber => b"text",
        TextOperation::NumberIn => b"int",
    }
}

fn change_name(change: Change) -> &'static [u8]
    ensures { result.now ≡ change_name change }
{
    match change {
        Change::Increase => b"INCR",
        Change::Decrease => b"DECR",
        Change::Append => b"CAT",
    }
}

fn space_operation_name(operation: SpaceOperation) -> &'static [u8]
    ensures { result.now ≡ space_operation_name operation }
{
    match operation {
        SpaceOperation::KindOf | SpaceOperation::SetKind => b"type",
        SpaceOperation::New => b"new",
        SpaceOperation::Old => b"old",
        SpaceOperation::IsNamed => b"exists",
        SpaceOperation::Forget | SpaceOperation::ForgetNamed => b"forget",
        SpaceOperation::Rename => b"rename",
        SpaceOperation::CopyNamed => b"copy",
    }
}

fn request_name(name: RequestName) -> &'static [u8]
    ensures { result.now ≡ request_name name }
{
    match name {
        RequestName::PutNumber => b"put(INT)",
        RequestName::PutText => b"put(TEXT)",
        RequestName::Write => b"write(TEXT)",
        RequestName::PutLine => b"putline(TEXT)",
        RequestName::Line => b"line",
        RequestName::GetNumber => b"get(INT)",
        RequestName::GetText => b"get(TEXT)",
        RequestName::GetLine => b"getline(TEXT)",
        RequestName::Myself => b"myself",
        RequestName::Father => b"father",
        RequestName::FatherOf => b"father(TASK)",
        RequestName::Son => b"son(TASK)",
        RequestName::Brother => b"brother(TASK)",
        RequestName::Named => b"task(TEXT)",
        RequestName::NameOf => b"name(TASK)",
        RequestName::Exists => b"exists(TASK)",
        RequestName::Begin(_) => b"begin(TEXT,PROC ",
        RequestName::EndOf => b"end(TASK)",
        RequestName::End => b"end",
        RequestName::Break => b"break",
        RequestName::Send => b"send(TASK,INT,DATASPACE,INT)",
        RequestName::Wait => b"wait(DATASPACE,INT,TASK)",
        RequestName::Call => b"call(TASK,INT,DATASPACE,INT)",
    }
}
