//! Types.

ghost use Rattle.std.specs.Prelude.{◌≡◌, ◌<◌, IfOk, SomeIff, length, map, sum};
ghost use Rattle.std.specs.List.{list_any};
ghost use Rattle.elan_types.specs.Types.{are_same, cells, cells_of_field, concrete, field, field_from, field_has_own, field_shape, has_own, is_too_large, items, nodes, nodes_of_field, formal_of, is_open, is_own, is_own_from, same_field, same_type, shape_in, type_in};
ghost use Rattle.elan_types.specs.Typing.{cells_of};

use crate::core_phrase::{Access, Formal};
use eu_base::{Boxed, Bytes, Kind, List, NoMemory, Shape, Shared};
use std::alloc::Global;

/// A type, with its names resolved. Two types are equal where they are the same tree. What stands in a type may have several
/// owners, so that a copy takes no memory, however large the type is.
#[cycle(types)]
#[derive(Drop)]
pub enum ElanType {
    /// `INT`, a number of 16 bits.
    Int,
    /// `BOOL`, a truth value.
    Bool,
    /// `TEXT`, a list of at most 16,000 bytes.
    Text,
    /// `TASK`, the number of a task.
    Task,
    /// `DATASPACE`, the number of a data space, or the nil space.
    Dataspace,
    /// `ROW size of`, so many items of one type.
    Row(u16, Shared<ElanType>),
    /// `STRUCT (fields)`, its fields in order.
    Struct(Shared<List<FieldType>>),
    /// A type that a text makes by TYPE: its number among the names of types that the packets of the task and the level declare, in
    /// this order, and its concrete type.
    Own(usize, Shared<ElanType>),
    /// What is written for it has no meaning.
    Open,
}

/// A field of a structure.
#[cycle(types)]
#[derive(Drop)]
pub struct FieldType {
    pub name: Bytes,
    pub of: ElanType,
}

/// A parameter, as a heading has it.
#[derive(Drop)]
pub struct Parameter {
    /// Its type.
    pub of: ElanType,
    /// What it holds.
    pub access: Access,
}

impl ElanType {
    /// Whether two types are the same.
    #[cycle(same)]
    pub fn is_same(&self, other: &ElanType) -> bool
        ensures { result ≡ same_type self.now other.now }
    {
        match (self, other) {
            (ElanType::Int, ElanType::Int)
            | (ElanType::Bool, ElanType::Bool)
            | (ElanType::Text, ElanType::Text)
            | (ElanType::Task, ElanType::Task)
            | (ElanType::Dataspace, ElanType::Dataspace)
            | (ElanType::Open, ElanType::Open) => true,
            (ElanType::Row(size, of), ElanType::Row(other, behind)) => {
                *size == *other && of.get().is_same(behind.get())
            }
            (ElanType::Struct(fields), ElanType::Struct(others)) => {
                same_fields(fields.get().as_slice(), others.get().as_slice())
            }
            (ElanType::Own(number, concrete), ElanType::Own(other, behind)) => {
                *number == *other && concrete.get().is_same(behind.get())
            }
            _ => false,
        }
    }

    /// Whether what is written for it has no meaning.
    pub fn is_open(&self) -> bool
        ensures { result ≡ is_open self.now }
    {
        match self {
            ElanType::Open => true,
            _ => false,
        }
    }

    /// Whether it is one of the text's own.
    pub fn is_own(&self) -> bool
        ensures { result ≡ is_own self.now }
    {
        match self {
            ElanType::Own(_, _) => true,
            _ => false,
        }
    }

    /// Whether it is one of the text's own that has this number or a greater one.
    pub fn is_own_from(&self, first: usize) -> bool
        ensures { result ≡ is_own_from first self.now }
    {
        match self {
            ElanType::Own(number, _) => first <= *number,
            _ => false,
        }
    }

    /// The type that stands behind one of the text's own; `None` exactly where it is none of these.
    pub fn concrete(&self) -> Result<Option<ElanType>, NoMemory>
        ensures { IfOk result (λ found. found ≡ concrete self.now) }
    {
        match self {
            ElanType::Own(_, concrete) => Ok(Some(concrete.get().try_clone()?)),
            _ => Ok(None),
        }
    }

    /// The size of a row, and the type of its items; `None` exactly where it is no row.
    pub fn items(&self) -> Result<Option<(u16, ElanType)>, NoMemory>
        ensures { IfOk result (λ found. found ≡ items self.now) }
    {
        match self {
            ElanType::Row(size, of) => Ok(Some((*size, of.get().try_clone()?))),
            _ => Ok(None),
        }
    }

    /// The field of this name, with the number of cells before it; `None` where it is no structure, or has no such field.
    pub fn field(&self, name: &[u8]) -> Result<Option<(u16, ElanType)>, NoMemory>
        ensures { IfOk result (λ found. found ≡ field self.now name.now) }
    {
        match self {
            ElanType::Struct(fields) => field_named(fields.get().as_slice(), name),
            _ => Ok(None),
        }
    }

    /// The type of what is predefined for cells of a kind.
    pub fn of_kind(kind: Kind) -> ElanType
        ensures { result ≡ type_in kind }
    {
        match kind {
            Kind::Int => ElanType::Int,
            Kind::Truth => ElanType::Bool,
            Kind::Text => ElanType::Text,
            Kind::Task => ElanType::Task,
            Kind::Space => ElanType::Dataspace,
        }
    }

    /// The shape of its values: names of fields are dropped, and types of the text's own are unfolded.
    #[cycle(shapes)]
    pub fn shape(&self, alloc: Global) -> Result<Shape, NoMemory>
        ensures { IfOk result (λ shape. shape ≡ shape_in self.now) }
    {
        match self {
            ElanType::Int => Ok(Shape::Cell(Kind::Int)),
            ElanType::Bool => Ok(Shape::Cell(Kind::Truth)),
            ElanType::Text => Ok(Shape::Cell(Kind::Text)),
            ElanType::Task => Ok(Shape::Cell(Kind::Task)),
            ElanType::Dataspace => Ok(Shape::Cell(Kind::Space)),
            ElanType::Row(size, of) => {
                let of = of.get().shape(alloc)?;
                Ok(Shape::Row(*size, Boxed::new(alloc, of)?))
            }
            ElanType::Struct(fields) => Ok(Shape::Struct(field_shapes(
                alloc,
                fields.get().as_slice(),
            )?)),
            ElanType::Own(_, concrete) => concrete.get().shape(alloc),
            ElanType::Open => Ok(Shape::Cell(Kind::Int)),
        }
    }

    /// The number of its cells; `None` exactly where they are more than 65,535. No type with meaning has more than 16,384.
    #[cycle(cells)]
    pub fn cells(&self) -> Option<u16>
        ensures { SomeIff result (cells self.now < 65536) (cells self.now) }
    {
        match self {
            ElanType::Row(0, _) => Some(0),
            ElanType::Row(size, of) => size.checked_mul(of.get().cells()?),
            ElanType::Struct(fields) => field_cells(fields.get().as_slice()),
            ElanType::Own(_, concrete) => concrete.get().cells(),
            ElanType::Int
            | ElanType::Bool
            | ElanType::Text
            | ElanType::Task
            | ElanType::Dataspace
            | ElanType::Open => Some(1),
        }
    }

    // The number of nodes of its shape; `None` exactly where they are more than 65,535.
    #[cycle(nodes)]
    fn nodes(&self) -> Option<u16>
        ensures { SomeIff result (nodes self.now < 65536) (nodes self.now) }
    {
        match self {
            ElanType::Row(_, of) => of.get().nodes()?.checked_add(1),
            ElanType::Struct(fields) => field_nodes(fields.get().as_slice())?.checked_add(1),
            ElanType::Own(_, concrete) => concrete.get().nodes(),
            ElanType::Int
            | ElanType::Bool
            | ElanType::Text
            | ElanType::Task
            | ElanType::Dataspace
            | ElanType::Open => Some(1),
        }
    }

    /// Whether it has more than 16,384 cells, or its shape more than 800 nodes.
    pub fn is_too_large(&self) -> bool
        ensures { result ≡ is_too_large self.now }
    {
        match (self.cells(), self.nodes()) {
            (Some(cells), Some(nodes)) => cells > 16384 || nodes > 800,
            _ => true,
        }
    }

    /// Whether a type of the text's own is it, or occurs in it.
    #[cycle(own)]
    pub fn has_own(&self) -> bool
        ensures { result ≡ has_own self.now }
    {
        match self {
            ElanType::Row(_, of) => of.get().has_own(),
            ElanType::Struct(fields) => any_has_own(fields.get().as_slice()),
            ElanType::Own(_, _) => true,
            ElanType::Int
            | ElanType::Bool
            | ElanType::Text
            | ElanType::Task
            | ElanType::Dataspace
            | ElanType::Open => false,
        }
    }

    /// The same type: what stands in it has one more owner. It takes no memory, and is refused only where no more owners can be
    /// counted.
    pub fn try_clone(&self) -> Result<ElanType, NoMemory>
        ensures { IfOk result (λ copy. copy ≡ self.now) }
    {
        match self {
            ElanType::Int => Ok(ElanType::Int),
            ElanType::Bool => Ok(ElanType::Bool),
            ElanType::Text => Ok(ElanType::Text),
            ElanType::Task => Ok(ElanType::Task),
            ElanType::Dataspace => Ok(ElanType::Dataspace),
            ElanType::Row(size, of) => Ok(ElanType::Row(*size, of.share()?)),
            ElanType::Struct(fields) => Ok(ElanType::Struct(fields.share()?)),
            ElanType::Own(number, concrete) => Ok(ElanType::Own(*number, concrete.share()?)),
            ElanType::Open => Ok(ElanType::Open),
        }
    }

    /// Lets it go, with what stands in it where that has no other owner.
    pub fn let_go(self) {}
}

// Whether two structures have the same fields.
#[cycle(same)]
fn same_fields(fields: &[FieldType], others: &[FieldType]) -> bool
    ensures { result ≡ are_same (map same_field fields.now) others.now }
{
    let mut rest = others;
    for field in fields {
        let [other, behind @ ..] = rest else {
            return false;
        };
        if field.name.as_slice() != other.name.as_slice() || !field.of.is_same(&other.of) {
            return false;
        }
        rest = behind;
    }
    rest.is_empty()
}

#[cycle(shapes)]
fn field_shapes(alloc: Global, fields: &[FieldType]) -> Result<List<Shape>, NoMemory>
    ensures { IfOk result (λ shapes. shapes ≡ map field_shape fields.now) }
{
    let mut shapes = List::new(alloc);
    for field in fields {
        shapes.push(field.of.shape(alloc)?)?;
    }
    Ok(shapes)
}

// The cells of fields, together.
#[cycle(cells)]
fn field_cells(fields: &[FieldType]) -> Option<u16>
    ensures { SomeIff result (sum (map cells_of_field fields.now) < 65536) (sum (map cells_of_field fields.now)) }
{
    let mut total = 0_u16;
    for field in fields {
        total = total.checked_add(field.of.cells()?)?;
    }
    Some(total)
}

// The nodes of the shapes of fields, together.
#[cycle(nodes)]
fn field_nodes(fields: &[FieldType]) -> Option<u16>
    ensures { SomeIff result (sum (map nodes_of_field fields.now) < 65536) (sum (map nodes_of_field fields.now)) }
{
    let mut total = 0_u16;
    for field in fields {
        total = total.checked_add(field.of.nodes()?)?;
    }
    Some(total)
}

// Whether a type of the text's own occurs in one of these.
#[cycle(own)]
fn any_has_own(fields: &[FieldType]) -> bool
    ensures { result ≡ list_any (λ b. b) (map field_has_own fields.now) }
{
    for field in fields {
        if field.of.has_own() {
            return true;
        }
    }
    false
}

fn field_named(fields: &[FieldType], name: &[u8]) -> Result<Option<(u16, ElanType)>, NoMemory>
    ensures { IfOk result (λ found. found ≡ field_from 0 fields.now name.now) }
{
    let mut before = 0_u16;
    for field in fields {
        if field.name.as_slice() == name {
            return Ok(Some((before, field.of.try_clone()?)));
        }
        let cells = field.of.cells().ok_or(NoMemory)?;
        before = before.checked_add(cells).ok_or(NoMemory)?;
    }
    Ok(None)
}

impl Parameter {
    /// What a core knows of it.
    pub fn formal(&self, alloc: Global) -> Result<Formal, NoMemory>
        ensures { IfOk result (λ formal. formal ≡ formal_of self.now) }
    {
        let shape = self.of.shape(alloc)?;
        Ok(Formal {
            shape,
            access: self.access,
        })
    }

    /// The number of cells that it takes: those of its type, or one for a place; `None` exactly where they are more than 65,535.
    #[tactic(auto, using(crate::proofs::Types::const_cells))]
    pub fn cells(&self) -> Option<u16>
        ensures { SomeIff result (length (cells_of (formal_of self.now)) < 65536) (length (cells_of (formal_of self.now))) }
    {
        match self.access {
            Access::Const => self.of.cells(),
            Access::Var => Some(1),
        }
    }

    /// The same parameter. It takes no memory.
    pub fn try_clone(&self) -> Result<Parameter, NoMemory>
        ensures { IfOk result (λ copy. copy ≡ self.now) }
    {
        let of = self.of.try_clone()?;
        Ok(Parameter {
            of,
            access: self.access,
        })
    }
}

/// What a core knows of parameters.
pub fn formals(alloc: Global, parameters: &[Parameter]) -> Result<List<Formal>, NoMemory>
    ensures { IfOk result (λ list. list ≡ map formal_of parameters.now) }
{
    let mut list = List::new(alloc);
    for parameter in parameters {
        list.push(parameter.formal(alloc)?)?;
    }
    Ok(list)
}
