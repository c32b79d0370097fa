//! What holds no expression: names, types, constants, parameters, labels.

use containers::{Boxed, Bytes, List};

/// An identifier or a bold word, where it stands.
#[derive(Drop)]
pub struct Name {
    /// The place of its first byte.
    pub at: u32,
    /// Its letters and digits, without spaces.
    pub text: Bytes,
}

/// A type as it is written.
#[cycle(types)]
#[derive(Drop)]
pub enum TypePhrase {
    /// `INT`
    Int(u32),
    /// `BOOL`
    Bool(u32),
    /// `TEXT`
    Text(u32),
    /// `TASK`
    Task(u32),
    /// `DATASPACE`
    Dataspace(u32),
    /// A bold word that names a type.
    Named(Name),
    /// `ROW size of`
    Row {
        at: u32,
        size: Size,
        of: Boxed<TypePhrase>,
    },
    /// `STRUCT (fields)`
    Struct {
        at: u32,
        fields: List<Field>,
    },
}

/// Fields of one type, as they stand between two commas that do not go on with it.
#[cycle(types)]
#[derive(Drop)]
pub struct Field {
    /// The type of each.
    pub of: TypePhrase,
    /// At least one.
    pub names: List<Name>,
}

/// The number of parts of a ROW.
#[derive(Drop)]
pub enum Size {
    /// A number, from 0 to 32,767.
    Number(u32, i16),
    /// A name that LET gives to a number.
    Named(Name),
}

/// What a parameter gives: a value, or the place of a variable.
#[derive(Clone, Copy, PartialEq, Eq)]
pub enum Access {
    /// A value.
    Const,
    /// The place of a variable.
    Var,
}

/// Parameters of one type and access.
#[derive(Drop)]
pub struct Formal {
    /// The type of each.
    pub of: TypePhrase,
    /// CONST or VAR.
    pub access: Access,
    /// At least one.
    pub names: List<Name>,
}

/// The constant of a LET.
#[derive(Drop)]
pub enum Constant {
    /// A number, with its minus sign.
    Number(u32, i16),
    /// A text, by its characters.
    Text(u32, Bytes),
    /// `TRUE` or `FALSE`.
    Truth(u32, bool),
}

/// A name that LET defines.
#[derive(Drop)]
pub enum LetItem {
    /// A constant under a name.
    Constant(Name, Constant),
    /// A type under a name.
    Abbreviation(Name, TypePhrase),
}

/// The label of a CASE.
#[derive(Drop)]
pub enum Label {
    /// A number, with its minus sign.
    Number(u32, i16),
    /// A name that LET gives to a number.
    Named(Name),
}
