//! Names of types.

ghost use Rattle.std.specs.Prelude.{◌≡◌, IfOk};
ghost use Rattle.elan_names.specs.Types as spec;

use elan_types::ElanType;
use eu_base::{Bytes, NoMemory};
use std::alloc::Global;

/// What a name is where a type is written.
#[derive(Drop)]
pub enum Named {
    /// LET or TYPE gives it to this type, which is open where it has no meaning.
    Of(ElanType),
    /// LET gives it to this number, which can be the size of a row.
    Size(i16),
    /// It denotes neither.
    Other,
}

/// A name that a scope declares, as far as types are written with it.
#[derive(Drop)]
pub struct TypeName {
    /// The place of the name.
    pub at: u32,
    pub name: Bytes,
    pub of: Named,
}

impl Named {
    /// The same; a type is shared.
    pub fn try_clone(&self) -> Result<Named, NoMemory>
        ensures { IfOk result (λ copy. copy ≡ self.now) }
    {
        Ok(match self {
            Named::Of(of) => Named::Of(of.try_clone()?),
            Named::Size(size) => Named::Size(*size),
            Named::Other => Named::Other,
        })
    }
}

impl TypeName {
    /// The same, with a name of its own.
    pub fn try_clone(&self, alloc: Global) -> Result<TypeName, NoMemory>
        ensures { IfOk result (λ copy. copy ≡ self.now) }
    {
        Ok(TypeName {
            at: self.at,
            name: Bytes::from(alloc, self.name.as_slice())?,
            of: self.of.try_clone()?,
        })
    }

    /// Whether it denotes a type that has no meaning.
    pub fn is_open(&self) -> bool
        ensures { result ≡ spec.is_open_named self.now.of }
    {
        match &self.of {
            Named::Of(of) => of.is_open(),
            Named::Size(_) | Named::Other => false,
        }
    }
}
