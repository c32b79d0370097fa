//! What a name is declared to be.

ghost use Rattle.std.specs.Prelude.{◌≡◌, ◌<◌, SomeIff};
ghost use Rattle.elan_names.specs.Names as spec;

use crate::denoter::Denoter;
use elan_types::{ElanType, Parameter};
use eu_base::Bytes;

/// What an identifier without actuals denotes.
#[derive(Drop)]
pub enum Denotes {
    Variable(ElanType),
    Constant(ElanType),
    /// A BOUND variable, for the content of a data space, which has this type.
    Bound(ElanType),
    Parameter(Parameter),
    /// A PROC without parameters.
    Procedure,
    Refinement,
    /// What LET gives the name to.
    Denoter(Denoter),
}

impl Denotes {
    /// The number of cells of what it holds; `None` exactly where they are more than 65,535.
    #[tactic(auto, using(crate::proofs::Counted::value_cells, crate::proofs::Counted::bound_cells, crate::proofs::Counted::given_cells))]
    pub fn cells(&self) -> Option<u16>
        ensures { SomeIff result (spec.cells_held self.now < 65536) (spec.cells_held self.now) }
    {
        match self {
            Denotes::Variable(of) | Denotes::Constant(of) => of.cells(),
            Denotes::Bound(_) => Some(1),
            Denotes::Parameter(parameter) => parameter.cells(),
            Denotes::Procedure | Denotes::Refinement | Denotes::Denoter(_) => Some(0),
        }
    }

    /// Whether it is a refinement.
    pub fn is_refinement(&self) -> bool
        ensures { result ≡ spec.is_refinement self.now }
    {
        match self {
            Denotes::Refinement => true,
            _ => false,
        }
    }
}

/// A declaration: the place of its name, the name, and what it denotes.
#[derive(Drop)]
pub struct Entry {
    pub at: u32,
    pub name: Bytes,
    pub denotes: Denotes,
}
