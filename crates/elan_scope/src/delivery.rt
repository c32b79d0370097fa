//! What bodies deliver.

ghost use Rattle.std.specs.Prelude.{◌≡◌, IfOk};

use elan_types::ElanType;
use eu_base::NoMemory;

/// What a PROC, an OP or a refinement delivers, as far as it is known, and what the last unit of a list is asked for.
#[derive(Drop)]
pub enum Delivery {
    /// A refinement of which it is not known. A unit may deliver what it will.
    Open,
    Nothing,
    Of(ElanType),
}

impl Delivery {
    /// The same delivery. It takes no memory.
    pub fn try_clone(&self) -> Result<Delivery, NoMemory>
        ensures { IfOk result (λ copy. copy ≡ self.now) }
    {
        match self {
            Delivery::Open => Ok(Delivery::Open),
            Delivery::Nothing => Ok(Delivery::Nothing),
            Delivery::Of(of) => Ok(Delivery::Of(of.try_clone()?)),
        }
    }
}
