//! A value with several owners.
ghost use Rattle.std.specs.Prelude.{◌≡◌, IfOk};

use crate::NoMemory;
use std::alloc::Global;
use std::marker::Model;
use std::rc::Rc;

/// A value that several owners share, which is let go with the last of them. Contracts see the value alone, so that a tree with
/// shared parts is plain data.
#[derive(Drop)]
pub struct Shared<T> {
    owned: Rc<T>,
}

impl<T> Model for Shared<T> {
    ghost Value = { T };

    ghost coded = { T.code };

    ghost view = { λ shared. shared.owned.value };
}

impl<T> Shared<T> {
    /// The value, lent.
    pub fn get(&self) -> &T
        ensures { result.now ≡ self.now }
    {
        self.owned.as_ref()
    }
}

impl<T: Drop> Shared<T> {
    /// The first owner of a value, which is let go where memory is refused.
    pub fn new(alloc: Global, value: T) -> Result<Shared<T>, NoMemory>
        ensures { IfOk result (λ made. made ≡ value) }
    {
        Ok(Shared {
            owned: Rc::new(alloc, value)?,
        })
    }

    /// One more owner of the same value. It takes no memory, and is refused only where no more owners can be counted.
    pub fn share(&self) -> Result<Shared<T>, NoMemory>
        ensures { IfOk result (λ made. made ≡ self.now) }
    {
        Ok(Shared {
            owned: self.owned.clone()?,
        })
    }
}
