//! What is known of bodies beside their headings.

ghost use Rattle.std.specs.Prelude.{◌≡◌, IfOk};
ghost use Rattle.std.specs.Option.{option_map_or};
ghost use Rattle.elan_scope.specs.declared.delivery.Delivery.TheVariants.{Open};
ghost use Rattle.elan_scope.specs.Known as spec;

use crate::delivery::Delivery;
use call_graph::CallGraph;
use eu_base::{List, NoMemory};
use std::alloc::Global;

/// What each body delivers, and the refinements that it calls, by their numbers.
#[derive(Drop)]
pub struct Known {
    pub deliveries: List<Delivery>,
    pub calls: CallGraph,
}

impl Known {
    /// What the body with this number delivers. Of one that is not there nothing is known.
    pub fn delivery_at(&self, number: usize) -> Option<&Delivery>
        ensures { option_map_or (λ d. d.now) result Open ≡ spec.delivery_at self.now number }
    {
        match self.deliveries.as_slice().get(number) {
            None => None,
            Some(delivery) => Some(delivery),
        }
    }

    /// Whether a call of a refinement leads back to the one in which it stands, if it stands in one.
    pub fn leads_back(
        &self,
        alloc: Global,
        number: usize,
        refinement: Option<usize>,
    ) -> Result<bool, NoMemory>
        ensures { IfOk result (λ back. back ≡ spec.leads_back self.now number refinement) }
    {
        match refinement {
            None => Ok(false),
            Some(to) => self.calls.leads(alloc, number, to),
        }
    }
}
