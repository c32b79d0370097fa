//! The refinements that units call.

ghost use Rattle.std.specs.Prelude.{◌≡◌, IfOk};
ghost use Rattle.type_names.specs.walks.Uses as spec;

use elan_scope::scope::Scope;
use elan_tree::Unit;
use elan_walk::{Node, Visitor, visit_unit, visit_units};
use eu_base::{List, NoMemory};
use std::alloc::Global;

// The refinements that were called, by their numbers.
#[derive(Drop)]
struct Called<'a> {
    scope: &'a Scope,
    numbers: List<usize>,
    // Whether memory was wanted. What was found is worth nothing then.
    wanted: bool,
}

impl Called<'_> {
    ghost use Rattle.std.specs.Prelude.{false, option_to_list};
    ghost use Rattle.type_names.specs.walks.LevelSeen.{with_numbers};

    fn add(mut self, number: Option<usize>) -> Self
        ensures { result.wanted ≡ false → (self.entry.wanted ≡ false) × (result ≡ with_numbers self.entry (option_to_list number)) }
    {
        if let Some(number) = number {
            match self.numbers.push(number) {
                Ok(()) => (),
                Err(NoMemory) => self.wanted = true,
            }
        }
        self
    }

    fn met(self) -> Result<List<usize>, NoMemory>
        ensures { IfOk result (λ numbers. (self.entry.wanted ≡ false) × (numbers ≡ self.entry.numbers)) }
    {
        let Called {
            numbers,
            wanted,
            ..
        } = self;
        if wanted { Err(NoMemory) } else { Ok(numbers) }
    }
}

impl Visitor for Called<'_> {
    ghost use Rattle.type_names.specs.walks.LevelSeen.{with_numbers};

    ghost after = { λ s n. with_numbers s (spec.called s.scope.now n) };

    ghost wanted = { λ s. s.wanted };

    fn visit(self, node: Node<'_>) -> Self {
        let Node::Alone(name) = node else {
            return self;
        };
        let number = self.scope.refinement_named(name.text.as_slice());
        self.add(number)
    }
}

/// The refinements that units call.
#[tactic(auto, using(crate::proofs::Seen::calls))]
pub fn called_in(alloc: Global, scope: &Scope, units: &[Unit]) -> Result<List<usize>, NoMemory>
    ensures { IfOk result (λ numbers. numbers ≡ spec.in_units scope.now units.now) }
{
    let called = Called {
        scope,
        numbers: List::new(alloc),
        wanted: false,
    };
    visit_units(called, units).met()
}

/// The refinements that a unit calls.
#[tactic(auto, using(crate::proofs::Seen::calls))]
pub fn called_in_unit(alloc: Global, scope: &Scope, unit: &Unit) -> Result<List<usize>, NoMemory>
    ensures { IfOk result (λ numbers. numbers ≡ spec.in_unit scope.now unit.now) }
{
    let called = Called {
        scope,
        numbers: List::new(alloc),
        wanted: false,
    };
    visit_unit(called, unit).met()
}
