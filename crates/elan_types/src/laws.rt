//! Laws of values.
ghost use Rattle.eu_base.specs.declared.shape.Shape.{Shape};
ghost use Rattle.elan_types.specs.Nested.{IsOneToOne, StandInOrder};

/// Nothing is lost where evaluation has values flat: the nested values of a shape and the lists of values of its
/// cells are one to one.
pub fn flat_values_are_one_to_one()
    ensures { (s : Shape) → IsOneToOne s }
{}

/// The items of a row and the fields of a structure stand in its cells in order: each behind those before it, as
/// places and parts of values count them.
pub fn parts_stand_in_order()
    ensures { (s : Shape) → StandInOrder s }
{}
