//! What procedures on data spaces do.
ghost use Rattle.std.specs.Prelude.{◌≡◌, ◌≤◌, List, Option, Ok};
ghost use Rattle.std.specs.Int.{w16};
ghost use Rattle.std.specs.Int.RustNames.{FitsSigned};
ghost use Rattle.eu_base.specs.declared.value.Value.{Value as Values};
ghost use Rattle.eu_base.specs.declared.shape.Shape.{Shape as Shapes};
ghost use Rattle.eu_base.specs.declared.space_operation.SpaceOperation.{SpaceOperation as Operations};
ghost use Rattle.eu_base.specs.Values.{SpaceNo, IsSpaceNumber};
ghost use Rattle.eu_base.specs.Operations.{number_at};
ghost use Rattle.eu_base.specs.DataSpaces.{Spaces, heads_of, last_number};
ghost use Rattle.eu_base.specs.SoundSpaces.{AreSpaces, GivesOf};
ghost use Rattle.eu_base.specs.SpaceOperations.{space_result_kind, performed, copied, bound, heads_performed, heads_copied, heads_bound, heads_left};

/// Law: a procedure on data spaces, an assignment of one and the binding of a variable to one do to the spaces, but for their values, what they do
/// to what is said of them without their values. They leave data spaces whose values are of the kinds of their cells, and give values of their kinds.
pub fn data_spaces_stay_sound()
    ensures performed { (operation : Operations) (vs : List Values) (spaces : Spaces) →
        heads_left (performed operation vs spaces) ≡ heads_performed operation vs (heads_of spaces) }
    ensures copied { (held from : Option SpaceNo) (spaces : Spaces) → heads_left (copied held from spaces) ≡ heads_copied held from (heads_of spaces) }
    ensures bound { (shape : Shapes) (space : Option SpaceNo) (spaces : Spaces) →
        heads_left (bound shape space spaces) ≡ heads_bound shape space (heads_of spaces) }
    ensures sound { (operation : Operations) (vs : List Values) (spaces : Spaces) → AreSpaces spaces → FitsSigned w16 (number_at vs 1) →
        (done : Option Values × Spaces) → performed operation vs spaces ≡ Ok done → GivesOf (space_result_kind operation) done.0 × AreSpaces done.1 }
    ensures sound_copied { (held from : Option SpaceNo) (spaces : Spaces) → AreSpaces spaces → (done : SpaceNo × Spaces) →
        copied held from spaces ≡ Ok done → (done.0.0 ≤ last_number) × AreSpaces done.1 }
    ensures sound_bound { (shape : Shapes) (space : Option SpaceNo) (spaces : Spaces) → IsSpaceNumber space → AreSpaces spaces → (done : SpaceNo × Spaces) →
        bound shape space spaces ≡ Ok done → (done.0.0 ≤ last_number) × AreSpaces done.1 }
{}
