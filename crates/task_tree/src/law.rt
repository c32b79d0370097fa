//! Laws of families: that they can end.
ghost use Rattle.task_tree.specs.Ends as ends;

/// The tasks of a family can end in its order: each lives, has no sons, and is neither `UR` nor `PUBLIC`, where those before it have ended.
/// And what ends so leaves the tree one.
pub fn families_end_in_turn()
    ensures turn { ends.FamiliesEndInTurn }
    ensures stays { ends.TreesStay }
{}

/// A task is the last of its family, and each task of it lives.
pub fn families_live()
    ensures last { ends.FamiliesEndWithTheFirst }
    ensures live { ends.FamiliesLive }
{}
