//! Laws of the definitions, each the contract of a function that does nothing.
ghost use Rattle.poly_atom.specs.Newly.{LeavingKeepsHope, NewlyHopelessIsTouched, TakingKeepsHope};
ghost use Rattle.poly_atom.specs.Width.{WidthIsOne, WidthsShow};
ghost use Rattle.poly_atom.specs.Laws.{AnswersMayGrow, BasesAreSets, FamiliesMayGrow, GuardsMayGrow, GuardsTell, HopelessIsEmpty, HopelessMayGrow, HopelessStays, NegationIsOpposite, NegationIsUndone, SameHasNoGuards, StairsShareOut, StairsWereHopeless, TakenBackIsUndone};

/// If no atom of a list is `AtLeast` with 0, a set that doesn't meet all atoms of the list meets exactly one of its stairs,
/// and a set that meets all of them meets no stair. No guard of a change is `AtLeast` with 0.
pub fn stairs_share_out()
    ensures { StairsShareOut }
{}

/// The base of a list of atoms has exactly the placements that a `Has` atom of the list names and the pins of the view, each
/// once, in ascending order.
pub fn bases_are_sets()
    ensures { BasesAreSets }
{}

/// A hopeless list has an empty family.
pub fn hopeless_is_empty()
    ensures { HopelessIsEmpty }
{}

/// If each number of the earlier view names the same placement in the later one, a tiling of the later design is a tiling of
/// the earlier one exactly if it meets the guards.
pub fn guards_tell()
    ensures { GuardsTell }
{}

/// Each stair of a change's guards is hopeless in the design before the change.
pub fn stairs_were_hopeless()
    ensures { StairsWereHopeless }
{}

/// A hopeless list stays hopeless if atoms are added and new numbers are assigned.
pub fn hopeless_stays()
    ensures { HopelessStays }
{}

/// A change that leaves the design as it was has no guards.
pub fn same_has_no_guards()
    ensures { SameHasNoGuards }
{}

/// Assigning new numbers does not change whether a tiling meets a list of atoms.
pub fn answers_may_grow()
    ensures { AnswersMayGrow }
{}

/// The negation of an atom's negation is the atom itself, unless the atom is `AtLeast` with 0.
pub fn negation_is_undone()
    ensures { NegationIsUndone }
{}

/// A set meets the negation of an atom exactly if it doesn't meet the atom, unless the atom is `AtLeast` with 0.
pub fn negation_is_opposite()
    ensures { NegationIsOpposite }
{}

/// Assigning new numbers does not change which tilings belong to a family.
pub fn families_may_grow()
    ensures { FamiliesMayGrow }
{}

/// Assigning new numbers does not change which lists are hopeless.
pub fn hopeless_may_grow()
    ensures { HopelessMayGrow }
{}

/// Assigning new numbers in either design changes no guard.
pub fn guards_may_grow()
    ensures { GuardsMayGrow }
{}

/// Removing the last change's guards undoes adding them.
pub fn taken_back_is_undone()
    ensures { TakenBackIsUndone }
{}

/// A list that a change makes hopeless has an atom about what the change touches: `Has` of a placement that is gone,
/// that belongs to a piece whose most fell, or that has an item of a new pin; `Lacks` of a new pin; `AtLeast` of a piece whose
/// most fell or of the change's own item; `AtMost` of an item whose least rose.
pub fn newly_hopeless_is_touched()
    ensures { NewlyHopelessIsTouched }
{}

/// Adding `Has` of an open placement does not change whether a list is hopeless. Here a placement is open if it is in the
/// design and not in the base, no atom of the list rules it out, it is in conflict with no member of the base, and the base
/// has room for one more placement of its piece.
pub fn taking_keeps_hope()
    ensures { TakingKeepsHope }
{}

/// Adding `Lacks` of a placement that is neither asked for nor pinned does not change whether a list is hopeless.
pub fn leaving_keeps_hope()
    ensures { LeavingKeepsHope }
{}

/// A change and its inverse each have as many guards as the width of the two designs says: one for each placement that is
/// new, each item whose least fell, each piece of both designs whose most rose, and each pin that was taken away.
pub fn widths_show()
    ensures { WidthsShow }
{}

/// The change from one design to another has only one width.
pub fn width_is_one()
    ensures { WidthIsOne }
{}
