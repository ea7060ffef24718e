//! Laws of answers and of classes. Each is the contract of a function that does nothing.
ghost use Rattle.poly_browse.specs.Laws.{AlikeIsAnEquivalence, AnswersGoBySets, ClassesAreOneNumber};

/// Two tilings are alike if a symmetry of the design carries one to the other. Being alike is an equivalence.
pub fn alike_is_an_equivalence()
    ensures { AlikeIsAnEquivalence }
{}

/// A design has only one number of classes: no two different numbers meet the definition.
pub fn classes_are_one_number()
    ensures { ClassesAreOneNumber }
{}

/// An answer depends on the tilings as sets of placements, not on the order in which a tiling's placements are listed.
pub fn answers_go_by_sets()
    ensures { AnswersGoBySets }
{}
