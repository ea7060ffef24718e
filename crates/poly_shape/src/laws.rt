//! Laws of orientations. Each is the contract of a function that does nothing.

ghost use Rattle.poly_shape.specs.Laws.{ShapesAreTheirOrientations, RotationsAreAmongAll, OrientationsAreOneList, TranslatesTellTheNormalPlace, OrientationsAreShared};

/// A shape is one of its own orientations.
pub fn shapes_are_their_orientations()
    ensures { ShapesAreTheirOrientations }
{}

/// The orientations by rotations alone are among those by all turns.
pub fn rotations_are_among_all()
    ensures { RotationsAreAmongAll }
{}

/// The definition of orientations leaves no choice: for a shape, with mirror on or off, only one list meets it.
pub fn orientations_are_one_list()
    ensures { OrientationsAreOneList }
{}

/// A translate of cells at their normal position determines these cells, and how far they were moved.
pub fn translates_tell_the_normal_place()
    ensures { TranslatesTellTheNormalPlace }
{}

/// With mirror on throughout, or off throughout, each orientation of a shape has the same list of orientations as the shape.
pub fn orientations_are_shared()
    ensures { OrientationsAreShared }
{}
