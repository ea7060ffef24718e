//! Laws of the definitions, each the contract of a function that does nothing.
ghost use Rattle.std.specs.Prelude.{◌≡◌};
ghost use Rattle.poly_tiling.specs.Laws.{NumbersMayGrow, NumbersReach, NumbersShow, SameDesignGrows};
ghost use Rattle.poly_tiling.specs.Listings.{ListingsShow, OverShow};
ghost use Rattle.poly_tiling.specs.TilingOrder.{RanksCompare};

use crate::lister::MAX_TILINGS;

/// `MAX_TILINGS` is 1,000,000.
pub fn most_tilings_are_a_million()
    ensures { MAX_TILINGS ≡ 1000000 }
{}

/// Assigning new numbers doesn't change whether a list is a tiling.
pub fn numbers_may_grow()
    ensures { NumbersMayGrow }
{}

/// If a view shows a design, an ascending list of numbers that name placements is a tiling of the view exactly if these
/// placements are a tiling of the design.
pub fn numbers_show()
    ensures { NumbersShow }
{}

/// If a view shows a design, each tiling of the design, as a set, is named by exactly one ascending list of numbers, and
/// this list is a tiling of the view.
pub fn numbers_reach()
    ensures { NumbersReach }
{}

/// Two tilings of a view compare as the ascending lists of the positions that their numbers have in `View::live`.
pub fn ranks_compare()
    ensures { RanksCompare }
{}

/// If a view shows a design, then the view's tilings, each once and in order, are exactly the design's tilings, each once
/// and in order, as lists of their placements in placement order.
pub fn listings_show()
    ensures { ListingsShow }
{}

/// If a view shows a design and has more than n tilings, then the design has more than n tilings too.
pub fn over_shows()
    ensures { OverShow }
{}

/// If two views show the same design, and the later one names what the earlier one names, by the same numbers, then the
/// later view is the earlier one, perhaps with more numbers.
pub fn same_design_grows()
    ensures { SameDesignGrows }
{}
