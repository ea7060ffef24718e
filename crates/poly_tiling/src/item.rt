//! Items: the cells and pieces that placements cover.
ghost use Rattle.std.specs.Prelude.{◌≡◌};
ghost use Rattle.poly_tiling.specs.Puzzle.{same_item};

use poly_design::Name;
use poly_grid::Cell;

/// A cell or a piece. A placement covers its cells and its piece. In item order, all cells come before all pieces; cells are
/// in cell order, and pieces in the order of their names.
#[derive(Clone, Copy, Debug, PartialEq, Eq, PartialOrd, Ord)]
pub enum Item {
    /// A cell of the board.
    Cell(Cell),
    /// A piece, by its name.
    Piece(Name),
}

impl Item {
    /// Whether both are the same item.
    pub fn is(&self, other: &Item) -> bool
        ensures { result ≡ same_item self.now other.now }
    {
        self == other
    }
}
