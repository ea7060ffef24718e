//! Placements.

use crate::name::Name;
use poly_shape::Cells;

/// A piece's name and the cells that the piece covers. Placements are ordered by name, then by cells.
#[derive(Clone, Copy, Debug, PartialEq, Eq, PartialOrd, Ord, Hash)]
pub struct Placement {
    /// The name of the piece.
    pub name: Name,
    /// The cells that the piece covers.
    pub cells: Cells,
}
