//! Edits, the requests to change a design.

use crate::copies::Copies;
use crate::mode::Mode;
use crate::name::Name;
use crate::need::Need;
use poly_grid::Cell;
use poly_shape::{Cells, Shape};

/// A request to change a design.
#[derive(Clone, Copy, Debug)]
pub enum Edit {
    /// Add a piece, without a pin and with nothing forbidden.
    Add {
        /// The name of the new piece.
        name: Name,
        /// The shape, in one of its orientations.
        shape: Shape,
        /// Whether a tiling has to use the piece once or may use it once.
        need: Need,
        /// Whether the piece may be turned over.
        mirror: bool,
    },
    /// Remove the piece, with its pin and the cells that are forbidden to it.
    Drop {
        /// The name of the piece.
        name: Name,
    },
    /// Set the copies to exactly one, or to at most one.
    Need {
        /// The name of the piece.
        name: Name,
        /// Exactly one copy, or at most one.
        need: Need,
    },
    /// Set the least and the most copies.
    Copies {
        /// The name of the piece.
        name: Name,
        /// The least and the most copies that a tiling may use.
        copies: Copies,
    },
    /// Set whether the piece may be turned over. Its pin and its forbidden cells stay.
    Mirror {
        /// The name of the piece.
        name: Name,
        /// Whether the piece may be turned over.
        mirror: bool,
    },
    /// Set the cell's mode. `Blocked` removes the cell from the board.
    Cell {
        /// The cell, blocked or not.
        cell: Cell,
        /// The new mode.
        mode: Mode,
    },
    /// Pin the piece: a copy has to lie on the cells. Replaces an earlier pin.
    Pin {
        /// The name of the piece.
        name: Name,
        /// The cells that a copy has to lie on.
        cells: Cells,
    },
    /// Remove the piece's pin.
    Unpin {
        /// The name of the piece.
        name: Name,
    },
    /// Forbid the cells to the piece: no copy may lie on exactly these cells.
    Forbid {
        /// The name of the piece.
        name: Name,
        /// The cells, as one set: no copy may cover exactly these.
        cells: Cells,
    },
    /// Allow the cells to the piece again.
    Allow {
        /// The name of the piece.
        name: Name,
        /// The cells, as one set: it has to be one of the sets that are forbidden to the piece.
        cells: Cells,
    },
}
