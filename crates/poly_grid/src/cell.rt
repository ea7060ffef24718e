//! The cells that a board can have: columns and rows 0 to 63.

ghost use Rattle.std.specs.Prelude.{◌≡◌, ◌+◌, pos, ◌<◌, SomeIff};
ghost use Rattle.poly_grid.specs.Spot.{Spot};

use crate::grid::Point;
use std::marker::Model;

/// The number of columns, and of rows, in which a cell can lie.
pub const SIDE: usize = 64;

/// A cell: its column x and its row y, each 0 to 63. For a hexagon these are the axial coordinates q and r.
///
/// Cells are ordered by row, then by column.
#[derive(Clone, Copy, Debug, PartialEq, Eq, PartialOrd, Ord)]
pub struct Cell {
    /// The row, 0 to 63. It is the first field, since the derived order compares the first field first.
    y: u8,
    /// The column, 0 to 63.
    x: u8,
}

impl Model for Cell {
    ghost use Rattle.std.specs.Prelude.{◌<◌};
    ghost use Rattle.poly_grid.specs.declared.cell.TheConstants.{SIDE};
    ghost use Rattle.poly_grid.specs.Spot.{Spot};

    ghost Value = { Spot };

    ghost view = { λ c. record { x = c.x; y = c.y } };

    ghost invariant = { λ c. (c.x < SIDE) × (c.y < SIDE) };

    ghost inverse = { λ s. record { x = s.x; y = s.y } };
}

impl Cell {
    /// Column 0 of row 0, the first cell.
    pub const ORIGIN: Cell = Cell { y: 0, x: 0 };

    /// The cell of a column and a row, or `None` if either is over 63.
    pub fn new(x: u64, y: u64) -> Option<Cell>
        ensures { SomeIff result ((x < SIDE) × (y < SIDE)) (record { x = x; y = y }) }
    {
        if x < SIDE as u64 && y < SIDE as u64 {
            Some(Cell {
                y: y as u8,
                x: x as u8,
            })
        } else {
            None
        }
    }

    /// The column, 0 to 63.
    pub fn x(self) -> u8
        ensures value { result ≡ self.x }
        ensures small { result < SIDE }
    {
        self.x
    }

    /// The row, 0 to 63.
    pub fn y(self) -> u8
        ensures value { result ≡ self.y }
        ensures small { result < SIDE }
    {
        self.y
    }

    /// The cell `right` columns to the right and `down` rows down, or `None` if its column or row would be over 63.
    pub fn translated(self, right: u8, down: u8) -> Option<Cell>
        ensures { SomeIff result ((self.x + right < SIDE) × (self.y + down < SIDE)) (record { x = self.x + right; y = self.y + down }) }
    {
        Cell::new(
            u64::from(self.x) + u64::from(right),
            u64::from(self.y) + u64::from(down),
        )
    }

    /// The cell as a point of the endless grid, on which turns and neighbours are defined.
    pub fn point(self) -> Point
        ensures value { result ≡ record { x = pos self.x; y = pos self.y } }
        ensures in_range { (self.x < SIDE) × (self.y < SIDE) }
    {
        Point {
            x: i16::from(self.x),
            y: i16::from(self.y),
        }
    }
}
