//! Whether cells are connected, by flooding from the first cell.

ghost use Rattle.std.specs.Prelude.{◌≡◌, ◌↔◌, ◌≤◌, IsTrue, IfSome, IfNone, length};
ghost use Rattle.std.specs.List.{Contains};
ghost use Rattle.poly_grid.specs.Spot.{Spot};
ghost use Rattle.poly_shape.specs.Connected.{AreNeighbours, IsConnected, Touches};

use crate::cells::Cells;
use poly_grid::{Cell, Grid};

pub(crate) fn is_connected(grid: Grid, cells: &Cells) -> bool
    ensures { IsTrue result ↔ IsConnected grid cells.now }
{
    let mut reached = Cells::one(cells.as_slice()[0]);
    while let Some(cell) = frontier(grid, cells, &reached) {
        reached = reached.with(cell);
    }
    reached == *cells
}

// A cell of the set that is not reached and has a reached neighbour, if there is one.
fn frontier(grid: Grid, cells: &Cells, reached: &Cells) -> Option<Cell>
    ensures some { IfSome result (λ c. Contains cells.now c × (¬ Contains reached.now c) × Touches grid reached.now c) }
    ensures none { IfNone result ((c : Spot) → Contains cells.now c → Touches grid reached.now c → Contains reached.now c) }
{
    for cell in cells.as_slice() {
        if !reached.contains(*cell) && touches(grid, reached.as_slice(), *cell) {
            return Some(*cell);
        }
    }
    None
}

fn touches(grid: Grid, cells: &[Cell], cell: Cell) -> bool
    ensures { IsTrue result ↔ Touches grid cells.now cell }
{
    for other in cells {
        if are_neighbours(grid, *other, cell) {
            return true;
        }
    }
    false
}

fn are_neighbours(grid: Grid, a: Cell, b: Cell) -> bool
    ensures { IsTrue result ↔ AreNeighbours grid a b }
{
    for direction in 0..grid.directions() {
        if grid.neighbour(direction, a.point()) == b.point() {
            return true;
        }
    }
    false
}
