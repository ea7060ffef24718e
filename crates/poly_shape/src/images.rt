//! The images of a set of cells under turns.

ghost use Rattle.std.specs.Prelude.{◌≡◌, ℕ, ◌<◌, ◌≤◌, ◌≤ℤ◌, ◌+ℤ◌, pos, length, true, slice_index_or};
ghost use Rattle.std.specs.List.{Contains};
ghost use Rattle.poly_grid.specs.Spot.{Spot};
ghost use Rattle.poly_grid.specs.Grid.{turned_of, turn_count};
ghost use Rattle.poly_shape.specs.Shape.{IsImage, LiesAt, point_of};
ghost use Rattle.poly_shape.specs.Connected.{IsConnected, IsCompact};
ghost use Rattle.poly_shape.specs.Corner.{IsCorner, IsInReach};

use crate::cells::Cells;
use poly_grid::{Cell, Grid, Point};

pub(crate) fn image(grid: Grid, turn: u8, cells: &Cells) -> Cells
    requires known { turn < turn_count grid true }
    requires connected { IsConnected grid cells.now }
    ensures { IsImage grid turn cells.now result }
{
    let cells = cells.as_slice();
    let corner = low_corner(grid, turn, cells);
    let mut image = Cells::one(image_of_cell(grid, turn, corner, cells[0]));
    for i in 1..cells.len() {
        image = image.with(image_of_cell(grid, turn, corner, cells[i]));
    }
    image
}

// The least column and the least row of the turned cells.
fn low_corner(grid: Grid, turn: u8, cells: &[Cell]) -> Point
    requires known { turn < turn_count grid true }
    requires compact { IsCompact cells.now }
    requires some { 0 < length cells.now }
    ensures { IsCorner grid turn cells.now result }
{
    let first = grid.turned(turn, cells[0].point());
    let mut x = first.x;
    let mut y = first.y;
    for i in 1..cells.len() {
        let point = grid.turned(turn, cells[i].point());
        x = x.min(point.x);
        y = y.min(point.y);
    }
    Point { x, y }
}

fn image_of_cell(grid: Grid, turn: u8, corner: Point, cell: Cell) -> Cell
    requires known { turn < turn_count grid true }
    requires reach { IsInReach grid turn corner cell }
    ensures { LiesAt grid turn corner cell result }
{
    let point = grid.turned(turn, cell.point());
    Cell::new((point.x - corner.x) as u64, (point.y - corner.y) as u64).unwrap()
}
