//! Motions of the plane: a turn followed by a translation.
ghost use Rattle.std.specs.Prelude.{IfNone, IfSome, length, true, ◌<◌, ◌≡◌, ◌≤◌};
ghost use Rattle.std.specs.List.{Contains};
ghost use Rattle.poly_grid.specs.Grid.{IsNear, turn_count};
ghost use Rattle.poly_grid.specs.Spot.{Spot};
ghost use Rattle.poly_shape.specs.Order.{IsAscending, spot_cmp};
ghost use Rattle.poly_browse.specs.Maps.{IsSmall};
ghost use Rattle.poly_browse.specs.Symmetries.{Carries, Takes};

use poly_grid::{Cell, Grid, Point};
use poly_shape::Cells;

/// A turn, and a shift that the translation subtracts from each turned point.
#[derive(Clone, Copy)]
pub(crate) struct Motion {
    /// The number of the turn.
    pub(crate) turn: u8,
    /// What the translation subtracts.
    pub(crate) shift: Point,
}

impl Motion {
    /// Returns the motion with this turn that carries the cell `from` to the cell `to`.
    pub(crate) fn between(grid: Grid, turn: u8, from: Cell, to: Cell) -> Motion
        requires known { turn < turn_count grid true }
        ensures turn { result.turn ≡ turn }
        ensures takes { Takes grid result from to }
        ensures near { IsNear result.shift }
    {
        let turned = grid.turned(turn, from.point());
        let to = to.point();
        Motion {
            turn,
            shift: Point {
                x: turned.x - to.x,
                y: turned.y - to.y,
            },
        }
    }

    /// Returns the cell that the motion carries the given cell to, or `None` if the point that it is carried to isn't a cell.
    pub(crate) fn moved(self, grid: Grid, cell: Cell) -> Option<Cell>
        requires known { self.turn < turn_count grid true }
        requires near { IsNear self.shift }
        ensures some { IfSome result (λ b. Takes grid self cell b) }
        ensures none { IfNone result ((b : Spot) → IsSmall b → ¬ Takes grid self cell b) }
    {
        let turned = grid.turned(self.turn, cell.point());
        let x = turned.x - self.shift.x;
        let y = turned.y - self.shift.y;
        if x < 0 || y < 0 {
            return None;
        }
        Cell::new(x as u64, y as u64)
    }

    /// Returns the cells that the motion carries the given ones to, or `None` if it carries one of them to a point that isn't
    /// a cell. Requires 1 to 16 cells.
    pub(crate) fn moved_all(self, grid: Grid, cells: &[Cell]) -> Option<Cells>
        requires known { self.turn < turn_count grid true }
        requires near { IsNear self.shift }
        requires some { 1 ≤ length cells.now }
        requires few { length cells.now ≤ 16 }
        ensures ascending { IfSome result (IsAscending spot_cmp) }
        ensures carried { IfSome result (λ image. Carries (Takes grid self) (Contains cells.now) (Contains image)) }
        ensures none { IfNone result ((a : Spot) × Contains cells.now a × ((b : Spot) → IsSmall b → ¬ Takes grid self a b)) }
    {
        let mut image = Cells::one(self.moved(grid, cells[0])?);
        for i in 1..cells.len() {
            image = image.with(self.moved(grid, cells[i])?);
        }
        Some(image)
    }
}
