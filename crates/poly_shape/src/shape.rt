//! Shapes and their orientations.

ghost use Rattle.std.specs.Prelude.{◌≡◌, ◌↔◌, IsOk, IfOk, IfErr, OnOk, All};
ghost use Rattle.poly_shape.specs.Shape.{AreOrientations, IsImage};
ghost use Rattle.poly_shape.specs.Connected.{IsConnected};
ghost use Rattle.poly_shape.specs.Shapes.{IsShape, IsOrientation};
ghost use Rattle.poly_shape.specs.Order.{Adds, AreFewDistinct, IsAscending, cells_cmp};

use crate::cells::Cells;
use crate::connected::is_connected;
use crate::images::image;
use poly_grid::{Cell, Grid, Refusal};
use std::alloc::Global;
use std::marker::Model;

/// Cells that are connected on a grid, at their normal position: the least column and the least row are 0.
#[derive(Clone, Copy, Debug, PartialEq, Eq)]
pub struct Shape {
    /// The grid on which the cells are connected.
    grid: Grid,
    /// The cells, at their normal position.
    cells: Cells,
}

impl Model for Shape {
    ghost use Rattle.poly_shape.specs.Figure.{Figure};
    ghost use Rattle.poly_shape.specs.Shapes.{IsShape};

    ghost Value = { Figure };

    ghost view = { λ s. record { grid = s.grid; cells = s.cells } };

    ghost invariant = { λ s. IsShape (record { grid = s.grid; cells = s.cells }) };

    ghost inverse = { λ f. record { grid = f.grid; cells = f.cells } };
}

impl Shape {
    /// The shape of the cells, moved to its normal position. Fails with `BadShape` if `Cells::new` refuses the cells or if
    /// they are not connected on the grid.
    pub fn from_cells(grid: Grid, cells: &[Cell]) -> Result<Shape, Refusal>
        ensures ok { IfOk result (λ s. (s.grid ≡ grid) × IsImage grid 0 cells.now s.cells) }
        ensures shape { IfOk result IsShape }
        ensures when { IsOk result ↔ (AreFewDistinct cells.now × IsConnected grid cells.now) }
        ensures why { IfErr result (λ e. e ≡ Refusal.BadShape) }
    {
        let set = Cells::new(cells)?;
        if !is_connected(grid, &set) {
            return Err(Refusal::BadShape);
        }
        let normal = image(grid, 0, &set);
        Ok(Shape {
            grid,
            cells: normal,
        })
    }

    /// The grid on which the cells are connected.
    pub fn grid(&self) -> Grid
        ensures { result ≡ self.now.grid }
    {
        self.grid
    }

    /// The cells, at their normal position.
    pub fn cells(&self) -> Cells
        ensures value { result ≡ self.now.cells }
        ensures shape { IsShape self.now }
    {
        self.cells
    }

    /// The images of the shape under the grid's rotations, and with `mirror` under its reflections too: each orientation once,
    /// at its normal position, in ascending order. Fails only when out of memory.
    pub fn orientations(&self, alloc: Global, mirror: bool) -> Result<Vec<Cells>, Refusal>
        ensures ok { IfOk result (λ list. AreOrientations self.now mirror list.items) }
        ensures shapes { IfOk result (λ list. All (IsOrientation self.now) list.items) }
        ensures err { IfErr result (λ e. e ≡ Refusal.Memory) }
    {
        let mut found = Vec::new(alloc);
        for turn in 0..self.grid.turns(mirror) {
            let image = image(self.grid, turn, &self.cells);
            add(&mut found, image)?;
        }
        Ok(found)
    }
}

// Inserts the set of cells into the ascending list, in order, unless the list has this set.
fn add(list: &mut Vec<Cells>, cells: Cells) -> Result<(), Refusal>
    requires { IsAscending cells_cmp list.old.items }
    ensures ascending { OnOk result (IsAscending cells_cmp list.new.items) }
    ensures err { IfErr result (λ e. e ≡ Refusal.Memory) }
    ensures adds { OnOk result (Adds list.old.items cells list.new.items) }
{
    match list.binary_search(&cells) {
        Ok(_) => Ok(()),
        Err(at) => Ok(list.insert(at, cells)?),
    }
}
