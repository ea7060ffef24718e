//! Placements that can't lie on the board together.
ghost use Rattle.std.specs.Prelude.{Some, IsTrue, ◌↔◌, ◌≡◌};
ghost use Rattle.std.specs.List.{list_any};
ghost use Rattle.poly_tiling.specs.Puzzle.{has_cell, share_cell};
ghost use Rattle.poly_tiling.specs.Tilings.{Conflict};

use poly_design::Placement;
use poly_grid::Cell;

/// Whether the placements are different and share a cell.
pub fn conflict(a: &Placement, b: &Placement) -> bool
    ensures { IsTrue result ↔ Conflict a.now b.now }
{
    if a == b {
        return false;
    }
    meets(a, b)
}

/// Whether the placements share a cell.
pub(crate) fn meets(a: &Placement, b: &Placement) -> bool
    ensures { result ≡ share_cell (Some a.now) (Some b.now) }
{
    shares_cell(a.cells.as_slice(), b.cells.as_slice())
}

fn shares_cell(cells: &[Cell], others: &[Cell]) -> bool
    ensures { result ≡ list_any (λ c. has_cell others.now c) cells.now }
{
    cells.iter().any(|c| holds_cell(others, *c))
}

fn holds_cell(cells: &[Cell], cell: Cell) -> bool
    ensures { result ≡ has_cell cells.now cell }
{
    cells.iter().any(|c| *c == cell)
}
