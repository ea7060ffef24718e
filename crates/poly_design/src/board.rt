//! The cells of a board that are not blocked, and a flag for every cell that a board can have, so that testing a cell is
//! one look-up.
ghost use Rattle.std.specs.Prelude.{◌≡◌, ◌↔◌, ◌++◌, ◌∷◌, [], IsTrue, OnOk, IfOk, IfErr, replicate, false};
ghost use Rattle.std.specs.BTreeMap.{keys};
ghost use Rattle.poly_shape.specs.Order.{IsAscending, spot_cmp};
ghost use Rattle.std.specs.List.{All};
ghost use Rattle.poly_design.specs.Limits.{IsInRange};
ghost use Rattle.poly_design.specs.Moved.{LandsOn};

use crate::mode::Mode;
use poly_grid::{Cell, Refusal, SIDE};
use std::alloc::Global;
use std::collections::BTreeMap;
use std::marker::Model;

/// The unblocked cells of a board. Contracts see them as a list.
#[derive(Drop)]
pub(crate) struct Board {
    /// The unblocked cells, in the order in which they were added.
    cells: Vec<Cell>,
    /// For each cell from 0,0 to 63,63, row by row, whether it is unblocked.
    flags: Vec<bool>,
}

impl Model for Board {
    ghost use Rattle.std.specs.Prelude.{List};
    ghost use Rattle.poly_grid.specs.Spot.{Spot};

    ghost Value = { List Spot };

    ghost use Rattle.poly_design.specs.Unblocked.{AreFlagsOf};

    ghost view = { λ b. b.cells.items };

    ghost invariant = { λ b. AreFlagsOf b.cells.items b.flags.items };
}

impl Board {
    /// The board of the cells that have an entry in `modes`.
    pub(crate) fn of(alloc: Global, modes: &BTreeMap<Cell, Mode>) -> Result<Board, Refusal>
        ensures ok { IfOk result (λ board. board ≡ keys modes.now) }
        ensures ascending { OnOk result (IsAscending spot_cmp (keys modes.now)) }
        ensures in_range { OnOk result (All IsInRange (keys modes.now)) }
        ensures why { IfErr result (λ e. e ≡ Refusal.Memory) }
    {
        let mut board = Board::empty(alloc)?;
        for (cell, _) in modes {
            board.add(*cell)?;
        }
        Ok(board)
    }

    fn empty(alloc: Global) -> Result<Board, Refusal>
        ensures ok { IfOk result (λ board. board ≡ []) }
        ensures why { IfErr result (λ e. e ≡ Refusal.Memory) }
    {
        let flags = lowered(alloc, SIDE * SIDE)?;
        Ok(Board {
            cells: Vec::new(alloc),
            flags,
        })
    }

    fn add(&mut self, cell: Cell) -> Result<(), Refusal>
        ensures ok { OnOk result (self.new ≡ self.old ++ cell ∷ []) }
        ensures in_range { IsInRange cell }
        ensures why { IfErr result (λ e. e ≡ Refusal.Memory) }
    {
        let at = SIDE * usize::from(cell.y()) + usize::from(cell.x());
        self.cells.push(cell)?;
        self.flags[at] = true;
        Ok(())
    }

    pub(crate) fn cells(&self) -> &[Cell]
        ensures { result.now ≡ self.now }
    {
        &self.cells
    }

    /// Whether the cell, moved right and down, is a cell of the board.
    pub(crate) fn has_moved(&self, cell: Cell, right: u8, down: u8) -> bool
        ensures { IsTrue result ↔ LandsOn self.now right down cell }
    {
        let x = usize::from(cell.x()) + usize::from(right);
        let y = usize::from(cell.y()) + usize::from(down);
        if x >= SIDE || y >= SIDE {
            return false;
        }
        self.flags[SIDE * y + x]
    }
}

fn lowered(alloc: Global, len: usize) -> Result<Vec<bool>, Refusal>
    ensures ok { IfOk result (λ flags. flags.items ≡ replicate len false) }
    ensures why { IfErr result (λ e. e ≡ Refusal.Memory) }
{
    Ok(vec![in alloc; false; len]?)
}
