//! The cells and the placements of a design, as lists.
ghost use Rattle.std.specs.Prelude.{IfErr, IfOk, ◌≡◌};
ghost use Rattle.std.specs.List.{All};
ghost use Rattle.poly_tiling.specs.Shows.{names};
ghost use Rattle.poly_browse.specs.Maps.{IsSmall};

use poly_design::{Design, Mode, Placement};
use poly_grid::{Cell, Refusal, SIDE};
use poly_tiling::View;
use std::alloc::Global;

/// Returns the cells that aren't blocked, with their modes, in cell order.
pub(crate) fn board_of(alloc: Global, design: &Design) -> Result<Vec<(Cell, Mode)>, Refusal>
    ensures ok { IfOk result (λ list. list.items ≡ design.now.cells) }
    ensures small { IfOk result (λ list. All (λ e. IsSmall e.0) list.items) }
    ensures why { IfErr result (λ e. e ≡ Refusal.Memory) }
{
    let mut list = Vec::new(alloc);
    for (cell, mode) in design.cells() {
        prove!(cell.x() < SIDE as u8);
        prove!(cell.y() < SIDE as u8);
        list.push((*cell, *mode))?;
    }
    Ok(list)
}

/// Returns the placements that the numbers name, in the order of the numbers. Skips a number that names none.
pub(crate) fn named(alloc: Global, view: &View, numbers: &[u32]) -> Result<Vec<Placement>, Refusal>
    ensures ok { IfOk result (λ list. list.items ≡ names view.now numbers.now) }
    ensures why { IfErr result (λ e. e ≡ Refusal.Memory) }
{
    let mut list = Vec::new(alloc);
    for number in numbers {
        if let Some(placement) = view.placement(*number) {
            list.push(placement)?;
        }
    }
    Ok(list)
}
