//! Where one piece can lie.
//!
//! The first cell of a placement lies on an unblocked cell. So each orientation is tried once for each unblocked cell,
//! moved so that its first cell lies there. If the piece has to cover a given cell, each orientation is instead tried once
//! for each of its own cells, moved so that this cell lies on the given one. What fits is sorted once at the end.
ghost use Rattle.std.specs.Prelude.{◌≡◌, ◌↔◌, ℕ, IsTrue, OnOk, IfOk, IfErr, IfSome, IfNone};
ghost use Rattle.std.specs.List.{All, Contains};
ghost use Rattle.poly_grid.specs.Spot.{Spot};
ghost use Rattle.poly_shape.specs.Order.{cells_cmp};
ghost use Rattle.poly_design.specs.Listed.{AddsAll, IsListOf};
ghost use Rattle.poly_design.specs.Placements.{IsPlace};
ghost use Rattle.poly_design.specs.Moved.{IsSomewhere, IsShift, IsShifted, LandsOn};

use crate::board::Board;
use crate::cells_set::CellsSet;
use crate::spec::Spec;
use poly_grid::{Cell, Refusal};
use poly_shape::Cells;
use std::alloc::Global;

/// Where the piece can lie, in ascending order.
pub(crate) fn places(alloc: Global, board: &Board, spec: &Spec) -> Result<Vec<Cells>, Refusal>
    ensures ok { IfOk result (λ list. IsListOf cells_cmp (IsPlace (Contains board.now) spec.now) list.items) }
    ensures why { IfErr result (λ e. e ≡ Refusal.Memory) }
{
    let orientations = spec.shape.orientations(alloc, spec.mirror)?;
    let mut list = Vec::new(alloc);
    for i in 0..orientations.len() {
        add_all(&mut list, board, &spec.forbidden, &orientations[i])?;
    }
    list.sort()?;
    list.dedup();
    Ok(list)
}

/// Where the piece can lie so that it covers the cell, in ascending order.
pub(crate) fn places_on(
    alloc: Global,
    board: &Board,
    spec: &Spec,
    cell: Cell,
) -> Result<Vec<Cells>, Refusal>
    ensures ok { IfOk result (λ list. IsListOf cells_cmp (λ k. IsPlace (Contains board.now) spec.now k × Contains k cell) list.items) }
    ensures why { IfErr result (λ e. e ≡ Refusal.Memory) }
{
    let images = spec.shape.orientations(alloc, spec.mirror)?;
    let mut list = Vec::new(alloc);
    for i in 0..images.len() {
        add_on(&mut list, board, &spec.forbidden, &images[i], cell)?;
    }
    list.sort()?;
    list.dedup();
    Ok(list)
}

// Adds the cells, moved to each position at which they can lie.
fn add_all(
    list: &mut Vec<Cells>,
    board: &Board,
    forbidden: &CellsSet,
    cells: &Cells,
) -> Result<(), Refusal>
    ensures adds { OnOk result (AddsAll (IsSomewhere (Contains board.now) forbidden.now cells.now) list.old.items list.new.items) }
    ensures why { IfErr result (λ e. e ≡ Refusal.Memory) }
{
    let first = cells.as_slice()[0];
    for to in board.cells() {
        add_shifted(list, board, forbidden, cells, first, *to)?;
    }
    Ok(())
}

// Adds the cells, moved to each position at which they can lie and cover `cell`.
fn add_on(
    list: &mut Vec<Cells>,
    board: &Board,
    forbidden: &CellsSet,
    cells: &Cells,
    cell: Cell,
) -> Result<(), Refusal>
    ensures adds { OnOk result (AddsAll (λ k. IsSomewhere (Contains board.now) forbidden.now cells.now k × Contains k cell) list.old.items list.new.items) }
    ensures why { IfErr result (λ e. e ≡ Refusal.Memory) }
{
    for from in cells.as_slice() {
        add_shifted(list, board, forbidden, cells, *from, cell)?;
    }
    Ok(())
}

// Adds the cells, moved so that their cell `from` lies on `to`, if they can lie there.
fn add_shifted(
    list: &mut Vec<Cells>,
    board: &Board,
    forbidden: &CellsSet,
    cells: &Cells,
    from: Cell,
    to: Cell,
) -> Result<(), Refusal>
    ensures adds { OnOk result (AddsAll (IsShifted (Contains board.now) forbidden.now cells.now from to) list.old.items list.new.items) }
    ensures why { IfErr result (λ e. e ≡ Refusal.Memory) }
{
    let Some((right, down)) = shift(from, to) else {
        return Ok(());
    };
    if !fits(board, cells.as_slice(), right, down) {
        return Ok(());
    }
    let Some(place) = cells.translated(right, down) else {
        return Ok(());
    };
    if forbidden.contains(&place) {
        return Ok(());
    }
    list.push(place)?;
    Ok(())
}

// How far `to` lies to the right of `from` and below `from`, or `None` if `to` lies to the left of `from` or above `from`.
fn shift(from: Cell, to: Cell) -> Option<(u8, u8)>
    ensures some { IfSome result (λ by. IsShift by.0 by.1 from to) }
    ensures none { IfNone result ((right down : ℕ) → ¬ IsShift right down from to) }
{
    let right = to.x().checked_sub(from.x())?;
    let down = to.y().checked_sub(from.y())?;
    Some((right, down))
}

fn fits(board: &Board, cells: &[Cell], right: u8, down: u8) -> bool
    ensures { IsTrue result ↔ All (LandsOn board.now right down) cells.now }
{
    for cell in cells {
        if !board.has_moved(*cell, right, down) {
            return false;
        }
    }
    true
}
