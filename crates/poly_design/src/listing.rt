//! The placements of all pieces, of one piece, and on one cell.
ghost use Rattle.std.specs.Prelude.{◌≡◌, ◌⊎◌, ◌≤◌, ◌++◌, length, map, OnOk, IfOk, IfErr};
ghost use Rattle.std.specs.List.{All, Contains};
ghost use Rattle.std.specs.BTreeMap.{keys};
ghost use Rattle.poly_grid.specs.declared.grid.Grid.{Grid};
ghost use Rattle.poly_shape.specs.Order.{IsAscending, spot_cmp};
ghost use Rattle.poly_design.specs.Name.{name_cmp};
ghost use Rattle.poly_design.specs.Listed.{IsListOf};
ghost use Rattle.poly_design.specs.PlacementOrder.{placement_cmp};
ghost use Rattle.poly_design.specs.Placements.{FewPlacements, IsPlace, IsPlacement};
ghost use Rattle.poly_design.specs.Limits.{IsInRange, NoneBlocked};

use crate::board::Board;
use crate::mode::Mode;
use crate::name::Name;
use crate::placement::Placement;
use crate::places::{places, places_on};
use crate::spec::Spec;
use poly_grid::{Cell, Refusal};
use poly_shape::Cells;
use std::alloc::Global;
use std::collections::BTreeMap;

/// The most placements of a design.
pub const MAX_PLACEMENTS: usize = 20_000;

/// All placements, in ascending order. Fails with `TooManyPlacements` as soon as there are too many.
pub(crate) fn all_placements(
    alloc: Global,
    cells: &BTreeMap<Cell, Mode>,
    pieces: &BTreeMap<Name, Spec>,
) -> Result<Vec<Placement>, Refusal>
    requires { NoneBlocked cells.now.entries }
    ensures ok { (grid : Grid) → IfOk result (λ list. IsListOf placement_cmp (IsPlacement (record { grid = grid; cells = cells.now.entries; pieces = pieces.now.entries })) list.items) }
    ensures ascending { OnOk result (IsAscending spot_cmp (keys cells.now) × IsAscending name_cmp (keys pieces.now)) }
    ensures in_range { OnOk result (All IsInRange (keys cells.now)) }
    ensures few { IfOk result (λ list. length list.items ≤ MAX_PLACEMENTS) }
    ensures why { (grid : Grid) → IfErr result (λ e. (e ≡ Refusal.Memory) ⊎ ((e ≡ Refusal.TooManyPlacements) × (¬ FewPlacements (record { grid = grid; cells = cells.now.entries; pieces = pieces.now.entries })))) }
{
    let board = Board::of(alloc, cells)?;
    let mut list = Vec::new(alloc);
    for (name, spec) in pieces {
        let found = places(alloc, &board, spec)?;
        append(&mut list, *name, &found)?;
        if list.len() > MAX_PLACEMENTS {
            return Err(Refusal::TooManyPlacements);
        }
    }
    Ok(list)
}

/// The placements that cover the cell, in ascending order.
pub(crate) fn placements_on(
    alloc: Global,
    cells: &BTreeMap<Cell, Mode>,
    pieces: &BTreeMap<Name, Spec>,
    cell: Cell,
) -> Result<Vec<Placement>, Refusal>
    requires { NoneBlocked cells.now.entries }
    ensures ok { (grid : Grid) → IfOk result (λ list. IsListOf placement_cmp (λ p. IsPlacement (record { grid = grid; cells = cells.now.entries; pieces = pieces.now.entries }) p × Contains p.cells cell) list.items) }
    ensures why { IfErr result (λ e. e ≡ Refusal.Memory) }
{
    let mut list = Vec::new(alloc);
    if !cells.contains_key(&cell) {
        return Ok(list);
    }
    let board = Board::of(alloc, cells)?;
    for (name, spec) in pieces {
        let found = places_on(alloc, &board, spec, cell)?;
        append(&mut list, *name, &found)?;
    }
    Ok(list)
}

/// The placements of the piece, in ascending order.
pub(crate) fn placements_of(
    alloc: Global,
    cells: &BTreeMap<Cell, Mode>,
    name: Name,
    spec: &Spec,
) -> Result<Vec<Placement>, Refusal>
    ensures ok { IfOk result (λ list. IsListOf placement_cmp (λ p. (p.name ≡ name) × IsPlace (Contains (keys cells.now)) spec.now p.cells) list.items) }
    ensures why { IfErr result (λ e. e ≡ Refusal.Memory) }
{
    let board = Board::of(alloc, cells)?;
    let found = places(alloc, &board, spec)?;
    let mut list = Vec::new(alloc);
    append(&mut list, name, &found)?;
    Ok(list)
}

fn append(list: &mut Vec<Placement>, name: Name, places: &[Cells]) -> Result<(), Refusal>
    ensures ok { OnOk result (list.new.items ≡ list.old.items ++ map (λ k. record { name = name; cells = k }) places.now) }
    ensures why { IfErr result (λ e. e ≡ Refusal.Memory) }
{
    for cells in places {
        list.push(Placement {
            name,
            cells: *cells,
        })?;
    }
    Ok(())
}
