//! How many placements there are after a change.
//!
//! A change of a piece affects only the placements of that piece, and a change of a cell only those on that cell. So only
//! these are listed. Their count before the change is subtracted from the total that the design stores, and their count after
//! the change is added.
ghost use Rattle.std.specs.Prelude.{◌≡◌, ◌≢◌, ◌↔◌, ℕ, IfOk, IfErr, IsTrue};
ghost use Rattle.std.specs.BTreeMap.{keys};
ghost use Rattle.std.specs.List.{Contains};
ghost use Rattle.std.specs.Option.{option_copied};
ghost use Rattle.poly_design.specs.Changes.{changed, set_mode, set_spec};
ghost use Rattle.poly_design.specs.Listed.{IsCount, IsListOf};
ghost use Rattle.poly_design.specs.PlacementOrder.{placement_cmp};
ghost use Rattle.poly_design.specs.Placements.{IsOfPiece, IsPlacement};

use super::Design;
use crate::change::Change;
use crate::listing::{placements_of, placements_on};
use crate::mode::Mode;
use crate::name::Name;
use crate::parts::{copy_cells, put_mode};
use crate::placement::Placement;
use crate::spec::Spec;
use poly_grid::{Cell, Refusal};
use std::alloc::Global;
use std::collections::BTreeMap;

impl Design {
    /// How many placements there are after the change. Fails only when out of memory.
    pub(super) fn count_after(&self, change: &Change) -> Result<usize, Refusal>
        ensures ok { IfOk result (λ n. IsCount placement_cmp (IsPlacement (changed self.now change.now)) n) }
        ensures why { IfErr result (λ e. e ≡ Refusal.Memory) }
    {
        match change {
            Change::Cell { cell, after, .. } => self.count_with_mode(*cell, *after),
            Change::Piece { name, after, .. } => self.count_with_spec(*name, after),
        }
    }

    fn count_with_mode(&self, cell: Cell, mode: Mode) -> Result<usize, Refusal>
        ensures ok { IfOk result (λ n. IsCount placement_cmp (IsPlacement (record { grid = self.now.grid; cells = set_mode self.now.cells cell mode; pieces = self.now.pieces })) n) }
        ensures why { IfErr result (λ e. e ≡ Refusal.Memory) }
    {
        if are_alike(self.mode(cell), mode) {
            return Ok(self.placement_count);
        }
        let mut cells = copy_cells(self.alloc, &self.cells)?;
        put_mode(&mut cells, cell, mode)?;
        let gone = placements_on(self.alloc, &self.cells, &self.pieces, cell)?;
        let come = placements_on(self.alloc, &cells, &self.pieces, cell)?;
        Ok(self.placement_count - gone.len() + come.len())
    }

    fn count_with_spec(&self, name: Name, spec: &Option<Spec>) -> Result<usize, Refusal>
        ensures ok { IfOk result (λ n. IsCount placement_cmp (IsPlacement (record { grid = self.now.grid; cells = self.now.cells; pieces = set_spec self.now.pieces name spec.now })) n) }
        ensures why { IfErr result (λ e. e ≡ Refusal.Memory) }
    {
        let before = placements_of_some(self.alloc, &self.cells, name, self.pieces.get(&name))?;
        let after = placements_of_some(self.alloc, &self.cells, name, spec.as_ref())?;
        Ok(self.placement_count - before.len() + after.len())
    }
}

// The placements of a piece, or none if the piece is missing.
fn placements_of_some(
    alloc: Global,
    cells: &BTreeMap<Cell, Mode>,
    name: Name,
    spec: Option<&Spec>,
) -> Result<Vec<Placement>, Refusal>
    ensures ok { IfOk result (λ list. IsListOf placement_cmp (IsOfPiece (Contains (keys cells.now)) name (option_copied spec.entry)) list.items) }
    ensures why { IfErr result (λ e. e ≡ Refusal.Memory) }
{
    match spec {
        Some(spec) => placements_of(alloc, cells, name, spec),
        None => Ok(Vec::new(alloc)),
    }
}

// Whether both modes are blocked or neither is.
fn are_alike(a: Mode, b: Mode) -> bool
    ensures { IsTrue result → ((a ≢ Mode.Blocked) ↔ (b ≢ Mode.Blocked)) }
{
    (a == Mode::Blocked) == (b == Mode::Blocked)
}
