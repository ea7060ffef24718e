//! The design: a board and named pieces, within limits that its type keeps.
ghost use Rattle.std.specs.Prelude.{◌≡◌, ◌↔◌, ◌⊎◌, ◌≤◌, [], None, Err, IsOk, IsTrue, IfOk, IfErr, OnOk, OnErr, length};
ghost use Rattle.std.specs.List.{All, Contains};
ghost use Rattle.std.specs.Map.{keys_of};
ghost use Rattle.std.specs.Option.{option_copied};
ghost use Rattle.std.specs.BTreeMap.{btree_map_len};
ghost use Rattle.poly_design.specs.Layout.{mode_of, spec_of};
ghost use Rattle.poly_design.specs.Listed.{IsListOf};
ghost use Rattle.poly_design.specs.PlacementOrder.{placement_cmp};
ghost use Rattle.poly_design.specs.Placements.{FewPlacements, IsPlacement};
ghost use Rattle.poly_design.specs.Changes.{changed};
ghost use Rattle.poly_design.specs.Limits.{AreOfGrid, IsDesign, IsInRange, NoneBlocked};
ghost use Rattle.poly_design.specs.declared.listing.TheConstants.{MAX_PLACEMENTS};

mod check;
mod count;

use crate::change::Change;
use crate::equal::{same_grid, same_modes, same_pieces};
use crate::listing::{all_placements, placements_of, placements_on};
use crate::mode::Mode;
use crate::name::Name;
use crate::parts::{copy_cells, copy_pieces, put_mode, put_spec};
use crate::placement::Placement;
use crate::spec::Spec;
use poly_grid::{Cell, Grid, Refusal};
use std::alloc::Global;
use std::collections::BTreeMap;
use std::marker::Model;

/// The most cells of a design that are not blocked.
pub const MAX_CELLS: usize = 256;

/// The most pieces of a design.
pub const MAX_PIECES: usize = 64;

/// The design of a puzzle. It has at most 256 cells that are not blocked, 64 pieces and 20,000 placements, and all of
/// its shapes are shapes of its grid.
#[derive(Drop)]
pub struct Design {
    /// The allocator of copies and lists.
    alloc: Global,
    /// The grid that the cells and the shapes belong to.
    grid: Grid,
    /// The cells that are not blocked, with their modes.
    cells: BTreeMap<Cell, Mode>,
    /// The pieces by name.
    pieces: BTreeMap<Name, Spec>,
    /// The number of all placements. With it, a change lists only the placements of its own cell or piece.
    placement_count: usize,
}

impl Model for Design {
    ghost use Rattle.poly_design.specs.Layout.{Layout};
    ghost use Rattle.poly_design.specs.Limits.{IsCounted};

    ghost Value = { Layout };

    ghost view = { λ d. record { grid = d.grid; cells = d.cells.entries; pieces = d.pieces.entries } };

    ghost invariant = { λ d. IsCounted (record { grid = d.grid; cells = d.cells.entries; pieces = d.pieces.entries }) d.placement_count };
}

impl Design {
    /// The design without cells or pieces. Never allocates.
    pub fn empty(alloc: Global, grid: Grid) -> Design
        ensures { result ≡ record { grid = grid; cells = []; pieces = [] } }
    {
        Design {
            alloc,
            grid,
            cells: BTreeMap::new(alloc),
            pieces: BTreeMap::new(alloc),
            placement_count: 0,
        }
    }

    /// The design of these parts.
    ///
    /// Fails with `TooManyPlacements` if there would be over 20,000 placements, or with `Memory`. Requires at most 256 cells,
    /// none of them blocked, and at most 64 pieces, all with shapes of the grid.
    pub fn of_parts(
        alloc: Global,
        grid: Grid,
        cells: BTreeMap<Cell, Mode>,
        pieces: BTreeMap<Name, Spec>,
    ) -> Result<Design, Refusal>
        requires few_cells { btree_map_len cells ≤ MAX_CELLS }
        requires unblocked { NoneBlocked cells.entries }
        requires few_pieces { btree_map_len pieces ≤ MAX_PIECES }
        requires of_grid { AreOfGrid grid pieces.entries }
        ensures ok { IfOk result (λ d. d ≡ record { grid = grid; cells = cells.entries; pieces = pieces.entries }) }
        ensures few { IsOk result → FewPlacements (record { grid = grid; cells = cells.entries; pieces = pieces.entries }) }
        ensures many { result ≡ Err Refusal.TooManyPlacements → ¬ FewPlacements (record { grid = grid; cells = cells.entries; pieces = pieces.entries }) }
        ensures why { IfErr result (λ e. (e ≡ Refusal.TooManyPlacements) ⊎ (e ≡ Refusal.Memory)) }
    {
        match all_placements(alloc, &cells, &pieces) {
            Ok(list) => Ok(Design {
                alloc,
                grid,
                cells,
                pieces,
                placement_count: list.len(),
            }),
            Err(refusal) => Err(refusal),
        }
    }

    /// The grid that the cells and the shapes belong to.
    pub fn grid(&self) -> Grid
        ensures value { result ≡ self.now.grid }
        ensures design { IsDesign self.now }
    {
        self.grid
    }

    /// The cells that are not blocked, with their modes, in cell order. Columns and rows are 0 to 63.
    pub fn cells(&self) -> &BTreeMap<Cell, Mode>
        ensures value { result.now.entries ≡ self.now.cells }
        ensures design { IsDesign self.now }
        ensures in_range { All IsInRange (keys_of self.now.cells) }
    {
        &self.cells
    }

    /// The pieces by name, in name order.
    pub fn pieces(&self) -> &BTreeMap<Name, Spec>
        ensures value { result.now.entries ≡ self.now.pieces }
        ensures design { IsDesign self.now }
    {
        &self.pieces
    }

    /// The mode of the cell. A cell without an entry in `cells()` is blocked.
    pub fn mode(&self, cell: Cell) -> Mode
        ensures { result ≡ mode_of self.now cell }
    {
        self.cells.get(&cell).copied().unwrap_or(Mode::Blocked)
    }

    /// The piece of that name, if there is one.
    pub fn spec(&self, name: Name) -> Option<&Spec>
        ensures { option_copied result ≡ spec_of self.now name }
    {
        self.pieces.get(&name)
    }

    /// All placements, in ascending order. Fails only when out of memory.
    pub fn places(&self) -> Result<Vec<Placement>, Refusal>
        ensures ok { IfOk result (λ list. IsListOf placement_cmp (IsPlacement self.now) list.items) }
        ensures few { IfOk result (λ list. length list.items ≤ MAX_PLACEMENTS) }
        ensures why { IfErr result (λ e. e ≡ Refusal.Memory) }
    {
        all_placements(self.alloc, &self.cells, &self.pieces)
    }

    /// The placements of the piece, in ascending order.
    ///
    /// Fails with `NoSuchPiece` if no piece has that name, or with `Memory`.
    pub fn places_of(&self, name: Name) -> Result<Vec<Placement>, Refusal>
        ensures ok { IfOk result (λ list. IsListOf placement_cmp (λ p. IsPlacement self.now p × (p.name ≡ name)) list.items) }
        ensures unknown { (result ≡ Err Refusal.NoSuchPiece) ↔ (spec_of self.now name ≡ None) }
        ensures why { IfErr result (λ e. (e ≡ Refusal.NoSuchPiece) ⊎ (e ≡ Refusal.Memory)) }
    {
        let Some(spec) = self.pieces.get(&name) else {
            return Err(Refusal::NoSuchPiece);
        };
        placements_of(self.alloc, &self.cells, name, spec)
    }

    /// The placements that cover the cell, in ascending order. Fails only when out of memory.
    pub fn places_on(&self, cell: Cell) -> Result<Vec<Placement>, Refusal>
        ensures ok { IfOk result (λ list. IsListOf placement_cmp (λ p. IsPlacement self.now p × Contains p.cells cell) list.items) }
        ensures why { IfErr result (λ e. e ≡ Refusal.Memory) }
    {
        placements_on(self.alloc, &self.cells, &self.pieces, cell)
    }

    /// Makes the change: its cell or piece gets the change's after side, whatever it was before. Requires that the result
    /// keeps the limits, and that its shapes are shapes of its grid.
    ///
    /// Fails only when out of memory, and then leaves the design unchanged.
    pub fn make(&mut self, change: &Change) -> Result<(), Refusal>
        requires { IsDesign (changed self.old change.now) }
        ensures ok { OnOk result (self.new ≡ changed self.old change.now) }
        ensures err { OnErr result (self.new ≡ self.old) }
        ensures why { IfErr result (λ e. e ≡ Refusal.Memory) }
    {
        let placement_count = self.count_after(change)?;
        match change {
            Change::Cell { cell, after, .. } => put_mode(&mut self.cells, *cell, *after)?,
            Change::Piece { name, after, .. } => put_spec(&mut self.pieces, *name, after)?,
        }
        self.placement_count = placement_count;
        Ok(())
    }

    /// Whether the two designs are equal. Never allocates.
    pub fn is_same(&self, other: &Design) -> bool
        ensures { IsTrue result ↔ (self.now ≡ other.now) }
    {
        same_grid(self.grid(), other.grid())
            && same_modes(self.cells(), other.cells())
            && same_pieces(self.pieces(), other.pieces())
    }

    /// An equal design. Fails only when out of memory.
    pub fn copy(&self) -> Result<Design, Refusal>
        ensures ok { IfOk result (λ design. design ≡ self.now) }
        ensures why { IfErr result (λ e. e ≡ Refusal.Memory) }
    {
        let cells = copy_cells(self.alloc, &self.cells)?;
        let pieces = copy_pieces(self.alloc, &self.pieces)?;
        Ok(Design {
            alloc: self.alloc,
            grid: self.grid,
            cells,
            pieces,
            placement_count: self.placement_count,
        })
    }
}
