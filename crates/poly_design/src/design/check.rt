//! Checking edits: which are refused and why, and which changes the accepted ones make.
ghost use Rattle.std.specs.Prelude.{◌≡◌, ◌≢◌, ◌≤◌, length, ◌⊎◌, ◌↔◌, None, Some, Err, OnOk, IfOk, IfErr, IsTrue};
ghost use Rattle.poly_design.specs.Limits.{IsDesign};
ghost use Rattle.poly_design.specs.Changes.{changed, set_mode};
ghost use Rattle.poly_design.specs.Placements.{FewPlacements, IsPlacement};
ghost use Rattle.poly_design.specs.Edits.{IsAccepted, IsRefused, NoneEarly, RefusesEarly, causes};

use super::{Design, MAX_CELLS, MAX_PIECES};
use crate::cells_set::CellsSet;
use crate::change::Change;
use crate::copies::Copies;
use crate::edit::Edit;
use crate::equal::{same_copies, same_mode, same_pin};
use crate::listing::MAX_PLACEMENTS;
use crate::mode::Mode;
use crate::name::Name;
use crate::need::Need;
use crate::placement::Placement;
use crate::spec::Spec;
use poly_grid::{Cell, Grid, Refusal};
use poly_shape::{Cells, Shape};

impl Design {
    /// The change that the edit asks for; its before side is what the design holds.
    ///
    /// Fails with the first cause that holds. For a new piece these are `NameTaken`, `BadShape` if the shape belongs to the
    /// other grid, `TooManyPieces` and `TooManyPlacements`. For the other edits they are `NoSuchPiece` if the edit names a
    /// piece that doesn't exist, `NoChange` if the edit would change nothing, `TooManyCells` and `TooManyPlacements` if the
    /// result would be over a limit, and `NotAPlacement` if the cells to pin or to forbid are no placement of the piece.
    ///
    /// Allocates only to detect `TooManyPlacements` or `NotAPlacement`, and to build the change. So `Memory` may come in place
    /// of these two refusals or of the change, but never in place of another refusal.
    pub fn check(&self, edit: &Edit) -> Result<Change, Refusal>
        ensures ok { IfOk result (λ change. IsAccepted self.now edit.now change) }
        ensures why { IfErr result (λ e. (e ≡ Refusal.Memory) ⊎ IsRefused self.now edit.now e) }
        ensures early { RefusesEarly self.now edit.now result }
    {
        match *edit {
            Edit::Add {
                name,
                shape,
                need,
                mirror,
            } => self.check_add(name, shape, need, mirror),
            Edit::Drop { name } => self.check_drop(name),
            Edit::Need { name, need } => self.check_need(name, need),
            Edit::Copies { name, copies } => self.check_copies(name, copies),
            Edit::Mirror { name, mirror } => self.check_mirror(name, mirror),
            Edit::Cell { cell, mode } => self.check_cell(cell, mode),
            Edit::Pin { name, cells } => self.check_pin(name, cells),
            Edit::Unpin { name } => self.check_unpin(name),
            Edit::Forbid { name, cells } => self.check_forbid(name, cells),
            Edit::Allow { name, cells } => self.check_allow(name, cells),
        }
    }

    fn check_drop(&self, name: Name) -> Result<Change, Refusal>
        ensures ok { IfOk result (λ change. IsAccepted self.now (Edit.Drop name) change) }
        ensures why { IfErr result (λ e. (e ≡ Refusal.Memory) ⊎ IsRefused self.now (Edit.Drop name) e) }
        ensures memory { result ≡ Err Refusal.Memory → NoneEarly (causes self.now (Edit.Drop name)) }
    {
        let Some(spec) = self.pieces.get(&name) else {
            return Err(Refusal::NoSuchPiece);
        };
        let before = spec.copy()?;
        Ok(Change::Piece {
            name,
            before: Some(before),
            after: None,
        })
    }

    fn check_need(&self, name: Name, need: Need) -> Result<Change, Refusal>
        ensures ok { IfOk result (λ change. IsAccepted self.now (Edit.Need name need) change) }
        ensures why { IfErr result (λ e. (e ≡ Refusal.Memory) ⊎ IsRefused self.now (Edit.Need name need) e) }
        ensures memory { result ≡ Err Refusal.Memory → NoneEarly (causes self.now (Edit.Need name need)) }
    {
        self.check_copies(name, need.copies())
    }

    fn check_copies(&self, name: Name, copies: Copies) -> Result<Change, Refusal>
        ensures ok { IfOk result (λ change. IsAccepted self.now (Edit.Copies name copies) change) }
        ensures why { IfErr result (λ e. (e ≡ Refusal.Memory) ⊎ IsRefused self.now (Edit.Copies name copies) e) }
        ensures memory { result ≡ Err Refusal.Memory → NoneEarly (causes self.now (Edit.Copies name copies)) }
    {
        let Some(spec) = self.pieces.get(&name) else {
            return Err(Refusal::NoSuchPiece);
        };
        if same_copies(spec.copies, copies) {
            return Err(Refusal::NoChange);
        }
        let mut after = spec.copy()?;
        after.copies = copies;
        changed_spec(name, spec, after)
    }

    fn check_pin(&self, name: Name, cells: Cells) -> Result<Change, Refusal>
        ensures ok { IfOk result (λ change. IsAccepted self.now (Edit.Pin name cells) change) }
        ensures why { IfErr result (λ e. (e ≡ Refusal.Memory) ⊎ IsRefused self.now (Edit.Pin name cells) e) }
        ensures memory { result ≡ Err Refusal.Memory → NoneEarly (causes self.now (Edit.Pin name cells)) }
    {
        let Some(spec) = self.pieces.get(&name) else {
            return Err(Refusal::NoSuchPiece);
        };
        if same_pin(spec.pin, Some(cells)) {
            return Err(Refusal::NoChange);
        }
        if !self.is_placement(name, &cells)? {
            return Err(Refusal::NotAPlacement);
        }
        let mut after = spec.copy()?;
        after.pin = Some(cells);
        changed_spec(name, spec, after)
    }

    fn check_unpin(&self, name: Name) -> Result<Change, Refusal>
        ensures ok { IfOk result (λ change. IsAccepted self.now (Edit.Unpin name) change) }
        ensures why { IfErr result (λ e. (e ≡ Refusal.Memory) ⊎ IsRefused self.now (Edit.Unpin name) e) }
        ensures memory { result ≡ Err Refusal.Memory → NoneEarly (causes self.now (Edit.Unpin name)) }
    {
        let Some(spec) = self.pieces.get(&name) else {
            return Err(Refusal::NoSuchPiece);
        };
        if !is_pinned(spec) {
            return Err(Refusal::NoChange);
        }
        let mut after = spec.copy()?;
        after.pin = None;
        changed_spec(name, spec, after)
    }

    fn check_forbid(&self, name: Name, cells: Cells) -> Result<Change, Refusal>
        ensures ok { IfOk result (λ change. IsAccepted self.now (Edit.Forbid name cells) change) }
        ensures why { IfErr result (λ e. (e ≡ Refusal.Memory) ⊎ IsRefused self.now (Edit.Forbid name cells) e) }
        ensures memory { result ≡ Err Refusal.Memory → NoneEarly (causes self.now (Edit.Forbid name cells)) }
    {
        let Some(spec) = self.pieces.get(&name) else {
            return Err(Refusal::NoSuchPiece);
        };
        if spec.forbidden.contains(&cells) {
            return Err(Refusal::NoChange);
        }
        if !self.is_placement(name, &cells)? {
            return Err(Refusal::NotAPlacement);
        }
        let mut forbidden = spec.forbidden.copy()?;
        forbidden.insert(cells)?;
        let after = with_forbidden(spec, forbidden);
        changed_spec(name, spec, after)
    }

    fn check_allow(&self, name: Name, cells: Cells) -> Result<Change, Refusal>
        ensures ok { IfOk result (λ change. IsAccepted self.now (Edit.Allow name cells) change) }
        ensures why { IfErr result (λ e. (e ≡ Refusal.Memory) ⊎ IsRefused self.now (Edit.Allow name cells) e) }
        ensures memory { result ≡ Err Refusal.Memory → NoneEarly (causes self.now (Edit.Allow name cells)) }
    {
        let Some(spec) = self.pieces.get(&name) else {
            return Err(Refusal::NoSuchPiece);
        };
        if !spec.forbidden.contains(&cells) {
            return Err(Refusal::NoChange);
        }
        let mut forbidden = spec.forbidden.copy()?;
        forbidden.remove(&cells);
        let after = with_forbidden(spec, forbidden);
        let change = changed_spec(name, spec, after)?;
        match self.keeps_few(&change) {
            Ok(()) => Ok(change),
            Err(refusal) => Err(refusal),
        }
    }

    fn check_mirror(&self, name: Name, mirror: bool) -> Result<Change, Refusal>
        ensures ok { IfOk result (λ change. IsAccepted self.now (Edit.Mirror name mirror) change) }
        ensures why { IfErr result (λ e. (e ≡ Refusal.Memory) ⊎ IsRefused self.now (Edit.Mirror name mirror) e) }
        ensures memory { result ≡ Err Refusal.Memory → NoneEarly (causes self.now (Edit.Mirror name mirror)) }
    {
        let Some(spec) = self.pieces.get(&name) else {
            return Err(Refusal::NoSuchPiece);
        };
        if has_mirror(spec, mirror) {
            return Err(Refusal::NoChange);
        }
        let mut after = spec.copy()?;
        after.mirror = mirror;
        let change = changed_spec(name, spec, after)?;
        match self.keeps_few(&change) {
            Ok(()) => Ok(change),
            Err(refusal) => Err(refusal),
        }
    }

    fn check_add(
        &self,
        name: Name,
        shape: Shape,
        need: Need,
        mirror: bool,
    ) -> Result<Change, Refusal>
        ensures ok { IfOk result (λ change. IsAccepted self.now (Edit.Add name shape need mirror) change) }
        ensures why { IfErr result (λ e. (e ≡ Refusal.Memory) ⊎ IsRefused self.now (Edit.Add name shape need mirror) e) }
        ensures memory { result ≡ Err Refusal.Memory → NoneEarly (causes self.now (Edit.Add name shape need mirror)) }
    {
        if self.pieces.contains_key(&name) {
            return Err(Refusal::NameTaken);
        }
        if !is_of(&shape, self.grid) {
            return Err(Refusal::BadShape);
        }
        if self.pieces.len() >= MAX_PIECES {
            return Err(Refusal::TooManyPieces);
        }
        let spec = Spec {
            shape,
            copies: need.copies(),
            mirror,
            pin: None,
            forbidden: CellsSet::new(self.alloc),
        };
        let change = Change::Piece {
            name,
            before: None,
            after: Some(spec),
        };
        match self.keeps_few(&change) {
            Ok(()) => Ok(change),
            Err(refusal) => Err(refusal),
        }
    }

    fn check_cell(&self, cell: Cell, mode: Mode) -> Result<Change, Refusal>
        ensures ok { IfOk result (λ change. IsAccepted self.now (Edit.Cell cell mode) change) }
        ensures why { IfErr result (λ e. (e ≡ Refusal.Memory) ⊎ IsRefused self.now (Edit.Cell cell mode) e) }
        ensures memory { result ≡ Err Refusal.Memory → NoneEarly (causes self.now (Edit.Cell cell mode)) }
    {
        let before = self.mode(cell);
        if same_mode(before, mode) {
            return Err(Refusal::NoChange);
        }
        if !self.has_room(cell, mode) {
            return Err(Refusal::TooManyCells);
        }
        let change = Change::Cell {
            cell,
            before,
            after: mode,
        };
        if same_mode(mode, Mode::Blocked) {
            return Ok(change);
        }
        match self.keeps_few(&change) {
            Ok(()) => Ok(change),
            Err(refusal) => Err(refusal),
        }
    }

    // Whether there is room for the cell with this mode. A blocked cell takes no room.
    fn has_room(&self, cell: Cell, mode: Mode) -> bool
        ensures room { IsTrue result ↔ (length (set_mode self.now.cells cell mode) ≤ MAX_CELLS) }
        ensures design { IsDesign self.now }
    {
        if self.cells.len() < MAX_CELLS {
            return true;
        }
        if self.cells.contains_key(&cell) {
            return true;
        }
        same_mode(mode, Mode::Blocked)
    }

    // Refuses the change if there are too many placements after it.
    fn keeps_few(&self, change: &Change) -> Result<(), Refusal>
        ensures ok { OnOk result (FewPlacements (changed self.now change.now)) }
        ensures why { IfErr result (λ e. (e ≡ Refusal.Memory) ⊎ ((e ≡ Refusal.TooManyPlacements) × (¬ FewPlacements (changed self.now change.now)))) }
    {
        if self.count_after(change)? > MAX_PLACEMENTS {
            return Err(Refusal::TooManyPlacements);
        }
        Ok(())
    }

    fn is_placement(&self, name: Name, cells: &Cells) -> Result<bool, Refusal>
        ensures ok { IfOk result (λ there. IsTrue there ↔ IsPlacement self.now (record { name = name; cells = cells.now })) }
        ensures why { IfErr result (λ e. e ≡ Refusal.Memory) }
    {
        let list = self.places_on(cells.as_slice()[0])?;
        Ok(list.contains(&Placement {
            name,
            cells: *cells,
        }))
    }
}

// The change of the piece with this name from `spec` to `after`. Fails only when out of memory.
fn changed_spec(name: Name, spec: &Spec, after: Spec) -> Result<Change, Refusal>
    ensures ok { IfOk result (λ change. change ≡ Change.Piece name (Some spec.now) (Some after)) }
    ensures why { IfErr result (λ e. e ≡ Refusal.Memory) }
{
    Ok(Change::Piece {
        name,
        before: Some(spec.copy()?),
        after: Some(after),
    })
}

fn with_forbidden(spec: &Spec, forbidden: CellsSet) -> Spec
    ensures { result ≡ record spec.now { forbidden = forbidden } }
{
    Spec {
        shape: spec.shape,
        copies: spec.copies,
        mirror: spec.mirror,
        pin: spec.pin,
        forbidden,
    }
}

fn is_of(shape: &Shape, grid: Grid) -> bool
    ensures { IsTrue result ↔ (shape.now.grid ≡ grid) }
{
    shape.grid() == grid
}

fn has_mirror(spec: &Spec, mirror: bool) -> bool
    ensures { IsTrue result ↔ (spec.now.mirror ≡ mirror) }
{
    spec.mirror == mirror
}

fn is_pinned(spec: &Spec) -> bool
    ensures { IsTrue result ↔ (spec.now.pin ≢ None) }
{
    match spec.pin {
        Some(_) => true,
        None => false,
    }
}
