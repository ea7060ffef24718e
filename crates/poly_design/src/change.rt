//! Changes of a design, and their inverses.
ghost use Rattle.std.specs.Prelude.{◌≡◌, ◌↔◌, IsTrue, IfOk, IfErr};
ghost use Rattle.poly_design.specs.Layout.{Layout};
ghost use Rattle.poly_design.specs.Limits.{IsDesign};
ghost use Rattle.poly_design.specs.Changes.{HasBefore, changed, inverse_of};

use crate::equal::{same_cell, same_mode, same_name, same_piece};
use crate::mode::Mode;
use crate::name::Name;
use crate::spec::{Spec, copy_of};
use poly_grid::{Cell, Refusal};

/// A change of one cell or of one piece: the cell's mode or the piece, before and after.
#[derive(Drop)]
pub enum Change {
    /// The modes of a cell before and after.
    Cell {
        /// The cell that changes.
        cell: Cell,
        /// Its mode before the change.
        before: Mode,
        /// Its mode after the change.
        after: Mode,
    },
    /// The piece of a name before and after.
    Piece {
        /// The name of the piece that changes.
        name: Name,
        /// The piece before the change, or `None` if there was none.
        before: Option<Spec>,
        /// The piece after the change, or `None` if there is none.
        after: Option<Spec>,
    },
}

impl Change {
    /// The change with its sides exchanged.
    ///
    /// If a design has the change's before side, making the change and then its inverse restores the design.
    pub fn inverse(self) -> Change
        ensures value { result ≡ inverse_of self }
        ensures restores { (d : Layout) → IsDesign d → HasBefore d self → changed (changed d self) result ≡ d }
        ensures stands { (d : Layout) → IsDesign d → HasBefore (changed d self) result }
    {
        match self {
            Change::Cell {
                cell,
                before,
                after,
            } => Change::Cell {
                cell,
                before: after,
                after: before,
            },
            Change::Piece {
                name,
                before: old,
                after: new,
            } => Change::Piece {
                name,
                before: new,
                after: old,
            },
        }
    }

    /// Whether the two changes are equal. Never allocates.
    pub fn is_same(&self, other: &Change) -> bool
        ensures { IsTrue result ↔ (self.now ≡ other.now) }
    {
        match self {
            Change::Cell {
                cell,
                before,
                after,
            } => is_cell_change(other, *cell, *before, *after),
            Change::Piece {
                name,
                before,
                after,
            } => is_piece_change(other, *name, before, after),
        }
    }

    /// An equal change. Fails only when out of memory.
    pub fn copy(&self) -> Result<Change, Refusal>
        ensures ok { IfOk result (λ change. change ≡ self.now) }
        ensures why { IfErr result (λ e. e ≡ Refusal.Memory) }
    {
        match self {
            Change::Cell {
                cell,
                before,
                after,
            } => Ok(Change::Cell {
                cell: *cell,
                before: *before,
                after: *after,
            }),
            Change::Piece {
                name,
                before,
                after,
            } => Ok(Change::Piece {
                name: *name,
                before: copy_of(before)?,
                after: copy_of(after)?,
            }),
        }
    }
}

fn is_cell_change(change: &Change, at: Cell, old: Mode, new: Mode) -> bool
    ensures { IsTrue result ↔ (change.now ≡ Change.Cell at old new) }
{
    match change {
        Change::Cell {
            cell,
            before,
            after,
        } => same_cell(*cell, at) && same_mode(*before, old) && same_mode(*after, new),
        Change::Piece { .. } => false,
    }
}

fn is_piece_change(change: &Change, of: Name, old: &Option<Spec>, new: &Option<Spec>) -> bool
    ensures { IsTrue result ↔ (change.now ≡ Change.Piece of old.now new.now) }
{
    match change {
        Change::Cell { .. } => false,
        Change::Piece {
            name,
            before,
            after,
        } => same_name(*name, of) && same_piece(before, old) && same_piece(after, new),
    }
}
