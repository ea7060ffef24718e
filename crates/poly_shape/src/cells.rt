//! Sets of 1 to 16 cells, stored in place, without an allocation.

ghost use Rattle.std.specs.Prelude.{◌≡◌, ◌+◌, ◌<◌, ◌≤◌, ◌≢◌, ◌↔◌, ◌⊎◌, [], ◌∷◌, ◌++◌, length, drop, IsTrue, IsOk, IfOk, IfErr, SomeIff, Contains};
ghost use Rattle.poly_grid.specs.Spot.{Spot};
ghost use Rattle.poly_shape.specs.Order.{IsAscending, Adds, AreFewDistinct, HasSame, spot_cmp};
ghost use Rattle.poly_shape.specs.Moves.{StaysInRange, moved_by};

use poly_grid::{Cell, Refusal};
use std::cmp::Ordering;
use std::hash::{Hash, Hasher};
use std::marker::Model;

/// A set of 1 to 16 cells, kept in cell order (by row, then by column) and stored in place, without an allocation.
///
/// Two sets are compared as their lists of cells: a list that is a prefix of another comes first.
#[derive(Clone, Copy, Debug)]
pub struct Cells {
    /// The cells in cell order, and after them the cell 0,0, repeated up to the end.
    cells: [Cell; 16],
    /// How many cells the set has, 1 to 16.
    len: usize,
}

impl Model for Cells {
    ghost use Rattle.std.specs.Prelude.{List, length};
    ghost use Rattle.poly_grid.specs.Spot.{Spot};

    ghost Value = { List Spot };

    ghost use Rattle.std.proofs.Common.{sym};
    ghost use Rattle.poly_shape.specs.Cells.{IsWellKept, padded, list_of};

    ghost view = { list_of };

    ghost invariant = { IsWellKept };

    ghost inverse = { λ l. record { cells = padded l; len = length l } };

    ghost inverse_ok = { λ a h i. record { cells = (sym h.padding) i; len = h.full i } };
}

impl Cells {
    ghost use Rattle.poly_shape.specs.Cells.{IsCells};

    /// The set of the cells. Fails with `BadShape` if there are none, if there are over 16, or if one is repeated.
    pub fn new(cells: &[Cell]) -> Result<Cells, Refusal>
        ensures ok { IfOk result (λ set. HasSame set cells.now) }
        ensures kept { IfOk result IsCells }
        ensures when { IsOk result ↔ AreFewDistinct cells.now }
        ensures why { IfErr result (λ e. e ≡ Refusal.BadShape) }
    {
        if cells.is_empty() || cells.len() > 16 {
            return Err(Refusal::BadShape);
        }
        let mut set = Cells::one(cells[0]);
        for i in 1..cells.len() {
            let cell = cells[i];
            if set.contains(cell) {
                return Err(Refusal::BadShape);
            }
            set = set.with(cell);
        }
        Ok(set)
    }

    /// The set of one cell.
    pub fn one(cell: Cell) -> Cells
        ensures value { result ≡ cell ∷ [] }
        ensures ascending { IsAscending spot_cmp result }
    {
        Cells::joined(&[], cell, &[])
    }

    /// The cells in cell order: by row, then by column.
    pub fn as_slice(&self) -> &[Cell]
        ensures value { result.now ≡ self.now }
        ensures some { 1 ≤ length self.now }
        ensures few { length self.now ≤ 16 }
        ensures ascending { IsAscending spot_cmp self.now }
    {
        &self.cells[..self.len]
    }

    /// Whether the cell is in the set.
    pub fn contains(&self, cell: Cell) -> bool
        ensures { IsTrue result ↔ Contains self.now cell }
    {
        self.as_slice().contains(&cell)
    }

    /// The set with one more cell, or the same set if it has the cell. Requires a set of at most 15 cells.
    pub fn with(self, cell: Cell) -> Cells
        requires { length self < 16 }
        ensures adds { Adds self cell result }
        ensures ascending { IsAscending spot_cmp result }
        ensures few { length result ≤ length self + 1 }
        ensures fresh { ¬ Contains self cell → length result ≡ length self + 1 }
    {
        let cells = self.as_slice();
        match cells.binary_search(&cell) {
            Ok(_) => self,
            Err(at) => Cells::joined(&cells[..at], cell, &cells[at..]),
        }
    }

    /// The set moved right and down, or `None` if a column or row would be over 63.
    pub fn translated(&self, right: u8, down: u8) -> Option<Cells>
        ensures { SomeIff result (StaysInRange right down self.now) (moved_by right down self.now) }
    {
        let cells = self.as_slice();
        let mut moved = [Cell::ORIGIN; 16];
        for i in 0..cells.len() {
            moved[i] = cells[i].translated(right, down)?;
        }
        let whole = &moved[..];
        Some(Cells::from_ascending(&whole[..cells.len()]))
    }

    fn from_ascending(cells: &[Cell]) -> Cells
        requires some { 1 ≤ length cells.now }
        requires few { length cells.now ≤ 16 }
        requires ascending { IsAscending spot_cmp cells.now }
        ensures { result ≡ cells.now }
    {
        Cells::joined(&[], cells[0], &cells[1..])
    }

    // Every set is made here, so the unused tail of the array is the same in equal sets.
    fn joined(front: &[Cell], cell: Cell, back: &[Cell]) -> Cells
        requires few { length front.now + length back.now < 16 }
        requires ascending { IsAscending spot_cmp (front.now ++ cell ∷ back.now) }
        ensures { result ≡ front.now ++ cell ∷ back.now }
    {
        let len = front.len() + 1 + back.len();
        let mut cells = [Cell::ORIGIN; 16];
        fill(&mut cells, front, cell, back);
        Cells { cells, len }
    }
}

impl PartialEq for Cells {
    ghost use Rattle.std.specs.Cmp.{partial_equiv_from_equiv};
    ghost use Rattle.std.specs.Cmp.Lexicographic.{pointwise, lists_equiv};
    ghost use Rattle.poly_shape.specs.Order.{spot_eq, spot_equiv};

    ghost eq = { pointwise spot_eq };

    ghost laws = { partial_equiv_from_equiv (lists_equiv spot_equiv) };

    fn eq(&self, other: &Cells) -> bool {
        self.as_slice() == other.as_slice()
    }
}

impl Eq for Cells {
    ghost use Rattle.std.specs.Cmp.Lexicographic.{lists_equiv};
    ghost use Rattle.poly_shape.specs.Order.{spot_equiv};

    ghost laws = { lists_equiv spot_equiv };
}

impl PartialOrd for Cells {
    ghost use Rattle.std.specs.Ordering.{as_partial_cmp};
    ghost use Rattle.poly_shape.specs.Order.{cells_cmp, cells_laws};

    ghost partial_cmp = { as_partial_cmp cells_cmp };

    ghost laws = { cells_laws };

    fn partial_cmp(&self, other: &Cells) -> Option<Ordering> {
        Some(self.cmp(other))
    }
}

impl Ord for Cells {
    ghost use Rattle.std.specs.Prelude.{refl};
    ghost use Rattle.poly_shape.specs.Order.{cells_cmp, cells_total, cells_ties};

    ghost cmp = { cells_cmp };

    ghost total = { cells_total };

    ghost matches_partial_cmp = { λ x y. refl };

    ghost matches_eq = { cells_ties };

    fn cmp(&self, other: &Cells) -> Ordering {
        self.as_slice().cmp(other.as_slice())
    }
}

impl Hash for Cells {
    ghost use Rattle.std.specs.Hash.{slice};
    ghost use Rattle.poly_shape.specs.Order.{spot_writes, cells_alike};

    ghost hash_input = { slice spot_writes };

    ghost respects_eq = { cells_alike.fed };

    fn hash<H: Hasher>(&self, state: &mut H) {
        let cells = self.as_slice();
        state.write_usize(cells.len());
        for cell in cells {
            state.write_u8(cell.y());
            state.write_u8(cell.x());
        }
    }
}

// Writes `front`, the cell and `back`, one after another, over the first elements of `room`.
fn fill(room: &mut [Cell], front: &[Cell], cell: Cell, back: &[Cell])
    requires { length front.now + 1 + length back.now ≤ length room.old }
    ensures { room.new ≡ (front.now ++ cell ∷ back.now) ++ drop (length front.now + 1 + length back.now) room.old }
{
    let at = front.len();
    let from = at + 1;
    let end = from + back.len();
    room[..at].copy_from_slice(front);
    room[from..end].copy_from_slice(back);
    room[at] = cell;
}
