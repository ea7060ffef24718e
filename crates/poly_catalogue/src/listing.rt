//! A list of tilings with an index from each placement number to the tilings that have it.
ghost use Rattle.std.specs.Prelude.{◌≡◌, ◌+◌, ◌++◌, ◌^◌, ◌<◌, ◌∷◌, [], Bool, IfErr, List, OnErr, OnOk, length, nat_lt, take, true, ℕ};
ghost use Rattle.std.specs.List.{list_all};
ghost use Rattle.poly_tiling.specs.Lists.{ascending, one, tally};
ghost use Rattle.poly_catalogue.specs.Listed.{AreIndicesWith};
ghost use Rattle.poly_catalogue.specs.Rows.{at, row};

use crate::entries::{add_entries, reindex_last, remove_entries};
use crate::positions::Positions;
use crate::row::Row;
use poly_grid::Refusal;
use poly_tiling::Tiling;
use std::alloc::Global;
use std::marker::Model;

/// Tilings, found by index in the list and by the placements that they have.
#[derive(Drop)]
pub(crate) struct Listing {
    /// The allocator of all memory here.
    alloc: Global,
    /// The tilings, by index.
    tilings: Vec<Tiling>,
    /// For each tiling, its positions in the rows of its numbers, in the order of the numbers.
    positions: Positions,
    /// A row for each placement number, up to the greatest that a tiling had so far: the indices of the tilings that have the
    /// number, in any order.
    rows: Vec<Row>,
}

impl Model for Listing {
    ghost use Rattle.std.specs.Prelude.{List, ℕ};
    ghost use Rattle.poly_catalogue.specs.Index.{IsIndex};

    ghost Value = { List (List ℕ) };

    ghost view = { λ l. l.tilings.items };

    ghost invariant = { λ l. IsIndex l.tilings.items l.positions l.rows.items };
}

impl Listing {
    /// A list without tilings.
    pub(crate) fn new(alloc: Global) -> Listing
        ensures { result ≡ [] }
    {
        Listing {
            alloc,
            tilings: Vec::new(alloc),
            positions: Positions::new(alloc),
            rows: Vec::new(alloc),
        }
    }

    /// All tilings.
    pub(crate) fn all(&self) -> &[Tiling]
        ensures { result.now ≡ self.now }
    {
        &self.tilings
    }

    pub(crate) fn len(&self) -> usize
        ensures { result ≡ length self.now }
    {
        self.tilings.len()
    }

    /// The indices of the tilings that have the number.
    pub(crate) fn indices(&self, number: u32) -> &[u32]
        ensures { AreIndicesWith self.now number result.now }
    {
        match self.rows.get(number as usize) {
            Some(row) => row.numbers(),
            None => &[],
        }
    }

    /// Adds a tiling at the end. Fails only with `Memory`, and then the list stays as it was.
    pub(crate) fn push(&mut self, tiling: Tiling) -> Result<(), Refusal>
        requires { length self.old + 1 < 2 ^ 32 }
        ensures ok { OnOk result (self.new ≡ self.old ++ tiling ∷ []) }
        ensures err { OnErr result (self.new ≡ self.old) }
        ensures why { IfErr result (λ e. e ≡ Refusal.Memory) }
    {
        add_rows(self.alloc, &mut self.rows, tiling.numbers())?;
        self.tilings.reserve(1)?;
        self.positions.push(tiling.numbers().len())?;
        let last = self.tilings.len();
        self.tilings.push_reserved(tiling);
        match add_entries(&self.tilings, &mut self.positions, &mut self.rows, last) {
            Ok(()) => Ok(()),
            Err(refusal) => {
                self.tilings.truncate(last);
                self.positions.pop();
                Err(refusal)
            }
        }
    }

    /// Removes the tiling at an index. The last tiling moves to that index. Never allocates.
    pub(crate) fn remove(&mut self, index: usize)
        requires { index < length self.old }
        ensures tally { (f : List ℕ → Bool) → tally f self.new + one (f (row self.old index)) ≡ tally f self.old }
        ensures before { take index self.new ≡ take index self.old }
        ensures less { length self.new + 1 ≡ length self.old }
    {
        let count = self.tilings[index].numbers().len();
        remove_entries(
            &self.tilings,
            &mut self.positions,
            &mut self.rows,
            index,
            count,
        );
        reindex_last(&self.tilings, &self.positions, &mut self.rows, index);
        let _ = self.tilings.swap_remove(index);
        self.positions.swap_remove(index);
    }
}

// Makes rows for the numbers, which ascend. Fails only with `Memory`.
fn add_rows(alloc: Global, rows: &mut Vec<Row>, numbers: &[u32]) -> Result<(), Refusal>
    requires { ascending numbers.now ≡ true }
    ensures same { (a b : ℕ) → at rows.new.items a b ≡ at rows.old.items a b }
    ensures ok { OnOk result (list_all (λ p. nat_lt p (length rows.new.items)) numbers.now ≡ true) }
    ensures why { IfErr result (λ e. e ≡ Refusal.Memory) }
{
    match numbers.last() {
        Some(number) => reach(alloc, rows, *number),
        None => Ok(()),
    }
}

// Makes rows up to that of the number. Fails only with `Memory`.
fn reach(alloc: Global, rows: &mut Vec<Row>, number: u32) -> Result<(), Refusal>
    ensures same { (a b : ℕ) → at rows.new.items a b ≡ at rows.old.items a b }
    ensures ok { OnOk result (number < length rows.new.items) }
    ensures why { IfErr result (λ e. e ≡ Refusal.Memory) }
{
    while rows.len() <= number as usize {
        rows.push(Row::new(alloc))?;
    }
    Ok(())
}
