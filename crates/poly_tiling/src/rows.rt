//! Rows of numbers, one after another in one list.
//!
//! A list of lists would take an allocation for each row. The rows would be spread over the memory, and sorting a million of
//! them would miss the processor's cache at most comparisons.
ghost use Rattle.std.specs.Prelude.{IfErr, IfOk, OnOk, slice_index_or, ◌++◌, ◌∷◌, ◌≡◌, []};

use poly_grid::Refusal;
use std::alloc::Global;
use std::marker::Model;

/// Rows of numbers. A row is read by its index.
#[derive(Drop)]
pub(crate) struct Rows {
    /// The numbers of all rows, row after row.
    numbers: Vec<u32>,
    /// For each row, the index of its first number, and the index after its last one.
    spans: Vec<(usize, usize)>,
}

impl Model for Rows {
    ghost use Rattle.std.specs.Prelude.{List, map, ℕ};
    ghost use Rattle.poly_tiling.specs.Leading.{AreSpans, part};

    ghost Value = { List (List ℕ) };

    ghost view = { λ r. map (part r.numbers.items) r.spans.items };

    ghost invariant = { λ r. AreSpans r.numbers.items r.spans.items };
}

impl Rows {
    /// No rows, with room for this many rows and numbers. Fails only when out of memory.
    pub(crate) fn with_capacity(alloc: Global, rows: usize, numbers: usize) -> Result<Rows, Refusal>
        ensures ok { IfOk result (λ rows. rows ≡ []) }
        ensures why { IfErr result (λ e. e ≡ Refusal.Memory) }
    {
        let numbers = Vec::with_capacity(alloc, numbers)?;
        let spans = Vec::with_capacity(alloc, rows)?;
        Ok(Rows { numbers, spans })
    }

    /// Adds a row at the end. Fails only when out of memory.
    pub(crate) fn push(&mut self, row: &[u32]) -> Result<(), Refusal>
        ensures ok { OnOk result (self.new ≡ self.old ++ row.now ∷ []) }
        ensures why { IfErr result (λ e. e ≡ Refusal.Memory) }
    {
        let start = self.numbers.len();
        self.numbers.extend_from_slice(row)?;
        let end = self.numbers.len();
        self.spans.push((start, end))?;
        Ok(())
    }

    /// The row with this index; empty if there is no such row.
    pub(crate) fn row(&self, index: usize) -> &[u32]
        ensures { result.now ≡ slice_index_or self.now index [] }
    {
        match self.spans.get(index) {
            Some(span) => &self.numbers[span.0..span.1],
            None => &[],
        }
    }
}
