//! Rows of spans by placement: which tasks are noted under the `Has` atom of which placement.
//!
//! The first change after a long search notes thousands of tasks, nearly all of them under one such atom each. So a row isn't
//! searched for. A hint at the placement's number says where its row may be, and a row is used only if it has the placement.
//! If the hint is wrong, or there is none, the placement gets another row, which changes nothing: all of its rows count.
ghost use Rattle.std.specs.Prelude.{◌≡◌, ◌<◌, IfErr, OnOk, length, slice_index_or, true, ℕ};
ghost use Rattle.std.specs.List.Sorted.{IsNonDecreasingBy};
ghost use Rattle.poly_tasks.specs.declared.placed.PlacedRow.{PlacedRow as PlacedRowOf};
ghost use Rattle.poly_tasks.specs.Mapped.{ArePlacedStill, ArePlacedWider, in_span, placed};

use crate::rows::{Row, Span};
use crate::task::Pending;
use poly_grid::Refusal;
use std::alloc::Global;

/// Placements from this number on have no hints, which bounds their memory.
const HINTS: usize = 1 << 20;

/// The spans of tasks that are noted under the `Has` atom of a placement.
#[derive(Drop)]
pub(crate) struct PlacedRow {
    /// The placement.
    pub placement: u32,
    /// The spans.
    pub row: Row,
}

/// The rows of all placements. A placement may have several.
#[derive(Drop)]
pub(crate) struct PlacedRows {
    /// The rows.
    pub rows: Vec<PlacedRow>,
    // For each number of a placement, where its row may be.
    hints: Vec<u32>,
}

impl PlacedRows {
    /// No rows.
    pub(crate) fn new(alloc: Global) -> PlacedRows {
        PlacedRows {
            rows: Vec::new(alloc),
            hints: Vec::new(alloc),
        }
    }

    /// Notes the span under the placement. Fails only when out of memory. What was noted before stays noted in any case.
    pub(crate) fn note(&mut self, alloc: Global, placement: u32, span: Span) -> Result<(), Refusal>
        ensures wider { ArePlacedWider self.old.rows.items self.new.rows.items }
        ensures ok { OnOk result ((n : ℕ) → in_span span n ≡ true → placed self.new.rows.items placement n ≡ true) }
        ensures why { IfErr result (λ e. e ≡ Refusal.Memory) }
    {
        let index = hint(&self.hints, placement);
        if is_row_of(&self.rows, index, placement) {
            return push_at(&mut self.rows, index, span);
        }
        set_hint(&mut self.hints, placement, self.rows.len())?;
        add_row(alloc, &mut self.rows, placement, span)
    }

    /// Drops the spans without a pending task, and the rows without a span. The pending tasks are in the order of their numbers.
    /// What is noted for a pending task stays noted. Never allocates.
    pub(crate) fn tidy(&mut self, pending: &[Pending])
        requires { IsNonDecreasingBy (λ p. p.number) pending.now }
        ensures { ArePlacedStill pending.now self.old.rows.items self.new.rows.items }
    {
        tidy_placed(&mut self.rows, pending);
    }
}

// Where the placement's row may be; 0 if there is no hint.
fn hint(hints: &[u32], placement: u32) -> usize {
    match hints.get(placement as usize) {
        None => 0,
        Some(index) => *index as usize,
    }
}

// Lets the placement's hint lead to the index, if both are small. Fails only when out of memory.
fn set_hint(hints: &mut Vec<u32>, placement: u32, index: usize) -> Result<(), Refusal>
    ensures { IfErr result (λ e. e ≡ Refusal.Memory) }
{
    let at = placement as usize;
    if at >= HINTS || index > u32::MAX as usize {
        return Ok(());
    }
    if at >= hints.len() {
        hints.resize(at + 1, 0)?;
    }
    hints[at] = index as u32;
    Ok(())
}

// Whether there is a row at the index, and it has the placement.
fn is_row_of(rows: &[PlacedRow], index: usize, placement: u32) -> bool
    ensures { result ≡ true → (index < length rows.now) × ((d : PlacedRowOf) → (slice_index_or rows.now index d).placement ≡ placement) }
{
    match rows.get(index) {
        None => false,
        Some(row) => row.placement == placement,
    }
}

// Adds the span to the row at the index, which has the placement.
fn push_at(rows: &mut Vec<PlacedRow>, index: usize, span: Span) -> Result<(), Refusal>
    requires { index < length rows.old.items }
    ensures wider { ArePlacedWider rows.old.items rows.new.items }
    ensures ok { OnOk result ((n : ℕ) (d : PlacedRowOf) → in_span span n ≡ true → placed rows.new.items (slice_index_or rows.old.items index d).placement n ≡ true) }
    ensures why { IfErr result (λ e. e ≡ Refusal.Memory) }
{
    rows[index].row.push(span)
}

// Adds a row of the placement with this span alone.
fn add_row(
    alloc: Global,
    rows: &mut Vec<PlacedRow>,
    placement: u32,
    span: Span,
) -> Result<(), Refusal>
    ensures wider { ArePlacedWider rows.old.items rows.new.items }
    ensures ok { OnOk result ((n : ℕ) → in_span span n ≡ true → placed rows.new.items placement n ≡ true) }
    ensures why { IfErr result (λ e. e ≡ Refusal.Memory) }
{
    let mut row = Row::new(alloc);
    row.push(span)?;
    rows.push(PlacedRow { placement, row })?;
    Ok(())
}

fn tidy_placed(rows: &mut Vec<PlacedRow>, pending: &[Pending])
    requires { IsNonDecreasingBy (λ p. p.number) pending.now }
    ensures { ArePlacedStill pending.now rows.old.items rows.new.items }
{
    rows.retain_mut(|row| row.row.keep_pending(pending));
}
