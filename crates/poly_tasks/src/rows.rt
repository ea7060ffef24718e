//! Rows of spans: which tasks are noted under which key.
ghost use Rattle.std.specs.Prelude.{◌≡◌, ◌++◌, ◌∷◌, [], IfErr, None, OnErr, OnOk, false, true, ℕ};
ghost use Rattle.std.specs.BTreeMap.{get};
ghost use Rattle.std.specs.Ordering.{nat_cmp};
ghost use Rattle.std.specs.List.{filter};
ghost use Rattle.std.specs.List.Sorted.{IsNonDecreasingBy};
ghost use Rattle.poly_tasks.specs.Mapped.{AreKept, AreWider, has_pending, in_span, spanned};

use crate::task::Pending;
use poly_grid::Refusal;
use std::alloc::Global;
use std::collections::BTreeMap;
use std::marker::Model;

/// The tasks whose numbers are from `from` to `to`, both included.
#[derive(Clone, Copy)]
pub(crate) struct Span {
    /// The least number.
    pub from: u32,
    /// The greatest number.
    pub to: u32,
}

/// The spans of tasks that are noted under one key.
#[derive(Drop)]
pub(crate) struct Row {
    /// The spans, the oldest first.
    spans: Vec<Span>,
}

impl Model for Row {
    ghost use Rattle.std.specs.Prelude.{List};
    ghost use Rattle.poly_tasks.specs.declared.rows.Span.{Span};

    ghost Value = { List Span };

    ghost view = { λ r. r.spans.items };
}

impl Row {
    /// A row without spans.
    pub(crate) fn new(alloc: Global) -> Row
        ensures { result ≡ [] }
    {
        Row {
            spans: Vec::new(alloc),
        }
    }

    /// The spans, the oldest first.
    pub(crate) fn spans(&self) -> &[Span]
        ensures { result.now ≡ self.now }
    {
        &self.spans
    }

    /// Adds the span. Fails only when out of memory, and then the row stays as it was.
    pub(crate) fn push(&mut self, span: Span) -> Result<(), Refusal>
        ensures ok { OnOk result (self.new ≡ self.old ++ span ∷ []) }
        ensures err { OnErr result (self.new ≡ self.old) }
        ensures why { IfErr result (λ e. e ≡ Refusal.Memory) }
    {
        self.spans.push(span)?;
        Ok(())
    }

    /// Drops the spans without a pending task. Returns whether a span is left.
    pub(crate) fn keep_pending(&mut self, pending: &[Pending]) -> bool
        requires { IsNonDecreasingBy (λ p. p.number) pending.now }
        ensures kept { self.new ≡ filter (λ s. has_pending pending.now s) self.old }
        ensures none { result ≡ false → self.new ≡ [] }
    {
        keep_pending(&mut self.spans, pending);
        !self.spans.is_empty()
    }
}

/// Notes the span under the key. Fails only when out of memory. What was noted before stays noted in any case.
pub(crate) fn note_span(
    alloc: Global,
    rows: &mut BTreeMap<u32, Row>,
    key: u32,
    span: Span,
) -> Result<(), Refusal>
    ensures wider { AreWider rows.old.entries rows.new.entries }
    ensures ok { OnOk result ((n : ℕ) → in_span span n ≡ true → spanned rows.new.entries key n ≡ true) }
    ensures why { IfErr result (λ e. e ≡ Refusal.Memory) }
{
    match rows.get_mut(&key) {
        Some(row) => row.push(span),
        None => add_row(alloc, rows, key, span),
    }
}

// Adds a row for the key, which has none.
fn add_row(
    alloc: Global,
    rows: &mut BTreeMap<u32, Row>,
    key: u32,
    span: Span,
) -> Result<(), Refusal>
    requires { get nat_cmp rows.old key ≡ None }
    ensures wider { AreWider rows.old.entries rows.new.entries }
    ensures ok { OnOk result ((n : ℕ) → in_span span n ≡ true → spanned rows.new.entries key n ≡ true) }
    ensures why { IfErr result (λ e. e ≡ Refusal.Memory) }
{
    let mut row = Row::new(alloc);
    row.push(span)?;
    rows.insert(key, row)?;
    Ok(())
}

/// Drops the spans without a pending task, and the rows without a span. The pending tasks are in the order of their numbers.
/// What is noted for a pending task stays noted. Never allocates.
pub(crate) fn tidy_rows(rows: &mut BTreeMap<u32, Row>, pending: &[Pending])
    requires { IsNonDecreasingBy (λ p. p.number) pending.now }
    ensures { AreKept pending.now rows.old.entries rows.new.entries }
{
    rows.retain(|_, row| row.keep_pending(pending));
}

fn keep_pending(spans: &mut Vec<Span>, pending: &[Pending])
    requires { IsNonDecreasingBy (λ p. p.number) pending.now }
    ensures { spans.new.items ≡ filter (λ s. has_pending pending.now s) spans.old.items }
{
    spans.retain(|span| has_pending(pending, span));
}

// Whether a pending task has a number in the span. A binary search finds the first number that isn't below the span, and
// that number decides.
fn has_pending(pending: &[Pending], span: &Span) -> bool
    requires { IsNonDecreasingBy (λ p. p.number) pending.now }
    ensures { result ≡ has_pending pending.now span.now }
{
    let from = span.from;
    let index = pending.partition_point(|task| task.number < from);
    if index < pending.len() {
        return pending[index].number <= span.to;
    }
    false
}
