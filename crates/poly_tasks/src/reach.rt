//! How far touched spans reach. A span is touched if it is noted under the placement or the key of an atom that the change
//! touches. A pending task can become hopeless only if a touched span has the task's number.
ghost use Rattle.std.specs.Prelude.{◌≡◌, ◌≤◌, ◌<◌, IfErr, IfOk, length, slice_index_or, true, ℕ};
ghost use Rattle.std.specs.List.{list_any};
ghost use Rattle.std.specs.List.Sorted.{IsNonDecreasingBy};
ghost use Rattle.poly_atom.specs.declared.atom.Atom.{Atom as AtomOf};
ghost use Rattle.poly_atom.specs.declared.atom.Atom.TheVariants.{Has};
ghost use Rattle.poly_tiling.specs.Puzzle.{same_item};
ghost use Rattle.poly_tiling.specs.declared.item.Item.{Item as ItemOf};
ghost use Rattle.poly_tiling.specs.declared.item.Item.TheVariants.{Piece as PieceItem};
ghost use Rattle.poly_tasks.specs.Mapped.{in_span, key_of, placed, spanned, under};
ghost use Rattle.poly_tasks.specs.Reaching.{IsFarther, IsReached};
ghost use Rattle.poly_tasks.specs.Touching.{touches};

use crate::maps::{Maps, key_of};
use crate::placed::PlacedRow;
use crate::rows::{Row, Span};
use crate::task::Pending;
use crate::touch::Touch;
use poly_design::Name;
use poly_grid::Refusal;
use poly_tiling::Item;
use std::alloc::Global;
use std::collections::BTreeMap;

/// For each pending task, the greatest end of the touched spans that begin at it, or 0 if none does. A span begins at the
/// first task whose number isn't below the span. A task is reached if the value at its index or at an earlier one is at least
/// the task's number. Fails only when out of memory.
pub fn reached(
    alloc: Global,
    touch: &Touch,
    maps: &Maps,
    tasks: &[Pending],
) -> Result<Vec<u32>, Refusal>
    requires rise { IsNonDecreasingBy (λ p. p.number) tasks.now }
    ensures len { IfOk result (λ v. length v.items ≡ length tasks.now) }
    ensures ok { IfOk result (λ v. (a : AtomOf) → touches touch.now a ≡ true → IsReached v.items tasks.now (λ n. under maps.now a n)) }
    ensures why { IfErr result (λ e. e ≡ Refusal.Memory) }
{
    let mut reach = vec![in alloc; 0u32; tasks.len()]?;
    if !touch.delta.pinned.is_empty() {
        // no task is noted under `Lacks` atoms, and any may rule the pin out
        reach_all(&mut reach, tasks);
        return Ok(reach);
    }
    reach_has(&mut reach, tasks, touch, &maps.has.rows);
    reach_names(&mut reach, tasks, &touch.delta.narrowed, &maps.at_least);
    reach_key(&mut reach, tasks, &maps.at_least, key_of(&touch.item));
    reach_items(&mut reach, tasks, &touch.delta.needed, &maps.at_most);
    Ok(reach)
}

// Reaches the tasks that are noted under a `Has` atom that the change touches.
fn reach_has(reach: &mut Vec<u32>, tasks: &[Pending], touch: &Touch, rows: &[PlacedRow])
    requires rise { IsNonDecreasingBy (λ p. p.number) tasks.now }
    requires len { length reach.old.items ≡ length tasks.now }
    ensures farther { IsFarther reach.old.items reach.new.items }
    ensures reached { (p : ℕ) → touches touch.now (Has p) ≡ true → IsReached reach.new.items tasks.now (λ n. placed rows.now p n) }
{
    for row in rows {
        if touch.has_placement(row.placement) {
            reach_spans(reach, tasks, row.row.spans());
        }
    }
}

// Reaches all tasks.
fn reach_all(reach: &mut Vec<u32>, tasks: &[Pending])
    requires len { length reach.old.items ≡ length tasks.now }
    ensures farther { IsFarther reach.old.items reach.new.items }
    ensures reached { IsReached reach.new.items tasks.now (λ n. true) }
{
    for (i, task) in tasks.iter().enumerate() {
        raise(reach, i, task.number);
    }
}

// Reaches the tasks that are noted under one of the pieces.
fn reach_names(reach: &mut Vec<u32>, tasks: &[Pending], names: &[Name], rows: &BTreeMap<u32, Row>)
    requires rise { IsNonDecreasingBy (λ p. p.number) tasks.now }
    requires len { length reach.old.items ≡ length tasks.now }
    ensures farther { IsFarther reach.old.items reach.new.items }
    ensures reached { (i : ItemOf) → list_any (λ m. same_item (PieceItem m) i) names.now ≡ true → IsReached reach.new.items tasks.now (λ n. spanned rows.now.entries (key_of i) n) }
{
    for name in names {
        reach_key(reach, tasks, rows, key_of(&Item::Piece(*name)));
    }
}

// Reaches the tasks that are noted under one of the items.
fn reach_items(reach: &mut Vec<u32>, tasks: &[Pending], items: &[Item], rows: &BTreeMap<u32, Row>)
    requires rise { IsNonDecreasingBy (λ p. p.number) tasks.now }
    requires len { length reach.old.items ≡ length tasks.now }
    ensures farther { IsFarther reach.old.items reach.new.items }
    ensures reached { (i : ItemOf) → list_any (λ j. same_item j i) items.now ≡ true → IsReached reach.new.items tasks.now (λ n. spanned rows.now.entries (key_of i) n) }
{
    for item in items {
        reach_key(reach, tasks, rows, key_of(item));
    }
}

// Reaches the tasks that are noted under the key.
fn reach_key(reach: &mut Vec<u32>, tasks: &[Pending], rows: &BTreeMap<u32, Row>, key: u32)
    requires rise { IsNonDecreasingBy (λ p. p.number) tasks.now }
    requires len { length reach.old.items ≡ length tasks.now }
    ensures farther { IsFarther reach.old.items reach.new.items }
    ensures reached { IsReached reach.new.items tasks.now (λ n. spanned rows.now.entries key n) }
{
    if let Some(row) = rows.get(&key) {
        reach_spans(reach, tasks, row.spans());
    }
}

// Reaches the tasks that are in one of the spans.
fn reach_spans(reach: &mut Vec<u32>, tasks: &[Pending], spans: &[Span])
    requires rise { IsNonDecreasingBy (λ p. p.number) tasks.now }
    requires len { length reach.old.items ≡ length tasks.now }
    ensures farther { IsFarther reach.old.items reach.new.items }
    ensures reached { IsReached reach.new.items tasks.now (λ n. list_any (λ s. in_span s n) spans.now) }
{
    for span in spans {
        reach_span(reach, tasks, span);
    }
}

// Reaches the tasks that are in the span.
fn reach_span(reach: &mut Vec<u32>, tasks: &[Pending], span: &Span)
    requires rise { IsNonDecreasingBy (λ p. p.number) tasks.now }
    requires len { length reach.old.items ≡ length tasks.now }
    ensures farther { IsFarther reach.old.items reach.new.items }
    ensures reached { IsReached reach.new.items tasks.now (λ n. in_span span.now n) }
{
    let from = span.from;
    let index = tasks.partition_point(|task| task.number < from);
    raise(reach, index, span.to);
}

// Raises the entry at `index` to at least `to`, if there is such an entry.
fn raise(reach: &mut Vec<u32>, index: usize, to: u32)
    ensures farther { IsFarther reach.old.items reach.new.items }
    ensures reached { index < length reach.old.items → to ≤ slice_index_or reach.new.items index 0 }
{
    if index < reach.len() && reach[index] < to {
        reach[index] = to;
    }
}
