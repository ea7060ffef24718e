//! A table gives the numbers of placements back to them when they return.
ghost use Rattle.poly_place.specs.Right.{IsRight};

use crate::designs::{DOMINOES, change_of, design};
use poly_design::Design;
use poly_grid::Refusal;
use poly_place::{Delta, Table};
use poly_tiling::View;
use std::alloc::{AllocGlobal, Global};
use std::process::Abort;

fn table_of(rt: &(impl AllocGlobal + Abort), design: &Design) -> Table
    ensures { IsRight result design.now }
{
    Table::of(rt.alloc(), design).expect(rt, "a table")
}

// Asserts how long the lists of a delta are: gone, fresh, needed, unneeded, narrowed, widened, pinned, unpinned.
fn expect_lengths(rt: &impl Abort, delta: &Delta, want: [usize; 8]) {
    let found = [
        delta.gone.len(),
        delta.fresh.len(),
        delta.needed.len(),
        delta.unneeded.len(),
        delta.narrowed.len(),
        delta.widened.len(),
        delta.pinned.len(),
        delta.unpinned.len(),
    ];
    assert!(rt; found == want, "{found:?}");
}

// Asserts how many numbers, items and pins a view has.
fn expect_counts(rt: &impl Abort, view: &View, want: (usize, usize, usize)) {
    assert!(rt; (view.live().len(), view.items().len(), view.pins().len()) == want);
}

// Makes the edit of the line on the design and its table, and asserts how long the delta's lists are. Returns the numbers that
// are gone, followed by those that are fresh.
fn led(
    rt: &(impl AllocGlobal + Abort),
    table: &mut Table,
    design: &mut Design,
    line: &[u8],
    lengths: [usize; 8],
) -> Vec<u32>
    requires { IsRight table.old design.old }
    ensures { IsRight table.new design.new }
{
    let change = change_of(rt.alloc(), design, line).expect(rt, "a change");
    let plan = table.plan(design, &change).expect(rt, "a plan");
    expect_lengths(rt, &plan.delta, lengths);
    let touched = numbers_of(rt.alloc(), &plan.delta).expect(rt, "memory");
    table.make(plan);
    design.make(&change).expect(rt, "memory");
    touched
}

// The numbers that are gone, followed by those that are fresh.
fn numbers_of(alloc: Global, delta: &Delta) -> Result<Vec<u32>, Refusal> {
    let mut numbers = Vec::from_slice(alloc, &delta.gone)?;
    numbers.extend_from_slice(&delta.fresh)?;
    Ok(numbers)
}

// A new cell: its two placements get the next numbers.
fn widen(rt: &(impl AllocGlobal + Abort), table: &mut Table, design: &mut Design)
    requires { IsRight table.old design.old }
    ensures { IsRight table.new design.new }
{
    let line = b"cell 2,0 optional";
    let first = led(rt, table, design, line, [0, 2, 0, 0, 0, 0, 0, 0]);
    assert!(rt; first.as_slice() == [8, 9].as_slice());
}

// A cell goes and comes back, and with it the same numbers.
fn block_and_require(rt: &(impl AllocGlobal + Abort), table: &mut Table, design: &mut Design)
    requires { IsRight table.old design.old }
    ensures { IsRight table.new design.new }
{
    let block = b"cell 1,0 blocked";
    let gone = led(rt, table, design, block, [6, 0, 0, 1, 0, 0, 0, 0]);
    let require = b"cell 1,0 required";
    let fresh = led(rt, table, design, require, [0, 6, 1, 0, 0, 0, 0, 0]);
    assert!(rt; fresh.as_slice() == gone.as_slice());
}

// Asserts what the table's view has at last.
fn expect_view(rt: &impl Abort, table: &Table) {
    let view = table.view().expect(rt, "memory");
    expect_counts(rt, &view, (10, 7, 0));
    assert!(rt; view.placement(9).is_some() && view.placement(10).is_none());
}

#[test]
fn numbers_come_back(rt: HostRuntime) {
    let mut design = design(&rt, DOMINOES);
    let mut table = table_of(&rt, &design);
    widen(&rt, &mut table, &mut design);
    block_and_require(&rt, &mut table, &mut design);
    expect_view(&rt, &table);
}
