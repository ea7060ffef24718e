//! Counts the placements that are not ruled out: the rows tell which placements are open, and the members of the base are
//! judged one by one.
ghost use Rattle.std.specs.Prelude.{Bool, MatchOption, false, length, max, not, slice_index, true, ℕ, ◌&&◌, ◌*◌, ◌+◌, ◌<◌, ◌^◌, ◌≡◌, ◌≤◌};
ghost use Rattle.poly_tiling.specs.Lists.{mem, tally};
ghost use Rattle.poly_tiling.specs.Puzzle.{has_item, same_item};
ghost use Rattle.poly_atom.specs.Hopeless.{base};
ghost use Rattle.poly_frame.specs.Bits.{in_both};
ghost use Rattle.poly_frame.specs.Alive.{KnowsDead};
ghost use Rattle.poly_frame.specs.Open.{dead, least_with_base, ruled_out};
ghost use Rattle.poly_frame.specs.FrameItems.{item_of};
ghost use Rattle.poly_frame.specs.FrameConsistent.{is_consistent, items_fit};
ghost use Rattle.poly_frame.specs.FrameSteps.{IsAt};

use crate::frame::items::{guess_item, index_of};
use crate::frame::matrix::Matrix;
use crate::frame::node::Node;
use crate::frame::right::is_sound;
use crate::frame::steps::Steps;
use crate::{bits, plain};
use poly_tiling::Item;

// How many columns are both in the row of `live` at word `at` and in the matrix's row at word `from`.
fn count_both(matrix: &Matrix, live: &[u64], at: usize, from: usize) -> usize
    requires wide { length matrix.now.numbers.items ≤ 64 * matrix.now.width }
    requires narrow { matrix.now.width < 2 ^ 58 }
    requires live { at + matrix.now.width ≤ length live.now }
    requires rows { from + matrix.now.width ≤ length matrix.now.rows.items }
    ensures value { (g : ℕ → Bool) → ((j : ℕ) → j < length matrix.now.numbers.items → g (slice_index matrix.now.numbers.items j) ≡ in_both live.now at matrix.now.rows.items from j) → result ≡ tally g matrix.now.numbers.items }
    ensures few { result ≤ length matrix.now.numbers.items }
{
    let mut n = 0;
    let mut low = 0;
    while let Some(j) = bits::next_both(live, at, &matrix.rows, from, matrix.width, low) {
        if j >= matrix.numbers.len() {
            return n;
        }
        n += 1;
        low = j + 1;
    }
    n
}

// How many members of the base have the item, fit and are not dead.
fn count_held(node: &Node<'_>, steps: &Steps, members: &[u32], item: &Item) -> usize
    requires kept { IsAt node.now steps.now }
    requires alive { KnowsDead node.now }
    requires members { members.now ≡ base node.now.view.now node.now.trail.now }
    ensures value { result ≡ tally (λ p. has_item node.now.view.now p item.now && (items_fit node.now.view.now node.now.trail.now p && not (dead node.now.view.now node.now.trail.now p))) members.now }
    ensures few { result ≤ length members.now }
{
    let mut n = 0;
    for p in members {
        if node.view.covers(*p, *item) && is_sound(node, steps, members, *p) {
            n += 1;
        }
    }
    n
}

// How many members of the base have the item of a row and are placements of the design that are not ruled out. If `sure`, all
// members are that, so the count of the members that have the item tells it.
fn count_held_at(
    node: &Node<'_>,
    steps: &Steps,
    members: &[u32],
    b: usize,
    item: &Item,
    sure: bool,
) -> usize
    requires kept { IsAt node.now steps.now }
    requires row { b < length node.now.view.now.bounds }
    requires same { same_item (item_of node.now.view.now b) item.now ≡ true }
    requires alive { KnowsDead node.now }
    requires members { members.now ≡ base node.now.view.now node.now.trail.now }
    requires sure { sure ≡ true → is_consistent node.now.view.now node.now.trail.now ≡ true }
    ensures value { result ≡ tally (λ p. has_item node.now.view.now p item.now && (mem node.now.view.now.live p && not (ruled_out node.now.view.now node.now.trail.now p))) members.now }
    ensures few { result ≤ length members.now }
{
    if sure {
        return steps.have[b] as usize;
    }
    count_held(node, steps, members, item)
}

// How many placements of the design have the item of a row and are not ruled out.
fn count_row(
    node: &Node<'_>,
    steps: &Steps,
    members: &[u32],
    b: usize,
    item: &Item,
    sure: bool,
) -> usize
    requires kept { IsAt node.now steps.now }
    requires row { b < length node.now.view.now.bounds }
    requires same { same_item (item_of node.now.view.now b) item.now ≡ true }
    requires alive { KnowsDead node.now }
    requires members { members.now ≡ base node.now.view.now node.now.trail.now }
    requires sure { sure ≡ true → is_consistent node.now.view.now node.now.trail.now ≡ true }
    ensures { result ≡ tally (λ p. has_item node.now.view.now p item.now && not (ruled_out node.now.view.now node.now.trail.now p)) node.now.view.now.live }
{
    let at = steps.live.len() - node.matrix.width;
    let held = count_held_at(node, steps, members, b, item, sure);
    held + count_both(node.matrix, &steps.live, at, node.matrix.width * b)
}

/// How many placements of the design have the item and are not ruled out. If `sure`, the base is known to be consistent.
pub(crate) fn count(
    node: &Node<'_>,
    steps: &Steps,
    members: &[u32],
    item: &Item,
    sure: bool,
) -> usize
    requires kept { IsAt node.now steps.now }
    requires alive { KnowsDead node.now }
    requires members { members.now ≡ base node.now.view.now node.now.trail.now }
    requires sure { sure ≡ true → is_consistent node.now.view.now node.now.trail.now ≡ true }
    ensures { result ≡ tally (λ p. has_item node.now.view.now p item.now && not (ruled_out node.now.view.now node.now.trail.now p)) node.now.view.now.live }
{
    match index_of(
        node.view.items(),
        guess_item(&node.matrix.cells, item),
        *item,
    ) {
        Some(b) => count_row(node, steps, members, b, item, sure),
        // a placement of the design has no other items
        None => 0,
    }
}

// `least` for the item of a row.
fn least_of_row(node: &Node<'_>, steps: &Steps, b: usize, item: &Item) -> usize
    requires kept { IsAt node.now steps.now }
    requires row { b < length node.now.view.now.bounds }
    requires same { same_item (item_of node.now.view.now b) item.now ≡ true }
    ensures { result ≡ least_with_base node.now.view.now node.now.trail.now item.now }
{
    (node.table.leasts[b] as usize).max(steps.have[b] as usize)
}

// `least` for an item that the view doesn't have. The atoms are read only if one of them asks for such an item.
fn least_elsewhere(node: &Node<'_>, steps: &Steps, members: &[u32], item: &Item) -> usize
    requires kept { IsAt node.now steps.now }
    requires none { (b : ℕ) → b < length node.now.view.now.bounds → same_item (item_of node.now.view.now b) item.now ≡ false }
    requires members { members.now ≡ base node.now.view.now node.now.trail.now }
    ensures { result ≡ least_with_base node.now.view.now node.now.trail.now item.now }
{
    if node.table.listed {
        return node.view.count(members, item);
    }
    plain::least_with_base(node.view, node.trail, members, item)
}

/// Each tiling of the family has at least this many members with the item: as many as the view and the atoms ask for, or as
/// many as the base has, whichever is more.
pub(crate) fn least(node: &Node<'_>, steps: &Steps, members: &[u32], item: &Item) -> usize
    requires kept { IsAt node.now steps.now }
    requires members { members.now ≡ base node.now.view.now node.now.trail.now }
    ensures { result ≡ least_with_base node.now.view.now node.now.trail.now item.now }
{
    match index_of(
        node.view.items(),
        guess_item(&node.matrix.cells, item),
        *item,
    ) {
        Some(b) => least_of_row(node, steps, b, item),
        None => least_elsewhere(node, steps, members, item),
    }
}
