//! What the rows of a frame answer: which placements are open, which item is due, whether the base is a tiling that meets the
//! atoms, and whether a layer is worth making.
ghost use Rattle.std.specs.Prelude.{Bool, IfErr, IfOk, IfSome, MatchOption, false, length, nat_lt, not, slice_index, true, vec_capacity, vec_len, ℕ, ◌&&◌, ◌*◌, ◌+◌, ◌-◌, ◌<◌, ◌^◌, ◌≡◌, ◌≤◌};
ghost use Rattle.std.specs.List.{filter, list_all};
ghost use Rattle.poly_tiling.specs.declared.item.Item.{Item};
ghost use Rattle.poly_tiling.specs.Lists.{mem};
ghost use Rattle.poly_tiling.specs.Puzzle.{count, has_item};
ghost use Rattle.poly_atom.specs.Atoms.{in_family};
ghost use Rattle.poly_atom.specs.Hopeless.{base};
ghost use Rattle.poly_frame.specs.Open.{least_at, open_in};
ghost use Rattle.poly_frame.specs.Bits.{in_both};
ghost use Rattle.poly_frame.specs.FrameItems.{item_of};
ghost use Rattle.poly_frame.specs.FrameConsistent.{ConsistentShows};
ghost use Rattle.poly_frame.specs.FrameSteps.{IsAt};
ghost use Rattle.poly_frame.specs.FrameTable.{HasOpen};
ghost use Rattle.poly_frame.specs.Matrices.{IsMatrix};

use crate::frame::ahead::{Guesses, scarcest_in};
use crate::frame::items::{guess_item, index_of};
use crate::frame::matrix::{Matrix, narrowed};
use crate::frame::node::Node;
use crate::frame::occupied::count_bits;
use crate::frame::steps::Steps;
use crate::frame::table::Table;
use crate::{bits, plain};
use poly_grid::Refusal;
use poly_tiling::Item;
use std::alloc::Global;

// Lists the placements whose columns are both in the row of `live` at word `at` and in the matrix's row at word `from`.
fn list_both(matrix: &Matrix, live: &[u64], at: usize, from: usize, into: &mut Vec<u32>)
    requires wide { length matrix.now.numbers.items ≤ 64 * matrix.now.width }
    requires narrow { matrix.now.width < 2 ^ 58 }
    requires live { at + matrix.now.width ≤ length live.now }
    requires rows { from + matrix.now.width ≤ length matrix.now.rows.items }
    requires space { length matrix.now.numbers.items ≤ vec_capacity into.old }
    ensures items { (f : ℕ → Bool) → ((j : ℕ) → j < length matrix.now.numbers.items → f (slice_index matrix.now.numbers.items j) ≡ in_both live.now at matrix.now.rows.items from j) → into.new.items ≡ filter f matrix.now.numbers.items }
    ensures room { vec_capacity into.new ≡ vec_capacity into.old }
{
    into.clear();
    let mut low = 0;
    while let Some(j) = bits::next_both(live, at, &matrix.rows, from, matrix.width, low) {
        if j >= matrix.numbers.len() {
            return;
        }
        into.push_reserved(matrix.numbers[j]);
        low = j + 1;
    }
}

// Lists the open placements that have the item at `b`.
fn list_row(node: &Node<'_>, steps: &Steps, b: usize, into: &mut Vec<u32>)
    requires kept { IsAt node.now steps.now }
    requires row { b < length node.now.view.now.bounds }
    requires space { length node.now.matrix.now.numbers.items ≤ vec_capacity into.old }
    ensures items { into.new.items ≡ filter (λ p. open_in node.now.view.now node.now.trail.now p && has_item node.now.view.now p (item_of node.now.view.now b)) node.now.matrix.now.numbers.items }
    ensures room { vec_capacity into.new ≡ vec_capacity into.old }
{
    let at = steps.live.len() - node.matrix.width;
    list_both(node.matrix, &steps.live, at, node.matrix.width * b, into);
}

/// Lists the open placements that have the item.
pub(crate) fn list_options(node: &Node<'_>, steps: &Steps, item: Item, into: &mut Vec<u32>)
    requires kept { IsAt node.now steps.now }
    requires space { length node.now.matrix.now.numbers.items ≤ vec_capacity into.old }
    ensures items { into.new.items ≡ filter (λ p. open_in node.now.view.now node.now.trail.now p && has_item node.now.view.now p item) node.now.matrix.now.numbers.items }
    ensures room { vec_capacity into.new ≡ vec_capacity into.old }
{
    match index_of(
        node.view.items(),
        guess_item(&node.matrix.cells, &item),
        item,
    ) {
        None => into.clear(),
        Some(b) => list_row(node, steps, b, into),
    }
}

/// The number of some open placement; `None` if no placement is open.
pub(crate) fn first_open(node: &Node<'_>, steps: &Steps) -> Option<u32>
    requires kept { IsAt node.now steps.now }
    ensures { MatchOption result (list_all (λ p. not (open_in node.now.view.now node.now.trail.now p)) node.now.view.now.live ≡ true) (λ p. (mem node.now.view.now.live p ≡ true) × (open_in node.now.view.now node.now.trail.now p ≡ true)) }
{
    let at = steps.live.len() - node.matrix.width;
    let Some(j) = bits::next_both(&steps.live, at, &steps.live, at, node.matrix.width, 0) else {
        return None;
    };
    if j < node.matrix.numbers.len() {
        Some(node.matrix.numbers[j])
    } else {
        None
    }
}

// A matrix that isn't wider than this is read as fast as a smaller one can be made.
const NARROW: usize = 12;

// The fewest open placements for which a layer saves more than it costs to make.
const WORTH: usize = 32;

/// Whether a layer with the open columns alone seems to save more than it costs to make: it would be much smaller, and there is
/// still much to search.
pub(crate) fn pays(matrix: &Matrix, steps: &Steps) -> bool {
    let width = matrix.width;
    if width <= NARROW || steps.live.len() < width {
        return false;
    }
    let open = count_bits(&steps.live[steps.live.len() - width..]);
    WORTH <= open && open < matrix.numbers.len() / 3
}

/// A matrix with a column for each open placement and no other columns. Overwrites `spare`, as `narrowed` does.
pub(crate) fn narrowed_now(
    alloc: Global,
    node: &Node<'_>,
    steps: &Steps,
    spare: Matrix,
) -> Result<Matrix, Refusal>
    requires kept { IsAt node.now steps.now }
    ensures part { IfOk result (λ m. IsMatrix node.now.view.now m) }
    ensures all { IfOk result (λ m. HasOpen node.now.view.now node.now.trail.now m) }
    ensures numbers { IfOk result (λ m. m.numbers.items ≡ filter (λ p. open_in node.now.view.now node.now.trail.now p) node.now.matrix.now.numbers.items) }
    ensures why { IfErr result (λ e. e ≡ Refusal.Memory) }
{
    let at = steps.live.len() - node.matrix.width;
    narrowed(alloc, node.view, node.matrix, &steps.live[at..], spare)
}

/// Whether the number's placement is a placement of the design that is open.
pub(crate) fn stands_open(node: &Node<'_>, steps: &Steps, number: u32) -> bool
    requires kept { IsAt node.now steps.now }
    ensures open { result ≡ true → (mem node.now.view.now.live number ≡ true) × (open_in node.now.view.now node.now.trail.now number ≡ true) }
    ensures closed { result ≡ false → mem node.now.view.now.live number ≡ true → open_in node.now.view.now node.now.trail.now number ≡ false }
{
    let at = steps.live.len() - node.matrix.width;
    match node.matrix.column_of(number) {
        None => false,
        Some(j) => bits::has(&steps.live, at, j),
    }
}

// Whether too few members of the base have the item at an index.
fn is_below(table: &Table, steps: &Steps, b: usize) -> bool
    requires have { b < length steps.now.have.items }
    requires leasts { b < length table.now.leasts.items }
    ensures { result ≡ nat_lt (slice_index steps.now.have.items b) (slice_index table.now.leasts.items b) }
{
    steps.have[b] < u64::from(table.leasts[b])
}

/// Whether the base is a tiling that meets the atoms; `None` if the rows do not decide it.
pub(crate) fn judge(node: &Node<'_>, steps: &Steps, consistent: usize) -> Option<bool>
    requires kept { IsAt node.now steps.now }
    requires consistent { ConsistentShows node.now.view.now node.now.trail.now node.now.given consistent }
    requires low { node.now.given ≤ length node.now.trail.now }
    ensures { IfSome result (λ b. in_family node.now.view.now node.now.trail.now (base node.now.view.now node.now.trail.now) ≡ b) }
{
    if let Some(_) = next_unnoted(node, steps) {
        return Some(false);
    }
    if node.table.listed && consistent > node.trail.len() - node.given {
        return Some(true);
    }
    None
}

// Whether the item at the index is due.
fn is_due_at(node: &Node<'_>, steps: &Steps, b: usize) -> bool
    requires kept { IsAt node.now steps.now }
    ensures { result ≡ true → (b < length steps.now.have.items) × (nat_lt (slice_index steps.now.have.items b) (slice_index node.now.table.now.leasts.items b) ≡ true) }
{
    b < steps.have.len() && is_below(node.table, steps, b)
}

// The index of an item that is due and noted as due; `None` if there is none, or if a note is wrong. An item that has too few
// options comes first, then one with the fewest options beyond what it still needs.
fn next_noted(node: &Node<'_>, steps: &Steps, guess: usize) -> Option<usize>
    requires kept { IsAt node.now steps.now }
    ensures { IfSome result (λ b. (b < length steps.now.have.items) × (nat_lt (slice_index steps.now.have.items b) (slice_index node.now.table.now.leasts.items b) ≡ true)) }
{
    let at = steps.live.len() - node.matrix.width;
    let best = scarcest_in(node, steps, &steps.live[at..], &steps.due, guess);
    if best.spare < usize::MAX && is_due_at(node, steps, best.index) {
        Some(best.index)
    } else {
        None
    }
}

// The index of an item of the view that is due, found without the notes; `None` if there is none.
fn next_unnoted(node: &Node<'_>, steps: &Steps) -> Option<usize>
    requires kept { IsAt node.now steps.now }
    ensures { MatchOption result ((b : ℕ) → b < length node.now.view.now.bounds → nat_lt (count node.now.view.now (base node.now.view.now node.now.trail.now) (item_of node.now.view.now b)) (least_at node.now.view.now node.now.trail.now (item_of node.now.view.now b)) ≡ false) (λ b. (b < length node.now.view.now.bounds) × (nat_lt (count node.now.view.now (base node.now.view.now node.now.trail.now) (item_of node.now.view.now b)) (least_at node.now.view.now node.now.trail.now (item_of node.now.view.now b)) ≡ true)) }
{
    for b in 0..node.table.leasts_end.min(steps.have.len()) {
        if is_below(node.table, steps, b) {
            return Some(b);
        }
    }
    None
}

// An item of the view that is due; `None` if there is none. An item that was guessed or is noted as due comes first.
fn listed_due(node: &Node<'_>, steps: &Steps, guesses: Guesses) -> Option<Item>
    requires kept { IsAt node.now steps.now }
    ensures { MatchOption result ((b : ℕ) → b < length node.now.view.now.bounds → nat_lt (count node.now.view.now (base node.now.view.now node.now.trail.now) (item_of node.now.view.now b)) (least_at node.now.view.now node.now.trail.now (item_of node.now.view.now b)) ≡ false) (λ i. nat_lt (count node.now.view.now (base node.now.view.now node.now.trail.now) i) (least_at node.now.view.now node.now.trail.now i) ≡ true) }
{
    if let Some(b) = guesses.scarcest {
        if is_due_at(node, steps, b) {
            return Some(node.view.items()[b].item);
        }
    }
    if let Some(b) = next_noted(node, steps, guesses.starved) {
        return Some(node.view.items()[b].item);
    }
    match next_unnoted(node, steps) {
        Some(b) => Some(node.view.items()[b].item),
        None => None,
    }
}

/// An item that is due; `None` if there is none. A due item that is not in the view comes first, since it has no option.
pub(crate) fn next_due(
    node: &Node<'_>,
    steps: &Steps,
    members: &[u32],
    guesses: Guesses,
) -> Option<Item>
    requires kept { IsAt node.now steps.now }
    requires members { members.now ≡ base node.now.view.now node.now.trail.now }
    ensures { MatchOption result ((i : Item) → nat_lt (count node.now.view.now (base node.now.view.now node.now.trail.now) i) (least_at node.now.view.now node.now.trail.now i) ≡ false) (λ i. nat_lt (count node.now.view.now (base node.now.view.now node.now.trail.now) i) (least_at node.now.view.now node.now.trail.now i) ≡ true) }
{
    if node.table.listed {
        return listed_due(node, steps, guesses);
    }
    if let Some(item) = plain::due_elsewhere(node.view, node.trail, members) {
        return Some(item);
    }
    listed_due(node, steps, guesses)
}
