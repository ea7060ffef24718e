//! Whether taking a placement starves an item that is due and that no member has: no placement that has the item stays open.
//! The rows tell this without a step, so checking a placement that leads nowhere costs little.
ghost use Rattle.std.specs.Prelude.{[], length, nat_le, nat_lt, not, slice_index, false, true, ℕ, ◌&&◌, ◌*◌, ◌++◌, ◌+◌, ◌-◌, ◌<◌, ◌==◌, ◌∷◌, ◌≡◌, ◌≤◌};
ghost use Rattle.std.specs.List.{list_all, list_any};
ghost use Rattle.std.specs.Int.{bit_at};
ghost use Rattle.poly_atom.specs.declared.atom.Atom.TheVariants.{Has};
ghost use Rattle.poly_frame.specs.Ahead.{RowWithout};
ghost use Rattle.poly_frame.specs.Open.{arms_fit};
ghost use Rattle.poly_frame.specs.FrameItems.{item_of};
ghost use Rattle.poly_frame.specs.Bits.{has_bit};
ghost use Rattle.poly_frame.specs.FrameSteps.{IsAt};
ghost use Rattle.poly_frame.specs.Matrices.{bit_index, column_items};

use crate::bits;
use crate::frame::ahead::{WORDS, leave_open, open_at};
use crate::frame::items::{guess_item, index_of};
use crate::frame::node::Node;
use crate::frame::steps::Steps;
use poly_tiling::Item;

// The bits that one of the words has.
fn either(word: u64, other: u64) -> u64
    ensures first { result ≡ 0 → word ≡ 0 }
    ensures second { result ≡ 0 → other ≡ 0 }
{
    word | other
}

// Whether no number is both in the row `left` and in the matrix's row at word `from`. Reads the rows to their ends: to stop early
// would cost more than it saves.
fn has_none(left: &[u64], rows: &[u64], from: usize) -> bool
    requires { from + length left.now ≤ length rows.now }
    ensures { result ≡ true → (k t : ℕ) → k < length left.now → t < 64 → (bit_at (slice_index left.now k) t == 1) ≡ true → (bit_at (slice_index rows.now (from + k)) t == 1) ≡ false }
{
    let mut all = 0u64;
    for k in 0..left.len() {
        all = either(all, bits::both(left[k], rows[from + k]));
    }
    all == 0
}

/// Whether taking the number at `j` starves the item at `b`, if no item may have several members: the item is asked for and no
/// member has it; the number is open and doesn't have the item; and no number that has the item is in the row `left`, which has
/// the open numbers without those that share an item with the number at `j`.
pub(crate) fn is_starved_after(
    node: &Node<'_>,
    steps: &Steps,
    b: usize,
    j: usize,
    left: &[u64],
) -> bool
    requires kept { IsAt node.now steps.now }
    requires row { b < length steps.now.have.items }
    requires number { j < length node.now.matrix.now.numbers.items }
    requires len { length left.now ≡ node.now.matrix.now.width }
    requires left { RowWithout node.now.matrix.now steps.now.live.items j left.now }
    requires alone { node.now.table.now.alone ≡ true }
    ensures { result ≡ true → arms_fit node.now.view.now (node.now.trail.now ++ Has (slice_index node.now.matrix.now.numbers.items j) ∷ []) (item_of node.now.view.now b) [] ≡ true }
{
    let at = steps.live.len() - node.matrix.width;
    let from = node.matrix.width * b;
    if steps.have[b] > 0 || node.table.leasts[b] == 0 {
        return false;
    }
    if !bits::has(&steps.live, at, j) || bits::has(&node.matrix.rows, from, j) {
        return false;
    }
    has_none(left, &node.matrix.rows, from)
}

// Does what `is_starved_after` does, and makes the row for it: `row` is overwritten.
fn is_starved_in(node: &Node<'_>, steps: &Steps, b: usize, j: usize, row: &mut [u64]) -> bool
    requires kept { IsAt node.now steps.now }
    requires row { b < length steps.now.have.items }
    requires number { j < length node.now.matrix.now.numbers.items }
    requires len { length row.old ≡ node.now.matrix.now.width }
    requires alone { node.now.table.now.alone ≡ true }
    ensures { result ≡ true → arms_fit node.now.view.now (node.now.trail.now ++ Has (slice_index node.now.matrix.now.numbers.items j) ∷ []) (item_of node.now.view.now b) [] ≡ true }
{
    leave_open(node, steps, j, row);
    is_starved_after(node, steps, b, j, row)
}

/// Whether it is known that some member must have the item, that no member of the base has it, and that no placement that has
/// it stays open once the number's placement is taken. Nothing is known where [`try_pick`] doesn't look ahead.
///
/// [`try_pick`]: crate::frame::ahead::try_pick
pub(crate) fn is_starved(node: &Node<'_>, steps: &Steps, number: u32, item: &Item) -> bool
    requires kept { IsAt node.now steps.now }
    ensures { result ≡ true → arms_fit node.now.view.now (node.now.trail.now ++ Has number ∷ []) item.now [] ≡ true }
{
    let width = node.matrix.width;
    if !node.table.alone || WORDS < width {
        return false;
    }
    let Some(j) = open_at(node, steps, number) else {
        return false;
    };
    let guess = guess_item(&node.matrix.cells, item);
    let Some(b) = index_of(node.view.items(), guess, *item) else {
        return false;
    };
    let mut row = [0u64; WORDS];
    is_starved_in(node, steps, b, j, &mut row[..width])
}
