//! Looks one step ahead. Most of the placements that a search is about to take leave some due item without options. Such a
//! placement is found here from the rows alone, so that the frame doesn't have to take it and to undo the step. If nothing is
//! found, the step takes over the row that was made for the look.
//!
//! What the look finds is a guess. That an item has too few placements left is tested before the caller is told.
ghost use Rattle.std.specs.Prelude.{IfSome, MatchOption, [], slice_index, nat_lt, not, length, take, true, ℕ, ◌&&◌, ◌*◌, ◌+◌, ◌-◌, ◌++◌, ◌<◌, ◌∷◌, ◌≡◌, ◌≤◌};
ghost use Rattle.std.specs.List.{list_all, list_any};
ghost use Rattle.poly_tiling.specs.Lists.{mem};
ghost use Rattle.poly_atom.specs.declared.atom.Atom.TheVariants.{Has};
ghost use Rattle.poly_frame.specs.Ahead.{AttemptShows, RowWithout};
ghost use Rattle.poly_frame.specs.Open.{arms_fit, open_in};
ghost use Rattle.poly_frame.specs.Bits.{has_bit};
ghost use Rattle.poly_frame.specs.FrameSteps.{HasRoom, IsAt, StepsKeep};
ghost use Rattle.poly_frame.specs.Matrices.{bit_index};
ghost use Rattle.poly_frame.specs.declared.frame.ahead.TheConstants.{SIX};

use crate::bits;
use crate::frame::STEPS;
use crate::frame::node::Node;
use crate::frame::notes::notes_without;
use crate::frame::occupied::count_bits;
use crate::frame::queries::stands_open;
use crate::frame::scarce::{Needs, Rows, Scarce, scarcest};
use crate::frame::starved::is_starved_after;
use crate::frame::steps::{Steps, item_row, pick_open};
use poly_tiling::Item;

/// The most words of a row that is copied: a bit for each of 2,560 columns. Few frames have more.
pub(crate) const WORDS: usize = 40;

// The most words of a short row. Most rows are short, and it takes less time to make room for them.
const FEW: usize = 16;

// The most words of notes that are copied: a note for each of 512 items. A design has at most 320.
const NOTED: usize = 8;

// How many items' rows are read in one pass. A placement of a pentomino has as many items.
const SIX: usize = 6;

/// What a frame knows of the due items before it is asked for them. A wrong guess only costs time, or is a worse choice.
#[derive(Clone, Copy)]
pub(crate) struct Guesses {
    /// The index of the scarcest item, if it is known.
    pub(crate) scarcest: Option<usize>,
    /// The index of the item that starved last while some placement was open, or `usize::MAX`. The next placement often starves it
    /// as well, so it is looked at first. If no placement is open, each item starves.
    pub(crate) starved: usize,
}

/// What became of a placement that was to be taken.
pub(crate) enum Attempt {
    /// It was not taken, and nothing is known of it.
    Unknown,
    /// It was not taken: too few placements that have the item would be left.
    Starved(Item),
    /// It was taken.
    Taken,
}

/// Takes the placement, unless an item is found of which it is known that too few placements that have it would be left then.
/// Does nothing if the rows are too wide, if the placement isn't open, or if some item may have several members.
pub(crate) fn try_pick(
    node: &Node<'_>,
    steps: &mut Steps,
    number: u32,
    guesses: &mut Guesses,
) -> Attempt
    requires kept { IsAt node.now steps.old }
    requires room { HasRoom node.now.matrix.now steps.old }
    requires few { length node.now.trail.now < node.now.base + STEPS }
    ensures { AttemptShows node.now number steps.old steps.new result }
{
    guesses.scarcest = None;
    let width = node.matrix.width;
    let noted = steps.due.len();
    if !node.table.alone || WORDS < width || NOTED < noted {
        return Attempt::Unknown;
    }
    let Some(j) = open_at(node, steps, number) else {
        return Attempt::Unknown;
    };
    let starved = if width <= FEW {
        let mut row = [0u64; FEW];
        pick_or_starve(node, steps, j, &mut row[..width], guesses)
    } else {
        let mut row = [0u64; WORDS];
        pick_or_starve(node, steps, j, &mut row[..width], guesses)
    };
    match starved {
        Some(item) => Attempt::Starved(item),
        None => Attempt::Taken,
    }
}

/// The column of the number, if its placement is open.
pub(crate) fn open_at(node: &Node<'_>, steps: &Steps, number: u32) -> Option<usize>
    requires kept { IsAt node.now steps.now }
    ensures column { IfSome result (λ j. (j < length node.now.matrix.now.numbers.items) × (slice_index node.now.matrix.now.numbers.items j ≡ number)) }
    ensures open { IfSome result (λ j. (mem node.now.view.now.live number ≡ true) × (open_in node.now.view.now node.now.trail.now number ≡ true)) }
{
    if !stands_open(node, steps, number) {
        return None;
    }
    node.matrix.column_of(number)
}

// Takes the placement of column `j`, unless an item is found that starves then. `row` is overwritten.
fn pick_or_starve(
    node: &Node<'_>,
    steps: &mut Steps,
    j: usize,
    row: &mut [u64],
    guesses: &mut Guesses,
) -> Option<Item>
    requires kept { IsAt node.now steps.old }
    requires room { HasRoom node.now.matrix.now steps.old }
    requires few { length node.now.trail.now < node.now.base + STEPS }
    requires alone { node.now.table.now.alone ≡ true }
    requires number { j < length node.now.matrix.now.numbers.items }
    requires open { open_in node.now.view.now node.now.trail.now (slice_index node.now.matrix.now.numbers.items j) ≡ true }
    requires row { length row.old ≡ node.now.matrix.now.width }
    ensures taken { MatchOption result (StepsKeep node.now.view.now (node.now.trail.now ++ Has (slice_index node.now.matrix.now.numbers.items j) ∷ []) node.now.base node.now.matrix.now node.now.table.now steps.new) (λ _. steps.new ≡ steps.old) }
    ensures room { HasRoom node.now.matrix.now steps.new }
    ensures starved { IfSome result (λ i. arms_fit node.now.view.now (node.now.trail.now ++ Has (slice_index node.now.matrix.now.numbers.items j) ∷ []) i [] ≡ true) }
{
    let starved = look(node, steps, j, row, guesses);
    if starved.is_none() {
        pick_open(node, steps, j, row);
    }
    starved
}

// An item of which it is known that too few placements that have it are left once the number at `j` is taken; `None` if no such
// item was found. `row` becomes the row after the step. Guesses the scarcest item after the step.
fn look(
    node: &Node<'_>,
    steps: &Steps,
    j: usize,
    row: &mut [u64],
    guesses: &mut Guesses,
) -> Option<Item>
    requires kept { IsAt node.now steps.now }
    requires alone { node.now.table.now.alone ≡ true }
    requires number { j < length node.now.matrix.now.numbers.items }
    requires row { length row.old ≡ node.now.matrix.now.width }
    ensures len { length row.new ≡ node.now.matrix.now.width }
    ensures row { RowWithout node.now.matrix.now steps.now.live.items j row.new }
    ensures starved { IfSome result (λ i. arms_fit node.now.view.now (node.now.trail.now ++ Has (slice_index node.now.matrix.now.numbers.items j) ∷ []) i [] ≡ true) }
{
    leave_open(node, steps, j, row);
    let mut due = [0u64; NOTED];
    notes_without(&steps.due, node.matrix.mask_of(j), &mut due);
    let noted = steps.due.len().min(NOTED);
    let best = scarcest_in(node, steps, row, &due[..noted], guesses.starved);
    if best.spare > 0 {
        guesses.scarcest = if best.spare < usize::MAX {
            Some(best.index)
        } else {
            None
        };
        return None;
    }
    if best.index != guesses.starved && count_bits(row) > 0 {
        guesses.starved = best.index;
    }
    starved_item(node, steps, best.index, j, row)
}

/// Makes `row` the last row without the columns that share an item with column `j`.
pub(crate) fn leave_open(node: &Node<'_>, steps: &Steps, j: usize, row: &mut [u64])
    requires kept { IsAt node.now steps.now }
    requires number { j < length node.now.matrix.now.numbers.items }
    requires len { length row.old ≡ node.now.matrix.now.width }
    ensures len { length row.new ≡ node.now.matrix.now.width }
    ensures row { RowWithout node.now.matrix.now steps.now.live.items j row.new }
{
    let at = steps.live.len() - row.len();
    close_each(
        &node.matrix.rows,
        steps.have.len(),
        node.matrix.items_of(j),
        &steps.live[at..],
        row,
    );
}

// Makes `row` the row `live` without the numbers that have an item at one of the indices.
fn close_each(rows: &[u64], items: usize, indices: &[usize], live: &[u64], row: &mut [u64])
    requires rows { length rows.now ≡ length row.old * items }
    requires low { list_all (λ b. nat_lt b items) indices.now ≡ true }
    requires live { length live.now ≡ length row.old }
    ensures len { length row.new ≡ length row.old }
    ensures bits { (x : ℕ) → x < 64 * length row.old → has_bit row.new x ≡ (has_bit live.now x && not (list_any (λ b. has_bit rows.now (bit_index (length row.old) b x)) indices.now)) }
{
    if indices.len() < SIX {
        row.copy_from_slice(live);
        close_all(rows, items, indices, row);
        return;
    }
    close_six(rows, items, indices, live, row);
    close_all(rows, items, &indices[SIX..], row);
}

// Does what `close_each` does for the first six indices, in one pass.
fn close_six(rows: &[u64], items: usize, indices: &[usize], live: &[u64], row: &mut [u64])
    requires rows { length rows.now ≡ length row.old * items }
    requires low { list_all (λ b. nat_lt b items) indices.now ≡ true }
    requires six { SIX ≤ length indices.now }
    requires live { length live.now ≡ length row.old }
    ensures len { length row.new ≡ length row.old }
    ensures bits { (x : ℕ) → x < 64 * length row.old → has_bit row.new x ≡ (has_bit live.now x && not (list_any (λ b. has_bit rows.now (bit_index (length row.old) b x)) (take SIX indices.now))) }
{
    let width = row.len();
    bits::without_six(
        live,
        item_row(rows, width, indices[0]),
        item_row(rows, width, indices[1]),
        item_row(rows, width, indices[2]),
        item_row(rows, width, indices[3]),
        item_row(rows, width, indices[4]),
        item_row(rows, width, indices[5]),
        row,
    );
}

/// The scarcest of the items that are noted as due, if these numbers are open.
pub(crate) fn scarcest_in(
    node: &Node<'_>,
    steps: &Steps,
    row: &[u64],
    due: &[u64],
    guess: usize,
) -> Scarce
    requires kept { IsAt node.now steps.now }
    requires row { length row.now ≡ node.now.matrix.now.width }
{
    let rows = Rows {
        words: &node.matrix.rows,
        items: steps.have.len(),
        occupied: &node.matrix.occupied,
    };
    let needs = Needs {
        have: &steps.have,
        leasts: &node.table.leasts,
        single: node.table.single,
    };
    scarcest(row, &rows, &needs, due, guess)
}

// The item at `b`, if it is known that too few placements that have it are left once the number at `j` is taken. `row` has the
// open numbers without those that share an item with this one.
fn starved_item(node: &Node<'_>, steps: &Steps, b: usize, j: usize, row: &[u64]) -> Option<Item>
    requires kept { IsAt node.now steps.now }
    requires number { j < length node.now.matrix.now.numbers.items }
    requires len { length row.now ≡ node.now.matrix.now.width }
    requires row { RowWithout node.now.matrix.now steps.now.live.items j row.now }
    requires alone { node.now.table.now.alone ≡ true }
    ensures { IfSome result (λ i. arms_fit node.now.view.now (node.now.trail.now ++ Has (slice_index node.now.matrix.now.numbers.items j) ∷ []) i [] ≡ true) }
{
    if b < steps.have.len() && is_starved_after(node, steps, b, j, row) {
        Some(node.view.items()[b].item)
    } else {
        None
    }
}

// Takes the numbers that have an item at one of the indices out of the row, three items at once where it can.
fn close_all(rows: &[u64], items: usize, indices: &[usize], row: &mut [u64])
    requires rows { length rows.now ≡ length row.old * items }
    requires low { list_all (λ b. nat_lt b items) indices.now ≡ true }
    ensures len { length row.new ≡ length row.old }
    ensures bits { (x : ℕ) → x < 64 * length row.old → has_bit row.new x ≡ (has_bit row.old x && not (list_any (λ b. has_bit rows.now (bit_index (length row.old) b x)) indices.now)) }
{
    let width = row.len();
    let mut k = 0;
    while k < indices.len() {
        if indices.len() - k < 3 {
            bits::take_out_words(row, item_row(rows, width, indices[k]));
            k += 1;
        } else {
            bits::take_out_three(
                row,
                item_row(rows, width, indices[k]),
                item_row(rows, width, indices[k + 1]),
                item_row(rows, width, indices[k + 2]),
            );
            k += 3;
        }
    }
}
