//! What changes while a frame moves: a row of what is open at the given atoms, one more row for each placement that is taken,
//! and how many members of the base have each item. Taking a placement copies the last row and removes from the copy what the
//! step closes; leaving a placement out clears one bit of the last row. Undoing a step drops the row or sets the bit again.
ghost use Rattle.std.specs.Prelude.{IfErr, IfOk, IfSome, List, MatchOption, OnOk, false, length, nat_le, nat_lt, not, slice_index, true, vec_capacity, vec_len, ℕ, [], ◌&&◌, ◌*◌, ◌++◌, ◌+◌, ◌-◌, ◌/◌, ◌<◌, ◌==◌, ◌∷◌, ◌≡◌, ◌≤◌, take};
ghost use Rattle.std.specs.List.{list_all, list_any};
ghost use Rattle.poly_atom.specs.Hopeless.{base};
ghost use Rattle.poly_frame.specs.Bits.{has_bit};
ghost use Rattle.poly_frame.specs.Open.{open_in};
ghost use Rattle.poly_frame.specs.FrameItems.{Noted};
ghost use Rattle.poly_tiling.specs.Lists.{mem};
ghost use Rattle.poly_tiling.specs.Puzzle.{items};

use crate::bits;
use crate::frame::STEPS;
use crate::frame::items::{PLACEMENT_ITEMS, note_items, raise};
use crate::frame::matrix::Matrix;
use crate::frame::node::Node;
use crate::frame::notes::{leave_out, lower_and_note, raise_and_note};
use crate::frame::table::Table;
use poly_atom::Atom;
use poly_grid::Refusal;
use poly_tiling::{View, has_number};
use std::alloc::Global;

/// What is needed to undo a step.
#[derive(Clone, Copy)]
pub(crate) struct Mark {
    /// How long `raised` was before the step.
    pub(crate) raised: usize,
    /// The word of `live` at which the last row began before the step.
    pub(crate) row: usize,
    /// The column whose bit the step cleared in that row.
    pub(crate) cleared: Option<usize>,
}

/// The bits and counts that steps change.
#[derive(Drop)]
pub(crate) struct Steps {
    /// A row of the open columns for the given atoms, then one for each placement that was taken.
    pub(crate) live: Vec<u64>,
    /// How many members of the base have each item.
    pub(crate) have: Vec<u64>,
    /// The indices of the items whose counts the steps raised, in the order of the steps.
    pub(crate) raised: Vec<usize>,
    /// What is needed to undo each step.
    pub(crate) marks: Vec<Mark>,
    /// A bit for each item, set if too few members of the base have it; a wrong bit only costs time.
    pub(crate) due: Vec<u64>,
}

impl Steps {
    /// No steps, and no row. Takes no memory.
    pub(crate) fn none(alloc: Global) -> Steps {
        Steps {
            live: Vec::new(alloc),
            have: Vec::new(alloc),
            raised: Vec::new(alloc),
            marks: Vec::new(alloc),
            due: Vec::new(alloc),
        }
    }
}

ghost use Rattle.poly_frame.specs.Matrices.{IsMatrix, RowOf, StandsShow, bit_index};
ghost use Rattle.poly_frame.specs.FrameTable.{HaveShows, TableShows};
ghost use Rattle.poly_frame.specs.Ahead.{RowWithout};
ghost use Rattle.poly_frame.specs.FrameSteps.{HasRoom, IsAt, StepsKeep};
ghost use Rattle.poly_frame.specs.declared.frame.items.TheConstants.{PLACEMENT_ITEMS};

// Adds the indices of the number's items to the list. `column` is the number's column, if it has one.
fn note_number(
    view: &View,
    matrix: &Matrix,
    column: Option<usize>,
    number: u32,
    noted: &mut Vec<usize>,
)
    requires part { IsMatrix view.now matrix.now }
    requires column { IfSome column (λ j. (j < length matrix.now.numbers.items) × (slice_index matrix.now.numbers.items j ≡ number)) }
    requires room { vec_len noted.old + PLACEMENT_ITEMS ≤ vec_capacity noted.old }
    ensures capacity { vec_capacity noted.old ≤ vec_capacity noted.new }
    ensures len { vec_len noted.new ≤ vec_len noted.old + PLACEMENT_ITEMS }
    ensures indices { (indices : List ℕ) × (noted.new.items ≡ noted.old.items ++ indices) × Noted view.now.bounds (items view.now number) indices }
{
    match column {
        Some(j) => append(matrix.items_of(j), noted),
        None => note_items(view, &matrix.cells, 0, number, noted),
    }
}

// Appends a list, for which there is room.
fn append<T: Copy>(list: &[T], onto: &mut Vec<T>)
    requires { vec_len onto.old + length list.now ≤ vec_capacity onto.old }
    ensures capacity { vec_capacity onto.old ≤ vec_capacity onto.new }
    ensures items { onto.new.items ≡ onto.old.items ++ list.now }
{
    let _ = onto.extend_from_slice(list);
}

// Closes the placements that have an item at one of the indices, if the count of that item has reached its limit.
fn close(
    matrix: &Matrix,
    table: &Table,
    have: &[u64],
    indices: &[usize],
    live: &mut Vec<u64>,
    at: usize,
)
    requires low { list_all (λ b. nat_lt b (length have.now)) indices.now ≡ true }
    requires limits { length table.now.limits.items ≡ length have.now }
    requires rows { length matrix.now.rows.items ≡ matrix.now.width * length have.now }
    requires live { at + matrix.now.width ≤ length live.old.items }
    ensures len { length live.new.items ≡ length live.old.items }
    ensures capacity { vec_capacity live.new ≡ vec_capacity live.old }
    ensures row { (j : ℕ) → j < 64 * matrix.now.width → has_bit live.new.items (64 * at + j) ≡ (has_bit live.old.items (64 * at + j) && not (list_any (λ b. nat_le (slice_index table.now.limits.items b) (slice_index have.now b) && has_bit matrix.now.rows.items (bit_index matrix.now.width b j)) indices.now)) }
    ensures before { (x : ℕ) → x < 64 * at → has_bit live.new.items x ≡ has_bit live.old.items x }
{
    close_row(
        &matrix.rows,
        &table.limits,
        have,
        indices,
        &mut live[at..at + matrix.width],
    );
}

// Does what `close` does, in the row alone. Takes three items at once where it can.
fn close_row(rows: &[u64], limits: &[u8], have: &[u64], indices: &[usize], row: &mut [u64])
    requires low { list_all (λ b. nat_lt b (length have.now)) indices.now ≡ true }
    requires limits { length limits.now ≡ length have.now }
    requires rows { length rows.now ≡ length row.old * length have.now }
    ensures len { length row.new ≡ length row.old }
    ensures bits { (j : ℕ) → j < 64 * length row.old → has_bit row.new j ≡ (has_bit row.old j && not (list_any (λ b. nat_le (slice_index limits.now b) (slice_index have.now b) && has_bit rows.now (bit_index (length row.old) b j)) indices.now)) }
{
    let width = row.len();
    let mut k = 0;
    while k < indices.len() {
        if are_at_limit(limits, have, indices, k) {
            bits::take_out_three(
                row,
                item_row(rows, width, indices[k]),
                item_row(rows, width, indices[k + 1]),
                item_row(rows, width, indices[k + 2]),
            );
            k += 3;
        } else {
            close_item(rows, limits, have, indices[k], row);
            k += 1;
        }
    }
}

// Whether there are three indices from `k` on, and the counts of their items have all reached their limits.
fn are_at_limit(limits: &[u8], have: &[u64], indices: &[usize], k: usize) -> bool
    requires low { list_all (λ b. nat_lt b (length have.now)) indices.now ≡ true }
    requires limits { length limits.now ≡ length have.now }
    requires inside { k < length indices.now }
    ensures three { result ≡ true → k + 3 ≤ length indices.now }
    ensures first { result ≡ true → nat_le (slice_index limits.now (slice_index indices.now k)) (slice_index have.now (slice_index indices.now k)) ≡ true }
    ensures second { result ≡ true → nat_le (slice_index limits.now (slice_index indices.now (k + 1))) (slice_index have.now (slice_index indices.now (k + 1))) ≡ true }
    ensures third { result ≡ true → nat_le (slice_index limits.now (slice_index indices.now (k + 2))) (slice_index have.now (slice_index indices.now (k + 2))) ≡ true }
{
    indices.len() - k >= 3
        && is_at_limit(limits, have, indices[k])
        && is_at_limit(limits, have, indices[k + 1])
        && is_at_limit(limits, have, indices[k + 2])
}

// Whether the count of the item at `b` has reached its limit.
fn is_at_limit(limits: &[u8], have: &[u64], b: usize) -> bool
    requires limits { b < length limits.now }
    requires have { b < length have.now }
    ensures { result ≡ nat_le (slice_index limits.now b) (slice_index have.now b) }
{
    u64::from(limits[b]) <= have[b]
}

/// The row of the item at `b`.
pub(crate) fn item_row<'a>(rows: &'a [u64], width: usize, b: usize) -> &'a [u64]
    requires { width * (b + 1) ≤ length rows.now }
    ensures len { length result.now ≡ width }
    ensures bits { (j : ℕ) → j < 64 * width → has_bit result.now j ≡ has_bit rows.now (bit_index width b j) }
{
    &rows[width * b..width * b + width]
}

// Closes the placements that have the item at `b`, if its count has reached its limit.
fn close_item(rows: &[u64], limits: &[u8], have: &[u64], b: usize, row: &mut [u64])
    requires limits { b < length limits.now }
    requires have { b < length have.now }
    requires rows { length row.old * (b + 1) ≤ length rows.now }
    ensures len { length row.new ≡ length row.old }
    ensures bits { (j : ℕ) → j < 64 * length row.old → has_bit row.new j ≡ (has_bit row.old j && not (nat_le (slice_index limits.now b) (slice_index have.now b) && has_bit rows.now (bit_index (length row.old) b j))) }
{
    if is_at_limit(limits, have, b) {
        let width = row.len();
        bits::take_out_words(row, item_row(rows, width, b));
    }
}

// Whether the number is a member of the base. A placement that is open isn't, so nothing is searched then.
fn is_member(node: &Node<'_>, members: &[u32], number: u32, opened: bool) -> bool
    requires members { members.now ≡ base node.now.view.now node.now.trail.now }
    requires opened { opened ≡ true → open_in node.now.view.now node.now.trail.now number ≡ true }
    ensures { result ≡ mem members.now number }
{
    !opened && has_number(members, number)
}

/// Takes a placement. `opened` is whether the placement is known to be open.
pub(crate) fn pick(node: &Node<'_>, members: &[u32], steps: &mut Steps, number: u32, opened: bool)
    requires kept { IsAt node.now steps.old }
    requires room { HasRoom node.now.matrix.now steps.old }
    requires few { length node.now.trail.now < node.now.base + STEPS }
    requires members { members.now ≡ base node.now.view.now node.now.trail.now }
    requires opened { opened ≡ true → open_in node.now.view.now node.now.trail.now number ≡ true }
    ensures kept { StepsKeep node.now.view.now (node.now.trail.now ++ Atom.Has number ∷ []) node.now.base node.now.matrix.now node.now.table.now steps.new }
    ensures room { HasRoom node.now.matrix.now steps.new }
{
    let at = steps.live.len();
    let mark = steps.raised.len();
    bits::copy_last(&mut steps.live, node.matrix.width);
    steps.marks.push_reserved(Mark {
        raised: mark,
        row: at - node.matrix.width,
        cleared: None,
    });
    if is_member(node, members, number, opened) {
        return;
    }
    let column = node.matrix.column_of(number);
    note_number(node.view, node.matrix, column, number, &mut steps.raised);
    raise_and_note(
        &mut steps.have,
        &mut steps.due,
        &node.table.leasts,
        &steps.raised[mark..],
    );
    close(
        node.matrix,
        node.table,
        &steps.have,
        &steps.raised[mark..],
        &mut steps.live,
        at,
    );
    close_column(&mut steps.live, at, column);
}

// Clears the bit of the column in the row at word `at`, if there is a column.
fn close_column(live: &mut Vec<u64>, at: usize, column: Option<usize>)
    requires { IfSome column (λ j. at + j / 64 < length live.old.items) }
    ensures len { length live.new.items ≡ length live.old.items }
    ensures capacity { vec_capacity live.new ≡ vec_capacity live.old }
    ensures bits { MatchOption column (live.new.items ≡ live.old.items) (λ j. (x : ℕ) → has_bit live.new.items x ≡ (has_bit live.old.items x && not (64 * at + j == x))) }
{
    if let Some(j) = column {
        bits::take_out(live, at, j);
    }
}

/// Does what `pick` does for the placement of column `j`, which is open, if no item may have several members. `row` is the last
/// row without the columns that share an item with this one.
pub(crate) fn pick_open(node: &Node<'_>, steps: &mut Steps, j: usize, row: &[u64])
    requires kept { IsAt node.now steps.old }
    requires room { HasRoom node.now.matrix.now steps.old }
    requires few { length node.now.trail.now < node.now.base + STEPS }
    requires alone { node.now.table.now.alone ≡ true }
    requires number { j < length node.now.matrix.now.numbers.items }
    requires open { open_in node.now.view.now node.now.trail.now (slice_index node.now.matrix.now.numbers.items j) ≡ true }
    requires len { length row.now ≡ node.now.matrix.now.width }
    requires row { RowWithout node.now.matrix.now steps.old.live.items j row.now }
    ensures kept { StepsKeep node.now.view.now (node.now.trail.now ++ Atom.Has (slice_index node.now.matrix.now.numbers.items j) ∷ []) node.now.base node.now.matrix.now node.now.table.now steps.new }
    ensures room { HasRoom node.now.matrix.now steps.new }
{
    let at = steps.live.len();
    append(row, &mut steps.live);
    steps.marks.push_reserved(Mark {
        raised: steps.raised.len(),
        row: at - node.matrix.width,
        cleared: None,
    });
    let indices = node.matrix.items_of(j);
    append(indices, &mut steps.raised);
    raise(&mut steps.have, indices);
    leave_out(node.matrix.mask_of(j), &mut steps.due);
    bits::take_out(&mut steps.live, at, j);
}

// The column of the number, if its bit is set in the row at word `at`.
fn open_column(matrix: &Matrix, live: &[u64], at: usize, number: u32) -> Option<usize>
    requires stands { StandsShow matrix.now.numbers.items matrix.now.stands.items }
    requires wide { length matrix.now.numbers.items ≤ 64 * matrix.now.width }
    requires live { at + matrix.now.width ≤ length live.now }
    ensures { MatchOption result ((j : ℕ) → j < length matrix.now.numbers.items → slice_index matrix.now.numbers.items j ≡ number → has_bit live.now (64 * at + j) ≡ false) (λ j. (j < length matrix.now.numbers.items) × (slice_index matrix.now.numbers.items j ≡ number) × (has_bit live.now (64 * at + j) ≡ true)) }
{
    match matrix.column_of(number) {
        Some(j) => {
            if bits::has(live, at, j) {
                Some(j)
            } else {
                None
            }
        }
        None => None,
    }
}

/// Leaves a placement out.
pub(crate) fn leave(node: &Node<'_>, steps: &mut Steps, number: u32)
    requires kept { IsAt node.now steps.old }
    requires room { HasRoom node.now.matrix.now steps.old }
    requires few { length node.now.trail.now < node.now.base + STEPS }
    ensures kept { StepsKeep node.now.view.now (node.now.trail.now ++ Atom.Lacks number ∷ []) node.now.base node.now.matrix.now node.now.table.now steps.new }
    ensures room { HasRoom node.now.matrix.now steps.new }
{
    let at = steps.live.len() - node.matrix.width;
    let column = open_column(node.matrix, &steps.live, at, number);
    steps.marks.push_reserved(Mark {
        raised: steps.raised.len(),
        row: at,
        cleared: column,
    });
    if let Some(j) = column {
        bits::take_out(&mut steps.live, at, j);
    }
}

/// Undoes the last step.
pub(crate) fn back(node: &Node<'_>, steps: &mut Steps)
    requires kept { IsAt node.now steps.old }
    requires room { HasRoom node.now.matrix.now steps.old }
    requires some { node.now.base < length node.now.trail.now }
    ensures kept { StepsKeep node.now.view.now (take (length node.now.trail.now - 1) node.now.trail.now) node.now.base node.now.matrix.now node.now.table.now steps.new }
    ensures room { HasRoom node.now.matrix.now steps.new }
{
    let n = node.trail.len() - 1 - node.base;
    let mark = steps.marks[n];
    steps.marks.truncate(n);
    lower_and_note(
        &mut steps.have,
        &mut steps.due,
        &node.table.leasts,
        &steps.raised[mark.raised..],
    );
    steps.raised.truncate(mark.raised);
    steps.live.truncate(mark.row + node.matrix.width);
    if let Some(j) = mark.cleared {
        bits::put_in(&mut steps.live, mark.row, j);
    }
}

/// Makes the bits and counts those of a layer that has no step yet, with room for all steps that a frame can have. `live` is the
/// row of what is open at the node's atoms, `have` counts the members of their base with each item, and `due` notes which items
/// are due. The other lists are emptied: only their room is used.
pub(crate) fn start(node: &Node<'_>, steps: &mut Steps) -> Result<(), Refusal>
    requires table { TableShows node.now.view.now node.now.trail.now node.now.matrix.now node.now.table.now }
    requires row_len { length steps.old.live.items ≡ node.now.matrix.now.width }
    requires row { RowOf (λ p. open_in node.now.view.now node.now.trail.now p) node.now.matrix.now steps.old.live.items }
    requires have { HaveShows node.now.view.now (base node.now.view.now node.now.trail.now) steps.old.have.items }
    requires len { length steps.old.have.items ≡ length node.now.view.now.bounds }
    ensures kept { OnOk result (StepsKeep node.now.view.now node.now.trail.now (length node.now.trail.now) node.now.matrix.now node.now.table.now steps.new) }
    ensures room { OnOk result (HasRoom node.now.matrix.now steps.new) }
    ensures why { IfErr result (λ e. e ≡ Refusal.Memory) }
{
    steps.raised.clear();
    steps.marks.clear();
    steps
        .live
        .reserve(node.matrix.width.saturating_mul(STEPS + 1))?;
    steps.raised.reserve(STEPS * PLACEMENT_ITEMS)?;
    steps.marks.reserve(STEPS)?;
    Ok(())
}
