//! Which columns of a matrix are open at the atoms.
ghost use Rattle.std.specs.Prelude.{IfErr, IfOk, OnOk, length, not, slice_index, false, true, ℕ, ◌&&◌, ◌*◌, ◌<◌, ◌==◌, ◌^◌, ◌≡◌, ◌≤◌};
ghost use Rattle.std.specs.List.{list_any};
ghost use Rattle.std.specs.Int.{bit_at};
ghost use Rattle.poly_tiling.specs.Lists.{mem};
ghost use Rattle.poly_tiling.specs.Puzzle.{View as ViewOf};
ghost use Rattle.poly_atom.specs.Hopeless.{base, lacks};
ghost use Rattle.poly_frame.specs.Bits.{has_bit};
ghost use Rattle.poly_frame.specs.Open.{open_in};
ghost use Rattle.poly_frame.specs.FrameItems.{item_at};
ghost use Rattle.poly_frame.specs.FrameTable.{HaveShows, MostsShow, shut_at};
ghost use Rattle.poly_frame.specs.Matrices.{IsMatrix, RowOf, any_below, bit_index};

use crate::bits;
use crate::frame::consistent::is_piece;
use crate::frame::matrix::Matrix;
use poly_atom::Atom;
use poly_grid::Refusal;
use poly_tiling::{Bound, Item, View};

fn is_shut_at(item: &Item, most: u8, have: u64) -> bool
    ensures { result ≡ shut_at item.now most have }
{
    u64::from(most) <= have || (!is_piece(item) && 0 < have)
}

fn ones() -> u64
    ensures { (t : ℕ) → t < 64 → bit_at result t ≡ 1 }
{
    !0
}

/// Makes the row `width` words in which the bit of each number below `n` is set, and no other bit.
pub(crate) fn first_row(n: usize, width: usize, row: &mut Vec<u64>) -> Result<(), Refusal>
    requires narrow { width < 2 ^ 58 }
    requires wide { n ≤ 64 * width }
    ensures len { OnOk result (length row.new.items ≡ width) }
    ensures inside { OnOk result ((j : ℕ) → j < n → has_bit row.new.items j ≡ true) }
    ensures past { OnOk result ((j : ℕ) → n ≤ j → j < 64 * width → has_bit row.new.items j ≡ false) }
    ensures why { IfErr result (λ e. e ≡ Refusal.Memory) }
{
    row.clear();
    row.resize(n / 64, ones())?;
    row.resize(width, 0)?;
    for j in n / 64 * 64..n {
        bits::put_in(row, 0, j);
    }
    Ok(())
}

// Takes out the numbers that have a shut item: one that no further member may have.
fn take_out_shut(bounds: &[Bound], whole: &Matrix, mosts: &[u8], have: &[u64], row: &mut Vec<u64>)
    requires mosts { length mosts.now ≡ length bounds.now }
    requires have { length have.now ≡ length bounds.now }
    requires rows { length whole.now.rows.items ≡ whole.now.width * length bounds.now }
    requires len { length row.old.items ≡ whole.now.width }
    ensures len { length row.new.items ≡ length row.old.items }
    ensures bits { (j : ℕ) → j < 64 * whole.now.width → has_bit row.new.items j ≡ (has_bit row.old.items j && not (any_below (λ b. shut_at (item_at bounds.now b) (slice_index mosts.now b) (slice_index have.now b) && has_bit whole.now.rows.items (bit_index whole.now.width b j)) (length bounds.now))) }
{
    for b in 0..bounds.len() {
        if is_shut_at(&bounds[b].item, mosts[b], have[b]) {
            bits::take_out_row(row, 0, &whole.rows, whole.width * b, whole.width);
        }
    }
}

// Takes out a number, if it has a column.
fn take_out_number(whole: &Matrix, number: u32, row: &mut Vec<u64>)
    requires part { (v : ViewOf) × IsMatrix v whole.now }
    requires len { length row.old.items ≡ whole.now.width }
    ensures len { length row.new.items ≡ length row.old.items }
    ensures bits { (j : ℕ) → j < length whole.now.numbers.items → has_bit row.new.items j ≡ (has_bit row.old.items j && not (number == slice_index whole.now.numbers.items j)) }
    ensures past { (j : ℕ) → has_bit row.old.items j ≡ false → has_bit row.new.items j ≡ false }
{
    if let Some(j) = whole.column_of(number) {
        bits::take_out(row, 0, j);
    }
}

fn take_out_lacked_by(whole: &Matrix, atom: &Atom, row: &mut Vec<u64>)
    requires part { (v : ViewOf) × IsMatrix v whole.now }
    requires len { length row.old.items ≡ whole.now.width }
    ensures len { length row.new.items ≡ length row.old.items }
    ensures bits { (j : ℕ) → j < length whole.now.numbers.items → has_bit row.new.items j ≡ (has_bit row.old.items j && not (lacks atom.now (slice_index whole.now.numbers.items j))) }
    ensures past { (j : ℕ) → has_bit row.old.items j ≡ false → has_bit row.new.items j ≡ false }
{
    if let Atom::Lacks(number) = atom {
        take_out_number(whole, *number, row);
    }
}

fn take_out_lacked(whole: &Matrix, atoms: &[Atom], row: &mut Vec<u64>)
    requires part { (v : ViewOf) × IsMatrix v whole.now }
    requires len { length row.old.items ≡ whole.now.width }
    ensures len { length row.new.items ≡ length row.old.items }
    ensures bits { (j : ℕ) → j < length whole.now.numbers.items → has_bit row.new.items j ≡ (has_bit row.old.items j && not (list_any (λ a. lacks a (slice_index whole.now.numbers.items j)) atoms.now)) }
    ensures past { (j : ℕ) → has_bit row.old.items j ≡ false → has_bit row.new.items j ≡ false }
{
    for atom in atoms {
        take_out_lacked_by(whole, atom, row);
    }
}

fn take_out_members(whole: &Matrix, members: &[u32], row: &mut Vec<u64>)
    requires part { (v : ViewOf) × IsMatrix v whole.now }
    requires len { length row.old.items ≡ whole.now.width }
    ensures len { length row.new.items ≡ length row.old.items }
    ensures bits { (j : ℕ) → j < length whole.now.numbers.items → has_bit row.new.items j ≡ (has_bit row.old.items j && not (mem members.now (slice_index whole.now.numbers.items j))) }
    ensures past { (j : ℕ) → has_bit row.old.items j ≡ false → has_bit row.new.items j ≡ false }
{
    for p in members {
        take_out_number(whole, *p, row);
    }
}

/// Makes the row one with a bit for each number of the matrix that is open at the atoms. `members` is their base, `mosts` is
/// how many members may have each item at most, and `have` how many have it.
pub(crate) fn open_row(
    view: &View,
    whole: &Matrix,
    atoms: &[Atom],
    members: &[u32],
    mosts: &[u8],
    have: &[u64],
    row: &mut Vec<u64>,
) -> Result<(), Refusal>
    requires part { IsMatrix view.now whole.now }
    requires base { members.now ≡ base view.now atoms.now }
    requires have_len { length have.now ≡ length view.now.bounds }
    requires have { HaveShows view.now members.now have.now }
    requires mosts_len { length mosts.now ≡ length view.now.bounds }
    requires mosts { MostsShow view.now atoms.now mosts.now }
    ensures len { IfOk result (λ _. length row.new.items ≡ whole.now.width) }
    ensures value { IfOk result (λ _. RowOf (λ p. open_in view.now atoms.now p) whole.now row.new.items) }
    ensures why { IfErr result (λ e. e ≡ Refusal.Memory) }
{
    first_row(whole.numbers.len(), whole.width, row)?;
    take_out_shut(view.items(), whole, mosts, have, row);
    take_out_lacked(whole, atoms, row);
    take_out_members(whole, members, row);
    Ok(())
}
