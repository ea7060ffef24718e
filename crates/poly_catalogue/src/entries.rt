//! The entries of the index: each tiling has an entry in the row of each of its numbers.
//!
//! If an entry is removed, the last entry of its row moves to the free position, and no other entry moves. The position that
//! is noted for the moved entry then changes too.
ghost use Rattle.std.specs.Prelude.{◌≡◌, ◌≢◌, ◌+◌, ◌-◌, ◌^◌, ◌<◌, ◌≤◌, [], IfErr, IsSome, None, OnErr, OnOk, Option, Some, length, nat_lt, slice_get, true, ℕ};
ghost use Rattle.std.specs.List.{list_all, swap_remove};
ghost use Rattle.poly_tiling.specs.Lists.{ascending, mem};
ghost use Rattle.poly_catalogue.specs.Rows.{at, but, half, moved, over, row, span};
ghost use Rattle.poly_catalogue.specs.Index.{Agree, HasEntry, HasPart, IsPart, Once, TakesOver};

use crate::positions::Positions;
use crate::row::Row;
use crate::rows::{append, count, cut, put, read};
use poly_grid::Refusal;
use poly_tiling::Tiling;

// The `nth` number of a tiling.
fn number_of(tilings: &[Tiling], tiling: usize, nth: usize) -> u32
    requires { IsSome (at tilings.now tiling nth) }
    ensures { at tilings.now tiling nth ≡ Some result }
{
    tilings[tiling].numbers()[nth]
}

// The index of this number among the tiling's numbers.
fn nth_of(tilings: &[Tiling], tiling: usize, number: u32) -> usize
    requires { mem (row tilings.now tiling) number ≡ true }
    ensures { at tilings.now tiling result ≡ Some number }
{
    find(tilings[tiling].numbers(), number)
}

// The position of a number in an ascending list that contains it.
fn find(numbers: &[u32], number: u32) -> usize
    requires ascends { ascending numbers.now ≡ true }
    requires has { mem numbers.now number ≡ true }
    ensures { slice_get numbers.now result ≡ Some number }
{
    match numbers.binary_search(&number) {
        Ok(position) => position,
        Err(_) => unreachable!(),
    }
}

// Copies the last entry of a row over another entry, and notes the new position for the tiling of that last entry.
fn move_last_over(
    tilings: &[Tiling],
    positions: &mut Positions,
    rows: &mut [Row],
    number: u32,
    position: u32,
)
    requires once { Once (at tilings.now) }
    requires part { HasPart tilings.now positions.old rows.old }
    requires there { IsSome (at rows.old number position) }
    ensures even { length positions.new ≡ length positions.old }
    ensures over { TakesOver tilings.now positions.old rows.old number position positions.new rows.new }
{
    let last = count(rows, number as usize) - 1;
    let tiling = read(rows, number as usize, last);
    put(rows, number as usize, position as usize, tiling);
    let nth = nth_of(tilings, tiling as usize, number);
    positions.set(tiling as usize, nth, position);
}

// Removes a tiling from the row of one of its numbers.
fn remove_entry(
    tilings: &[Tiling],
    positions: &mut Positions,
    rows: &mut [Row],
    tiling: usize,
    nth: usize,
)
    requires once { Once (at tilings.now) }
    requires has { HasEntry tilings.now positions.old rows.old tiling nth }
    ensures even { length positions.new ≡ length positions.old }
    ensures gone { (numbers : ℕ → ℕ → Option ℕ) (p : ℕ) → IsPart numbers (at tilings.now) → Agree numbers (at positions.old) (at rows.old) → numbers tiling nth ≡ Some p → Agree (but numbers tiling nth None) (at positions.new) (at rows.new) }
{
    let number = number_of(tilings, tiling, nth);
    let position = positions.get(tiling, nth);
    if position as usize + 1 == count(rows, number as usize) {
        cut(rows, number as usize);
        return;
    }
    move_last_over(tilings, positions, rows, number, position);
    cut(rows, number as usize);
}

/// Removes a tiling from the rows of its first `count` numbers.
pub(crate) fn remove_entries(
    tilings: &[Tiling],
    positions: &mut Positions,
    rows: &mut [Row],
    tiling: usize,
    count: usize,
)
    requires once { Once (at tilings.now) }
    requires count { count ≤ length (row tilings.now tiling) }
    requires agree { Agree (span (at tilings.now) tiling 0 count) (at positions.old) (at rows.old) }
    ensures even { length positions.new ≡ length positions.old }
    ensures gone { Agree (span (at tilings.now) tiling 0 0) (at positions.new) (at rows.new) }
{
    for nth in 0..count {
        remove_entry(tilings, positions, rows, tiling, nth);
    }
}

// Adds a tiling to the row of one of its numbers. Fails only with `Memory`.
fn add_entry(
    tilings: &[Tiling],
    positions: &mut Positions,
    rows: &mut [Row],
    tiling: usize,
    nth: usize,
) -> Result<(), Refusal>
    requires here { IsSome (at tilings.now tiling nth) }
    requires room { IsSome (at positions.old tiling nth) }
    requires there { (p : ℕ) → at tilings.now tiling nth ≡ Some p → p < length rows.old }
    requires short { (p : ℕ) → length (row rows.old p) < 2 ^ 32 }
    requires few { tiling < 2 ^ 32 }
    ensures ok { (numbers : ℕ → ℕ → Option ℕ) → Agree numbers (at positions.old) (at rows.old) → numbers tiling nth ≡ None → OnOk result (Agree (but numbers tiling nth (at tilings.now tiling nth)) (at positions.new) (at rows.new)) }
    ensures even { length positions.new ≡ length positions.old }
    ensures wide { (a : ℕ) → length (row positions.new a) ≡ length (row positions.old a) }
    ensures err { (numbers : ℕ → ℕ → Option ℕ) → Agree numbers (at positions.old) (at rows.old) → numbers tiling nth ≡ None → OnErr result (Agree numbers (at positions.new) (at rows.new)) }
    ensures why { IfErr result (λ e. e ≡ Refusal.Memory) }
{
    let number = number_of(tilings, tiling, nth) as usize;
    let position = count(rows, number) as u32;
    positions.set(tiling, nth, position);
    append(rows, number, tiling as u32)
}

/// Adds a tiling to the rows of its numbers. Fails only with `Memory`, and then the tiling is in none of them.
pub(crate) fn add_entries(
    tilings: &[Tiling],
    positions: &mut Positions,
    rows: &mut [Row],
    tiling: usize,
) -> Result<(), Refusal>
    requires once { Once (at tilings.now) }
    requires there { tiling < length tilings.now }
    requires room { length (row tilings.now tiling) ≤ length (row positions.old tiling) }
    requires rows { list_all (λ p. nat_lt p (length rows.old)) (row tilings.now tiling) ≡ true }
    requires few { length tilings.now < 2 ^ 32 }
    requires agree { Agree (span (at tilings.now) tiling 0 0) (at positions.old) (at rows.old) }
    ensures even { length positions.new ≡ length positions.old }
    ensures ok { OnOk result (Agree (at tilings.now) (at positions.new) (at rows.new)) }
    ensures err { OnErr result (Agree (span (at tilings.now) tiling 0 0) (at positions.new) (at rows.new)) }
    ensures why { IfErr result (λ e. e ≡ Refusal.Memory) }
{
    for nth in 0..tilings[tiling].numbers().len() {
        if let Err(refusal) = add_entry(tilings, positions, rows, tiling, nth) {
            remove_entries(tilings, positions, rows, tiling, nth);
            return Err(refusal);
        }
    }
    Ok(())
}

/// Prepares the move of the last tiling to an index: writes this index into the entries of the last tiling. The tiling that is
/// still at the index must have no entries any more.
pub(crate) fn reindex_last(
    tilings: &[Tiling],
    positions: &Positions,
    rows: &mut [Row],
    index: usize,
)
    requires there { index < length tilings.now }
    requires even { length positions.now ≡ length tilings.now }
    requires once { Once (at tilings.now) }
    requires few { length tilings.now < 2 ^ 32 }
    requires agree { Agree (span (at tilings.now) index 0 0) (at positions.now) (at rows.old) }
    ensures { Agree (at (swap_remove tilings.now index [])) (at (swap_remove positions.now index [])) (at rows.new) }
{
    let last = tilings.len() - 1;
    if index == last {
        return;
    }
    reindex(tilings, positions, rows, last, index);
}

// Writes the index `to`, whose own tiling has no entries, into the entries of the tiling at `from`.
fn reindex(tilings: &[Tiling], positions: &Positions, rows: &mut [Row], from: usize, to: usize)
    requires apart { from ≢ to }
    requires once { Once (at tilings.now) }
    requires there { from < length tilings.now }
    requires few { to < 2 ^ 32 }
    requires agree { Agree (span (at tilings.now) to 0 0) (at positions.now) (at rows.old) }
    ensures { Agree (moved (at tilings.now) from to) (moved (at positions.now) from to) (at rows.new) }
{
    for nth in 0..tilings[from].numbers().len() {
        reindex_entry(tilings, positions, rows, from, to, nth);
    }
}

fn reindex_entry(
    tilings: &[Tiling],
    positions: &Positions,
    rows: &mut [Row],
    from: usize,
    to: usize,
    nth: usize,
)
    requires apart { from ≢ to }
    requires once { Once (at tilings.now) }
    requires here { IsSome (at tilings.now from nth) }
    requires few { to < 2 ^ 32 }
    requires agree { Agree (half (at tilings.now) from to nth) (over (at positions.now) from to) (at rows.old) }
    ensures { Agree (half (at tilings.now) from to (nth + 1)) (over (at positions.now) from to) (at rows.new) }
{
    let number = number_of(tilings, from, nth);
    let position = positions.get(from, nth);
    put(rows, number as usize, position as usize, to as u32);
}
