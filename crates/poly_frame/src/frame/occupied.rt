//! Which words of a row have bits set, so that counts can skip the others. This only saves time: the counts are the same.
ghost use Rattle.std.specs.Prelude.{IfErr, length, vec_capacity, vec_len, ◌+◌, ◌<◌, ◌≡◌, ◌≤◌};

use poly_grid::Refusal;
use std::alloc::Global;

/// The most words of a narrow row. Counting in all words of such a row is fastest.
pub(crate) const NARROW: usize = 24;

/// A bit for each word of a row. A design has at most 20,000 placements, so a row has at most 313 words.
#[derive(Clone, Copy)]
pub(crate) struct Occupied([u64; 5]);

/// The words of the row that have bits set.
pub(crate) fn occupied_words(row: &[u64]) -> Occupied {
    let mut occupied = [0u64; 5];
    for k in 0..row.len().min(320) {
        if row[k] != 0 {
            occupied[k / 64] |= 1u64 << (k % 64);
        }
    }
    Occupied(occupied)
}

/// The occupied words of each of `count` rows, which are `width` words long; an empty list if they are narrow.
pub(crate) fn occupied_rows(
    alloc: Global,
    rows: &[u64],
    width: usize,
    count: usize,
) -> Result<Vec<Occupied>, Refusal>
    ensures { IfErr result (λ e. e ≡ Refusal.Memory) }
{
    if width <= NARROW {
        return Ok(Vec::new(alloc));
    }
    let mut all = Vec::with_capacity(alloc, count)?;
    list_occupied(rows, width, count, &mut all);
    Ok(all)
}

// Appends the occupied words of each of `count` rows to a list that has room for them.
fn list_occupied(rows: &[u64], width: usize, count: usize, into: &mut Vec<Occupied>)
    requires { vec_len into.old + count ≤ vec_capacity into.old }
{
    let mut at = 0usize;
    for _row in 0..count {
        if rows.len() - at < width {
            return;
        }
        into.push_reserved(occupied_words(&rows[at..at + width]));
        at += width;
    }
}

/// How many bits of the words are set.
pub(crate) fn count_bits(row: &[u64]) -> usize {
    let mut all = 0usize;
    for word in row {
        all = all.wrapping_add(word.count_ones() as usize);
    }
    all
}

/// How many numbers both rows have; if that is at least `most`, the result may be any count from `most` on. Counts four words
/// at a time, and stops after four words that reach `most`.
pub(crate) fn count_common(some: &[u64], others: &[u64], most: usize) -> usize
    requires { length some.now ≤ length others.now }
{
    let mut all = 0usize;
    let fours = some.len() / 4;
    for c in 0..fours {
        let k = 4 * c;
        all = all.wrapping_add(count_all::<4>(&some[k..k + 4], &others[k..k + 4]));
        if most <= all {
            return all;
        }
    }
    for k in 4 * fours..some.len() {
        all = all.wrapping_add((some[k] & others[k]).count_ones() as usize);
    }
    all
}

/// How many numbers both rows have in their first `WIDTH` words. For short rows this is faster than [`count_common`]: the compiler
/// writes out a loop of constant length, and where a count stops early, the processor mostly guesses wrong whether it does.
#[inline(always)]
pub(crate) fn count_all<const WIDTH: usize>(some: &[u64], others: &[u64]) -> usize
    requires some { WIDTH ≤ length some.now }
    requires others { WIDTH ≤ length others.now }
{
    let mut all = 0usize;
    for k in 0..WIDTH {
        all = all.wrapping_add((some[k] & others[k]).count_ones() as usize);
    }
    all
}

// How many numbers both rows have, counting only the words `first + i` for which bit `i` of the mask is set. Stops once the
// count reaches `most`.
fn count_in(some: &[u64], others: &[u64], first: usize, mask: u64, most: usize) -> usize
    requires { first < 320 }
{
    let mut left = mask;
    let mut all = 0usize;
    for _ in 0..64u32 {
        if left == 0 || most <= all {
            return all;
        }
        let k = first + left.trailing_zeros() as usize;
        left &= left - 1;
        if k < some.len() && k < others.len() {
            all = all.saturating_add((some[k] & others[k]).count_ones() as usize);
        }
    }
    all
}

/// How many numbers both rows have; if that is at least `most`, the result may be any count from `most` on. `occupied` and
/// `filled` are the occupied words of the two rows.
pub(crate) fn common(
    some: &[u64],
    occupied: &Occupied,
    others: &[u64],
    filled: &Occupied,
    most: usize,
) -> usize {
    let mut all = count_in(some, others, 0, occupied.0[0] & filled.0[0], most);
    if some.len() <= 64 {
        return all;
    }
    for c in 1..5usize {
        let mask = occupied.0[c] & filled.0[c];
        if mask != 0 && all < most {
            all = all.saturating_add(count_in(some, others, 64 * c, mask, most - all));
        }
    }
    all
}
