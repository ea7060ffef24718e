//! Sorts tilings, which are compared as the lists of their placements in placement order.
//!
//! The code compares ranks instead. The ranks of a tiling are the positions of its numbers among the live numbers, in
//! ascending order. Ranks give the same order of tilings, since the live numbers are in placement order. Only small keys are
//! sorted, each an index and the leading digits of a tiling's ranks. Then the tilings are copied in the order of the keys.
ghost use Rattle.std.specs.Prelude.{[], IfErr, IfOk, OnErr, OnOk, length, map, nat_lt, slice_index_or, true, ℕ, ◌+◌, ◌<◌, ◌≡◌, ◌^◌};
ghost use Rattle.std.specs.Cmp.Lexicographic.{slice_cmp};
ghost use Rattle.std.specs.List.{All, filter_map, list_all};
ghost use Rattle.std.specs.List.Sorted.{IsPermutation, IsSorted};
ghost use Rattle.std.specs.Ordering.{nat_cmp, ordering_then};
ghost use Rattle.poly_tiling.specs.Lists.{distinct};
ghost use Rattle.poly_tiling.specs.Names.{WellNamed};
ghost use Rattle.poly_tiling.specs.TilingOrder.{ArePositions, position_at, ranks_from, tiling_cmp};
ghost use Rattle.poly_tiling.specs.Leading.{AreDigits, leading, tiling_at};

use crate::leading::{digit_count, leading};
use crate::rows::Rows;
use crate::tiling::Tiling;
use crate::view::View;
use poly_grid::Refusal;
use std::alloc::Global;
use std::cmp::Ordering;

/// Sorts the tilings in ascending order. A tiling is compared as the list of its placements in placement order.
///
/// The only refusal is `Memory`, and it leaves the list as it was.
pub fn sort_tilings(alloc: Global, view: &View, tilings: &mut Vec<Tiling>) -> Result<(), Refusal>
    ensures permutation { OnOk result (IsPermutation tilings.old.items tilings.new.items) }
    ensures ascends { OnOk result (IsSorted (tiling_cmp view.now) tilings.new.items) }
    ensures kept { OnErr result (tilings.new.items ≡ tilings.old.items) }
    ensures why { IfErr result (λ e. e ≡ Refusal.Memory) }
{
    let sorted = tilings_in_order(alloc, view, tilings)?;
    *tilings = sorted;
    Ok(())
}

/// Copies of the tilings, sorted as `sort_tilings` sorts them. Fails only with `Memory`.
pub fn tilings_in_order(
    alloc: Global,
    view: &View,
    tilings: &[Tiling],
) -> Result<Vec<Tiling>, Refusal>
    ensures permutation { IfOk result (λ sorted. IsPermutation tilings.now sorted.items) }
    ensures ascends { IfOk result (λ sorted. IsSorted (tiling_cmp view.now) sorted.items) }
    ensures why { IfErr result (λ e. e ≡ Refusal.Memory) }
{
    let order = order_of(alloc, view, tilings)?;
    copies_at(alloc, tilings, &order)
}

// A tiling's index and the leading digits of its ranks. These digits alone decide most comparisons.
#[derive(Clone, Copy)]
struct Key {
    leading: u64,
    index: usize,
}

// The keys of the tilings, sorted by the order of tilings. The ranks are dropped before any tiling is copied.
fn order_of(alloc: Global, view: &View, tilings: &[Tiling]) -> Result<Vec<Key>, Refusal>
    ensures within { IfOk result (λ order. All (λ k. k.index < length tilings.now) order.items) }
    ensures permutation { IfOk result (λ order. IsPermutation tilings.now (map (λ k. tiling_at tilings.now k.index) order.items)) }
    ensures ascends { IfOk result (λ order. IsSorted (tiling_cmp view.now) (map (λ k. tiling_at tilings.now k.index) order.items)) }
    ensures why { IfErr result (λ e. e ≡ Refusal.Memory) }
{
    let positions = live_positions(alloc, view)?;
    let ranks = ranks_of_each(alloc, view, &positions, tilings)?;
    let base = rank_base(view);
    let mut keys = keys_of(alloc, tilings, &ranks, base, digit_count(base))?;
    keys.sort_unstable_by(|a, b| compare(&ranks, a, b));
    Ok(keys)
}

// A base that is large enough for the ranks of each tiling as digits.
fn rank_base(view: &View) -> u64
    ensures { result ≡ length view.now.live + 1 }
{
    view.live().len() as u64 + 1
}

// Compares two keys by their leading digits, and if these are the same, by the rows at their indices.
fn compare(rows: &Rows, a: &Key, b: &Key) -> Ordering
    ensures { result ≡ ordering_then (nat_cmp a.now.leading b.now.leading) (slice_cmp nat_cmp (slice_index_or rows.now a.now.index []) (slice_index_or rows.now b.now.index [])) }
{
    match a.leading.cmp(&b.leading) {
        Ordering::Less => Ordering::Less,
        Ordering::Equal => rows.row(a.index).cmp(rows.row(b.index)),
        Ordering::Greater => Ordering::Greater,
    }
}

// The position of each number among the live ones; none if it is not live.
fn live_positions(alloc: Global, view: &View) -> Result<Vec<Option<u32>>, Refusal>
    ensures ok { IfOk result (λ positions. ArePositions view.now.live positions.items) }
    ensures well { OnOk result (WellNamed view.now) }
    ensures why { IfErr result (λ e. e ≡ Refusal.Memory) }
{
    let positions = position_table(alloc, view.live(), view.number_count())?;
    Ok(positions)
}

// The position of each number in the list, for the numbers below the count; none if the list lacks the number.
fn position_table(alloc: Global, list: &[u32], count: usize) -> Result<Vec<Option<u32>>, Refusal>
    requires once { distinct list.now ≡ true }
    requires below { list_all (λ n. nat_lt n count) list.now ≡ true }
    ensures ok { IfOk result (λ positions. ArePositions list.now positions.items) }
    ensures why { IfErr result (λ e. e ≡ Refusal.Memory) }
{
    let mut positions = Vec::from_elem(alloc, None, count)?;
    for (position, number) in list.iter().enumerate() {
        positions[*number as usize] = Some(position as u32);
    }
    Ok(positions)
}

// The ranks of each tiling.
fn ranks_of_each(
    alloc: Global,
    view: &View,
    positions: &[Option<u32>],
    tilings: &[Tiling],
) -> Result<Rows, Refusal>
    requires positions { ArePositions view.now.live positions.now }
    ensures ok { IfOk result (λ rows. rows ≡ map (ranks_from 0 view.now.live) tilings.now) }
    ensures why { IfErr result (λ e. e ≡ Refusal.Memory) }
{
    let mut rows = Rows::with_capacity(alloc, tilings.len(), number_total(tilings))?;
    for tiling in tilings {
        let ranks = ranks_of(alloc, view, positions, tiling)?;
        rows.push(&ranks)?;
    }
    Ok(rows)
}

// The sum of the lengths of the tilings, or `usize::MAX` if the sum is greater.
fn number_total(tilings: &[Tiling]) -> usize {
    let mut total: usize = 0;
    for tiling in tilings {
        total = total.saturating_add(tiling.numbers().len());
    }
    total
}

// The ranks of a tiling.
fn ranks_of(
    alloc: Global,
    view: &View,
    positions: &[Option<u32>],
    tiling: &Tiling,
) -> Result<Vec<u32>, Refusal>
    requires positions { ArePositions view.now.live positions.now }
    ensures ok { IfOk result (λ ranks. ranks.items ≡ ranks_from 0 view.now.live tiling.now) }
    ensures why { IfErr result (λ e. e ≡ Refusal.Memory) }
{
    let mut ranks = positions_of(alloc, positions, tiling.numbers())?;
    ranks.sort_unstable();
    ranks.dedup();
    Ok(ranks)
}

// The positions of those numbers that have a position.
fn positions_of(
    alloc: Global,
    positions: &[Option<u32>],
    numbers: &[u32],
) -> Result<Vec<u32>, Refusal>
    ensures ok { IfOk result (λ list. list.items ≡ filter_map (position_at positions.now) numbers.now) }
    ensures why { IfErr result (λ e. e ≡ Refusal.Memory) }
{
    let mut list = Vec::with_capacity(alloc, numbers.len())?;
    for number in numbers {
        if let Some(position) = position_of(positions, *number) {
            list.push(position)?;
        }
    }
    Ok(list)
}

fn position_of(positions: &[Option<u32>], number: u32) -> Option<u32>
    ensures { result ≡ position_at positions.now number }
{
    match positions.get(number as usize) {
        Some(position) => *position,
        None => None,
    }
}

// The key of each tiling. The row at a tiling's index has the tiling's ranks.
fn keys_of(
    alloc: Global,
    tilings: &[Tiling],
    rows: &Rows,
    base: u64,
    count: usize,
) -> Result<Vec<Key>, Refusal>
    requires positive { 0 < base }
    requires digits { (i : ℕ) → AreDigits base (slice_index_or rows.now i []) }
    requires fits { base ^ count < 2 ^ 64 }
    ensures within { IfOk result (λ keys. All (λ k. k.index < length tilings.now) keys.items) }
    ensures each { IfOk result (λ keys. map (λ k. tiling_at tilings.now k.index) keys.items ≡ tilings.now) }
    ensures leading { IfOk result (λ keys. All (λ k. k.leading ≡ leading base (slice_index_or rows.now k.index []) count) keys.items) }
    ensures why { IfErr result (λ e. e ≡ Refusal.Memory) }
{
    let mut keys = Vec::with_capacity(alloc, tilings.len())?;
    for index in 0..tilings.len() {
        keys.push(key_of(rows, index, base, count))?;
    }
    Ok(keys)
}

fn key_of(rows: &Rows, index: usize, base: u64, count: usize) -> Key
    requires positive { 0 < base }
    requires digits { AreDigits base (slice_index_or rows.now index []) }
    requires fits { base ^ count < 2 ^ 64 }
    ensures leading { result.leading ≡ leading base (slice_index_or rows.now index []) count }
    ensures index { result.index ≡ index }
{
    Key {
        leading: leading(rows.row(index), base, count),
        index,
    }
}

// Copies of the tilings at the indices of these keys.
fn copies_at(alloc: Global, tilings: &[Tiling], keys: &[Key]) -> Result<Vec<Tiling>, Refusal>
    requires within { All (λ k. k.index < length tilings.now) keys.now }
    ensures ok { IfOk result (λ list. list.items ≡ map (λ k. tiling_at tilings.now k.index) keys.now) }
    ensures why { IfErr result (λ e. e ≡ Refusal.Memory) }
{
    let mut list = Vec::with_capacity(alloc, keys.len())?;
    for key in keys {
        list.push(tilings[key.index].copy()?)?;
    }
    Ok(list)
}
