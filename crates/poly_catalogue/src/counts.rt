//! Counts that say how many placements of each listed tiling have an item.
//!
//! Each placement is checked once for an item. If it has the item, the index leads to the tilings that have the placement, and
//! the count of each is raised. So no tiling is looked at. A count is one byte and stops at 255, which is more than any most.
//! The counts are allocated when tilings are listed, so that keeping what is still a tiling never allocates.
ghost use Rattle.std.specs.Prelude.{◌≡◌, ◌+◌, ◌&&◌, ◌==◌, ◌<◌, ◌≤◌, IfErr, IfOk, OnOk, length, min, replicate, slice_index_or, slice_set, true, ℕ};
ghost use Rattle.poly_tiling.specs.Lists.{distinct, mem, one};
ghost use Rattle.poly_tiling.specs.Puzzle.{has_item};
ghost use Rattle.poly_catalogue.specs.Catalogued.{HasFlags};
ghost use Rattle.poly_catalogue.specs.Counts.{AddsCounts, AreCounts, IsCount, between};

use crate::listing::Listing;
use poly_grid::Refusal;
use poly_tiling::{Item, View};
use std::alloc::Global;

/// Returns this many counts, all of them 0. Fails only with `Memory`.
pub(crate) fn zeros(alloc: Global, count: usize) -> Result<Vec<u8>, Refusal>
    ensures ok { IfOk result (λ counts. length counts.items ≡ count) }
    ensures why { IfErr result (λ e. e ≡ Refusal.Memory) }
{
    Ok(vec![in alloc; 0u8; count]?)
}

/// Makes at least this many counts. Fails only with `Memory`. In either case there are as many counts as before or more.
pub(crate) fn reach_counts(counts: &mut Vec<u8>, len: usize) -> Result<(), Refusal>
    ensures enough { OnOk result (len ≤ length counts.new.items) }
    ensures more { length counts.old.items ≤ length counts.new.items }
    ensures why { IfErr result (λ e. e ≡ Refusal.Memory) }
{
    if counts.len() < len {
        counts.resize(len, 0)?;
    }
    Ok(())
}

/// Counts for each tiling how many of its placements have the item. Before the call, the counts may have any values. Each
/// number of the tilings is below `flag_count`.
pub(crate) fn count_item(
    counts: &mut Vec<u8>,
    listing: &Listing,
    flag_count: usize,
    view: &View,
    item: &Item,
)
    requires room { length listing.now ≤ length counts.old.items }
    requires flags { HasFlags listing.now flag_count }
    ensures long { length counts.new.items ≡ length counts.old.items }
    ensures counts { AreCounts (λ p. has_item view.now p item.now) listing.now counts.new.items }
{
    clear(counts);
    for number in 0..flag_count {
        add_covering(counts, listing, view, item, number as u32);
    }
}

/// Counts 1 for each tiling that has the number, and 0 for all others. Before the call, the counts may have any values.
pub(crate) fn count_number(counts: &mut Vec<u8>, listing: &Listing, number: u32)
    requires room { length listing.now ≤ length counts.old.items }
    ensures long { length counts.new.items ≡ length counts.old.items }
    ensures counts { AreCounts (λ p. p == number) listing.now counts.new.items }
{
    clear(counts);
    add_number(counts, listing, number);
}

/// Whether the count of a tiling is at least `least` and at most `most`.
pub(crate) fn is_between(counts: &[u8], least: u8, most: u8, index: usize) -> bool
    requires { index < length counts.now }
    ensures { result ≡ between counts.now least most index }
{
    let count = counts[index];
    least <= count && count <= most
}

fn clear(counts: &mut Vec<u8>)
    ensures { counts.new.items ≡ replicate (length counts.old.items) 0 }
{
    counts.fill(0);
}

// Raises the count of each tiling that has the number, if the number's placement has the item.
fn add_covering(counts: &mut Vec<u8>, listing: &Listing, view: &View, item: &Item, number: u32)
    requires room { length listing.now ≤ length counts.old.items }
    ensures long { length counts.new.items ≡ length counts.old.items }
    ensures counts { AddsCounts (λ p. p == number && has_item view.now p item.now) listing.now counts.old.items counts.new.items }
{
    if !view.covers(number, *item) {
        return;
    }
    add_number(counts, listing, number);
}

// Raises the count of each tiling that has the number.
fn add_number(counts: &mut Vec<u8>, listing: &Listing, number: u32)
    requires room { length listing.now ≤ length counts.old.items }
    ensures long { length counts.new.items ≡ length counts.old.items }
    ensures counts { AddsCounts (λ p. p == number) listing.now counts.old.items counts.new.items }
{
    add_one_each(counts, listing.indices(number));
}

// Raises the count of the tiling at each of the indices.
fn add_one_each(counts: &mut Vec<u8>, indices: &[u32])
    requires low { (t : ℕ) → mem indices.now t ≡ true → t < length counts.old.items }
    requires apart { distinct indices.now ≡ true }
    ensures long { length counts.new.items ≡ length counts.old.items }
    ensures counts { (t n : ℕ) → IsCount counts.old.items t n → IsCount counts.new.items t (n + one (mem indices.now t)) }
{
    for index in indices {
        add_one(counts, *index);
    }
}

fn add_one(counts: &mut Vec<u8>, index: u32)
    requires { index < length counts.old.items }
    ensures { counts.new.items ≡ slice_set counts.old.items index (min (slice_index_or counts.old.items index 0 + 1) 255) }
{
    let count = counts[index as usize];
    counts[index as usize] = count.saturating_add(1);
}
