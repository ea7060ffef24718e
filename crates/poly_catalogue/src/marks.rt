//! Marks for listed tilings.
//!
//! Each function that marks tilings keeps the marks that are set already, so the marks for several differences add up.
//!
//! An item fits in a tiling if the number of the tiling's placements that have it is within the item's bounds. To mark the
//! tilings in which it doesn't fit, these placements are counted by the index, and the marking then reads only the counts.
ghost use Rattle.std.specs.Prelude.{◌≡◌, ◌||◌, ◌<◌, ◌≤◌, Bool, IfErr, IfOk, List, false, length, not, replicate, slice_index_or, slice_set, true, ℕ};
ghost use Rattle.std.specs.List.{list_all};
ghost use Rattle.poly_tiling.specs.declared.item.Item.TheVariants.{Piece as PieceItem};
ghost use Rattle.poly_tiling.specs.Lists.{mem};
ghost use Rattle.poly_tiling.specs.Names.{WellNamed};
ghost use Rattle.poly_catalogue.specs.Catalogued.{HasFlags};
ghost use Rattle.poly_catalogue.specs.Counts.{ArePassing};
ghost use Rattle.poly_catalogue.specs.Listed.{AddsMarks, AreMarked};
ghost use Rattle.poly_catalogue.specs.Stays.{fits};

use crate::counts::{count_item, count_number, is_between};
use crate::listing::Listing;
use poly_design::Name;
use poly_grid::Refusal;
use poly_tiling::{Item, View};
use std::alloc::Global;

/// A mark for each tiling of the list: whether the tiling has one of the numbers. Fails only with `Memory`.
pub(crate) fn having(
    alloc: Global,
    listing: &Listing,
    numbers: &[u32],
) -> Result<Vec<bool>, Refusal>
    ensures ok { IfOk result (λ marks. AreMarked listing.now numbers.now marks.items) }
    ensures why { IfErr result (λ e. e ≡ Refusal.Memory) }
{
    let mut marks = unset(alloc, listing.len())?;
    for number in numbers {
        mark_all(&mut marks, listing.indices(*number));
    }
    Ok(marks)
}

// Returns this many marks, none of them set. Fails only with `Memory`.
fn unset(alloc: Global, count: usize) -> Result<Vec<bool>, Refusal>
    ensures ok { IfOk result (λ marks. marks.items ≡ replicate count false) }
    ensures why { IfErr result (λ e. e ≡ Refusal.Memory) }
{
    Ok(vec![in alloc; false; count]?)
}

// Marks the tilings at the indices.
fn mark_all(marks: &mut Vec<bool>, indices: &[u32])
    requires { (t : ℕ) → mem indices.now t ≡ true → t < length marks.old.items }
    ensures long { length marks.new.items ≡ length marks.old.items }
    ensures marks { (t : ℕ) → slice_index_or marks.new.items t false ≡ (slice_index_or marks.old.items t false || mem indices.now t) }
{
    for index in indices {
        mark(marks, *index);
    }
}

fn mark(marks: &mut Vec<bool>, index: u32)
    requires { index < length marks.old.items }
    ensures { marks.new.items ≡ slice_set marks.old.items index true }
{
    marks[index as usize] = true;
}

/// Marks the tilings that lack one of the pins. Before the call, the counts may have any values.
pub(crate) fn mark_unpinned(
    marks: &mut Vec<bool>,
    counts: &mut Vec<u8>,
    listing: &Listing,
    pins: &[u32],
)
    requires long { length marks.old.items ≡ length listing.now }
    requires room { length listing.now ≤ length counts.old.items }
    ensures marks { AddsMarks (λ T. not (list_all (λ p. mem T p) pins.now)) listing.now marks.old.items marks.new.items }
    ensures long { length counts.new.items ≡ length counts.old.items }
{
    for pin in pins {
        mark_lacking(marks, counts, listing, *pin);
    }
}

// Marks the tilings that lack the number.
fn mark_lacking(marks: &mut Vec<bool>, counts: &mut Vec<u8>, listing: &Listing, number: u32)
    requires long { length marks.old.items ≡ length listing.now }
    requires room { length listing.now ≤ length counts.old.items }
    ensures marks { AddsMarks (λ T. not (mem T number)) listing.now marks.old.items marks.new.items }
    ensures long { length counts.new.items ≡ length counts.old.items }
{
    count_number(counts, listing, number);
    mark_outside(marks, counts, 1, u8::MAX);
}

/// Marks the tilings in which one of the items doesn't fit. Before the call, the counts may have any values. Each number of
/// the tilings is below `flag_count`.
pub(crate) fn mark_unfit_items(
    marks: &mut Vec<bool>,
    counts: &mut Vec<u8>,
    listing: &Listing,
    flag_count: usize,
    view: &View,
    items: &[Item],
)
    requires well { WellNamed view.now }
    requires long { length marks.old.items ≡ length listing.now }
    requires room { length listing.now ≤ length counts.old.items }
    requires flags { HasFlags listing.now flag_count }
    ensures marks { AddsMarks (λ T. not (list_all (λ i. fits view.now i T) items.now)) listing.now marks.old.items marks.new.items }
    ensures long { length counts.new.items ≡ length counts.old.items }
{
    for item in items {
        mark_unfit(marks, counts, listing, flag_count, view, item);
    }
}

/// Marks the tilings in which one of the pieces doesn't fit. Before the call, the counts may have any values. Each number of
/// the tilings is below `flag_count`.
pub(crate) fn mark_unfit_pieces(
    marks: &mut Vec<bool>,
    counts: &mut Vec<u8>,
    listing: &Listing,
    flag_count: usize,
    view: &View,
    names: &[Name],
)
    requires well { WellNamed view.now }
    requires long { length marks.old.items ≡ length listing.now }
    requires room { length listing.now ≤ length counts.old.items }
    requires flags { HasFlags listing.now flag_count }
    ensures marks { AddsMarks (λ T. not (list_all (λ n. fits view.now (PieceItem n) T) names.now)) listing.now marks.old.items marks.new.items }
    ensures long { length counts.new.items ≡ length counts.old.items }
{
    for name in names {
        mark_unfit(
            marks,
            counts,
            listing,
            flag_count,
            view,
            &Item::Piece(*name),
        );
    }
}

// Marks the tilings in which the item doesn't fit.
fn mark_unfit(
    marks: &mut Vec<bool>,
    counts: &mut Vec<u8>,
    listing: &Listing,
    flag_count: usize,
    view: &View,
    item: &Item,
)
    requires well { WellNamed view.now }
    requires long { length marks.old.items ≡ length listing.now }
    requires room { length listing.now ≤ length counts.old.items }
    requires flags { HasFlags listing.now flag_count }
    ensures marks { AddsMarks (λ T. not (fits view.now item.now T)) listing.now marks.old.items marks.new.items }
    ensures long { length counts.new.items ≡ length counts.old.items }
{
    count_item(counts, listing, flag_count, view, item);
    let (least, most) = view.bounds(*item);
    mark_outside(marks, counts, least, most);
}

// Marks the tilings whose count is below `least` or above `most`.
fn mark_outside(marks: &mut Vec<bool>, counts: &[u8], least: u8, most: u8)
    requires { length marks.old.items ≤ length counts.now }
    ensures { (p : List ℕ → Bool) (list : List (List ℕ)) → length marks.old.items ≡ length list → ArePassing p list counts.now least most → AddsMarks (λ T. not (p T)) list marks.old.items marks.new.items }
{
    for index in 0..marks.len() {
        mark_if(marks, index, !is_between(counts, least, most, index));
    }
}

fn mark_if(marks: &mut Vec<bool>, index: usize, leaves: bool)
    requires { index < length marks.old.items }
    ensures { marks.new.items ≡ slice_set marks.old.items index (slice_index_or marks.old.items index false || leaves) }
{
    let marked = marks[index];
    marks[index] = marked || leaves;
}
