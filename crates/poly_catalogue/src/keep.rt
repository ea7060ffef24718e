//! The removal of listed tilings that are no longer tilings.
//!
//! An item fits in a tiling if the number of the tiling's placements that have it is within the item's bounds. The index
//! leads from each placement to the tilings that have it, so the tilings' counts are raised placement by placement. Then only
//! the counts are read, and the tilings themselves stay untouched, except those that are removed or move to a free place.
ghost use Rattle.std.specs.Prelude.{◌≡◌, ◌+◌, ◌&&◌, ◌<◌, ◌≤◌, Bool, IfNone, IfSome, List, false, length, not, take, true, ℕ};
ghost use Rattle.std.specs.List.{list_all, list_any};
ghost use Rattle.poly_tiling.specs.declared.item.Item.TheVariants.{Piece as PieceItem};
ghost use Rattle.poly_tiling.specs.Lists.{mem, one, tally};
ghost use Rattle.poly_tiling.specs.Names.{WellNamed};
ghost use Rattle.poly_tiling.specs.Puzzle.{is_tiling};
ghost use Rattle.poly_catalogue.specs.Catalogued.{HasFlags};
ghost use Rattle.poly_catalogue.specs.Counts.{ArePassing};
ghost use Rattle.poly_catalogue.specs.Listed.{AreOfEither, Keeps};
ghost use Rattle.poly_catalogue.specs.Rows.{row};
ghost use Rattle.poly_catalogue.specs.Stays.{fits};

use crate::counts::{count_item, count_number, is_between};
use crate::listing::Listing;
use poly_design::Name;
use poly_place::Delta;
use poly_tiling::{Item, View};

/// Removes the tilings that are not tilings of the view. Never allocates.
///
/// The index finds those with a placement that is gone. The others are counted only if there are new pins, items whose
/// least rose or pieces whose most fell. Before the call, the counts may have any values. Each number of the tilings is below
/// `flag_count`.
pub(crate) fn keep(
    listing: &mut Listing,
    counts: &mut Vec<u8>,
    flag_count: usize,
    view: &View,
    delta: &Delta,
)
    requires from { AreOfEither view.now delta.now listing.old }
    requires room { length listing.old ≤ length counts.old.items }
    requires flags { HasFlags listing.old flag_count }
    ensures keeps { Keeps (is_tiling view.now) listing.old listing.new }
    ensures long { length counts.new.items ≡ length counts.old.items }
{
    drop_gone(listing, &delta.gone);
    drop_unpinned(listing, counts, &delta.pinned);
    drop_unfit_items(listing, counts, flag_count, view, &delta.needed);
    drop_unfit_pieces(listing, counts, flag_count, view, &delta.narrowed);
}

// Removes the tilings that have one of the numbers.
fn drop_gone(listing: &mut Listing, gone: &[u32])
    ensures { Keeps (λ T. list_all (λ p. not (mem T p)) gone.now) listing.old listing.new }
{
    for number in gone {
        drop_having(listing, *number);
    }
}

// Removes the tilings that have the number.
fn drop_having(listing: &mut Listing, number: u32)
    ensures { Keeps (λ T. not (mem T number)) listing.old listing.new }
{
    while let Some(index) = one_having(listing, number) {
        listing.remove(index);
    }
}

// The index of some tiling that has the number, if there is one.
fn one_having(listing: &Listing, number: u32) -> Option<usize>
    ensures low { IfSome result (λ t. t < length listing.now) }
    ensures has { IfSome result (λ t. mem (row listing.now t) number ≡ true) }
    ensures none { IfNone result (list_any (λ T. mem T number) listing.now ≡ false) }
{
    match listing.indices(number).last() {
        Some(index) => Some(*index as usize),
        None => None,
    }
}

// Removes the tilings that lack one of the pins.
fn drop_unpinned(listing: &mut Listing, counts: &mut Vec<u8>, pins: &[u32])
    requires { length listing.old ≤ length counts.old.items }
    ensures keeps { Keeps (λ T. list_all (λ p. mem T p) pins.now) listing.old listing.new }
    ensures long { length counts.new.items ≡ length counts.old.items }
{
    for pin in pins {
        drop_lacking(listing, counts, *pin);
    }
}

// Removes the tilings that lack the number.
fn drop_lacking(listing: &mut Listing, counts: &mut Vec<u8>, number: u32)
    requires { length listing.old ≤ length counts.old.items }
    ensures keeps { Keeps (λ T. mem T number) listing.old listing.new }
    ensures long { length counts.new.items ≡ length counts.old.items }
{
    count_number(counts, listing, number);
    drop_outside(listing, counts, 1, u8::MAX);
}

// Removes the tilings in which one of the items doesn't fit.
fn drop_unfit_items(
    listing: &mut Listing,
    counts: &mut Vec<u8>,
    flag_count: usize,
    view: &View,
    items: &[Item],
)
    requires well { WellNamed view.now }
    requires room { length listing.old ≤ length counts.old.items }
    requires flags { HasFlags listing.old flag_count }
    ensures keeps { Keeps (λ T. list_all (λ i. fits view.now i T) items.now) listing.old listing.new }
    ensures long { length counts.new.items ≡ length counts.old.items }
{
    for item in items {
        drop_unfit(listing, counts, flag_count, view, item);
    }
}

// Removes the tilings in which one of the pieces doesn't fit.
fn drop_unfit_pieces(
    listing: &mut Listing,
    counts: &mut Vec<u8>,
    flag_count: usize,
    view: &View,
    names: &[Name],
)
    requires well { WellNamed view.now }
    requires room { length listing.old ≤ length counts.old.items }
    requires flags { HasFlags listing.old flag_count }
    ensures keeps { Keeps (λ T. list_all (λ n. fits view.now (PieceItem n) T) names.now) listing.old listing.new }
    ensures long { length counts.new.items ≡ length counts.old.items }
{
    for name in names {
        drop_unfit(listing, counts, flag_count, view, &Item::Piece(*name));
    }
}

// Removes the tilings in which the item doesn't fit.
fn drop_unfit(
    listing: &mut Listing,
    counts: &mut Vec<u8>,
    flag_count: usize,
    view: &View,
    item: &Item,
)
    requires well { WellNamed view.now }
    requires room { length listing.old ≤ length counts.old.items }
    requires flags { HasFlags listing.old flag_count }
    ensures keeps { Keeps (fits view.now item.now) listing.old listing.new }
    ensures long { length counts.new.items ≡ length counts.old.items }
{
    count_item(counts, listing, flag_count, view, item);
    let (least, most) = view.bounds(*item);
    drop_outside(listing, counts, least, most);
}

// Removes the tilings whose count is below `least` or above `most`.
//
// Goes from the end to the front, so a tiling that moves to the index of a removed one was looked at already, and the count at
// each index that is still to come belongs to the tiling there.
fn drop_outside(listing: &mut Listing, counts: &[u8], least: u8, most: u8)
    requires { length listing.old ≤ length counts.now }
    ensures { (p : List ℕ → Bool) → ArePassing p listing.old counts.now least most → Keeps p listing.old listing.new }
{
    let mut index = listing.len();
    while index > 0 {
        index -= 1;
        drop_unless(listing, index, is_between(counts, least, most, index));
    }
}

fn drop_unless(listing: &mut Listing, index: usize, stays: bool)
    requires { index < length listing.old }
    ensures front { take index listing.new ≡ take index listing.old }
    ensures long { index ≤ length listing.new }
    ensures tally { (f : List ℕ → Bool) → tally f listing.new + one (f (row listing.old index) && not stays) ≡ tally f listing.old }
{
    if stays {
        return;
    }
    listing.remove(index);
}
