//! How many of the listed tilings an edit leaves.
//!
//! Each number that is gone is flagged once, so whether a tiling has such a number is then seen by flags alone. The tilings
//! are only counted, so nothing is allocated.
ghost use Rattle.std.specs.Prelude.{◌≡◌, ◌&&◌, ◌≤◌, filter, length};
ghost use Rattle.std.specs.List.{list_all};
ghost use Rattle.poly_tiling.specs.declared.item.Item.TheVariants.{Piece as PieceItem};
ghost use Rattle.poly_tiling.specs.Lists.{tally};
ghost use Rattle.poly_tiling.specs.Puzzle.{is_tiling};
ghost use Rattle.poly_catalogue.specs.Catalogued.{HasFlags};
ghost use Rattle.poly_catalogue.specs.Listed.{AreOfEither};
ghost use Rattle.poly_catalogue.specs.Stays.{fits, passes};

use crate::flags::{flag_numbers, is_within};
use crate::listing::Listing;
use poly_design::Name;
use poly_place::Delta;
use poly_tiling::{Item, Tiling, View, has_all};

/// How many of the tilings are tilings of the view. Never allocates. Before the call, the flags may have any values.
pub(crate) fn count_staying(
    listing: &Listing,
    flags: &mut Vec<bool>,
    view: &View,
    delta: &Delta,
) -> usize
    requires from { AreOfEither view.now delta.now listing.now }
    requires flags { HasFlags listing.now (length flags.old.items) }
    ensures count { result ≡ length (filter (is_tiling view.now) listing.now) }
    ensures long { length flags.new.items ≡ length flags.old.items }
{
    flag_numbers(flags, &delta.gone);
    count_passing(listing.all(), flags, view, delta)
}

// How many of the tilings have no flagged number and meet the differences.
fn count_passing(tilings: &[Tiling], flags: &[bool], view: &View, delta: &Delta) -> usize
    ensures count { result ≡ tally (passes flags.now view.now delta.now) tilings.now }
    ensures most { result ≤ length tilings.now }
{
    let mut count = 0;
    for tiling in tilings {
        if is_passing(tiling.numbers(), flags, view, delta) {
            count += 1;
        }
    }
    count
}

fn is_passing(numbers: &[u32], flags: &[bool], view: &View, delta: &Delta) -> bool
    ensures { result ≡ passes flags.now view.now delta.now numbers.now }
{
    is_within(flags, 0, 0, numbers)
        && has_all(numbers, &delta.pinned)
        && all_items_fit(numbers, view, &delta.needed)
        && all_pieces_fit(numbers, view, &delta.narrowed)
}

fn all_items_fit(numbers: &[u32], view: &View, items: &[Item]) -> bool
    ensures { result ≡ list_all (λ i. fits view.now i numbers.now) items.now }
{
    items.iter().all(|i| is_fitting(numbers, view, i))
}

fn all_pieces_fit(numbers: &[u32], view: &View, names: &[Name]) -> bool
    ensures { result ≡ list_all (λ n. fits view.now (PieceItem n) numbers.now) names.now }
{
    names
        .iter()
        .all(|n| is_fitting(numbers, view, &Item::Piece(*n)))
}

// Whether the item fits in the tiling of these numbers.
fn is_fitting(numbers: &[u32], view: &View, item: &Item) -> bool
    ensures { result ≡ fits view.now item.now numbers.now }
{
    let (least, most) = view.bounds(*item);
    let count = view.count(numbers, item);
    least as usize <= count && count <= most as usize
}
