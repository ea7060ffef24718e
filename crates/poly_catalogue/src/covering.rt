//! The listed tilings that cover an item. The index finds them by the placements that have the item.
ghost use Rattle.std.specs.Prelude.{◌≡◌, IfErr, IfOk, filter, true};
ghost use Rattle.std.specs.List.{list_all};
ghost use Rattle.poly_tiling.specs.Puzzle.{has_item, is_tiling};
ghost use Rattle.poly_catalogue.specs.Covering.{AreCovering};

use crate::listing::Listing;
use crate::marks;
use poly_grid::Refusal;
use poly_tiling::{Item, View};
use std::alloc::{AllocError, Global};

/// A mark for each tiling of the list: whether the tiling covers the item. Fails only with `Memory`.
pub(crate) fn covering(
    alloc: Global,
    listing: &Listing,
    view: &View,
    item: Item,
) -> Result<Vec<bool>, Refusal>
    requires { list_all (is_tiling view.now) listing.now ≡ true }
    ensures ok { IfOk result (λ marks. AreCovering view.now item listing.now marks.items) }
    ensures why { IfErr result (λ e. e ≡ Refusal.Memory) }
{
    let numbers = numbers_with(alloc, view, item)?;
    let marks = marks::having(alloc, listing, &numbers)?;
    Ok(marks)
}

// The live numbers whose placements have the item.
fn numbers_with(alloc: Global, view: &View, item: Item) -> Result<Vec<u32>, AllocError>
    ensures { IfOk result (λ list. list.items ≡ filter (λ p. has_item view.now p item) view.now.live) }
{
    view.live()
        .iter()
        .filter(|p| view.covers(**p, item))
        .copied()
        .collect(alloc)
}
