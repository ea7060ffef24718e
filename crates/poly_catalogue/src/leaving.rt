//! Copies of the listed tilings that an edit takes away.
ghost use Rattle.std.specs.Prelude.{◌≡◌, ◌++◌, ◌∷◌, [], Bool, IfErr, IfOk, List, OnOk, cond, filter, length, not, ℕ};
ghost use Rattle.poly_tiling.specs.Puzzle.{is_tiling};
ghost use Rattle.poly_catalogue.specs.Catalogued.{HasFlags};
ghost use Rattle.poly_catalogue.specs.Listed.{AreMarkedBy, AreOfEither};

use crate::counts::zeros;
use crate::listing::Listing;
use crate::marks::{having, mark_unfit_items, mark_unfit_pieces, mark_unpinned};
use poly_grid::Refusal;
use poly_place::Delta;
use poly_tiling::{Tiling, View};
use std::alloc::Global;

/// Copies of the tilings that are not tilings of the view, in their order. Fails only with `Memory`.
pub(crate) fn leaving(
    alloc: Global,
    listing: &Listing,
    flag_count: usize,
    view: &View,
    delta: &Delta,
) -> Result<Vec<Tiling>, Refusal>
    requires from { AreOfEither view.now delta.now listing.now }
    requires flags { HasFlags listing.now flag_count }
    ensures ok { IfOk result (λ list. list.items ≡ filter (λ T. not (is_tiling view.now T)) listing.now) }
    ensures why { IfErr result (λ e. e ≡ Refusal.Memory) }
{
    let mut marks = having(alloc, listing, &delta.gone)?;
    let mut counts = zeros(alloc, listing.len())?;
    mark_unpinned(&mut marks, &mut counts, listing, &delta.pinned);
    mark_unfit_items(
        &mut marks,
        &mut counts,
        listing,
        flag_count,
        view,
        &delta.needed,
    );
    mark_unfit_pieces(
        &mut marks,
        &mut counts,
        listing,
        flag_count,
        view,
        &delta.narrowed,
    );
    let list = copies(alloc, listing.all(), &marks)?;
    Ok(list)
}

// Copies of the tilings that are marked. Fails only with `Memory`.
fn copies(alloc: Global, tilings: &[Tiling], marks: &[bool]) -> Result<Vec<Tiling>, Refusal>
    requires { length marks.now ≡ length tilings.now }
    ensures ok { IfOk result (λ list. (p : List ℕ → Bool) → AreMarkedBy p tilings.now marks.now → list.items ≡ filter p tilings.now) }
    ensures why { IfErr result (λ e. e ≡ Refusal.Memory) }
{
    let mut list = Vec::new(alloc);
    for (index, tiling) in tilings.iter().enumerate() {
        copy_if(&mut list, tiling, marks[index])?;
    }
    Ok(list)
}

// Adds a copy of the tiling if it is marked. Fails only with `Memory`.
fn copy_if(list: &mut Vec<Tiling>, tiling: &Tiling, marked: bool) -> Result<(), Refusal>
    ensures ok { OnOk result (list.new.items ≡ list.old.items ++ cond marked (tiling.now ∷ []) []) }
    ensures why { IfErr result (λ e. e ≡ Refusal.Memory) }
{
    if !marked {
        return Ok(());
    }
    list.push(tiling.copy()?)?;
    Ok(())
}
