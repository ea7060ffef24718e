//! Tilings added to the list, all or none.
ghost use Rattle.std.specs.Prelude.{◌≡◌, ◌+◌, ◌++◌, ◌^◌, ◌<◌, ◌≤◌, IfErr, OnErr, OnOk, length, take, true};
ghost use Rattle.std.specs.List.{list_all};
ghost use Rattle.poly_tiling.specs.Puzzle.{is_tiling};
ghost use Rattle.poly_catalogue.specs.Catalogued.{HasFlags};

use crate::counts::reach_counts;
use crate::flags::reach_all;
use crate::listing::Listing;
use poly_grid::Refusal;
use poly_tiling::{Tiling, View};

/// Adds these tilings of the view at the end, and makes the flags and counts that they need. Fails only with `Memory`, and
/// then the list stays as it was.
pub(crate) fn add(
    listing: &mut Listing,
    flags: &mut Vec<bool>,
    counts: &mut Vec<u8>,
    view: &View,
    tilings: Vec<Tiling>,
) -> Result<(), Refusal>
    requires few { length listing.old + length tilings.items + 1 < 2 ^ 32 }
    requires flags { HasFlags listing.old (length flags.old.items) }
    requires room { length listing.old ≤ length counts.old.items }
    requires tilings { list_all (is_tiling view.now) tilings.items ≡ true }
    ensures ok { OnOk result (listing.new ≡ listing.old ++ tilings.items) }
    ensures err { OnErr result (listing.new ≡ listing.old) }
    ensures flags { HasFlags listing.new (length flags.new.items) }
    ensures room { length listing.new ≤ length counts.new.items }
    ensures why { IfErr result (λ e. e ≡ Refusal.Memory) }
{
    if tilings.is_empty() {
        return Ok(());
    }
    reach_all(flags, view.live())?;
    reach_counts(counts, listing.len() + tilings.len())?;
    push_all(listing, tilings)?;
    Ok(())
}

// Adds the tilings at the end. Fails only with `Memory`, and then the list stays as it was.
fn push_all(listing: &mut Listing, tilings: Vec<Tiling>) -> Result<(), Refusal>
    requires { length listing.old + length tilings.items + 1 < 2 ^ 32 }
    ensures ok { OnOk result (listing.new ≡ listing.old ++ tilings.items) }
    ensures err { OnErr result (listing.new ≡ listing.old) }
    ensures why { IfErr result (λ e. e ≡ Refusal.Memory) }
{
    let before = listing.len();
    for tiling in tilings {
        if let Err(refusal) = listing.push(tiling) {
            take_back(listing, before);
            return Err(refusal);
        }
    }
    Ok(())
}

// Removes all but the first `count` tilings.
fn take_back(listing: &mut Listing, count: usize)
    requires { count ≤ length listing.old }
    ensures { listing.new ≡ take count listing.old }
{
    while count < listing.len() {
        let last = listing.len() - 1;
        listing.remove(last);
    }
}
