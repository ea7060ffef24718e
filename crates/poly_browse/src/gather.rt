//! The one pass over a list of tilings, which gathers the numbers of those that meet a query.
ghost use Rattle.std.specs.Prelude.{IfErr, IfOk, OnOk, ℕ, false, length, true, ◌++◌, ◌&&◌, ◌≡◌};
ghost use Rattle.std.specs.List.{filter};
ghost use Rattle.poly_tiling.specs.Lists.{mem};
ghost use Rattle.poly_tiling.specs.Names.{WellNamed};
ghost use Rattle.poly_browse.specs.Gathering.{IsGathered, chosen};

use crate::flags::{none_raised, raise, raised};
use crate::lines::{known, well_named, words_of};
use crate::query::Query;
use poly_grid::Refusal;
use poly_tiling::{Tiling, View, has_number};
use std::alloc::Global;

/// What is gathered from the tilings that meet a query, by the numbers of the view.
#[derive(Drop)]
pub(crate) struct Gathered {
    /// How many tilings meet the query.
    pub(crate) count: u64,
    /// The numbers that all of them have; none if no tiling meets the query.
    pub(crate) common: Vec<u32>,
    /// The numbers of the view's placements that at least one of these tilings has, each once.
    pub(crate) used: Vec<u32>,
}

/// Goes over the tilings, and gathers from those that meet the query. Fails only with `Memory`.
pub(crate) fn gather(
    alloc: Global,
    tilings: &[Tiling],
    view: &View,
    query: &Query,
) -> Result<Gathered, Refusal>
    ensures ok { IfOk result (λ g. IsGathered (length view.now.placements) (chosen view.now (record { has = query.now.has.items; lacks = query.now.lacks.items; covers = query.now.covers.items }) tilings.now) g.count g.common.items g.used.items) }
    ensures well { OnOk result (WellNamed view.now) }
    ensures why { IfErr result (λ e. e ≡ Refusal.Memory) }
{
    well_named(view);
    let words = words_of(alloc, view, query)?;
    let mut count = 0;
    let mut common = Vec::new(alloc);
    // A number without a flag names no placement.
    let mut flags = none_raised(alloc, known(view))?;
    for tiling in tilings {
        let numbers = tiling.numbers();
        if words.are_met(numbers) {
            share(&mut common, count == 0, numbers)?;
            raise(&mut flags, numbers);
            count += 1;
        }
    }
    let used = raised(alloc, &flags)?;
    Ok(Gathered {
        count,
        common,
        used,
    })
}

// Keeps only the common numbers that the tiling has too. For the first tiling, takes all of the tiling's numbers.
fn share(common: &mut Vec<u32>, first: bool, numbers: &[u32]) -> Result<(), Refusal>
    ensures first { OnOk result (first ≡ true → common.new.items ≡ common.old.items ++ numbers.now) }
    ensures later { OnOk result (first ≡ false → (n : ℕ) → mem common.new.items n ≡ (mem common.old.items n && mem numbers.now n)) }
    ensures why { IfErr result (λ e. e ≡ Refusal.Memory) }
{
    if first {
        common.extend_from_slice(numbers)?;
        return Ok(());
    }
    narrow(common, numbers);
    Ok(())
}

fn narrow(common: &mut Vec<u32>, numbers: &[u32])
    ensures { common.new.items ≡ filter (λ n. mem numbers.now n) common.old.items }
{
    common.retain(|n| has_number(numbers, *n));
}
