//! Answers a query about a list of tilings.
//!
//! One pass goes over the tilings. Of those that meet the query, it gathers how many there are, which placement numbers all
//! of them have, and which numbers at least one of them has. The answer is made from these numbers, so the tilings are
//! never scanned item by item.
ghost use Rattle.std.specs.Prelude.{IfErr, IfOk, map, ◌≡◌};
ghost use Rattle.std.specs.List.{All, Contains};
ghost use Rattle.poly_design.specs.Listed.{IsListOf};
ghost use Rattle.poly_design.specs.PlacementOrder.{placement_cmp};
ghost use Rattle.poly_tiling.specs.Puzzle.{count};
ghost use Rattle.poly_tiling.specs.Shows.{item_bounds, names};
ghost use Rattle.poly_browse.specs.Browsing.{IsAnswer};

use crate::board::named;
use crate::gather::{Gathered, gather};
use crate::query::{Answer, Query};
use poly_design::{Design, Placement};
use poly_grid::Refusal;
use poly_tiling::{Item, Tiling, View, item_list};
use std::alloc::Global;

/// Answers the query about these tilings, which are lists of numbers of the view. The answer says how many tilings meet the
/// query, which placements all of those have, and for each item of the design how many different placements cover it in at
/// least one of them.
///
/// The query may name placements and items that the design doesn't have: no tiling of the design has or covers them. Fails
/// only with `Memory`.
pub fn browse(
    alloc: Global,
    design: &Design,
    tilings: &[Tiling],
    view: &View,
    query: &Query,
) -> Result<Answer, Refusal>
    ensures ok { IfOk result (λ a. IsAnswer design.now (map (names view.now) tilings.now) (record { has = query.now.has.items; lacks = query.now.lacks.items; covers = query.now.covers.items }) a.count a.forced.items a.options.items) }
    ensures why { IfErr result (λ e. e ≡ Refusal.Memory) }
{
    let Gathered {
        count,
        common,
        used,
    } = gather(alloc, tilings, view, query)?;
    let forced = placements_of(alloc, view, &common)?;
    let options = options(alloc, design, view, &used)?;
    Ok(Answer {
        count,
        forced,
        options,
    })
}

// Returns the placements that the numbers name, each once, in placement order.
fn placements_of(alloc: Global, view: &View, numbers: &[u32]) -> Result<Vec<Placement>, Refusal>
    ensures ok { IfOk result (λ list. IsListOf placement_cmp (Contains (names view.now numbers.now)) list.items) }
    ensures why { IfErr result (λ e. e ≡ Refusal.Memory) }
{
    let mut list = named(alloc, view, numbers)?;
    list.sort_unstable();
    list.dedup();
    Ok(list)
}

// Returns each item of the design with how many of the numbers have it.
fn options(
    alloc: Global,
    design: &Design,
    view: &View,
    used: &[u32],
) -> Result<Vec<(Item, u64)>, Refusal>
    ensures items { IfOk result (λ list. map (λ o. o.0) list.items ≡ map (λ b. b.item) (item_bounds design.now)) }
    ensures counts { IfOk result (λ list. All (λ o. o.1 ≡ count view.now used.now o.0) list.items) }
    ensures why { IfErr result (λ e. e ≡ Refusal.Memory) }
{
    let items = item_list(alloc, design)?;
    let mut options = Vec::with_capacity(alloc, items.len())?;
    for bound in &items {
        let item = bound.item;
        options.push((item, view.count(used, &item) as u64))?;
    }
    Ok(options)
}
