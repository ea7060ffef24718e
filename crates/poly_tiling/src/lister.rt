//! The plain lister: all tilings of a view, by the plainest search.
//!
//! An option of an item is a placement that has the item. A placement is free if it may still be chosen. At each step, the
//! lister picks an item with the fewest free options among the items that still need an option, and tries this item's free
//! options one after another. If no item needs an option, the lister tries each free placement. A placement that was tried is
//! left out of the rest of the same step and of the steps below it, so no tiling is found twice (Knuth, The Art of Computer
//! Programming, volume 4B, section 7.2.2.1, without the dancing links). Faster searches are compared with the plain lister.
ghost use Rattle.std.specs.Prelude.{[], Err, IfErr, IfNone, IfOk, IfSome, List, OnOk, Option, length, min, true, false, ◌++◌, ◌<◌, ◌∷◌, ◌≡◌, ◌≤◌, ◌⊎◌, ℕ, ◌==◌, not, nat_le, ◌&&◌};
ghost use Rattle.std.specs.List.{filter, find};
ghost use Rattle.poly_tiling.specs.Lists.{ascending, distinct, mem};
ghost use Rattle.poly_tiling.specs.Puzzle.{count, least};
ghost use Rattle.poly_tiling.specs.Lister.{AddsAtMost, AddsLeft, AreApart, HasEachOnce, HasOver, fits_beside, is_option};

use crate::item::Item;
use crate::numbers::has_number;
use crate::tiling::Tiling;
use crate::view::View;
use poly_grid::Refusal;
use std::alloc::Global;

/// At most so many tilings are listed.
pub const MAX_TILINGS: usize = 1_000_000;

/// All tilings of the view, each once, in no promised order.
///
/// If there are over 1,000,000, fails with `CatalogueFull` or `Memory`; otherwise fails only with `Memory`.
pub fn list_tilings(alloc: Global, view: &View) -> Result<Vec<Tiling>, Refusal>
    ensures ok { IfOk result (λ found. HasEachOnce view.now found.items) }
    ensures few { IfOk result (λ found. length found.items ≤ MAX_TILINGS) }
    ensures full { result ≡ Err Refusal.CatalogueFull → HasOver MAX_TILINGS view.now }
    ensures why { IfErr result (λ e. (e ≡ Refusal.CatalogueFull) ⊎ (e ≡ Refusal.Memory)) }
{
    let mut found = Vec::new(alloc);
    let mut chosen = Vec::from_slice(alloc, view.pins())?;
    let free = narrowed(alloc, view, &chosen, view.live())?;
    extend(alloc, view, &mut chosen, free, &mut found)?;
    Ok(found)
}

// Adds the tilings that have all chosen numbers, and apart from them only free ones.
#[cycle(extend)]
fn extend(
    alloc: Global,
    view: &View,
    chosen: &mut Vec<u32>,
    mut free: Vec<u32>,
    found: &mut Vec<Tiling>,
) -> Result<(), Refusal>
    requires apart { AreApart chosen.old.items free.items }
    requires few { length found.old.items ≤ MAX_TILINGS }
    ensures adds { OnOk result (AddsLeft view.now chosen.old.items free.items found.old.items found.new.items) }
    ensures at_most { AddsAtMost view.now chosen.old.items free.items found.old.items found.new.items }
    ensures same { OnOk result (chosen.new.items ≡ chosen.old.items) }
    ensures few { OnOk result (length found.new.items ≤ MAX_TILINGS) }
    ensures full { result ≡ Err Refusal.CatalogueFull → MAX_TILINGS < length found.new.items }
    ensures why { IfErr result (λ e. (e ≡ Refusal.CatalogueFull) ⊎ (e ≡ Refusal.Memory)) }
{
    let item = unmet_item(view, chosen, &free);
    while let Some(p) = next_option(view, &free, &item) {
        take_out(&mut free, p);
        take(alloc, view, chosen, p, &free, found)?;
    }
    finish(alloc, view, chosen, &item, found)
}

// Adds the tilings that have all chosen numbers and p, and apart from them only free ones.
#[cycle(extend)]
fn take(
    alloc: Global,
    view: &View,
    chosen: &mut Vec<u32>,
    p: u32,
    free: &[u32],
    found: &mut Vec<Tiling>,
) -> Result<(), Refusal>
    requires once { distinct (chosen.old.items ++ p ∷ []) ≡ true }
    requires few { length found.old.items ≤ MAX_TILINGS }
    ensures adds { OnOk result (AddsLeft view.now (chosen.old.items ++ p ∷ []) free.now found.old.items found.new.items) }
    ensures at_most { AddsAtMost view.now (chosen.old.items ++ p ∷ []) free.now found.old.items found.new.items }
    ensures same { OnOk result (chosen.new.items ≡ chosen.old.items) }
    ensures few { OnOk result (length found.new.items ≤ MAX_TILINGS) }
    ensures full { result ≡ Err Refusal.CatalogueFull → MAX_TILINGS < length found.new.items }
    ensures why { IfErr result (λ e. (e ≡ Refusal.CatalogueFull) ⊎ (e ≡ Refusal.Memory)) }
{
    chosen.push(p)?;
    let narrowed = narrowed(alloc, view, chosen, free)?;
    extend(alloc, view, chosen, narrowed, found)?;
    let _ = chosen.pop();
    Ok(())
}

// Adds the chosen numbers themselves, if no item needs an option and they are a tiling.
fn finish(
    alloc: Global,
    view: &View,
    chosen: &[u32],
    item: &Option<Item>,
    found: &mut Vec<Tiling>,
) -> Result<(), Refusal>
    requires few { length found.old.items ≤ MAX_TILINGS }
    ensures some { IfSome item.now (λ _. found.new.items ≡ found.old.items) }
    ensures adds { IfNone item.now (OnOk result (AddsLeft view.now chosen.now [] found.old.items found.new.items)) }
    ensures at_most { IfNone item.now (AddsAtMost view.now chosen.now [] found.old.items found.new.items) }
    ensures few { OnOk result (length found.new.items ≤ MAX_TILINGS) }
    ensures full { result ≡ Err Refusal.CatalogueFull → MAX_TILINGS < length found.new.items }
    ensures why { IfErr result (λ e. (e ≡ Refusal.CatalogueFull) ⊎ (e ≡ Refusal.Memory)) }
{
    match item {
        Some(_) => Ok(()),
        None => add(alloc, view, chosen, found),
    }
}

// Adds the chosen numbers, if they are a tiling.
fn add(alloc: Global, view: &View, chosen: &[u32], found: &mut Vec<Tiling>) -> Result<(), Refusal>
    requires few { length found.old.items ≤ MAX_TILINGS }
    ensures adds { OnOk result (AddsLeft view.now chosen.now [] found.old.items found.new.items) }
    ensures at_most { AddsAtMost view.now chosen.now [] found.old.items found.new.items }
    ensures few { OnOk result (length found.new.items ≤ MAX_TILINGS) }
    ensures full { result ≡ Err Refusal.CatalogueFull → MAX_TILINGS < length found.new.items }
    ensures why { IfErr result (λ e. (e ≡ Refusal.CatalogueFull) ⊎ (e ≡ Refusal.Memory)) }
{
    let numbers = in_order(alloc, chosen)?;
    if !view.is_tiling(&numbers) {
        return Ok(());
    }
    found.push(Tiling::new(numbers))?;
    if found.len() > MAX_TILINGS {
        return Err(Refusal::CatalogueFull);
    }
    Ok(())
}

// The numbers in ascending order, each once.
fn in_order(alloc: Global, numbers: &[u32]) -> Result<Vec<u32>, Refusal>
    ensures ascends { IfOk result (λ list. ascending list.items ≡ true) }
    ensures same { IfOk result (λ list. (n : ℕ) → mem list.items n ≡ mem numbers.now n) }
    ensures why { IfErr result (λ e. e ≡ Refusal.Memory) }
{
    let mut list = Vec::from_slice(alloc, numbers)?;
    list.sort_unstable();
    list.dedup();
    Ok(list)
}

// The free numbers that fit with the chosen ones.
fn narrowed(alloc: Global, view: &View, chosen: &[u32], free: &[u32]) -> Result<Vec<u32>, Refusal>
    ensures ok { IfOk result (λ list. list.items ≡ filter (λ q. fits_beside view.now chosen.now q) free.now) }
    ensures why { IfErr result (λ e. e ≡ Refusal.Memory) }
{
    let mut list = Vec::new(alloc);
    for q in free {
        if fits_beside(view, chosen, *q) {
            list.push(*q)?;
        }
    }
    Ok(list)
}

fn fits_beside(view: &View, chosen: &[u32], q: u32) -> bool
    ensures { result ≡ fits_beside view.now chosen.now q }
{
    if has_number(chosen, q) {
        return false;
    }
    if view.any_conflict(q, chosen) {
        return false;
    }
    !view.is_full(q, chosen)
}

fn take_out(free: &mut Vec<u32>, p: u32)
    ensures { free.new.items ≡ filter (λ q. not (q == p)) free.old.items }
{
    free.retain(|q| *q != p);
}

// The first free number that has the item; the first free number if no item is given.
fn next_option(view: &View, free: &[u32], item: &Option<Item>) -> Option<u32>
    ensures { result ≡ find (λ p. is_option view.now item.now p) free.now }
{
    free.iter().copied().find(|p| is_option(view, *p, item))
}

fn is_option(view: &View, p: u32, item: &Option<Item>) -> bool
    ensures { result ≡ is_option view.now item.now p }
{
    match item {
        None => true,
        Some(item) => view.covers(p, *item),
    }
}

// Of the items that still need an option, the first with the fewest free options; none if no item needs one. An item needs an
// option while fewer chosen numbers have the item than its least asks.
fn unmet_item(view: &View, chosen: &[u32], free: &[u32]) -> Option<Item>
    ensures { IfSome result (λ i. count view.now chosen.now i < least view.now i) }
{
    let mut best = None;
    let mut fewest = free.len() + 1;
    for b in view.items() {
        let item = b.item;
        if view.count(chosen, &item) < view.bounds(item).0 as usize {
            let options = count_to(view, free, &item, fewest);
            if options < fewest {
                best = Some(item);
                fewest = options;
            }
        }
    }
    best
}

// How many of the numbers have the item, counted no further than the limit.
fn count_to(view: &View, numbers: &[u32], item: &Item, limit: usize) -> usize
    ensures { result ≡ min (count view.now numbers.now item.now) limit }
{
    let mut n = 0;
    for p in numbers {
        if n == limit {
            return n;
        }
        if view.covers(*p, *item) {
            n += 1;
        }
    }
    n
}
