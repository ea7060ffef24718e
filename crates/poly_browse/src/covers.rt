//! The items that a tiling must cover, by numbers.
//!
//! Each item has a bit, and each number a mask of the items that its placement has. So for up to 64 items a tiling is judged
//! by one look at each of its numbers. A design has at most 320 items: 256 cells and 64 pieces.
ghost use Rattle.std.specs.Prelude.{IfErr, IfOk, List, OnOk, ℕ, false, length, nat_eq, slice_index_or, true, ◌^◌, ◌<◌, ◌≡◌, ◌≤◌, ◌&&◌, ◌||◌};
ghost use Rattle.std.specs.List.{list_all};
ghost use Rattle.poly_tiling.specs.Puzzle.{has_item};
ghost use Rattle.poly_browse.specs.Gathering.{AreSmall, has_it};
ghost use Rattle.poly_browse.specs.Lines.{are_covered, have_all, in_mask};

use crate::flags::raise_one;
use crate::lines::known;
use poly_grid::Refusal;
use poly_tiling::{Item, View};
use std::alloc::Global;

// The most items that share a list of masks: a mask has a bit for each.
const MOST_BITS: usize = 64;

/// Which of at most 64 items the placement of each number has.
#[derive(Drop)]
pub(crate) struct Masks {
    /// For each number, up to the last one that has one of the items, a bit for each of the items that its placement has.
    masks: Vec<u64>,
    /// A bit for each of the items.
    wanted: u64,
}

impl Masks {
    fn mask(&self, number: u32) -> u64
        ensures { result ≡ slice_index_or self.now.masks.items number 0 }
    {
        self.masks.get(number as usize).copied().unwrap_or(0)
    }

    // Whether the numbers together have all the items.
    fn are_covered(&self, numbers: &[u32]) -> bool
        ensures { result ≡ have_all self.now numbers.now }
    {
        let mut covered = 0;
        for number in numbers {
            covered |= self.mask(*number);
        }
        covered == self.wanted
    }
}

/// The items that a tiling must cover.
#[derive(Drop)]
pub(crate) struct Covers {
    /// Whether each of the items is in some placement. No tiling covers an item that is in none.
    there: bool,
    /// The items in groups of up to 64, in their order: one `Masks` for each group. Empty if `there` is false.
    masks: Vec<Masks>,
}

impl Covers {
    /// Whether a tiling of these numbers covers all the items.
    pub(crate) fn are_met(&self, numbers: &[u32]) -> bool
        ensures { result ≡ are_covered self.now numbers.now }
    {
        self.there && all_covered(&self.masks, numbers)
    }
}

fn all_covered(list: &[Masks], numbers: &[u32]) -> bool
    ensures { result ≡ list_all (λ m. have_all m numbers.now) list.now }
{
    list.iter().all(|masks| masks.are_covered(numbers))
}

/// Looks the items up in the view, so that `are_met` can tell from a tiling's numbers whether the tiling covers all of them.
/// Fails only with `Memory`.
pub(crate) fn covers_of(alloc: Global, view: &View, items: &[Item]) -> Result<Covers, Refusal>
    ensures ok { IfOk result (λ covers. (T : List ℕ) → AreSmall T → are_covered covers T ≡ list_all (λ i. has_it view.now T i) items.now) }
    ensures why { IfErr result (λ e. e ≡ Refusal.Memory) }
{
    let mut masks = Vec::new(alloc);
    if !are_there(view, items) {
        return Ok(Covers {
            there: false,
            masks,
        });
    }
    for some in items.chunks(MOST_BITS) {
        masks.push(masks_of(alloc, view, some)?)?;
    }
    Ok(Covers { there: true, masks })
}

// Whether each of the items is in some placement. This keeps the masks few: a query may ask for thousands of items that no
// placement has.
fn are_there(view: &View, items: &[Item]) -> bool
    ensures { result ≡ false → (T : List ℕ) → AreSmall T → list_all (λ i. has_it view.now T i) items.now ≡ false }
{
    for item in items {
        if !is_there(view, item) {
            return false;
        }
    }
    true
}

fn is_there(view: &View, item: &Item) -> bool
    ensures { result ≡ false → (n : ℕ) → n < 2 ^ 32 → has_item view.now n item.now ≡ false }
{
    for at in 0..known(view) {
        if view.covers(at as u32, *item) {
            return true;
        }
    }
    false
}

// Returns the masks of the items; the first item has the lowest bit.
fn masks_of(alloc: Global, view: &View, items: &[Item]) -> Result<Masks, Refusal>
    requires few { length items.now ≤ MOST_BITS }
    ensures ok { IfOk result (λ masks. (T : List ℕ) → AreSmall T → have_all masks T ≡ list_all (λ i. has_it view.now T i) items.now) }
    ensures why { IfErr result (λ e. e ≡ Refusal.Memory) }
{
    let mut masks = Vec::new(alloc);
    let mut wanted = 0;
    for at in 0..items.len() {
        let flags = item_flags(alloc, view, &items[at])?;
        mark(&mut masks, &flags, at)?;
        wanted |= 1 << at;
    }
    Ok(Masks { masks, wanted })
}

// Sets a bit in the mask of each number whose flag is raised.
fn mark(masks: &mut Vec<u64>, flags: &[bool], bit: usize) -> Result<(), Refusal>
    requires { bit < MOST_BITS }
    ensures ok { OnOk result ((n t : ℕ) → in_mask masks.new.items n t ≡ (in_mask masks.old.items n t || (slice_index_or flags.now n false && nat_eq bit t))) }
    ensures why { IfErr result (λ e. e ≡ Refusal.Memory) }
{
    if masks.len() < flags.len() {
        masks.resize(flags.len(), 0)?;
    }
    mark_all(masks, flags, bit);
    Ok(())
}

fn mark_all(masks: &mut Vec<u64>, flags: &[bool], bit: usize)
    requires bit { bit < MOST_BITS }
    requires long { length flags.now ≤ length masks.old.items }
    ensures { (n t : ℕ) → in_mask masks.new.items n t ≡ (in_mask masks.old.items n t || (slice_index_or flags.now n false && nat_eq bit t)) }
{
    for at in 0..flags.len() {
        if flags[at] {
            masks[at] |= 1 << bit;
        }
    }
}

// Returns a flag for each number up to the last one that has the item, raised if the number has it.
fn item_flags(alloc: Global, view: &View, item: &Item) -> Result<Vec<bool>, Refusal>
    ensures ok { IfOk result (λ flags. (n : ℕ) → n < 2 ^ 32 → slice_index_or flags.items n false ≡ has_item view.now n item.now) }
    ensures why { IfErr result (λ e. e ≡ Refusal.Memory) }
{
    let mut flags = Vec::new(alloc);
    for at in 0..known(view) {
        let number = at as u32;
        if view.covers(number, *item) {
            raise_one(&mut flags, number)?;
        }
    }
    Ok(flags)
}
