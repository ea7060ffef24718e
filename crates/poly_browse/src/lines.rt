//! The words of a query: one for each placement that a tiling must have or lack, and for each item that it must cover. The
//! words are stored by placement numbers.
//!
//! The words are looked up once for a query, so the pass over the tilings looks at numbers, flags and masks, and never at
//! names or cells. The placements that a tiling must have share one list of flags, those that it must lack share another, and
//! up to 64 items that it must cover share one list of masks. So the time for a tiling depends on how many placements it has,
//! and hardly on the number of words, and a long query takes little memory.
ghost use Rattle.std.specs.Prelude.{IfErr, IfNone, IfOk, IfSome, List, OnOk, ℕ, false, length, min, nat_eq, slice_index_or, true, [], ◌^◌, ◌∷◌, ◌<◌, ◌≡◌, ◌≤◌, ◌||◌};
ghost use Rattle.std.specs.List.{list_all, list_any};
ghost use Rattle.poly_tiling.specs.Lists.{distinct, mem, tally};
ghost use Rattle.poly_tiling.specs.Names.{WellNamed};
ghost use Rattle.poly_tiling.specs.Puzzle.{same_item};
ghost use Rattle.poly_tiling.specs.Shows.{names};
ghost use Rattle.poly_browse.specs.Browsing.{is_in, matches};
ghost use Rattle.poly_browse.specs.Gathering.{AreSmall, names_it};
ghost use Rattle.poly_browse.specs.Lines.{AreDifferent, are_met, has_flagged, has_these};

use crate::covers::{Covers, covers_of};
use crate::flags::raise_one;
use crate::query::Query;
use poly_design::Placement;
use poly_grid::Refusal;
use poly_tiling::{Item, View, has_number};
use std::alloc::Global;

/// A set of numbers: a flag for each number, up to the greatest one in the set.
#[derive(Drop)]
pub(crate) struct Line {
    /// The flags by number, raised for the numbers in the set.
    flags: Vec<bool>,
}

impl Line {
    fn is_flagged(&self, number: u32) -> bool
        ensures { result ≡ slice_index_or self.now.flags.items number false }
    {
        self.flags.get(number as usize).copied().unwrap_or(false)
    }

    // Whether the flag of one of the numbers is raised. All of them are looked at: a loop that ends early takes longer, since
    // the processor can't predict its end.
    fn has_one(&self, numbers: &[u32]) -> bool
        ensures { result ≡ has_flagged self.now numbers.now }
    {
        let mut found = false;
        for number in numbers {
            found |= self.is_flagged(*number);
        }
        found
    }

    // How many of the numbers have their flag raised.
    fn count(&self, numbers: &[u32]) -> usize
        ensures value { result ≡ tally (λ n. slice_index_or self.now.flags.items n false) numbers.now }
        ensures most { result ≤ length numbers.now }
    {
        let mut count = 0;
        for number in numbers {
            if self.is_flagged(*number) {
                count += 1;
            }
        }
        count
    }
}

/// The placements that a tiling must have.
#[derive(Drop)]
pub(crate) struct Has {
    /// Whether each of the placements has a number. No tiling has a placement without a number.
    named: bool,
    /// The numbers of the placements; none if `named` is false.
    line: Line,
    /// How many different numbers these are. A tiling has each of its numbers once, so it has all of these if it has this many
    /// of them.
    count: usize,
}

impl Has {
    fn is_met(&self, numbers: &[u32]) -> bool
        ensures { result ≡ has_these self.now numbers.now }
    {
        self.named && self.line.count(numbers) == self.count
    }
}

/// The words of a query.
#[derive(Drop)]
pub(crate) struct Words {
    /// The placements that a tiling must have.
    has: Has,
    /// The numbers of the placements that a tiling must not have.
    lacks: Line,
    /// The items that a tiling must cover.
    covers: Covers,
}

impl Words {
    /// Whether a tiling of these numbers meets all words.
    pub(crate) fn are_met(&self, numbers: &[u32]) -> bool
        ensures value { result ≡ are_met self.now numbers.now }
        ensures small { AreSmall numbers.now }
    {
        self.has.is_met(numbers) && !self.lacks.has_one(numbers) && self.covers.are_met(numbers)
    }
}

/// The words of a query, by the numbers of the view. Fails with `Memory` only.
pub(crate) fn words_of(alloc: Global, view: &View, query: &Query) -> Result<Words, Refusal>
    ensures ok { IfOk result (λ words. (T : List ℕ) → AreSmall T → distinct T ≡ true → are_met words T ≡ matches (record { has = query.now.has.items; lacks = query.now.lacks.items; covers = query.now.covers.items }) (names view.now T)) }
    ensures why { IfErr result (λ e. e ≡ Refusal.Memory) }
{
    let has = has_of(alloc, view, &query.has)?;
    let lacks = line_of(alloc, view, &query.lacks)?;
    let items = different(alloc, &query.covers)?;
    let covers = covers_of(alloc, view, &items)?;
    Ok(Words { has, lacks, covers })
}

fn has_of(alloc: Global, view: &View, placements: &[Placement]) -> Result<Has, Refusal>
    ensures ok { IfOk result (λ has. (T : List ℕ) → AreSmall T → distinct T ≡ true → has_these has T ≡ list_all (λ p. names_it view.now T p) placements.now) }
    ensures why { IfErr result (λ e. e ≡ Refusal.Memory) }
{
    let mut numbers = Vec::new(alloc);
    for placement in placements {
        let Some(number) = number_of(view, placement) else {
            return Ok(Has {
                named: false,
                line: Line {
                    flags: Vec::new(alloc),
                },
                count: 0,
            });
        };
        add_number(&mut numbers, number)?;
    }
    let flags = flags_of(alloc, &numbers)?;
    Ok(Has {
        named: true,
        line: Line { flags },
        count: numbers.len(),
    })
}

// Returns a flag for each number up to the greatest one in the list, raised if the list has the number.
fn flags_of(alloc: Global, numbers: &[u32]) -> Result<Vec<bool>, Refusal>
    ensures ok { IfOk result (λ flags. (k : ℕ) → slice_index_or flags.items k false ≡ mem numbers.now k) }
    ensures why { IfErr result (λ e. e ≡ Refusal.Memory) }
{
    let mut flags = Vec::new(alloc);
    for number in numbers {
        raise_one(&mut flags, *number)?;
    }
    Ok(flags)
}

// Adds the number, unless the list has it already.
fn add_number(numbers: &mut Vec<u32>, number: u32) -> Result<(), Refusal>
    ensures ok { OnOk result ((k : ℕ) → mem numbers.new.items k ≡ (mem numbers.old.items k || nat_eq number k)) }
    ensures once { distinct numbers.old.items ≡ true → distinct numbers.new.items ≡ true }
    ensures why { IfErr result (λ e. e ≡ Refusal.Memory) }
{
    if has_number(numbers, number) {
        return Ok(());
    }
    numbers.push(number)?;
    Ok(())
}

// Returns the numbers of the placements. Skips a placement that has no number.
fn line_of(alloc: Global, view: &View, placements: &[Placement]) -> Result<Line, Refusal>
    ensures ok { IfOk result (λ line. (T : List ℕ) → AreSmall T → has_flagged line T ≡ list_any (λ p. names_it view.now T p) placements.now) }
    ensures why { IfErr result (λ e. e ≡ Refusal.Memory) }
{
    let mut flags = Vec::new(alloc);
    for placement in placements {
        if let Some(number) = number_of(view, placement) {
            raise_one(&mut flags, number)?;
        }
    }
    Ok(Line { flags })
}

// Returns the one number that names the placement, or `None` if none does.
fn number_of(view: &View, placement: &Placement) -> Option<u32>
    ensures some { IfSome result (λ k. (n : ℕ) → is_in (names view.now (n ∷ [])) placement.now ≡ nat_eq n k) }
    ensures none { IfNone result ((n : ℕ) → n < 2 ^ 32 → is_in (names view.now (n ∷ [])) placement.now ≡ false) }
{
    well_named(view);
    for at in 0..known(view) {
        let number = at as u32;
        if is_named(view, number, placement) {
            return Some(number);
        }
    }
    None
}

/// No two numbers of a view name the same placement. The function does nothing: a proof learns that fact from its contract.
pub(crate) fn well_named(view: &View)
    ensures { WellNamed view.now }
{
    let _live = view.live();
}

/// How many numbers there are to look at: all that name a placement and are numbers of 32 bits.
pub(crate) fn known(view: &View) -> usize
    ensures { result ≡ min (length view.now.placements) (2 ^ 32) }
{
    view.number_count().min(1 << 32)
}

fn is_named(view: &View, number: u32, placement: &Placement) -> bool
    ensures { result ≡ is_in (names view.now (number ∷ [])) placement.now }
{
    match view.placement(number) {
        Some(named) => named == *placement,
        None => false,
    }
}

// Returns each of the items once.
fn different(alloc: Global, items: &[Item]) -> Result<Vec<Item>, Refusal>
    ensures ok { IfOk result (λ list. AreDifferent items.now list.items) }
    ensures why { IfErr result (λ e. e ≡ Refusal.Memory) }
{
    let mut list = Vec::new(alloc);
    for item in items {
        if is_among(&list, item) {
            continue;
        }
        list.push(*item)?;
    }
    Ok(list)
}

fn is_among(items: &[Item], item: &Item) -> bool
    ensures { result ≡ list_any (λ i. same_item i item.now) items.now }
{
    items.iter().any(|other| other.is(item))
}
