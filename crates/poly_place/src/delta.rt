//! What a change does to numbers, items and pieces.
ghost use Rattle.std.specs.Prelude.{◌≡◌, ◌<◌, ◌&&◌, true, false, not, length, map, filter, nat_lt, replicate, slice_index_or, slice_set, ℕ, IfOk, IfErr};
ghost use Rattle.std.specs.List.{filter_map, list_all, list_any};
ghost use Rattle.poly_tiling.specs.Lists.{mem};
ghost use Rattle.poly_tiling.specs.Names.{items_ascend};
ghost use Rattle.poly_tiling.specs.Puzzle.{bound_in, same_item};
ghost use Rattle.poly_place.specs.Falls.{falls};
ghost use Rattle.poly_place.specs.Differences.{AreDifferences};

use crate::numbered::Numbered;
use poly_design::Name;
use poly_grid::Refusal;
use poly_tiling::{Bound, Item, find_bound};
use std::alloc::{AllocError, Global};

/// What a change does: the differences between the design before and the design after. Numbers are in the order of their
/// placements, items and names in their own order. An item that a design doesn't have counts as having a least of 0.
#[derive(Drop)]
pub struct Delta {
    /// The numbers that are no longer placements.
    pub gone: Vec<u32>,
    /// The numbers that are placements now and weren't before.
    pub fresh: Vec<u32>,
    /// The items whose `least` rose.
    pub needed: Vec<Item>,
    /// The items whose `least` fell.
    pub unneeded: Vec<Item>,
    /// The pieces of both designs whose `most` fell.
    pub narrowed: Vec<Name>,
    /// The pieces of both designs whose `most` rose.
    pub widened: Vec<Name>,
    /// The numbers that are pinned now and weren't before.
    pub pinned: Vec<u32>,
    /// The numbers that were pinned before and aren't now.
    pub unpinned: Vec<u32>,
}

impl Delta {
    /// For each number below the count, whether it is gone. All numbers that are gone must be below the count. Fails only when
    /// out of memory.
    pub fn marks_of_gone(&self, alloc: Global, count: usize) -> Result<Vec<bool>, Refusal>
        requires { list_all (λ n. nat_lt n count) self.now.gone.items ≡ true }
        ensures ok { IfOk result (λ marks. (n : ℕ) → slice_index_or marks.items n false ≡ mem self.now.gone.items n) }
        ensures len { IfOk result (λ marks. length marks.items ≡ count) }
        ensures why { IfErr result (λ e. e ≡ Refusal.Memory) }
    {
        let marks = marks_of(alloc, count, &self.gone)?;
        Ok(marks)
    }
}

// The numbers of the first list that are not in the second. All numbers of the second must be below the count.
fn without(
    alloc: Global,
    count: usize,
    numbers: &[u32],
    others: &[u32],
) -> Result<Vec<u32>, Refusal>
    requires { list_all (λ n. nat_lt n count) others.now ≡ true }
    ensures ok { IfOk result (λ list. list.items ≡ filter (λ n. not (mem others.now n)) numbers.now) }
    ensures why { IfErr result (λ e. e ≡ Refusal.Memory) }
{
    let marks = marks_of(alloc, count, others)?;
    let list = unmarked(alloc, numbers, &marks)?;
    Ok(list)
}

/// The numbers without a mark.
pub(crate) fn unmarked(
    alloc: Global,
    numbers: &[u32],
    marks: &[bool],
) -> Result<Vec<u32>, AllocError>
    ensures { IfOk result (λ list. list.items ≡ filter (λ n. not (slice_index_or marks.now n false)) numbers.now) }
{
    let mut list = Vec::from_slice(alloc, numbers)?;
    keep_unmarked(&mut list, marks);
    Ok(list)
}

fn keep_unmarked(numbers: &mut Vec<u32>, marks: &[bool])
    ensures { numbers.new.items ≡ filter (λ n. not (slice_index_or marks.now n false)) numbers.old.items }
{
    numbers.retain(|n| !is_marked(marks, *n));
}

fn is_marked(marks: &[bool], number: u32) -> bool
    ensures { result ≡ slice_index_or marks.now number false }
{
    match marks.get(number as usize) {
        Some(mark) => *mark,
        None => false,
    }
}

/// For each number below the count, whether the list has it. All numbers of the list must be below the count. The only
/// refusal is `Memory`.
pub(crate) fn marks_of(alloc: Global, count: usize, numbers: &[u32]) -> Result<Vec<bool>, Refusal>
    requires { list_all (λ n. nat_lt n count) numbers.now ≡ true }
    ensures ok { IfOk result (λ marks. (n : ℕ) → slice_index_or marks.items n false ≡ mem numbers.now n) }
    ensures len { IfOk result (λ marks. length marks.items ≡ count) }
    ensures why { IfErr result (λ e. e ≡ Refusal.Memory) }
{
    let mut marks = unset(alloc, count)?;
    for number in numbers {
        mark(&mut marks, *number);
    }
    Ok(marks)
}

fn unset(alloc: Global, count: usize) -> Result<Vec<bool>, Refusal>
    ensures ok { IfOk result (λ marks. marks.items ≡ replicate count false) }
    ensures why { IfErr result (λ e. e ≡ Refusal.Memory) }
{
    Ok(vec![in alloc; false; count]?)
}

fn mark(marks: &mut Vec<bool>, number: u32)
    requires { number < length marks.old.items }
    ensures { marks.new.items ≡ slice_set marks.old.items number true }
{
    marks[number as usize] = true;
}

// The least of an item, 0 if the list doesn't have it.
fn least_in(bounds: &[Bound], item: &Item) -> u8
    requires { items_ascend bounds.now ≡ true }
    ensures { result ≡ bound_in bounds.now item.now (λ b. b.least) }
{
    match find_bound(bounds, item) {
        Some(bound) => bound.least,
        None => 0,
    }
}

// Whether the list has the item with a most below the given one.
fn is_lower(bounds: &[Bound], item: &Item, most: u8) -> bool
    requires { items_ascend bounds.now ≡ true }
    ensures { result ≡ (list_any (λ b. same_item b.item item.now) bounds.now && nat_lt (bound_in bounds.now item.now (λ b. b.most)) most) }
{
    match find_bound(bounds, item) {
        Some(bound) => bound.most < most,
        None => false,
    }
}

// The items whose least is higher in the second list.
fn risen(alloc: Global, from: &[Bound], to: &[Bound]) -> Result<Vec<Item>, AllocError>
    requires { items_ascend from.now ≡ true }
    ensures { IfOk result (λ list. list.items ≡ map (λ b. b.item) (filter (λ b. nat_lt (bound_in from.now b.item (λ c. c.least)) b.least) to.now)) }
{
    let mut list = Vec::new(alloc);
    for bound in to {
        if least_in(from, &bound.item) < bound.least {
            list.push(bound.item)?;
        }
    }
    Ok(list)
}

// The pieces of both lists whose most is lower in the second.
fn fallen(alloc: Global, from: &[Bound], to: &[Bound]) -> Result<Vec<Name>, AllocError>
    requires { items_ascend to.now ≡ true }
    ensures { IfOk result (λ list. list.items ≡ filter_map (falls to.now) from.now) }
{
    let mut list = Vec::new(alloc);
    for bound in from {
        if let Some(name) = falls(to, bound) {
            list.push(name)?;
        }
    }
    Ok(list)
}

// The name of the bound's piece, if the list has the piece with a lower most; none for the bound of a cell.
fn falls(to: &[Bound], bound: &Bound) -> Option<Name>
    requires { items_ascend to.now ≡ true }
    ensures { result ≡ falls to.now bound.now }
{
    match bound.item {
        Item::Cell(_) => None,
        Item::Piece(name) => {
            if is_lower(to, &Item::Piece(name), bound.most) {
                Some(name)
            } else {
                None
            }
        }
    }
}

/// The differences between two designs that are given by numbers. All their numbers must be below the count, and their items
/// must be in item order. The only refusal is `Memory`.
pub(crate) fn differences(
    alloc: Global,
    count: usize,
    old: &Numbered,
    new: &Numbered,
) -> Result<Delta, Refusal>
    requires live_before { list_all (λ n. nat_lt n count) old.now.live.items ≡ true }
    requires live_after { list_all (λ n. nat_lt n count) new.now.live.items ≡ true }
    requires pins_before { list_all (λ n. nat_lt n count) old.now.pins.items ≡ true }
    requires pins_after { list_all (λ n. nat_lt n count) new.now.pins.items ≡ true }
    requires items_before { items_ascend old.now.bounds.items ≡ true }
    requires items_after { items_ascend new.now.bounds.items ≡ true }
    ensures ok { IfOk result (AreDifferences old.now new.now) }
    ensures why { IfErr result (λ e. e ≡ Refusal.Memory) }
{
    let gone = without(alloc, count, &old.live, &new.live)?;
    let fresh = without(alloc, count, &new.live, &old.live)?;
    let needed = risen(alloc, &old.bounds, &new.bounds)?;
    let unneeded = risen(alloc, &new.bounds, &old.bounds)?;
    let narrowed = fallen(alloc, &old.bounds, &new.bounds)?;
    let widened = fallen(alloc, &new.bounds, &old.bounds)?;
    let pinned = without(alloc, count, &new.pins, &old.pins)?;
    let unpinned = without(alloc, count, &old.pins, &new.pins)?;
    Ok(Delta {
        gone,
        fresh,
        needed,
        unneeded,
        narrowed,
        widened,
        pinned,
        unpinned,
    })
}
