//! Compares numbers by their placements, compares items, and looks for a number or an item in a list.
ghost use Rattle.std.specs.Prelude.{drop, is_some, length, true, ℕ, ◌==◌, ◌≡◌, ◌≤◌};
ghost use Rattle.std.specs.List.{list_any};
ghost use Rattle.std.specs.Ordering.{is_lt};
ghost use Rattle.poly_atom.specs.Merge.{behind, front, past};
ghost use Rattle.poly_tiling.specs.Lists.{mem};
ghost use Rattle.poly_tiling.specs.Names.{below, in_order, item_cmp, items_ascend, placement_cmp};
ghost use Rattle.poly_tiling.specs.Puzzle.{bound_in, found_or, same_item};

use poly_design::Placement;
use poly_tiling::{Bound, Item, View};

/// Whether the placement of the first number comes before that of the second; false if one of them names no placement.
pub fn is_below(view: &View, first: u32, second: u32) -> bool
    ensures { result ≡ below view.now first second }
{
    if first == second {
        return false;
    }
    are_in_order(view, first, second)
}

fn are_in_order(view: &View, first: u32, second: u32) -> bool
    ensures { result ≡ below view.now first second }
{
    match view.placement(first) {
        None => false,
        Some(a) => match view.placement(second) {
            None => false,
            Some(b) => comes_before(&a, &b),
        },
    }
}

fn comes_before(a: &Placement, b: &Placement) -> bool
    ensures { result ≡ is_lt (placement_cmp a.now b.now) }
{
    a < b
}

/// Whether the first item comes before the second.
pub fn is_item_below(first: &Item, second: &Item) -> bool
    ensures { result ≡ is_lt (item_cmp first.now second.now) }
{
    first < second
}

/// The first index from `from` on with a number that isn't below `number`; the length of the list if there is none.
pub fn skip_numbers(view: &View, numbers: &[u32], from: usize, number: u32) -> usize
    requires { from ≤ length numbers.now }
    ensures rest { drop result numbers.now ≡ behind (λ p. below view.now p number) (drop from numbers.now) }
    ensures inside { result ≤ length numbers.now }
{
    for at in from..numbers.len() {
        if !is_below(view, numbers[at], number) {
            return at;
        }
    }
    numbers.len()
}

/// `at + 1` if the list has the number at index `at`; `at` otherwise.
pub fn past(numbers: &[u32], at: usize, number: u32) -> usize
    requires { at ≤ length numbers.now }
    ensures rest { drop result numbers.now ≡ past (λ p. p == number) (drop at numbers.now) }
    ensures inside { result ≤ length numbers.now }
{
    if at < numbers.len() && numbers[at] == number {
        return at + 1;
    }
    at
}

/// Whether the list has the number at the index.
pub fn stands_at(numbers: &[u32], at: usize, number: u32) -> bool
    ensures { result ≡ is_some (front (λ p. p == number) (drop at numbers.now)) }
{
    at < numbers.len() && numbers[at] == number
}

/// The first index from `from` on with an item that isn't below `item`; the length of the list if there is none.
pub fn skip_items(bounds: &[Bound], from: usize, item: &Item) -> usize
    requires { from ≤ length bounds.now }
    ensures rest { drop result bounds.now ≡ behind (λ b. is_lt (item_cmp b.item item.now)) (drop from bounds.now) }
    ensures inside { result ≤ length bounds.now }
{
    for at in from..bounds.len() {
        if !is_item_below(&bounds[at].item, item) {
            return at;
        }
    }
    bounds.len()
}

/// The least and the most of the item if it is at the index; 0 and 0 otherwise.
pub fn bounds_at(bounds: &[Bound], at: usize, item: &Item) -> (u8, u8)
    ensures least { result.0 ≡ found_or (λ b. b.least) (front (λ b. same_item b.item item.now) (drop at bounds.now)) }
    ensures most { result.1 ≡ found_or (λ b. b.most) (front (λ b. same_item b.item item.now) (drop at bounds.now)) }
{
    if at >= bounds.len() {
        return (0, 0);
    }
    let bound = bounds[at];
    if bound.item.is(item) {
        return (bound.least, bound.most);
    }
    (0, 0)
}

/// Whether the list has the number. Requires that the list is in placement order.
pub fn stands_in(view: &View, numbers: &[u32], number: u32) -> bool
    requires { in_order view.now numbers.now ≡ true }
    ensures { result ≡ mem numbers.now number }
{
    let mut low = 0;
    let mut high = numbers.len();
    while low < high {
        let middle = low + (high - low) / 2;
        let here = numbers[middle];
        if here == number {
            return true;
        }
        if is_below(view, here, number) {
            low = middle + 1;
        } else {
            high = middle;
        }
    }
    false
}
