//! Views: a design as its placement numbers show it.
ghost use Rattle.std.specs.Prelude.{IfSome, true, length, map, nat_le, ◌&&◌, not, slice_get, ℕ, ◌∷◌, ◌≡◌, ◌≤◌, Some};
ghost use Rattle.std.specs.List.{list_all, list_any};
ghost use Rattle.std.specs.Option.{is_some};
ghost use Rattle.poly_tiling.specs.Lists.{mem};
ghost use Rattle.poly_tiling.specs.Puzzle.{bound_in, conflicts, count, found_or, has_item, is_piece, is_tiling, items, items_of, least, most, same_item};
ghost use Rattle.poly_tiling.specs.Names.{WellNamed, items_ascend};
ghost use Rattle.poly_tiling.specs.declared.item.Item.TheVariants.{Cell as CellItem, Piece as PieceItem};

use crate::bound::Bound;
use crate::conflicts::meets;
use crate::item::Item;
use crate::live_numbers::LiveNumbers;
use crate::numbers::{ascends, has_all};
use crate::placement_list::PlacementList;
use poly_design::{Name, Placement};
use poly_grid::Cell;
use std::marker::Model;

/// An immutable snapshot of a design: a placement for each number given out, the numbers that are placements of the
/// design now, its items with their bounds, and the pinned numbers.
#[derive(Drop)]
pub struct View {
    /// The placement that each number names, by number. The views of one table share its blocks.
    placements: PlacementList,
    /// The numbers that are placements of the design now, in placement order.
    live: LiveNumbers,
    /// The items with their bounds, in item order.
    bounds: Vec<Bound>,
    /// The pinned numbers, in placement order.
    pins: Vec<u32>,
}

impl Model for View {
    ghost use Rattle.poly_tiling.specs.Puzzle.{View};
    ghost use Rattle.poly_tiling.specs.Names.{WellNamed};

    ghost Value = { View };

    ghost view = { λ v. record { placements = v.placements; live = v.live; bounds = v.bounds.items; pins = v.pins.items } };

    ghost invariant = { λ v. WellNamed (record { placements = v.placements; live = v.live; bounds = v.bounds.items; pins = v.pins.items }) };
}

impl View {
    /// The view of these parts: the placement of each number, the live numbers in placement order, the items with their
    /// bounds in item order, and the pinned numbers in placement order. They must be as `WellNamed` demands.
    pub fn with(
        placements: Vec<Placement>,
        live: Vec<u32>,
        bounds: Vec<Bound>,
        pins: Vec<u32>,
    ) -> View
        requires { WellNamed (record { placements = placements.items; live = live.items; bounds = bounds.items; pins = pins.items }) }
        ensures { result ≡ record { placements = placements.items; live = live.items; bounds = bounds.items; pins = pins.items } }
    {
        View::sharing(
            PlacementList::of(placements),
            LiveNumbers::unmarked(live),
            bounds,
            pins,
        )
    }

    /// Does what `with` does, for a list of placements that may share blocks with the lists of other views, and live numbers
    /// that may have marks.
    pub fn sharing(
        placements: PlacementList,
        live: LiveNumbers,
        bounds: Vec<Bound>,
        pins: Vec<u32>,
    ) -> View
        requires { WellNamed (record { placements = placements; live = live; bounds = bounds.items; pins = pins.items }) }
        ensures { result ≡ record { placements = placements; live = live; bounds = bounds.items; pins = pins.items } }
    {
        View {
            placements,
            live,
            bounds,
            pins,
        }
    }

    /// The numbers that are placements of the design, in placement order.
    pub fn live(&self) -> &[u32]
        ensures value { result.now ≡ self.now.live }
        ensures well { WellNamed self.now }
    {
        self.live.as_slice()
    }

    /// Whether the number is a placement of the design now, if the view has a mark for it. This takes one look-up.
    pub fn live_mark(&self, number: u32) -> Option<bool>
        ensures { IfSome result (λ yes. yes ≡ mem self.now.live number) }
    {
        self.live.mark(number)
    }

    /// The items of the design in item order, each with its least and its most.
    pub fn items(&self) -> &[Bound]
        ensures value { result.now ≡ self.now.bounds }
        ensures well { WellNamed self.now }
    {
        &self.bounds
    }

    /// The pinned numbers, in placement order.
    pub fn pins(&self) -> &[u32]
        ensures value { result.now ≡ self.now.pins }
        ensures well { WellNamed self.now }
    {
        &self.pins
    }

    /// The placement that a number names; none if the number was not given out.
    pub fn placement(&self, number: u32) -> Option<Placement>
        ensures { result ≡ slice_get self.now.placements number }
    {
        self.placements.get(number).copied()
    }

    /// How many numbers were given out. Each number below this count names a placement, and no other number does.
    pub fn number_count(&self) -> usize
        ensures { result ≡ length self.now.placements }
    {
        self.placements.len()
    }

    /// Whether the number's placement has the item.
    pub fn covers(&self, number: u32, item: Item) -> bool
        ensures { result ≡ has_item self.now number item }
    {
        match self.placements.get(number) {
            None => false,
            Some(placement) => has(placement, &item),
        }
    }

    /// Whether the numbers' placements are different and share a cell.
    pub fn conflicts(&self, p: u32, q: u32) -> bool
        ensures { result ≡ conflicts self.now p q }
    {
        if p == q {
            return false;
        }
        match self.placements.get(p) {
            None => false,
            Some(a) => match self.placements.get(q) {
                None => false,
                Some(b) => meets(a, b),
            },
        }
    }

    /// How many of the numbers have the item.
    pub fn count(&self, numbers: &[u32], item: &Item) -> usize
        ensures value { result ≡ count self.now numbers.now item.now }
        ensures most { result ≤ length numbers.now }
    {
        let mut n = 0;
        for p in numbers {
            if self.covers(*p, *item) {
                n += 1;
            }
        }
        n
    }

    /// Whether at least as many of the numbers have the piece of `p` as the piece's most allows.
    pub(crate) fn is_full(&self, p: u32, numbers: &[u32]) -> bool
        ensures { result ≡ list_any (λ i. is_piece i && nat_le (most self.now i) (count self.now numbers.now i)) (items self.now p) }
    {
        match self.placements.get(p) {
            None => false,
            Some(placement) => self.piece_full(placement.name, placement.cells.as_slice(), numbers),
        }
    }

    fn piece_full(&self, name: Name, cells: &[Cell], numbers: &[u32]) -> bool
        ensures { result ≡ list_any (λ i. is_piece i && nat_le (most self.now i) (count self.now numbers.now i)) (PieceItem name ∷ map (λ c. CellItem c) cells.now) }
    {
        let piece = Item::Piece(name);
        self.bounds(piece).1 as usize <= self.count(numbers, &piece)
    }

    /// The least and the most of an item; 0 and 0 if it isn't in the view.
    pub fn bounds(&self, item: Item) -> (u8, u8)
        ensures least { result.0 ≡ least self.now item }
        ensures most { result.1 ≡ most self.now item }
    {
        match find_bound(&self.bounds, &item) {
            Some(b) => (b.least, b.most),
            None => (0, 0),
        }
    }

    /// Whether the numbers ascend without repeats and the placements that they name are a tiling of the design.
    pub fn is_tiling(&self, numbers: &[u32]) -> bool
        ensures { result ≡ is_tiling self.now numbers.now }
    {
        ascends(numbers)
            && has_all(self.live.as_slice(), numbers)
            && self.none_conflict(numbers)
            && self.least_met(numbers)
            && self.most_met(numbers)
            && has_all(numbers, &self.pins)
    }

    fn least_met(&self, numbers: &[u32]) -> bool
        ensures { result ≡ list_all (λ b. nat_le (least self.now b.item) (count self.now numbers.now b.item)) self.now.bounds }
    {
        self.bounds.iter().all(|b| self.bounds(b.item).0 as usize <= self.count(numbers, &b.item))
    }

    fn most_met(&self, numbers: &[u32]) -> bool
        ensures { result ≡ list_all (λ p. list_all (λ i. nat_le (count self.now numbers.now i) (most self.now i)) (items self.now p)) numbers.now }
    {
        numbers.iter().all(|p| self.fits_in(*p, numbers))
    }

    fn fits_in(&self, p: u32, numbers: &[u32]) -> bool
        ensures { result ≡ list_all (λ i. nat_le (count self.now numbers.now i) (most self.now i)) (items self.now p) }
    {
        match self.placements.get(p) {
            None => true,
            Some(placement) => self.all_fit(placement.name, placement.cells.as_slice(), numbers),
        }
    }

    fn all_fit(&self, name: Name, cells: &[Cell], numbers: &[u32]) -> bool
        ensures { result ≡ list_all (λ i. nat_le (count self.now numbers.now i) (most self.now i)) (PieceItem name ∷ map (λ c. CellItem c) cells.now) }
    {
        if !self.item_fits(&Item::Piece(name), numbers) {
            return false;
        }
        self.cells_fit(cells, numbers)
    }

    fn item_fits(&self, item: &Item, numbers: &[u32]) -> bool
        ensures { result ≡ nat_le (count self.now numbers.now item.now) (most self.now item.now) }
    {
        self.count(numbers, item) <= self.bounds(*item).1 as usize
    }

    fn cells_fit(&self, cells: &[Cell], numbers: &[u32]) -> bool
        ensures { result ≡ list_all (λ c. nat_le (count self.now numbers.now (CellItem c)) (most self.now (CellItem c))) cells.now }
    {
        cells
            .iter()
            .all(|c| self.item_fits(&Item::Cell(*c), numbers))
    }

    fn none_conflict(&self, numbers: &[u32]) -> bool
        ensures { result ≡ list_all (λ p. not (list_any (λ q. conflicts self.now p q) numbers.now)) numbers.now }
    {
        numbers.iter().all(|p| !self.any_conflict(*p, numbers))
    }

    /// Whether the placement of `p` is in conflict with the placement of one of the numbers.
    pub fn any_conflict(&self, p: u32, numbers: &[u32]) -> bool
        ensures { result ≡ list_any (λ q. conflicts self.now p q) numbers.now }
    {
        numbers.iter().any(|q| self.conflicts(p, *q))
    }
}

fn has(placement: &Placement, item: &Item) -> bool
    ensures { result ≡ list_any (λ j. same_item j item.now) (items_of (Some placement.now)) }
{
    any_item(
        &Item::Piece(placement.name),
        placement.cells.as_slice(),
        item,
    )
}

fn any_item(piece: &Item, cells: &[Cell], item: &Item) -> bool
    ensures { result ≡ list_any (λ j. same_item j item.now) (piece.now ∷ map (λ c. CellItem c) cells.now) }
{
    if piece.is(item) {
        return true;
    }
    has_cell_item(cells, item)
}

fn has_cell_item(cells: &[Cell], item: &Item) -> bool
    ensures { result ≡ list_any (λ c. same_item (CellItem c) item.now) cells.now }
{
    cells.iter().any(|c| Item::Cell(*c).is(item))
}

/// The item with its least and its most, found by binary search; `None` if the list lacks it. Requires items that ascend.
pub fn find_bound(bounds: &[Bound], item: &Item) -> Option<Bound>
    requires { items_ascend bounds.now ≡ true }
    ensures bounds { (f : Bound → ℕ) → bound_in bounds.now item.now f ≡ found_or f result }
    ensures there { is_some result ≡ list_any (λ b. same_item b.item item.now) bounds.now }
{
    match bounds.binary_search_by_key(item, |b| b.item) {
        Ok(at) => Some(bounds[at]),
        Err(_) => None,
    }
}
