//! Which atoms a change touches.
ghost use Rattle.std.specs.Prelude.{◌≡◌, Some, false, slice_index_or};
ghost use Rattle.std.specs.List.{list_any};
ghost use Rattle.poly_tiling.specs.Lists.{mem};
ghost use Rattle.poly_tiling.specs.Puzzle.{has_item, items, items_of, same_item};
ghost use Rattle.poly_tiling.specs.declared.item.Item.TheVariants.{Cell as CellItem, Piece as PieceItem};
ghost use Rattle.poly_tasks.specs.Touching.{matters, touches};
ghost use Rattle.poly_atom.specs.declared.atom.Atom.TheVariants.{Has};

use crate::touch::Touch;
use poly_atom::Atom;
use poly_design::Placement;
use poly_grid::Cell;
use poly_tiling::{Item, View, has_number};

impl<'a> Touch<'a> {
    /// Whether the atom has to be judged after the change, if its list wasn't hopeless before: it is a `Has`, or is touched.
    pub(crate) fn matters(&self, atom: &Atom) -> bool
        ensures { result ≡ matters self.now atom.now }
    {
        match atom {
            Atom::Has(_) => true,
            Atom::Lacks(_) => self.touches(atom),
            Atom::AtLeast(_, _) => self.touches(atom),
            Atom::AtMost(_, _) => self.touches(atom),
        }
    }

    /// Whether the change touches the atom.
    pub(crate) fn touches(&self, atom: &Atom) -> bool
        ensures { result ≡ touches self.now atom.now }
    {
        match atom {
            Atom::Has(p) => self.has_placement(*p),
            Atom::Lacks(p) => has_number(&self.delta.pinned, *p),
            Atom::AtLeast(item, _) => self.is_narrowed(item) || self.item.is(item),
            Atom::AtMost(item, _) => self.is_needed(item),
        }
    }

    fn is_narrowed(&self, item: &Item) -> bool
        ensures { result ≡ list_any (λ n. same_item (PieceItem n) item.now) self.now.delta.now.narrowed.items }
    {
        let names = &self.delta.narrowed;
        names.iter().any(|n| Item::Piece(*n).is(item))
    }

    fn is_needed(&self, item: &Item) -> bool
        ensures { result ≡ list_any (λ j. same_item j item.now) self.now.delta.now.needed.items }
    {
        let items = &self.delta.needed;
        items.iter().any(|j| j.is(item))
    }

    /// Whether the change touches the `Has` atom of the placement.
    pub(crate) fn has_placement(&self, p: u32) -> bool
        ensures { result ≡ touches self.now (Has p) }
    {
        self.is_gone(p) || self.is_of_narrowed(p) || self.meets_pinned(p)
    }

    fn is_gone(&self, p: u32) -> bool
        ensures { result ≡ mem self.now.delta.now.gone.items p }
    {
        is_marked(&self.gone, p)
    }

    fn is_of_narrowed(&self, p: u32) -> bool
        ensures { result ≡ list_any (λ n. has_item self.now.view.now p (PieceItem n)) self.now.delta.now.narrowed.items }
    {
        let names = &self.delta.narrowed;
        names.iter().any(|n| self.view.covers(p, Item::Piece(*n)))
    }

    fn meets_pinned(&self, p: u32) -> bool
        ensures { result ≡ list_any (λ q. list_any (λ i. has_item self.now.view.now p i) (items self.now.view.now q)) self.now.delta.now.pinned.items }
    {
        let pinned = &self.delta.pinned;
        pinned.iter().any(|q| shares_item(self.view, p, *q))
    }
}

// Whether two placements have an item in common.
fn shares_item(view: &View, p: u32, q: u32) -> bool
    ensures { result ≡ list_any (λ i. has_item view.now p i) (items view.now q) }
{
    match view.placement(q) {
        None => false,
        Some(placement) => shares_with(view, p, &placement),
    }
}

fn shares_with(view: &View, p: u32, other: &Placement) -> bool
    ensures { result ≡ list_any (λ i. has_item view.now p i) (items_of (Some other.now)) }
{
    view.covers(p, Item::Piece(other.name)) || shares_cell(view, p, other.cells.as_slice())
}

fn shares_cell(view: &View, p: u32, cells: &[Cell]) -> bool
    ensures { result ≡ list_any (λ c. has_item view.now p (CellItem c)) cells.now }
{
    cells.iter().any(|c| view.covers(p, Item::Cell(*c)))
}

fn is_marked(marks: &[bool], number: u32) -> bool
    ensures { result ≡ slice_index_or marks.now number false }
{
    match marks.get(number as usize) {
        Some(mark) => *mark,
        None => false,
    }
}
