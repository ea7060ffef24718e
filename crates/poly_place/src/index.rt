//! The numbers of the placements that have an item, item by item.
//!
//! Numbers are scattered: each goes to the rows of its placement's piece and cells, which are found by binary search. A
//! change of one cell or one piece takes the numbers of that item out of all rows, and scatters the item's new numbers.
ghost use Rattle.std.specs.Prelude.{◌≡◌, ◌++◌, ◌∷◌, ◌<◌, [], IfOk, IfSome, IfErr, List, OnOk, length, nat_lt, slice_index_or, true, false};
ghost use Rattle.std.specs.List.{list_all, list_any};
ghost use Rattle.poly_shape.specs.Order.{IsAscending, spot_cmp};
ghost use Rattle.poly_design.specs.Changes.{changed};
ghost use Rattle.poly_design.specs.Layout.{Layout};
ghost use Rattle.poly_tiling.specs.Names.{WellNamed, items_ascend};
ghost use Rattle.poly_tiling.specs.Puzzle.{View, items_of, same_item};
ghost use Rattle.poly_tiling.specs.Shows.{Shows};
ghost use Rattle.poly_tiling.specs.declared.item.Item.TheVariants.{Cell as CellItem};
ghost use Rattle.poly_place.specs.Index.{AreNumbersWith, AreRows, IsIndex, has_of, item_of, row_index, row_in, rows_without, with_numbers};
ghost use Rattle.poly_place.specs.Numbered.{numbered_view};
ghost use Rattle.poly_place.specs.Touched.{AreMarked};

use crate::delta::{marks_of, unmarked};
use crate::interner::Interner;
use crate::numbered::Numbered;
use crate::update::Update;
use poly_design::{Change, Placement};
use poly_grid::{Cell, Refusal};
use poly_tiling::{Bound, Item};
use std::alloc::{AllocError, Global};
use std::marker::Model;

/// A row for each item of a design, in item order: the numbers of the design's placements that have the item.
#[derive(Drop)]
pub(crate) struct Index {
    /// The rows, in item order.
    pub(crate) rows: Vec<Row>,
}

/// An item, and the numbers in its row.
#[derive(Drop)]
pub(crate) struct Row {
    /// The item.
    item: Item,
    /// The numbers.
    numbers: Vec<u32>,
}

impl Model for Row {
    ghost use Rattle.std.specs.Prelude.{List, ℕ};
    ghost use Rattle.poly_tiling.specs.declared.item.Item.{Item};

    ghost Value = { Item × List ℕ };

    ghost view = { λ r. (r.item, r.numbers.items) };
}

impl Row {
    fn new(item: Item, numbers: Vec<u32>) -> Row
        ensures { result ≡ (item, numbers.items) }
    {
        Row { item, numbers }
    }

    fn item(&self) -> Item
        ensures { result ≡ self.now.0 }
    {
        self.item
    }

    fn numbers(&self) -> &[u32]
        ensures { result.now ≡ self.now.1 }
    {
        &self.numbers
    }

    fn push(&mut self, number: u32) -> Result<(), Refusal>
        ensures ok { OnOk result (self.new ≡ (self.old.0, self.old.1 ++ number ∷ [])) }
        ensures why { IfErr result (λ e. e ≡ Refusal.Memory) }
    {
        self.numbers.push(number)?;
        Ok(())
    }
}

impl Index {
    /// The index of a design by numbers. The only refusal is `Memory`.
    pub(crate) fn of(alloc: Global, names: &Interner, numbered: &Numbered) -> Result<Index, Refusal>
        requires { WellNamed (numbered_view names.now numbered.now) }
        ensures ok { IfOk result (λ x. IsIndex (numbered_view names.now numbered.now) x.rows.items) }
        ensures why { IfErr result (λ e. e ≡ Refusal.Memory) }
    {
        let mut rows = copied(alloc, &[], &numbered.bounds, &[])?;
        scatter(&mut rows, names, &numbered.live)?;
        Ok(Index { rows })
    }

    /// Marks for the numbers of the cell or the piece that changes. The only refusal is `Memory`.
    pub(crate) fn marks(
        &self,
        alloc: Global,
        names: &Interner,
        change: &Change,
    ) -> Result<Vec<bool>, Refusal>
        requires rows { AreRows self.now.rows.items }
        requires low { list_all (λ n. nat_lt n (length names.now)) (row_in self.now.rows.items (item_of change.now)) ≡ true }
        ensures ok { (v : View) → v.placements ≡ names.now → IsIndex v self.now.rows.items → IfOk result (λ marks. AreMarked v change.now marks.items) }
        ensures why { IfErr result (λ e. e ≡ Refusal.Memory) }
    {
        let item = changed_item(change);
        let marks = marks_of(alloc, names.len(), self.numbers(&item))?;
        Ok(marks)
    }

    /// The index after a change of one cell or one piece of this index's design: without the marked numbers, and with the
    /// numbers in `update.found`. The only refusal is `Memory`.
    pub(crate) fn changed_by(
        &self,
        alloc: Global,
        names: &Interner,
        marks: &[bool],
        update: &Update,
    ) -> Result<Index, Refusal>
        requires rows { AreRows self.now.rows.items }
        requires well { WellNamed (numbered_view names.now update.now.numbered) }
        ensures ok { (v : View) (d : Layout) (x : Change) → v.placements ≡ names.now → WellNamed v → Shows v d → IsIndex v self.now.rows.items → AreMarked v x marks.now → Shows (numbered_view names.now update.now.numbered) (changed d x) → AreNumbersWith (numbered_view names.now update.now.numbered) (item_of x) update.now.found.items → IfOk result (λ i. IsIndex (numbered_view names.now update.now.numbered) i.rows.items) }
        ensures why { IfErr result (λ e. e ≡ Refusal.Memory) }
    {
        let mut rows = copied(alloc, &self.rows, &update.numbered.bounds, marks)?;
        scatter(&mut rows, names, &update.found)?;
        Ok(Index { rows })
    }

    /// The numbers of the item; none if it has no row.
    pub(crate) fn numbers(&self, item: &Item) -> &[u32]
        requires { AreRows self.now.rows.items }
        ensures { result.now ≡ row_in self.now.rows.items item.now }
    {
        numbers_in(&self.rows, item)
    }
}

// The cell or the piece that changes.
fn changed_item(change: &Change) -> Item
    ensures { result ≡ item_of change.now }
{
    match change {
        Change::Cell { cell, .. } => Item::Cell(*cell),
        Change::Piece { name, .. } => Item::Piece(*name),
    }
}

// The index of the item's row; none if the item has no row.
fn find(rows: &[Row], item: &Item) -> Option<usize>
    requires { AreRows rows.now }
    ensures index { result ≡ row_index rows.now item.now }
    ensures low { IfSome result (λ at. at < length rows.now) }
{
    match rows.binary_search_by_key(item, |r| r.item()) {
        Ok(at) => Some(at),
        Err(_) => None,
    }
}

fn numbers_in<'a>(rows: &'a [Row], item: &Item) -> &'a [u32]
    requires { AreRows rows.now }
    ensures { result.now ≡ row_in rows.now item.now }
{
    match find(rows, item) {
        Some(at) => rows[at].numbers(),
        None => &[],
    }
}

// A row for each bound's item, with the unmarked numbers of the item's old row.
fn copied(
    alloc: Global,
    rows: &[Row],
    bounds: &[Bound],
    marks: &[bool],
) -> Result<Vec<Row>, Refusal>
    requires { AreRows rows.now }
    ensures ok { IfOk result (λ list. list.items ≡ rows_without (λ n. slice_index_or marks.now n false) rows.now bounds.now) }
    ensures why { IfErr result (λ e. e ≡ Refusal.Memory) }
{
    let mut list = Vec::with_capacity(alloc, bounds.len())?;
    for bound in bounds {
        let numbers = unmarked(alloc, numbers_in(rows, &bound.item), marks)?;
        list.push(Row::new(bound.item, numbers))?;
    }
    Ok(list)
}

// Puts each number into the rows of its placement's items.
fn scatter(rows: &mut [Row], names: &Interner, numbers: &[u32]) -> Result<(), Refusal>
    requires { AreRows rows.old }
    ensures ok { OnOk result (rows.new ≡ with_numbers (has_of names.now) numbers.now rows.old) }
    ensures why { IfErr result (λ e. e ≡ Refusal.Memory) }
{
    for number in numbers {
        add_number(rows, names, *number)?;
    }
    Ok(())
}

fn add_number(rows: &mut [Row], names: &Interner, number: u32) -> Result<(), Refusal>
    requires { AreRows rows.old }
    ensures ok { OnOk result (rows.new ≡ with_numbers (has_of names.now) (number ∷ []) rows.old) }
    ensures why { IfErr result (λ e. e ≡ Refusal.Memory) }
{
    match names.placement(number) {
        Some(placement) => add_placement(rows, &placement, number),
        None => Ok(()),
    }
}

fn add_placement(rows: &mut [Row], placement: &Placement, number: u32) -> Result<(), Refusal>
    requires { AreRows rows.old }
    ensures ok { OnOk result (rows.new ≡ with_numbers (λ n i. list_any (λ j. same_item j i) (items_of (Some placement.now))) (number ∷ []) rows.old) }
    ensures why { IfErr result (λ e. e ≡ Refusal.Memory) }
{
    add(rows, &Item::Piece(placement.name), number)?;
    add_cells(rows, placement.cells.as_slice(), number)?;
    Ok(())
}

fn add_cells(rows: &mut [Row], cells: &[Cell], number: u32) -> Result<(), Refusal>
    requires rows { AreRows rows.old }
    requires apart { IsAscending spot_cmp cells.now }
    ensures ok { OnOk result (rows.new ≡ with_numbers (λ n i. list_any (λ c. same_item (CellItem c) i) cells.now) (number ∷ []) rows.old) }
    ensures why { IfErr result (λ e. e ≡ Refusal.Memory) }
{
    for cell in cells {
        add(rows, &Item::Cell(*cell), number)?;
    }
    Ok(())
}

// Puts the number into the item's row, if it has one.
fn add(rows: &mut [Row], item: &Item, number: u32) -> Result<(), Refusal>
    requires { AreRows rows.old }
    ensures ok { OnOk result (rows.new ≡ with_numbers (λ n i. same_item item.now i) (number ∷ []) rows.old) }
    ensures why { IfErr result (λ e. e ≡ Refusal.Memory) }
{
    match find(rows, item) {
        Some(at) => {
            rows[at].push(number)?;
            Ok(())
        }
        None => Ok(()),
    }
}
