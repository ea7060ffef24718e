//! A set of sets of cells.
ghost use Rattle.std.specs.Prelude.{◌≡◌, ◌↔◌, [], OnOk, OnErr, IfOk, IfErr, IsTrue, length};
ghost use Rattle.std.specs.List.{Contains};
ghost use Rattle.std.specs.BTreeMap.{is_at};
ghost use Rattle.std.specs.BTreeSet.{insert_key};
ghost use Rattle.std.specs.Set.{remove_key};
ghost use Rattle.poly_shape.specs.Order.{Adds, IsAscending, cells_cmp};
ghost use Rattle.poly_design.specs.Listed.{HasAt, IsGapFor, TakesAway};

use poly_grid::Refusal;
use poly_shape::Cells;
use std::alloc::Global;
use std::marker::Model;

/// A set of sets of cells, kept in ascending order.
#[derive(Drop)]
pub struct CellsSet {
    /// The allocator of copies.
    alloc: Global,
    /// The members, in ascending order.
    list: Vec<Cells>,
}

impl Model for CellsSet {
    ghost use Rattle.std.specs.Prelude.{List};
    ghost use Rattle.poly_grid.specs.Spot.{Spot};
    ghost use Rattle.poly_shape.specs.Order.{IsAscending, cells_cmp};

    ghost Value = { List (List Spot) };

    ghost view = { λ s. s.list.items };

    ghost invariant = { λ s. IsAscending cells_cmp s.list.items };
}

impl CellsSet {
    /// The empty set.
    pub fn new(alloc: Global) -> CellsSet
        ensures { result ≡ [] }
    {
        CellsSet {
            alloc,
            list: Vec::new(alloc),
        }
    }

    /// The members, in ascending order.
    pub fn as_slice(&self) -> &[Cells]
        ensures value { result.now ≡ self.now }
        ensures ascending { IsAscending cells_cmp self.now }
    {
        &self.list
    }

    /// Whether the cells are a member.
    pub fn contains(&self, cells: &Cells) -> bool
        ensures found { IsTrue result ↔ Contains self.now cells.now }
        ensures ascending { IsAscending cells_cmp self.now }
    {
        self.index_of(cells).is_ok()
    }

    // `Ok` with the index of the cells if they are a member, or else `Err` with the index at which to insert them.
    fn index_of(&self, cells: &Cells) -> Result<usize, usize>
        ensures found { IfOk result (λ at. HasAt self.now at cells.now) }
        ensures gap { IfErr result (λ at. IsGapFor cells_cmp cells.now self.now at) }
        ensures ascending { IsAscending cells_cmp self.now }
    {
        self.list.binary_search(cells)
    }

    /// Adds the cells to the set. Fails only when out of memory, and then leaves the set unchanged.
    pub fn insert(&mut self, cells: Cells) -> Result<(), Refusal>
        ensures adds { OnOk result (Adds self.old cells self.new) }
        ensures list { OnOk result (self.new ≡ insert_key cells_cmp self.old cells) }
        ensures ascending { IsAscending cells_cmp self.new }
        ensures err { OnErr result (self.new ≡ self.old) }
        ensures why { IfErr result (λ e. e ≡ Refusal.Memory) }
    {
        match self.index_of(&cells) {
            Ok(_) => Ok(()),
            Err(at) => Ok(self.list.insert(at, cells)?),
        }
    }

    /// Removes the cells from the set if they are in it.
    pub fn remove(&mut self, cells: &Cells)
        ensures takes { TakesAway cells.now self.old self.new }
        ensures list { self.new ≡ remove_key (is_at (cells_cmp cells.now)) self.old }
        ensures ascending { IsAscending cells_cmp self.new }
    {
        match self.index_of(cells) {
            Ok(at) => {
                self.list.remove(at);
            }
            Err(_at) => {}
        }
    }

    /// An equal set. Fails only when out of memory.
    pub fn copy(&self) -> Result<CellsSet, Refusal>
        ensures ok { IfOk result (λ set. set ≡ self.now) }
        ensures why { IfErr result (λ e. e ≡ Refusal.Memory) }
    {
        Ok(CellsSet {
            alloc: self.alloc,
            list: Vec::from_slice(self.alloc, &self.list)?,
        })
    }
}
