//! Numbers for placements.
ghost use Rattle.std.specs.Prelude.{◌≡◌, ◌↔◌, ◌⊎◌, ◌^◌, ◌<◌, ◌++◌, ◌∷◌, [], Some, Err, IfSome, IsNone, IsTrue, IfOk, IfErr, OnOk, OnErr, length, slice_get, take};
ghost use Rattle.std.specs.List.{Contains};
ghost use Rattle.poly_place.specs.Interned.{AreNumbersOf, AreTooMany, Gives, GoesOnWith};
ghost use Rattle.poly_place.specs.Touched.{number_cmp};

use indexmap::IndexSet;
use poly_design::Placement;
use poly_grid::Refusal;
use poly_tiling::{PlacementBlocks, PlacementList};
use std::alloc::Global;
use std::cmp::Ordering;
use std::marker::Model;

/// A number for each placement that was ever given one. Numbers count up from 0, and a number never changes its placement.
#[derive(Drop)]
pub struct Interner {
    /// The allocator.
    alloc: Global,
    /// All placements that have numbers. A placement's number is its index.
    all: IndexSet<Placement>,
    /// The first of these placements, in blocks that views share.
    blocks: PlacementBlocks,
}

impl Model for Interner {
    ghost use Rattle.std.specs.Prelude.{List};
    ghost use Rattle.poly_design.specs.declared.placement.Placement.{Placement};
    ghost use Rattle.poly_tiling.specs.Blocks.{Begins};
    ghost use Rattle.poly_place.specs.Interned.{AreNumbered};

    ghost Value = { List Placement };

    ghost view = { λ i. i.all.keys };

    ghost invariant = { λ i. AreNumbered i.all.keys × Begins i.blocks i.all.keys };
}

impl Interner {
    ghost use Rattle.poly_place.specs.Interned.{AreNumbered};

    /// An interner that has given out no number.
    pub fn new(alloc: Global) -> Interner
        ensures { result ≡ [] }
    {
        Interner {
            alloc,
            all: IndexSet::new(alloc),
            blocks: PlacementBlocks::new(alloc),
        }
    }

    /// How many numbers were given out, at most 2^32. This is also the next number, if any number is left.
    pub fn len(&self) -> usize
        ensures value { result ≡ length self.now }
        ensures numbered { AreNumbered self.now }
    {
        self.all.len()
    }

    /// Whether no number was given out.
    pub fn is_empty(&self) -> bool
        ensures { IsTrue result ↔ (length self.now ≡ 0) }
    {
        self.all.is_empty()
    }

    /// The number of the placement; none if the placement has no number.
    pub fn number(&self, placement: &Placement) -> Option<u32>
        ensures found { IfSome result (λ n. slice_get self.now n ≡ Some placement.now) }
        ensures none { IsNone result ↔ (¬ Contains self.now placement.now) }
        ensures numbered { AreNumbered self.now }
    {
        match self.all.get_index_of(placement) {
            Some(at) => Some(at as u32),
            None => None,
        }
    }

    /// The placement of the number; none if the number was not given out.
    pub fn placement(&self, number: u32) -> Option<Placement>
        ensures { result ≡ slice_get self.now number }
    {
        self.all.get_index(number as usize).copied()
    }

    /// How the placements of two numbers compare. A number that was not given out comes first.
    pub(crate) fn compare(&self, first: u32, second: u32) -> Ordering
        ensures { result ≡ number_cmp self.now first second }
    {
        self.placement(first).cmp(&self.placement(second))
    }

    /// All placements, in the order of their numbers. The only refusal is `Memory`.
    pub fn placements(&self) -> Result<Vec<Placement>, Refusal>
        ensures ok { IfOk result (λ list. list.items ≡ self.now) }
        ensures why { IfErr result (λ e. e ≡ Refusal.Memory) }
    {
        Ok(Vec::from_slice(self.alloc, self.all.as_slice())?)
    }

    /// All placements, in the order of their numbers, as a list that shares blocks with the lists of other calls. The only
    /// refusal is `Memory`.
    pub(crate) fn shared(&self) -> Result<PlacementList, Refusal>
        ensures ok { IfOk result (λ list. list ≡ self.now) }
        ensures why { IfErr result (λ e. e ≡ Refusal.Memory) }
    {
        PlacementList::sharing(self.alloc, &self.blocks, self.all.as_slice())
    }

    /// The number of the placement. If it has none yet, it gets the next one.
    ///
    /// Fails with `Spent` if the placement has no number and all 2^32 numbers are in use, and otherwise only with `Memory`. A
    /// refused call gives out no number.
    pub fn give(&mut self, placement: &Placement) -> Result<u32, Refusal>
        ensures ok { IfOk result (λ n. slice_get self.new n ≡ Some placement.now) }
        ensures gives { OnOk result (Gives self.old placement.now self.new) }
        ensures numbered { OnOk result (AreNumbered self.new) }
        ensures err { OnErr result (self.new ≡ self.old) }
        ensures spent { result ≡ Err Refusal.Spent → (length self.old ≡ 2 ^ 32) × (¬ Contains self.old placement.now) }
        ensures why { IfErr result (λ e. (e ≡ Refusal.Spent) ⊎ (e ≡ Refusal.Memory)) }
    {
        match self.number(placement) {
            Some(number) => Ok(number),
            None => self.give_next(placement),
        }
    }

    fn give_next(&mut self, placement: &Placement) -> Result<u32, Refusal>
        requires lacks { ¬ Contains self.old placement.now }
        ensures ok { IfOk result (λ n. slice_get self.new n ≡ Some placement.now) }
        ensures gives { OnOk result (self.new ≡ self.old ++ placement.now ∷ []) }
        ensures numbered { OnOk result (AreNumbered self.new) }
        ensures err { OnErr result (self.new ≡ self.old) }
        ensures spent { result ≡ Err Refusal.Spent → length self.old ≡ 2 ^ 32 }
        ensures why { IfErr result (λ e. (e ≡ Refusal.Spent) ⊎ (e ≡ Refusal.Memory)) }
    {
        if self.len() > u32::MAX as usize {
            return Err(Refusal::Spent);
        }
        self.add(*placement)
    }

    fn add(&mut self, placement: Placement) -> Result<u32, Refusal>
        requires room { length self.old < 2 ^ 32 }
        requires lacks { ¬ Contains self.old placement }
        ensures ok { IfOk result (λ n. slice_get self.new n ≡ Some placement) }
        ensures gives { OnOk result (self.new ≡ self.old ++ placement ∷ []) }
        ensures numbered { OnOk result (AreNumbered self.new) }
        ensures err { OnErr result (self.new ≡ self.old) }
        ensures why { IfErr result (λ e. e ≡ Refusal.Memory) }
    {
        let (at, _) = self.all.insert_full(placement)?;
        Ok(at as u32)
    }

    /// The numbers of the placements, in the order of the list. Placements that have no number yet are given the next numbers.
    ///
    /// Fails only with `Memory`, or with `Spent` if these placements, and those that have numbers already, are together more
    /// than there are numbers. A refused call gives out no number.
    pub fn give_all(&mut self, placements: &[Placement]) -> Result<Vec<u32>, Refusal>
        ensures ok { IfOk result (λ numbers. AreNumbersOf self.new numbers.items placements.now) }
        ensures gives { OnOk result (GoesOnWith self.old placements.now self.new) }
        ensures numbered { OnOk result (AreNumbered self.new) }
        ensures err { OnErr result (self.new ≡ self.old) }
        ensures spent { result ≡ Err Refusal.Spent → AreTooMany self.old placements.now }
        ensures why { IfErr result (λ e. (e ≡ Refusal.Spent) ⊎ (e ≡ Refusal.Memory)) }
    {
        self.reserve(placements.len())?;
        let before = self.len();
        let mut numbers = Vec::with_capacity(self.alloc, placements.len())?;
        for placement in placements {
            match self.give(placement) {
                Ok(number) => numbers.push_reserved(number),
                Err(refusal) => {
                    self.forget_from(before);
                    return Err(refusal);
                }
            }
        }
        Ok(numbers)
    }

    // Makes room for this many more numbers, and puts the placements that have numbers into blocks.
    fn reserve(&mut self, more: usize) -> Result<(), Refusal>
        ensures same { self.new ≡ self.old }
        ensures why { IfErr result (λ e. e ≡ Refusal.Memory) }
    {
        self.all.reserve(more)?;
        self.blocks.complete(self.all.as_slice())?;
        Ok(())
    }

    /// Takes back the numbers from this one on.
    pub(crate) fn forget_from(&mut self, number: usize)
        ensures { self.new ≡ take number self.old }
    {
        self.blocks.truncate(number);
        self.all.truncate(number);
    }
}
