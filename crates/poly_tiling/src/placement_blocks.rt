//! Blocks of placements that lists of placements share.
//!
//! Each view has a placement for every number that was ever given out, and a new view is made at every change. Numbers never
//! change their placements, so the list of one view begins as that of the view before. Its start is kept in blocks of a fixed
//! size, which all views share; only what comes after the last full block is copied.
ghost use Rattle.std.specs.Prelude.{IfErr, IfOk, OnErr, OnOk, [], length, slice_get, take, ◌*◌, ◌++◌, ◌+◌, ◌/◌, ◌<◌, ◌^◌, ◌≡◌};
ghost use Rattle.std.specs.Option.{option_copied};
ghost use Rattle.poly_tiling.specs.Blocks.{Begins};

use poly_design::Placement;
use poly_grid::Refusal;
use std::alloc::Global;
use std::marker::Model;
use std::sync::Arc;

/// How many placements a full block has.
pub const BLOCK_SIZE: usize = 1024;

/// The start of a list of placements that only grows: its placements in full blocks, which other lists can share.
#[derive(Drop)]
pub struct PlacementBlocks {
    /// The allocator.
    alloc: Global,
    /// The blocks. Each has `BLOCK_SIZE` placements.
    blocks: Vec<Arc<Vec<Placement>>>,
    /// How many placements the blocks have together.
    count: usize,
}

impl Model for PlacementBlocks {
    ghost use Rattle.std.specs.Prelude.{List, length, ◌≡◌};
    ghost use Rattle.poly_design.specs.declared.placement.Placement.{Placement};
    ghost use Rattle.poly_tiling.specs.Blocks.{HaveSize, contents, joined};

    ghost Value = { List Placement };

    ghost view = { λ b. joined (contents b.blocks.items) };

    ghost invariant = { λ b. HaveSize 1024 (contents b.blocks.items) × (b.count ≡ length (joined (contents b.blocks.items))) };
}

impl PlacementBlocks {
    /// No blocks.
    pub fn new(alloc: Global) -> PlacementBlocks
        ensures { result ≡ [] }
    {
        PlacementBlocks {
            alloc,
            blocks: Vec::new(alloc),
            count: 0,
        }
    }

    /// How many placements the blocks have together.
    pub fn len(&self) -> usize
        ensures { result ≡ length self.now }
    {
        self.count
    }

    /// The placement at an index; none if the blocks have fewer placements.
    pub fn get(&self, index: usize) -> Option<&Placement>
        ensures { option_copied result ≡ slice_get self.now index }
    {
        match self.blocks.get(index / BLOCK_SIZE) {
            None => None,
            Some(block) => block.get(index % BLOCK_SIZE),
        }
    }

    /// Adds the placements of the list that come after these blocks, as far as they fill further blocks. The list must begin
    /// with the placements of the blocks.
    ///
    /// The only refusal is `Memory`. Refused or not, the list begins with the placements of the blocks.
    pub fn complete(&mut self, all: &[Placement]) -> Result<(), Refusal>
        requires { Begins self.old all.now }
        ensures begins { Begins self.new all.now }
        ensures full { OnOk result (length all.now < length self.new + BLOCK_SIZE) }
        ensures why { IfErr result (λ e. e ≡ Refusal.Memory) }
    {
        while all.len() - self.len() >= BLOCK_SIZE {
            let start = self.len();
            self.add(&all[start..start + BLOCK_SIZE])?;
        }
        Ok(())
    }

    fn add(&mut self, placements: &[Placement]) -> Result<(), Refusal>
        requires full { length placements.now ≡ BLOCK_SIZE }
        requires room { length self.old < 2 ^ 63 }
        ensures ok { OnOk result (self.new ≡ self.old ++ placements.now) }
        ensures err { OnErr result (self.new ≡ self.old) }
        ensures why { IfErr result (λ e. e ≡ Refusal.Memory) }
    {
        let block = Vec::from_slice(self.alloc, placements)?;
        let shared = Arc::new(self.alloc, block)?;
        self.blocks.push(shared)?;
        self.count += BLOCK_SIZE;
        Ok(())
    }

    /// Keeps the blocks that lie within the first `count` placements. Never allocates.
    pub fn truncate(&mut self, count: usize)
        ensures { self.new ≡ take (count / BLOCK_SIZE * BLOCK_SIZE) self.old }
    {
        let whole = count / BLOCK_SIZE;
        self.blocks.truncate(whole);
        self.count = (whole * BLOCK_SIZE).min(self.count);
    }

    /// The same blocks, shared. The only refusal is `Memory`.
    pub(crate) fn share(&self) -> Result<PlacementBlocks, Refusal>
        ensures ok { IfOk result (λ b. b ≡ self.now) }
        ensures why { IfErr result (λ e. e ≡ Refusal.Memory) }
    {
        let mut blocks = Vec::with_capacity(self.alloc, self.blocks.len())?;
        for block in &self.blocks {
            blocks.push(Arc::try_clone(block)?)?;
        }
        Ok(PlacementBlocks {
            alloc: self.alloc,
            blocks,
            count: self.count,
        })
    }
}
