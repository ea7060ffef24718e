//! The placement of each number.
ghost use Rattle.std.specs.Prelude.{IfErr, IfOk, length, slice_get, ◌++◌, ◌+◌, ◌<◌, ◌^◌, ◌≡◌};
ghost use Rattle.std.specs.Option.{option_copied};
ghost use Rattle.poly_tiling.specs.Blocks.{Begins};

use crate::placement_blocks::PlacementBlocks;
use poly_design::Placement;
use poly_grid::Refusal;
use std::alloc::Global;
use std::marker::Model;

/// An immutable list of placements, which may share blocks with other lists.
#[derive(Drop)]
pub struct PlacementList {
    /// The start of the list, in blocks.
    blocks: PlacementBlocks,
    /// The placements that come after the blocks.
    rest: Vec<Placement>,
}

impl Model for PlacementList {
    ghost use Rattle.std.specs.Prelude.{List, length, ◌++◌, ◌+◌, ◌<◌, ◌^◌};
    ghost use Rattle.poly_design.specs.declared.placement.Placement.{Placement};

    ghost Value = { List Placement };

    ghost view = { λ l. l.blocks ++ l.rest.items };

    ghost invariant = { λ l. length l.blocks + length l.rest.items < 2 ^ 64 };
}

impl PlacementList {
    fn new(blocks: PlacementBlocks, rest: Vec<Placement>) -> PlacementList
        requires { length blocks + length rest.items < 2 ^ 64 }
        ensures { result ≡ blocks ++ rest.items }
    {
        PlacementList { blocks, rest }
    }

    /// The list, without a block.
    pub fn of(list: Vec<Placement>) -> PlacementList
        ensures { result ≡ list.items }
    {
        PlacementList::new(PlacementBlocks::new(*list.allocator()), list)
    }

    /// The list, which must begin with the placements of the blocks. It shares the blocks, and copies only the placements that
    /// come after them. The only refusal is `Memory`.
    pub fn sharing(
        alloc: Global,
        blocks: &PlacementBlocks,
        all: &[Placement],
    ) -> Result<PlacementList, Refusal>
        requires { Begins blocks.now all.now }
        ensures ok { IfOk result (λ l. l ≡ all.now) }
        ensures why { IfErr result (λ e. e ≡ Refusal.Memory) }
    {
        let rest = Vec::from_slice(alloc, &all[blocks.len()..])?;
        let shared = blocks.share()?;
        Ok(PlacementList::new(shared, rest))
    }

    /// How many placements the list has.
    pub fn len(&self) -> usize
        ensures { result ≡ length self.now }
    {
        self.blocks.len() + self.rest.len()
    }

    /// The placement at an index; none if the list has fewer placements.
    pub fn get(&self, index: u32) -> Option<&Placement>
        ensures { option_copied result ≡ slice_get self.now index }
    {
        let index = index as usize;
        let start = self.blocks.len();
        if index < start {
            return self.blocks.get(index);
        }
        self.rest.get(index - start)
    }
}
