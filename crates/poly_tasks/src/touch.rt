//! What a change touches, made ready for the comparison with many atoms.
ghost use Rattle.std.specs.Prelude.{◌≡◌, IfErr, IfOk, false, length, nat_lt, slice_index_or, true, ℕ};
ghost use Rattle.std.specs.List.{list_all};
ghost use Rattle.poly_tiling.specs.Lists.{mem};
ghost use Rattle.poly_place.specs.Index.{item_of};

use poly_design::Change;
use poly_grid::Refusal;
use poly_place::Delta;
use poly_tiling::{Item, View};
use std::alloc::Global;

/// What a change touches.
#[derive(Drop)]
pub struct Touch<'a> {
    /// The design after the change, by numbers.
    pub view: &'a View,
    /// How that design differs from the one before the change.
    pub delta: &'a Delta,
    /// The cell or the piece that changes.
    pub item: Item,
    /// For each number of a placement, whether the placement is gone. So an atom needs only one look-up here, even if the
    /// change takes thousands of placements away.
    pub gone: Vec<bool>,
    ghost marked: { (n : ℕ) → slice_index_or gone.items n false ≡ mem delta.now.gone.items n },
}

impl<'a> Touch<'a> {
    /// What is touched by the change, which leads to the view with these differences. Fails only when out of memory.
    pub fn new(
        alloc: Global,
        view: &'a View,
        delta: &'a Delta,
        change: &Change,
    ) -> Result<Touch<'a>, Refusal>
        requires { list_all (λ n. nat_lt n (length view.now.placements)) delta.now.gone.items ≡ true }
        ensures view { IfOk result (λ t. t.view.now ≡ view.now) }
        ensures delta { IfOk result (λ t. t.delta.now ≡ delta.now) }
        ensures item { IfOk result (λ t. t.item ≡ item_of change.now) }
        ensures why { IfErr result (λ e. e ≡ Refusal.Memory) }
    {
        let gone = delta.marks_of_gone(alloc, view.number_count())?;
        Ok(Touch {
            view,
            delta,
            item: changed_item(change),
            gone,
        })
    }
}

// The cell or the piece that changes.
fn changed_item(change: &Change) -> Item
    ensures { result ≡ item_of change.now }
{
    match change {
        Change::Cell { cell, .. } => Item::Cell(*cell),
        Change::Piece { name, .. } => Item::Piece(*name),
    }
}
