//! A design by numbers after a change of one cell or one piece.
//!
//! A change touches the placements that cover its cell or belong to its piece. It adds and removes no other placements. So
//! only the placements that it touches are listed again, and their numbers are merged with those of the other placements.
ghost use Rattle.std.specs.Prelude.{◌≡◌, ◌⊎◌, ◌++◌, Err, IfErr, IfOk, IsSome, false, length, nat_eq, true, ◌≤◌};
ghost use Rattle.std.specs.Cmp.Lexicographic.{pointwise};
ghost use Rattle.std.specs.List.{list_any};
ghost use Rattle.std.specs.List.Sorted.{IsPartitionPoint, IsPermutation};
ghost use Rattle.poly_shape.specs.Order.{spot_eq};
ghost use Rattle.poly_design.specs.Changes.{changed};
ghost use Rattle.poly_design.specs.Layout.{Layout, spec_of};
ghost use Rattle.poly_design.specs.Listed.{IsListOf};
ghost use Rattle.poly_design.specs.PlacementOrder.{placement_cmp};
ghost use Rattle.poly_design.specs.Placements.{IsPlacement};
ghost use Rattle.poly_tiling.specs.Names.{WellNamed};
ghost use Rattle.poly_tiling.specs.Shows.{Shows};
ghost use Rattle.poly_place.specs.Delta.{GivesInOrder};
ghost use Rattle.poly_place.specs.Interned.{GoesOn};
ghost use Rattle.poly_place.specs.Right.{IsRight};
ghost use Rattle.poly_place.specs.Numbered.{numbered_view};
ghost use Rattle.poly_place.specs.Spent.{IsSpent};
ghost use Rattle.poly_place.specs.Index.{AreNumbersWith, item_of};
ghost use Rattle.poly_place.specs.Touched.{AreInOrder, AreMarked, comes_before, touches};

use crate::delta::unmarked;
use crate::interner::Interner;
use crate::numbered::Numbered;
use crate::parts::pins;
use poly_design::{Change, Design, Name, Placement};
use poly_grid::{Cell, Refusal};
use poly_tiling::item_list;
use std::alloc::{AllocError, Global};

/// A design after a change of one cell or one piece, by numbers.
#[derive(Drop)]
pub(crate) struct Update {
    /// The design after the change.
    pub(crate) numbered: Numbered,
    /// The numbers of the placements that the change touches and that the design has after the change, each once.
    pub(crate) found: Vec<u32>,
}

/// The design after the change. The marks tell which numbers of the design before the change name placements that the change
/// touches. New numbers go to placements first, then to pins.
///
/// Fails only with `Memory`, or with `Spent` if the placements that have numbers, and the placements and pins of the design
/// after the change, are together more than there are numbers.
pub(crate) fn updated(
    alloc: Global,
    names: &mut Interner,
    numbered: &Numbered,
    marks: &[bool],
    change: &Change,
    after: &Design,
) -> Result<Update, Refusal>
    requires { WellNamed (numbered_view names.old numbered.now) }
    ensures right { (d : Layout) → Shows (numbered_view names.old numbered.now) d → AreMarked (numbered_view names.old numbered.now) change.now marks.now → after.now ≡ changed d change.now → IfOk result (λ t. IsRight (numbered_view names.new t.numbered) after.now) }
    ensures found { AreMarked (numbered_view names.old numbered.now) change.now marks.now → IfOk result (λ t. AreNumbersWith (numbered_view names.new t.numbered) (item_of change.now) t.found.items) }
    ensures grows { GoesOn names.old names.new }
    ensures order { (d : Layout) → Shows (numbered_view names.old numbered.now) d → AreMarked (numbered_view names.old numbered.now) change.now marks.now → after.now ≡ changed d change.now → GivesInOrder after.now names.old names.new }
    ensures spent { result ≡ Err Refusal.Spent → IsSpent names.old after.now }
    ensures why { IfErr result (λ e. (e ≡ Refusal.Spent) ⊎ (e ≡ Refusal.Memory)) }
{
    let found = found(alloc, change, after)?;
    let pinned = pins(alloc, after)?;
    let bounds = item_list(alloc, after)?;
    let kept = unmarked(alloc, &numbered.live, marks)?;
    let fresh = names.give_all(&found)?;
    let live = merged(alloc, names, &kept, &fresh)?;
    let pins = names.give_all(&pinned)?;
    Ok(Update {
        numbered: Numbered { live, bounds, pins },
        found: fresh,
    })
}

// The placements that the change touches and that the design has after the change, in ascending order.
fn found(alloc: Global, change: &Change, after: &Design) -> Result<Vec<Placement>, Refusal>
    ensures ok { IfOk result (λ list. IsListOf placement_cmp (λ p. IsPlacement after.now p × (touches change.now p ≡ true)) list.items) }
    ensures why { IfErr result (λ e. e ≡ Refusal.Memory) }
{
    match change {
        Change::Cell { cell, .. } => found_on(*cell, after),
        Change::Piece { name, .. } => found_of(alloc, *name, after),
    }
}

fn found_on(cell: Cell, after: &Design) -> Result<Vec<Placement>, Refusal>
    ensures ok { IfOk result (λ list. IsListOf placement_cmp (λ p. IsPlacement after.now p × (list_any (λ k. spot_eq k cell) p.cells ≡ true)) list.items) }
    ensures why { IfErr result (λ e. e ≡ Refusal.Memory) }
{
    let list = after.places_on(cell)?;
    Ok(list)
}

// The placements of the piece; none if it isn't in the design.
fn found_of(alloc: Global, name: Name, after: &Design) -> Result<Vec<Placement>, Refusal>
    ensures ok { IfOk result (λ list. IsListOf placement_cmp (λ p. IsPlacement after.now p × (pointwise nat_eq p.name name ≡ true)) list.items) }
    ensures why { IfErr result (λ e. e ≡ Refusal.Memory) }
{
    match after.spec(name) {
        None => Ok(Vec::new(alloc)),
        Some(_) => found_there(name, after),
    }
}

fn found_there(name: Name, after: &Design) -> Result<Vec<Placement>, Refusal>
    requires { IsSome (spec_of after.now name) }
    ensures ok { IfOk result (λ list. IsListOf placement_cmp (λ p. IsPlacement after.now p × (pointwise nat_eq p.name name ≡ true)) list.items) }
    ensures why { IfErr result (λ e. e ≡ Refusal.Memory) }
{
    match after.places_of(name) {
        Ok(list) => Ok(list),
        Err(_) => Err(Refusal::Memory),
    }
}

// Merges the kept and the fresh numbers, in the order of their placements. Binary search finds where each fresh number
// belongs, so few of the kept numbers are compared.
fn merged(
    alloc: Global,
    names: &Interner,
    kept: &[u32],
    fresh: &[u32],
) -> Result<Vec<u32>, AllocError>
    requires kept_up { AreInOrder names.now kept.now }
    requires fresh_up { AreInOrder names.now fresh.now }
    ensures same { IfOk result (λ list. IsPermutation (kept.now ++ fresh.now) list.items) }
    ensures sorted { IfOk result (λ list. AreInOrder names.now list.items) }
{
    let mut live = Vec::with_capacity(alloc, kept.len().saturating_add(fresh.len()))?;
    let mut rest = kept;
    for number in fresh {
        let (before, after) = rest.split_at(count_before(names, rest, *number));
        live.extend_from_slice(before)?;
        live.push(*number)?;
        rest = after;
    }
    live.extend_from_slice(rest)?;
    Ok(live)
}

// How many of the numbers come before this one.
fn count_before(names: &Interner, numbers: &[u32], number: u32) -> usize
    requires { AreInOrder names.now numbers.now }
    ensures low { result ≤ length numbers.now }
    ensures split { IsPartitionPoint (λ n. comes_before names.now n number ≡ true) (λ n. comes_before names.now n number ≡ false) numbers.now result }
{
    numbers.partition_point(|n| names.compare(*n, number).is_lt())
}
