//! A design by numbers.
ghost use Rattle.std.specs.Prelude.{◌≡◌, ◌⊎◌, ◌+◌, ◌<◌, ◌^◌, Err, IfOk, IfErr, length};
ghost use Rattle.poly_design.specs.Layout.{Layout};
ghost use Rattle.poly_place.specs.Delta.{GivesInOrder};
ghost use Rattle.poly_place.specs.Interned.{GoesOn};
ghost use Rattle.poly_place.specs.Parts.{ArePartsOf};
ghost use Rattle.poly_place.specs.Right.{IsRight};
ghost use Rattle.poly_place.specs.Spent.{IsSpent};

use crate::interner::Interner;
use crate::parts::Parts;
use poly_grid::Refusal;
use poly_tiling::Bound;

/// A design's placements and pins by their numbers, both in placement order, and its items with their bounds, in item
/// order.
#[derive(Drop)]
pub(crate) struct Numbered {
    /// The numbers of the placements.
    pub(crate) live: Vec<u32>,
    /// The items with their bounds.
    pub(crate) bounds: Vec<Bound>,
    /// The numbers of the pins.
    pub(crate) pins: Vec<u32>,
}

impl Numbered {
    /// The design of these parts, by numbers. New numbers go to placements first, then to pins.
    ///
    /// Fails only with `Memory`, or with `Spent` if the placements that have numbers already, and the placements and pins of
    /// the parts, are together more than there are numbers.
    pub(crate) fn of(names: &mut Interner, parts: Parts) -> Result<Numbered, Refusal>
        ensures right { (d : Layout) → ArePartsOf d parts.places.items parts.pins.items parts.bounds.items → IfOk result (λ s. IsRight (record { placements = names.new; live = s.live.items; bounds = s.bounds.items; pins = s.pins.items }) d) }
        ensures grows { GoesOn names.old names.new }
        ensures order { (d : Layout) → ArePartsOf d parts.places.items parts.pins.items parts.bounds.items → GivesInOrder d names.old names.new }
        ensures spent { (d : Layout) → ArePartsOf d parts.places.items parts.pins.items parts.bounds.items → result ≡ Err Refusal.Spent → IsSpent names.old d }
        ensures many { result ≡ Err Refusal.Spent → 2 ^ 32 < length names.old + length parts.places.items + length parts.pins.items }
        ensures why { IfErr result (λ e. (e ≡ Refusal.Spent) ⊎ (e ≡ Refusal.Memory)) }
    {
        let live = names.give_all(&parts.places)?;
        let pins = names.give_all(&parts.pins)?;
        Ok(Numbered {
            live,
            bounds: parts.bounds,
            pins,
        })
    }
}
