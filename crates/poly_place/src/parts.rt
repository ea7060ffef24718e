//! A design as its lists: placements, pins, and items with their bounds.
ghost use Rattle.std.specs.Prelude.{◌≡◌, ◌≤◌, ◌++◌, OnOk, IfOk, IfErr, length};
ghost use Rattle.poly_design.specs.Limits.{IsDesign};
ghost use Rattle.poly_design.specs.Listed.{IsListOf};
ghost use Rattle.poly_design.specs.PlacementOrder.{placement_cmp};
ghost use Rattle.poly_tiling.specs.Tilings.{IsPin};
ghost use Rattle.poly_place.specs.Parts.{ArePartsOf};
ghost use Rattle.poly_place.specs.Pins.{pin_list};
ghost use Rattle.poly_design.specs.declared.design.TheConstants.{MAX_PIECES};

use poly_design::{Design, Name, Placement, Spec};
use poly_grid::Refusal;
use poly_tiling::{Bound, item_list};
use std::alloc::Global;

/// A design's placements and pins, both in placement order, and its items with their bounds, in item order.
#[derive(Drop)]
pub(crate) struct Parts {
    /// The placements.
    pub(crate) places: Vec<Placement>,
    /// The pins, whether or not they are placements of the design.
    pub(crate) pins: Vec<Placement>,
    /// The items with their bounds.
    pub(crate) bounds: Vec<Bound>,
}

impl Parts {
    /// The parts of the design. The only refusal is `Memory`.
    pub(crate) fn of(alloc: Global, design: &Design) -> Result<Parts, Refusal>
        ensures ok { IfOk result (λ parts. ArePartsOf design.now parts.places.items parts.pins.items parts.bounds.items) }
        ensures why { IfErr result (λ e. e ≡ Refusal.Memory) }
    {
        let places = design.places()?;
        let pins = pins(alloc, design)?;
        let bounds = item_list(alloc, design)?;
        Ok(Parts {
            places,
            pins,
            bounds,
        })
    }
}

/// The pins, in placement order. The only refusal is `Memory`.
pub(crate) fn pins(alloc: Global, design: &Design) -> Result<Vec<Placement>, Refusal>
    ensures ok { IfOk result (λ list. IsListOf placement_cmp (IsPin design.now) list.items) }
    ensures few { IfOk result (λ list. length list.items ≤ MAX_PIECES) }
    ensures design { OnOk result (IsDesign design.now) }
    ensures why { IfErr result (λ e. e ≡ Refusal.Memory) }
{
    let mut pins = Vec::new(alloc);
    for (name, spec) in design.pieces() {
        add_pin(&mut pins, *name, spec)?;
    }
    Ok(pins)
}

fn add_pin(pins: &mut Vec<Placement>, name: Name, spec: &Spec) -> Result<(), Refusal>
    ensures ok { OnOk result (pins.new.items ≡ pins.old.items ++ pin_list (name, spec.now)) }
    ensures why { IfErr result (λ e. e ≡ Refusal.Memory) }
{
    match spec.pin {
        None => Ok(()),
        Some(cells) => {
            pins.push(Placement { name, cells })?;
            Ok(())
        }
    }
}
