//! The view that is made from a design alone: the design's placements are numbered in placement order. Also the list of a
//! design's items with their bounds.
ghost use Rattle.std.specs.Prelude.{IfErr, IfOk, List, OnOk, length, map, nat_eq, nat_le, true, ◌&&◌, ◌++◌, ◌+◌, ◌<◌, ◌^◌, ◌≡◌, ◌≢◌, ◌≤◌};
ghost use Rattle.std.specs.Cmp.Lexicographic.{pointwise};
ghost use Rattle.std.specs.List.{AllPairs, list_all, position, range_with_len};
ghost use Rattle.poly_shape.specs.Order.{spot_eq};
ghost use Rattle.poly_tiling.specs.Shows.{AddsPins, HasNumber, IsPlain, PutsPin, Shows, cell_bound, item_bounds, piece_bound};
ghost use Rattle.poly_tiling.specs.Tilings.{bounds_of_mode};
ghost use Rattle.poly_design.specs.declared.design.TheConstants.{MAX_PIECES};
ghost use Rattle.poly_design.specs.declared.listing.TheConstants.{MAX_PLACEMENTS};

use crate::bound::Bound;
use crate::item::Item;
use crate::view::View;
use poly_design::{Design, Mode, Name, Placement, Spec};
use poly_grid::{Cell, Refusal};
use poly_shape::Cells;
use std::alloc::Global;
use std::collections::BTreeMap;

impl View {
    /// The view that is made from a design alone. The number of each placement of the design is the placement's index in
    /// `Design::places`. A pin that isn't a placement of the design gets a number after these.
    ///
    /// The only refusal is `Memory`.
    pub fn plain(alloc: Global, design: &Design) -> Result<View, Refusal>
        ensures shows { IfOk result (λ view. Shows view design.now) }
        ensures plain { IfOk result (λ view. IsPlain view design.now) }
        ensures why { IfErr result (λ e. e ≡ Refusal.Memory) }
    {
        let bounds = item_list(alloc, design)?;
        let mut placements = design.places()?;
        let live = first_numbers(alloc, &placements)?;
        let pins = number_pins(alloc, design.pieces(), &mut placements)?;
        Ok(View::with(placements, live, bounds, pins))
    }
}

// The indices of the list.
fn first_numbers(alloc: Global, placements: &[Placement]) -> Result<Vec<u32>, Refusal>
    requires { length placements.now ≤ MAX_PLACEMENTS }
    ensures ok { IfOk result (λ list. list.items ≡ range_with_len 0 (length placements.now)) }
    ensures why { IfErr result (λ e. e ≡ Refusal.Memory) }
{
    let mut list = Vec::new(alloc);
    for i in 0..placements.len() {
        list.push(i as u32)?;
    }
    Ok(list)
}

/// The items of a design in item order, each with its least and its most. The only refusal is `Memory`.
pub fn item_list(alloc: Global, design: &Design) -> Result<Vec<Bound>, Refusal>
    ensures ok { IfOk result (λ list. list.items ≡ item_bounds design.now) }
    ensures small { IfOk result (λ list. list_all (λ b. nat_le b.least b.most && nat_le b.most 16) list.items ≡ true) }
    ensures why { IfErr result (λ e. e ≡ Refusal.Memory) }
{
    let mut list = Vec::new(alloc);
    add_cells(&mut list, design.cells())?;
    add_pieces(&mut list, design.pieces())?;
    Ok(list)
}

fn add_cells(list: &mut Vec<Bound>, cells: &BTreeMap<Cell, Mode>) -> Result<(), Refusal>
    ensures ok { OnOk result (list.new.items ≡ list.old.items ++ map cell_bound cells.now.entries) }
    ensures why { IfErr result (λ e. e ≡ Refusal.Memory) }
{
    for (cell, mode) in cells {
        let (least, most) = mode_bounds(*mode);
        let item = Item::Cell(*cell);
        list.push(Bound { item, least, most })?;
    }
    Ok(())
}

fn mode_bounds(mode: Mode) -> (u8, u8)
    ensures least { result.0 ≡ (bounds_of_mode mode).least }
    ensures most { result.1 ≡ (bounds_of_mode mode).most }
{
    match mode {
        Mode::Required => (1, 1),
        Mode::Optional => (0, 1),
        Mode::Blocked => (0, 0),
    }
}

fn add_pieces(list: &mut Vec<Bound>, pieces: &BTreeMap<Name, Spec>) -> Result<(), Refusal>
    ensures ok { OnOk result (list.new.items ≡ list.old.items ++ map piece_bound pieces.now.entries) }
    ensures small { OnOk result (list_all (λ b. nat_le b.least b.most && nat_le b.most 16) (map piece_bound pieces.now.entries) ≡ true) }
    ensures why { IfErr result (λ e. e ≡ Refusal.Memory) }
{
    for (name, spec) in pieces {
        let copies = spec.copies;
        list.push(Bound {
            item: Item::Piece(*name),
            least: copies.least(),
            most: copies.most(),
        })?;
    }
    Ok(())
}

// The numbers of the pins, in the order of the pieces. A pin that has no number yet gets one.
fn number_pins(
    alloc: Global,
    pieces: &BTreeMap<Name, Spec>,
    placements: &mut Vec<Placement>,
) -> Result<Vec<u32>, Refusal>
    requires few_pieces { length pieces.now.entries ≤ MAX_PIECES }
    requires few_placements { length placements.old.items ≤ MAX_PLACEMENTS }
    requires apart { AllPairs (λ p q. p ≢ q) placements.old.items }
    ensures ok { IfOk result (λ pins. AddsPins pieces.now.entries placements.old.items placements.new.items pins.items) }
    ensures why { IfErr result (λ e. e ≡ Refusal.Memory) }
{
    let mut pins = Vec::new(alloc);
    for (name, spec) in pieces {
        number_pin(*name, spec.pin, placements, &mut pins)?;
    }
    Ok(pins)
}

fn number_pin(
    name: Name,
    pin: Option<Cells>,
    placements: &mut Vec<Placement>,
    pins: &mut Vec<u32>,
) -> Result<(), Refusal>
    requires few { length placements.old.items < 30000 }
    requires apart { AllPairs (λ p q. p ≢ q) placements.old.items }
    ensures ok { OnOk result (PutsPin name pin placements.old.items placements.new.items pins.old.items pins.new.items) }
    ensures why { IfErr result (λ e. e ≡ Refusal.Memory) }
{
    let Some(cells) = pin else {
        return Ok(());
    };
    let number = number_of(placements, Placement { name, cells })?;
    pins.push(number)?;
    Ok(())
}

fn number_of(placements: &mut Vec<Placement>, placement: Placement) -> Result<u32, Refusal>
    requires few { length placements.old.items < 30000 }
    requires apart { AllPairs (λ p q. p ≢ q) placements.old.items }
    ensures ok { IfOk result (λ n. HasNumber placement placements.old.items placements.new.items n) }
    ensures why { IfErr result (λ e. e ≡ Refusal.Memory) }
{
    if let Some(at) = index_of(placements, &placement) {
        return Ok(at as u32);
    }
    let at = placements.len();
    placements.push(placement)?;
    Ok(at as u32)
}

fn index_of(placements: &[Placement], placement: &Placement) -> Option<usize>
    ensures { result ≡ position (λ p. pointwise nat_eq p.name placement.now.name && pointwise spot_eq p.cells placement.now.cells) placements.now }
{
    placements.iter().position(|p| p == placement)
}
