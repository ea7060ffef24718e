//! Lists a whole family, one sweep after another.
//!
//! As in the worker's step, large values are dropped by name.
ghost use Rattle.std.specs.Prelude.{◌≡◌, ◌⊎◌, ◌≤◌, [], length, IfOk, IfErr, Err, OnOk};
ghost use Rattle.poly_frame.specs.Matrices.{IsWhole};
ghost use Rattle.poly_report.specs.Gather.{lists};
ghost use Rattle.poly_search.specs.Sweeps.{IsLighter, Swept};
ghost use Rattle.poly_search.specs.Whole.{HasMore, IsFamily};

use crate::lister::{Listing, sweep};
use poly_atom::Atom;
use poly_grid::Refusal;
use poly_report::{DEPTH, Frame, Matrix, Room, STEPS};
use poly_tiling::{MAX_TILINGS, Tiling, View};
use std::alloc::Global;

/// All tilings of the view that meet the atoms, each once, in no particular order.
///
/// If there are over 1,000,000, fails with `CatalogueFull` or `Memory`; otherwise fails only with `Memory`.
pub fn search_all(alloc: Global, view: &View, atoms: &[Atom]) -> Result<Vec<Tiling>, Refusal>
    ensures all { IfOk result (λ found. IsFamily view.now atoms.now found.items) }
    ensures few { IfOk result (λ found. length found.items ≤ MAX_TILINGS) }
    ensures too_many { result ≡ Err Refusal.CatalogueFull → HasMore view.now atoms.now MAX_TILINGS }
    ensures why { IfErr result (λ e. (e ≡ Refusal.CatalogueFull) ⊎ (e ≡ Refusal.Memory)) }
{
    let mut list = Listing {
        found: Vec::new(alloc),
        rests: Vec::new(alloc),
        options: Vec::new(alloc),
    };
    sweep_all(alloc, view, atoms, &mut list)?;
    Ok(list.found)
}

// Sweeps the family of these atoms, and then each rest that a sweep left, until none is left. At first the list is to be empty.
fn sweep_all(alloc: Global, view: &View, atoms: &[Atom], list: &mut Listing) -> Result<(), Refusal>
    requires found { list.old.found.items ≡ [] }
    requires rests { list.old.rests.items ≡ [] }
    ensures all { OnOk result (IsFamily view.now atoms.now list.new.found.items) }
    ensures few { OnOk result (length list.new.found.items ≤ MAX_TILINGS) }
    ensures too_many { result ≡ Err Refusal.CatalogueFull → HasMore view.now atoms.now MAX_TILINGS }
    ensures why { IfErr result (λ e. (e ≡ Refusal.CatalogueFull) ⊎ (e ≡ Refusal.Memory)) }
{
    let whole = Matrix::new(alloc, view)?;
    let mut room = Room::new(alloc);
    let swept = sweep_each(alloc, view, &whole, atoms, list, &mut room);
    drop(room);
    drop(whole);
    swept
}

// Sweeps what `sweep_all` sweeps, with the view's matrix and the memory of `room`. Refuses what `sweep_all` refuses.
fn sweep_each(
    alloc: Global,
    view: &View,
    whole: &Matrix,
    atoms: &[Atom],
    list: &mut Listing,
    room: &mut Room,
) -> Result<(), Refusal>
    requires whole { IsWhole view.now whole.now }
    requires found { list.old.found.items ≡ [] }
    requires rests { list.old.rests.items ≡ [] }
    ensures all { OnOk result (IsFamily view.now atoms.now list.new.found.items) }
    ensures few { OnOk result (length list.new.found.items ≤ MAX_TILINGS) }
    ensures too_many { result ≡ Err Refusal.CatalogueFull → HasMore view.now atoms.now MAX_TILINGS }
    ensures why { IfErr result (λ e. (e ≡ Refusal.CatalogueFull) ⊎ (e ≡ Refusal.Memory)) }
{
    list.rests.push(Vec::from_slice(alloc, atoms)?)?;
    while let Some(next) = list.rests.pop() {
        sweep_rest(alloc, view, whole, &next, list, room)?;
        if list.found.len() > MAX_TILINGS {
            return Err(Refusal::CatalogueFull);
        }
    }
    Ok(())
}

// Sweeps the family of these atoms. The frame uses the memory of `room`, and leaves it there for the next one.
fn sweep_rest(
    alloc: Global,
    view: &View,
    whole: &Matrix,
    atoms: &[Atom],
    list: &mut Listing,
    room: &mut Room,
) -> Result<(), Refusal>
    requires { IsWhole view.now whole.now }
    ensures swept { OnOk result (Swept view.now atoms.now list.old.found.items list.new.found.items (lists list.old.rests.items) (lists list.new.rests.items)) }
    ensures lighter { OnOk result (IsLighter view.now atoms.now (lists list.old.rests.items) (lists list.new.rests.items)) }
    ensures why { IfErr result (λ e. e ≡ Refusal.Memory) }
{
    let mut frame = Frame::within(alloc, view, whole, whole, atoms, room.take(alloc))?;
    let end = frame.level() + STEPS;
    let swept = sweep(alloc, &mut frame, list, end, DEPTH);
    let (own, left) = frame.into_parts(alloc);
    drop(own);
    room.put_back(left);
    swept?;
    Ok(())
}
