//! The two maps of a design: updating the entry of one cell or of one piece, and copying.
ghost use Rattle.std.specs.Prelude.{◌≡◌, IfOk, IfErr, OnOk, OnErr};
ghost use Rattle.std.specs.List.{All};
ghost use Rattle.std.specs.BTreeMap.{keys};
ghost use Rattle.poly_design.specs.Changes.{set_mode, set_spec};
ghost use Rattle.poly_design.specs.Limits.{IsInRange};

use crate::mode::Mode;
use crate::name::Name;
use crate::spec::Spec;
use poly_grid::{Cell, Refusal, SIDE};
use std::alloc::Global;
use std::collections::BTreeMap;

pub(crate) fn put_mode(
    cells: &mut BTreeMap<Cell, Mode>,
    cell: Cell,
    mode: Mode,
) -> Result<(), Refusal>
    ensures ok { OnOk result (cells.new.entries ≡ set_mode cells.old.entries cell mode) }
    ensures in_range { OnOk result (All IsInRange (keys cells.old) → All IsInRange (keys cells.new)) }
    ensures err { OnErr result (cells.new.entries ≡ cells.old.entries) }
    ensures why { IfErr result (λ e. e ≡ Refusal.Memory) }
{
    prove!(cell.x() < SIDE as u8);
    prove!(cell.y() < SIDE as u8);
    match mode {
        Mode::Required => {
            cells.insert(cell, Mode::Required)?;
            Ok(())
        }
        Mode::Optional => {
            cells.insert(cell, Mode::Optional)?;
            Ok(())
        }
        Mode::Blocked => {
            cells.remove(&cell);
            Ok(())
        }
    }
}

pub(crate) fn put_spec(
    pieces: &mut BTreeMap<Name, Spec>,
    name: Name,
    spec: &Option<Spec>,
) -> Result<(), Refusal>
    ensures ok { OnOk result (pieces.new.entries ≡ set_spec pieces.old.entries name spec.now) }
    ensures err { OnErr result (pieces.new.entries ≡ pieces.old.entries) }
    ensures why { IfErr result (λ e. e ≡ Refusal.Memory) }
{
    match spec {
        Some(spec) => {
            let copy = spec.copy()?;
            pieces.insert(name, copy)?;
            Ok(())
        }
        None => {
            pieces.remove(&name);
            Ok(())
        }
    }
}

pub(crate) fn copy_cells(
    alloc: Global,
    cells: &BTreeMap<Cell, Mode>,
) -> Result<BTreeMap<Cell, Mode>, Refusal>
    ensures ok { IfOk result (λ copy. copy.entries ≡ cells.now.entries) }
    ensures why { IfErr result (λ e. e ≡ Refusal.Memory) }
{
    let mut copy = BTreeMap::new(alloc);
    for (cell, mode) in cells {
        copy.insert(*cell, *mode)?;
    }
    Ok(copy)
}

pub(crate) fn copy_pieces(
    alloc: Global,
    pieces: &BTreeMap<Name, Spec>,
) -> Result<BTreeMap<Name, Spec>, Refusal>
    ensures ok { IfOk result (λ copy. copy.entries ≡ pieces.now.entries) }
    ensures why { IfErr result (λ e. e ≡ Refusal.Memory) }
{
    let mut copy = BTreeMap::new(alloc);
    for (name, spec) in pieces {
        let spec = spec.copy()?;
        copy.insert(*name, spec)?;
    }
    Ok(copy)
}
