//! Tests whether designs, or parts of designs, are equal. Nothing here allocates.
ghost use Rattle.std.specs.Prelude.{◌≡◌, ◌↔◌, IsTrue};

use crate::cells_set::CellsSet;
use crate::copies::Copies;
use crate::mode::Mode;
use crate::name::Name;
use crate::spec::Spec;
use poly_grid::{Cell, Grid};
use poly_shape::{Cells, Shape};
use std::collections::BTreeMap;

pub(crate) fn same_grid(a: Grid, b: Grid) -> bool
    ensures { IsTrue result ↔ (a ≡ b) }
{
    a == b
}

pub(crate) fn same_modes(a: &BTreeMap<Cell, Mode>, b: &BTreeMap<Cell, Mode>) -> bool
    ensures { IsTrue result ↔ (a.now.entries ≡ b.now.entries) }
{
    let mut others = b.iter();
    for (cell, mode) in a {
        let Some((other, there)) = others.next() else {
            return false;
        };
        if !(same_cell(*cell, *other) && same_mode(*mode, *there)) {
            return false;
        }
    }
    others.next().is_none()
}

pub(crate) fn same_pieces(a: &BTreeMap<Name, Spec>, b: &BTreeMap<Name, Spec>) -> bool
    ensures { IsTrue result ↔ (a.now.entries ≡ b.now.entries) }
{
    let mut others = b.iter();
    for (name, spec) in a {
        let Some((other, there)) = others.next() else {
            return false;
        };
        if !(same_name(*name, *other) && same_spec(spec, there)) {
            return false;
        }
    }
    others.next().is_none()
}

pub(crate) fn same_cell(a: Cell, b: Cell) -> bool
    ensures { IsTrue result ↔ (a ≡ b) }
{
    a.x() == b.x() && a.y() == b.y()
}

pub(crate) fn same_mode(a: Mode, b: Mode) -> bool
    ensures { IsTrue result ↔ (a ≡ b) }
{
    a == b
}

pub(crate) fn same_name(a: Name, b: Name) -> bool
    ensures { IsTrue result ↔ (a ≡ b) }
{
    a == b
}

// Whether the pieces are equal or both missing.
pub(crate) fn same_piece(a: &Option<Spec>, b: &Option<Spec>) -> bool
    ensures { IsTrue result ↔ (a.now ≡ b.now) }
{
    match a {
        None => b.is_none(),
        Some(a) => match b {
            None => false,
            Some(b) => same_spec(a, b),
        },
    }
}

fn same_spec(a: &Spec, b: &Spec) -> bool
    ensures { IsTrue result ↔ (a.now ≡ b.now) }
{
    same_shape(a.shape, b.shape)
        && same_copies(a.copies, b.copies)
        && a.mirror == b.mirror
        && same_pin(a.pin, b.pin)
        && same_sets(&a.forbidden, &b.forbidden)
}

fn same_shape(a: Shape, b: Shape) -> bool
    ensures { IsTrue result ↔ (a ≡ b) }
{
    same_grid(a.grid(), b.grid()) && same_cells(a.cells(), b.cells())
}

pub(crate) fn same_copies(a: Copies, b: Copies) -> bool
    ensures { IsTrue result ↔ (a ≡ b) }
{
    a.least() == b.least() && a.most() == b.most()
}

pub(crate) fn same_pin(a: Option<Cells>, b: Option<Cells>) -> bool
    ensures { IsTrue result ↔ (a ≡ b) }
{
    match a {
        None => b.is_none(),
        Some(a) => match b {
            None => false,
            Some(b) => same_cells(a, b),
        },
    }
}

fn same_cells(a: Cells, b: Cells) -> bool
    ensures { IsTrue result ↔ (a ≡ b) }
{
    a == b
}

fn same_sets(a: &CellsSet, b: &CellsSet) -> bool
    ensures { IsTrue result ↔ (a.now ≡ b.now) }
{
    a.as_slice() == b.as_slice()
}
