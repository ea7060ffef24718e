//! The pieces of a puzzle line.
ghost use Rattle.std.specs.Prelude.{◌≡◌, ◌↔◌, ◌≤◌, ◌+◌, ◌⊎◌, List, ℕ, [], length, map, is_some, IfOk};
ghost use Rattle.std.specs.BTreeMap.{btree_map_len};
ghost use Rattle.serde_json.specs.View.{view};
ghost use Rattle.poly_design.specs.Limits.{AreOfGrid};
ghost use Rattle.poly_text.specs.Fields.{cells_of};
ghost use Rattle.poly_text.specs.Gives.{ok_or, Gives, GivesBy};
ghost use Rattle.poly_text.specs.Names.{name_of};
ghost use Rattle.poly_text.specs.Piece.{said_of, ShapeSays, SpecSays, PiecesSay, has_name, spec_of, new_spec};
ghost use Rattle.poly_text.specs.Views.{views, said_view};
ghost use Rattle.poly_grid.specs.declared.refusal.Refusal.TheVariants.{BadCell};

use crate::puzzle::fields::{cell_of, fields_of};
use crate::puzzle::head::Format;
use crate::words::name_of;
use poly_design::{CellsSet, Copies, Name, Spec};
use poly_grid::{Cell, Grid, Refusal};
use poly_shape::Shape;
use serde_json::Value;
use std::alloc::Global;
use std::collections::BTreeMap;

// What a piece object says, before its cells are judged as a shape.
#[derive(Drop)]
struct Said {
    name: Name,
    cells: Vec<Cell>,
    copies: Copies,
    mirror: bool,
}

// The cells of the pairs. Fails with `BadCell` or `Memory`.
fn cells_of(alloc: Global, values: &[Value]) -> Result<Vec<Cell>, Refusal>
    ensures { Gives (λ v. v.items) result (ok_or (cells_of (views values.now)) BadCell) }
{
    let mut cells = Vec::new(alloc);
    for value in values {
        let Some(cell) = cell_of(value) else {
            return Err(Refusal::BadCell);
        };
        cells.push(cell)?;
    }
    Ok(cells)
}

// What the piece object says. Fails with `BadField`, `BadName`, `BadCell` or `Memory`.
#[tactic(auto, unfolding(crate::specs::Piece::said_of))]
fn said_of(alloc: Global, format: Format, value: &Value) -> Result<Said, Refusal>
    ensures { Gives said_view result (said_of format (view value.now)) }
{
    let Some(fields) = fields_of(format, value) else {
        return Err(Refusal::BadField);
    };
    let name = name_of(fields.name.as_bytes()).ok_or(Refusal::BadName)?;
    let cells = cells_of(alloc, fields.cells)?;
    Ok(Said {
        name,
        cells,
        copies: fields.copies,
        mirror: fields.mirror,
    })
}

// Whether a piece of that name was read already.
fn has_name(taken: &BTreeMap<Name, Spec>, name: &Name) -> bool
    ensures { result ≡ has_name taken.now.entries name.now }
{
    taken.contains_key(name)
}

// The shape of the cells. Fails with `BadShape`.
fn shape_of(grid: Grid, cells: &[Cell]) -> Result<Shape, Refusal>
    ensures { ShapeSays grid cells.now result }
{
    Shape::from_cells(grid, cells)
}

// The piece, which has no pin and nothing forbidden. Fails with `BadShape`, or otherwise with `NameTaken` if an earlier piece
// has its name.
fn spec_of(
    alloc: Global,
    grid: Grid,
    taken: &BTreeMap<Name, Spec>,
    said: &Said,
) -> Result<Spec, Refusal>
    ensures { SpecSays grid taken.now.entries (said_view said.now) result }
{
    let shape = shape_of(grid, said.cells.as_slice())?;
    if has_name(taken, &said.name) {
        return Err(Refusal::NameTaken);
    }
    Ok(Spec {
        shape,
        copies: said.copies,
        mirror: said.mirror,
        pin: None,
        forbidden: CellsSet::new(alloc),
    })
}

/// Returns the pieces of the list by their names. Fails with the first refusal: for each piece in turn `BadField`, `BadName`,
/// `BadCell`, `BadShape` or `NameTaken`, for the causes that `puzzle_of` lists. `Memory` may come in place of any result.
pub fn pieces_of(
    alloc: Global,
    format: Format,
    grid: Grid,
    values: &[Value],
) -> Result<BTreeMap<Name, Spec>, Refusal>
    ensures says { GivesBy (λ m. m.entries) result (PiecesSay format grid (views values.now) []) }
    ensures few { IfOk result (λ m. btree_map_len m ≤ length values.now) }
    ensures of_grid { IfOk result (λ m. AreOfGrid grid m.entries) }
{
    let mut taken = BTreeMap::new(alloc);
    for value in values {
        let said = said_of(alloc, format, value)?;
        let spec = spec_of(alloc, grid, &taken, &said)?;
        taken.insert(said.name, spec)?;
    }
    Ok(taken)
}
