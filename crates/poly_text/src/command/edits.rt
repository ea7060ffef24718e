//! Reads the commands that ask for an edit.
//!
//! Each public function takes the words after the first one and returns the command of its form. It fails with the first of
//! the causes that `asked` lists, but never with `Memory`.
ghost use Rattle.std.specs.Prelude.{◌≡◌, ◌∷◌, codes, map};
ghost use Rattle.poly_grid.specs.declared.grid.Grid as grid;
ghost use Rattle.poly_text.specs.Commands.{CommandSays, NamedSays};
ghost use Rattle.poly_grid.specs.declared.refusal.Refusal.TheVariants.{BadCommand};
ghost use Rattle.poly_text.specs.Fields.{copies_of};
ghost use Rattle.poly_text.specs.Gives.{Follows, ok_or};
ghost use Rattle.poly_text.specs.Piece.{ShapeSays};
ghost use Rattle.poly_text.specs.Sets.{SetSays};
ghost use Rattle.poly_text.specs.Words.{cells_of, number_of};

use crate::command::Command;
use crate::words::{
    ROOM, cell_of, cells_of, mode_of, name_of, need_of, number_of, read_set, switch_of,
};
use poly_design::{Copies, Edit, Name};
use poly_grid::{Cell, Grid, Refusal};
use poly_shape::{Cells, Shape};

/// `add NAME required/optional on/off CELL..`
pub fn add(grid: Grid, words: &[&[u8]]) -> Result<Command, Refusal>
    ensures { CommandSays grid (codes "add" ∷ map (λ w. w.now) words.now) result }
{
    let [name, need, mirror, cells @ ..] = words else {
        return Err(Refusal::BadCommand);
    };
    if cells.is_empty() {
        return Err(Refusal::BadCommand);
    }
    let need = need_of(need).ok_or(Refusal::BadCommand)?;
    let mirror = switch_of(mirror).ok_or(Refusal::BadCommand)?;
    let name = name_of(name).ok_or(Refusal::BadName)?;
    let shape = shape_of(grid, cells)?;
    Ok(Command::Edit(Edit::Add {
        name,
        shape,
        need,
        mirror,
    }))
}

/// `drop NAME`
pub fn drop_piece(words: &[&[u8]]) -> Result<Command, Refusal>
    ensures { (g : grid.Grid) → CommandSays g (codes "drop" ∷ map (λ w. w.now) words.now) result }
{
    let [name] = words else {
        return Err(Refusal::BadCommand);
    };
    let name = name_of(name).ok_or(Refusal::BadName)?;
    Ok(Command::Edit(Edit::Drop { name }))
}

/// `need NAME required/optional`
pub fn need(words: &[&[u8]]) -> Result<Command, Refusal>
    ensures { (g : grid.Grid) → CommandSays g (codes "need" ∷ map (λ w. w.now) words.now) result }
{
    let [name, need] = words else {
        return Err(Refusal::BadCommand);
    };
    let need = need_of(need).ok_or(Refusal::BadCommand)?;
    let name = name_of(name).ok_or(Refusal::BadName)?;
    Ok(Command::Edit(Edit::Need { name, need }))
}

/// `copies NAME a b`
pub fn copies(words: &[&[u8]]) -> Result<Command, Refusal>
    ensures { (g : grid.Grid) → CommandSays g (codes "copies" ∷ map (λ w. w.now) words.now) result }
{
    let [name, least, most] = words else {
        return Err(Refusal::BadCommand);
    };
    let name = name_of(name).ok_or(Refusal::BadName)?;
    match copies_of(least, most) {
        Ok(copies) => Ok(Command::Edit(Edit::Copies { name, copies })),
        Err(refusal) => Err(refusal),
    }
}

/// `mirror NAME on/off`
pub fn mirror(words: &[&[u8]]) -> Result<Command, Refusal>
    ensures { (g : grid.Grid) → CommandSays g (codes "mirror" ∷ map (λ w. w.now) words.now) result }
{
    let [name, mirror] = words else {
        return Err(Refusal::BadCommand);
    };
    let mirror = switch_of(mirror).ok_or(Refusal::BadCommand)?;
    let name = name_of(name).ok_or(Refusal::BadName)?;
    Ok(Command::Edit(Edit::Mirror { name, mirror }))
}

/// `cell CELL required/optional/blocked`
pub fn cell(words: &[&[u8]]) -> Result<Command, Refusal>
    ensures { (g : grid.Grid) → CommandSays g (codes "cell" ∷ map (λ w. w.now) words.now) result }
{
    let [cell, mode] = words else {
        return Err(Refusal::BadCommand);
    };
    let mode = mode_of(mode).ok_or(Refusal::BadCommand)?;
    let cell = cell_of(cell)?;
    Ok(Command::Edit(Edit::Cell { cell, mode }))
}

/// `pin NAME CELL..`
pub fn pin(words: &[&[u8]]) -> Result<Command, Refusal>
    ensures { (g : grid.Grid) → CommandSays g (codes "pin" ∷ map (λ w. w.now) words.now) result }
{
    let (name, cells) = named_cells(words)?;
    Ok(Command::Edit(Edit::Pin { name, cells }))
}

/// `unpin NAME`
pub fn unpin(words: &[&[u8]]) -> Result<Command, Refusal>
    ensures { (g : grid.Grid) → CommandSays g (codes "unpin" ∷ map (λ w. w.now) words.now) result }
{
    let [name] = words else {
        return Err(Refusal::BadCommand);
    };
    let name = name_of(name).ok_or(Refusal::BadName)?;
    Ok(Command::Edit(Edit::Unpin { name }))
}

/// `forbid NAME CELL..`
pub fn forbid(words: &[&[u8]]) -> Result<Command, Refusal>
    ensures { (g : grid.Grid) → CommandSays g (codes "forbid" ∷ map (λ w. w.now) words.now) result }
{
    let (name, cells) = named_cells(words)?;
    Ok(Command::Edit(Edit::Forbid { name, cells }))
}

/// `allow NAME CELL..`
pub fn allow(words: &[&[u8]]) -> Result<Command, Refusal>
    ensures { (g : grid.Grid) → CommandSays g (codes "allow" ∷ map (λ w. w.now) words.now) result }
{
    let (name, cells) = named_cells(words)?;
    Ok(Command::Edit(Edit::Allow { name, cells }))
}

// Reads `NAME CELL..`, which follows the word `pin`, `forbid` or `allow`. Returns the name and the set of the cells.
fn named_cells(words: &[&[u8]]) -> Result<(Name, Cells), Refusal>
    ensures { NamedSays (map (λ w. w.now) words.now) result }
{
    let [name, cells @ ..] = words else {
        return Err(Refusal::BadCommand);
    };
    if cells.is_empty() {
        return Err(Refusal::BadCommand);
    }
    let name = name_of(name).ok_or(Refusal::BadName)?;
    let set = set_of(cells)?;
    Ok((name, set))
}

// The bounds that the two words give. Fails with `BadCommand` if a word isn't a number, if the least is above the most, or
// if the most is over 16. A number over `u64::MAX` is read as `u64::MAX`, which is over 16 too.
fn copies_of(least: &[u8], most: &[u8]) -> Result<Copies, Refusal>
    ensures { Follows (ok_or (number_of least.now) BadCommand) (λ l. Follows (ok_or (number_of most.now) BadCommand) (λ m. result ≡ ok_or (copies_of l m) BadCommand) result) result }
{
    let least = number_of(least).ok_or(Refusal::BadCommand)?;
    let most = number_of(most).ok_or(Refusal::BadCommand)?;
    Copies::new(least, most).ok_or(Refusal::BadCommand)
}

// The set of the cells that the words name. Fails as `cell_of` does on the leftmost word that names no cell, and otherwise
// with `BadShape` if there are no cells, over 16 cells, or a cell twice.
fn set_of(words: &[&[u8]]) -> Result<Cells, Refusal>
    ensures { Follows (cells_of (map (λ w. w.now) words.now)) (λ cells. SetSays cells result) result }
{
    read_set(words)?.ok_or(Refusal::BadShape)
}

// The shape of the cells that the words name. Fails as `cell_of` does on the leftmost word that names no cell, and otherwise
// with `BadShape` if the cells make no shape.
fn shape_of(grid: Grid, words: &[&[u8]]) -> Result<Shape, Refusal>
    ensures { Follows (cells_of (map (λ w. w.now) words.now)) (λ cells. ShapeSays grid cells result) result }
{
    let mut room = [Cell::ORIGIN; ROOM];
    let count = cells_of(words, &mut room)?;
    let cells = &room[..];
    Shape::from_cells(grid, &cells[..count])
}
