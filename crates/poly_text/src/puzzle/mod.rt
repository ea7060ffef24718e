//! Puzzle lines: one line of JSON that gives a design.
ghost use Rattle.std.specs.Prelude.{◌≡◌};
ghost use Rattle.serde_json.specs.View.{view};
ghost use Rattle.poly_grid.specs.declared.refusal.Refusal.TheVariants.{BadJson};
ghost use Rattle.poly_text.specs.Gives.{ok_or, Gives, GivesBy};
ghost use Rattle.poly_text.specs.Puzzle.{json_of, PuzzleSays, DesignSays};

use crate::puzzle::board::cells_of_rows;
use crate::puzzle::head::head_of;
use crate::puzzle::piece::pieces_of;
use poly_design::Design;
use poly_grid::Refusal;
use serde_json::Value;
use std::alloc::Global;

mod board;
mod fields;
mod head;
mod json;
mod piece;

// The line as a value of JSON. Fails with `BadJson` or `Memory`.
fn json_of(alloc: Global, line: &[u8]) -> Result<Value, Refusal>
    ensures { Gives view result (ok_or (json_of line.now) BadJson) }
{
    match Value::from_slice(alloc, line) {
        Ok(value) => Ok(value),
        Err(error) => {
            if error.is_memory() {
                return Err(Refusal::Memory);
            }
            Err(Refusal::BadJson)
        }
    }
}

/// Returns the design that the puzzle line gives: it has no pins, and nothing is forbidden.
///
/// Fails with the first of these causes:
///
/// 1. `BadJson` if the line is not valid JSON or nests more than 127 deep;
/// 2. `BadField` if the line is not an object, or if a key of it is missing or unknown, or has a value of the wrong kind;
/// 3. `BadFormat` if the format is neither 1 nor 2; then `BadGrid` if the grid is neither `square` nor `hex`;
/// 4. `BadBoard` if there are over 64 rows, a row of over 64 characters, or a character other than `#`, `+` and `.`;
/// 5. `TooManyCells` if over 256 cells are not blocked; then `TooManyPieces` if there are over 64 pieces;
/// 6. piece by piece: `BadField` if a key of the piece is missing or unknown, or has a value of the wrong kind, if `need` is
///    neither `required` nor `optional`, if `least` is above `most`, or if `most` is over 16; `BadName` if the name isn't 1
///    to 16 of `A-Z a-z 0-9 _`; `BadCell` if a coordinate is outside 0 to 63; `BadShape` if the cells aren't 1 to 16
///    different, connected cells; `NameTaken` if an earlier piece has the name;
/// 7. `TooManyPlacements` if there are over 20,000 placements.
///
/// `Memory` may come in place of any result.
pub fn puzzle_of(alloc: Global, line: &[u8]) -> Result<Design, Refusal>
    ensures { GivesBy (λ d. d) result (PuzzleSays line.now) }
{
    let value = json_of(alloc, line)?;
    let head = head_of(&value)?;
    let pieces = pieces_of(alloc, head.format, head.grid, head.pieces)?;
    let cells = cells_of_rows(alloc, head.rows)?;
    Design::of_parts(alloc, head.grid, cells, pieces)
}
