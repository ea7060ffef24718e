//! The outer object of a puzzle line.
ghost use Rattle.std.specs.Prelude.{◌≡◌, ◌≤◌, List, length, map, option_map, IfOk};
ghost use Rattle.serde_json.specs.View.{view};
ghost use Rattle.poly_text.specs.Gives.{seen};
ghost use Rattle.poly_text.specs.Head.{format_of, grid_of, head_of, IsWithin};
ghost use Rattle.poly_text.specs.Outer.{outer_of};
ghost use Rattle.poly_text.specs.Views.{views, outer_view, head_view};

use crate::puzzle::board::{is_board, is_small};
use crate::puzzle::json::{are_objects, are_texts, count, is_whole, list_at, text_at};
use poly_design::MAX_PIECES;
use poly_grid::{Grid, Refusal};
use serde_json::Value;

/// How the pieces of a puzzle line give their copies.
#[derive(Clone, Copy, Debug, PartialEq, Eq)]
pub enum Format {
    /// By `need`: one copy, or at most one.
    One,
    /// By `least` and `most`.
    Two,
}

// The outer object, each key with a value of the right kind.
#[derive(Clone, Copy)]
struct Outer<'v> {
    // `None` for a negative number
    format: Option<u64>,
    grid: &'v str,
    board: &'v [Value],
    pieces: &'v [Value],
}

/// The outer object, with everything checked except what each piece says.
#[derive(Clone, Copy)]
pub struct Head<'v> {
    /// How the pieces give their copies.
    pub format: Format,
    /// The grid of the board and the pieces.
    pub grid: Grid,
    /// The rows of the board: a text each, within the limits of a board.
    pub rows: &'v [Value],
    /// The pieces, at most 64 objects that are not checked yet.
    pub pieces: &'v [Value],
}

// The outer object of the value, if it has exactly the keys `format`, `grid`, `board` and `pieces`, each with a value of the
// right kind.
#[tactic(auto, using(crate::proofs::Testing::list_all_views), unfolding(crate::specs::Outer::outer_of))]
fn outer_of(value: &Value) -> Option<Outer<'_>>
    ensures { option_map outer_view result ≡ outer_of (view value.now) }
{
    let map = value.as_object()?;
    let format = value.get("format")?;
    let grid = text_at(value, "grid")?;
    let board = list_at(value, "board")?;
    let pieces = list_at(value, "pieces")?;
    if count(map) == 4 && is_whole(format) && are_texts(board) && are_objects(pieces) {
        Some(Outer {
            format: format.as_u64(),
            grid,
            board,
            pieces,
        })
    } else {
        None
    }
}

fn format_of(number: Option<u64>) -> Option<Format>
    ensures { result ≡ format_of number }
{
    match number {
        Some(1) => Some(Format::One),
        Some(2) => Some(Format::Two),
        _ => None,
    }
}

fn grid_of(name: &str) -> Option<Grid>
    ensures { result ≡ grid_of name.now }
{
    if name == "square" {
        Some(Grid::Square)
    } else if name == "hex" {
        Some(Grid::Hex)
    } else {
        None
    }
}

/// Returns the outer object of the value. Never allocates.
///
/// Fails with the first of these causes: `BadField` if the value is not an object, or if a key of it is missing or unknown,
/// or has a value of the wrong kind; `BadFormat` if the format is neither 1 nor 2; `BadGrid` if the grid is neither `square`
/// nor `hex`; `BadBoard` if the rows fail `is_board`; `TooManyCells` if over 256 cells are not blocked; `TooManyPieces` if
/// there are over 64 pieces.
#[tactic(auto, using(crate::proofs::Testing::length_views), unfolding(crate::specs::Head::head_of))]
pub fn head_of(value: &Value) -> Result<Head<'_>, Refusal>
    ensures head { seen head_view result ≡ head_of (view value.now) }
    ensures within { IfOk result (λ h. IsWithin (head_view h)) }
{
    let outer = outer_of(value).ok_or(Refusal::BadField)?;
    let format = format_of(outer.format).ok_or(Refusal::BadFormat)?;
    let grid = grid_of(outer.grid).ok_or(Refusal::BadGrid)?;
    if !is_board(outer.board) {
        return Err(Refusal::BadBoard);
    }
    if !is_small(outer.board) {
        return Err(Refusal::TooManyCells);
    }
    if outer.pieces.len() > MAX_PIECES {
        return Err(Refusal::TooManyPieces);
    }
    Ok(Head {
        format,
        grid,
        rows: outer.board,
        pieces: outer.pieces,
    })
}
