//! The rows of a board.
ghost use Rattle.std.specs.Prelude.{◌≡◌, ◌↔◌, ◌<◌, ◌≤◌, ◌+◌, ◌*◌, ◌++◌, IsTrue, OnOk, IfOk, IfErr, length, map, true, is_some, count_by, nat_le};
ghost use Rattle.std.specs.List.{list_all};
ghost use Rattle.serde_json.specs.View.{view};
ghost use Rattle.poly_text.specs.Board.{AreBefore, with_mode, open_mode, is_open, is_mark, is_row, is_board, row_cells, board_cells, cells_from};
ghost use Rattle.poly_text.specs.Json as json;
ghost use Rattle.poly_text.specs.Views.{rows_of};

use crate::puzzle::json::text;
use poly_design::{MAX_CELLS, Mode};
use poly_grid::{Cell, Refusal, SIDE};
use serde_json::Value;
use std::alloc::Global;
use std::collections::BTreeMap;

// The mode that a character gives its cell, or `None` if the cell is blocked.
fn open_mode(byte: u8) -> Option<Mode>
    ensures { result ≡ open_mode byte }
{
    match byte {
        b'#' => Some(Mode::Required),
        b'+' => Some(Mode::Optional),
        _ => None,
    }
}

fn is_open(byte: u8) -> bool
    ensures { result ≡ is_open byte }
{
    open_mode(byte).is_some()
}

// Whether the byte is `#`, `+` or `.`.
fn is_mark(byte: u8) -> bool
    ensures { result ≡ is_mark byte }
{
    is_open(byte) || byte == b'.'
}

// Whether the row has at most 64 bytes, each of them a mark.
fn is_row(row: &str) -> bool
    ensures { result ≡ is_row row.now }
{
    row.len() <= SIDE && are_marks(row.as_bytes())
}

fn are_marks(row: &[u8]) -> bool
    ensures { result ≡ list_all is_mark row.now }
{
    row.iter().all(|byte| is_mark(*byte))
}

fn are_rows(rows: &[Value]) -> bool
    ensures { result ≡ list_all (λ v. is_row (json.text (view v))) rows.now }
{
    rows.iter().all(|row| is_row(text(row)))
}

/// Whether there are at most 64 rows, each of at most 64 marks (`#`, `+` or `.`).
#[tactic(auto, using(crate::proofs::Testing::rows_pass, crate::proofs::Testing::rows_length))]
pub fn is_board(rows: &[Value]) -> bool
    ensures { result ≡ is_board (rows_of rows.now) }
{
    rows.len() <= SIDE && are_rows(rows)
}

// How many cells of the row are not blocked.
fn count_row(row: &[u8]) -> usize
    ensures small { result ≤ length row.now }
    ensures value { result ≡ count_by is_open row.now }
{
    row.iter().filter(|byte| is_open(**byte)).count()
}

/// Whether at most 256 cells are not blocked.
#[tactic(auto, using(crate::proofs::Boards::board_length))]
pub fn is_small(rows: &[Value]) -> bool
    ensures { result ≡ nat_le (length (board_cells (rows_of rows.now))) MAX_CELLS }
{
    let mut count = 0;
    for row in rows {
        count += count_row(text(row).as_bytes());
        if count > MAX_CELLS {
            return false;
        }
    }
    true
}

/// Returns the cells of the board that are not blocked, each with its mode. Requires rows that pass `is_board`. Fails only
/// with `Memory`.
pub fn cells_of_rows(alloc: Global, rows: &[Value]) -> Result<BTreeMap<Cell, Mode>, Refusal>
    requires { is_board (rows_of rows.now) ≡ true }
    ensures ok { IfOk result (λ m. m.entries ≡ board_cells (rows_of rows.now)) }
    ensures why { IfErr result (λ e. e ≡ Refusal.Memory) }
{
    let mut cells = BTreeMap::new(alloc);
    for y in 0..rows.len() {
        put_row(&mut cells, y as u64, text(&rows[y]).as_bytes())?;
    }
    Ok(cells)
}

// Adds the cells of row `y` that are not blocked. Each cell that is already in the map is in an earlier row.
fn put_row(cells: &mut BTreeMap<Cell, Mode>, y: u64, row: &[u8]) -> Result<(), Refusal>
    requires few { (y < SIDE) × (length row.now ≤ SIDE) }
    requires after { AreBefore (SIDE * y) cells.old.entries }
    ensures ok { OnOk result (cells.new.entries ≡ cells.old.entries ++ row_cells 0 y row.now) }
    ensures before { OnOk result (AreBefore (SIDE * (y + 1)) cells.new.entries) }
    ensures why { IfErr result (λ e. e ≡ Refusal.Memory) }
{
    for x in 0..row.len() {
        put_cell(cells, cell_at(x as u64, y), open_mode(row[x]))?;
    }
    Ok(())
}

// Adds the cell, unless it is blocked. Each cell that is already in the map is before this cell, by row, then by column.
fn put_cell(cells: &mut BTreeMap<Cell, Mode>, cell: Cell, mode: Option<Mode>) -> Result<(), Refusal>
    requires fits { cell.x < SIDE }
    requires after { AreBefore (SIDE * cell.y + cell.x) cells.old.entries }
    ensures ok { OnOk result (cells.new.entries ≡ cells.old.entries ++ with_mode cell mode) }
    ensures before { OnOk result (AreBefore (SIDE * cell.y + (cell.x + 1)) cells.new.entries) }
    ensures why { IfErr result (λ e. e ≡ Refusal.Memory) }
{
    if let Some(mode) = mode {
        cells.insert(cell, mode)?;
    }
    Ok(())
}

// The cell of column `x` and row `y`.
fn cell_at(x: u64, y: u64) -> Cell
    requires { (x < SIDE) × (y < SIDE) }
    ensures { result ≡ record { x = x; y = y } }
{
    match Cell::new(x, y) {
        Some(cell) => cell,
        None => unreachable!(),
    }
}
