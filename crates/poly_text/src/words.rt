//! The words of a line, and what a word may be.
ghost use Rattle.std.specs.Prelude.{◌≡◌, ◌⊎◌, ◌==◌, ◌^◌, ◌-◌, ◌≤◌, ◌<◌, List, map, min, take, length, option_map, IfOk, IfErr, IfSome, filter, Ok, Err};
ghost use Rattle.std.specs.List.{slice_split, list_all, position};
ghost use Rattle.std.specs.Result.{is_ok};
ghost use Rattle.poly_grid.specs.Spot.{Spot};
ghost use Rattle.poly_text.specs.Names.{name_of};
ghost use Rattle.poly_text.specs.Sets.{MakesSet};
ghost use Rattle.poly_text.specs.Words.{words_of, has_byte, need_of, switch_of, mode_of, number_of, coordinate_of, coordinates_of, cell_of, cells_of, parts_of, listed_cells};

use poly_design::{Mode, Name, Need};
use poly_grid::{Cell, Refusal};
use poly_shape::Cells;
use std::alloc::Global;

/// Returns the words of a line: the parts between spaces that aren't empty. Fails only with `Memory`.
pub fn words_of(alloc: Global, line: &[u8]) -> Result<Vec<&[u8]>, Refusal>
    ensures ok { IfOk result (λ words. map (λ w. w.now) words.items ≡ words_of line.now) }
    ensures why { IfErr result (λ e. e ≡ Refusal.Memory) }
{
    let words: Vec<&[u8]> = line
        .split(|byte| *byte == b' ')
        .filter(|word| !word.is_empty())
        .collect(alloc)?;
    Ok(words)
}

/// Whether the line has no word.
pub fn is_blank(line: &[u8]) -> bool
    ensures { result ≡ list_all (λ b. b == 32) line.now }
{
    line.iter().all(|byte| *byte == b' ')
}

/// The name of these bytes, if they are 1 to 16 of `A-Z a-z 0-9 _`.
pub fn name_of(bytes: &[u8]) -> Option<Name>
    ensures { result ≡ name_of bytes.now }
{
    match Name::new(bytes) {
        Ok(name) => Some(name),
        Err(_) => None,
    }
}

/// The need that the word `required` or `optional` names; `None` for any other word.
pub fn need_of(word: &[u8]) -> Option<Need>
    ensures { result ≡ need_of word.now }
{
    if word == b"required".as_slice() {
        Some(Need::Required)
    } else if word == b"optional".as_slice() {
        Some(Need::Optional)
    } else {
        None
    }
}

/// The value of the word: true for `on`, false for `off`, and `None` for any other word.
pub fn switch_of(word: &[u8]) -> Option<bool>
    ensures { result ≡ switch_of word.now }
{
    if word == b"on".as_slice() {
        Some(true)
    } else if word == b"off".as_slice() {
        Some(false)
    } else {
        None
    }
}

/// The mode that the word `required`, `optional` or `blocked` names; `None` for any other word.
pub fn mode_of(word: &[u8]) -> Option<Mode>
    ensures { result ≡ mode_of word.now }
{
    if word == b"required".as_slice() {
        Some(Mode::Required)
    } else if word == b"optional".as_slice() {
        Some(Mode::Optional)
    } else if word == b"blocked".as_slice() {
        Some(Mode::Blocked)
    } else {
        None
    }
}

/// The number that the word writes in decimal digits. A number over `u64::MAX` is read as `u64::MAX`. Returns `None` if the
/// word is empty or has a byte that isn't a digit.
pub fn number_of(word: &[u8]) -> Option<u64>
    ensures { result ≡ option_map (λ n. min n (2 ^ 64 - 1)) (number_of word.now) }
{
    if word.is_empty() {
        return None;
    }
    let mut number = 0u64;
    for byte in word {
        let digit = char::from(*byte).to_digit(10)?;
        number = number.saturating_mul(10).saturating_add(u64::from(digit));
    }
    Some(number)
}

// The most digits of a coordinate, leading zeros included.
const COORDINATE_DIGITS: usize = 9;

// The number that the word writes in 1 to 9 decimal digits.
fn coordinate_of(word: &[u8]) -> Option<u64>
    ensures { result ≡ coordinate_of word.now }
{
    if word.len() > COORDINATE_DIGITS {
        return None;
    }
    number_of(word)
}

/// The index of the byte's first occurrence in the word, if there is one.
pub fn index_of(word: &[u8], byte: u8) -> Option<usize>
    ensures is { result ≡ position (λ b. b == byte) word.now }
    ensures within { IfSome result (λ i. i < length word.now) }
{
    word.iter().position(|b| *b == byte)
}

// The column and the row that the word names, each in 1 to 9 decimal digits, with a comma between them. A word of another form
// is a `BadCommand`.
#[tactic(auto, unfolding(crate::specs::Words::coordinates_of))]
fn coordinates_of(word: &[u8]) -> Result<(u64, u64), Refusal>
    ensures { result ≡ coordinates_of word.now }
{
    let comma = index_of(word, b',').ok_or(Refusal::BadCommand)?;
    let column = coordinate_of(&word[..comma]).ok_or(Refusal::BadCommand)?;
    let row = coordinate_of(&word[comma + 1..]).ok_or(Refusal::BadCommand)?;
    Ok((column, row))
}

/// Returns the cell that the word names by its column and its row, each in 1 to 9 decimal digits, with a comma between them.
/// Fails with `BadCommand` if the word has another form, and otherwise with `BadCell` if the column or the row is over 63.
pub fn cell_of(word: &[u8]) -> Result<Cell, Refusal>
    ensures { result ≡ cell_of word.now }
{
    let (column, row) = coordinates_of(word)?;
    Cell::new(column, row).ok_or(Refusal::BadCell)
}

/// The length of a buffer for the cells of a list: one more than a set can have. A list that fills the buffer is refused,
/// so further cells need not be kept.
pub const ROOM: usize = 17;

/// Writes to `room` the cells that the words name, as many as fit, and returns how many it wrote. The words whose cells don't
/// fit are still checked: fails as `cell_of` does on the leftmost word that names no cell.
pub fn cells_of(words: &[&[u8]], room: &mut [Cell]) -> Result<usize, Refusal>
    ensures read { IfOk result (λ n. (cells : List Spot) × (cells_of (map (λ w. w.now) words.now) ≡ Ok cells) × (take n room.new ≡ take (length room.old) cells)) }
    ensures within { IfOk result (λ n. n ≤ length room.new) }
    ensures refused { IfErr result (λ e. cells_of (map (λ w. w.now) words.now) ≡ Err e) }
{
    let mut count = 0;
    for word in words {
        let cell = cell_of(word)?;
        if count < room.len() {
            room[count] = cell;
            count += 1;
        }
    }
    Ok(count)
}

// The parts of the text between slashes; one part if there is no slash. Fails only with `Memory`.
fn parts_of(alloc: Global, text: &[u8]) -> Result<Vec<&[u8]>, Refusal>
    ensures ok { IfOk result (λ parts. map (λ w. w.now) parts.items ≡ parts_of text.now) }
    ensures why { IfErr result (λ e. e ≡ Refusal.Memory) }
{
    let parts: Vec<&[u8]> = text.split(|byte| *byte == b'/').collect(alloc)?;
    Ok(parts)
}

// Whether each part has the form of a cell, whatever its numbers are.
fn are_formed(parts: &[&[u8]]) -> bool
    ensures { result ≡ list_all (λ part. is_ok (coordinates_of part.now)) parts.now }
{
    parts.iter().all(|part| coordinates_of(part).is_ok())
}

/// Returns the set of the cells that the words name, or `None` if there are no cells, over 16 cells, or a cell twice. Fails as
/// `cell_of` does on the leftmost word that names no cell.
pub fn read_set(words: &[&[u8]]) -> Result<Option<Cells>, Refusal>
    ensures ok { IfOk result (λ set. (cells : List Spot) × (cells_of (map (λ w. w.now) words.now) ≡ Ok cells) × MakesSet cells set) }
    ensures why { IfErr result (λ e. cells_of (map (λ w. w.now) words.now) ≡ Err e) }
{
    let mut room = [Cell::ORIGIN; ROOM];
    let count = cells_of(words, &mut room)?;
    let cells = &room[..];
    Ok(Cells::new(&cells[..count]).ok())
}

/// Returns the set of the cells that the text lists with slashes between them, or `None` if there are over 16 cells or a cell
/// twice. Fails with `BadCommand` if a part doesn't have the form of a cell, otherwise with `BadCell` if a column or a row is
/// over 63. Fails with `Memory` if the list of the parts can't be allocated.
pub fn listed_set(alloc: Global, text: &[u8]) -> Result<Option<Cells>, Refusal>
    ensures ok { IfOk result (λ set. (cells : List Spot) × (listed_cells text.now ≡ Ok cells) × MakesSet cells set) }
    ensures why { IfErr result (λ e. (e ≡ Refusal.Memory) ⊎ (listed_cells text.now ≡ Err e)) }
{
    let parts = parts_of(alloc, text)?;
    if !are_formed(parts.as_slice()) {
        return Err(Refusal::BadCommand);
    }
    let set = read_set(parts.as_slice())?;
    Ok(set)
}
