//! Items by their index among the items of a view, and counts by these indices. The index of an item is guessed first and
//! then tested, so a wrong guess only costs time.
ghost use Rattle.std.specs.Prelude.{IfErr, List, MatchOption, false, length, map, nat_lt, slice_index, true, vec_capacity, vec_len, ℕ, [], ◌++◌, ◌+◌, ◌<◌, ◌*◌, ◌^◌, ◌∷◌, ◌≡◌, ◌≤◌};
ghost use Rattle.std.specs.List.{list_all};
ghost use Rattle.poly_shape.specs.Order.{IsAscending, spot_cmp};
ghost use Rattle.poly_tiling.specs.Names.{items_ascend};
ghost use Rattle.poly_tiling.specs.Puzzle.{items, same_item};
ghost use Rattle.poly_tiling.specs.declared.item.Item.TheVariants.{Cell as CellItem};
ghost use Rattle.poly_frame.specs.FrameItems.{Noted, item_at, times};

use poly_grid::{Cell, Refusal, SIDE};
use poly_tiling::{Bound, Item, View};
use std::alloc::Global;

/// The most items of a placement: 16 cells and a piece.
pub(crate) const PLACEMENT_ITEMS: usize = 17;

/// The index of a cell in a list with an entry for each cell that a board can have.
pub(crate) fn cell_index(cell: Cell) -> usize
    ensures value { result ≡ SIDE * cell.y + cell.x }
    ensures column { cell.x < SIDE }
    ensures small { result < SIDE * SIDE }
{
    usize::from(cell.y()) * SIDE + usize::from(cell.x())
}

/// A list, indexed by `cell_index`, that guesses the index of each cell among the items.
pub(crate) fn guess_cells(alloc: Global, bounds: &[Bound]) -> Result<Vec<usize>, Refusal>
    ensures { IfErr result (λ e. e ≡ Refusal.Memory) }
{
    let mut guesses = Vec::new(alloc);
    for b in 0..bounds.len() {
        if let Item::Cell(cell) = bounds[b].item {
            let k = cell_index(cell);
            if k >= guesses.len() {
                guesses.resize(k + 1, 0)?;
            }
            guesses[k] = b;
        }
    }
    Ok(guesses)
}

/// The guess for the index of an item; 0 for a piece, and for a cell that the list has no guess for.
pub(crate) fn guess_item(cells: &[usize], item: &Item) -> usize {
    match item {
        Item::Cell(cell) => *cells.get(cell_index(*cell)).unwrap_or(&0),
        Item::Piece(_) => 0,
    }
}

/// The index of an item; `None` if the item is not among the bounds. If the guess is wrong, the search begins at the end: an
/// item without a guess is mostly a piece, and pieces come last.
pub(crate) fn index_of(bounds: &[Bound], guess: usize, item: Item) -> Option<usize>
    ensures { MatchOption result ((b : ℕ) → b < length bounds.now → same_item (item_at bounds.now b) item ≡ false) (λ b. (b < length bounds.now) × (same_item (item_at bounds.now b) item ≡ true)) }
{
    if guess < bounds.len() && bounds[guess].item.is(&item) {
        return Some(guess);
    }
    let mut b = bounds.len();
    while b > 0 {
        b -= 1;
        if bounds[b].item.is(&item) {
            return Some(b);
        }
    }
    None
}

// Appends the index of an item to `noted`, if the item has one.
fn note_item(bounds: &[Bound], guess: usize, item: Item, noted: &mut Vec<usize>)
    requires room { vec_len noted.old < vec_capacity noted.old }
    requires order { items_ascend bounds.now ≡ true }
    ensures capacity { vec_capacity noted.new ≡ vec_capacity noted.old }
    ensures len { vec_len noted.new ≤ vec_len noted.old + 1 }
    ensures indices { (indices : List ℕ) × (noted.new.items ≡ noted.old.items ++ indices) × Noted bounds.now (item ∷ []) indices }
{
    if let Some(b) = index_of(bounds, guess, item) {
        noted.push_reserved(b);
    }
}

fn note_cells(bounds: &[Bound], guesses: &[usize], cells: &[Cell], noted: &mut Vec<usize>)
    requires room { vec_len noted.old + length cells.now ≤ vec_capacity noted.old }
    requires order { items_ascend bounds.now ≡ true }
    requires ascending { IsAscending spot_cmp cells.now }
    ensures capacity { vec_capacity noted.new ≡ vec_capacity noted.old }
    ensures len { vec_len noted.new ≤ vec_len noted.old + length cells.now }
    ensures indices { (indices : List ℕ) × (noted.new.items ≡ noted.old.items ++ indices) × Noted bounds.now (map (λ c. CellItem c) cells.now) indices }
{
    for cell in cells {
        let item = Item::Cell(*cell);
        note_item(bounds, guess_item(guesses, &item), item, noted);
    }
}

/// Appends the indices of the items of a number's placement to `noted`. `piece` is the guess for the index of its piece.
pub(crate) fn note_items(
    view: &View,
    cells: &[usize],
    piece: usize,
    number: u32,
    noted: &mut Vec<usize>,
)
    requires { vec_len noted.old + PLACEMENT_ITEMS ≤ vec_capacity noted.old }
    ensures capacity { vec_capacity noted.new ≡ vec_capacity noted.old }
    ensures len { vec_len noted.new ≤ vec_len noted.old + PLACEMENT_ITEMS }
    ensures indices { (indices : List ℕ) × (noted.new.items ≡ noted.old.items ++ indices) × Noted view.now.bounds (items view.now number) indices }
{
    if let Some(placement) = view.placement(number) {
        note_item(view.items(), piece, Item::Piece(placement.name), noted);
        note_cells(view.items(), cells, placement.cells.as_slice(), noted);
    }
}

/// Raises the count at each index by one.
pub(crate) fn raise(have: &mut Vec<u64>, indices: &[usize])
    requires low { list_all (λ b. nat_lt b (length have.old.items)) indices.now ≡ true }
    requires small { (b : ℕ) → b < length have.old.items → slice_index have.old.items b + length indices.now < 2 ^ 64 }
    ensures len { length have.new.items ≡ length have.old.items }
    ensures more { (b : ℕ) → b < length have.old.items → slice_index have.new.items b ≡ slice_index have.old.items b + times indices.now b }
{
    for b in indices {
        have[*b] += 1;
    }
}
