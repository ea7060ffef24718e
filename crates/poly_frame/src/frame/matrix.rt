//! The exact cover matrix of a view: a row of bits for each item, a column for each placement (Knuth, The Art of Computer
//! Programming, volume 4B, section 7.2.2.1). A frame reads this matrix, or a smaller one that has only the columns that are
//! open at the given atoms of the frame.
ghost use Rattle.std.specs.Prelude.{Bool, IfErr, IfOk, IfSome, List, MatchOption, OnOk, false, length, nat_lt, replicate, slice_index, true, vec_capacity, ℕ, ◌*◌, ◌+◌, ◌<◌, ◌==◌, ◌^◌, ◌||◌, ◌≡◌, ◌≤◌};
ghost use Rattle.std.specs.Arc.{arc_value};
ghost use Rattle.std.specs.List.{filter, list_all, list_any};
ghost use Rattle.poly_tiling.specs.Lists.{distinct, mem};
ghost use Rattle.poly_tiling.specs.Names.{WellNamed};
ghost use Rattle.poly_tiling.specs.Puzzle.{View as ViewOf};
ghost use Rattle.poly_frame.specs.Bits.{has_bit};

use crate::bits;
use crate::frame::items::{PLACEMENT_ITEMS, guess_cells, note_items};
use crate::frame::occupied::{Occupied, count_bits, occupied_rows};
use crate::frame::opened::first_row;
use poly_grid::Refusal;
use poly_tiling::View;
use std::alloc::Global;
use std::sync::Arc;

/// Lists of indices, kept one after another in one list.
#[derive(Drop)]
pub(crate) struct Lists {
    /// Where each list starts in `indices`, followed by the length of `indices`, where the last list ends.
    pub(crate) starts: Vec<usize>,
    /// The entries of all lists.
    pub(crate) indices: Vec<usize>,
    /// A mask for each list, one after another: a bit for each entry. No contract speaks of masks: a wrong one only costs time.
    pub(crate) masks: Vec<u64>,
    /// How many words a mask has.
    pub(crate) words: usize,
}

/// The exact cover matrix of a view, or some of its columns. The matrix of a view can be made once and lent to each frame of
/// that view.
#[derive(Drop)]
pub struct Matrix {
    /// The placement of each column.
    pub(crate) numbers: Vec<u32>,
    /// The column of each placement that has one, by the number of the placement. The entries of other numbers mean nothing.
    pub(crate) stands: Vec<u32>,
    /// The indices of the items of each column, and of other columns: the matrices that were made from one matrix share its
    /// lists. `None` only if there are no columns.
    pub(crate) lists: Option<Arc<Lists>>,
    /// Which of the lists each column has.
    pub(crate) homes: Vec<usize>,
    /// A guess for the index of each cell among the items; a wrong guess only costs time.
    pub(crate) cells: Vec<usize>,
    /// How many words a row has.
    pub(crate) width: usize,
    /// A row for each item, one after another, with a bit for each column: whether the column's placement has the item.
    pub(crate) rows: Vec<u64>,
    /// Which words of each row have bits set; empty if the rows are narrow.
    pub(crate) occupied: Vec<Occupied>,
}

ghost use Rattle.poly_frame.specs.Matrices.{HomesIn, HomesShow, IsMatrix, IsWhole, ListedTo, ListsShow, RowOf, RowsShow, StandsShow, bit_index, column_items, list_at, matrix_of};

/// The matrix that a frame reads.
#[derive(Drop)]
pub(crate) enum Columns<'a> {
    /// A matrix that was made for this frame alone.
    Own(Matrix),
    /// The matrix that the caller lent to the frame.
    Lent(&'a Matrix),
}

impl<'a> Columns<'a> {
    /// The matrix itself.
    pub(crate) fn matrix(&self) -> &Matrix
        ensures { result.now ≡ matrix_of self.now }
    {
        match self {
            Columns::Own(matrix) => matrix,
            Columns::Lent(matrix) => matrix,
        }
    }

    /// The frame's own matrix; `None` if the matrix is the caller's.
    pub(crate) fn into_own(self) -> Option<Matrix>
        ensures { IfSome result (λ m. m ≡ matrix_of self.entry) }
    {
        match self {
            Columns::Own(matrix) => Some(matrix),
            Columns::Lent(_) => None,
        }
    }
}

// The list at `j` of those that begin at `starts`.
fn list_of<'a>(starts: &[usize], indices: &'a [usize], j: usize) -> &'a [usize]
    requires high { j + 1 < length starts.now }
    requires order { slice_index starts.now j ≤ slice_index starts.now (j + 1) }
    requires end { slice_index starts.now (j + 1) ≤ length indices.now }
    ensures { result.now ≡ list_at starts.now indices.now j }
{
    &indices[starts[j]..starts[j + 1]]
}

// The part of the list that starts at `from` and has `count` entries; empty if the list ends before.
fn part_of<'a, T>(list: &'a [T], from: usize, count: usize) -> &'a [T] {
    if from <= list.len() && count <= list.len() - from {
        &list[from..from + count]
    } else {
        &[]
    }
}

impl Matrix {
    /// The matrix without rows and columns, which takes no memory.
    pub(crate) fn none(alloc: Global) -> Matrix {
        Matrix {
            numbers: Vec::new(alloc),
            stands: Vec::new(alloc),
            lists: None,
            homes: Vec::new(alloc),
            cells: Vec::new(alloc),
            width: 0,
            rows: Vec::new(alloc),
            occupied: Vec::new(alloc),
        }
    }

    /// The matrix of the view: each placement of the design has a column. Fails only when out of memory.
    #[tactic(auto, using(poly_tiling::proofs::Orders::live_once))]
    pub fn new(alloc: Global, view: &View) -> Result<Matrix, Refusal>
        ensures made { IfOk result (λ m. IsWhole view.now m) }
        ensures why { IfErr result (λ e. e ≡ Refusal.Memory) }
        ensures well { WellNamed view.now }
        ensures once { distinct view.now.live ≡ true }
    {
        let numbers = Vec::from_slice(alloc, view.live())?;
        let cells = guess_cells(alloc, view.items())?;
        let lists = shared_lists(alloc, view, &cells, &numbers)?;
        let homes = all_homes(alloc, numbers.len())?;
        let size = size_for(&numbers);
        let begun = Matrix {
            numbers,
            stands: Vec::new(alloc),
            lists: Some(lists),
            homes,
            cells,
            width: 0,
            rows: Vec::new(alloc),
            occupied: Vec::new(alloc),
        };
        with_columns(alloc, view, size, begun)
    }

    /// The indices of the items of the column.
    pub(crate) fn items_of(&self, j: usize) -> &[usize]
        requires shows { (v : ViewOf) × HomesShow v self.now.numbers.items self.now.homes.items self.now.lists }
        requires column { j < length self.now.numbers.items }
        ensures { result.now ≡ column_items self.now.lists self.now.homes.items j }
    {
        match &self.lists {
            None => &[],
            Some(lists) => list_of(&lists.starts, &lists.indices, self.homes[j]),
        }
    }

    /// A bit for each item, set if the column has the item.
    pub(crate) fn mask_of(&self, j: usize) -> &[u64] {
        match &self.lists {
            Some(lists) if j < self.homes.len() => {
                let from = lists.words.wrapping_mul(self.homes[j]);
                part_of(&lists.masks, from, lists.words)
            }
            _ => &[],
        }
    }

    /// The column of the number; `None` if the number has no column.
    pub(crate) fn column_of(&self, number: u32) -> Option<usize>
        requires { StandsShow self.now.numbers.items self.now.stands.items }
        ensures { MatchOption result (mem self.now.numbers.items number ≡ false) (λ j. (j < length self.now.numbers.items) × (slice_index self.now.numbers.items j ≡ number)) }
    {
        let p = number as usize;
        if p < self.stands.len() {
            let j = self.stands[p] as usize;
            if j < self.numbers.len() && self.numbers[j] == number {
                return Some(j);
            }
        }
        None
    }
}

/// How many words a row with a bit for each of `count` columns has.
fn width_for(count: usize) -> usize
    ensures wide { count ≤ 64 * result }
    ensures small { 64 * result ≤ count + 64 }
{
    count / 64 + 1
}

// Whether most of the columns are open, so that a smaller matrix would save less than it costs to make.
fn is_dense(matrix: &Matrix, row: &[u64]) -> bool {
    count_bits(row) >= matrix.numbers.len() / 4 * 3
}

/// Chooses the matrix that a frame reads, and returns it with its row of open columns: the given matrix and row, or a new
/// matrix of the open columns alone if many of the given columns are closed. Overwrites `spare`, a matrix that is not used any
/// more.
pub(crate) fn columns_of<'a>(
    alloc: Global,
    view: &View,
    part: Columns<'a>,
    row: Vec<u64>,
    spare: Matrix,
) -> Result<(Columns<'a>, Vec<u64>), Refusal>
    requires part { IsMatrix view.now (matrix_of part) }
    requires len { length row.items ≡ (matrix_of part).width }
    ensures part { IfOk result (λ r. IsMatrix view.now (matrix_of r.0)) }
    ensures len { IfOk result (λ r. length r.1.items ≡ (matrix_of r.0).width) }
    ensures row { IfOk result (λ r. (f : ℕ → Bool) → RowOf f (matrix_of part.entry) row.items → RowOf f (matrix_of r.0) r.1.items) }
    ensures all { IfOk result (λ r. (f : ℕ → Bool) → RowOf f (matrix_of part.entry) row.items → (q : ℕ) → mem (matrix_of part.entry).numbers.items q ≡ true → f q ≡ true → mem (matrix_of r.0).numbers.items q ≡ true) }
    ensures why { IfErr result (λ e. e ≡ Refusal.Memory) }
{
    if is_dense(part.matrix(), &row) {
        return Ok((part, row));
    }
    let mut row = row;
    let made = narrowed(alloc, view, part.matrix(), &row, spare);
    drop(part);
    let narrow = made?;
    let Ok(_) = first_row(narrow.numbers.len(), narrow.width, &mut row) else {
        drop(narrow);
        return Err(Refusal::Memory);
    };
    Ok((Columns::Own(narrow), row))
}

/// A smaller matrix: the columns of `whole` whose bit is set in the row. `spare` is a matrix of the same view, or none; it is
/// overwritten, so that its memory is used again.
pub(crate) fn narrowed(
    alloc: Global,
    view: &View,
    whole: &Matrix,
    row: &[u64],
    spare: Matrix,
) -> Result<Matrix, Refusal>
    requires whole { IsMatrix view.now whole.now }
    requires row { length row.now ≡ whole.now.width }
    ensures made { IfOk result (λ m. IsMatrix view.now m) }
    ensures numbers { IfOk result (λ m. (f : ℕ → Bool) → ((j : ℕ) → j < length whole.now.numbers.items → f (slice_index whole.now.numbers.items j) ≡ has_bit row.now j) → m.numbers.items ≡ filter f whole.now.numbers.items) }
    ensures why { IfErr result (λ e. e ≡ Refusal.Memory) }
{
    let mut matrix = spare;
    let Ok(_) = list_set(
        &whole.numbers,
        &whole.homes,
        row,
        &mut matrix.numbers,
        &mut matrix.homes,
    ) else {
        drop(matrix);
        return Err(Refusal::Memory);
    };
    matrix.cells.clear();
    let Ok(_) = matrix.cells.extend_from_slice(&whole.cells) else {
        drop(matrix);
        return Err(Refusal::Memory);
    };
    let Ok(lists) = share(&whole.lists) else {
        drop(matrix);
        return Err(Refusal::Memory);
    };
    matrix.lists = lists;
    // `stands` has an entry for each number that has a column
    let size = whole.stands.len();
    with_columns(alloc, view, size, matrix)
}

// The matrix with a column for each number of `begun`, in the same order. The numbers are below `size`; `begun` has the lists of
// their items, too. Its other lists are overwritten.
fn with_columns(alloc: Global, view: &View, size: usize, begun: Matrix) -> Result<Matrix, Refusal>
    requires well { WellNamed view.now }
    requires once { distinct begun.numbers.items ≡ true }
    requires above { (j : ℕ) → j < length begun.numbers.items → slice_index begun.numbers.items j < size }
    requires fewer { length begun.numbers.items ≤ length view.now.live }
    requires live { (q : ℕ) → mem begun.numbers.items q ≡ true → mem view.now.live q ≡ true }
    requires lists { HomesShow view.now begun.numbers.items begun.homes.items begun.lists }
    ensures made { IfOk result (λ m. IsMatrix view.now m × (m.numbers.items ≡ begun.numbers.items)) }
    ensures why { IfErr result (λ e. e ≡ Refusal.Memory) }
{
    let mut matrix = begun;
    matrix.width = width_for(matrix.numbers.len());
    let Ok(_) = write_rows(
        view,
        &matrix.numbers,
        &matrix.lists,
        &matrix.homes,
        matrix.width,
        &mut matrix.rows,
    ) else {
        drop(matrix);
        return Err(Refusal::Memory);
    };
    let Ok(_) = write_stands(&matrix.numbers, size, &mut matrix.stands) else {
        drop(matrix);
        return Err(Refusal::Memory);
    };
    let items = view.items().len();
    let Ok(occupied) = occupied_rows(alloc, &matrix.rows, matrix.width, items) else {
        drop(matrix);
        return Err(Refusal::Memory);
    };
    matrix.occupied = occupied;
    Ok(matrix)
}

// Lists the numbers and the homes of the columns that have a bit in word `k` of a row, if those of the words before are
// listed.
fn list_word(
    given: &[u32],
    given_homes: &[usize],
    row: &[u64],
    k: usize,
    numbers: &mut Vec<u32>,
    homes: &mut Vec<usize>,
)
    requires homes { length given_homes.now ≡ length given.now }
    requires narrow { length row.now < 2 ^ 58 }
    requires word { k < length row.now }
    requires listed { ListedTo given.now given_homes.now row.now numbers.old.items homes.old.items (64 * k) }
    requires space { length given.now ≤ vec_capacity numbers.old }
    requires room { length given.now ≤ vec_capacity homes.old }
    ensures listed { ListedTo given.now given_homes.now row.now numbers.new.items homes.new.items (64 * (k + 1)) }
    ensures space { vec_capacity numbers.new ≡ vec_capacity numbers.old }
    ensures room { vec_capacity homes.new ≡ vec_capacity homes.old }
{
    let mut rest = row[k];
    while let Some(t) = bits::next_bit(rest, 0) {
        let j = 64 * k + t;
        if j >= given.len() {
            return;
        }
        let number = given[j];
        let home = given_homes[j];
        numbers.push_reserved(number);
        homes.push_reserved(home);
        rest = bits::without(rest, t);
    }
}

// Lists the numbers and the homes of the columns that have a bit in a row, in place of what the lists had.
fn list_set(
    given: &[u32],
    given_homes: &[usize],
    row: &[u64],
    numbers: &mut Vec<u32>,
    homes: &mut Vec<usize>,
) -> Result<(), Refusal>
    requires homes { length given_homes.now ≡ length given.now }
    requires narrow { length row.now < 2 ^ 58 }
    ensures listed { OnOk result (ListedTo given.now given_homes.now row.now numbers.new.items homes.new.items (64 * length row.now)) }
    ensures why { IfErr result (λ e. e ≡ Refusal.Memory) }
{
    numbers.clear();
    numbers.reserve(given.len())?;
    homes.clear();
    homes.reserve(given.len())?;
    for k in 0..row.len() {
        list_word(given, given_homes, row, k, numbers, homes);
    }
    Ok(())
}

// The indices of the items of each number, read from the view, to be shared.
fn shared_lists(
    alloc: Global,
    view: &View,
    cells: &[usize],
    numbers: &[u32],
) -> Result<Arc<Lists>, Refusal>
    ensures value { IfOk result (λ a. ListsShow view.now numbers.now (arc_value a)) }
    ensures why { IfErr result (λ e. e ≡ Refusal.Memory) }
{
    let lists = list_items(alloc, view, cells, numbers)?;
    let shared = Arc::new(alloc, lists)?;
    Ok(shared)
}

// The indices of the items of each number, read from the view.
fn list_items(
    alloc: Global,
    view: &View,
    cells: &[usize],
    numbers: &[u32],
) -> Result<Lists, Refusal>
    ensures value { IfOk result (λ l. ListsShow view.now numbers.now l) }
    ensures why { IfErr result (λ e. e ≡ Refusal.Memory) }
{
    let mut starts = Vec::with_capacity(alloc, numbers.len().saturating_add(1))?;
    let mut indices = Vec::new(alloc);
    let mut piece = 0;
    starts.push_reserved(0usize);
    for p in numbers {
        indices.reserve(PLACEMENT_ITEMS)?;
        note_items(view, cells, piece, *p, &mut indices);
        if indices.len() > starts[starts.len() - 1] {
            piece = indices[starts[starts.len() - 1]];
        }
        starts.push_reserved(indices.len());
    }
    let words = view.items().len() / 64 + 1;
    let masks = masks_of(alloc, &starts, &indices, words)?;
    Ok(Lists {
        starts,
        indices,
        masks,
        words,
    })
}

// The masks of the lists, each of as many words.
fn masks_of(
    alloc: Global,
    starts: &[usize],
    indices: &[usize],
    words: usize,
) -> Result<Vec<u64>, Refusal>
    ensures { IfErr result (λ e. e ≡ Refusal.Memory) }
{
    let mut masks = vec![in alloc; 0u64; words.saturating_mul(starts.len())]?;
    for list in 1..starts.len() {
        let from = starts[list - 1];
        let entries = part_of(indices, from, starts[list].saturating_sub(from));
        put_in_mask(&mut masks, words.saturating_mul(list - 1), entries);
    }
    Ok(masks)
}

// Sets the bits of the indices in the mask that starts at a word. Leaves out an index that the mask has no bit for.
fn put_in_mask(masks: &mut Vec<u64>, from: usize, indices: &[usize]) {
    for b in indices {
        let k = from.saturating_add(*b / 64);
        if k < masks.len() {
            masks[k] |= 1u64 << (*b % 64);
        }
    }
}

// The same lists.
fn share(lists: &Option<Arc<Lists>>) -> Result<Option<Arc<Lists>>, Refusal>
    ensures same { IfOk result (λ l. (v : ViewOf) (ns homes : List ℕ) → HomesShow v ns homes lists.now → HomesShow v ns homes l) }
    ensures why { IfErr result (λ e. e ≡ Refusal.Memory) }
{
    match lists {
        None => Ok(None),
        Some(shared) => Ok(Some(Arc::try_clone(shared)?)),
    }
}

// The numbers from 0 on.
fn all_homes(alloc: Global, count: usize) -> Result<Vec<usize>, Refusal>
    ensures len { IfOk result (λ h. length h.items ≡ count) }
    ensures each { IfOk result (λ h. (j : ℕ) → j < count → slice_index h.items j ≡ j) }
    ensures why { IfErr result (λ e. e ≡ Refusal.Memory) }
{
    let mut homes = Vec::with_capacity(alloc, count)?;
    for j in 0..count {
        homes.push_reserved(j);
    }
    Ok(homes)
}

// The length of a list that has an entry at each of these numbers.
fn size_for(numbers: &[u32]) -> usize
    ensures above { list_all (λ p. nat_lt p result) numbers.now ≡ true }
    ensures small { result ≤ 2 ^ 32 }
{
    let mut size = 0usize;
    for p in numbers {
        size = size.max(*p as usize + 1);
    }
    size
}

// Writes the column of each number to the entry of `stands` at the number, which is below `size`. The other entries stay, since
// they mean nothing. More columns than a u32 can count would be more than fit into memory.
fn write_stands(numbers: &[u32], size: usize, stands: &mut Vec<u32>) -> Result<(), Refusal>
    requires once { distinct numbers.now ≡ true }
    requires above { (j : ℕ) → j < length numbers.now → slice_index numbers.now j < size }
    ensures value { OnOk result (StandsShow numbers.now stands.new.items) }
    ensures why { IfErr result (λ e. e ≡ Refusal.Memory) }
{
    let Ok(count) = u32::try_from(numbers.len()) else {
        return Err(Refusal::Memory);
    };
    if stands.len() < size {
        stands.resize(size, 0)?;
    }
    for j in 0..count {
        let p = numbers[j as usize] as usize;
        stands[p] = j;
    }
    Ok(())
}

// Puts the number j into the rows of these indices. Cuts off the words before the one that has the bit, so that the place of
// the word in each row is a product alone.
fn put_each(rows: &mut [u64], width: usize, indices: &[usize], j: usize, items: usize)
    requires low { list_all (λ b. nat_lt b items) indices.now ≡ true }
    requires len { length rows.old ≡ width * items }
    requires wide { j < 64 * width }
    requires some { 0 < items }
    ensures len { length rows.new ≡ width * items }
    ensures bits { (x : ℕ) → has_bit rows.new x ≡ (has_bit rows.old x || list_any (λ b. bit_index width b j == x) indices.now) }
{
    let (_, words) = rows.split_at_mut(j / 64);
    put_bit(words, width, indices, j % 64);
}

// Sets the bit in the first word of each of these rows, which begin where `words` does and have `width` words.
fn put_bit(words: &mut [u64], width: usize, indices: &[usize], t: usize)
    requires low { list_all (λ b. nat_lt (width * b) (length words.old)) indices.now ≡ true }
    requires bit { t < 64 }
    ensures len { length words.new ≡ length words.old }
    ensures bits { (x : ℕ) → has_bit words.new x ≡ (has_bit words.old x || list_any (λ b. bit_index width b t == x) indices.now) }
{
    for b in indices {
        bits::put_in_words(words, width * *b, t);
    }
}

// Makes the list rows of `width` words that have no bit set.
fn clear_rows(width: usize, count: usize, rows: &mut Vec<u64>) -> Result<(), Refusal>
    ensures value { OnOk result (rows.new.items ≡ replicate (width * count) 0) }
    ensures why { IfErr result (λ e. e ≡ Refusal.Memory) }
{
    let Some(size) = width.checked_mul(count) else {
        return Err(Refusal::Memory);
    };
    rows.clear();
    rows.resize(size, 0)?;
    Ok(())
}

// Writes the row of each item, from the lists of the numbers' items, in place of what `rows` had.
fn write_rows(
    view: &View,
    numbers: &[u32],
    lists: &Option<Arc<Lists>>,
    homes: &[usize],
    width: usize,
    rows: &mut Vec<u64>,
) -> Result<(), Refusal>
    requires wide { length numbers.now ≤ 64 * width }
    requires lists { HomesShow view.now numbers.now homes.now lists.now }
    ensures len { OnOk result (length rows.new.items ≡ width * length view.now.bounds) }
    ensures value { OnOk result (RowsShow view.now numbers.now width rows.new.items) }
    ensures why { IfErr result (λ e. e ≡ Refusal.Memory) }
{
    clear_rows(width, view.items().len(), rows)?;
    if let Some(shared) = lists {
        fill(
            view,
            numbers,
            &shared.starts,
            &shared.indices,
            homes,
            width,
            rows,
        );
    }
    Ok(())
}

// Makes empty rows the row of each item.
fn fill(
    view: &View,
    numbers: &[u32],
    starts: &[usize],
    indices: &[usize],
    homes: &[usize],
    width: usize,
    rows: &mut [u64],
)
    requires wide { length numbers.now ≤ 64 * width }
    requires lists { HomesIn view.now numbers.now homes.now starts.now indices.now }
    requires rows { rows.old ≡ replicate (width * length view.now.bounds) 0 }
    ensures len { length rows.new ≡ width * length view.now.bounds }
    ensures value { RowsShow view.now numbers.now width rows.new }
{
    let items = view.items().len();
    // without rows there are no words to cut off
    if items == 0 {
        return;
    }
    for j in 0..numbers.len() {
        put_each(rows, width, list_of(starts, indices, homes[j]), j, items);
    }
}
