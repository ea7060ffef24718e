//! The positions that the tilings of a list have in the rows of their numbers.
//!
//! All of them are in one list. A list for each tiling would take twice the memory, and an allocation for each tiling.
ghost use Rattle.std.specs.Prelude.{◌≡◌, ◌+◌, ◌-◌, ◌*◌, ◌^◌, ◌<◌, ◌≤◌, ◌++◌, [], IfErr, IfOk, IsSome, OnErr, OnOk, Some, drop, length, map, replicate, take, ℕ};
ghost use Rattle.std.specs.List.{swap_remove};
ghost use Rattle.poly_catalogue.specs.Rows.{Puts, at, over, row};
ghost use Rattle.poly_catalogue.specs.Table.{rows_of};

use poly_grid::Refusal;
use std::alloc::Global;
use std::marker::Model;

/// A row of positions for each tiling. All rows have the same width, which is at least the length of the longest tiling
/// so far. The positions past a tiling's last number mean nothing.
#[derive(Drop)]
pub(crate) struct Positions {
    /// The allocator of `cells`.
    alloc: Global,
    /// How many rows there are.
    count: usize,
    /// How many positions each row has.
    width: usize,
    /// The positions, row after row.
    cells: Vec<u32>,
}

impl Model for Positions {
    ghost use Rattle.std.specs.Prelude.{List, length, ℕ, ◌*◌, ◌≡◌};
    ghost use Rattle.poly_catalogue.specs.Table.{rows_of};

    ghost Value = { List (List ℕ) };

    ghost view = { λ p. rows_of p.width p.count p.cells.items };

    ghost invariant = { λ p. length p.cells.items ≡ p.count * p.width };
}

impl Positions {
    /// No rows.
    pub(crate) fn new(alloc: Global) -> Positions
        ensures { result ≡ [] }
    {
        Positions {
            alloc,
            count: 0,
            width: 0,
            cells: Vec::new(alloc),
        }
    }

    /// How many positions each row has.
    fn row_width(&self) -> usize
        ensures { (a : ℕ) → a < length self.now → result ≡ length (row self.now a) }
    {
        self.width
    }

    /// The position that the tiling has in the row of its `nth` number.
    pub(crate) fn get(&self, tiling: usize, nth: usize) -> u32
        requires { IsSome (at self.now tiling nth) }
        ensures { at self.now tiling nth ≡ Some result }
    {
        self.cells[tiling * self.width + nth]
    }

    /// Notes another position of the tiling in the row of its `nth` number.
    pub(crate) fn set(&mut self, tiling: usize, nth: usize, position: u32)
        requires { IsSome (at self.old tiling nth) }
        ensures put { Puts self.old tiling nth (Some position) self.new }
        ensures even { length self.new ≡ length self.old }
        ensures wide { (a : ℕ) → length (row self.new a) ≡ length (row self.old a) }
    {
        self.cells[tiling * self.width + nth] = position;
    }

    /// Adds a row for a tiling with `len` numbers. Fails only with `Memory`, and then no row is added. In either case, all
    /// noted positions stay.
    pub(crate) fn push(&mut self, len: usize) -> Result<(), Refusal>
        requires few { length self.old + 1 < 2 ^ 32 }
        ensures kept { (a b p : ℕ) → at self.old a b ≡ Some p → at self.new a b ≡ Some p }
        ensures more { OnOk result (length self.new ≡ length self.old + 1) }
        ensures wide { OnOk result (len ≤ length (row self.new (length self.old))) }
        ensures err { OnErr result (length self.new ≡ length self.old) }
        ensures why { IfErr result (λ e. e ≡ Refusal.Memory) }
    {
        if self.width < len {
            return self.push_wider(len);
        }
        add_zeros(&mut self.cells, self.width)?;
        self.count += 1;
        Ok(())
    }

    // Makes the rows at least `len` wide, and adds a row. Fails only with `Memory`, and then the rows stay as they were.
    fn push_wider(&mut self, len: usize) -> Result<(), Refusal>
        requires few { length self.old + 1 < 2 ^ 32 }
        ensures kept { (a b p : ℕ) → at self.old a b ≡ Some p → at self.new a b ≡ Some p }
        ensures more { OnOk result (length self.new ≡ length self.old + 1) }
        ensures wide { OnOk result (len ≤ length (row self.new (length self.old))) }
        ensures err { OnErr result (self.new ≡ self.old) }
        ensures why { IfErr result (λ e. e ≡ Refusal.Memory) }
    {
        let width = self.width.max(len);
        let mut cells = widened(self.alloc, &self.cells, self.count, self.width, width)?;
        add_zeros(&mut cells, width)?;
        self.cells = cells;
        self.width = width;
        self.count += 1;
        Ok(())
    }

    /// Removes the last row, if there is one.
    pub(crate) fn pop(&mut self)
        ensures { self.new ≡ take (length self.old - 1) self.old }
    {
        if self.count == 0 {
            return;
        }
        self.count -= 1;
        self.cells.truncate(self.count * self.width);
    }

    /// Removes a row. The last row moves to its index. Never allocates.
    pub(crate) fn swap_remove(&mut self, index: usize)
        requires { index < length self.old }
        ensures rows { (a b : ℕ) → at self.new a b ≡ at (swap_remove self.old index []) a b }
        ensures less { length self.new + 1 ≡ length self.old }
    {
        self.copy_row(self.count - 1, index);
        self.pop();
    }

    // Copies a row over another.
    fn copy_row(&mut self, from: usize, to: usize)
        requires from { from < length self.old }
        requires to { to < length self.old }
        requires same { length (row self.old to) ≡ length (row self.old from) }
        ensures over { (a b : ℕ) → at self.new a b ≡ over (at self.old) from to a b }
        ensures even { length self.new ≡ length self.old }
    {
        for nth in 0..self.row_width() {
            let position = self.get(from, nth);
            self.set(to, nth, position);
        }
    }
}

// Returns the positions of the same rows, each padded with zeros to the new width.
fn widened(
    alloc: Global,
    cells: &[u32],
    count: usize,
    width: usize,
    wider: usize,
) -> Result<Vec<u32>, Refusal>
    requires whole { length cells.now ≡ count * width }
    requires wider { width ≤ wider }
    ensures rows { IfOk result (λ v. rows_of wider count v.items ≡ map (λ r. r ++ replicate (wider - width) 0) (rows_of width count cells.now)) }
    ensures whole { IfOk result (λ v. length v.items ≡ count * wider) }
    ensures why { IfErr result (λ e. e ≡ Refusal.Memory) }
{
    let mut blank = Vec::new(alloc);
    add_zeros(&mut blank, wider - width)?;
    let mut list = Vec::new(alloc);
    for index in 0..count {
        list.extend_from_slice(row_at(cells, width, index))?;
        list.extend_from_slice(&blank)?;
    }
    Ok(list)
}

// Adds zeros at the end. Fails only with `Memory`, and then the list stays as it was.
fn add_zeros(list: &mut Vec<u32>, count: usize) -> Result<(), Refusal>
    ensures ok { OnOk result (list.new.items ≡ list.old.items ++ replicate count 0) }
    ensures err { OnErr result (list.new.items ≡ list.old.items) }
    ensures why { IfErr result (λ e. e ≡ Refusal.Memory) }
{
    let Some(end) = list.len().checked_add(count) else {
        return Err(Refusal::Memory);
    };
    list.resize(end, 0)?;
    Ok(())
}

// The row at an index of a list of rows that have this width.
fn row_at(cells: &[u32], width: usize, index: usize) -> &[u32]
    requires { index * width + width ≤ length cells.now }
    ensures { result.now ≡ take width (drop (index * width) cells.now) }
{
    let from = index * width;
    &cells[from..from + width]
}
