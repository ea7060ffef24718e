//! Rows of numbers, read and written by row and by position in the row.
ghost use Rattle.std.specs.Prelude.{◌≡◌, ◌+◌, ◌-◌, ◌<◌, IfErr, IsSome, None, OnErr, OnOk, Some, length};
ghost use Rattle.poly_catalogue.specs.Rows.{Puts, at, row};

use crate::row::Row;
use poly_grid::Refusal;

/// How many numbers a row has.
pub(crate) fn count(rows: &[Row], key: usize) -> usize
    requires { key < length rows.now }
    ensures { result ≡ length (row rows.now key) }
{
    rows[key].len()
}

/// The number at a position.
pub(crate) fn read(rows: &[Row], key: usize, position: usize) -> u32
    requires { IsSome (at rows.now key position) }
    ensures { at rows.now key position ≡ Some result }
{
    rows[key].get(position)
}

/// Writes another number at a position.
pub(crate) fn put(rows: &mut [Row], key: usize, position: usize, number: u32)
    requires { IsSome (at rows.old key position) }
    ensures put { Puts rows.old key position (Some number) rows.new }
    ensures long { length (row rows.new key) ≡ length (row rows.old key) }
{
    rows[key].set(position, number);
}

/// Removes the last number of a row.
pub(crate) fn cut(rows: &mut [Row], key: usize)
    requires { 0 < length (row rows.old key) }
    ensures { Puts rows.old key (length (row rows.old key) - 1) None rows.new }
{
    rows[key].cut();
}

/// Adds a number at the end of a row. Fails only with `Memory`, and then the rows stay as they were.
pub(crate) fn append(rows: &mut [Row], key: usize, number: u32) -> Result<(), Refusal>
    requires { key < length rows.old }
    ensures ok { OnOk result (Puts rows.old key (length (row rows.old key)) (Some number) rows.new) }
    ensures longer { OnOk result (length (row rows.new key) ≡ length (row rows.old key) + 1) }
    ensures err { OnErr result (rows.new ≡ rows.old) }
    ensures why { IfErr result (λ e. e ≡ Refusal.Memory) }
{
    rows[key].push(number)
}
