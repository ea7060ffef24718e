//! What a frame keeps besides its lists: how many of its first levels are consistent, the matrix that it reads, the table,
//! and the bits and counts that its steps change.
ghost use Rattle.std.specs.Prelude.{IfErr, IfOk, IfSome, length, ◌<◌, ◌^◌, ◌≡◌};
ghost use Rattle.poly_atom.specs.Hopeless.{base};
ghost use Rattle.poly_frame.specs.declared.frame.matrix.Matrix.{Matrix as MatrixOf};
ghost use Rattle.poly_frame.specs.FrameConsistent.{ConsistentShows};
ghost use Rattle.poly_frame.specs.FrameSteps.{HasRoom, StepsKeep};
ghost use Rattle.poly_frame.specs.FrameTable.{HasOpen, HaveShows, LeastsShow, MostsShow, TableShows};
ghost use Rattle.poly_frame.specs.Matrices.{IsMatrix, RowOf, matrix_of};
ghost use Rattle.poly_frame.specs.Open.{open_in};

use crate::frame::consistent;
use crate::frame::matrix::{Columns, Matrix, columns_of};
use crate::frame::node::Node;
use crate::frame::notes::notes_of;
use crate::frame::opened::open_row;
use crate::frame::steps::{Mark, Steps, start};
use crate::frame::table::{Table, counts_of, table_of};
use crate::frame::wanted::{Wanted, wanted_of};
use poly_atom::Atom;
use poly_grid::Refusal;
use poly_tiling::View;
use std::alloc::Global;

/// What a frame keeps besides its lists.
#[derive(Drop)]
pub(crate) struct Levels<'a> {
    /// At how many levels, counted from the given atoms on, the base is known to be consistent.
    pub(crate) consistent: usize,
    /// The matrix that the frame reads.
    pub(crate) columns: Columns<'a>,
    /// What stays the same while the frame moves.
    pub(crate) table: Table,
    /// What each step changes: the bits of the open columns, and how many members of the base have each item.
    pub(crate) steps: Steps,
}

/// What is counted before the columns are chosen.
#[derive(Drop)]
pub(crate) struct Counted {
    /// 1 if the base is known to be consistent, otherwise 0.
    pub(crate) consistent: usize,
    /// How many members of the base have each item.
    pub(crate) have: Vec<u64>,
    /// What stays the same while the frame moves.
    pub(crate) table: Table,
    /// A bit for each item, set if too few members of the base have it.
    pub(crate) due: Vec<u64>,
}

/// The memory of what a frame kept besides its lists.
#[derive(Drop)]
pub(crate) struct Spare {
    /// Rows of open columns.
    pub(crate) live: Vec<u64>,
    /// Indices of items.
    pub(crate) raised: Vec<usize>,
    /// What was needed to undo steps.
    pub(crate) marks: Vec<Mark>,
    /// A matrix.
    pub(crate) matrix: Matrix,
}

/// What is counted at the atoms; `members` is their base. `part` has a column for each placement that is open there. `whole` is
/// a matrix that has columns for the members, too, or `None` if that is `part`; if a member has no column there, the base is
/// not known to be consistent. Makes `live` the row of the columns of `part` that are open at the atoms. Overwrites `raised`.
pub(crate) fn counted_of(
    alloc: Global,
    view: &View,
    part: &Matrix,
    whole: Option<&Matrix>,
    atoms: &[Atom],
    members: &[u32],
    live: &mut Vec<u64>,
    raised: &mut Vec<usize>,
) -> Result<Counted, Refusal>
    requires part { IsMatrix view.now part.now }
    requires whole { IfSome whole (λ m. IsMatrix view.now m.now) }
    requires base { members.now ≡ base view.now atoms.now }
    requires few { length members.now < 2 ^ 63 }
    ensures len { IfOk result (λ _. length live.new.items ≡ part.now.width) }
    ensures row { IfOk result (λ _. RowOf (λ p. open_in view.now atoms.now p) part.now live.new.items) }
    ensures consistent { IfOk result (λ r. ConsistentShows view.now atoms.now (length atoms.now) r.consistent) }
    ensures have_len { IfOk result (λ r. length r.have.items ≡ length view.now.bounds) }
    ensures have { IfOk result (λ r. HaveShows view.now (base view.now atoms.now) r.have.items) }
    ensures table { IfOk result (λ r. (m : MatrixOf) → IsMatrix view.now m → HasOpen view.now atoms.now m → TableShows view.now atoms.now m r.table) }
    ensures why { IfErr result (λ e. e ≡ Refusal.Memory) }
{
    let have = counts_of(alloc, view, members, &part.cells, raised)?;
    let wanted = wanted_of(alloc, view, atoms, &part.cells)?;
    let consistent = opened(view, part, whole, atoms, members, &wanted, &have, live)?;
    let counted = with_table(alloc, view, atoms, consistent, have, wanted)?;
    Ok(counted)
}

// Makes `live` the row of the columns of `part` that are open at the atoms, and returns 1 if the base is known to be
// consistent, otherwise 0.
fn opened(
    view: &View,
    part: &Matrix,
    whole: Option<&Matrix>,
    atoms: &[Atom],
    members: &[u32],
    wanted: &Wanted,
    have: &[u64],
    live: &mut Vec<u64>,
) -> Result<usize, Refusal>
    requires part { IsMatrix view.now part.now }
    requires whole { IfSome whole (λ m. IsMatrix view.now m.now) }
    requires base { members.now ≡ base view.now atoms.now }
    requires have_len { length have.now ≡ length view.now.bounds }
    requires have { HaveShows view.now members.now have.now }
    requires mosts_len { length wanted.now.mosts.items ≡ length view.now.bounds }
    requires mosts { MostsShow view.now atoms.now wanted.now.mosts.items }
    ensures len { IfOk result (λ _. length live.new.items ≡ part.now.width) }
    ensures row { IfOk result (λ _. RowOf (λ p. open_in view.now atoms.now p) part.now live.new.items) }
    ensures consistent { IfOk result (λ n. ConsistentShows view.now atoms.now (length atoms.now) n) }
    ensures why { IfErr result (λ e. e ≡ Refusal.Memory) }
{
    let mosts = &wanted.mosts[..];
    open_row(view, part, atoms, members, mosts, have, live)?;
    let whole = whole.unwrap_or(part);
    let consistent = consistent::begin(view, whole, atoms, members, mosts, have);
    Ok(consistent)
}

// What is counted, with the table and the notes of the due items.
fn with_table(
    alloc: Global,
    view: &View,
    atoms: &[Atom],
    consistent: usize,
    have: Vec<u64>,
    wanted: Wanted,
) -> Result<Counted, Refusal>
    requires few { length (base view.now atoms.now) < 2 ^ 63 }
    requires mosts_len { length wanted.mosts.items ≡ length view.now.bounds }
    requires mosts { MostsShow view.now atoms.now wanted.mosts.items }
    requires leasts_len { length wanted.leasts.items ≡ length view.now.bounds }
    requires leasts { LeastsShow view.now atoms.now wanted.leasts.items }
    ensures consistent { IfOk result (λ r. r.consistent ≡ consistent) }
    ensures have { IfOk result (λ r. r.have.items ≡ have.items) }
    ensures table { IfOk result (λ r. (m : MatrixOf) → IsMatrix view.now m → HasOpen view.now atoms.now m → TableShows view.now atoms.now m r.table) }
    ensures why { IfErr result (λ e. e ≡ Refusal.Memory) }
{
    let table = table_of(alloc, view, atoms, wanted)?;
    let due = notes_of(alloc, &table.leasts, &have)?;
    Ok(Counted {
        consistent,
        have,
        table,
        due,
    })
}

/// The levels of a frame at the atoms, from what `counted_of` says of `part`, a matrix that has a column for each placement that
/// is open there, and the row that it made of `spare.live`. Overwrites the rest of `spare`.
pub(crate) fn levels_of<'a>(
    alloc: Global,
    view: &View,
    part: Columns<'a>,
    atoms: &[Atom],
    counted: Counted,
    spare: Spare,
) -> Result<Levels<'a>, Refusal>
    requires part { IsMatrix view.now (matrix_of part) }
    requires all { HasOpen view.now atoms.now (matrix_of part) }
    requires len { length spare.live.items ≡ (matrix_of part).width }
    requires row { RowOf (λ p. open_in view.now atoms.now p) (matrix_of part) spare.live.items }
    requires consistent { ConsistentShows view.now atoms.now (length atoms.now) counted.consistent }
    requires have_len { length counted.have.items ≡ length view.now.bounds }
    requires have { HaveShows view.now (base view.now atoms.now) counted.have.items }
    requires table { (m : MatrixOf) → IsMatrix view.now m → HasOpen view.now atoms.now m → TableShows view.now atoms.now m counted.table }
    ensures consistent { IfOk result (λ l. ConsistentShows view.now atoms.now (length atoms.now) l.consistent) }
    ensures steps { IfOk result (λ l. StepsKeep view.now atoms.now (length atoms.now) (matrix_of l.columns) l.table l.steps) }
    ensures room { IfOk result (λ l. HasRoom (matrix_of l.columns) l.steps) }
    ensures why { IfErr result (λ e. e ≡ Refusal.Memory) }
{
    let Spare {
        live,
        raised,
        marks,
        matrix,
    } = spare;
    let (columns, row) = columns_of(alloc, view, part, live, matrix)?;
    let Counted {
        consistent,
        have,
        table,
        due,
    } = counted;
    let mut steps = Steps {
        live: row,
        have,
        raised,
        marks,
        due,
    };
    let node = Node {
        view,
        trail: atoms,
        given: atoms.len(),
        base: atoms.len(),
        matrix: columns.matrix(),
        table: &table,
        alive: &[],
    };
    let Ok(_) = start(&node, &mut steps) else {
        drop(columns);
        drop(table);
        drop(steps);
        return Err(Refusal::Memory);
    };
    Ok(Levels {
        consistent,
        columns,
        table,
        steps,
    })
}
