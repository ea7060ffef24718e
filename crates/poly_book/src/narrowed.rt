//! The cover matrices of tasks that were explored. A task's matrix has columns only for the placements that are open at its
//! atoms, so it also serves the tasks that go on from these atoms, as the rests of the task's report do. A settling book takes
//! the newest task each time. So the last matrix of the list mostly serves the next task, and making a matrix for that task
//! takes fewer instructions from there than from the whole matrix.
ghost use Rattle.std.specs.Prelude.{◌≡◌, IfErr, IfSome, IsTrue};
ghost use Rattle.poly_frame.specs.FrameTable.{HasOpen};
ghost use Rattle.poly_frame.specs.Matrices.{IsMatrix, IsWhole};
ghost use Rattle.poly_tiling.specs.Puzzle.{View as ViewOf};

use poly_atom::Atom;
use poly_grid::Refusal;
use poly_report::{Matrix, Room};
use poly_tasks::is_same_list;
use std::alloc::Global;

/// The most matrices that are kept. Each has less than three quarters of the columns of the one before it, so a few go far: the
/// eighth has at most a tenth of the columns of the whole matrix. Their rows together take less than three times the memory of
/// the whole matrix's rows, which can be a megabyte if the design has 20,000 placements.
pub(crate) const KEPT: usize = 8;

/// The matrix of some atoms.
#[derive(Drop)]
pub(crate) struct Narrowed {
    /// The atoms.
    atoms: Vec<Atom>,
    /// A matrix of the view with a column for each placement that is open at the atoms.
    matrix: Matrix,
}

ghost use Rattle.poly_book.specs.Scenes.{AreNarrowed, IsNarrowed};

impl Narrowed {
    // If this is true, the atoms begin with those of the matrix, so each placement that is open at them has a column.
    fn serves(&self, atoms: &[Atom]) -> bool
        ensures { IsTrue result → (v : ViewOf) → IsNarrowed v self.now → HasOpen v atoms.now self.now.matrix }
    {
        let count = self.atoms.len();
        count <= atoms.len() && is_same_list(&atoms[..count], &self.atoms)
    }
}

/// Drops the first matrix that doesn't serve the atoms, and those after it, which are narrower.
pub(crate) fn drop_others(narrower: &mut Vec<Narrowed>, atoms: &[Atom])
    ensures { (v : ViewOf) → AreNarrowed v narrower.old.items → AreNarrowed v narrower.new.items }
{
    if let Some(k) = narrower.iter().position(|n| !n.serves(atoms)) {
        narrower.truncate(k);
    }
}

/// Lets the next search use the memory of the matrix, if there is one.
pub(crate) fn reuse(own: Option<Matrix>, room: &mut Room) {
    if let Some(matrix) = own {
        room.reuse(matrix);
    }
}

/// A matrix with a column for each placement that is open at the atoms: the last of the list if it serves them, otherwise the
/// whole one.
pub(crate) fn nearest<'a>(whole: &'a Matrix, narrower: &'a [Narrowed], atoms: &[Atom]) -> &'a Matrix
    ensures part { (v : ViewOf) → IsWhole v whole.now → AreNarrowed v narrower.now → IsMatrix v result.now }
    ensures all { (v : ViewOf) → IsWhole v whole.now → AreNarrowed v narrower.now → HasOpen v atoms.now result.now }
{
    match narrower.last() {
        None => whole,
        Some(last) => {
            if last.serves(atoms) {
                &last.matrix
            } else {
                whole
            }
        }
    }
}

/// Adds the matrix of the atoms, if there is one, unless [`KEPT`] are kept already. Fails only when out of memory.
pub(crate) fn keep(
    alloc: Global,
    narrower: &mut Vec<Narrowed>,
    atoms: &[Atom],
    own: Option<Matrix>,
) -> Result<(), Refusal>
    ensures kept { (v : ViewOf) → AreNarrowed v narrower.old.items → IfSome own (λ m. IsMatrix v m × HasOpen v atoms.now m) → AreNarrowed v narrower.new.items }
    ensures why { IfErr result (λ e. e ≡ Refusal.Memory) }
{
    let Some(matrix) = own else {
        return Ok(());
    };
    if narrower.len() >= KEPT {
        drop(matrix);
        return Ok(());
    }
    let Ok(atoms) = Vec::from_slice(alloc, atoms) else {
        drop(matrix);
        return Err(Refusal::Memory);
    };
    narrower.push(Narrowed { atoms, matrix })?;
    Ok(())
}
