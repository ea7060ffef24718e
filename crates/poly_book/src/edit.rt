//! Edits, undos and redos. Each makes a change of the design, by `apply_change`.
ghost use Rattle.std.specs.Prelude.{◌≡◌, ◌⊎◌, [], IfErr, IfOk, OnErr, OnOk, Some};
ghost use Rattle.poly_design.specs.declared.change.Change.{Change as ChangeOf};
ghost use Rattle.poly_undo.specs.Steps.{next_of};
ghost use Rattle.poly_undo.specs.declared.step.Step.{Step as Beside};
ghost use Rattle.poly_book.specs.Amounts.{IsNarrow, RedoIsFull, UndoIsFull};
ghost use Rattle.poly_book.specs.Changing.{IsTop};
ghost use Rattle.poly_book.specs.Keeps.{Keeps, state_of};
ghost use Rattle.poly_book.specs.QuietReturns.{ReturnsQuietly};
ghost use Rattle.poly_book.specs.Replay.{origins};
ghost use Rattle.poly_book.specs.Refused.{IsNotEdited, IsNotRedone, IsNotUndone};
ghost use Rattle.poly_book.specs.Steps.{IsEdited, IsRedone, IsUndone};
ghost use Rattle.poly_tasks.specs.declared.shelf.Kept.{Kept as KeptOf};

use crate::apply::apply_change;
use crate::book::Book;
use crate::parts::Parts;
use crate::step::{Done, Kind};
use poly_design::{Change, Edit};
use poly_grid::Refusal;
use poly_tasks::Kept;
use poly_undo::History;

impl Book {
    /// Makes the change that the edit asks for. Listed tilings that are still tilings stay listed. Tilings that are new belong
    /// to new tasks.
    ///
    /// Refused as `Design::check` refuses. Otherwise refused with `TooWide` if the change or its inverse has over 20,000
    /// guards, with `Spent` if the edition, a task number or a placement number would pass its last value, or with `Memory`;
    /// if several of these apply, any of them may come. A refused edit leaves the book as it was.
    pub fn edit(&mut self, edit: Edit) -> Result<Done, Refusal>
        ensures ok { IfOk result (λ done. IsEdited edit self.old self.new done) }
        ensures narrow { OnOk result (IsNarrow self.old.design self.new.design) }
        ensures err { OnErr result (self.new ≡ self.old) }
        ensures why { IfErr result (λ e. IsNotEdited edit self.old e) }
    {
        let change = self.parts.design.check(&edit)?;
        apply_change(&mut self.parts, Kind::Edit, change)
    }

    /// Undoes the newest change that can be undone. The history keeps at most 256 changes. If no task was pending when that
    /// change was made, and a shelf was kept for each undo and redo since, no task is pending afterwards, and all tilings of the
    /// design before that change are listed.
    ///
    /// Refused with `NothingToUndo` if there is none. Otherwise refused with `Spent` as for an edit, with `CatalogueFull` if
    /// over 1,000,000 tilings would be listed, or with `Memory`. A refused undo leaves the book as it was.
    pub fn undo(&mut self) -> Result<Done, Refusal>
        ensures ok { IfOk result (λ done. IsUndone self.old self.new done) }
        ensures quiet { IfOk result (λ _. ReturnsQuietly (origins self.old.steps).back self.old self.new) }
        ensures err { OnErr result (self.new ≡ self.old) }
        ensures why { IfErr result (λ e. IsNotUndone self.old e) }
        ensures full { IfErr result (λ e. e ≡ Refusal.CatalogueFull → UndoIsFull self.old) }
    {
        undo_change(&mut self.parts)
    }

    /// Of the changes that can be redone, redoes the one that was undone last. If no task was pending when it was undone, and a
    /// shelf was kept for each undo and redo since, no task is pending afterwards, and all tilings of the design before that
    /// undo are listed.
    ///
    /// Refused with `NothingToRedo` if there is none. Otherwise refused with `Spent` as for an edit, with `CatalogueFull` if
    /// over 1,000,000 tilings would be listed, or with `Memory`. A refused redo leaves the book as it was.
    pub fn redo(&mut self) -> Result<Done, Refusal>
        ensures ok { IfOk result (λ done. IsRedone self.old self.new done) }
        ensures quiet { IfOk result (λ _. ReturnsQuietly (origins self.old.steps).forth self.old self.new) }
        ensures err { OnErr result (self.new ≡ self.old) }
        ensures why { IfErr result (λ e. IsNotRedone self.old e) }
        ensures full { IfErr result (λ e. e ≡ Refusal.CatalogueFull → RedoIsFull self.old) }
    {
        redo_change(&mut self.parts)
    }
}

// Undoes the newest change that can be undone.
fn undo_change(parts: &mut Parts) -> Result<Done, Refusal>
    requires { Keeps parts.old }
    ensures keeps { Keeps parts.new }
    ensures ok { IfOk result (λ done. IsUndone (state_of parts.old) (state_of parts.new) done) }
    ensures err { OnErr result (state_of parts.new ≡ state_of parts.old) }
    ensures why { IfErr result (λ e. IsNotUndone (state_of parts.old) e) }
{
    let change = change_to_undo(&parts.history)?;
    apply_change(parts, Kind::Undo, change)
}

// Of the changes that can be redone, redoes the one that was undone last.
fn redo_change(parts: &mut Parts) -> Result<Done, Refusal>
    requires { Keeps parts.old }
    ensures keeps { Keeps parts.new }
    ensures ok { IfOk result (λ done. IsRedone (state_of parts.old) (state_of parts.new) done) }
    ensures err { OnErr result (state_of parts.new ≡ state_of parts.old) }
    ensures why { IfErr result (λ e. IsNotRedone (state_of parts.old) e) }
{
    let change = change_to_redo(&parts.history)?;
    apply_change(parts, Kind::Redo, change)
}

// The inverse of the newest change that can be undone.
fn change_to_undo(history: &History<Change, Kept>) -> Result<Change, Refusal>
    ensures top { IfOk result (λ x. IsTop Kind.Undo history.now x) }
    ensures why { IfErr result (λ e. ((e ≡ Refusal.NothingToUndo) × (history.now.undo ≡ [])) ⊎ ((e ≡ Refusal.Memory) × (top : Beside ChangeOf KeptOf) × (next_of history.now.undo ≡ Some top))) }
{
    let Some(step) = history.last() else {
        return Err(Refusal::NothingToUndo);
    };
    let change = step.change.copy()?;
    Ok(change.inverse())
}

// A copy of the change that was undone last, of those that can be redone.
fn change_to_redo(history: &History<Change, Kept>) -> Result<Change, Refusal>
    ensures top { IfOk result (λ x. IsTop Kind.Redo history.now x) }
    ensures why { IfErr result (λ e. ((e ≡ Refusal.NothingToRedo) × (history.now.redo ≡ [])) ⊎ ((e ≡ Refusal.Memory) × (top : Beside ChangeOf KeptOf) × (next_of history.now.redo ≡ Some top))) }
{
    let Some(step) = history.ahead() else {
        return Err(Refusal::NothingToRedo);
    };
    let change = step.change.copy()?;
    Ok(change)
}
