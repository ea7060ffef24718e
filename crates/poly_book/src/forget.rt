//! Drops guards that nothing reads any more, so that a long session with few pending tasks needs little memory.
//!
//! The atoms of a pending task are read from the guards of the changes since it was made, of the change whose stair it is, and of
//! those that its base is read from. The atoms of a frozen task are read in the same way. The guards of the changes before the
//! first of these can go. They are dropped only when the log has doubled since the last time, so looking for them costs little on
//! average.
ghost use Rattle.std.specs.Prelude.{◌≡◌, ◌≤◌, option_copied};
ghost use Rattle.std.specs.List.{All};
ghost use Rattle.poly_book.specs.Keeps.{Keeps, state_of};
ghost use Rattle.poly_tasks.specs.Needed.{AreKeptFrom, ArePendingFrom, IsFrozenFrom, IsStepFrom, IsTaskFrom};

use crate::parts::Parts;
use poly_design::Change;
use poly_tasks::{Frozen, Kept, Own, Pending};
use poly_undo::{History, Step as Beside};

// A log with fewer guards is kept whole.
const MIN_GUARDS: usize = 1024;

/// Drops the guards of the changes before the first one that a pending task or a kept shelf is read from. Does nothing if the
/// log has few guards, or at most about twice as many as after the last time. Never fails.
pub(crate) fn forget(parts: &mut Parts)
    requires { Keeps parts.old }
    ensures stays { parts.new ≡ record parts.old { log = parts.new.log; settled = parts.new.settled } }
    ensures keeps { Keeps parts.new }
    ensures state { state_of parts.new ≡ state_of parts.old }
{
    let total = parts.log.total();
    if total < MIN_GUARDS || total / 2 <= parts.settled {
        return;
    }
    let edition = first_needed(&parts.tasks, &parts.history, parts.log.len() as u64);
    parts.log.forget_before(edition);
    parts.settled = parts.log.total();
}

// The first edition that a pending task or a kept shelf is read from; `end` if none is before it.
fn first_needed(tasks: &[Pending], history: &History<Change, Kept>, end: u64) -> u64
    ensures tasks { ArePendingFrom result tasks.now }
    ensures undo { AreKeptFrom result history.now.undo }
    ensures redo { AreKeptFrom result history.now.redo }
{
    let edition = first_pending(tasks, end);
    let edition = first_to_undo(history, edition);
    first_to_redo(history, edition)
}

// The first edition that a pending task is read from; `end` if none is before it.
fn first_pending(tasks: &[Pending], end: u64) -> u64
    ensures tasks { ArePendingFrom result tasks.now }
    ensures low { result ≤ end }
{
    let mut edition = end;
    for task in tasks {
        edition = first_of(&task.own, task.made, edition);
    }
    edition
}

// The first edition that a shelf of a step to undo is read from; `end` if none is before it.
fn first_to_undo(history: &History<Change, Kept>, end: u64) -> u64
    ensures undo { AreKeptFrom result history.now.undo }
    ensures low { result ≤ end }
{
    let mut edition = end;
    for i in 0..history.undo_len() {
        edition = first_kept(history.undo_step(i), edition);
    }
    edition
}

// The first edition that a shelf of a step to redo is read from; `end` if none is before it.
fn first_to_redo(history: &History<Change, Kept>, end: u64) -> u64
    ensures redo { AreKeptFrom result history.now.redo }
    ensures low { result ≤ end }
{
    let mut edition = end;
    for i in 0..history.redo_len() {
        edition = first_kept(history.redo_step(i), edition);
    }
    edition
}

// The first edition that the step's shelf is read from; `end` if none is before it.
fn first_kept(step: Option<&Beside<Change, Kept>>, end: u64) -> u64
    ensures step { IsStepFrom result (option_copied step.entry) }
    ensures low { result ≤ end }
{
    match step {
        None => end,
        Some(step) => match &step.kept {
            None => end,
            Some(kept) => match &kept.shelf {
                None => end,
                Some(shelf) => first_frozen(&shelf.frozen, end),
            },
        },
    }
}

// The first edition that a frozen task is read from; `end` if none is before it.
fn first_frozen(frozen: &[Frozen], end: u64) -> u64
    ensures frozen { All (λ f. IsFrozenFrom result f) frozen.now }
    ensures low { result ≤ end }
{
    let mut edition = end;
    for task in frozen {
        edition = first_of_frozen(task, edition);
    }
    edition
}

// The first edition that the atoms of a frozen task are read from; `end` if it isn't before it.
fn first_of_frozen(task: &Frozen, end: u64) -> u64
    ensures frozen { IsFrozenFrom result task.now }
    ensures low { result ≤ end }
{
    // Without guards it is read from its own atoms alone, whenever it was made.
    if task.count == 0 {
        return first_of(&task.own, end, end);
    }
    first_of(&task.own, task.made, end)
}

// The first edition that the atoms of a task are read from; `end` if it isn't before it.
fn first_of(own: &Own, made: u64, end: u64) -> u64
    ensures task { IsTaskFrom result own.now made }
    ensures low { result ≤ end }
{
    match own {
        Own::Listed(_, _) => made.min(end),
        Own::Stair(stair) => stair.edition.min(made).min(end),
        Own::Crossed(base, stair) => base.first_edition(stair.edition.min(made).min(end)),
    }
}
