//! Taking tasks. Taking changes nothing, so two workers may take the same task.
ghost use Rattle.std.specs.Prelude.{◌≡◌, IfErr, IfOk, MatchOption, length};
ghost use Rattle.std.specs.Arc.{arc_value};
ghost use Rattle.std.specs.List.Sorted.{IsNonDecreasingBy};
ghost use Rattle.poly_book.specs.Jobs.{IsMissing, IsTaken};
ghost use Rattle.poly_book.specs.Keeps.{Keeps, state_of};
ghost use Rattle.poly_tasks.specs.Meaning.{IsTask, task_of};
ghost use Rattle.poly_tasks.specs.Nexts.{IsLeastFrom, NoneFrom, number_from};
ghost use Rattle.poly_tasks.specs.Tasks.{atoms_of};

use crate::book::Book;
use crate::hand_in::index_of;
use crate::parts::Parts;
use poly_atom::Atom;
use poly_grid::Refusal;
use poly_tasks::{Pending, all_atoms};
use poly_tiling::View;
use std::sync::Arc;

/// Which task to take.
#[derive(Clone, Copy, Debug, PartialEq, Eq)]
pub enum Which {
    /// Some pending task.
    Any,
    /// The task with this number.
    Task(u32),
}

/// A task to be worked on.
#[derive(Drop)]
pub struct Job {
    /// The task's number.
    pub task: u32,
    /// The edition at which the task was taken.
    pub edition: u64,
    /// The task's own atoms, and the guards of every change since the task was made.
    pub atoms: Vec<Atom>,
    /// The design at that edition, by numbers.
    pub view: Arc<View>,
}

impl Book {
    /// A pending task with its atoms: the newest for `Any`, otherwise the one with the given number. `None` only if no task
    /// is pending, or if a task was asked for by its number and isn't pending. Fails only when out of memory.
    pub fn take(&self, which: Which) -> Result<Option<Job>, Refusal>
        ensures ok { IfOk result (λ o. MatchOption o (IsMissing self.now which) (λ j. IsTaken self.now which j)) }
        ensures why { IfErr result (λ e. e ≡ Refusal.Memory) }
    {
        match which {
            Which::Any => take_any(&self.parts),
            Which::Task(number) => take_number(&self.parts, number),
        }
    }

    /// The least number of a pending task that is at least `from`; `None` if there is none. Never allocates.
    pub fn next(&self, from: u32) -> Option<u32>
        ensures { MatchOption result (NoneFrom from self.now.pending) (λ n. IsLeastFrom from self.now.pending n) }
    {
        first_from(&self.parts.tasks, from)
    }
}

// A job for the task with the number, if it is pending.
fn take_number(parts: &Parts, number: u32) -> Result<Option<Job>, Refusal>
    requires { Keeps parts.now }
    ensures ok { IfOk result (λ o. MatchOption o (IsMissing (state_of parts.now) (Which.Task number)) (λ j. IsTaken (state_of parts.now) (Which.Task number) j)) }
    ensures why { IfErr result (λ e. e ≡ Refusal.Memory) }
{
    let Some(at) = index_of(&parts.tasks, number) else {
        return Ok(None);
    };
    let taken = make_job(parts, &parts.tasks[at])?;
    Ok(Some(taken))
}

// A job for the newest task, if one is pending. Taking the newest keeps the number of pending tasks small.
fn take_any(parts: &Parts) -> Result<Option<Job>, Refusal>
    requires { Keeps parts.now }
    ensures ok { IfOk result (λ o. MatchOption o (IsMissing (state_of parts.now) Which.Any) (λ j. IsTaken (state_of parts.now) Which.Any j)) }
    ensures why { IfErr result (λ e. e ≡ Refusal.Memory) }
{
    if parts.tasks.is_empty() {
        return Ok(None);
    }
    let taken = make_job(parts, &parts.tasks[parts.tasks.len() - 1])?;
    Ok(Some(taken))
}

// A job for the task.
fn make_job(parts: &Parts, task: &Pending) -> Result<Job, Refusal>
    requires { IsTask parts.now.log task.now }
    ensures task { IfOk result (λ j. j.task ≡ task.now.number) }
    ensures edition { IfOk result (λ j. j.edition ≡ length parts.now.steps.items) }
    ensures atoms { IfOk result (λ j. j.atoms.items ≡ atoms_of (task_of parts.now.log task.now)) }
    ensures view { IfOk result (λ j. arc_value j.view ≡ parts.now.scene) }
    ensures why { IfErr result (λ e. e ≡ Refusal.Memory) }
{
    let atoms = all_atoms(parts.alloc, &parts.log, task)?;
    let view = Arc::try_clone(parts.scene.shared())?;
    Ok(Job {
        task: task.number,
        edition: parts.steps.len() as u64,
        atoms,
        view,
    })
}

// The first task number that is at least `from`, found by binary search.
fn first_from(tasks: &[Pending], from: u32) -> Option<u32>
    requires { IsNonDecreasingBy (λ p. p.number) tasks.now }
    ensures { result ≡ number_from from tasks.now }
{
    let index = tasks.partition_point(|task| task.number < from);
    if index < tasks.len() {
        return Some(tasks[index].number);
    }
    None
}
