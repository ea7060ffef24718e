//! The tasks after a change: which of the pending ones go on, and which are new.
ghost use Rattle.std.specs.Prelude.{◌≡◌, ◌≤◌, ◌<◌, ◌+◌, ◌⊎◌, IfErr, IfOk, List, OnOk, length, map, not, option_copied, true};
ghost use Rattle.poly_tiling.specs.Puzzle.{View as ViewOf};
ghost use Rattle.poly_atom.specs.declared.atom.Atom.{Atom as AtomOf};
ghost use Rattle.poly_atom.specs.Atoms.{AllSmall};
ghost use Rattle.poly_atom.specs.Hopeless.{hopeless};
ghost use Rattle.poly_atom.specs.Stairs.{stairs};
ghost use Rattle.poly_book.specs.Changing.{AreNext};
ghost use Rattle.poly_book.specs.Events.{hopeless_endings};
ghost use Rattle.poly_tasks.specs.Judged.{LackOnce};
ghost use Rattle.poly_book.specs.Keeps.{Keeps};
ghost use Rattle.poly_tasks.specs.Mapped.{AreNoted};
ghost use Rattle.poly_tasks.specs.Meaning.{IsHeld, own_of, stored_of, tasks_of};
ghost use Rattle.poly_tasks.specs.Shelves.{openings};
ghost use Rattle.poly_tasks.specs.Tasks.{hopeful};
ghost use Rattle.poly_tasks.specs.Touching.{IsMadeBy};

use crate::parts::Parts;
use crate::step::Ending;
use poly_atom::Atom;
use poly_design::Change;
use poly_grid::Refusal;
use poly_place::Delta;
use poly_tasks::{Pending, Shelf, Touch, fresh_tasks, reached, surviving};
use poly_tiling::View;
use std::alloc::Global;

/// The effect of a change on the tasks.
#[derive(Drop)]
pub(crate) struct NextTasks {
    /// The tasks that it opens.
    pub fresh: Vec<Pending>,
    /// Which of the pending tasks go on.
    pub flags: Vec<bool>,
    /// The endings of the pending tasks that don't go on.
    pub ended: Vec<Ending>,
}

/// What the change that leads to the view does to the tasks. `laid` are the guards of the change, and `stood` is the shelf
/// that was kept for it, if there is one. Refused with `Spent` if a task number would pass its last value, or with `Memory`.
pub(crate) fn next_tasks(
    parts: &Parts,
    view: &View,
    delta: &Delta,
    change: &Change,
    laid: &[Atom],
    stood: Option<&Shelf>,
) -> Result<NextTasks, Refusal>
    requires keeps { Keeps parts.now }
    requires noted { AreNoted parts.now.register.maps parts.now.log parts.now.tasks.items }
    requires made { IsMadeBy parts.now.scene view.now delta.now change.now }
    requires small { AllSmall laid.now }
    requires once { LackOnce laid.now }
    requires held { IsHeld parts.now.log (option_copied stood) }
    ensures ok { IfOk result (λ t. AreNext view.now parts.now.log parts.now.tasks.items laid.now (stored_of parts.now.log (option_copied stood.entry)) parts.now.next t) }
    ensures why { IfErr result (λ e. ((e ≡ Refusal.Spent) × (4294967296 < parts.now.next + length (hopeful view.now (openings (stored_of parts.now.log (option_copied stood.entry)) (stairs laid.now))))) ⊎ (e ≡ Refusal.Memory)) }
{
    let alloc = parts.alloc;
    let edition = parts.log.len() as u64;
    let fresh = fresh_tasks(alloc, view, &parts.log, laid, stood, parts.next, edition)?;
    let flags = going_on(parts, view, delta, change)?;
    let ended = endings_of(alloc, &parts.tasks, &flags, edition + 1)?;
    Ok(NextTasks {
        fresh,
        flags,
        ended,
    })
}

// Which tasks go on after the change.
fn going_on(
    parts: &Parts,
    view: &View,
    delta: &Delta,
    change: &Change,
) -> Result<Vec<bool>, Refusal>
    requires keeps { Keeps parts.now }
    requires noted { AreNoted parts.now.register.maps parts.now.log parts.now.tasks.items }
    requires made { IsMadeBy parts.now.scene view.now delta.now change.now }
    ensures ok { IfOk result (λ v. v.items ≡ map (λ p. not (hopeless view.now (own_of parts.now.log p.own))) parts.now.tasks.items) }
    ensures why { IfErr result (λ e. e ≡ Refusal.Memory) }
{
    let touch = Touch::new(parts.alloc, view, delta, change)?;
    let reach = reached(parts.alloc, &touch, &parts.register.maps, &parts.tasks)?;
    let flags = surviving(parts.alloc, &touch, &parts.log, &parts.tasks, &reach)?;
    Ok(flags)
}

// The endings of the tasks that don't go on.
fn endings_of(
    alloc: Global,
    tasks: &[Pending],
    flags: &[bool],
    edition: u64,
) -> Result<Vec<Ending>, Refusal>
    requires { length flags.now ≡ length tasks.now }
    ensures ok { IfOk result (λ v. (log : List (List AtomOf)) (w : ViewOf) → flags.now ≡ map (λ p. not (hopeless w (own_of log p.own))) tasks.now → v.items ≡ hopeless_endings w edition (tasks_of log tasks.now)) }
    ensures why { IfErr result (λ e. e ≡ Refusal.Memory) }
{
    let mut all = Vec::new(alloc);
    for i in 0..tasks.len() {
        if flags[i] {
            continue;
        }
        all.push(Ending::Hopeless {
            task: tasks[i].number,
            edition,
        })?;
    }
    Ok(all)
}
