//! Which pending tasks go on after a change: those whose own atoms aren't hopeless then.
ghost use Rattle.std.specs.Prelude.{◌≡◌, ◌≤◌, IfErr, IfOk, List, OnOk, length, map, not, true};
ghost use Rattle.std.specs.List.{list_any};
ghost use Rattle.poly_atom.specs.declared.atom.Atom.{Atom as AtomOf};
ghost use Rattle.poly_atom.specs.Hopeless.{hopeless};
ghost use Rattle.poly_tasks.specs.declared.touch.Touch.{Touch as TouchOf};
ghost use Rattle.poly_tasks.specs.Meaning.{AreTasks, IsOwn, own_of};
ghost use Rattle.poly_tasks.specs.Reaching.{AreEndsReached};
ghost use Rattle.poly_tasks.specs.Touching.{AreTold, AreTouched, IsSurvey, IsTold, touches};

use crate::lead::Lead;
use crate::spoilt::{is_spoilt, spoiler_of};
use crate::spots::Spots;
use crate::task::{Own, Pending, append_harmful_own, ends_by_stair, read_brief};
use crate::touch::Touch;
use crate::untouched::{Untouched, is_untouched};
use poly_atom::{Atom, GuardLog, Stair, hopeless};
use poly_grid::Refusal;
use std::alloc::Global;

// What is known of the change and the log, and what is used again for each task.
#[derive(Drop)]
struct Survey {
    // The first guards of an edition, none of which the change touches.
    untouched: Untouched,
    // A guard that is hopeless alone after the change, if one is known. It is named by the stair that negates it.
    spoiler: Option<Stair>,
    // Where the log lacks the placements that the change pins, once a task had to be judged.
    spots: Spots,
    // The `Lacks` that the guards of an edition begin with.
    lead: Lead,
    // The atoms of a task that are judged.
    atoms: Vec<Atom>,
    // A list that the task's own atoms begin with.
    list: Vec<Atom>,
}

impl Survey {
    // Nothing is known yet.
    fn new(alloc: Global) -> Survey
        ensures { (t : TouchOf) (log : List (List AtomOf)) → IsSurvey t log result }
    {
        Survey {
            untouched: Untouched::none(),
            spoiler: None,
            spots: Spots::none(alloc),
            lead: Lead::none(),
            atoms: Vec::new(alloc),
            list: Vec::new(alloc),
        }
    }
}

/// Which tasks go on. Checks only the tasks that are reached: those whose number is at most the value of `reach` at their
/// index or at an earlier one. Fails only when out of memory.
pub fn surviving(
    alloc: Global,
    touch: &Touch<'_>,
    log: &GuardLog,
    tasks: &[Pending],
    reach: &[u32],
) -> Result<Vec<bool>, Refusal>
    requires tasks { AreTasks log.now tasks.now }
    requires len { length reach.now ≡ length tasks.now }
    requires reached { AreEndsReached touch.now.view.now log.now tasks.now reach.now }
    requires touched { AreTouched touch.now log.now tasks.now }
    requires told { AreTold touch.now log.now tasks.now }
    ensures ok { IfOk result (λ v. v.items ≡ map (λ p. not (hopeless touch.now.view.now (own_of log.now p.own))) tasks.now) }
    ensures why { IfErr result (λ e. e ≡ Refusal.Memory) }
{
    let mut flags = Vec::new(alloc);
    let mut survey = Survey::new(alloc);
    let mut far = 0;
    for (i, task) in tasks.iter().enumerate() {
        far = reach[i].max(far);
        let ends = ends_by(touch, log, task, far, &mut survey)?;
        flags.push(!ends)?;
    }
    Ok(flags)
}

// Whether the task's own atoms are hopeless after the change. They aren't if the task's number is over `far`, or if the change
// touches none of them.
fn ends_by(
    touch: &Touch<'_>,
    log: &GuardLog,
    task: &Pending,
    far: u32,
    survey: &mut Survey,
) -> Result<bool, Refusal>
    requires own { IsOwn log.now task.now.own }
    requires reached { hopeless touch.now.view.now (own_of log.now task.now.own) ≡ true → task.now.number ≤ far }
    requires touched { hopeless touch.now.view.now (own_of log.now task.now.own) ≡ true → list_any (λ a. touches touch.now a) (own_of log.now task.now.own) ≡ true }
    requires told { IsTold touch.now log.now task.now.own }
    requires ready { IsSurvey touch.now log.now survey.old }
    ensures ok { IfOk result (λ yes. yes ≡ hopeless touch.now.view.now (own_of log.now task.now.own)) }
    ensures ready { OnOk result (IsSurvey touch.now log.now survey.new) }
    ensures why { IfErr result (λ e. e ≡ Refusal.Memory) }
{
    if task.number > far || is_untouched(touch, log, &task.own, &mut survey.untouched) {
        return Ok(false);
    }
    let view = touch.view;
    if is_spoilt(view, log, &task.own, survey.spoiler) || ends_by_stair(view, log, &task.own) {
        return Ok(true);
    }
    let ends = is_hopeless(touch, log, &task.own, survey)?;
    if ends {
        survey.spoiler = spoiler_of(view, log, &task.own);
    }
    Ok(ends)
}

// Whether the own atoms are hopeless after the change. Nearly all of them are `Lacks`, and nearly all others but those that ask for
// a placement aren't touched, so these are left out first. Of the `Lacks`, only those of a placement that the change pins can do harm.
fn is_hopeless(
    touch: &Touch<'_>,
    log: &GuardLog,
    own: &Own,
    survey: &mut Survey,
) -> Result<bool, Refusal>
    requires own { IsOwn log.now own.now }
    requires told { IsTold touch.now log.now own.now }
    requires ready { IsSurvey touch.now log.now survey.old }
    ensures ok { IfOk result (λ yes. yes ≡ hopeless touch.now.view.now (own_of log.now own.now)) }
    ensures ready { OnOk result (IsSurvey touch.now log.now survey.new) }
    ensures why { IfErr result (λ e. e ≡ Refusal.Memory) }
{
    let atoms = &mut survey.atoms;
    read_brief(log, own, &mut survey.lead, atoms)?;
    atoms.retain(|atom| touch.matters(atom));
    let ends = hopeless(touch.view, atoms);
    let brief = touch.delta.pinned.is_empty();
    if ends || brief {
        return Ok(ends);
    }
    survey.spots.find(log, &touch.delta.pinned)?;
    append_harmful_own(log, own, &survey.spots, &mut survey.list, atoms)?;
    Ok(hopeless(touch.view, atoms))
}
