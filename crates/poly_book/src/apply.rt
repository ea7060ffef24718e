//! Applies a change to the parts of a book. Everything that may be refused comes first; after the exchange of the listed
//! tilings, nothing allocates.
ghost use Rattle.std.specs.Prelude.{◌≡◌, ◌≤◌, ◌<◌, ◌+◌, ◌++◌, ◌∷◌, ◌⊎◌, [], IfErr, IfOk, OnErr, OnOk, false, length, slice_index_or, true, vec_capacity, vec_len};
ghost use Rattle.std.specs.List.{filter, items_where_true, list_all};
ghost use Rattle.std.specs.Arc.{arc_value};
ghost use Rattle.poly_design.specs.Changes.{HasBefore, changed};
ghost use Rattle.poly_design.specs.Limits.{IsDesign};
ghost use Rattle.poly_tiling.specs.Puzzle.{is_tiling};
ghost use Rattle.poly_atom.specs.Atoms.{AllSmall};
ghost use Rattle.poly_catalogue.specs.Listed.{AreOfEither, AreOnce, AreSame};
ghost use Rattle.poly_book.specs.Amounts.{IsNarrow};
ghost use Rattle.poly_book.specs.Changing.{CanNote, IsTop, Noted, shelved_by};
ghost use Rattle.poly_book.specs.Entering.{IsEntered};
ghost use Rattle.poly_book.specs.Keeps.{Keeps, state_of};
ghost use Rattle.poly_tasks.specs.Mapped.{AreNoted};
ghost use Rattle.poly_book.specs.Refused.{IsNotMade};
ghost use Rattle.poly_book.specs.Steps.{IsDone};
ghost use Rattle.poly_tiling.specs.declared.lister.TheConstants.{MAX_TILINGS};

use crate::forget::forget;
use crate::next_tasks::NextTasks;
use crate::parts::Parts;
use crate::prepare::{Entry, Prepared, is_shelved, prepare};
use crate::scene::Scene;
use crate::step::{Done, Ending, Kind, Step};
use poly_atom::GuardLog;
use poly_catalogue::Catalogue;
use poly_design::Change;
use poly_grid::Refusal;
use poly_place::Delta;
use poly_tasks::{Kept, Pending};
use poly_tiling::View;
use poly_undo::History;
use std::mem::replace;

/// Applies the change. First notes the pending tasks that aren't noted yet. Afterwards drops guards that nothing reads any
/// more.
pub(crate) fn apply_change(parts: &mut Parts, kind: Kind, change: Change) -> Result<Done, Refusal>
    requires keeps { Keeps parts.old }
    requires before { HasBefore parts.old.design change }
    requires design { IsDesign (changed parts.old.design change) }
    requires top { IsTop kind parts.old.history change }
    ensures keeps { Keeps parts.new }
    ensures ok { IfOk result (λ done. IsDone kind change (state_of parts.old) (state_of parts.new) done) }
    ensures narrow { OnOk result (kind ≡ Kind.Edit → IsNarrow parts.old.design parts.new.design) }
    ensures err { OnErr result (state_of parts.new ≡ state_of parts.old) }
    ensures why { IfErr result (λ e. IsNotMade kind change (state_of parts.old) e) }
{
    let (steps, ready) = enter_change(parts, kind, &change)?;
    let Steps { noted, told } = steps;
    finish_change(parts, kind, change, noted, ready);
    let place = parts.steps.len() as u64;
    forget(parts);
    Ok(Done { place, step: told })
}

// Does all of the change that may be refused: its guards are in the log, and the listed tilings are exchanged. What is left of it
// is handed back, with the step that it becomes.
fn enter_change(
    parts: &mut Parts,
    kind: Kind,
    change: &Change,
) -> Result<(Steps, Prepared), Refusal>
    requires keeps { Keeps parts.old }
    requires before { HasBefore parts.old.design change.now }
    requires design { IsDesign (changed parts.old.design change.now) }
    requires top { IsTop kind parts.old.history change.now }
    ensures ok { IfOk result (λ r. IsEntered kind change.now parts.old parts.new r.1) }
    ensures noted { IfOk result (λ r. r.0.noted ≡ record { kind = kind; change = change.now; pending = length parts.old.tasks.items; shelved = shelved_by parts.old.log kind parts.old.history }) }
    ensures told { IfOk result (λ r. r.0.told ≡ r.0.noted) }
    ensures narrow { OnOk result (kind ≡ Kind.Edit → IsNarrow parts.old.design (changed parts.old.design change.now)) }
    ensures keeps { OnErr result (Keeps parts.new) }
    ensures err { OnErr result (state_of parts.new ≡ state_of parts.old) }
    ensures why { IfErr result (λ e. IsNotMade kind change.now (state_of parts.old) e) }
{
    catch_up(parts)?;
    let steps = steps_of(parts, kind, change)?;
    match prepare_and_enter(parts, kind, change) {
        Ok(ready) => Ok((steps, ready)),
        Err(refusal) => {
            drop(steps);
            Err(refusal)
        }
    }
}

// Prepares the change, adds its guards to the log and exchanges the listed tilings.
fn prepare_and_enter(parts: &mut Parts, kind: Kind, change: &Change) -> Result<Prepared, Refusal>
    requires keeps { Keeps parts.old }
    requires noted { AreNoted parts.old.register.maps parts.old.log parts.old.tasks.items }
    requires before { HasBefore parts.old.design change.now }
    requires design { IsDesign (changed parts.old.design change.now) }
    requires top { IsTop kind parts.old.history change.now }
    ensures ok { IfOk result (λ r. IsEntered kind change.now parts.old parts.new r) }
    ensures narrow { OnOk result (kind ≡ Kind.Edit → IsNarrow parts.old.design (changed parts.old.design change.now)) }
    ensures keeps { OnErr result (Keeps parts.new) }
    ensures err { OnErr result (state_of parts.new ≡ state_of parts.old) }
    ensures why { IfErr result (λ e. IsNotMade kind change.now (state_of parts.old) e) }
{
    let (entry, ready) = prepare(parts, kind, change)?;
    match enter(
        &mut parts.log,
        &mut parts.listed,
        &ready.view,
        &ready.plan.delta,
        entry,
    ) {
        Ok(()) => Ok(ready),
        Err(refusal) => {
            drop(ready);
            Err(refusal)
        }
    }
}

/// Notes the pending tasks that aren't noted yet. Fails only when out of memory.
pub(crate) fn catch_up(parts: &mut Parts) -> Result<(), Refusal>
    requires { Keeps parts.old }
    ensures stays { parts.new ≡ record parts.old { register = parts.new.register } }
    ensures keeps { Keeps parts.new }
    ensures noted { OnOk result (AreNoted parts.new.register.maps parts.new.log parts.new.tasks.items) }
    ensures why { IfErr result (λ e. e ≡ Refusal.Memory) }
{
    parts
        .register
        .catch_up(&parts.log, &parts.tasks, parts.next)
}

// Does what is left of a prepared change, which can no longer fail. Its guards are already in the log, and the listed tilings
// are already exchanged.
fn finish_change(parts: &mut Parts, kind: Kind, change: Change, step: Step, ready: Prepared)
    requires history { CanNote kind parts.old.history }
    requires table { (arc_value ready.plan.view).placements ≡ parts.old.table.placements }
    requires tasks { length ready.tasks.flags.items ≡ length parts.old.tasks.items }
    requires room { vec_len parts.old.tasks + length ready.tasks.fresh.items ≤ vec_capacity parts.old.tasks }
    requires steps { vec_len parts.old.steps < vec_capacity parts.old.steps }
    requires endings { vec_len parts.old.endings + length ready.tasks.ended.items ≤ vec_capacity parts.old.endings }
    requires next { parts.old.next + length ready.tasks.fresh.items ≤ 4294967296 }
    ensures stays { parts.new ≡ record parts.old { design = parts.new.design; table = parts.new.table; scene = parts.new.scene; tasks = parts.new.tasks; next = parts.new.next; history = parts.new.history; steps = parts.new.steps; endings = parts.new.endings } }
    ensures design { parts.new.design ≡ ready.after }
    ensures table { parts.new.table ≡ arc_value ready.plan.view }
    ensures scene { parts.new.scene ≡ arc_value ready.view }
    ensures tasks { parts.new.tasks.items ≡ items_where_true ready.tasks.flags.items parts.old.tasks.items ++ ready.tasks.fresh.items }
    ensures next { parts.new.next ≡ parts.old.next + length ready.tasks.fresh.items }
    ensures history { Noted kind parts.old.history parts.new.history change (record { made = length parts.old.steps.items + 1; shelf = ready.shelf }) }
    ensures steps { parts.new.steps.items ≡ parts.old.steps.items ++ step ∷ [] }
    ensures endings { parts.new.endings.items ≡ parts.old.endings.items ++ ready.tasks.ended.items }
{
    let Prepared {
        after,
        plan,
        view,
        tasks,
        shelf,
    } = ready;
    parts.steps.push_reserved(step);
    let made = parts.steps.len() as u64;
    parts.table.make(plan);
    parts.design = after;
    drop(replace(&mut parts.scene, Scene::new(parts.alloc, view)));
    parts.next += tasks.fresh.len() as u64;
    note(&mut parts.history, kind, change, Kept { made, shelf });
    replace_tasks(&mut parts.tasks, &mut parts.endings, tasks);
}

// The step that a change becomes, twice.
#[derive(Drop)]
struct Steps {
    // The book keeps this one.
    noted: Step,
    // The answer tells this one.
    told: Step,
}

// The step that the change is about to become, twice.
fn steps_of(parts: &Parts, kind: Kind, change: &Change) -> Result<Steps, Refusal>
    ensures noted { IfOk result (λ s. s.noted ≡ record { kind = kind; change = change.now; pending = length parts.now.tasks.items; shelved = shelved_by parts.now.log kind parts.now.history }) }
    ensures told { IfOk result (λ s. s.told ≡ s.noted) }
    ensures why { IfErr result (λ e. e ≡ Refusal.Memory) }
{
    let noted = step_of(parts, kind, change)?;
    match step_of(parts, kind, change) {
        Ok(told) => Ok(Steps { noted, told }),
        Err(refusal) => {
            drop(noted);
            Err(refusal)
        }
    }
}

// The step that the change is about to become.
fn step_of(parts: &Parts, kind: Kind, change: &Change) -> Result<Step, Refusal>
    ensures ok { IfOk result (λ s. s ≡ record { kind = kind; change = change.now; pending = length parts.now.tasks.items; shelved = shelved_by parts.now.log kind parts.now.history }) }
    ensures why { IfErr result (λ e. e ≡ Refusal.Memory) }
{
    let copy = change.copy()?;
    Ok(Step {
        kind,
        change: copy,
        pending: parts.tasks.len() as u64,
        shelved: is_shelved(&parts.history, kind),
    })
}

// Adds the guards to the log and exchanges the listed tilings. If it is refused, both stay as they were. A change without
// tilings to list again is never refused for the catalogue's limit. Whether the limit allows the change is asked first, before
// the log grows.
fn enter(
    log: &mut GuardLog,
    listed: &mut Catalogue,
    view: &View,
    delta: &Delta,
    entry: Entry,
) -> Result<(), Refusal>
    requires small { AllSmall entry.guards.items }
    requires from { AreOfEither view.now delta.now listed.old }
    requires tilings { list_all (is_tiling view.now) entry.returned.items ≡ true }
    requires once { AreOnce (listed.old ++ entry.returned.items) }
    ensures log { OnOk result (log.new ≡ log.old ++ entry.guards.items ∷ []) }
    ensures listed { OnOk result (AreSame listed.new (filter (λ T. is_tiling view.now T) listed.old ++ entry.returned.items)) }
    ensures log_stays { OnErr result (log.new ≡ log.old) }
    ensures listed_stays { OnErr result (listed.new ≡ listed.old) }
    ensures why { IfErr result (λ e. ((e ≡ Refusal.CatalogueFull) × (0 < length entry.returned.items) × (MAX_TILINGS < length (filter (λ T. is_tiling view.now T) listed.old) + length entry.returned.items)) ⊎ (e ≡ Refusal.Memory)) }
{
    let Entry { guards, returned } = entry;
    if !returned.is_empty() && !listed.has_room(view, delta, returned.len()) {
        return Err(Refusal::CatalogueFull);
    }
    log.push(guards)?;
    if returned.is_empty() {
        listed.keep_only(view, delta);
        return Ok(());
    }
    match listed.exchange(view, delta, returned) {
        Ok(()) => Ok(()),
        Err(refusal) => {
            log.pop();
            Err(refusal)
        }
    }
}

// Notes the change in the history, with what is kept for it. An edit adds its change to those to undo, keeps at most the
// newest 256 of them, and drops the changes to redo. An undo moves the change that it undoes to those to redo, and a redo
// moves the change that it redoes to those to undo.
fn note(history: &mut History<Change, Kept>, kind: Kind, change: Change, kept: Kept)
    requires { CanNote kind history.old }
    ensures { Noted kind history.old history.new change kept }
{
    match kind {
        Kind::Edit => history.push(change, Some(kept)),
        Kind::Undo => drop(history.back(Some(kept))),
        Kind::Redo => drop(history.forward(Some(kept))),
    }
}

// Keeps the tasks that go on, in place, and appends the new tasks to them. Appends the endings of the tasks that don't go on to
// the list of endings.
fn replace_tasks(tasks: &mut Vec<Pending>, endings: &mut Vec<Ending>, next: NextTasks)
    requires flags { length next.flags.items ≡ length tasks.old.items }
    requires room { vec_len tasks.old + length next.fresh.items ≤ vec_capacity tasks.old }
    requires endings { vec_len endings.old + length next.ended.items ≤ vec_capacity endings.old }
    ensures tasks { tasks.new.items ≡ items_where_true next.flags.items tasks.old.items ++ next.fresh.items }
    ensures endings { endings.new.items ≡ endings.old.items ++ next.ended.items }
{
    let NextTasks {
        fresh,
        flags,
        ended,
    } = next;
    keep_flagged(tasks, &flags);
    push_tasks(fresh, tasks);
    push_endings(ended, endings);
}

// Drops the tasks whose flags are false.
fn keep_flagged(tasks: &mut Vec<Pending>, flags: &[bool])
    requires { length flags.now ≡ length tasks.old.items }
    ensures items { tasks.new.items ≡ items_where_true flags.now tasks.old.items }
    ensures len { vec_len tasks.new ≤ vec_len tasks.old }
    ensures capacity { vec_capacity tasks.new ≡ vec_capacity tasks.old }
{
    let mut index = 0;
    tasks.retain(|_| next_flag(flags, &mut index));
}

// The flag at the index, which moves on to the next one; false at the end.
fn next_flag(flags: &[bool], index: &mut usize) -> bool
    ensures flag { index.old < length flags.now → result ≡ slice_index_or flags.now index.old false }
    ensures next { index.old < length flags.now → index.new ≡ index.old + 1 }
{
    let at = *index;
    if at >= flags.len() {
        return false;
    }
    *index = at + 1;
    flags[at]
}

/// Appends the tasks to the list, which has room for them.
pub(crate) fn push_tasks(fresh: Vec<Pending>, out: &mut Vec<Pending>)
    requires { vec_len out.old + length fresh.items ≤ vec_capacity out.old }
    ensures { out.new.items ≡ out.old.items ++ fresh.items }
{
    for task in fresh {
        out.push_reserved(task);
    }
}

// Appends the endings to the list, which has room for them.
fn push_endings(ended: Vec<Ending>, out: &mut Vec<Ending>)
    requires { vec_len out.old + length ended.items ≤ vec_capacity out.old }
    ensures { out.new.items ≡ out.old.items ++ ended.items }
{
    for ending in ended {
        out.push_reserved(ending);
    }
}
