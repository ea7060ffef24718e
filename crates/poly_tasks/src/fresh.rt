//! New tasks: the stairs of a change or, if a shelf was kept for this undo or redo, each frozen list of the shelf followed by
//! each stair; and the rests of a report. A hopeless list gets no task.
ghost use Rattle.std.specs.Arc.{arc_value};
ghost use Rattle.std.specs.List.{filter};
ghost use Rattle.std.specs.Prelude.{◌≡◌, ◌≤◌, ◌<◌, ◌++◌, ◌+◌, ◌∷◌, ◌⊎◌, ℕ, [], IfErr, IfOk, List, OnOk, false, length, map, not, option_copied, slice_index_or, true, MatchOption, ⊤};
ghost use Rattle.poly_atom.specs.declared.atom.Atom.{Atom as AtomOf};
ghost use Rattle.poly_atom.specs.Atoms.{AllSmall};
ghost use Rattle.poly_atom.specs.Hopeless.{hopeless};
ghost use Rattle.poly_atom.specs.Logs.{IsStairOf, stair_of};
ghost use Rattle.poly_atom.specs.Stairs.{stairs};
ghost use Rattle.poly_tiling.specs.Puzzle.{View as ViewOf};
ghost use Rattle.poly_lists.specs.Words.{is_other};
ghost use Rattle.poly_tasks.specs.Judged.{AreJudged, IsLead, LackOnce, named};
ghost use Rattle.poly_tasks.specs.Opens.{AreReady, Opening, Opens};
ghost use Rattle.poly_tasks.specs.Meaning.{AreFrozen, IsBase, IsFrozen, IsHeld, IsLaid, IsOwn, base_of, frozen_asks, frozen_of, laid_of, own_of, stored_of};
ghost use Rattle.poly_tasks.specs.Shelves.{crossed, openings};
ghost use Rattle.poly_tasks.specs.Tasks.{AreHopeful, hopeful};
ghost use Rattle.poly_tasks.specs.declared.task.Own.TheVariants.{Listed};

use crate::base::{Base, base_over};
use crate::harm::{harmed_by, write_harmed};
use crate::judge::{judge_first, judge_stairs, lead_of};
use crate::laid::Laid;
use crate::lead::Lead;
use crate::shelf::{Frozen, Shelf};
use crate::spots::Spots;
use crate::task::{Own, Pending, append_harmful, read_brief};
use poly_atom::{Atom, GuardLog, Stair, hopeless};
use poly_grid::Refusal;
use poly_lists::SharedLists;
use poly_report::Rests;
use poly_tiling::View;
use std::alloc::Global;
use std::sync::Arc;

/// The greatest task number.
const LAST: u64 = 4_294_967_295;

// What is used again for each frozen task that the stairs of a change are opened after.
#[derive(Drop)]
struct Buffers {
    // One list, which is empty.
    none: SharedLists,
    // The pins, and the placements that the guards of the change ask for or lack.
    harmed: Vec<u32>,
    // The guards that were laid on the task.
    laid: Laid,
    // Atoms of the task after which stairs are judged.
    atoms: Vec<Atom>,
    // A list that the task's own atoms begin with.
    list: Vec<Atom>,
    // The placements of which a `Lacks` can do harm.
    placements: Vec<u32>,
    // Where the guard log has these `Lacks`.
    spots: Spots,
    // The `Lacks` that the guards of an edition begin with.
    lead: Lead,
    // Which stairs aren't hopeless after the atoms without each `Lacks`.
    hopes: Vec<bool>,
    // Which stairs aren't hopeless after the task.
    flags: Vec<bool>,
}

impl Buffers {
    fn new(alloc: Global, view: &View, guards: &[Atom]) -> Result<Buffers, Refusal>
        ensures ready { IfOk result (λ b. (log : List (List AtomOf)) → AreReady view.now log guards.now b) }
        ensures why { IfErr result (λ e. e ≡ Refusal.Memory) }
    {
        let harmed = harmed_by(alloc, view, guards)?;
        let none = SharedLists::one(alloc, &[])?;
        Ok(Buffers {
            none,
            harmed,
            laid: Laid::none(alloc),
            atoms: Vec::new(alloc),
            list: Vec::new(alloc),
            placements: Vec::new(alloc),
            spots: Spots::none(alloc),
            lead: Lead::none(),
            hopes: Vec::new(alloc),
            flags: Vec::new(alloc),
        })
    }
}

/// The lists that aren't hopeless, as tasks with the numbers from `next` on, which share the lists. If the lists begin with the
/// list of `base`, they are kept over it as far as this pays. If `sure`, none of the lists is hopeless, and none is read.
pub fn opened(
    alloc: Global,
    view: &View,
    all: Rests,
    base: Option<(&SharedLists, usize)>,
    next: u64,
    made: u64,
    sure: bool,
) -> Result<Vec<Pending>, Refusal>
    requires base { MatchOption base ⊤ (λ b. b.1 < length b.0.now) }
    requires next { next ≤ 4294967296 }
    requires sure { sure ≡ true → AreHopeful view.now all }
    ensures ok { IfOk result (λ ps. (log : List (List AtomOf)) → length log ≡ made → Opens log next view.now all ps.items) }
    ensures few { IfOk result (λ ps. next + length ps.items ≤ 4294967296) }
    ensures why { IfErr result (λ e. ((e ≡ Refusal.Spent) × (4294967296 < next + length (hopeful view.now all))) ⊎ (e ≡ Refusal.Memory)) }
{
    let mut tasks = Vec::new(alloc);
    if all.is_empty() {
        return Ok(tasks);
    }
    let mut number = next;
    let mut buffer = Vec::new(alloc);
    let count = all.len();
    let shared = all.share(alloc, base)?;
    for index in 0..count {
        if is_opened(view, &shared, index, &mut buffer, sure)? {
            push_list(&shared, index, number, made, &mut tasks)?;
            number += 1;
        }
    }
    Ok(tasks)
}

// Appends a task with the number for the list at the index.
fn push_list(
    lists: &SharedLists,
    index: usize,
    number: u64,
    made: u64,
    tasks: &mut Vec<Pending>,
) -> Result<(), Refusal>
    ensures tasks { OnOk result (tasks.new.items ≡ tasks.old.items ++ record { number = number; own = Listed lists.now index; made = made } ∷ []) }
    ensures few { OnOk result (number < 4294967296) }
    ensures why { IfErr result (λ e. ((e ≡ Refusal.Spent) × (4294967295 < number)) ⊎ (e ≡ Refusal.Memory)) }
{
    if number > LAST {
        return Err(Refusal::Spent);
    }
    let own = Own::Listed(lists.try_clone()?, index);
    tasks.push(Pending {
        number: number as u32,
        own,
        made,
    })?;
    Ok(())
}

// Whether the list at the index isn't hopeless. If `sure`, this is known to be true, and nothing is read.
fn is_opened(
    view: &View,
    all: &SharedLists,
    index: usize,
    buffer: &mut Vec<Atom>,
    sure: bool,
) -> Result<bool, Refusal>
    requires index { index < length all.now }
    requires sure { sure ≡ true → hopeless view.now (slice_index_or all.now index []) ≡ false }
    ensures ok { IfOk result (λ yes. yes ≡ not (hopeless view.now (slice_index_or all.now index []))) }
    ensures why { IfErr result (λ e. e ≡ Refusal.Memory) }
{
    if sure {
        return Ok(true);
    }
    all.read(index, buffer)?;
    Ok(!hopeless(view, buffer))
}

/// The stairs of the guards, as tasks with the numbers from `next` on. `edition` is the edition before the change. A hopeless
/// stair gets no task.
pub(crate) fn opened_stairs(
    alloc: Global,
    view: &View,
    guards: &[Atom],
    next: u64,
    edition: u64,
) -> Result<Vec<Pending>, Refusal>
    requires next { next ≤ 4294967296 }
    requires edition { edition < 18446744073709551615 }
    requires small { AllSmall guards.now }
    requires once { LackOnce guards.now }
    ensures ok { IfOk result (λ ps. (log : List (List AtomOf)) → length log ≡ edition → Opens (log ++ guards.now ∷ []) next view.now (stairs guards.now) ps.items) }
    ensures few { IfOk result (λ ps. next + length ps.items ≤ 4294967296) }
    ensures why { IfErr result (λ e. ((e ≡ Refusal.Spent) × (4294967296 < next + length (hopeful view.now (stairs guards.now)))) ⊎ (e ≡ Refusal.Memory)) }
{
    let mut atoms = Vec::new(alloc);
    let mut calm = Vec::new(alloc);
    let mut flags = Vec::new(alloc);
    judge_first(view, &mut atoms, guards, &mut calm, &mut flags)?;
    let tasks = flagged_stairs(alloc, &flags, next, edition)?;
    Ok(tasks)
}

// The stairs that are flagged, as tasks with the numbers from `next` on. `edition` is the edition before the change.
fn flagged_stairs(
    alloc: Global,
    flags: &[bool],
    next: u64,
    edition: u64,
) -> Result<Vec<Pending>, Refusal>
    requires next { next ≤ 4294967296 }
    requires edition { edition < 18446744073709551615 }
    ensures ok { IfOk result (λ ps. (w : ViewOf) (g : List AtomOf) (log : List (List AtomOf)) → length log ≡ edition → AreJudged w [] (stairs g) flags.now → Opens (log ++ g ∷ []) next w (stairs g) ps.items) }
    ensures few { IfOk result (λ ps. next + length ps.items ≤ 4294967296) }
    ensures why { IfErr result (λ e. ((e ≡ Refusal.Spent) × ((w : ViewOf) (g : List AtomOf) → AreJudged w [] (stairs g) flags.now → 4294967296 < next + length (hopeful w (stairs g)))) ⊎ (e ≡ Refusal.Memory)) }
{
    let mut tasks = Vec::new(alloc);
    let mut number = next;
    for index in 0..flags.len() {
        if !flags[index] {
            continue;
        }
        if number > LAST {
            return Err(Refusal::Spent);
        }
        tasks.push(Pending {
            number: number as u32,
            own: Own::Stair(Stair { edition, index }),
            made: edition + 1,
        })?;
        number += 1;
    }
    Ok(tasks)
}

/// The tasks that a change opens: its stairs or, if `stood` is the shelf that was kept for it, each frozen list of the shelf
/// followed by each stair. `edition` is the edition before the change. A hopeless list gets no task.
pub fn fresh_tasks(
    alloc: Global,
    view: &View,
    log: &GuardLog,
    guards: &[Atom],
    stood: Option<&Shelf>,
    next: u64,
    edition: u64,
) -> Result<Vec<Pending>, Refusal>
    requires next { next ≤ 4294967296 }
    requires edition { edition < 18446744073709551615 }
    requires log { length log.now ≡ edition }
    requires small { AllSmall guards.now }
    requires once { LackOnce guards.now }
    requires held { IsHeld log.now (option_copied stood) }
    ensures ok { IfOk result (λ ps. Opens (log.now ++ guards.now ∷ []) next view.now (openings (stored_of log.now (option_copied stood.entry)) (stairs guards.now)) ps.items) }
    ensures few { IfOk result (λ ps. next + length ps.items ≤ 4294967296) }
    ensures why { IfErr result (λ e. ((e ≡ Refusal.Spent) × (4294967296 < next + length (hopeful view.now (openings (stored_of log.now (option_copied stood.entry)) (stairs guards.now))))) ⊎ (e ≡ Refusal.Memory)) }
{
    match stood {
        None => opened_stairs(alloc, view, guards, next, edition),
        Some(shelf) => opened_crossed(alloc, view, log, guards, &shelf.frozen, next, edition),
    }
}

// Each frozen list followed by each stair of the guards, as tasks with the numbers from `next` on. `edition` is the edition
// before the change. A hopeless list gets no task.
fn opened_crossed(
    alloc: Global,
    view: &View,
    log: &GuardLog,
    guards: &[Atom],
    frozen: &[Frozen],
    next: u64,
    edition: u64,
) -> Result<Vec<Pending>, Refusal>
    requires next { next ≤ 4294967296 }
    requires edition { edition < 18446744073709551615 }
    requires log { length log.now ≡ edition }
    requires small { AllSmall guards.now }
    requires once { LackOnce guards.now }
    requires frozen { AreFrozen log.now frozen.now }
    ensures ok { IfOk result (λ ps. Opens (log.now ++ guards.now ∷ []) next view.now (crossed (map (λ f. frozen_of log.now f) frozen.now) (stairs guards.now)) ps.items) }
    ensures few { IfOk result (λ ps. next + length ps.items ≤ 4294967296) }
    ensures why { IfErr result (λ e. ((e ≡ Refusal.Spent) × (4294967296 < next + length (hopeful view.now (crossed (map (λ f. frozen_of log.now f) frozen.now) (stairs guards.now))))) ⊎ (e ≡ Refusal.Memory)) }
{
    let mut tasks = Vec::new(alloc);
    if guards.is_empty() {
        return Ok(tasks);
    }
    let mut buffers = Buffers::new(alloc, view, guards)?;
    let mut number = next;
    for task in frozen {
        let crossed = cross(
            alloc,
            view,
            log,
            task,
            guards,
            &mut buffers,
            number,
            &mut tasks,
        );
        match crossed {
            Ok(after) => number = after,
            Err(refusal) => {
                drop(buffers);
                return Err(refusal);
            }
        }
    }
    drop(buffers);
    Ok(tasks)
}

// Appends the atoms of the frozen task followed by each stair of the guards, as tasks with the numbers from `start` on. Returns
// the number after that of the last task. A hopeless list gets no task.
fn cross(
    alloc: Global,
    view: &View,
    log: &GuardLog,
    frozen: &Frozen,
    guards: &[Atom],
    buffers: &mut Buffers,
    start: u64,
    tasks: &mut Vec<Pending>,
) -> Result<u64, Refusal>
    requires start { start ≤ 4294967296 }
    requires edition { length log.now < 18446744073709551615 }
    requires small { AllSmall guards.now }
    requires once { LackOnce guards.now }
    requires frozen { IsFrozen log.now frozen.now }
    requires ready { AreReady view.now log.now guards.now buffers.old }
    ensures ready { OnOk result (AreReady view.now log.now guards.now buffers.new) }
    ensures ok { IfOk result (λ n. (next : ℕ) (all rest : List (List AtomOf)) → Opening (log.now ++ guards.now ∷ []) next start view.now all (map (λ B. frozen_of log.now frozen.now ++ B) (stairs guards.now) ++ rest) tasks.old.items → Opening (log.now ++ guards.now ∷ []) next n view.now all rest tasks.new.items) }
    ensures count { IfOk result (λ n. start + length tasks.new.items ≡ n + length tasks.old.items) }
    ensures few { IfOk result (λ n. n ≤ 4294967296) }
    ensures why { IfErr result (λ e. ((e ≡ Refusal.Spent) × ((next : ℕ) (all rest : List (List AtomOf)) → next + length tasks.old.items ≡ start → Opening (log.now ++ guards.now ∷ []) next start view.now all (map (λ B. frozen_of log.now frozen.now ++ B) (stairs guards.now) ++ rest) tasks.old.items → 4294967296 < next + length (hopeful view.now all))) ⊎ (e ≡ Refusal.Memory)) }
{
    if !judge_frozen(view, log, frozen, guards, buffers)? {
        return Ok(start);
    }
    let base = shared_base(alloc, log, frozen, buffers)?;
    let edition = log.len() as u64;
    let number = add_crossed(&base, &buffers.flags, start, edition, tasks)?;
    Ok(number)
}

// The atoms of the frozen task, for the tasks that stand on them.
fn shared_base(
    alloc: Global,
    log: &GuardLog,
    frozen: &Frozen,
    buffers: &Buffers,
) -> Result<Arc<Base>, Refusal>
    requires frozen { IsFrozen log.now frozen.now }
    requires laid { buffers.now.laid.others.items ≡ filter is_other (laid_of log.now frozen.now) }
    requires none { buffers.now.none ≡ [] ∷ [] }
    requires lead { IsLead log.now buffers.now.lead }
    ensures base { IfOk result (λ b. base_of log.now (arc_value b) ≡ frozen_of log.now frozen.now) }
    ensures is { IfOk result (λ b. IsBase log.now (arc_value b)) }
    ensures why { IfErr result (λ e. e ≡ Refusal.Memory) }
{
    let base = base_over(
        alloc,
        log,
        frozen,
        &buffers.laid,
        &buffers.none,
        buffers.lead,
    )?;
    let shared = Arc::new(alloc, base)?;
    Ok(shared)
}

// Judges which stairs of the guards aren't hopeless after the atoms of the frozen task. The flags come in place of those that were
// there. If no flag is true, returns `false`. Nearly all atoms of a list are `Lacks`, so the stairs are judged without them first,
// and if any `Lacks` can do harm, those that remain are judged after these. Of the guards that were laid on the task, only what they
// ask for is judged with each stair.
fn judge_frozen(
    view: &View,
    log: &GuardLog,
    frozen: &Frozen,
    guards: &[Atom],
    buffers: &mut Buffers,
) -> Result<bool, Refusal>
    requires small { AllSmall guards.now }
    requires once { LackOnce guards.now }
    requires frozen { IsFrozen log.now frozen.now }
    requires ready { AreReady view.now log.now guards.now buffers.old }
    ensures ready { OnOk result (AreReady view.now log.now guards.now buffers.new) }
    ensures laid { OnOk result (buffers.new.laid.others.items ≡ filter is_other (laid_of log.now frozen.now)) }
    ensures none { IfOk result (λ yes. yes ≡ false → hopeful view.now (map (λ B. frozen_of log.now frozen.now ++ B) (stairs guards.now)) ≡ []) }
    ensures flags { IfOk result (λ yes. yes ≡ true → AreJudged view.now (frozen_of log.now frozen.now) (stairs guards.now) buffers.new.flags.items) }
    ensures why { IfErr result (λ e. e ≡ Refusal.Memory) }
{
    read_frozen(view, log, frozen, buffers)?;
    if buffers.laid.spoils() {
        return Ok(false);
    }
    let atoms = &mut buffers.atoms;
    let hopes = &mut buffers.hopes;
    let flags = &mut buffers.flags;
    if !judge_first(view, atoms, guards, hopes, flags)? {
        return Ok(false);
    }
    if buffers.placements.is_empty() {
        return Ok(true);
    }
    let count = atoms.len();
    buffers.spots.find(log, &buffers.placements)?;
    append_harmful(log, frozen, &buffers.spots, &mut buffers.list, atoms)?;
    if atoms.len() == count {
        return Ok(true);
    }
    hopes.clear();
    hopes.extend_from_slice(flags)?;
    let any = judge_stairs(view, atoms, guards, lead_of(guards), hopes, flags)?;
    Ok(any)
}

// Reads the guards that were laid on the frozen task, and the placements of which a `Lacks` can do harm. The atoms to judge are the
// task's own atoms without each `Lacks`, and what the guards ask for.
fn read_frozen(
    view: &View,
    log: &GuardLog,
    frozen: &Frozen,
    buffers: &mut Buffers,
) -> Result<(), Refusal>
    requires frozen { IsFrozen log.now frozen.now }
    requires laid { IsLaid view.now log.now buffers.old.laid }
    requires lead { IsLead log.now buffers.old.lead }
    ensures stays { buffers.new ≡ record buffers.old { laid = buffers.new.laid; lead = buffers.new.lead; atoms = buffers.new.atoms; placements = buffers.new.placements } }
    ensures lead { IsLead log.now buffers.new.lead }
    ensures laid { OnOk result (IsLaid view.now log.now buffers.new.laid) }
    ensures others { OnOk result (buffers.new.laid.others.items ≡ filter is_other (laid_of log.now frozen.now)) }
    ensures atoms { OnOk result (buffers.new.atoms.items ≡ frozen_asks log.now frozen.now) }
    ensures placements { OnOk result (buffers.new.placements.items ≡ buffers.old.harmed.items ++ named (filter is_other (laid_of log.now frozen.now))) }
    ensures why { IfErr result (λ e. e ≡ Refusal.Memory) }
{
    buffers.laid.read(view, log, frozen)?;
    read_brief(log, &frozen.own, &mut buffers.lead, &mut buffers.atoms)?;
    buffers.atoms.extend_from_slice(buffers.laid.asks())?;
    write_harmed(
        &buffers.harmed,
        buffers.laid.others(),
        &mut buffers.placements,
    )?;
    Ok(())
}

// The base followed by the stair.
fn stair_after(base: &Arc<Base>, stair: Stair) -> Result<Own, Refusal>
    ensures reads { IfOk result (λ o. (log : List (List AtomOf)) → own_of log o ≡ base_of log (arc_value base.now) ++ stair_of log stair) }
    ensures stands { IfOk result (λ o. (log : List (List AtomOf)) → IsBase log (arc_value base.now) → IsStairOf log stair → IsOwn log o) }
    ensures why { IfErr result (λ e. e ≡ Refusal.Memory) }
{
    Ok(Own::Crossed(Arc::try_clone(base)?, stair))
}

// Appends the base followed by each stair that is flagged, as tasks with the numbers from `start` on. Returns the number after
// that of the last task.
fn add_crossed(
    base: &Arc<Base>,
    flags: &[bool],
    start: u64,
    edition: u64,
    tasks: &mut Vec<Pending>,
) -> Result<u64, Refusal>
    requires start { start ≤ 4294967296 }
    requires edition { edition < 18446744073709551615 }
    ensures ok { IfOk result (λ n. (w : ViewOf) (g : List AtomOf) (log : List (List AtomOf)) (next : ℕ) (all rest : List (List AtomOf)) → length log ≡ edition → IsBase log (arc_value base.now) → AreJudged w (base_of log (arc_value base.now)) (stairs g) flags.now → Opening (log ++ g ∷ []) next start w all (map (λ B. base_of log (arc_value base.now) ++ B) (stairs g) ++ rest) tasks.old.items → Opening (log ++ g ∷ []) next n w all rest tasks.new.items) }
    ensures count { IfOk result (λ n. start + length tasks.new.items ≡ n + length tasks.old.items) }
    ensures few { IfOk result (λ n. n ≤ 4294967296) }
    ensures why { IfErr result (λ e. ((e ≡ Refusal.Spent) × ((w : ViewOf) (g : List AtomOf) (log : List (List AtomOf)) (next : ℕ) (all rest : List (List AtomOf)) → length log ≡ edition → IsBase log (arc_value base.now) → AreJudged w (base_of log (arc_value base.now)) (stairs g) flags.now → next + length tasks.old.items ≡ start → Opening (log ++ g ∷ []) next start w all (map (λ B. base_of log (arc_value base.now) ++ B) (stairs g) ++ rest) tasks.old.items → 4294967296 < next + length (hopeful w all))) ⊎ (e ≡ Refusal.Memory)) }
{
    let mut number = start;
    for index in 0..flags.len() {
        if !flags[index] {
            continue;
        }
        if number > LAST {
            return Err(Refusal::Spent);
        }
        let own = stair_after(base, Stair { edition, index })?;
        tasks.push(Pending {
            number: number as u32,
            own,
            made: edition + 1,
        })?;
        number += 1;
    }
    Ok(number)
}
