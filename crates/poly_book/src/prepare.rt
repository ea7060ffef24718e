//! Prepares all that a change needs, while what the book shows stays the same. Afterwards only adding to the log and
//! exchanging the listed tilings can fail.
ghost use Rattle.std.specs.Prelude.{◌≡◌, ◌↔◌, ◌≤◌, ◌<◌, ◌*◌, ◌+◌, ◌⊎◌, IfErr, IfOk, List, OnOk, cond, length, map, nat_le, option_copied, true, vec_capacity, vec_len};
ghost use Rattle.std.specs.Arc.{arc_value};
ghost use Rattle.poly_design.specs.Changes.{HasBefore, changed};
ghost use Rattle.poly_design.specs.Limits.{IsDesign};
ghost use Rattle.poly_tiling.specs.Names.{Grown, WellNamed};
ghost use Rattle.poly_tiling.specs.Shows.{Shows};
ghost use Rattle.poly_place.specs.Between.{IsChangeOf};
ghost use Rattle.poly_place.specs.Right.{IsRight};
ghost use Rattle.poly_place.specs.Spent.{IsSpent as NumbersAreSpent};
ghost use Rattle.poly_atom.specs.declared.atom.Atom.{Atom as AtomOf};
ghost use Rattle.poly_atom.specs.Atoms.{AllSmall};
ghost use Rattle.poly_atom.specs.Guards.{guards};
ghost use Rattle.poly_catalogue.specs.Listed.{AreOfEither};
ghost use Rattle.poly_book.specs.Amounts.{IsNarrow};
ghost use Rattle.poly_book.specs.Changing.{IsGathered, IsNotGathered, IsPrepared, IsTop, shelf_at, shelf_by, shelved_by, stood_by};
ghost use Rattle.poly_book.specs.Keeps.{Keeps, state_of};
ghost use Rattle.poly_tasks.specs.Mapped.{AreNoted};
ghost use Rattle.poly_tasks.specs.Meaning.{AreFrozen, AreHeld, AreTasks, IsHeld, IsHeldAt, frozen_of, stored_of, tasks_of};
ghost use Rattle.poly_book.specs.Planned.{IsPlanOver};
ghost use Rattle.poly_book.specs.Refused.{IsNotMade};
ghost use Rattle.poly_tasks.specs.Shelves.{returned};
ghost use Rattle.poly_tasks.specs.Tasks.{AreSparing, atoms_of};
ghost use Rattle.poly_tasks.specs.Touching.{IsMadeBy};

use crate::next_tasks::{NextTasks, next_tasks};
use crate::parts::Parts;
use crate::quiet::copies;
use crate::step::{Ending, Kind};
use poly_atom::{Atom, BothGuards, GuardLog, both_guards};
use poly_design::{Change, Design};
use poly_grid::Refusal;
use poly_place::{Delta, Plan, Table};
use poly_tasks::{Frozen, Kept, Pending, Shelf, freeze};
use poly_tiling::{Tiling, View};
use poly_undo::{History, Step as Beside};
use std::alloc::Global;
use std::sync::Arc;

/// The most guards that an edit's change may have, and the most that its inverse may have.
pub const MAX_GUARDS: usize = 20_000;

/// The most changes that a book ever makes, counting edits, undos and redos.
pub const MAX_CHANGES: usize = 100_000;

/// A shelf is kept if the number of its frozen tasks times the number of guards of the change's inverse is at most
/// this.
pub const MAX_SHELF: usize = 4096;

/// What a change adds to the log and to the listed tilings.
#[derive(Drop)]
pub(crate) struct Entry {
    /// The guards of the change.
    pub guards: Vec<Atom>,
    /// The tilings that it lists again.
    pub returned: Vec<Tiling>,
}

/// What a change does to the parts of the book besides the log and the listed tilings.
#[derive(Drop)]
pub(crate) struct Prepared {
    /// The design after it.
    pub after: Design,
    /// What it does to the table.
    pub plan: Plan,
    /// The design after it, by numbers.
    pub view: Arc<View>,
    /// What it does to the tasks.
    pub tasks: NextTasks,
    /// What the change stores for its undo or redo, if a shelf is kept.
    pub shelf: Option<Shelf>,
}

/// Prepares the change, so that afterwards only adding to the log and exchanging the listed tilings can fail. What the book
/// shows stays the same.
pub(crate) fn prepare(
    parts: &mut Parts,
    kind: Kind,
    change: &Change,
) -> Result<(Entry, Prepared), Refusal>
    requires keeps { Keeps parts.old }
    requires noted { AreNoted parts.old.register.maps parts.old.log parts.old.tasks.items }
    requires before { HasBefore parts.old.design change.now }
    requires design { IsDesign (changed parts.old.design change.now) }
    requires top { IsTop kind parts.old.history change.now }
    ensures stays { parts.new ≡ record parts.old { table = parts.new.table; tasks = parts.new.tasks; steps = parts.new.steps; endings = parts.new.endings } }
    ensures tasks { parts.new.tasks.items ≡ parts.old.tasks.items }
    ensures steps { parts.new.steps.items ≡ parts.old.steps.items }
    ensures endings { parts.new.endings.items ≡ parts.old.endings.items }
    ensures keeps { Keeps parts.new }
    ensures ok { IfOk result (λ r. IsPrepared kind change.now parts.new r.0 r.1) }
    ensures narrow { OnOk result (kind ≡ Kind.Edit → IsNarrow parts.old.design (changed parts.old.design change.now)) }
    ensures why { IfErr result (λ e. IsNotMade kind change.now (state_of parts.old) e) }
{
    parts.steps.reserve(1)?;
    let planned = plan_ahead(&mut parts.table, parts.scene.view(), &parts.design, change)?;
    let gathered = match gather(parts, kind, change, &planned.view, &planned.plan.delta) {
        Ok(gathered) => gathered,
        Err(refusal) => {
            drop(planned);
            return Err(refusal);
        }
    };
    let Ok(()) = make_room(&mut parts.tasks, &mut parts.endings, &gathered.tasks) else {
        drop(gathered);
        drop(planned);
        return Err(Refusal::Memory);
    };
    let Planned { after, plan, view } = planned;
    let Gathered {
        entry,
        tasks,
        shelf,
    } = gathered;
    Ok((
        entry,
        Prepared {
            after,
            plan,
            view,
            tasks,
            shelf,
        },
    ))
}

// Makes room for the new tasks, and for the endings of the tasks that don't go on.
fn make_room(
    tasks: &mut Vec<Pending>,
    endings: &mut Vec<Ending>,
    next: &NextTasks,
) -> Result<(), Refusal>
    ensures tasks { tasks.new.items ≡ tasks.old.items }
    ensures endings { endings.new.items ≡ endings.old.items }
    ensures room_tasks { OnOk result (vec_len tasks.new + length next.now.fresh.items ≤ vec_capacity tasks.new) }
    ensures room_endings { OnOk result (vec_len endings.new + length next.now.ended.items ≤ vec_capacity endings.new) }
    ensures why { IfErr result (λ e. e ≡ Refusal.Memory) }
{
    endings.reserve(next.ended.len())?;
    tasks.reserve(next.fresh.len())?;
    Ok(())
}

// What is planned of a change.
#[derive(Drop)]
struct Planned {
    // The design after it.
    after: Design,
    // What it does to the table.
    plan: Plan,
    // The design after it, by numbers.
    view: Arc<View>,
}

// Plans the change.
fn plan_ahead(
    table: &mut Table,
    view: &View,
    design: &Design,
    change: &Change,
) -> Result<Planned, Refusal>
    requires well { WellNamed view.now }
    requires shows { Shows view.now design.now }
    requires first { Grown view.now table.old }
    requires right { IsRight table.old design.now }
    requires design { IsDesign (changed design.now change.now) }
    ensures after { IfOk result (λ p. p.after ≡ changed design.now change.now) }
    ensures plan { IfOk result (λ p. IsPlanOver view.now design.now (changed design.now change.now) p.plan) }
    ensures view { IfOk result (λ p. arc_value p.view ≡ arc_value p.plan.view) }
    ensures last { IfOk result (λ p. (arc_value p.plan.view).placements ≡ table.new.placements) }
    ensures enough { OnOk result (¬ NumbersAreSpent view.now.placements (changed design.now change.now)) }
    ensures first { Grown view.now table.new }
    ensures right { IsRight table.new design.now }
    ensures why { IfErr result (λ e. ((e ≡ Refusal.Spent) × NumbersAreSpent view.now.placements (changed design.now change.now)) ⊎ (e ≡ Refusal.Memory)) }
{
    let after = changed_design(design, change)?;
    let plan = plan_of_change(table, view, design, change, &after)?;
    let Ok(shared) = Arc::try_clone(&plan.view) else {
        drop(plan);
        drop(after);
        return Err(Refusal::Memory);
    };
    Ok(Planned {
        after,
        plan,
        view: shared,
    })
}

// The design after the change.
fn changed_design(design: &Design, change: &Change) -> Result<Design, Refusal>
    requires { IsDesign (changed design.now change.now) }
    ensures ok { IfOk result (λ d. d ≡ changed design.now change.now) }
    ensures why { IfErr result (λ e. e ≡ Refusal.Memory) }
{
    let mut after = design.copy()?;
    after.make(change)?;
    Ok(after)
}

// What the change does to the table. The view shows the design by the table's first numbers; the others were given out by
// refused changes. If numbers run out, these are taken back.
fn plan_of_change(
    table: &mut Table,
    view: &View,
    design: &Design,
    change: &Change,
    after: &Design,
) -> Result<Plan, Refusal>
    requires well { WellNamed view.now }
    requires shows { Shows view.now design.now }
    requires first { Grown view.now table.old }
    requires right { IsRight table.old design.now }
    requires after { after.now ≡ changed design.now change.now }
    ensures ok { IfOk result (λ p. IsPlanOver view.now design.now (changed design.now change.now) p) }
    ensures last { IfOk result (λ p. (arc_value p.view).placements ≡ table.new.placements) }
    ensures enough { OnOk result (¬ NumbersAreSpent view.now.placements (changed design.now change.now)) }
    ensures first { Grown view.now table.new }
    ensures right { IsRight table.new design.now }
    ensures why { IfErr result (λ e. ((e ≡ Refusal.Spent) × NumbersAreSpent view.now.placements (changed design.now change.now)) ⊎ (e ≡ Refusal.Memory)) }
{
    match table.plan_by(design, change, after) {
        Ok(plan) => Ok(plan),
        Err(Refusal::Memory) => Err(Refusal::Memory),
        Err(_) => plan_again(table, view, design, change, after),
    }
}

// What the change does to the table, once the numbers that the view lacks are taken back.
fn plan_again(
    table: &mut Table,
    view: &View,
    design: &Design,
    change: &Change,
    after: &Design,
) -> Result<Plan, Refusal>
    requires well { WellNamed view.now }
    requires shows { Shows view.now design.now }
    requires first { Grown view.now table.old }
    requires after { after.now ≡ changed design.now change.now }
    ensures ok { IfOk result (λ p. IsPlanOver view.now design.now (changed design.now change.now) p) }
    ensures last { IfOk result (λ p. (arc_value p.view).placements ≡ table.new.placements) }
    ensures enough { OnOk result (¬ NumbersAreSpent view.now.placements (changed design.now change.now)) }
    ensures first { Grown view.now table.new }
    ensures right { IsRight table.new design.now }
    ensures why { IfErr result (λ e. ((e ≡ Refusal.Spent) × NumbersAreSpent view.now.placements (changed design.now change.now)) ⊎ (e ≡ Refusal.Memory)) }
{
    table.take_back(view);
    table.plan_by(design, change, after)
}

// What a change adds and stores, and its effect on the tasks.
#[derive(Drop)]
struct Gathered {
    // What it adds to the log and to the listed tilings.
    entry: Entry,
    // What it does to the tasks.
    tasks: NextTasks,
    // What it stores for its undo or redo, if a shelf is kept.
    shelf: Option<Shelf>,
}

// Gathers what the change that leads to the view adds and stores, and its effect on the tasks.
fn gather(
    parts: &Parts,
    kind: Kind,
    change: &Change,
    view: &View,
    delta: &Delta,
) -> Result<Gathered, Refusal>
    requires keeps { Keeps parts.now }
    requires noted { AreNoted parts.now.register.maps parts.now.log parts.now.tasks.items }
    requires made { IsMadeBy parts.now.scene view.now delta.now change.now }
    requires either { AreOfEither view.now delta.now parts.now.listed }
    ensures ok { IfOk result (λ r. IsGathered parts.now.scene view.now parts.now.listed parts.now.log parts.now.tasks.items (stood_by parts.now.log kind parts.now.history) parts.now.next r.entry r.tasks r.shelf) }
    ensures few { IfOk result (λ r. length parts.now.steps.items < MAX_CHANGES) }
    ensures narrow { OnOk result (kind ≡ Kind.Edit → (length (guards parts.now.scene view.now) ≤ MAX_GUARDS) × (length (guards view.now parts.now.scene) ≤ MAX_GUARDS)) }
    ensures why { IfErr result (λ e. IsNotGathered parts.now.scene view.now kind (length parts.now.steps.items) parts.now.next (stood_by parts.now.log kind parts.now.history) e) }
{
    let (guards, width) = guards_of_change(parts, kind, view, delta)?;
    if parts.steps.len() >= MAX_CHANGES {
        return Err(Refusal::Spent);
    }
    let stood = shelf_ahead(&parts.history, kind);
    let returned = returning(parts.alloc, stood)?;
    let shelf = shelve(parts, view, delta, width)?;
    let tasks = next_tasks(parts, view, delta, change, &guards, stood)?;
    Ok(Gathered {
        entry: Entry { guards, returned },
        tasks,
        shelf,
    })
}

// The guards of the change that leads to the view, and how many its inverse has. Refuses an edit if it or its inverse has too
// many guards.
fn guards_of_change(
    parts: &Parts,
    kind: Kind,
    view: &View,
    delta: &Delta,
) -> Result<(Vec<Atom>, usize), Refusal>
    requires { IsChangeOf parts.now.scene view.now delta.now }
    ensures small { IfOk result (λ r. AllSmall r.0.items) }
    ensures forth { IfOk result (λ r. r.0.items ≡ guards parts.now.scene view.now) }
    ensures back { IfOk result (λ r. r.1 ≡ length (guards view.now parts.now.scene)) }
    ensures narrow { OnOk result (kind ≡ Kind.Edit → (length (guards parts.now.scene view.now) ≤ MAX_GUARDS) × (length (guards view.now parts.now.scene) ≤ MAX_GUARDS)) }
    ensures why { IfErr result (λ e. ((e ≡ Refusal.TooWide) × (kind ≡ Kind.Edit) × ((MAX_GUARDS < length (guards parts.now.scene view.now)) ⊎ (MAX_GUARDS < length (guards view.now parts.now.scene)))) ⊎ (e ≡ Refusal.Memory)) }
{
    let BothGuards { forth, back } = both_guards(parts.alloc, parts.scene.view(), view, delta)?;
    let width = back.len();
    check_width(kind, forth.len(), width)?;
    Ok((forth, width))
}

// Refuses an edit if it or its inverse has too many guards.
fn check_width(kind: Kind, forth: usize, back: usize) -> Result<(), Refusal>
    ensures ok { OnOk result (kind ≡ Kind.Edit → (forth ≤ MAX_GUARDS) × (back ≤ MAX_GUARDS)) }
    ensures why { IfErr result (λ e. (e ≡ Refusal.TooWide) × (kind ≡ Kind.Edit) × ((MAX_GUARDS < forth) ⊎ (MAX_GUARDS < back))) }
{
    if is_edit(kind) && (forth > MAX_GUARDS || back > MAX_GUARDS) {
        return Err(Refusal::TooWide);
    }
    Ok(())
}

// What a change that leads to the view stores for its inverse, which has `width` guards. None if a shelf would be too large.
fn shelve(parts: &Parts, view: &View, delta: &Delta, width: usize) -> Result<Option<Shelf>, Refusal>
    requires keeps { Keeps parts.now }
    requires either { AreOfEither view.now delta.now parts.now.listed }
    ensures ok { IfOk result (λ h. stored_of parts.now.log h ≡ shelf_by view.now parts.now.listed parts.now.log parts.now.tasks.items width) }
    ensures held { IfOk result (λ h. IsHeld parts.now.log h) }
    ensures why { IfErr result (λ e. e ≡ Refusal.Memory) }
{
    if !is_small(parts.tasks.len(), width) {
        return Ok(None);
    }
    let tilings = parts.listed.leaving(view, delta)?;
    let frozen = frozen_tasks(parts.alloc, &parts.log, &parts.tasks)?;
    Ok(Some(Shelf { tilings, frozen }))
}

fn is_small(count: usize, width: usize) -> bool
    ensures { result ≡ nat_le (count * width) MAX_SHELF }
{
    if count == 0 || width == 0 {
        return true;
    }
    if count > MAX_SHELF || width > MAX_SHELF {
        return false;
    }
    count * width <= MAX_SHELF
}

// For each task, its atoms.
fn frozen_tasks(alloc: Global, log: &GuardLog, tasks: &[Pending]) -> Result<Vec<Frozen>, Refusal>
    requires tasks { AreTasks log.now tasks.now }
    requires sparing { AreSparing (tasks_of log.now tasks.now) }
    ensures ok { IfOk result (λ v. map (λ f. frozen_of log.now f) v.items ≡ map (λ t. atoms_of t) (tasks_of log.now tasks.now)) }
    ensures frozen { IfOk result (λ v. AreFrozen log.now v.items) }
    ensures why { IfErr result (λ e. e ≡ Refusal.Memory) }
{
    let mut all = Vec::new(alloc);
    for task in tasks {
        let frozen = freeze(log, task)?;
        all.push(frozen)?;
    }
    Ok(all)
}

// Copies of the tilings that a change lists again.
fn returning(alloc: Global, stood: Option<&Shelf>) -> Result<Vec<Tiling>, Refusal>
    ensures ok { IfOk result (λ v. (log : List (List AtomOf)) → v.items ≡ returned (stored_of log (option_copied stood.entry))) }
    ensures why { IfErr result (λ e. e ≡ Refusal.Memory) }
{
    match stood {
        None => Ok(Vec::new(alloc)),
        Some(shelf) => copies(alloc, &shelf.tilings),
    }
}

// The shelf that was kept for the undo or redo. `None` for an edit, or if no shelf was kept.
fn shelf_ahead(history: &History<Change, Kept>, kind: Kind) -> Option<&Shelf>
    ensures stored { (log : List (List AtomOf)) → stored_of log (option_copied result) ≡ stood_by log kind history.now }
    ensures held { (log : List (List AtomOf)) → AreHeld log history.now → IsHeld log (option_copied result) }
{
    match kind {
        Kind::Edit => None,
        Kind::Undo => shelf_of_step(history.last()),
        Kind::Redo => shelf_of_step(history.ahead()),
    }
}

fn shelf_of_step(step: Option<&Beside<Change, Kept>>) -> Option<&Shelf>
    ensures stored { (log : List (List AtomOf)) → stored_of log (option_copied result) ≡ shelf_at log (option_copied step.entry) }
    ensures held { (log : List (List AtomOf)) → IsHeldAt log (option_copied step.entry) → IsHeld log (option_copied result) }
{
    match step {
        None => None,
        Some(step) => match &step.kept {
            None => None,
            Some(kept) => kept.shelf.as_ref(),
        },
    }
}

/// Whether the change is an edit, or an undo or redo for which a shelf was kept.
pub(crate) fn is_shelved(history: &History<Change, Kept>, kind: Kind) -> bool
    ensures { (log : List (List AtomOf)) → result ≡ shelved_by log kind history.now }
{
    match kind {
        Kind::Edit => true,
        Kind::Undo => shelf_of_step(history.last()).is_some(),
        Kind::Redo => shelf_of_step(history.ahead()).is_some(),
    }
}

fn is_edit(kind: Kind) -> bool
    ensures { (result ≡ true) ↔ (kind ≡ Kind.Edit) }
{
    match kind {
        Kind::Edit => true,
        Kind::Undo => false,
        Kind::Redo => false,
    }
}
