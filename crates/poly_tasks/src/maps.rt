//! Maps from placements and items to the pending tasks that have an own atom about them. Through these maps a change finds
//! the tasks that it may make hopeless, and needs to check no others.
//!
//! `Lacks` atoms aren't noted. Only a pin can make one hopeless, and a change that pins a placement checks all tasks; most of them
//! needn't be read for that (`untouched.rt`, `spoilt.rt`). On a wide board nearly all atoms of a task are of this kind, thousands
//! for each of thousands of tasks.
//!
//! Successive tasks with a list of their own are mostly rests of one report, and their lists begin with the same atoms. So an
//! atom that successive tasks share together with all atoms before it is noted once, for a span from the first of these tasks
//! to the last. The tasks between them that have no list are noted under it, too.
//!
//! Tasks that have ended may still be noted, and a task may be noted under an atom that it doesn't have. Both cost time and
//! change nothing: each task that is found is checked.
ghost use Rattle.std.specs.Prelude.{◌≡◌, ◌++◌, ◌<◌, ◌≤◌, ◌⊎◌, [], IfErr, IfOk, OnOk, length, map, nat_le, slice_index_or, take, true, ℕ};
ghost use Rattle.std.specs.List.{list_all};
ghost use Rattle.std.specs.List.Sorted.{IsNonDecreasingBy};
ghost use Rattle.poly_atom.specs.Logs.{IsStairOf, stair_of};
ghost use Rattle.poly_tasks.specs.Mapped.{AreNoted, AreRunsNoted, IsNotedBase, IsPrefix, IsWider, KeepsPending, KeepsRuns, WillHave, below, in_span, key_of, key_of_name, run_from, under};
ghost use Rattle.poly_tasks.specs.Meaning.{AreTasks, IsOwn, own_of};

use crate::placed::PlacedRows;
use crate::rows::{Row, Span, note_span, tidy_rows};
use crate::task::{Own, Pending, is_same_list};
use poly_atom::{Atom, GuardLog, Stair};
use poly_grid::{Refusal, SIDE};
use poly_lists::SharedLists;
use poly_tiling::Item;
use std::alloc::Global;
use std::collections::BTreeMap;

/// For each kind of atom but `Lacks`, the spans of the tasks that are noted under an atom of that kind, by its placement or by
/// the key of its item.
#[derive(Drop)]
pub struct Maps {
    /// The allocator.
    pub alloc: Global,
    /// The tasks noted under a `Has` atom, by its placement.
    pub(crate) has: PlacedRows,
    /// The tasks noted under an `AtLeast` atom, by the key of its item.
    pub(crate) at_least: BTreeMap<u32, Row>,
    /// The tasks noted under an `AtMost` atom, by the key of its item.
    pub(crate) at_most: BTreeMap<u32, Row>,
}

/// The first guards of a change, each of them noted for all tasks of a span.
#[derive(Clone, Copy)]
pub(crate) struct Prefix {
    /// The edition before the change.
    edition: u64,
    /// How many of the change's guards are noted.
    count: usize,
    /// The tasks for which each of them is noted.
    span: Span,
}

/// A base, but for its `Lacks`, and the tasks for which it is noted.
#[derive(Drop)]
pub(crate) struct NotedBase {
    /// The atoms of the base that are no `Lacks`.
    others: Vec<Atom>,
    /// The tasks for which each of them is noted.
    span: Span,
}

/// Successive tasks whose lists have the same atom, and the same atoms before it. The atom is noted for all of them once it is
/// known which task is the last.
#[derive(Clone, Copy)]
pub(crate) struct Run {
    /// The atom.
    atom: Atom,
    /// The number of the first of these tasks.
    first: u32,
}

/// The runs that may go on. All of them have the last task that had a list of its own.
#[derive(Drop)]
pub(crate) struct Runs {
    /// A run for each atom of that task's list that is no `Lacks`, in the list's order.
    begun: Vec<Run>,
    /// The number of that task.
    last: u32,
    /// The atoms of the next task's list that are no `Lacks`.
    others: Vec<Atom>,
}

impl Maps {
    /// Maps without tasks.
    pub(crate) fn new(alloc: Global) -> Maps {
        Maps {
            alloc,
            has: PlacedRows::new(alloc),
            at_least: BTreeMap::new(alloc),
            at_most: BTreeMap::new(alloc),
        }
    }

    /// Notes each task under its own atoms. Stairs of one change share what is noted for the change's guards, successive tasks
    /// with the same base share what is noted for the base, and successive lists share what is noted for the atoms that all of
    /// them begin with. Fails only when out of memory. What was noted before stays noted in any case.
    pub(crate) fn note_all(&mut self, log: &GuardLog, tasks: &[Pending]) -> Result<(), Refusal>
        requires { AreTasks log.now tasks.now }
        ensures wider { IsWider self.old self.new }
        ensures ok { OnOk result (AreNoted self.new log.now tasks.now) }
        ensures why { IfErr result (λ e. e ≡ Refusal.Memory) }
    {
        let last = last_number(tasks);
        let mut prefix = Prefix {
            edition: 0,
            count: 0,
            span: Span { from: 0, to: 0 },
        };
        let mut base = NotedBase {
            others: Vec::new(self.alloc),
            span: Span { from: 1, to: 0 },
        };
        let mut runs = Runs {
            begun: Vec::new(self.alloc),
            last: 0,
            others: Vec::new(self.alloc),
        };
        for (i, task) in tasks.iter().enumerate() {
            self.note_base(log, &task.own, &mut base, task.number, &tasks[i..])?;
            self.note_task(log, &task.own, task.number, last, &mut prefix, &mut runs)?;
        }
        self.note_runs(&runs.begun, runs.last)
    }

    /// Drops the spans without a pending task, so that those of ended tasks don't pile up. What is noted for a pending task
    /// stays noted. Never allocates.
    pub(crate) fn tidy(&mut self, pending: &[Pending])
        requires { IsNonDecreasingBy (λ p. p.number) pending.now }
        ensures { KeepsPending pending.now self.old self.new }
    {
        self.has.tidy(pending);
        tidy_rows(&mut self.at_least, pending);
        tidy_rows(&mut self.at_most, pending);
    }

    // Notes the task under its own atoms, except for the base of a crossed task, which is noted. The atoms of a list are noted
    // only when their runs end.
    fn note_task(
        &mut self,
        log: &GuardLog,
        own: &Own,
        number: u32,
        last: u32,
        prefix: &mut Prefix,
        runs: &mut Runs,
    ) -> Result<(), Refusal>
        requires own { IsOwn log.now own.now }
        requires base { list_all (λ a. under self.old a number) (below log.now own.now) ≡ true }
        requires prefix { IsPrefix self.old log.now prefix.old }
        ensures prefix { OnOk result (IsPrefix self.new log.now prefix.new) }
        ensures runs { OnOk result (KeepsRuns self.old runs.old self.new runs.new) }
        ensures wider { IsWider self.old self.new }
        ensures ok { OnOk result (WillHave self.new runs.new number (own_of log.now own.now)) }
        ensures why { IfErr result (λ e. e ≡ Refusal.Memory) }
    {
        match own {
            Own::Listed(lists, index) => self.note_listed(lists, *index, number, runs),
            Own::Stair(stair) => self.note_stair(log, stair, number, last, prefix),
            Own::Crossed(_, stair) => self.note_stair(log, stair, number, last, prefix),
        }
    }

    // Lets the runs go on to the task with this number and the list at the index, as far as the list has their atoms. Notes the
    // other runs, which have ended, and begins one for each further atom of the list.
    fn note_listed(
        &mut self,
        lists: &SharedLists,
        index: usize,
        number: u32,
        runs: &mut Runs,
    ) -> Result<(), Refusal>
        requires { index < length lists.now }
        ensures runs { OnOk result (KeepsRuns self.old runs.old self.new runs.new) }
        ensures wider { IsWider self.old self.new }
        ensures ok { OnOk result (WillHave self.new runs.new number (slice_index_or lists.now index [])) }
        ensures why { IfErr result (λ e. e ≡ Refusal.Memory) }
    {
        lists.read_others(index, &mut runs.others)?;
        let count = going_on(runs, number);
        self.note_runs(&runs.begun[count..], runs.last)?;
        runs.begun.truncate(count);
        begin_runs(&mut runs.begun, &runs.others[count..], number)?;
        runs.last = number;
        Ok(())
    }

    // Notes the runs, which end with the task of the number `last`.
    fn note_runs(&mut self, runs: &[Run], last: u32) -> Result<(), Refusal>
        ensures wider { IsWider self.old self.new }
        ensures ok { OnOk result (AreRunsNoted self.new last runs.now) }
        ensures why { IfErr result (λ e. e ≡ Refusal.Memory) }
    {
        for run in runs {
            self.note(
                &run.atom,
                Span {
                    from: run.first,
                    to: last,
                },
            )?;
        }
        Ok(())
    }

    // Notes the base of a crossed task for this task and the next ones that have the same, and nothing for another task. `known`
    // is the base that was noted last; if it is the same and noted for this task, nothing is left to note. `rest` are the tasks
    // from this one on.
    fn note_base(
        &mut self,
        log: &GuardLog,
        own: &Own,
        known: &mut NotedBase,
        number: u32,
        rest: &[Pending],
    ) -> Result<(), Refusal>
        requires own { IsOwn log.now own.now }
        requires known { IsNotedBase self.old known.old }
        ensures known { OnOk result (IsNotedBase self.new known.new) }
        ensures ok { OnOk result (list_all (λ a. under self.new a number) (below log.now own.now) ≡ true) }
        ensures wider { IsWider self.old self.new }
        ensures why { IfErr result (λ e. e ≡ Refusal.Memory) }
    {
        let _ = log;
        match own {
            Own::Listed(_, _) => Ok(()),
            Own::Stair(_) => Ok(()),
            Own::Crossed(base, _) => {
                let others = base.others();
                if is_noted(known, others, number) {
                    return Ok(());
                }
                self.note_new_base(known, number, rest, others)
            }
        }
    }

    // Notes a base, of which `others` are the atoms that are no `Lacks`, for the task with the number and the next ones that
    // have the same. `rest` are the tasks from this one on. The base becomes the known one.
    fn note_new_base(
        &mut self,
        known: &mut NotedBase,
        number: u32,
        rest: &[Pending],
        others: &[Atom],
    ) -> Result<(), Refusal>
        ensures known { OnOk result (IsNotedBase self.new known.new) }
        ensures ok { OnOk result (list_all (λ a. under self.new a number) others.now ≡ true) }
        ensures wider { IsWider self.old self.new }
        ensures why { IfErr result (λ e. e ≡ Refusal.Memory) }
    {
        let span = Span {
            from: number,
            to: last_with(rest, others).max(number),
        };
        self.note_list(others, span)?;
        known.others.clear();
        known.others.extend_from_slice(others)?;
        known.span = span;
        Ok(())
    }

    // Notes the stair: the guards before its last atom for all tasks from this one to the last, and its last atom for this
    // task alone. Skips the guards that `prefix` shows to be noted already for all of these tasks.
    fn note_stair(
        &mut self,
        log: &GuardLog,
        stair: &Stair,
        number: u32,
        last: u32,
        prefix: &mut Prefix,
    ) -> Result<(), Refusal>
        requires own { IsStairOf log.now stair.now }
        requires prefix { IsPrefix self.old log.now prefix.old }
        ensures prefix { OnOk result (IsPrefix self.new log.now prefix.new) }
        ensures wider { IsWider self.old self.new }
        ensures ok { OnOk result (list_all (λ a. under self.new a number) (stair_of log.now stair.now) ≡ true) }
        ensures why { IfErr result (λ e. e ≡ Refusal.Memory) }
    {
        let span = Span {
            from: number,
            to: last.max(number),
        };
        let guards = log.guards_of(stair.edition);
        let known = known_count(prefix, stair, &span);
        self.note_list(&guards[known..stair.index], span)?;
        self.note(
            &guards[stair.index].negated(),
            Span {
                from: number,
                to: number,
            },
        )?;
        *prefix = Prefix {
            edition: stair.edition,
            count: stair.index,
            span,
        };
        Ok(())
    }

    // Notes the span under each atom.
    fn note_list(&mut self, atoms: &[Atom], span: Span) -> Result<(), Refusal>
        ensures wider { IsWider self.old self.new }
        ensures ok { OnOk result ((n : ℕ) → in_span span n ≡ true → list_all (λ a. under self.new a n) atoms.now ≡ true) }
        ensures why { IfErr result (λ e. e ≡ Refusal.Memory) }
    {
        for atom in atoms {
            self.note(atom, span)?;
        }
        Ok(())
    }

    // Notes the span under the atom, unless it is a `Lacks`.
    fn note(&mut self, atom: &Atom, span: Span) -> Result<(), Refusal>
        ensures wider { IsWider self.old self.new }
        ensures ok { OnOk result ((n : ℕ) → in_span span n ≡ true → under self.new atom.now n ≡ true) }
        ensures why { IfErr result (λ e. e ≡ Refusal.Memory) }
    {
        match atom {
            Atom::Has(p) => self.has.note(self.alloc, *p, span),
            Atom::Lacks(_) => Ok(()),
            Atom::AtLeast(item, _) => note_span(self.alloc, &mut self.at_least, key_of(item), span),
            Atom::AtMost(item, _) => note_span(self.alloc, &mut self.at_most, key_of(item), span),
        }
    }
}

// How many of the runs, from the first on, go on to the task with the number: its list has their atoms. If the number is not
// beyond those of the earlier tasks, none does.
fn going_on(runs: &Runs, number: u32) -> usize
    ensures low { result ≤ length runs.now.begun.items }
    ensures others { result ≤ length runs.now.others.items }
    ensures same { map (λ r. r.atom) (take result runs.now.begun.items) ≡ take result runs.now.others.items }
    ensures firsts { list_all (λ r. nat_le r.first number) (take result runs.now.begun.items) ≡ true }
    ensures late { (result ≡ 0) ⊎ (runs.now.last ≤ number) }
{
    if number <= runs.last {
        return 0;
    }
    shared_count(&runs.begun, &runs.others, number)
}

// How many of the runs, from the first on, have the atoms that the list begins with and have begun by the number.
fn shared_count(runs: &[Run], others: &[Atom], number: u32) -> usize
    ensures low { result ≤ length runs.now }
    ensures others { result ≤ length others.now }
    ensures same { map (λ r. r.atom) (take result runs.now) ≡ take result others.now }
    ensures firsts { list_all (λ r. nat_le r.first number) (take result runs.now) ≡ true }
{
    let limit = runs.len().min(others.len());
    let mut count = 0;
    while count < limit && is_run(&runs[count], &others[count], number) {
        count += 1;
    }
    count
}

// If this is true, the run has the atom and has begun by the number.
fn is_run(run: &Run, atom: &Atom, number: u32) -> bool
    ensures { result ≡ true → (run.now.atom ≡ atom.now) × (run.now.first ≤ number) }
{
    run.first <= number && run.atom == *atom
}

// Begins a run with the task of the number for each atom. Fails only when out of memory.
fn begin_runs(runs: &mut Vec<Run>, atoms: &[Atom], number: u32) -> Result<(), Refusal>
    ensures ok { OnOk result (runs.new.items ≡ runs.old.items ++ map (λ a. run_from number a) atoms.now) }
    ensures why { IfErr result (λ e. e ≡ Refusal.Memory) }
{
    for atom in atoms {
        runs.push(Run {
            atom: *atom,
            first: number,
        })?;
    }
    Ok(())
}

// Whether the base, of which `others` are the atoms that are no `Lacks`, is noted for the task with the number.
fn is_noted(known: &NotedBase, others: &[Atom], number: u32) -> bool
    ensures { result ≡ true → (others.now ≡ known.now.others.items) × (in_span known.now.span number ≡ true) }
{
    if number < known.span.from || known.span.to < number {
        return false;
    }
    is_same_list(others, &known.others)
}

// The number of the last of the first tasks whose base has these atoms besides its `Lacks`; 0 if there is none.
fn last_with(tasks: &[Pending], others: &[Atom]) -> u32 {
    let mut last = 0;
    for task in tasks {
        if !has_base(&task.own, others) {
            return last;
        }
        last = task.number;
    }
    last
}

// Whether the task has a base, and the base has these atoms besides its `Lacks`.
fn has_base(own: &Own, others: &[Atom]) -> bool {
    match own {
        Own::Listed(_, _) => false,
        Own::Stair(_) => false,
        Own::Crossed(base, _) => is_same_list(others, base.others()),
    }
}

// How many of the stair's guards, from the first on, are known to be noted for all tasks of the span.
fn known_count(prefix: &Prefix, stair: &Stair, span: &Span) -> usize
    ensures low { result ≤ stair.now.index }
    ensures known { (result ≡ 0) ⊎ ((result ≤ prefix.now.count) × (prefix.now.edition ≡ stair.now.edition) × (prefix.now.span.from ≤ span.now.from) × (span.now.to ≤ prefix.now.span.to)) }
{
    let known = prefix.span;
    if prefix.edition == stair.edition && known.from <= span.from && span.to <= known.to {
        return prefix.count.min(stair.index);
    }
    0
}

// The number of the last task; 0 if there is none.
fn last_number(tasks: &[Pending]) -> u32 {
    match tasks.last() {
        None => 0,
        Some(task) => task.number,
    }
}

// The first key that isn't a cell's.
const FIRST_NAME: u32 = 4096;

/// The key of the item. Pieces whose names end with the same byte share a key, so a task about one of them may also be found
/// for another.
pub(crate) fn key_of(item: &Item) -> u32
    ensures { result ≡ key_of item.now }
{
    match item {
        Item::Cell(cell) => u32::from(cell.y()) * SIDE as u32 + u32::from(cell.x()),
        Item::Piece(name) => key_of_name(name.as_bytes()),
    }
}

// The key of the piece with the name.
fn key_of_name(name: &[u8]) -> u32
    requires { 1 ≤ length name.now }
    ensures { result ≡ key_of_name name.now }
{
    FIRST_NAME + u32::from(name[name.len() - 1])
}
