//! Pending tasks.
ghost use Rattle.std.specs.Prelude.{IfErr, IfOk, IsTrue, List, MatchOption, OnOk, [], length, true, ◌++◌, ◌<◌, ◌≡◌, ◌↔◌, ◌∷◌, ⊤};
ghost use Rattle.std.specs.List.{filter};
ghost use Rattle.poly_atom.specs.declared.atom.Atom.{Atom as AtomOf};
ghost use Rattle.poly_atom.specs.Hopeless.{hopeless};
ghost use Rattle.poly_atom.specs.Logs.{IsStairOf, stair_of};
ghost use Rattle.poly_lists.specs.Words.{is_other};
ghost use Rattle.poly_tasks.specs.Meaning.{IsFrozen, IsOwn, IsTask, brief_of, frozen_of, own_of, task_of};
ghost use Rattle.poly_tasks.specs.Judged.{IsLead, is_harmful};
ghost use Rattle.poly_tasks.specs.Spots.{IsSpots};
ghost use Rattle.poly_tasks.specs.Tasks.{Spares, atoms_of};

use crate::base::Base;
use crate::excerpt::append_harmful_of;
use crate::harm::append_lacks;
use crate::lead::Lead;
use crate::shelf::Frozen;
use crate::spoilt::last_stair;
use crate::spots::Spots;
use poly_atom::{Atom, GuardLog, Stair, hopeless};
use poly_grid::Refusal;
use poly_lists::SharedLists;
use poly_tiling::View;
use std::alloc::Global;
use std::sync::Arc;

/// A task's own atoms.
#[derive(Drop)]
pub enum Own {
    /// The list at this index. The tasks that were opened for the rests of one report share their lists.
    Listed(SharedLists, usize),
    /// A stair of a change. Its atoms are read from the guard log.
    Stair(Stair),
    /// A base, followed by a stair of the change that opened the task. The tasks that were opened for one frozen task share its
    /// atoms as their base.
    Crossed(Arc<Base>, Stair),
}

/// A pending task.
#[derive(Drop)]
pub struct Pending {
    /// Its number.
    pub number: u32,
    /// Its own atoms.
    pub own: Own,
    /// The edition at which the task was made. The guards of every change since then are atoms of the task, too.
    pub made: u64,
}

/// Whether the own atoms end with a stair whose last atom alone is hopeless. Then they are hopeless.
pub(crate) fn ends_by_stair(view: &View, log: &GuardLog, own: &Own) -> bool
    requires { IsOwn log.now own.now }
    ensures { IsTrue result → (hopeless view.now (own_of log.now own.now) ≡ true) }
{
    match last_stair(own) {
        None => false,
        Some(stair) => ends_alone(view, log, &stair),
    }
}

// Whether the last atom of the stair alone is hopeless.
fn ends_alone(view: &View, log: &GuardLog, stair: &Stair) -> bool
    requires { IsStairOf log.now stair.now }
    ensures { IsTrue result → (hopeless view.now (stair_of log.now stair.now) ≡ true) }
{
    let last = [log.guards_of(stair.edition)[stair.index].negated()];
    hopeless(view, &last)
}

/// Writes a task's own atoms without each `Lacks` to the buffer, in place of what it had. `lead` is that of any edition, and becomes
/// that of the stair's.
pub(crate) fn read_brief(
    log: &GuardLog,
    own: &Own,
    lead: &mut Lead,
    buffer: &mut Vec<Atom>,
) -> Result<(), Refusal>
    requires own { IsOwn log.now own.now }
    requires lead { IsLead log.now lead.old }
    ensures lead { IsLead log.now lead.new }
    ensures ok { OnOk result (buffer.new.items ≡ brief_of log.now own.now) }
    ensures why { IfErr result (λ e. e ≡ Refusal.Memory) }
{
    match own {
        Own::Listed(lists, index) => {
            lists.read_others(*index, buffer)?;
            Ok(())
        }
        Own::Stair(stair) => {
            buffer.clear();
            append_others(log, stair, lead, buffer)?;
            Ok(())
        }
        Own::Crossed(base, stair) => {
            buffer.clear();
            buffer.extend_from_slice(base.others())?;
            append_others(log, stair, lead, buffer)?;
            Ok(())
        }
    }
}

/// Appends the atoms of the stair without each `Lacks`. `lead` is that of any edition, and becomes that of the stair's.
pub(crate) fn append_others(
    log: &GuardLog,
    stair: &Stair,
    lead: &mut Lead,
    buffer: &mut Vec<Atom>,
) -> Result<(), Refusal>
    requires stair { IsStairOf log.now stair.now }
    requires lead { IsLead log.now lead.old }
    ensures lead { IsLead log.now lead.new }
    ensures ok { OnOk result (buffer.new.items ≡ buffer.old.items ++ filter is_other (stair_of log.now stair.now)) }
    ensures why { IfErr result (λ e. e ≡ Refusal.Memory) }
{
    *lead = lead.at(log, stair.edition);
    let guards = log.guards_of(stair.edition);
    let first = lead.count.min(stair.index);
    append_others_of(&guards[first..stair.index], buffer)?;
    let last = [guards[stair.index].negated()];
    append_others_of(&last, buffer)?;
    Ok(())
}

/// Appends those of the atoms that are no `Lacks`.
pub(crate) fn append_others_of(atoms: &[Atom], buffer: &mut Vec<Atom>) -> Result<(), Refusal>
    ensures ok { OnOk result (buffer.new.items ≡ buffer.old.items ++ filter is_other atoms.now) }
    ensures why { IfErr result (λ e. e ≡ Refusal.Memory) }
{
    for atom in atoms {
        if is_other(atom) {
            buffer.push(*atom)?;
        }
    }
    Ok(())
}

/// Whether the atom is no `Lacks`.
pub(crate) fn is_other(atom: &Atom) -> bool
    ensures { result ≡ is_other atom.now }
{
    match atom {
        Atom::Lacks(_) => false,
        Atom::Has(_) => true,
        Atom::AtLeast(_, _) => true,
        Atom::AtMost(_, _) => true,
    }
}

/// Writes a task's own atoms to the buffer, in place of what it had.
pub(crate) fn read_own(log: &GuardLog, own: &Own, buffer: &mut Vec<Atom>) -> Result<(), Refusal>
    requires { IsOwn log.now own.now }
    ensures ok { OnOk result (buffer.new.items ≡ own_of log.now own.now) }
    ensures why { IfErr result (λ e. e ≡ Refusal.Memory) }
{
    match own {
        Own::Listed(lists, index) => {
            lists.read(*index, buffer)?;
            Ok(())
        }
        Own::Stair(stair) => {
            buffer.clear();
            stair.append_to(log, buffer)?;
            Ok(())
        }
        Own::Crossed(base, stair) => {
            base.read(log, buffer)?;
            stair.append_to(log, buffer)?;
            Ok(())
        }
    }
}

/// Appends those of the frozen task's atoms that are a `Lacks` of one of the placements that were looked for. A list that its own
/// atoms begin with is read into the buffer, in place of what it had.
pub(crate) fn append_harmful(
    log: &GuardLog,
    frozen: &Frozen,
    spots: &Spots,
    buffer: &mut Vec<Atom>,
    atoms: &mut Vec<Atom>,
) -> Result<(), Refusal>
    requires frozen { IsFrozen log.now frozen.now }
    requires spots { IsSpots log.now spots.now }
    ensures ok { OnOk result (atoms.new.items ≡ atoms.old.items ++ filter (is_harmful spots.now.placements.items) (frozen_of log.now frozen.now)) }
    ensures why { IfErr result (λ e. e ≡ Refusal.Memory) }
{
    append_harmful_own(log, &frozen.own, spots, buffer, atoms)?;
    spots.append_since(log, frozen.made, frozen.count, atoms)?;
    Ok(())
}

/// The same for own atoms.
pub(crate) fn append_harmful_own(
    log: &GuardLog,
    own: &Own,
    spots: &Spots,
    buffer: &mut Vec<Atom>,
    atoms: &mut Vec<Atom>,
) -> Result<(), Refusal>
    requires own { IsOwn log.now own.now }
    requires spots { IsSpots log.now spots.now }
    ensures ok { OnOk result (atoms.new.items ≡ atoms.old.items ++ filter (is_harmful spots.now.placements.items) (own_of log.now own.now)) }
    ensures why { IfErr result (λ e. e ≡ Refusal.Memory) }
{
    match own {
        Own::Listed(lists, index) => {
            lists.read(*index, buffer)?;
            append_lacks(buffer, spots.placements(), atoms)
        }
        Own::Stair(stair) => append_harmful_of(log, stair, spots, atoms),
        Own::Crossed(base, stair) => {
            base.append_harmful(log, spots, buffer, atoms)?;
            append_harmful_of(log, stair, spots, atoms)
        }
    }
}

/// The list that the own atoms begin with, if there is one: lists, and its index among them.
pub fn list_of<'a>(log: &GuardLog, own: &'a Own) -> Option<(&'a SharedLists, usize)>
    requires { IsOwn log.now own.now }
    ensures { MatchOption result ⊤ (λ b. b.1 < length b.0.now) }
{
    let _ = log;
    match own {
        Own::Listed(lists, index) => Some((lists, *index)),
        Own::Stair(_) => None,
        Own::Crossed(base, _) => Some(base.list()),
    }
}

// The same own atoms. Lists and bases are shared.
fn share(own: &Own) -> Result<Own, Refusal>
    ensures same { IfOk result (λ o. (log : List (List AtomOf)) → own_of log o ≡ own_of log own.now) }
    ensures own { IfOk result (λ o. (log : List (List AtomOf)) → IsOwn log own.now → IsOwn log o) }
    ensures why { IfErr result (λ e. e ≡ Refusal.Memory) }
{
    match own {
        Own::Listed(lists, index) => {
            let shared = lists.try_clone()?;
            Ok(Own::Listed(shared, *index))
        }
        Own::Stair(stair) => Ok(Own::Stair(*stair)),
        Own::Crossed(base, stair) => Ok(Own::Crossed(Arc::try_clone(base)?, *stair)),
    }
}

/// The task's atoms as they are now, to be read again later.
pub fn freeze(log: &GuardLog, task: &Pending) -> Result<Frozen, Refusal>
    requires task { IsTask log.now task.now }
    requires spares { Spares (own_of log.now task.now.own) (atoms_of (task_of log.now task.now)) }
    ensures atoms { IfOk result (λ f. frozen_of log.now f ≡ atoms_of (task_of log.now task.now)) }
    ensures frozen { IfOk result (λ f. IsFrozen log.now f) }
    ensures why { IfErr result (λ e. e ≡ Refusal.Memory) }
{
    let own = share(&task.own)?;
    let count = log.since(task.made).len();
    Ok(Frozen {
        own,
        made: task.made,
        count,
    })
}

/// If this is true, the task's own atoms and the guards of every change since it was made are exactly these. Never allocates.
pub fn is_made_of(log: &GuardLog, task: &Pending, atoms: &[Atom]) -> bool
    requires { IsTask log.now task.now }
    ensures { IsTrue result → (atoms.now ≡ atoms_of (task_of log.now task.now)) }
{
    let since = log.since(task.made);
    if atoms.len() < since.len() {
        return false;
    }
    let count = atoms.len() - since.len();
    is_same_list(&atoms[count..], since) && is_own(log, &task.own, &atoms[..count])
}

// If this is true, the own atoms are exactly these.
fn is_own(log: &GuardLog, own: &Own, atoms: &[Atom]) -> bool
    requires { IsOwn log.now own.now }
    ensures { IsTrue result → (atoms.now ≡ own_of log.now own.now) }
{
    match own {
        Own::Listed(lists, index) => lists.matches(*index, atoms),
        Own::Stair(stair) => is_stair(log, stair, atoms),
        Own::Crossed(base, stair) => {
            if atoms.len() <= stair.index {
                return false;
            }
            let count = atoms.len() - stair.index - 1;
            base.matches(log, &atoms[..count]) && is_stair(log, stair, &atoms[count..])
        }
    }
}

/// If this is true, the atoms of the stair are exactly these.
pub(crate) fn is_stair(log: &GuardLog, stair: &Stair, atoms: &[Atom]) -> bool
    requires { IsStairOf log.now stair.now }
    ensures { IsTrue result → (atoms.now ≡ stair_of log.now stair.now) }
{
    let guards = log.guards_of(stair.edition);
    let index = stair.index;
    if atoms.len() != index + 1 || !is_same_list(&atoms[..index], &guards[..index]) {
        return false;
    }
    atoms[index] == guards[index].negated()
}

/// Whether both lists are the same.
pub fn is_same_list(one: &[Atom], other: &[Atom]) -> bool
    ensures { IsTrue result ↔ (one.now ≡ other.now) }
{
    one == other
}

/// Writes the task's own atoms, and the guards of every change since it was made, to the buffer, in place of what it had.
pub fn read_all(log: &GuardLog, task: &Pending, buffer: &mut Vec<Atom>) -> Result<(), Refusal>
    requires { IsTask log.now task.now }
    ensures ok { OnOk result (buffer.new.items ≡ atoms_of (task_of log.now task.now)) }
    ensures why { IfErr result (λ e. e ≡ Refusal.Memory) }
{
    read_own(log, &task.own, buffer)?;
    buffer.extend_from_slice(log.since(task.made))?;
    Ok(())
}

/// The task's own atoms, and the guards of every change since it was made, as a list.
pub fn all_atoms(alloc: Global, log: &GuardLog, task: &Pending) -> Result<Vec<Atom>, Refusal>
    requires { IsTask log.now task.now }
    ensures ok { IfOk result (λ atoms. atoms.items ≡ atoms_of (task_of log.now task.now)) }
    ensures why { IfErr result (λ e. e ≡ Refusal.Memory) }
{
    let mut atoms = Vec::new(alloc);
    read_all(log, task, &mut atoms)?;
    Ok(atoms)
}
