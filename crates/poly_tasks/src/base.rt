//! What the tasks stand on that an undo or a redo opens over a shelf: the atoms of one frozen task.
//!
//! Most of these atoms are in the guard log: the guards that were laid on the task, and the stair that it is or ends with. Of them
//! only their place in the log is kept. So a base takes little room, however many guards were laid on its task, and all tasks
//! that stand on it share it.
ghost use Rattle.std.specs.Prelude.{◌≡◌, ◌++◌, ◌∷◌, ◌≤◌, ◌<◌, [], IfErr, IfOk, IsTrue, List, OnOk, length, slice_index_or};
ghost use Rattle.std.specs.List.{filter};
ghost use Rattle.poly_atom.specs.declared.atom.Atom.{Atom as AtomOf};
ghost use Rattle.poly_atom.specs.Logs.{IsStairOf, stair_of};
ghost use Rattle.poly_lists.specs.Words.{is_other};
ghost use Rattle.poly_tasks.specs.Judged.{IsLead, is_harmful};
ghost use Rattle.poly_tasks.specs.Meaning.{IsBase, IsFrozen, IsOwn, base_of, frozen_of, laid_of, own_of};
ghost use Rattle.poly_tasks.specs.Needed.{AreExcerptsFrom};
ghost use Rattle.poly_tasks.specs.Spots.{IsSpots};

use crate::excerpt::{Excerpt, append_excerpts};
use crate::harm::append_lacks;
use crate::laid::Laid;
use crate::lead::Lead;
use crate::shelf::Frozen;
use crate::spots::Spots;
use crate::task::{Own, append_others};
use poly_atom::{Atom, GuardLog, Stair};
use poly_grid::Refusal;
use poly_lists::SharedLists;
use std::alloc::Global;

// The most excerpts that a base goes on from. An undo or a redo adds at most two, so only a base that lies under a dozen others is
// stored as a list.
const MOST_EXCERPTS: usize = 32;

/// The atoms of a frozen task.
#[derive(Drop)]
pub struct Base {
    /// Lists of atoms. The base begins with one of them.
    lists: SharedLists,
    /// The index of this list.
    index: usize,
    /// What follows the list, in order.
    excerpts: Vec<Excerpt>,
    /// The atoms of the base without each `Lacks`.
    others: Vec<Atom>,
}

impl Base {
    /// The lists one of which the base begins with, and the index of that list.
    pub(crate) fn list(&self) -> (&SharedLists, usize)
        ensures lists { result.0.now ≡ self.now.lists }
        ensures index { result.1 ≡ self.now.index }
    {
        (&self.lists, self.index)
    }

    /// The atoms without each `Lacks`.
    pub(crate) fn others(&self) -> &[Atom]
        ensures { result.now ≡ self.now.others.items }
    {
        &self.others
    }

    /// Writes the atoms to the buffer, in place of what it had.
    pub(crate) fn read(&self, log: &GuardLog, buffer: &mut Vec<Atom>) -> Result<(), Refusal>
        requires { IsBase log.now self.now }
        ensures ok { OnOk result (buffer.new.items ≡ base_of log.now self.now) }
        ensures why { IfErr result (λ e. e ≡ Refusal.Memory) }
    {
        self.lists.read(self.index, buffer)?;
        append_excerpts(&self.excerpts, log, buffer)?;
        Ok(())
    }

    /// Appends those of the atoms that are a `Lacks` of one of the placements that were looked for. The base's list is read into the
    /// buffer, in place of what it had.
    pub(crate) fn append_harmful(
        &self,
        log: &GuardLog,
        spots: &Spots,
        buffer: &mut Vec<Atom>,
        atoms: &mut Vec<Atom>,
    ) -> Result<(), Refusal>
        requires base { IsBase log.now self.now }
        requires spots { IsSpots log.now spots.now }
        ensures ok { OnOk result (atoms.new.items ≡ atoms.old.items ++ filter (is_harmful spots.now.placements.items) (base_of log.now self.now)) }
        ensures why { IfErr result (λ e. e ≡ Refusal.Memory) }
    {
        self.lists.read(self.index, buffer)?;
        append_lacks(buffer, spots.placements(), atoms)?;
        for excerpt in &self.excerpts {
            excerpt.append_harmful(log, spots, atoms)?;
        }
        Ok(())
    }

    /// If this is true, the atoms are exactly these. Never allocates.
    pub(crate) fn matches(&self, log: &GuardLog, atoms: &[Atom]) -> bool
        requires { IsBase log.now self.now }
        ensures { IsTrue result → (atoms.now ≡ base_of log.now self.now) }
    {
        let count = self.excerpts.len();
        let mut end = atoms.len();
        for done in 0..count {
            match self.excerpts[count - 1 - done].before(log, &atoms[..end]) {
                None => return false,
                Some(before) => end = before,
            }
        }
        self.lists.matches(self.index, &atoms[..end])
    }

    /// The first edition that the base is read from; `end` if none is before it.
    pub fn first_edition(&self, end: u64) -> u64
        ensures excerpts { AreExcerptsFrom result self.now.excerpts.items }
        ensures low { result ≤ end }
    {
        let mut edition = end;
        for excerpt in &self.excerpts {
            edition = excerpt.edition().min(edition);
        }
        edition
    }
}

/// The atoms of the frozen task. `laid` are the guards that were laid on it, and the only one of the lists `none` is empty. `lead` is
/// that of any edition; that of the stair that the task's own atoms end with saves time.
pub(crate) fn base_over(
    alloc: Global,
    log: &GuardLog,
    frozen: &Frozen,
    laid: &Laid,
    none: &SharedLists,
    lead: Lead,
) -> Result<Base, Refusal>
    requires frozen { IsFrozen log.now frozen.now }
    requires laid { laid.now.others.items ≡ filter is_other (laid_of log.now frozen.now) }
    requires none { none.now ≡ [] ∷ [] }
    requires lead { IsLead log.now lead }
    ensures base { IfOk result (λ b. base_of log.now b ≡ frozen_of log.now frozen.now) }
    ensures is { IfOk result (λ b. IsBase log.now b) }
    ensures why { IfErr result (λ e. e ≡ Refusal.Memory) }
{
    let base = base_over_own(alloc, log, &frozen.own, none, lead)?;
    let base = with_guards(base, log, frozen, laid)?;
    Ok(base)
}

// The own atoms.
fn base_over_own(
    alloc: Global,
    log: &GuardLog,
    own: &Own,
    none: &SharedLists,
    lead: Lead,
) -> Result<Base, Refusal>
    requires own { IsOwn log.now own.now }
    requires none { none.now ≡ [] ∷ [] }
    requires lead { IsLead log.now lead }
    ensures base { IfOk result (λ b. base_of log.now b ≡ own_of log.now own.now) }
    ensures is { IfOk result (λ b. IsBase log.now b) }
    ensures why { IfErr result (λ e. e ≡ Refusal.Memory) }
{
    match own {
        Own::Listed(lists, index) => over_list(alloc, lists, *index),
        Own::Stair(stair) => {
            let base = over_list(alloc, none, 0)?;
            with_stair(base, log, stair, lead)
        }
        Own::Crossed(below, stair) => {
            let base = over_base(alloc, log, below)?;
            with_stair(base, log, stair, lead)
        }
    }
}

// The list at the index.
fn over_list(alloc: Global, lists: &SharedLists, index: usize) -> Result<Base, Refusal>
    requires { index < length lists.now }
    ensures base { IfOk result (λ b. (log : List (List AtomOf)) → base_of log b ≡ slice_index_or lists.now index []) }
    ensures is { IfOk result (λ b. (log : List (List AtomOf)) → IsBase log b) }
    ensures why { IfErr result (λ e. e ≡ Refusal.Memory) }
{
    let mut others = Vec::new(alloc);
    lists.read_others(index, &mut others)?;
    Ok(Base {
        lists: lists.try_clone()?,
        index,
        excerpts: Vec::new(alloc),
        others,
    })
}

// The same atoms. If the base has many excerpts, their atoms are stored as a list.
fn over_base(alloc: Global, log: &GuardLog, base: &Base) -> Result<Base, Refusal>
    requires { IsBase log.now base.now }
    ensures base { IfOk result (λ b. base_of log.now b ≡ base_of log.now base.now) }
    ensures is { IfOk result (λ b. IsBase log.now b) }
    ensures why { IfErr result (λ e. e ≡ Refusal.Memory) }
{
    if base.excerpts.len() > MOST_EXCERPTS {
        return as_list(alloc, log, base);
    }
    Ok(Base {
        lists: base.lists.try_clone()?,
        index: base.index,
        excerpts: Vec::from_slice(alloc, &base.excerpts)?,
        others: Vec::from_slice(alloc, &base.others)?,
    })
}

// The same atoms, all of them stored as a list.
fn as_list(alloc: Global, log: &GuardLog, base: &Base) -> Result<Base, Refusal>
    requires { IsBase log.now base.now }
    ensures base { IfOk result (λ b. base_of log.now b ≡ base_of log.now base.now) }
    ensures is { IfOk result (λ b. IsBase log.now b) }
    ensures why { IfErr result (λ e. e ≡ Refusal.Memory) }
{
    let mut more = Vec::new(alloc);
    append_excerpts(&base.excerpts, log, &mut more)?;
    Ok(Base {
        lists: base.lists.after(alloc, base.index, &more)?,
        index: 0,
        excerpts: Vec::new(alloc),
        others: Vec::from_slice(alloc, &base.others)?,
    })
}

// The base followed by the stair.
fn with_stair(base: Base, log: &GuardLog, stair: &Stair, lead: Lead) -> Result<Base, Refusal>
    requires lead { IsLead log.now lead }
    requires base { IsBase log.now base }
    requires stair { IsStairOf log.now stair.now }
    ensures base { IfOk result (λ b. base_of log.now b ≡ base_of log.now base ++ stair_of log.now stair.now) }
    ensures is { IfOk result (λ b. IsBase log.now b) }
    ensures why { IfErr result (λ e. e ≡ Refusal.Memory) }
{
    let mut base = base;
    let mut lead = lead;
    append_others(log, stair, &mut lead, &mut base.others)?;
    base.excerpts.push(Excerpt::Stair(*stair))?;
    Ok(base)
}

// The base followed by the guards that were laid on the frozen task.
fn with_guards(base: Base, log: &GuardLog, frozen: &Frozen, laid: &Laid) -> Result<Base, Refusal>
    requires base { IsBase log.now base }
    requires frozen { IsFrozen log.now frozen.now }
    requires laid { laid.now.others.items ≡ filter is_other (laid_of log.now frozen.now) }
    ensures base { IfOk result (λ b. base_of log.now b ≡ base_of log.now base ++ laid_of log.now frozen.now) }
    ensures is { IfOk result (λ b. IsBase log.now b) }
    ensures why { IfErr result (λ e. e ≡ Refusal.Memory) }
{
    let _ = log;
    let mut base = base;
    if frozen.count == 0 {
        return Ok(base);
    }
    base.others.extend_from_slice(laid.others())?;
    base.excerpts
        .push(Excerpt::Guards(frozen.made, frozen.count))?;
    Ok(base)
}
