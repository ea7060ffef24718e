//! Stairs. The stair of a guard is the list of the guards before it, followed by the guard's negation. So a set that breaks
//! a guard meets exactly one stair.
ghost use Rattle.std.specs.Prelude.{IfErr, IfOk, OnOk, [], length, map, slice_index_or, ◌++◌, ◌<◌, ◌≡◌};
ghost use Rattle.poly_atom.specs.Atoms.{AllSmall};
ghost use Rattle.poly_atom.specs.Logs.{IsStairOf, stair_of};
ghost use Rattle.poly_atom.specs.Stairs.{stairs};

use crate::atom::Atom;
use crate::log::GuardLog;
use poly_grid::Refusal;
use std::alloc::{AllocError, Global};

/// Names one stair of a change: the change's guards before the index, and the negation of the guard at the index.
#[derive(Clone, Copy, Debug, PartialEq, Eq)]
pub struct Stair {
    /// The edition that the change led from.
    pub edition: u64,
    /// The index of the negated guard among the change's guards, from 0 on.
    pub index: usize,
}

impl Stair {
    /// The atoms of the stair. Requires that the log has the edition, and that the edition's guards have the index.
    /// Fails only when out of memory.
    pub fn atoms(&self, alloc: Global, log: &GuardLog) -> Result<Vec<Atom>, Refusal>
        requires { IsStairOf log.now self.now }
        ensures ok { IfOk result (λ atoms. atoms.items ≡ stair_of log.now self.now) }
        ensures why { IfErr result (λ e. e ≡ Refusal.Memory) }
    {
        let atoms = stair_at(alloc, log.guards_of(self.edition), self.index)?;
        Ok(atoms)
    }

    /// Appends the atoms of the stair to the list. Requires what `atoms` requires. Fails only when out of memory.
    pub fn append_to(&self, log: &GuardLog, list: &mut Vec<Atom>) -> Result<(), Refusal>
        requires { IsStairOf log.now self.now }
        ensures ok { OnOk result (list.new.items ≡ list.old.items ++ stair_of log.now self.now) }
        ensures why { IfErr result (λ e. e ≡ Refusal.Memory) }
    {
        append_stair(log.guards_of(self.edition), self.index, list)?;
        Ok(())
    }
}

/// For each atom, in order, a list: the atoms before it, then its negation. Requires that each atom can be negated. Fails
/// only when out of memory.
pub fn staircase(alloc: Global, atoms: &[Atom]) -> Result<Vec<Vec<Atom>>, Refusal>
    requires { AllSmall atoms.now }
    ensures ok { IfOk result (λ all. map (λ stair. stair.items) all.items ≡ stairs atoms.now) }
    ensures why { IfErr result (λ e. e ≡ Refusal.Memory) }
{
    let mut all = Vec::new(alloc);
    for i in 0..atoms.len() {
        let stair = stair_at(alloc, atoms, i)?;
        all.push(stair)?;
    }
    Ok(all)
}

fn stair_at(alloc: Global, atoms: &[Atom], index: usize) -> Result<Vec<Atom>, AllocError>
    requires inside { index < length atoms.now }
    requires small { AllSmall atoms.now }
    ensures { IfOk result (λ stair. stair.items ≡ slice_index_or (stairs atoms.now) index []) }
{
    let mut stair = Vec::with_capacity(alloc, index + 1)?;
    append_stair(atoms, index, &mut stair)?;
    Ok(stair)
}

fn append_stair(atoms: &[Atom], index: usize, list: &mut Vec<Atom>) -> Result<(), AllocError>
    requires inside { index < length atoms.now }
    requires small { AllSmall atoms.now }
    ensures { OnOk result (list.new.items ≡ list.old.items ++ slice_index_or (stairs atoms.now) index []) }
{
    list.extend_from_slice(&atoms[..index])?;
    list.push(atoms[index].negated())?;
    Ok(())
}
