//! Where the guard log has `Lacks` of some placements.
//!
//! The frozen tasks of a shelf are mostly read from the guard log: each of them has thousands of its guards, and nearly all are the
//! same for all tasks. So the log is looked through once, and what a task has of it takes only a look at the few that were found.
ghost use Rattle.std.specs.Prelude.{◌≡◌, ◌++◌, ◌+◌, ◌≤◌, [], IfErr, List, OnOk, drop, length, map, take, ℕ};
ghost use Rattle.std.specs.List.{filter};
ghost use Rattle.poly_atom.specs.declared.atom.Atom.{Atom as AtomOf};
ghost use Rattle.poly_atom.specs.Logs.{flat};
ghost use Rattle.poly_tasks.specs.Judged.{is_harmful};
ghost use Rattle.poly_tasks.specs.Spots.{IsSpots, is_within, spots_from};

use crate::harm::is_harmful;
use poly_atom::{Atom, GuardLog};
use poly_grid::Refusal;
use std::alloc::Global;

/// A guard of the log.
#[derive(Clone, Copy)]
pub(crate) struct Spot {
    /// Its index among all guards of the log.
    pub at: usize,
    /// The guard.
    pub atom: Atom,
}

/// The guards of the log that lack one of some placements.
#[derive(Drop)]
pub(crate) struct Spots {
    /// The placements.
    placements: Vec<u32>,
    /// Each `Lacks` of one of these, in order.
    found: Vec<Spot>,
}

impl Spots {
    /// Those of no placement.
    pub(crate) fn none(alloc: Global) -> Spots
        ensures { (log : List (List AtomOf)) → IsSpots log result }
    {
        Spots {
            placements: Vec::new(alloc),
            found: Vec::new(alloc),
        }
    }

    /// The placements.
    pub(crate) fn placements(&self) -> &[u32]
        ensures { result.now ≡ self.now.placements.items }
    {
        &self.placements
    }

    /// Looks for the `Lacks` of the placements, unless these are the ones that were looked for last.
    pub(crate) fn find(&mut self, log: &GuardLog, placements: &[u32]) -> Result<(), Refusal>
        requires { IsSpots log.now self.old }
        ensures spots { OnOk result (IsSpots log.now self.new) }
        ensures placements { OnOk result (self.new.placements.items ≡ placements.now) }
        ensures why { IfErr result (λ e. e ≡ Refusal.Memory) }
    {
        if self.placements.as_slice() == placements {
            return Ok(());
        }
        self.found.clear();
        append_spots(log.since(0), placements, &mut self.found)?;
        self.placements.clear();
        self.placements.extend_from_slice(placements)?;
        Ok(())
    }

    /// Appends those of the first `count` guards that the log has from the edition on.
    pub(crate) fn append_since(
        &self,
        log: &GuardLog,
        edition: u64,
        count: usize,
        atoms: &mut Vec<Atom>,
    ) -> Result<(), Refusal>
        requires spots { IsSpots log.now self.now }
        requires count { count ≤ length (flat (drop edition log.now)) }
        ensures ok { OnOk result (atoms.new.items ≡ atoms.old.items ++ filter (is_harmful self.now.placements.items) (take count (flat (drop edition log.now)))) }
        ensures why { IfErr result (λ e. e ≡ Refusal.Memory) }
    {
        let start = log.total() - log.since(edition).len();
        append_within(&self.found, start, start + count, atoms)?;
        Ok(())
    }
}

// Appends the `Lacks` of the guards that are about one of the placements, each with its index.
fn append_spots(guards: &[Atom], placements: &[u32], found: &mut Vec<Spot>) -> Result<(), Refusal>
    ensures ok { OnOk result (found.new.items ≡ found.old.items ++ spots_from placements.now 0 guards.now) }
    ensures why { IfErr result (λ e. e ≡ Refusal.Memory) }
{
    for (at, atom) in guards.iter().enumerate() {
        if !is_harmful(placements, atom) {
            continue;
        }
        found.push(Spot { at, atom: *atom })?;
    }
    Ok(())
}

// Appends the guards whose index is at least `start` and less than `end`.
fn append_within(
    found: &[Spot],
    start: usize,
    end: usize,
    atoms: &mut Vec<Atom>,
) -> Result<(), Refusal>
    ensures ok { OnOk result (atoms.new.items ≡ atoms.old.items ++ map (λ s. s.atom) (filter (λ s. is_within start end s.at) found.now)) }
    ensures why { IfErr result (λ e. e ≡ Refusal.Memory) }
{
    for spot in found {
        if start <= spot.at && spot.at < end {
            atoms.push(spot.atom)?;
        }
    }
    Ok(())
}
