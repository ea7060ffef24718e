//! The guards of all changes. Those of each change are stored once, for all tasks.
ghost use Rattle.std.specs.Prelude.{IfErr, IsTrue, List, OnErr, OnOk, [], drop, length, map, slice_index_or, take, ◌++◌, ◌+◌, ◌-◌, ◌<◌, ◌≤◌, ◌∷◌, ◌≡◌, ◌↔◌};
ghost use Rattle.poly_atom.specs.Atoms.{AllSmall};
ghost use Rattle.poly_atom.specs.LogKept.{IsKept, rows};
ghost use Rattle.poly_atom.specs.Logs.{flat, forgotten, without_last};
ghost use Rattle.poly_atom.specs.Stairs.{stairs};

use crate::atom::Atom;
use poly_grid::Refusal;
use std::alloc::Global;
use std::marker::Model;

/// The guards of each change, by edition: those of the change that led from edition 0 first. All of them can be
/// negated.
#[derive(Debug, Drop)]
pub struct GuardLog {
    /// The guards of all changes, one change after another.
    guards: Vec<Atom>,
    /// Where the guards of each change start in `guards`.
    starts: Vec<usize>,
}

impl Model for GuardLog {
    ghost use Rattle.std.specs.Prelude.{List};
    ghost use Rattle.poly_atom.specs.declared.atom.Atom.{Atom};
    ghost use Rattle.poly_atom.specs.LogKept.{IsKept, rows};

    ghost Value = { List (List Atom) };

    ghost view = { λ l. rows l.starts.items l.guards.items };

    ghost invariant = { λ l. IsKept l.starts.items l.guards.items };
}

impl GuardLog {
    /// A log without changes.
    pub fn new(alloc: Global) -> GuardLog
        ensures { result ≡ [] }
    {
        GuardLog {
            guards: Vec::new(alloc),
            starts: Vec::new(alloc),
        }
    }

    /// How many changes the log has.
    pub fn len(&self) -> usize
        ensures { result ≡ length self.now }
    {
        self.starts.len()
    }

    /// Whether the log has no changes.
    pub fn is_empty(&self) -> bool
        ensures { IsTrue result ↔ (length self.now ≡ 0) }
    {
        self.len() == 0
    }

    /// How many guards the log has in all.
    pub fn total(&self) -> usize
        ensures { result ≡ length (flat self.now) }
    {
        self.guards.len()
    }

    /// The guards of all changes that led from this edition or a later one, in order.
    pub fn since(&self, edition: u64) -> &[Atom]
        ensures { result.now ≡ flat (drop edition self.now) }
    {
        rest(&self.guards, &self.starts, edition as usize)
    }

    /// The guards of the change that led from the edition; none if there was no such change.
    pub fn guards_of(&self, edition: u64) -> &[Atom]
        ensures value { result.now ≡ slice_index_or self.now edition [] }
        ensures small { AllSmall result.now }
    {
        part(&self.guards, &self.starts, edition as usize)
    }

    /// How many stairs the guards of the change that led from the edition have.
    pub fn stair_count(&self, edition: u64) -> usize
        ensures { result ≡ length (stairs (slice_index_or self.now edition [])) }
    {
        self.guards_of(edition).len()
    }

    /// Adds the guards of one more change. Requires that each can be negated, as each guard of a change can. Fails only when
    /// out of memory, and then leaves the log as it was.
    pub fn push(&mut self, guards: Vec<Atom>) -> Result<(), Refusal>
        requires { AllSmall guards.items }
        ensures ok { OnOk result (self.new ≡ self.old ++ guards.items ∷ []) }
        ensures err { OnErr result (self.new ≡ self.old) }
        ensures why { IfErr result (λ e. e ≡ Refusal.Memory) }
    {
        let start = self.guards.len();
        self.starts.reserve(1)?;
        self.guards.extend_from_slice(&guards)?;
        self.starts.push_reserved(start);
        Ok(())
    }

    /// Removes the guards of the last change. Requires that there is one.
    pub fn pop(&mut self)
        requires { 0 < length self.old }
        ensures { self.new ≡ without_last self.old }
    {
        if let Some(start) = self.starts.pop() {
            self.guards.truncate(start);
        }
    }

    /// Drops the guards of the changes that led from an edition before this one, and gives back the memory that they took.
    /// These changes still count, but have no guards any more. Never fails.
    pub fn forget_before(&mut self, edition: u64)
        ensures { self.new ≡ forgotten edition self.old }
    {
        drop_before(&mut self.guards, &mut self.starts, edition as usize);
    }
}

// Drops the guards of the changes that led from an edition before this one. The guards of the other changes move to the front.
fn drop_before(guards: &mut Vec<Atom>, starts: &mut Vec<usize>, edition: usize)
    requires { IsKept starts.old.items guards.old.items }
    ensures value { rows starts.new.items guards.new.items ≡ forgotten edition (rows starts.old.items guards.old.items) }
    ensures kept { IsKept starts.new.items guards.new.items }
{
    let start = start_of(guards, starts, edition);
    let count = guards.len() - start;
    guards.copy_within(start.., 0);
    guards.truncate(count);
    guards.shrink_to_fit();
    lower_all(starts, start);
}

// Lowers each number by `count`, or to 0 if it is less.
fn lower_all(starts: &mut [usize], count: usize)
    ensures { starts.new ≡ map (λ s. s - count) starts.old }
{
    for start in starts.iter_mut() {
        *start = start.saturating_sub(count);
    }
}

fn rest<'a>(guards: &'a [Atom], starts: &'a [usize], edition: usize) -> &'a [Atom]
    requires { IsKept starts.now guards.now }
    ensures { result.now ≡ flat (drop edition (rows starts.now guards.now)) }
{
    let start = start_of(guards, starts, edition);
    &guards[start..]
}

fn part<'a>(guards: &'a [Atom], starts: &'a [usize], edition: usize) -> &'a [Atom]
    requires { IsKept starts.now guards.now }
    ensures value { result.now ≡ slice_index_or (rows starts.now guards.now) edition [] }
    ensures small { AllSmall result.now }
{
    let start = start_of(guards, starts, edition);
    let end = end_of(guards, starts, edition);
    &guards[start..end]
}

// Where the guards of the change that led from the edition start; the end of the guards if there was no such change.
fn start_of(guards: &[Atom], starts: &[usize], edition: usize) -> usize
    requires { IsKept starts.now guards.now }
    ensures value { result ≡ length (flat (take edition (rows starts.now guards.now))) }
    ensures inside { result ≤ length guards.now }
{
    if edition < starts.len() {
        starts[edition]
    } else {
        guards.len()
    }
}

// Where the guards of the change that led from the edition end; the end of the guards if there was no such change.
fn end_of(guards: &[Atom], starts: &[usize], edition: usize) -> usize
    requires { IsKept starts.now guards.now }
    ensures value { result ≡ length (flat (take (edition + 1) (rows starts.now guards.now))) }
    ensures inside { result ≤ length guards.now }
{
    if edition < starts.len() {
        start_of(guards, starts, edition + 1)
    } else {
        guards.len()
    }
}
