//! Parts of the guard log that atoms are read from.
ghost use Rattle.std.specs.Prelude.{◌≡◌, ◌++◌, ◌≤◌, IfErr, IfSome, OnOk, length, take};
ghost use Rattle.std.specs.List.{filter};
ghost use Rattle.poly_atom.specs.Logs.{IsStairOf, stair_of};
ghost use Rattle.poly_tasks.specs.Judged.{is_harmful};
ghost use Rattle.poly_tasks.specs.Meaning.{AreExcerpts, IsExcerpt, edition_of, excerpt_of, excerpts_of};
ghost use Rattle.poly_tasks.specs.Spots.{IsSpots};

use crate::harm::append_lacks;
use crate::spots::Spots;
use crate::task::{is_same_list, is_stair};
use poly_atom::{Atom, GuardLog, Stair};
use poly_grid::Refusal;

/// Atoms that are read from the guard log.
#[derive(Clone, Copy)]
pub enum Excerpt {
    /// Some of the guards that the log has from an edition on: that edition, and how many of them.
    Guards(u64, usize),
    /// A stair of a change.
    Stair(Stair),
}

impl Excerpt {
    /// The first edition that it is read from.
    pub(crate) fn edition(&self) -> u64
        ensures { result ≡ edition_of self.now }
    {
        match self {
            Excerpt::Guards(edition, _) => *edition,
            Excerpt::Stair(stair) => stair.edition,
        }
    }

    /// Appends the atoms to the buffer.
    pub(crate) fn append_to(&self, log: &GuardLog, buffer: &mut Vec<Atom>) -> Result<(), Refusal>
        requires { IsExcerpt log.now self.now }
        ensures ok { OnOk result (buffer.new.items ≡ buffer.old.items ++ excerpt_of log.now self.now) }
        ensures why { IfErr result (λ e. e ≡ Refusal.Memory) }
    {
        match self {
            Excerpt::Guards(edition, count) => {
                let since = log.since(*edition);
                buffer.extend_from_slice(&since[..*count])?;
                Ok(())
            }
            Excerpt::Stair(stair) => {
                stair.append_to(log, buffer)?;
                Ok(())
            }
        }
    }

    /// Appends those of the atoms that are a `Lacks` of one of the placements that were looked for.
    pub(crate) fn append_harmful(
        &self,
        log: &GuardLog,
        spots: &Spots,
        atoms: &mut Vec<Atom>,
    ) -> Result<(), Refusal>
        requires excerpt { IsExcerpt log.now self.now }
        requires spots { IsSpots log.now spots.now }
        ensures ok { OnOk result (atoms.new.items ≡ atoms.old.items ++ filter (is_harmful spots.now.placements.items) (excerpt_of log.now self.now)) }
        ensures why { IfErr result (λ e. e ≡ Refusal.Memory) }
    {
        match self {
            Excerpt::Guards(edition, count) => spots.append_since(log, *edition, *count, atoms),
            Excerpt::Stair(stair) => append_harmful_of(log, stair, spots, atoms),
        }
    }

    /// How many atoms come before these, if the list ends with these.
    pub(crate) fn before(&self, log: &GuardLog, atoms: &[Atom]) -> Option<usize>
        requires { IsExcerpt log.now self.now }
        ensures low { IfSome result (λ n. n ≤ length atoms.now) }
        ensures same { IfSome result (λ n. take n atoms.now ++ excerpt_of log.now self.now ≡ atoms.now) }
    {
        match self {
            Excerpt::Guards(edition, count) => {
                let since = log.since(*edition);
                before_guards(&since[..*count], atoms)
            }
            Excerpt::Stair(stair) => before_stair(log, stair, atoms),
        }
    }
}

/// Appends the atoms of the excerpts to the buffer.
pub(crate) fn append_excerpts(
    excerpts: &[Excerpt],
    log: &GuardLog,
    buffer: &mut Vec<Atom>,
) -> Result<(), Refusal>
    requires { AreExcerpts log.now excerpts.now }
    ensures ok { OnOk result (buffer.new.items ≡ buffer.old.items ++ excerpts_of log.now excerpts.now) }
    ensures why { IfErr result (λ e. e ≡ Refusal.Memory) }
{
    for excerpt in excerpts {
        excerpt.append_to(log, buffer)?;
    }
    Ok(())
}

/// Appends those atoms of the stair that are a `Lacks` of one of the placements that were looked for.
pub(crate) fn append_harmful_of(
    log: &GuardLog,
    stair: &Stair,
    spots: &Spots,
    atoms: &mut Vec<Atom>,
) -> Result<(), Refusal>
    requires stair { IsStairOf log.now stair.now }
    requires spots { IsSpots log.now spots.now }
    ensures ok { OnOk result (atoms.new.items ≡ atoms.old.items ++ filter (is_harmful spots.now.placements.items) (stair_of log.now stair.now)) }
    ensures why { IfErr result (λ e. e ≡ Refusal.Memory) }
{
    spots.append_since(log, stair.edition, stair.index, atoms)?;
    let last = [log.guards_of(stair.edition)[stair.index].negated()];
    append_lacks(&last, spots.placements(), atoms)?;
    Ok(())
}

// How many atoms come before the guards, if the list ends with them.
fn before_guards(guards: &[Atom], atoms: &[Atom]) -> Option<usize>
    ensures low { IfSome result (λ n. n ≤ length atoms.now) }
    ensures same { IfSome result (λ n. take n atoms.now ++ guards.now ≡ atoms.now) }
{
    if atoms.len() < guards.len() {
        return None;
    }
    let count = atoms.len() - guards.len();
    if is_same_list(&atoms[count..], guards) {
        return Some(count);
    }
    None
}

// How many atoms come before the stair, if the list ends with it.
fn before_stair(log: &GuardLog, stair: &Stair, atoms: &[Atom]) -> Option<usize>
    requires { IsStairOf log.now stair.now }
    ensures low { IfSome result (λ n. n ≤ length atoms.now) }
    ensures same { IfSome result (λ n. take n atoms.now ++ stair_of log.now stair.now ≡ atoms.now) }
{
    if atoms.len() <= stair.index {
        return None;
    }
    let count = atoms.len() - stair.index - 1;
    if is_stair(log, stair, &atoms[count..]) {
        return Some(count);
    }
    None
}
