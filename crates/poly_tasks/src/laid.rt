//! The guards that were laid on a frozen task.
//!
//! Tasks that were made by the same change have the same guards. So these are read once for all of them, and judged as far as they can
//! be alone: an `AtLeast` or `AtMost` is hopeless alone, whatever it stands beside, or does no harm to any list.
ghost use Rattle.std.specs.Prelude.{◌≡◌, ◌++◌, ◌∷◌, [], IfErr, List, OnOk};
ghost use Rattle.std.specs.List.{filter, list_any};
ghost use Rattle.poly_atom.specs.declared.atom.Atom.{Atom as AtomOf};
ghost use Rattle.poly_atom.specs.Hopeless.{hopeless};
ghost use Rattle.poly_lists.specs.Words.{is_other};
ghost use Rattle.poly_tiling.specs.Puzzle.{View as ViewOf};
ghost use Rattle.poly_tasks.specs.Judged.{is_has};
ghost use Rattle.poly_tasks.specs.Meaning.{IsFrozen, IsLaid, laid_of};

use crate::shelf::Frozen;
use crate::task::append_others_of;
use poly_atom::{Atom, GuardLog, hopeless};
use poly_grid::Refusal;
use poly_tiling::View;
use std::alloc::Global;

/// The guards that were laid on a frozen task, as they are judged by the view of a change.
#[derive(Drop)]
pub(crate) struct Laid {
    /// The edition at which the task was made.
    made: u64,
    /// How many guards were laid on it.
    count: usize,
    /// These guards without each `Lacks`.
    others: Vec<Atom>,
    /// Each `Has` among them.
    asks: Vec<Atom>,
    /// Whether one of them is hopeless alone, other than a `Lacks`.
    spoils: bool,
}

impl Laid {
    /// No guards.
    pub(crate) fn none(alloc: Global) -> Laid
        ensures { (w : ViewOf) (log : List (List AtomOf)) → IsLaid w log result }
    {
        Laid {
            made: 0,
            count: 0,
            others: Vec::new(alloc),
            asks: Vec::new(alloc),
            spoils: false,
        }
    }

    /// The guards without each `Lacks`.
    pub(crate) fn others(&self) -> &[Atom]
        ensures { result.now ≡ self.now.others.items }
    {
        &self.others
    }

    /// Each `Has` among the guards.
    pub(crate) fn asks(&self) -> &[Atom]
        ensures { result.now ≡ self.now.asks.items }
    {
        &self.asks
    }

    /// Whether one of the guards is hopeless alone, other than a `Lacks`. Then so is each task that they were laid on.
    pub(crate) fn spoils(&self) -> bool
        ensures { result ≡ self.now.spoils }
    {
        self.spoils
    }

    /// Reads and judges the guards that were laid on the frozen task, unless these are the ones that were read last.
    pub(crate) fn read(
        &mut self,
        view: &View,
        log: &GuardLog,
        frozen: &Frozen,
    ) -> Result<(), Refusal>
        requires frozen { IsFrozen log.now frozen.now }
        requires laid { IsLaid view.now log.now self.old }
        ensures laid { OnOk result (IsLaid view.now log.now self.new) }
        ensures others { OnOk result (self.new.others.items ≡ filter is_other (laid_of log.now frozen.now)) }
        ensures why { IfErr result (λ e. e ≡ Refusal.Memory) }
    {
        if self.made == frozen.made && self.count == frozen.count {
            return Ok(());
        }
        let since = log.since(frozen.made);
        self.others.clear();
        append_others_of(&since[..frozen.count], &mut self.others)?;
        self.asks.clear();
        append_asks(&self.others, &mut self.asks)?;
        self.spoils = any_spoils(view, &self.others);
        self.made = frozen.made;
        self.count = frozen.count;
        Ok(())
    }
}

// Appends each `Has` among the atoms.
fn append_asks(atoms: &[Atom], buffer: &mut Vec<Atom>) -> Result<(), Refusal>
    ensures ok { OnOk result (buffer.new.items ≡ buffer.old.items ++ filter is_has atoms.now) }
    ensures why { IfErr result (λ e. e ≡ Refusal.Memory) }
{
    for atom in atoms {
        if is_has(atom) {
            buffer.push(*atom)?;
        }
    }
    Ok(())
}

fn is_has(atom: &Atom) -> bool
    ensures { result ≡ is_has atom.now }
{
    match atom {
        Atom::Has(_) => true,
        Atom::Lacks(_) => false,
        Atom::AtLeast(_, _) => false,
        Atom::AtMost(_, _) => false,
    }
}

// Whether one of the atoms is hopeless alone.
fn any_spoils(view: &View, atoms: &[Atom]) -> bool
    ensures { result ≡ list_any (λ a. hopeless view.now (a ∷ [])) atoms.now }
{
    atoms.iter().any(|atom| is_spoiler(view, *atom))
}

fn is_spoiler(view: &View, atom: Atom) -> bool
    ensures { result ≡ hopeless view.now (atom ∷ []) }
{
    hopeless(view, &[atom])
}
