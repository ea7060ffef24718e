//! Which `Lacks` of a frozen task can do harm with the stairs of a change.
//!
//! A `Lacks` makes a list hopeless only if its placement is a pin, or if the list asks for it. A frozen task lacks no placement that
//! its own atoms ask for. So to judge the stairs of some guards after it, its thousands of `Lacks` can be left out, but for those of
//! a pin, of a placement that the guards name, and of one that the guards laid on the task ask for. If a change is undone that only
//! asked for something more, as `cell 5,5 required`, there are none of these, and no `Lacks` is read.
ghost use Rattle.std.specs.Prelude.{◌≡◌, ◌++◌, ◌∷◌, [], IfErr, IfOk, OnOk};
ghost use Rattle.std.specs.List.{filter};
ghost use Rattle.poly_tasks.specs.Judged.{is_harmful, named};

use poly_atom::Atom;
use poly_grid::Refusal;
use poly_tiling::{View, has_number};
use std::alloc::Global;

/// The pins of the view, and the placements that the guards ask for or lack.
pub(crate) fn harmed_by(alloc: Global, view: &View, guards: &[Atom]) -> Result<Vec<u32>, Refusal>
    ensures ok { IfOk result (λ v. v.items ≡ view.now.pins ++ named guards.now) }
    ensures why { IfErr result (λ e. e ≡ Refusal.Memory) }
{
    let mut placements = Vec::from_slice(alloc, view.pins())?;
    append_named(guards, &mut placements)?;
    Ok(placements)
}

/// Writes these placements, and those that the atoms ask for or lack, to the buffer, in place of what it had.
pub(crate) fn write_harmed(
    harmed: &[u32],
    atoms: &[Atom],
    buffer: &mut Vec<u32>,
) -> Result<(), Refusal>
    ensures ok { OnOk result (buffer.new.items ≡ harmed.now ++ named atoms.now) }
    ensures why { IfErr result (λ e. e ≡ Refusal.Memory) }
{
    buffer.clear();
    buffer.extend_from_slice(harmed)?;
    append_named(atoms, buffer)?;
    Ok(())
}

// Appends the placements that the atoms ask for or lack.
fn append_named(atoms: &[Atom], placements: &mut Vec<u32>) -> Result<(), Refusal>
    ensures ok { OnOk result (placements.new.items ≡ placements.old.items ++ named atoms.now) }
    ensures why { IfErr result (λ e. e ≡ Refusal.Memory) }
{
    for atom in atoms {
        append_placement(atom, placements)?;
    }
    Ok(())
}

// Appends the placement that the atom asks for or lacks, if it is about one.
fn append_placement(atom: &Atom, placements: &mut Vec<u32>) -> Result<(), Refusal>
    ensures ok { OnOk result (placements.new.items ≡ placements.old.items ++ named (atom.now ∷ [])) }
    ensures why { IfErr result (λ e. e ≡ Refusal.Memory) }
{
    match atom {
        Atom::Has(p) => {
            placements.push(*p)?;
            Ok(())
        }
        Atom::Lacks(p) => {
            placements.push(*p)?;
            Ok(())
        }
        Atom::AtLeast(_, _) => Ok(()),
        Atom::AtMost(_, _) => Ok(()),
    }
}

/// Appends each `Lacks` of the list that is about one of the placements.
pub(crate) fn append_lacks(
    list: &[Atom],
    placements: &[u32],
    atoms: &mut Vec<Atom>,
) -> Result<(), Refusal>
    ensures ok { OnOk result (atoms.new.items ≡ atoms.old.items ++ filter (is_harmful placements.now) list.now) }
    ensures why { IfErr result (λ e. e ≡ Refusal.Memory) }
{
    for atom in list {
        if is_harmful(placements, atom) {
            atoms.push(*atom)?;
        }
    }
    Ok(())
}

/// Whether the atom is a `Lacks` of one of the placements.
pub(crate) fn is_harmful(placements: &[u32], atom: &Atom) -> bool
    ensures { result ≡ is_harmful placements.now atom.now }
{
    match atom {
        Atom::Has(_) => false,
        Atom::Lacks(p) => has_number(placements, *p),
        Atom::AtLeast(_, _) => false,
        Atom::AtMost(_, _) => false,
    }
}
