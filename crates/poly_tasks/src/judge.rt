//! Which stairs of a change are hopeless after a list of atoms.
//!
//! A stair of a change is the guards before one of them, followed by the negation of that one. A change that adds placements
//! has a `Lacks` for each of them, and these guards come before its others. No two of them lack the same placement, so each does
//! harm only to what the atoms ask for and to pins. It is therefore judged once for each of them whether the atoms go on with
//! it. If they do, the stair after it is hopeless only if its last atom is so with the atoms. So the time is in proportion to the
//! number of these guards, not to its square.
ghost use Rattle.std.specs.Prelude.{◌≡◌, ◌≤◌, ◌<◌, ◌++◌, ◌||◌, ◌∷◌, [], IfErr, IfOk, OnOk, false, length, not, slice_index_or, take, true};
ghost use Rattle.std.specs.List.{list_any};
ghost use Rattle.poly_atom.specs.Atoms.{AllSmall, IsSmall, negated};
ghost use Rattle.poly_atom.specs.Hopeless.{hopeless};
ghost use Rattle.poly_atom.specs.Stairs.{stairs};
ghost use Rattle.poly_tasks.specs.Judged.{AreAlone, AreCalm, AreJudged, AreLacks, AreRuledOut, LackOnce};

use crate::task::is_other;
use poly_atom::{Atom, hopeless};
use poly_grid::Refusal;
use poly_tiling::View;

/// Judges which stairs of the guards aren't hopeless after the atoms, if nothing is known of them yet. The flags come in place of
/// those that were there, and `calm` is overwritten. If no flag is true, returns `false`.
pub(crate) fn judge_first(
    view: &View,
    atoms: &mut Vec<Atom>,
    guards: &[Atom],
    calm: &mut Vec<bool>,
    flags: &mut Vec<bool>,
) -> Result<bool, Refusal>
    requires small { AllSmall guards.now }
    requires once { LackOnce guards.now }
    ensures atoms { OnOk result (atoms.new.items ≡ atoms.old.items) }
    ensures flags { OnOk result (AreJudged view.now atoms.old.items (stairs guards.now) flags.new.items) }
    ensures any { IfOk result (λ yes. yes ≡ list_any (λ f. f) flags.new.items) }
    ensures why { IfErr result (λ e. e ≡ Refusal.Memory) }
{
    let lead = lead_of(guards);
    calm_stairs(view, atoms, &guards[..lead], calm)?;
    let any = judge_stairs(view, atoms, guards, lead, calm, flags)?;
    Ok(any)
}

/// How many guards come before the first one that is no `Lacks`.
pub(crate) fn lead_of(guards: &[Atom]) -> usize
    ensures most { result ≤ length guards.now }
    ensures lacks { AreLacks (take result guards.now) }
{
    for k in 0..guards.len() {
        if is_other(&guards[k]) {
            return k;
        }
    }
    guards.len()
}

// Tells of each guard whether the atoms aren't hopeless with any one of the guards before it.
fn calm_stairs(
    view: &View,
    atoms: &mut Vec<Atom>,
    guards: &[Atom],
    calm: &mut Vec<bool>,
) -> Result<(), Refusal>
    ensures atoms { OnOk result (atoms.new.items ≡ atoms.old.items) }
    ensures calm { OnOk result (AreCalm view.now atoms.old.items guards.now calm.new.items) }
    ensures why { IfErr result (λ e. e ≡ Refusal.Memory) }
{
    calm.clear();
    let mut stays = true;
    for index in 0..guards.len() {
        calm.push(stays)?;
        if index + 1 == guards.len() {
            // no guard is left that this one comes before
            return Ok(());
        }
        if stays {
            stays = !ends_with(view, atoms, guards[index])?;
        }
    }
    Ok(())
}

/// Judges which stairs of the guards aren't hopeless after the atoms. The flags come in place of those that were there. If none is
/// true, returns `false`. The stairs that `hopes` rules out are known to be hopeless; each other one of the first `lead` stairs is
/// hopeless exactly if the atoms are so with its last atom.
pub(crate) fn judge_stairs(
    view: &View,
    atoms: &mut Vec<Atom>,
    guards: &[Atom],
    lead: usize,
    hopes: &[bool],
    flags: &mut Vec<bool>,
) -> Result<bool, Refusal>
    requires small { AllSmall guards.now }
    requires lead { lead ≤ length guards.now }
    requires long { lead ≤ length hopes.now }
    requires out { AreRuledOut view.now atoms.old.items (stairs guards.now) hopes.now }
    requires alone { AreAlone view.now atoms.old.items guards.now lead hopes.now }
    ensures atoms { OnOk result (atoms.new.items ≡ atoms.old.items) }
    ensures flags { OnOk result (AreJudged view.now atoms.old.items (stairs guards.now) flags.new.items) }
    ensures any { IfOk result (λ yes. yes ≡ list_any (λ f. f) flags.new.items) }
    ensures why { IfErr result (λ e. e ≡ Refusal.Memory) }
{
    let count = atoms.len();
    flags.clear();
    judge_lead(view, atoms, guards, lead, hopes, flags)?;
    atoms.extend_from_slice(&guards[..lead])?;
    for index in lead..guards.len() {
        let known = is_ruled_out(hopes, index);
        let ends = ends_at(view, atoms, &guards[index], known)?;
        flags.push(!ends)?;
        atoms.push(guards[index])?;
    }
    atoms.truncate(count);
    Ok(flags.contains(&true))
}

// Judges the first `lead` stairs, and appends a flag for each.
fn judge_lead(
    view: &View,
    atoms: &mut Vec<Atom>,
    guards: &[Atom],
    lead: usize,
    hopes: &[bool],
    flags: &mut Vec<bool>,
) -> Result<(), Refusal>
    requires small { AllSmall guards.now }
    requires lead { lead ≤ length guards.now }
    requires long { lead ≤ length hopes.now }
    requires out { AreRuledOut view.now atoms.old.items (stairs guards.now) hopes.now }
    requires alone { AreAlone view.now atoms.old.items guards.now lead hopes.now }
    requires flags { flags.old.items ≡ [] }
    ensures atoms { OnOk result (atoms.new.items ≡ atoms.old.items) }
    ensures flags { OnOk result (AreJudged view.now atoms.old.items (take lead (stairs guards.now)) flags.new.items) }
    ensures why { IfErr result (λ e. e ≡ Refusal.Memory) }
{
    for index in 0..lead {
        let known = is_ruled_out(hopes, index);
        let ends = ends_at(view, atoms, &guards[index], known)?;
        flags.push(!ends)?;
    }
    Ok(())
}

// Whether the atoms are hopeless with the negation of the guard. If `known`, the answer is yes, and nothing is judged.
fn ends_at(view: &View, atoms: &mut Vec<Atom>, guard: &Atom, known: bool) -> Result<bool, Refusal>
    requires { IsSmall guard.now }
    ensures ok { IfOk result (λ yes. yes ≡ (known || hopeless view.now (atoms.old.items ++ negated guard.now ∷ []))) }
    ensures atoms { OnOk result (atoms.new.items ≡ atoms.old.items) }
    ensures why { IfErr result (λ e. e ≡ Refusal.Memory) }
{
    if known {
        return Ok(true);
    }
    let ends = ends_with(view, atoms, guard.negated())?;
    Ok(ends)
}

// Whether the atoms are hopeless with one more.
fn ends_with(view: &View, atoms: &mut Vec<Atom>, more: Atom) -> Result<bool, Refusal>
    ensures ok { IfOk result (λ yes. yes ≡ hopeless view.now (atoms.old.items ++ more ∷ [])) }
    ensures atoms { OnOk result (atoms.new.items ≡ atoms.old.items) }
    ensures why { IfErr result (λ e. e ≡ Refusal.Memory) }
{
    atoms.push(more)?;
    let ends = hopeless(view, atoms);
    let _ = atoms.pop();
    Ok(ends)
}

// Whether there is a flag at the index, and it is false.
fn is_ruled_out(hopes: &[bool], index: usize) -> bool
    ensures out { result ≡ true → (index < length hopes.now) × (slice_index_or hopes.now index true ≡ false) }
    ensures not_out { index < length hopes.now → result ≡ not (slice_index_or hopes.now index true) }
{
    if index >= hopes.len() {
        return false;
    }
    !hopes[index]
}
