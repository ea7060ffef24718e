//! Whether a tree holds, and what its leaves are: one walk over a frame finds both.
ghost use Rattle.std.specs.Prelude.{IfErr, IfOk, MatchOption, [], false, length, true, ◌+◌, ◌++◌, ◌<◌, ◌≡◌, ◌≤◌};
ghost use Rattle.poly_tiling.specs.Lists.{distinct};
ghost use Rattle.poly_frame.specs.Matrices.{IsWhole};
ghost use Rattle.poly_report.specs.Trees.{heads};
ghost use Rattle.poly_report.specs.Shapes.{arms_list, plan_of};
ghost use Rattle.poly_report.specs.Sizes.{arms_total, fits, total};
ghost use Rattle.poly_report.specs.Holds.{arms_hold, holds};
ghost use Rattle.poly_report.specs.Leaves.{arms_tilings, rests, tilings};
ghost use Rattle.poly_report.specs.Paths.{arms_paths, paths};
ghost use Rattle.poly_report.specs.Gather.{IsCutUp, taken_holds, taken_paths, taken_tilings};
ghost use Rattle.poly_frame.specs.declared.frame.TheConstants.{STEPS};

use crate::arms::arms_fit;
use crate::gathered::Gathered;
use crate::leaf::Leaves;
use crate::tree::{Arm, Tree};
use poly_atom::Atom;
use poly_frame::{Frame, Matrix};
use poly_grid::Refusal;
use poly_tiling::View;
use std::alloc::Global;

// Returns whether the tree holds for the frame's atoms. If it holds, the frame stays as it was, and the tree's leaves are
// added to `out` if `keep` is set.
#[cycle(walk)]
fn walk(
    alloc: Global,
    frame: &mut Frame<'_>,
    tree: &Tree,
    keep: bool,
    out: &mut Gathered,
) -> Result<bool, Refusal>
    requires begun { frame.old.given ≤ length frame.old.atoms }
    requires steps { length frame.old.atoms + total (plan_of tree.now) ≤ frame.old.given + STEPS + 1 }
    ensures same { IfOk result (λ yes. yes ≡ true → frame.new ≡ frame.old) }
    ensures says { IfOk result (λ yes. yes ≡ holds frame.old.scene frame.old.atoms (plan_of tree.now)) }
    ensures tilings { IfOk result (λ yes. yes ≡ true → keep ≡ true → out.new.tilings.items ≡ out.old.tilings.items ++ tilings frame.old.scene frame.old.atoms (plan_of tree.now)) }
    ensures paths { IfOk result (λ yes. yes ≡ true → keep ≡ true → out.new.paths ≡ out.old.paths ++ paths frame.old.given frame.old.scene frame.old.atoms (plan_of tree.now)) }
    ensures why { IfErr result (λ e. e ≡ Refusal.Memory) }
{
    match tree {
        Tree::Rest => {
            if keep {
                out.push_rest(frame)?;
            }
            Ok(true)
        }
        Tree::Found => {
            if !frame.none_open() {
                return Ok(false);
            }
            if keep {
                out.push_found(alloc, frame)?;
            }
            Ok(true)
        }
        Tree::Branch { item, arms } => {
            if !arms_fit(frame, item, arms) {
                return Ok(false);
            }
            walk_arms(alloc, frame, arms, keep, out)
        }
        Tree::Split {
            placement,
            taken,
            left,
        } => {
            let yes = walk_taken(alloc, frame, *placement, taken, keep, out)?;
            if !yes {
                return Ok(false);
            }
            frame.leave(*placement);
            let both = walk(alloc, frame, left, keep, out)?;
            if !both {
                return Ok(false);
            }
            frame.back();
            Ok(true)
        }
    }
}

// Walks the trees of a Branch's arms in order. The placement of each arm is left out for the arms after it.
#[cycle(walk)]
fn walk_arms(
    alloc: Global,
    frame: &mut Frame<'_>,
    arms: &[Arm],
    keep: bool,
    out: &mut Gathered,
) -> Result<bool, Refusal>
    requires begun { frame.old.given ≤ length frame.old.atoms }
    requires steps { length frame.old.atoms + arms_total (arms_list arms.now) ≤ frame.old.given + STEPS }
    requires once { distinct (heads (arms_list arms.now)) ≡ true }
    ensures same { IfOk result (λ yes. yes ≡ true → frame.new ≡ frame.old) }
    ensures says { IfOk result (λ yes. yes ≡ arms_hold frame.old.scene frame.old.atoms [] (arms_list arms.now)) }
    ensures tilings { IfOk result (λ yes. yes ≡ true → keep ≡ true → out.new.tilings.items ≡ out.old.tilings.items ++ arms_tilings frame.old.scene frame.old.atoms [] (arms_list arms.now)) }
    ensures paths { IfOk result (λ yes. yes ≡ true → keep ≡ true → out.new.paths ≡ out.old.paths ++ arms_paths frame.old.given frame.old.scene frame.old.atoms [] (arms_list arms.now)) }
    ensures why { IfErr result (λ e. e ≡ Refusal.Memory) }
{
    let level = frame.level();
    for arm in arms {
        let yes = walk_taken(alloc, frame, arm.placement, &arm.tree, keep, out)?;
        if !yes {
            return Ok(false);
        }
        frame.leave(arm.placement);
    }
    frame.backtrack_to(level);
    Ok(true)
}

// Walks the tree under a placement that is taken. The tree under a dead placement is not looked at. For a Branch without
// arms, `Frame::starves` tells whether it holds.
#[cycle(walk)]
fn walk_taken(
    alloc: Global,
    frame: &mut Frame<'_>,
    placement: u32,
    tree: &Tree,
    keep: bool,
    out: &mut Gathered,
) -> Result<bool, Refusal>
    requires begun { frame.old.given ≤ length frame.old.atoms }
    requires steps { length frame.old.atoms + total (plan_of tree.now) ≤ frame.old.given + STEPS }
    ensures same { IfOk result (λ yes. yes ≡ true → frame.new ≡ frame.old) }
    ensures says { IfOk result (λ yes. yes ≡ taken_holds frame.old.scene frame.old.atoms placement (plan_of tree.now)) }
    ensures tilings { IfOk result (λ yes. yes ≡ true → keep ≡ true → out.new.tilings.items ≡ out.old.tilings.items ++ taken_tilings frame.old.scene frame.old.atoms placement (plan_of tree.now)) }
    ensures paths { IfOk result (λ yes. yes ≡ true → keep ≡ true → out.new.paths ≡ out.old.paths ++ taken_paths frame.old.given frame.old.scene frame.old.atoms placement (plan_of tree.now)) }
    ensures why { IfErr result (λ e. e ≡ Refusal.Memory) }
{
    if frame.dead(placement) {
        return Ok(true);
    }
    if let Tree::Rest = tree {
        if keep {
            out.push_rest_with(frame, Atom::Has(placement))?;
        }
        return Ok(true);
    }
    if let Tree::Branch { item, arms } = tree {
        if arms.is_empty() {
            return Ok(frame.starves(placement, *item));
        }
    }
    frame.pick(placement);
    let yes = walk(alloc, frame, tree, keep, out)?;
    if !yes {
        return Ok(false);
    }
    frame.back();
    Ok(true)
}

/// Whether a tree holds. A tree that holds lists each tiling that meets the atoms or leaves that tiling to a rest. Requires
/// that the tree `fits`. The only refusal is `Memory`.
#[tactic(auto, using(crate::proofs::Measures::fits_total))]
pub fn holds(alloc: Global, view: &View, atoms: &[Atom], tree: &Tree) -> Result<bool, Refusal>
    requires { fits (plan_of tree.now) ≡ true }
    ensures value { IfOk result (λ yes. yes ≡ holds view.now atoms.now (plan_of tree.now)) }
    ensures why { IfErr result (λ e. e ≡ Refusal.Memory) }
{
    let mut frame = Frame::new(alloc, view, atoms)?;
    let mut none = Gathered::new(alloc);
    walk(alloc, &mut frame, tree, false, &mut none)
}

/// The leaves of a tree that holds, in the order of the tree: those of a Split's `taken` before those of its `left`.
/// Requires that the tree `fits` and holds. The only refusal is `Memory`.
pub fn leaves(alloc: Global, view: &View, atoms: &[Atom], tree: &Tree) -> Result<Leaves, Refusal>
    requires small { fits (plan_of tree.now) ≡ true }
    requires right { holds view.now atoms.now (plan_of tree.now) ≡ true }
    ensures tilings { IfOk result (λ l. l.tilings.items ≡ tilings view.now atoms.now (plan_of tree.now)) }
    ensures rests { IfOk result (λ l. l.rests ≡ rests view.now atoms.now (plan_of tree.now)) }
    ensures why { IfErr result (λ e. e ≡ Refusal.Memory) }
{
    match cut_up(alloc, view, atoms, tree)? {
        Some(leaves) => Ok(leaves),
        None => unreachable!(),
    }
}

/// The leaves of a tree, if it holds, and `None` if it doesn't. One walk does what `holds` and `leaves` do. Requires that
/// the tree `fits`. The only refusal is `Memory`.
pub fn cut_up(
    alloc: Global,
    view: &View,
    atoms: &[Atom],
    tree: &Tree,
) -> Result<Option<Leaves>, Refusal>
    requires { fits (plan_of tree.now) ≡ true }
    ensures value { IfOk result (λ o. MatchOption o (holds view.now atoms.now (plan_of tree.now) ≡ false) (λ l. IsCutUp view.now atoms.now (plan_of tree.now) l.tilings.items (l.rests))) }
    ensures why { IfErr result (λ e. e ≡ Refusal.Memory) }
{
    let whole = Matrix::new(alloc, view)?;
    cut_up_over(alloc, view, &whole, atoms, tree)
}

/// Does what `cut_up` does, but takes the view's matrix, so that many trees can be checked with one matrix. Requires that
/// `whole` is the view's matrix, from [`Matrix::new`], and that the tree `fits`. The only refusal is `Memory`.
pub fn cut_up_over(
    alloc: Global,
    view: &View,
    whole: &Matrix,
    atoms: &[Atom],
    tree: &Tree,
) -> Result<Option<Leaves>, Refusal>
    requires small { fits (plan_of tree.now) ≡ true }
    requires whole { IsWhole view.now whole.now }
    ensures value { IfOk result (λ o. MatchOption o (holds view.now atoms.now (plan_of tree.now) ≡ false) (λ l. IsCutUp view.now atoms.now (plan_of tree.now) l.tilings.items (l.rests))) }
    ensures why { IfErr result (λ e. e ≡ Refusal.Memory) }
{
    let mut frame = Frame::over(alloc, view, whole, atoms)?;
    leaves_on(alloc, &mut frame, atoms, tree)
}

// The leaves of the tree, if it holds for the atoms. The frame is to be one with these atoms and no step.
#[tactic(auto, using(crate::proofs::Measures::fits_total))]
fn leaves_on(
    alloc: Global,
    frame: &mut Frame<'_>,
    atoms: &[Atom],
    tree: &Tree,
) -> Result<Option<Leaves>, Refusal>
    requires small { fits (plan_of tree.now) ≡ true }
    requires atoms { frame.old.atoms ≡ atoms.now }
    requires given { frame.old.given ≡ length atoms.now }
    ensures value { IfOk result (λ o. MatchOption o (holds frame.old.scene atoms.now (plan_of tree.now) ≡ false) (λ l. IsCutUp frame.old.scene atoms.now (plan_of tree.now) l.tilings.items (l.rests))) }
    ensures why { IfErr result (λ e. e ≡ Refusal.Memory) }
{
    let mut all = Gathered::new(alloc);
    let yes = walk(alloc, frame, tree, true, &mut all)?;
    if !yes {
        return Ok(None);
    }
    let leaves = all.into_leaves(alloc, atoms)?;
    Ok(Some(leaves))
}
